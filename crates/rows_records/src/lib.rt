// The lent row records: the functions that read, copy and clear them. Above, a function that takes `&[Row]` or `&mut [Row]` is thin and calls these; what it calls besides works on a `Row` by value, on a chunk of records by value, and on slices of numbers.
#![tactic(auto)]

ghost use Rattle.std.specs.Prelude.{◌≡◌, ◌++◌, ◌+◌, ◌-◌, ◌<◌, ◌≤◌, length, get_or, take, replicate};
ghost use Rattle.rows_records.specs.Records.{zero_row, copied, count_from, chunk_of};

use meaning_rows::Row;

// The record of zeros.
pub fn zero_row() -> Row
    ensures { result ≡ zero_row }
{
    Row {
        low: 0,
        up: 0,
        first: 0,
        runs: 0,
    }
}

// Record k.
pub fn row_at(rows: &[Row], k: usize) -> Row
    requires { k < length rows.now }
    ensures { result ≡ get_or rows.now k zero_row }
{
    rows[k]
}

// Record k, or another where there is none.
pub fn row_or(rows: &[Row], k: usize, none: Row) -> Row
    ensures { result ≡ get_or rows.now k none }
{
    rows.get(k).copied().unwrap_or(none)
}

// Every record from a place on is made the record of zeros.
pub fn clear_rows(rows: &mut [Row], from: usize)
    requires { from ≤ length rows.old }
    ensures { rows.new ≡ take from rows.old ++ replicate (length rows.old - from) zero_row }
{
    rows[from..].fill(zero_row());
}

// The n records from a place on become the first n of `out`.
pub fn copy_rows(rows: &[Row], from: usize, n: usize, out: &mut [Row])
    requires { (n ≤ length rows.now - from) × (n ≤ length out.old) }
    ensures { out.new ≡ copied rows.now from n out.old }
{
    if 0 < n {
        out[..n].copy_from_slice(&rows[from..from + n]);
    }
}

// How many of `size` records stand from a place on, where there are `count`.
pub fn count_from(count: usize, from: usize, size: usize) -> usize
    ensures { result ≡ count_from count from size }
{
    count.saturating_sub(from).min(size)
}

// A chunk of 64 records by value: those from a place on, and past the end the record of zeros.
pub fn chunk_at(rows: &[Row], from: usize) -> [Row; 64]
    ensures { result ≡ chunk_of rows.now from }
{
    let mut chunk = [zero_row(); 64];
    let n = count_from(rows.len(), from, 64);
    copy_rows(rows, from, n, &mut chunk);
    chunk
}
