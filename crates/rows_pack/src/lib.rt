// Row records packed out of the table of row numbers and the ends of the rows' parts: a thin walked loop over a covered function that makes one record by value.
#![tactic(auto)]

ghost use Rattle.std.specs.Prelude.{◌≡◌, ◌+◌, ◌-◌, ◌*◌, ◌<◌, ◌≤◌, length};
ghost use Rattle.rows_pack.specs.Packed.{total, Summed, start_of, row_from, RowRoom, packed, Packable};

use meaning_rows::Row;
use numbers::lower;

// Each count is made the sum of the counts up to it: where its row's part ends.
pub fn sum_up(counts: &mut [u32], n: usize)
    requires { (n ≤ length counts.old) × (total counts.old n ≤ 4294967295) }
    ensures { Summed n counts.old counts.new }
{
    let mut sum = 0;
    for i in 0..n {
        sum += counts[i];
        counts[i] = sum;
    }
}

// Where the part of row `i` begins: at the end of the part before.
#[tactic(auto, unfolding(crate::specs::Packed::start_of))]
pub fn start_of(ends: &[u32], i: usize) -> u32
    requires { i < length ends.now }
    ensures { result ≡ start_of ends.now i }
{
    if i == 0 { 0 } else { ends[i - 1] }
}

// The record of row `i`: its range from its raised number, its part from where the part before ends up to its own end.
pub fn row_from(numbers: &[u32], ends: &[u32], d: u64, bias: u64, i: usize) -> Row
    requires { RowRoom numbers.now ends.now d bias i }
    ensures { result ≡ row_from numbers.now ends.now d bias i }
{
    let low = numbers[i] as u64 * d;
    let first = start_of(ends, i);
    Row {
        low: lower(low, bias),
        up: lower(low + d, bias),
        first,
        runs: ends[i] - first,
    }
}

// The first `n` records are made.
pub fn pack_rows(numbers: &[u32], ends: &[u32], d: u64, bias: u64, n: usize, rows: &mut [Row])
    requires { (n ≤ length rows.old) × Packable numbers.now ends.now d bias n }
    ensures { rows.new ≡ packed numbers.now ends.now d bias n rows.old }
{
    for i in 0..n {
        rows[i] = row_from(numbers, ends, d, bias, i);
    }
}
