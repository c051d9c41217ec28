// The parts of the rows of an extension laid out: each row's record gets its part of the run buffer, which begins where the row before ends, and its old runs are copied to the front of it.
// While a part is not full, its last entry has the number of runs written.
#![tactic(auto)]

ghost use Rattle.std.specs.Prelude.{◌≡◌, ℕ, ◌+◌, ◌-◌, ◌<◌, ◌≤◌, length};
ghost use Rattle.extend_parts.specs.Lay.{with_part, laid_to, EndsRoom};
ghost use Rattle.extend_parts.specs.Copy.{part_size, written, part_copied, CopyRoom, old_passed, column_to, Copyable};

use extend_weave::end_row;
use meaning_rows::Row;
use rows_pack::start_of;
use rows_records::{row_at, row_or};

// A row's record with the part that the ends of the parts give it.
pub fn with_part(r: Row, ends: &[u32], i: usize) -> Row
    requires { EndsRoom ends.now i }
    ensures { result ≡ with_part r ends.now i }
{
    let first = start_of(ends, i);
    Row {
        low: r.low,
        up: r.up,
        first,
        runs: ends[i] - first,
    }
}

// Each of the first `count` records gets its part.
pub fn lay_rows(ends: &[u32], count: usize, rows: &mut [Row])
    requires { (count ≤ length rows.old) × ((i : ℕ) → i < count → EndsRoom ends.now i) }
    ensures { rows.new ≡ laid_to ends.now count rows.old }
{
    for i in 0..count {
        rows[i] = with_part(rows[i], ends, i);
    }
}

// How many old runs a row has: those of the old row, if it is the same one.
#[tactic(auto, unfolding(crate::specs::Copy::part_size))]
pub fn part_size(o: Row, r: Row) -> u32
    ensures { result ≡ part_size o r }
{
    let least = o.low;
    let low = r.low;
    if least <= low { o.runs } else { 0 }
}

// The first `n` numbers are copied to the front of a part of `size` entries; where they do not fill it, its last entry becomes their number.
pub fn write_part(numbers: &[u32], n: usize, size: usize, part: &mut [u32])
    requires { (n ≤ length numbers.now) × (n ≤ size) × (size ≤ length part.old) × (n < 4294967296) }
    ensures { part.new ≡ written n size numbers.now part.old }
{
    // A loop by hand: `copy_from_slice` calls C's `memmove`, a name that the archives for C would then need from outside.
    for t in 0..n {
        part[t] = numbers[t];
    }
    if n < size {
        part[size - 1] = n as u32;
    }
}

// A row's old runs, in one column, copied to the row's part, which is lent to its writer.
pub fn copy_part(o: Row, r: Row, from: &[u32], to: &mut [u32])
    requires { CopyRoom o r (length from.now) (length to.old) }
    ensures { to.new ≡ part_copied o r from.now to.old }
{
    let n = part_size(o, r) as usize;
    let source = o.first as usize;
    let first = r.first as usize;
    let size = r.runs as usize;
    write_part(&from[source..], n, size, &mut to[first..]);
}

// How many old rows are passed after a row: one more, if it is the next old row.
#[tactic(auto, unfolding(crate::specs::Copy::old_passed))]
pub fn old_passed(a: usize, o: Row, r: Row) -> usize
    requires { a < 18446744073709551615 }
    ensures { result ≡ old_passed a o r }
{
    let least = o.low;
    let low = r.low;
    if least <= low { a + 1 } else { a }
}

// One column of the old run buffer copied: each old row's runs to the part of its row.
pub fn copy_column(old: &[Row], from: &[u32], rows: &[Row], count: usize, to: &mut [u32])
    requires { Copyable old.now rows.now count (length from.now) (length to.old) }
    ensures { to.new ≡ column_to old.now from.now rows.now count to.old }
{
    let end = end_row();
    let mut a: usize = 0;
    for i in 0..count {
        let r = row_at(rows, i);
        let o = row_or(old, a, end);
        copy_part(o, r, from, to);
        a = old_passed(a, o, r);
    }
}
