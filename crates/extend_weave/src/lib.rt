// The rows of an extension: the old rows and the row numbers of the new windows, woven into row records by one ascending loop over functions on a record by value and numbers.
#![tactic(auto)]

ghost use Rattle.std.specs.Prelude.{◌≡◌, ◌+◌, ◌*◌, ◌<◌, length};
ghost use Rattle.extend_weave.specs.Turn.{end_row, low_at, chosen_of, old_after, number_after, made_after, Cells, Cell};
ghost use Rattle.extend_weave.specs.Weave.{Weavable, Made};

use meaning_rows::Row;
use numbers::lower;
use rows_records::row_or;

// What stands past the last old row: a range above every other.
pub fn end_row() -> Row
    ensures { result ≡ end_row }
{
    Row {
        low: 2000000000,
        up: 2000000000,
        first: 0,
        runs: 0,
    }
}

// The low end of the range of number `i` of the first `count`, which are raised by `base`; past them an end above every range.
#[tactic(auto, unfolding(crate::specs::Turn::low_at))]
pub fn low_at(numbers: &[u32], count: usize, d: u64, base: u64, i: usize) -> i32
    requires { Cells numbers.now count d base }
    ensures { result ≡ low_at numbers.now count d base i }
{
    if i < count {
        let n = numbers[i] as u64 * d;
        lower(n, base * d)
    } else {
        2000000000
    }
}

// The record that a turn writes: a new row where the range at `low` lies below the next old row, else that row.
#[tactic(auto, unfolding(crate::specs::Turn::chosen_of))]
pub fn chosen(r: Row, low: i32, d: u64) -> Row
    requires { Cell low d }
    ensures { result ≡ chosen_of r low d }
{
    let least = r.low;
    if low < least {
        Row {
            low,
            up: low + d as i32,
            first: 0,
            runs: 0,
        }
    } else {
        r
    }
}

// How many old rows are passed after a turn: the next one is, where it does not reach `low`.
#[tactic(auto, unfolding(crate::specs::Turn::old_after))]
pub fn old_after(a: usize, r: Row, low: i32) -> usize
    requires { a < 18446744073709551615 }
    ensures { result ≡ old_after a r low }
{
    let up = r.up;
    if up <= low { a + 1 } else { a }
}

// How many numbers are passed after a turn.
#[tactic(auto, unfolding(crate::specs::Turn::number_after))]
pub fn number_after(b: usize, r: Row, low: i32) -> usize
    requires { b < 18446744073709551615 }
    ensures { result ≡ number_after b r low }
{
    let up = r.up;
    if low < up { b + 1 } else { b }
}

// How many records are made after a turn: one more, but where the next old row holds the range.
#[tactic(auto, unfolding(crate::specs::Turn::made_after))]
pub fn made_after(k: usize, r: Row, low: i32) -> usize
    requires { k < 18446744073709551615 }
    ensures { result ≡ made_after k r low }
{
    let least = r.low;
    let up = r.up;
    if least <= low && low < up { k } else { k + 1 }
}

// The records of the extension's rows, in order of their ranges; how many there are. An old row keeps its part of the old run buffer, and a new one has none.
pub fn weave_rows(
    old: &[Row],
    numbers: &[u32],
    count: usize,
    d: u64,
    base: u64,
    rows: &mut [Row],
) -> usize
    requires { Weavable old.now numbers.now count d base (length rows.old) }
    ensures { Made old.now numbers.now count d base rows.old result rows.new }
{
    let end = end_row();
    let turns = old.len() + count;
    let mut a: usize = 0;
    let mut b: usize = 0;
    let mut k: usize = 0;
    // A merge of two lists, each with a place of its own.
    while a + b < turns {
        let r = row_or(old, a, end);
        let low = low_at(numbers, count, d, base, b);
        rows[k] = chosen(r, low, d);
        let made = made_after(k, r, low);
        a = old_after(a, r, low);
        b = number_after(b, r, low);
        k = made;
    }
    k
}
