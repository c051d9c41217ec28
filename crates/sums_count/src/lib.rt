// The runs of each row counted in one pass over the runs of a series, beside the table of its row numbers.
#![tactic(auto)]

ghost use Rattle.std.specs.Prelude.{◌≡◌, ℕ, ◌+◌, ◌-◌, ◌<◌, ◌≤◌, leb, length, get_or, take};
ghost use Rattle.meaning_numbers.specs.Sum.{bit};
ghost use Rattle.meaning_curves.specs.Limits.{widest_row};
ghost use Rattle.sums_slide.specs.Levels.{level, row_of, Lent, windows_of};
ghost use Rattle.sums_slide.specs.Picked.{Appended};
ghost use Rattle.sums_slide.specs.Table.{table};
ghost use Rattle.sums_count.specs.Tally.{Rising, Has, Counted};

use clear::clear;
use sums_slide::{first_place, list_rows, next_row, row_of_level};

// 1 where a number is at most `k`, else 0: a quotient, so that no jump depends on it. Nobody could foretell the jumps of a search.
pub fn at_most(x: u32, k: u64) -> usize
    requires { k < 4294967296 }
    ensures { result ≡ bit (leb x k) }
{
    ((k + 4294967296 - x as u64) / 4294967296) as usize
}

// The place of a number that a rising table has.
pub fn find_number(numbers: &[u32], count: usize, k: u64) -> usize
    requires count_in_bounds { count ≤ length numbers.now }
    requires rising { Rising numbers.now count }
    requires has { Has numbers.now count k }
    ensures { (result < count) × (get_or numbers.now result 0 ≡ k) }
{
    // std's `partition_point` jumps on each number that it reads.
    let mut lo = 0;
    let mut size = count;
    while 1 < size {
        let half = size / 2;
        let x = numbers[lo + half];
        lo += half * at_most(x, k);
        size -= half;
    }
    lo
}

// The number of runs of each row, beside its number in the table.
pub fn count_runs(
    s: &[i32],
    w: usize,
    e: u64,
    d: u64,
    numbers: &[u32],
    count: usize,
    counts: &mut [u32],
)
    requires lent { Lent s.now w e }
    requires le_d { (1 ≤ d) × (d ≤ widest_row) }
    requires count_value { (count ≡ length (table s.now w e d)) × (take count numbers.now ≡ table s.now w e d) × (count ≤ length numbers.now) × (count ≤ length counts.old) }
    requires by_index { (x : ℕ) → get_or counts.old x 0 ≡ 0 }
    ensures { Counted (row_of (level s.now w e) d) (windows_of s.now w) (table s.now w e d) counts.new }
{
    let windows = s.len() + 1 - w;
    let mut at = first_place(s, w, e);
    // A `while`: where the next turn begins is found in the body.
    while at.offset < windows {
        let k = row_of_level(at.level, d);
        let i = find_number(numbers, count, k);
        counts[i] += 1;
        at = next_row(s, w, e, d, k, at);
    }
}

// The table of row numbers in `numbers`, and beside it how many runs each row has in `counts`; how many rows there are.
pub fn plan(
    s: &[i32],
    w: usize,
    e: u64,
    d: u64,
    flags: &mut [u8],
    numbers: &mut [u32],
    counts: &mut [u32],
) -> usize
    requires lent { Lent s.now w e }
    requires le_d { (1 ≤ d) × (d ≤ widest_row) }
    requires in_bounds { (1 ≤ length flags.old) × (length flags.old ≤ 1000000) }
    requires d_in_bounds { (length (table s.now w e d) ≤ length numbers.old) × (length (table s.now w e d) ≤ length counts.old) }
    ensures appended { Appended (table s.now w e d) 0 result numbers.old numbers.new }
    ensures counted { Counted (row_of (level s.now w e) d) (windows_of s.now w) (table s.now w e d) counts.new }
{
    let n = list_rows(s, w, e, d, flags, numbers);
    clear(counts, 0, 0);
    count_runs(s, w, e, d, numbers, n, counts);
    n
}
