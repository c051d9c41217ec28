// The runs of each row of an extension counted in one covered pass over the new windows: beside the raised upper ends of the rows, which ascend, stand the counts.
#![tactic(auto)]

ghost use Rattle.std.specs.Prelude.{◌≡◌, ◌+◌, ◌-◌, ◌<◌, ◌≤◌, length};
ghost use Rattle.sums_slide.specs.Levels.{level, Lent, windows_of};
ghost use Rattle.sums_slide.specs.Ends.{raised_end};
ghost use Rattle.meaning_rows.proofs.Grown.{last_ends};
ghost use Rattle.extend_count.specs.Listed.{listed, end_of, size_of, EndRoom, Listable};
ghost use Rattle.extend_count.specs.Rank.{rank, Climbing};
ghost use Rattle.extend_count.specs.Count.{Countable, Counted};

use meaning_rows::Row;
use rows_pack::start_of;
use rows_records::row_at;
use sums_slide::{Window, next_out, raise_end};
use values::raised_sum;

// An end of a range, raised; 0 where it lies below every raised sum.
pub fn raised_end(z: i32, bias: u64) -> u32
    requires { EndRoom z bias }
    ensures { result ≡ raised_end bias z }
{
    raise_end(z, bias) as u32
}

// The raised upper ends of the first `count` rows, and beside them how many runs each has.
pub fn list_ends(rows: &[Row], count: usize, bias: u64, ups: &mut [u32], counts: &mut [u32])
    requires { Listable rows.now count bias (length ups.old) (length counts.old) }
    ensures { (ups.new ≡ listed (end_of rows.now bias) count ups.old) × (counts.new ≡ listed (size_of rows.now) count counts.old) }
{
    for i in 0..count {
        let r = row_at(rows, i);
        ups[i] = raised_end(r.up, bias);
        counts[i] = r.runs;
    }
}

// How many of the first `count` ends are at most `n`: the place of the first end above it.
pub fn find_above(ups: &[u32], count: usize, n: u64) -> usize
    requires count_in_bounds { count ≤ length ups.now }
    requires climbing { Climbing ups.now count }
    ensures { result ≡ rank ups.now count n }
{
    ups[..count].partition_point(|&end| end as u64 <= n)
}

// The raised sum of a window, if there is one.
pub fn level_at(s: &[i32], w: usize, e: u64, j: usize) -> u64
    requires { Lent s.now w e }
    ensures { j < windows_of s.now w → result ≡ level s.now w e j }
{
    if j < s.len() + 1 - w {
        raised_sum(s, j, w) + e
    } else {
        0
    }
}

// Each run of the windows from `old` on counted in its row.
pub fn count_new(
    s: &[i32],
    w: usize,
    e: u64,
    old: usize,
    ups: &[u32],
    count: usize,
    counts: &mut [u32],
)
    requires { Countable s.now w e old ups.now count counts.old }
    ensures { Counted s.now w e old ups.now count counts.old (windows_of s.now w) counts.new }
{
    let windows = s.len() + 1 - w;
    let mut at = Window {
        offset: old,
        level: level_at(s, w, e, old),
    };
    // A `while`: where the next turn begins is found in the body.
    while at.offset < windows {
        let i = find_above(ups, count, at.level);
        counts[i] += 1;
        let low = start_of(ups, i) as u64;
        let up = ups[i] as u64;
        at = next_out(s, w, e, at, low, up);
    }
}

// The row's last run in the right column ends right before `j`.
#[tactic(auto, unfolding(meaning_rows::proofs::Grown::last_ends))]
pub fn last_ends(r: Row, right: &[u32], j: usize) -> bool
    requires { r.first + r.runs ≤ length right.now }
    ensures { result ≡ last_ends r right.now j }
{
    let first = r.first as usize;
    let runs = r.runs as usize;
    runs != 0 && right[first + runs - 1] as usize + 1 == j
}
