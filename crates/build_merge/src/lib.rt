// Rows merged by counts alone: each run of a row has the names of the rows before and after it as its entry, so the runs of a union are counted without offsets.
#![tactic(auto)]

ghost use Rattle.std.specs.Prelude.{◌≡◌, ◌+◌, ◌≤◌, length};
ghost use Rattle.meaning_numbers.specs.Sum.{count};
ghost use Rattle.meaning_curves.specs.Limits.{greatest_merge};
ghost use Rattle.build_merge.specs.Names.{names_of};
ghost use Rattle.meaning_rows.specs.Build.{merged};
ghost use Rattle.build_merge.specs.Group.{touching, first_group, next_group, Joinable};
ghost use Rattle.rows_pack.specs.PackedAs.{PackedAs};
ghost use Rattle.build_merge.specs.Merging.{Rows, Ready, Mergeable};

use meaning_rows::Row;
use sums_slide::in_range;

// A group of rows on the way: the place of its record, the first of its rows, its record.
#[derive(Clone, Copy)]
pub struct Group {
    pub place: usize,
    pub from: usize,
    pub row: Row,
}

// How many of the `n` names from `first` on are in the range.
pub fn count_names(names: &[u32], first: usize, n: usize, lo: u64, hi: u64) -> usize
    requires { first + n ≤ length names.now }
    ensures value { result ≡ count (names_of names.now first lo hi) n }
    ensures upper_bound { result ≤ n }
{
    let mut k = 0;
    for &name in &names[first..first + n] {
        if in_range(lo, hi, name as u64) {
            k += 1;
        }
    }
    k
}

// How many neighbours the runs of row `i` have in the rows from `from` up to it.
pub fn count_touching(left: &[u32], right: &[u32], r: Row, from: usize, i: usize) -> usize
    requires runs_in_bounds { (r.first + r.runs ≤ length left.now) × (r.first + r.runs ≤ length right.now) }
    requires from_bound { (from ≤ 4294967295) × (i ≤ 4294967295) }
    ensures { result ≡ touching left.now right.now r from i }
{
    let first = r.first as usize;
    let runs = r.runs as usize;
    let lo = from as u64 + 1;
    let hi = i as u64 + 1;
    count_names(left, first, runs, lo, hi) + count_names(right, first, runs, lo, hi)
}

// The group after row `i`: it takes the row in, or the row begins the next group.
pub fn merge_row(m: Group, i: usize, r: Row, left: &[u32], right: &[u32], g: u64) -> Group
    requires { Joinable m i r left.now right.now g }
    ensures { result ≡ next_group left.now right.now g m i r }
{
    let both = m.row.runs as u64 + r.runs as u64;
    let union = both - count_touching(left, right, r, m.from, i) as u64;
    if 100 * union < g * both {
        let joined = Row {
            up: r.up,
            runs: union as u32,
            ..m.row
        };
        Group { row: joined, ..m }
    } else {
        let begun = Row {
            first: m.row.first + m.row.runs,
            ..r
        };
        Group {
            place: m.place + 1,
            from: i,
            row: begun,
        }
    }
}

// The group of the first row.
pub fn first_group(r: Row) -> Group
    ensures { result ≡ first_group r }
{
    Group {
        place: 0,
        from: 0,
        row: r,
    }
}

// The rows packed in the first `n` records are merged, once upward, in place; how many there are then. Their parts have the names of their neighbours.
pub fn merge_rows(rows: &mut [Row], n: usize, left: &[u32], right: &[u32], g: u64) -> usize
    requires { Mergeable rows.old n left.now right.now × (g ≤ greatest_merge) }
    ensures { (t : Rows) → Ready t rows.old n left.now right.now → PackedAs t.windows (merged g t.windows t.list) rows.new result }
{
    let mut m = first_group(rows[0]);
    for i in 1..n {
        m = merge_row(m, i, rows[i], left, right, g);
        rows[m.place] = m.row;
    }
    m.place + 1
}
