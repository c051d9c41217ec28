// An index built of a series: its rows laid out, merged, and their parts filled.
#![tactic(auto)]

ghost use Rattle.std.specs.Prelude.{◌≡◌, ℕ, ◌+◌, ◌*◌, ◌≤◌, length};
ghost use Rattle.meaning_curves.specs.Limits.{greatest_value, greatest_merge};
ghost use Rattle.sums_slide.specs.Levels.{windows_of};
ghost use Rattle.meaning_rows.specs.Build.{built};
ghost use Rattle.build_lay.specs.Laid.{LayAsked};
ghost use Rattle.build_passes.specs.Filled.{Fillable, MergeAsked, MergedAs, Holds};
ghost use Rattle.meaning_entries.specs.Buffers.{index_buffers};

use build_fill::fill_parts;
use build_lay::{clear_runs, lay_rows};
use build_merging::merge_packed;
use meaning_rows::Row;
use rows_records::clear_rows;
use sums_slide::first_place;

// The parts of the first `n` records are filled, and what is not used of the index_buffers is made 0. The ghost value has the row width and the merge percentage of the build whose rows are packed.
pub fn fill_rows(
    s: &[i32],
    w: usize,
    e: u64,
    rows: &mut [Row],
    n: usize,
    left: &mut [u32],
    right: &mut [u32],
)
    ghost p: { ℕ × ℕ }
    requires { Fillable p.0 p.1 s.now w e rows.old n left.old right.old }
    ensures { Holds p.0 p.1 s.now w (index_buffers rows.old left.old right.old) (index_buffers rows.new left.new right.new) }
{
    clear_rows(rows, n);
    clear_runs(left, right);
    let from = first_place(s, w, e);
    fill_parts(s, w, e, rows, n, from, left, right);
}

// The rows packed in the first `n` records, of a build without merging, are merged; how many there are then. What the two columns hold afterwards is of no use. The ghost value is the row width.
pub fn merge_some(
    s: &[i32],
    w: usize,
    e: u64,
    g: u64,
    rows: &mut [Row],
    n: usize,
    left: &mut [u32],
    right: &mut [u32],
) -> usize
    ghost d: { ℕ }
    requires { MergeAsked d g s.now w e rows.old n left.old right.old }
    ensures { MergedAs d g s.now w rows.new result }
{
    if g == 0 {
        return n;
    }
    clear_runs(left, right);
    merge_packed(s, w, e, g, rows, n, left, right)
}

// The rows packed in the first `n` records, of a build of row width `d` without merging, are merged by percentage `g`, and their parts filled; how many rows there are then. The ghost value has `d` and `g`.
fn merge_and_fill(
    s: &[i32],
    w: usize,
    e: u64,
    d: u64,
    g: u64,
    rows: &mut [Row],
    n: usize,
    left: &mut [u32],
    right: &mut [u32],
) -> usize
    ghost p: { ℕ × ℕ }
    requires numbers { (p.0 ≡ d) × (p.1 ≡ g) }
    requires asked { MergeAsked d g s.now w e rows.old n left.old right.old }
    ensures merged { result ≡ length (built s.now w d g).rows }
    ensures held { Holds d g s.now w (index_buffers rows.old left.old right.old) (index_buffers rows.new left.new right.new) }
{
    let k = merge_some(s, w, e, g, rows, n, left, right);
    fill_rows(s, w, e, rows, k, left, right);
    k
}

// The index, merged by percentage `g`; how many rows it has. Sums are raised by `bias` in all.
pub fn build_rows(
    s: &[i32],
    w: usize,
    e: u64,
    d: u64,
    bias: u64,
    g: u64,
    rows: &mut [Row],
    left: &mut [u32],
    right: &mut [u32],
) -> usize
    requires { (LayAsked s.now w e d left.old right.old) × (bias ≡ greatest_value * w + e) × (windows_of s.now w ≤ length rows.old) × (g ≤ greatest_merge) }
    ensures { (result ≡ length (built s.now w d g).rows)
        × Holds d g s.now w (index_buffers rows.old left.old right.old) (index_buffers rows.new left.new right.new) }
{
    let n = lay_rows(s, w, e, d, bias, rows, left, right);
    merge_and_fill(s, w, e, d, g, rows, n, left, right)
}
