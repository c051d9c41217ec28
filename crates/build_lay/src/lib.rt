// The rows of a series before merging: their records packed in order. The run buffer is the only other room.
#![tactic(auto)]

ghost use Rattle.std.specs.Prelude.{◌≡◌, ◌+◌, ◌*◌, ◌≤◌, length};
ghost use Rattle.meaning_curves.specs.Limits.{greatest_value};
ghost use Rattle.meaning_curves.specs.Curve.{window_sum};
ghost use Rattle.meaning_rows.specs.Build.{filed};
ghost use Rattle.sums_slide.specs.Levels.{windows_of};
ghost use Rattle.rows_pack.specs.PackedAs.{PackedAs};
ghost use Rattle.build_lay.specs.Laid.{LayAsked, LaidOut, Cleared};

use clear::clear;
use meaning_rows::Row;
use rows_pack::{pack_rows, sum_up};
use sums_count::plan;

// The row numbers of the windows in `left`, and beside each in `right` where the row's part of the run buffer ends; how many rows there are.
pub fn lay_out(s: &[i32], w: usize, e: u64, d: u64, left: &mut [u32], right: &mut [u32]) -> usize
    requires { LayAsked s.now w e d left.old right.old }
    ensures { LaidOut s.now w e d result left.new right.new }
{
    let mut flags = [0; 262144];
    let n = plan(s, w, e, d, &mut flags, left, right);
    sum_up(right, n);
    n
}

// Both columns of the run buffer are made 0.
pub fn clear_runs(left: &mut [u32], right: &mut [u32])
    ensures { Cleared left.old left.new × Cleared right.old right.new }
{
    clear(left, 0, 0);
    clear(right, 0, 0);
}

// The records of the rows before merging are packed in `rows`; how many there are. `bias` is what sums are raised by in all.
pub fn lay_rows(
    s: &[i32],
    w: usize,
    e: u64,
    d: u64,
    bias: u64,
    rows: &mut [Row],
    left: &mut [u32],
    right: &mut [u32],
) -> usize
    requires { (LayAsked s.now w e d left.old right.old) × (bias ≡ greatest_value * w + e) × (windows_of s.now w ≤ length rows.old) }
    ensures { PackedAs (windows_of s.now w) (filed (window_sum s.now w) d (windows_of s.now w)) rows.new result }
{
    let n = lay_out(s, w, e, d, left, right);
    pack_rows(left, right, d, bias, n, rows);
    n
}
