// The pass that fills all parts: every run of windows filed in the part of its row, whatever ranges the rows have.
#![tactic(auto)]

ghost use Rattle.std.specs.Prelude.{Bool, ℕ, ◌+◌, ◌*◌, ◌<◌};
ghost use Rattle.build_fill.specs.Turn.{TurnAsked, Turned};
ghost use Rattle.build_fill.specs.Pass.{Passable, PassMade};

use build_parts::file_run;
use meaning_rows::Row;
use numbers::RAISE;
use rows_find::find_record;
use sums_slide::{Window, next_out, raise_end, sum_of};

// The run of windows with sums in the range of row `r` that begins at `at` is filed as the next run of the row; where it ends.
pub fn file_turn(
    s: &[i32],
    w: usize,
    e: u64,
    at: Window,
    r: Row,
    left: &mut [u32],
    right: &mut [u32],
) -> Window
    requires { TurnAsked s.now w e at r left.old right.old }
    ensures { Turned s.now w e at.offset r left.old right.old result left.new right.new }
{
    let bias = RAISE * (w as u64) + e;
    let lo = raise_end(r.low, bias);
    let hi = raise_end(r.up, bias);
    let next = next_out(s, w, e, at, lo, hi);
    file_run(r, at.offset, next.offset, left, right);
    next
}

// Every run of windows from `from` on is filed in the part of its row. The ghost value has the test of each row: which windows are its.
pub fn fill_parts(
    s: &[i32],
    w: usize,
    e: u64,
    rows: &[Row],
    count: usize,
    from: Window,
    left: &mut [u32],
    right: &mut [u32],
)
    ghost p: { ℕ → ℕ → Bool }
    requires { Passable p s.now w e from rows.now count left.old right.old }
    ensures { PassMade p s.now w count left.old right.old left.new right.new }
{
    let windows = s.len() + 1 - w;
    let mut at = from;
    // A `while`: where the next turn begins is found in the body.
    while at.offset < windows {
        let sum = sum_of(w, e, at);
        let r = find_record(rows, count, sum);
        at = file_turn(s, w, e, at, r, left, right);
    }
}
