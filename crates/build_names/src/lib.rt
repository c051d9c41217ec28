// The rows before and after each run named, in one pass over the runs of a series: as its entry in the part of its row a run gets the name of the row of the window before it and that of the window
// after it. A row's name is its place; an entry has one more, and 0 where there is no row.
#![tactic(auto)]

ghost use Rattle.std.specs.Prelude.{◌≡◌, ℕ, ◌+◌, ◌*◌, ◌<◌, ◌≤◌};
ghost use Rattle.meaning_curves.specs.Limits.{most_values, greatest_value, longest_window};
ghost use Rattle.meaning_curves.specs.Curve.{window_sum};
ghost use Rattle.sums_slide.specs.Levels.{level, Lent, windows_of};
ghost use Rattle.sums_slide.specs.Ends.{raised_end};
ghost use Rattle.sums_slide.specs.Change.{Stop};
ghost use Rattle.build_merge.specs.Names.{NamedRow};
ghost use Rattle.build_merge.specs.Merging.{part_at};
ghost use Rattle.build_names.specs.Ranges.{LimitedRow, row_in};
ghost use Rattle.build_names.specs.Places.{name_for, name_in, entry_of, Nameable, Unnamed};

use build_parts::file_entry;
use meaning_rows::Row;
use numbers::RAISE;
use rows_find::find_row;
use rows_records::row_at;
use sums_slide::{Window, first_place, next_out, raise_end, sum_of};

// From a window on, the first whose sum is not in the row's range, or the number of windows.
pub fn run_end(s: &[i32], w: usize, e: u64, at: Window, r: Row) -> Window
    requires { Lent s.now w e × (at.offset ≤ windows_of s.now w) × (at.level ≡ level s.now w e at.offset) × LimitedRow r }
    ensures { Stop (level s.now w e) (windows_of s.now w) (raised_end (greatest_value * w + e) r.low) (raised_end (greatest_value * w + e) r.up) at.offset result.offset result.level }
{
    let bias = RAISE * (w as u64) + e;
    next_out(s, w, e, at, raise_end(r.low, bias), raise_end(r.up, bias))
}

// The name of row `i` where there is a window, of `len` values.
pub fn name_of(len: usize, w: usize, at: Window, i: usize) -> Option<usize>
    requires { (1 ≤ w) × (w ≤ longest_window) × (at.offset ≤ most_values) }
    ensures { result ≡ name_for len w at.offset i }
{
    let j = at.offset;
    if j + w <= len { Some(i) } else { None }
}

// The name of the row of a window among the first `count` rows; none past the last window.
pub fn name_at(
    rows: &[Row],
    count: usize,
    len: usize,
    w: usize,
    e: u64,
    at: Window,
) -> Option<usize>
    requires { Nameable rows.now count w e at }
    ensures { result ≡ name_in rows.now count len w e at }
{
    let sum = sum_of(w, e, at);
    let i = find_row(rows, count, sum);
    name_of(len, w, at, i)
}

// What an entry has of a name.
pub fn entry_of(name: Option<usize>) -> usize
    requires { entry_of name ≤ 4294967295 }
    ensures { result ≡ entry_of name }
{
    match name {
        Some(i) => i + 1,
        None => 0,
    }
}

// The parts of the first `count` rows are filled with the names of the neighbours of their runs.
pub fn name_neighbours(
    s: &[i32],
    w: usize,
    e: u64,
    rows: &[Row],
    count: usize,
    left: &mut [u32],
    right: &mut [u32],
)
    requires { Unnamed s.now w e rows.now count left.old right.old }
    ensures { (i : ℕ) → i < count → NamedRow (row_in rows.now count (window_sum s.now w)) (windows_of s.now w) i (part_at (row_in rows.now count (window_sum s.now w)) (windows_of s.now w) i) left.new right.new }
{
    let len = s.len();
    let mut at = first_place(s, w, e);
    let mut before = None;
    let mut name = name_at(rows, count, len, w, e, at);
    while let Some(i) = name {
        let r = row_at(rows, i);
        let next = run_end(s, w, e, at, r);
        let after = name_at(rows, count, len, w, e, next);
        file_entry(r, entry_of(before), entry_of(after), left, right);
        before = name;
        name = after;
        at = next;
    }
}
