// What refuses a build, and by how much it raises sums where nothing does.
#![tactic(auto)]

ghost use Rattle.std.specs.Prelude.{◌≡◌};
ghost use Rattle.meaning_entries.specs.Build.{lent_build, build_lines};
ghost use Rattle.refusals.specs.Refusal.{verdict};
ghost use Rattle.build_plan.specs.Plan.{Planned};

use meaning_entries::{Reason, Refusal};
use numbers::RAISE;
use refusals::{
    merge_outside, refuse_if, refuse_room, refuse_series, width_outside, window_outside,
};
use sums_slide::raised_rows;

// Of a build that nothing refuses: window length and row width, and what sums are raised by: `extra` beside 10,000 for each value, `bias` in all.
#[derive(Clone, Copy)]
pub struct BuildPlan {
    pub window: usize,
    pub width: u64,
    pub extra: u64,
    pub bias: u64,
}

// What refuses a build, where there is room for so many rows and runs.
pub fn refuse_build(
    series: &[i32],
    w: u32,
    d: u32,
    g: u32,
    rows: usize,
    runs: usize,
) -> Result<(), Refusal>
    ensures { result ≡ verdict (build_lines (lent_build series.now w d g) rows runs) }
{
    let n = series.len();
    refuse_series(series)?;
    refuse_if(window_outside(w, n), Reason::Window)?;
    refuse_if(width_outside(d), Reason::Width)?;
    refuse_if(merge_outside(g), Reason::Merge)?;
    refuse_room(rows, runs, w, n)
}

// The plan of a build, where there is room for `rows` rows and for runs in columns of `left` and `right` entries. The bias is a multiple of the row width.
pub fn make_plan(
    series: &[i32],
    w: u32,
    d: u32,
    g: u32,
    rows: usize,
    left: usize,
    right: usize,
) -> Result<BuildPlan, Refusal>
    ensures { Planned series.now w d g rows left right result }
{
    refuse_build(series, w, d, g, rows, left.min(right))?;
    let width = u64::from(d);
    let long = u64::from(w);
    let bias = raised_rows(long, width) * width;
    Ok(BuildPlan {
        window: w as usize,
        width,
        extra: bias - RAISE * long,
        bias,
    })
}
