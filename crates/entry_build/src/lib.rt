// The entry that builds an index: refused, or the index in the lent index_buffers.
#![tactic(auto)]

ghost use Rattle.std.specs.Prelude.{◌≡◌, ◌+◌, ◌-◌, ◌≤◌, length, Ok};
ghost use Rattle.meaning_curves.specs.Limits.{most_values};
ghost use Rattle.meaning_curves.specs.Curve.{window_count};
ghost use Rattle.meaning_entries.specs.Build.{lent_build};
ghost use Rattle.meaning_entries.specs.Demand2.{BuildKept};
ghost use Rattle.meaning_entries.specs.Buffers.{index_buffers};
ghost use Rattle.entry_build.specs.Answer.{index_as, PlannedFor};

use build_passes::build_rows;
use build_plan::{BuildPlan, make_plan};
use meaning_entries::{Held, Refusal};
use meaning_rows::{Head, Row};
use rows_records::row_at;

// The answer of a call that built `n` rows, the last of which is `r`.
pub fn answer(series: &[i32], w: u32, d: u32, n: usize, r: Row) -> Held
    requires { (w ≤ length series.now) × (length series.now ≤ most_values) }
    ensures { result ≡ index_as (window_count (length series.now) w) w d n r }
{
    let windows = series.len() + 1 - w as usize;
    Held {
        head: Head {
            window: w,
            width: d,
            windows: windows as u32,
        },
        rows: n,
        runs: r.first as usize + r.runs as usize,
    }
}

// The index by the plan of a call, and the answer.
pub fn build_planned(
    series: &[i32],
    w: u32,
    d: u32,
    g: u32,
    p: BuildPlan,
    rows: &mut [Row],
    left: &mut [u32],
    right: &mut [u32],
) -> Held
    requires { PlannedFor series.now w d g (index_buffers rows.old left.old right.old) p }
    ensures { BuildKept (lent_build series.now w d g) (index_buffers rows.old left.old right.old) (Ok result) (index_buffers rows.new left.new right.new) }
{
    let n = build_rows(
        series,
        p.window,
        p.extra,
        p.width,
        p.bias,
        u64::from(g),
        rows,
        left,
        right,
    );
    let r = row_at(rows, n - 1);
    answer(series, w, d, n, r)
}

// The build of an index of window length `w` and row width `d`, merged by percentage `g`.
pub fn build(
    series: &[i32],
    w: u32,
    d: u32,
    g: u32,
    rows: &mut [Row],
    left: &mut [u32],
    right: &mut [u32],
) -> Result<Held, Refusal>
    ensures { BuildKept (lent_build series.now w d g) (index_buffers rows.old left.old right.old) result (index_buffers rows.new left.new right.new) }
{
    let p = make_plan(series, w, d, g, rows.len(), left.len(), right.len())?;
    Ok(build_planned(series, w, d, g, p, rows, left, right))
}
