// The entry that extends an index: refused, or the extended index in the lent index_buffers.
#![tactic(auto)]

ghost use Rattle.std.specs.Prelude.{◌≡◌, ◌-◌, ◌≤◌, length, Ok};
ghost use Rattle.meaning_curves.specs.Limits.{most_values, longest_window, widest_row};
ghost use Rattle.meaning_curves.specs.Curve.{window_count};
ghost use Rattle.meaning_entries.specs.Extend.{lent_extend};
ghost use Rattle.meaning_entries.specs.Demand2.{ExtendKept};
ghost use Rattle.meaning_entries.specs.Buffers.{index_buffers};
ghost use Rattle.extend_plan.proofs.Planned.{the_plan};
ghost use Rattle.entry_extend.specs.Answer.{index_as, Lifts};

use extend_passes::extend_passes;
use extend_plan::make_plan;
use meaning_entries::{Held, Refusal};
use meaning_rows::{Head, Row};
use numbers::RAISE;
use rows_judge::judge;
use rows_records::row_at;
use sums_slide::raised_rows;

// Window length, old window count and row width; and what sums are raised by: `extra` beside 10,000 for each value, `bias` in all, which is `base` row widths.
#[derive(Clone, Copy)]
pub struct Lift {
    pub window: usize,
    pub old: usize,
    pub width: u64,
    pub base: u64,
    pub extra: u64,
    pub bias: u64,
}

// The numbers of a head of window length `w`, row width `d` and `old` windows, and what sums are raised by.
pub fn lift_of(w: u32, d: u32, old: u32) -> Lift
    requires { (w ≤ longest_window) × ((1 ≤ d) × (d ≤ widest_row)) }
    ensures { Lifts w d old result }
{
    let width = u64::from(d);
    let long = u64::from(w);
    let base = raised_rows(long, width);
    let bias = base * width;
    Lift {
        window: w as usize,
        old: old as usize,
        width,
        base,
        extra: bias - RAISE * long,
        bias,
    }
}

// The answer of a call that left `n` rows, where `r` is the last, or the record of zeros.
pub fn answer(series: &[i32], head: Head, n: usize, r: Row) -> Held
    requires { (head.window ≤ length series.now) × (length series.now ≤ most_values) }
    ensures { result ≡ index_as (window_count (length series.now) head.window) head n r }
{
    let windows = series.len() + 1 - head.window as usize;
    Held {
        head: Head {
            window: head.window,
            width: head.width,
            windows: windows as u32,
        },
        rows: n,
        runs: r.first as usize + r.runs as usize,
    }
}

// The extension where nothing refuses it, and the answer.
pub fn extend_planned(
    series: &[i32],
    head: Head,
    from: &[Row],
    lefts: &[u32],
    rights: &[u32],
    rows: &mut [Row],
    left: &mut [u32],
    right: &mut [u32],
) -> Held
    requires { the_plan series.now head from.now lefts.now rights.now (index_buffers rows.old left.old right.old) ≡ Ok tt }
    ensures { ExtendKept (lent_extend series.now head from.now lefts.now rights.now) (index_buffers rows.old left.old right.old) (Ok result) (index_buffers rows.new left.new right.new) }
{
    let l = lift_of(head.window, head.width, head.windows);
    let n = extend_passes(
        series, l.window, l.extra, l.width, l.base, l.bias, l.old, from, lefts, rights, rows, left,
        right,
    );
    let r = row_at(rows, n.saturating_sub(1));
    answer(series, head, n, r)
}

// The extension of a lent index over the whole of a longer series, into fresh index_buffers.
pub fn extend(
    series: &[i32],
    head: Head,
    from: &[Row],
    lefts: &[u32],
    rights: &[u32],
    rows: &mut [Row],
    left: &mut [u32],
    right: &mut [u32],
) -> Result<Held, Refusal>
    ensures { ExtendKept (lent_extend series.now head from.now lefts.now rights.now) (index_buffers rows.old left.old right.old) result (index_buffers rows.new left.new right.new) }
{
    let judged = judge(head, from, lefts, rights);
    make_plan(
        series,
        head,
        judged,
        rows.len(),
        left.len().min(right.len()),
    )?;
    Ok(extend_planned(series, head, from, lefts, rights, rows, left, right))
}
