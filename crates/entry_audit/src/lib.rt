// The audit of a lent index against a series (01, Rows): refused, or yes, or the first row and offset filed wrongly, or how many windows stand nowhere. Any content may be lent. The sum slides inside a run: a value comes in, the window is tested, a value goes out, so no read needs a test.
#![tactic(auto)]

ghost use Rattle.std.specs.Prelude.{◌≡◌, ◌+◌, ◌-◌, ◌<◌, min, length};
ghost use Rattle.meaning_curves.specs.Limits.{longest_window};
ghost use Rattle.meaning_curves.specs.Curve.{window_sum};
ghost use Rattle.meaning_curves.proofs.Values.{AllIn};
ghost use Rattle.meaning_rows.specs.Range.{inside};
ghost use Rattle.meaning_entries.specs.Audit.{lent_audit, covered_audit};
ghost use Rattle.meaning_entries.specs.Demand2.{AuditKept};
ghost use Rattle.entry_audit.specs.Auditing.{Ready, wrong_of};
ghost use Rattle.refusals.specs.Refusal.{verdict};
ghost use Rattle.entry_audit.specs.Plan.{table_of, left_over, plan_of, answer_of};

use meaning_entries::{Audited, Reason, Refusal};
use meaning_rows::{Head, Row};
use refusals::{fewer, more, refuse_if, refuse_judged, refuse_series};
use rows_judge::judge;
use rows_records::chunk_at;
use values::window_sum;

// A range holds a sum.
pub fn holds(low: i32, up: i32, sum: i32) -> bool
    ensures { result ≡ inside low up sum }
{
    (low <= sum) & (sum < up)
}

// The sum of a window's values but the last.
pub fn part_sum(s: &[i32], rest: usize, j: usize) -> i32
    requires rest_in_bounds { j + rest < length s.now }
    requires rest_lt_longest_window { rest < longest_window }
    requires all_in { AllIn s.now }
    ensures { result ≡ window_sum s.now rest j }
{
    let sum = window_sum(s, rest + 1, j);
    let x = s[j + rest];
    sum - x
}

// The sum of a window, of the sum of its values but the last: that one comes in.
pub fn value_in(s: &[i32], rest: usize, j: usize, part: i32) -> i32
    requires rest_in_bounds { j + rest < length s.now }
    requires rest_lt_longest_window { rest < longest_window }
    requires all_in { AllIn s.now }
    requires part_value { part ≡ window_sum s.now rest j }
    ensures { result ≡ window_sum s.now (rest + 1) j }
{
    let x = s[j + rest];
    part + x
}

// The sum of the next window's values but the last: the first of this window goes out.
pub fn value_out(s: &[i32], rest: usize, j: usize, sum: i32) -> i32
    requires rest_in_bounds { j + rest < length s.now }
    requires rest_lt_longest_window { rest < longest_window }
    requires all_in { AllIn s.now }
    requires sum_value { sum ≡ window_sum s.now (rest + 1) j }
    ensures { result ≡ window_sum s.now rest (j + 1) }
{
    let x = s[j];
    sum - x
}

// The first row and offset filed wrongly among the rows of a chunk, which are counted on from `from`.
pub fn audit_chunk(
    chunk: [Row; 64],
    from: usize,
    series: &[i32],
    head: Head,
    left: &[u32],
    right: &[u32],
) -> Option<(usize, usize)>
    requires { Ready series.now head left.now right.now chunk from }
    ensures { result ≡ wrong_of series.now head.window left.now right.now from chunk }
{
    let rest = head.window as usize - 1;
    'audit: {
        for k in 0..64 {
            let r = chunk[k];
            let first = r.first as usize;
            for i in first..first + r.runs as usize {
                let start = left[i] as usize;
                let mut part = part_sum(series, rest, start);
                for j in start..right[i] as usize + 1 {
                    let sum = value_in(series, rest, j, part);
                    if !holds(r.low, r.up, sum) {
                        break 'audit Some((from + k, j));
                    }
                    part = value_out(series, rest, j, sum);
                }
            }
        }
        None
    }
}

// What refuses an audit, by its series and by what judging said of the index.
pub fn refuse_audit(series: &[i32], head: Head, judged: Result<usize, usize>) -> Result<(), Refusal>
    ensures { result ≡ verdict (table_of series.now head judged) }
{
    let n = series.len();
    let w = head.window;
    let windows = head.windows;
    refuse_series(series)?;
    refuse_judged(judged)?;
    refuse_if(fewer(windows, w, n), Reason::FewerWindows)?;
    refuse_if(more(windows, w, n), Reason::MoreWindows)
}

// How many windows the runs leave, by what judging said.
pub fn left_over(head: Head, judged: Result<usize, usize>) -> usize
    ensures { result ≡ left_over head judged }
{
    match judged {
        Ok(total) => (head.windows as usize).saturating_sub(total),
        Err(_) => 0,
    }
}

// The plan of an audit: what refuses it, or how many windows the runs leave.
pub fn make_plan(series: &[i32], head: Head, judged: Result<usize, usize>) -> Result<usize, Refusal>
    ensures { result ≡ plan_of series.now head judged }
{
    refuse_audit(series, head, judged)?;
    Ok(left_over(head, judged))
}

// What an audit says that nothing refuses, by what is filed wrongly first and by how many windows the runs leave.
pub fn answer(lacking: usize, wrong: Option<(usize, usize)>) -> Audited
    ensures { result ≡ answer_of lacking wrong }
{
    match wrong {
        Some((row, offset)) => Audited::Wrong { row, offset },
        None => {
            if lacking == 0 {
                return Audited::Yes;
            }
            Audited::Missing { count: lacking }
        }
    }
}

// The audit.
pub fn audit(
    series: &[i32],
    head: Head,
    rows: &[Row],
    left: &[u32],
    right: &[u32],
) -> Result<Audited, Refusal>
    ensures { AuditKept (lent_audit series.now head rows.now left.now right.now) result }
{
    let lacking = make_plan(series, head, judge(head, rows, left, right))?;
    for n in 0..rows.len().div_ceil(64) {
        let chunk = chunk_at(rows, n * 64);
        let wrong = audit_chunk(chunk, n * 64, series, head, left, right);
        if wrong.is_some() {
            return Ok(answer(lacking, wrong));
        }
    }
    Ok(answer(lacking, None))
}

// How many values of a series of `n` an index covers.
pub fn covered_length(head: Head, n: usize) -> usize
    ensures { result ≡ min (head.windows + head.window - 1) n }
{
    let values = head.windows as usize + head.window as usize;
    values.saturating_sub(1).min(n)
}

// The audit against the part of a series that the index covers (02, item 1).
pub fn audit_covered(
    series: &[i32],
    head: Head,
    rows: &[Row],
    left: &[u32],
    right: &[u32],
) -> Result<Audited, Refusal>
    ensures { AuditKept (covered_audit series.now head rows.now left.now right.now) result }
{
    let n = covered_length(head, series.len());
    audit(&series[..n], head, rows, left, right)
}
