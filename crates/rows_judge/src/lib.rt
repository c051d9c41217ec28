// Judging a lent index: whether it is well formed, and else the first bad row (01, Rows). The head is judged first. Any content may be lent, and no sum wraps.
#![tactic(auto)]

ghost use Rattle.std.specs.Prelude.{◌≡◌, ◌&&◌, [], ◌+◌, ◌-◌, ◌≤◌, min, leb, ltb, pos, length, take, drop, Some};
ghost use Rattle.std.specs.Int.Signed.{le_z, lt_z};
ghost use Rattle.meaning_numbers.specs.Quotient.{multiple};
ghost use Rattle.meaning_curves.specs.Limits.{end_in};
ghost use Rattle.meaning_rows.specs.Index.{lent, entries};
ghost use Rattle.meaning_rows.specs.Judge.{head_good, range_good};
ghost use Rattle.rows_judge.specs.Judged.{judged_of};
ghost use Rattle.rows_judge.specs.Judging.{start, room, fits, scan, after, next};

use meaning_curves::{HIGHEST_END, LONGEST_WINDOW, LOWEST_END, MOST_VALUES, WIDEST_ROW};
use meaning_rows::{Head, Row};
use rows_records::row_at;

// The most windows of an index.
const WINDOWS: u32 = MOST_VALUES as u32;

// What is known after good rows: where the last one's range ends, where its runs end in the run buffer, and what the run lengths total.
#[derive(Clone, Copy)]
pub struct RowsJudged {
    pub least: i32,
    pub first: usize,
    pub taken: usize,
}

pub fn is_multiple(d: u32, z: i32) -> bool
    ensures { result ≡ multiple d z }
{
    let m = z.unsigned_abs();
    if d == 0 { m == 0 } else { m % d == 0 }
}

// Whether both are multiples of d. One that lies d above another needs no division.
pub fn are_multiples(d: u32, low: i32, up: i32) -> bool
    ensures { result ≡ (multiple d low && multiple d up) }
{
    let first = is_multiple(d, low);
    if low as i64 + d as i64 == up as i64 {
        first
    } else {
        first & is_multiple(d, up)
    }
}

// An end of a range lies inside its limits.
pub fn end_in(z: i32) -> bool
    ensures { result ≡ end_in z }
{
    (LOWEST_END <= z) & (z <= HIGHEST_END)
}

pub fn head_good(head: Head) -> bool
    ensures { result ≡ head_good (lent head [] [] []) }
{
    let w = head.window;
    let d = head.width;
    let n = head.windows;
    ((1 <= w) & (w <= LONGEST_WINDOW))
        & (((1 <= d) & (d <= WIDEST_ROW)) & ((1 <= n) & (n <= WINDOWS)))
}

// The state before the first row, of a good head.
pub fn judge_head(head: Head) -> Option<RowsJudged>
    ensures { result ≡ start (lent head [] [] []) }
{
    if head_good(head) {
        Some(RowsJudged {
            least: LOWEST_END,
            first: 0,
            taken: 0,
        })
    } else {
        None
    }
}

// The ends of a range lie inside their limits, in order, and not below `least`.
pub fn ends_good(least: i32, low: i32, up: i32) -> bool
    ensures { result ≡ (lt_z low up && (end_in low && (end_in up && le_z least low))) }
{
    (low < up) & (end_in(low) & (end_in(up) & (least <= low)))
}

// A row's range, after rows that end at `least`.
pub fn range_good(head: Head, least: i32, r: Row) -> bool
    ensures { result ≡ range_good (lent head [] [] []) least r }
{
    let low = r.low;
    let up = r.up;
    are_multiples(head.width, low, up) & ends_good(least, low, up)
}

// A row's part of a run buffer of `size` entries, after rows whose runs end at `first`.
pub fn part_good(size: usize, first: usize, r: Row) -> bool
    ensures { result ≡ room size first r }
{
    let at = r.first as usize;
    let runs = r.runs as usize;
    (1 <= runs) & ((at == first) & (at + runs <= size))
}

// Everything of a row but its runs.
pub fn row_fits(head: Head, s: RowsJudged, r: Row, size: usize) -> bool
    ensures { result ≡ fits (lent head [] [] []) s r size }
{
    range_good(head, s.least, r) & part_good(size, s.first, r)
}

// A run, after runs that end below `least`.
pub fn run_good(windows: u64, least: u64, l: u64, r: u64) -> bool
    ensures { result ≡ (leb least l && (leb l r && ltb r windows)) }
{
    (least <= l) & ((l <= r) & (r < windows))
}

// The lengths of one row's runs added up, which stand in the run buffer from `from` up to and not with `to`; none where a run is not good. As each lies above the one before, only the last is held to the windows.
pub fn judge_runs(
    left: &[u32],
    right: &[u32],
    from: usize,
    to: usize,
    windows: u32,
) -> Option<usize>
    requires { (from ≤ to) × (to ≤ length left.now) × (to ≤ length right.now) }
    ensures { result ≡ scan (pos windows) (pos 0) 0 (take (to - from) (drop from (entries left.now right.now))) }
{
    let mut least: u64 = 0;
    let mut total: u64 = 0;
    for i in from..to {
        let l = left[i] as u64;
        let r = right[i] as u64;
        if (l < least) | (r < l) {
            return None;
        }
        total += r + 1 - l;
        least = r + 2;
    }
    if least <= windows as u64 + 1 {
        Some(total as usize)
    } else {
        None
    }
}

// The run lengths total at most the windows.
pub fn total_good(windows: usize, taken: usize, total: usize) -> bool
    ensures { result ≡ leb (taken + total) windows }
{
    taken <= windows && total <= windows - taken
}

// The state after a row whose runs total so much.
pub fn after_row(windows: u32, s: RowsJudged, r: Row, total: usize) -> Option<RowsJudged>
    ensures { result ≡ after windows s r (Some total) }
{
    if total_good(windows as usize, s.taken, total) {
        Some(RowsJudged {
            least: r.up,
            first: r.first as usize + r.runs as usize,
            taken: s.taken + total,
        })
    } else {
        None
    }
}

// The state after one row more, where it is good.
pub fn judge_row(
    head: Head,
    s: RowsJudged,
    r: Row,
    left: &[u32],
    right: &[u32],
) -> Option<RowsJudged>
    ensures { result ≡ next (lent head [] left.now right.now) s r }
{
    let size = left.len().min(right.len());
    if !row_fits(head, s, r, size) {
        return None;
    }
    let from = r.first as usize;
    let to = from + r.runs as usize;
    let total = judge_runs(left, right, from, to, head.windows)?;
    after_row(head.windows, s, r, total)
}

// Whether a lent index is well formed: the run lengths of all rows added up, or the first bad row, 0 for the head.
pub fn judge(head: Head, rows: &[Row], left: &[u32], right: &[u32]) -> Result<usize, usize>
    ensures { result ≡ judged_of (lent head rows.now left.now right.now) }
{
    let Some(mut s) = judge_head(head) else {
        return Err(0);
    };
    for k in 0..rows.len() {
        let Some(next) = judge_row(head, s, row_at(rows, k), left, right) else {
            return Err(k);
        };
        s = next;
    }
    Ok(s.taken)
}
