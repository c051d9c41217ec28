// Finding a search's candidates (01, Candidates): the call and the index are judged, the ranges of the query's parts met with the rows, and the candidates that all parts leave handed out.
#![tactic(auto)]

ghost use Rattle.std.specs.Prelude.{◌≡◌, ◌/◌, length};
ghost use Rattle.candidate_spans.specs.Held.{RangesReady, RangesHeld};
ghost use Rattle.candidate_find.specs.Sought.{HandReady, HandedOut, Gathered, SoughtKept};
ghost use Rattle.meaning_rows.specs.Index.{lent};
ghost use Rattle.meaning_entries.specs.Buffers.{pair_room};
ghost use Rattle.meaning_entries.specs.Search.{lent_search, search_buffers};
ghost use Rattle.candidate_plan.specs.Allowed.{Allowed};

use candidate_counts::collect;
use candidate_plan::plan_search;
use candidate_spans::{meet_parts, put_ranges, raise_stretches};
use clear::clear;
use meaning_entries::Refusal;
use meaning_filter::Ask;
use meaning_rows::{Head, Row};
use rows_judge::judge;

// What finding candidates comes to: how many runs of candidates stand in the candidate buffer, and how many candidates they are.
#[derive(Clone, Copy)]
pub struct Sought {
    pub runs: usize,
    pub candidates: usize,
}

// The ranges of a query's parts put into the candidate buffer; how many parts there are.
pub fn put_parts(ask: Ask, q: &[i32], head: Head, first: &mut [u32], last: &mut [u32]) -> usize
    requires { RangesReady ask.kind q.now ask.limits head.window first.old last.old }
    ensures { RangesHeld ask.kind q.now ask.limits head.window first.old last.old first.new last.new × (result ≡ length q.now / head.window) }
{
    let w = head.window;
    put_ranges(ask.kind, q, ask.limits, w, first, last);
    q.len() / w as usize
}

// The candidates that the parts' stretches leave, handed out.
pub fn hand_out(
    series: &[i32],
    head: Head,
    left: &[u32],
    right: &[u32],
    query: &[i32],
    first: &mut [u32],
    last: &mut [u32],
    scratch: &mut [u16],
) -> Sought
    requires { HandReady series.now head left.now right.now query.now first.old last.old scratch.old }
    ensures { HandedOut series.now head left.now right.now query.now first.old last.old scratch.old result first.new last.new scratch.new }
{
    let w = head.window as usize;
    let m = query.len();
    let parts = m / w;
    let n = series.len() + 1 - m;
    clear(scratch, 0, 0);
    let windows = head.windows as usize;
    raise_stretches(scratch, left, right, first, last, windows, w, parts, n);
    let found = collect(scratch, parts as u16, n, first, last);
    Sought {
        runs: found.runs,
        candidates: found.candidates,
    }
}

// The candidates of a search that looks.
pub fn gather(
    series: &[i32],
    head: Head,
    rows: &[Row],
    left: &[u32],
    right: &[u32],
    ask: Ask,
    query: &[i32],
    first: &mut [u32],
    last: &mut [u32],
    scratch: &mut [u16],
) -> Sought
    requires { Allowed series.now head (lent head rows.now left.now right.now) ask query.now (pair_room first.old last.old) (length scratch.old) }
    ensures { Gathered (lent_search series.now head rows.now left.now right.now ask query.now) first.old last.old scratch.old result first.new last.new scratch.new }
{
    let parts = put_parts(ask, query, head, first, last);
    meet_parts(rows, parts, first, last);
    hand_out(series, head, left, right, query, first, last, scratch)
}

// Finds the candidates: judges the call, the index and the room of every buffer, and where nothing refuses the search before it looks, hands the candidates out. The list is not written.
#[tactic(auto, using(crate::proofs::Looks::halts))]
pub fn find_candidates(
    series: &[i32],
    head: Head,
    rows: &[Row],
    left: &[u32],
    right: &[u32],
    ask: Ask,
    query: &[i32],
    first: &mut [u32],
    last: &mut [u32],
    scratch: &mut [u16],
    offsets: &[u32],
    distances: &[u64],
) -> Result<Sought, Refusal>
    ensures { SoughtKept (lent_search series.now head rows.now left.now right.now ask query.now) (search_buffers first.old last.old scratch.old offsets.now distances.now) result first.new last.new scratch.new }
{
    let judged = judge(head, rows, left, right);
    let plan = plan_search(
        series,
        head,
        judged,
        ask,
        query,
        first.len(),
        last.len(),
        scratch.len(),
        offsets.len(),
        distances.len(),
    );
    plan?;
    Ok(gather(
        series, head, rows, left, right, ask, query, first, last, scratch,
    ))
}
