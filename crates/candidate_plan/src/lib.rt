// What refuses a search before it looks: every refusal but 24, in order (01, 'Refused for the input' and 'Refused for the state'; 02).
#![tactic(auto)]

ghost use Rattle.std.specs.Prelude.{◌≡◌, min};
ghost use Rattle.refusals.specs.Refusal.{verdict};
ghost use Rattle.candidate_plan.specs.Tables.{values_table, numbers_table, input_table, windows_table, state_table, plan_of};

use meaning_entries::{Reason, Refusal};
use meaning_filter::{Ask, Pick};
use meaning_rows::Head;
use refusals::{
    band_outside, below_window, list_below, more, normal_flat, pick_outside, query_length_outside,
    refuse_if, refuse_judged, refuse_room, refuse_series, refuse_value, scale_or_shift_outside,
    threshold_outside,
};

// The length of the series, then its values, then those of the query.
pub fn refuse_values(s: &[i32], q: &[i32]) -> Result<(), Refusal>
    ensures { result ≡ verdict (values_table s.now q.now) }
{
    refuse_series(s)?;
    refuse_value(q)
}

// The length of the query, the limits, and how many are handed out.
pub fn refuse_numbers(s: &[i32], q: &[i32], w: u32, ask: Ask) -> Result<(), Refusal>
    ensures { result ≡ verdict (numbers_table s.now q.now w ask) }
{
    let l = ask.limits;
    let m = q.len();
    refuse_if(query_length_outside(m, s.len()), Reason::QueryLength)?;
    refuse_if(below_window(m, w), Reason::QueryBelowWindow)?;
    refuse_if(band_outside(m, l.band), Reason::Band)?;
    refuse_if(threshold_outside(l.threshold), Reason::Threshold)?;
    refuse_if(
        scale_or_shift_outside(l.scale, l.shift),
        Reason::ScaleOrShift,
    )?;
    refuse_if(pick_outside(ask.pick), Reason::ClosestCount)
}

// Everything about the input.
pub fn refuse_input(s: &[i32], q: &[i32], w: u32, ask: Ask) -> Result<(), Refusal>
    ensures { result ≡ verdict (input_table s.now q.now w ask) }
{
    refuse_values(s, q)?;
    refuse_numbers(s, q, w, ask)?;
    refuse_if(normal_flat(ask.kind, q), Reason::FlatQuery)
}

// More windows than the series has, and the room of list, candidates and scratch.
pub fn refuse_windows(
    s: &[i32],
    head: Head,
    pick: Pick,
    list: usize,
    candidates: usize,
    scratch: usize,
) -> Result<(), Refusal>
    ensures { result ≡ verdict (windows_table s.now head pick list candidates scratch) }
{
    let n = s.len();
    let w = head.window;
    let windows = head.windows;
    refuse_if(more(windows, w, n), Reason::MoreWindows)?;
    refuse_if(list_below(list, pick), Reason::Room)?;
    refuse_room(candidates, scratch, w, n)
}

// Everything about the state, by what judging said of the index.
pub fn refuse_state(
    s: &[i32],
    head: Head,
    judged: Result<usize, usize>,
    pick: Pick,
    list: usize,
    candidates: usize,
    scratch: usize,
) -> Result<(), Refusal>
    ensures { result ≡ verdict (state_table s.now head judged pick list candidates scratch) }
{
    refuse_judged(judged)?;
    refuse_windows(s, head, pick, list, candidates, scratch)
}

// The plan of a search: what refuses it before it looks. The candidate buffer is two slices of `left` and `right` entries, the list two of `offsets` and `distances`.
pub fn plan_search(
    s: &[i32],
    head: Head,
    judged: Result<usize, usize>,
    ask: Ask,
    q: &[i32],
    left: usize,
    right: usize,
    scratch: usize,
    offsets: usize,
    distances: usize,
) -> Result<(), Refusal>
    ensures { result ≡ plan_of s.now head judged ask q.now (min offsets distances) (min left right) scratch }
{
    let list = offsets.min(distances);
    let candidates = left.min(right);
    refuse_input(s, q, head.window, ask)?;
    refuse_state(s, head, judged, ask.pick, list, candidates, scratch)
}
