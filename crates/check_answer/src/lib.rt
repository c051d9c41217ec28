// The end of a search that looks: the query is prepared, every candidate is checked, and that is answered: for all matches by the room of the list.
#![tactic(auto)]

ghost use Rattle.std.specs.Prelude.{◌≡◌, ◌≤◌, min, length};
ghost use Rattle.meaning_filter.specs.Matches.{offset_count};
ghost use Rattle.meaning_filter.specs.declared.Pick.{Pick};
ghost use Rattle.meaning_filter.specs.Closest.{fewest};
ghost use Rattle.meaning_entries.specs.Buffers.{pair_room};
ghost use Rattle.check_list.specs.Members.{members};
ghost use Rattle.check_list.specs.Listed.{ListFilled};
ghost use Rattle.check_list.specs.Found.{asked, RunsLent, found, lent_runs};
ghost use Rattle.check_answer.specs.Answer.{wanted, Limited, answer_of, Answers};

use check_list::check_runs;
use distance_query::prepare;
use meaning_curves::LONGEST_QUERY;
use meaning_entries::Found;
use meaning_filter::{Ask, Kind, Limits, Pick};

// What a search for all matches answers that looked: they are listed, or the list is full.
#[tactic(auto, unfolding(crate::specs::Answer::answer_of))]
pub fn answer_all(candidates: usize, matches: usize, offsets: usize, distances: usize) -> Found
    ensures { result ≡ answer_of Pick.All candidates matches (min offsets distances) }
{
    let room = offsets.min(distances);
    if matches <= room {
        Found::All {
            candidates,
            matches,
        }
    } else {
        Found::Full {
            candidates,
            matches,
        }
    }
}

// What a search answers that looked.
#[tactic(auto, unfolding(crate::specs::Answer::answer_of))]
pub fn answer(
    pick: Pick,
    candidates: usize,
    matches: usize,
    offsets: usize,
    distances: usize,
) -> Found
    ensures { result ≡ answer_of pick candidates matches (min offsets distances) }
{
    match pick {
        Pick::All => answer_all(candidates, matches, offsets, distances),
        Pick::Closest { .. } => Found::Few {
            candidates,
            matches,
        },
    }
}

// The candidates checked with room for the query's curve and its envelopes; how many matches there are.
pub fn check_prepared(
    pick: Pick,
    kind: Kind,
    s: &[i32],
    q: &[i32],
    l: Limits,
    left: &[u32],
    right: &[u32],
    runs: usize,
    curve: &mut [i32],
    low: &mut [i32],
    high: &mut [i32],
    offsets: &mut [u32],
    distances: &mut [u64],
) -> usize
    requires limited { Limited kind s.now q.now l }
    requires runs_lent { RunsLent (offset_count (asked pick kind s.now q.now l)) left.now right.now runs }
    requires curve_len { (length curve.old ≡ length q.now) × (length low.old ≡ length q.now) × (length high.old ≡ length q.now) }
    requires pick_bound { fewest pick ≤ pair_room offsets.old distances.old }
    ensures { ListFilled pick (found (asked pick kind s.now q.now l) (members (lent_runs left.now right.now runs))) result offsets.old distances.old offsets.new distances.new }
{
    let b = l.band as usize;
    let query = prepare(kind, q, b, curve, low, high);
    check_runs(
        pick, kind, s, q, query, curve, low, high, l, left, right, runs, offsets, distances,
    )
}

// The matches among the offsets of the candidates' runs, handed out as far as there is room, with what a search answers that has so many candidates.
pub fn find_matches(
    ask: Ask,
    s: &[i32],
    q: &[i32],
    left: &[u32],
    right: &[u32],
    runs: usize,
    candidates: usize,
    offsets: &mut [u32],
    distances: &mut [u64],
) -> Found
    requires limited { Limited ask.kind s.now q.now ask.limits }
    requires runs_lent { RunsLent (offset_count (wanted ask s.now q.now)) left.now right.now runs }
    requires pick_bound { fewest ask.pick ≤ pair_room offsets.old distances.old }
    ensures { Answers ask.pick (found (wanted ask s.now q.now) (members (lent_runs left.now right.now runs))) candidates result offsets.old distances.old offsets.new distances.new }
{
    let mut curve = [0; LONGEST_QUERY];
    let mut low = [0; LONGEST_QUERY];
    let mut high = [0; LONGEST_QUERY];
    let m = q.len();
    let found = check_prepared(
        ask.pick,
        ask.kind,
        s,
        q,
        ask.limits,
        left,
        right,
        runs,
        &mut curve[..m],
        &mut low[..m],
        &mut high[..m],
        offsets,
        distances,
    );
    answer(ask.pick, candidates, found, offsets.len(), distances.len())
}
