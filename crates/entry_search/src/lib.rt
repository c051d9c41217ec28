// The search of a series through a lent index (01, Candidates), in two halves: finding the candidates, which needs the rows, and checking them, which needs none.
#![tactic(auto)]

ghost use Rattle.std.specs.Prelude.{◌≡◌, IfOk};
ghost use Rattle.meaning_filter.specs.declared.Pick.{Pick};
ghost use Rattle.meaning_entries.specs.Search.{lent_search, search_buffers, picking};
ghost use Rattle.meaning_entries.specs.Demand2.{SearchKept};
ghost use Rattle.entry_search.specs.Finished.{FinishReady, Finished};

use candidate_find::{Sought, find_candidates};
use check_answer::find_matches;
use meaning_entries::{Found, Refusal};
use meaning_filter::{Ask, Pick};
use meaning_rows::{Head, Row};

// The end of a search: what refused it; or the candidates found are checked, the matches listed, and that is answered. The candidates stay as they are.
pub fn finish(
    sought: Result<Sought, Refusal>,
    ask: Ask,
    series: &[i32],
    query: &[i32],
    first: &[u32],
    last: &[u32],
    offsets: &mut [u32],
    distances: &mut [u64],
) -> Result<Found, Refusal>
    requires { IfOk sought (λ t. FinishReady ask series.now query.now t first.now last.now offsets.old distances.old) }
    ensures { Finished ask series.now query.now sought first.now last.now offsets.old distances.old result offsets.new distances.new }
{
    let sought = sought?;
    Ok(find_matches(
        ask,
        series,
        query,
        first,
        last,
        sought.runs,
        sought.candidates,
        offsets,
        distances,
    ))
}

// The search.
pub fn search(
    series: &[i32],
    head: Head,
    rows: &[Row],
    left: &[u32],
    right: &[u32],
    ask: Ask,
    query: &[i32],
    first: &mut [u32],
    last: &mut [u32],
    scratch: &mut [u16],
    offsets: &mut [u32],
    distances: &mut [u64],
) -> Result<Found, Refusal>
    ensures { SearchKept (lent_search series.now head rows.now left.now right.now ask query.now) (search_buffers first.old last.old scratch.old offsets.old distances.old) result (search_buffers first.new last.new scratch.new offsets.new distances.new) }
{
    let sought = find_candidates(
        series, head, rows, left, right, ask, query, first, last, scratch, offsets, distances,
    );
    finish(sought, ask, series, query, first, last, offsets, distances)
}

// What is asked, but for the closest few (02, item 2).
pub fn pick_closest(ask: Ask, count: u32) -> Ask
    ensures { result ≡ picking (Pick.Closest count) ask }
{
    Ask {
        pick: Pick::Closest { count },
        ..ask
    }
}

// What is asked, but for all matches.
pub fn pick_all(ask: Ask) -> Ask
    ensures { result ≡ picking Pick.All ask }
{
    Ask {
        pick: Pick::All,
        ..ask
    }
}

// The closest few (02, item 2): of all matches the `count` of least distance, equal distances by earlier offset; whatever `ask` picks.
pub fn closest(
    series: &[i32],
    head: Head,
    rows: &[Row],
    left: &[u32],
    right: &[u32],
    ask: Ask,
    count: u32,
    query: &[i32],
    first: &mut [u32],
    last: &mut [u32],
    scratch: &mut [u16],
    offsets: &mut [u32],
    distances: &mut [u64],
) -> Result<Found, Refusal>
    ensures { SearchKept (lent_search series.now head rows.now left.now right.now (picking (Pick.Closest count) ask) query.now) (search_buffers first.old last.old scratch.old offsets.old distances.old) result (search_buffers first.new last.new scratch.new offsets.new distances.new) }
{
    let few = pick_closest(ask, count);
    search(
        series, head, rows, left, right, few, query, first, last, scratch, offsets, distances,
    )
}
