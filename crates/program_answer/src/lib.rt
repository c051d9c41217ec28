// The list of matches as text behind the text of the index: what the search program prints is put together from these (01, 'Text and program').
#![tactic(auto)]

ghost use Rattle.std.specs.Prelude.{◌≡◌, length};
ghost use Rattle.meaning_filter.specs.declared.Pick.{Pick};
ghost use Rattle.meaning_entries.specs.Search.{lent_search};
ghost use Rattle.program_answer.specs.Print.{FoundPut};
ghost use Rattle.program_answer.specs.Finish.{Listed, Prints};
ghost use Rattle.meaning_entries.specs.Program.{call_lines, printed};
ghost use Rattle.meaning_entries.proofs.Refused.{AllPass};
ghost use Rattle.program_input.specs.Tables.{call_of};

use entry_build::build;
use entry_search::search;
use entry_write::write;
use meaning_curves::MOST_PROGRAM_VALUES;
use meaning_entries::{Found, Refusal};
use meaning_filter::Ask;
use meaning_rows::{Head, Row};
use program_input::Asked;
use text_list::write_found;

// The list behind the index text.
pub fn put_found(
    text: &mut [u8],
    at: usize,
    answer: Result<Found, Refusal>,
    offsets: &[u32],
    distances: &[u64],
) -> usize
    ensures { FoundPut answer text.old at offsets.now distances.now text.new result }
{
    match answer {
        Ok(
            Found::All {
                candidates,
                matches,
            },
        ) => write_found(text, at, matches, candidates, offsets, distances),
        _ => at,
    }
}

// The search and its list, behind the index text.
pub fn list_matches(
    series: &[i32],
    head: Head,
    rows: &[Row],
    left: &[u32],
    right: &[u32],
    ask: Ask,
    query: &[i32],
    text: &mut [u8],
    at: usize,
) -> usize
    ensures { Listed (lent_search series.now head rows.now left.now right.now ask query.now) text.old at text.new result }
{
    let mut first = [0u32; MOST_PROGRAM_VALUES];
    let mut last = [0u32; MOST_PROGRAM_VALUES];
    let mut scratch = [0u16; MOST_PROGRAM_VALUES];
    let mut offsets = [0u32; MOST_PROGRAM_VALUES];
    let mut distances = [0u64; MOST_PROGRAM_VALUES];
    let answer = search(
        series,
        head,
        rows,
        left,
        right,
        ask,
        query,
        &mut first,
        &mut last,
        &mut scratch,
        &mut offsets,
        &mut distances,
    );
    put_found(text, at, answer, &offsets, &distances)
}

// The index and the list, as text.
pub fn print_answer(series: &[i32], query: &[i32], a: Asked, text: &mut [u8]) -> usize
    requires { (AllPass (call_lines (call_of series.now query.now a))) × (length text.old ≡ 1048576) × (a.ask.pick ≡ Pick.All) }
    ensures { Prints (printed (call_of series.now query.now a)) text.new result }
{
    let mut rows = [Row {
        low: 0,
        up: 0,
        first: 0,
        runs: 0,
    }; MOST_PROGRAM_VALUES];
    let mut left = [0u32; MOST_PROGRAM_VALUES];
    let mut right = [0u32; MOST_PROGRAM_VALUES];
    let made = build(
        series, a.window, a.width, a.merge, &mut rows, &mut left, &mut right,
    );
    match made {
        Err(_) => 0,
        Ok(index) => {
            let rows = &rows[..index.rows];
            let left = &left[..index.runs];
            let right = &right[..index.runs];
            let at = write(index.head, rows, left, right, text).unwrap_or(0);
            list_matches(
                series, index.head, rows, left, right, a.ask, query, text, at,
            )
        }
    }
}
