// The entry that searches for C: for the comparison under tests/ and the measurements under bench/, and for nothing else. It takes what the entry takes, the kind and the limits as a struct of numbers, calls it, and tells its answer as one.
#![tactic(auto)]

ghost use Rattle.std.specs.Prelude.{◌≡◌};
ghost use Rattle.meaning_entries.specs.Search.{lent_search};
ghost use Rattle.try_c_search.specs.Told.{kind_of, limits_of, pick_of, ask_of, numbers_of, told_found, SearchTold};

use entry_search::search;
use meaning_entries::{Found, Refusal};
use meaning_filter::{Ask, Kind, Limits, Pick};
use meaning_rows::{Head, Row};

// What a search is asked for beside its query: the kind, 0 for raw and any other number for normalised; band, threshold, scale limit in tenths, shift limit; what it hands out, 0 for all matches and any other number for the closest, so many.
#[repr(C)]
#[derive(Clone, Copy)]
pub struct Asked {
    pub kind: u32,
    pub band: u32,
    pub threshold: u64,
    pub scale: u32,
    pub shift: u32,
    pub pick: u32,
    pub count: u32,
}

// An answer: 0 and both counts where all matches are listed, 1 and both counts where the list is full, 2 and both counts where the closest few are listed, 3 and the refusal's number and place.
// Numbers and no enum: it is what C takes.
#[repr(C)]
#[derive(Clone, Copy)]
pub struct Answer {
    pub kind: u32,
    pub first: usize,
    pub second: usize,
}

// The kind that is asked for.
fn kind_of(asked: Asked) -> Kind
    ensures { result ≡ kind_of asked }
{
    if asked.kind == 0 {
        return Kind::Raw;
    }
    Kind::Normal
}

// The limits that are asked for.
fn limits_of(asked: Asked) -> Limits
    ensures { result ≡ limits_of asked }
{
    Limits {
        band: asked.band,
        threshold: asked.threshold,
        scale: asked.scale,
        shift: asked.shift,
    }
}

// What is to be handed out.
fn pick_of(asked: Asked) -> Pick
    ensures { result ≡ pick_of asked }
{
    if asked.pick == 0 {
        return Pick::All;
    }
    Pick::Closest { count: asked.count }
}

// What is asked for.
fn ask_of(asked: Asked) -> Ask
    ensures { result ≡ ask_of asked }
{
    Ask {
        kind: kind_of(asked),
        limits: limits_of(asked),
        pick: pick_of(asked),
    }
}

// A kind and two numbers.
fn numbers(kind: u32, first: usize, second: usize) -> Answer
    ensures { result ≡ numbers_of kind first second }
{
    Answer {
        kind,
        first,
        second,
    }
}

// What a search answers.
#[tactic(auto, unfolding(crate::specs::Told::told_found))]
fn tell_found(answer: Result<Found, Refusal>) -> Answer
    ensures { result ≡ told_found answer }
{
    match answer {
        Ok(
            Found::All {
                candidates,
                matches,
            },
        ) => numbers(0, candidates, matches),
        Ok(
            Found::Full {
                candidates,
                matches,
            },
        ) => numbers(1, candidates, matches),
        Ok(
            Found::Few {
                candidates,
                matches,
            },
        ) => numbers(2, candidates, matches),
        Err(r) => numbers(3, r.number as usize, r.place),
    }
}

// The search.
#[unsafe(no_mangle)]
pub extern "C" fn index_search(
    series: &[i32],
    head: Head,
    rows: &[Row],
    left: &[u32],
    right: &[u32],
    asked: Asked,
    query: &[i32],
    first: &mut [u32],
    last: &mut [u32],
    scratch: &mut [u16],
    offsets: &mut [u32],
    distances: &mut [u64],
) -> Answer
    ensures { SearchTold (lent_search series.now head rows.now left.now right.now (ask_of asked) query.now) (record { left = first.old; right = last.old; scratch = scratch.old; offsets = offsets.old; distances = distances.old }) result (record { left = first.new; right = last.new; scratch = scratch.new; offsets = offsets.new; distances = distances.new }) }
{
    let ask = ask_of(asked);
    tell_found(search(
        series, head, rows, left, right, ask, query, first, last, scratch, offsets, distances,
    ))
}
