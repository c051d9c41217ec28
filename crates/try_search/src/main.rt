// Runs the vectors of its standard input (tests/model/search_vectors.rs writes them: the paper's cases, then answers of the model) through the entry that searches, and says of each group how many agree.
#![tactic(auto)]

use entry_search::search;
use meaning_entries::{Found, Refusal};
use meaning_filter::{Ask, Kind, Pick};
use meaning_rows::Row;
use try_groups::{Groups, Step, run_groups};
use try_print::get_limits;
use try_vectors::{
    get_head, get_length, get_natural, get_numbers, get_row, get_small, get_values, plus,
    read_numbers,
};

// ---- parts of a vector: a list is how many entries it has, and these

// The place behind a list.
fn behind(nums: &[u64], at: usize) -> usize {
    plus(plus(at, 1), get_natural(nums, at) as usize)
}

// The first 64 rows of a list of four numbers each.
fn get_rows(nums: &[u64], at: usize) -> [Row; 64] {
    let mut rows = [Row {
        low: 0,
        up: 0,
        first: 0,
        runs: 0,
    }; 64];
    for k in 0..64 {
        rows[k] = get_row(nums, plus(plus(at, 1), k * 4));
    }
    rows
}

fn get_kind(nums: &[u64], at: usize) -> Kind {
    if get_natural(nums, at) == 0 {
        return Kind::Raw;
    }
    Kind::Normal
}

// ---- comparing

// Whether the offsets, or ends of runs, are those of the list at a place.
fn agree_offsets(got: &[u32], nums: &[u64], at: usize) -> bool {
    let from = plus(at, 1);
    for k in 0..got.len() {
        if got[k] != get_small(nums, plus(from, k)) {
            return false;
        }
    }
    true
}

// Of counts and distances, likewise.
fn agree_list<T: Copy>(got: &[T], nums: &[u64], at: usize) -> bool
where
    u64: From<T>,
{
    let from = plus(at, 1);
    for k in 0..got.len() {
        if u64::from(got[k]) != get_natural(nums, plus(from, k)) {
            return false;
        }
    }
    true
}

// Whether three numbers stand at a place.
fn agree_told(nums: &[u64], at: usize, kind: u64, first: usize, second: usize) -> bool {
    get_natural(nums, at) == kind
        && get_natural(nums, plus(at, 1)) == first as u64
        && get_natural(nums, plus(at, 2)) == second as u64
}

// An answer: 0 and both counts; 1, both counts and a full list; 3 and the refusal's number and place.
fn agree_found(answer: Result<Found, Refusal>, nums: &[u64], at: usize) -> bool {
    match answer {
        Ok(
            Found::All {
                candidates,
                matches,
            },
        ) => agree_told(nums, at, 0, candidates, matches),
        Ok(
            Found::Full {
                candidates,
                matches,
            },
        ) => agree_told(nums, at, 1, candidates, matches),
        Ok(
            Found::Few {
                candidates,
                matches,
            },
        ) => agree_told(nums, at, 2, candidates, matches),
        Err(r) => agree_told(nums, at, 3, r.number as usize, r.place),
    }
}

// ---- one search

// Where the parts of a vector stand.
#[derive(Clone, Copy)]
struct Places {
    series: usize,
    head: usize,
    rows: usize,
    left: usize,
    right: usize,
    kind: usize,
    query: usize,
    limits: usize,
    answer: usize,
    first: usize,
    last: usize,
    scratch: usize,
    offsets: usize,
    distances: usize,
}

fn places_of(nums: &[u64], at: usize) -> Places {
    let head = behind(nums, at);
    let rows = plus(head, 3);
    let left = behind(nums, rows);
    let right = behind(nums, left);
    let kind = behind(nums, right);
    let query = plus(kind, 1);
    let limits = behind(nums, query);
    let answer = plus(limits, 4);
    let first = plus(answer, 3);
    let last = behind(nums, first);
    let scratch = behind(nums, last);
    let offsets = behind(nums, scratch);
    Places {
        series: at,
        head,
        rows,
        left,
        right,
        kind,
        query,
        limits,
        answer,
        first,
        last,
        scratch,
        offsets,
        distances: behind(nums, offsets),
    }
}

// The search of a vector, in buffers as long as its lists: whether the answer and every buffer afterwards are as expected.
fn search_lent(
    nums: &[u64],
    p: Places,
    series: &[i32],
    left: &[u32],
    right: &[u32],
    query: &[i32],
    first: &mut [u32],
    last: &mut [u32],
    scratch: &mut [u16],
    offsets: &mut [u32],
    distances: &mut [u64],
) -> bool {
    let head = get_head(nums, p.head);
    let rows = get_rows(nums, p.rows);
    let n = get_length(nums, p.rows, 256) / 4;
    let kind = get_kind(nums, p.kind);
    let limits = get_limits(nums, p.limits);
    let pick = Pick::All;
    let ask = Ask { kind, limits, pick };
    let answer = search(
        series,
        head,
        &rows[..n],
        left,
        right,
        ask,
        query,
        first,
        last,
        scratch,
        offsets,
        distances,
    );
    agree_found(answer, nums, p.answer)
        && agree_offsets(first, nums, p.first)
        && agree_offsets(last, nums, p.last)
        && agree_list(scratch, nums, p.scratch)
        && agree_offsets(offsets, nums, p.offsets)
        && agree_list(distances, nums, p.distances)
}

// The same with room for series and query.
fn with_query(
    nums: &[u64],
    p: Places,
    left: &[u32],
    right: &[u32],
    first: &mut [u32],
    last: &mut [u32],
    scratch: &mut [u16],
    offsets: &mut [u32],
    distances: &mut [u64],
) -> bool {
    let n = get_length(nums, p.series, 300);
    let m = get_length(nums, p.query, 300);
    let mut series = [0i32; 300];
    let mut query = [0i32; 300];
    get_values(nums, plus(p.series, 1), &mut series);
    get_values(nums, plus(p.query, 1), &mut query);
    search_lent(
        nums,
        p,
        &series[..n],
        left,
        right,
        &query[..m],
        first,
        last,
        scratch,
        offsets,
        distances,
    )
}

// The same with room for the runs.
fn with_runs(
    nums: &[u64],
    p: Places,
    first: &mut [u32],
    last: &mut [u32],
    scratch: &mut [u16],
    offsets: &mut [u32],
    distances: &mut [u64],
) -> bool {
    let lefts = get_length(nums, p.left, 300);
    let rights = get_length(nums, p.right, 300);
    let mut left = [0u32; 300];
    let mut right = [0u32; 300];
    get_numbers(nums, plus(p.left, 1), &mut left);
    get_numbers(nums, plus(p.right, 1), &mut right);
    with_query(
        nums,
        p,
        &left[..lefts],
        &right[..rights],
        first,
        last,
        scratch,
        offsets,
        distances,
    )
}

// The same with a list full of sevens.
fn with_list(
    nums: &[u64],
    p: Places,
    first: &mut [u32],
    last: &mut [u32],
    scratch: &mut [u16],
) -> bool {
    let entries = get_length(nums, p.offsets, 300);
    let sizes = get_length(nums, p.distances, 300);
    let mut offsets = [7u32; 300];
    let mut distances = [7u64; 300];
    with_runs(
        nums,
        p,
        first,
        last,
        scratch,
        &mut offsets[..entries],
        &mut distances[..sizes],
    )
}

// The same with the other buffers full of sevens.
fn search_one(nums: &[u64], p: Places) -> bool {
    let firsts = get_length(nums, p.first, 300);
    let lasts = get_length(nums, p.last, 300);
    let counts = get_length(nums, p.scratch, 300);
    let mut first = [7u32; 300];
    let mut last = [7u32; 300];
    let mut scratch = [7u16; 300];
    with_list(
        nums,
        p,
        &mut first[..firsts],
        &mut last[..lasts],
        &mut scratch[..counts],
    )
}

// ---- the vectors, one after the other

struct Searches;

impl Groups for Searches {
    fn name(group: u64) -> &'static str {
        match group {
            1 => "the paper's cases",
            2 => "raw straight",
            3 => "raw warped",
            4 => "normalised straight",
            5 => "normalised warped",
            6 => "short lists",
            7 => "short buffers",
            8 => "wrong indexes",
            9 => "ill-formed indexes",
            _ => "numbers and values past their limits",
        }
    }

    // A vector begins with 0; a number of a group ends it.
    fn step(nums: &[u64], at: usize) -> Step {
        let next = plus(at, 1);
        match get_natural(nums, at) {
            0 => {
                let p = places_of(nums, next);
                Step::Vector {
                    agrees: search_one(nums, p),
                    next: behind(nums, p.distances),
                }
            }
            group => Step::End { group, next },
        }
    }
}

fn main() {
    let mut text = io::large_buffer();
    let n = io::read_full(0, &mut text);
    let mut nums = [0u64; 32768];
    read_numbers(&text[..n], &mut nums);
    let _ = run_groups::<Searches>(&nums, 0, 263);
}
