// The closest few matches of a series, as the reserve desk reads them: an index is built, searched once through the entry for the closest few, and the list printed with the counts.
// Standard input has numbers: window length, row width, merge percentage; how many prices there are, and these; kind (0 raw, 1 normalised), band, threshold, scale limit, shift limit; how many values the query has, and these; how many matches are asked for.
#![tactic(auto)]

ghost use Rattle.std.specs.Prelude.{◌≤◌};
ghost use Rattle.meaning_curves.specs.Limits.{most_program_values, longest_query};

use entry_build::build;
use entry_search::closest;
use meaning_curves::{LONGEST_QUERY, MOST_PROGRAM_VALUES};
use meaning_entries::{Found, Refusal};
use meaning_filter::{Ask, Pick};
use meaning_rows::{Head, Row};
use std::fmt::{self, Write};
use try_c_match::kind_of;
use try_out::Out;
use try_print::{Count, get_limits, get_offset, print_refused, print_too_much, read_input};
use try_vectors::{get, get_small, get_values, plus};

// How many matches the lent list holds.
const ROOM: usize = 64;

// ---- words

// The head of the list: how many of the matches are listed, among how many candidates.
fn print_head(out: &mut Out, count: usize, candidates: usize, matches: usize) -> fmt::Result {
    if count < matches {
        write!(out, "the closest {count} of {matches} matches")?;
    } else {
        match matches {
            0 => write!(out, "no matches")?,
            1 => write!(out, "the only match")?,
            _ => write!(out, "all {matches} matches")?,
        }
    }
    let among = Count {
        n: candidates,
        one: "candidate",
        many: "candidates",
    };
    writeln!(out, ", among {among}")
}

fn print_list(out: &mut Out, offsets: &[u32], distances: &[u64], listed: usize) -> fmt::Result {
    for k in 0..listed {
        writeln!(
            out,
            "  at {}, distance {}",
            get_offset(offsets, k),
            get(distances, k)
        )?;
    }
    Ok(())
}

fn print_found(
    out: &mut Out,
    count: u32,
    answer: Result<Found, Refusal>,
    offsets: &[u32],
    distances: &[u64],
) -> fmt::Result {
    match answer {
        Ok(
            Found::Few {
                candidates,
                matches,
            },
        ) => {
            let count = count as usize;
            print_head(out, count, candidates, matches)?;
            print_list(out, offsets, distances, count.min(matches))
        }
        Err(r) => {
            print_refused(out, r);
            Ok(())
        }
        // Not answered where the closest few are asked for.
        _ => Ok(()),
    }
}

// ---- the program

// The search through the index, and its list.
fn search_closest(
    out: &mut Out,
    ask: Ask,
    count: u32,
    series: &[i32],
    query: &[i32],
    head: Head,
    rows: &[Row],
    left: &[u32],
    right: &[u32],
) -> fmt::Result {
    let mut first = [0u32; MOST_PROGRAM_VALUES];
    let mut last = [0u32; MOST_PROGRAM_VALUES];
    let mut scratch = [0u16; MOST_PROGRAM_VALUES];
    let mut offsets = [0u32; ROOM];
    let mut distances = [0u64; ROOM];
    let answer = closest(
        series,
        head,
        rows,
        left,
        right,
        ask,
        count,
        query,
        &mut first,
        &mut last,
        &mut scratch,
        &mut offsets,
        &mut distances,
    );
    print_found(out, count, answer, &offsets, &distances)
}

// The index and the search.
fn desk(
    out: &mut Out,
    ask: Ask,
    count: u32,
    window: u32,
    width: u32,
    merge: u32,
    series: &[i32],
    query: &[i32],
) -> fmt::Result {
    let mut rows = [Row {
        low: 0,
        up: 0,
        first: 0,
        runs: 0,
    }; MOST_PROGRAM_VALUES];
    let mut left = [0u32; MOST_PROGRAM_VALUES];
    let mut right = [0u32; MOST_PROGRAM_VALUES];
    let made = build(
        series, window, width, merge, &mut rows, &mut left, &mut right,
    );
    match made {
        Err(r) => {
            print_refused(out, r);
            Ok(())
        }
        Ok(index) => {
            let n = index.rows.min(MOST_PROGRAM_VALUES);
            search_closest(
                out,
                ask,
                count,
                series,
                query,
                index.head,
                &rows[..n],
                &left,
                &right,
            )
        }
    }
}

// What is asked for, from the place `at` of the query's kind on.
fn ask_of(nums: &[u64], at: usize) -> Ask {
    Ask {
        kind: kind_of(get_small(nums, at)),
        limits: get_limits(nums, plus(at, 1)),
        pick: Pick::All,
    }
}

// The numbers of the input, of which `n` are prices and `m` values of the query.
fn run(out: &mut Out, nums: &[u64], n: usize, m: usize) -> fmt::Result
    requires { (n ≤ most_program_values) × (m ≤ longest_query) }
{
    let at = plus(4, n);
    let from = plus(at, 6);
    let mut series = [0i32; MOST_PROGRAM_VALUES];
    let mut query = [0i32; LONGEST_QUERY];
    get_values(nums, 4, &mut series);
    get_values(nums, from, &mut query);
    let ask = ask_of(nums, at);
    let count = get_small(nums, plus(from, m));
    let window = get_small(nums, 0);
    let width = get_small(nums, 1);
    let merge = get_small(nums, 2);
    desk(
        out,
        ask,
        count,
        window,
        width,
        merge,
        &series[..n],
        &query[..m],
    )
}

fn main() {
    let mut out = Out;
    match read_input(3) {
        Some(x) => {
            // What can't be printed is lost.
            let _ = run(&mut out, &x.numbers, x.prices, x.values);
        }
        None => print_too_much(&mut out, b"not searched"),
    }
}
