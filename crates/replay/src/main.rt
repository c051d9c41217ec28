// Replays searches during an extension: an index of the first prices stays as it is while the series grows by one price at a time. Each list that is found through it is held to a scan of all offsets, which uses no index.
// Standard input has numbers: how many prices the index covers; window length, row width, merge percentage; how many prices there are, and these; kind (0 raw, 1 normalised), band, threshold, scale limit, shift limit; how many values the query has, and these.
#![tactic(auto)]

ghost use Rattle.std.specs.Prelude.{◌≤◌, length};
ghost use Rattle.meaning_curves.specs.Limits.{most_program_values, longest_query};

use entry_build::build;
use entry_search::search;
use meaning_curves::{LONGEST_QUERY, MOST_PROGRAM_VALUES};
use meaning_entries::{Found, Reason, Refusal};
use meaning_filter::{Ask, Limits, Pick};
use meaning_rows::{Head, Row};
use std::fmt::{self, Write};
use try_c_match::{curve_matches, kind_of};
use try_out::Out;
use try_print::{Count, get_limits, get_offset, print_refused, print_too_much, read_input};
use try_vectors::{get, get_length, get_small, get_values, plus};

// ---- what is asked for

// The numbers of the input; `kind` is 0 for a raw query.
#[derive(Clone, Copy)]
struct Story {
    indexed: usize,
    window: u32,
    width: u32,
    merge: u32,
    kind: u32,
    limits: Limits,
}

// `n` is how many prices there are.
fn story_of(nums: &[u64], n: usize) -> Story
    ensures { result.indexed ≤ n }
{
    let at = plus(5, n);
    Story {
        indexed: get_length(nums, 0, n),
        window: get_small(nums, 1),
        width: get_small(nums, 2),
        merge: get_small(nums, 3),
        kind: get_small(nums, at),
        limits: get_limits(nums, plus(at, 1)),
    }
}

// ---- words

fn prices(n: usize) -> Count<'static> {
    Count {
        n,
        one: "price",
        many: "prices",
    }
}

fn print_index(out: &mut Out, head: Head) -> fmt::Result {
    let windows = Count {
        n: head.windows as usize,
        one: "window",
        many: "windows",
    };
    writeln!(out, "window length {}, {windows}", head.window)
}

fn print_step(out: &mut Out, matches: usize, candidates: usize, same: bool) -> fmt::Result {
    let matches = Count {
        n: matches,
        one: "match",
        many: "matches",
    };
    let candidates = Count {
        n: candidates,
        one: "candidate",
        many: "candidates",
    };
    let what = if same { "the same" } else { "others" };
    writeln!(out, "{matches} of {candidates}, the scan finds {what}")
}

// How many of the `m` prices from `from` on stand behind the first `indexed`.
fn newer(from: usize, m: usize, indexed: usize) -> usize {
    m.saturating_sub(indexed.saturating_sub(from))
}

fn print_match(
    out: &mut Out,
    offset: usize,
    distance: u64,
    m: usize,
    indexed: usize,
) -> fmt::Result {
    writeln!(
        out,
        "  at {offset}, distance {distance}, {} of its {} newer than the index",
        newer(offset, m, indexed),
        prices(m)
    )
}

// ---- the list of a search

// The matches that reach past the first `told` prices.
fn print_new(
    out: &mut Out,
    offsets: &[u32],
    distances: &[u64],
    matches: usize,
    m: usize,
    told: usize,
    indexed: usize,
) -> fmt::Result {
    for k in 0..matches {
        let offset = get_offset(offsets, k);
        if told < plus(offset, m) {
            print_match(out, offset, get(distances, k), m, indexed)?;
        }
    }
    Ok(())
}

// Whether a list is what the scan says of its offsets: the distance and 1 of a match, 0 of any other.
fn same_list(
    offsets: &[u32],
    distances: &[u64],
    matches: usize,
    scanned: &[u64],
    n: usize,
) -> bool {
    let mut k: usize = 0;
    for j in 0..n {
        let x = get(scanned, j);
        if x != 0 {
            if get_offset(offsets, k) != j || get(distances, k) != x - 1 {
                return false;
            }
            k = plus(k, 1);
        }
    }
    k == matches
}

// ---- the scan

// The match test of every offset, into `out`. How many offsets there are; 0 where the scan is refused.
fn scan(s: Story, series: &[i32], query: &[i32], out: &mut [u64]) -> usize
    requires { length query.now ≤ longest_query }
{
    let m = query.len();
    let l = s.limits;
    let mut curve = [0i32; LONGEST_QUERY];
    let mut low = [0i32; LONGEST_QUERY];
    let mut high = [0i32; LONGEST_QUERY];
    let mut room = [0i32; LONGEST_QUERY];
    let mut row = [0u64; LONGEST_QUERY + 1];
    curve_matches(
        s.kind,
        series,
        query,
        l.band,
        l.threshold,
        l.scale,
        l.shift,
        &mut curve[..m],
        &mut low[..m],
        &mut high[..m],
        &mut room[..m],
        &mut row,
        out,
    )
}

// Whether the scan finds the matches of a list and no others.
fn scan_finds(
    s: Story,
    series: &[i32],
    query: &[i32],
    offsets: &[u32],
    distances: &[u64],
    matches: usize,
) -> bool
    requires { length query.now ≤ longest_query }
{
    let mut scanned = [0u64; MOST_PROGRAM_VALUES];
    let n = scan(s, series, query, &mut scanned);
    if plus(n, query.len()) != plus(series.len(), 1) {
        return false;
    }
    same_list(offsets, distances, matches, &scanned, n)
}

// ---- the steps

// How many prices there were when matches were told last, and how many lists are the scan's, of how many.
#[derive(Clone, Copy)]
struct Turn {
    told: usize,
    same: u64,
    tried: u64,
}

// A search of these prices through the index, its list into `offsets` and `distances`.
fn search_step(
    s: Story,
    series: &[i32],
    query: &[i32],
    head: Head,
    rows: &[Row],
    left: &[u32],
    right: &[u32],
    offsets: &mut [u32],
    distances: &mut [u64],
) -> Result<Found, Refusal> {
    let mut first = [0u32; MOST_PROGRAM_VALUES];
    let mut last = [0u32; MOST_PROGRAM_VALUES];
    let mut scratch = [0u16; MOST_PROGRAM_VALUES];
    let ask = Ask {
        kind: kind_of(s.kind),
        limits: s.limits,
        pick: Pick::All,
    };
    search(
        series,
        head,
        rows,
        left,
        right,
        ask,
        query,
        &mut first,
        &mut last,
        &mut scratch,
        offsets,
        distances,
    )
}

// What a search answered, told and held to the scan; one that does not list all matches has nothing to be held to it.
fn tell(
    out: &mut Out,
    s: Story,
    series: &[i32],
    query: &[i32],
    answer: Result<Found, Refusal>,
    offsets: &[u32],
    distances: &[u64],
    t: Turn,
) -> Result<Turn, fmt::Error>
    requires { length query.now ≤ longest_query }
{
    let n = series.len();
    let tried = t.tried.wrapping_add(1);
    let unheld = Turn {
        told: t.told,
        same: t.same,
        tried,
    };
    write!(out, "{}: ", prices(n))?;
    match answer {
        Ok(
            Found::All {
                candidates,
                matches,
            },
        ) => {
            let same = scan_finds(s, series, query, offsets, distances, matches);
            print_step(out, matches, candidates, same)?;
            print_new(
                out,
                offsets,
                distances,
                matches,
                query.len(),
                t.told,
                s.indexed,
            )?;
            Ok(Turn {
                told: n,
                same: t.same.wrapping_add(same as u64),
                tried,
            })
        }
        Ok(Found::Full { .. }) => {
            print_refused(out, Refusal::at(Reason::FullList, 0));
            Ok(unheld)
        }
        Ok(Found::Few { .. }) => Ok(unheld),
        Err(r) => {
            print_refused(out, r);
            Ok(unheld)
        }
    }
}

fn step(
    out: &mut Out,
    s: Story,
    series: &[i32],
    query: &[i32],
    head: Head,
    rows: &[Row],
    left: &[u32],
    right: &[u32],
    t: Turn,
) -> Result<Turn, fmt::Error>
    requires { length query.now ≤ longest_query }
{
    let mut offsets = [0u32; MOST_PROGRAM_VALUES];
    let mut distances = [0u64; MOST_PROGRAM_VALUES];
    let answer = search_step(
        s,
        series,
        query,
        head,
        rows,
        left,
        right,
        &mut offsets,
        &mut distances,
    );
    tell(out, s, series, query, answer, &offsets, &distances, t)
}

// From the prices of the index on, one more at a time.
fn steps(
    out: &mut Out,
    s: Story,
    series: &[i32],
    query: &[i32],
    head: Head,
    rows: &[Row],
    left: &[u32],
    right: &[u32],
) -> Result<Turn, fmt::Error>
    requires { (length series.now ≤ most_program_values) × (length query.now ≤ longest_query) }
{
    let mut t = Turn {
        told: 0,
        same: 0,
        tried: 0,
    };
    for n in s.indexed..series.len() + 1 {
        t = step(out, s, &series[..n], query, head, rows, left, right, t)?;
    }
    Ok(t)
}

// ---- the program

// The index, the steps, and how many lists were the scan's.
fn replay(out: &mut Out, s: Story, series: &[i32], query: &[i32]) -> fmt::Result
    requires { (s.indexed ≤ length series.now) × (length series.now ≤ most_program_values) × (length query.now ≤ longest_query) }
{
    let mut rows = [Row {
        low: 0,
        up: 0,
        first: 0,
        runs: 0,
    }; MOST_PROGRAM_VALUES];
    let mut left = [0u32; MOST_PROGRAM_VALUES];
    let mut right = [0u32; MOST_PROGRAM_VALUES];
    let made = build(
        &series[..s.indexed],
        s.window,
        s.width,
        s.merge,
        &mut rows,
        &mut left,
        &mut right,
    );
    write!(out, "index of {}: ", prices(s.indexed))?;
    match made {
        Err(r) => {
            print_refused(out, r);
            Ok(())
        }
        Ok(index) => {
            print_index(out, index.head)?;
            let n = index.rows.min(MOST_PROGRAM_VALUES);
            let t = steps(out, s, series, query, index.head, &rows[..n], &left, &right)?;
            writeln!(out, "{} of {} lists are the scan's", t.same, t.tried)
        }
    }
}

// The numbers of the input, of which `n` are prices and `m` values of the query.
fn run(out: &mut Out, nums: &[u64], n: usize, m: usize) -> fmt::Result
    requires { (n ≤ most_program_values) × (m ≤ longest_query) }
{
    let s = story_of(nums, n);
    let mut series = [0i32; MOST_PROGRAM_VALUES];
    let mut query = [0i32; LONGEST_QUERY];
    get_values(nums, 5, &mut series);
    get_values(nums, plus(11, n), &mut query);
    replay(out, s, &series[..n], &query[..m])
}

fn main() {
    let mut out = Out;
    match read_input(4) {
        Some(x) => {
            // What can't be printed is lost.
            let _ = run(&mut out, &x.numbers, x.prices, x.values);
        }
        None => print_too_much(&mut out, b"not replayed"),
    }
}
