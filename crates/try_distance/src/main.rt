// Runs the vectors of its standard input (tests/model/vectors.rs writes them: the paper's cases, then answers of the model) and says of each group how many agree.
#![tactic(auto)]

ghost use Rattle.std.specs.Prelude.{◌≤◌};

use try_c_distance::{curve_bound, curve_envelopes, curve_normal, curve_straight, curve_warped};
use try_c_match::{curve_matches, curve_root, curve_windows};
use try_groups::{Groups, Step, run_groups};
use try_vectors::{get, get_length, get_natural, get_small, get_values, plus, read_numbers, value};

// ---- comparing

// Whether a distance is the expected one, or above `e` where -1 is expected.
fn same(got: u64, want: u64, e: u64) -> bool {
    if want < 1000000000000000000 {
        return e < got;
    }
    got == want - 1000000000000000000
}

// Whether the first `k` numbers of `got` are those at the place `at`, after how many there are.
fn agree(got: &[u64], k: usize, nums: &[u64], at: usize, e: u64) -> bool {
    if got.len() < k {
        return false;
    }
    if get_length(nums, at, 32) != k {
        return false;
    }
    for j in 0..k {
        if !same(got[j], get(nums, plus(at, plus(j, 1))), e) {
            return false;
        }
    }
    true
}

// Whether the values are those from the place `at` on.
fn agree_values(got: &[i32], nums: &[u64], at: usize) -> bool {
    for j in 0..got.len() {
        if got[j] != value(get(nums, plus(at, j))) {
            return false;
        }
    }
    true
}

// ---- the tests

fn try_root(nums: &[u64], at: usize, e: u64) -> bool {
    let mut got = [0u64; 1];
    got[0] = curve_root(e);
    agree(&got, 1, nums, at, e)
}

fn try_straight(s: &[i32], q: &[i32], nums: &[u64], at: usize, e: u64) -> bool {
    let mut got = [0u64; 64];
    let k = curve_straight(s, q, e, &mut got);
    agree(&got, k, nums, at, e)
}

fn try_warped(
    s: &[i32],
    q: &[i32],
    nums: &[u64],
    at: usize,
    b: usize,
    e: u64,
    low: &mut [i32],
    high: &mut [i32],
) -> bool {
    let mut got = [0u64; 64];
    let k = curve_warped(s, q, b, e, low, high, &mut got);
    agree(&got, k, nums, at, e)
}

fn try_envelopes(
    q: &[i32],
    nums: &[u64],
    at: usize,
    b: usize,
    low: &mut [i32],
    high: &mut [i32],
) -> bool {
    if !curve_envelopes(q, b, low, high) {
        return false;
    }
    if !agree_values(low, nums, plus(at, 1)) {
        return false;
    }
    agree_values(high, nums, plus(plus(at, 1), q.len()))
}

fn try_bound(
    s: &[i32],
    q: &[i32],
    nums: &[u64],
    at: usize,
    b: usize,
    e: u64,
    low: &mut [i32],
    high: &mut [i32],
) -> bool {
    let mut got = [0u64; 64];
    if !curve_envelopes(q, b, low, high) {
        return false;
    }
    let k = curve_bound(s, low, high, e, &mut got);
    agree(&got, k, nums, at, e)
}

fn try_spread(s: &[i32], nums: &[u64], at: usize, room: &mut [i32]) -> bool {
    let mut got = [0u64; 64];
    let k = curve_normal(s, room, &mut got);
    agree(&got, k, nums, at, 0)
}

// Of one stretch; a flat one has no normalised values.
fn try_normal(s: &[i32], nums: &[u64], at: usize, room: &mut [i32]) -> bool {
    let mut got = [0u64; 64];
    if curve_normal(s, room, &mut got) != 1 {
        return false;
    }
    if got[0] == 0 {
        return get_natural(nums, at) == 0;
    }
    if get_length(nums, at, 32) != room.len() {
        return false;
    }
    agree_values(room, nums, plus(at, 1))
}

// The matches of a query, raw or normalised: the threshold, the scale limit and the shift limit stand behind the band.
fn try_matches(
    kind: u32,
    s: &[i32],
    q: &[i32],
    nums: &[u64],
    at: usize,
    curve: &mut [i32],
    low: &mut [i32],
    high: &mut [i32],
    room: &mut [i32],
) -> bool {
    let mut got = [0u64; 64];
    let mut row = [0u64; 64];
    let b = get_small(nums, at);
    let e = get_natural(nums, plus(at, 1));
    let scale = get_small(nums, plus(at, 2));
    let shift = get_small(nums, plus(at, 3));
    let k = curve_matches(
        kind, s, q, b, e, scale, shift, curve, low, high, room, &mut row, &mut got,
    );
    agree(&got, k, nums, plus(at, 4), e)
}

// The sums of windows, then their rows, whose width stands behind the band: one length holds both.
fn try_rows(
    s: &[i32],
    w: usize,
    nums: &[u64],
    at: usize,
    sums: &mut [i32],
    rows: &mut [i32],
) -> bool {
    let d = get_small(nums, plus(at, 1));
    let k = curve_windows(s, w, d, sums, rows);
    if k != sums.len() {
        return false;
    }
    let want = plus(at, 5);
    if !agree_values(sums, nums, want) {
        return false;
    }
    agree_values(rows, nums, plus(want, k))
}

// One vector of a distance, an envelope or a bound: `at` is the place of the band, after the query.
fn try_curve(
    test: u64,
    s: &[i32],
    q: &[i32],
    nums: &[u64],
    at: usize,
    low: &mut [i32],
    high: &mut [i32],
    room: &mut [i32],
) -> bool {
    let b = get_small(nums, at) as usize;
    let e = get_natural(nums, plus(at, 1));
    let want = plus(at, 4);
    match test {
        1 => try_root(nums, want, e),
        2 => try_straight(s, q, nums, want, e),
        3 => try_warped(s, q, nums, want, b, e, low, high),
        4 => try_envelopes(q, nums, want, b, low, high),
        5 => try_bound(s, q, nums, want, b, e, low, high),
        6 => try_spread(s, nums, want, room),
        7 => try_normal(s, nums, want, room),
        _ => false,
    }
}

// One vector: `at` is the place of the band, after the query. Rooms are as long as the query; `sums` and `rows` as there are stretches.
fn try_one(
    test: u64,
    s: &[i32],
    q: &[i32],
    nums: &[u64],
    at: usize,
    curve: &mut [i32],
    low: &mut [i32],
    high: &mut [i32],
    room: &mut [i32],
    sums: &mut [i32],
    rows: &mut [i32],
) -> bool {
    match test {
        8 => try_matches(0, s, q, nums, at, curve, low, high, room),
        9 => try_matches(1, s, q, nums, at, curve, low, high, room),
        10 => try_rows(s, q.len(), nums, at, sums, rows),
        _ => try_curve(test, s, q, nums, at, low, high, room),
    }
}

// ---- the vectors, one after the other

// How many stretches of `m` values `n` have.
fn stretches(n: usize, m: usize) -> usize
    requires { n ≤ 32 }
    ensures { result ≤ 33 }
{
    if n < m {
        return 0;
    }
    n - m + 1
}

// The vector of the first `n` and `m` values, in rooms of their lengths.
fn in_rooms(nums: &[u64], at: usize, test: u64, s: &[i32], q: &[i32], n: usize, m: usize) -> bool {
    if s.len() < n {
        return false;
    }
    if q.len() < m {
        return false;
    }
    if 32 < n {
        return false;
    }
    if 32 < m {
        return false;
    }
    let k = stretches(n, m);
    let mut curve = [0i32; 32];
    let mut low = [0i32; 32];
    let mut high = [0i32; 32];
    let mut room = [0i32; 32];
    let mut sums = [0i32; 33];
    let mut rows = [0i32; 33];
    try_one(
        test,
        &s[..n],
        &q[..m],
        nums,
        at,
        &mut curve[..m],
        &mut low[..m],
        &mut high[..m],
        &mut room[..m],
        &mut sums[..k],
        &mut rows[..k],
    )
}

// The vector at a place.
fn one_vector(nums: &[u64], from: usize, test: u64) -> Step {
    let n = get_length(nums, plus(from, 1), 32);
    let p = plus(from, 2);
    let second = plus(p, n);
    let m = get_length(nums, second, 32);
    let r = plus(second, 1);
    let last = plus(r, m);
    let mut s = [0i32; 32];
    let mut q = [0i32; 32];
    get_values(nums, p, &mut s);
    get_values(nums, r, &mut q);
    let agrees = in_rooms(nums, last, test, &s, &q, n, m);
    let answers = get_length(nums, plus(last, 4), 32);
    let next = plus(plus(last, 5), answers);
    Step::Vector { agrees, next }
}

struct Distances;

impl Groups for Distances {
    fn name(group: u64) -> &'static str {
        match group {
            0 => "the paper's cases",
            1 => "roots",
            2 => "straight distances",
            3 => "warped distances",
            4 => "envelopes",
            5 => "envelope bounds",
            6 => "spreads",
            7 => "normalised values",
            8 => "matches of raw queries",
            9 => "matches of normalised queries",
            _ => "window sums and rows",
        }
    }

    fn step(nums: &[u64], at: usize) -> Step {
        match get_natural(nums, at) {
            0 => Step::End {
                group: get_natural(nums, plus(at, 1)),
                next: plus(at, 2),
            },
            test => one_vector(nums, at, test),
        }
    }
}

fn main() {
    let mut text = io::large_buffer();
    let n = io::read_full(0, &mut text);
    let mut nums = [0u64; 8192];
    read_numbers(&text[..n], &mut nums);
    let _ = run_groups::<Distances>(&nums, 0, 284);
}
