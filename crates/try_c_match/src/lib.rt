// The match test for C, and what stands under it: whole roots, window sums and row numbers, the first value outside its limits. For tests/ and bench/ only.
#![tactic(auto)]

ghost use Rattle.std.specs.Prelude.{◌≡◌, ◌+◌, ◌<◌, ◌≤◌, length};
ghost use Rattle.try_c_distance.specs.Told.{stretches};
ghost use Rattle.try_c_match.specs.Told.{wrapped, MatchAt, kind_of, CanPrepare, MatchesTold, place_or, WindowsTold};
ghost use Rattle.meaning_curves.specs.Limits.{greatest_scale, longest_query, longest_window, first_outside};
ghost use Rattle.meaning_curves.specs.Curve.{stretch, spread, window_sum};
ghost use Rattle.meaning_curves.proofs.Values.{AllIn};
ghost use Rattle.distance_query.specs.Ready.{Ready};
ghost use Rattle.try_c_distance.specs.Fits.{Fits};
ghost use Rattle.try_c_distance.specs.Outcome.{Written};
ghost use Rattle.distance_match.specs.Alike.{Says};
ghost use Rattle.meaning_numbers.specs.Root.{root};

use distance_match::match_at;
use distance_query::{Query, prepare};
use meaning_curves::{GREATEST_SCALE, LONGEST_WINDOW};
use meaning_filter::{Kind, Limits};
use numbers::{root, row_number};
use try_c_distance::{all_in, fits, sums_after};
use values::{first_outside, next_window, spread_of, sums_at, window_sum};

// The longest window, as an index.
const WINDOW: usize = LONGEST_WINDOW as usize;

// The distance and 1, or 0 for no match.
pub fn told(found: Option<u64>) -> u64
    ensures { result ≡ wrapped found }
{
    match found {
        Some(distance) => distance.wrapping_add(1),
        None => 0,
    }
}

// The match test for each stretch of `s`, of what was made of the query once.
pub fn each_match(
    kind: Kind,
    s: &[i32],
    q: &[i32],
    query: Query,
    curve: &[i32],
    low: &[i32],
    high: &[i32],
    l: Limits,
    room: &mut [i32],
    row: &mut [u64],
    out: &mut [u64],
) -> usize
    requires fits { Fits s.now (length q.now) (length out.old) }
    requires room_fits { (length room.old ≡ length q.now) × (length q.now < length row.old) }
    requires all_in { AllIn q.now × (l.scale ≤ greatest_scale) }
    requires ready { Ready kind q.now l.band curve.now low.now high.now query.values query.spread }
    ensures { (result ≡ stretches s.now (length q.now)) × Written 0 (MatchAt kind s.now q.now l) (stretches s.now (length q.now)) out.old out.new }
{
    let n = s.len();
    let m = q.len();
    let mut t = sums_at(s, 0, m);
    let stretches = n - m + 1;
    for at in 0..stretches {
        let found = match_at(kind, s, at, t, q, query, curve, low, high, l, room, row);
        out[at] = told(found);
        t = sums_after(s, at, m, t);
    }
    stretches
}

// A kind by its number: 0 is raw.
pub fn kind_of(n: u32) -> Kind
    ensures { result ≡ kind_of n }
{
    if n == 0 {
        return Kind::Raw;
    }
    Kind::Normal
}

// Whether a query can be prepared: a normalised one may not be flat.
pub fn can_prepare(kind: Kind, q: &[i32]) -> bool
    requires q_len_bound { length q.now ≤ longest_query }
    requires all_in { AllIn q.now }
    ensures { Says result (CanPrepare kind q.now) }
{
    match kind {
        Kind::Raw => true,
        Kind::Normal => {
            let m = q.len();
            let t = sums_at(q, 0, m);
            spread_of(q, 0, m, t) != 0
        }
    }
}

// For each stretch of `s` the distance and 1 where it matches `q`, else 0. How many were written; 0 where the input is refused. `curve`, `low`, `high` and `room` are as long as `q`, `row` is longer: the first three are left with the curve compared and its envelopes; what `room` and `row` hold is free. The kind is a number, since it is what C takes.
pub fn curve_matches(
    kind: u32,
    s: &[i32],
    q: &[i32],
    b: u32,
    threshold: u64,
    scale: u32,
    shift: u32,
    curve: &mut [i32],
    low: &mut [i32],
    high: &mut [i32],
    room: &mut [i32],
    row: &mut [u64],
    out: &mut [u64],
) -> usize
    ensures { MatchesTold (kind_of kind) s.now q.now (record { band = b; threshold = threshold; scale = scale; shift = shift }) (record { curve = curve.old; low = low.old; high = high.old; room = room.old; row = row.old; out = out.old }) result (record { curve = curve.new; low = low.new; high = high.new; room = room.new; row = row.new; out = out.new }) }
{
    let m = q.len();
    if curve.len() != m {
        return 0;
    }
    if low.len() != m {
        return 0;
    }
    if high.len() != m {
        return 0;
    }
    if room.len() != m {
        return 0;
    }
    if row.len() <= m {
        return 0;
    }
    if GREATEST_SCALE < scale {
        return 0;
    }
    if !fits(s, m, out.len()) {
        return 0;
    }
    if !all_in(q) {
        return 0;
    }
    let k = kind_of(kind);
    if !can_prepare(k, q) {
        return 0;
    }
    let l = Limits {
        band: b,
        threshold,
        scale,
        shift,
    };
    let query = prepare(k, q, b as usize, curve, low, high);
    each_match(k, s, q, query, curve, low, high, l, room, row, out)
}

// The sum of the next window, where there is one.
pub fn window_after(s: &[i32], w: usize, at: usize, sum: i32) -> i32
    requires w_in_bounds { at + w ≤ length s.now }
    requires w_le_longest_window { w ≤ longest_window }
    requires all_in { AllIn s.now }
    requires sum_value { sum ≡ window_sum s.now w at }
    ensures { at + w < length s.now → result ≡ window_sum s.now w (at + 1) }
{
    if at + w < s.len() {
        next_window(s, w, at, sum)
    } else {
        sum
    }
}

// The place of the first value outside its limits, or how many values there are.
pub fn curve_outside(s: &[i32]) -> usize
    ensures { result ≡ place_or (length s.now) (first_outside s.now) }
{
    first_outside(s).unwrap_or(s.len())
}

// The sum of each window of `w` values into `sums`, and the row that holds it, at the width `d`, into `rows`. How many were written.
pub fn curve_windows(s: &[i32], w: usize, d: u32, sums: &mut [i32], rows: &mut [i32]) -> usize
    ensures { WindowsTold s.now w d sums.old rows.old result sums.new rows.new }
{
    let n = s.len();
    if WINDOW < w {
        return 0;
    }
    if rows.len() != sums.len() {
        return 0;
    }
    if !fits(s, w, sums.len()) {
        return 0;
    }
    let mut sum = window_sum(s, w, 0);
    let windows = n - w + 1;
    for at in 0..windows {
        sums[at] = sum;
        rows[at] = row_number(sum, d);
        sum = window_after(s, w, at, sum);
    }
    windows
}

pub fn curve_root(y: u64) -> u64
    ensures { result ≡ root y }
{
    root(y)
}
