// The distance of a stretch and a curve where it is at most a threshold. Values are normalised only as far as the envelope bound stays at or below it.
#![tactic(auto)]

ghost use Rattle.std.specs.Prelude.{◌≡◌, ◌+◌, ◌<◌, ◌≤◌, length};
ghost use Rattle.meaning_curves.specs.Limits.{longest_query};
ghost use Rattle.meaning_curves.specs.Curve.{at, stretch};
ghost use Rattle.meaning_curves.specs.Normal.{normalised};
ghost use Rattle.meaning_curves.specs.Match.{distance};
ghost use Rattle.meaning_curves.proofs.Values.{AllIn};
ghost use Rattle.distance_normal.specs.Stretch.{NormalReady};
ghost use Rattle.distance_envelope.specs.Envelope.{Envelopes};
ghost use Rattle.distance_within.specs.Answer.{nearness};
ghost use Rattle.distance_within.specs.Within.{NormalWithin};

use distance_bound::envelope_part;
use distance_normal::{factor, normalise_part};
use distance_straight::straight;
use distance_warped::warped_in;
use values::Sums;

// A distance where it is at most the threshold.
pub fn near_enough(d: u64, threshold: u64) -> Option<u64>
    ensures { result ≡ nearness d threshold }
{
    if threshold < d {
        return None;
    }
    Some(d)
}

// The distance of a curve and the stretch of `s` that starts at `from`, where it is at most the threshold: straight at band 0, else warped. `row` is room for a row of the table.
pub fn compare(
    s: &[i32],
    from: usize,
    curve: &[i32],
    low: &[i32],
    high: &[i32],
    b: usize,
    threshold: u64,
    row: &mut [u64],
) -> Option<u64>
    requires curve_in_bounds { from + length curve.now ≤ length s.now }
    requires curve_fits { (0 < length curve.now) × (length curve.now ≤ longest_query) × (length curve.now < length row.old) }
    requires all_in { AllIn s.now × AllIn curve.now }
    requires envelopes { Envelopes curve.now (length curve.now) b low.now high.now }
    ensures { result ≡ nearness (distance (stretch s.now from) (at curve.now) b (length curve.now)) threshold }
{
    if b == 0 {
        let d = straight(s, from, curve, threshold);
        return near_enough(d, threshold);
    }
    let d = warped_in(s, from, curve, low, high, b, threshold, row);
    near_enough(d, threshold)
}

// The normalised values of a stretch that is not flat, made block by block into `out`, and their envelope bound where it is at most `limit`; else some number above `limit`, and `out` holds the values so far.
pub fn normalise_within(
    s: &[i32],
    from: usize,
    t: Sums,
    a: u64,
    low: &[i32],
    high: &[i32],
    limit: u64,
    out: &mut [i32],
) -> u64
    requires ready { NormalReady s.now from (length out.old) t.values t.squares a }
    requires low_as_long { (length low.now ≡ length out.old) × (length high.now ≡ length out.old) }
    requires all_in { AllIn low.now × AllIn high.now }
    ensures { NormalWithin (stretch s.now from) (length out.old) low.now high.now limit result out.new }
{
    let m = out.len();
    let f = factor(a);
    let mut total: u64 = 0;
    let mut i: usize = 0;
    // A `while` for the reason that `envelope_bound` has.
    while 16 <= m - i {
        normalise_part(s, from, t, a, f, i, 16, out);
        let end = i + 16;
        total += envelope_part(&out[..end], 0, low, high, i, 16);
        if limit < total {
            return total;
        }
        i = end;
    }
    normalise_part(s, from, t, a, f, i, m - i, out);
    total + envelope_part(&out[..m], 0, low, high, i, m - i)
}

// The distance of a curve and the normalised values of a stretch that is not flat, of its sums and its spread, where it is at most the threshold. Values are normalised only as far as the envelope bound lets them. `room` is room for these values.
pub fn compare_normal(
    s: &[i32],
    from: usize,
    t: Sums,
    a: u64,
    curve: &[i32],
    low: &[i32],
    high: &[i32],
    b: usize,
    threshold: u64,
    room: &mut [i32],
    row: &mut [u64],
) -> Option<u64>
    requires normal_ready { NormalReady s.now from (length curve.now) t.values t.squares a }
    requires curve_nonzero { (0 < length curve.now) × AllIn curve.now }
    requires room_fits { (length room.old ≡ length curve.now) × (length curve.now < length row.old) }
    requires envelopes { Envelopes curve.now (length curve.now) b low.now high.now }
    ensures { result ≡ nearness (distance (normalised (stretch s.now from) (length curve.now)) (at curve.now) b (length curve.now)) threshold }
{
    let bound = normalise_within(s, from, t, a, low, high, threshold, room);
    if threshold < bound {
        return None;
    }
    compare(room, 0, curve, low, high, b, threshold, row)
}
