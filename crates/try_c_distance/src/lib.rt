// The leaf code for C: for the comparison under tests/ and the measurements under bench/, and for nothing else. Lengths and limits are tested once, so no `requires` is left that C could break. What each function tells and leaves is said in specs/Told.antt: of an input that the tests refuse, nothing is written.
#![tactic(auto)]

ghost use Rattle.std.specs.Prelude.{◌≡◌, ◌+◌, ◌<◌, ◌≤◌, length};
ghost use Rattle.meaning_curves.specs.Limits.{longest_query};
ghost use Rattle.meaning_curves.specs.Curve.{stretch, spread};
ghost use Rattle.meaning_curves.proofs.Values.{AllIn};
ghost use Rattle.values.specs.Sums.{AreSums};
ghost use Rattle.distance_envelope.specs.Envelope.{Envelopes};
ghost use Rattle.distance_match.specs.Alike.{Says};
ghost use Rattle.try_c_distance.specs.Fits.{Fits};
ghost use Rattle.try_c_distance.specs.Outcome.{Written};
ghost use Rattle.try_c_distance.specs.Told.{stretches, StraightTold, BoundTold, WarpedAt, WarpedTold, EnvelopesTold, NormalRoom, NormalTold};

use distance_bound::envelope_bound;
use distance_envelope::{lower_envelope, upper_envelope};
use distance_normal::normalise;
use distance_straight::straight;
use distance_warped::warped_in;
use meaning_curves::LONGEST_QUERY;
use values::{Sums, first_outside, next_sums, spread_of, sums_at};

// Whether each value is in its limits.
pub fn all_in(s: &[i32]) -> bool
    ensures { Says result (AllIn s.now) }
{
    first_outside(s).is_none()
}

// Whether `s` has stretches of `m` values, there is room for a number for each, and each value is in its limits.
pub fn fits(s: &[i32], m: usize, room: usize) -> bool
    ensures { Says result (Fits s.now m room) }
{
    if m == 0 {
        return false;
    }
    if LONGEST_QUERY < m {
        return false;
    }
    if s.len() < m {
        return false;
    }
    if room <= s.len() - m {
        return false;
    }
    all_in(s)
}

// The straight distance of `q` from each stretch of `s`, where it is at most `limit`, else some number above it. How many were written; 0 where the input is refused.
pub fn curve_straight(s: &[i32], q: &[i32], limit: u64, out: &mut [u64]) -> usize
    ensures { StraightTold s.now q.now limit out.old result out.new }
{
    let n = s.len();
    let m = q.len();
    if !fits(s, m, out.len()) {
        return 0;
    }
    if !all_in(q) {
        return 0;
    }
    let stretches = n - m + 1;
    for at in 0..stretches {
        out[at] = straight(s, at, q, limit);
    }
    stretches
}

// The envelope bound of each stretch of `s`, likewise.
pub fn curve_bound(s: &[i32], low: &[i32], high: &[i32], limit: u64, out: &mut [u64]) -> usize
    ensures { BoundTold s.now low.now high.now limit out.old result out.new }
{
    let n = s.len();
    let m = low.len();
    if high.len() != m {
        return 0;
    }
    if !fits(s, m, out.len()) {
        return 0;
    }
    if !all_in(low) {
        return 0;
    }
    if !all_in(high) {
        return 0;
    }
    let stretches = n - m + 1;
    for at in 0..stretches {
        out[at] = envelope_bound(s, at, low, high, limit);
    }
    stretches
}

// The warped distance of `q` from each stretch of `s`, of the query's envelopes.
fn each_warped(
    s: &[i32],
    q: &[i32],
    low: &[i32],
    high: &[i32],
    b: usize,
    limit: u64,
    out: &mut [u64],
) -> usize
    requires fits { Fits s.now (length q.now) (length out.old) }
    requires all_in { AllIn q.now × Envelopes q.now (length q.now) b low.now high.now }
    ensures { (result ≡ stretches s.now (length q.now)) × Written 0 (WarpedAt s.now q.now b limit) (stretches s.now (length q.now)) out.old out.new }
{
    let n = s.len();
    let m = q.len();
    let mut row: [u64; LONGEST_QUERY + 1] = [0; LONGEST_QUERY + 1];
    let stretches = n - m + 1;
    for at in 0..stretches {
        out[at] = warped_in(s, at, q, low, high, b, limit, &mut row);
    }
    stretches
}

// The warped distance of `q` from each stretch of `s`, likewise. `low` and `high` are as long as `q`, and are left with its envelopes.
pub fn curve_warped(
    s: &[i32],
    q: &[i32],
    b: usize,
    limit: u64,
    low: &mut [i32],
    high: &mut [i32],
    out: &mut [u64],
) -> usize
    ensures { WarpedTold s.now q.now b limit low.old high.old out.old result low.new high.new out.new }
{
    let m = q.len();
    if low.len() != m {
        return 0;
    }
    if high.len() != m {
        return 0;
    }
    if !fits(s, m, out.len()) {
        return 0;
    }
    if !all_in(q) {
        return 0;
    }
    lower_envelope(q, b, low);
    upper_envelope(q, b, high);
    each_warped(s, q, low, high, b, limit, out)
}

// Both envelopes of `q` at the band `b`. Whether they were written.
pub fn curve_envelopes(q: &[i32], b: usize, low: &mut [i32], high: &mut [i32]) -> bool
    ensures { EnvelopesTold q.now b low.old high.old result low.new high.new }
{
    if low.len() != q.len() {
        return false;
    }
    if high.len() != q.len() {
        return false;
    }
    if !all_in(q) {
        return false;
    }
    lower_envelope(q, b, low);
    upper_envelope(q, b, high);
    true
}

// The normalised values of a stretch that is not flat.
fn normal_values(s: &[i32], from: usize, t: Sums, a: u64, room: &mut [i32])
    requires from_bound { from + length room.old ≤ length s.now }
    requires room_bound { length room.old ≤ longest_query }
    requires all_in { AllIn s.now }
    requires are_sums { AreSums s.now from (length room.old) t.values t.squares }
    requires a_value { a ≡ spread (stretch s.now from) (length room.old) }
    ensures { NormalRoom s.now (length room.old) from room.old room.new }
{
    if 0 < a {
        normalise(s, from, t, a, room);
    }
}

// The sums of the next stretch, where there is one.
pub fn sums_after(s: &[i32], from: usize, m: usize, t: Sums) -> Sums
    requires m_in_bounds { from + m ≤ length s.now }
    requires m_le_longest_query { m ≤ longest_query }
    requires all_in { AllIn s.now }
    requires are_sums { AreSums s.now from m t.values t.squares }
    ensures { from + m < length s.now → AreSums s.now (from + 1) m result.values result.squares }
{
    if from + m < s.len() {
        next_sums(s, from, m, t)
    } else {
        t
    }
}

// The spread of each stretch of `s` that is as long as `room`, with the normalised values of the last one that is not flat in `room`. How many spreads were written.
pub fn curve_normal(s: &[i32], room: &mut [i32], out: &mut [u64]) -> usize
    ensures { NormalTold s.now room.old out.old result room.new out.new }
{
    let n = s.len();
    let m = room.len();
    if !fits(s, m, out.len()) {
        return 0;
    }
    let mut t = sums_at(s, 0, m);
    let stretches = n - m + 1;
    for at in 0..stretches {
        let a = spread_of(s, at, m, t);
        normal_values(s, at, t, a, room);
        out[at] = a;
        t = sums_after(s, at, m, t);
    }
    stretches
}
