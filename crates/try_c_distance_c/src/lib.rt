// The functions of try_c_distance, by the names that C calls them by.
#![tactic(auto)]

ghost use Rattle.meaning_curves.specs.Curve.{stretch, spread};
ghost use Rattle.try_c_distance.specs.Told.{StraightTold, BoundTold, WarpedTold, EnvelopesTold, NormalTold};

// The straight distance of `q` from each stretch of `s`, where it is at most `limit`, else some number above it. How many were written; 0 where the input is refused.
#[unsafe(no_mangle)]
pub extern "C" fn curve_straight(s: &[i32], q: &[i32], limit: u64, out: &mut [u64]) -> usize
    ensures { StraightTold s.now q.now limit out.old result out.new }
{
    try_c_distance::curve_straight(s, q, limit, out)
}

// The envelope bound of each stretch of `s`, likewise.
#[unsafe(no_mangle)]
pub extern "C" fn curve_bound(
    s: &[i32],
    low: &[i32],
    high: &[i32],
    limit: u64,
    out: &mut [u64],
) -> usize
    ensures { BoundTold s.now low.now high.now limit out.old result out.new }
{
    try_c_distance::curve_bound(s, low, high, limit, out)
}

// The warped distance of `q` from each stretch of `s`, likewise. `low` and `high` are as long as `q`, and are left with its envelopes.
#[unsafe(no_mangle)]
pub extern "C" fn curve_warped(
    s: &[i32],
    q: &[i32],
    b: usize,
    limit: u64,
    low: &mut [i32],
    high: &mut [i32],
    out: &mut [u64],
) -> usize
    ensures { WarpedTold s.now q.now b limit low.old high.old out.old result low.new high.new out.new }
{
    try_c_distance::curve_warped(s, q, b, limit, low, high, out)
}

// Both envelopes of `q` at the band `b`. Whether they were written.
#[unsafe(no_mangle)]
pub extern "C" fn curve_envelopes(q: &[i32], b: usize, low: &mut [i32], high: &mut [i32]) -> bool
    ensures { EnvelopesTold q.now b low.old high.old result low.new high.new }
{
    try_c_distance::curve_envelopes(q, b, low, high)
}

// The spread of each stretch of `s` that is as long as `room`, with the normalised values of the last one that is not flat in `room`. How many spreads were written.
#[unsafe(no_mangle)]
pub extern "C" fn curve_normal(s: &[i32], room: &mut [i32], out: &mut [u64]) -> usize
    ensures { NormalTold s.now room.old out.old result room.new out.new }
{
    try_c_distance::curve_normal(s, room, out)
}
