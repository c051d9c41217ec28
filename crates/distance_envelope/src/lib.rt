// The envelopes of a query within a band, by passes that double how far each value reaches: first ahead, then back. Some 2 × log2(b) passes over the query, in place.
#![tactic(auto)]

ghost use Rattle.std.specs.Prelude.{◌≡◌, ◌+◌, ◌-◌, ◌<◌, min, length};
ghost use Rattle.meaning_curves.specs.Curve.{at};
ghost use Rattle.meaning_filter.specs.Envelope.{lower, upper};
ghost use Rattle.distance_envelope.specs.Best.{pick, edge};
ghost use Rattle.distance_envelope.specs.Pass.{PassAhead, PassBack, Ahead, Back};
ghost use Rattle.distance_envelope.specs.Envelope.{IsEnvelope};

use values::copy_values;

// The lesser of two values, or the greater. A flag and not a closure: it is the flag of `edge`, by which one set of laws serves both envelopes.
pub fn pick(low: bool, x: i32, y: i32) -> i32
    ensures { result ≡ pick low x y }
{
    if low { x.min(y) } else { x.max(y) }
}

// By how much a window that reaches `n` places grows on its way to `b`: by its length, or by what is left.
pub fn growth(n: usize, b: usize) -> usize
    requires { n < b }
    ensures { result ≡ min (n + 1) (b - n) }
{
    (n + 1).min(b - n)
}

// Each value becomes the pick of itself and the value `d` places ahead, where there is one.
pub fn pass_ahead(out: &mut [i32], d: usize, low: bool)
    ensures { PassAhead low d out.old out.new }
{
    for i in 0..out.len().saturating_sub(d) {
        out[i] = pick(low, out[i], out[i + d]);
    }
}

// The same with the value `d` places back, from the end on, since what a place reads must not be picked yet: one function for both ways would be told the order and the place by its caller.
pub fn pass_back(out: &mut [i32], d: usize, low: bool)
    ensures { PassBack low d out.old out.new }
{
    for i in (d..out.len()).rev() {
        out[i] = pick(low, out[i - d], out[i]);
    }
}

// Each value becomes the best of itself and the `b` values ahead. Beside `reach_back`: the one goes up and the other down. A `while`: the step doubles.
pub fn reach_ahead(out: &mut [i32], b: usize, low: bool)
    ensures { Ahead low b out.old out.new }
{
    let mut n: usize = 0;
    while n < b {
        let d = growth(n, b);
        pass_ahead(out, d, low);
        n += d;
    }
}

// Each value becomes the best of itself and the `b` values back.
pub fn reach_back(out: &mut [i32], b: usize, low: bool)
    ensures { Back low b out.old out.new }
{
    let mut n: usize = 0;
    while n < b {
        let d = growth(n, b);
        pass_back(out, d, low);
        n += d;
    }
}

// The lower envelope of `q` at the band `b`, or the upper.
pub fn envelope(q: &[i32], b: usize, low: bool, out: &mut [i32])
    requires { length out.old ≡ length q.now }
    ensures { IsEnvelope (edge low (at q.now) (length q.now) b) (length q.now) out.new }
{
    copy_values(q, out);
    reach_ahead(out, b, low);
    reach_back(out, b, low);
}

// The lower envelope of `q` at the band `b`.
pub fn lower_envelope(q: &[i32], b: usize, out: &mut [i32])
    requires { length out.old ≡ length q.now }
    ensures { IsEnvelope (lower (at q.now) (length q.now) b) (length q.now) out.new }
{
    envelope(q, b, true, out)
}

// The upper envelope of `q` at the band `b`.
pub fn upper_envelope(q: &[i32], b: usize, out: &mut [i32])
    requires { length out.old ≡ length q.now }
    ensures { IsEnvelope (upper (at q.now) (length q.now) b) (length q.now) out.new }
{
    envelope(q, b, false, out)
}
