// Normalised values of a stretch: one multiplication and one test a value, no division and no root in the loop.
#![tactic(auto)]

ghost use Rattle.std.specs.Prelude.{◌≡◌, ◌+◌, ◌<◌, ◌≤◌, pos, ◌-ℤ◌, length};
ghost use Rattle.meaning_curves.specs.Curve.{stretch};
ghost use Rattle.distance_normal.specs.Normal.{IsFactor, CutOf, normal};
ghost use Rattle.distance_normal.specs.Stretch.{NormalReady, NormalPart, Normalised};

use numbers::{raise, root};
use values::Sums;

// The root of 2^62 / a, by which a stretch of the spread `a` is normalised.
pub fn factor(a: u64) -> u64
    requires { 0 < a }
    ensures { IsFactor a result }
{
    root(4611686018427387904 / a)
}

// The size of a normalised value, of the size `d` of the centred value.
pub fn cut_of(d: u64, a: u64, f: u64) -> u64
    requires d_bound { d ≤ 20480000 }
    requires a_nonzero { 0 < a }
    requires a_bound { a ≤ 419430400000000 }
    requires factor { IsFactor a f }
    ensures { CutOf a d result }
{
    let g = 100 * d;
    let e = g * f / 2147483648;
    let u = e + 1;
    let more = (u * u * a <= g * g) as u64;
    e + more
}

// A normalised value, of m times the raised value, and the sum of the raised values.
pub fn normal_of(x: u64, p: u64, a: u64, f: u64) -> i32
    requires x_bound { x ≤ 20480000 }
    requires p_bound { p ≤ 20480000 }
    requires a_nonzero { 0 < a }
    requires a_bound { a ≤ 419430400000000 }
    requires factor { IsFactor a f }
    ensures { result ≡ normal a (pos x -ℤ pos p) }
{
    let t = cut_of(x.abs_diff(p), a, f) as i32;
    if x < p { -t } else { t }
}

// The `n` normalised values from place `p` on of the stretch of `out.len()` values that starts at `from`, of its sums, its spread and its factor.
pub fn normalise_part(
    s: &[i32],
    from: usize,
    t: Sums,
    a: u64,
    f: u64,
    p: usize,
    n: usize,
    out: &mut [i32],
)
    requires ready { NormalReady s.now from (length out.old) t.values t.squares a }
    requires factor { IsFactor a f }
    requires n_bound { p + n ≤ length out.old }
    ensures { NormalPart (stretch s.now from) (length out.old) p n out.old out.new }
{
    let m = out.len();
    let sum = t.values;
    for k in 0..n {
        let j = p + k;
        let v = (m as u64) * raise(s[from + j]);
        out[j] = normal_of(v, sum, a, f);
    }
}

// All normalised values of that stretch.
pub fn normalise(s: &[i32], from: usize, t: Sums, a: u64, out: &mut [i32])
    requires { NormalReady s.now from (length out.old) t.values t.squares a }
    ensures { Normalised (stretch s.now from) (length out.old) out.new }
{
    let m = out.len();
    normalise_part(s, from, t, a, factor(a), 0, m, out);
}
