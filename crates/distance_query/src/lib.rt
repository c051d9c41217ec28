// What depends on a query alone: the curve that stretches are compared with, its envelopes, its raised sum and its spread.
#![tactic(auto)]

ghost use Rattle.std.specs.Prelude.{◌≡◌, ◌<◌, ◌≤◌, length};
ghost use Rattle.meaning_curves.specs.Limits.{longest_query};
ghost use Rattle.meaning_curves.specs.Curve.{at, stretch, spread};
ghost use Rattle.meaning_curves.proofs.Values.{AllIn};
ghost use Rattle.meaning_filter.specs.declared.Kind.{Kind};
ghost use Rattle.values.specs.Sums.{AreSums};
ghost use Rattle.distance_query.specs.Ready.{Ready, IsCurve};

use distance_envelope::{lower_envelope, upper_envelope};
use distance_normal::normalise;
use meaning_filter::Kind;
use values::{Sums, copy_values, spread_of, sums_at};

// The numbers that depend on the query alone: the sum of its raised values, and its spread.
#[derive(Clone, Copy)]
pub struct Query {
    pub values: u64,
    pub spread: u64,
}

// The curve of a query: its values, or its normalised values, of its sums and its spread.
pub fn curve_of(kind: Kind, q: &[i32], t: Sums, a: u64, out: &mut [i32])
    requires out_as_long { length out.old ≡ length q.now }
    requires q_len_bound { length q.now ≤ longest_query }
    requires all_in { AllIn q.now }
    requires are_sums { AreSums q.now 0 (length q.now) t.values t.squares }
    requires a_value { a ≡ spread (stretch q.now 0) (length q.now) }
    requires a_nonzero { kind ≡ Kind.Normal → 0 < a }
    ensures { IsCurve kind q.now out.new }
{
    match kind {
        Kind::Raw => copy_values(q, out),
        Kind::Normal => normalise(q, 0, t, a, out),
    }
}

// The curve of a query, its envelopes at the band `b`, and its numbers.
pub fn prepare(
    kind: Kind,
    q: &[i32],
    b: usize,
    curve: &mut [i32],
    low: &mut [i32],
    high: &mut [i32],
) -> Query
    requires q_len_bound { length q.now ≤ longest_query }
    requires curve_as_long { (length curve.old ≡ length q.now) × (length low.old ≡ length q.now) }
    requires high_as_long { length high.old ≡ length q.now }
    requires all_in { AllIn q.now }
    requires nonzero { kind ≡ Kind.Normal → 0 < spread (at q.now) (length q.now) }
    ensures { Ready kind q.now b curve.new low.new high.new result.values result.spread }
{
    let m = q.len();
    let t = sums_at(q, 0, m);
    let a = spread_of(q, 0, m, t);
    curve_of(kind, q, t, a, curve);
    lower_envelope(curve, b, low);
    upper_envelope(curve, b, high);
    Query {
        values: t.values,
        spread: a,
    }
}
