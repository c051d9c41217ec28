// Whether a stretch matches a query: cheap tests first, then the envelope bound, then the distance.
#![tactic(auto)]

ghost use Rattle.std.specs.Prelude.{◌≡◌, ◌+◌, ◌<◌, ◌≤◌, length};
ghost use Rattle.meaning_curves.specs.Limits.{longest_query, greatest_scale};
ghost use Rattle.meaning_curves.specs.Curve.{at, stretch};
ghost use Rattle.meaning_curves.proofs.Values.{AllIn};
ghost use Rattle.meaning_filter.specs.declared.Kind.{Kind};
ghost use Rattle.values.specs.Sums.{AreSums};
ghost use Rattle.distance_query.specs.Ready.{Ready};
ghost use Rattle.distance_match.specs.Matched.{matched};
ghost use Rattle.distance_match.specs.Alike.{Alike, Says};

use distance_query::Query;
use distance_within::{compare, compare_normal};
use meaning_filter::{Kind, Limits};
use values::{Sums, spread_of};

// Whether a stretch of spread `a` and raised sum `p` is not flat, and scale and shift are within their limits.
pub fn alike(a: u64, p: u64, query: Query, m: usize, l: Limits) -> bool
    requires a_bound { a ≤ 419430400000000 }
    requires spread_bound { query.spread ≤ 419430400000000 }
    requires m_le_longest_query { (m ≤ longest_query) × (l.scale ≤ greatest_scale) }
    ensures { Says result (Alike a p query.spread query.values m l.scale l.shift) }
{
    if a == 0 {
        return false;
    }
    let square = (l.scale as u64) * (l.scale as u64);
    let c = query.spread;
    if square * c < 100 * a {
        return false;
    }
    if square * a < 100 * c {
        return false;
    }
    let gap = p.abs_diff(query.values);
    gap <= (m as u64) * (l.shift as u64)
}

// The match test of a normalised query: cheap tests, then the distance of normalised values.
pub fn match_normal(
    s: &[i32],
    from: usize,
    t: Sums,
    q: &[i32],
    query: Query,
    curve: &[i32],
    low: &[i32],
    high: &[i32],
    l: Limits,
    room: &mut [i32],
    row: &mut [u64],
) -> Option<u64>
    requires q_in_bounds { from + length q.now ≤ length s.now }
    requires q_nonzero { (0 < length q.now) × (length q.now ≤ longest_query) }
    requires room_fits { (length room.old ≡ length q.now) × (length q.now < length row.old) }
    requires all_in { AllIn s.now × AllIn q.now × (l.scale ≤ greatest_scale) }
    requires are_sums { AreSums s.now from (length q.now) t.values t.squares }
    requires ready { Ready Kind.Normal q.now l.band curve.now low.now high.now query.values query.spread }
    ensures { result ≡ matched Kind.Normal (stretch s.now from) (at q.now) (length q.now) l }
{
    let m = q.len();
    let a = spread_of(s, from, m, t);
    if !alike(a, t.values, query, m, l) {
        return None;
    }
    let b = l.band as usize;
    compare_normal(s, from, t, a, curve, low, high, b, l.threshold, room, row)
}

// The match test: whether the stretch of `s` that starts at `from` matches the query `q`, and its distance. `t` are the stretch's sums, which only a normalised query asks for; `query`, `curve`, `low` and `high` are made of the query once.
pub fn match_at(
    kind: Kind,
    s: &[i32],
    from: usize,
    t: Sums,
    q: &[i32],
    query: Query,
    curve: &[i32],
    low: &[i32],
    high: &[i32],
    l: Limits,
    room: &mut [i32],
    row: &mut [u64],
) -> Option<u64>
    requires q_in_bounds { from + length q.now ≤ length s.now }
    requires q_nonzero { (0 < length q.now) × (length q.now ≤ longest_query) }
    requires room_fits { (length room.old ≡ length q.now) × (length q.now < length row.old) }
    requires all_in { AllIn s.now × AllIn q.now × (l.scale ≤ greatest_scale) }
    requires are_sums { kind ≡ Kind.Normal → AreSums s.now from (length q.now) t.values t.squares }
    requires ready { Ready kind q.now l.band curve.now low.now high.now query.values query.spread }
    ensures { result ≡ matched kind (stretch s.now from) (at q.now) (length q.now) l }
{
    match kind {
        Kind::Raw => {
            let b = l.band as usize;
            compare(s, from, curve, low, high, b, l.threshold, row)
        }
        Kind::Normal => match_normal(s, from, t, q, query, curve, low, high, l, room, row),
    }
}
