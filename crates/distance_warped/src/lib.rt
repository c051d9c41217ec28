// The warped distance of a query and a stretch within a band: the envelope bound first, then the table in one row, left early.
#![tactic(auto)]

ghost use Rattle.std.specs.Prelude.{◌≡◌, ℕ, ◌+◌, ◌-◌, ◌<◌, ◌≤◌, min, length, get_or};
ghost use Rattle.meaning_numbers.specs.Sum.{Σℕ};
ghost use Rattle.meaning_curves.specs.Limits.{longest_query};
ghost use Rattle.meaning_curves.specs.Curve.{at, stretch};
ghost use Rattle.meaning_curves.specs.Straight.{cost};
ghost use Rattle.meaning_curves.specs.Table.{warped};
ghost use Rattle.meaning_curves.proofs.Values.{InLimits, AllIn};
ghost use Rattle.meaning_filter.proofs.Bound.{apart};
ghost use Rattle.numbers.specs.Within.{Within};
ghost use Rattle.distance_envelope.specs.Envelope.{Envelopes};
ghost use Rattle.distance_warped.specs.Rows.{big, cells, RowIs, LeastOf};

use distance_bound::{envelope_bound, excess_at};
use numbers::squared;

// More than any total.
const BIG: u64 = 819200000000;

// The place after the last of the band in row `k`.
pub fn band_high(k: usize, b: usize, m: usize) -> usize
    requires { k < m }
    ensures { result ≡ min (k + b + 1) m }
{
    k + 1 + b.min(m - 1 - k)
}

// A cell of the table, of the three before it.
pub fn cell(corner: u64, above: u64, left: u64, x: i32, y: i32) -> u64
    requires left_le_big { left ≤ big }
    requires in_limits { InLimits x }
    requires in_limits_2 { InLimits y }
    ensures { result ≡ min (min corner above) left + cost x y }
{
    corner.min(above).min(left) + squared(x, y)
}

// `big` at each place to `m`.
pub fn fill_row(row: &mut [u64], m: usize)
    requires { m < length row.old }
    ensures { (k : ℕ) → k ≤ m → get_or row.new k 0 ≡ big }
{
    row[..=m].fill(BIG);
}

// The first row of the table.
pub fn first_row(s: &[i32], from: usize, q: &[i32], b: usize, row: &mut [u64])
    requires q_in_bounds { from + length q.now ≤ length s.now }
    requires q_nonzero { (0 < length q.now) × (length q.now ≤ longest_query) × (length q.now < length row.old) }
    requires all_in { AllIn s.now × AllIn q.now }
    ensures { RowIs (cells (stretch s.now from) (at q.now) b 0) (length q.now) row.new }
{
    let m = q.len();
    fill_row(row, m);
    let x = s[from];
    let hi = band_high(0, b, m);
    let mut left: u64 = 0;
    for j in 0..hi {
        left += squared(x, q[j]);
        row[j + 1] = left;
    }
}

// Row `i + 1` of the table in the place of row `i`. A number that is at most each of its cells.
pub fn next_row(s: &[i32], from: usize, q: &[i32], b: usize, i: usize, row: &mut [u64]) -> u64
    requires q_in_bounds { from + length q.now ≤ length s.now }
    requires i_in_bounds { (i + 1 < length q.now) × (length q.now ≤ longest_query) × (length q.now < length row.old) }
    requires all_in { AllIn s.now × AllIn q.now }
    requires row_is { RowIs (cells (stretch s.now from) (at q.now) b i) (length q.now) row.old }
    ensures row_is_2 { RowIs (cells (stretch s.now from) (at q.now) b (i + 1)) (length q.now) row.new }
    ensures least_of { LeastOf (cells (stretch s.now from) (at q.now) b (i + 1)) b (i + 1) (length q.now) result }
{
    let m = q.len();
    let k = i + 1;
    let x = s[from + k];
    let lo = k.saturating_sub(b);
    let hi = band_high(k, b, m);
    let mut corner = row[lo];
    row[lo] = BIG;
    let mut left = BIG;
    let mut least = u64::MAX;
    for j in lo..hi {
        let above = row[j + 1];
        left = cell(corner, above, left, x, q[j]);
        corner = above;
        least = left.min(least);
        row[j + 1] = left;
    }
    least
}

// The warped distance of `q` and the stretch of `s` that starts at `from`, at the band `b`, where it is at most `limit`; else some number above `limit`. The table is left where the least of a row passes the limit with the envelope bound of the rows after it; `bound` is that of all rows. `row` is room for the table.
pub fn table_within(
    s: &[i32],
    from: usize,
    q: &[i32],
    low: &[i32],
    high: &[i32],
    b: usize,
    bound: u64,
    limit: u64,
    row: &mut [u64],
) -> u64
    requires q_in_bounds { from + length q.now ≤ length s.now }
    requires q_nonzero { (0 < length q.now) × (length q.now ≤ longest_query) × (length q.now < length row.old) }
    requires all_in { AllIn s.now × AllIn q.now }
    requires envelopes { Envelopes q.now (length q.now) b low.now high.now }
    requires bound_value { bound ≡ Σℕ (length q.now) (apart (stretch s.now from) (at low.now) (at high.now)) }
    ensures { Within (warped (stretch s.now from) (at q.now) b (length q.now)) limit result }
{
    let m = q.len();
    first_row(s, from, q, b, row);
    let mut rest = bound - excess_at(s, from, low, high, 0);
    for i in 0..m - 1 {
        let least = next_row(s, from, q, b, i, row);
        rest -= excess_at(s, from, low, high, i + 1);
        if limit < least + rest {
            return least + rest;
        }
    }
    row[m]
}

// The same, after the envelope bound.
pub fn warped_in(
    s: &[i32],
    from: usize,
    q: &[i32],
    low: &[i32],
    high: &[i32],
    b: usize,
    limit: u64,
    row: &mut [u64],
) -> u64
    requires q_in_bounds { from + length q.now ≤ length s.now }
    requires q_nonzero { (0 < length q.now) × (length q.now ≤ longest_query) × (length q.now < length row.old) }
    requires all_in { AllIn s.now × AllIn q.now }
    requires envelopes { Envelopes q.now (length q.now) b low.now high.now }
    ensures { Within (warped (stretch s.now from) (at q.now) b (length q.now)) limit result }
{
    let bound = envelope_bound(s, from, low, high, limit);
    if limit < bound {
        return bound;
    }
    table_within(s, from, q, low, high, b, bound, limit, row)
}
