// The envelope bound of a stretch: what its values lie outside an envelope, squared and summed, left early.
#![tactic(auto)]

ghost use Rattle.std.specs.Prelude.{◌≡◌, ◌+◌, ◌<◌, ◌≤◌, length};
ghost use Rattle.meaning_numbers.specs.Sum.{Σℕ, square};
ghost use Rattle.meaning_curves.specs.Limits.{longest_query};
ghost use Rattle.meaning_curves.specs.Curve.{at, stretch};
ghost use Rattle.meaning_curves.proofs.Values.{InLimits, AllIn};
ghost use Rattle.meaning_filter.proofs.Bound.{excess, apart};
ghost use Rattle.numbers.specs.Within.{Within};

// How far a value lies outside the range from `low` to `high`.
pub fn outside(low: i32, high: i32, x: i32) -> u32
    requires in_limits { InLimits low }
    requires in_limits_2 { InLimits high }
    requires in_limits_3 { InLimits x }
    ensures { result ≡ excess low high x }
{
    let d = (x - high).max(low - x);
    d.max(0) as u32
}

// The square of that.
pub fn outside_squared(low: i32, high: i32, x: i32) -> u64
    requires in_limits { InLimits low }
    requires in_limits_2 { InLimits high }
    requires in_limits_3 { InLimits x }
    ensures { result ≡ square (excess low high x) }
{
    let d = outside(low, high, x) as u64;
    d * d
}

// The same of the value at place `j` of the stretch of `s` that starts at `from`, and of the envelope there.
pub fn excess_at(s: &[i32], from: usize, low: &[i32], high: &[i32], j: usize) -> u64
    requires j_in_bounds { from + j < length s.now }
    requires j_in_bounds_2 { j < length low.now }
    requires j_in_bounds_3 { j < length high.now }
    requires all_in { AllIn s.now × AllIn low.now × AllIn high.now }
    ensures { result ≡ apart (stretch s.now from) (at low.now) (at high.now) j }
{
    let x = s[from + j];
    outside_squared(low[j], high[j], x)
}

// The sum of the squares of what `n` values, from place `p` on of the stretch of `s` that starts at `from`, lie outside the envelope.
pub fn envelope_part(s: &[i32], from: usize, low: &[i32], high: &[i32], p: usize, n: usize) -> u64
    requires n_in_bounds { from + (p + n) ≤ length s.now }
    requires n_in_bounds_2 { p + n ≤ length low.now }
    requires n_in_bounds_3 { p + n ≤ length high.now }
    requires n_le_longest_query { n ≤ longest_query }
    requires all_in { AllIn s.now × AllIn low.now × AllIn high.now }
    ensures { result ≡ Σℕ n (λ k. apart (stretch s.now from) (at low.now) (at high.now) (p + k)) }
{
    let mut sum: u64 = 0;
    for k in 0..n {
        sum += excess_at(s, from, low, high, p + k);
    }
    sum
}

// The envelope bound of the stretch of `s` that starts at `from`, where it is at most `limit`; else some number above `limit`.
pub fn envelope_bound(s: &[i32], from: usize, low: &[i32], high: &[i32], limit: u64) -> u64
    requires low_in_bounds { from + length low.now ≤ length s.now }
    requires low_len { length low.now ≡ length high.now }
    requires low_len_bound { length low.now ≤ longest_query }
    requires all_in { AllIn s.now × AllIn low.now × AllIn high.now }
    ensures { Within (Σℕ (length low.now) (apart (stretch s.now from) (at low.now) (at high.now))) limit result }
{
    let m = low.len();
    let mut total: u64 = 0;
    let mut i: usize = 0;
    // Not a `for` over blocks: that tells LLVM that fewer than 16 values are left in the end, and it does not vectorise so few.
    while 16 <= m - i {
        total += envelope_part(s, from, low, high, i, 16);
        if limit < total {
            return total;
        }
        i += 16;
    }
    total + envelope_part(s, from, low, high, i, m - i)
}
