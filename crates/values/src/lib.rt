// What is asked of a slice of values before any distance: whether each is in its limits, sums of windows, and sums and spread of a stretch. Sums slide along neighbouring places.
#![tactic(auto)]

ghost use Rattle.std.specs.Prelude.{◌≡◌, not, ◌+◌, ◌<◌, ◌≤◌, length};
ghost use Rattle.meaning_numbers.specs.Sum.{Σℕ, count};
ghost use Rattle.meaning_curves.specs.Limits.{value_in, first_outside, longest_window, longest_query};
ghost use Rattle.meaning_curves.specs.Curve.{stretch, window_sum, spread};
ghost use Rattle.meaning_curves.proofs.Values.{AllIn};
ghost use Rattle.numbers.specs.Raised.{raised};
ghost use Rattle.values.specs.Place.{InTo};
ghost use Rattle.values.specs.Sums.{AreSums};

use numbers::{RAISE, in_limits, lower, raise};

// How many of the `n` values from `from` on are outside their limits.
pub fn count_outside(s: &[i32], from: usize, n: usize) -> u32
    requires n_in_bounds { from + n ≤ length s.now }
    requires n_le_longest_query { n ≤ longest_query }
    ensures { result ≡ count (λ k. not (value_in (stretch s.now from k))) n }
{
    let mut found: u32 = 0;
    for k in 0..n {
        found += !in_limits(s[from + k]) as u32;
    }
    found
}

// The place of the first value outside its limits, where none before `from` is.
pub fn outside_from(s: &[i32], from: usize) -> Option<usize>
    requires { (from ≤ length s.now) × InTo s.now from }
    ensures { result ≡ first_outside s.now }
{
    for i in from..s.len() {
        if !in_limits(s[i]) {
            return Some(i);
        }
    }
    None
}

// The place of the first value outside its limits. Most series have none: a block is counted without a jump, and looked through only where one is outside.
pub fn first_outside(s: &[i32]) -> Option<usize>
    ensures { result ≡ first_outside s.now }
{
    let blocks = s.len() / 256;
    for b in 0..blocks {
        let from = b * 256;
        if count_outside(s, from, 256) != 0 {
            return outside_from(s, from);
        }
    }
    outside_from(s, blocks * 256)
}

// The sum of the raised values of the stretch of `m` values that starts at `from`.
pub fn raised_sum(s: &[i32], from: usize, m: usize) -> u64
    requires m_in_bounds { from + m ≤ length s.now }
    requires m_le_longest_query { m ≤ longest_query }
    requires all_in { AllIn s.now }
    ensures { result ≡ Σℕ m (λ k. raised (stretch s.now from k)) }
{
    let mut sum: u64 = 0;
    for k in 0..m {
        sum += raise(s[from + k]);
    }
    sum
}

// The sum of window `j`, of length `w`.
pub fn window_sum(s: &[i32], w: usize, j: usize) -> i32
    requires w_in_bounds { j + w ≤ length s.now }
    requires w_le_longest_window { w ≤ longest_window }
    requires all_in { AllIn s.now }
    ensures { result ≡ window_sum s.now w j }
{
    let sum = raised_sum(s, j, w);
    let bias = RAISE * (w as u64);
    lower(sum, bias)
}

// The sum of the next window.
pub fn next_window(s: &[i32], w: usize, j: usize, sum: i32) -> i32
    requires w_in_bounds { j + w < length s.now }
    requires w_le_longest_window { w ≤ longest_window }
    requires all_in { AllIn s.now }
    requires sum_value { sum ≡ window_sum s.now w j }
    ensures { result ≡ window_sum s.now w (j + 1) }
{
    let x = s[j];
    let y = s[j + w];
    sum - x + y
}

// The sum of the raised values of a stretch, and the sum of their squares.
#[derive(Clone, Copy)]
pub struct Sums {
    pub values: u64,
    pub squares: u64,
}

// The sums of the stretch of `m` values that starts at `from`.
pub fn sums_at(s: &[i32], from: usize, m: usize) -> Sums
    requires m_in_bounds { from + m ≤ length s.now }
    requires m_le_longest_query { m ≤ longest_query }
    requires all_in { AllIn s.now }
    ensures { AreSums s.now from m result.values result.squares }
{
    let mut values: u64 = 0;
    let mut squares: u64 = 0;
    for k in 0..m {
        let v = raise(s[from + k]);
        values += v;
        squares += v * v;
    }
    Sums { values, squares }
}

// The sums of the next stretch.
pub fn next_sums(s: &[i32], from: usize, m: usize, t: Sums) -> Sums
    requires m_in_bounds { from + m + 1 ≤ length s.now }
    requires m_le_longest_query { m ≤ longest_query }
    requires all_in { AllIn s.now }
    requires are_sums { AreSums s.now from m t.values t.squares }
    ensures { AreSums s.now (from + 1) m result.values result.squares }
{
    let x = s[from];
    let y = s[from + m];
    let u = raise(x);
    let v = raise(y);
    Sums {
        values: t.values + v - u,
        squares: t.squares + v * v - u * u,
    }
}

// The spread of a stretch of `m` values, of its sums.
pub fn spread_of(s: &[i32], from: usize, m: usize, t: Sums) -> u64
    requires m_le_longest_query { m ≤ longest_query }
    requires all_in { AllIn s.now }
    requires are_sums { AreSums s.now from m t.values t.squares }
    ensures { result ≡ spread (stretch s.now from) m }
{
    (m as u64) * t.squares - t.values * t.values
}

// The values of `q`, copied over those of `out`. A loop by hand: `copy_from_slice` calls C's `memmove`, a name that the archives for C would then need from outside.
pub fn copy_values(q: &[i32], out: &mut [i32])
    requires { length out.old ≡ length q.now }
    ensures { out.new ≡ q.now }
{
    for j in 0..q.len() {
        out[j] = q[j];
    }
}
