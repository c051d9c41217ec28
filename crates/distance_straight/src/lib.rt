// The straight distance of a query and a stretch, left early.
#![tactic(auto)]

ghost use Rattle.std.specs.Prelude.{◌≡◌, ◌+◌, ◌≤◌, length};
ghost use Rattle.meaning_numbers.specs.Sum.{Σℕ};
ghost use Rattle.meaning_curves.specs.Limits.{longest_query};
ghost use Rattle.meaning_curves.specs.Curve.{at, stretch};
ghost use Rattle.meaning_curves.specs.Straight.{cost, straight};
ghost use Rattle.meaning_curves.proofs.Values.{AllIn};
ghost use Rattle.numbers.specs.Within.{Within};

use numbers::squared;

// The sum of the squared differences of `n` values from place `p` on, of `q` and the stretch of `s` that starts at `from`.
pub fn part(s: &[i32], from: usize, q: &[i32], p: usize, n: usize) -> u64
    requires n_in_bounds { from + (p + n) ≤ length s.now }
    requires n_in_bounds_2 { p + n ≤ length q.now }
    requires n_le_longest_query { n ≤ longest_query }
    requires all_in { AllIn s.now }
    requires all_in_2 { AllIn q.now }
    ensures { result ≡ Σℕ n (λ k. cost (stretch s.now from (p + k)) (at q.now (p + k))) }
{
    let mut sum: u64 = 0;
    for k in 0..n {
        let j = p + k;
        sum += squared(s[from + j], q[j]);
    }
    sum
}

// The sum of the squared differences of `q` and the stretch of `s` that starts at `from`, where it is at most `limit`; else some number above `limit`.
pub fn straight(s: &[i32], from: usize, q: &[i32], limit: u64) -> u64
    requires q_in_bounds { from + length q.now ≤ length s.now }
    requires q_len_bound { length q.now ≤ longest_query }
    requires all_in { AllIn s.now }
    requires all_in_2 { AllIn q.now }
    ensures { Within (straight (stretch s.now from) (at q.now) (length q.now)) limit result }
{
    let m = q.len();
    let mut total: u64 = 0;
    let mut i: usize = 0;
    // Not a `for` over blocks: that tells LLVM that fewer than 16 values are left in the end, and it does not vectorise so few.
    while 16 <= m - i {
        total += part(s, from, q, i, 16);
        if limit < total {
            return total;
        }
        i += 16;
    }
    total + part(s, from, q, i, m - i)
}
