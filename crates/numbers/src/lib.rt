// Leaf arithmetic: whole roots, row numbers, and the few functions that own signed numbers.
#![tactic(auto)]

ghost use Rattle.std.specs.Prelude.{◌≡◌, ◌+◌, ◌-◌, ◌*◌, ◌/◌, ◌<◌, ◌≤◌, min, max, pos, ◌-ℤ◌, nat_abs, ◌+ℤ◌, ◌*ℤ◌};
ghost use Rattle.meaning_numbers.specs.Root.{root};
ghost use Rattle.meaning_numbers.specs.Order.{minℤ, maxℤ};
ghost use Rattle.meaning_curves.specs.Limits.{value_in};
ghost use Rattle.meaning_curves.specs.Straight.{cost};
ghost use Rattle.meaning_curves.proofs.Values.{InLimits};
ghost use Rattle.meaning_rows.specs.Range.{row_number};
ghost use Rattle.numbers.specs.Raised.{raised};
ghost use Rattle.meaning_numbers.specs.Quotient.{floorℤ, ceilℤ};
ghost use Rattle.numbers.specs.Small.{Small};
ghost use Rattle.numbers.specs.Narrow.{clamp, held};

use meaning_curves::{GREATEST_VALUE, LEAST_VALUE};

// What a value is raised by.
pub const RAISE: u64 = GREATEST_VALUE as u64;

// The whole square root: it lies from `r` to below `r + width`, and each turn halves the width.
pub fn root(y: u64) -> u64
    ensures { result ≡ root y }
{
    let mut r: u64 = 0;
    let mut width: u64 = 4294967296;
    // A `while`: a width is halved, and no index counted.
    while 1 < width {
        let half = width / 2;
        let t = r + half;
        if t * t <= y {
            r = t;
        }
        width -= half;
    }
    r
}

// The quotient, rounded down; 0 by 0.
pub fn quotient(n: u32, d: u32) -> u32
    ensures { result ≡ n / d }
{
    n.checked_div(d).unwrap_or(0)
}

// The number of the row that holds a sum, for negative sums too; for rows of width 0, which nothing asks for, 0 or -1. std's forms are no plainer: a width may be 0.
pub fn row_number(sum: i32, width: u32) -> i32
    ensures { result ≡ row_number width sum }
{
    if sum < 0 {
        let n = (-1 - sum) as u32;
        let k = quotient(n, width) as i32;
        return -1 - k;
    }
    let n = sum as u32;
    quotient(n, width) as i32
}

// Whether a value is in its limits.
pub fn in_limits(x: i32) -> bool
    ensures { result ≡ value_in x }
{
    LEAST_VALUE <= x && x <= GREATEST_VALUE
}

// A value raised by 10,000.
pub fn raise(x: i32) -> u64
    requires { InLimits x }
    ensures { result ≡ raised x }
{
    (x + GREATEST_VALUE) as u64
}

// A sum lowered by a bias.
pub fn lower(n: u64, k: u64) -> i32
    requires n_bound { n ≤ 1000000000 }
    requires k_bound { k ≤ 1000000000 }
    ensures { result ≡ pos n -ℤ pos k }
{
    n as i32 - k as i32
}

// The size of the difference of two values. Not by `abs_diff`, with which the straight distance takes longer.
pub fn gap(x: i32, y: i32) -> u32
    requires in_limits { InLimits x }
    requires in_limits_2 { InLimits y }
    ensures { result ≡ nat_abs (x -ℤ y) }
{
    (x - y).unsigned_abs()
}

// The squared difference of two values.
pub fn squared(x: i32, y: i32) -> u64
    requires in_limits { InLimits x }
    requires in_limits_2 { InLimits y }
    ensures { result ≡ cost x y }
{
    let d = gap(x, y) as u64;
    d * d
}

// The quotient, rounded down for negative numbers too. `div_euclid` would ask that `d` fits an i64.
pub fn floor_quotient(z: i64, d: u64) -> i64
    requires { 0 < d }
    ensures { result ≡ floorℤ z d }
{
    if z < 0 {
        let n = (-1 - z) as u64;
        let k = (n / d) as i64;
        return -1 - k;
    }
    let n = z as u64;
    (n / d) as i64
}

// The quotient, rounded up for negative numbers too.
pub fn ceil_quotient(z: i64, d: u64) -> i64
    requires { (0 < d) × Small 4611686018427387904 z }
    ensures { result ≡ ceilℤ z d }
{
    -floor_quotient(-z, d)
}

// The nearest value that an i32 holds.
pub fn narrow(z: i64) -> i32
    ensures { result ≡ clamp z }
{
    z.clamp(i32::MIN as i64, i32::MAX as i64) as i32
}

// A number as a u32 holds it; one that it does not hold becomes the greatest, which is outside every limit.
pub fn hold(z: i64) -> u32
    ensures { result ≡ held z }
{
    u32::try_from(z).unwrap_or(u32::MAX)
}
