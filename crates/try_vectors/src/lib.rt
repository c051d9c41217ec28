// Vectors for the programs that try cases: a text of whole numbers, read into numbers raised by 10^18, and taken out again. A place past the end has 0.
#![tactic(auto)]

ghost use Rattle.std.specs.Prelude.{◌≤◌};

use meaning_rows::{Head, Row};

// A number with one more digit; what is no digit makes it 0.
pub fn with_digit(x: u64, c: u8) -> u64 {
    if c < b'0' {
        return 0;
    }
    if b'9' < c {
        return 0;
    }
    if 100000000000000000 <= x {
        return 0;
    }
    x * 10 + (c - b'0') as u64
}

// Whether a minus stands before what follows the byte `c`.
pub fn with_minus(minus: bool, c: u8) -> bool {
    if c == b'-' {
        return true;
    }
    if c <= b' ' {
        return false;
    }
    minus
}

// A number raised by 10^18, so that it is not negative.
pub fn signed(x: u64, minus: bool) -> u64 {
    if 1000000000000000000 <= x {
        return 0;
    }
    if minus {
        return 1000000000000000000 - x;
    }
    1000000000000000000 + x
}

// A number into `out` where it ends at the byte `c`. How many there are now.
pub fn put(out: &mut [u64], k: usize, x: u64, minus: bool, c: u8) -> usize {
    if b' ' < c {
        return k;
    }
    if out.len() <= k {
        return k;
    }
    out[k] = signed(x, minus);
    k + 1
}

pub fn read_numbers(text: &[u8], out: &mut [u64]) {
    let mut k: usize = 0;
    let mut x: u64 = 0;
    let mut minus = false;
    for &c in text {
        k = put(out, k, x, minus, c);
        minus = with_minus(minus, c);
        x = with_digit(x, c);
    }
}

pub fn plus(a: usize, b: usize) -> usize {
    a.wrapping_add(b)
}

// The number at a place; 0 past the end.
pub fn get(nums: &[u64], at: usize) -> u64 {
    nums.get(at).copied().unwrap_or(0)
}

pub fn get_natural(nums: &[u64], at: usize) -> u64 {
    get(nums, at).saturating_sub(1000000000000000000)
}

pub fn get_small(nums: &[u64], at: usize) -> u32 {
    let x = get_natural(nums, at);
    if 4000000000 < x {
        return 0;
    }
    x as u32
}

pub fn value(x: u64) -> i32 {
    if x < 999999999500000000 {
        return 0;
    }
    let v = x - 999999999500000000;
    if 1000000000 < v {
        return 0;
    }
    numbers::lower(v, 500000000)
}

// A length, of at most `most`.
pub fn get_length(nums: &[u64], at: usize, most: usize) -> usize
    ensures { result ≤ most }
{
    let x = get_natural(nums, at) as usize;
    if most < x {
        return 0;
    }
    x
}

// Values from the place `from` on, as many as `out` holds.
pub fn get_values(nums: &[u64], from: usize, out: &mut [i32]) {
    for k in 0..out.len() {
        out[k] = value(get(nums, plus(from, k)));
    }
}

// Numbers from the place `from` on, as many as `out` holds.
pub fn get_numbers(nums: &[u64], from: usize, out: &mut [u32]) {
    for k in 0..out.len() {
        out[k] = get_small(nums, plus(from, k));
    }
}

pub fn get_head(nums: &[u64], at: usize) -> Head {
    Head {
        window: get_small(nums, at),
        width: get_small(nums, plus(at, 1)),
        windows: get_small(nums, plus(at, 2)),
    }
}

pub fn get_row(nums: &[u64], at: usize) -> Row {
    Row {
        low: value(get(nums, at)),
        up: value(get(nums, plus(at, 1))),
        first: get_small(nums, plus(at, 2)),
        runs: get_small(nums, plus(at, 3)),
    }
}
