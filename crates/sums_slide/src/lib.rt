// Passes over the windows of a series, by runs: the windows of a run have sums in one range, and no row number is computed inside it. Sums are raised, so that nothing is signed here.
#![tactic(auto)]

ghost use Rattle.std.specs.Prelude.{◌≡◌, ℕ, ◌+◌, ◌-◌, ◌*◌, ◌/◌, ◌<◌, ◌≤◌, pos, negsuc, length, get_or, ◌≤ℤ◌};
ghost use Rattle.meaning_curves.specs.Limits.{most_values, longest_window, widest_row, greatest_value};
ghost use Rattle.meaning_curves.specs.Curve.{at};
ghost use Rattle.meaning_curves.proofs.Values.{AllIn};
ghost use Rattle.numbers.specs.Raised.{raised};
ghost use Rattle.sums_slide.specs.Levels.{level, place_from, sum_at, row_of, Lent, windows_of, within, Bounds};
ghost use Rattle.sums_slide.specs.Ends.{raised_end};
ghost use Rattle.sums_slide.specs.Change.{Stop, NextRow};
ghost use Rattle.sums_slide.specs.Marks.{flagged, lit, met, Flags};
ghost use Rattle.sums_slide.specs.Table.{table};
ghost use Rattle.sums_slide.specs.Picked.{picked, Appended};

use clear::clear;
use numbers::{RAISE, lower, quotient, raise};
use values::raised_sum;

// A window with its raised sum.
#[derive(Clone, Copy)]
pub struct Window {
    pub offset: usize,
    pub level: u64,
}

// The value at `i`, raised; past the end that of 0.
pub fn value_at(s: &[i32], i: usize) -> u64
    requires { AllIn s.now }
    ensures { result ≡ raised (at s.now i) }
{
    raise(s.get(i).copied().unwrap_or(0))
}

// The raised sum of the next window.
pub fn slide(s: &[i32], w: usize, e: u64, j: usize, n: u64) -> u64
    requires lent { Lent s.now w e }
    requires j_le_most_values { j ≤ most_values }
    requires n_value { n ≡ level s.now w e j }
    ensures { result ≡ level s.now w e (j + 1) }
{
    n + value_at(s, j + w) - value_at(s, j)
}

// The raised sum of the next window, where there is one: no read needs a test.
pub fn move_on(s: &[i32], w: usize, e: u64, j: usize, n: u64) -> u64
    requires lent { Lent s.now w e }
    requires w_in_bounds { j + w < length s.now }
    requires n_value { n ≡ level s.now w e j }
    ensures { result ≡ level s.now w e (j + 1) }
{
    let x = s[j];
    let y = s[j + w];
    n + raise(y) - raise(x)
}

// The raised sum of the first window.
pub fn first_level(s: &[i32], w: usize, e: u64) -> u64
    requires { Lent s.now w e }
    ensures { result ≡ level s.now w e 0 }
{
    raised_sum(s, 0, w) + e
}

// The first window.
pub fn first_place(s: &[i32], w: usize, e: u64) -> Window
    requires { Lent s.now w e }
    ensures { result ≡ place_from s.now w e 0 }
{
    Window {
        offset: 0,
        level: first_level(s, w, e),
    }
}

// The sum of a window, from its raised sum.
pub fn sum_of(w: usize, e: u64, at: Window) -> i32
    requires { (w ≤ longest_window) × (e ≤ widest_row) × (at.level ≤ 1000000000) }
    ensures { result ≡ sum_at w e at }
{
    let level = at.level;
    lower(level, RAISE * (w as u64) + e)
}

// An end of a range raised by a bias; 0 where that is negative.
pub fn raise_end(x: i32, bias: u64) -> u64
    requires bias_bound { bias ≤ 1000000000 }
    requires negsuc_bound { (negsuc 999999999 ≤ℤ x) × (x ≤ℤ pos 1000000000) }
    ensures { result ≡ raised_end bias x }
{
    (x + bias as i32).max(0) as u64
}

// The raised sum is in the raised range.
#[tactic(auto, unfolding(crate::specs::Levels::within))]
pub fn in_range(lo: u64, hi: u64, n: u64) -> bool
    ensures { result ≡ within lo hi n }
{
    lo <= n && n < hi
}

// From the last window on, or past it: the first whose raised sum is not in the raised range, or the number of windows.
pub fn last_out(s: &[i32], w: usize, e: u64, from: Window, lo: u64, hi: u64) -> Window
    requires lent { Lent s.now w e }
    requires s_len_bound { (length s.now ≤ from.offset + w) × (from.offset ≤ windows_of s.now w) }
    requires level_value { from.level ≡ level s.now w e from.offset }
    ensures { Stop (level s.now w e) (windows_of s.now w) lo hi from.offset result.offset result.level }
{
    let j = from.offset;
    let n = from.level;
    if s.len() < j + w {
        return from;
    }
    if !in_range(lo, hi, n) {
        return from;
    }
    Window {
        offset: j + 1,
        level: slide(s, w, e, j, n),
    }
}

// The first window at or after `from` whose raised sum is not in the raised range, or the number of windows.
pub fn next_out(s: &[i32], w: usize, e: u64, from: Window, lo: u64, hi: u64) -> Window
    requires lent { Lent s.now w e }
    requires offset_bound { from.offset ≤ windows_of s.now w }
    requires level_value { from.level ≡ level s.now w e from.offset }
    ensures { Stop (level s.now w e) (windows_of s.now w) lo hi from.offset result.offset result.level }
{
    let mut at = from;
    for j in from.offset..s.len() - w {
        if !in_range(lo, hi, at.level) {
            return at;
        }
        at = Window {
            offset: j + 1,
            level: move_on(s, w, e, j, at.level),
        };
    }
    last_out(s, w, e, at, lo, hi)
}

// The raised row number of a raised sum. Every row number is made here.
pub fn row_of_level(n: u64, d: u64) -> u64
    requires n_bound { n ≤ 6120000 }
    requires d_le_widest_row { d ≤ widest_row }
    ensures { result ≡ n / d }
{
    quotient(n as u32, d as u32) as u64
}

// From a window on, whose row number is `k`, the first whose row number is another, or the number of windows.
pub fn next_row(s: &[i32], w: usize, e: u64, d: u64, k: u64, from: Window) -> Window
    requires lent { Lent s.now w e }
    requires le_d { (1 ≤ d) × (d ≤ widest_row) }
    requires offset_bound { from.offset < windows_of s.now w }
    requires level_value { (from.level ≡ level s.now w e from.offset) × (k ≡ row_of (level s.now w e) d from.offset) }
    ensures { NextRow (level s.now w e) d (windows_of s.now w) from.offset result.offset result.level }
{
    let low = k * d;
    next_out(s, w, e, from, low, low + d)
}

// The flag of row number `k` is set, where the flags, which begin at `base`, have it.
#[tactic(auto, unfolding(crate::specs::Marks::flagged), using(meaning_numbers::proofs::Prelude::set_out))]
pub fn set_flag(flags: &mut [u8], base: u64, k: u64)
    ensures { flags.new ≡ flagged flags.old base k }
{
    // Not by `get_mut`: of a slice it promises nothing about the other entries.
    if base <= k && k - base < flags.len() as u64 {
        flags[(k - base) as usize] = 1;
    }
}

// The flags of the row numbers that windows have are set; they begin at `base`.
pub fn mark(s: &[i32], w: usize, e: u64, d: u64, base: u64, flags: &mut [u8])
    requires lent { Lent s.now w e }
    requires le_d { (1 ≤ d) × (d ≤ widest_row) }
    requires by_index { (x : ℕ) → x < length flags.old → get_or flags.old x 0 ≡ 0 }
    ensures flags { Flags (row_of (level s.now w e) d) (windows_of s.now w) base flags.new }
    ensures flags_len_unchanged { length flags.new ≡ length flags.old }
{
    let windows = s.len() + 1 - w;
    let mut at = first_place(s, w, e);
    // A `while`: where the next turn begins is found in the body.
    while at.offset < windows {
        let k = row_of_level(at.level, d);
        set_flag(flags, base, k);
        at = next_row(s, w, e, d, k, at);
    }
}

// The numbers from `base` on whose flags are set, written behind the first `k` of `out`; how many stand there then.
pub fn collect(flags: &[u8], base: u64, out: &mut [u32], k: usize) -> usize
    requires flags_bound { base + length flags.now ≤ 4294967296 }
    requires flags_in_bounds { k + length (picked (lit flags.now base) base (length flags.now)) ≤ length out.old }
    ensures { Appended (picked (lit flags.now base) base (length flags.now)) k result out.old out.new }
{
    let mut n = k;
    for (x, &flag) in flags.iter().enumerate() {
        if flag != 0 {
            out[n] = (base + x as u64) as u32;
            n += 1;
        }
    }
    n
}

// The row numbers from `base` on that windows have, as many numbers as there are flags, written behind the first `k` of `out`; how many stand there then.
pub fn list_chunk(
    s: &[i32],
    w: usize,
    e: u64,
    d: u64,
    base: u64,
    flags: &mut [u8],
    out: &mut [u32],
    k: usize,
) -> usize
    requires lent { Lent s.now w e }
    requires le_d { (1 ≤ d) × (d ≤ widest_row) }
    requires flags_bound { base + length flags.old ≤ 4294967296 }
    requires flags_in_bounds { k + length (picked (met (row_of (level s.now w e) d) (windows_of s.now w)) base (length flags.old)) ≤ length out.old }
    ensures appended { Appended (picked (met (row_of (level s.now w e) d) (windows_of s.now w)) base (length flags.old)) k result out.old out.new }
    ensures flags_len_unchanged { length flags.new ≡ length flags.old }
{
    clear(flags, 0, 0);
    mark(s, w, e, d, base, flags);
    collect(flags, base, out, k)
}

// The least and the greatest raised sum.
#[derive(Clone, Copy)]
pub struct Ends {
    pub least: u64,
    pub greatest: u64,
}

// The least and the greatest raised sum of the windows.
pub fn level_ends(s: &[i32], w: usize, e: u64) -> Ends
    requires { Lent s.now w e }
    ensures bounds { Bounds (level s.now w e) (windows_of s.now w) result.least result.greatest }
    ensures greatest_bound { result.greatest ≤ 6120000 }
{
    let mut n = first_level(s, w, e);
    let mut least = n;
    let mut greatest = n;
    for j in 0..s.len() - w {
        n = move_on(s, w, e, j, n);
        least = least.min(n);
        greatest = greatest.max(n);
    }
    Ends { least, greatest }
}

// The row numbers of the windows, ascending, each once, written to the front of `out`; how many there are. What the flags hold does not matter.
pub fn list_rows(s: &[i32], w: usize, e: u64, d: u64, flags: &mut [u8], out: &mut [u32]) -> usize
    requires lent { Lent s.now w e }
    requires le_d { (1 ≤ d) × (d ≤ widest_row) }
    requires in_bounds { (1 ≤ length flags.old) × (length flags.old ≤ 1000000) }
    requires d_in_bounds { length (table s.now w e d) ≤ length out.old }
    ensures { Appended (table s.now w e d) 0 result out.old out.new }
{
    let ends = level_ends(s, w, e);
    let size = flags.len() as u64;
    let last = row_of_level(ends.greatest, d);
    let mut base = row_of_level(ends.least, d);
    let mut k: usize = 0;
    // A `while`: a step is a chunk of flags.
    while base <= last {
        k = list_chunk(s, w, e, d, base, flags, out, k);
        base += size;
    }
    k
}

// By how many rows row numbers are raised: so many that no window of `w` values has a row number below it.
pub fn raised_rows(w: u64, d: u64) -> u64
    requires w_le_longest_window { w ≤ longest_window }
    requires le_d { (1 ≤ d) × (d ≤ widest_row) }
    ensures { (greatest_value * w ≤ result * d) × (result * d ≤ greatest_value * w + (d - 1)) }
{
    let most = RAISE * w + (d - 1);
    quotient(most as u32, d as u32) as u64
}
