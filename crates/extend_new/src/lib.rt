// The new windows of an extension: their row numbers, and the first new run where it joins the last old run of its row.
use sums_slide::Window;
use sums_slide::list_rows;
use sums_slide::next_out;
ghost use mathlib.Core.Path.{_≡_};
ghost use mathlib.Core.Bool.{true};
ghost use Prim.Native.Nat.{_+_, _-_, _<_, _≤_};
ghost use lib.ListN.{length, getD};
ghost use Rattle·meaning_curves.specs.Limits.{widestRow};
ghost use Rattle·sums_slide.specs.Levels.{Lent, windowsOf};
ghost use Rattle·sums_slide.specs.Picked.{Appended};
ghost use Rattle·extend_new·specs.specs.New.{newTable, lessJoin};
ghost use Rattle·extend_new·specs.specs.Join.{Joinable, JoinedRun};

// The row numbers of the windows from `old` on, ascending, each once, written to the front of `out`; how many there are. What the flags hold does not matter.
pub fn list_new(
    s: &[i32],
    old: usize,
    w: usize,
    e: u64,
    d: u64,
    flags: &mut [u8],
    out: &mut [u32],
) -> usize
    requires { ⌜ Lent (now s) w e ⌝ }
    requires { ⌜ old ≤ windowsOf (now s) w ⌝ }
    requires { ⌜ (1 ≤ d) × (d ≤ widestRow) ⌝ }
    requires { ⌜ (1 ≤ length (now flags)) × (length (now flags) ≤ 1000000) ⌝ }
    requires { ⌜ length (newTable (now s) old w e d) ≤ length (now out) ⌝ }
    ensures { λ r. ⌜ Appended (newTable (now (s .entry)) old w e d) 0 r (now (out .entry)) (now (out .exit)) ⌝ }
{
    if old < s.len() + 1 - w {
        list_rows(&s[old..], w, e, d, flags, out)
    } else {
        0
    }
}

// The count of row `i` is one less where the first new run joins an old one.
pub fn take_join(joins: bool, i: usize, counts: &mut [u32])
    requires { ⌜ (joins ≡ true → (i < length (now counts)) × (1 ≤ getD (now counts) i 0)) ⌝ }
    ensures { λ _. ⌜ now (counts .exit) ≡ lessJoin joins i (now (counts .entry)) ⌝ }
{
    if joins {
        counts[i] = counts[i] - 1;
    }
}

// Where the first new run joins an old one, that run's right end, at `spot` of the row's part, goes on to the end of the new one; where the next run begins.
pub fn join_run(
    s: &[i32],
    w: usize,
    e: u64,
    at: Window,
    joins: bool,
    low: u64,
    up: u64,
    spot: usize,
    right: &mut [u32],
) -> Window
    requires { ⌜ Lent (now s) w e ⌝ }
    requires { ⌜ Joinable (now s) w e at joins low up spot (length (now right)) ⌝ }
    ensures { λ t. ⌜ JoinedRun (now (s .entry)) w e at joins low up spot (now (right .entry)) t (now (right .exit)) ⌝ }
{
    if !joins {
        return at;
    }
    let next = next_out(s, w, e, at, low, up);
    let end = next.offset;
    right[spot] = (end - 1) as u32;
    next
}
