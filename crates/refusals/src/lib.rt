// The conditions under which a call is refused, a function each, and the first of them that applies (01, 'Refused for the input' and 'Refused for the state').
#![tactic(auto)]

ghost use Rattle.std.specs.Prelude.{◌≡◌, not, ◌||◌, [], ◌∷◌, ◌+◌, ◌-◌, ◌≤◌, ltb, pos, ◌+ℤ◌, ◌-ℤ◌, length};
ghost use Rattle.std.specs.Int.Signed.{lt_z};
ghost use Rattle.meaning_curves.specs.Limits.{most_values, length_in, window_in, width_in, merge_in, query_length_in, band_in, threshold_in, scale_in, shift_in, longest_query};
ghost use Rattle.meaning_entries.specs.Refusal.{at_zero, value_outside, series_lines, room_lines, normal_flat, pick_outside};
ghost use Rattle.meaning_entries.specs.Reasons.{number_of};
ghost use Rattle.meaning_filter.specs.Closest.{fewest};
ghost use Rattle.refusals.specs.Refusal.{verdict, judged_line};
ghost use Rattle.meaning_curves.specs.Curve.{at};
ghost use Rattle.meaning_curves.specs.Normal.{flat};
ghost use Rattle.meaning_curves.proofs.Values.{AllIn};

use meaning_curves::{
    GREATEST_MERGE, GREATEST_SCALE, GREATEST_SHIFT, GREATEST_THRESHOLD, LEAST_SCALE, LONGEST_QUERY,
    LONGEST_WINDOW, MOST_CLOSEST, MOST_VALUES, WIDEST_ROW,
};
use meaning_entries::{Reason, Refusal};
use meaning_filter::{Kind, Pick};
use values::{first_outside, spread_of, sums_at};

// Refused with a number, whatever it stands for, at place 0, where a test passes.
pub fn refuse_number(t: bool, number: u32) -> Result<(), Refusal>
    ensures { result ≡ verdict (at_zero number t ∷ []) }
{
    if t {
        return Err(Refusal { number, place: 0 });
    }
    Ok(())
}

// Refused for a reason, likewise.
pub fn refuse_if(t: bool, reason: Reason) -> Result<(), Refusal>
    ensures { result ≡ verdict (at_zero (number_of reason) t ∷ []) }
{
    refuse_number(t, u32::from(reason))
}

// The length of a series is in its limits, where the call takes so many values at most.
pub fn length_in(most: usize, n: usize) -> bool
    ensures { result ≡ length_in most n }
{
    (1 <= n) & (n <= most)
}

// Refused where a value is outside its limits, at the first.
pub fn refuse_value(s: &[i32]) -> Result<(), Refusal>
    ensures { result ≡ verdict (value_outside s.now ∷ []) }
{
    match first_outside(s) {
        Some(k) => Err(Refusal::at(Reason::Value, k)),
        None => Ok(()),
    }
}

// The length of a series, then its values.
pub fn refuse_series(s: &[i32]) -> Result<(), Refusal>
    ensures { result ≡ verdict (series_lines most_values s.now) }
{
    refuse_if(!length_in(MOST_VALUES, s.len()), Reason::SeriesLength)?;
    refuse_value(s)
}

// A window length is outside its limits, or above that of the series.
pub fn window_outside(w: u32, n: usize) -> bool
    ensures { result ≡ (not (window_in (pos w)) || lt_z (pos n) (pos w)) }
{
    !((1 <= w) & (w <= LONGEST_WINDOW)) | (n < w as usize)
}

// A row width is outside its limits.
pub fn width_outside(d: u32) -> bool
    ensures { result ≡ not (width_in (pos d)) }
{
    !((1 <= d) & (d <= WIDEST_ROW))
}

// A merge percentage is outside its limits.
pub fn merge_outside(g: u32) -> bool
    ensures { result ≡ not (merge_in (pos g)) }
{
    !(g <= GREATEST_MERGE)
}

// The length of a query is outside its limits, or above that of the series.
pub fn query_length_outside(m: usize, n: usize) -> bool
    ensures { result ≡ (not (query_length_in m) || ltb n m) }
{
    !((1 <= m) & (m <= LONGEST_QUERY)) | (n < m)
}

// A query is shorter than a window.
pub fn below_window(m: usize, w: u32) -> bool
    ensures { result ≡ lt_z (pos m) (pos w) }
{
    m < w as usize
}

// A band is outside its limits.
pub fn band_outside(m: usize, band: u32) -> bool
    ensures { result ≡ not (band_in m (pos band)) }
{
    m <= band as usize
}

// A threshold is outside its limits.
pub fn threshold_outside(threshold: u64) -> bool
    ensures { result ≡ not (threshold_in (pos threshold)) }
{
    !(threshold <= GREATEST_THRESHOLD)
}

// A scale limit or a shift limit is outside its limits.
pub fn scale_or_shift_outside(scale: u32, shift: u32) -> bool
    ensures { result ≡ (not (scale_in (pos scale)) || not (shift_in (pos shift))) }
{
    !((LEAST_SCALE <= scale) & (scale <= GREATEST_SCALE)) | !(shift <= GREATEST_SHIFT)
}

// The closest few are asked for, and how many is outside its limits.
pub fn pick_outside(pick: Pick) -> bool
    ensures { result ≡ pick_outside pick }
{
    match pick {
        Pick::All => false,
        Pick::Closest { count } => !((1 <= count) & (count <= MOST_CLOSEST)),
    }
}

// A list holds fewer entries than the closest few that are asked for.
pub fn list_below(room: usize, pick: Pick) -> bool
    ensures { result ≡ ltb room (fewest pick) }
{
    match pick {
        Pick::All => false,
        Pick::Closest { count } => room < count as usize,
    }
}

// An index of so many windows has fewer than a series of n values.
pub fn fewer(windows: u32, w: u32, n: usize) -> bool
    ensures { result ≡ lt_z (pos windows) (pos n -ℤ pos w +ℤ pos 1) }
{
    let sum = windows as usize + w as usize;
    sum <= n
}

// It has more.
pub fn more(windows: u32, w: u32, n: usize) -> bool
    ensures { result ≡ lt_z (pos n -ℤ pos w +ℤ pos 1) (pos windows) }
{
    let sum = windows as usize + w as usize;
    if n < sum { n + 1 < sum } else { false }
}

// A buffer holds fewer entries than a series of n values has windows.
pub fn too_short(room: usize, w: u32, n: usize) -> bool
    ensures { result ≡ ltb room (n + 1 - w) }
{
    let size = w as usize;
    if size <= n { room <= n - size } else { false }
}

// Refused where judging an index found a bad row, 0 for the head.
pub fn refuse_judged(judged: Result<usize, usize>) -> Result<(), Refusal>
    ensures { result ≡ verdict (judged_line judged ∷ []) }
{
    match judged {
        Ok(_) => Ok(()),
        Err(row) => Err(Refusal::at(Reason::IllFormed, row)),
    }
}

// Refused where one of two buffers holds fewer entries than a series of n values has windows.
pub fn refuse_room(one: usize, other: usize, w: u32, n: usize) -> Result<(), Refusal>
    ensures { result ≡ verdict (room_lines one (n + 1 - w) other (n + 1 - w)) }
{
    refuse_if(too_short(one, w, n), Reason::Room)?;
    refuse_if(too_short(other, w, n), Reason::Room)
}

// A query is flat.
pub fn is_flat(q: &[i32]) -> bool
    requires { AllIn q.now × (length q.now ≤ longest_query) }
    ensures { result ≡ flat (at q.now) (length q.now) }
{
    let m = q.len();
    let t = sums_at(q, 0, m);
    spread_of(q, 0, m, t) == 0
}

// A normalised query is flat.
pub fn normal_flat(kind: Kind, q: &[i32]) -> bool
    requires { AllIn q.now × (length q.now ≤ longest_query) }
    ensures { result ≡ normal_flat kind q.now }
{
    match kind {
        Kind::Raw => false,
        Kind::Normal => is_flat(q),
    }
}
