// The functions of try_c_match, by the names that C calls them by.
#![tactic(auto)]

ghost use Rattle.std.specs.Prelude.{◌≡◌, length};
ghost use Rattle.try_c_match.specs.Told.{kind_of, MatchesTold, place_or, WindowsTold};
ghost use Rattle.meaning_curves.specs.Limits.{first_outside};
ghost use Rattle.meaning_numbers.specs.Root.{root};

// For each stretch of `s` the distance and 1 where it matches `q`, else 0. How many were written; 0 where the input is refused. `curve`, `low`, `high` and `room` are as long as `q`, `row` is longer: the first three are left with the curve compared and its envelopes; what `room` and `row` hold is free.
#[unsafe(no_mangle)]
pub extern "C" fn curve_matches(
    kind: u32,
    s: &[i32],
    q: &[i32],
    b: u32,
    threshold: u64,
    scale: u32,
    shift: u32,
    curve: &mut [i32],
    low: &mut [i32],
    high: &mut [i32],
    room: &mut [i32],
    row: &mut [u64],
    out: &mut [u64],
) -> usize
    ensures { MatchesTold (kind_of kind) s.now q.now (record { band = b; threshold = threshold; scale = scale; shift = shift }) (record { curve = curve.old; low = low.old; high = high.old; room = room.old; row = row.old; out = out.old }) result (record { curve = curve.new; low = low.new; high = high.new; room = room.new; row = row.new; out = out.new }) }
{
    try_c_match::curve_matches(
        kind, s, q, b, threshold, scale, shift, curve, low, high, room, row, out,
    )
}

// The place of the first value outside its limits, or how many values there are.
#[unsafe(no_mangle)]
pub extern "C" fn curve_outside(s: &[i32]) -> usize
    ensures { result ≡ place_or (length s.now) (first_outside s.now) }
{
    try_c_match::curve_outside(s)
}

// The sum of each window of `w` values into `sums`, and the row that holds it, at the width `d`, into `rows`. How many were written.
#[unsafe(no_mangle)]
pub extern "C" fn curve_windows(
    s: &[i32],
    w: usize,
    d: u32,
    sums: &mut [i32],
    rows: &mut [i32],
) -> usize
    ensures { WindowsTold s.now w d sums.old rows.old result sums.new rows.new }
{
    try_c_match::curve_windows(s, w, d, sums, rows)
}

#[unsafe(no_mangle)]
pub extern "C" fn curve_root(y: u64) -> u64
    ensures { result ≡ root y }
{
    try_c_match::curve_root(y)
}
