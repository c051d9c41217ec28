// The scratch count of a search: a place for each offset, which holds how many leading parts of the query the offset has met; and the candidates handed out of it as joined runs.
#![tactic(auto)]

ghost use Rattle.std.specs.Prelude.{◌≡◌, true, not, ◌&&◌, [], ◌+◌, ◌-◌, ◌<◌, ◌≤◌, min, length, take, drop};
ghost use Rattle.meaning_numbers.specs.Sum.{bit, count};
ghost use Rattle.meaning_curves.specs.Limits.{most_values};
ghost use Rattle.meaning_rows.specs.Index.{entries};
ghost use Rattle.meaning_rows.proofs.Columns.{put_left, put_right};
ghost use Rattle.meaning_entries.specs.Buffers.{filled};
ghost use Rattle.candidate_counts.specs.Handed.{stood, Columns, Handed};
ghost use Rattle.candidate_counts.specs.Take.{TakeReady, Took};
ghost use Rattle.candidate_counts.specs.Raise.{bump, between, reached, Raised};

use clear::clear;

// The count of an offset whose window the part admits: one more where it stands at the part's number.
#[tactic(auto, unfolding(crate::specs::Raise::bump))]
pub fn bumped(n: u16, part: u16) -> u16
    requires { part < 65535 }
    ensures { result ≡ bump true part n }
{
    if n == part { part + 1 } else { n }
}

// The places from `from` up to and not with `to` are raised.
pub fn raise_run(scratch: &mut [u16], from: usize, to: usize, part: u16)
    requires to_in_bounds { to ≤ length scratch.old }
    requires part_bound { part < 65535 }
    ensures { Raised part (between from to) scratch.old scratch.new }
{
    for j in from..to {
        scratch[j] = bumped(scratch[j], part);
    }
}

// An end of a run, moved down by `shift` and clipped to the offsets.
pub fn clip(x: usize, shift: usize, offsets: usize) -> usize
    ensures { result ≡ min (x - shift) offsets }
{
    x.saturating_sub(shift).min(offsets)
}

// The offsets whose windows, `shift` further on, stand in the runs from `from` up to and not with `to` are raised.
pub fn raise_runs(
    left: &[u32],
    right: &[u32],
    from: usize,
    to: usize,
    scratch: &mut [u16],
    shift: usize,
    offsets: usize,
    part: u16,
)
    requires { (to ≤ length left.now) × (to ≤ length right.now) × (offsets ≤ length scratch.old) × (part < 65535) }
    ensures { Raised part (reached offsets shift (take (to - from) (drop from (entries left.now right.now)))) scratch.old scratch.new }
{
    for i in from..to {
        let first = clip(left[i] as usize, shift, offsets);
        let end = clip(right[i] as usize + 1, shift, offsets);
        raise_run(scratch, first, end, part);
    }
}

// How many runs and how many candidates were handed out, and whether the last run reaches to the last offset looked at, so that it may go on. A flag and no Option: both counts are meant in either case.
#[derive(Clone, Copy, Default)]
pub struct Found {
    pub runs: usize,
    pub candidates: usize,
    pub going: bool,
}

// Offset `j` taken in behind `k` runs, if it is `here`: it joins the last run where the offset before it is in it, and else begins a run; how many runs there are then. Its flags are those of `put_left` and `put_right`.
#[tactic(auto, unfolding(meaning_numbers::specs::Sum::bit, meaning_rows::proofs::Columns::put_left, meaning_rows::proofs::Columns::put_right))]
pub fn put(here: bool, prev: bool, j: usize, k: usize, left: &mut [u32], right: &mut [u32]) -> usize
    requires j_bound { j < 4294967296 }
    requires prev_in_bounds { (k + bit (here && not prev) ≤ length left.old) × (k + bit (here && not prev) ≤ length right.old) × (bit prev ≤ k) }
    ensures value { result ≡ k + bit (here && not prev) }
    ensures left_after { left.new ≡ put_left here prev left.old k j }
    ensures right_after { right.new ≡ put_right here prev right.old k j }
{
    if !here {
        return k;
    }
    if prev {
        right[k - 1] = j as u32;
        return k;
    }
    left[k] = j as u32;
    right[k] = j as u32;
    k + 1
}

// How many of the `n` offsets from `from` on stand at `p`.
pub fn count_at(scratch: &[u16], p: u16, from: usize, n: usize) -> u16
    requires { (from + n ≤ length scratch.now) × (n ≤ 64) }
    ensures { result ≡ count (λ k. stood scratch.now p (from + k)) n }
{
    let mut found: u16 = 0;
    for &x in &scratch[from..from + n] {
        found += (x == p) as u16;
    }
    found
}

// The `n` offsets from `from` on looked at one by one: those that stand at `p` are taken in behind what was handed out.
pub fn take_each(
    scratch: &[u16],
    p: u16,
    from: usize,
    n: usize,
    out: Found,
    left: &mut [u32],
    right: &mut [u32],
) -> Found
    requires { TakeReady scratch.now from n out left.old right.old }
    ensures { Took (stood scratch.now p) from n out result left.old right.old left.new right.new }
{
    let mut now = out;
    for j in from..from + n {
        let here = scratch[j] == p;
        now.runs = put(here, now.going, j, now.runs, left, right);
        now.candidates += here as usize;
        now.going = here;
    }
    now
}

// A block of 64 offsets: where none stands at `p`, it is passed over.
pub fn take_block(
    scratch: &[u16],
    p: u16,
    from: usize,
    out: Found,
    left: &mut [u32],
    right: &mut [u32],
) -> Found
    requires { TakeReady scratch.now from 64 out left.old right.old }
    ensures { Took (stood scratch.now p) from 64 out result left.old right.old left.new right.new }
{
    if count_at(scratch, p, from, 64) == 0 {
        return Found {
            going: false,
            ..out
        };
    }
    take_each(scratch, p, from, 64, out, left, right)
}

// The joined runs of the offsets that stand at `p`, written to the front of `left` and `right`; how many runs and offsets they are.
pub fn write_runs(
    scratch: &[u16],
    p: u16,
    offsets: usize,
    left: &mut [u32],
    right: &mut [u32],
) -> Found
    requires { (offsets ≤ length scratch.now) × (offsets ≤ length left.old) × (offsets ≤ length right.old) × (offsets ≤ most_values) }
    ensures { Columns (stood scratch.now p) offsets left.old right.old left.new right.new result.runs result.candidates }
{
    let mut out = Found::default();
    let mut j: usize = 0;
    // A `while`: a step is a block of 64.
    while 64 <= offsets - j {
        out = take_block(scratch, p, j, out, left, right);
        j += 64;
    }
    take_each(scratch, p, j, offsets - j, out, left, right)
}

// The offsets that stand at `p` handed out as joined runs at the front of `left` and `right`, 0 behind them, and every count made 0.
pub fn collect(
    scratch: &mut [u16],
    p: u16,
    offsets: usize,
    left: &mut [u32],
    right: &mut [u32],
) -> Found
    requires { (offsets ≤ length scratch.old) × (offsets ≤ length left.old) × (offsets ≤ length right.old) × (offsets ≤ most_values) }
    ensures { Handed (stood scratch.old p) offsets left.old right.old left.new right.new result.runs result.candidates × (scratch.new ≡ filled 0 [] scratch.old) }
{
    let found = write_runs(scratch, p, offsets, left, right);
    let runs = found.runs;
    clear(left, runs, 0);
    clear(right, runs, 0);
    clear(scratch, 0, 0);
    found
}
