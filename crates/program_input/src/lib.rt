// What the search program knows of its input, read in pieces, and what refuses it at the end: a text that cannot be read, then build and search judged together as one call (01, 'Text and program').
#![tactic(auto)]

ghost use Rattle.std.specs.Prelude.{◌≡◌, [], ◌∷◌, not, ◌+◌, ◌-◌, ◌<◌, ◌≤◌, ◌^◌, pos, nat_abs, length, ◌≤ℤ◌};
ghost use Rattle.std.specs.Int.Signed.{lt_z};
ghost use Rattle.meaning_numbers.specs.Order.{within};
ghost use Rattle.meaning_curves.specs.Limits.{band_in};
ghost use Rattle.meaning_text.specs.Read.{line_of};
ghost use Rattle.meaning_entries.specs.Refusal.{at_place};
ghost use Rattle.refusals.specs.Refusal.{verdict};
ghost use Rattle.program_input.specs.Input.{start, Open, ReadOn};
ghost use Rattle.program_input.specs.Tables.{numbers_at, kind_of, first_out, values_table, numbers_table, call_table, end_table, asked_of, is_done, Sound, SoundEnd, Limited};

use meaning_curves::{
    GREATEST_MERGE, GREATEST_SCALE, GREATEST_SHIFT, GREATEST_THRESHOLD, LEAST_SCALE,
    LONGEST_WINDOW, MOST_PROGRAM_VALUES, WIDEST_ROW,
};
use meaning_entries::{Reason, Refusal};
use meaning_filter::{Ask, Kind, Limits, Pick};
use refusals::{length_in, normal_flat, query_length_outside, refuse_if};
use text_feed::{Progress, Values, feed};
use text_lines::{State, Word};
use text_reader::line_at;

// The limits of the program's numbers, as a text has them.
const WINDOW: i64 = LONGEST_WINDOW as i64;

const WIDTH: i64 = WIDEST_ROW as i64;

const MERGE: i64 = GREATEST_MERGE as i64;

const THRESHOLD: i64 = GREATEST_THRESHOLD as i64;

const NARROW: i64 = LEAST_SCALE as i64;

const SCALE: i64 = GREATEST_SCALE as i64;

const SHIFT: i64 = GREATEST_SHIFT as i64;

// How far the input has been read, and the line that it stands in; or the line of its first bad byte. A state that the next piece is read on from, and no outcome to take by `?`, so an enum of its own.
#[derive(Clone, Copy)]
pub enum Input {
    Going(Progress, usize),
    Failed(usize),
}

// Nothing has been read.
pub fn begin() -> Input
    ensures { result ≡ start }
{
    let none = Values {
        count: 0,
        inside: 0,
    };
    let state = State::In(Word::Window, 0);
    let start = Progress {
        state,
        at: 0,
        series: none,
        query: none,
    };
    Input::Going(start, 1)
}

// The line of a place in a piece that begins in a line.
fn line_in(line: usize, piece: &[u8], k: usize) -> usize
    requires { (1 ≤ line) × (line + length piece.now < 2 ^ 63 + 2) }
    ensures { result ≡ line - 1 + line_of piece.now k }
{
    line - 1 + line_at(piece, k)
}

// Reads on: the piece that comes next.
pub fn read_piece(
    r: Input,
    piece: &[u8],
    numbers: &mut [i64],
    series: &mut [i32],
    query: &mut [i32],
) -> Input
    requires { Open r (length piece.now) }
    ensures { ReadOn piece.now r numbers.old series.old query.old result numbers.new series.new query.new }
{
    match r {
        Input::Failed(_) => r,
        Input::Going(p, line) => match feed(p, piece, numbers, series, query) {
            Ok(n) => Input::Going(n, line_in(line, piece, piece.len())),
            Err(k) => Input::Failed(line_in(line, piece, k.saturating_sub(p.at))),
        },
    }
}

// The single numbers of the lines; 1 for a raw query, 0 for a normalised one.
#[derive(Clone, Copy)]
pub struct Numbers {
    pub window: i64,
    pub width: i64,
    pub merge: i64,
    pub band: i64,
    pub threshold: i64,
    pub scale: i64,
    pub shift: i64,
    pub raw: i64,
}

// The numbers at their places.
#[tactic(auto, unfolding(crate::specs::Tables::numbers_at))]
pub fn numbers_of(numbers: &[i64]) -> Numbers
    requires { 8 ≤ length numbers.now }
    ensures { result ≡ numbers_at numbers.now }
{
    Numbers {
        window: numbers[0],
        width: numbers[1],
        merge: numbers[2],
        band: numbers[3],
        threshold: numbers[4],
        scale: numbers[5],
        shift: numbers[6],
        raw: numbers[7],
    }
}

pub fn kind_of(raw: i64) -> Kind
    ensures { result ≡ kind_of raw }
{
    if 0 < raw { Kind::Raw } else { Kind::Normal }
}

// A number is below or above its limits.
#[tactic(auto, unfolding(meaning_numbers::specs::Order::within))]
fn outside(low: i64, high: i64, z: i64) -> bool
    ensures { result ≡ not (within low high z) }
{
    !((low <= z) & (z <= high))
}

// A number is above a count.
fn above(n: usize, z: i64) -> bool
    requires { n < 2 ^ 63 }
    ensures { result ≡ lt_z (pos n) z }
{
    (n as i64) < z
}

// A band is outside its limits.
fn band_outside(m: usize, band: i64) -> bool
    requires { m < 2 ^ 63 }
    ensures { result ≡ not (band_in m band) }
{
    outside(0, m as i64 - 1, band)
}

// Refused where a value is outside its limits, at the first.
fn refuse_value(v: Values) -> Result<(), Refusal>
    ensures { result ≡ verdict (at_place 2 (first_out v) ∷ []) }
{
    if v.inside < v.count {
        return Err(Refusal::at(Reason::Value, v.inside));
    }
    Ok(())
}

// The length of the series, then its values, then those of the query.
pub fn refuse_values(v: Values, q: Values) -> Result<(), Refusal>
    ensures { result ≡ verdict (values_table v q) }
{
    refuse_if(
        !length_in(MOST_PROGRAM_VALUES, v.count),
        Reason::SeriesLength,
    )?;
    refuse_value(v)?;
    refuse_value(q)
}

// The single numbers, for a series of n values and a query of m.
pub fn refuse_numbers(n: usize, m: usize, x: Numbers) -> Result<(), Refusal>
    requires { (n < 2 ^ 63) × (m < 2 ^ 63) }
    ensures { result ≡ verdict (numbers_table n m x) }
{
    refuse_if(
        outside(1, WINDOW, x.window) | above(n, x.window),
        Reason::Window,
    )?;
    refuse_if(outside(1, WIDTH, x.width), Reason::Width)?;
    refuse_if(outside(0, MERGE, x.merge), Reason::Merge)?;
    refuse_if(query_length_outside(m, n), Reason::QueryLength)?;
    refuse_if(above(m, x.window), Reason::QueryBelowWindow)?;
    refuse_if(band_outside(m, x.band), Reason::Band)?;
    refuse_if(outside(0, THRESHOLD, x.threshold), Reason::Threshold)?;
    refuse_if(
        outside(NARROW, SCALE, x.scale) | outside(0, SHIFT, x.shift),
        Reason::ScaleOrShift,
    )
}

// The call that a text gives.
pub fn refuse_call(v: Values, q: Values, x: Numbers, query: &[i32]) -> Result<(), Refusal>
    requires { Sound q query.now }
    ensures { result ≡ verdict (call_table v q x query.now) }
{
    refuse_values(v, q)?;
    refuse_numbers(v.count, q.count, x)?;
    refuse_if(
        normal_flat(kind_of(x.raw), &query[..q.count]),
        Reason::FlatQuery,
    )
}

fn is_done(s: State) -> bool
    ensures { result ≡ is_done s }
{
    matches!(s, State::Done)
}

// What refuses the program at the end of its input.
pub fn refuse(r: Input, numbers: &[i64], query: &[i32]) -> Result<(), Refusal>
    requires { SoundEnd r numbers.now query.now }
    ensures { result ≡ verdict (end_table r numbers.now query.now) }
{
    match r {
        Input::Failed(line) => Err(Refusal::at(Reason::Text, line)),
        Input::Going(p, line) => {
            if !is_done(p.state) {
                return Err(Refusal::at(Reason::Text, line));
            }
            refuse_call(p.series, p.query, numbers_of(numbers), query)
        }
    }
}

// What a program that is not refused asks: a build, and a search.
#[derive(Clone, Copy)]
pub struct Asked {
    pub window: u32,
    pub width: u32,
    pub merge: u32,
    pub ask: Ask,
}

// A number that fits.
fn held(z: i64) -> u32
    requires { (pos 0 ≤ℤ z) × (z ≤ℤ pos 4294967295) }
    ensures { result ≡ nat_abs z }
{
    z as u32
}

// A number that is not negative.
fn held_long(z: i64) -> u64
    requires { pos 0 ≤ℤ z }
    ensures { result ≡ nat_abs z }
{
    z as u64
}

// The numbers in their types.
pub fn asked_of(x: Numbers) -> Asked
    requires { Limited x }
    ensures { result ≡ asked_of x }
{
    let limits = Limits {
        band: held(x.band),
        threshold: held_long(x.threshold),
        scale: held(x.scale),
        shift: held(x.shift),
    };
    let kind = kind_of(x.raw);
    let pick = Pick::All;
    let ask = Ask { kind, limits, pick };
    Asked {
        window: held(x.window),
        width: held(x.width),
        merge: held(x.merge),
        ask,
    }
}
