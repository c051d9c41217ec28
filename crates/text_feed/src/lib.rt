// The series line and the program's lines from a text that comes in pieces of any size: values are kept as far as there is room, clamped to 32 bits, and the rest is counted.
#![tactic(auto)]

ghost use Rattle.std.specs.Prelude.{◌≡◌, cond, List, ◌+◌, ◌<◌, ◌^◌, ℤ, length, set};
ghost use Rattle.meaning_curves.specs.Limits.{value_in};
ghost use Rattle.text_lines.specs.Follow.{Said};
ghost use Rattle.text_feed.specs.Keep.{values_more, of_series, of_query, place_of, word_place, word_number};
ghost use Rattle.numbers.specs.Narrow.{clamp};
ghost use Rattle.text_feed.specs.Feed.{Ready, GoodFeeding, Comes};

use meaning_curves::{GREATEST_VALUE, LEAST_VALUE};
use numbers::narrow;
use text_lines::{Field, Moved, State, Word, line_step};

// The limits of a value as a number of a text.
const LEAST: i64 = LEAST_VALUE as i64;

const GREATEST: i64 = GREATEST_VALUE as i64;

// The values of a series or a query: how many were read, and how many of them stand before the first that is outside its limits.
#[derive(Clone, Copy)]
pub struct Values {
    pub count: usize,
    pub inside: usize,
}

// Where a text stands after `at` bytes of it.
#[derive(Clone, Copy)]
pub struct Progress {
    pub state: State,
    pub at: usize,
    pub series: Values,
    pub query: Values,
}

// The value at its place, where the buffer has it.
fn put<T: Copy>(out: &mut [T], k: usize, x: T)
    ensures { out.new ≡ set out.old k x }
{
    if k < out.len() {
        out[k] = x;
    }
}

#[tactic(auto, unfolding(meaning_numbers::specs::Order::within))]
fn in_limits(z: i64) -> bool
    ensures { result ≡ value_in z }
{
    LEAST <= z && z <= GREATEST
}

// One value more.
#[tactic(auto, unfolding(crate::specs::Keep::values_more))]
fn counted(v: Values, z: i64) -> Values
    requires { v.count < 2 ^ 63 }
    ensures { result ≡ values_more v z }
{
    let count = v.count + 1;
    if v.inside == v.count && in_limits(z) {
        return Values {
            count,
            inside: count,
        };
    }
    Values {
        count,
        inside: v.inside,
    }
}

fn in_series(p: Field) -> bool
    ensures { result ≡ of_series p }
{
    matches!(p, Field::Item | Field::Entry)
}

fn in_query(p: Field) -> bool
    ensures { result ≡ of_query p }
{
    matches!(p, Field::Asked)
}

// The value is kept and counted, where it is one of these.
fn kept(v: Values, z: i64, wanted: bool, out: &mut [i32]) -> Values
    requires { v.count < 2 ^ 63 }
    ensures value { result ≡ cond wanted (values_more v z) v }
    ensures out_after { out.new ≡ cond wanted (set out.old v.count (clamp z)) out.old }
{
    if !wanted {
        return v;
    }
    put(out, v.count, narrow(z));
    counted(v, z)
}

// The place of a single number of the program's lines: window, width, merge, b, E, a, h; no place of the eight for a value of the series or the query.
fn number_place(p: Field) -> usize
    ensures { result ≡ place_of p }
{
    match p {
        Field::Window => 0,
        Field::Width => 1,
        Field::Merge => 2,
        Field::Band => 3,
        Field::Threshold => 4,
        Field::Scale => 5,
        Field::Shift => 6,
        Field::Item | Field::Asked | Field::Entry => 8,
    }
}

// The kind's place is the last of the eight; no other word has one.
fn kind_place(w: Word) -> usize
    ensures { result ≡ word_place w }
{
    match w {
        Word::Raw | Word::Normal => 7,
        _ => 8,
    }
}

// A raw query is 1, any other 0.
fn kind_number(w: Word) -> i64
    ensures { result ≡ word_number w }
{
    match w {
        Word::Raw => 1,
        _ => 0,
    }
}

// Reads on: a piece of the text that stands behind `p`. An `Err` is the place of the text's first bad byte.
pub fn feed(
    p: Progress,
    piece: &[u8],
    numbers: &mut [i64],
    series: &mut [i32],
    query: &mut [i32],
) -> Result<Progress, usize>
    requires { Ready p (length piece.now) }
    ensures good_feeding { GoodFeeding (p.at + length piece.now) result }
    ensures comes { (g : Said) (kept asked : List ℤ) → Comes p g kept asked piece.now numbers.old series.old query.old result numbers.new series.new query.new }
{
    let mut s = p.state;
    let mut v = p.series;
    let mut q = p.query;
    for (i, &b) in piece.iter().enumerate() {
        match line_step(s, b) {
            Moved::To(n) => s = n,
            Moved::Value(n, place, z) => {
                put(numbers, number_place(place), z);
                v = kept(v, z, in_series(place), series);
                q = kept(q, z, in_query(place), query);
                s = n;
            }
            Moved::Ended(n, w) => {
                put(numbers, kind_place(w), kind_number(w));
                s = n;
            }
            Moved::Refuse => return Err(p.at + i),
        }
    }
    Ok(Progress {
        state: s,
        at: p.at + piece.len(),
        series: v,
        query: q,
    })
}
