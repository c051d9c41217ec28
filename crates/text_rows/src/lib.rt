// The rows of an index text put into lent row records, in one pass over its bytes: each record when its line is read, and records of zeros past the last.
// A row is read through the reader, which holds the text and where it stands (`next_row`); every caller without a reader has `next_line`.
#![tactic(auto)]

ghost use Rattle.std.specs.Prelude.{◌≡◌, ◌<◌, ◌≤◌, min, pos, length};
ghost use Rattle.text_rows.specs.Line.{row_made, line_end, no_line, row_from, next_line, Ready, stored};

use meaning_rows::Row;
use rows_records::zero_row;
use text_event::{Event, next_event};
use text_index::{State, Turn, Word};
use text_judge::{Tally, no_tally, shut, tell, tell_row, tell_run, tell_runs};
pub use text_reader::bad_line;
use text_reader::{Reader, reader_of};

// A text up to the end of a row: where it stands, what is known so far, and the row; a row of zeros where none was left.
#[derive(Clone, Copy)]
pub struct Line {
    pub state: State,
    pub at: usize,
    pub tally: Tally,
    pub row: Row,
}

// A count as a u32 holds it.
fn short(n: usize) -> u32
    ensures { result ≡ min n 4294967295 }
{
    u32::try_from(n).unwrap_or(u32::MAX)
}

// The record of the row that is open.
#[tactic(auto, unfolding(crate::specs::Line::row_made))]
fn make_row(t: Tally) -> Row
    ensures { result ≡ row_made t }
{
    Row {
        low: t.row.low,
        up: t.row.up,
        first: short(t.rows.runs),
        runs: short(t.row.runs.count),
    }
}

fn line_end(s: State, at: usize, t: Tally) -> Line
    ensures { result ≡ record { state = s; at = at; tally = t; row = record { low = pos 0; up = pos 0; first = 0; runs = 0 } } }
{
    Line {
        state: s,
        at,
        tally: t,
        row: zero_row(),
    }
}

// Nothing has been read.
pub fn no_line() -> Line
    ensures { result ≡ no_line }
{
    line_end(State::In(Word::Window, 0), 0, no_tally())
}

// Reads on from place `at` to the end of the next row.
fn row_from(text: &[u8], at: usize, s: State, t: Tally) -> Line
    requires { Ready (length text.now) (line_end s at t) }
    ensures { result ≡ row_from text.now at s t }
{
    let mut state = s;
    let mut tally = t;
    let mut i = at;
    // A `loop`: the next place comes out of the event at hand.
    loop {
        match next_event(text, state, i) {
            Event::Row(low, up, l, r, j) => {
                let w = tell_runs(text, tell_row(tally, low, up, l, r), j);
                state = State::Before(Turn::Runs);
                tally = w.tally;
                i = w.at;
            }
            Event::Run(l, r, j) => {
                let w = tell_runs(text, tell_run(tally, l, r), j);
                tally = w.tally;
                i = w.at;
            }
            Event::Value(n, q, z, j) => {
                state = n;
                tally = tell(tally, q, z);
                i = j;
            }
            Event::Closed(n, j) => {
                return Line {
                    state: n,
                    at: j,
                    tally: shut(tally),
                    row: make_row(tally),
                };
            }
            // one pattern for both would not know what the event promises
            Event::Refuse(n, j) => return line_end(n, j, tally),
            Event::End(n, j) => return line_end(n, j, tally),
        }
    }
}

// A reader reads on to the end of the next row.
pub fn next_row<'a>(r: Reader<'a>, s: State, t: Tally) -> Line
    requires { Ready (length r.text.now) (line_end s r.at t) }
    ensures { result ≡ row_from r.entry.text.now r.entry.at s t }
{
    row_from(r.text, r.at, s, t)
}

// The line after a line: the text is read on from where that one ended.
pub fn next_line(text: &[u8], p: Line) -> Line
    requires { Ready (length text.now) p }
    ensures { result ≡ next_line text.now p }
{
    next_row(reader_of(text, p.at), p.state, p.tally)
}

// The row that a line ended with.
pub fn line_row(p: Line) -> Row
    ensures { result ≡ p.row }
{
    p.row
}

// The first `to` records are those of the text, as far as it has rows, and then records of zeros.
pub fn fill_rows(text: &[u8], to: usize, rows: &mut [Row])
    requires { to ≤ length rows.old }
    ensures { rows.new ≡ stored text.now to rows.old }
{
    let mut p = no_line();
    for k in 0..to {
        p = next_line(text, p);
        rows[k] = line_row(p);
    }
}
