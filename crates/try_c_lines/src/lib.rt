// The program's lines and the series line read in pieces, for C: for the comparison under tests/ and for nothing else. What is told and kept is said in specs/Lines.antt.
#![tactic(auto)]

ghost use Rattle.std.specs.Prelude.{◌≡◌, ◌+◌, ◌≤◌, min, length};
ghost use Rattle.meaning_text.specs.Read.{line_of};
ghost use Rattle.try_c_lines.specs.Told.{bad_line, good_told, end_told, answer_told, LinesTold};
ghost use Rattle.try_c_lines.specs.Piece.{begun, Stands, Fed};

use text_feed::{Progress, Values, feed};
use text_lines::{State, Word};
use text_reader::bad_line;

// What was read: the first bad line, 0 where there is none; how many values the series and the query have, and how many of each stand before the first that is outside its limits.
#[repr(C)]
#[derive(Clone, Copy)]
pub struct Lines {
    pub line: usize,
    pub series: usize,
    pub inside: usize,
    pub asked: usize,
    pub within: usize,
}

// Nothing has been read of the program's lines, or of a series line.
fn begin(program: bool) -> Progress
    ensures { result ≡ begun program }
{
    let none = Values {
        count: 0,
        inside: 0,
    };
    let word = if program { Word::Window } else { Word::Line };
    Progress {
        state: State::In(word, 0),
        at: 0,
        series: none,
        query: none,
    }
}

// A text whose first bad byte stands at a place, or is due there.
fn bad(text: &[u8], at: usize) -> Lines
    ensures { result ≡ bad_line (line_of text.now at) }
{
    Lines {
        line: bad_line(text, at),
        series: 0,
        inside: 0,
        asked: 0,
        within: 0,
    }
}

fn fine(p: Progress) -> Lines
    ensures { result ≡ good_told p }
{
    let s = p.series;
    let q = p.query;
    Lines {
        line: 0,
        series: s.count,
        inside: s.inside,
        asked: q.count,
        within: q.inside,
    }
}

// The text has ended.
fn ended(text: &[u8], p: Progress) -> Lines
    ensures { result ≡ end_told text.now p p.state }
{
    match p.state {
        State::Done => fine(p),
        _ => bad(text, p.at),
    }
}

fn answer(text: &[u8], read: Result<Progress, usize>) -> Lines
    ensures { result ≡ answer_told text.now read }
{
    match read {
        Ok(p) => ended(text, p),
        Err(at) => bad(text, at),
    }
}

// Where a piece of this size ends that begins at a place.
fn piece_end(at: usize, size: usize, length: usize) -> usize
    requires { at ≤ length }
    ensures { result ≡ min (at + size) length }
{
    at + size.min(length - at)
}

// The next piece of a text, of this size or shorter.
fn piece(
    p: Progress,
    text: &[u8],
    size: usize,
    numbers: &mut [i64],
    series: &mut [i32],
    query: &mut [i32],
) -> Result<Progress, usize>
    requires { Stands (length text.now) p }
    ensures { Fed text.now (min (p.at + size) (length text.now)) p result numbers.old series.old query.old numbers.new series.new query.new }
{
    let at = p.at;
    let end = piece_end(at, size, text.len());
    feed(p, &text[at..end], numbers, series, query)
}

// The program's lines, or a series line, in pieces of these sizes, and what is left as the last. What is promised is promised where `numbers` came as nothing had been said: seven times 0, then 1. Free is what the buffers hold after a bad line.
#[unsafe(no_mangle)]
pub extern "C" fn lines_read(
    text: &[u8],
    program: bool,
    sizes: &[usize],
    numbers: &mut [i64],
    series: &mut [i32],
    query: &mut [i32],
) -> Lines
    ensures { LinesTold program text.now numbers.old series.old query.old result numbers.new series.new query.new }
{
    let mut p = begin(program);
    for k in 0..sizes.len() {
        match piece(p, text, sizes[k], numbers, series, query) {
            Ok(n) => {
                p = n;
            }
            Err(place) => {
                return bad(text, place);
            }
        }
    }
    answer(text, piece(p, text, text.len(), numbers, series, query))
}
