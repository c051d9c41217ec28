// The series line of the audit of two texts, read as a whole: whether it can be read, how many values it has, and as many of them as there is room for, clamped to 32 bits.
#![tactic(auto)]

ghost use Rattle.std.specs.Prelude.{◌≡◌};
ghost use Rattle.meaning_text.specs.Read.{read_text};
ghost use Rattle.meaning_text.specs.Texts.{series_form};
ghost use Rattle.payout_line.specs.Line.{start_line, line_end, line_read, Stored};

use text_feed::{Progress, Values, feed};
use text_lines::{State, Word};

// Nothing has been read.
fn line_start() -> Progress
    ensures { result ≡ start_line }
{
    let none = Values {
        count: 0,
        inside: 0,
    };
    Progress {
        state: State::In(Word::Line, 0),
        at: 0,
        series: none,
        query: none,
    }
}

// The end of a line of `at` bytes with so many values.
fn line_end(s: State, at: usize, count: usize) -> Result<usize, usize>
    ensures { result ≡ line_end s at count }
{
    match s {
        State::In(_, _) | State::At(_, _) | State::Before(_) => Err(at),
        State::Done => Ok(count),
    }
}

// A whole line: how many values it has; an `Err` is the place of its first bad byte.
pub fn read_line(line: &[u8], values: &mut [i32]) -> Result<usize, usize>
    ensures value { result ≡ line_read (read_text series_form line.now) }
    ensures stored { Stored line.now values.old values.new }
{
    let mut numbers = [0; 8];
    numbers[7] = 1;
    let mut query = [0];
    let p = feed(line_start(), line, &mut numbers, values, &mut query)?;
    line_end(p.state, p.at, p.series.count)
}
