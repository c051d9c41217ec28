// The index text read byte by byte, `(index (window 2) (width 2) (windows 4)`, rows, `)`: the state is a value, and what the text says comes as events.
// `text_lines` has the same shape over other words. Each stands by itself, since the laws above name its states.
#![tactic(auto)]

ghost use Rattle.std.specs.Prelude.{◌≡◌, ◌<◌, length};
ghost use Rattle.text_numbers.specs.Number.{NumGood};
ghost use Rattle.text_index.specs.Step.{word, behind, turn_after, pick, reach, closes, word_step, turn_step, end_step, number_step, index_step, GoodState};

use text_numbers::{Numeral, number_step, number_value};

// The fixed words, by what stands behind each: a number, a row or the end, a run or the row's end.
#[derive(Clone, Copy)]
pub enum Word {
    Window,
    Width,
    Windows,
    Head,
    Row,
    Up,
    Run,
    Right,
    RunEnd,
    RowEnd,
    End,
}

// The numbers.
#[derive(Clone, Copy)]
pub enum Field {
    Window,
    Width,
    Windows,
    Low,
    Up,
    Left,
    Right,
}

// What may come next: one word only; a row or the end; a run or the row's end.
#[derive(Clone, Copy)]
pub enum Turn {
    One(Word),
    Rows,
    Runs,
}

// How far a text has been read: in a word before its byte k; in a number; between two words; at the end.
#[derive(Clone, Copy)]
pub enum State {
    In(Word, usize),
    At(Field, Numeral),
    Before(Turn),
    Done,
}

// What a byte does to a text: it goes on; it ended a number; it ended a row; no text could have it there.
// Four cases: an Option of three would wrap each arm of the matches.
#[derive(Clone, Copy)]
pub enum Moved {
    To(State),
    Value(State, Field, i64),
    Closed(State),
    Refuse,
}

// The bytes of a word.
#[tactic(auto, unfolding(crate::specs::Step::word, meaning_text::specs::Bytes::bytes))]
fn letters(w: Word) -> &'static [u8]
    ensures { result.now ≡ word w }
{
    match w {
        Word::Window => b"(index (window ",
        Word::Width => b") (width ",
        Word::Windows => b") (windows ",
        Word::Head => b")\n",
        Word::Row => b"(row ",
        Word::Up => b" ",
        Word::Run => b" (",
        Word::Right => b" ",
        Word::RunEnd => b")",
        Word::RowEnd => b")\n",
        Word::End => b")\n",
    }
}

// The state behind a word.
#[tactic(auto, unfolding(crate::specs::Step::behind))]
fn word_end(w: Word) -> State
    ensures { result ≡ behind w }
{
    match w {
        Word::Window => State::At(Field::Window, Numeral::Start),
        Word::Width => State::At(Field::Width, Numeral::Start),
        Word::Windows => State::At(Field::Windows, Numeral::Start),
        Word::Head => State::Before(Turn::Rows),
        Word::Row => State::At(Field::Low, Numeral::Start),
        Word::Up => State::At(Field::Up, Numeral::Start),
        Word::Run => State::At(Field::Left, Numeral::Start),
        Word::Right => State::At(Field::Right, Numeral::Start),
        Word::RunEnd => State::Before(Turn::Runs),
        Word::RowEnd => State::Before(Turn::Rows),
        Word::End => State::Done,
    }
}

// What may come behind a number.
#[tactic(auto, unfolding(crate::specs::Step::turn_after))]
fn number_end(p: Field) -> Turn
    ensures { result ≡ turn_after p }
{
    match p {
        Field::Window => Turn::One(Word::Width),
        Field::Width => Turn::One(Word::Windows),
        Field::Windows => Turn::One(Word::Head),
        Field::Low => Turn::One(Word::Up),
        Field::Up => Turn::Runs,
        Field::Left => Turn::One(Word::Right),
        Field::Right => Turn::One(Word::RunEnd),
    }
}

// The only word that could begin with the byte.
#[tactic(auto, unfolding(crate::specs::Step::pick))]
fn picked(t: Turn, b: u8) -> Word
    ensures { result ≡ pick t b }
{
    match t {
        Turn::One(w) => w,
        Turn::Rows if b == b'(' => Word::Row,
        Turn::Rows => Word::End,
        Turn::Runs if b == b' ' => Word::Run,
        Turn::Runs => Word::RowEnd,
    }
}

// Where byte k of the word leads, if the byte is it.
#[tactic(auto, unfolding(crate::specs::Step::reach))]
fn arrive(w: Word, k: usize, b: u8) -> Option<State>
    requires { k < length (word w) }
    ensures { result ≡ reach w k b }
{
    let word = letters(w);
    if b != word[k] {
        return None;
    }
    if k + 1 < word.len() {
        return Some(State::In(w, k + 1));
    }
    Some(word_end(w))
}

// Byte k of the word ends a row.
#[tactic(auto, unfolding(crate::specs::Step::closes))]
fn ends_row(w: Word, k: usize) -> bool
    ensures { result ≡ closes w k }
{
    matches!(w, Word::RowEnd) && k == 1
}

#[tactic(auto, unfolding(crate::specs::Step::word_step))]
fn step_word(w: Word, k: usize, b: u8) -> Moved
    requires { k < length (word w) }
    ensures { result ≡ word_step w k b }
{
    match arrive(w, k, b) {
        Some(s) if ends_row(w, k) => Moved::Closed(s),
        Some(s) => Moved::To(s),
        None => Moved::Refuse,
    }
}

#[tactic(auto, unfolding(crate::specs::Step::turn_step))]
fn step_turn(t: Turn, b: u8) -> Moved
    ensures { result ≡ turn_step t b }
{
    match arrive(picked(t, b), 0, b) {
        Some(s) => Moved::To(s),
        None => Moved::Refuse,
    }
}

// The byte behind a number that has ended.
#[tactic(auto, unfolding(crate::specs::Step::end_step))]
fn step_end(p: Field, z: i64, b: u8) -> Moved
    ensures { result ≡ end_step p z b }
{
    match arrive(picked(number_end(p), b), 0, b) {
        Some(s) => Moved::Value(s, p, z),
        None => Moved::Refuse,
    }
}

#[tactic(auto, unfolding(crate::specs::Step::number_step))]
fn step_number(p: Field, n: Numeral, b: u8) -> Moved
    requires { NumGood n }
    ensures { result ≡ number_step p n b }
{
    match number_step(n, b) {
        Some(m) => Moved::To(State::At(p, m)),
        None => match number_value(n) {
            Some(z) => step_end(p, z, b),
            None => Moved::Refuse,
        },
    }
}

// What the byte b does to a text.
#[tactic(auto, unfolding(crate::specs::Step::index_step))]
pub fn index_step(s: State, b: u8) -> Moved
    requires { GoodState s }
    ensures { result ≡ index_step s b }
{
    match s {
        State::In(w, k) => step_word(w, k, b),
        State::At(p, n) => step_number(p, n, b),
        State::Before(t) => step_turn(t, b),
        State::Done => Moved::Refuse,
    }
}
