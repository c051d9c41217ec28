// The series line and the five lines of the search program read byte by byte: the state is a value, and what the text says comes as events.
// `text_index` has the same shape over other words. Each stands by itself, since the laws above name its states.
#![tactic(auto)]

ghost use Rattle.std.specs.Prelude.{◌≡◌, ◌<◌, length};
ghost use Rattle.text_numbers.specs.Number.{NumGood};
ghost use Rattle.text_lines.specs.Step.{word, behind, turn_after, pick, reach, word_step, turn_step, end_step, number_step, line_step, GoodState};

use text_numbers::{Numeral, number_step, number_value};

// The fixed words: the program's, those of a series line by itself, and a single space in front of a number.
#[derive(Clone, Copy)]
pub enum Word {
    Window,
    Width,
    Merge,
    Series,
    Find,
    Raw,
    Normal,
    Query,
    End,
    Line,
    LineEnd,
    Space(Field),
}

// The numbers: the program's, with the values of its series and of its query, and the values of a series line by itself.
#[derive(Clone, Copy)]
pub enum Field {
    Window,
    Width,
    Merge,
    Item,
    Band,
    Threshold,
    Scale,
    Shift,
    Asked,
    Entry,
}

// What may come next: one word only; a value of the series or the next line; the kind; a value of the query or the end; a value of a series line or its end.
#[derive(Clone, Copy)]
pub enum Turn {
    One(Word),
    Series,
    Kind,
    Query,
    Line,
}

// How far a text has been read: in a word before its byte k; in a number; between two words; at the end.
#[derive(Clone, Copy)]
pub enum State {
    In(Word, usize),
    At(Field, Numeral),
    Before(Turn),
    Done,
}

// What a byte does to a text: it goes on; it ended a number; it ended a word of more than one byte; no text could have it there.
// Four cases: an Option of three would wrap each arm of the matches.
#[derive(Clone, Copy)]
pub enum Moved {
    To(State),
    Value(State, Field, i64),
    Ended(State, Word),
    Refuse,
}

// The bytes of a word.
#[tactic(auto, unfolding(crate::specs::Step::word, meaning_text::specs::Bytes::bytes))]
fn letters(w: Word) -> &'static [u8]
    ensures { result.now ≡ word w }
{
    match w {
        Word::Window => b"(window ",
        Word::Width => b")\n(width ",
        Word::Merge => b")\n(merge ",
        Word::Series => b")\n(series",
        Word::Find => b")\n(find ",
        Word::Raw => b"raw",
        Word::Normal => b"normal",
        Word::Query => b" (query",
        Word::End => b"))\n",
        Word::Line => b"(series",
        Word::LineEnd => b")\n",
        Word::Space(_) => b" ",
    }
}

// The state behind a word.
#[tactic(auto, unfolding(crate::specs::Step::behind))]
fn word_end(w: Word) -> State
    ensures { result ≡ behind w }
{
    match w {
        Word::Window => State::At(Field::Window, Numeral::Start),
        Word::Width => State::At(Field::Width, Numeral::Start),
        Word::Merge => State::At(Field::Merge, Numeral::Start),
        Word::Series => State::Before(Turn::Series),
        Word::Find => State::Before(Turn::Kind),
        Word::Raw => State::Before(Turn::One(Word::Space(Field::Band))),
        Word::Normal => State::Before(Turn::One(Word::Space(Field::Band))),
        Word::Query => State::Before(Turn::Query),
        Word::End => State::Done,
        Word::Line => State::Before(Turn::Line),
        Word::LineEnd => State::Done,
        Word::Space(p) => State::At(p, Numeral::Start),
    }
}

// What may come behind a number.
#[tactic(auto, unfolding(crate::specs::Step::turn_after))]
fn number_end(p: Field) -> Turn
    ensures { result ≡ turn_after p }
{
    match p {
        Field::Window => Turn::One(Word::Width),
        Field::Width => Turn::One(Word::Merge),
        Field::Merge => Turn::One(Word::Series),
        Field::Item => Turn::Series,
        Field::Band => Turn::One(Word::Space(Field::Threshold)),
        Field::Threshold => Turn::One(Word::Space(Field::Scale)),
        Field::Scale => Turn::One(Word::Space(Field::Shift)),
        Field::Shift => Turn::One(Word::Query),
        Field::Asked => Turn::Query,
        Field::Entry => Turn::Line,
    }
}

// The only word that could begin with the byte.
#[tactic(auto, unfolding(crate::specs::Step::pick))]
fn picked(t: Turn, b: u8) -> Word
    ensures { result ≡ pick t b }
{
    match t {
        Turn::One(w) => w,
        Turn::Series if b == b' ' => Word::Space(Field::Item),
        Turn::Series => Word::Find,
        Turn::Kind if b == b'r' => Word::Raw,
        Turn::Kind => Word::Normal,
        Turn::Query if b == b' ' => Word::Space(Field::Asked),
        Turn::Query => Word::End,
        Turn::Line if b == b' ' => Word::Space(Field::Entry),
        Turn::Line => Word::LineEnd,
    }
}

// Where byte k of the word leads, if the byte is it.
#[tactic(auto, unfolding(crate::specs::Step::reach))]
fn arrive(w: Word, k: usize, b: u8) -> Option<State>
    requires { k < length (word w) }
    ensures { result ≡ reach w k b }
{
    let word = letters(w);
    if b != word[k] {
        return None;
    }
    if k + 1 < word.len() {
        return Some(State::In(w, k + 1));
    }
    Some(word_end(w))
}

#[tactic(auto, unfolding(crate::specs::Step::word_step))]
fn step_word(w: Word, k: usize, b: u8) -> Moved
    requires { k < length (word w) }
    ensures { result ≡ word_step w k b }
{
    let word = letters(w);
    match arrive(w, k, b) {
        Some(s) if k + 1 < word.len() => Moved::To(s),
        Some(s) => Moved::Ended(s, w),
        None => Moved::Refuse,
    }
}

#[tactic(auto, unfolding(crate::specs::Step::turn_step))]
fn step_turn(t: Turn, b: u8) -> Moved
    ensures { result ≡ turn_step t b }
{
    match arrive(picked(t, b), 0, b) {
        Some(s) => Moved::To(s),
        None => Moved::Refuse,
    }
}

// The byte behind a number that has ended.
#[tactic(auto, unfolding(crate::specs::Step::end_step))]
fn step_end(p: Field, z: i64, b: u8) -> Moved
    ensures { result ≡ end_step p z b }
{
    match arrive(picked(number_end(p), b), 0, b) {
        Some(s) => Moved::Value(s, p, z),
        None => Moved::Refuse,
    }
}

#[tactic(auto, unfolding(crate::specs::Step::number_step))]
fn step_number(p: Field, n: Numeral, b: u8) -> Moved
    requires { NumGood n }
    ensures { result ≡ number_step p n b }
{
    match number_step(n, b) {
        Some(m) => Moved::To(State::At(p, m)),
        None => match number_value(n) {
            Some(z) => step_end(p, z, b),
            None => Moved::Refuse,
        },
    }
}

// What the byte b does to a text.
#[tactic(auto, unfolding(crate::specs::Step::line_step))]
pub fn line_step(s: State, b: u8) -> Moved
    requires { GoodState s }
    ensures { result ≡ line_step s b }
{
    match s {
        State::In(w, k) => step_word(w, k, b),
        State::At(p, n) => step_number(p, n, b),
        State::Before(t) => step_turn(t, b),
        State::Done => Moved::Refuse,
    }
}
