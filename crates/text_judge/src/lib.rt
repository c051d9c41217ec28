// Judging an index text in one pass over its bytes, whatever its length: whether it can be read, how many rows and runs it has, and the first bad row of its index (01, Rows). Nothing is kept of a row that is closed but where it ended.
#![tactic(auto)]

ghost use Rattle.std.specs.Prelude.{◌≡◌, ◌+◌, ◌<◌, ◌≤◌, ◌^◌, length};
ghost use Rattle.meaning_text.specs.Read.{read_text};
ghost use Rattle.meaning_text.specs.Texts.{index_form};
ghost use Rattle.meaning_text.proofs.Automaton.{at_end};
ghost use Rattle.text_index.specs.declared.Field.{Field};
ghost use Rattle.text_index.specs.View.{kept_at};
ghost use Rattle.text_event.specs.Event.{RunsFrom};
ghost use Rattle.text_judge.specs.Tally.{no_runs, run_next, Sound, no_rows, row_next, with_head, with_open, tell_tally, shut_tally, told_run, Fits, start_tally, scanned, kept_scanned};
ghost use Rattle.text_judge.specs.Judged.{judged_rows};

use meaning_curves::LOWEST_END;
use meaning_rows::{Head, Row};
use numbers::{hold, narrow};
use rows_judge::{head_good, range_good, run_good, total_good};
use text_event::{Event, next_event, plain_run, run_left, run_length, run_right};
use text_index::{Field, State, Turn, Word};

// The runs of a row so far: how many, that they are good, the least left end that the next may have, and their lengths added up. Whether they are good is a flag: they are counted in either case.
#[derive(Clone, Copy)]
pub struct Runs {
    pub count: usize,
    pub good: bool,
    pub least: u64,
    pub total: usize,
}

// The row that is open: its range, the left end of the run that is open, and its runs.
#[derive(Clone, Copy)]
pub struct Open {
    pub low: i32,
    pub up: i32,
    pub left: u32,
    pub runs: Runs,
}

// The rows that are closed: that they are good, how many, how many runs they have, where the last one's range ends, and their run lengths added up. After a bad row nothing is counted on, and what was counted tells which it is: so a flag.
#[derive(Clone, Copy)]
pub struct Rows {
    pub good: bool,
    pub rows: usize,
    pub runs: usize,
    pub least: i32,
    pub taken: usize,
}

// What is known of a text so far.
#[derive(Clone, Copy)]
pub struct Tally {
    pub head: Head,
    pub rows: Rows,
    pub row: Open,
}

// What is known of a text up to a place.
#[derive(Clone, Copy)]
pub struct TallyAt {
    pub tally: Tally,
    pub at: usize,
}

pub fn no_runs() -> Runs
    ensures { result ≡ no_runs }
{
    Runs {
        count: 0,
        good: true,
        least: 0,
        total: 0,
    }
}

pub fn no_rows() -> Rows
    ensures { result ≡ no_rows }
{
    Rows {
        good: true,
        rows: 0,
        runs: 0,
        least: LOWEST_END,
        taken: 0,
    }
}

// One run more.
#[tactic(auto, unfolding(crate::specs::Tally::run_next))]
pub fn more_run(windows: u32, s: Runs, l: u32, r: u32) -> Runs
    requires sound { Sound s }
    requires count_bound { s.count < 2 ^ 63 }
    ensures { result ≡ run_next windows s l r }
{
    let count = s.count + 1;
    let fine = run_good(windows as u64, s.least, l as u64, r as u64);
    if s.good && fine {
        return Runs {
            count,
            good: true,
            least: r as u64 + 2,
            total: s.total + (r as usize + 1 - l as usize),
        };
    }
    Runs {
        count,
        good: false,
        least: 0,
        total: 0,
    }
}

// The open row is closed.
#[tactic(auto, unfolding(crate::specs::Tally::row_next))]
pub fn close_row(head: Head, s: Rows, o: Open) -> Rows
    requires rows_bound { s.rows < 2 ^ 63 }
    requires count_bound { s.runs + o.runs.count < 2 ^ 63 }
    ensures { result ≡ row_next head s o.low o.up o.runs }
{
    let count = o.runs.count;
    let total = o.runs.total;
    let r = Row {
        low: o.low,
        up: o.up,
        first: 0,
        runs: 0,
    };
    let range = range_good(head, s.least, r);
    let most = total_good(head.windows as usize, s.taken, total);
    if s.good && range && 1 <= count && o.runs.good && most {
        return Rows {
            good: true,
            rows: s.rows + 1,
            runs: s.runs + count,
            least: o.up,
            taken: s.taken + total,
        };
    }
    Rows {
        good: false,
        rows: s.rows,
        runs: s.runs,
        least: 0,
        taken: 0,
    }
}

fn with_head(t: Tally, window: u32, width: u32, windows: u32) -> Tally
    ensures { result ≡ with_head (record { window = window; width = width; windows = windows }) t }
{
    Tally {
        head: Head {
            window,
            width,
            windows,
        },
        ..t
    }
}

fn with_row(t: Tally, low: i32, up: i32, left: u32, runs: Runs) -> Tally
    ensures { result ≡ with_open (record { low = low; up = up; left = left; runs = runs }) t }
{
    Tally {
        row: Open {
            low,
            up,
            left,
            runs,
        },
        ..t
    }
}

// What a number says.
#[tactic(auto, unfolding(crate::specs::Tally::tell_tally))]
pub fn tell(t: Tally, p: Field, z: i64) -> Tally
    requires sound { Sound t.row.runs }
    requires count_bound { t.row.runs.count < 2 ^ 63 }
    ensures { result ≡ tell_tally p z t }
{
    let h = t.head;
    let o = t.row;
    let runs = o.runs;
    match p {
        Field::Window => with_head(t, hold(z), h.width, h.windows),
        Field::Width => with_head(t, h.window, hold(z), h.windows),
        Field::Windows => with_head(t, h.window, h.width, hold(z)),
        Field::Low => with_row(t, narrow(z), o.up, o.left, runs),
        Field::Up => with_row(t, o.low, narrow(z), o.left, no_runs()),
        Field::Left => with_row(t, o.low, o.up, hold(z), runs),
        Field::Right => {
            let more = more_run(h.windows, runs, o.left, hold(z));
            with_row(t, o.low, o.up, o.left, more)
        }
    }
}

// What a run says.
pub fn tell_run(t: Tally, l: u32, r: u32) -> Tally
    requires sound { Sound t.row.runs }
    requires count_bound { t.row.runs.count < 2 ^ 63 }
    ensures { result ≡ told_run l r t }
{
    let o = t.row;
    let runs = more_run(t.head.windows, o.runs, l, r);
    with_row(t, o.low, o.up, l, runs)
}

// What a row's range and its first run say.
#[tactic(auto, unfolding(crate::specs::Tally::tell_tally))]
pub fn tell_row(t: Tally, low: i64, up: i64, l: u32, r: u32) -> Tally
    requires sound { Sound t.row.runs }
    requires count_bound { t.row.runs.count < 2 ^ 63 }
    ensures { result ≡ told_run l r (tell_tally Field.Up up (tell_tally Field.Low low t)) }
{
    tell_run(tell(tell(t, Field::Low, low), Field::Up, up), l, r)
}

// What the runs from a place on say, as far as they are small.
pub fn tell_runs(text: &[u8], t: Tally, at: usize) -> TallyAt
    requires { Fits t at × (at ≤ length text.now) }
    ensures { RunsFrom tell_tally text.now t at result.tally result.at }
{
    let mut tally = t;
    let mut i = at;
    while let Some(q) = plain_run(text, i) {
        tally = tell_run(tally, run_left(q), run_right(q));
        i += run_length(q);
    }
    TallyAt { tally, at: i }
}

// What a row's end says.
#[tactic(auto, unfolding(crate::specs::Tally::shut_tally))]
pub fn shut(t: Tally) -> Tally
    requires rows_bound { t.rows.rows < 2 ^ 63 }
    requires count_bound { t.rows.runs + t.row.runs.count < 2 ^ 63 }
    ensures { result ≡ shut_tally t }
{
    Tally {
        rows: close_row(t.head, t.rows, t.row),
        row: Open {
            runs: no_runs(),
            ..t.row
        },
        ..t
    }
}

// Nothing has been said.
pub fn no_tally() -> Tally
    ensures { result ≡ start_tally }
{
    Tally {
        head: Head {
            window: 0,
            width: 0,
            windows: 0,
        },
        rows: no_rows(),
        row: Open {
            low: 0,
            up: 0,
            left: 0,
            runs: no_runs(),
        },
    }
}

// The end of a text of `at` bytes.
fn scan_end(s: State, t: Tally, at: usize) -> Result<(Head, Rows), usize>
    ensures { result ≡ kept_scanned (at_end (kept_at s t) at) }
{
    match s {
        State::In(_, _) | State::At(_, _) | State::Before(_) => Err(at),
        State::Done => Ok((t.head, t.rows)),
    }
}

// A whole text: its head and rows; an `Err` is the place of its first bad byte.
pub fn scan(text: &[u8]) -> Result<(Head, Rows), usize>
    ensures { result ≡ scanned (read_text index_form text.now) }
{
    let mut s = State::In(Word::Window, 0);
    let mut t = no_tally();
    let mut i = 0;
    // A `loop`: the next place comes out of the event at hand.
    loop {
        match next_event(text, s, i) {
            Event::Row(low, up, l, r, at) => {
                let w = tell_runs(text, tell_row(t, low, up, l, r), at);
                s = State::Before(Turn::Runs);
                t = w.tally;
                i = w.at;
            }
            Event::Run(l, r, at) => {
                let w = tell_runs(text, tell_run(t, l, r), at);
                t = w.tally;
                i = w.at;
            }
            Event::Value(n, p, z, at) => {
                s = n;
                t = tell(t, p, z);
                i = at;
            }
            Event::Closed(n, at) => {
                s = n;
                t = shut(t);
                i = at;
            }
            Event::Refuse(_, at) => return Err(at),
            Event::End(n, at) => return scan_end(n, t, at),
        }
    }
}

// What judging a text said: how many windows stand in runs, or an `Err` with the first bad row, 0 for the head.
#[tactic(auto, unfolding(crate::specs::Judged::judged_rows))]
pub fn judged_rows(head: Head, c: Rows) -> Result<usize, usize>
    ensures { result ≡ judged_rows head c }
{
    if !head_good(head) {
        return Err(0);
    }
    if !c.good {
        return Err(c.rows);
    }
    Ok(c.taken)
}
