// Reading an index text into lent buffers (01, Text and program): a pass that judges the text, and where nothing refuses a pass that puts its runs into the run buffer and one that puts its rows into the row records. What is not used of the buffers is made 0 at once. A refusal alters nothing.
#![tactic(auto)]

ghost use Rattle.std.specs.Prelude.{◌≡◌, ◌<◌, ◌≤◌, length, set};
ghost use Rattle.meaning_entries.specs.Demand2.{LoadKept};
ghost use Rattle.refusals.specs.Refusal.{verdict};
ghost use Rattle.text_event.specs.Event.{RunsFrom};
ghost use Rattle.entry_read.specs.Runs.{tell_columns, run_stored, FilledRuns};
ghost use Rattle.entry_read.specs.Plan.{rows_table, fit_plan, plan_for, Loads};

use meaning_entries::{Held, Reason, Refusal};
use meaning_rows::{Head, Row};
use numbers::hold;
use refusals::{refuse_if, refuse_judged};
use rows_records::clear_rows;
use text_event::{Event, next_event, plain_run, run_left, run_length, run_right};
use text_index::{Field, State, Turn, Word};
use text_judge::{Rows, judged_rows, scan};
use text_rows::{bad_line, fill_rows};

// The left end of the last run that is stored, how many there are, and the place behind it in the text.
#[derive(Clone, Copy)]
pub struct Stored {
    pub left: u32,
    pub count: usize,
    pub at: usize,
}

// What refuses a text that can be read, where there is room for so many rows and runs.
fn refuse_rows(head: Head, c: Rows, rows: usize, runs: usize) -> Result<(), Refusal>
    ensures { result ≡ verdict (rows_table head c rows runs) }
{
    refuse_judged(judged_rows(head, c))?;
    refuse_if(rows < c.rows, Reason::Room)?;
    refuse_if(runs < c.runs, Reason::Room)
}

// The plan for such a text.
fn plan_fine(head: Head, c: Rows, rows: usize, runs: usize) -> Result<Held, Refusal>
    ensures { result ≡ fit_plan head c rows runs }
{
    refuse_rows(head, c, rows, runs)?;
    Ok(Held {
        head,
        rows: c.rows,
        runs: c.runs,
    })
}

// The plan for a text, before anything is stored: what refuses it, or the index that the buffers will hold.
pub fn make_plan(text: &[u8], rows: usize, runs: usize) -> Result<Held, Refusal>
    ensures { result ≡ plan_for text.now rows runs }
{
    match scan(text) {
        Ok((head, c)) => plan_fine(head, c, rows, runs),
        Err(at) => Err(Refusal::at(Reason::Text, bad_line(text, at))),
    }
}

// x is put at place k, where the buffer has it.
fn put(out: &mut [u32], k: usize, x: u32)
    ensures { out.new ≡ set out.old k x }
{
    // Not by `get_mut`: of a slice it promises nothing about the other entries.
    if k < out.len() {
        out[k] = x;
    }
}

// A run is put at place k, and behind it the runs from a place of the text on, as far as they are small.
fn put_runs(
    text: &[u8],
    at: usize,
    k: usize,
    l: u32,
    r: u32,
    left: &mut [u32],
    right: &mut [u32],
) -> Stored
    requires { (k < at) × (at ≤ length text.now) }
    ensures { RunsFrom tell_columns text.now (run_stored l r k left.old right.old) at (record { left = result.left; count = result.count; lefts = left.new; rights = right.new }) result.at }
{
    put(left, k, l);
    put(right, k, r);
    let mut last = l;
    let mut n = k + 1;
    let mut i = at;
    while let Some(q) = plain_run(text, i) {
        last = run_left(q);
        put(left, n, last);
        put(right, n, run_right(q));
        n += 1;
        i += run_length(q);
    }
    Stored {
        left: last,
        count: n,
        at: i,
    }
}

// The runs of a text, one after the other.
pub fn fill_runs(text: &[u8], left: &mut [u32], right: &mut [u32])
    ensures { FilledRuns text.now left.old right.old left.new right.new }
{
    let mut s = State::In(Word::Window, 0);
    let mut l: u32 = 0;
    let mut k: usize = 0;
    let mut i: usize = 0;
    // A `loop`: the next place comes out of the event at hand.
    loop {
        match next_event(text, s, i) {
            Event::Row(_, _, a, b, at) => {
                let w = put_runs(text, at, k, a, b, left, right);
                s = State::Before(Turn::Runs);
                l = w.left;
                k = w.count;
                i = w.at;
            }
            Event::Run(a, b, at) => {
                let w = put_runs(text, at, k, a, b, left, right);
                l = w.left;
                k = w.count;
                i = w.at;
            }
            Event::Value(n, p, z, at) => {
                match p {
                    Field::Left => l = hold(z),
                    Field::Right => {
                        put(left, k, l);
                        put(right, k, hold(z));
                        k += 1;
                    }
                    _ => {}
                }
                s = n;
                i = at;
            }
            Event::Closed(n, at) => {
                s = n;
                i = at;
            }
            Event::Refuse(_, _) => return,
            Event::End(_, _) => return,
        }
    }
}

// The plan for a text, and where nothing refuses its runs in the run buffer.
pub fn load_runs(
    text: &[u8],
    rows: usize,
    left: &mut [u32],
    right: &mut [u32],
) -> Result<Held, Refusal>
    ensures { Loads text.now rows left.old right.old result left.new right.new }
{
    let plan = make_plan(text, rows, left.len().min(right.len()))?;
    left.fill(0);
    right.fill(0);
    fill_runs(text, left, right);
    Ok(plan)
}

// An index text becomes an index in lent buffers.
pub fn read(
    text: &[u8],
    rows: &mut [Row],
    left: &mut [u32],
    right: &mut [u32],
) -> Result<Held, Refusal>
    ensures { LoadKept text.now (record { rows = rows.old; left = left.old; right = right.old }) result (record { rows = rows.new; left = left.new; right = right.new }) }
{
    let held = load_runs(text, rows.len(), left, right)?;
    clear_rows(rows, held.rows);
    fill_rows(text, held.rows, rows);
    Ok(held)
}
