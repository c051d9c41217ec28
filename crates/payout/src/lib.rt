// The audit of an index text against a series line, for the C payout program (01, Text and program): both texts are read before anything is judged, the answer is packed into a number, and nothing is lent. Any bytes may be handed over.
#![tactic(auto)]

ghost use Rattle.std.specs.Prelude.{◌≡◌, ◌+◌, ◌*◌, ◌<◌, ◌≤◌, ◌^◌, length, Ok};
ghost use Rattle.meaning_curves.specs.Limits.{most_values, most_program_values};
ghost use Rattle.meaning_text.specs.Bytes.{newlines};
ghost use Rattle.meaning_text.specs.Read.{read_text};
ghost use Rattle.meaning_text.specs.Texts.{index_form};
ghost use Rattle.meaning_entries.specs.Load.{text_index};
ghost use Rattle.meaning_entries.specs.AuditText.{audit_text_answer, pack_refusal, pack};
ghost use Rattle.meaning_entries.specs.Demand2.{AuditTextKept};
ghost use Rattle.text_judge.specs.Tally.{scanned};
ghost use Rattle.payout.specs.Counted.{counted_answer};

use meaning_curves::{MOST_PROGRAM_VALUES, MOST_VALUES};
use meaning_entries::{Audited, Reason, Refusal};
use meaning_rows::Head;
use payout_answer::audit_series;
use payout_line::read_line;
use refusals::length_in;
use text_judge::{Rows, scan};
use text_reader::bad_line;

// What a row counts in the number of a window filed wrongly.
const VALUES: u64 = MOST_VALUES as u64;

// How many newlines a text has.
fn newline_count(text: &[u8]) -> usize
    ensures { result ≡ newlines text.now }
{
    bad_line(text, text.len()) - 1
}

// Both texts can be read, and the series has n values, of which the first 4,096 stand in the buffer.
fn audit_values(
    index: &[u8],
    head: Head,
    c: Rows,
    values: &[i32],
    n: usize,
) -> Result<Audited, Refusal>
    requires c_value { Ok (head, c) ≡ scanned (read_text index_form index.now) }
    requires most_program_values_in_bounds { most_program_values ≤ length values.now }
    ensures { result ≡ counted_answer (text_index index.now) values.now n }
{
    if !length_in(MOST_PROGRAM_VALUES, n) {
        return Err(Refusal::at(Reason::SeriesLength, 0));
    }
    audit_series(index, head, c, &values[..n])
}

// The index text can be read: its head and rows came to these.
fn audit_line(index: &[u8], head: Head, c: Rows, line: &[u8]) -> Result<Audited, Refusal>
    requires { Ok (head, c) ≡ scanned (read_text index_form index.now) }
    ensures { result ≡ audit_text_answer index.now line.now }
{
    let mut values = [0; MOST_PROGRAM_VALUES];
    match read_line(line, &mut values) {
        Ok(n) => audit_values(index, head, c, &values, n),
        Err(at) => {
            let place = newline_count(index) + bad_line(line, at);
            Err(Refusal::at(Reason::Text, place))
        }
    }
}

// Any two texts.
fn audit_pair(index: &[u8], line: &[u8]) -> Result<Audited, Refusal>
    ensures { result ≡ audit_text_answer index.now line.now }
{
    match scan(index) {
        Ok((head, c)) => audit_line(index, head, c, line),
        Err(at) => Err(Refusal::at(Reason::Text, bad_line(index, at))),
    }
}

// The number of a row and an offset filed wrongly.
fn wrong_number(row: usize, offset: usize) -> u64
    requires { 8 * (most_values * row + offset) + 1 < 2 ^ 64 }
    ensures { result ≡ 8 * (most_values * row + offset) + 1 }
{
    8 * (VALUES * (row as u64) + offset as u64) + 1
}

// The number of windows that stand nowhere.
fn missing_number(count: usize) -> u64
    requires { 8 * count + 2 < 2 ^ 64 }
    ensures { result ≡ 8 * count + 2 }
{
    8 * (count as u64) + 2
}

// The number of a text that cannot be read.
fn unread_number(line: usize) -> u64
    requires { 8 * line + 3 < 2 ^ 64 }
    ensures { result ≡ 8 * line + 3 }
{
    8 * (line as u64) + 3
}

// The number of any other refusal.
fn other_number(number: u32, place: usize) -> u64
    requires { 8 * (32 * place + number) + 4 < 2 ^ 64 }
    ensures { result ≡ 8 * (32 * place + number) + 4 }
{
    8 * (32 * (place as u64) + number as u64) + 4
}

// The number of a refusal.
#[tactic(auto, unfolding(meaning_entries::specs::AuditText::pack_refusal))]
fn refused_number(r: Refusal) -> u64
    requires { pack_refusal r.number r.place < 2 ^ 64 }
    ensures { result ≡ pack_refusal r.number r.place }
{
    if r.number == u32::from(Reason::Text) {
        return unread_number(r.place);
    }
    other_number(r.number, r.place)
}

// An answer as a number.
#[tactic(auto, unfolding(meaning_entries::specs::AuditText::pack))]
fn number_of(a: Result<Audited, Refusal>) -> u64
    requires { pack a < 2 ^ 64 }
    ensures { result ≡ pack a }
{
    match a {
        Ok(Audited::Yes) => 0,
        Ok(Audited::Wrong { row, offset }) => wrong_number(row, offset),
        Ok(Audited::Missing { count }) => missing_number(count),
        Err(r) => refused_number(r),
    }
}

// The audit of an index text against a series line.
#[unsafe(no_mangle)]
pub extern "C" fn audit_text(index: &[u8], series: &[u8]) -> u64
    ensures { AuditTextKept index.now series.now result }
{
    number_of(audit_pair(index, series))
}
