// The entry write: a lent index becomes an index text. The text is counted first, then written.
#![tactic(auto)]

ghost use Rattle.std.specs.Prelude.{◌≡◌, ◌<◌, ◌^◌, length};
ghost use Rattle.meaning_rows.specs.Index.{lent};
ghost use Rattle.meaning_text.specs.Texts.{index_text};
ghost use Rattle.meaning_entries.specs.Demand2.{WriteKept};
ghost use Rattle.text_count.specs.Count.{Counted};
ghost use Rattle.entry_write.specs.Spell.{spelled};
ghost use Rattle.refusals.specs.Refusal.{verdict};
ghost use Rattle.entry_write.specs.Answer.{table_of};

use clear::clear;
use meaning_entries::{Reason, Refusal};
use meaning_rows::{Head, Row};
use refusals::{refuse_if, refuse_judged};
use rows_judge::judge;
use text_count::{count_end, count_head, count_row};
use text_write::{write_end, write_head, write_row};

// How many bytes the text has, counted to one past a limit.
pub fn count_index(limit: usize, head: Head, rows: &[Row], left: &[u32], right: &[u32]) -> usize
    requires { limit < 2 ^ 63 }
    ensures { Counted limit 0 (index_text (lent head rows.now left.now right.now)) result }
{
    let mut at = count_head(limit, 0, head);
    for &r in rows {
        at = count_row(limit, at, r, left, right);
    }
    count_end(limit, at)
}

// The text is stored, with zeros behind it.
pub fn write_index(text: &mut [u8], head: Head, rows: &[Row], left: &[u32], right: &[u32])
    ensures { text.new ≡ spelled (index_text (lent head rows.now left.now right.now)) text.old }
{
    let mut at = write_head(text, 0, head);
    for &r in rows {
        at = write_row(text, at, r, left, right);
    }
    let to = write_end(text, at);
    clear(text, to, 0);
}

// What refuses a text of n bytes, counted to one past the buffer's size, by what judging said of its index.
pub fn refuse_write(judged: Result<usize, usize>, n: usize, size: usize) -> Result<(), Refusal>
    ensures { result ≡ verdict (table_of judged n size) }
{
    refuse_judged(judged)?;
    refuse_if(size < n, Reason::Room)
}

// The entry: how many bytes the text has.
pub fn write(
    head: Head,
    rows: &[Row],
    left: &[u32],
    right: &[u32],
    text: &mut [u8],
) -> Result<usize, Refusal>
    ensures { WriteKept (lent head rows.now left.now right.now) text.old result text.new }
{
    let judged = judge(head, rows, left, right);
    let size = text.len();
    let n = count_index(size, head, rows, left, right);
    refuse_write(judged, n, size)?;
    write_index(text, head, rows, left, right);
    Ok(n)
}
