// The writing and reading of index texts for C: for the comparison under tests/ and the measurements under bench/, and for nothing else. Each takes what the entry takes, calls it, and tells its answer as a struct of numbers.
#![tactic(auto)]

ghost use Rattle.std.specs.Prelude.{◌≡◌};
ghost use Rattle.meaning_rows.specs.Index.{lent};
ghost use Rattle.try_c_text.specs.Told.{LoadTold, told_written, WriteTold};

use entry_read::read;
use entry_write::write;
use meaning_entries::Refusal;
use meaning_rows::{Head, Row};
use try_c_index::{Answer, numbers, tell_built};

// The entry read.
#[unsafe(no_mangle)]
pub extern "C" fn text_read(
    text: &[u8],
    rows: &mut [Row],
    left: &mut [u32],
    right: &mut [u32],
) -> Answer
    ensures { LoadTold text.now (record { rows = rows.old; left = left.old; right = right.old }) result (record { rows = rows.new; left = left.new; right = right.new }) }
{
    tell_built(read(text, rows, left, right))
}

// What a writing answers: 0 the text's length; 3 the refusal's number and place.
#[tactic(auto, unfolding(crate::specs::Told::told_written))]
fn tell_written(answer: Result<usize, Refusal>) -> Answer
    ensures { result ≡ told_written answer }
{
    match answer {
        Ok(length) => numbers(0, length, 0),
        Err(r) => numbers(3, r.number as usize, r.place),
    }
}

// The entry write.
#[unsafe(no_mangle)]
pub extern "C" fn text_write(
    head: Head,
    rows: &[Row],
    left: &[u32],
    right: &[u32],
    text: &mut [u8],
) -> Answer
    ensures { WriteTold (lent head rows.now left.now right.now) text.old result text.new }
{
    tell_written(write(head, rows, left, right, text))
}
