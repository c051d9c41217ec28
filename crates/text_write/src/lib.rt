// The parts of an index text written into a buffer: its head, a run, a row with its runs, its end.
#![tactic(auto)]

ghost use Rattle.std.specs.Prelude.{◌≡◌, ◌+◌, ◌-◌, ◌<◌, min, pos};
ghost use Rattle.meaning_text.specs.Form.{spell};
ghost use Rattle.meaning_text.specs.Texts.{run_form};
ghost use Rattle.text_put.specs.Put.{Put};
ghost use Rattle.text_write.specs.Write.{head_text, end_text, part_of, runs_text, row_text};

use meaning_rows::{Head, Row};
use text_put::{put_word, write_i32, write_u32};

// `(index (window 2) (width 2) (windows 4)` and a newline.
pub fn write_head(buf: &mut [u8], at: usize, h: Head) -> usize
    ensures { Put buf.old at (head_text (pos h.window) (pos h.width) (pos h.windows)) buf.new result }
{
    let window = put_word(buf, at, b"(index (window ");
    let width = write_u32(buf, window, h.window);
    let width = put_word(buf, width, b") (width ");
    let windows = write_u32(buf, width, h.width);
    let windows = put_word(buf, windows, b") (windows ");
    let end = write_u32(buf, windows, h.windows);
    put_word(buf, end, b")\n")
}

// The index text's end.
#[tactic(auto, unfolding(crate::specs::Write::end_text, meaning_text::specs::Bytes::bytes))]
pub fn write_end(buf: &mut [u8], at: usize) -> usize
    ensures { Put buf.old at end_text buf.new result }
{
    put_word(buf, at, b")\n")
}

// ` (2 4)`.
fn write_run(buf: &mut [u8], at: usize, left: u32, right: u32) -> usize
    ensures { Put buf.old at (spell run_form (pos left, pos right)) buf.new result }
{
    let to = put_word(buf, at, b" (");
    let to = write_u32(buf, to, left);
    let to = put_word(buf, to, b" ");
    let to = write_u32(buf, to, right);
    put_word(buf, to, b")")
}

// How many of `runs` entries from `first` on there are in slices of these lengths.
pub fn part_length(first: usize, runs: usize, left: usize, right: usize) -> usize
    ensures { result ≡ min runs (min left right - first) }
{
    runs.min(left.min(right).saturating_sub(first))
}

// The runs from entry `first` on, as many as there are.
fn write_runs(
    buf: &mut [u8],
    at: usize,
    left: &[u32],
    right: &[u32],
    first: usize,
    runs: usize,
) -> usize
    ensures { Put buf.old at (runs_text (part_of first runs left.now right.now)) buf.new result }
{
    let n = part_length(first, runs, left.len(), right.len());
    let mut to = put_word(buf, at, b"");
    for i in 0..n {
        to = write_run(buf, to, left[first + i], right[first + i]);
    }
    to
}

// `(row 2 4 (0 0))` and a newline: the row with its part of the runs.
pub fn write_row(buf: &mut [u8], at: usize, r: Row, left: &[u32], right: &[u32]) -> usize
    ensures { Put buf.old at (row_text r left.now right.now) buf.new result }
{
    let to = put_word(buf, at, b"(row ");
    let to = write_i32(buf, to, r.low);
    let to = put_word(buf, to, b" ");
    let to = write_i32(buf, to, r.up);
    let to = write_runs(buf, to, left, right, r.first as usize, r.runs as usize);
    put_word(buf, to, b")\n")
}
