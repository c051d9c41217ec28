// The parts of an index text counted, without writing them: the place behind each, as far as a limit. One past the limit says that the text is longer.
#![tactic(auto)]

ghost use Rattle.std.specs.Prelude.{◌≡◌, suc, min, ◌+◌, ◌<◌, ◌^◌, pos};
ghost use Rattle.meaning_text.specs.Form.{spell};
ghost use Rattle.meaning_text.specs.Texts.{run_form};
ghost use Rattle.text_write.specs.Write.{head_text, end_text, part_of, runs_text, row_text};
ghost use Rattle.text_count.specs.Count.{Counted};

use meaning_rows::{Head, Row};
use text_put::{digit_count, number_length};
use text_write::part_length;

// The place n bytes on.
fn advance(limit: usize, at: usize, n: usize) -> usize
    requires { limit < 2 ^ 63 }
    ensures { result ≡ min (at + n) (suc limit) }
{
    at.saturating_add(n).min(limit + 1)
}

pub fn count_head(limit: usize, at: usize, h: Head) -> usize
    requires { limit < 2 ^ 63 }
    ensures { Counted limit at (head_text (pos h.window) (pos h.width) (pos h.windows)) result }
{
    let digits = digit_count(h.window) + digit_count(h.width) + digit_count(h.windows);
    advance(limit, at, digits + 37)
}

#[tactic(auto, unfolding(text_write::specs::Write::end_text, meaning_text::specs::Bytes::bytes))]
pub fn count_end(limit: usize, at: usize) -> usize
    requires { limit < 2 ^ 63 }
    ensures { Counted limit at end_text result }
{
    advance(limit, at, 2)
}

fn count_run(limit: usize, at: usize, left: u32, right: u32) -> usize
    requires { limit < 2 ^ 63 }
    ensures { Counted limit at (spell run_form (pos left, pos right)) result }
{
    advance(limit, at, digit_count(left) + digit_count(right) + 4)
}

// The runs from entry `first` on, as many as there are. The loop is left where they are too long.
fn count_runs(
    limit: usize,
    at: usize,
    left: &[u32],
    right: &[u32],
    first: usize,
    runs: usize,
) -> usize
    requires { limit < 2 ^ 63 }
    ensures { Counted limit at (runs_text (part_of first runs left.now right.now)) result }
{
    let n = part_length(first, runs, left.len(), right.len());
    let mut to = advance(limit, at, 0);
    for i in 0..n {
        if limit < to {
            break;
        }
        to = count_run(limit, to, left[first + i], right[first + i]);
    }
    to
}

// A row with its part of the runs.
pub fn count_row(limit: usize, at: usize, r: Row, left: &[u32], right: &[u32]) -> usize
    requires { limit < 2 ^ 63 }
    ensures { Counted limit at (row_text r left.now right.now) result }
{
    let range = number_length(r.low) + number_length(r.up);
    let to = advance(limit, at, range + 6);
    let to = count_runs(limit, to, left, right, r.first as usize, r.runs as usize);
    advance(limit, to, 2)
}
