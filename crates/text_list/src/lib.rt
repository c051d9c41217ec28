// The search program's output behind the index text: the list of matches, or a refusal.
#![tactic(auto)]

ghost use Rattle.std.specs.Prelude.{pos, take};
ghost use Rattle.meaning_text.specs.Form.{spell};
ghost use Rattle.meaning_text.specs.Texts.{at_form, found_text, refused_text};
ghost use Rattle.meaning_entries.specs.Demand3.{pairs};
ghost use Rattle.text_put.specs.Put.{Put};
ghost use Rattle.text_list.specs.Found.{matches_text};

use text_put::{put_word, write_u32, write_u64};
use text_write::part_length;

// `(at 0 5)` and a newline.
fn write_match(buf: &mut [u8], at: usize, offset: u32, distance: u64) -> usize
    ensures { Put buf.old at (spell at_form (pos offset, pos distance)) buf.new result }
{
    let to = put_word(buf, at, b"(at ");
    let to = write_u32(buf, to, offset);
    let to = put_word(buf, to, b" ");
    let to = write_u64(buf, to, distance);
    put_word(buf, to, b")\n")
}

// The first `count` matches of a list, as many as there are.
fn write_matches(
    buf: &mut [u8],
    at: usize,
    count: usize,
    offsets: &[u32],
    distances: &[u64],
) -> usize
    ensures { Put buf.old at (matches_text (take count (pairs offsets.now distances.now))) buf.new result }
{
    let n = part_length(0, count, offsets.len(), distances.len());
    let mut to = put_word(buf, at, b"");
    for i in 0..n {
        to = write_match(buf, to, offsets[i], distances[i]);
    }
    to
}

// The list: how many matches and candidates there are, then each match.
pub fn write_found(
    buf: &mut [u8],
    at: usize,
    matches: usize,
    candidates: usize,
    offsets: &[u32],
    distances: &[u64],
) -> usize
    ensures { Put buf.old at (found_text matches candidates (take matches (pairs offsets.now distances.now))) buf.new result }
{
    let to = put_word(buf, at, b"(found ");
    let to = write_u64(buf, to, matches as u64);
    let to = put_word(buf, to, b" (candidates ");
    let to = write_u64(buf, to, candidates as u64);
    let to = put_word(buf, to, b")\n");
    let to = write_matches(buf, to, matches, offsets, distances);
    put_word(buf, to, b")\n")
}

// `(refused 20 3)` and a newline.
pub fn write_refused(buf: &mut [u8], at: usize, number: u32, place: usize) -> usize
    ensures { Put buf.old at (refused_text number place) buf.new result }
{
    let to = put_word(buf, at, b"(refused ");
    let to = write_u32(buf, to, number);
    let to = put_word(buf, to, b" ");
    let to = write_u64(buf, to, place as u64);
    put_word(buf, to, b")\n")
}
