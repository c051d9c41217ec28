// A text and a position in it, together: the reader, which the rows of an index text are read through (`text_rows`), and the line that it stands in.
#![tactic(auto)]

ghost use Rattle.std.specs.Prelude.{◌≡◌};
ghost use Rattle.meaning_text.specs.Read.{line_of};

// The line of the byte at `at`, or of the text's end where `at` is past it; lines count from 1.
pub fn line_at(text: &[u8], at: usize) -> usize
    ensures { result ≡ line_of text.now at }
{
    let end = at.min(text.len());
    let mut n = 1;
    for &b in &text[..end] {
        if b == b'\n' {
            n += 1;
        }
    }
    n
}

// A text and a position in it.
#[derive(Drop)]
pub struct Reader<'a> {
    pub text: &'a [u8],
    pub at: usize,
}

// The reader of a text at a position.
pub fn reader_of<'a>(text: &'a [u8], at: usize) -> Reader<'a>
    ensures { (result.text ≡ text.entry) × (result.at ≡ at) }
{
    Reader { text, at }
}

// The line that a reader stands in.
pub fn line<'a>(r: Reader<'a>) -> usize
    ensures { result ≡ line_of r.entry.text.now r.entry.at }
{
    line_at(r.text, r.at)
}

// The line of a place in a text.
pub fn bad_line(text: &[u8], at: usize) -> usize
    ensures { result ≡ line_of text.now at }
{
    line(reader_of(text, at))
}
