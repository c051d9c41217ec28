// Bytes, words and numbers written into a buffer. The next place is counted on to one past the buffer's end, which says that there was no room.
#![tactic(auto)]

ghost use Rattle.std.specs.Prelude.{◌≡◌, ◌∷◌, [], ◌<◌, ◌≤◌, pos, length};
ghost use Rattle.meaning_text.specs.Number.{spellℕ, spellℤ};
ghost use Rattle.text_put.specs.Put.{Put};

pub fn put_byte(buf: &mut [u8], at: usize, b: u8) -> usize
    ensures { Put buf.old at (b ∷ []) buf.new result }
{
    if at < buf.len() {
        buf[at] = b;
        return at + 1;
    }
    buf.len() + 1
}

// The word, byte by byte.
pub fn put_word(buf: &mut [u8], at: usize, word: &[u8]) -> usize
    ensures { Put buf.old at word.now buf.new result }
{
    let size = buf.len();
    let mut to = at.min(size + 1);
    for &b in word {
        to = put_byte(buf, to, b);
    }
    to
}

// The digits of n: those of a tenth of it, then the last.
fn put_digits(buf: &mut [u8], at: usize, n: u64) -> usize
    ensures { Put buf.old at (spellℕ n) buf.new result }
{
    if n < 10 {
        return put_byte(buf, at, b'0' + (n as u8));
    }
    let to = put_digits(buf, at, n / 10);
    put_byte(buf, to, b'0' + ((n % 10) as u8))
}

// The number in base ten.
pub fn write_number(buf: &mut [u8], at: usize, x: i64) -> usize
    ensures { Put buf.old at (spellℤ x) buf.new result }
{
    let m = x.unsigned_abs();
    let negative = x < 0;
    if negative {
        let to = put_byte(buf, at, b'-');
        return put_digits(buf, to, m);
    }
    put_digits(buf, at, m)
}

pub fn write_u64(buf: &mut [u8], at: usize, x: u64) -> usize
    ensures { Put buf.old at (spellℤ (pos x)) buf.new result }
{
    put_digits(buf, at, x)
}

// Beside `write_i32`: two types, and this one has no sign to write.
pub fn write_u32(buf: &mut [u8], at: usize, x: u32) -> usize
    ensures { Put buf.old at (spellℤ (pos x)) buf.new result }
{
    write_number(buf, at, x as i64)
}

pub fn write_i32(buf: &mut [u8], at: usize, x: i32) -> usize
    ensures { Put buf.old at (spellℤ x) buf.new result }
{
    write_number(buf, at, x as i64)
}

// How many digits a number below 100,000 has.
fn few_digits(n: u32) -> usize
    requires { n < 100000 }
    ensures { result ≡ length (spellℕ n) }
{
    match n {
        0..=9 => 1,
        10..=99 => 2,
        100..=999 => 3,
        1000..=9999 => 4,
        _ => 5,
    }
}

// How many digits a number has.
pub fn digit_count(n: u32) -> usize
    ensures { (result ≡ length (spellℕ n)) × (result ≤ 10) }
{
    if n < 100000 {
        return few_digits(n);
    }
    few_digits(n / 100000) + 5
}

// How many bytes a number takes.
pub fn number_length(x: i32) -> usize
    ensures { (result ≡ length (spellℤ x)) × (result ≤ 11) }
{
    let digits = digit_count(x.unsigned_abs());
    if x < 0 { digits + 1 } else { digits }
}
