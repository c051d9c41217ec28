// What every text is read by: a byte of a word, and a number byte by byte, of at most 18 digits, with no leading zero and no -0.
#![tactic(auto)]

ghost use Rattle.std.specs.Prelude.{◌≡◌, ◌+◌, ◌-◌, ◌*◌, cond, get_or, None, Some};
ghost use Rattle.text_numbers.specs.Number.{fits_behind, num_step, whole, NumGood};

// A number as far as it has been read: nothing, a '-', a 0, digits, a '-' and digits.
#[derive(Clone, Copy)]
pub enum Numeral {
    Start,
    Sign,
    Zero,
    Plus(u64),
    Less(u64),
}

// The least number of 18 digits: no digit may follow one of them.
const LONGEST: u64 = 100000000000000000;

// The number m with the digit b behind it, of at most 18 digits.
fn digit_behind(m: u64, b: u8) -> Option<u64>
    ensures { result ≡ cond (fits_behind m b) (Some (10 * m + (b - 48))) None }
{
    if b.is_ascii_digit() && m < LONGEST {
        return Some(10 * m + (b - b'0') as u64);
    }
    None
}

// What the byte b does to the number n: it goes on, or the byte is none of its bytes.
#[tactic(auto, unfolding(crate::specs::Number::num_step))]
pub fn number_step(n: Numeral, b: u8) -> Option<Numeral>
    ensures { result ≡ num_step n b }
{
    match n {
        Numeral::Start => match b {
            b'-' => Some(Numeral::Sign),
            b'0' => Some(Numeral::Zero),
            b'1'..=b'9' => Some(Numeral::Plus((b - b'0') as u64)),
            _ => None,
        },
        Numeral::Sign => match b {
            b'1'..=b'9' => Some(Numeral::Less((b - b'0') as u64)),
            _ => None,
        },
        Numeral::Zero => None,
        Numeral::Plus(m) => Some(Numeral::Plus(digit_behind(m, b)?)),
        Numeral::Less(m) => Some(Numeral::Less(digit_behind(m, b)?)),
    }
}

// The value of a number that could end where it stands.
#[tactic(auto, unfolding(crate::specs::Number::whole))]
pub fn number_value(n: Numeral) -> Option<i64>
    requires { NumGood n }
    ensures { result ≡ whole n }
{
    match n {
        Numeral::Start | Numeral::Sign => None,
        Numeral::Zero => Some(0),
        Numeral::Plus(m) => Some(m as i64),
        Numeral::Less(m) => Some(-(m as i64)),
    }
}

// Byte k of a word, 0 behind its last.
pub fn letter(word: &[u8], k: usize) -> u8
    ensures { result ≡ get_or word.now k 0 }
{
    word.get(k).copied().unwrap_or(0)
}
