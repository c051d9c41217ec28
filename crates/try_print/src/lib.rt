// What programs that try cases share: their input as numbers, the limits of a search read out of it, and words.
#![tactic(auto)]

ghost use Rattle.std.specs.Prelude.{◌≤◌, IfSome, Some};
ghost use Rattle.try_print.specs.Words.{count_text};
ghost use Rattle.meaning_curves.specs.Limits.{most_program_values, longest_query};

use meaning_curves::{LONGEST_QUERY, MOST_PROGRAM_VALUES};
use meaning_entries::Refusal;
use meaning_filter::Limits;
use std::fmt::{self, Write};
use try_out::Out;
use try_vectors::{get_natural, get_small, plus, read_numbers};

// The numbers of standard input, and how many of them are prices and values of the query.
#[derive(Clone, Copy)]
pub struct Input {
    pub numbers: [u64; 8192],
    pub prices: usize,
    pub values: usize,
}

// How many prices there are stands at the place `at`; behind the prices come five numbers, then how many values the query has. None where that is more than the programs hold.
pub fn read_input(at: usize) -> Option<Input>
    ensures { IfSome result (λ x. (x.prices ≤ most_program_values) × (x.values ≤ longest_query)) }
{
    let mut text = io::large_buffer();
    let read = io::read_full(0, &mut text);
    let mut numbers = [0u64; 8192];
    read_numbers(&text[..read], &mut numbers);
    let prices = get_natural(&numbers, at) as usize;
    let values = get_natural(&numbers, plus(plus(at, 6), prices)) as usize;
    if MOST_PROGRAM_VALUES < prices || LONGEST_QUERY < values || text.len() <= read {
        return None;
    }
    Some(Input {
        numbers,
        prices,
        values,
    })
}

// Band, threshold, scale limit, shift limit from the place `at` on.
pub fn get_limits(nums: &[u64], at: usize) -> Limits {
    Limits {
        band: get_small(nums, at),
        threshold: get_natural(nums, plus(at, 1)),
        scale: get_small(nums, plus(at, 2)),
        shift: get_small(nums, plus(at, 3)),
    }
}

// The offset at a place of a list; 0 past the end.
pub fn get_offset(offsets: &[u32], k: usize) -> usize {
    offsets.get(k).copied().unwrap_or(0) as usize
}

// ---- words

// A number, and what it counts, in the singular or the plural.
#[derive(Drop)]
pub struct Count<'a> {
    pub n: usize,
    pub one: &'a str,
    pub many: &'a str,
}

impl fmt::Display for Count<'_> {
    ghost output = { λ c. Some (count_text c) };

    #[tactic(auto, unfolding(crate::specs::Words::count_text))]
    fn fmt<W: fmt::Write>(&self, f: &mut fmt::Formatter<W>) -> fmt::Result {
        let n = self.n;
        if n == 1 {
            let one = self.one;
            return write!(f, "{n} {one}");
        }
        let many = self.many;
        write!(f, "{n} {many}")
    }
}

// What can't be printed is lost.
pub fn print_refused(out: &mut Out, r: Refusal) {
    let _ = writeln!(out, "(refused {} {})", r.number, r.place);
}

// `not` says what is not done.
pub fn print_too_much(out: &mut Out, not: &[u8]) {
    io::write_all(1, not);
    let _ = writeln!(
        out,
        ": more than {MOST_PROGRAM_VALUES} prices, a query of more than {LONGEST_QUERY} values, or more than 65535 bytes"
    );
}
