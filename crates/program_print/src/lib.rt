// What the search program prints at the end of its input: a refusal, or the index and then the list (01, 'Text and program').
#![tactic(auto)]

ghost use Rattle.std.specs.Prelude.{◌≡◌, length};
ghost use Rattle.program_answer.specs.Finish.{Finishes};
ghost use Rattle.program_print.specs.End.{InputHeld};

use program_answer::print_answer;
use program_input::{Input, asked_of, numbers_of, refuse};
use text_list::write_refused;

// What is printed at the end of the input.
pub fn finish(r: Input, numbers: &[i64], series: &[i32], query: &[i32], text: &mut [u8]) -> usize
    requires { (InputHeld r numbers.now series.now query.now) × (length text.old ≡ 1048576) }
    ensures { Finishes r numbers.now series.now query.now text.new result }
{
    match refuse(r, numbers, query) {
        Err(w) => write_refused(text, 0, w.number, w.place),
        Ok(()) => match r {
            Input::Failed(_) => 0,
            Input::Going(p, _) => print_answer(
                &series[..p.series.count],
                &query[..p.query.count],
                asked_of(numbers_of(numbers)),
                text,
            ),
        },
    }
}
