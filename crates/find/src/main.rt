// The search program: standard input to standard output. No contract can say what is read or written, so all that matters is promised by the functions on bytes that it calls.
#![tactic(auto)]

ghost use Rattle.std.specs.Prelude.{◌≤◌, length, take};
ghost use Rattle.program_input.specs.Input.{Open};
ghost use Rattle.find.specs.Reading.{StepFrom, Stepped, ReadTo};

use meaning_curves::{LONGEST_QUERY, MOST_PROGRAM_VALUES};
use program_input::{Input, begin, read_piece};
use program_print::finish;
use std::io::{Read, Stdin};
use std::ops::ControlFlow;

// How many pieces are read at most: as many as no run uses up, and at 65,536 bytes each no more bytes than can be counted.
const PIECES: u64 = 70368744177663;

// The first `n` bytes of a buffer, which a read filled so far, are read on. Reading breaks off where there is none, since the input is over.
fn take_read(
    r: Input,
    buf: &[u8],
    n: usize,
    numbers: &mut [i64],
    series: &mut [i32],
    query: &mut [i32],
) -> ControlFlow<Input, Input>
    requires { Open r 65536 × (n ≤ length buf.now) × (n ≤ 65536) }
    ensures { StepFrom (take n buf.now) r numbers.old series.old query.old result numbers.new series.new query.new }
{
    let x = read_piece(r, &buf[..n], numbers, series, query);
    if n == 0 {
        return ControlFlow::Break(x);
    }
    ControlFlow::Continue(x)
}

// Reads the next piece of standard input; a read that fails brings none.
fn read_on(
    source: &mut Stdin,
    r: Input,
    numbers: &mut [i64],
    series: &mut [i32],
    query: &mut [i32],
) -> ControlFlow<Input, Input>
    requires { Open r 65536 }
    ensures { Stepped r numbers.old series.old query.old result numbers.new series.new query.new }
{
    let mut buf = io::large_buffer();
    let n = source.read(&mut buf).unwrap_or(0);
    take_read(r, &buf, n, numbers, series, query)
}

// Reads all of standard input, piece by piece.
fn read_all(
    source: &mut Stdin,
    r: Input,
    numbers: &mut [i64],
    series: &mut [i32],
    query: &mut [i32],
) -> Input
    requires { ReadTo 4611686018427387904 r numbers.old series.old query.old }
    ensures { ReadTo 0 result numbers.new series.new query.new }
{
    let mut x = r;
    for _ in 0..PIECES {
        match read_on(source, x, numbers, series, query) {
            ControlFlow::Continue(y) => x = y,
            ControlFlow::Break(y) => return y,
        }
    }
    x
}

// Room for all that the program prints.
fn text_buffer() -> [u8; 1048576] {
    [0; 1048576]
}

// Writes the first bytes of a text to standard output.
fn print_first(text: &[u8], n: usize)
    requires { n ≤ length text.now }
{
    io::write_all(1, &text[..n]);
}

fn main(rt: HostRuntime) {
    let mut numbers = [0i64, 0, 0, 0, 0, 0, 0, 1];
    let mut series = [0i32; MOST_PROGRAM_VALUES];
    let mut query = [0i32; LONGEST_QUERY];
    let mut source = rt.stdin();
    let r = read_all(&mut source, begin(), &mut numbers, &mut series, &mut query);
    let mut text = text_buffer();
    let n = finish(r, &numbers, &series, &query, &mut text);
    print_first(&text, n);
}
