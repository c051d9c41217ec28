// Reads the index texts of its standard input, parted by '#', and every truncation of each; writes what each comes to, then the index of the whole text as it is written back, and what comes of too little room. tests/model/tried.rs has what it must write.
#![tactic(auto)]

ghost use Rattle.std.specs.Prelude.{◌≤◌};

use entry_read::read;
use entry_write::write;
use meaning_entries::{Held, Refusal};
use meaning_rows::Row;
use std::fmt::{self, Write};
use try_out::Out;
use try_print::print_refused;

// The most rows that a text is read into.
const ROWS: usize = 8;

fn no_rows() -> [Row; ROWS] {
    [Row {
        low: 0,
        up: 0,
        first: 0,
        runs: 0,
    }; ROWS]
}

// ---- reading

fn show_read(out: &mut Out, answer: Result<Held, Refusal>) -> fmt::Result {
    match answer {
        Ok(made) => writeln!(out, "(read {} {})", made.rows, made.runs),
        Err(r) => {
            print_refused(out, r);
            Ok(())
        }
    }
}

// A text read where there is room for so many rows, and enough for its runs.
fn try_rows(out: &mut Out, text: &[u8], rows: usize) -> fmt::Result
    requires { rows ≤ 8 }
{
    let mut table = no_rows();
    let mut left = [7u32; 16];
    let mut right = [7u32; 16];
    show_read(out, read(text, &mut table[..rows], &mut left, &mut right))
}

// The same with room for two runs.
fn try_two(out: &mut Out, text: &[u8]) -> fmt::Result {
    let mut table = no_rows();
    let mut left = [7u32; 2];
    let mut right = [7u32; 2];
    show_read(out, read(text, &mut table, &mut left, &mut right))
}

// ---- writing back

// What the entry write answered, and what it wrote.
fn show_written(out: &mut Out, answer: Result<usize, Refusal>, text: &[u8]) -> fmt::Result {
    match answer {
        Ok(length) => {
            if length <= text.len() {
                io::write_all(1, &text[..length]);
            }
            Ok(())
        }
        Err(r) => {
            print_refused(out, r);
            Ok(())
        }
    }
}

// A text read, and written back where it can be read and has at most three rows.
fn try_back(out: &mut Out, text: &[u8], room: &mut [u8]) -> fmt::Result {
    let mut table = no_rows();
    let mut left = [7u32; 16];
    let mut right = [7u32; 16];
    match read(text, &mut table, &mut left, &mut right) {
        Ok(index) if index.rows <= 3 => {
            let answer = write(index.head, &table[..index.rows], &left, &right, room);
            show_written(out, answer, room)
        }
        _ => Ok(()),
    }
}

// ---- the texts

fn truncations(out: &mut Out, text: &[u8]) -> fmt::Result {
    for k in 0..text.len() {
        try_rows(out, &text[..k], ROWS)?;
    }
    Ok(())
}

fn try_text(out: &mut Out, text: &[u8]) -> fmt::Result {
    let mut long = [0u8; 512];
    let mut short = [0u8; 16];
    truncations(out, text)?;
    try_rows(out, text, ROWS)?;
    try_rows(out, text, 1)?;
    try_two(out, text)?;
    try_back(out, text, &mut long)?;
    try_back(out, text, &mut short)
}

fn main() {
    let mut buf = io::large_buffer();
    let n = io::read_full(0, &mut buf);
    let mut out = Out;
    for text in buf[..n].split_inclusive(|&b| b == b'#') {
        let _ = try_text(&mut out, text.strip_suffix(b"#").unwrap_or(text));
    }
}
