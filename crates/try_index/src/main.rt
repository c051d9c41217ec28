// Runs the vectors of its standard input (tests/model/index_vectors.rs writes them: the paper's cases, and answers of the model) through the entries over lent records, and says of each group how many agree.
#![tactic(auto)]

ghost use Rattle.std.specs.Prelude.{◌≤◌};

use entry_audit::audit;
use entry_build::build;
use entry_extend::extend;
use meaning_entries::{Audited, Held, Refusal};
use meaning_rows::{Head, Row};
use try_groups::{Groups, Step, run_groups};
use try_vectors::{
    get_head, get_length, get_natural, get_numbers, get_row, get_small, get_values, plus,
    read_numbers,
};

// ---- parts of a vector

// The place of row `k`, of rows of four numbers.
fn row_place(at: usize, k: usize) -> usize {
    let two = plus(k, k);
    plus(at, plus(two, two))
}

// The rows of a buffer that nothing has written to: they differ from what an entry writes.
fn rubbish(runs: u32) -> [Row; 64] {
    [Row {
        low: 7,
        up: 9,
        first: 5,
        runs,
    }; 64]
}

fn get_rows(nums: &[u64], at: usize) -> [Row; 64] {
    let mut rows = rubbish(0);
    for k in 0..64 {
        rows[k] = get_row(nums, row_place(at, k));
    }
    rows
}

// Where a lent index stands: its head, how many rows, the entries of the two columns of its run buffer and their lengths, and what follows.
#[derive(Clone, Copy)]
struct Places {
    head: usize,
    rows: usize,
    left: usize,
    lefts: usize,
    right: usize,
    rights: usize,
    end: usize,
}

// A lent index: the head; how many rows, and these; the two columns of the run buffer, each after its length.
fn find_index(nums: &[u64], at: usize) -> Places
    ensures { (result.rows ≤ 64) × ((result.lefts ≤ 80) × (result.rights ≤ 80)) }
{
    let rows = get_length(nums, plus(at, 3), 64);
    let second = row_place(plus(at, 4), rows);
    let lefts = get_length(nums, second, 80);
    let left = plus(second, 1);
    let third = plus(left, lefts);
    let rights = get_length(nums, third, 80);
    let right = plus(third, 1);
    Places {
        head: at,
        rows,
        left,
        lefts,
        right,
        rights,
        end: plus(right, rights),
    }
}

// What a run buffer holds before a build or an extension: numbers from `x` on.
fn fill_rubbish(out: &mut [u32], x: u32) {
    let mut y = x;
    for k in 0..out.len() {
        out[k] = y;
        y = y.wrapping_add(1);
    }
}

// ---- comparing

// Whether the numbers are those from the place `at` on.
fn agree_numbers(got: &[u32], nums: &[u64], at: usize) -> bool {
    for k in 0..got.len() {
        if got[k] != get_small(nums, plus(at, k)) {
            return false;
        }
    }
    true
}

// Whether the rows are the `count` rows from the place `at` on, and every other the one behind them.
fn agree_rows(rows: [Row; 64], nums: &[u64], at: usize, count: usize) -> bool {
    for k in 0..64 {
        if rows[k] != get_row(nums, row_place(at, k.min(count))) {
            return false;
        }
    }
    true
}

// Whether an answer of this kind, with this head and these numbers, stands at the place `at`.
fn agree_told(nums: &[u64], at: usize, kind: u64, head: Head, first: usize, second: usize) -> bool {
    get_natural(nums, at) == kind
        && get_head(nums, plus(at, 1)) == head
        && get_natural(nums, plus(at, 4)) == first as u64
        && get_natural(nums, plus(at, 5)) == second as u64
}

fn agree_numbered(nums: &[u64], at: usize, kind: u64, first: usize, second: usize) -> bool {
    let none = Head {
        window: 0,
        width: 0,
        windows: 0,
    };
    agree_told(nums, at, kind, none, first, second)
}

fn agree_refused(r: Refusal, nums: &[u64], at: usize) -> bool {
    agree_numbered(nums, at, 3, r.number as usize, r.place)
}

// Of a build or an extension.
fn agree_made(answer: Result<Held, Refusal>, nums: &[u64], at: usize) -> bool {
    match answer {
        Ok(made) => agree_told(nums, at, 0, made.head, made.rows, made.runs),
        Err(r) => agree_refused(r, nums, at),
    }
}

fn agree_audited(answer: Result<Audited, Refusal>, nums: &[u64], at: usize) -> bool {
    match answer {
        Ok(Audited::Yes) => agree_numbered(nums, at, 0, 0, 0),
        Ok(Audited::Wrong { row, offset }) => agree_numbered(nums, at, 1, row, offset),
        Ok(Audited::Missing { count }) => agree_numbered(nums, at, 2, count, 0),
        Err(r) => agree_refused(r, nums, at),
    }
}

// ---- the tests

// Every buffer after a build or an extension, where `told` says whether the answer agrees, against those from the place `at` on: the answer, how many rows, these and the row behind them, the two columns of the run buffer.
fn judge_made(
    told: bool,
    rows: [Row; 64],
    nums: &[u64],
    at: usize,
    left: &[u32],
    right: &[u32],
) -> Step {
    let count = get_length(nums, plus(at, 6), 64);
    let from = plus(at, 7);
    let lefts = row_place(from, plus(count, 1));
    let rights = plus(lefts, left.len());
    let same = agree_rows(rows, nums, from, count);
    let one = agree_numbers(left, nums, lefts);
    let two = agree_numbers(right, nums, rights);
    Step::Vector {
        agrees: told && same && one && two,
        next: plus(rights, right.len()),
    }
}

// A build into these columns, by the numbers from the place `at` on.
fn build_in(nums: &[u64], at: usize, s: &[i32], left: &mut [u32], right: &mut [u32]) -> Step {
    let w = get_small(nums, at);
    let d = get_small(nums, plus(at, 1));
    let g = get_small(nums, plus(at, 2));
    fill_rubbish(left, 1000);
    fill_rubbish(right, 2000);
    let mut rows = rubbish(w);
    let answer = build(s, w, d, g, &mut rows, left, right);
    let from = plus(at, 5);
    let told = agree_made(answer, nums, from);
    judge_made(told, rows, nums, from, left, right)
}

// A build: n, the values; w; d; g; the lengths of the two columns of the run buffer; what is expected.
fn try_build(nums: &[u64], from: usize) -> Step {
    let n = get_length(nums, from, 320);
    let at = plus(plus(from, 1), n);
    let lefts = get_length(nums, plus(at, 3), 80);
    let rights = get_length(nums, plus(at, 4), 80);
    let mut s = [0i32; 320];
    let mut left = [0u32; 80];
    let mut right = [0u32; 80];
    get_values(nums, plus(from, 1), &mut s);
    build_in(nums, at, &s[..n], &mut left[..lefts], &mut right[..rights])
}

// The extension of the index at `p` into these columns.
fn extend_in(
    nums: &[u64],
    p: Places,
    s: &[i32],
    lefts: &[u32],
    rights: &[u32],
    left: &mut [u32],
    right: &mut [u32],
) -> Step
    requires { p.rows ≤ 64 }
{
    let head = get_head(nums, p.head);
    let table = get_rows(nums, plus(p.head, 4));
    fill_rubbish(left, 1000);
    fill_rubbish(right, 2000);
    let mut rows = rubbish(head.window);
    let answer = extend(
        s,
        head,
        &table[..p.rows],
        lefts,
        rights,
        &mut rows,
        left,
        right,
    );
    let from = plus(p.end, 2);
    let told = agree_made(answer, nums, from);
    judge_made(told, rows, nums, from, left, right)
}

// An extension: n, the values; the index; the lengths of the two columns of the fresh run buffer; what is expected.
fn try_extend(nums: &[u64], from: usize) -> Step {
    let n = get_length(nums, from, 320);
    let p = find_index(nums, plus(plus(from, 1), n));
    let a = get_length(nums, p.end, 80);
    let b = get_length(nums, plus(p.end, 1), 80);
    let mut s = [0i32; 320];
    let mut lefts = [0u32; 80];
    let mut rights = [0u32; 80];
    let mut left = [0u32; 80];
    let mut right = [0u32; 80];
    get_values(nums, plus(from, 1), &mut s);
    get_numbers(nums, p.left, &mut lefts);
    get_numbers(nums, p.right, &mut rights);
    extend_in(
        nums,
        p,
        &s[..n],
        &lefts[..p.lefts],
        &rights[..p.rights],
        &mut left[..a],
        &mut right[..b],
    )
}

// The audit of the index at `p`.
fn audit_in(nums: &[u64], p: Places, s: &[i32], left: &[u32], right: &[u32]) -> Step
    requires { p.rows ≤ 64 }
{
    let head = get_head(nums, p.head);
    let table = get_rows(nums, plus(p.head, 4));
    let a = audit(s, head, &table[..p.rows], left, right);
    Step::Vector {
        agrees: agree_audited(a, nums, p.end),
        next: plus(p.end, 6),
    }
}

// An audit: n, the values; the index; the answer.
fn try_audit(nums: &[u64], from: usize) -> Step {
    let n = get_length(nums, from, 320);
    let p = find_index(nums, plus(plus(from, 1), n));
    let mut s = [0i32; 320];
    let mut left = [0u32; 80];
    let mut right = [0u32; 80];
    get_values(nums, plus(from, 1), &mut s);
    get_numbers(nums, p.left, &mut left);
    get_numbers(nums, p.right, &mut right);
    audit_in(nums, p, &s[..n], &left[..p.lefts], &right[..p.rights])
}

// A vector, of its kind: 1 a build, 2 an audit, 3 an extension.
fn try_one(nums: &[u64], test: u64, from: usize) -> Step {
    match test {
        1 => try_build(nums, from),
        2 => try_audit(nums, from),
        3 => try_extend(nums, from),
        _ => Step::Vector {
            agrees: false,
            next: from,
        },
    }
}

// ---- the vectors, one after the other

struct Indexes;

impl Groups for Indexes {
    fn name(group: u64) -> &'static str {
        match group {
            0 => "builds of the paper's cases",
            1 => "refused builds",
            2 => "audits of the paper's index, whole and damaged",
            3 => "builds",
            4 => "audits of what is built",
            5 => "audits of damaged indexes",
            6 => "extensions by hand",
            7 => "extensions",
            _ => "extensions of damaged indexes",
        }
    }

    fn step(nums: &[u64], at: usize) -> Step {
        match get_natural(nums, at) {
            0 => Step::End {
                group: get_natural(nums, plus(at, 1)),
                next: plus(at, 2),
            },
            test => try_one(nums, test, plus(at, 1)),
        }
    }
}

// The first number says how many lines follow.
fn main() {
    let mut text = io::large_buffer();
    let n = io::read_full(0, &mut text);
    let mut nums = [0u64; 32768];
    read_numbers(&text[..n], &mut nums);
    let _ = run_groups::<Indexes>(&nums, 1, get_natural(&nums, 0));
}
