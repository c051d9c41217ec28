// The rows of an index text audited against a series in one pass over its bytes (01, Rows): a run is audited where its right end is read, as a row of one run, and nothing is kept of it. The pass stops at the first offset filed wrongly.
#![tactic(auto)]

ghost use Rattle.std.specs.Prelude.{◌≡◌, ◌&&◌, ◌+◌, ◌<◌, ◌^◌, leb};
ghost use Rattle.payout_walk.specs.Walk.{Sized, start_walk, after_run, tell_walk, shut_walk, Walked};

use entry_audit::audit_chunk;
use meaning_rows::{Head, Row};
use numbers::{hold, narrow};
use text_index::{Field, Moved, State, Word, index_step};

// What is known of a text so far: the range of the row that is open, the left end of the run that is open, how many rows are closed, and the first row and offset filed wrongly.
#[derive(Clone, Copy)]
pub struct Walk {
    pub low: i32,
    pub up: i32,
    pub left: u32,
    pub rows: usize,
    pub found: Option<(usize, usize)>,
}

pub fn no_walk() -> Walk
    ensures { result ≡ start_walk }
{
    Walk {
        low: 0,
        up: 0,
        left: 0,
        rows: 0,
        found: None,
    }
}

// The windows of a run, of length w, lie among n values.
fn run_reads(l: usize, r: usize, w: usize, n: usize) -> bool
    requires { r + w < 2 ^ 63 }
    ensures { result ≡ (leb l r && leb (r + w) n) }
{
    (l <= r) & (r + w <= n)
}

// The first row and offset filed wrongly, after the run that ends at r.
pub fn audit_run(series: &[i32], head: Head, t: Walk, r: u32) -> Option<(usize, usize)>
    requires sized { Sized series.now head }
    requires rows_bound { t.rows < 2 ^ 63 }
    ensures { result ≡ after_run series.now head t r }
{
    if t.found.is_some() {
        return t.found;
    }
    let l = t.left;
    if !run_reads(l as usize, r as usize, head.window as usize, series.len()) {
        return None;
    }
    let mut chunk = [Row {
        low: 0,
        up: 0,
        first: 0,
        runs: 0,
    }; 64];
    chunk[0] = Row {
        low: t.low,
        up: t.up,
        first: 0,
        runs: 1,
    };
    audit_chunk(chunk, t.rows, series, head, &[l], &[r])
}

// What a number says.
#[tactic(auto, unfolding(crate::specs::Walk::tell_walk))]
pub fn tell(series: &[i32], head: Head, t: Walk, p: Field, z: i64) -> Walk
    requires { Sized series.now head × (t.rows < 2 ^ 63) }
    ensures { result ≡ tell_walk series.now head p z t }
{
    match p {
        Field::Window | Field::Width | Field::Windows => t,
        Field::Low => Walk {
            low: narrow(z),
            ..t
        },
        Field::Up => Walk { up: narrow(z), ..t },
        Field::Left => Walk { left: hold(z), ..t },
        Field::Right => Walk {
            found: audit_run(series, head, t, hold(z)),
            ..t
        },
    }
}

// What a row's end says.
#[tactic(auto, unfolding(crate::specs::Walk::shut_walk))]
pub fn shut(t: Walk) -> Walk
    requires { t.rows < 2 ^ 63 }
    ensures { result ≡ shut_walk t }
{
    Walk {
        rows: t.rows + 1,
        ..t
    }
}

// The rows of a whole text.
pub fn walk_rows(text: &[u8], series: &[i32], head: Head) -> Option<(usize, usize)>
    requires { Sized series.now head }
    ensures { Walked series.now head text.now result }
{
    let mut s = State::In(Word::Window, 0);
    let mut t = no_walk();
    for &b in text {
        match index_step(s, b) {
            Moved::To(n) => s = n,
            Moved::Value(n, p, z) => {
                s = n;
                t = tell(series, head, t, p, z);
                if t.found.is_some() {
                    return t.found;
                }
            }
            Moved::Closed(n) => {
                s = n;
                t = shut(t);
            }
            Moved::Refuse => return t.found,
        }
    }
    t.found
}
