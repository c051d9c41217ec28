// The runs of an extension: old runs copied into the rows' new parts, and the first new run joined to the last old one where it goes on from it.
#![tactic(auto)]

ghost use Rattle.std.specs.Prelude.{◌≡◌, ◌+◌, ◌-◌, ◌<◌, ◌≤◌, ◌*◌, length};
ghost use Rattle.sums_slide.specs.Levels.{level, Lent, windows_of};
ghost use Rattle.build_fill.specs.Turn.{At};
ghost use Rattle.extend_runs.specs.Joining.{JoinAsked, JoinedAt};
ghost use Rattle.extend_rows.specs.Steps.{joins_of};
ghost use Rattle.extend_runs.specs.Copied.{CopyAsked, CopiedAs};

use build_lay::clear_runs;
use extend_count::{last_ends, level_at};
use extend_new::join_run;
use extend_parts::copy_column;
use extend_rows::first_new;
use meaning_rows::Row;
use numbers::RAISE;
use sums_slide::{Window, raise_end, slide};

// Window `j` with its raised sum; `j` may be the number of windows.
pub fn place_at(s: &[i32], w: usize, e: u64, j: usize) -> Window
    requires lent { Lent s.now w e }
    requires j_bound { j ≤ windows_of s.now w }
    ensures { At s.now w e result × (result.offset ≡ j) }
{
    let level = if j < s.len() + 1 - w {
        level_at(s, w, e, j)
    } else {
        slide(s, w, e, j - 1, level_at(s, w, e, j - 1))
    };
    Window { offset: j, level }
}

// Where the last old run of a row stands in the row's part; 0 if it has none.
pub fn spot_of(r: Row) -> usize
    ensures { result ≡ r.runs - 1 }
{
    (r.runs as usize).saturating_sub(1)
}

// The first new run joined, if it goes on from the last old run of its row; where the next run begins. `q` is the row with its new part, which is lent to its writer, `r` the row with its old runs.
pub fn join_first(
    s: &[i32],
    w: usize,
    e: u64,
    old: usize,
    q: Row,
    r: Row,
    olds: &[u32],
    right: &mut [u32],
) -> Window
    requires { (r.first + r.runs ≤ length olds.now) × (JoinAsked s.now w e old (joins_of s.now w old r olds.now) q r (length right.old)) }
    ensures { JoinedAt s.now w e old (joins_of s.now w old r olds.now) q r right.old result right.new }
{
    let at = place_at(s, w, e, old);
    let bias = RAISE * (w as u64) + e;
    let low = raise_end(q.low, bias);
    let up = raise_end(q.up, bias);
    let joins = last_ends(r, olds, first_new(s, w, old));
    let spot = spot_of(r);
    let first = q.first as usize;
    join_run(s, w, e, at, joins, low, up, spot, &mut right[first..])
}

// The old runs copied to the parts of the first `n` rows, in columns made 0.
pub fn copy_runs(
    from: &[Row],
    lefts: &[u32],
    rights: &[u32],
    rows: &[Row],
    n: usize,
    left: &mut [u32],
    right: &mut [u32],
)
    requires { CopyAsked from.now lefts.now rights.now rows.now n left.old right.old }
    ensures { CopiedAs from.now lefts.now rights.now rows.now n left.old right.old left.new right.new }
{
    clear_runs(left, right);
    copy_column(from, lefts, rows, n, left);
    copy_column(from, rights, rows, n, right);
}
