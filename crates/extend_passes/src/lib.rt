// An index extended: the passes of an extension one after the other.
#![tactic(auto)]

ghost use Rattle.std.specs.Prelude.{◌≡◌, ◌+◌, ◌-◌, ◌*◌, length};
ghost use Rattle.meaning_curves.specs.Limits.{greatest_value};
ghost use Rattle.meaning_rows.specs.Extend.{extended};
ghost use Rattle.meaning_rows.specs.Index.{Index};
ghost use Rattle.meaning_entries.specs.Buffers.{index_buffers};
ghost use Rattle.extend_passes.specs.Finished.{HoldsExtended};
ghost use Rattle.extend_passes.specs.Whole.{index_of, PassesAsked};

use build_fill::fill_parts;
use extend_rows::{count_rows, lay_joined, weave_new};
use extend_runs::{copy_runs, join_first};
use meaning_rows::Row;
use rows_records::row_at;

// The passes, one after the other. The ghost value is the old index.
fn make_passes(
    s: &[i32],
    w: usize,
    e: u64,
    d: u64,
    base: u64,
    bias: u64,
    old: usize,
    from: &[Row],
    lefts: &[u32],
    rights: &[u32],
    rows: &mut [Row],
    left: &mut [u32],
    right: &mut [u32],
) -> usize
    ghost x: { Index }
    requires index { x ≡ index_of w d old from.now lefts.now rights.now }
    requires asked { (PassesAsked s.now w e d base old from.now lefts.now rights.now rows.old left.old right.old) × (bias ≡ greatest_value * w + e) }
    ensures { (result ≡ length (extended (index_of w d old from.now lefts.now rights.now) s.now).rows)
        × HoldsExtended (index_of w d old from.now lefts.now rights.now) s.now (index_buffers rows.old left.old right.old) (index_buffers rows.new left.new right.new) }
{
    let n = weave_new(s, w, e, d, base, old, from, rows, left);
    let i = count_rows(s, w, e, bias, old, rows, n, left, right);
    let r = row_at(rows, i);
    lay_joined(s, w, old, r, rights, i, rows, n, left);
    copy_runs(from, lefts, rights, rows, n, left, right);
    let q = row_at(rows, i);
    let at = join_first(s, w, e, old, q, r, rights, right);
    fill_parts(s, w, e, rows, n, at, left, right);
    n
}

// The index extended over the series; how many rows it has. Sums are raised by `bias` in all, which is `base` row widths.
pub fn extend_passes(
    s: &[i32],
    w: usize,
    e: u64,
    d: u64,
    base: u64,
    bias: u64,
    old: usize,
    from: &[Row],
    lefts: &[u32],
    rights: &[u32],
    rows: &mut [Row],
    left: &mut [u32],
    right: &mut [u32],
) -> usize
    requires { (PassesAsked s.now w e d base old from.now lefts.now rights.now rows.old left.old right.old) × (bias ≡ greatest_value * w + e) }
    ensures { (result ≡ length (extended (index_of w d old from.now lefts.now rights.now) s.now).rows)
        × HoldsExtended (index_of w d old from.now lefts.now rights.now) s.now (index_buffers rows.old left.old right.old) (index_buffers rows.new left.new right.new) }
{
    make_passes(
        s, w, e, d, base, bias, old, from, lefts, rights, rows, left, right,
    )
}
