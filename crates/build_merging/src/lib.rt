// Merging as one step of a build: the neighbours of all runs are named in the parts of their rows, and the rows merged by the names.
#![tactic(auto)]

ghost use Rattle.std.specs.Prelude.{List, ◌≤◌};
ghost use Rattle.meaning_curves.specs.Limits.{greatest_merge};
ghost use Rattle.meaning_curves.specs.Curve.{window_sum};
ghost use Rattle.meaning_rows.specs.Build.{SetRow, merged};
ghost use Rattle.sums_slide.specs.Levels.{windows_of};
ghost use Rattle.rows_pack.specs.PackedAs.{PackedAs};
ghost use Rattle.build_names.specs.Packed.{Sound};
ghost use Rattle.build_merging.specs.Standing.{Standing};

use build_merge::merge_rows;
use build_names::name_neighbours;
use meaning_rows::Row;

// The rows of the windows, packed in the first `n` records, are merged in place; how many there are then. What the two columns hold afterwards is of no use.
pub fn merge_packed(
    s: &[i32],
    w: usize,
    e: u64,
    g: u64,
    rows: &mut [Row],
    n: usize,
    left: &mut [u32],
    right: &mut [u32],
) -> usize
    requires { Standing s.now w e rows.old n left.old right.old × (g ≤ greatest_merge) }
    ensures { (l : List SetRow) → Sound (window_sum s.now w) (windows_of s.now w) l → PackedAs (windows_of s.now w) l rows.old n → PackedAs (windows_of s.now w) (merged g (windows_of s.now w) l) rows.new result }
{
    name_neighbours(s, w, e, rows, n, left, right);
    merge_rows(rows, n, left, right, g)
}
