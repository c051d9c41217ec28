// A run filed in its row's part of the run buffer. While a part is not full, its last right end has the number of runs written so far; so filling needs no room but the parts.
#![tactic(auto)]

ghost use Rattle.std.specs.Prelude.{◌≡◌, ◌+◌, ◌-◌, ◌<◌, ◌≤◌, set};
ghost use Rattle.meaning_curves.specs.Limits.{most_values};
ghost use Rattle.meaning_rows.proofs.Cursors.{file_right};
ghost use Rattle.build_parts.specs.Part.{written_in, EntryRoom, written, PartRoom};

use meaning_rows::Row;

// The entry `x`, `y` is written as the next of a part of `runs` entries, which is lent from its first entry on.
pub fn write_entry(runs: u32, x: usize, y: usize, left: &mut [u32], right: &mut [u32])
    requires { (x ≤ 4294967295) × (y ≤ 4294967295) × EntryRoom runs left.old right.old }
    ensures { (left.new ≡ set left.old (written_in runs right.old) x) × (right.new ≡ file_right right.old 0 runs (written_in runs right.old) y) }
{
    let size = runs as usize;
    let t = right[size - 1] as usize;
    left[t] = x as u32;
    right[t] = y as u32;
    if t + 1 < size {
        right[size - 1] = (t + 1) as u32;
    }
}

// The entry `x`, `y` is filed as the next of the row: the row's part of the buffer is lent to its writer.
pub fn file_entry(r: Row, x: usize, y: usize, left: &mut [u32], right: &mut [u32])
    requires { (x ≤ 4294967295) × (y ≤ 4294967295) × PartRoom r left.old right.old }
    ensures { (left.new ≡ set left.old (r.first + written r right.old) x) × (right.new ≡ file_right right.old r.first r.runs (written r right.old) y) }
{
    let first = r.first as usize;
    let runs = r.runs;
    write_entry(runs, x, y, &mut left[first..], &mut right[first..]);
}

// The run of the windows from `from` up to and not with `next` is filed as the next run of the row.
pub fn file_run(r: Row, from: usize, next: usize, left: &mut [u32], right: &mut [u32])
    requires from_lt_next { (from < next) × (next ≤ most_values) }
    requires part_room { PartRoom r left.old right.old }
    ensures left_after { left.new ≡ set left.old (r.first + written r right.old) from }
    ensures right_after { right.new ≡ file_right right.old r.first r.runs (written r right.old) (next - 1) }
{
    file_entry(r, from, next - 1, left, right);
}
