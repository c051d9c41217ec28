// The closest few of the matches so far (02, item 2), kept in order in the two slices of the list, as many as are asked for.
#![tactic(auto)]

ghost use Rattle.std.specs.Prelude.{◌<◌, ◌≤◌, length};
ghost use Rattle.meaning_curves.specs.Limits.{most_values};
ghost use Rattle.check_few.specs.Place.{Behind, Inserted};
ghost use Rattle.check_few.specs.Kept.{Keeps};

// Behind how many of the first `n` distances, which never fall, a match of distance `d` stands that is later than all others. One comparison where it stands behind all, two where before all.
pub fn place_of(distances: &[u64], n: usize, d: u64) -> usize
    requires { n ≤ length distances.now }
    ensures { Behind distances.now n d result }
{
    if n == 0 {
        return 0;
    }
    if distances[n - 1] <= d {
        return n;
    }
    if d < distances[0] {
        return 0;
    }
    // A search by hand: std's `partition_point` promises its place only where the distances rise, and `Behind` is promised of any.
    let mut low: usize = 0;
    let mut high = n - 1;
    while low < high {
        let middle = low + (high - low) / 2;
        if distances[middle] <= d {
            low = middle + 1;
        } else {
            high = middle;
        }
    }
    low
}

// An entry put at place `p` of both slices; those from there up to and not with place `n` move up by one.
pub fn insert_entry(offsets: &mut [u32], distances: &mut [u64], p: usize, n: usize, j: u32, d: u64)
    requires { (p ≤ n) × (n < length offsets.old) × (n < length distances.old) }
    ensures { Inserted p n j offsets.old offsets.new × Inserted p n d distances.old distances.new }
{
    offsets.copy_within(p..n, p + 1);
    offsets[p] = j;
    distances.copy_within(p..n, p + 1);
    distances[p] = d;
}

// A match at offset `j`, later than the `n` before it, of which the `k` closest stand first in the two slices: then the `k` closest of all do.
pub fn keep_entry(j: usize, d: u64, k: usize, n: usize, offsets: &mut [u32], distances: &mut [u64])
    requires { (j ≤ most_values) × (k ≤ length offsets.old) × (k ≤ length distances.old) }
    ensures { Keeps k n (j, d) offsets.old distances.old offsets.new distances.new }
{
    let held = n.min(k);
    let p = place_of(distances, held, d);
    if p < k {
        let top = n.min(k - 1);
        insert_entry(offsets, distances, p, top, j as u32, d);
    }
}
