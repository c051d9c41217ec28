// The clearing of a buffer from a place on, for entries of any type.
#![tactic(auto)]

ghost use Rattle.std.specs.Prelude.{◌≡◌};
ghost use Rattle.clear.specs.Clear.{cleared_to};

// Every entry from `from` on is made `zero`.
pub fn clear<T: Copy>(buffer: &mut [T], from: usize, zero: T)
    ensures { buffer.new ≡ cleared_to zero from buffer.old }
{
    // std's `fill` promises this only of a type whose clones equal what they are made of, and `Copy` alone does not say so.
    for i in from..buffer.len() {
        buffer[i] = zero;
    }
}
