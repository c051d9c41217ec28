// Vectors in groups, as the programs that try cases read them: each is tried, and of each group it is said how many agree.
#![tactic(auto)]

ghost use Rattle.std.specs.Prelude.{◌≡◌, ◌+◌, min, true, false};

use std::fmt::{self, Write};
use try_out::Out;

// What stands at a place among the vectors: one, and whether it agrees; or the end of a group. Behind it the next place.
#[derive(Clone, Copy)]
pub enum Step {
    Vector { agrees: bool, next: usize },
    End { group: u64, next: usize },
}

// The vectors of a program.
pub trait Groups {
    // The name of a group.
    fn name(group: u64) -> &'static str;

    // What stands at a place.
    fn step(nums: &[u64], at: usize) -> Step;
}

// How many vectors of a group were tried, and how many agree.
#[derive(Clone, Copy, Default)]
pub struct Tally {
    pub tried: u64,
    pub agreed: u64,
}

impl Tally {
    // With one vector more.
    pub fn and(self, agrees: bool) -> Tally
        ensures tried { result.tried ≡ min (self.tried + 1) 18446744073709551615 }
        ensures agreed { agrees ≡ true → result.agreed ≡ min (self.agreed + 1) 18446744073709551615 }
        ensures stays { agrees ≡ false → result.agreed ≡ self.agreed }
    {
        Tally {
            tried: self.tried.saturating_add(1),
            agreed: if agrees {
                self.agreed.saturating_add(1)
            } else {
                self.agreed
            },
        }
    }
}

// The vectors from a place on, so many steps.
pub fn run_groups<G: Groups>(nums: &[u64], from: usize, steps: u64) -> fmt::Result {
    let mut out = Out;
    let mut at = from;
    let mut tally = Tally::default();
    for _ in 0..steps {
        match G::step(nums, at) {
            Step::Vector { agrees, next } => {
                tally = tally.and(agrees);
                at = next;
            }
            Step::End { group, next } => {
                let name = G::name(group);
                writeln!(out, "{name}: {} of {} agree", tally.agreed, tally.tried)?;
                tally = Tally::default();
                at = next;
            }
        }
    }
    Ok(())
}
