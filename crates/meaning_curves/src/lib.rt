// The limits of documents 01 and 02 for the code, as specs/Limits has them. Of series, stretches and distances specs/ has the definitions, proofs/ what they imply.
#![tactic(auto)]

ghost use Rattle.std.specs.Prelude.{◌≡◌};
ghost use Rattle.meaning_curves.specs.Constants.{meant};

// The most values of a series, and so the most windows of an index.
pub const MOST_VALUES: usize = 1048576;

// The most values of a series that the search program and the audit of two texts take.
pub const MOST_PROGRAM_VALUES: usize = 4096;

// Value: -10,000 to 10,000.
pub const LEAST_VALUE: i32 = -10000;

pub const GREATEST_VALUE: i32 = 10000;

// Window length w: 1 to 256.
pub const LONGEST_WINDOW: u32 = 256;

// Row width d, in sums: 1 to 1,000,000.
pub const WIDEST_ROW: u32 = 1000000;

// Merge percentage g: 0 to 100.
pub const GREATEST_MERGE: u32 = 100;

// Query length m: 1 to 1,024.
pub const LONGEST_QUERY: usize = 1024;

// Threshold E: 0 to 10^12.
pub const GREATEST_THRESHOLD: u64 = 1000000000000;

// Scale limit a, in tenths: 10 to 100.
pub const LEAST_SCALE: u32 = 10;

pub const GREATEST_SCALE: u32 = 100;

// Shift limit h: 0 to 20,000.
pub const GREATEST_SHIFT: u32 = 20000;

// The closest few, k (02, item 2): 1 to 64.
pub const MOST_CLOSEST: u32 = 64;

// Ends of a range: inside -4,000,000 to 4,000,000.
pub const LOWEST_END: i32 = -4000000;

pub const HIGHEST_END: i32 = 4000000;

// All of them, for the promise that they are the limits of the definitions.
#[derive(Clone, Copy)]
pub struct Constants {
    pub values: usize,
    pub program: usize,
    pub low: i32,
    pub high: i32,
    pub window: u32,
    pub width: u32,
    pub merge: u32,
    pub query: usize,
    pub threshold: u64,
    pub least: u32,
    pub scale: u32,
    pub shift: u32,
    pub closest: u32,
    pub bottom: i32,
    pub top: i32,
}

pub fn all_limits() -> Constants
    ensures { result ≡ meant }
{
    Constants {
        values: MOST_VALUES,
        program: MOST_PROGRAM_VALUES,
        low: LEAST_VALUE,
        high: GREATEST_VALUE,
        window: LONGEST_WINDOW,
        width: WIDEST_ROW,
        merge: GREATEST_MERGE,
        query: LONGEST_QUERY,
        threshold: GREATEST_THRESHOLD,
        least: LEAST_SCALE,
        scale: GREATEST_SCALE,
        shift: GREATEST_SHIFT,
        closest: MOST_CLOSEST,
        bottom: LOWEST_END,
        top: HIGHEST_END,
    }
}
