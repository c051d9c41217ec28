// What each entry answers, and why it refuses. specs/ has, for each entry, its refusals, its answer and every buffer afterwards; proofs/ what they imply.
#![tactic(auto)]

ghost use Rattle.std.specs.Prelude.{◌≡◌};
ghost use Rattle.meaning_entries.specs.Reasons.{number_of};

use meaning_rows::Head;

// The conditions of 01 and 02 under which a call is refused, each with its number.
#[derive(Clone, Copy, PartialEq, Eq)]
pub enum Reason {
    SeriesLength = 1,
    Value = 2,
    Window = 3,
    Width = 4,
    Merge = 5,
    QueryLength = 6,
    QueryBelowWindow = 7,
    Band = 8,
    Threshold = 9,
    ScaleOrShift = 10,
    FlatQuery = 11,
    Text = 12,
    IllFormed = 20,
    FewerWindows = 21,
    MoreWindows = 22,
    Room = 23,
    FullList = 24,
    ClosestCount = 30,
}

impl From<Reason> for u32 {
    fn from(reason: Reason) -> u32
        ensures { result ≡ number_of reason }
    {
        reason as u32
    }
}

// Why a call is refused: the number of a condition, and its place.
#[derive(Clone, Copy, PartialEq, Eq)]
pub struct Refusal {
    pub number: u32,
    pub place: usize,
}

impl Refusal {
    // For a reason that applies at a place.
    pub fn at(reason: Reason, place: usize) -> Refusal
        ensures { result ≡ record { number = number_of reason; place = place } }
    {
        Refusal {
            number: u32::from(reason),
            place,
        }
    }
}

// An index in lent buffers, built, extended or read: its head, and how many rows and runs of the buffers are its.
#[derive(Clone, Copy, PartialEq, Eq)]
pub struct Held {
    pub head: Head,
    pub rows: usize,
    pub runs: usize,
}

// Of an audit: yes; the first row and offset filed wrongly; or how many windows stand nowhere.
#[derive(Clone, Copy, PartialEq, Eq)]
pub enum Audited {
    Yes,
    Wrong { row: usize, offset: usize },
    Missing { count: usize },
}

// Of a search: all matches are listed; or the list is full, which is refusal 24 and has the true counts; or the closest few are listed (02, item 2), and the counts are of all matches.
#[derive(Clone, Copy, PartialEq, Eq)]
pub enum Found {
    All { candidates: usize, matches: usize },
    Full { candidates: usize, matches: usize },
    Few { candidates: usize, matches: usize },
}

// Of two audits and two searches: both searches listed their matches, so many; or what stood first in the way answered, an audit that did not say yes or a search that was refused.
#[derive(Clone, Copy, PartialEq, Eq)]
pub enum Both {
    Listed { first: usize, second: usize },
    FirstAudit { audited: Result<Audited, Refusal> },
    SecondAudit { audited: Result<Audited, Refusal> },
    FirstSearch { found: Result<Found, Refusal> },
    SecondSearch { found: Result<Found, Refusal> },
}
