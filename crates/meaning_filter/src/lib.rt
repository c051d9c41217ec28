// What a search is asked for beside its query: the kind of query, its limits, and what it hands out. specs/ has the meanings, proofs/ what they imply.
#![tactic(auto)]

// A query's kind.
#[derive(Clone, Copy, PartialEq, Eq)]
pub enum Kind {
    Raw,
    Normal,
}

// The limits of a search: band b, threshold E, scale limit a in tenths, shift limit h.
#[derive(Clone, Copy, PartialEq, Eq)]
pub struct Limits {
    pub band: u32,
    pub threshold: u64,
    pub scale: u32,
    pub shift: u32,
}

// What a search hands out: all matches; or the closest few, so many at most (02, item 2).
// An enum of its own: it is what is asked, and no outcome.
#[derive(Clone, Copy, PartialEq, Eq)]
pub enum Pick {
    All,
    Closest { count: u32 },
}

// What is asked of a search beside its query.
#[derive(Clone, Copy, PartialEq, Eq)]
pub struct Ask {
    pub kind: Kind,
    pub limits: Limits,
    pub pick: Pick,
}

// A crate has one function at least.
pub fn nothing() {}
