// The lent index: its row records and its head, which C may lend too. specs/ has the meanings, proofs/ what they imply.
#![tactic(auto)]

// A row record: its range [low, up), and its runs, which are `runs` entries of the run buffer from `first` on.
#[repr(C)]
#[derive(Clone, Copy, PartialEq, Eq)]
pub struct Row {
    pub low: i32,
    pub up: i32,
    pub first: u32,
    pub runs: u32,
}

// The head of an index: window length, row width, number of windows.
#[repr(C)]
#[derive(Clone, Copy, PartialEq, Eq)]
pub struct Head {
    pub window: u32,
    pub width: u32,
    pub windows: u32,
}

// A crate has one function at least.
pub fn nothing() {}
