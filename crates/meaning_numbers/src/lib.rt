// The meanings of whole numbers: specs/ has the definitions, proofs/ what they imply. A crate has one function at least.
#![tactic(auto)]

pub fn nothing() {}
