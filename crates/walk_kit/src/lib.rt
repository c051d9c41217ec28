// Laws for proofs that walk through a function's steps by hand: proofs/ has them. A crate has one function at least.
#![tactic(auto)]

pub fn nothing() {}
