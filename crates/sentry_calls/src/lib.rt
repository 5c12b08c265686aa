//! The calls of an engine as values, with what each of them replies, hands out and leaves.
#![tactic(auto)]

pub mod call;
