// A list over the caller's memory in which no two elements have equal keys, and elements that have one.
#![tactic(auto)]

pub mod key;
pub mod list;
pub mod record;
pub mod tag;
