// A store in one area of the caller's memory: entries back to back.
#![tactic(auto)]

mod bytes;
pub mod strip;
