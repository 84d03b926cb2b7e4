// What the pump's host reads out of a reader.
#![tactic(auto)]

pub mod read;
mod refusal;
