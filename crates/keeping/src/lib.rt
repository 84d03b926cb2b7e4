// What a store keeps: the shares of its writers, texts taken into it, what is cleared, and the reader's own two objects.
#![tactic(auto)]

pub mod clear;
mod keep;
pub mod opening;
pub mod reader;
pub mod refusal;
pub mod shares;
pub mod take;
mod total;
