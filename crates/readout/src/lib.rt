// What is read out of a store: one object, the Data Record, the wanted objects.
#![tactic(auto)]

pub mod held;
mod object;
pub mod refusal;
mod tags;
pub mod wanted;
