// A sale from opening to outcome, as definitions: phases, causes, outcomes and refusals, what each call does, and the
// law that no card reaches an object of ours.
#![tactic(auto)]

pub mod fault;
pub mod outcome;
pub mod phase;
pub mod refusal;
pub mod theorems;
