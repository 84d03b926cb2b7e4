// Any list of calls of a reader, and two readers side by side: the law of isolation, whole.
#![tactic(auto)]

pub mod beside;
pub mod call;
