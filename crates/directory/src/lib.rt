// A store in two areas of the caller's memory: a directory of slots beside the values.
#![tactic(auto)]

pub mod directory;
pub mod slot;
