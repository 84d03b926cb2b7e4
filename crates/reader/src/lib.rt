// The reader: a sale from opening to outcome, over any store.
#![tactic(auto)]

pub mod reader;
