// The stages of a run, as functions over any store.
#![tactic(auto)]

pub mod answer;
mod ask;
pub mod brought;
pub mod card;
pub mod cryptogram;
pub mod fci;
pub mod missing;
pub mod next;
pub mod options;
pub mod outer;
pub mod record;
