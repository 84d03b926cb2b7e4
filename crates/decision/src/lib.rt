// What the reader asks of the card: the Terminal Verification Results, the decision, and whether the cryptogram that the
// card gives stands.
#![tactic(auto)]

pub mod choice;
pub mod cryptogram;
pub mod verification;
