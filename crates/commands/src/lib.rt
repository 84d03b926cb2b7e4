// The commands that are handed to the card, each written to the front of a command buffer.
#![tactic(auto)]

pub mod generate;
pub mod instruction;
pub mod options;
pub mod record;
pub mod value;
mod write;
