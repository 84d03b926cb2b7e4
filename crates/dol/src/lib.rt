// Data object lists (DOLs): how much data a list asks for, and the data itself, from the objects that a store holds.
#![tactic(auto)]

pub mod fill;
pub mod fit;
pub mod size;
