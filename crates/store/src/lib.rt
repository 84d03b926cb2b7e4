// Where objects are kept: a map from tags to values under two limits, read by one interface and written by another.
#![tactic(auto)]

pub mod dropping;
pub mod packing;
pub mod reading;
pub mod steps;
pub mod writing;
