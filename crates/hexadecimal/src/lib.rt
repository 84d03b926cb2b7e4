// Bytes as hexadecimal digits, read and written.
#![tactic(auto)]

pub mod read;
pub mod write;
