// The dictionary: which data objects there are, how long their values may be, of which format, and who writes them.
#![tactic(auto)]

pub mod entry;
pub mod find;
pub mod name;
pub mod table;
