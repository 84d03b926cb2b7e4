// Texts of BER-TLV objects, read and written as ISO/IEC 7816-4 and EMV Book 3 annex B have them.
#![tactic(auto)]

pub mod fault;
pub mod place;
pub mod text;
pub mod token;
pub mod worked;
pub mod write;
