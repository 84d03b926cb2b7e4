// What reading a text answers.
use crate::fault::TextFault;

mod reader;

pub use reader::read_text;

// Why a text is not read.
#[derive(Clone, Copy, PartialEq, Eq, Debug)]
pub enum ReadRefusal {
    // The work list has fewer than 64 places.
    ListShort,
    // The text has that fault.
    Fault(TextFault),
}
