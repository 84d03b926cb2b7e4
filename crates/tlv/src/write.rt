// What writing an object answers.
mod object;

pub use object::write_object;

// Why an object is not written.
#[derive(Clone, Copy, PartialEq, Eq, Debug)]
pub enum WriteRefusal {
    // The number is that of no tag.
    NoTag,
    // The value has more than 255 bytes.
    TooLong,
    // The buffer is shorter than the object.
    Short,
}
