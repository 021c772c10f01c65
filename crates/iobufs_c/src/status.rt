// The statuses that calls return.
ghost use Rattle.std.specs.Prelude.{◌≡◌, if◌then◌else◌};
ghost use Rattle.iobufs_c.specs.Codes.{code_of, of_buf_error, of_error};

use iobufs_core::codec::{BufError, Error};

/// The status that a call returns, as its number in the header's `enum iobufs_code`.
#[derive(Clone, Copy)]
pub enum Status {
    /// Done.
    Done,
    /// An allocation failed.
    Memory,
    /// A capacity would be above `isize::MAX`.
    BadLayout,
    /// A sum of lengths or capacities would be too large, or a header can't have this length or these bytes.
    TooLong,
    /// A length, a range or an offset doesn't fit the buffer.
    OutOfRange,
    /// Fewer bytes are left than are required, or a frame isn't whole.
    EndOfBuffer,
    /// A varint is invalid.
    InvalidVarint,
    /// The length is outside the range, or the number in a header is below what it counts.
    InvalidLength,
    /// The buffer can't be converted, and stays.
    Declined,
    /// The kind of a bound, a prefix, or a number's size or order, is unknown.
    BadKind,
}

impl Status {
    /// Returns the number for C.
    pub(crate) fn code(self) -> u8
        ensures { result ≡ code_of self }
    {
        match self {
            Status::Done => 0,
            Status::Memory => 1,
            Status::BadLayout => 2,
            Status::TooLong => 3,
            Status::OutOfRange => 4,
            Status::EndOfBuffer => 5,
            Status::InvalidVarint => 6,
            Status::InvalidLength => 7,
            Status::Declined => 8,
            Status::BadKind => 9,
        }
    }
}

/// Returns the number of done, or of a cause.
pub(crate) fn done_or(is_done: bool, cause: Status) -> u8
    ensures { result ≡ (if is_done then 0 else code_of cause) }
{
    if is_done { 0 } else { cause.code() }
}

/// Returns the number of a buffer's error.
pub(crate) fn refusal(cause: BufError) -> u8
    ensures { result ≡ code_of (of_buf_error cause) }
{
    match cause {
        BufError::Memory => Status::Memory.code(),
        BufError::BadLayout => Status::BadLayout.code(),
        BufError::TooLong => Status::TooLong.code(),
    }
}

/// Returns the number of a reader's error.
pub(crate) fn fault(error: Error) -> u8
    ensures { result ≡ code_of (of_error error) }
{
    match error {
        Error::EndOfBuffer => Status::EndOfBuffer.code(),
        Error::InvalidVarint => Status::InvalidVarint.code(),
        Error::InvalidLength(_) => Status::InvalidLength.code(),
        Error::Memory => Status::Memory.code(),
        Error::BadLayout => Status::BadLayout.code(),
        Error::TooLong => Status::TooLong.code(),
    }
}
