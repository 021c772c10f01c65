//! Why no frame is taken from a stream, or sent to one.
ghost use Rattle.std.specs.Prelude.{◌≡◌};
ghost use Rattle.iobufs_frames.specs.declared.error.FrameError.TheVariants.{Frame, Io};

use iobufs_core::codec::Error;
use std::io;

/// Why no frame is taken from a stream, or sent to one.
#[derive(Debug, Drop, thiserror::Error)]
pub enum FrameError {
    /// No frame begins here, whatever follows: `Error::InvalidVarint`, or `Error::InvalidLength`. A frame can't be sent
    /// (see `Layout::header_within`): `Error::TooLong`. Or an allocation for a frame failed: `Error::Memory`.
    #[error("bad frame: {0}")]
    Frame(Error),
    /// The input ends inside a frame.
    #[error("the input ends inside a frame")]
    Cut,
    /// The error of the reader or the writer, or `ErrorKind::OutOfMemory` if space for a read can't be allocated. A
    /// `FrameReader` reads again after `ErrorKind::Interrupted`; after 2^64 - 1 times the error is
    /// `ErrorKind::TimedOut`.
    #[error("{0}")]
    Io(io::Error),
}

impl From<io::Error> for FrameError {
    ghost from_gives = { λ error fault. fault ≡ Io error };

    fn from(error: io::Error) -> FrameError {
        FrameError::Io(error)
    }
}

impl From<Error> for FrameError {
    ghost from_gives = { λ error fault. fault ≡ Frame error };

    fn from(error: Error) -> FrameError {
        FrameError::Frame(error)
    }
}
