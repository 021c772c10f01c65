// Why a value is not decoded.
ghost use Rattle.std.specs.Prelude.{◌≡◌};
ghost use Rattle.iobufs_core.specs.Errors.{error_of};
ghost use Rattle.iobufs_codec.specs.declared.fault.Fault.TheVariants.{Codec};

use iobufs_core::codec::{BufError, Error};
use std::alloc::AllocFailed;

/// Why a value is not decoded (the codec's `Error`, of which `iobufs_core` has the variants for lengths and bytes).
#[derive(Clone, Copy, Debug, PartialEq, Eq, thiserror::Error)]
pub enum Fault {
    /// A number, a length or bytes are missing or invalid, or an allocation failed.
    #[error("{0}")]
    Codec(Error),
    /// The byte of a `bool` or an `Option` is neither 0 nor 1.
    #[error("InvalidBool")]
    InvalidBool,
    /// This byte is of no kind of the value.
    #[error("InvalidEnum")]
    InvalidEnum(u8),
    /// A type of a layer above doesn't admit the parts. No value of this crate fails with it.
    #[error("Invalid")]
    Invalid,
    /// This number of bytes remains after a value that has to be all.
    #[error("ExtraData")]
    ExtraData(usize),
}

impl From<Error> for Fault {
    ghost from_gives = { λ error e. e ≡ Codec error };

    fn from(error: Error) -> Fault {
        Fault::Codec(error)
    }
}

impl From<BufError> for Fault {
    ghost from_gives = { λ cause e. e ≡ Codec (error_of cause) };

    fn from(cause: BufError) -> Fault {
        Fault::Codec(Error::from(cause))
    }
}

impl<T: Drop> From<AllocFailed<T>> for Fault {
    ghost use Rattle.iobufs_core.specs.declared.codec.base.Error.TheVariants as error;

    ghost from_gives = { λ _ e. e ≡ Codec error.Memory };

    fn from(_error: AllocFailed<T>) -> Fault {
        Fault::Codec(Error::Memory)
    }
}
