// The commands, and the replies to them.
ghost use Rattle.iobufs_run.specs.Refusals.{refusal_of, codec_refusal};
ghost use Rattle.iobufs_run.specs.declared.command.Refusal.TheVariants.{Memory};
ghost use Rattle.std.specs.Prelude.{◌≡◌};

use bytes::Bytes;
use iobufs_core::codec::{BufError, Error, RangeCfg, Refused};
use std::alloc::AllocError;
use std::fmt;
use std::ops::Bound;

/// A command on named buffers. `dst` is a destination, `src` a source, `target` a buffer that is changed, shown or
/// freed in place.
#[derive(Debug, Drop)]
pub enum Cmd {
    /// Makes an empty `IoBufMut` of this capacity and alignment.
    NewMut {
        dst: usize,
        capacity: usize,
        align: usize,
    },
    /// Makes an `IoBufMut` of `len` zeros, without spare capacity.
    Zeroed {
        dst: usize,
        len: usize,
        align: usize,
    },
    /// Makes an `IoBufMut` of a copy of these bytes.
    Adopt {
        dst: usize,
        bytes: Vec<u8>,
    },
    /// Makes an `IoBuf` of a static slice.
    Static {
        dst: usize,
        text: &'static [u8],
    },
    /// Makes an `IoBuf` of a `Bytes` that is a copy of these bytes.
    FromBytes {
        dst: usize,
        bytes: Vec<u8>,
    },
    /// Puts bytes into the spare capacity of a writable buffer.
    Put {
        target: usize,
        bytes: Vec<u8>,
    },
    /// Puts one byte `n` times into the spare capacity of a writable buffer.
    Fill {
        target: usize,
        byte: u8,
        n: usize,
    },
    /// Makes `n` bytes readable; those that were not are zero. An `IoBufsMut` is filled in order: its later buffers
    /// lose readable bytes that `n` doesn't reach.
    SetLen {
        target: usize,
        n: usize,
    },
    /// Keeps at most the first `n` bytes of an `IoBufMut`.
    Truncate {
        target: usize,
        n: usize,
    },
    /// Keeps none of the bytes of an `IoBufMut`.
    Clear {
        target: usize,
    },
    /// Overwrites all readable bytes of a writable buffer.
    Overwrite {
        target: usize,
        bytes: Vec<u8>,
    },
    /// Converts an `IoBufMut` into an `IoBuf`, or an `IoBufsMut` into an `IoBufs`.
    Freeze {
        src: usize,
        dst: usize,
    },
    /// Converts an `IoBuf` into an `IoBufMut`, or declines.
    Recover {
        src: usize,
        dst: usize,
    },
    /// Clones an `IoBuf` or an `IoBufs`.
    Clone {
        src: usize,
        dst: usize,
    },
    /// Takes a range of an `IoBuf`, which stays.
    Slice {
        src: usize,
        dst: usize,
        lo: Bound<usize>,
        hi: Bound<usize>,
    },
    /// Moves the first `at` bytes of an `IoBuf` or an `IoBufs` to `dst`.
    Split {
        src: usize,
        dst: usize,
        at: usize,
    },
    /// Drops the first `n` bytes.
    Advance {
        target: usize,
        n: usize,
    },
    /// Takes the first `n` bytes; they are the reply.
    Take {
        target: usize,
        n: usize,
    },
    /// Concatenates views into an `IoBufs`, in this order.
    Gather {
        dst: usize,
        sources: Vec<usize>,
    },
    /// Collects `IoBufMut`s into an `IoBufsMut`, in this order.
    GatherMut {
        dst: usize,
        sources: Vec<usize>,
    },
    /// Adds a view at the end of an `IoBufs`.
    Append {
        target: usize,
        src: usize,
    },
    /// Adds a view at the start of an `IoBufs`.
    Prepend {
        target: usize,
        src: usize,
    },
    /// Converts an `IoBufs` into an `IoBuf`, or an `IoBufsMut` into an `IoBufMut`.
    Coalesce {
        src: usize,
        dst: usize,
    },
    /// Builds an `IoBufs` of inline bytes, with space for `capacity`, and of pushed views, in this order.
    Build {
        dst: usize,
        capacity: usize,
        items: Vec<Item>,
    },
    /// Encodes a view: a varint length and its bytes.
    Encode {
        src: usize,
        dst: usize,
    },
    /// Reads a view from the front of an `IoBuf` or an `IoBufs`, of a length in this range.
    Decode {
        src: usize,
        dst: usize,
        range: RangeCfg,
    },
    /// Frees the name.
    Drop {
        target: usize,
    },
    /// Shows what a name holds.
    Show {
        target: usize,
    },
}

/// An item of an `IoBufs` that is built.
#[derive(Debug, Drop)]
pub enum Item {
    /// Inline bytes.
    Inline(Vec<u8>),
    /// The name of a view that is pushed, and consumed.
    Push(usize),
}

/// The reply to a command.
#[derive(Debug, PartialEq, Eq, Drop)]
pub enum Reply {
    /// The command is done.
    Done,
    /// The bytes that were taken.
    Bytes(Bytes),
    /// The buffer of a name, chunk by chunk.
    Shown { kind: Kind, pieces: Vec<Piece> },
    /// The command was refused. If the cause is `Memory`, names that it consumes may be free.
    Refused(Refusal),
}

/// The kind of the buffer that a name holds.
#[derive(Clone, Copy, Debug, PartialEq, Eq)]
pub enum Kind {
    /// An `IoBufMut`.
    Part,
    /// An `IoBuf`.
    View,
    /// An `IoBufs`.
    Text,
    /// An `IoBufsMut`.
    Parts,
}

/// One chunk of what is shown: its bytes, and its spare capacity.
#[derive(Debug, PartialEq, Eq, Drop)]
pub struct Piece {
    /// Its readable bytes.
    pub bytes: Vec<u8>,
    /// How many more fit; 0 in an `IoBuf` or an `IoBufs`.
    pub spare: usize,
}

/// Why a command is refused: the first cause that holds, in this order.
#[derive(Clone, Copy, Debug, PartialEq, Eq)]
pub enum Refusal {
    /// A name is not in the table.
    NoName,
    /// A source or a target holds nothing, or another kind than the command takes.
    WrongKind,
    /// A destination is in use and isn't consumed, or a source is listed twice.
    InUse,
    /// A length, range or offset doesn't fit the buffer.
    OutOfRange,
    /// As `BufError::BadLayout`.
    BadLayout,
    /// As `BufError::TooLong`.
    TooLong,
    /// The view can't become writable, and stays: its storage is shared, that of a `Bytes`, or static with bytes.
    Declined,
    /// A view can't be decoded, for this reason. `Error::TooLong`: an encoded view would be too long. Never
    /// `Error::Memory`.
    Codec(Error),
    /// An allocation failed.
    Memory,
}

// The result of a command: its reply, or the cause of its refusal.
pub(crate) type Outcome = Result<Reply, Refusal>;

impl fmt::Display for Refusal {
    fn fmt<W: fmt::Write>(&self, f: &mut fmt::Formatter<W>) -> fmt::Result {
        match self {
            Refusal::NoName => f.write_str("N1 NoName"),
            Refusal::WrongKind => f.write_str("N2 WrongKind"),
            Refusal::InUse => f.write_str("N3 InUse"),
            Refusal::OutOfRange => f.write_str("N4 OutOfRange"),
            Refusal::BadLayout => f.write_str("N5 BadLayout"),
            Refusal::TooLong => f.write_str("N6 TooLong"),
            Refusal::Declined => f.write_str("N7 Declined"),
            Refusal::Codec(error) => write_codec(*error, f),
            Refusal::Memory => f.write_str("N9 Memory"),
        }
    }
}

// A fault of reading, after the number of its kind.
fn write_codec<W: fmt::Write>(error: Error, f: &mut fmt::Formatter<W>) -> fmt::Result {
    match error {
        Error::EndOfBuffer => f.write_str("N8 C1 EndOfBuffer"),
        Error::InvalidVarint => f.write_str("N8 C2 InvalidVarint"),
        Error::InvalidLength(len) => write!(f, "N8 C3 InvalidLength {len}"),
        Error::Memory => f.write_str("N8 C4 Memory"),
        Error::TooLong => f.write_str("N8 C5 TooLong"),
        Error::BadLayout => f.write_str("N8 C6 BadLayout"),
    }
}

impl From<AllocError> for Refusal {
    ghost from_gives = { λ _ refusal. refusal ≡ Memory };

    fn from(_error: AllocError) -> Refusal {
        Refusal::Memory
    }
}

impl From<BufError> for Refusal {
    ghost from_gives = { λ error refusal. refusal ≡ refusal_of error };

    fn from(error: BufError) -> Refusal {
        match error {
            BufError::Memory => Refusal::Memory,
            BufError::BadLayout => Refusal::BadLayout,
            BufError::TooLong => Refusal::TooLong,
        }
    }
}

impl From<Error> for Refusal {
    ghost from_gives = { λ error refusal. refusal ≡ codec_refusal error };

    fn from(error: Error) -> Refusal {
        match error {
            Error::Memory => Refusal::Memory,
            error => Refusal::Codec(error),
        }
    }
}

impl<T: Drop> From<Refused<T>> for Refusal {
    ghost from_gives = { λ refused refusal. refusal ≡ refusal_of refused.cause };

    fn from(refused: Refused<T>) -> Refusal {
        Refusal::from(refused.cause)
    }
}
