//! The types of the machine: its tables, steps and replies.

/// A block of storage; the bytes `base` to `base + size` are its own. The original's block is what a `Storage` keeps
/// alive, or what a `Descriptor` describes.
#[derive(Clone, Copy, Debug, PartialEq, Eq, Drop)]
pub struct Block {
    /// Its first address.
    pub base: u64,
    /// Its bytes, more than 0.
    pub size: u64,
    /// A power of two that `base` is a multiple of.
    pub align: u64,
    /// Whether it came from outside, and is never written.
    pub external: bool,
}

/// A count of the holders of a block. In the original `Record`, with its `Storage`.
#[derive(Clone, Copy, Debug, PartialEq, Eq, Drop)]
pub struct Record {
    /// How many hold the block by this record.
    pub count: u64,
    /// The number of the block.
    pub block: usize,
    /// Whether the record isn't freed.
    pub live: bool,
}

/// Whether a handle reads or writes.
#[derive(Clone, Copy, Debug, PartialEq, Eq, Drop)]
pub enum Kind {
    /// It reads.
    View,
    /// It reads and writes.
    Mut,
}

/// The storage that a handle owns. In the original `Owner`, which a view keeps in an `OwnerCell`.
#[derive(Clone, Copy, Debug, PartialEq, Eq, Drop)]
pub enum Word {
    /// Nothing.
    Empty,
    /// The only share of a block, which the packed word describes. In the original `Descriptor`.
    Descriptor(u64),
    /// A share of the block that the record of this number counts.
    Record(usize),
}

/// A value that may hold a block.
#[derive(Clone, Copy, Debug, PartialEq, Eq, Drop)]
pub struct Handle {
    /// Whether it writes.
    pub kind: Kind,
    /// The address of its first byte.
    pub ptr: u64,
    /// Its readable bytes.
    pub len: u64,
    /// The bytes from `ptr` to the end of the block, for a writable handle; 0 for a view.
    pub cap: u64,
    /// The storage that it owns.
    pub word: Word,
}

/// The part of a view that an unfinished clone or slice takes.
#[derive(Clone, Copy, Debug, PartialEq, Eq, Drop)]
pub struct Share {
    /// The number of the view, which is borrowed until the call ends.
    pub handle: usize,
    /// The first byte taken, counted from the view's.
    pub lo: u64,
    /// The end of the bytes taken, exclusive.
    pub hi: u64,
}

/// A call that isn't finished, by what its next step does.
#[derive(Clone, Copy, Debug, PartialEq, Eq, Drop)]
pub enum Pending {
    /// A clone or slice has loaded this descriptor, and makes a record.
    Loaded(Share, u64),
    /// A clone or slice has made the record of this number, and tries to put it in the descriptor's place.
    Ready(Share, u64, usize),
    /// A clone or slice adds a holder to the record of this number.
    Add(Share, usize),
    /// A drop subtracts its holder from the record of this number.
    Subtract(usize),
    /// A drop frees the record of this number and its block. If the count is 0, the drop has subtracted its holder; a
    /// count of 1 is that holder.
    Release(usize),
}

/// A block that was freed.
#[derive(Clone, Copy, Debug, PartialEq, Eq, Drop)]
pub struct Freed {
    /// The address of its first byte.
    pub base: u64,
    /// Its bytes.
    pub size: u64,
    /// Its alignment.
    pub align: u64,
}

/// A call that a thread may begin. Handles go by their numbers.
#[derive(Clone, Copy, Debug, PartialEq, Eq, Drop)]
pub enum Call {
    /// Makes a block of this base, size and alignment, and a writable handle on it.
    New(u64, u64, u64),
    /// Adopts a block of this base and size, and makes a view of it.
    External(u64, u64),
    /// Makes a view of this many bytes, without a block.
    Static(u64),
    /// Puts this many bytes into a writable handle.
    Put(usize, u64),
    /// Drops this many bytes from the front of a handle.
    Advance(usize, u64),
    /// Makes a writable handle a view; an empty one frees its block.
    Freeze(usize),
    /// Makes a view writable if it alone holds its native block, or has neither block nor bytes.
    TryIntoMut(usize),
    /// Moves this many first bytes of a view into a view of their own.
    SplitTo(usize, u64),
    /// Tests whether a handle alone holds its block.
    IsUnique(usize),
    /// Turns the record of a view that alone holds a native block into a descriptor, if the block fits a word; the
    /// record is freed.
    Demote(usize),
    /// Clones a view, in several steps if it has a block.
    Clone(usize),
    /// Makes a view of the bytes from the first number to the second, in several steps if it has some and a block.
    Slice(usize, u64, u64),
    /// Drops the handle; the last holder frees the block. Takes several steps for a view with a record.
    Drop(usize),
}

/// A thread begins a call, or goes on with its unfinished one. The flag says whether the step may allocate.
#[derive(Clone, Copy, Debug, PartialEq, Eq, Drop)]
pub enum Act {
    /// The first step of a call.
    Begin(Call, bool),
    /// A further step of the unfinished call.
    Go(bool),
}

/// One step of one thread, which goes by its number. A step represents at most one atomic access to a word or a count
/// of the original.
#[derive(Clone, Copy, Debug, PartialEq, Eq, Drop)]
pub struct Step {
    /// The thread.
    pub thread: usize,
    /// Its act.
    pub act: Act,
}

/// Why a step isn't executed: the first cause that holds, in this order.
#[derive(Clone, Copy, Debug, PartialEq, Eq, Drop)]
pub enum Refusal {
    /// The thread has an unfinished call.
    Busy,
    /// The thread has no unfinished call to go on with, or doesn't exist.
    Idle,
    /// The number was never given, or the handle is gone.
    NoHandle,
    /// The handle is a view and has to be writable, or the reverse. Or it has no block, and the call requires one.
    WrongKind,
    /// An unfinished clone or slice borrows the handle, and the call is neither.
    Borrowed,
    /// A length or range doesn't fit the handle.
    OutOfRange,
    /// No block may be there.
    BadPlace,
    /// The step has to allocate, and its flag denies it. An unfinished call is ended.
    Memory,
    /// The step would add a holder, and the count is above the ceiling. An unfinished call is ended.
    Ceiling,
    /// A table that the step adds an entry to is full, or has 2^32 entries.
    Room,
}

/// A table that a step would add to is full.
#[derive(Clone, Copy, Debug, PartialEq, Eq, Drop)]
pub(super) struct Full;

/// The reply to a step.
#[derive(Clone, Copy, Debug, PartialEq, Eq, Drop)]
pub enum Reply {
    /// The handle of this number is new.
    Made(usize),
    /// The call is unfinished.
    More,
    /// The call is done.
    Done,
    /// The view can't become writable, or its record can't become a descriptor; nothing has changed.
    Declined,
    /// Whether the handle is the only holder of its block.
    Unique(bool),
    /// The step isn't executed.
    Refused(Refusal),
}
