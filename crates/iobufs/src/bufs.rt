// Buffers of several chunks. A clause sees the bytes, and where each chunk begins and how it is stored.
ghost use Rattle.iobufs.specs.Inside.Pieces.{AreViews, of_pieces, pieces_bytes};
ghost use Rattle.iobufs.specs.Located.{greatest_key, keys_upto};
ghost use Rattle.iobufs.specs.Refusals.{Adds, IsRefusedAt};
ghost use Rattle.iobufs.specs.Sending.{IsRestOf, IsSent};
ghost use Rattle.iobufs.specs.Splitting.{Splits, SplitsFree};
ghost use Rattle.iobufs.specs.Views.{text_views};
ghost use Rattle.iobufs_core.specs.Chunks.{first_chunk};
ghost use Rattle.iobufs_core.specs.MarkedText.{IsMarked, chunk_count as count_of, default_text, is_single, joined, of_view, taken_view, text_append, text_chunks, text_len, text_prepend, text_rest, text_split_front, text_coalesced, chunk_count};
ghost use Rattle.iobufs_core.specs.declared.codec.base.BufError.{BufError};
ghost use Rattle.iobufs_core.specs.Part.{part_frozen};
ghost use Rattle.iobufs_core.specs.Recovery.{IsAdopted};
ghost use Rattle.iobufs_core.specs.View.{View, default_view, bytes_mark, static_mark, IsFreelyShared};
ghost use Rattle.std.specs.Cmp.Lexicographic.{pointwise};
ghost use Rattle.std.specs.Fn.{CalledAt};
ghost use Rattle.std.specs.Iterator.{DrainsIf, IsFinite, YieldsFirstBy, item_count};
ghost use Rattle.std.specs.Iterator.Runs.{SomeRun, WholeRun};
ghost use Rattle.std.specs.Io.KnownBytes.{Appends};
ghost use Rattle.std.specs.IoError.{error_kind};
ghost use Rattle.std.specs.declared.io.ErrorKind.TheVariants.{Interrupted};
ghost use Rattle.std.specs.List.{FoldsTo};
ghost use Rattle.std.specs.Option.{option_copied};
ghost use Rattle.std.specs.Prelude.{◌≢◌, ◌↔◌, None, IfSome, IsSome, IsTrue, IsFalse, nat_le, ◌≡◌, ℕ, List, ◌∷◌, ◌++◌, ◌+◌, ◌*◌, ◌<◌, ◌≤◌, ◌^◌, ◌==◌, [], length, if◌then◌else◌, false, true, slice_get, IsOk, IfOk, IfErr, OnOk, OnErr, IsOkUnless, IsErrAnd, MatchOption, MatchResult, drop, Err, ◌-◌, nat_eq, Some, codes, ⊤};
ghost use Rattle.std.proofs.Common.{rules};
ghost use Rattle.std.specs.Cmp.Rules.{comparing};
ghost use Rattle.std.specs.Fmt.{decimal};
ghost use Rattle.std.specs.Ordering.{on};

mod pieces;
mod reading;
pub(crate) mod reserved;
pub(crate) mod row;
mod search;
mod writing;

use bytes::Bytes;
use iobufs_core::buf::{IoBuf, IoBufMut};
use iobufs_core::codec::{Buf, BufError, Refused};
use pieces::{Form, Pieces, START};
pub use row::ChunkSlice;
use row::Row;
pub use search::{Ends, Located, find_end};
use std::alloc::{AllocError, Global};
use std::io::{self, ErrorKind, Write};
use std::marker::Model;
use std::ops::Range;
use std::{fmt, mem};
pub use writing::{BATCH, write_again, write_chunks_again};

/// A read-only buffer of several chunks (`IoBufs`). Two or more chunks are never empty, and are in a deque, each with
/// the offset of its end:
///
/// ```text
/// bytes    | a b c | d e | f g h i |
/// chunk        0      1       2
/// end          3      5       9       less the base: how many bytes there are up to there
/// ```
///
/// `append`, `prepend` and `split_to` move chunks and copy none of their bytes. An offset after the first chunk is
/// found by bisection of the ends.
pub struct IoBufs {
    pieces: Pieces,
}

impl Drop for IoBufs {
    fn drop(self) {
        let IoBufs { pieces: _ } = self;
    }
}

impl Model for IoBufs {
    ghost use Rattle.iobufs_core.specs.MarkedText.{MarkedText};

    ghost Value = { MarkedText };

    ghost use Rattle.iobufs.specs.Inside.Kept.{text_of, IsKept};

    ghost view = { text_of };

    ghost invariant = { IsKept };
}

impl IoBufs {
    /// The chunks of a row, at least one.
    pub(crate) fn from_row(row: Row) -> IoBufs
        requires some { 0 < length row.views }
        requires roomy { AreViews row.views }
        ensures { result ≡ of_pieces row.views }
    {
        IoBufs {
            pieces: Pieces::from_row(row),
        }
    }

    /// Converts a writable buffer (`From<IoBufMut>`).
    /// If allocation fails, returns `BufError::Memory` and drops the buffer.
    pub fn from_mut(part: IoBufMut) -> Result<IoBufs, BufError>
        ensures ok { IfOk result (λ text. text ≡ of_view (part_frozen part)) }
        ensures memory { IsOkUnless result BufError.Memory }
        ensures nothing { length part.filled ≡ 0 → IsOk result }
    {
        Ok(IoBufs::from(part.freeze()?))
    }

    /// Takes a `Vec` over without copying (`From<Vec<u8>>`).
    /// If allocation fails, returns `BufError::Memory` and drops the `Vec`.
    pub fn from_vec(bytes: Vec<u8>) -> Result<IoBufs, BufError>
        ensures ok { IfOk result (λ text. (view : View) × IsAdopted bytes.items view × (text ≡ of_view view)) }
        ensures memory { IsOkUnless result BufError.Memory }
        ensures nothing { length bytes.items ≡ 0 → IsOk result }
    {
        Ok(IoBufs::from(IoBuf::from_vec(bytes)?))
    }

    /// Joins buffers in order, and leaves out empty ones (`FromIterator`). Fails with `BufError::TooLong` if the bytes
    /// up to some buffer are more than `usize::MAX`, or with `BufError::Memory`.
    pub fn from_chunks<I: Iterator<Item = IoBuf>>(
        alloc: Global,
        mut chunks: I,
    ) -> Result<IoBufs, BufError>
        requires can { I.can_next chunks }
        requires finite { IsFinite (I.remaining chunks) }
        ensures ok { IfOk result (λ text. WholeRun I.next_gives chunks
            (λ run. (text_len (joined run.items) < 2 ^ 64) × (text ≡ joined run.items))) }
        ensures err { IfErr result (λ cause. SomeRun I.next_gives chunks (λ run. IsRefusedAt run.items cause)) }
    {
        let mut text = IoBufs::default();
        while let Some(chunk) = chunks.next() {
            text.append(alloc, chunk)?;
        }
        Ok(text)
    }

    /// Returns the number of bytes (`IoBufs::len`).
    pub fn len(&self) -> usize
        ensures value { result ≡ text_len self.now }
        ensures marked { IsMarked self.now }
    {
        self.pieces.len()
    }

    /// Returns whether there are no bytes (`IoBufs::is_empty`).
    pub fn is_empty(&self) -> bool
        ensures { result ≡ (text_len self.now == 0) }
    {
        match &self.pieces.form {
            Form::One(piece) => piece.is_empty(),
            Form::Many(_) => false,
        }
    }

    /// Returns whether all bytes are in one chunk (`IoBufs::is_single`).
    pub fn is_single(&self) -> bool
        ensures { result ≡ is_single self.now }
    {
        self.pieces.count() == 1
    }

    /// Returns the number of chunks that hold bytes (`IoBufs::chunk_count`).
    pub fn chunk_count(&self) -> usize
        ensures keys { result ≡ count_of self.now }
        ensures chunks { result ≡ length (text_chunks self.now) }
        ensures marked { IsMarked self.now }
    {
        if self.len() == 0 {
            return 0;
        }
        self.pieces.count()
    }

    /// Borrows the bytes of a chunk by its index (`IoBufs::chunk_at`).
    pub fn chunk_at(&self, i: usize) -> Option<&[u8]>
        ensures { option_copied result ≡ slice_get (text_chunks self.now) i }
    {
        if self.len() == 0 {
            return None;
        }
        match self.pieces.get(i) {
            Some(piece) => Some(piece.as_ref()),
            None => None,
        }
    }

    /// Acts as `split_to` if there are `at` bytes; otherwise returns `None` and changes nothing (own). If
    /// allocation fails, the result is `BufError::Memory` and nothing changes.
    pub fn try_split_to(&mut self, alloc: Global, at: usize) -> Option<Result<IoBufs, BufError>>
        ensures short { result ≡ None ↔ (text_len self.old < at) }
        ensures split { MatchOption result (self.new ≡ self.old) (λ answer. Splits self.old at answer self.new) }
        ensures free { SplitsFree self.old at → IfSome result (λ answer. IsOk answer) }
    {
        if at > self.len() {
            return None;
        }
        Some(self.split_to(alloc, at))
    }

    /// Acts as `slice` if the range is within the bytes; otherwise returns `None` (own).
    pub fn try_slice(&self, alloc: Global, range: Range<usize>) -> Option<Result<IoBufs, BufError>>
        ensures fits { IsSome result ↔ ((range.start ≤ range.end) × (range.end ≤ text_len self.now)) }
        ensures ok { IfSome result (λ answer. IfOk answer
            (λ text. text ≡ text_split_front (text_rest self.now range.start) (range.end - range.start))) }
        ensures memory { IfSome result (λ answer. IsOkUnless answer BufError.Memory) }
        ensures nothing { range.start ≡ range.end → IfSome result (λ answer. IsOk answer) }
        ensures static_text { (taken_view self.now range.start (range.end - range.start)).mark ≡ static_mark
            → IfSome result (λ answer. IsOk answer) }
    {
        if range.start > range.end || range.end > self.len() {
            return None;
        }
        Some(self.slice(alloc, range))
    }

    /// Acts as `locate` if the offset is within the bytes; otherwise returns `None` (own).
    pub fn try_locate(&self, at: usize) -> Option<Located>
        ensures inside { IsSome result ↔ (at < text_len self.now) }
        ensures index { IfSome result (λ place. place.index + 1 ≡ keys_upto self.now at) }
        ensures offset { IfSome result (λ place. greatest_key self.now at + place.offset ≡ at) }
        ensures probes { IfSome result (λ place. 2 ^ place.probes ≤ 2 * count_of self.now) }
        ensures halves { IfSome result (λ place. count_of self.now < 2 ^ (place.probes + 1)) }
    {
        if at >= self.len() {
            return None;
        }
        Some(self.locate(at))
    }

    /// Borrows a chunk by its index (own). If there are no bytes, the buffer at index 0 is empty.
    pub fn view_at(&self, i: usize) -> Option<&IoBuf>
        ensures { option_copied result ≡ slice_get (text_views self.now) i }
    {
        self.pieces.get(i)
    }

    /// Borrows the buffer if there is one chunk or none (`IoBufs::as_single`).
    pub fn as_single(&self) -> Option<&IoBuf>
        ensures { MatchOption result (is_single self.now ≡ false) (λ piece. self.now ≡ of_view piece.now) }
    {
        if self.is_single() {
            Some(self.pieces.first())
        } else {
            None
        }
    }

    /// Iterates over the chunks in order (own).
    pub fn chunks(&self) -> Chunks<'_>
        ensures { result ≡ text_chunks self.now }
    {
        Chunks {
            text: self,
            next: 0,
        }
    }

    /// Borrows the chunks from an index on as two runs, in order (own, for layers).
    pub fn chunk_slices_from(&self, first: usize) -> (ChunkSlice<'_>, ChunkSlice<'_>)
        ensures { result.0 ++ result.1 ≡ drop first (text_chunks self.now) }
    {
        match &self.pieces.form {
            Form::One(piece) => {
                if piece.len() == 0 {
                    return (ChunkSlice::none(), ChunkSlice::none());
                }
                if first > 0 {
                    return (ChunkSlice::none(), ChunkSlice::none());
                }
                (ChunkSlice::one(piece.as_ref()), ChunkSlice::none())
            }
            Form::Many(row) => row.chunk_slices_from(first),
        }
    }

    /// Calls `visit` for each chunk that holds bytes, in order (`IoBufs::for_each_chunk`).
    pub fn for_each_chunk<F: FnMut(&[u8])>(&self, mut visit: F)
        requires { F.IsAlwaysCallable visit }
        ensures { (last : F)
            × FoldsTo (λ before chunk after. CalledAt F.FnMut before chunk tt after) visit (text_chunks self.now) last }
    {
        match &self.pieces.form {
            Form::One(piece) => {
                if piece.len() != 0 {
                    visit(piece.as_ref());
                }
            }
            Form::Many(row) => row.for_each(visit),
        }
    }

    /// Returns the buffer if there is one chunk or none; several come back (`IoBufs::try_into_single`).
    pub fn try_into_single(self) -> Result<IoBuf, IoBufs>
        ensures { MatchResult result (λ piece. self ≡ of_view piece)
            (λ text. (text ≡ self) × (is_single self ≡ false)) }
    {
        let IoBufs { pieces } = self;
        match pieces.into_single() {
            Ok(piece) => Ok(piece),
            Err(pieces) => Err(IoBufs { pieces }),
        }
    }

    /// Adds a buffer at the end (`IoBufs::append`). An empty buffer changes nothing; an `IoBufs` without bytes becomes
    /// the buffer.
    /// If it fails, the buffer comes back and nothing changes: `BufError::TooLong` if the length would be above
    /// `usize::MAX`, `BufError::Memory` if allocation fails.
    #[inline(always)]
    pub fn append(&mut self, alloc: Global, piece: IoBuf) -> Result<(), Refused<IoBuf>>
        ensures added { Adds (text_append self.old piece) self.old piece result self.new }
        ensures nothing { length piece.bytes ≡ 0 → IsOk result }
        ensures onto_nothing { text_len self.old ≡ 0 → IsOk result }
    {
        if let Form::Many(row) = &mut self.pieces.form {
            let (len, more) = (row.len(), piece.len());
            if more != 0 && more <= usize::MAX - len && row.has_room() {
                row.push_back_reserved(piece, len + more);
                return Ok(());
            }
        }
        self.append_any(alloc, piece)
    }

    // Adds any buffer at the end of any `IoBufs`.
    #[inline(never)]
    fn append_any(&mut self, alloc: Global, piece: IoBuf) -> Result<(), Refused<IoBuf>>
        ensures added { Adds (text_append self.old piece) self.old piece result self.new }
        ensures nothing { length piece.bytes ≡ 0 → IsOk result }
        ensures onto_nothing { text_len self.old ≡ 0 → IsOk result }
    {
        let (len, more) = (self.len(), piece.len());
        if more == 0 {
            return Ok(());
        }
        if len == 0 {
            self.set(IoBufs::from(piece));
            return Ok(());
        }
        if more > usize::MAX - len {
            return Err(Refused {
                cause: BufError::TooLong,
                value: piece,
            });
        }
        if let Err(refused) = self.pieces.push_back(alloc, piece, len + more) {
            return Err(Refused {
                cause: BufError::Memory,
                value: refused.value,
            });
        }
        Ok(())
    }

    /// Adds a buffer at the start (`IoBufs::prepend`). An empty buffer changes nothing; an `IoBufs` without bytes
    /// becomes the buffer. Fails as `append`, with `BufError::TooLong` or `BufError::Memory`.
    #[inline(always)]
    pub fn prepend(&mut self, alloc: Global, piece: IoBuf) -> Result<(), Refused<IoBuf>>
        ensures added { Adds (text_prepend self.old piece) self.old piece result self.new }
        ensures nothing { length piece.bytes ≡ 0 → IsOk result }
        ensures onto_nothing { text_len self.old ≡ 0 → IsOk result }
    {
        if let Form::Many(row) = &mut self.pieces.form {
            let (len, ahead) = (row.len(), piece.len());
            if ahead != 0 && ahead <= usize::MAX - len && row.has_room() {
                row.push_front_reserved(piece, ahead);
                return Ok(());
            }
        }
        self.prepend_any(alloc, piece)
    }

    // Adds any buffer at the start of any `IoBufs`.
    #[inline(never)]
    fn prepend_any(&mut self, alloc: Global, piece: IoBuf) -> Result<(), Refused<IoBuf>>
        ensures added { Adds (text_prepend self.old piece) self.old piece result self.new }
        ensures nothing { length piece.bytes ≡ 0 → IsOk result }
        ensures onto_nothing { text_len self.old ≡ 0 → IsOk result }
    {
        let (len, ahead) = (self.len(), piece.len());
        if ahead == 0 {
            return Ok(());
        }
        if len == 0 {
            self.set(IoBufs::from(piece));
            return Ok(());
        }
        if ahead > usize::MAX - len {
            return Err(Refused {
                cause: BufError::TooLong,
                value: piece,
            });
        }
        if let Err(refused) = self.pieces.push_front(alloc, piece) {
            return Err(Refused {
                cause: BufError::Memory,
                value: refused.value,
            });
        }
        Ok(())
    }

    /// Takes the first `at` bytes: moves whole chunks, and splits a chunk if `at` is inside it (`IoBufs::split_to`).
    /// If allocation fails, returns `BufError::Memory` and changes nothing.
    pub fn split_to(&mut self, alloc: Global, at: usize) -> Result<IoBufs, BufError>
        requires { at ≤ text_len self.old }
        ensures split { Splits self.old at result self.new }
        ensures free { SplitsFree self.old at → IsOk result }
    {
        if at == 0 {
            return Ok(IoBufs::default());
        }
        if at == self.len() {
            return Ok(mem::take(self));
        }
        let pieces = self.pieces.split_front(alloc, at)?;
        Ok(IoBufs { pieces })
    }

    /// Keeps at most the first `len` bytes (own; `BytesMut::truncate`). If bytes go, leaves what `split_to` returns for
    /// `len`.
    /// If allocation fails, returns `BufError::Memory` and changes nothing.
    pub fn truncate(&mut self, alloc: Global, len: usize) -> Result<(), BufError>
        ensures kept { OnOk result (len < text_len self.old → self.new ≡ text_split_front self.old len) }
        ensures longer { text_len self.old ≤ len → (self.new ≡ self.old) × IsOk result }
        ensures unchanged { OnErr result (self.new ≡ self.old) }
        ensures memory { IsOkUnless result BufError.Memory }
        ensures free { SplitsFree self.old len → IsOk result }
    {
        if len >= self.len() {
            return Ok(());
        }
        let front = self.split_to(alloc, len)?;
        self.set(front);
        Ok(())
    }

    /// Returns the bytes of a range, sharing their storage (own; `IoBuf::slice`). Returns `BufError::Memory` if
    /// allocation fails.
    pub fn slice(&self, alloc: Global, range: Range<usize>) -> Result<IoBufs, BufError>
        requires order { range.start ≤ range.end }
        requires inside { range.end ≤ text_len self.now }
        ensures ok { IfOk result (λ text. text ≡ text_split_front (text_rest self.now range.start)
            (range.end - range.start)) }
        ensures memory { IsOkUnless result BufError.Memory }
        ensures nothing { range.start ≡ range.end → IsOk result }
        ensures static_text { (taken_view self.now range.start (range.end - range.start)).mark ≡ static_mark
            → IsOk result }
    {
        let Range { start, end } = range;
        if start == end {
            return Ok(IoBufs::default());
        }
        let first = self.pieces.locate(start);
        let last = self.pieces.locate(end - 1);
        let behind = last.index - first.index;
        let pieces = self.pieces.run(alloc, first.index, behind)?;
        let mut text = IoBufs { pieces };
        text.drop_front(first.offset);
        text.truncate(alloc, end - start)?;
        Ok(text)
    }

    /// Returns whether the bytes are equal to a slice, for every chunking (own).
    pub fn eq_bytes(&self, bytes: &[u8]) -> bool
        ensures { result ≡ pointwise nat_eq self.now.bytes bytes.now }
    {
        self.len() == bytes.len() && self.pieces.matched(START, bytes).is_some()
    }

    /// Finds the chunk that contains an offset, by bisection of the ends (own).
    pub fn locate(&self, at: usize) -> Located
        requires { at < text_len self.now }
        ensures index { result.index + 1 ≡ keys_upto self.now at }
        ensures offset { greatest_key self.now at + result.offset ≡ at }
        ensures probes { 2 ^ result.probes ≤ 2 * count_of self.now }
        ensures digits { (d : ℕ) → count_of self.now < 2 ^ d → result.probes ≤ d }
        ensures halves { count_of self.now < 2 ^ (result.probes + 1) }
    {
        self.pieces.locate(at)
    }

    /// Copies the bytes into one vector (own).
    /// Returns `BufError::Memory` if allocation fails.
    pub fn to_vec(&self, alloc: Global) -> Result<Vec<u8>, BufError>
        ensures ok { IfOk result (λ copy. copy.items ≡ self.now.bytes) }
        ensures memory { IsOkUnless result BufError.Memory }
        ensures nothing { text_len self.now ≡ 0 → IsOk result }
    {
        let len = self.len();
        if len == 0 {
            return Ok(Vec::new(alloc));
        }
        Ok(self.pieces.copy_front(alloc, len)?)
    }

    /// Joins all chunks into one; several are copied (`IoBufs::coalesce`). Fails with `BufError::BadLayout` exactly if
    /// several hold more than `isize::MAX` bytes, and with `BufError::Memory` if allocation fails.
    pub fn coalesce(self, alloc: Global) -> Result<IoBuf, BufError>
        ensures ok { IfOk result (λ view. of_view view ≡ text_coalesced self) }
        ensures single { is_single self ≡ true → IsOk result }
        ensures bad_layout { is_single self ≡ false → 2 ^ 63 ≤ text_len self → result ≡ Err BufError.BadLayout }
        ensures memory { text_len self < 2 ^ 63 → IsOkUnless result BufError.Memory }
    {
        let IoBufs { pieces } = self;
        match pieces.into_form() {
            Form::One(piece) => Ok(piece),
            Form::Many(row) => gathered(alloc, row),
        }
    }

    /// Writes all bytes, up to 64 chunks at a time, and drops the bytes that the writer takes (own). Allocates nothing
    /// itself. If it fails, the other bytes are left, and `write_to` may be called again. The error is the writer's, or
    /// `ErrorKind::WriteZero` if the writer takes no byte. An interrupted write is tried again; after 2^64 - 1 tries
    /// the error is `ErrorKind::TimedOut`. An error after bytes of one write may be dropped (`write_chunks_again`).
    #[tactic(auto, using(crate::proofs::CallerFacts::sending, crate::proofs::CallerFacts::resting))]
    pub fn write_to<W: Write>(&mut self, to: &mut W) -> io::Result<()>
        ensures sent { IsSent (W.contents to.old) (W.contents to.new) self.old.bytes self.new.bytes }
        ensures rest { IsRestOf self.old self.new }
        ensures all { OnOk result (self.new.bytes ≡ []) }
        ensures left { OnErr result (0 < length self.new.bytes) }
        ensures contents { OnOk result (Appends (W.contents to.old) (W.contents to.new) self.old.bytes) }
        ensures retried { IfErr result (λ error. error_kind error ≢ Interrupted) }
    {
        while self.has_remaining() {
            if self.write_chunks(to)? == 0 {
                return Err(io::Error::from(ErrorKind::WriteZero));
            }
        }
        Ok(())
    }

    // The old value is dropped here, and not in each place that puts a new one. Both take the same instructions.
    fn set(&mut self, text: IoBufs)
        ensures { self.new ≡ text }
    {
        *self = text;
    }
}

// The only chunk of a row, or a copy of several as one.
#[inline(never)]
fn gathered(alloc: Global, mut row: Row) -> Result<IoBuf, BufError>
    requires { 0 < length row.views }
    ensures ok { IfOk result (λ view. of_view view ≡ text_coalesced (of_pieces row.views)) }
    ensures single { length row.views ≡ 1 → IsOk result }
    ensures bad_layout { 1 < length row.views → 2 ^ 63 ≤ length (pieces_bytes row.views)
        → result ≡ Err BufError.BadLayout }
    ensures memory { length (pieces_bytes row.views) < 2 ^ 63 → IsOkUnless result BufError.Memory }
{
    if row.count() == 1 {
        return Ok(row.pop_front());
    }
    let mut copy = IoBufMut::with_capacity(alloc, row.len())?;
    row.copy_to(&mut copy);
    copy.freeze()
}

impl Default for IoBufs {
    ghost is_default = { λ b. b ≡ default_text };

    fn default() -> IoBufs {
        IoBufs::from(IoBuf::default())
    }
}

impl From<IoBuf> for IoBufs {
    ghost from_gives = { λ piece b. b ≡ of_view piece };

    fn from(piece: IoBuf) -> IoBufs {
        IoBufs {
            pieces: Pieces::one(piece),
        }
    }
}

impl From<Bytes> for IoBufs {
    ghost from_gives = { λ bytes b. b ≡ of_view
        (if length bytes == 0 then default_view else record { bytes = bytes; mark = bytes_mark }) };

    fn from(bytes: Bytes) -> IoBufs {
        IoBufs::from(IoBuf::from(bytes))
    }
}

impl From<&'static [u8]> for IoBufs {
    ghost from_gives = { λ text b. b ≡ of_view (record { bytes = text.now; mark = static_mark }) };

    fn from(text: &'static [u8]) -> IoBufs {
        IoBufs::from(IoBuf::from(text))
    }
}

impl Clone for IoBufs {
    ghost is_clone = { λ a b. b ≡ a };

    // One chunk that is static, or a `Bytes` of no bytes.
    ghost is_infallible = { λ text. (is_single text ≡ true)
        × IsFreelyShared (record { bytes = text.bytes; mark = text.mark }) };

    fn clone(&self) -> Result<IoBufs, AllocError> {
        let pieces = self.pieces.clone()?;
        Ok(IoBufs { pieces })
    }
}

impl PartialEq for IoBufs {
    ghost eq = { on (λ t. t.bytes) (pointwise nat_eq) };

    ghost laws = { Prim.search (comparing, rules) };

    /// Returns whether the bytes are equal, for every chunking.
    fn eq(&self, other: &IoBufs) -> bool {
        if self.len() != other.len() {
            return false;
        }
        let mut reached = START;
        for index in 0..self.pieces.count() {
            let Some(end) = other
                .pieces
                .matched(reached, self.pieces.piece(index).as_ref())
            else {
                return false;
            };
            reached = end;
        }
        true
    }
}

impl Eq for IoBufs {
    ghost laws = { Prim.search (comparing, rules) };
}

impl fmt::Debug for IoBufs {
    ghost debug_output = { λ t. Some (codes "IoBufs { len: " ++ decimal (text_len t) ++ codes ", chunks: "
        ++ decimal (chunk_count t) ++ codes " }") };

    fn fmt<W: fmt::Write>(&self, f: &mut fmt::Formatter<W>) -> fmt::Result {
        let len = self.len();
        let chunks = self.chunk_count();
        write!(f, "IoBufs {{ len: {len}, chunks: {chunks} }}")
    }
}

/// The remaining chunks of an `IoBufs`, in order; made by `IoBufs::chunks`. Its value is the list of these.
#[derive(Drop)]
pub struct Chunks<'a> {
    text: &'a IoBufs,
    next: usize,
}

impl<'a> Model for Chunks<'a> {
    ghost use Rattle.std.specs.Prelude.{ℕ, List, drop};
    ghost use Rattle.iobufs_core.specs.MarkedText.{text_chunks};

    ghost Value = { List (List ℕ) };

    ghost view = { λ c. drop c.next (text_chunks c.text.now) };
}

impl<'a> Iterator for Chunks<'a> {
    type Item = &'a [u8];

    ghost next_gives = { YieldsFirstBy (λ chunk. chunk.now) (λ left. left) };

    ghost remaining = { item_count (λ left. left) };

    fn next(&mut self) -> Option<&'a [u8]> {
        if self.next >= self.text.chunk_count() {
            return None;
        }
        let chunk = self.text.chunk_at(self.next)?;
        self.next += 1;
        Some(chunk)
    }

    fn size_hint(&self) -> (usize, Option<usize>) {
        let len = self.len();
        (len, Some(len))
    }
}

impl<'a> ExactSizeIterator for Chunks<'a> {
    fn len(&self) -> usize {
        self.text.chunk_count().saturating_sub(self.next)
    }
}

impl<'a> IntoIterator for &'a IoBufs {
    type Item = &'a [u8];

    type IntoIter = Chunks<'a>;

    ghost into_iter_gives = { λ bufs chunks. chunks ≡ text_chunks bufs.now };

    fn into_iter(self) -> Chunks<'a> {
        self.chunks()
    }
}

/// Fails also if a sum of lengths would be above `usize::MAX`.
impl FromIterator<IoBuf> for IoBufs {
    type Alloc = Global;

    ghost from_iter_gives = { λ views bufs. bufs ≡ joined views };

    fn from_iter<U: IntoIterator<Item = IoBuf>>(
        alloc: Global,
        iter: U,
    ) -> Result<IoBufs, AllocError>
        requires { (it : U.IntoIter) → U.into_iter_gives iter it
            → U.IntoIter.can_next it × IsFinite (U.IntoIter.remaining it) }
        ensures ran { IfOk result (λ bufs. (it : U.IntoIter) × (views : List View)
            × U.into_iter_gives iter it × DrainsIf U.IntoIter.next_gives ⊤ it views × (bufs ≡ joined views)) }
        ensures err { OnErr result ((it : U.IntoIter) × (cause : BufError)
            × U.into_iter_gives iter it × SomeRun U.IntoIter.next_gives it (λ run. IsRefusedAt run.items cause)) }
    {
        match IoBufs::from_chunks(alloc, iter.into_iter()) {
            Ok(bufs) => Ok(bufs),
            Err(_) => Err(AllocError),
        }
    }
}
