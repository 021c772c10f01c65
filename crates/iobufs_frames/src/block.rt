//! Bytes that are received into one block, and the frames at their front.
ghost use Rattle.std.specs.Prelude.{◌≡◌, ◌↔◌, ◌⊎◌, ℕ, ◌+◌, ◌*◌, ◌^◌, ◌<◌, ◌≤◌, List, [], ◌++◌, length, take, drop, IsTrue, IfOk, IfErr, IfNone, IfSome, IsOk, OnOk, OnErr};
ghost use Rattle.std.specs.Borrow.{Lends, sem};
ghost use Rattle.std.specs.Io.KnownBytes.{Consumes, IsAtEnd, Keeps};
ghost use Rattle.iobufs_core.specs.View.{view_of_bytes};
ghost use Rattle.iobufs_frames.specs.Frames.{TakesFirst, TakesWhole};
ghost use Rattle.iobufs_frames.specs.Prefixes.{HasNoLengthIn, IsOpenIn, IsSeenIn, bare};
ghost use Rattle.iobufs_frames.specs.Receiving.{HasReceived, KeepsReceived, KeepsSpace, block_row, none_received, is_bytes_view};
ghost use Rattle.iobufs_frames.specs.contracts.block.Received.{the_row};

use crate::lengths::{Layout, Length, Prefix, sizes_of};
use crate::shown::Shown;
use bytes::{Bytes, BytesMut};
use iobufs_core::buf::{IoBuf, address_mut};
use iobufs_core::codec::{Error, RangeCfg};
use std::alloc::{AllocError, Global};
use std::io::{self, Read};
use std::marker::Model;

// The size of the first block, and the most that `next_size` returns unless twice the held bytes, or a frame, are more.
const FIRST: usize = 1 << 12;

const MOST: usize = 1 << 16;

// How many bytes more than twice the held ones a block may get for a frame.
const STEP: usize = 1 << 14;

/// Bytes that were received and not taken, in one block, and space for more after them. A body that is taken shares the
/// block, or is a copy. Unless `block_mut` enlarged the block, a body keeps alive at most its own frame or 64 KiB,
/// whichever is more. Copy a small body that is kept for long.
#[derive(Drop)]
pub struct Received {
    layout: Layout,
    block: BytesMut,
    // How large the block was when nothing had been taken from it; 0 if one above `MOST` was left.
    whole: usize,
    // The length at the front, if it is decoded.
    known: Option<Length>,
}

impl Model for Received {
    ghost use Rattle.std.specs.Option.{ForSome};
    ghost use Rattle.iobufs_frames.specs.Prefixes.{IsSeenIn};
    ghost use Rattle.iobufs_frames.specs.Receiving.{ReceivedBytes};

    ghost Value = { ReceivedBytes };

    ghost view = { λ r. record { layout = r.layout; bytes = r.block.items; space = r.block.spare } };

    ghost invariant = { λ r. ForSome r.known (λ l. IsSeenIn r.layout r.block.items l.value l.len) };
}

// Gives a block at least `size` bytes; it had `whole` when nothing had been taken from it. A block from which nothing
// was taken is enlarged if it gets at least twice its size. Otherwise the bytes move to the front of the block, or to a
// new one.
fn widen(block: &mut BytesMut, whole: usize, size: usize) -> Result<(), AllocError>
    requires { length block.old.items < size }
    ensures items { block.new.items ≡ block.old.items }
    ensures spare { OnOk result (0 < block.new.spare) }
    ensures failed { OnErr result (block.old.spare ≤ block.new.spare) }
{
    let len = block.len();
    if len == whole && len <= size - len {
        return block.reserve(size - len);
    }
    if whole <= MOST && block.try_reclaim(size - len) {
        return Ok(());
    }
    let mut fresh = BytesMut::with_capacity(*block.allocator(), size)?;
    fresh.extend_reserved(block.as_slice());
    *block = fresh;
    Ok(())
}

// The address of a block's bytes from an index on.
#[inline(always)]
fn address_from(block: &mut BytesMut, from: usize) -> *mut u8
    requires { from ≤ length block.old.items }
    ensures { block.new ≡ block.old }
{
    let (_, rest) = block.as_mut_slice().split_at_mut(from);
    address_mut(rest)
}

impl Received {
    /// Makes a `Received` without bytes, for frames whose headers are their lengths, written as `prefix`. Allocates
    /// nothing.
    pub fn new(alloc: Global, prefix: Prefix) -> Received
        ensures { result ≡ none_received (bare prefix) }
    {
        Received::with_layout(alloc, Layout::bare(prefix))
    }

    /// Makes a `Received` without bytes, for frames with this layout. Allocates nothing.
    pub fn with_layout(alloc: Global, layout: Layout) -> Received
        ensures { result ≡ none_received layout }
    {
        Received {
            layout,
            block: BytesMut::new(alloc),
            whole: 0,
            known: None,
        }
    }

    /// Sets the layout of the next frames. A length that was decoded is forgotten.
    pub fn set_layout(&mut self, layout: Layout)
        ensures { self.new ≡ record self.old { layout = layout } }
    {
        self.layout = layout;
        self.known = None;
    }

    /// Returns how many bytes are held.
    pub fn len(&self) -> usize
        ensures value { result ≡ length self.now.bytes }
        ensures bound { result < 2 ^ 63 }
    {
        self.block.len()
    }

    /// Returns how many bytes the space has.
    pub fn space(&self) -> usize
        ensures { result ≡ self.now.space }
    {
        self.block.capacity() - self.block.len()
    }

    // The length at the front, if all its bytes are there.
    #[inline(always)]
    fn length(&self) -> Result<Option<Length>, Error>
        ensures found { IfOk result (λ found. IfSome found
            (λ l. IsSeenIn self.now.layout self.now.bytes l.value l.len)) }
        ensures none { IfOk result (λ found. IfNone found (HasNoLengthIn self.now.layout self.now.bytes
            × IsOpenIn self.now.layout self.now.bytes)) }
        ensures bad { IfErr result (λ error. (error ≡ Error.InvalidVarint)
            × HasNoLengthIn self.now.layout self.now.bytes
            × (IsOpenIn self.now.layout self.now.bytes → ⊥) × (self.now.layout.prefix ≡ Prefix.Spelled)) }
    {
        if let Some(found) = self.known {
            return Ok(Some(found));
        }
        let bytes = self.block.as_slice();
        self.layout.length_in(&Shown { bytes })
    }

    // Takes a frame of `size` bytes, and returns it without its first `skip`.
    #[inline(always)]
    fn take(&mut self, skip: usize, size: usize) -> Result<IoBuf, AllocError>
        requires { (skip ≤ size) × (size ≤ length self.old.bytes) }
        ensures body { IfOk result (λ body. body ≡ view_of_bytes (drop skip (take size self.old.bytes))) }
        ensures rest { OnOk result (self.new.bytes ≡ drop size self.old.bytes) }
        ensures space { OnOk result (KeepsSpace self.old self.new) }
        ensures layout { self.new.layout ≡ self.old.layout }
        ensures unchanged { OnErr result (self.new ≡ self.old) }
        ensures nothing { skip ≡ size → IsOk result }
    {
        self.known = None;
        if skip == size {
            self.block.advance(size);
            return Ok(IoBuf::default());
        }
        if self.whole > MOST && self.whole != size {
            return self.copy_out(skip, size);
        }
        let mut frame = self.block.freeze_to(size)?;
        frame.advance(skip);
        if self.whole > MOST && self.block.is_empty() {
            self.block = BytesMut::new(*self.block.allocator());
            self.whole = 0;
        }
        Ok(IoBuf::from(frame))
    }

    // Acts as `take`, and copies the frame, out of a block above `MOST` that isn't of its size.
    #[inline(never)]
    fn copy_out(&mut self, skip: usize, size: usize) -> Result<IoBuf, AllocError>
        requires { (skip ≤ size) × (size ≤ length self.old.bytes) }
        ensures body { IfOk result (λ body. body ≡ view_of_bytes (drop skip (take size self.old.bytes))) }
        ensures rest { OnOk result (self.new ≡ record self.old { bytes = drop size self.old.bytes }) }
        ensures unchanged { OnErr result (self.new ≡ self.old) }
    {
        self.known = None;
        let bytes = self.block.as_slice();
        let mut copy = Bytes::copy_from_slice(*self.block.allocator(), &bytes[..size])?;
        copy.advance(skip);
        self.block.advance(size);
        Ok(IoBuf::from(copy))
    }

    /// Takes the first frame, and returns its body; `None` if it is not whole yet. Fails with `Error::InvalidVarint`
    /// (of varints alone) or `Error::InvalidLength` if no further bytes can make it whole, or with `Error::Memory`.
    /// Unless a frame is taken, bytes and space are unchanged. A length that is decoded is remembered. A body is copied
    /// only out of a block above 64 KiB that has more than its frame.
    #[inline(always)]
    pub fn next(&mut self, range: &RangeCfg) -> Result<Option<IoBuf>, Error>
        ensures next { TakesFirst self.old.layout range.now self.old.bytes result self.new.bytes }
        ensures left { KeepsReceived is_bytes_view self.old result self.new }
    {
        let Some(found) = self.length()? else {
            return Ok(None);
        };
        self.known = Some(found);
        let Some(sizes) = sizes_of(self.layout, found, self.len(), range)? else {
            return Ok(None);
        };
        match self.take(sizes.header, sizes.header + sizes.body) {
            Ok(body) => Ok(Some(body)),
            Err(_) => Err(Error::Memory),
        }
    }

    /// Takes the first frame with its header, as `next` takes its body, and returns how many bytes the header has.
    /// Fails with `Error::InvalidVarint`, `Error::InvalidLength` or `Error::Memory`.
    #[inline(always)]
    pub fn next_whole(&mut self, range: &RangeCfg) -> Result<Option<(usize, IoBuf)>, Error>
        ensures next { TakesWhole (λ view. view.bytes) self.old.layout range.now self.old.bytes result self.new.bytes }
        ensures left { KeepsReceived (λ whole. is_bytes_view whole.1) self.old result self.new }
    {
        let Some(length) = self.length()? else {
            return Ok(None);
        };
        self.known = Some(length);
        let Some(parts) = sizes_of(self.layout, length, self.len(), range)? else {
            return Ok(None);
        };
        match self.take(0, parts.header + parts.body) {
            Ok(frame) => Ok(Some((parts.header, frame))),
            Err(_) => Err(Error::Memory),
        }
    }

    // The size that a block with `len` bytes gets next: at most `MOST`, or `STEP` bytes more than twice `len`. A frame
    // that isn't whole gets its own size, but no less than `least`, if it is at most `STEP` more than twice `len`. From
    // `STEP` bytes on, `MOST` is admitted too, and a larger frame gets half of its size: the next block is its alone.
    fn next_size(&self, len: usize) -> usize
        requires { len < 2 ^ 63 }
        ensures grows { len < result }
        ensures bound { (result ≤ 2 ^ 16) ⊎ (result ≤ 2 * len + 2 ^ 14) }
    {
        let frame = match self.known {
            Some(found) => self.layout.whole_of(found),
            None => 0,
        };
        let least = self.whole.saturating_mul(2).max(FIRST).min(MOST);
        let twice = 2 * len;
        let near = twice.saturating_add(STEP);
        let most = if len < STEP { near } else { near.max(MOST) };
        if len < frame && frame <= most {
            return least.max(frame);
        }
        if len < STEP || frame <= len {
            return least.max(twice);
        }
        if frame / 2 <= most {
            frame / 2
        } else {
            MOST.max(twice)
        }
    }

    /// Makes sure that there is space for a read. May move the bytes to the front of the block, enlarge the block, or
    /// move the bytes to a new one. Fails with `AllocError`.
    pub fn make_space(&mut self) -> Result<(), AllocError>
        ensures bytes { self.new.bytes ≡ self.old.bytes }
        ensures layout { self.new.layout ≡ self.old.layout }
        ensures space { OnOk result (0 < self.new.space) }
        ensures failed { OnErr result (self.old.space ≤ self.new.space) }
    {
        let (len, capacity) = (self.block.len(), self.block.capacity());
        let is_left = self.whole > MOST && capacity < self.whole;
        if len < capacity && !is_left {
            return Ok(());
        }
        let size = self.next_size(len);
        widen(&mut self.block, self.whole, size)?;
        self.whole = self.block.capacity();
        Ok(())
    }

    /// Writes the address of the space into `at`, if there is any, and returns how many bytes the space has. They are
    /// zeros, or bytes that the block held before. No contract says which bytes a caller writes there.
    pub fn lend_space(&mut self, at: &mut *mut u8) -> usize
        ensures same { self.new ≡ self.old }
        ensures space { result ≡ self.old.space }
    {
        let (len, space) = (self.len(), self.space());
        if space == 0 {
            return 0;
        }
        self.block.advance_mut(space);
        *at = address_from(&mut self.block, len);
        self.block.truncate(len);
        space
    }

    /// Counts the first `n` bytes of the space as received.
    pub fn fill(&mut self, n: usize)
        requires { n ≤ self.old.space }
        ensures { HasReceived n self.old self.new }
    {
        self.block.advance_mut(n);
    }

    /// Borrows the block, to read into its space in another way. The length at the front is decoded again afterwards.
    pub fn block_mut(&mut self) -> &mut BytesMut
        ensures* writes_back { sem 𝓛 (Lends the_row block_row self.entry result
            (λ b. record { layout = self.old.layout; bytes = b.items; space = b.spare })) }
        ensures bytes { result.now.items ≡ self.old.bytes }
        ensures space { result.now.spare ≡ self.old.space }
    {
        self.known = None;
        &mut self.block
    }

    /// Reads once, into the space.
    pub fn read_from<R: Read>(&mut self, from: &mut R) -> io::Result<usize>
        requires { 0 < self.old.space }
        ensures ok { IfOk result (λ n. (more : List ℕ) × (length more ≡ n) × (self.new.bytes ≡ self.old.bytes ++ more)
            × Consumes (R.remaining from.old) (R.remaining from.new) more) }
        ensures space { IfOk result (λ n. self.new.space + n ≡ self.old.space) }
        ensures end { IfOk result (λ n. n ≡ 0 → IsAtEnd (R.remaining from.new)) }
        ensures layout { self.new.layout ≡ self.old.layout }
        ensures unchanged { OnErr result (self.new ≡ self.old) }
        ensures kept { OnErr result (Keeps (R.remaining from.old) (R.remaining from.new)) }
    {
        self.block.read_from(from)
    }
}
