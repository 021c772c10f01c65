//! The bytes that are sent next.
ghost use Rattle.std.specs.Prelude.{◌≡◌, ◌+◌, ◌<◌, ◌≤◌, ◌^◌, ◌++◌, [], true, false, drop, length, nat_eq, slice_get, take};
ghost use Rattle.bytes.specs.Unread.{IsChunkOf};
ghost use Rattle.iobufs_core.specs.Chunks.{IsChunkOf as IsOurChunkOf};
ghost use Rattle.iobufs_core.specs.MarkedText.{is_single};
ghost use Rattle.std.specs.Io.Slices.{io_slices_bytes};
ghost use Rattle.iobufs_frames.specs.Unsent.{CanBeCopied, IsFront, rest_after, unsent_nothing};

use crate::Head;
use crate::unsent::Unsent;
use bytes::Buf;
use iobufs::bufs::IoBufs;
use std::alloc::Global;
use std::io::IoSlice;
use std::marker::Model;

// How many bytes a body has at most that is copied.
const SHORT: usize = 256;

// Nothing is copied after so many bytes.
const MOST: usize = 1 << 14;

// A block of copies above this is freed once all are sent.
const KEPT: usize = 1 << 12;

/// The rest of the first frame that isn't sent, and copies of short ones after it.
#[derive(Drop)]
pub struct Rest {
    frame: Unsent,
    // The copies, of which the first `sent` bytes are sent.
    tail: Vec<u8>,
    sent: usize,
    // How many bytes all have.
    len: usize,
}

impl Model for Rest {
    ghost use Rattle.std.specs.Prelude.{◌≡◌, ◌≤◌, ◌+◌, ◌++◌, drop, length};
    ghost use Rattle.iobufs_frames.specs.Unsent.{UnsentBytes};

    ghost Value = { UnsentBytes };

    ghost view = { λ r. record r.frame { bytes = r.frame.bytes ++ drop r.sent r.tail.items } };

    ghost invariant = { λ r. (r.sent ≤ length r.tail.items)
        × (r.len + r.sent ≡ length r.frame.bytes + length r.tail.items) };
}

// The copies that aren't sent.
#[inline(always)]
fn unsent_copies(tail: &Vec<u8>, sent: usize) -> &[u8]
    requires { sent ≤ length tail.now.items }
    ensures { result.now ≡ drop sent tail.now.items }
{
    &tail.as_slice()[sent..]
}

// Frees the block of copies.
#[inline(never)]
fn release(tail: &mut Vec<u8>)
    ensures { tail.new.items ≡ [] }
{
    *tail = Vec::new(*tail.allocator());
}

impl Rest {
    // Nothing.
    pub(crate) fn new(alloc: Global) -> Rest
        ensures { result ≡ unsent_nothing }
    {
        Rest {
            frame: Unsent::new(Head::new(), IoBufs::default()),
            tail: Vec::new(alloc),
            sent: 0,
            len: 0,
        }
    }

    // Becomes a frame alone. The space for copies stays.
    pub(crate) fn set(&mut self, frame: Unsent)
        ensures { self.new ≡ frame }
    {
        self.len = frame.len();
        self.frame = frame;
        self.tail.clear();
        self.sent = 0;
    }

    // Frees a large block of copies if no byte is left.
    #[inline(always)]
    fn free(&mut self)
        ensures { self.new ≡ self.old }
    {
        if self.tail.capacity() <= KEPT || self.len > 0 {
            return;
        }
        self.sent = 0;
        release(&mut self.tail);
    }

    // Copies a frame after the others, if it is short and an allocation doesn't fail. Returns whether it is there.
    #[inline(always)]
    pub(crate) fn copy_in(&mut self, head: &Head, body: &IoBufs) -> bool
        requires { length self.old.bytes + (length head.now.filled + length body.now.bytes) < 2 ^ 64 }
        ensures copied { result ≡ true
            → self.new ≡ record self.old { bytes = self.old.bytes ++ (head.now.filled ++ body.now.bytes) } }
        ensures short { result ≡ true → CanBeCopied body.now }
        ensures same { result ≡ false → self.new ≡ self.old }
    {
        let Some(chunk) = body.as_single() else {
            return false;
        };
        let (chunk, at) = (chunk.as_ref(), self.tail.len());
        if chunk.len() > SHORT || at > MOST {
            return false;
        }
        if self.tail.extend_from_slice(head.as_slice()).is_err() {
            return false;
        }
        if self.tail.extend_from_slice(chunk).is_err() {
            self.tail.truncate(at);
            return false;
        }
        self.len += head.len() + chunk.len();
        true
    }

    // Returns whether the first frame's body is one chunk.
    #[inline(always)]
    pub(crate) fn is_single(&self) -> bool
        ensures { result ≡ is_single self.now.body }
    {
        self.frame.is_single()
    }

    // The bytes of the first frame's header, the first chunk of its body, and the copies if this is all of it.
    #[inline(always)]
    pub(crate) fn first_three(&self) -> (&[u8], &[u8], &[u8])
        ensures { IsFront (result.0.now ++ (result.1.now ++ result.2.now)) self.now.bytes }
    {
        let (head, chunk) = self.frame.first_two();
        if head.len() + chunk.len() < self.frame.len() {
            return (head, chunk, &[]);
        }
        (head, chunk, unsent_copies(&self.tail, self.sent))
    }

    // Fills `dst` with the first chunks that hold bytes, and returns their number.
    pub(crate) fn fill_slices<'a>(&'a self, dst: &mut [IoSlice<'a>]) -> usize
        ensures room { length dst.new ≡ length dst.old }
        ensures few { result ≤ length dst.old }
        ensures front { IsFront (io_slices_bytes (take result dst.new)) self.now.bytes }
        ensures whole { result < length dst.old → io_slices_bytes (take result dst.new) ≡ self.now.bytes }
    {
        let n = self.frame.fill_slices(dst);
        let copies = unsent_copies(&self.tail, self.sent);
        if n == dst.len() || copies.is_empty() {
            return n;
        }
        dst[n] = IoSlice::new(copies);
        n + 1
    }

    /// Returns whether there are no bytes.
    pub fn is_empty(&self) -> bool
        ensures { result ≡ nat_eq (length self.now.bytes) 0 }
    {
        self.len == 0
    }

    /// Returns how many bytes there are.
    pub fn len(&self) -> usize
        ensures { result ≡ length self.now.bytes }
    {
        self.len
    }

    /// Returns the byte at an offset, or `None` if there is none.
    pub fn byte_at(&self, i: usize) -> Option<u8>
        ensures { result ≡ slice_get self.now.bytes i }
    {
        if i < self.frame.len() {
            return self.frame.byte_at(i);
        }
        unsent_copies(&self.tail, self.sent)
            .get(i - self.frame.len())
            .copied()
    }
}

impl Buf for Rest {
    ghost unread = { λ u. u.bytes };

    fn remaining(&self) -> usize {
        self.len()
    }

    fn chunk(&self) -> &[u8]
        ensures chunk { IsChunkOf result.now self.now.bytes }
        ensures first { IsOurChunkOf result.now self.now.bytes }
    {
        if self.frame.is_empty() {
            unsent_copies(&self.tail, self.sent)
        } else {
            self.frame.chunk()
        }
    }

    #[inline(always)]
    fn advance(&mut self, cnt: usize)
        requires { cnt ≤ length self.old.bytes }
        ensures { self.new ≡ rest_after self.old cnt }
    {
        let n = self.frame.len();
        self.len -= cnt;
        if cnt < n {
            self.frame.advance(cnt);
            return;
        }
        self.frame.advance(n);
        self.sent += cnt - n;
        self.free();
    }
}
