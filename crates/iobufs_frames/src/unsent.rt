//! The bytes of a frame that are not sent.
ghost use Rattle.std.specs.Prelude.{◌≡◌, ◌+◌, ◌<◌, ◌≤◌, ◌^◌, ◌++◌, [], length, nat_eq, slice_get, take};
ghost use Rattle.bytes.specs.Unread.{IsChunkOf};
ghost use Rattle.iobufs_core.specs.Chunks.{IsChunkOf as IsOurChunkOf};
ghost use Rattle.iobufs_core.specs.MarkedText.{text_rest};
ghost use Rattle.std.specs.Io.Slices.{io_slices_bytes};
ghost use Rattle.iobufs_core.specs.MarkedText.{is_single};
ghost use Rattle.iobufs_frames.specs.Unsent.{IsFront, unsent_rest};

use crate::Head;
use bytes::Buf;
use iobufs::bufs::IoBufs;
use iobufs_core::codec;
use std::io::IoSlice;
use std::marker::Model;

/// The bytes of a frame that are not sent: the end of its header, and of its body.
#[derive(Drop)]
pub struct Unsent {
    head: Head,
    body: IoBufs,
}

impl Model for Unsent {
    ghost use Rattle.std.specs.Prelude.{◌<◌, ◌+◌, ◌^◌, ◌++◌, length};
    ghost use Rattle.iobufs_frames.specs.Unsent.{UnsentBytes};

    ghost Value = { UnsentBytes };

    ghost view = { λ u. record { head = u.head.filled; body = u.body; bytes = u.head.filled ++ u.body.bytes } };

    ghost invariant = { λ u. length u.head.filled + length u.body.bytes < 2 ^ 64 };
}

// Drops the first bytes. An emptied body would go on sharing its blocks, so it is replaced.
fn drop_front(body: &mut IoBufs, n: usize)
    requires { (0 < n) × (n ≤ length body.old.bytes) }
    ensures { body.new ≡ text_rest body.old n }
{
    if n == body.len() {
        *body = IoBufs::default();
    } else {
        codec::Buf::advance(body, n);
    }
}

impl Unsent {
    // A header and a body.
    pub(crate) fn new(head: Head, body: IoBufs) -> Unsent
        requires { length head.filled + length body.bytes < 2 ^ 64 }
        ensures { result ≡ record { head = head.filled; body = body; bytes = head.filled ++ body.bytes } }
    {
        Unsent { head, body }
    }

    // Returns whether the body is one chunk.
    pub(crate) fn is_single(&self) -> bool
        ensures { result ≡ is_single self.now.body }
    {
        self.body.is_single()
    }

    // The bytes of the header, and the first chunk of the body.
    pub(crate) fn first_two(&self) -> (&[u8], &[u8])
        ensures { IsFront (result.0.now ++ result.1.now) self.now.bytes }
    {
        (self.head.as_slice(), codec::Buf::chunk(&self.body))
    }

    // Fills `dst` with the first chunks that hold bytes, and returns their number.
    pub(crate) fn fill_slices<'a>(&'a self, dst: &mut [IoSlice<'a>]) -> usize
        ensures room { length dst.new ≡ length dst.old }
        ensures few { result ≤ length dst.old }
        ensures front { IsFront (io_slices_bytes (take result dst.new)) self.now.bytes }
        ensures whole { result < length dst.old → io_slices_bytes (take result dst.new) ≡ self.now.bytes }
    {
        let head = self.head.as_slice();
        if head.is_empty() {
            return self.body.fill_slices(dst);
        }
        if dst.is_empty() {
            return 0;
        }
        dst[0] = IoSlice::new(head);
        1 + self.body.fill_slices(&mut dst[1..])
    }

    // The body, of a frame of which nothing was sent.
    pub(crate) fn into_body(self) -> IoBufs
        ensures { result ≡ self.body }
    {
        let Unsent { head: _, body } = self;
        body
    }

    /// Returns whether there are no bytes.
    pub fn is_empty(&self) -> bool
        ensures { result ≡ nat_eq (length self.now.bytes) 0 }
    {
        self.len() == 0
    }

    /// Returns how many bytes there are.
    pub fn len(&self) -> usize
        ensures value { result ≡ length self.now.bytes }
        ensures parts { length self.now.bytes ≡ length self.now.head + length self.now.body.bytes }
    {
        self.head.len() + self.body.len()
    }

    /// Returns the byte at an offset, or `None` if there is none.
    pub fn byte_at(&self, i: usize) -> Option<u8>
        ensures { result ≡ slice_get self.now.bytes i }
    {
        let head = self.head.as_slice();
        if i < head.len() {
            return Some(head[i]);
        }
        codec::Buf::byte_at(&self.body, i - head.len())
    }
}

impl Buf for Unsent {
    ghost unread = { λ u. u.bytes };

    fn remaining(&self) -> usize {
        self.len()
    }

    #[tactic(auto, using(iobufs_core::proofs::TraitLaws::chunk_of_bytes))]
    fn chunk(&self) -> &[u8]
        ensures chunk { IsChunkOf result.now self.now.bytes }
        ensures first { IsOurChunkOf result.now self.now.bytes }
    {
        let head = self.head.as_slice();
        if head.is_empty() {
            codec::Buf::chunk(&self.body)
        } else {
            head
        }
    }

    fn advance(&mut self, cnt: usize)
        requires { cnt ≤ length self.old.bytes }
        ensures { self.new ≡ unsent_rest self.old cnt }
    {
        let ahead = self.head.len();
        if cnt <= ahead {
            self.head.advance(cnt);
            return;
        }
        self.head.advance(ahead);
        drop_front(&mut self.body, cnt - ahead);
    }
}
