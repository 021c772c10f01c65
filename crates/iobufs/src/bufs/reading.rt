// Reading an `IoBufs`.
ghost use Rattle.iobufs_core.specs.Chunks.{first_chunk};
ghost use Rattle.iobufs_core.specs.MarkedText.{taken_view, text_chunks, text_len, text_rest, text_advanced};
ghost use Rattle.iobufs_core.specs.View.{bytes_mark, static_mark};
ghost use Rattle.std.specs.Prelude.{◌≡◌, ◌+◌, ◌<◌, ◌≤◌, ◌^◌, length, slice_get, IsOk, IfOk, OnOk, OnErr, IsOkUnless, map, take, drop};
ghost use Rattle.iobufs.specs.Laws.Reading.{joined-chunks, full-chunks};
ghost use Rattle.iobufs_core.specs.ReadBytes.{bytes-advanced, bytes-rest};
ghost use Rattle.std.proofs.Common.{rules};

use super::IoBufs;
use super::pieces::START;
use bytes::Bytes;
use iobufs_core::buf::IoBuf;
use iobufs_core::codec::{Buf, BufError, OwnedBuf, OwnedBytes, Peek};
use std::alloc::Global;
use std::ops::Bound;

impl Buf for IoBufs {
    ghost text = { λ t. t.bytes };

    ghost advanced = { text_advanced };

    ghost copied = { text_rest };

    ghost pieces = { text_chunks };

    fn remaining(&self) -> usize {
        IoBufs::len(self)
    }

    fn chunk(&self) -> &[u8] {
        self.pieces.first().as_ref()
    }

    fn byte_at(&self, i: usize) -> Option<u8> {
        match self.chunk().get(i) {
            Some(byte) => Some(*byte),
            None => self.byte_behind(i),
        }
    }

    #[inline(always)]
    fn advance(&mut self, n: usize) {
        self.pieces.advance(n);
    }

    #[inline(always)]
    fn try_advance(&mut self, n: usize) -> bool {
        self.pieces.try_advance(n)
    }

    fn copy_to_slice(&mut self, dst: &mut [u8]) {
        let n = dst.len();
        let chunk = self.chunk();
        if n > chunk.len() {
            self.copy_pieces(dst);
            return;
        }
        dst.copy_from_slice(&chunk[..n]);
        self.advance(n);
    }

    fn copy_to_bytes(&mut self, alloc: Global, n: usize) -> Result<Bytes, BufError>
        requires { n ≤ text_len self.old }
        ensures ok { IfOk result (λ bytes. bytes ≡ take n self.old.bytes) }
        ensures rest { OnOk result (self.new ≡ text_rest self.old n) }
        ensures unchanged { OnErr result (self.new ≡ self.old) }
        ensures memory { IsOkUnless result BufError.Memory }
        ensures nothing { n ≡ 0 → IsOk result }
        ensures static_text { n ≤ length (first_chunk (text_chunks self.old))
            → (taken_view self.old 0 n).mark ≡ static_mark → IsOk result }
        ensures whole { n ≡ length (first_chunk (text_chunks self.old)) → (taken_view self.old 0 n).mark ≡ bytes_mark
            → IsOk result }
    {
        if n <= self.chunk().len() {
            return self.take_owned_after(alloc, 0, n);
        }
        let bytes = self.copy_front(alloc, n)?;
        self.drop_front(n);
        Ok(bytes)
    }

    fn chunks_vectored(&self, alloc: Global, max: usize) -> Result<Vec<&[u8]>, BufError>
        ensures ok { IfOk result (λ chunks. map (λ chunk. chunk.now) chunks.items ≡ take max (text_chunks self.now)) }
        ensures memory { IsOkUnless result BufError.Memory }
        ensures nothing { max ≡ 0 → IsOk result }
        ensures empty { text_len self.now ≡ 0 → IsOk result }
    {
        if self.len() == 0 {
            return Ok(Vec::new(alloc));
        }
        Ok(self.pieces.chunks(alloc, max)?)
    }

    ghost drops = { bytes-advanced };

    ghost copies = { bytes-rest };

    ghost joins = { joined-chunks };

    ghost full = { full-chunks };
}

impl OwnedBuf for IoBufs {
    ghost marked = { λ t. t };

    #[inline(always)]
    fn take_owned_after<T: OwnedBytes>(
        &mut self,
        alloc: Global,
        skip: usize,
        n: usize,
    ) -> Result<T, BufError> {
        let first = self.chunk().len();
        if n == 0 || first <= skip || first - skip < n {
            return self.take_behind(alloc, skip, n);
        }
        if skip == 0 && n == first {
            return self.take_first(alloc, n);
        }
        self.take_inside(alloc, skip, n)
    }

    ghost same_text = { Prim.search rules };

    ghost same_pieces = { Prim.search rules };

    ghost advances_marked = { Prim.search rules };

    ghost copies_marked = { Prim.search rules };
}

impl Peek for IoBufs {
    fn chunk_count(&self) -> usize {
        IoBufs::chunk_count(self)
    }

    fn peek_owned<T: OwnedBytes>(
        &self,
        alloc: Global,
        skip: usize,
        n: usize,
    ) -> Result<T, BufError> {
        let view = self.taken(alloc, skip, n)?;
        T::from_view(alloc, view)
    }

    fn peek_slice(&self, skip: usize, dst: &mut [u8]) {
        let chunk = self.chunk();
        match chunk.get(skip..) {
            Some(bytes) if dst.len() <= bytes.len() => dst.copy_from_slice(&bytes[..dst.len()]),
            _ => self.peek_behind(skip, dst),
        }
    }
}

impl IoBufs {
    // Drops the first `n` bytes as `copy_to_bytes` does.
    #[inline(always)]
    pub(super) fn drop_front(&mut self, n: usize)
        requires { n ≤ text_len self.old }
        ensures { self.new ≡ text_rest self.old n }
    {
        if n != 0 {
            self.pieces.drop_front(n);
        }
    }

    // The byte at an offset, found by bisection.
    #[inline(never)]
    fn byte_behind(&self, i: usize) -> Option<u8>
        ensures { result ≡ slice_get self.now.bytes i }
    {
        if i >= self.len() {
            return None;
        }
        let place = self.pieces.locate(i);
        let bytes = self.pieces.piece(place.index).as_ref();
        Some(bytes[place.offset])
    }

    // Acts as `copy_to_slice`, for more bytes than the first chunk has.
    #[inline(never)]
    fn copy_pieces(&mut self, dst: &mut [u8])
        requires { length dst.old ≤ text_len self.old }
        ensures bytes { dst.new ≡ take (length dst.old) self.old.bytes }
        ensures rest { self.new ≡ text_advanced self.old (length dst.old) }
    {
        self.pieces.copy_from(START, dst);
        let n = dst.len();
        self.advance(n);
    }

    // Takes `n` bytes of the first chunk after the first `skip`, and drops the first `skip + n`.
    #[inline(always)]
    fn take_inside<T: OwnedBytes>(
        &mut self,
        alloc: Global,
        skip: usize,
        n: usize,
    ) -> Result<T, BufError>
        requires some { 0 < n }
        requires inside { skip + n ≤ length (first_chunk (text_chunks self.old)) }
        requires fits { skip + n < 2 ^ 64 }
        ensures ok { IfOk result (T.makes (taken_view self.old skip n)) }
        ensures rest { OnOk result (self.new ≡ text_rest self.old (skip + n)) }
        ensures unchanged { OnErr result (self.new ≡ self.old) }
        ensures memory { IsOkUnless result BufError.Memory }
        ensures static_text { (taken_view self.old skip n).mark ≡ static_mark → T.is_free (taken_view self.old skip n)
            → IsOk result }
    {
        let (first, end) = (self.pieces.first(), skip + n);
        let view = first.slice(Bound::Included(skip), Bound::Excluded(end))?;
        let made = T::from_view(alloc, view)?;
        self.drop_front(end);
        Ok(made)
    }

    // Takes no bytes, or bytes that aren't all in the first chunk.
    #[inline(never)]
    fn take_behind<T: OwnedBytes>(
        &mut self,
        alloc: Global,
        skip: usize,
        n: usize,
    ) -> Result<T, BufError>
        requires { skip + n ≤ text_len self.old }
        ensures ok { IfOk result (T.makes (taken_view self.old skip n)) }
        ensures rest { OnOk result (self.new ≡ text_rest self.old (skip + n)) }
        ensures unchanged { OnErr result (self.new ≡ self.old) }
        ensures memory { IsOkUnless result BufError.Memory }
        ensures static_text { (taken_view self.old skip n).mark ≡ static_mark → T.is_free (taken_view self.old skip n)
            → IsOk result }
        ensures nothing { n ≡ 0 → IsOk result }
    {
        let view = self.taken(alloc, skip, n)?;
        let made = T::from_view(alloc, view)?;
        self.drop_front(skip + n);
        Ok(made)
    }

    // Bytes from an offset on as one buffer: a slice of their chunk, or a copy if they span chunks.
    fn taken(&self, alloc: Global, skip: usize, n: usize) -> Result<IoBuf, BufError>
        requires { skip + n ≤ text_len self.now }
        ensures ok { IfOk result (λ view. view ≡ taken_view self.now skip n) }
        ensures fits { OnOk result (skip + n < 2 ^ 64) }
        ensures memory { IsOkUnless result BufError.Memory }
        ensures static_text { (taken_view self.now skip n).mark ≡ static_mark → IsOk result }
        ensures nothing { n ≡ 0 → IsOk result }
    {
        if n == 0 {
            return Ok(IoBuf::default());
        }
        let place = self.pieces.locate(skip);
        let piece = self.pieces.piece(place.index);
        if n <= piece.len() - place.offset {
            return piece.slice(
                Bound::Included(place.offset),
                Bound::Excluded(place.offset + n),
            );
        }
        match self.pieces.copied(alloc, place, n) {
            Ok(copy) => Ok(copy),
            Err(_) => Err(BufError::Memory),
        }
    }

    // Acts as `peek_slice`, for bytes that aren't all in the first chunk.
    #[inline(never)]
    fn peek_behind(&self, skip: usize, dst: &mut [u8])
        requires { skip + length dst.old ≤ text_len self.now }
        ensures { dst.new ≡ take (length dst.old) (drop skip self.now.bytes) }
    {
        let n = dst.len();
        if n == 0 {
            return;
        }
        let place = self.pieces.locate(skip);
        self.pieces.copy_from(place, dst);
    }

    // A copy of the first bytes.
    fn copy_front(&self, alloc: Global, n: usize) -> Result<Bytes, BufError>
        requires { n ≤ text_len self.now }
        ensures ok { IfOk result (λ bytes. bytes ≡ take n self.now.bytes) }
        ensures memory { IsOkUnless result BufError.Memory }
    {
        Ok(Bytes::from_vec(self.pieces.copy_front(alloc, n)?)?)
    }

    // Removes the first chunk, which has `n` bytes, and makes a `T` of it.
    fn take_first<T: OwnedBytes>(&mut self, alloc: Global, n: usize) -> Result<T, BufError>
        requires some { 0 < n }
        requires first { n ≡ length (first_chunk (text_chunks self.old)) }
        ensures ok { IfOk result (T.makes (taken_view self.old 0 n)) }
        ensures rest { OnOk result (self.new ≡ text_rest self.old n) }
        ensures unchanged { OnErr result (self.new ≡ self.old) }
        ensures memory { IsOkUnless result BufError.Memory }
        ensures free { T.is_free (taken_view self.old 0 n) → IsOk result }
    {
        let made = self.pieces.take_first(alloc)?;
        Ok(made)
    }
}
