// The trait to read bytes from the front.
ghost use Rattle.std.specs.Prelude.{◌≡◌, ℕ, ◌≤◌, ◌<◌, ◌↔◌, List, [], map, length, take, drop, slice_get, IsTrue, IsFalse, nat_le, IfOk, IfErr, OnOk, OnErr, IsErr, IsOk, IsOkUnless};
ghost use Rattle.std.specs.List.{flat_map};
ghost use Rattle.iobufs_core.specs.Chunks.{IsChunkOf, first_chunk, full_chunks};

use super::{BufError, TryGetError};
use bytes::Bytes;
use std::alloc::Global;

/// Bytes that are read from the front, in chunks (`bytes::Buf`).
pub trait Buf {
    // The bytes that are left.
    ghost text: { Self → List ℕ };

    // The reader after one `advance`, and after `copy_to_bytes`.
    ghost advanced: { Self → ℕ → Self };

    ghost copied: { Self → ℕ → Self };

    // The chunks that hold bytes, in order.
    ghost pieces: { Self → List (List ℕ) };

    /// Returns how many bytes remain (`Buf::remaining`).
    fn remaining(&self) -> usize
        ensures { result ≡ length (text self.now) };

    /// Borrows the first chunk that holds bytes, or no bytes if none remain (`Buf::chunk`).
    fn chunk(&self) -> &[u8]
        ensures first { result.now ≡ first_chunk (pieces self.now) }
        ensures front { IsChunkOf result.now (text self.now) };

    /// Returns the byte at an offset, or `None` if there is none (own).
    fn byte_at(&self, i: usize) -> Option<u8>
        ensures { result ≡ slice_get (text self.now) i };

    /// Drops the first `n` bytes (`Buf::advance`).
    fn advance(&mut self, n: usize)
        requires { n ≤ length (text self.old) }
        ensures { self.new ≡ advanced self.old n };

    /// Acts as `advance` if `n` bytes remain, and returns whether they do (own); otherwise nothing changes.
    #[inline(always)]
    fn try_advance(&mut self, n: usize) -> bool
    where
        Self: Sized,
        ensures answer { result ≡ nat_le n (length (text self.old)) }
        ensures rest { IsTrue result → self.new ≡ advanced self.old n }
        ensures unchanged { IsFalse result → self.new ≡ self.old }
    {
        if n > self.remaining() {
            return false;
        }
        self.advance(n);
        true
    }

    /// Fills `dst` with the first bytes, and drops them as one `advance` does (`Buf::copy_to_slice`).
    fn copy_to_slice(&mut self, dst: &mut [u8])
        requires { length dst.old ≤ length (text self.old) }
        ensures bytes { dst.new ≡ take (length dst.old) (text self.old) }
        ensures rest { self.new ≡ advanced self.old (length dst.old) };

    /// Takes the first `n` bytes (`Buf::copy_to_bytes`). An `IoBuf` or `IoBufs` copies nothing if these bytes are in
    /// one chunk that is a `Bytes` or static.
    /// If allocation fails, returns `BufError::Memory` and changes nothing.
    fn copy_to_bytes(&mut self, alloc: Global, n: usize) -> Result<Bytes, BufError>
        requires { n ≤ length (text self.old) }
        ensures ok { IfOk result (λ bytes. bytes ≡ take n (text self.old)) }
        ensures rest { OnOk result (self.new ≡ copied self.old n) }
        ensures unchanged { OnErr result (self.new ≡ self.old) }
        ensures memory { IsOkUnless result BufError.Memory }
        ensures nothing { n ≡ 0 → IsOk result };

    /// Lists the first chunks that hold bytes, at most `max` (`Buf::chunks_vectored`, which fills `IoSlice`s).
    /// Returns `BufError::Memory` if allocation fails.
    fn chunks_vectored(&self, alloc: Global, max: usize) -> Result<Vec<&[u8]>, BufError>
        ensures ok { IfOk result (λ chunks. map (λ chunk. chunk.now) chunks.items ≡ take max (pieces self.now)) }
        ensures memory { IsOkUnless result BufError.Memory }
        ensures nothing { max ≡ 0 → IsOk result }
        ensures empty { length (text self.now) ≡ 0 → IsOk result };

    ghost drops: { (s : Self) (n : ℕ) → n ≤ length (text s) → text (advanced s n) ≡ drop n (text s) };

    ghost copies: { (s : Self) (n : ℕ) → n ≤ length (text s) → text (copied s n) ≡ drop n (text s) };

    // The chunks join to the bytes, and none is empty.
    ghost joins: { (s : Self) → flat_map (λ piece. piece) (pieces s) ≡ text s };

    ghost full: { (s : Self) → full_chunks (pieces s) ≡ pieces s };

    /// Returns whether bytes remain (`Buf::has_remaining`).
    final fn has_remaining(&self) -> bool
    where
        Self: Sized,
        ensures { IsTrue result ↔ (0 < length (text self.now)) }
    {
        self.remaining() != 0
    }

    /// Acts as `copy_to_slice` if there are enough bytes; otherwise nothing changes, and the error has both lengths
    /// (`Buf::try_copy_to_slice`).
    final fn try_copy_to_slice(&mut self, dst: &mut [u8]) -> Result<(), TryGetError>
    where
        Self: Sized,
        ensures short { IsErr result ↔ (length (text self.old) < length dst.old) }
        ensures bytes { OnOk result (dst.new ≡ take (length dst.old) (text self.old)) }
        ensures rest { OnOk result (self.new ≡ advanced self.old (length dst.old)) }
        ensures lengths { IfErr result (λ error. error ≡ record
            { requested = length dst.old; available = length (text self.old) }) }
        ensures unchanged { OnErr result (self.new ≡ self.old) }
        ensures untouched { OnErr result (dst.new ≡ dst.old) }
    {
        let available = self.remaining();
        if dst.len() > available {
            return Err(TryGetError {
                requested: dst.len(),
                available,
            });
        }
        self.copy_to_slice(dst);
        Ok(())
    }
}
