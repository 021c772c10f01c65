// Bytes made into values and left where they are.
ghost use Rattle.std.specs.Prelude.{IsSome, IfSome, IsTrue, IsFalse, nat_le, ◌↔◌, ◌≡◌, ◌+◌, ◌≤◌, length, take, drop, IfOk, IsOk, IsOkUnless};
ghost use Rattle.iobufs_core.specs.View.{static_mark};
ghost use Rattle.iobufs_core.specs.MarkedText.{IsMarked, chunk_count as count_of, taken_view};

use super::{BufError, OwnedBuf, OwnedBytes};
use crate::buf::IoBuf;
use std::alloc::Global;
use std::ops::Bound;

/// A buffer whose bytes can be decoded without consuming them (own).
pub trait Peek: OwnedBuf {
    /// Returns the number of chunks that hold bytes (own).
    fn chunk_count(&self) -> usize
        ensures count { result ≡ count_of (Self.marked self.now) }
        ensures marked { IsMarked (Self.marked self.now) };

    /// Returns the `n` bytes after the first `skip`, which stay (own).
    /// Returns `BufError::Memory` if allocation fails.
    fn peek_owned<T: OwnedBytes>(&self, alloc: Global, skip: usize, n: usize) -> Result<T, BufError>
        requires { skip + n ≤ length (Self.text self.now) }
        ensures ok { IfOk result (T.makes (taken_view (Self.marked self.now) skip n)) }
        ensures memory { IsOkUnless result BufError.Memory }
        ensures nothing { n ≡ 0 → IsOk result }
        ensures static_text { (taken_view (Self.marked self.now) skip n).mark ≡ static_mark
            → T.is_free (taken_view (Self.marked self.now) skip n) → IsOk result };

    /// Fills `dst` with the bytes after the first `skip`, which stay (own).
    fn peek_slice(&self, skip: usize, dst: &mut [u8])
        requires { skip + length dst.old ≤ length (Self.text self.now) }
        ensures { dst.new ≡ take (length dst.old) (drop skip (Self.text self.now)) };

    /// Acts as `peek_owned` if there are `skip + n` bytes; otherwise returns `None` (own).
    fn try_peek_owned<T: OwnedBytes>(
        &self,
        alloc: Global,
        skip: usize,
        n: usize,
    ) -> Option<Result<T, BufError>>
    where
        Self: Sized,
        ensures fits { IsSome result ↔ (skip + n ≤ length (Self.text self.now)) }
        ensures ok { IfSome result (λ answer. IfOk answer (T.makes (taken_view (Self.marked self.now) skip n))) }
        ensures memory { IfSome result (λ answer. IsOkUnless answer BufError.Memory) }
        ensures nothing { n ≡ 0 → IfSome result (λ answer. IsOk answer) }
        ensures static_text { (taken_view (Self.marked self.now) skip n).mark ≡ static_mark
            → T.is_free (taken_view (Self.marked self.now) skip n)
            → IfSome result (λ answer. IsOk answer) }
    {
        let len = self.remaining();
        if skip > len || n > len - skip {
            return None;
        }
        Some(self.peek_owned(alloc, skip, n))
    }

    /// Acts as `peek_slice` if the bytes are there, and returns whether they are (own); otherwise nothing changes.
    fn try_peek_slice(&self, skip: usize, dst: &mut [u8]) -> bool
    where
        Self: Sized,
        ensures answer { result ≡ nat_le (skip + length dst.old) (length (Self.text self.now)) }
        ensures done { IsTrue result → dst.new ≡ take (length dst.old) (drop skip (Self.text self.now)) }
        ensures unchanged { IsFalse result → dst.new ≡ dst.old }
    {
        let len = self.remaining();
        if skip > len || dst.len() > len - skip {
            return false;
        }
        self.peek_slice(skip, dst);
        true
    }
}

impl Peek for IoBuf {
    #[tactic(auto, using(crate::specs::ViewLaws::marked_view))]
    fn chunk_count(&self) -> usize {
        match self.len() {
            0 => 0,
            _ => 1,
        }
    }

    #[tactic(auto, using(crate::specs::ViewLaws::taken_of_view))]
    fn peek_owned<T: OwnedBytes>(
        &self,
        alloc: Global,
        skip: usize,
        n: usize,
    ) -> Result<T, BufError> {
        prove!(self.len() - skip >= n);
        let end = skip + n;
        let view = self.slice(Bound::Included(skip), Bound::Excluded(end))?;
        T::from_view(alloc, view)
    }

    fn peek_slice(&self, skip: usize, dst: &mut [u8]) {
        dst.copy_from_slice(&self.as_ref()[skip..skip + dst.len()]);
    }
}
