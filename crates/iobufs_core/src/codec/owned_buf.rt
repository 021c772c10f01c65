// The traits to take bytes of a reader out, and keep them.
ghost use Rattle.std.specs.Prelude.{◌≡◌, ◌⊎◌, ⊤, ℕ, ◌+◌, ◌≤◌, ◌<◌, List, length, Err, IfOk, IsOk, OnOk, OnErr, IsOkUnless};
ghost use Rattle.iobufs_core.specs.Chunks.{first_chunk};
ghost use Rattle.iobufs_core.specs.View.{View, static_mark, bytes_mark, default_view};
ghost use Rattle.iobufs_core.specs.MarkedText.{MarkedText, taken_view, text_advanced, text_rest, text_chunks, of_view};
ghost use Rattle.iobufs_core.specs.ViewLaws.{advanced-of_view, chunks-of_view, text_rest-of_view};
ghost use Rattle.std.proofs.Common.{rules};

use super::{Buf, BufError, Error};
use crate::buf::IoBuf;
use bytes::Bytes;
use std::alloc::Global;
use std::mem;
use std::ops::Bound;

/// A type made of bytes that were taken (the codec's `OwnedBytes`).
pub trait OwnedBytes: Sized {
    ghost bytes_of: { Self → List ℕ };

    // The value that `from_view` makes of a view.
    ghost makes: { View → Self → Type 0 };

    // Views whose conversion can't fail, besides those without bytes.
    ghost is_free: { View → Type 0 };

    /// Converts a `Bytes` (`OwnedBytes::from_bytes`).
    /// If allocation fails, returns `BufError::Memory` and drops the `Bytes`.
    fn from_bytes(bytes: Bytes) -> Result<Self, BufError>
        ensures ok { IfOk result (λ made. bytes_of made ≡ bytes) }
        ensures memory { IsOkUnless result BufError.Memory };

    /// Converts a view: to an `IoBuf` as it is, to a `Bytes` as `IoBuf::into_bytes` does (the codec's `claim`).
    /// If allocation fails, returns `BufError::Memory` and drops the view.
    fn from_view(alloc: Global, view: IoBuf) -> Result<Self, BufError>
        ensures ok { IfOk result (makes view) }
        ensures memory { IsOkUnless result BufError.Memory }
        ensures nothing { length view.bytes ≡ 0 → IsOk result }
        ensures free { is_free view → IsOk result };

    /// Converts a view and leaves it empty; if it fails, the view is unchanged (own).
    fn take_view(alloc: Global, view: &mut IoBuf) -> Result<Self, BufError>
        ensures ok { IfOk result (makes view.old) }
        ensures taken { OnOk result (view.new ≡ default_view) }
        ensures unchanged { OnErr result (view.new ≡ view.old) }
        ensures memory { IsOkUnless result BufError.Memory }
        ensures nothing { length view.old.bytes ≡ 0 → IsOk result }
        ensures free { is_free view.old → IsOk result };

    ghost same_bytes: { (view : View) (made : Self) → makes view made → bytes_of made ≡ view.bytes };
}

/// Bytes in chunks that can be taken and kept (the codec's `Buf`).
pub trait OwnedBuf: Buf {
    ghost marked: { Self → MarkedText };

    /// Takes the `n` bytes after the first `skip`, and drops the first `skip + n` (own). A whole first chunk is moved,
    /// not cloned.
    /// If allocation fails, returns `BufError::Memory` and changes nothing.
    fn take_owned_after<T: OwnedBytes>(
        &mut self,
        alloc: Global,
        skip: usize,
        n: usize,
    ) -> Result<T, BufError>
        requires { skip + n ≤ length (Self.text self.old) }
        ensures ok { IfOk result (T.makes (taken_view (marked self.old) skip n)) }
        ensures rest { OnOk result (self.new ≡ Self.copied self.old (skip + n)) }
        ensures unchanged { OnErr result (self.new ≡ self.old) }
        ensures memory { IsOkUnless result BufError.Memory }
        ensures nothing { n ≡ 0 → IsOk result }
        ensures static_text { (taken_view (marked self.old) skip n).mark ≡ static_mark
            → T.is_free (taken_view (marked self.old) skip n) → IsOk result }
        ensures whole { skip ≡ 0 → n ≡ length (first_chunk (Self.pieces self.old))
            → T.is_free (taken_view (marked self.old) skip n) → IsOk result };

    ghost same_text: { (s : Self) → (marked s).bytes ≡ Self.text s };

    ghost same_pieces: { (s : Self) → text_chunks (marked s) ≡ Self.pieces s };

    ghost advances_marked: { (s : Self) (n : ℕ) → n ≤ length (Self.text s)
        → marked (Self.advanced s n) ≡ text_advanced (marked s) n };

    ghost copies_marked: { (s : Self) (n : ℕ) → n ≤ length (Self.text s)
        → marked (Self.copied s n) ≡ text_rest (marked s) n };

    /// Takes the first `n` bytes (`take_owned`).
    /// If allocation fails, returns `BufError::Memory` and changes nothing.
    #[inline(always)]
    final fn take_owned<T: OwnedBytes>(&mut self, alloc: Global, n: usize) -> Result<T, BufError>
    where
        Self: Sized,
        requires { n ≤ length (Self.text self.old) }
        ensures ok { IfOk result (T.makes (taken_view (marked self.old) 0 n)) }
        ensures rest { OnOk result (self.new ≡ Self.copied self.old n) }
        ensures unchanged { OnErr result (self.new ≡ self.old) }
        ensures memory { IsOkUnless result BufError.Memory }
        ensures nothing { n ≡ 0 → IsOk result }
        ensures static_text { (taken_view (marked self.old) 0 n).mark ≡ static_mark
            → T.is_free (taken_view (marked self.old) 0 n) → IsOk result }
        ensures whole { n ≡ length (first_chunk (Self.pieces self.old)) → T.is_free (taken_view (marked self.old) 0 n)
            → IsOk result }
    {
        self.take_owned_after(alloc, 0, n)
    }

    /// Acts as `take_owned` if there are enough bytes; otherwise returns `Error::EndOfBuffer` (`try_take_owned`).
    final fn try_take_owned<T: OwnedBytes>(&mut self, alloc: Global, n: usize) -> Result<T, Error>
    where
        Self: Sized,
        ensures ok { IfOk result (T.makes (taken_view (marked self.old) 0 n)) }
        ensures rest { OnOk result (self.new ≡ Self.copied self.old n) }
        ensures unchanged { OnErr result (self.new ≡ self.old) }
        ensures short { length (Self.text self.old) < n → result ≡ Err Error.EndOfBuffer }
        ensures memory { n ≤ length (Self.text self.old) → IsOkUnless result Error.Memory }
        ensures nothing { n ≡ 0 → IsOk result }
        ensures static_text { n ≤ length (Self.text self.old) → (taken_view (marked self.old) 0 n).mark ≡ static_mark
            → T.is_free (taken_view (marked self.old) 0 n) → IsOk result }
        ensures whole { n ≡ length (first_chunk (Self.pieces self.old)) → T.is_free (taken_view (marked self.old) 0 n)
            → IsOk result }
    {
        if n > self.remaining() {
            return Err(Error::EndOfBuffer);
        }
        Ok(self.take_owned(alloc, n)?)
    }
}

impl OwnedBytes for IoBuf {
    ghost bytes_of = { λ view. view.bytes };

    ghost makes = { λ view made. made ≡ view };

    ghost is_free = { λ _. ⊤ };

    fn from_bytes(bytes: Bytes) -> Result<IoBuf, BufError>
        ensures ok { IfOk result (λ made. made.bytes ≡ bytes) }
        ensures never_refused { IsOk result }
    {
        Ok(IoBuf::from(bytes))
    }

    fn from_view(_alloc: Global, view: IoBuf) -> Result<IoBuf, BufError>
        ensures ok { IfOk result (λ made. made ≡ view) }
        ensures never_refused { IsOk result }
    {
        Ok(view)
    }

    fn take_view(_alloc: Global, view: &mut IoBuf) -> Result<IoBuf, BufError>
        ensures ok { IfOk result (λ made. made ≡ view.old) }
        ensures taken { view.new ≡ default_view }
        ensures never_refused { IsOk result }
    {
        Ok(mem::take(view))
    }

    ghost same_bytes = { Prim.search rules };
}

impl OwnedBytes for Bytes {
    ghost bytes_of = { λ bytes. bytes };

    ghost makes = { λ view made. made ≡ view.bytes };

    ghost is_free = { λ view. (view.mark ≡ static_mark) ⊎ (view.mark ≡ bytes_mark) };

    fn from_bytes(bytes: Bytes) -> Result<Bytes, BufError>
        ensures ok { IfOk result (λ made. made ≡ bytes) }
        ensures never_refused { IsOk result }
    {
        Ok(bytes)
    }

    fn from_view(alloc: Global, view: IoBuf) -> Result<Bytes, BufError> {
        Ok(view.into_bytes(alloc).map_err(|_| BufError::Memory)?)
    }

    fn take_view(alloc: Global, view: &mut IoBuf) -> Result<Bytes, BufError> {
        view.take_bytes(alloc)
    }

    ghost same_bytes = { Prim.search rules };
}

impl OwnedBuf for IoBuf {
    ghost marked = { of_view };

    #[tactic(auto, using(crate::specs::ViewLaws::taken_of_view))]
    fn take_owned_after<T: OwnedBytes>(
        &mut self,
        alloc: Global,
        skip: usize,
        n: usize,
    ) -> Result<T, BufError> {
        let len = self.len();
        if n != 0 && n == len {
            return T::take_view(alloc, self);
        }
        let end = skip + n;
        let view = self.slice(Bound::Included(skip), Bound::Excluded(end))?;
        let made = T::from_view(alloc, view)?;
        self.drop_front(end);
        Ok(made)
    }

    ghost same_text = { Prim.search rules };

    ghost same_pieces = { chunks-of_view };

    ghost advances_marked = { advanced-of_view };

    ghost copies_marked = { text_rest-of_view };
}
