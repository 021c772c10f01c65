// Bytes that are read and shared. A clause sees them and how they are stored (`View`).
ghost use Rattle.std.specs.Prelude.{ℕ, ◌↔◌, ◌<◌, None, IfSome, IsSome, MatchOption, IsErr, ◌≡◌, ◌≤◌, ◌-◌, ◌==◌, if◌then◌else◌, [], ◌∷◌, length, take, IsTrue, IfOk, OnOk, OnErr, IsOk, IsOkUnless, MatchResult, nat_eq, Some, codes, ◌++◌};
ghost use Rattle.iobufs_core.specs.View.{IsView, default_view, view_advanced, view_front, view_of_bytes, view_rest, view_slice, view_split_front, start_place, end_place, range_fits, static_mark, bytes_mark, native_mark, IsFreelyShared};
ghost use Rattle.iobufs_core.specs.Recovery.{IsAdopted, IsRecovery};
ghost use Rattle.iobufs_core.specs.ChunkLaws.{joined-one, full-one};
ghost use Rattle.iobufs_core.specs.Chunks.{full_chunks};
ghost use Rattle.iobufs_core.specs.ViewLaws.{view_rest-bytes};
ghost use Rattle.std.proofs.Common.{rules};
ghost use Rattle.std.specs.Cmp.Lexicographic.{pointwise};
ghost use Rattle.std.specs.Cmp.Rules.{comparing};
ghost use Rattle.std.specs.Fmt.{decimal};
ghost use Rattle.std.specs.Ordering.{on};

use super::held::{Held, Native};
use super::{IoBufMut, native};
use crate::codec::{Buf, BufError};
use bytes::{Bytes, BytesMut};
use std::alloc::{AllocError, Global};
use std::marker::Model;
use std::ops::Bound;
use std::{fmt, mem};

/// A read-only buffer of one chunk (`IoBuf`): a static slice, a `Bytes`, or native storage. Clones, slices with bytes,
/// and the sides of a split inside the bytes share their storage. In native storage:
///
/// ```text
/// block   | dropped |  len bytes  |  after   |
///         0       start      start + len   limit
///                   |------- capacity -------|
/// ```
///
/// A clone of native storage adds one to the count of its owners, and doesn't allocate.
pub struct IoBuf {
    held: Held,
}

// Written out, which keeps the private fields out of the callers' goals.
impl Drop for IoBuf {
    fn drop(self) {
        let IoBuf { held: _ } = self;
    }
}

impl Model for IoBuf {
    ghost use Rattle.iobufs_core.specs.View.{View};

    ghost Value = { View };

    ghost view = { λ b. b.held };
}

impl Default for IoBuf {
    ghost is_default = { λ b. b ≡ default_view };

    fn default() -> IoBuf {
        IoBuf {
            held: Held::of_static(&[]),
        }
    }
}

impl IoBuf {
    pub(super) fn from_native(native: Native) -> IoBuf
        ensures { result ≡ record { bytes = native.bytes; mark = native_mark native.room } }
    {
        IoBuf {
            held: Held::of_native(native),
        }
    }

    /// Copies the bytes into native storage; no bytes give the default view (`IoBuf::copy_from_slice`).
    /// Returns `BufError::Memory` if allocation fails.
    pub fn copy_from_slice(alloc: Global, src: &[u8]) -> Result<IoBuf, BufError>
        ensures ok { IfOk result (λ b. b ≡ (if length src.now == 0 then default_view else record
            { bytes = src.now; mark = native_mark (length src.now) })) }
        ensures memory { IsOkUnless result BufError.Memory }
        ensures nothing { length src.now ≡ 0 → IsOk result }
    {
        if src.is_empty() {
            return Ok(IoBuf::default());
        }
        IoBufMut::copy_from_slice(alloc, src)?.freeze()
    }

    /// Takes a `Vec` over without copying (`From<Vec<u8>>`).
    /// If allocation fails, returns `BufError::Memory` and drops the `Vec`.
    pub fn from_vec(bytes: Vec<u8>) -> Result<IoBuf, BufError>
        ensures ok { IfOk result (IsAdopted bytes.items) }
        ensures memory { IsOkUnless result BufError.Memory }
        ensures nothing { length bytes.items ≡ 0 → IsOk result }
    {
        IoBufMut::from(bytes).freeze()
    }

    /// Takes a `BytesMut` over (`From<BytesMut>`).
    /// If allocation fails, returns `BufError::Memory` and drops the `BytesMut`.
    pub fn from_bytes_mut(bytes: BytesMut) -> Result<IoBuf, BufError>
        ensures ok { IfOk result (IsAdopted bytes.items) }
        ensures memory { IsOkUnless result BufError.Memory }
        ensures nothing { length bytes.items ≡ 0 → IsOk result }
    {
        Ok(IoBuf::from(bytes.freeze()?))
    }

    /// Returns the number of bytes (`IoBuf::len`).
    pub fn len(&self) -> usize
        ensures value { result ≡ length self.now.bytes }
        ensures room { IsView self.now }
    {
        self.held.len()
    }

    /// Returns whether there are no bytes (`IoBuf::is_empty`).
    pub fn is_empty(&self) -> bool
        ensures { result ≡ (length self.now.bytes == 0) }
    {
        self.len() == 0
    }

    /// Borrows the bytes (`AsRef`).
    pub fn as_ref(&self) -> &[u8]
        ensures { result.now ≡ self.now.bytes }
    {
        self.held.as_slice()
    }

    /// Drops the first `n` bytes as `copy_to_bytes` does.
    pub(crate) fn drop_front(&mut self, n: usize)
        requires { n ≤ length self.old.bytes }
        ensures { self.new ≡ view_rest self.old n }
    {
        if n == 0 {
            return;
        }
        if n == self.len() {
            *self = IoBuf::default();
            return;
        }
        self.advance(n);
    }

    /// Returns whether a range is within the bytes: its start is at most its end, and its end at most the length (own).
    /// The original's `slice` panics otherwise.
    pub fn fits_range(&self, lo: Bound<usize>, hi: Bound<usize>) -> bool
        ensures { result ≡ range_fits lo hi (length self.now.bytes) }
    {
        match (start_of(lo), end_of(hi, self.len())) {
            (Some(from), Some(to)) => from <= to && to <= self.len(),
            _ => false,
        }
    }

    /// Returns the bytes of a range, sharing their storage; an empty range gives the default view (`IoBuf::slice`).
    /// Test the range by `fits_range`.
    /// Returns `BufError::Memory` if the storage can't count one more owner.
    #[inline(always)]
    pub fn slice(&self, lo: Bound<usize>, hi: Bound<usize>) -> Result<IoBuf, BufError>
        requires { IsTrue (range_fits lo hi (length self.now.bytes)) }
        ensures ok { IfOk result (λ slice. slice ≡ view_slice self.now lo hi) }
        ensures memory { IsOkUnless result BufError.Memory }
        ensures static_text { self.now.mark ≡ static_mark → IsOk result }
        ensures nothing { start_place lo ≡ end_place hi (length self.now.bytes) → IsOk result }
    {
        let (Some(from), Some(to)) = (start_of(lo), end_of(hi, self.len())) else {
            unreachable!()
        };
        if from == to {
            return Ok(IoBuf::default());
        }
        // The same call twice: the second is compiled for native storage alone. As one call a slice takes 1.48 times
        // the instructions in the kit's build.
        if self.held.is_static() || self.held.is_shared() {
            return Ok(IoBuf {
                held: self.held.share(from, to)?,
            });
        }
        Ok(IoBuf {
            held: self.held.share(from, to)?,
        })
    }

    /// Acts as `slice` if the range is within the bytes; otherwise returns `None` (own).
    #[inline(always)]
    pub fn try_slice(&self, lo: Bound<usize>, hi: Bound<usize>) -> Option<Result<IoBuf, BufError>>
        ensures fits { IsSome result ↔ IsTrue (range_fits lo hi (length self.now.bytes)) }
        ensures ok { IfSome result (λ answer. IfOk answer (λ slice. slice ≡ view_slice self.now lo hi)) }
        ensures memory { IfSome result (λ answer. IsOkUnless answer BufError.Memory) }
        ensures static_text { self.now.mark ≡ static_mark → IfSome result (λ answer. IsOk answer) }
        ensures nothing { start_place lo ≡ end_place hi (length self.now.bytes)
            → IfSome result (λ answer. IsOk answer) }
    {
        if !self.fits_range(lo, hi) {
            return None;
        }
        Some(self.slice(lo, hi))
    }

    /// Takes the first `at` bytes without copying (`IoBuf::split_to`).
    /// If the storage can't count one more owner, returns `BufError::Memory` and changes nothing.
    #[inline(always)]
    pub fn split_to(&mut self, at: usize) -> Result<IoBuf, BufError>
        requires { at ≤ length self.old.bytes }
        ensures front { IfOk result (λ front. front ≡ view_split_front self.old at) }
        ensures rest { OnOk result (self.new ≡ view_rest self.old at) }
        ensures unchanged { OnErr result (self.new ≡ self.old) }
        ensures memory { IsOkUnless result BufError.Memory }
        ensures nothing { at ≡ 0 → IsOk result }
        ensures whole { at ≡ length self.old.bytes → IsOk result }
        ensures static_text { self.old.mark ≡ static_mark → IsOk result }
    {
        // A split inside the bytes is tested first, and the last line is never reached. Without these a split takes up
        // to 1.53 times the instructions in the kit's build.
        if at != 0 && at < self.len() {
            return Ok(IoBuf {
                held: self.held.split_to(at)?,
            });
        }
        if at == 0 {
            return Ok(IoBuf::default());
        }
        if at == self.len() {
            return Ok(mem::take(self));
        }
        Ok(IoBuf {
            held: self.held.split_to(at)?,
        })
    }

    /// Recovers the storage for writing, or returns the view (`IoBuf::try_into_mut`). Native storage that no other
    /// buffer shares is recovered: tested, not proved.
    #[inline(always)]
    pub fn try_into_mut(self, alloc: Global) -> Result<IoBufMut, IoBuf>
        ensures { IsRecovery self result }
    {
        let IoBuf { held } = self;
        match held.into_native() {
            Ok(native) => match native::try_into_mut(native) {
                Ok(part) => Ok(part),
                Err(native) => Err(IoBuf::from_native(native)),
            },
            Err(held) if held.is_static() && held.len() == 0 => Ok(IoBufMut::default(alloc)),
            Err(held) => Err(IoBuf { held }),
        }
    }

    /// Copies the bytes (`Vec::from`).
    /// Returns `BufError::Memory` if allocation fails.
    pub fn to_vec(&self, alloc: Global) -> Result<Vec<u8>, BufError>
        ensures ok { IfOk result (λ v. v.items ≡ self.now.bytes) }
        ensures memory { IsOkUnless result BufError.Memory }
        ensures nothing { length self.now.bytes ≡ 0 → IsOk result }
    {
        if self.is_empty() {
            return Ok(Vec::new(alloc));
        }
        Ok(Vec::from_slice(alloc, self.as_ref())?)
    }

    /// Converts into a `Bytes` (`Bytes::from`). Copies the bytes of native storage that is shared, or that has capacity
    /// after the view. If allocation fails, the view comes back.
    pub fn into_bytes(self, alloc: Global) -> Result<Bytes, IoBuf>
        ensures same { MatchResult result (λ bytes. bytes ≡ self.bytes) (λ view. view ≡ self) }
        ensures static_text { self.mark ≡ static_mark → IsOk result }
        ensures shared_text { self.mark ≡ bytes_mark → IsOk result }
        ensures nothing { length self.bytes ≡ 0 → IsOk result }
    {
        if self.is_empty() {
            return Ok(Bytes::new());
        }
        let IoBuf { held } = self;
        match held.into_native() {
            Ok(native) => match native::into_bytes(native, alloc) {
                Ok(bytes) => Ok(bytes),
                Err(native) => Err(IoBuf::from_native(native)),
            },
            Err(held) => IoBuf { held }.into_shared(),
        }
    }

    /// Acts as `split_to` if the view has `at` bytes; otherwise returns `None` and changes nothing (own).
    #[inline(always)]
    pub fn try_split_to(&mut self, at: usize) -> Option<Result<IoBuf, BufError>>
        ensures short { result ≡ None ↔ (length self.old.bytes < at) }
        ensures front { IfSome result (λ answer. IfOk answer (λ front. front ≡ view_split_front self.old at)) }
        ensures rest { IfSome result (λ answer. OnOk answer (self.new ≡ view_rest self.old at)) }
        ensures unchanged { MatchOption result (self.new ≡ self.old) (λ answer. OnErr answer (self.new ≡ self.old)) }
        ensures memory { IfSome result (λ answer. IsOkUnless answer BufError.Memory) }
        ensures nothing { at ≡ 0 → IfSome result (λ answer. IsOk answer) }
        ensures whole { at ≡ length self.old.bytes → IfSome result (λ answer. IsOk answer) }
        ensures static_text { self.old.mark ≡ static_mark → IfSome result (λ answer. IsOk answer) }
    {
        if at > self.len() {
            return None;
        }
        Some(self.split_to(at))
    }

    /// Returns whether the storage is a `Bytes` (own).
    pub fn is_shared(&self) -> bool
        ensures { IsTrue result ↔ (self.now.mark ≡ bytes_mark) }
    {
        self.held.is_shared()
    }

    /// Converts into a `Bytes` without copying; a view in native storage comes back (own).
    pub fn into_shared(self) -> Result<Bytes, IoBuf>
        ensures same { MatchResult result (λ bytes. bytes ≡ self.bytes) (λ view. view ≡ self) }
        ensures native { (room : ℕ) → self.mark ≡ native_mark room → IsErr result }
        ensures static_text { self.mark ≡ static_mark → IsOk result }
        ensures shared_text { self.mark ≡ bytes_mark → IsOk result }
    {
        let IoBuf { held } = self;
        match held.into_bytes() {
            Ok(bytes) => Ok(bytes),
            Err(held) => Err(IoBuf { held }),
        }
    }

    /// Converts as `into_bytes` does, and leaves an empty view. If it fails, the view is unchanged.
    pub(crate) fn take_bytes(&mut self, alloc: Global) -> Result<Bytes, BufError>
        ensures ok { IfOk result (λ bytes. bytes ≡ self.old.bytes) }
        ensures taken { OnOk result (self.new ≡ default_view) }
        ensures unchanged { OnErr result (self.new ≡ self.old) }
        ensures memory { IsOkUnless result BufError.Memory }
        ensures static_text { self.old.mark ≡ static_mark → IsOk result }
        ensures shared_text { self.old.mark ≡ bytes_mark → IsOk result }
        ensures nothing { length self.old.bytes ≡ 0 → IsOk result }
    {
        match mem::take(self).into_bytes(alloc) {
            Ok(bytes) => Ok(bytes),
            Err(same) => {
                *self = same;
                Err(BufError::Memory)
            }
        }
    }
}

fn start_of(lo: Bound<usize>) -> Option<usize>
    ensures { result ≡ start_place lo }
{
    match lo {
        Bound::Included(n) => Some(n),
        Bound::Excluded(n) => n.checked_add(1),
        Bound::Unbounded => Some(0),
    }
}

fn end_of(hi: Bound<usize>, len: usize) -> Option<usize>
    ensures { result ≡ end_place hi len }
{
    match hi {
        Bound::Included(n) => n.checked_add(1),
        Bound::Excluded(n) => Some(n),
        Bound::Unbounded => Some(len),
    }
}

impl From<&'static [u8]> for IoBuf {
    ghost from_gives = { λ text b. b ≡ record { bytes = text.now; mark = static_mark } };

    fn from(text: &'static [u8]) -> IoBuf {
        IoBuf {
            held: Held::of_static(text),
        }
    }
}

impl From<Bytes> for IoBuf {
    ghost from_gives = { λ bytes b. b ≡ view_of_bytes bytes };

    fn from(bytes: Bytes) -> IoBuf {
        if bytes.is_empty() {
            return IoBuf::default();
        }
        IoBuf {
            held: Held::of_bytes(bytes),
        }
    }
}

impl Clone for IoBuf {
    ghost is_clone = { λ a b. b ≡ a };

    ghost is_infallible = { IsFreelyShared };

    fn clone(&self) -> Result<IoBuf, AllocError> {
        Ok(IoBuf {
            held: self.held.try_clone()?,
        })
    }
}

impl PartialEq for IoBuf {
    ghost eq = { on (λ v. v.bytes) (pointwise nat_eq) };

    ghost laws = { Prim.search (comparing, rules) };

    fn eq(&self, other: &IoBuf) -> bool {
        self.as_ref() == other.as_ref()
    }
}

impl Eq for IoBuf {
    ghost laws = { Prim.search (comparing, rules) };
}

impl fmt::Debug for IoBuf {
    ghost debug_output = { λ v. Some (codes "IoBuf { len: " ++ decimal (length v.bytes) ++ codes " }") };

    fn fmt<W: fmt::Write>(&self, f: &mut fmt::Formatter<W>) -> fmt::Result {
        let len = self.len();
        write!(f, "IoBuf {{ len: {len} }}")
    }
}

impl Buf for IoBuf {
    ghost text = { λ v. v.bytes };

    ghost advanced = { view_advanced };

    ghost copied = { view_rest };

    ghost pieces = { λ v. full_chunks (v.bytes ∷ []) };

    fn remaining(&self) -> usize {
        self.len()
    }

    #[tactic(auto, using(crate::specs::ChunkLaws::first_one, crate::specs::ChunkLaws::chunk_one))]
    fn chunk(&self) -> &[u8] {
        self.as_ref()
    }

    fn byte_at(&self, i: usize) -> Option<u8> {
        self.as_ref().get(i).copied()
    }

    fn advance(&mut self, n: usize) {
        self.held.advance(n);
    }

    #[inline(always)]
    fn try_advance(&mut self, n: usize) -> bool {
        if n > self.len() {
            return false;
        }
        self.advance(n);
        true
    }

    #[inline(always)]
    fn copy_to_slice(&mut self, dst: &mut [u8]) {
        let n = dst.len();
        dst.copy_from_slice(&self.as_ref()[..n]);
        self.advance(n);
    }

    fn copy_to_bytes(&mut self, alloc: Global, n: usize) -> Result<Bytes, BufError>
        requires { n ≤ length self.old.bytes }
        ensures ok { IfOk result (λ bytes. bytes ≡ take n self.old.bytes) }
        ensures rest { OnOk result (self.new ≡ view_rest self.old n) }
        ensures unchanged { OnErr result (self.new ≡ self.old) }
        ensures memory { IsOkUnless result BufError.Memory }
        ensures nothing { n ≡ 0 → IsOk result }
        ensures static_text { self.old.mark ≡ static_mark → IsOk result }
        ensures whole { n ≡ length self.old.bytes → self.old.mark ≡ bytes_mark → IsOk result }
    {
        if n == 0 {
            return Ok(Bytes::new());
        }
        if n == self.len() {
            return self.take_bytes(alloc);
        }
        let bytes = match self.held.share(0, n)?.into_bytes() {
            Ok(bytes) => bytes,
            Err(native) => Bytes::copy_from_slice(alloc, native.as_slice())?,
        };
        self.advance(n);
        Ok(bytes)
    }

    fn chunks_vectored(&self, alloc: Global, max: usize) -> Result<Vec<&[u8]>, BufError> {
        let mut chunks = Vec::new(alloc);
        if max != 0 && !self.is_empty() {
            chunks.push(self.as_ref())?;
        }
        Ok(chunks)
    }

    ghost drops = { Prim.search rules };

    ghost copies = { view_rest-bytes };

    ghost joins = { λ v. joined-one v.bytes };

    ghost full = { λ v. full-one v.bytes };
}
