// A buffer of fixed capacity, to be written.
ghost use Rattle.std.specs.Prelude.{◌≡◌, ◌+◌, ◌-◌, ◌<◌, ◌≤◌, ◌==◌, [], ◌∷◌, length, drop, replicate, vec_len, vec_capacity, false, IfOk, OnErr, OnOk, Err, ◌^◌, IsOk, IsOkUnless, IsTrue, IsFalse, MatchResult, nat_le, ◌↔◌, ◌⊎◌, ◌/◌, Some, codes, ◌++◌};
ghost use Rattle.std.specs.Align.{IsLayout};
ghost use Rattle.iobufs_core.specs.Native.{IsSpace};
ghost use Rattle.iobufs_core.specs.Part.{empty_part, is_bad_layout as bad_layout, part_capacity, part_copied, part_drained, part_overwritten, part_put, part_with_len, part_truncated};
ghost use Rattle.std.specs.Borrow.{Lends, Array, sem, u8 as byte};
ghost use Rattle.iobufs_core.specs.contracts.buf.part.IoBufMut.{the_row};
ghost use Rattle.iobufs_core.specs.ChunkLaws.{joined-one, full-one};
ghost use Rattle.iobufs_core.specs.Chunks.{full_chunks};
ghost use Rattle.iobufs_core.specs.PartLaws.{part_copied-filled, put_nothing, put_unchanged, put_composes, put_lessens};
ghost use Rattle.std.proofs.Common.{rules};
ghost use Rattle.std.specs.Fmt.{decimal};

use super::block::{Shell, Space};
use crate::codec::{Buf, BufError, BufMut};
use bytes::{Bytes, BytesMut};
use std::alloc::{Global, Layout};
use std::marker::Model;
use std::{fmt, mem};

/// A writable buffer of one chunk (`IoBufMut`): filled bytes, then spare capacity. The capacity counts from the first
/// readable byte. Dropped bytes reduce it, and only `grown` increases it:
///
/// ```text
/// storage | dropped |   filled   |   spare   |
///         0       start         len        limit
///                   |------ capacity --------|
/// ```
///
/// A writable buffer shares its storage with no other buffer. No put allocates.
pub struct IoBufMut {
    space: Space,
    start: usize,
    shell: Shell,
}

// Written out, which keeps the private fields out of the callers' goals.
impl Drop for IoBufMut {
    fn drop(self) {
        let IoBufMut {
            space: _,
            start: _,
            shell: _,
        } = self;
    }
}

impl Model for IoBufMut {
    ghost use Rattle.std.specs.Prelude.{◌≤◌, length, drop};
    ghost use Rattle.iobufs_core.specs.Native.{IsSpace};
    ghost use Rattle.iobufs_core.specs.Part.{Part};

    ghost Value = { Part };

    ghost view = { λ b. record { filled = drop b.start b.space.filled; spare = b.space.spare } };

    ghost invariant = { λ b. IsSpace b.space × (b.start ≤ length b.space.filled) };
}

// Whether no storage has this capacity and alignment.
fn is_bad_layout(n: usize, align: usize) -> bool
    ensures value { result ≡ bad_layout n align }
    ensures layout { IsTrue result ↔ ((0 < n) × (IsLayout n align → ⊥)) }
{
    n != 0 && Layout::from_size_align(n, align).is_err()
}

// Whether `n` bytes fit into a capacity, and the storage has at most 57 bytes more than twice `n`, or than 4 KiB.
// Storage that the Rust crate allocates on a 64-bit target has at most 55 bytes more than it was made for.
fn suits(n: usize, capacity: usize, stored: usize) -> bool
    ensures { IsTrue result ↔ ((n ≤ capacity) × ((stored / 2 - 28 ≤ n) ⊎ (stored / 2 - 28 ≤ 2 ^ 11))) }
{
    n <= capacity && (stored / 2).saturating_sub(28) <= n.max(1 << 11)
}

impl IoBufMut {
    /// Returns an empty buffer of capacity 0 (own).
    pub fn new(alloc: Global) -> IoBufMut
        ensures { result ≡ empty_part 0 }
    {
        IoBufMut::from_space(Space::of(Vec::new(alloc), 0), 0, Shell::none())
    }

    /// Acts as `new` (`Default`).
    pub fn default(alloc: Global) -> IoBufMut
        ensures { result ≡ empty_part 0 }
    {
        IoBufMut::new(alloc)
    }

    /// Makes an empty buffer of exactly this capacity (`IoBufMut::with_capacity`).
    /// Returns `BufError::BadLayout` above `isize::MAX`, and `BufError::Memory` if allocation fails.
    pub fn with_capacity(alloc: Global, n: usize) -> Result<IoBufMut, BufError>
        ensures ok { IfOk result (λ b. b ≡ empty_part n) }
        ensures bad_layout { IsTrue (bad_layout n 1) → result ≡ Err BufError.BadLayout }
        ensures good_layout { bad_layout n 1 ≡ false → IsOkUnless result BufError.Memory }
        ensures nothing { n ≡ 0 → IsOk result }
    {
        IoBufMut::with_alignment(alloc, n, 1)
    }

    /// Makes an empty buffer of exactly this capacity, whose address need not be aligned (`IoBufMut::with_alignment`).
    /// Returns `BufError::BadLayout` if `n` isn't 0, and `align` is no power of two or `n` rounded up to it is above
    /// `isize::MAX`. Returns `BufError::Memory` if allocation fails.
    pub fn with_alignment(alloc: Global, n: usize, align: usize) -> Result<IoBufMut, BufError>
        ensures ok { IfOk result (λ b. b ≡ empty_part n) }
        ensures bad_layout { IsTrue (bad_layout n align) → result ≡ Err BufError.BadLayout }
        ensures good_layout { bad_layout n align ≡ false → IsOkUnless result BufError.Memory }
        ensures layout { IsTrue (bad_layout n align) ↔ ((0 < n) × (IsLayout n align → ⊥)) }
        ensures nothing { n ≡ 0 → IsOk result }
    {
        if n == 0 {
            return Ok(IoBufMut::default(alloc));
        }
        if is_bad_layout(n, align) {
            return Err(BufError::BadLayout);
        }
        let (space, shell) = Space::new(alloc, n, Shell::none())?;
        Ok(IoBufMut::from_space(space, 0, shell))
    }

    /// Makes a buffer of `n` zeros, without spare capacity (`IoBufMut::zeroed`).
    /// Fails as `with_capacity`.
    pub fn zeroed(alloc: Global, n: usize) -> Result<IoBufMut, BufError>
        ensures ok { IfOk result (λ b. b ≡ record { filled = replicate n 0; spare = 0 }) }
        ensures bad_layout { IsTrue (bad_layout n 1) → result ≡ Err BufError.BadLayout }
        ensures good_layout { bad_layout n 1 ≡ false → IsOkUnless result BufError.Memory }
        ensures nothing { n ≡ 0 → IsOk result }
    {
        IoBufMut::zeroed_with_alignment(alloc, n, 1)
    }

    /// Makes a buffer of `n` zeros, without spare capacity (`IoBufMut::zeroed_with_alignment`).
    /// Fails as `with_alignment`.
    pub fn zeroed_with_alignment(
        alloc: Global,
        n: usize,
        align: usize,
    ) -> Result<IoBufMut, BufError>
        ensures ok { IfOk result (λ b. b ≡ record { filled = replicate n 0; spare = 0 }) }
        ensures bad_layout { IsTrue (bad_layout n align) → result ≡ Err BufError.BadLayout }
        ensures good_layout { bad_layout n align ≡ false → IsOkUnless result BufError.Memory }
        ensures nothing { n ≡ 0 → IsOk result }
    {
        if n == 0 {
            return Ok(IoBufMut::default(alloc));
        }
        if is_bad_layout(n, align) {
            return Err(BufError::BadLayout);
        }
        let (mut space, shell) = Space::new(alloc, n, Shell::none())?;
        space.resize(n, 0);
        Ok(IoBufMut::from_space(space, 0, shell))
    }

    /// Copies the bytes, without spare capacity (`From<&[u8]>`).
    /// Returns `BufError::Memory` if allocation fails.
    pub fn copy_from_slice(alloc: Global, src: &[u8]) -> Result<IoBufMut, BufError>
        ensures ok { IfOk result (λ b. b ≡ record { filled = src.now; spare = 0 }) }
        ensures memory { IsOkUnless result BufError.Memory }
        ensures nothing { length src.now ≡ 0 → IsOk result }
    {
        if src.is_empty() {
            return Ok(IoBufMut::default(alloc));
        }
        let (mut space, shell) = Space::new(alloc, src.len(), Shell::none())?;
        space.put(src);
        Ok(IoBufMut::from_space(space, 0, shell))
    }

    /// Takes a `Bytes` over, or copies it if it is static or shared (`From<Bytes>`).
    /// If allocation fails, returns `BufError::Memory` and drops the `Bytes`.
    pub fn from_bytes(alloc: Global, bytes: Bytes) -> Result<IoBufMut, BufError>
        ensures ok { IfOk result (λ b. b.filled ≡ bytes) }
        ensures memory { IsOkUnless result BufError.Memory }
        ensures nothing { length bytes ≡ 0 → IsOk result }
    {
        match bytes.try_into_mut() {
            Ok(bytes) => IoBufMut::from_bytes_mut(bytes),
            Err(bytes) => IoBufMut::copy_from_slice(alloc, bytes.as_slice()),
        }
    }

    /// Takes a `BytesMut` over, or copies it if its block is shared (`From<BytesMut>`).
    /// If allocation fails, returns `BufError::Memory` and drops the `BytesMut`.
    pub fn from_bytes_mut(bytes: BytesMut) -> Result<IoBufMut, BufError>
        ensures ok { IfOk result (λ b. b.filled ≡ bytes.items) }
        ensures memory { IsOkUnless result BufError.Memory }
        ensures nothing { length bytes.items ≡ 0 → IsOk result }
    {
        let alloc = *bytes.allocator();
        match bytes.into_vec() {
            Ok(bytes) => Ok(IoBufMut::from(bytes)),
            Err(shared) if shared.value.is_empty() => Ok(IoBufMut::default(alloc)),
            Err(_) => Err(BufError::Memory),
        }
    }

    /// The storage, where the bytes begin in it, and its shell.
    #[inline(always)]
    pub(super) fn into_space(self) -> (Space, usize, Shell)
        ensures filled { drop result.1 result.0.filled ≡ self.filled }
        ensures spare { result.0.spare ≡ self.spare }
        ensures inside { IsSpace result.0 × (result.1 ≤ length result.0.filled) }
    {
        let IoBufMut {
            space,
            start,
            shell,
        } = self;
        (space, start, shell)
    }

    /// Makes an empty buffer with a capacity of `n` after the bytes of a block (own, for layers). A caller that fills
    /// the block up to an aligned address gets an aligned buffer. Returns the block if it has less space.
    pub fn behind(block: Vec<u8>, n: usize) -> Result<IoBufMut, Vec<u8>>
        ensures fits { IsOk result ↔ (vec_len block + n ≤ vec_capacity block) }
        ensures same { MatchResult result (λ b. b ≡ empty_part n) (λ back. back ≡ block) }
    {
        let start = block.len();
        if n > block.capacity() - start {
            return Err(block);
        }
        let space = Space::of(block, start + n);
        Ok(IoBufMut::from_space(space, start, Shell::none()))
    }

    // Takes all bytes as a `Bytes`, in their storage.
    fn take_bytes(&mut self, alloc: Global) -> Result<Bytes, BufError>
        requires full { self.old.spare ≡ 0 }
        ensures ok { IfOk result (λ bytes. bytes ≡ self.old.filled) }
        ensures rest { OnOk result (self.new ≡ empty_part 0) }
        ensures unchanged { OnErr result (self.new ≡ self.old) }
        ensures memory { IsOkUnless result BufError.Memory }
    {
        let whole = mem::replace(self, IoBufMut::default(alloc));
        let (space, start, shell) = whole.into_space();
        match Bytes::from_vec(space.into_vec()) {
            Ok(mut bytes) => {
                bytes.advance(start);
                Ok(bytes)
            }
            Err(refused) => {
                let storage = refused.value;
                let limit = storage.len();
                *self = IoBufMut::from_space(Space::of(storage, limit), start, shell);
                Err(BufError::Memory)
            }
        }
    }

    /// Makes the capacity at least `n` (own, for layers). The bytes stay where they are if there is space, and the
    /// storage has at most about 4 KiB or about twice `n`. Otherwise they are copied into new storage. Fails as
    /// `with_capacity`.
    #[tactic(auto, using(crate::proofs::LayoutLaws::bad_layout_one))]
    pub fn grown(mut self, alloc: Global, n: usize) -> Result<IoBufMut, BufError>
        requires { length self.filled ≤ n }
        ensures ok { IfOk result (λ b. (b.filled ≡ self.filled) × (n ≤ part_capacity b)) }
        ensures bad_layout { 2 ^ 63 ≤ n → result ≡ Err BufError.BadLayout }
        ensures good_layout { n < 2 ^ 63 → IsOkUnless result BufError.Memory }
        ensures nothing { n ≡ 0 → IsOk result }
    {
        if n == 0 {
            return Ok(IoBufMut::default(alloc));
        }
        if is_bad_layout(n, 1) {
            return Err(BufError::BadLayout);
        }
        if suits(n, self.capacity(), self.space.allocated()) {
            return Ok(self);
        }
        let shell = mem::replace(&mut self.shell, Shell::none());
        let (space, shell) = Space::new(alloc, n, shell)?;
        let mut whole = IoBufMut::from_space(space, 0, shell);
        whole.put_share(self.as_ref());
        Ok(whole)
    }

    /// Makes the spare capacity 0 (own, for layers).
    pub fn close(&mut self)
        ensures { self.new ≡ record { filled = self.old.filled; spare = 0 } }
    {
        self.space.close();
    }

    pub(super) fn from_space(space: Space, start: usize, shell: Shell) -> IoBufMut
        requires { IsSpace space × (start ≤ length space.filled) }
        ensures { result ≡ record { filled = drop start space.filled; spare = space.spare } }
    {
        IoBufMut {
            space,
            start,
            shell,
        }
    }

    /// Returns the number of readable bytes (`IoBufMut::len`).
    pub fn len(&self) -> usize
        ensures { result ≡ length self.now.filled }
    {
        self.space.len() - self.start
    }

    /// Returns whether no byte is readable (`IoBufMut::is_empty`).
    pub fn is_empty(&self) -> bool
        ensures { result ≡ (length self.now.filled == 0) }
    {
        self.len() == 0
    }

    /// Returns how many bytes fit, counted from the first readable one (`IoBufMut::capacity`).
    pub fn capacity(&self) -> usize
        ensures { result ≡ part_capacity self.now }
    {
        self.space.capacity() - self.start
    }

    /// Borrows the readable bytes (`AsRef`).
    pub fn as_ref(&self) -> &[u8]
        ensures { result.now ≡ self.now.filled }
    {
        &self.space.as_slice()[self.start..]
    }

    /// Borrows the readable bytes for overwriting (`AsMut`).
    pub fn as_mut(&mut self) -> &mut [u8]
        ensures* writes_back { sem 𝓛 (Lends the_row (Array byte 0) self.entry result (part_overwritten self.old)) }
        ensures value { result.now ≡ self.old.filled }
    {
        let start = self.start;
        self.space.slice_mut(start)
    }

    /// Makes `n` bytes readable; bytes that were not are zero (`IoBufMut::set_len`, which is unsafe there).
    pub fn set_len(&mut self, n: usize)
        requires { n ≤ part_capacity self.old }
        ensures { self.new ≡ part_with_len self.old n }
    {
        self.space.resize(self.start + n, 0);
    }

    /// Acts as `set_len` if `n` is within the capacity, and returns whether it is (own); otherwise nothing changes.
    pub fn try_set_len(&mut self, n: usize) -> bool
        ensures answer { result ≡ nat_le n (part_capacity self.old) }
        ensures done { IsTrue result → self.new ≡ part_with_len self.old n }
        ensures unchanged { IsFalse result → self.new ≡ self.old }
    {
        if n > self.capacity() {
            return false;
        }
        self.set_len(n);
        true
    }

    /// Acts as `put_slice` (own, for layers).
    #[inline(always)]
    pub fn put_share(&mut self, src: &[u8])
        requires { length src.now ≤ self.old.spare }
        ensures { self.new ≡ part_put self.old src.now }
    {
        self.space.put(src);
    }

    /// Keeps at most the first `n` bytes, and the capacity (`IoBufMut::truncate`).
    pub fn truncate(&mut self, n: usize)
        ensures { self.new ≡ part_truncated self.old n }
    {
        if n < self.len() {
            self.space.truncate(self.start + n);
        }
    }

    /// Keeps no byte, and the capacity (`IoBufMut::clear`).
    pub fn clear(&mut self)
        ensures { self.new ≡ part_truncated self.old 0 }
    {
        self.truncate(0);
    }
}

impl From<Vec<u8>> for IoBufMut {
    ghost from_gives = { λ v b. b ≡ record { filled = v.items; spare = vec_capacity v - vec_len v } };

    fn from(bytes: Vec<u8>) -> IoBufMut {
        let limit = bytes.capacity();
        IoBufMut::from_space(Space::of(bytes, limit), 0, Shell::none())
    }
}

impl fmt::Debug for IoBufMut {
    ghost debug_output = { λ p. Some (codes "IoBufMut { len: " ++ decimal (length p.filled) ++ codes ", cap: "
        ++ decimal (part_capacity p) ++ codes " }") };

    fn fmt<W: fmt::Write>(&self, f: &mut fmt::Formatter<W>) -> fmt::Result {
        let len = self.len();
        let cap = self.capacity();
        write!(f, "IoBufMut {{ len: {len}, cap: {cap} }}")
    }
}

impl Buf for IoBufMut {
    ghost text = { λ p. p.filled };

    ghost advanced = { part_drained };

    ghost copied = { part_copied };

    ghost pieces = { λ p. full_chunks (p.filled ∷ []) };

    fn remaining(&self) -> usize {
        self.len()
    }

    #[tactic(auto, using(crate::specs::ChunkLaws::first_one, crate::specs::ChunkLaws::chunk_one))]
    fn chunk(&self) -> &[u8] {
        self.as_ref()
    }

    fn byte_at(&self, i: usize) -> Option<u8> {
        self.as_ref().get(i).copied()
    }

    fn advance(&mut self, n: usize) {
        self.start += n;
    }

    fn copy_to_slice(&mut self, dst: &mut [u8]) {
        let n = dst.len();
        dst.copy_from_slice(&self.as_ref()[..n]);
        self.advance(n);
    }

    fn copy_to_bytes(&mut self, alloc: Global, n: usize) -> Result<Bytes, BufError> {
        if n == 0 {
            return Ok(Bytes::new());
        }
        if n == self.len() && self.remaining_mut() == 0 {
            return self.take_bytes(alloc);
        }
        let bytes = Bytes::copy_from_slice(alloc, &self.as_ref()[..n])?;
        if n == self.len() {
            *self = IoBufMut::default(alloc);
            return Ok(bytes);
        }
        self.advance(n);
        Ok(bytes)
    }

    fn chunks_vectored(&self, alloc: Global, max: usize) -> Result<Vec<&[u8]>, BufError> {
        let mut chunks = Vec::new(alloc);
        if max != 0 && !self.is_empty() {
            chunks.push(self.as_ref())?;
        }
        Ok(chunks)
    }

    ghost drops = { Prim.search rules };

    ghost copies = { part_copied-filled };

    ghost joins = { λ p. joined-one p.filled };

    ghost full = { λ p. full-one p.filled };
}

impl BufMut for IoBufMut {
    ghost room = { λ p. p.spare };

    ghost filled = { λ a w b. (length w ≤ a.spare) × (b ≡ part_put a w) };

    fn remaining_mut(&self) -> usize {
        self.space.spare()
    }

    #[inline(always)]
    fn try_put_slice(&mut self, src: &[u8]) -> bool {
        if src.len() > self.remaining_mut() {
            return false;
        }
        self.put_share(src);
        true
    }

    // The test always holds, since `src` fits. Without it a put of 64 bytes takes 1.14 times the instructions.
    #[inline(always)]
    fn put_slice(&mut self, src: &[u8]) {
        if self.space.has_room(src.len()) {
            self.put_share(src);
        }
    }

    #[inline(always)]
    fn put_u8(&mut self, n: u8) {
        self.space.push(n);
    }

    fn put_bytes(&mut self, value: u8, n: usize) {
        let end = self.space.len() + n;
        self.space.resize(end, value);
    }

    ghost nothing = { put_nothing };

    ghost unchanged = { put_unchanged };

    ghost composes = { put_composes };

    ghost lessens = { put_lessens };
}
