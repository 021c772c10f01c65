// Writable buffers, read and filled in order. A clause sees a list of them (`Part`), each its bytes and spare capacity.
ghost use Rattle.std.specs.Prelude.{IsTrue, IsFalse, nat_le, ◌≡◌, ◌+◌, ◌<◌, ◌≤◌, ◌==◌, ◌^◌, ◌++◌, ◌∷◌, [], List, length, slice_get, take, Err, IfErr, IfNone, IfOk, IfSome, IsOk, IsOkUnless, MatchResult, OnErr, Some, codes, ⊤};
ghost use Rattle.std.specs.Fmt.{decimal};
ghost use Rattle.std.specs.Ptr.{null_ptr};
ghost use Rattle.std.specs.Iterator.{DrainsIf, IsFinite};
ghost use Rattle.std.specs.Iterator.Runs.{SomeRun, WholeRun};
ghost use Rattle.std.specs.Option.{option_copied, option_map};
ghost use Rattle.std.specs.Borrow.{LendsIf, sem};
ghost use Rattle.iobufs_core.specs.Part.{Part, empty_part, part_capacity};
ghost use Rattle.iobufs_core.specs.contracts.buf.part.IoBufMut.{the_row as part_row};
ghost use Rattle.iobufs.specs.Parts.{IsParts, kept_parts, parts_capacity, parts_coalesced, parts_filled, parts_frozen, parts_overwritten, parts_with_len, single_part, parts_chunks, parts_drained, parts_spare};
ghost use Rattle.iobufs.specs.Visiting.{IsVisited};
ghost use Rattle.std.specs.Fn.{CalledAtMut};
ghost use Rattle.iobufs.specs.PartLimits.{IsRowRefusedAt};
ghost use Rattle.iobufs_core.specs.declared.codec.base.BufError.{BufError};

mod several;

use crate::bufs::IoBufs;
use bytes::Bytes;
use iobufs_core::buf::{IoBufMut, address_mut};
use iobufs_core::codec::{Buf, BufError, BufMut};
use several::{Several, take_whole, visit_part};
use std::alloc::{AllocError, Global};
use std::fmt;
use std::marker::Model;

/// Writable buffers, read in order and filled in order (`IoBufsMut`). If there are two or more, each can hold a byte:
///
/// ```text
/// parts    | a b c | . . | d . |
///            filled       filled     read as a b c d, in order
///                   spare     spare  the next put fills . . and then .
/// ```
///
/// An `IoBufsMut` shares its storage with no other buffer. Puts, `set_len` and `advance` don't allocate; `freeze`
/// allocates the deque of several chunks, and the counts of owners that adopted buffers lack.
pub struct IoBufsMut {
    shape: Shape,
}

impl Drop for IoBufsMut {
    fn drop(self) {
        let IoBufsMut { shape: _ } = self;
    }
}

// One part, or a deque of two or more, which can come down to one as bytes are dropped.
#[derive(Drop)]
enum Shape {
    One(IoBufMut),
    Many(Several),
}

impl Shape {
    ghost use Rattle.iobufs.specs.contracts.bufs_mut.Shape.{the_row};
    ghost use Rattle.iobufs.specs.declared.bufs_mut.Shape.TheVariants.{One};
    ghost use Rattle.iobufs.specs.Inside.PartShape.{IsShape, shape_parts, shape_single};

    // One more part, which can hold a byte; one that can't makes way for it. A first deque has space for `expected`,
    // and at least for two.
    #[tactic(auto, using(crate::proofs::Parts::PartRuns::growing))]
    fn with_part(self, alloc: Global, part: IoBufMut, expected: usize) -> Result<Shape, BufError>
        requires built { IsShape self }
        requires more { 0 < part_capacity part }
        requires fits { parts_capacity (shape_parts self) + part_capacity part < 2 ^ 64 }
        ensures parts { IfOk result (λ shape. shape_parts shape ≡ kept_parts (shape_parts self ++ part ∷ [])) }
        ensures built { IfOk result IsShape }
        ensures memory { IsOkUnless result BufError.Memory }
        ensures first { length (shape_parts self) < 2 → parts_capacity (shape_parts self) ≡ 0 → IsOk result }
    {
        match self {
            Shape::One(first) => {
                if first.capacity() == 0 {
                    return Ok(Shape::One(part));
                }
                Ok(Shape::Many(Several::of_two(alloc, first, part, expected)?))
            }
            Shape::Many(mut row) => {
                row.push(part)?;
                Ok(Shape::Many(row))
            }
        }
    }

    // If only one part is left, the shape becomes that part.
    fn settle(&mut self)
        ensures same { shape_parts self.new ≡ shape_parts self.old }
        ensures settled { shape_single self.new ≡ single_part (shape_parts self.old) }
    {
        match self {
            Shape::One(_) => {}
            Shape::Many(parts) => {
                if let Some(part) = parts.take_single() {
                    *self = Shape::One(part);
                }
            }
        }
    }

    // May take the first `n` bytes with their storage, if a part without spare capacity holds just these.
    fn take_front(&mut self, alloc: Global, n: usize) -> Result<Option<Bytes>, BufError>
        requires { 0 < n }
        ensures front { IfOk result (λ front. IfSome front (λ bytes.
            (bytes ≡ take n (parts_filled (shape_parts self.old)))
            × (shape_parts self.new ≡ parts_drained (shape_parts self.old) n))) }
        ensures none { IfOk result (λ front. IfNone front (shape_parts self.new ≡ shape_parts self.old)) }
        ensures unchanged { OnErr result (shape_parts self.new ≡ shape_parts self.old) }
        ensures memory { IsOkUnless result BufError.Memory }
    {
        match self {
            Shape::One(part) => take_whole(alloc, part, n),
            Shape::Many(parts) => parts.take_front(alloc, n),
        }
    }

    fn single_mut(&mut self) -> Option<&mut IoBufMut>
        ensures* writes_back { sem 𝓛 (LendsIf the_row part_row self.entry result One self.old) }
        ensures value { option_map (λ part. part.now) result ≡ shape_single self.old }
    {
        let Shape::One(part) = self else {
            return None;
        };
        Some(part)
    }
}

impl Model for IoBufsMut {
    ghost use Rattle.std.specs.Prelude.{List};
    ghost use Rattle.iobufs_core.specs.Part.{Part};
    ghost use Rattle.iobufs.specs.Inside.PartShape.{shape_parts};

    ghost Value = { List Part };

    ghost view = { λ parts. shape_parts parts.shape };
}

impl IoBufsMut {
    ghost use Rattle.iobufs.specs.contracts.bufs_mut.IoBufsMut.{the_row};

    /// Returns one buffer of capacity 0 (own).
    pub fn new(alloc: Global) -> IoBufsMut
        ensures { result ≡ empty_part 0 ∷ [] }
    {
        IoBufsMut::from(IoBufMut::new(alloc))
    }

    /// Acts as `new` (`Default`).
    pub fn default(alloc: Global) -> IoBufsMut
        ensures { result ≡ empty_part 0 ∷ [] }
    {
        IoBufsMut::new(alloc)
    }

    /// Collects the buffers that can hold a byte; if there are none, one of capacity 0 (`FromIterator`). Fails with
    /// `BufError::TooLong` if the capacities up to some buffer are more than `usize::MAX`, or with `BufError::Memory`.
    /// One buffer needs no allocation.
    pub fn from_parts<I: Iterator<Item = IoBufMut>>(
        alloc: Global,
        mut items: I,
    ) -> Result<IoBufsMut, BufError>
        requires can { I.can_next items }
        requires finite { IsFinite (I.remaining items) }
        ensures ok { IfOk result (λ parts. WholeRun I.next_gives items
            (λ run. (parts_capacity run.items < 2 ^ 64) × (parts ≡ kept_parts run.items))) }
        ensures err { IfErr result (λ cause. SomeRun I.next_gives items (λ run. IsRowRefusedAt run.items cause)) }
    {
        let expected = items.size_hint().0;
        let mut shape = Shape::One(IoBufMut::default(alloc));
        let mut left = usize::MAX;
        while let Some(part) = items.next() {
            let capacity = part.capacity();
            if capacity > left {
                return Err(BufError::TooLong);
            }
            left -= capacity;
            if capacity > 0 {
                shape = shape.with_part(alloc, part, expected)?;
            }
        }
        Ok(IoBufsMut { shape })
    }

    /// Returns the number of readable bytes (`IoBufsMut::len`).
    #[tactic(auto, using(crate::proofs::Parts::PartLaws::sums))]
    pub fn len(&self) -> usize
        ensures { result ≡ length (parts_filled self.now) }
    {
        match &self.shape {
            Shape::One(part) => part.len(),
            Shape::Many(parts) => parts.len(),
        }
    }

    /// Returns whether no byte is readable (`IoBufsMut::is_empty`).
    pub fn is_empty(&self) -> bool
        ensures { result ≡ (length (parts_filled self.now) == 0) }
    {
        self.len() == 0
    }

    /// Returns the sum of the buffers' capacities (`IoBufsMut::capacity`). A drained buffer counts with its spare
    /// capacity.
    pub fn capacity(&self) -> usize
        ensures sum { result ≡ parts_capacity self.now }
        ensures parts { IsParts self.now }
    {
        match &self.shape {
            Shape::One(part) => part.capacity(),
            Shape::Many(parts) => parts.capacity(),
        }
    }

    /// Makes `n` bytes readable, filling each buffer to its capacity before the next one; bytes that were not are
    /// zero, and readable bytes of later buffers are lost if `n` doesn't reach them (`IoBufsMut::set_len`, which is
    /// unsafe there).
    pub fn set_len(&mut self, n: usize)
        requires { n ≤ parts_capacity self.old }
        ensures { self.new ≡ parts_with_len self.old n }
    {
        match &mut self.shape {
            Shape::One(part) => part.set_len(n),
            Shape::Many(parts) => parts.set_len(n),
        }
    }

    /// Acts as `set_len` if `n` is within the capacity, and returns whether it is (own); otherwise nothing changes.
    pub fn try_set_len(&mut self, n: usize) -> bool
        ensures answer { result ≡ nat_le n (parts_capacity self.old) }
        ensures done { IsTrue result → self.new ≡ parts_with_len self.old n }
        ensures unchanged { IsFalse result → self.new ≡ self.old }
    {
        if n > self.capacity() {
            return false;
        }
        self.set_len(n);
        true
    }

    /// Acts as `copy_from_slice` if the lengths agree, and returns whether they do (own); otherwise nothing changes.
    pub fn try_copy_from_slice(&mut self, src: &[u8]) -> bool
        ensures answer { result ≡ (length src.now == length (parts_filled self.old)) }
        ensures done { IsTrue result → self.new ≡ parts_overwritten self.old src.now }
        ensures unchanged { IsFalse result → self.new ≡ self.old }
    {
        if src.len() != self.len() {
            return false;
        }
        self.copy_from_slice(src);
        true
    }

    /// Overwrites all readable bytes (`IoBufsMut::copy_from_slice`).
    pub fn copy_from_slice(&mut self, src: &[u8])
        requires { length src.now ≡ length (parts_filled self.old) }
        ensures { self.new ≡ parts_overwritten self.old src.now }
    {
        match &mut self.shape {
            Shape::One(part) => part.as_mut().copy_from_slice(src),
            Shape::Many(parts) => parts.copy_from_slice(src),
        }
    }

    /// Calls `visit` on each chunk that holds bytes, in order, to change them in place (own).
    pub fn for_each_chunk_mut<F: FnMut(&mut [u8])>(&mut self, visit: F)
        requires { F.IsAlwaysCallable visit }
        ensures { (last : F) × IsVisited (λ f x g y. CalledAtMut F.FnMut f x tt g y) visit self.old last self.new }
    {
        match &mut self.shape {
            Shape::One(part) => {
                visit_part(part, visit);
            }
            Shape::Many(parts) => parts.for_each_chunk_mut(visit),
        }
    }

    /// Returns the number of buffers (own).
    pub fn part_count(&self) -> usize
        ensures { result ≡ length self.now }
    {
        match &self.shape {
            Shape::One(_) => 1,
            Shape::Many(parts) => parts.count(),
        }
    }

    /// Borrows a buffer by its index (own).
    pub fn part_at(&self, i: usize) -> Option<&IoBufMut>
        ensures { option_copied result ≡ slice_get self.now i }
    {
        match &self.shape {
            Shape::One(part) => match i {
                0 => Some(part),
                _ => None,
            },
            Shape::Many(parts) => parts.get(i),
        }
    }

    /// Returns whether there is exactly one buffer (`IoBufsMut::is_single`).
    pub fn is_single(&self) -> bool
        ensures { result ≡ (length self.now == 1) }
    {
        self.part_count() == 1
    }

    /// Borrows the only buffer (`IoBufsMut::as_single`).
    pub fn as_single(&self) -> Option<&IoBufMut>
        ensures { option_copied result ≡ single_part self.now }
    {
        match &self.shape {
            Shape::One(part) => Some(part),
            Shape::Many(parts) => parts.single(),
        }
    }

    /// Borrows the only buffer for writing (`IoBufsMut::as_single_mut`).
    pub fn as_single_mut(&mut self) -> Option<&mut IoBufMut>
        ensures* writes_back { sem 𝓛 (LendsIf the_row part_row self.entry result (λ part. part ∷ []) self.old) }
        ensures value { option_map (λ part. part.now) result ≡ single_part self.old }
    {
        self.shape.settle();
        self.shape.single_mut()
    }

    /// Returns the address of the first chunk of the readable bytes, for writing (own, for layers). The address isn't
    /// null, even if no byte is readable.
    pub fn chunk_ptr(&mut self) -> *mut u8
        ensures address { result ≡ null_ptr → ⊥ }
        ensures same { self.new ≡ self.old }
    {
        match &mut self.shape {
            Shape::One(part) => address_mut(part.as_mut()),
            Shape::Many(parts) => parts.chunk_ptr(),
        }
    }

    /// Returns the address of the readable bytes of a buffer by its index, for writing (own, for layers). The address
    /// isn't null, even if no byte is readable.
    pub fn part_ptr(&mut self, i: usize) -> *mut u8
        requires { i < length self.old }
        ensures address { result ≡ null_ptr → ⊥ }
        ensures same { self.new ≡ self.old }
    {
        match &mut self.shape {
            Shape::One(part) => address_mut(part.as_mut()),
            Shape::Many(parts) => parts.part_ptr(i),
        }
    }

    /// Converts the buffers that hold bytes into the chunks of an `IoBufs` (`IoBufsMut::freeze`).
    /// If allocation fails, returns `BufError::Memory` and drops the buffers.
    #[tactic(auto, using(crate::proofs::Parts::Frozen::freezing))]
    pub fn freeze(self, alloc: Global) -> Result<IoBufs, BufError>
        ensures ok { IfOk result (λ text. text ≡ parts_frozen self) }
        ensures memory { IsOkUnless result BufError.Memory }
        ensures nothing { length (parts_filled self) ≡ 0 → IsOk result }
    {
        let IoBufsMut { shape } = self;
        match shape {
            Shape::One(part) => IoBufs::from_mut(part),
            Shape::Many(parts) => parts.freeze(alloc),
        }
    }

    /// Returns the only buffer, or the bytes of several in one without spare capacity (`IoBufsMut::coalesce`). They
    /// may be joined in the storage of the first undrained one, if all bytes fit it, and it has at most about 4 KiB or
    /// about twice the bytes. Fails with `BufError::BadLayout` exactly if two or more hold more than `isize::MAX`
    /// bytes, and with `BufError::Memory` if allocation fails.
    #[tactic(auto, using(crate::proofs::Parts::Coalesced::coalescing))]
    pub fn coalesce(mut self, alloc: Global) -> Result<IoBufMut, BufError>
        ensures ok { IfOk result (λ part. part ≡ parts_coalesced self) }
        ensures single { length self ≡ 1 → IsOk result }
        ensures bad_layout { 1 < length self → 2 ^ 63 ≤ length (parts_filled self) → result ≡ Err BufError.BadLayout }
        ensures good_layout { length (parts_filled self) < 2 ^ 63 → IsOkUnless result BufError.Memory }
        ensures nothing { length (parts_filled self) ≡ 0 → IsOk result }
    {
        self.shape.settle();
        let IoBufsMut { shape } = self;
        match shape {
            Shape::One(whole) => Ok(whole),
            Shape::Many(parts) => parts.coalesce(alloc),
        }
    }

    /// Returns the only buffer; several come back (`IoBufsMut::try_into_single`).
    pub fn try_into_single(mut self) -> Result<IoBufMut, IoBufsMut>
        ensures { MatchResult result (λ part. self ≡ part ∷ []) (λ parts. (parts ≡ self) × (single_part self ≡ None)) }
    {
        self.shape.settle();
        let IoBufsMut { shape } = self;
        match shape {
            Shape::One(part) => Ok(part),
            shape => Err(IoBufsMut { shape }),
        }
    }
}

impl From<IoBufMut> for IoBufsMut {
    ghost use Rattle.std.specs.Prelude.{◌≡◌, ◌∷◌, []};

    ghost from_gives = { λ part parts. parts ≡ part ∷ [] };

    fn from(part: IoBufMut) -> IoBufsMut {
        IoBufsMut {
            shape: Shape::One(part),
        }
    }
}

impl From<Vec<u8>> for IoBufsMut {
    ghost use Rattle.std.specs.Prelude.{◌≡◌, ◌-◌, ◌∷◌, [], vec_capacity, vec_len};

    ghost from_gives = { λ v parts. parts ≡ (record { filled = v.items; spare = vec_capacity v - vec_len v }) ∷ [] };

    fn from(bytes: Vec<u8>) -> IoBufsMut {
        IoBufsMut::from(IoBufMut::from(bytes))
    }
}

impl Buf for IoBufsMut {
    ghost use Rattle.iobufs.specs.Laws.Draining.{filled-drained, joined-part_chunks, full-part_chunks};

    ghost text = { parts_filled };

    ghost advanced = { parts_drained };

    ghost copied = { parts_drained };

    ghost pieces = { parts_chunks };

    fn remaining(&self) -> usize {
        self.len()
    }

    #[tactic(auto, using(crate::proofs::Parts::PartChunks::reading))]
    fn chunk(&self) -> &[u8] {
        match &self.shape {
            Shape::One(part) => part.as_ref(),
            Shape::Many(parts) => parts.chunk(),
        }
    }

    #[tactic(auto, using(crate::proofs::Parts::PartChunks::reading))]
    fn byte_at(&self, i: usize) -> Option<u8> {
        match &self.shape {
            Shape::One(part) => part.byte_at(i),
            Shape::Many(parts) => parts.byte_at(i),
        }
    }

    /// Drops the first `n` bytes. A drained buffer keeps its spare capacity; of several, those without capacity go, and
    /// at least one buffer stays.
    fn advance(&mut self, n: usize) {
        match &mut self.shape {
            Shape::One(part) => part.advance(n),
            Shape::Many(parts) => parts.advance(n),
        }
    }

    #[tactic(auto, using(crate::proofs::Parts::PartChunks::reading))]
    fn copy_to_slice(&mut self, dst: &mut [u8]) {
        match &self.shape {
            Shape::One(part) => dst.copy_from_slice(&part.as_ref()[..dst.len()]),
            Shape::Many(parts) => parts.read(dst),
        }
        self.advance(dst.len());
    }

    /// Takes the first `n` bytes, and leaves what `advance` leaves. May take the bytes with their storage if they are
    /// all bytes of a buffer without spare capacity; otherwise copies them.
    #[tactic(auto, using(crate::proofs::Parts::PartChunks::reading))]
    fn copy_to_bytes(&mut self, alloc: Global, n: usize) -> Result<Bytes, BufError> {
        if n == 0 {
            return Ok(Bytes::new());
        }
        if let Some(bytes) = self.shape.take_front(alloc, n)? {
            return Ok(bytes);
        }
        let bytes = match &self.shape {
            Shape::One(part) => Bytes::copy_from_slice(alloc, &part.as_ref()[..n])?,
            Shape::Many(parts) => Bytes::from_vec(parts.copy_front(alloc, n)?)?,
        };
        self.advance(n);
        Ok(bytes)
    }

    #[tactic(auto, using(crate::proofs::Parts::PartChunks::reading))]
    fn chunks_vectored(&self, alloc: Global, max: usize) -> Result<Vec<&[u8]>, BufError> {
        if max == 0 || self.len() == 0 {
            return Ok(Vec::new(alloc));
        }
        match &self.shape {
            Shape::One(part) => part.chunks_vectored(alloc, max),
            Shape::Many(parts) => Ok(parts.chunks(alloc, max)?),
        }
    }

    ghost drops = { λ parts n h. filled-drained parts n };

    ghost copies = { λ parts n h. filled-drained parts n };

    ghost joins = { joined-part_chunks };

    ghost full = { full-part_chunks };
}

impl BufMut for IoBufsMut {
    ghost use Rattle.iobufs.specs.Laws.Filling.{AreFilled, filled_composes, filled_lessens, filled_nothing, filled_unchanged};

    ghost room = { parts_spare };

    ghost filled = { AreFilled };

    #[tactic(auto, using(crate::proofs::Parts::PartLaws::sums))]
    fn remaining_mut(&self) -> usize {
        match &self.shape {
            Shape::One(part) => part.remaining_mut(),
            Shape::Many(parts) => parts.spare(),
        }
    }

    fn put_slice(&mut self, src: &[u8]) {
        match &mut self.shape {
            Shape::One(part) => part.put_slice(src),
            Shape::Many(parts) => parts.put(src),
        }
    }

    fn put_bytes(&mut self, value: u8, n: usize) {
        match &mut self.shape {
            Shape::One(part) => part.put_bytes(value, n),
            Shape::Many(parts) => parts.put_bytes(value, n),
        }
    }

    ghost nothing = { filled_nothing };

    ghost unchanged = { filled_unchanged };

    ghost composes = { filled_composes };

    ghost lessens = { filled_lessens };
}

/// Fails also if a sum of capacities would be above `usize::MAX`.
impl FromIterator<IoBufMut> for IoBufsMut {
    type Alloc = Global;

    ghost from_iter_gives = { λ parts bufs. bufs ≡ kept_parts parts };

    fn from_iter<U: IntoIterator<Item = IoBufMut>>(
        alloc: Global,
        iter: U,
    ) -> Result<IoBufsMut, AllocError>
        requires { (it : U.IntoIter) → U.into_iter_gives iter it
            → U.IntoIter.can_next it × IsFinite (U.IntoIter.remaining it) }
        ensures ran { IfOk result (λ bufs. (it : U.IntoIter) × (parts : List Part)
            × U.into_iter_gives iter it × DrainsIf U.IntoIter.next_gives ⊤ it parts × (bufs ≡ kept_parts parts)) }
        ensures err { OnErr result ((it : U.IntoIter) × (cause : BufError)
            × U.into_iter_gives iter it × SomeRun U.IntoIter.next_gives it (λ run. IsRowRefusedAt run.items cause)) }
    {
        match IoBufsMut::from_parts(alloc, iter.into_iter()) {
            Ok(bufs) => Ok(bufs),
            Err(_) => Err(AllocError),
        }
    }
}

impl fmt::Debug for IoBufsMut {
    ghost debug_output = { λ parts. Some (codes "IoBufsMut { len: " ++ decimal (length (parts_filled parts))
        ++ codes ", cap: " ++ decimal (parts_capacity parts) ++ codes " }") };

    fn fmt<W: fmt::Write>(&self, f: &mut fmt::Formatter<W>) -> fmt::Result {
        let len = self.len();
        let cap = self.capacity();
        write!(f, "IoBufsMut {{ len: {len}, cap: {cap} }}")
    }
}
