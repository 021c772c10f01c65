// A row of parts with their sums.
ghost use Rattle.std.specs.Option.{option_copied};
ghost use Rattle.std.specs.Ptr.{null_ptr};
ghost use Rattle.std.specs.Prelude.{◌≡◌, ◌+◌, ◌-◌, ◌^◌, ◌<◌, ◌≤◌, ◌++◌, [], ◌∷◌, drop, false, fold, length, map, min, nat_lt, replicate, slice_get, slice_index_or, take, Err, IfNone, IfOk, IfSome, IsOk, IsOkUnless, IsTrue, OnErr, OnOk, vec_capacity, vec_len};
ghost use Rattle.iobufs_core.specs.Chunks.{first_chunk};
ghost use Rattle.iobufs_core.specs.MarkedText.{of_view, text_append};
ghost use Rattle.iobufs_core.specs.Part.{empty_part, part_capacity, part_frozen, part_overwritten, part_put, part_with_len};
ghost use Rattle.iobufs.specs.Inside.PartOrder.{AreBehind, HaveNoSpare, first_drained, in_order};
ghost use Rattle.iobufs.specs.Visiting.{IsVisited};
ghost use Rattle.std.specs.Fn.{CalledAtMut};
ghost use Rattle.iobufs.specs.Parts.{HaveCapacity, IsParts, kept_parts, parts_capacity, parts_chunks, parts_drained, parts_fill, parts_filled, parts_frozen, parts_overwritten, parts_spare, parts_with_len, single_part};

use crate::bufs::IoBufs;
use crate::bufs::reserved::put_reserved;
use crate::bufs::row::NewRow;
use bytes::Bytes;
use iobufs_core::buf::{IoBuf, IoBufMut, address_mut};
use iobufs_core::codec::{Buf, BufError, BufMut};
use std::alloc::{AllocError, Global};
use std::collections::VecDeque;
use std::marker::Model;
use std::mem;

/// One part or more in a deque, with the sums of their lengths and capacities. With two or more, each can hold a byte.
/// Drained ones are after the others, so that `chunk` and `advance` begin with the others:
///
/// ```text
/// in order | . . | . . | b c | d e |
/// row      | b c | d e | . . | . . |    used: 2
/// ```
#[derive(Drop)]
pub(super) struct Several {
    row: VecDeque<IoBufMut>,
    used: usize,
    // The first `full` buffers in order are known to have no spare capacity. A put begins after them.
    full: usize,
    len: usize,
    capacity: usize,
}

impl Model for Several {
    ghost use Rattle.std.specs.Prelude.{List};
    ghost use Rattle.iobufs_core.specs.Part.{Part};
    ghost use Rattle.iobufs.specs.Inside.PartOrder.{AreKept, in_order};

    ghost Value = { List Part };

    ghost view = { λ s. in_order s.row.items s.used };

    ghost invariant = { λ s. AreKept s.row.items s.used s.full s.len s.capacity };
}

impl Several {
    /// Two parts in a deque with space for `expected`.
    pub(super) fn of_two(
        alloc: Global,
        first: IoBufMut,
        second: IoBufMut,
        expected: usize,
    ) -> Result<Several, AllocError>
        requires have_capacity { HaveCapacity (first ∷ second ∷ []) }
        requires fits { parts_capacity (first ∷ second ∷ []) < 2 ^ 64 }
        ensures { IfOk result (λ parts. parts ≡ first ∷ second ∷ []) }
    {
        let len = first.len() + second.len();
        let capacity = first.capacity() + second.capacity();
        let mut row = VecDeque::with_capacity(alloc, expected.max(2))?;
        row.push_back_reserved(first);
        row.push_back_reserved(second);
        Ok(Several {
            row,
            used: 0,
            full: 0,
            len,
            capacity,
        })
    }

    #[tactic(auto, using(crate::proofs::Parts::OrderLaws::ordered))]
    pub(super) fn push(&mut self, part: IoBufMut) -> Result<(), AllocError>
        requires several { 1 < length self.old }
        requires more { 0 < part_capacity part }
        requires fits { parts_capacity self.old + part_capacity part < 2 ^ 64 }
        ensures pushed { OnOk result (self.new ≡ self.old ++ part ∷ []) }
        ensures kept { OnOk result (self.new ≡ kept_parts self.new) }
    {
        let (len, capacity) = (part.len(), part.capacity());
        settle(&mut self.row, &mut self.used);
        if self.row.push_back(part).is_err() {
            return Err(AllocError);
        }
        self.len += len;
        self.capacity += capacity;
        Ok(())
    }

    #[tactic(auto, using(crate::proofs::Parts::OrderLaws::ordered))]
    pub(super) fn count(&self) -> usize
        ensures { result ≡ length self.now }
    {
        self.row.len()
    }

    pub(super) fn get(&self, i: usize) -> Option<&IoBufMut>
        ensures { option_copied result ≡ slice_get self.now i }
    {
        if i >= self.row.len() {
            return None;
        }
        self.row.get(place_of(&self.row, self.used, i))
    }

    /// The only part, if there is just one.
    #[tactic(auto, using(crate::proofs::Parts::OrderLaws::ordered))]
    pub(super) fn single(&self) -> Option<&IoBufMut>
        ensures { option_copied result ≡ single_part self.now }
    {
        if self.row.len() > 1 {
            return None;
        }
        self.get(0)
    }

    /// Takes the only part out, if there is just one; one of capacity 0 is left.
    pub(super) fn take_single(&mut self) -> Option<IoBufMut>
        ensures none { IfNone result ((self.new ≡ self.old) × (1 < length self.old)) }
        ensures some { IfSome result (λ part. self.old ≡ part ∷ []) }
    {
        if self.row.len() > 1 {
            return None;
        }
        let none = IoBufMut::default(*self.row.allocator());
        self.used = 0;
        self.full = 0;
        self.len = 0;
        self.capacity = 0;
        Some(mem::replace(&mut self.row[0], none))
    }

    pub(super) fn len(&self) -> usize
        ensures { result ≡ length (parts_filled self.now) }
    {
        self.len
    }

    pub(super) fn capacity(&self) -> usize
        ensures sum { result ≡ parts_capacity self.now }
        ensures parts { IsParts self.now }
    {
        self.capacity
    }

    #[tactic(auto, using(crate::proofs::Parts::PartLaws::sums))]
    pub(super) fn spare(&self) -> usize
        ensures { result ≡ parts_spare self.now }
    {
        self.capacity - self.len
    }

    #[tactic(auto, using(crate::proofs::Parts::OrderLaws::ordered))]
    pub(super) fn put(&mut self, src: &[u8])
        requires { length src.now ≤ parts_spare self.old }
        ensures { self.new ≡ parts_fill self.old src.now }
    {
        if self.used == 0 && put_inside(&mut self.row, &mut self.full, src) {
            self.len += src.len();
            return;
        }
        self.put_behind(src);
    }

    // Acts as `put`: a function of its own, so that bytes that fit the next buffer cost no call.
    #[inline(never)]
    #[tactic(auto, using(crate::proofs::Parts::OrderLaws::ordered))]
    fn put_behind(&mut self, src: &[u8])
        requires { length src.now ≤ parts_spare self.old }
        ensures { self.new ≡ parts_fill self.old src.now }
    {
        settle(&mut self.row, &mut self.used);
        self.full = put(&mut self.row, self.full, src);
        self.len += src.len();
    }

    #[tactic(auto, using(crate::proofs::Parts::OrderLaws::ordered))]
    pub(super) fn put_bytes(&mut self, value: u8, n: usize)
        requires { n ≤ parts_spare self.old }
        ensures { self.new ≡ parts_fill self.old (replicate n value) }
    {
        if n == 0 {
            return;
        }
        settle(&mut self.row, &mut self.used);
        self.full = count_full(&self.row, self.full);
        put_bytes(&mut self.row, self.full, value, n);
        self.len += n;
    }

    #[tactic(auto, using(crate::proofs::Parts::OrderLaws::ordered))]
    pub(super) fn set_len(&mut self, n: usize)
        requires { n ≤ parts_capacity self.old }
        ensures { self.new ≡ parts_with_len self.old n }
    {
        settle(&mut self.row, &mut self.used);
        set_len(&mut self.row, n);
        self.full = 0;
        self.len = n;
    }

    pub(super) fn copy_from_slice(&mut self, src: &[u8])
        requires { length src.now ≡ length (parts_filled self.old) }
        ensures { self.new ≡ parts_overwritten self.old src.now }
    {
        copy_from_slice(&mut self.row, src);
    }

    /// Calls `visit` on the bytes of each part that holds some, in order.
    pub(super) fn for_each_chunk_mut<F: FnMut(&mut [u8])>(&mut self, visit: F)
        requires { F.IsAlwaysCallable visit }
        ensures { (last : F) × IsVisited (λ f x g y. CalledAtMut F.FnMut f x tt g y) visit self.old last self.new }
    {
        visit_all(&mut self.row, visit);
    }

    /// Drops the first `n` bytes, and the parts that then can't hold a byte, except a last one.
    pub(super) fn advance(&mut self, n: usize)
        requires { n ≤ length (parts_filled self.old) }
        ensures { self.new ≡ parts_drained self.old n }
    {
        self.len -= n;
        self.capacity -= n;
        if !shorten(&mut self.row, n) {
            let count = self.row.len();
            self.used = drain(&mut self.row, n, self.used);
            // Each buffer that was dropped had no spare capacity.
            if self.row.len() < count {
                self.full = self.full.saturating_sub(count - self.row.len());
            }
        }
    }

    /// Takes the first `n` bytes with their storage, if the row's first part has no spare capacity and holds just
    /// these, and others are left.
    pub(super) fn take_front(&mut self, alloc: Global, n: usize) -> Result<Option<Bytes>, BufError>
        requires { 0 < n }
        ensures front { IfOk result (λ front. IfSome front (λ bytes.
            (bytes ≡ take n (parts_filled self.old)) × (self.new ≡ parts_drained self.old n))) }
        ensures none { IfOk result (λ front. IfNone front (self.new ≡ self.old)) }
        ensures unchanged { OnErr result (self.new ≡ self.old) }
        ensures memory { IsOkUnless result BufError.Memory }
    {
        let Some(bytes) = take_first(&mut self.row, alloc, n)? else {
            return Ok(None);
        };
        self.full = self.full.saturating_sub(1);
        self.len -= n;
        self.capacity -= n;
        Ok(Some(bytes))
    }

    /// The bytes of the first part that holds some, or no bytes.
    #[tactic(auto, using(crate::proofs::Parts::PartChunks::reading))]
    pub(super) fn chunk(&self) -> &[u8]
        ensures { result.now ≡ first_chunk (parts_chunks self.now) }
    {
        for part in &self.row {
            if !part.is_empty() {
                return part.as_ref();
            }
        }
        &[]
    }

    /// The address of the first chunk.
    pub(super) fn chunk_ptr(&mut self) -> *mut u8
        ensures address { result ≡ null_ptr → ⊥ }
        ensures same { self.new ≡ self.old }
    {
        let first = first_filled(&self.row);
        address_mut(self.row[first].as_mut())
    }

    /// The address of the bytes of a part.
    pub(super) fn part_ptr(&mut self, i: usize) -> *mut u8
        requires { i < length self.old }
        ensures address { result ≡ null_ptr → ⊥ }
        ensures same { self.new ≡ self.old }
    {
        let place = place_of(&self.row, self.used, i);
        address_mut(self.row[place].as_mut())
    }

    #[tactic(auto, using(crate::proofs::Parts::PartChunks::reading))]
    pub(super) fn byte_at(&self, i: usize) -> Option<u8>
        ensures { result ≡ slice_get (parts_filled self.now) i }
    {
        let mut at = i;
        for part in &self.row {
            let len = part.len();
            if at < len {
                return part.byte_at(at);
            }
            at -= len;
        }
        None
    }

    /// Fills `dst` with the first bytes.
    #[tactic(auto, using(crate::proofs::Parts::PartChunks::reading))]
    pub(super) fn read(&self, dst: &mut [u8])
        requires { length dst.old ≤ length (parts_filled self.now) }
        ensures { dst.new ≡ take (length dst.old) (parts_filled self.now) }
    {
        let mut at = 0;
        for part in &self.row {
            if at == dst.len() {
                return;
            }
            at = read_share(part, dst, at);
        }
    }

    /// A copy of the first `n` bytes.
    #[tactic(auto, using(crate::proofs::Parts::PartChunks::reading))]
    pub(super) fn copy_front(&self, alloc: Global, n: usize) -> Result<Vec<u8>, AllocError>
        ensures bytes { IfOk result (λ bytes. bytes.items ≡ take n (parts_filled self.now)) }
        ensures nothing { n ≡ 0 → IsOk result }
    {
        let mut bytes = Vec::with_capacity(alloc, n)?;
        let mut rest = n;
        for part in &self.row {
            if rest == 0 {
                break;
            }
            rest = extend_share(&mut bytes, part, rest);
        }
        Ok(bytes)
    }

    /// The bytes of the first parts that hold some, at most `max` parts.
    #[tactic(auto, using(crate::proofs::Parts::PartChunks::reading))]
    pub(super) fn chunks(&self, alloc: Global, max: usize) -> Result<Vec<&[u8]>, AllocError>
        ensures { IfOk result (λ chunks. map (λ chunk. chunk.now) chunks.items ≡ take max (parts_chunks self.now)) }
    {
        let mut chunks = Vec::new(alloc);
        for part in &self.row {
            if chunks.len() == max {
                break;
            }
            if part.is_empty() {
                continue;
            }
            chunks.push(part.as_ref())?;
        }
        Ok(chunks)
    }

    /// Freezes the buffers that hold bytes, in order. A single chunk needs no deque.
    #[tactic(auto, using(crate::proofs::Parts::Frozen::freezing))]
    pub(super) fn freeze(self, alloc: Global) -> Result<IoBufs, BufError>
        ensures ok { IfOk result (λ text. text ≡ parts_frozen self) }
        ensures memory { IsOkUnless result BufError.Memory }
        ensures nothing { length (parts_filled self) ≡ 0 → IsOk result }
    {
        let Several {
            mut row,
            used: _,
            full: _,
            len,
            capacity: _,
        } = self;
        while let Some(part) = row.pop_front() {
            let piece = part.freeze()?;
            if piece.len() == len {
                return Ok(IoBufs::from(piece));
            }
            if piece.len() != 0 {
                return freeze_behind(alloc, piece, row);
            }
        }
        Ok(IoBufs::default())
    }

    /// All bytes in one buffer, without spare capacity.
    pub(super) fn coalesce(self, alloc: Global) -> Result<IoBufMut, BufError>
        ensures ok { IfOk result (λ part. part ≡ record { filled = parts_filled self; spare = 0 }) }
        ensures bad_layout { 2 ^ 63 ≤ length (parts_filled self) → result ≡ Err BufError.BadLayout }
        ensures good_layout { length (parts_filled self) < 2 ^ 63 → IsOkUnless result BufError.Memory }
        ensures nothing { length (parts_filled self) ≡ 0 → IsOk result }
    {
        let Several {
            mut row,
            used: _,
            full: _,
            len,
            capacity: _,
        } = self;
        let first = row.pop_front().unwrap();
        let mut whole = first.grown(alloc, len)?;
        for part in &row {
            whole.put_share(part.as_ref());
        }
        whole.close();
        Ok(whole)
    }
}

// Where the row has the part with the index `i` in order.
#[inline(always)]
fn place_of(row: &VecDeque<IoBufMut>, used: usize, i: usize) -> usize
    requires used { used ≤ length row.now.items }
    requires inside { i < length row.now.items }
    ensures inside { result < length row.now.items }
    ensures part { slice_get row.now.items result ≡ slice_get (in_order row.now.items used) i }
{
    if i < used {
        return row.len() - used + i;
    }
    i - used
}

// The index of the first part that holds bytes, or 0.
fn first_filled(row: &VecDeque<IoBufMut>) -> usize
    requires { 0 < length row.now.items }
    ensures { result < length row.now.items }
{
    for i in 0..row.len() {
        if !row[i].is_empty() {
            return i;
        }
    }
    0
}

// Takes all bytes of a part with their storage, if they are `n` and it has no spare capacity.
#[inline(always)]
pub(super) fn take_whole(
    alloc: Global,
    part: &mut IoBufMut,
    n: usize,
) -> Result<Option<Bytes>, BufError>
    requires { 0 < n }
    ensures whole { IfOk result (λ front. IfSome front (λ bytes.
        (part.old ≡ record { filled = bytes; spare = 0 }) × (length bytes ≡ n) × (part.new ≡ empty_part 0))) }
    ensures none { IfOk result (λ front. IfNone front (part.new ≡ part.old)) }
    ensures unchanged { OnErr result (part.new ≡ part.old) }
    ensures memory { IsOkUnless result BufError.Memory }
{
    if part.len() != n || part.remaining_mut() != 0 {
        return Ok(None);
    }
    Ok(Some(part.copy_to_bytes(alloc, n)?))
}

// Takes the first part of the row with its storage, if it holds `n` bytes and has no spare capacity, and others are
// left.
fn take_first(
    row: &mut VecDeque<IoBufMut>,
    alloc: Global,
    n: usize,
) -> Result<Option<Bytes>, BufError>
    requires some { 0 < length row.old.items }
    requires bytes { 0 < n }
    ensures first { IfOk result (λ front. IfSome front (λ bytes.
        (row.old.items ≡ record { filled = bytes; spare = 0 } ∷ row.new.items) × (length bytes ≡ n)
        × (0 < length row.new.items))) }
    ensures none { IfOk result (λ front. IfNone front (row.new.items ≡ row.old.items)) }
    ensures unchanged { OnErr result (row.new.items ≡ row.old.items) }
    ensures memory { IsOkUnless result BufError.Memory }
{
    if row.len() == 1 {
        return Ok(None);
    }
    let Some(bytes) = take_whole(alloc, &mut row[0], n)? else {
        return Ok(None);
    };
    row.pop_front();
    Ok(Some(bytes))
}

// Copies the bytes of a part to the offset `at` of `dst`, as many as fit, and returns the offset after them.
#[inline(always)]
fn read_share(part: &IoBufMut, dst: &mut [u8], at: usize) -> usize
    requires { at ≤ length dst.old }
    ensures behind { result ≡ at + min (length part.now.filled) (length dst.old - at) }
    ensures long { length dst.new ≡ length dst.old }
    ensures read { take result dst.new ≡ take at dst.old ++ take (length dst.old - at) part.now.filled }
{
    let n = part.len().min(dst.len() - at);
    dst[at..at + n].copy_from_slice(&part.as_ref()[..n]);
    at + n
}

// Puts the first `n` bytes of a part after others that have space for them, and returns how many are left.
#[inline(always)]
fn extend_share(bytes: &mut Vec<u8>, part: &IoBufMut, n: usize) -> usize
    requires { vec_len bytes.old + n ≤ vec_capacity bytes.old }
    ensures put { bytes.new.items ≡ bytes.old.items ++ take n part.now.filled }
    ensures left { result ≡ n - length part.now.filled }
    ensures room { vec_len bytes.new + result ≤ vec_capacity bytes.new }
{
    let share = n.min(part.len());
    put_reserved(bytes, &part.as_ref()[..share]);
    n - share
}

// Counts the buffers before the first one with spare capacity. The first `known` have none.
fn count_full(parts: &VecDeque<IoBufMut>, known: usize) -> usize
    requires { HaveNoSpare known parts.now.items }
    ensures { HaveNoSpare result parts.now.items }
{
    let mut full = known;
    while full < parts.len() && parts[full].remaining_mut() == 0 {
        full += 1;
    }
    full
}

// Puts the bytes into the buffer after the first `full` ones, if they fit there, and returns whether they do. The first
// `full` have no spare capacity. If the bytes leave that buffer none, `full` counts it too.
#[inline(always)]
fn put_inside(parts: &mut VecDeque<IoBufMut>, full: &mut usize, src: &[u8]) -> bool
    requires { HaveNoSpare full.old parts.old.items }
    ensures put { IsTrue result → parts.new.items ≡ parts_fill parts.old.items src.now }
    ensures full { HaveNoSpare full.new parts.new.items }
    ensures same { result ≡ false → (parts.new.items ≡ parts.old.items) × (full.new ≡ full.old) }
{
    if *full >= parts.len() {
        return false;
    }
    let part = &mut parts[*full];
    let room = part.remaining_mut();
    if src.len() > room {
        return false;
    }
    if src.len() == room {
        *full += 1;
    }
    part.put_share(src);
    true
}

// Fills the spare capacity of the buffers in order. The first `full` have none.
#[tactic(auto, using(crate::proofs::Parts::FullLaws::filling))]
fn put(parts: &mut VecDeque<IoBufMut>, full: usize, src: &[u8]) -> usize
    requires fits { length src.now ≤ parts_spare parts.old.items }
    requires full { HaveNoSpare full parts.old.items }
    ensures put { parts.new.items ≡ parts_fill parts.old.items src.now }
    ensures full { HaveNoSpare result parts.new.items }
{
    let mut left = src;
    for i in full..parts.len() {
        let part = &mut parts[i];
        let room = part.remaining_mut();
        if left.len() <= room {
            part.put_share(left);
            return i;
        }
        let (share, rest) = left.split_at(room);
        part.put_share(share);
        left = rest;
    }
    parts.len()
}

// Puts one byte up to `n` times, and returns how many times are left.
fn put_bytes_share(part: &mut IoBufMut, value: u8, n: usize) -> usize
    ensures put { part.new ≡ part_put part.old (take part.old.spare (replicate n value)) }
    ensures left { result ≡ n - part.old.spare }
{
    let share = n.min(part.remaining_mut());
    part.put_bytes(value, share);
    n - share
}

// Puts one byte `n` times into the buffers in order. The first `full` have no spare capacity.
#[tactic(auto, using(crate::proofs::Parts::FullLaws::filling))]
fn put_bytes(parts: &mut VecDeque<IoBufMut>, full: usize, value: u8, n: usize)
    requires fits { n ≤ parts_spare parts.old.items }
    requires full { HaveNoSpare full parts.old.items }
    ensures { parts.new.items ≡ parts_fill parts.old.items (replicate n value) }
{
    let mut rest = n;
    for i in full..parts.len() {
        if rest == 0 {
            return;
        }
        rest = put_bytes_share(&mut parts[i], value, rest);
    }
}

// Makes `n` bytes readable as far as the capacity goes, and returns how many are left.
fn len_share(part: &mut IoBufMut, n: usize) -> usize
    ensures set { part.new ≡ part_with_len part.old (min n (part_capacity part.old)) }
    ensures left { result ≡ n - part_capacity part.old }
{
    let share = n.min(part.capacity());
    part.set_len(share);
    n - share
}

// Makes `n` bytes readable, each part as far as its capacity goes.
fn set_len(parts: &mut VecDeque<IoBufMut>, n: usize)
    ensures { parts.new.items ≡ parts_with_len parts.old.items n }
{
    let mut rest = n;
    for i in 0..parts.len() {
        rest = len_share(&mut parts[i], rest);
    }
}

// Writes over the readable bytes of a part, and returns the bytes that are left.
fn copy_share<'a>(part: &mut IoBufMut, src: &'a [u8]) -> &'a [u8]
    requires { length part.old.filled ≤ length src.now }
    ensures written { part.new ≡ part_overwritten part.old (take (length part.old.filled) src.now) }
    ensures left { result.now ≡ drop (length part.old.filled) src.now }
{
    let (share, rest) = src.split_at(part.len());
    part.as_mut().copy_from_slice(share);
    rest
}

// Writes over the readable bytes of the parts in order.
fn copy_from_slice(parts: &mut VecDeque<IoBufMut>, src: &[u8])
    requires { length src.now ≡ length (parts_filled parts.old.items) }
    ensures { parts.new.items ≡ parts_overwritten parts.old.items src.now }
{
    let mut rest = src;
    for i in 0..parts.len() {
        rest = copy_share(&mut parts[i], rest);
    }
}

// Calls `visit` on the bytes of a part, if it holds some, and returns it.
pub(super) fn visit_part<F: FnMut(&mut [u8])>(part: &mut IoBufMut, mut visit: F) -> F
    requires { F.IsAlwaysCallable visit }
    ensures callable { F.IsAlwaysCallable result }
    ensures visited { IsVisited (λ f x g y. CalledAtMut F.FnMut f x tt g y) visit
        (part.old ∷ []) result (part.new ∷ []) }
{
    if !part.is_empty() {
        visit(part.as_mut());
    }
    visit
}

// Calls `visit` on the bytes of each part that holds some, in the order of the deque.
#[tactic(auto, using(crate::proofs::Parts::Visited::visiting))]
fn visit_all<F: FnMut(&mut [u8])>(parts: &mut VecDeque<IoBufMut>, mut visit: F)
    requires { F.IsAlwaysCallable visit }
    ensures { (last : F) × IsVisited (λ f x g y. CalledAtMut F.FnMut f x tt g y) visit
        parts.old.items last parts.new.items }
{
    for i in 0..parts.len() {
        visit = visit_part(&mut parts[i], visit);
    }
}

// Moves the drained parts, which follow the others, back before them.
#[inline(always)]
fn settle(row: &mut VecDeque<IoBufMut>, used: &mut usize)
    requires { used.old ≤ length row.old.items }
    ensures ordered { row.new.items ≡ in_order row.old.items used.old }
    ensures none { used.new ≡ 0 }
{
    if *used > 0 {
        turn_back(row, *used);
        *used = 0;
    }
}

#[inline(never)]
fn turn_back(row: &mut VecDeque<IoBufMut>, used: usize)
    requires { used ≤ length row.old.items }
    ensures { row.new.items ≡ in_order row.old.items used }
{
    row.rotate_right(used);
}

// Drops the first `n` bytes if the first part of the row holds more, and returns whether it does.
fn shorten(row: &mut VecDeque<IoBufMut>, n: usize) -> bool
    requires { 0 < length row.old.items }
    ensures tells { result ≡ nat_lt n (length (slice_index_or row.old.items 0 (empty_part 0)).filled) }
    ensures drained { IsTrue result → row.new.items ≡ first_drained row.old.items n }
    ensures same { result ≡ false → row.new.items ≡ row.old.items }
{
    let part = &mut row[0];
    if n < part.len() {
        part.advance(n);
        return true;
    }
    false
}

// Drops the first `n` bytes. A drained part goes to the end of the row, after the `used` drained ones, if it can still
// hold a byte or no other part is left. Returns how many drained ones are there then.
#[inline(never)]
fn drain(row: &mut VecDeque<IoBufMut>, n: usize, used: usize) -> usize
    requires behind { AreBehind row.old.items used }
    requires parts { IsParts (in_order row.old.items used) }
    requires some { n ≤ length (parts_filled row.old.items) }
    ensures drained { in_order row.new.items result ≡ parts_drained (in_order row.old.items used) n }
    ensures behind { AreBehind row.new.items result }
{
    let mut rest = n;
    let mut behind = used;
    while rest > 0 {
        if shorten(row, rest) {
            break;
        }
        let mut part = row.pop_front().unwrap();
        let len = part.len();
        part.advance(len);
        rest -= len;
        if part.capacity() > 0 || row.is_empty() {
            row.push_back_reserved(part);
            behind += 1;
        }
    }
    behind
}

// A chunk, and after it the parts that hold bytes, frozen. Space for all is made at once.
#[tactic(auto, using(crate::proofs::Parts::Frozen::freezing))]
fn freeze_behind(
    alloc: Global,
    first: IoBuf,
    mut parts: VecDeque<IoBufMut>,
) -> Result<IoBufs, BufError>
    requires some { 0 < length first.bytes }
    requires fits { length first.bytes + parts_capacity parts.items < 2 ^ 64 }
    ensures ok { IfOk result (λ text. text ≡ fold text_append (of_view first) (map part_frozen parts.items)) }
    ensures memory { IsOkUnless result BufError.Memory }
{
    let mut row = NewRow::with_room(alloc, parts.len() + 1)?;
    row.add(first);
    while let Some(part) = parts.pop_front() {
        row.add(part.freeze()?);
    }
    Ok(IoBufs::from_row(row.finish()))
}
