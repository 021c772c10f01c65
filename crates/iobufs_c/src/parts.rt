// iobufsmut (IoBufsMut): writable buffers (parts) as one. The empty one has one part, of capacity 0.
ghost use Rattle.std.specs.Prelude.{◌≡◌, ◌⊎◌, ◌≤◌, ◌<◌, ◌^◌, ◌==◌, ◌∷◌, [], if◌then◌else◌, List, length, map, take, drop, min, replicate, nat_le, IfOk, IsOk, OnOk, OnErr, false};
ghost use Rattle.std.specs.Borrow.{sem, Lends, full_share};
ghost use Rattle.std.specs.Ptr.{lies_at, null_ptr, room_at};
ghost use Rattle.iobufs.specs.Parts.{kept_parts, parts_capacity, parts_chunks, parts_coalesced, parts_drained, parts_fill, parts_filled, parts_frozen, parts_spare, parts_with_len};
ghost use Rattle.iobufs.specs.contracts.bufs_mut.IoBufsMut.{the_row as parts_row};
ghost use Rattle.iobufs_core.specs.Chunks.{first_chunk};
ghost use Rattle.iobufs_core.specs.Part.{Part, empty_part};
ghost use Rattle.iobufs_c.specs.Codes.{IsDoneUnless, code_of};

use crate::part::{PartAt, hand_part};
use crate::status::{Status, done_or, refusal};
use crate::text::{Chunk, TextAt, hand_text};
use iobufs::bufs_mut::IoBufsMut;
use iobufs_core::buf::IoBufMut;
use iobufs_core::codec::{Buf, BufMut};
use std::alloc::{AllocError, Global};
use std::marker::{Model, Send};
use std::mem;

/// The handle of an `IoBufsMut` in the caller's memory. An empty handle has one buffer, of capacity 0.
#[repr(C)]
pub struct PartsAt {
    at: *mut u8,
    ghost value: { List Part },
}

impl Model for PartsAt {
    ghost use Rattle.std.specs.Borrow.{full_share};
    ghost use Rattle.std.specs.Ptr.{lies_at};
    ghost use Rattle.iobufs.specs.contracts.bufs_mut.IoBufsMut.{the_row as parts_row};

    ghost also_owns = { λ h. lies_at parts_row full_share h.at h.value };
}

// Buffers may go to another thread with their handle (proofs/parts/PartsAt/TheSendSync).
unsafe impl Send for PartsAt {}

impl PartsAt {
    ghost use Rattle.iobufs_c.specs.contracts.parts.PartsAt.{the_row};

    /// Borrows the `IoBufsMut` of the handle.
    pub(crate) fn get(&mut self) -> &mut IoBufsMut
        ensures* writes_back { sem 𝓛 (Lends the_row parts_row self.entry result
            (λ v. record { at = self.old.at; value = v })) }
        ensures value { result.now ≡ self.old.value }
    {
        unsafe { &mut *(self.at as *mut IoBufsMut) }
    }
}

fn empty(alloc: Global) -> IoBufsMut
    ensures { result ≡ empty_part 0 ∷ [] }
{
    IoBufsMut::from(IoBufMut::new(alloc))
}

/// Returns the library's size of a `struct iobufsmut`. (own)
#[unsafe(no_mangle)]
pub extern "C" fn iobufsmut_size() -> usize
    ensures value { result ≡ 80 }
{
    mem::size_of::<IoBufsMut>()
}

/// Makes the empty iobufsmut of memory. (IoBufsMut::default)
#[unsafe(no_mangle)]
pub unsafe extern "C" fn iobufsmut_init(alloc: Global, at: *mut u8)
    requires* { sem 𝓛 (room_at parts_row at) }
    ensures* { sem 𝓛 (lies_at parts_row full_share at (empty_part 0 ∷ [])) }
{
    (at as *mut IoBufsMut).write(empty(alloc));
}

/// Drops the buffers; the empty iobufsmut is left. (Drop)
#[unsafe(no_mangle)]
pub extern "C" fn iobufsmut_drop(alloc: Global, parts: &mut PartsAt)
    ensures at { parts.new.at ≡ parts.old.at }
    ensures value { parts.new.value ≡ empty_part 0 ∷ [] }
{
    *parts.get() = empty(alloc);
}

/// Makes an iobufsmut of one buffer, whose handle is left empty. (From<IoBufMut>)
#[unsafe(no_mangle)]
pub extern "C" fn iobufsmut_from_mut(alloc: Global, part: &mut PartAt, out: &mut PartsAt)
    ensures at { (part.new.at ≡ part.old.at) × (out.new.at ≡ out.old.at) }
    ensures part { part.new.value ≡ empty_part 0 }
    ensures value { out.new.value ≡ part.old.value ∷ [] }
{
    let part = mem::replace(part.get(), IoBufMut::new(alloc));
    *out.get() = IoBufsMut::from(part);
}

// Takes the buffers of these handles, in order, and leaves the handles empty. If an allocation fails, all stay.
fn take_row(alloc: Global, places: &mut [PartAt]) -> Result<Vec<IoBufMut>, AllocError>
    ensures ok { IfOk result (λ row. row.items ≡ map (λ place. place.value) places.old) }
    ensures taken { OnOk result (map (λ place. place.value) places.new ≡ replicate (length places.old) (empty_part 0)) }
    ensures unchanged { OnErr result (places.new ≡ places.old) }
    ensures at { map (λ place. place.at) places.new ≡ map (λ place. place.at) places.old }
    ensures nothing { length places.old ≡ 0 → IsOk result }
{
    let mut row = Vec::with_capacity(alloc, places.len())?;
    for i in 0..places.len() {
        let part = mem::replace(places[i].get(), IoBufMut::new(alloc));
        row.push(part).unwrap();
    }
    Ok(row)
}

/// Makes an iobufsmut of the buffers of n handles in order, without those that can hold no byte; the handles are left
/// empty. (FromIterator)
/// Fails: IOBUFS_TOO_LONG if the capacities would pass SIZE_MAX; IOBUFS_MEMORY. After both the buffers may be dropped:
///   all of them, or none.
#[unsafe(no_mangle)]
pub extern "C" fn iobufsmut_from_parts(
    alloc: Global,
    buffers: &mut [PartAt],
    out: &mut PartsAt,
) -> u8
    ensures at { (map (λ place. place.at) buffers.new ≡ map (λ place. place.at) buffers.old)
        × (out.new.at ≡ out.old.at) }
    ensures value { out.new.value ≡ (if result == 0 then kept_parts
        (map (λ place. place.value) buffers.old) else out.old.value) }
    ensures taken { result ≡ 0
        → map (λ place. place.value) buffers.new ≡ replicate (length buffers.old) (empty_part 0) }
    ensures unchanged { (result == 0) ≡ false → (buffers.new ≡ buffers.old) ⊎ (map (λ place. place.value) buffers.new ≡
        replicate (length buffers.old) (empty_part 0)) }
    ensures too_long { 2 ^ 64 ≤ parts_capacity (map (λ place. place.value) buffers.old)
        → (result ≡ code_of Status.Memory) ⊎ (result ≡ code_of Status.TooLong) }
    ensures fits { parts_capacity (map (λ place. place.value) buffers.old) < 2 ^ 64
        → IsDoneUnless result Status.Memory }
    ensures nothing { length buffers.old ≡ 0 → result ≡ 0 }
{
    let Ok(row) = take_row(alloc, buffers) else {
        return Status::Memory.code();
    };
    match IoBufsMut::from_parts(alloc, row.into_iter()) {
        Ok(parts) => {
            *out.get() = parts;
            Status::Done.code()
        }
        Err(cause) => refusal(cause),
    }
}

/// Returns the number of readable bytes. (len)
#[unsafe(no_mangle)]
pub extern "C" fn iobufsmut_len(parts: &mut PartsAt) -> usize
    ensures same { (parts.new.at ≡ parts.old.at) × (parts.new.value ≡ parts.old.value) }
    ensures value { result ≡ length (parts_filled parts.old.value) }
{
    parts.get().len()
}

/// Returns the sum of the parts' capacities; a drained part counts with its spare capacity. (capacity)
#[unsafe(no_mangle)]
pub extern "C" fn iobufsmut_capacity(parts: &mut PartsAt) -> usize
    ensures same { (parts.new.at ≡ parts.old.at) × (parts.new.value ≡ parts.old.value) }
    ensures value { result ≡ parts_capacity parts.old.value }
{
    parts.get().capacity()
}

/// Returns how many bytes may still be put. (BufMut::remaining_mut)
#[unsafe(no_mangle)]
pub extern "C" fn iobufsmut_remaining_mut(parts: &mut PartsAt) -> usize
    ensures same { (parts.new.at ≡ parts.old.at) × (parts.new.value ≡ parts.old.value) }
    ensures value { result ≡ parts_spare parts.old.value }
{
    parts.get().remaining_mut()
}

/// Returns the number of parts. (own)
#[unsafe(no_mangle)]
pub extern "C" fn iobufsmut_part_count(parts: &mut PartsAt) -> usize
    ensures same { (parts.new.at ≡ parts.old.at) × (parts.new.value ≡ parts.old.value) }
    ensures value { result ≡ length parts.old.value }
{
    parts.get().part_count()
}

/// Writes a pointer to the first chunk of the readable bytes, as iobuf_chunk does, and returns the chunk's length. No
/// other buffer shares its bytes: they may be overwritten there, and no contract says with which bytes. (Buf::chunk)
#[unsafe(no_mangle)]
pub extern "C" fn iobufsmut_chunk(parts: &mut PartsAt, out: &mut *mut u8) -> usize
    ensures same { (parts.new.at ≡ parts.old.at) × (parts.new.value ≡ parts.old.value) }
    ensures value { result ≡ length (first_chunk (parts_chunks parts.old.value)) }
    ensures address { out.new ≡ null_ptr → ⊥ }
{
    let parts = parts.get();
    *out = parts.chunk_ptr();
    parts.chunk().len()
}

// The address of the bytes of a buffer, to write there, and their length.
fn chunk_at(parts: &mut IoBufsMut, i: usize, len: usize) -> Chunk
    requires { i < length parts.old }
    ensures same { parts.new ≡ parts.old }
    ensures len { result.len ≡ len }
{
    let base = parts.part_ptr(i) as *const u8;
    Chunk { base, len }
}

// Fills a list with the addresses and lengths of the first chunks of the readable bytes, and returns how many it
// filled.
fn fill_chunks(parts: &mut IoBufsMut, out: &mut [Chunk]) -> usize
    ensures same { parts.new ≡ parts.old }
    ensures count { result ≡ min (length out.old) (length (parts_chunks parts.old)) }
    ensures lengths { map (λ chunk. chunk.len) (take result out.new) ≡ map length
        (take result (parts_chunks parts.old)) }
    ensures rest { drop result out.new ≡ drop result out.old }
{
    let mut count = 0;
    let mut i = 0;
    while count < out.len() && i < parts.part_count() {
        let Some(part) = parts.part_at(i) else {
            return count;
        };
        if !part.is_empty() {
            let len = part.len();
            out[count] = chunk_at(parts, i, len);
            count += 1;
        }
        i += 1;
    }
    count
}

/// Fills a list of n for readv (or writev) with the first chunks of the readable bytes, and returns how many it filled.
/// To read into parts, set their length first. (Buf::chunks_vectored)
#[unsafe(no_mangle)]
pub extern "C" fn iobufsmut_chunks(parts: &mut PartsAt, out: &mut [Chunk]) -> usize
    ensures same { (parts.new.at ≡ parts.old.at) × (parts.new.value ≡ parts.old.value) }
    ensures count { result ≡ min (length out.old) (length (parts_chunks parts.old.value)) }
    ensures lengths { map (λ chunk. chunk.len) (take result out.new) ≡ map length
        (take result (parts_chunks parts.old.value)) }
    ensures rest { drop result out.new ≡ drop result out.old }
{
    fill_chunks(parts.get(), out)
}

/// Puts bytes, part after part. (BufMut::put_slice)
/// Fails: IOBUFS_OUT_OF_RANGE if they don't fit.
#[unsafe(no_mangle)]
pub extern "C" fn iobufsmut_put_slice(parts: &mut PartsAt, src: &[u8]) -> u8
    ensures at { parts.new.at ≡ parts.old.at }
    ensures value { parts.new.value ≡ (if result == 0 then parts_fill parts.old.value src.now else parts.old.value) }
    ensures result { result ≡ (if nat_le (length src.now)
        (parts_spare parts.old.value) then 0 else code_of Status.OutOfRange) }
{
    done_or(parts.get().try_put_slice(src), Status::OutOfRange)
}

/// Puts a byte n times. (BufMut::put_bytes)
/// Fails: IOBUFS_OUT_OF_RANGE if they don't fit.
#[unsafe(no_mangle)]
pub extern "C" fn iobufsmut_put_bytes(parts: &mut PartsAt, value: u8, n: usize) -> u8
    ensures at { parts.new.at ≡ parts.old.at }
    ensures value { parts.new.value ≡ (if result == 0 then parts_fill parts.old.value (replicate n value) else
        parts.old.value) }
    ensures result { result ≡ (if nat_le n (parts_spare parts.old.value) then 0 else code_of Status.OutOfRange) }
{
    done_or(parts.get().try_put_bytes(value, n), Status::OutOfRange)
}

/// Makes n bytes readable, the parts filled in order; those that were not are zero. A part loses readable bytes that
/// are above its share of the n. (set_len)
/// Fails: IOBUFS_OUT_OF_RANGE if n is above the capacity.
#[unsafe(no_mangle)]
pub extern "C" fn iobufsmut_set_len(parts: &mut PartsAt, n: usize) -> u8
    ensures at { parts.new.at ≡ parts.old.at }
    ensures value { parts.new.value ≡ (if result == 0 then parts_with_len parts.old.value n else parts.old.value) }
    ensures result { result ≡ (if nat_le n (parts_capacity parts.old.value) then 0 else code_of Status.OutOfRange) }
{
    done_or(parts.get().try_set_len(n), Status::OutOfRange)
}

/// Drops the first n readable bytes; a drained part keeps its spare capacity. (Buf::advance)
/// Fails: IOBUFS_OUT_OF_RANGE if there are fewer.
#[unsafe(no_mangle)]
pub extern "C" fn iobufsmut_advance(parts: &mut PartsAt, n: usize) -> u8
    ensures at { parts.new.at ≡ parts.old.at }
    ensures value { parts.new.value ≡ (if result == 0 then parts_drained parts.old.value n else parts.old.value) }
    ensures result { result ≡ (if nat_le n (length
        (parts_filled parts.old.value)) then 0 else code_of Status.OutOfRange) }
{
    done_or(parts.get().try_advance(n), Status::OutOfRange)
}

/// Copies the first n bytes out and drops them. (Buf::copy_to_slice)
/// Fails: IOBUFS_END_OF_BUFFER if there are fewer.
#[unsafe(no_mangle)]
pub extern "C" fn iobufsmut_copy_to_slice(parts: &mut PartsAt, dst: &mut [u8]) -> u8
    ensures at { parts.new.at ≡ parts.old.at }
    ensures value { parts.new.value ≡ (if result == 0 then parts_drained parts.old.value (length dst.old) else
        parts.old.value) }
    ensures bytes { dst.new ≡ (if result == 0 then take (length dst.old) (parts_filled parts.old.value) else dst.old) }
    ensures result { result ≡ (if nat_le (length dst.old)
        (length (parts_filled parts.old.value)) then 0 else code_of Status.EndOfBuffer) }
{
    let is_done = parts.get().try_copy_to_slice(dst).is_ok();
    done_or(is_done, Status::EndOfBuffer)
}

/// Makes the parts that hold bytes the chunks of one iobufs, not copied; the empty iobufsmut is left. (freeze)
/// Fails: IOBUFS_MEMORY, for the deque, and the parts are dropped.
#[unsafe(no_mangle)]
pub extern "C" fn iobufsmut_freeze(alloc: Global, parts: &mut PartsAt, out: &mut TextAt) -> u8
    ensures at { (parts.new.at ≡ parts.old.at) × (out.new.at ≡ out.old.at) }
    ensures parts { parts.new.value ≡ empty_part 0 ∷ [] }
    ensures value { out.new.value ≡ (if result == 0 then parts_frozen parts.old.value else out.old.value) }
    ensures memory { IsDoneUnless result Status.Memory }
    ensures nothing { length (parts_filled parts.old.value) ≡ 0 → result ≡ 0 }
{
    hand_text(mem::replace(parts.get(), empty(alloc)).freeze(alloc), out)
}

/// Makes one buffer of the parts; the bytes of several are copied, perhaps into the first one's storage. The empty
/// iobufsmut is left, also after an error. (coalesce)
/// Fails: IOBUFS_BAD_LAYOUT if several have more than SSIZE_MAX bytes; IOBUFS_MEMORY, for the copy.
#[unsafe(no_mangle)]
pub extern "C" fn iobufsmut_coalesce(alloc: Global, parts: &mut PartsAt, out: &mut PartAt) -> u8
    ensures at { (parts.new.at ≡ parts.old.at) × (out.new.at ≡ out.old.at) }
    ensures parts { parts.new.value ≡ empty_part 0 ∷ [] }
    ensures value { out.new.value ≡ (if result == 0 then parts_coalesced parts.old.value else out.old.value) }
    ensures single { length parts.old.value ≡ 1 → result ≡ 0 }
    ensures bad_layout { 1 < length parts.old.value
        → 2 ^ 63 ≤ length (parts_filled parts.old.value) → result ≡ code_of Status.BadLayout }
    ensures memory { length (parts_filled parts.old.value) < 2 ^ 63 → IsDoneUnless result Status.Memory }
    ensures nothing { length (parts_filled parts.old.value) ≡ 0 → result ≡ 0 }
{
    hand_part(mem::replace(parts.get(), empty(alloc)).coalesce(alloc), out)
}
