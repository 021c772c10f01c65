// iobufmut (IoBufMut): a buffer to write, which never grows. The empty one has capacity 0.
ghost use Rattle.std.specs.Prelude.{◌≡◌, ◌==◌, if◌then◌else◌, ◌∷◌, [], length, take, replicate, ◌+◌, nat_le, IsTrue, false, MatchResult, Ok, Err};
ghost use Rattle.std.specs.Borrow.{sem, Lends, full_share};
ghost use Rattle.std.specs.Ptr.{lies_at, null_ptr, room_at};
ghost use Rattle.iobufs_core.specs.Part.{Part, empty_part, is_bad_layout as bad_layout, part_capacity, part_drained, part_frozen, part_put, part_truncated, part_with_len};
ghost use Rattle.iobufs_core.specs.Recovery.{IsPartOf, IsRecovery};
ghost use Rattle.iobufs_core.specs.View.{default_view};
ghost use Rattle.iobufs_core.specs.contracts.buf.part.IoBufMut.{the_row as part_row};
ghost use Rattle.iobufs_c.specs.Codes.{IsDoneUnless, code_of, of_buf_error};
ghost use Rattle.iobufs_c.specs.Rows.{part_written_at};

use crate::status::{Status, done_or, refusal};
use crate::view::{ViewAt, hand};
use iobufs_core::buf::{IoBufMut, address_mut};
use iobufs_core::codec::{Buf, BufError, BufMut};
use std::alloc::Global;
use std::marker::{Model, Send};
use std::mem;

/// The handle of a writable buffer in the caller's memory. An empty handle has a buffer of capacity 0.
#[repr(C)]
pub struct PartAt {
    at: *mut u8,
    ghost value: { Part },
}

impl Model for PartAt {
    ghost use Rattle.std.specs.Borrow.{full_share};
    ghost use Rattle.std.specs.Ptr.{lies_at};
    ghost use Rattle.iobufs_core.specs.contracts.buf.part.IoBufMut.{the_row as part_row};

    ghost also_owns = { λ h. lies_at part_row full_share h.at h.value };
}

// A buffer may go to another thread with its handle (proofs/part/PartAt/TheSendSync).
unsafe impl Send for PartAt {}

impl PartAt {
    ghost use Rattle.iobufs_c.specs.contracts.part.PartAt.{the_row};

    /// Borrows the buffer of the handle.
    pub(crate) fn get(&mut self) -> &mut IoBufMut
        ensures* writes_back { sem 𝓛 (Lends the_row part_row self.entry result
            (λ v. record { at = self.old.at; value = v })) }
        ensures value { result.now ≡ self.old.value }
    {
        unsafe { &mut *(self.at as *mut IoBufMut) }
    }
}

/// Writes a buffer that was made to `out`, and returns the status.
pub(crate) fn hand_part(made: Result<IoBufMut, BufError>, out: &mut PartAt) -> u8
    ensures at { out.new.at ≡ out.old.at }
    ensures told { MatchResult made (λ part. (result ≡ 0) × (out.new.value ≡ part))
        (λ cause. (result ≡ code_of (of_buf_error cause)) × (out.new.value ≡ out.old.value)) }
{
    match made {
        Ok(part) => {
            *out.get() = part;
            Status::Done.code()
        }
        Err(cause) => refusal(cause),
    }
}

/// Returns the library's size of a `struct iobufmut`. (own)
#[unsafe(no_mangle)]
pub extern "C" fn iobufmut_size() -> usize
    ensures value { result ≡ 56 }
{
    mem::size_of::<IoBufMut>()
}

/// Makes the empty buffer of memory. (IoBufMut::default)
#[unsafe(no_mangle)]
pub unsafe extern "C" fn iobufmut_init(alloc: Global, at: *mut u8)
    requires* { sem 𝓛 (room_at part_row at) }
    ensures* { sem 𝓛 (lies_at part_row full_share at (empty_part 0)) }
{
    (at as *mut IoBufMut).write(IoBufMut::new(alloc));
}

/// Drops the buffer; the empty one is left. (Drop)
#[unsafe(no_mangle)]
pub extern "C" fn iobufmut_drop(alloc: Global, part: &mut PartAt)
    ensures at { part.new.at ≡ part.old.at }
    ensures value { part.new.value ≡ empty_part 0 }
{
    *part.get() = IoBufMut::new(alloc);
}

/// Makes an empty buffer of capacity n. (IoBufMut::with_capacity)
/// Fails: IOBUFS_BAD_LAYOUT if n is above SSIZE_MAX; IOBUFS_MEMORY except for 0.
#[unsafe(no_mangle)]
pub extern "C" fn iobufmut_with_capacity(alloc: Global, n: usize, out: &mut PartAt) -> u8
    ensures at { out.new.at ≡ out.old.at }
    ensures value { out.new.value ≡ (if result == 0 then empty_part n else out.old.value) }
    ensures bad_layout { IsTrue (bad_layout n 1) → result ≡ code_of Status.BadLayout }
    ensures good_layout { bad_layout n 1 ≡ false → IsDoneUnless result Status.Memory }
    ensures nothing { n ≡ 0 → result ≡ 0 }
{
    hand_part(IoBufMut::with_capacity(alloc, n), out)
}

/// Makes a buffer of n bytes, all zero. (IoBufMut::zeroed)
/// Fails: IOBUFS_BAD_LAYOUT if n is above SSIZE_MAX; IOBUFS_MEMORY except for 0.
#[unsafe(no_mangle)]
pub extern "C" fn iobufmut_zeroed(alloc: Global, n: usize, out: &mut PartAt) -> u8
    ensures at { out.new.at ≡ out.old.at }
    ensures value { out.new.value ≡ (if result == 0 then record { filled = replicate n 0; spare = 0 } else
        out.old.value) }
    ensures bad_layout { IsTrue (bad_layout n 1) → result ≡ code_of Status.BadLayout }
    ensures good_layout { bad_layout n 1 ≡ false → IsDoneUnless result Status.Memory }
    ensures nothing { n ≡ 0 → result ≡ 0 }
{
    hand_part(IoBufMut::zeroed(alloc, n), out)
}

/// Makes a copy of n bytes, without spare capacity. (From<&[u8]>)
/// Fails: IOBUFS_MEMORY except for 0 bytes.
#[unsafe(no_mangle)]
pub extern "C" fn iobufmut_copy_from_slice(alloc: Global, src: &[u8], out: &mut PartAt) -> u8
    ensures at { out.new.at ≡ out.old.at }
    ensures value { out.new.value ≡ (if result == 0 then record { filled = src.now; spare = 0 } else out.old.value) }
    ensures memory { IsDoneUnless result Status.Memory }
    ensures nothing { length src.now ≡ 0 → result ≡ 0 }
{
    hand_part(IoBufMut::copy_from_slice(alloc, src), out)
}

/// Recovers the storage as a writable buffer, and leaves the empty view. It recovers native storage that no other view
/// shares: tested, not proved. (IoBuf::try_into_mut)
/// Fails: IOBUFS_DECLINED if the storage isn't recovered.
/// Keeps: the view.
#[unsafe(no_mangle)]
pub extern "C" fn iobuf_try_into_mut(alloc: Global, src: &mut ViewAt, out: &mut PartAt) -> u8
    ensures at { (src.new.at ≡ src.old.at) × (out.new.at ≡ out.old.at) }
    ensures recovered { result ≡ 0 → (src.new.value ≡ default_view) × IsRecovery src.old.value (Ok out.new.value) }
    ensures declined { (result == 0) ≡ false → (src.new.value ≡ src.old.value) × (out.new.value ≡ out.old.value)
        × IsRecovery src.old.value (Err src.old.value) }
    ensures result { IsDoneUnless result Status.Declined }
{
    match mem::take(src.get()).try_into_mut(alloc) {
        Ok(part) => {
            *out.get() = part;
            Status::Done.code()
        }
        Err(view) => {
            *src.get() = view;
            Status::Declined.code()
        }
    }
}

/// Makes a writable buffer of the bytes of a view: recovered as by iobuf_try_into_mut, else copied; the empty view is
/// left. (From<IoBuf>)
/// Fails: IOBUFS_MEMORY, for the copy.
/// Keeps: both.
#[unsafe(no_mangle)]
pub extern "C" fn iobufmut_from_view(alloc: Global, src: &mut ViewAt, out: &mut PartAt) -> u8
    ensures at { (src.new.at ≡ src.old.at) × (out.new.at ≡ out.old.at) }
    ensures made { result ≡ 0 → (src.new.value ≡ default_view) × IsPartOf src.old.value out.new.value }
    ensures unchanged { (result == 0) ≡ false → (src.new.value ≡ src.old.value) × (out.new.value ≡ out.old.value) }
    ensures memory { IsDoneUnless result Status.Memory }
    ensures nothing { length src.old.value.bytes ≡ 0 → result ≡ 0 }
{
    match IoBufMut::from_view(alloc, mem::take(src.get())) {
        Ok(part) => {
            *out.get() = part;
            Status::Done.code()
        }
        Err(view) => {
            *src.get() = view;
            Status::Memory.code()
        }
    }
}

/// Returns the number of readable bytes. (len)
#[unsafe(no_mangle)]
pub extern "C" fn iobufmut_len(part: &mut PartAt) -> usize
    ensures same { (part.new.at ≡ part.old.at) × (part.new.value ≡ part.old.value) }
    ensures value { result ≡ length part.old.value.filled }
{
    part.get().len()
}

/// Returns how many bytes fit, counted from the first readable one. (capacity)
#[unsafe(no_mangle)]
pub extern "C" fn iobufmut_capacity(part: &mut PartAt) -> usize
    ensures same { (part.new.at ≡ part.old.at) × (part.new.value ≡ part.old.value) }
    ensures value { result ≡ part_capacity part.old.value }
{
    part.get().capacity()
}

/// Returns how many bytes may still be put. (BufMut::remaining_mut)
#[unsafe(no_mangle)]
pub extern "C" fn iobufmut_remaining_mut(part: &mut PartAt) -> usize
    ensures same { (part.new.at ≡ part.old.at) × (part.new.value ≡ part.old.value) }
    ensures value { result ≡ part.old.value.spare }
{
    part.get().remaining_mut()
}

/// Writes a pointer to the readable bytes, as iobuf_chunk does, and returns how many there are. No other buffer shares
/// them: they may be overwritten there, and no contract says with which bytes. (AsRef, AsMut)
#[unsafe(no_mangle)]
pub extern "C" fn iobufmut_chunk(part: &mut PartAt, out: &mut *mut u8) -> usize
    ensures same { (part.new.at ≡ part.old.at) × (part.new.value ≡ part.old.value) }
    ensures value { result ≡ length part.old.value.filled }
    ensures address { out.new ≡ null_ptr → ⊥ }
{
    let part = part.get();
    *out = address_mut(part.as_mut());
    part.len()
}

/// Appends bytes. (BufMut::put_slice)
/// Fails: IOBUFS_OUT_OF_RANGE if they don't fit.
#[unsafe(no_mangle)]
pub extern "C" fn iobufmut_put_slice(part: &mut PartAt, src: &[u8]) -> u8
    ensures at { part.new.at ≡ part.old.at }
    ensures value { part.new.value ≡ (if result == 0 then part_put part.old.value src.now else part.old.value) }
    ensures result { result ≡ (if nat_le (length src.now) part.old.value.spare then 0 else code_of Status.OutOfRange) }
{
    done_or(part.get().try_put_slice(src), Status::OutOfRange)
}

/// Puts a byte n times. (BufMut::put_bytes)
/// Fails: IOBUFS_OUT_OF_RANGE if they don't fit.
#[unsafe(no_mangle)]
pub extern "C" fn iobufmut_put_bytes(part: &mut PartAt, value: u8, n: usize) -> u8
    ensures at { part.new.at ≡ part.old.at }
    ensures value { part.new.value ≡ (if result == 0 then part_put part.old.value (replicate n value) else
        part.old.value) }
    ensures result { result ≡ (if nat_le n part.old.value.spare then 0 else code_of Status.OutOfRange) }
{
    done_or(part.get().try_put_bytes(value, n), Status::OutOfRange)
}

/// Makes n bytes readable; those that were not are zero. (set_len)
/// Fails: IOBUFS_OUT_OF_RANGE if n is above the capacity.
#[unsafe(no_mangle)]
pub extern "C" fn iobufmut_set_len(part: &mut PartAt, n: usize) -> u8
    ensures at { part.new.at ≡ part.old.at }
    ensures value { part.new.value ≡ (if result == 0 then part_with_len part.old.value n else part.old.value) }
    ensures result { result ≡ (if nat_le n (part_capacity part.old.value) then 0 else code_of Status.OutOfRange) }
{
    done_or(part.get().try_set_len(n), Status::OutOfRange)
}

/// Keeps at most the first n bytes. (truncate)
#[unsafe(no_mangle)]
pub extern "C" fn iobufmut_truncate(part: &mut PartAt, n: usize)
    ensures at { part.new.at ≡ part.old.at }
    ensures value { part.new.value ≡ part_truncated part.old.value n }
{
    part.get().truncate(n);
}

/// Drops the first n readable bytes. (Buf::advance)
/// Fails: IOBUFS_OUT_OF_RANGE if there are fewer.
#[unsafe(no_mangle)]
pub extern "C" fn iobufmut_advance(part: &mut PartAt, n: usize) -> u8
    ensures at { part.new.at ≡ part.old.at }
    ensures value { part.new.value ≡ (if result == 0 then part_drained part.old.value n else part.old.value) }
    ensures result { result ≡ (if nat_le n (length part.old.value.filled) then 0 else code_of Status.OutOfRange) }
{
    done_or(part.get().try_advance(n), Status::OutOfRange)
}

/// Copies the first n bytes out and drops them. (Buf::copy_to_slice)
/// Fails: IOBUFS_END_OF_BUFFER if there are fewer.
#[unsafe(no_mangle)]
pub extern "C" fn iobufmut_copy_to_slice(part: &mut PartAt, dst: &mut [u8]) -> u8
    ensures at { part.new.at ≡ part.old.at }
    ensures value { part.new.value ≡ (if result == 0 then part_drained part.old.value (length dst.old) else
        part.old.value) }
    ensures bytes { dst.new ≡ (if result == 0 then take (length dst.old) part.old.value.filled else dst.old) }
    ensures result { result ≡ (if nat_le (length dst.old)
        (length part.old.value.filled) then 0 else code_of Status.EndOfBuffer) }
{
    let is_done = part.get().try_copy_to_slice(dst).is_ok();
    done_or(is_done, Status::EndOfBuffer)
}

/// Writes over n readable bytes from `at` on. (AsMut)
/// Fails: IOBUFS_OUT_OF_RANGE if they pass the readable bytes.
#[unsafe(no_mangle)]
pub extern "C" fn iobufmut_write_at(part: &mut PartAt, at: usize, src: &[u8]) -> u8
    ensures at { part.new.at ≡ part.old.at }
    ensures value { part.new.value ≡ (if result == 0 then part_written_at part.old.value at src.now else
        part.old.value) }
    ensures result { result ≡ (if nat_le (at + length src.now)
        (length part.old.value.filled) then 0 else code_of Status.OutOfRange) }
{
    let part = part.get();
    if at > part.len() || src.len() > part.len() - at {
        return Status::OutOfRange.code();
    }
    let end = at + src.len();
    part.as_mut()[at..end].copy_from_slice(src);
    Status::Done.code()
}

/// Makes a view of the bytes, not copied; the empty buffer is left. (freeze)
/// Fails: IOBUFS_MEMORY (reserved), and the buffer is dropped.
#[unsafe(no_mangle)]
pub extern "C" fn iobufmut_freeze(alloc: Global, part: &mut PartAt, out: &mut ViewAt) -> u8
    ensures at { (part.new.at ≡ part.old.at) × (out.new.at ≡ out.old.at) }
    ensures part { part.new.value ≡ empty_part 0 }
    ensures value { out.new.value ≡ (if result == 0 then part_frozen part.old.value else out.old.value) }
    ensures memory { IsDoneUnless result Status.Memory }
    ensures nothing { length part.old.value.filled ≡ 0 → result ≡ 0 }
{
    hand(mem::replace(part.get(), IoBufMut::new(alloc)).freeze(), out)
}
