// iobuf (IoBuf): a view of bytes, which shares their storage with its clones and slices.
ghost use Rattle.std.specs.Prelude.{◌≡◌, ◌≤◌, ◌<◌, ◌==◌, if◌then◌else◌, length, take, nat_le, true, false, IfNone, IfSome, MatchResult};
ghost use Rattle.std.specs.Borrow.{sem, Lends, full_share};
ghost use Rattle.std.specs.Ptr.{lies_at, null_ptr, room_at};
ghost use Rattle.iobufs_core.specs.View.{IsFreelyShared, View, default_view, end_place, range_fits, start_place, static_mark, native_mark, view_advanced, view_rest, view_slice, view_split_front};
ghost use Rattle.iobufs_core.specs.contracts.buf.view.IoBuf.{the_row as view_row};
ghost use Rattle.iobufs_c.specs.Codes.{IsDoneUnless, code_of, of_buf_error};
ghost use Rattle.iobufs_c.specs.Rows.{bound_from_c};

use crate::status::{Status, done_or, refusal};
use iobufs_core::buf::IoBuf;
use iobufs_core::codec::{Buf, BufError};
use std::alloc::Global;
use std::marker::{Model, Send};
use std::mem;
use std::ops::Bound;

/// The handle of a view in the caller's memory.
#[repr(C)]
pub struct ViewAt {
    at: *mut u8,
    ghost value: { View },
}

impl Model for ViewAt {
    ghost use Rattle.std.specs.Borrow.{full_share};
    ghost use Rattle.std.specs.Ptr.{lies_at};
    ghost use Rattle.iobufs_core.specs.contracts.buf.view.IoBuf.{the_row as view_row};

    ghost also_owns = { λ h. lies_at view_row full_share h.at h.value };
}

// A view may go to another thread with its handle (proofs/view/ViewAt/TheSendSync).
unsafe impl Send for ViewAt {}

impl ViewAt {
    ghost use Rattle.iobufs_c.specs.contracts.view.ViewAt.{the_row};

    /// Borrows the view of the handle.
    pub(crate) fn get(&mut self) -> &mut IoBuf
        ensures* writes_back { sem 𝓛 (Lends the_row view_row self.entry result
            (λ v. record { at = self.old.at; value = v })) }
        ensures value { result.now ≡ self.old.value }
    {
        unsafe { &mut *(self.at as *mut IoBuf) }
    }
}

/// Returns the address of bytes, also of none.
pub(crate) fn address(bytes: &[u8]) -> *const u8
    ensures { result ≡ null_ptr → ⊥ }
{
    bytes.as_ptr()
}

/// Writes a view that was made to `out`, and returns the status.
pub(crate) fn hand(made: Result<IoBuf, BufError>, out: &mut ViewAt) -> u8
    ensures at { out.new.at ≡ out.old.at }
    ensures told { MatchResult made (λ view. (result ≡ 0) × (out.new.value ≡ view))
        (λ cause. (result ≡ code_of (of_buf_error cause)) × (out.new.value ≡ out.old.value)) }
{
    match made {
        Ok(view) => {
            *out.get() = view;
            Status::Done.code()
        }
        Err(cause) => refusal(cause),
    }
}

fn empty(_alloc: Global) -> IoBuf
    ensures { result ≡ default_view }
{
    IoBuf::default()
}

/// Returns the library's size of a `struct iobuf`. (own)
#[unsafe(no_mangle)]
pub extern "C" fn iobuf_size() -> usize
    ensures value { result ≡ 48 }
{
    mem::size_of::<IoBuf>()
}

/// Makes the empty view of memory. (IoBuf::default)
#[unsafe(no_mangle)]
pub unsafe extern "C" fn iobuf_init(alloc: Global, at: *mut u8)
    requires* { sem 𝓛 (room_at view_row at) }
    ensures* { sem 𝓛 (lies_at view_row full_share at default_view) }
{
    (at as *mut IoBuf).write(empty(alloc));
}

/// Drops the bytes; the empty view is left. (Drop)
#[unsafe(no_mangle)]
pub extern "C" fn iobuf_drop(src: &mut ViewAt)
    ensures at { src.new.at ≡ src.old.at }
    ensures value { src.new.value ≡ default_view }
{
    *src.get() = IoBuf::default();
}

// The contract takes the bytes for static: only buffers made of them have their address, so nothing reads them later.
/// Makes a view of n bytes, which aren't copied. They have to live, unchanged, until the last buffer made of them is
/// dropped (duty 4). (From<&'static [u8]>)
#[unsafe(no_mangle)]
pub extern "C" fn iobuf_from_static(text: &'static [u8], out: &mut ViewAt)
    ensures at { out.new.at ≡ out.old.at }
    ensures value { out.new.value ≡ record { bytes = text.now; mark = static_mark } }
{
    *out.get() = IoBuf::from(text);
}

/// Makes a copy of n bytes. (IoBuf::copy_from_slice)
/// Fails: IOBUFS_MEMORY except for 0 bytes.
#[unsafe(no_mangle)]
pub extern "C" fn iobuf_copy_from_slice(alloc: Global, src: &[u8], out: &mut ViewAt) -> u8
    ensures at { out.new.at ≡ out.old.at }
    ensures value { out.new.value ≡ (if result == 0 then if length src.now == 0 then default_view
        else record { bytes = src.now; mark = native_mark (length src.now) } else out.old.value) }
    ensures nothing { length src.now ≡ 0 → result ≡ 0 }
    ensures memory { IsDoneUnless result Status.Memory }
{
    hand(IoBuf::copy_from_slice(alloc, src), out)
}

/// Returns the number of bytes. (IoBuf::len)
#[unsafe(no_mangle)]
pub extern "C" fn iobuf_len(src: &mut ViewAt) -> usize
    ensures same { (src.new.at ≡ src.old.at) × (src.new.value ≡ src.old.value) }
    ensures value { result ≡ length src.old.value.bytes }
{
    src.get().len()
}

/// Writes a pointer to the bytes, and returns how many there are; of none it isn't NULL, and may not be read. (AsRef,
/// Buf::chunk)
#[unsafe(no_mangle)]
pub extern "C" fn iobuf_chunk(src: &mut ViewAt, out: &mut *const u8) -> usize
    ensures same { (src.new.at ≡ src.old.at) × (src.new.value ≡ src.old.value) }
    ensures value { result ≡ length src.old.value.bytes }
    ensures address { out.new ≡ null_ptr → ⊥ }
{
    let chunk = src.get().as_ref();
    *out = address(chunk);
    chunk.len()
}

/// Returns whether two views hold the same bytes. (PartialEq)
#[unsafe(no_mangle)]
pub extern "C" fn iobuf_eq(src: &mut ViewAt, other: &mut ViewAt) -> bool
    ensures same { (src.new.at ≡ src.old.at) × (src.new.value ≡ src.old.value) }
    ensures other { (other.new.at ≡ other.old.at) × (other.new.value ≡ other.old.value) }
    ensures yes { result ≡ true → src.old.value.bytes ≡ other.old.value.bytes }
    ensures no { src.old.value.bytes ≡ other.old.value.bytes → result ≡ true }
{
    let (bytes, others) = (src.get().as_ref(), other.get().as_ref());
    bytes == others
}

/// Makes another view of the same bytes, in their storage: no byte is copied. (Clone)
/// Fails: IOBUFS_MEMORY (reserved).
#[unsafe(no_mangle)]
pub extern "C" fn iobuf_clone(src: &mut ViewAt, out: &mut ViewAt) -> u8
    ensures same { (src.new.at ≡ src.old.at) × (src.new.value ≡ src.old.value) }
    ensures at { out.new.at ≡ out.old.at }
    ensures value { out.new.value ≡ (if result == 0 then src.old.value else out.old.value) }
    ensures memory { IsDoneUnless result Status.Memory }
    ensures free { IsFreelyShared src.old.value → result ≡ 0 }
{
    match src.get().clone() {
        Ok(view) => {
            *out.get() = view;
            Status::Done.code()
        }
        Err(_) => Status::Memory.code(),
    }
}

/// Drops the first n bytes. (Buf::advance)
/// Fails: IOBUFS_OUT_OF_RANGE if there are fewer.
#[unsafe(no_mangle)]
pub extern "C" fn iobuf_advance(src: &mut ViewAt, n: usize) -> u8
    ensures at { src.new.at ≡ src.old.at }
    ensures value { src.new.value ≡ (if nat_le n
        (length src.old.value.bytes) then view_advanced src.old.value n else src.old.value) }
    ensures result { result ≡ (if nat_le n (length src.old.value.bytes) then 0 else code_of Status.OutOfRange) }
{
    done_or(src.get().try_advance(n), Status::OutOfRange)
}

/// Takes the first `at` bytes, in the same storage. (IoBuf::split_to)
/// Fails: IOBUFS_OUT_OF_RANGE if there are fewer; IOBUFS_MEMORY (reserved).
#[unsafe(no_mangle)]
pub extern "C" fn iobuf_split_to(src: &mut ViewAt, at: usize, out: &mut ViewAt) -> u8
    ensures at { (src.new.at ≡ src.old.at) × (out.new.at ≡ out.old.at) }
    ensures src { src.new.value ≡ (if result == 0 then view_rest src.old.value at else src.old.value) }
    ensures out { out.new.value ≡ (if result == 0 then view_split_front src.old.value at else out.old.value) }
    ensures outside { length src.old.value.bytes < at → result ≡ code_of Status.OutOfRange }
    ensures inside { at ≤ length src.old.value.bytes → IsDoneUnless result Status.Memory }
    ensures nothing { at ≡ 0 → result ≡ 0 }
    ensures whole { at ≡ length src.old.value.bytes → result ≡ 0 }
    ensures static_text { at ≤ length src.old.value.bytes → src.old.value.mark ≡ static_mark → result ≡ 0 }
{
    match src.get().try_split_to(at) {
        Some(front) => hand(front, out),
        None => Status::OutOfRange.code(),
    }
}

/// Copies the first n bytes out and drops them. (Buf::copy_to_slice)
/// Fails: IOBUFS_END_OF_BUFFER if there are fewer.
#[unsafe(no_mangle)]
pub extern "C" fn iobuf_copy_to_slice(src: &mut ViewAt, dst: &mut [u8]) -> u8
    ensures at { src.new.at ≡ src.old.at }
    ensures value { src.new.value ≡ (if nat_le (length dst.old)
        (length src.old.value.bytes) then view_advanced src.old.value (length dst.old) else src.old.value) }
    ensures bytes { dst.new ≡ (if nat_le (length dst.old) (length src.old.value.bytes) then take
        (length dst.old) src.old.value.bytes else dst.old) }
    ensures result { result ≡ (if nat_le (length dst.old)
        (length src.old.value.bytes) then 0 else code_of Status.EndOfBuffer) }
{
    let is_done = src.get().try_copy_to_slice(dst).is_ok();
    done_or(is_done, Status::EndOfBuffer)
}

// The bound, if its kind is known.
fn bound(kind: u8, n: usize) -> Option<Bound<usize>>
    ensures { result ≡ bound_from_c kind n }
{
    match kind {
        0 => Some(Bound::Included(n)),
        1 => Some(Bound::Excluded(n)),
        2 => Some(Bound::Unbounded),
        _ => None,
    }
}

/// Makes a view of the bytes of a range, in the same storage; bounds are `enum iobufs_bound`. (IoBuf::slice)
/// Fails: IOBUFS_BAD_KIND if a kind is none of these; IOBUFS_OUT_OF_RANGE if the range isn't within the bytes;
///   IOBUFS_MEMORY (reserved).
#[unsafe(no_mangle)]
pub extern "C" fn iobuf_slice(
    src: &mut ViewAt,
    lo_kind: u8,
    lo: usize,
    hi_kind: u8,
    hi: usize,
    out: &mut ViewAt,
) -> u8
    ensures at { (src.new.at ≡ src.old.at) × (out.new.at ≡ out.old.at) }
    ensures same { src.new.value ≡ src.old.value }
    ensures out { IfSome (bound_from_c lo_kind lo) (λ from. IfSome (bound_from_c hi_kind hi) (λ to.
        out.new.value ≡ (if result == 0 then view_slice src.old.value from to else out.old.value))) }
    ensures outside { IfSome (bound_from_c lo_kind lo) (λ from. IfSome (bound_from_c hi_kind hi) (λ to.
        range_fits from to (length src.old.value.bytes) ≡ false → result ≡ code_of Status.OutOfRange)) }
    ensures inside { IfSome (bound_from_c lo_kind lo) (λ from. IfSome (bound_from_c hi_kind hi) (λ to.
        range_fits from to (length src.old.value.bytes) ≡ true → IsDoneUnless result Status.Memory)) }
    ensures nothing { IfSome (bound_from_c lo_kind lo) (λ from. IfSome (bound_from_c hi_kind hi) (λ to.
        range_fits from to (length src.old.value.bytes) ≡ true
        → start_place from ≡ end_place to (length src.old.value.bytes) → result ≡ 0)) }
    ensures static_text { IfSome (bound_from_c lo_kind lo) (λ from. IfSome (bound_from_c hi_kind hi) (λ to.
        range_fits from to (length src.old.value.bytes) ≡ true → src.old.value.mark ≡ static_mark → result ≡ 0)) }
    ensures bad_start { IfNone (bound_from_c lo_kind lo)
        ((result ≡ code_of Status.BadKind) × (out.new.value ≡ out.old.value)) }
    ensures bad_end { IfNone (bound_from_c hi_kind hi)
        ((result ≡ code_of Status.BadKind) × (out.new.value ≡ out.old.value)) }
{
    let (Some(from), Some(to)) = (bound(lo_kind, lo), bound(hi_kind, hi)) else {
        return Status::BadKind.code();
    };
    match src.get().try_slice(from, to) {
        Some(slice) => hand(slice, out),
        None => Status::OutOfRange.code(),
    }
}
