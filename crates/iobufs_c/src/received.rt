// iobufs_received (Received): frames of bytes that are read into one block.
ghost use Rattle.std.specs.Prelude.{◌≡◌, ◌⊎◌, ◌≤◌, ◌<◌, ◌==◌, if◌then◌else◌, length, nat_le, false, IfNone, IfSome};
ghost use Rattle.std.specs.Borrow.{sem, Lends, full_share};
ghost use Rattle.std.specs.Ptr.{lies_at, room_at};
ghost use Rattle.iobufs_frames.specs.Prefixes.{bare};
ghost use Rattle.iobufs_frames.specs.Receiving.{HasReceived, ReceivedBytes, none_received};
ghost use Rattle.iobufs_frames.specs.contracts.block.Received.{the_row as received_row};
ghost use Rattle.iobufs_c.specs.Codes.{IsDoneUnless, code_of};
ghost use Rattle.iobufs_c.specs.FrameRows.{TakesReceived, TakesWholeReceived, layout_from_c, prefix_from_c};

use crate::frames::{tell, tell_whole};
use crate::layouts::{LayoutInC, layout_of, prefix_of};
use crate::status::Status;
use crate::view::ViewAt;
use iobufs_core::codec::RangeCfg;
use iobufs_frames::{Prefix, Received};
use std::alloc::Global;
use std::marker::{Model, Send};
use std::mem;

/// The handle of a receive block in the caller's memory.
#[repr(C)]
pub struct ReceivedAt {
    at: *mut u8,
    ghost value: { ReceivedBytes },
}

impl Model for ReceivedAt {
    ghost use Rattle.std.specs.Borrow.{full_share};
    ghost use Rattle.std.specs.Ptr.{lies_at};
    ghost use Rattle.iobufs_frames.specs.contracts.block.Received.{the_row as received_row};

    ghost also_owns = { λ h. lies_at received_row full_share h.at h.value };
}

// A receive block may go to another thread, and its handle with it (proofs/received/ReceivedAt/TheSendSync).
unsafe impl Send for ReceivedAt {}

impl ReceivedAt {
    ghost use Rattle.iobufs_c.specs.contracts.received.ReceivedAt.{the_row};

    /// Borrows the receive block of the handle.
    pub(crate) fn get(&mut self) -> &mut Received
        ensures* writes_back { sem 𝓛 (Lends the_row received_row self.entry result
            (λ v. record { at = self.old.at; value = v })) }
        ensures value { result.now ≡ self.old.value }
    {
        unsafe { &mut *(self.at as *mut Received) }
    }
}

fn empty(alloc: Global) -> Received
    ensures { result ≡ none_received (bare Prefix.Spelled) }
{
    Received::new(alloc, Prefix::Spelled)
}

/// Returns the library's size of a `struct iobufs_received`. (own)
#[unsafe(no_mangle)]
pub extern "C" fn iobufs_received_size() -> usize
    ensures value { result ≡ 112 }
{
    mem::size_of::<Received>()
}

/// Makes an empty receive block of memory, of frames whose headers are varint lengths. (own)
#[unsafe(no_mangle)]
pub unsafe extern "C" fn iobufs_received_init(alloc: Global, at: *mut u8)
    requires* { sem 𝓛 (room_at received_row at) }
    ensures* { sem 𝓛 (lies_at received_row full_share at (none_received (bare Prefix.Spelled))) }
{
    (at as *mut Received).write(empty(alloc));
}

/// Drops what came and was not taken; what iobufs_received_init makes is left. (Drop)
#[unsafe(no_mangle)]
pub extern "C" fn iobufs_received_drop(alloc: Global, received: &mut ReceivedAt)
    ensures at { received.new.at ≡ received.old.at }
    ensures value { received.new.value ≡ none_received (bare Prefix.Spelled) }
{
    *received.get() = empty(alloc);
}

/// Makes an empty receive block of frames with this layout. (own)
/// Fails: IOBUFS_BAD_KIND if `layout->prefix` is no `enum iobufs_prefix`.
#[unsafe(no_mangle)]
pub extern "C" fn iobufs_received_with_layout(
    alloc: Global,
    layout: &LayoutInC,
    out: &mut ReceivedAt,
) -> u8
    ensures at { out.new.at ≡ out.old.at }
    ensures status { (result ≡ 0) ⊎ (result ≡ code_of Status.BadKind) }
    ensures known { IfSome (layout_from_c layout.now) (λ known. (result ≡ 0) × (out.new.value ≡ none_received known)) }
    ensures unknown { IfNone (layout_from_c layout.now) ((result ≡ code_of Status.BadKind)
        × (out.new.value ≡ out.old.value)) }
{
    let Some(layout) = layout_of(layout) else {
        return Status::BadKind.code();
    };
    *out.get() = Received::with_layout(alloc, layout);
    Status::Done.code()
}

/// Sets the layout of the headers, from the next frame on. (own)
/// Fails: IOBUFS_BAD_KIND if `layout->prefix` is no `enum iobufs_prefix`.
#[unsafe(no_mangle)]
pub extern "C" fn iobufs_received_set_layout(received: &mut ReceivedAt, layout: &LayoutInC) -> u8
    ensures at { received.new.at ≡ received.old.at }
    ensures status { (result ≡ 0) ⊎ (result ≡ code_of Status.BadKind) }
    ensures known { IfSome (layout_from_c layout.now) (λ known. (result ≡ 0)
        × (received.new.value ≡ record received.old.value { layout = known })) }
    ensures unknown { IfNone (layout_from_c layout.now) ((result ≡ code_of Status.BadKind)
        × (received.new.value ≡ received.old.value)) }
{
    let Some(layout) = layout_of(layout) else {
        return Status::BadKind.code();
    };
    received.get().set_layout(layout);
    Status::Done.code()
}

/// Returns how many bytes came and were not taken. (own)
#[unsafe(no_mangle)]
pub extern "C" fn iobufs_received_len(received: &mut ReceivedAt) -> usize
    ensures same { (received.new.at ≡ received.old.at) × (received.new.value ≡ received.old.value) }
    ensures value { result ≡ length received.old.value.bytes }
{
    received.get().len()
}

/// Lends the space for a read: writes its address to `out`, and to `n` how many bytes it has, at least one. They are
/// zeros, or what the block held before. If there is no space, it uses the block again if no body shares it and the
/// block is large enough, else it allocates, as after a frame above 64 KiB, which has a block of its own. (own)
/// Fails: IOBUFS_MEMORY if it allocates.
/// Keeps: what came, and `n`.
#[unsafe(no_mangle)]
pub extern "C" fn iobufs_received_space(
    received: &mut ReceivedAt,
    out: &mut *mut u8,
    n: &mut usize,
) -> u8
    ensures at { received.new.at ≡ received.old.at }
    ensures kept { (received.new.value.layout ≡ received.old.value.layout)
        × (received.new.value.bytes ≡ received.old.value.bytes) }
    ensures space { result ≡ 0 → (0 < received.new.value.space) × (n.new ≡ received.new.value.space) }
    ensures failed { (result == 0) ≡ false → (n.new ≡ n.old) × (received.old.value.space ≤ received.new.value.space) }
    ensures memory { IsDoneUnless result Status.Memory }
{
    let received = received.get();
    match received.make_space() {
        Ok(()) => {
            *n = received.lend_space(out);
            Status::Done.code()
        }
        Err(_) => Status::Memory.code(),
    }
}

/// Counts the first n bytes of the space as received, after they were written there; the space is what is after them.
/// (own)
/// Fails: IOBUFS_OUT_OF_RANGE if it has fewer.
/// Keeps: the block.
#[unsafe(no_mangle)]
pub extern "C" fn iobufs_received_filled(received: &mut ReceivedAt, n: usize) -> u8
    ensures at { received.new.at ≡ received.old.at }
    ensures came { result ≡ 0 → HasReceived n received.old.value received.new.value }
    ensures unchanged { (result == 0) ≡ false → received.new.value ≡ received.old.value }
    ensures result { result ≡ (if nat_le n received.old.value.space then 0 else code_of Status.OutOfRange) }
{
    let received = received.get();
    if n > received.space() {
        return Status::OutOfRange.code();
    }
    received.fill(n);
    Status::Done.code()
}

/// Takes the body of the first frame, which has from lo to hi bytes. It shares the block, and keeps at most its own
/// frame or 64 KiB, whichever is more. It is copied only out of a block above 64 KiB of another size than its frame:
/// read only after IOBUFS_END_OF_BUFFER, and none is copied. Writes to `wrong` what iobufs_frames_next does. (own)
/// Fails: IOBUFS_END_OF_BUFFER if it is not whole yet; IOBUFS_INVALID_VARINT if its length is invalid;
///   IOBUFS_INVALID_LENGTH if the body's length is outside, or the number below `counts`; IOBUFS_MEMORY, for the copy,
///   and in the kit's build for a count.
/// Keeps: both.
#[unsafe(no_mangle)]
pub extern "C" fn iobufs_received_next(
    received: &mut ReceivedAt,
    lo: usize,
    hi: usize,
    out: &mut ViewAt,
    wrong: &mut usize,
) -> u8
    ensures at { (received.new.at ≡ received.old.at) × (out.new.at ≡ out.old.at) }
    ensures next { TakesReceived (record { lo = lo; hi = hi }) received.old.value received.new.value
        result out.old.value out.new.value wrong.old wrong.new }
{
    let found = received.get().next(&RangeCfg { lo, hi });
    tell(found, out, wrong)
}

/// Takes the first frame with its header, as iobufs_received_next takes its body, and writes how many bytes the header
/// has to `header`. (own)
/// Fails: IOBUFS_END_OF_BUFFER if it is not whole yet; IOBUFS_INVALID_VARINT if its length is invalid;
///   IOBUFS_INVALID_LENGTH if the body's length is outside, or the number below `counts`; IOBUFS_MEMORY, for the copy,
///   and in the kit's build for a count.
/// Keeps: both, and `header`.
#[unsafe(no_mangle)]
pub extern "C" fn iobufs_received_next_whole(
    received: &mut ReceivedAt,
    lo: usize,
    hi: usize,
    out: &mut ViewAt,
    header: &mut usize,
    wrong: &mut usize,
) -> u8
    ensures at { (received.new.at ≡ received.old.at) × (out.new.at ≡ out.old.at) }
    ensures next { TakesWholeReceived (record { lo = lo; hi = hi }) received.old.value received.new.value
        result (header.old, out.old.value) (header.new, out.new.value) wrong.old wrong.new }
{
    let found = received.get().next_whole(&RangeCfg { lo, hi });
    tell_whole(found, out, header, wrong)
}
