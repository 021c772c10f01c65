// iobufs_frames (Frames): frames, each a header and a body, of bytes that come in chunks. The header is a
// length, unless iobufs_frames_set_layout says otherwise.
ghost use Rattle.std.specs.Prelude.{◌≡◌, ◌⊎◌, ◌+◌, ◌≤◌, ◌<◌, ◌^◌, ◌==◌, if◌then◌else◌, ◌++◌, length, drop, nat_le, false, true, IfNone, IfSome};
ghost use Rattle.std.specs.Borrow.{sem, Lends, full_share};
ghost use Rattle.std.specs.Ptr.{lies_at, room_at};
ghost use Rattle.iobufs_core.specs.MarkedText.{is_single, text_append, text_len};
ghost use Rattle.iobufs_core.specs.View.{IsFreelyShared, default_view};
ghost use Rattle.iobufs_frames.specs.Prefixes.{bare, prefix_limit, prefix_written};
ghost use Rattle.iobufs_frames.specs.contracts.Frames.{the_row as frames_row};
ghost use Rattle.iobufs_frames.specs.declared.Frames.{Frames as AllFrames};
ghost use Rattle.iobufs_c.specs.FrameRows.{IsTold, TakesFrameOf, TakesWholeOf, default_frames, layout_from_c, length_told, prefix_from_c};
ghost use Rattle.iobufs_c.specs.Codes.{IsDoneUnless, code_of, of_error};

use crate::layouts::{LayoutInC, layout_of, prefix_of};
use crate::status::{Status, fault, refusal};
use crate::text::TextAt;
use crate::view::ViewAt;
use iobufs::bufs::IoBufs;
use iobufs_core::buf::IoBuf;
use iobufs_core::codec::{Error, RangeCfg};
use iobufs_frames::{Frames, Layout};
use std::alloc::Global;
use std::marker::{Model, Send};
use std::mem;

/// The handle of frames: bytes are fed at the end, and frames are taken from the front.
#[repr(C)]
pub struct FramesAt {
    at: *mut u8,
    ghost value: { AllFrames },
}

impl Model for FramesAt {
    ghost use Rattle.std.specs.Borrow.{full_share};
    ghost use Rattle.std.specs.Ptr.{lies_at};
    ghost use Rattle.iobufs_frames.specs.contracts.Frames.{the_row as frames_row};

    ghost also_owns = { λ h. lies_at frames_row full_share h.at h.value };
}

// Frames may go to another thread with their handle (proofs/frames/FramesAt/TheSendSync).
unsafe impl Send for FramesAt {}

impl FramesAt {
    ghost use Rattle.iobufs_c.specs.contracts.frames.FramesAt.{the_row};

    /// Borrows the frames of the handle.
    pub(crate) fn get(&mut self) -> &mut Frames
        ensures* writes_back { sem 𝓛 (Lends the_row frames_row self.entry result
            (λ v. record { at = self.old.at; value = v })) }
        ensures value { result.now ≡ self.old.value }
    {
        unsafe { &mut *(self.at as *mut Frames) }
    }
}

fn empty(_alloc: Global) -> Frames
    ensures { result ≡ default_frames }
{
    Frames::default()
}

/// Returns the library's size of a `struct iobufs_frames`. (own)
#[unsafe(no_mangle)]
pub extern "C" fn iobufs_frames_size() -> usize
    ensures value { result ≡ 64 }
{
    mem::size_of::<Frames>()
}

/// Makes frames of memory, to which nothing was fed, with varint lengths. (own)
#[unsafe(no_mangle)]
pub unsafe extern "C" fn iobufs_frames_init(alloc: Global, at: *mut u8)
    requires* { sem 𝓛 (room_at frames_row at) }
    ensures* { sem 𝓛 (lies_at frames_row full_share at default_frames) }
{
    (at as *mut Frames).write(empty(alloc));
}

/// Drops what was fed; nothing is left, and lengths are varints. (Drop)
#[unsafe(no_mangle)]
pub extern "C" fn iobufs_frames_drop(frames: &mut FramesAt)
    ensures at { frames.new.at ≡ frames.old.at }
    ensures value { frames.new.value ≡ default_frames }
{
    *frames.get() = Frames::default();
}

/// Returns how many bytes were fed and not taken. (own)
#[unsafe(no_mangle)]
pub extern "C" fn iobufs_frames_len(frames: &mut FramesAt) -> usize
    ensures same { (frames.new.at ≡ frames.old.at) × (frames.new.value ≡ frames.old.value) }
    ensures value { result ≡ text_len frames.old.value.rest }
{
    frames.get().rest().len()
}

/// Makes an iobufs of the bytes that were fed and not taken, in their storage. (own)
/// Fails: IOBUFS_MEMORY, for the deque.
#[unsafe(no_mangle)]
pub extern "C" fn iobufs_frames_rest(frames: &mut FramesAt, out: &mut TextAt) -> u8
    ensures same { (frames.new.at ≡ frames.old.at) × (frames.new.value ≡ frames.old.value) }
    ensures at { out.new.at ≡ out.old.at }
    ensures value { out.new.value ≡ (if result == 0 then frames.old.value.rest else out.old.value) }
    ensures memory { IsDoneUnless result Status.Memory }
    ensures free { is_single frames.old.value.rest ≡ true
        → IsFreelyShared (record { bytes = frames.old.value.rest.bytes; mark = frames.old.value.rest.mark })
        → result ≡ 0 }
{
    match frames.get().rest().clone() {
        Ok(text) => {
            *out.get() = text;
            Status::Done.code()
        }
        Err(_) => Status::Memory.code(),
    }
}

/// Adds a view at the end, and leaves its handle empty. Each view that is held takes 40 to 120 bytes besides its
/// storage, even if it has one byte: bound the number of views too, or read into a struct iobufs_received, which has
/// one block. (own)
/// Fails: IOBUFS_TOO_LONG if the length would pass SIZE_MAX; IOBUFS_MEMORY if the list of chunks has to grow.
/// Keeps: both.
#[unsafe(no_mangle)]
pub extern "C" fn iobufs_frames_feed(alloc: Global, frames: &mut FramesAt, view: &mut ViewAt) -> u8
    ensures at { (frames.new.at ≡ frames.old.at) × (view.new.at ≡ view.old.at) }
    ensures frames { frames.new.value ≡ (if result == 0
        then record { layout = frames.old.value.layout; rest = text_append frames.old.value.rest view.old.value }
        else frames.old.value) }
    ensures view { view.new.value ≡ (if result == 0 then default_view else view.old.value) }
    ensures too_long { 2 ^ 64 ≤ text_len frames.old.value.rest + length view.old.value.bytes
        → result ≡ code_of Status.TooLong }
    ensures memory { text_len frames.old.value.rest + length view.old.value.bytes < 2 ^ 64
        → IsDoneUnless result Status.Memory }
    ensures nothing { length view.old.value.bytes ≡ 0 → result ≡ 0 }
    ensures onto_nothing { length frames.old.value.rest.bytes ≡ 0 → result ≡ 0 }
{
    let taken = mem::take(view.get());
    match frames.get().feed(alloc, taken) {
        Ok(()) => Status::Done.code(),
        Err(refused) => {
            *view.get() = refused.value;
            refusal(refused.cause)
        }
    }
}

/// Sets the layout of the headers, from the next frame on. (own)
/// Fails: IOBUFS_BAD_KIND if `layout->prefix` is no `enum iobufs_prefix`.
#[unsafe(no_mangle)]
pub extern "C" fn iobufs_frames_set_layout(frames: &mut FramesAt, layout: &LayoutInC) -> u8
    ensures at { frames.new.at ≡ frames.old.at }
    ensures rest { frames.new.value.rest ≡ frames.old.value.rest }
    ensures status { (result ≡ 0) ⊎ (result ≡ code_of Status.BadKind) }
    ensures known { IfSome (layout_from_c layout.now) (λ known. (result ≡ 0) × (frames.new.value.layout ≡ known)) }
    ensures unknown { IfNone (layout_from_c layout.now) ((result ≡ code_of Status.BadKind)
        × (frames.new.value ≡ frames.old.value)) }
{
    let Some(layout) = layout_of(layout) else {
        return Status::BadKind.code();
    };
    frames.get().layout = layout;
    Status::Done.code()
}

/// Writes a body's length n, which is sent before the body, as an `enum iobufs_prefix` to `out`, and its size to `len`:
/// at most ten bytes. (own)
/// Fails: IOBUFS_BAD_KIND if the prefix is unknown; IOBUFS_TOO_LONG if no length of this form is n; IOBUFS_OUT_OF_RANGE
///   if the length doesn't fit into `room` bytes.
/// Keeps: `out` and `len`.
#[unsafe(no_mangle)]
pub extern "C" fn iobufs_frames_length(prefix: u8, n: usize, out: &mut [u8], len: &mut usize) -> u8
    ensures unknown { IfNone (prefix_from_c prefix) (result ≡ code_of Status.BadKind) }
    ensures too_long { IfSome (prefix_from_c prefix) (λ known. prefix_limit known ≤ n
        → result ≡ code_of Status.TooLong) }
    ensures known { IfSome (prefix_from_c prefix) (λ known. n < prefix_limit known
        → result ≡ (if nat_le (length (prefix_written known n))
        (length out.old) then 0 else code_of Status.OutOfRange)) }
    ensures written { result ≡ 0 → IfSome (prefix_from_c prefix) (λ known. (len.new ≡ length (prefix_written known n))
        × (out.new ≡ prefix_written known n ++ drop (length (prefix_written known n)) out.old)) }
    ensures unchanged { (result == 0) ≡ false → (out.new ≡ out.old) × (len.new ≡ len.old) }
{
    let Some(prefix) = prefix_of(prefix) else {
        return Status::BadKind.code();
    };
    if !prefix.fits(n) {
        return Status::TooLong.code();
    }
    let head = prefix.head(n);
    if head.len() > out.len() {
        return Status::OutOfRange.code();
    }
    out[..head.len()].copy_from_slice(head.as_slice());
    *len = head.len();
    Status::Done.code()
}

// The status of an error of taking a frame, or of reading a length; an invalid length is written.
pub(crate) fn told(error: Error, wrong: &mut usize) -> u8
    ensures code { result ≡ code_of (of_error error) }
    ensures length { wrong.new ≡ length_told error wrong.old }
{
    if let Error::InvalidLength(n) = error {
        *wrong = n;
    }
    fault(error)
}

// Writes what taking a frame gave, and returns its status.
pub(crate) fn tell(found: Result<Option<IoBuf>, Error>, out: &mut ViewAt, wrong: &mut usize) -> u8
    ensures at { out.new.at ≡ out.old.at }
    ensures told { IsTold found result out.old.value out.new.value wrong.old wrong.new }
{
    match found {
        Ok(Some(view)) => {
            *out.get() = view;
            Status::Done.code()
        }
        Ok(None) => Status::EndOfBuffer.code(),
        Err(error) => told(error, wrong),
    }
}

// Acts as `tell` on a frame with its header, in one chunk.
pub(crate) fn tell_whole(
    found: Result<Option<(usize, IoBuf)>, Error>,
    out: &mut ViewAt,
    header: &mut usize,
    wrong: &mut usize,
) -> u8
    ensures at { out.new.at ≡ out.old.at }
    ensures told { IsTold found result (header.old, out.old.value) (header.new, out.new.value) wrong.old wrong.new }
{
    match found {
        Ok(Some((size, frame))) => {
            *header = size;
            *out.get() = frame;
            Status::Done.code()
        }
        Ok(None) => Status::EndOfBuffer.code(),
        Err(error) => told(error, wrong),
    }
}

// Acts as `tell_whole` on a frame in several chunks.
fn tell_chunks(
    found: Result<Option<(usize, IoBufs)>, Error>,
    out: &mut TextAt,
    header: &mut usize,
    wrong: &mut usize,
) -> u8
    ensures at { out.new.at ≡ out.old.at }
    ensures told { IsTold found result (header.old, out.old.value) (header.new, out.new.value) wrong.old wrong.new }
{
    match found {
        Ok(Some((size, frame))) => {
            *header = size;
            *out.get() = frame;
            Status::Done.code()
        }
        Ok(None) => Status::EndOfBuffer.code(),
        Err(error) => told(error, wrong),
    }
}

/// Takes the body of the first frame, which has from lo to hi bytes: shared within a chunk, a copy across chunks.
/// Writes the number in the header to `wrong` if the body would be outside, or the number is below `counts`. No further
/// bytes make a frame whole after IOBUFS_INVALID_VARINT or IOBUFS_INVALID_LENGTH. A loop of iobufs_frames_feed and this
/// call is `Frames::run`. (own)
/// Fails: IOBUFS_END_OF_BUFFER if it is not whole yet; IOBUFS_INVALID_VARINT if its length is invalid;
///   IOBUFS_INVALID_LENGTH if the body's length is outside, or the number below `counts`; IOBUFS_MEMORY, for the copy.
/// Keeps: both.
#[unsafe(no_mangle)]
pub extern "C" fn iobufs_frames_next(
    alloc: Global,
    frames: &mut FramesAt,
    lo: usize,
    hi: usize,
    out: &mut ViewAt,
    wrong: &mut usize,
) -> u8
    ensures at { (frames.new.at ≡ frames.old.at) × (out.new.at ≡ out.old.at) }
    ensures next { TakesFrameOf (record { lo = lo; hi = hi }) frames.old.value frames.new.value
        result out.old.value out.new.value wrong.old wrong.new }
{
    let found = frames.get().next(alloc, &RangeCfg { lo, hi });
    tell(found, out, wrong)
}

/// Takes the first frame with its header, as iobufs_frames_next takes its body, and writes how many bytes the header
/// has to `header`. Its chunks share their storage: no byte is copied. (own)
/// Fails: IOBUFS_END_OF_BUFFER if it is not whole yet; IOBUFS_INVALID_VARINT if its length is invalid;
///   IOBUFS_INVALID_LENGTH if the body's length is outside, or the number below `counts`; IOBUFS_MEMORY, for the deque.
/// Keeps: both, and `header`.
#[unsafe(no_mangle)]
pub extern "C" fn iobufs_frames_next_whole(
    alloc: Global,
    frames: &mut FramesAt,
    lo: usize,
    hi: usize,
    out: &mut TextAt,
    header: &mut usize,
    wrong: &mut usize,
) -> u8
    ensures at { (frames.new.at ≡ frames.old.at) × (out.new.at ≡ out.old.at) }
    ensures next { TakesWholeOf (record { lo = lo; hi = hi }) frames.old.value frames.new.value
        result (header.old, out.old.value) (header.new, out.new.value) wrong.old wrong.new }
{
    let found = frames.get().next_whole(alloc, &RangeCfg { lo, hi });
    tell_chunks(found, out, header, wrong)
}
