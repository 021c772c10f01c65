// iobufs (IoBufs): bytes in several chunks, none of which is copied.
ghost use Rattle.std.specs.Prelude.{◌≡◌, ℕ, ◌+◌, ◌-◌, ◌≤◌, ◌<◌, ◌^◌, ◌==◌, ◌++◌, ◌∷◌, [], List, if◌then◌else◌, length, take, drop, map, min, nat_le, true, false, MatchResult};
ghost use Rattle.std.specs.Borrow.{sem, Lends, full_share};
ghost use Rattle.std.specs.Ptr.{lies_at, null_ptr, room_at};
ghost use Rattle.iobufs.specs.Located.{greatest_key, keys_upto};
ghost use Rattle.iobufs.specs.Splitting.{SplitsFree};
ghost use Rattle.iobufs.specs.contracts.bufs.IoBufs.{the_row as text_row};
ghost use Rattle.iobufs_core.specs.Chunks.{first_chunk};
ghost use Rattle.iobufs_core.specs.MarkedText.{MarkedText, chunk_count as count_of, default_text, is_single, of_view, taken_view, text_advanced, text_append, text_chunks, text_coalesced, text_len, text_prepend, text_rest, text_split_front};
ghost use Rattle.iobufs_core.specs.View.{IsFreelyShared, default_view, static_mark};
ghost use Rattle.iobufs_c.specs.Codes.{IsDoneUnless, code_of, of_buf_error};

use crate::status::{Status, done_or, refusal};
use crate::view::{ViewAt, address, hand};
use iobufs::bufs::{ChunkSlice, IoBufs};
use iobufs_core::buf::IoBuf;
use iobufs_core::codec::{Buf, BufError, OwnedBuf, Peek};
use std::alloc::Global;
use std::marker::{Model, Send};
use std::mem;

/// The handle of an `IoBufs` in the caller's memory.
#[repr(C)]
pub struct TextAt {
    at: *mut u8,
    ghost value: { MarkedText },
}

impl Model for TextAt {
    ghost use Rattle.std.specs.Borrow.{full_share};
    ghost use Rattle.std.specs.Ptr.{lies_at};
    ghost use Rattle.iobufs.specs.contracts.bufs.IoBufs.{the_row as text_row};

    ghost also_owns = { λ h. lies_at text_row full_share h.at h.value };
}

// An `IoBufs` may go to another thread with its handle (proofs/text/TextAt/TheSendSync).
unsafe impl Send for TextAt {}

impl TextAt {
    ghost use Rattle.iobufs_c.specs.contracts.text.TextAt.{the_row};

    /// Borrows the `IoBufs` of the handle.
    pub(crate) fn get(&mut self) -> &mut IoBufs
        ensures* writes_back { sem 𝓛 (Lends the_row text_row self.entry result
            (λ v. record { at = self.old.at; value = v })) }
        ensures value { result.now ≡ self.old.value }
    {
        unsafe { &mut *(self.at as *mut IoBufs) }
    }
}

/// Writes an `IoBufs` that was made to `out`, and returns the status.
pub(crate) fn hand_text(made: Result<IoBufs, BufError>, out: &mut TextAt) -> u8
    ensures at { out.new.at ≡ out.old.at }
    ensures told { MatchResult made (λ text. (result ≡ 0) × (out.new.value ≡ text))
        (λ cause. (result ≡ code_of (of_buf_error cause)) × (out.new.value ≡ out.old.value)) }
{
    match made {
        Ok(text) => {
            *out.get() = text;
            Status::Done.code()
        }
        Err(cause) => refusal(cause),
    }
}

fn empty(_alloc: Global) -> IoBufs
    ensures { result ≡ default_text }
{
    IoBufs::default()
}

/// Returns the library's size of a `struct iobufs`. (own)
#[unsafe(no_mangle)]
pub extern "C" fn iobufs_size() -> usize
    ensures value { result ≡ 56 }
{
    mem::size_of::<IoBufs>()
}

/// Makes memory an empty iobufs. (IoBufs::default)
#[unsafe(no_mangle)]
pub unsafe extern "C" fn iobufs_init(alloc: Global, at: *mut u8)
    requires* { sem 𝓛 (room_at text_row at) }
    ensures* { sem 𝓛 (lies_at text_row full_share at default_text) }
{
    (at as *mut IoBufs).write(empty(alloc));
}

/// Drops the bytes; the empty iobufs is left. (Drop)
#[unsafe(no_mangle)]
pub extern "C" fn iobufs_drop(bufs: &mut TextAt)
    ensures at { bufs.new.at ≡ bufs.old.at }
    ensures value { bufs.new.value ≡ default_text }
{
    *bufs.get() = IoBufs::default();
}

/// Makes an iobufs of one view, which is left empty. (From<IoBuf>)
#[unsafe(no_mangle)]
pub extern "C" fn iobufs_from_view(src: &mut ViewAt, out: &mut TextAt)
    ensures at { (src.new.at ≡ src.old.at) × (out.new.at ≡ out.old.at) }
    ensures src { src.new.value ≡ default_view }
    ensures value { out.new.value ≡ of_view src.old.value }
{
    let view = mem::take(src.get());
    *out.get() = IoBufs::from(view);
}

/// Returns whether both hold the same bytes, for every chunking. (==)
#[unsafe(no_mangle)]
pub extern "C" fn iobufs_eq(bufs: &mut TextAt, other: &mut TextAt) -> bool
    ensures same { (bufs.new.at ≡ bufs.old.at) × (bufs.new.value ≡ bufs.old.value) }
    ensures other { (other.new.at ≡ other.old.at) × (other.new.value ≡ other.old.value) }
    ensures yes { result ≡ true → bufs.old.value.bytes ≡ other.old.value.bytes }
    ensures no { bufs.old.value.bytes ≡ other.old.value.bytes → result ≡ true }
{
    bufs.get() == other.get()
}

/// Makes another iobufs of the same bytes, in their storage. (Clone)
/// Fails: IOBUFS_MEMORY, for the deque of chunks.
#[unsafe(no_mangle)]
pub extern "C" fn iobufs_clone(bufs: &mut TextAt, out: &mut TextAt) -> u8
    ensures same { (bufs.new.at ≡ bufs.old.at) × (bufs.new.value ≡ bufs.old.value) }
    ensures at { out.new.at ≡ out.old.at }
    ensures value { out.new.value ≡ (if result == 0 then bufs.old.value else out.old.value) }
    ensures memory { IsDoneUnless result Status.Memory }
    ensures free { is_single bufs.old.value ≡ true
        → IsFreelyShared (record { bytes = bufs.old.value.bytes; mark = bufs.old.value.mark }) → result ≡ 0 }
{
    match bufs.get().clone() {
        Ok(other) => {
            *out.get() = other;
            Status::Done.code()
        }
        Err(_) => Status::Memory.code(),
    }
}

/// Returns the number of bytes. (IoBufs::len)
#[unsafe(no_mangle)]
pub extern "C" fn iobufs_len(bufs: &mut TextAt) -> usize
    ensures same { (bufs.new.at ≡ bufs.old.at) × (bufs.new.value ≡ bufs.old.value) }
    ensures value { result ≡ text_len bufs.old.value }
{
    bufs.get().len()
}

/// Returns the number of chunks that hold bytes. (chunk_count)
#[unsafe(no_mangle)]
pub extern "C" fn iobufs_chunk_count(bufs: &mut TextAt) -> usize
    ensures same { (bufs.new.at ≡ bufs.old.at) × (bufs.new.value ≡ bufs.old.value) }
    ensures value { result ≡ count_of bufs.old.value }
{
    IoBufs::chunk_count(bufs.get())
}

/// Writes a pointer to the first chunk, as iobuf_chunk does, and returns its length. (Buf::chunk)
#[unsafe(no_mangle)]
pub extern "C" fn iobufs_chunk(bufs: &mut TextAt, out: &mut *const u8) -> usize
    ensures same { (bufs.new.at ≡ bufs.old.at) × (bufs.new.value ≡ bufs.old.value) }
    ensures value { result ≡ length (first_chunk (text_chunks bufs.old.value)) }
    ensures address { out.new ≡ null_ptr → ⊥ }
{
    let chunk = bufs.get().chunk();
    *out = address(chunk);
    chunk.len()
}

/// Writes the index of the chunk that contains an offset, and the distance from its start. (own)
/// Fails: IOBUFS_OUT_OF_RANGE if the offset is at the end, or after it.
#[unsafe(no_mangle)]
pub extern "C" fn iobufs_locate(
    bufs: &mut TextAt,
    at: usize,
    index: &mut usize,
    offset: &mut usize,
) -> u8
    ensures same { (bufs.new.at ≡ bufs.old.at) × (bufs.new.value ≡ bufs.old.value) }
    ensures result { result ≡ (if nat_le (text_len bufs.old.value) at then code_of Status.OutOfRange else 0) }
    ensures index { result ≡ 0 → index.new + 1 ≡ keys_upto bufs.old.value at }
    ensures offset { result ≡ 0 → greatest_key bufs.old.value at + offset.new ≡ at }
    ensures unchanged { (result == 0) ≡ false → (index.new ≡ index.old) × (offset.new ≡ offset.old) }
{
    let bufs = bufs.get();
    if at >= bufs.len() {
        return Status::OutOfRange.code();
    }
    let place = bufs.locate(at);
    *index = place.index;
    *offset = place.offset;
    Status::Done.code()
}

/// Adds a view at the end, and leaves its handle empty. (append)
/// Fails: IOBUFS_TOO_LONG if the length would pass SIZE_MAX; IOBUFS_MEMORY if the list of chunks has to grow.
/// Keeps: both.
#[unsafe(no_mangle)]
pub extern "C" fn iobufs_append(alloc: Global, bufs: &mut TextAt, view: &mut ViewAt) -> u8
    ensures at { (bufs.new.at ≡ bufs.old.at) × (view.new.at ≡ view.old.at) }
    ensures bufs { bufs.new.value ≡
        (if result == 0 then text_append bufs.old.value view.old.value else bufs.old.value) }
    ensures view { view.new.value ≡ (if result == 0 then default_view else view.old.value) }
    ensures too_long { 2 ^ 64 ≤ text_len bufs.old.value + length view.old.value.bytes
        → result ≡ code_of Status.TooLong }
    ensures memory { text_len bufs.old.value + length view.old.value.bytes < 2 ^ 64
        → IsDoneUnless result Status.Memory }
    ensures nothing { length view.old.value.bytes ≡ 0 → result ≡ 0 }
    ensures onto_nothing { text_len bufs.old.value ≡ 0 → result ≡ 0 }
{
    let taken = mem::take(view.get());
    match bufs.get().append(alloc, taken) {
        Ok(()) => Status::Done.code(),
        Err(refused) => {
            *view.get() = refused.value;
            refusal(refused.cause)
        }
    }
}

/// Adds a view at the start, and leaves its handle empty. (prepend)
/// Fails: IOBUFS_TOO_LONG if the length would pass SIZE_MAX; IOBUFS_MEMORY if the list of chunks has to grow.
/// Keeps: both.
#[unsafe(no_mangle)]
pub extern "C" fn iobufs_prepend(alloc: Global, bufs: &mut TextAt, view: &mut ViewAt) -> u8
    ensures at { (bufs.new.at ≡ bufs.old.at) × (view.new.at ≡ view.old.at) }
    ensures bufs { bufs.new.value ≡
        (if result == 0 then text_prepend bufs.old.value view.old.value else bufs.old.value) }
    ensures view { view.new.value ≡ (if result == 0 then default_view else view.old.value) }
    ensures too_long { 2 ^ 64 ≤ text_len bufs.old.value + length view.old.value.bytes
        → result ≡ code_of Status.TooLong }
    ensures memory { text_len bufs.old.value + length view.old.value.bytes < 2 ^ 64
        → IsDoneUnless result Status.Memory }
    ensures nothing { length view.old.value.bytes ≡ 0 → result ≡ 0 }
    ensures onto_nothing { text_len bufs.old.value ≡ 0 → result ≡ 0 }
{
    let taken = mem::take(view.get());
    match bufs.get().prepend(alloc, taken) {
        Ok(()) => Status::Done.code(),
        Err(refused) => {
            *view.get() = refused.value;
            refusal(refused.cause)
        }
    }
}

/// Takes the first `at` bytes. (IoBufs::split_to)
/// Fails: IOBUFS_OUT_OF_RANGE if there are fewer; IOBUFS_MEMORY if the smaller side has several chunks.
#[unsafe(no_mangle)]
pub extern "C" fn iobufs_split_to(
    alloc: Global,
    bufs: &mut TextAt,
    at: usize,
    out: &mut TextAt,
) -> u8
    ensures at { (bufs.new.at ≡ bufs.old.at) × (out.new.at ≡ out.old.at) }
    ensures bufs { bufs.new.value ≡ (if result == 0 then text_rest bufs.old.value at else bufs.old.value) }
    ensures out { out.new.value ≡ (if result == 0 then text_split_front bufs.old.value at else out.old.value) }
    ensures outside { text_len bufs.old.value < at → result ≡ code_of Status.OutOfRange }
    ensures inside { at ≤ text_len bufs.old.value → IsDoneUnless result Status.Memory }
    ensures free { at ≤ text_len bufs.old.value → SplitsFree bufs.old.value at → result ≡ 0 }
{
    match bufs.get().try_split_to(alloc, at) {
        Some(front) => hand_text(front, out),
        None => Status::OutOfRange.code(),
    }
}

/// Makes an iobufs of the bytes from offset lo to hi, in their storage. It costs the chunks of that range alone. (own)
/// Fails: IOBUFS_OUT_OF_RANGE if lo is above hi, or hi above the length; IOBUFS_MEMORY.
#[unsafe(no_mangle)]
pub extern "C" fn iobufs_slice(
    alloc: Global,
    bufs: &mut TextAt,
    lo: usize,
    hi: usize,
    out: &mut TextAt,
) -> u8
    ensures same { (bufs.new.at ≡ bufs.old.at) × (bufs.new.value ≡ bufs.old.value) }
    ensures at { out.new.at ≡ out.old.at }
    ensures value { out.new.value ≡ (if result == 0 then text_split_front (text_rest bufs.old.value lo)
        (hi - lo) else out.old.value) }
    ensures backwards { hi < lo → result ≡ code_of Status.OutOfRange }
    ensures outside { text_len bufs.old.value < hi → result ≡ code_of Status.OutOfRange }
    ensures inside { lo ≤ hi → hi ≤ text_len bufs.old.value → IsDoneUnless result Status.Memory }
    ensures nothing { lo ≡ hi → hi ≤ text_len bufs.old.value → result ≡ 0 }
    ensures static_text { lo ≤ hi → hi ≤ text_len bufs.old.value
        → (taken_view bufs.old.value lo (hi - lo)).mark ≡ static_mark → result ≡ 0 }
{
    match bufs.get().try_slice(alloc, lo..hi) {
        Some(slice) => hand_text(slice, out),
        None => Status::OutOfRange.code(),
    }
}

/// Keeps at most the first n bytes. (own)
/// Fails: IOBUFS_MEMORY, unless n is 0 or there are no more.
/// Keeps: all bytes.
#[unsafe(no_mangle)]
pub extern "C" fn iobufs_truncate(alloc: Global, bufs: &mut TextAt, n: usize) -> u8
    ensures at { bufs.new.at ≡ bufs.old.at }
    ensures kept { result ≡ 0 → n < text_len bufs.old.value → bufs.new.value ≡ text_split_front bufs.old.value n }
    ensures longer { text_len bufs.old.value ≤ n → (bufs.new.value ≡ bufs.old.value) × (result ≡ 0) }
    ensures unchanged { (result ≡ 0 → ⊥) → bufs.new.value ≡ bufs.old.value }
    ensures memory { IsDoneUnless result Status.Memory }
    ensures free { SplitsFree bufs.old.value n → result ≡ 0 }
{
    match bufs.get().truncate(alloc, n) {
        Ok(()) => Status::Done.code(),
        Err(_) => Status::Memory.code(),
    }
}

/// Drops the first n bytes. (Buf::advance)
/// Fails: IOBUFS_OUT_OF_RANGE if there are fewer.
#[unsafe(no_mangle)]
pub extern "C" fn iobufs_advance(bufs: &mut TextAt, n: usize) -> u8
    ensures at { bufs.new.at ≡ bufs.old.at }
    ensures value { bufs.new.value ≡ (if nat_le n
        (text_len bufs.old.value) then text_advanced bufs.old.value n else bufs.old.value) }
    ensures result { result ≡ (if nat_le n (text_len bufs.old.value) then 0 else code_of Status.OutOfRange) }
{
    done_or(bufs.get().try_advance(n), Status::OutOfRange)
}

/// Copies the first n bytes out and drops them. (Buf::copy_to_slice)
/// Fails: IOBUFS_END_OF_BUFFER if there are fewer.
#[unsafe(no_mangle)]
pub extern "C" fn iobufs_copy_to_slice(bufs: &mut TextAt, dst: &mut [u8]) -> u8
    ensures at { bufs.new.at ≡ bufs.old.at }
    ensures value { bufs.new.value ≡ (if nat_le (length dst.old)
        (text_len bufs.old.value) then text_advanced bufs.old.value (length dst.old) else bufs.old.value) }
    ensures bytes { dst.new ≡ (if nat_le (length dst.old) (text_len bufs.old.value) then take
        (length dst.old) bufs.old.value.bytes else dst.old) }
    ensures result { result ≡ (if nat_le (length dst.old)
        (text_len bufs.old.value) then 0 else code_of Status.EndOfBuffer) }
{
    let is_done = bufs.get().try_copy_to_slice(dst).is_ok();
    done_or(is_done, Status::EndOfBuffer)
}

/// Copies the n bytes after the first `skip` out, of which none is dropped. With 0 and iobufs_len it copies all. (own)
/// Fails: IOBUFS_END_OF_BUFFER if there are fewer, and nothing is written.
#[unsafe(no_mangle)]
pub extern "C" fn iobufs_peek(bufs: &mut TextAt, skip: usize, dst: &mut [u8]) -> u8
    ensures same { (bufs.new.at ≡ bufs.old.at) × (bufs.new.value ≡ bufs.old.value) }
    ensures bytes { dst.new ≡ (if nat_le (skip + length dst.old) (text_len bufs.old.value) then take (length dst.old)
        (drop skip bufs.old.value.bytes) else dst.old) }
    ensures result { result ≡ (if nat_le (skip + length dst.old)
        (text_len bufs.old.value) then 0 else code_of Status.EndOfBuffer) }
{
    done_or(bufs.get().try_peek_slice(skip, dst), Status::EndOfBuffer)
}

/// Takes the first n bytes as one view: shared within a chunk, a copy across chunks. (take_owned, Buf::copy_to_bytes)
/// Fails: IOBUFS_END_OF_BUFFER if there are fewer; IOBUFS_MEMORY, for the copy.
#[unsafe(no_mangle)]
pub extern "C" fn iobufs_take(alloc: Global, bufs: &mut TextAt, n: usize, out: &mut ViewAt) -> u8
    ensures at { (bufs.new.at ≡ bufs.old.at) × (out.new.at ≡ out.old.at) }
    ensures bufs { bufs.new.value ≡ (if result == 0 then text_rest bufs.old.value n else bufs.old.value) }
    ensures out { out.new.value ≡ (if result == 0 then taken_view bufs.old.value 0 n else out.old.value) }
    ensures outside { text_len bufs.old.value < n → result ≡ code_of Status.EndOfBuffer }
    ensures inside { n ≤ text_len bufs.old.value → IsDoneUnless result Status.Memory }
    ensures nothing { n ≡ 0 → result ≡ 0 }
    ensures whole { n ≤ text_len bufs.old.value → n ≡ length (first_chunk (text_chunks bufs.old.value)) → result ≡ 0 }
    ensures static_text { n ≤ text_len bufs.old.value → (taken_view bufs.old.value 0 n).mark ≡ static_mark
        → result ≡ 0 }
{
    let bufs = bufs.get();
    if n > bufs.len() {
        return Status::EndOfBuffer.code();
    }
    hand(bufs.take_owned::<IoBuf>(alloc, n), out)
}

/// Takes the n bytes after the first `skip`, which are dropped too, as one view, as iobufs_take does. (own)
/// Fails: IOBUFS_END_OF_BUFFER if there are fewer; IOBUFS_MEMORY, for the copy.
#[unsafe(no_mangle)]
pub extern "C" fn iobufs_take_after(
    alloc: Global,
    bufs: &mut TextAt,
    skip: usize,
    n: usize,
    out: &mut ViewAt,
) -> u8
    ensures at { (bufs.new.at ≡ bufs.old.at) × (out.new.at ≡ out.old.at) }
    ensures bufs { bufs.new.value ≡ (if result == 0 then text_rest bufs.old.value (skip + n) else bufs.old.value) }
    ensures out { out.new.value ≡ (if result == 0 then taken_view bufs.old.value skip n else out.old.value) }
    ensures outside { text_len bufs.old.value < skip + n → result ≡ code_of Status.EndOfBuffer }
    ensures inside { skip + n ≤ text_len bufs.old.value → IsDoneUnless result Status.Memory }
    ensures nothing { n ≡ 0 → skip ≤ text_len bufs.old.value → result ≡ 0 }
    ensures whole { skip + n ≤ text_len bufs.old.value → skip ≡ 0
        → n ≡ length (first_chunk (text_chunks bufs.old.value)) → result ≡ 0 }
    ensures static_text { skip + n ≤ text_len bufs.old.value → (taken_view bufs.old.value skip n).mark ≡ static_mark
        → result ≡ 0 }
{
    let bufs = bufs.get();
    let len = bufs.len();
    if skip > len || n > len - skip {
        return Status::EndOfBuffer.code();
    }
    hand(bufs.take_owned_after::<IoBuf>(alloc, skip, n), out)
}

/// Makes one view of all bytes, with a copy of several chunks. `bufs` is left empty, also after an error: clone `bufs`
/// first to keep the bytes. (coalesce)
/// Fails: IOBUFS_BAD_LAYOUT if several chunks have more than SSIZE_MAX bytes; IOBUFS_MEMORY, for the copy.
#[unsafe(no_mangle)]
pub extern "C" fn iobufs_coalesce(alloc: Global, bufs: &mut TextAt, out: &mut ViewAt) -> u8
    ensures at { (bufs.new.at ≡ bufs.old.at) × (out.new.at ≡ out.old.at) }
    ensures bufs { bufs.new.value ≡ default_text }
    ensures out { result ≡ 0 → of_view out.new.value ≡ text_coalesced bufs.old.value }
    ensures unchanged { (result == 0) ≡ false → out.new.value ≡ out.old.value }
    ensures single { is_single bufs.old.value ≡ true → result ≡ 0 }
    ensures bad_layout { is_single bufs.old.value ≡ false → 2 ^ 63 ≤ text_len bufs.old.value
        → result ≡ code_of Status.BadLayout }
    ensures memory { text_len bufs.old.value < 2 ^ 63 → IsDoneUnless result Status.Memory }
{
    hand(mem::take(bufs.get()).coalesce(alloc), out)
}

/// Takes the only chunk as a view; `bufs` is left empty. (try_into_single)
/// Fails: IOBUFS_DECLINED if there are more.
/// Keeps: the chunks.
#[unsafe(no_mangle)]
pub extern "C" fn iobufs_try_into_single(bufs: &mut TextAt, out: &mut ViewAt) -> u8
    ensures at { (bufs.new.at ≡ bufs.old.at) × (out.new.at ≡ out.old.at) }
    ensures single { result ≡ 0 → (bufs.old.value ≡ of_view out.new.value) × (bufs.new.value ≡ default_text) }
    ensures declined { (result == 0) ≡ false
        → (is_single bufs.old.value ≡ false) × (bufs.new.value ≡ bufs.old.value) × (out.new.value ≡ out.old.value) }
    ensures result { IsDoneUnless result Status.Declined }
{
    match mem::take(bufs.get()).try_into_single() {
        Ok(piece) => {
            *out.get() = piece;
            Status::Done.code()
        }
        Err(whole) => {
            *bufs.get() = whole;
            Status::Declined.code()
        }
    }
}

/// The address of a chunk and its length, as `struct iovec`.
#[repr(C)]
#[derive(Clone, Copy)]
pub struct Chunk {
    pub(crate) base: *const u8,
    pub(crate) len: usize,
}

// The address and the length of bytes.
pub(crate) fn chunk_of(bytes: &[u8]) -> Chunk
    ensures { result.len ≡ length bytes.now }
{
    Chunk {
        base: address(bytes),
        len: bytes.len(),
    }
}

// Fills a list with the addresses and lengths of the first chunks of a run, and returns how many it filled.
fn fill_run(run: &ChunkSlice, out: &mut [Chunk]) -> usize
    ensures count { result ≡ min (length out.old) (length run.now) }
    ensures lengths { map (λ chunk. chunk.len) (take result out.new) ≡ map length (take result run.now) }
    ensures rest { drop result out.new ≡ drop result out.old }
{
    let left = run.len();
    let mut count = 0;
    while count < out.len() && count < left {
        let Some(chunk) = run.get(count) else {
            return count;
        };
        out[count] = chunk_of(chunk);
        count += 1;
    }
    count
}

// Fills a list with the addresses and lengths of the chunks from `first` on, and returns how many it filled.
fn fill_chunks(text: &IoBufs, first: usize, out: &mut [Chunk]) -> usize
    ensures count { result ≡ min (length out.old) (length (text_chunks text.now) - first) }
    ensures lengths { map (λ chunk. chunk.len) (take result out.new) ≡ map length
        (take result (drop first (text_chunks text.now))) }
    ensures rest { drop result out.new ≡ drop result out.old }
{
    let (front, behind) = text.chunk_slices_from(first);
    let count = fill_run(&front, out);
    count + fill_run(&behind, &mut out[count..])
}

/// Fills a list of n with the chunks from chunk first on, counted from 0, and returns how many it filled; 0 if there
/// are none. So a loop takes many chunks at a time. (own)
#[unsafe(no_mangle)]
pub extern "C" fn iobufs_chunks_from(bufs: &mut TextAt, first: usize, out: &mut [Chunk]) -> usize
    ensures same { (bufs.new.at ≡ bufs.old.at) × (bufs.new.value ≡ bufs.old.value) }
    ensures count { result ≡ min (length out.old) (length (text_chunks bufs.old.value) - first) }
    ensures lengths { map (λ chunk. chunk.len) (take result out.new) ≡ map length
        (take result (drop first (text_chunks bufs.old.value))) }
    ensures rest { drop result out.new ≡ drop result out.old }
{
    fill_chunks(bufs.get(), first, out)
}
