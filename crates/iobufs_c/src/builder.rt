// iobufs_builder (Builder): bytes that are put, and views that are pushed, as one iobufs. The empty one
// takes views alone.
ghost use Rattle.std.specs.Prelude.{◌≡◌, ◌≤◌, ◌<◌, ◌==◌, ◌∷◌, [], if◌then◌else◌, ◌^◌, length, replicate, nat_le};
ghost use Rattle.std.specs.Borrow.{sem, Lends, full_share};
ghost use Rattle.std.specs.Ptr.{lies_at, room_at};
ghost use Rattle.iobufs.specs.Building.{Building, building_items, building_push, building_put, building_room, empty_building, finished, room_for_pushes};
ghost use Rattle.iobufs.specs.contracts.builder.Builder.{the_row as builder_row};
ghost use Rattle.iobufs_core.specs.Items.{items_inline};
ghost use Rattle.iobufs_core.specs.View.{default_view};
ghost use Rattle.iobufs_c.specs.Codes.{IsDoneUnless, code_of};

use crate::status::{Status, done_or, refusal};
use crate::text::{TextAt, hand_text};
use crate::view::ViewAt;
use iobufs::builder::Builder;
use iobufs_core::codec::{BufMut, BufsMut};
use std::alloc::Global;
use std::marker::{Model, Send};
use std::mem;

/// The handle of a builder in the caller's memory. An empty handle has a builder without space for inline bytes.
#[repr(C)]
pub struct BuilderAt {
    at: *mut u8,
    ghost value: { Building },
}

impl Model for BuilderAt {
    ghost use Rattle.std.specs.Borrow.{full_share};
    ghost use Rattle.std.specs.Ptr.{lies_at};
    ghost use Rattle.iobufs.specs.contracts.builder.Builder.{the_row as builder_row};

    ghost also_owns = { λ h. lies_at builder_row full_share h.at h.value };
}

// A builder may go to another thread with its handle (proofs/builder/BuilderAt/TheSendSync).
unsafe impl Send for BuilderAt {}

impl BuilderAt {
    ghost use Rattle.iobufs_c.specs.contracts.builder.BuilderAt.{the_row};

    /// Borrows the builder of the handle.
    pub(crate) fn get(&mut self) -> &mut Builder
        ensures* writes_back { sem 𝓛 (Lends the_row builder_row self.entry result
            (λ v. record { at = self.old.at; value = v })) }
        ensures value { result.now ≡ self.old.value }
    {
        unsafe { &mut *(self.at as *mut Builder) }
    }
}

/// Returns the library's size of a `struct iobufs_builder`. (own)
#[unsafe(no_mangle)]
pub extern "C" fn iobufs_builder_size() -> usize
    ensures value { result ≡ 112 }
{
    mem::size_of::<Builder>()
}

/// Makes the empty builder of memory. (own)
#[unsafe(no_mangle)]
pub unsafe extern "C" fn iobufs_builder_init(alloc: Global, at: *mut u8)
    requires* { sem 𝓛 (room_at builder_row at) }
    ensures* { sem 𝓛 (lies_at builder_row full_share at (empty_building 0)) }
{
    (at as *mut Builder).write(Builder::empty(alloc));
}

/// Drops the builder; the empty one is left. (Drop)
#[unsafe(no_mangle)]
pub extern "C" fn iobufs_builder_drop(alloc: Global, builder: &mut BuilderAt)
    ensures at { builder.new.at ≡ builder.old.at }
    ensures value { builder.new.value ≡ empty_building 0 }
{
    *builder.get() = Builder::empty(alloc);
}

/// Makes a builder for this many bytes that are put. (Builder::new)
/// Fails: IOBUFS_BAD_LAYOUT if they are above SSIZE_MAX; IOBUFS_MEMORY except for 0.
#[unsafe(no_mangle)]
pub extern "C" fn iobufs_builder_new(alloc: Global, capacity: usize, out: &mut BuilderAt) -> u8
    ensures at { out.new.at ≡ out.old.at }
    ensures value { out.new.value ≡ (if result == 0 then empty_building capacity else out.old.value) }
    ensures bad_layout { 2 ^ 63 ≤ capacity → result ≡ code_of Status.BadLayout }
    ensures memory { capacity < 2 ^ 63 → IsDoneUnless result Status.Memory }
    ensures nothing { capacity ≡ 0 → result ≡ 0 }
{
    match Builder::new(alloc, capacity) {
        Ok(builder) => {
            *out.get() = builder;
            Status::Done.code()
        }
        Err(cause) => refusal(cause),
    }
}

/// Returns how many bytes may still be put. (BufMut::remaining_mut)
#[unsafe(no_mangle)]
pub extern "C" fn iobufs_builder_remaining_mut(builder: &mut BuilderAt) -> usize
    ensures same { (builder.new.at ≡ builder.old.at) × (builder.new.value ≡ builder.old.value) }
    ensures value { result ≡ building_room builder.old.value }
{
    builder.get().remaining_mut()
}

/// Puts bytes. (BufMut::put_slice)
/// Fails: IOBUFS_OUT_OF_RANGE if they don't fit.
#[unsafe(no_mangle)]
pub extern "C" fn iobufs_builder_put_slice(builder: &mut BuilderAt, src: &[u8]) -> u8
    ensures at { builder.new.at ≡ builder.old.at }
    ensures value { builder.new.value ≡ (if result == 0 then building_put builder.old.value src.now else
        builder.old.value) }
    ensures result { result ≡ (if nat_le (length src.now)
        (building_room builder.old.value) then 0 else code_of Status.OutOfRange) }
{
    done_or(builder.get().try_put_slice(src), Status::OutOfRange)
}

/// Puts a byte n times. (BufMut::put_bytes)
/// Fails: IOBUFS_OUT_OF_RANGE if they don't fit.
#[unsafe(no_mangle)]
pub extern "C" fn iobufs_builder_put_bytes(builder: &mut BuilderAt, value: u8, n: usize) -> u8
    ensures at { builder.new.at ≡ builder.old.at }
    ensures value { builder.new.value ≡ (if result == 0 then building_put builder.old.value (replicate n value) else
        builder.old.value) }
    ensures result { result ≡ (if nat_le n (building_room builder.old.value) then 0 else code_of Status.OutOfRange) }
{
    done_or(builder.get().try_put_bytes(value, n), Status::OutOfRange)
}

/// Pushes a view, not copied, and leaves its handle empty. (Builder::push)
/// Fails: IOBUFS_TOO_LONG if the capacity and all pushed bytes would pass SIZE_MAX; IOBUFS_MEMORY, for the deque.
/// Keeps: both.
#[unsafe(no_mangle)]
pub extern "C" fn iobufs_builder_push(builder: &mut BuilderAt, view: &mut ViewAt) -> u8
    ensures at { (builder.new.at ≡ builder.old.at) × (view.new.at ≡ view.old.at) }
    ensures value { builder.new.value ≡ (if result == 0 then building_push builder.old.value
        view.old.value else builder.old.value) }
    ensures view { view.new.value ≡ (if result == 0 then default_view else view.old.value) }
    ensures too_long { room_for_pushes builder.old.value < length view.old.value.bytes
        → result ≡ code_of Status.TooLong }
    ensures memory { length view.old.value.bytes ≤ room_for_pushes builder.old.value
        → IsDoneUnless result Status.Memory }
    ensures nothing { length view.old.value.bytes ≡ 0 → result ≡ 0 }
{
    match builder.get().push(mem::take(view.get())) {
        Ok(()) => Status::Done.code(),
        Err(refused) => {
            *view.get() = refused.value;
            refusal(refused.cause)
        }
    }
}

/// Makes an iobufs of all that was put and pushed; the empty builder is left, also after an error. (Builder::finish)
/// Fails: IOBUFS_MEMORY (reserved).
#[unsafe(no_mangle)]
pub extern "C" fn iobufs_builder_finish(
    alloc: Global,
    builder: &mut BuilderAt,
    out: &mut TextAt,
) -> u8
    ensures at { (builder.new.at ≡ builder.old.at) × (out.new.at ≡ out.old.at) }
    ensures builder { builder.new.value ≡ empty_building 0 }
    ensures value { out.new.value ≡ (if result == 0 then finished builder.old.value else out.old.value) }
    ensures memory { IsDoneUnless result Status.Memory }
    ensures nothing { building_items builder.old.value ≡ [] → result ≡ 0 }
    ensures no_inline { items_inline (building_items builder.old.value) ≡ 0 → result ≡ 0 }
{
    let built = mem::replace(builder.get(), Builder::empty(alloc));
    hand_text(built.finish(), out)
}
