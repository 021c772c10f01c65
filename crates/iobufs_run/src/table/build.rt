// The command that builds an `IoBufs` of bytes and views.
ghost use Rattle.std.specs.Prelude.{◌≡◌, ◌≢◌, ◌+◌, ◌^◌, ◌<◌, ◌≤◌, true, false, map, nat_lt, [], ◌∷◌, slice_set, IfErr, IfOk, IsOkUnless, OnOk, MatchResult, Some, None};
ghost use Rattle.std.specs.List.{list_any, list_all};
ghost use Rattle.iobufs_core.specs.Items.{item_inline, item_pushed};
ghost use Rattle.iobufs.specs.Building.{building_push, building_room, building_after, building_with, empty_building, finished, room_for_pushes};
ghost use Rattle.iobufs_run.specs.declared.command.Cmd.{Cmd};
ghost use Rattle.iobufs_run.specs.Causes.{build_causes, first_cause, has_twice, inline_len, is_listed, is_no_name, is_too_long, pushed_names, total_extent};
ghost use Rattle.iobufs_run.specs.Run.{Step, reply_of, all_freed, item_held, MayFree};
ghost use Rattle.iobufs_run.specs.Slots.{extent, slot_named, is_of as of, view_held};

use super::Slot;
use super::gather::{extent_at, holds};
use super::slots::{hold, take_view};
use crate::command::{Item, Kind, Outcome, Refusal, Reply};
use iobufs::bufs::IoBufs;
use iobufs::builder::Builder;
use iobufs_core::codec::{BufMut, BufsMut};
use std::alloc::Global;

// Whether one of the pushed names doesn't exist.
fn push_no_name(slots: &[Slot], items: &[Item]) -> bool
    ensures { result ≡ list_any (is_no_name slots.now) (pushed_names items.now) }
{
    for item in items {
        if let Item::Push(name) = item {
            if slots.len() <= *name {
                return true;
            }
        }
    }
    false
}

// Whether each of the pushed names holds a view.
fn push_views(slots: &[Slot], items: &[Item]) -> bool
    ensures { result ≡ list_all (λ src. of Kind.View (slot_named slots.now src)) (pushed_names items.now) }
{
    for item in items {
        if let Item::Push(name) = item {
            if !holds(slots, *name, Kind::View) {
                return false;
            }
        }
    }
    true
}

// Whether a name is pushed.
fn is_pushed(items: &[Item], name: usize) -> bool
    ensures { result ≡ is_listed (pushed_names items.now) name }
{
    for item in items {
        if let Item::Push(pushed) = item {
            if *pushed == name {
                return true;
            }
        }
    }
    false
}

// Whether a name is pushed twice.
fn push_twice(items: &[Item]) -> bool
    ensures { result ≡ has_twice (pushed_names items.now) }
{
    for i in 0..items.len() {
        if let Item::Push(name) = &items[i] {
            if is_pushed(&items[i + 1..], *name) {
                return true;
            }
        }
    }
    false
}

// Whether the bytes that are put pass a capacity.
fn pass(items: &[Item], capacity: usize) -> bool
    ensures { result ≡ nat_lt capacity (inline_len items.now) }
{
    let mut room = capacity;
    for item in items {
        if let Item::Inline(bytes) = item {
            if room < bytes.len() {
                return true;
            }
            room -= bytes.len();
        }
    }
    false
}

// Whether the sum of the capacity and the lengths of the pushed views doesn't fit a `usize`.
fn are_too_long(slots: &[Slot], capacity: usize, items: &[Item]) -> bool
    ensures { result ≡ is_too_long (capacity + total_extent slots.now (pushed_names items.now)) }
{
    let mut room = usize::MAX - capacity;
    for item in items {
        if let Item::Push(name) = item {
            let len = extent_at(slots, *name);
            if room < len {
                return true;
            }
            room -= len;
        }
    }
    false
}

// The first cause to refuse to build an `IoBufs` of these items.
fn building(slots: &[Slot], dst: usize, capacity: usize, items: &[Item]) -> Result<(), Refusal>
    ensures causes { MatchResult result (λ _. first_cause (build_causes slots.now dst capacity items.now) ≡ None)
        (λ refusal. first_cause (build_causes slots.now dst capacity items.now) ≡ Some refusal) }
    ensures known { IfErr result (λ refusal. refusal ≢ Refusal.Memory) }
{
    if dst >= slots.len() || push_no_name(slots, items) {
        return Err(Refusal::NoName);
    }
    if !push_views(slots, items) {
        return Err(Refusal::WrongKind);
    }
    if (slots[dst].kind().is_some() && !is_pushed(items, dst)) || push_twice(items) {
        return Err(Refusal::InUse);
    }
    if pass(items, capacity) {
        return Err(Refusal::OutOfRange);
    }
    if capacity > isize::MAX as usize {
        return Err(Refusal::BadLayout);
    }
    if are_too_long(slots, capacity, items) {
        return Err(Refusal::TooLong);
    }
    Ok(())
}

// Pushes the view that a name holds, and frees the name.
fn push(slots: &mut [Slot], name: usize, builder: &mut Builder) -> Result<(), Refusal>
    requires view { of Kind.View (slot_named slots.old name) ≡ true }
    requires fits { extent (slot_named slots.old name) ≤ room_for_pushes builder.old }
    ensures ok { OnOk result (builder.new ≡ building_push builder.old (view_held (slot_named slots.old name))) }
    ensures freed { slots.new ≡ slice_set slots.old name Slot.Free }
    ensures memory { IsOkUnless result Refusal.Memory }
{
    let view = take_view(&mut slots[name])?;
    builder.push(view)?;
    Ok(())
}

// Puts the bytes of an item, or pushes the view that it names.
fn add(slots: &mut [Slot], item: &Item, builder: &mut Builder) -> Result<(), Refusal>
    requires view { list_all (λ src. of Kind.View (slot_named slots.old src)) (pushed_names (item.now ∷ [])) ≡ true }
    requires room { item_inline (item_held slots.old item.now) ≤ building_room builder.old }
    requires pushable { item_pushed (item_held slots.old item.now) ≤ room_for_pushes builder.old }
    ensures ok { OnOk result (builder.new ≡ building_with builder.old (item_held slots.old item.now)) }
    ensures freed { slots.new ≡ all_freed slots.old (pushed_names (item.now ∷ [])) }
    ensures memory { IsOkUnless result Refusal.Memory }
{
    match item {
        Item::Inline(bytes) => {
            builder.put_slice(bytes.as_slice());
            Ok(())
        }
        Item::Push(name) => push(slots, *name, builder),
    }
}

// Builds an `IoBufs` of these items.
fn built_text(
    alloc: Global,
    slots: &mut [Slot],
    capacity: usize,
    items: &[Item],
) -> Result<IoBufs, Refusal>
    requires views { list_all (λ src. of Kind.View (slot_named slots.old src)) (pushed_names items.now) ≡ true }
    requires once { has_twice (pushed_names items.now) ≡ false }
    requires inline { inline_len items.now ≤ capacity }
    requires layout { capacity < 2 ^ 63 }
    requires fits { capacity + total_extent slots.old (pushed_names items.now) < 2 ^ 64 }
    ensures ok { IfOk result (λ text. text ≡ finished
        (building_after (empty_building capacity) (map (item_held slots.old) items.now))) }
    ensures freed { OnOk result (slots.new ≡ all_freed slots.old (pushed_names items.now)) }
    ensures err { IfErr result (λ refusal. (refusal ≡ Refusal.Memory)
        × MayFree (pushed_names items.now) slots.old slots.new) }
{
    let mut builder = Builder::new(alloc, capacity)?;
    for item in items {
        add(slots, item, &mut builder)?;
    }
    Ok(builder.finish()?)
}

pub(super) fn build(
    alloc: Global,
    slots: &mut [Slot],
    dst: usize,
    capacity: usize,
    items: &Vec<Item>,
) -> Outcome
    ensures { Step slots.old (Cmd.Build dst capacity items.now) (reply_of result) slots.new }
{
    building(slots, dst, capacity, items)?;
    let text = built_text(alloc, slots, capacity, items)?;
    hold(slots, dst, Slot::Text(text));
    Ok(Reply::Done)
}
