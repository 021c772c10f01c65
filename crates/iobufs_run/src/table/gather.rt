// The commands that put several buffers together.
ghost use Rattle.std.specs.Prelude.{◌≡◌, ◌≢◌, ◌^◌, ◌<◌, true, false, length, map, sum_by, IfOk, IfErr, IsOk, IsOkUnless, OnOk, SomeIff, MatchResult, Some, None};
ghost use Rattle.std.specs.List.{list_any, list_all};
ghost use Rattle.iobufs_core.specs.MarkedText.{joined};
ghost use Rattle.iobufs.specs.Parts.{kept_parts, parts_capacity};
ghost use Rattle.iobufs_run.specs.declared.command.Cmd.{Cmd};
ghost use Rattle.iobufs_run.specs.Causes.{first_cause, gather_causes, has_twice as twice, is_no_name};
ghost use Rattle.iobufs_run.specs.Run.{Step, reply_of, all_freed, MayFree};
ghost use Rattle.iobufs_run.specs.Slots.{extent, slot_named, is_of as of, part_held, view_held};

use super::Slot;
use super::slots::{hold, readable, take_part, take_view};
use crate::command::{Kind, Outcome, Refusal, Reply};
use iobufs::bufs::IoBufs;
use iobufs::bufs_mut::IoBufsMut;
use iobufs_core::buf::IoBufMut;
use std::alloc::Global;

// Whether a name is in a list twice.
fn has_twice(names: &[usize]) -> bool
    ensures { result ≡ twice names.now }
{
    for i in 0..names.len() {
        if names[i + 1..].contains(&names[i]) {
            return true;
        }
    }
    false
}

// Whether one of the names doesn't exist.
fn have_no_name(slots: &[Slot], names: &[usize]) -> bool
    ensures { result ≡ list_any (is_no_name slots.now) names.now }
{
    names.iter().any(|name| slots.len() <= *name)
}

// Whether each of the names holds a buffer of this kind.
fn hold_all(slots: &[Slot], names: &[usize], kind: Kind) -> bool
    ensures { result ≡ list_all (λ name. of kind (slot_named slots.now name)) names.now }
{
    names.iter().all(|name| holds(slots, *name, kind))
}

// Whether a name holds a buffer of this kind.
pub(super) fn holds(slots: &[Slot], name: usize, kind: Kind) -> bool
    ensures { result ≡ of kind (slot_named slots.now name) }
{
    match slots.get(name) {
        Some(slot) => slot.kind() == Some(kind),
        None => false,
    }
}

// The capacity of a name's `IoBufMut`, else how many bytes can be read from what the name holds.
pub(super) fn extent_at(slots: &[Slot], name: usize) -> usize
    ensures { result ≡ extent (slot_named slots.now name) }
{
    match slots.get(name) {
        Some(Slot::Part(part)) => part.capacity(),
        Some(slot) => readable(slot),
        None => 0,
    }
}

// The sum of these names' extents, if it fits a `usize`.
fn total(slots: &[Slot], names: &[usize]) -> Option<usize>
    ensures { SomeIff result (sum_by (λ name. extent (slot_named slots.now name)) names.now < 2 ^ 64)
        (sum_by (λ name. extent (slot_named slots.now name)) names.now) }
{
    let mut sum = 0usize;
    for name in names {
        sum = sum.checked_add(extent_at(slots, *name))?;
    }
    Some(sum)
}

// The first cause to refuse a gathering of buffers of this kind.
fn gathering(slots: &[Slot], dst: usize, sources: &[usize], kind: Kind) -> Result<(), Refusal>
    ensures causes { MatchResult result (λ _. first_cause (gather_causes kind slots.now dst sources.now) ≡ None)
        (λ refusal. first_cause (gather_causes kind slots.now dst sources.now) ≡ Some refusal) }
    ensures known { IfErr result (λ refusal. refusal ≢ Refusal.Memory) }
{
    if dst >= slots.len() || have_no_name(slots, sources) {
        return Err(Refusal::NoName);
    }
    if !hold_all(slots, sources, kind) {
        return Err(Refusal::WrongKind);
    }
    if (slots[dst].kind().is_some() && !sources.contains(&dst)) || has_twice(sources) {
        return Err(Refusal::InUse);
    }
    if total(slots, sources).is_none() {
        return Err(Refusal::TooLong);
    }
    Ok(())
}

// Takes the views of these names, and makes an `IoBufs` of them.
fn take_views(alloc: Global, slots: &mut [Slot], sources: &[usize]) -> Result<IoBufs, Refusal>
    requires views { list_all (λ src. of Kind.View (slot_named slots.old src)) sources.now ≡ true }
    requires once { twice sources.now ≡ false }
    requires fits { sum_by (λ src. extent (slot_named slots.old src)) sources.now < 2 ^ 64 }
    ensures ok { IfOk result (λ text. text ≡ joined (map (λ src. view_held (slot_named slots.old src)) sources.now)) }
    ensures freed { OnOk result (slots.new ≡ all_freed slots.old sources.now) }
    ensures err { IfErr result (λ refusal. (refusal ≡ Refusal.Memory) × MayFree sources.now slots.old slots.new) }
    ensures nothing { length sources.now ≡ 0 → IsOk result }
{
    let mut text = IoBufs::default();
    for src in sources {
        let piece = take_view(&mut slots[*src])?;
        text.append(alloc, piece)?;
    }
    Ok(text)
}

// Takes the parts of these names.
fn take_row(alloc: Global, slots: &mut [Slot], sources: &[usize]) -> Result<Vec<IoBufMut>, Refusal>
    requires parts { list_all (λ src. of Kind.Part (slot_named slots.old src)) sources.now ≡ true }
    requires once { twice sources.now ≡ false }
    ensures ok { IfOk result (λ row. row.items ≡ map (λ src. part_held (slot_named slots.old src)) sources.now) }
    ensures freed { OnOk result (slots.new ≡ all_freed slots.old sources.now) }
    ensures err { IfErr result (λ refusal. (refusal ≡ Refusal.Memory) × (slots.new ≡ slots.old)) }
    ensures nothing { length sources.now ≡ 0 → IsOk result }
{
    let mut row = Vec::with_capacity(alloc, sources.len())?;
    for src in sources {
        let part = take_part(&mut slots[*src])?;
        row.push(part).unwrap();
    }
    Ok(row)
}

// Parts in a row, concatenated.
fn strung(alloc: Global, row: Vec<IoBufMut>) -> Result<IoBufsMut, Refusal>
    requires { parts_capacity row.items < 2 ^ 64 }
    ensures ok { IfOk result (λ parts. parts ≡ kept_parts row.items) }
    ensures memory { IsOkUnless result Refusal.Memory }
    ensures nothing { length row.items ≡ 0 → IsOk result }
{
    Ok(IoBufsMut::from_parts(alloc, row.into_iter())?)
}

// Takes the parts of these names, and concatenates them.
fn take_parts(alloc: Global, slots: &mut [Slot], sources: &[usize]) -> Result<IoBufsMut, Refusal>
    requires parts { list_all (λ src. of Kind.Part (slot_named slots.old src)) sources.now ≡ true }
    requires once { twice sources.now ≡ false }
    requires fits { sum_by (λ src. extent (slot_named slots.old src)) sources.now < 2 ^ 64 }
    ensures ok { IfOk result (λ parts. parts ≡ kept_parts
        (map (λ src. part_held (slot_named slots.old src)) sources.now)) }
    ensures freed { OnOk result (slots.new ≡ all_freed slots.old sources.now) }
    ensures err { IfErr result (λ refusal. (refusal ≡ Refusal.Memory) × MayFree sources.now slots.old slots.new) }
    ensures nothing { length sources.now ≡ 0 → IsOk result }
{
    let row = take_row(alloc, slots, sources)?;
    strung(alloc, row)
}

pub(super) fn gather_mut(
    alloc: Global,
    slots: &mut [Slot],
    dst: usize,
    sources: &Vec<usize>,
) -> Outcome
    ensures { Step slots.old (Cmd.GatherMut dst sources.now) (reply_of result) slots.new }
{
    gathering(slots, dst, sources, Kind::Part)?;
    let parts = take_parts(alloc, slots, sources)?;
    hold(slots, dst, Slot::Parts(parts));
    Ok(Reply::Done)
}

pub(super) fn gather(alloc: Global, slots: &mut [Slot], dst: usize, sources: &Vec<usize>) -> Outcome
    ensures { Step slots.old (Cmd.Gather dst sources.now) (reply_of result) slots.new }
{
    gathering(slots, dst, sources, Kind::View)?;
    let text = take_views(alloc, slots, sources)?;
    hold(slots, dst, Slot::Text(text));
    Ok(Reply::Done)
}
