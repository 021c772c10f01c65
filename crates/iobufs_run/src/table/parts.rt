// The commands on parts.
ghost use Rattle.std.specs.Prelude.{◌≡◌, ◌⊎◌, ◌<◌, false, length, [], ◌∷◌, IfErr, IfOk, IsOk, IsTrue, OnErr};
ghost use Rattle.iobufs_run.specs.declared.command.Cmd.{Cmd};
ghost use Rattle.iobufs_run.specs.Run.{Step, reply_of};
ghost use Rattle.iobufs_run.specs.Slots.{is_fixed_view, is_native_view, is_one_of, is_view, readable as readable_bytes, slot_frozen, slot_recovered};

use super::Slot;
use super::causes::{free_name, known, moved, within};
use super::slots::{hold, take_view};
use crate::command::{Kind, Outcome, Refusal, Reply};
use iobufs_core::buf::IoBufMut;
use iobufs_core::codec::BufMut;
use std::alloc::{AllocError, Global};
use std::mem;

pub(super) fn new_mut(
    alloc: Global,
    slots: &mut [Slot],
    dst: usize,
    capacity: usize,
    align: usize,
) -> Outcome
    ensures { Step slots.old (Cmd.NewMut dst capacity align) (reply_of result) slots.new }
{
    free_name(slots, dst)?;
    let part = IoBufMut::with_alignment(alloc, capacity, align)?;
    hold(slots, dst, Slot::Part(part));
    Ok(Reply::Done)
}

pub(super) fn zeroed(
    alloc: Global,
    slots: &mut [Slot],
    dst: usize,
    len: usize,
    align: usize,
) -> Outcome
    ensures { Step slots.old (Cmd.Zeroed dst len align) (reply_of result) slots.new }
{
    free_name(slots, dst)?;
    let part = IoBufMut::zeroed_with_alignment(alloc, len, align)?;
    hold(slots, dst, Slot::Part(part));
    Ok(Reply::Done)
}

// A copy of these bytes, which allocates nothing if there are none.
fn copied(alloc: Global, bytes: &[u8]) -> Result<Vec<u8>, AllocError>
    ensures ok { IfOk result (λ copy. copy.items ≡ bytes.now) }
    ensures nothing { length bytes.now ≡ 0 → IsOk result }
{
    if bytes.is_empty() {
        return Ok(Vec::new(alloc));
    }
    Vec::from_slice(alloc, bytes)
}

pub(super) fn adopt(alloc: Global, slots: &mut [Slot], dst: usize, bytes: &Vec<u8>) -> Outcome
    ensures { Step slots.old (Cmd.Adopt dst bytes.now) (reply_of result) slots.new }
{
    free_name(slots, dst)?;
    let part = IoBufMut::from(copied(alloc, bytes.as_slice())?);
    hold(slots, dst, Slot::Part(part));
    Ok(Reply::Done)
}

pub(super) fn put(slots: &mut [Slot], target: usize, bytes: &Vec<u8>) -> Outcome
    ensures { Step slots.old (Cmd.Put target bytes.now) (reply_of result) slots.new }
{
    known(slots, target)?;
    match &mut slots[target] {
        Slot::Part(part) => {
            within(bytes.len(), part.remaining_mut())?;
            part.put_slice(bytes.as_slice());
        }
        Slot::Parts(parts) => {
            within(bytes.len(), parts.remaining_mut())?;
            parts.put_slice(bytes.as_slice());
        }
        _ => return Err(Refusal::WrongKind),
    }
    Ok(Reply::Done)
}

pub(super) fn fill(slots: &mut [Slot], target: usize, byte: u8, n: usize) -> Outcome
    ensures { Step slots.old (Cmd.Fill target byte n) (reply_of result) slots.new }
{
    known(slots, target)?;
    match &mut slots[target] {
        Slot::Part(part) => {
            within(n, part.remaining_mut())?;
            part.put_bytes(byte, n);
        }
        Slot::Parts(parts) => {
            within(n, parts.remaining_mut())?;
            parts.put_bytes(byte, n);
        }
        _ => return Err(Refusal::WrongKind),
    }
    Ok(Reply::Done)
}

pub(super) fn set_len(slots: &mut [Slot], target: usize, n: usize) -> Outcome
    ensures { Step slots.old (Cmd.SetLen target n) (reply_of result) slots.new }
{
    known(slots, target)?;
    match &mut slots[target] {
        Slot::Part(part) => {
            within(n, part.capacity())?;
            part.set_len(n);
        }
        Slot::Parts(parts) => {
            within(n, parts.capacity())?;
            parts.set_len(n);
        }
        _ => return Err(Refusal::WrongKind),
    }
    Ok(Reply::Done)
}

pub(super) fn truncate(slots: &mut [Slot], target: usize, n: usize) -> Outcome
    ensures { Step slots.old (Cmd.Truncate target n) (reply_of result) slots.new }
{
    known(slots, target)?;
    let Slot::Part(part) = &mut slots[target] else {
        return Err(Refusal::WrongKind);
    };
    part.truncate(n);
    Ok(Reply::Done)
}

pub(super) fn clear(slots: &mut [Slot], target: usize) -> Outcome
    ensures { Step slots.old (Cmd.Clear target) (reply_of result) slots.new }
{
    known(slots, target)?;
    let Slot::Part(part) = &mut slots[target] else {
        return Err(Refusal::WrongKind);
    };
    part.clear();
    Ok(Reply::Done)
}

pub(super) fn overwrite(slots: &mut [Slot], target: usize, bytes: &Vec<u8>) -> Outcome
    ensures { Step slots.old (Cmd.Overwrite target bytes.now) (reply_of result) slots.new }
{
    known(slots, target)?;
    match &mut slots[target] {
        Slot::Part(part) if part.len() == bytes.len() => {
            part.as_mut().copy_from_slice(bytes.as_slice())
        }
        Slot::Parts(parts) if parts.len() == bytes.len() => parts.copy_from_slice(bytes.as_slice()),
        Slot::Part(_) | Slot::Parts(_) => return Err(Refusal::OutOfRange),
        _ => return Err(Refusal::WrongKind),
    }
    Ok(Reply::Done)
}

// A part or parts, frozen.
fn frozen(alloc: Global, slot: Slot) -> Result<Slot, Refusal>
    ensures ok { IfOk result (λ frozen. frozen ≡ slot_frozen slot) }
    ensures err { IfErr result (λ refusal. ((refusal ≡ Refusal.Memory) × (0 < readable_bytes slot))
        ⊎ (is_one_of (Kind.Part ∷ Kind.Parts ∷ []) slot ≡ false)) }
{
    match slot {
        Slot::Part(part) => Ok(Slot::View(part.freeze()?)),
        Slot::Parts(parts) => Ok(Slot::Text(parts.freeze(alloc)?)),
        Slot::Free | Slot::View(_) | Slot::Text(_) => Err(Refusal::WrongKind),
    }
}

pub(super) fn freeze(alloc: Global, slots: &mut [Slot], src: usize, dst: usize) -> Outcome
    ensures { Step slots.old (Cmd.Freeze src dst) (reply_of result) slots.new }
{
    moved(&[Kind::Part, Kind::Parts], slots, src, dst)?;
    let slot = mem::replace(&mut slots[src], Slot::Free);
    hold(slots, dst, frozen(alloc, slot)?);
    Ok(Reply::Done)
}

// Recovers the view of a slot for writing, and frees the slot. A view that can't be written stays.
fn recover_slot(alloc: Global, slot: &mut Slot) -> Result<IoBufMut, Refusal>
    ensures ok { IfOk result (λ part. (Slot.Part part ≡ slot_recovered slot.old) × (slot.new ≡ Slot.Free)
        × (is_fixed_view slot.old ≡ false)) }
    ensures unchanged { OnErr result (slot.new ≡ slot.old) }
    ensures err { IfErr result (λ refusal.
        ((refusal ≡ Refusal.Declined) × (IsTrue (is_fixed_view slot.old) ⊎ IsTrue (is_native_view slot.old)))
        ⊎ (is_view slot.old ≡ false)) }
{
    match take_view(slot)?.try_into_mut(alloc) {
        Ok(part) => Ok(part),
        Err(view) => {
            *slot = Slot::View(view);
            Err(Refusal::Declined)
        }
    }
}

pub(super) fn recover(alloc: Global, slots: &mut [Slot], src: usize, dst: usize) -> Outcome
    ensures { Step slots.old (Cmd.Recover src dst) (reply_of result) slots.new }
{
    moved(&[Kind::View], slots, src, dst)?;
    let part = recover_slot(alloc, &mut slots[src])?;
    hold(slots, dst, Slot::Part(part));
    Ok(Reply::Done)
}
