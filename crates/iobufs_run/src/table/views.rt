// The commands that take bytes from the front.
ghost use Rattle.std.specs.Prelude.{◌≡◌, ◌≤◌, ◌<◌, ◌⊎◌, true, false, [], ◌∷◌, take as first, nat_eq, IfErr, IfOk, OnErr, OnOk, Err, Ok};
ghost use Rattle.iobufs_core.specs.Wire.{IsViewRead};
ghost use Rattle.iobufs_run.specs.declared.command.Cmd.{Cmd};
ghost use Rattle.iobufs_core.specs.declared.codec.base.Error.{Error};
ghost use Rattle.iobufs_run.specs.Refusals.{codec_refusal};
ghost use Rattle.iobufs_run.specs.Run.{Step, reply_of};
ghost use Rattle.iobufs_run.specs.Slots.{bytes_held, is_free, is_one_of, is_static_view, readable as readable_bytes, marked_held, slot_copied, slot_read, slot_split_front, slot_rest};

use super::Slot;
use super::causes::{in_use, lent, within};
use super::slots::{hold, readable};
use crate::command::{Kind, Outcome, Refusal, Reply};
use bytes::Bytes;
use iobufs_core::buf::IoBuf;
use iobufs_core::codec::{Buf, RangeCfg, Read};
use std::alloc::Global;

// Splits a view or an `IoBufs` that a slot holds.
fn split_slot(alloc: Global, slot: &mut Slot, at: usize) -> Result<Slot, Refusal>
    requires within { at ≤ readable_bytes slot.old }
    ensures ok { IfOk result (λ front. (front ≡ slot_split_front slot.old at) × (slot.new ≡ slot_rest slot.old at)) }
    ensures unchanged { OnErr result (slot.new ≡ slot.old) }
    ensures err { IfErr result (λ refusal.
        ((refusal ≡ Refusal.Memory) × (nat_eq at 0 ≡ false) × (nat_eq at (readable_bytes slot.old) ≡ false)
        × (is_static_view slot.old ≡ false))
        ⊎ (is_one_of (Kind.View ∷ Kind.Text ∷ []) slot.old ≡ false)) }
{
    match slot {
        Slot::View(view) => Ok(Slot::View(view.split_to(at)?)),
        Slot::Text(text) => Ok(Slot::Text(text.split_to(alloc, at)?)),
        Slot::Free | Slot::Part(_) | Slot::Parts(_) => Err(Refusal::WrongKind),
    }
}

pub(super) fn split(alloc: Global, slots: &mut [Slot], src: usize, dst: usize, at: usize) -> Outcome
    ensures { Step slots.old (Cmd.Split src dst at) (reply_of result) slots.new }
{
    lent(&[Kind::View, Kind::Text], slots, src, dst)?;
    within(at, readable(&slots[src]))?;
    let front = split_slot(alloc, &mut slots[src], at)?;
    hold(slots, dst, front);
    Ok(Reply::Done)
}

pub(super) fn advance(slots: &mut [Slot], target: usize, n: usize) -> Outcome
    ensures { Step slots.old (Cmd.Advance target n) (reply_of result) slots.new }
{
    in_use(slots, target)?;
    within(n, readable(&slots[target]))?;
    match &mut slots[target] {
        Slot::Free => return Err(Refusal::WrongKind),
        Slot::Part(part) => part.advance(n),
        Slot::View(view) => view.advance(n),
        Slot::Text(text) => text.advance(n),
        Slot::Parts(parts) => parts.advance(n),
    }
    Ok(Reply::Done)
}

// Takes the first bytes of what a slot holds out.
fn take_slot(alloc: Global, slot: &mut Slot, n: usize) -> Result<Bytes, Refusal>
    requires within { n ≤ readable_bytes slot.old }
    ensures ok { IfOk result (λ bytes. bytes ≡ first n (bytes_held slot.old)) }
    ensures rest { OnOk result (slot.new ≡ slot_copied slot.old n) }
    ensures unchanged { OnErr result (slot.new ≡ slot.old) }
    ensures err { IfErr result (λ refusal. ((refusal ≡ Refusal.Memory) × (0 < n)) ⊎ (is_free slot.old ≡ true)) }
{
    match slot {
        Slot::Free => Err(Refusal::WrongKind),
        Slot::Part(part) => Ok(part.copy_to_bytes(alloc, n)?),
        Slot::View(view) => Ok(view.copy_to_bytes(alloc, n)?),
        Slot::Text(text) => Ok(text.copy_to_bytes(alloc, n)?),
        Slot::Parts(parts) => Ok(parts.copy_to_bytes(alloc, n)?),
    }
}

pub(super) fn take(alloc: Global, slots: &mut [Slot], target: usize, n: usize) -> Outcome
    ensures { Step slots.old (Cmd.Take target n) (reply_of result) slots.new }
{
    in_use(slots, target)?;
    within(n, readable(&slots[target]))?;
    let bytes = take_slot(alloc, &mut slots[target], n)?;
    Ok(Reply::Bytes(bytes))
}

// Reads a view from a view or an `IoBufs` that a slot holds.
fn read_slot(alloc: Global, slot: &mut Slot, range: &RangeCfg) -> Result<IoBuf, Refusal>
    ensures ok { IfOk result (λ taken. IsViewRead (marked_held slot.old) range.now (Ok taken)
        × (slot.new ≡ slot_read slot.old taken)) }
    ensures unchanged { OnErr result (slot.new ≡ slot.old) }
    ensures err { IfErr result (λ refusal.
        ((error : Error) × IsViewRead (marked_held slot.old) range.now (Err error) × (refusal ≡ codec_refusal error))
        ⊎ (is_one_of (Kind.View ∷ Kind.Text ∷ []) slot.old ≡ false)) }
{
    match slot {
        Slot::View(view) => Ok(IoBuf::read_cfg(alloc, view, range)?),
        Slot::Text(text) => Ok(IoBuf::read_cfg(alloc, text, range)?),
        Slot::Free | Slot::Part(_) | Slot::Parts(_) => Err(Refusal::WrongKind),
    }
}

pub(super) fn decode(
    alloc: Global,
    slots: &mut [Slot],
    src: usize,
    dst: usize,
    range: &RangeCfg,
) -> Outcome
    ensures { Step slots.old (Cmd.Decode src dst range.now) (reply_of result) slots.new }
{
    lent(&[Kind::View, Kind::Text], slots, src, dst)?;
    let view = read_slot(alloc, &mut slots[src], range)?;
    hold(slots, dst, Slot::View(view));
    Ok(Reply::Done)
}
