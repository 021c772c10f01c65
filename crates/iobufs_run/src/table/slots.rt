// Taking buffers from slots and putting them there, and the command that frees a name.
ghost use Rattle.std.specs.Prelude.{◌≡◌, ◌<◌, slice_set, length, false, IfErr, IfOk};
ghost use Rattle.iobufs_run.specs.declared.command.Cmd.{Cmd};
ghost use Rattle.iobufs_run.specs.Run.{Step, reply_of};
ghost use Rattle.iobufs_run.specs.Slots.{is_part, is_view, readable as readable_bytes};

use super::Slot;
use super::causes::in_use;
use crate::command::{Outcome, Refusal, Reply};
use iobufs_core::buf::{IoBuf, IoBufMut};
use std::mem;

/// How many bytes can be read from what a name holds.
pub(super) fn readable(slot: &Slot) -> usize
    ensures { result ≡ readable_bytes slot.now }
{
    match slot {
        Slot::Free => 0,
        Slot::Part(part) => part.len(),
        Slot::View(view) => view.len(),
        Slot::Text(text) => text.len(),
        Slot::Parts(parts) => parts.len(),
    }
}

/// Puts a buffer under a name. The buffer that the name held is dropped here, so that no other function has the
/// branches of a drop.
#[inline(always)]
pub(super) fn hold(slots: &mut [Slot], name: usize, slot: Slot)
    requires { name < length slots.old }
    ensures { slots.new ≡ slice_set slots.old name slot }
{
    slots[name] = slot;
}

/// Takes the writable buffer out of a slot. A buffer of another kind stays.
#[inline(always)]
pub(super) fn take_part(slot: &mut Slot) -> Result<IoBufMut, Refusal>
    ensures ok { IfOk result (λ part. (slot.old ≡ Slot.Part part) × (slot.new ≡ Slot.Free)) }
    ensures err { IfErr result (λ refusal. (refusal ≡ Refusal.WrongKind) × (is_part slot.old ≡ false)
        × (slot.new ≡ slot.old)) }
{
    match mem::replace(slot, Slot::Free) {
        Slot::Part(part) => Ok(part),
        other => {
            *slot = other;
            Err(Refusal::WrongKind)
        }
    }
}

/// Takes the view out of a slot. A buffer of another kind stays.
#[inline(always)]
pub(super) fn take_view(slot: &mut Slot) -> Result<IoBuf, Refusal>
    ensures ok { IfOk result (λ view. (slot.old ≡ Slot.View view) × (slot.new ≡ Slot.Free)) }
    ensures err { IfErr result (λ refusal. (refusal ≡ Refusal.WrongKind) × (is_view slot.old ≡ false)
        × (slot.new ≡ slot.old)) }
{
    match mem::replace(slot, Slot::Free) {
        Slot::View(view) => Ok(view),
        other => {
            *slot = other;
            Err(Refusal::WrongKind)
        }
    }
}

pub(super) fn free(slots: &mut [Slot], target: usize) -> Outcome
    ensures { Step slots.old (Cmd.Drop target) (reply_of result) slots.new }
{
    in_use(slots, target)?;
    hold(slots, target, Slot::Free);
    Ok(Reply::Done)
}
