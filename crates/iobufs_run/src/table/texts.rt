// The commands that join `IoBufs` and views, and make one chunk of several.
ghost use Rattle.std.specs.Prelude.{◌≡◌, ◌≢◌, ◌⊎◌, ◌+◌, ◌^◌, ◌<◌, false, length, [], ◌∷◌, IfOk, IfErr, IsTrue, OnErr, OnOk, MatchResult, Some, None};
ghost use Rattle.iobufs_run.specs.declared.command.Cmd.{Cmd};
ghost use Rattle.iobufs_run.specs.Causes.{first_cause, join_causes};
ghost use Rattle.iobufs_run.specs.Run.{Step, joining as joining_at, reply_of};
ghost use Rattle.iobufs_run.specs.Slots.{is_text, is_in_pieces, is_one_of, is_too_large as too_large, readable as readable_bytes, slot_coalesced, slot_joined};

use super::causes::{known, moved};
use super::slots::{hold, readable, take_view};
use super::{End, Slot};
use crate::command::{Kind, Outcome, Refusal, Reply};
use iobufs_core::buf::IoBuf;
use std::alloc::Global;
use std::mem;

// Puts a view at an end of the `IoBufs` that a slot holds; it comes back if an allocation fails.
fn join_to(alloc: Global, slot: &mut Slot, piece: IoBuf, end: End) -> Result<(), IoBuf>
    requires fits { readable_bytes slot.old + length piece.bytes < 2 ^ 64 }
    ensures ok { OnOk result (slot.new ≡ slot_joined end slot.old (Slot.View piece)) }
    ensures kept { IfErr result (λ back. (back ≡ piece) × (slot.new ≡ slot.old)) }
    ensures err { OnErr result (((0 < length piece.bytes) × (0 < readable_bytes slot.old))
        ⊎ (is_text slot.old ≡ false)) }
{
    let Slot::Text(text) = slot else {
        return Err(piece);
    };
    match end {
        End::Back => text.append(alloc, piece).map_err(|refused| refused.value),
        End::Front => text.prepend(alloc, piece).map_err(|refused| refused.value),
    }
}

// The first cause to refuse a joining of an `IoBufs` and a view.
fn joining(slots: &[Slot], target: usize, src: usize) -> Result<(), Refusal>
    ensures causes { MatchResult result (λ _. first_cause (join_causes slots.now target src) ≡ None)
        (λ refusal. first_cause (join_causes slots.now target src) ≡ Some refusal) }
    ensures known { IfErr result (λ refusal. refusal ≢ Refusal.Memory) }
{
    known(slots, target)?;
    known(slots, src)?;
    if slots[target].kind() != Some(Kind::Text) || slots[src].kind() != Some(Kind::View) {
        return Err(Refusal::WrongKind);
    }
    if readable(&slots[target])
        .checked_add(readable(&slots[src]))
        .is_none()
    {
        return Err(Refusal::TooLong);
    }
    Ok(())
}

/// `Append` and `Prepend`, by the end of the `IoBufs`.
pub(super) fn join(
    alloc: Global,
    slots: &mut [Slot],
    target: usize,
    src: usize,
    end: End,
) -> Outcome
    ensures { Step slots.old (joining_at end target src) (reply_of result) slots.new }
{
    joining(slots, target, src)?;
    let piece = take_view(&mut slots[src])?;
    if let Err(piece) = join_to(alloc, &mut slots[target], piece, end) {
        hold(slots, src, Slot::View(piece));
        return Err(Refusal::Memory);
    }
    Ok(Reply::Done)
}

// An `IoBufs` or parts, as one chunk.
fn whole(alloc: Global, slot: Slot) -> Result<Slot, Refusal>
    requires fits { too_large slot ≡ false }
    ensures ok { IfOk result (λ whole. whole ≡ slot_coalesced slot) }
    ensures err { IfErr result (λ refusal. ((refusal ≡ Refusal.Memory) × IsTrue (is_in_pieces slot))
        ⊎ (is_one_of (Kind.Text ∷ Kind.Parts ∷ []) slot ≡ false)) }
{
    match slot {
        Slot::Text(text) => Ok(Slot::View(text.coalesce(alloc)?)),
        Slot::Parts(parts) => Ok(Slot::Part(parts.coalesce(alloc)?)),
        Slot::Free | Slot::Part(_) | Slot::View(_) => Err(Refusal::WrongKind),
    }
}

pub(super) fn coalesce(alloc: Global, slots: &mut [Slot], src: usize, dst: usize) -> Outcome
    ensures { Step slots.old (Cmd.Coalesce src dst) (reply_of result) slots.new }
{
    moved(&[Kind::Text, Kind::Parts], slots, src, dst)?;
    if is_too_large(&slots[src]) {
        return Err(Refusal::BadLayout);
    }
    let slot = mem::replace(&mut slots[src], Slot::Free);
    hold(slots, dst, whole(alloc, slot)?);
    Ok(Reply::Done)
}

// Whether no storage can hold all bytes of several chunks.
fn is_too_large(slot: &Slot) -> bool
    ensures { result ≡ too_large slot.now }
{
    match slot {
        Slot::Text(text) => !text.is_single() && text.len() > isize::MAX as usize,
        Slot::Parts(parts) => parts.part_count() > 1 && parts.len() > isize::MAX as usize,
        _ => false,
    }
}
