// The commands that make a view or an `IoBufs` of what is given, or of what a name holds and keeps.
ghost use Rattle.std.specs.Prelude.{◌≡◌, ◌⊎◌, length, false, [], ◌∷◌, IfOk, IfErr, IsOk};
ghost use Rattle.iobufs_run.specs.declared.command.Cmd.{Cmd};
ghost use Rattle.iobufs_run.specs.Run.{Step, reply_of};
ghost use Rattle.iobufs_run.specs.Slots.{is_one_of};

use super::Slot;
use super::causes::{free_name, lent, lent_view};
use super::slots::hold;
use crate::command::{Kind, Outcome, Refusal, Reply};
use bytes::Bytes;
use iobufs::builder::EncodeExt;
use iobufs_core::buf::IoBuf;
use std::alloc::{AllocError, Global};
use std::ops::Bound;

pub(super) fn of_static(slots: &mut [Slot], dst: usize, text: &'static [u8]) -> Outcome
    ensures { Step slots.old (Cmd.Static dst text.entry) (reply_of result) slots.new }
{
    free_name(slots, dst)?;
    hold(slots, dst, Slot::View(IoBuf::from(text)));
    Ok(Reply::Done)
}

// A copy of these bytes.
fn copied(alloc: Global, bytes: &[u8]) -> Result<Bytes, AllocError>
    ensures ok { IfOk result (λ copy. copy ≡ bytes.now) }
    ensures nothing { length bytes.now ≡ 0 → IsOk result }
{
    if bytes.is_empty() {
        return Ok(Bytes::new());
    }
    Bytes::copy_from_slice(alloc, bytes)
}

pub(super) fn of_bytes(alloc: Global, slots: &mut [Slot], dst: usize, bytes: &Vec<u8>) -> Outcome
    ensures { Step slots.old (Cmd.FromBytes dst bytes.now) (reply_of result) slots.new }
{
    free_name(slots, dst)?;
    let copy = copied(alloc, bytes.as_slice())?;
    hold(slots, dst, Slot::View(IoBuf::from(copy)));
    Ok(Reply::Done)
}

// A clone of a view or of an `IoBufs`.
fn cloned(slot: &Slot) -> Result<Slot, Refusal>
    ensures ok { IfOk result (λ clone. clone ≡ slot.now) }
    ensures err { IfErr result (λ refusal. (refusal ≡ Refusal.Memory)
        ⊎ (is_one_of (Kind.View ∷ Kind.Text ∷ []) slot.now ≡ false)) }
{
    match slot {
        Slot::View(view) => Ok(Slot::View(view.clone()?)),
        Slot::Text(text) => Ok(Slot::Text(text.clone()?)),
        Slot::Free | Slot::Part(_) | Slot::Parts(_) => Err(Refusal::WrongKind),
    }
}

pub(super) fn clone(slots: &mut [Slot], src: usize, dst: usize) -> Outcome
    ensures { Step slots.old (Cmd.Clone src dst) (reply_of result) slots.new }
{
    lent(&[Kind::View, Kind::Text], slots, src, dst)?;
    let clone = cloned(&slots[src])?;
    hold(slots, dst, clone);
    Ok(Reply::Done)
}

pub(super) fn slice(
    slots: &mut [Slot],
    src: usize,
    dst: usize,
    lo: Bound<usize>,
    hi: Bound<usize>,
) -> Outcome
    ensures { Step slots.old (Cmd.Slice src dst lo hi) (reply_of result) slots.new }
{
    let view = lent_view(slots, src, dst)?;
    if !view.fits_range(lo, hi) {
        return Err(Refusal::OutOfRange);
    }
    let slice = view.slice(lo, hi)?;
    hold(slots, dst, Slot::View(slice));
    Ok(Reply::Done)
}

#[tactic(auto, using(crate::proofs::Encoded::encoding))]
pub(super) fn encode(alloc: Global, slots: &mut [Slot], src: usize, dst: usize) -> Outcome
    ensures { Step slots.old (Cmd.Encode src dst) (reply_of result) slots.new }
{
    let text = lent_view(slots, src, dst)?.encode_iobufs(alloc)?;
    hold(slots, dst, Slot::Text(text));
    Ok(Reply::Done)
}
