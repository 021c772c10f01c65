// The causes that several commands have in common, each tested in its order. No test allocates.
ghost use Rattle.std.specs.Prelude.{◌≡◌, ◌≢◌, ◌<◌, ◌≤◌, true, false, length, [], ◌∷◌, IfErr, MatchResult, Some, None};
ghost use Rattle.iobufs_run.specs.Causes.{any_kind, first_cause, free_name as free_name_causes, lent as lent_causes, move_causes as moved_causes, one_of};
ghost use Rattle.iobufs_run.specs.Slots.{is_free as free, is_one_of as of_one, slot_named};

use super::Slot;
use crate::command::{Kind, Refusal};
use iobufs_core::buf::IoBuf;

/// A name that there is.
pub(super) fn known(slots: &[Slot], name: usize) -> Result<(), Refusal>
    ensures { MatchResult result (λ _. name < length slots.now)
        (λ refusal. (refusal ≡ Refusal.NoName) × (length slots.now ≤ name)) }
{
    if name >= slots.len() {
        return Err(Refusal::NoName);
    }
    Ok(())
}

// Whether a slot holds a buffer of one of these kinds.
fn is_one_of(kinds: &[Kind], slot: &Slot) -> bool
    ensures { result ≡ of_one kinds.now slot.now }
{
    kinds.iter().any(|kind| slot.kind() == Some(*kind))
}

// A buffer of one of these kinds.
fn of_kind(kinds: &[Kind], slot: &Slot) -> Result<(), Refusal>
    ensures { MatchResult result (λ _. of_one kinds.now slot.now ≡ true)
        (λ refusal. (refusal ≡ Refusal.WrongKind) × (of_one kinds.now slot.now ≡ false)) }
{
    if !is_one_of(kinds, slot) {
        return Err(Refusal::WrongKind);
    }
    Ok(())
}

// No buffer.
fn unused(slot: &Slot) -> Result<(), Refusal>
    ensures { MatchResult result (λ _. free slot.now ≡ true)
        (λ refusal. (refusal ≡ Refusal.InUse) × (free slot.now ≡ false)) }
{
    match slot.kind() {
        Some(_) => Err(Refusal::InUse),
        None => Ok(()),
    }
}

/// A number that is at most another.
pub(super) fn within(n: usize, most: usize) -> Result<(), Refusal>
    ensures { MatchResult result (λ _. n ≤ most) (λ refusal. (refusal ≡ Refusal.OutOfRange) × (most < n)) }
{
    if n > most {
        return Err(Refusal::OutOfRange);
    }
    Ok(())
}

/// A name that holds a buffer.
pub(super) fn in_use(slots: &[Slot], target: usize) -> Result<(), Refusal>
    ensures causes { MatchResult result (λ _. first_cause (one_of any_kind slots.now target []) ≡ None)
        (λ refusal. first_cause (one_of any_kind slots.now target []) ≡ Some refusal) }
    ensures known { IfErr result (λ refusal. refusal ≢ Refusal.Memory) }
{
    known(slots, target)?;
    match slots[target].kind() {
        Some(_) => Ok(()),
        None => Err(Refusal::WrongKind),
    }
}

/// A destination that has to be free.
pub(super) fn free_name(slots: &[Slot], dst: usize) -> Result<(), Refusal>
    ensures causes { MatchResult result (λ _. first_cause (free_name_causes slots.now dst []) ≡ None)
        (λ refusal. first_cause (free_name_causes slots.now dst []) ≡ Some refusal) }
    ensures known { IfErr result (λ refusal. refusal ≢ Refusal.Memory) }
{
    known(slots, dst)?;
    unused(&slots[dst])?;
    Ok(())
}

/// A source of one of these kinds that keeps its name, and a free destination.
pub(super) fn lent(kinds: &[Kind], slots: &[Slot], src: usize, dst: usize) -> Result<(), Refusal>
    ensures causes { MatchResult result (λ _. first_cause (lent_causes kinds.now slots.now src dst []) ≡ None)
        (λ refusal. first_cause (lent_causes kinds.now slots.now src dst []) ≡ Some refusal) }
    ensures known { IfErr result (λ refusal. refusal ≢ Refusal.Memory) }
{
    known(slots, src)?;
    known(slots, dst)?;
    of_kind(kinds, &slots[src])?;
    unused(&slots[dst])?;
    Ok(())
}

/// A view that keeps its name, and a free destination.
pub(super) fn lent_view(slots: &[Slot], src: usize, dst: usize) -> Result<&IoBuf, Refusal>
    ensures causes { MatchResult result
        (λ view. (first_cause (lent_causes (Kind.View ∷ []) slots.now src dst []) ≡ None)
        × (slot_named slots.now src ≡ Slot.View view.now))
        (λ refusal. first_cause (lent_causes (Kind.View ∷ []) slots.now src dst []) ≡ Some refusal) }
    ensures known { IfErr result (λ refusal. refusal ≢ Refusal.Memory) }
{
    known(slots, src)?;
    known(slots, dst)?;
    let Slot::View(view) = &slots[src] else {
        return Err(Refusal::WrongKind);
    };
    unused(&slots[dst])?;
    Ok(view)
}

/// A source of one of these kinds that is consumed, and a destination that is free or the source.
pub(super) fn moved(kinds: &[Kind], slots: &[Slot], src: usize, dst: usize) -> Result<(), Refusal>
    ensures causes { MatchResult result (λ _. first_cause (moved_causes kinds.now slots.now src dst []) ≡ None)
        (λ refusal. first_cause (moved_causes kinds.now slots.now src dst []) ≡ Some refusal) }
    ensures known { IfErr result (λ refusal. refusal ≢ Refusal.Memory) }
{
    known(slots, src)?;
    known(slots, dst)?;
    of_kind(kinds, &slots[src])?;
    if dst != src {
        unused(&slots[dst])?;
    }
    Ok(())
}
