// The command that shows what a name holds.
ghost use Rattle.std.specs.Prelude.{◌≡◌, ◌≢◌, ◌∷◌, [], map, IfOk, IsOkUnless, Err};
ghost use Rattle.iobufs_run.specs.declared.command.Cmd.{Cmd};
ghost use Rattle.iobufs_run.specs.Run.{Step, reply_of};
ghost use Rattle.iobufs_run.specs.Slots.{Shows, shown_piece};
ghost use Rattle.iobufs_core.specs.MarkedText.{text_chunks};

use super::Slot;
use super::causes::known;
use crate::command::{Kind, Outcome, Piece, Refusal, Reply};
use iobufs::bufs::IoBufs;
use iobufs::bufs_mut::IoBufsMut;
use iobufs_core::codec::BufMut;
use std::alloc::{AllocError, Global};

// One chunk, with a copy of these bytes.
fn one_piece(alloc: Global, bytes: &[u8], spare: usize) -> Result<Vec<Piece>, AllocError>
    ensures { IfOk result (λ pieces. map shown_piece pieces.items ≡ (bytes.now, spare) ∷ []) }
{
    let bytes = Vec::from_slice(alloc, bytes)?;
    let mut pieces = Vec::with_capacity(alloc, 1)?;
    pieces.push(Piece { bytes, spare })?;
    Ok(pieces)
}

// A copy of each chunk.
fn chunks(alloc: Global, text: &IoBufs) -> Result<Vec<Piece>, AllocError>
    ensures { IfOk result (λ pieces. map shown_piece pieces.items ≡ map (λ chunk. (chunk, 0)) (text_chunks text.now)) }
{
    let mut pieces = Vec::new(alloc);
    while let Some(chunk) = text.chunk_at(pieces.len()) {
        let bytes = Vec::from_slice(alloc, chunk)?;
        pieces.push(Piece { bytes, spare: 0 })?;
    }
    Ok(pieces)
}

// A copy of each part, with its spare capacity.
fn parts_shown(alloc: Global, parts: &IoBufsMut) -> Result<Vec<Piece>, AllocError>
    ensures { IfOk result (λ pieces. map shown_piece pieces.items ≡ map (λ part. (part.filled, part.spare)) parts.now) }
{
    let mut pieces = Vec::new(alloc);
    while let Some(part) = parts.part_at(pieces.len()) {
        let bytes = Vec::from_slice(alloc, part.as_ref())?;
        let spare = part.remaining_mut();
        pieces.push(Piece { bytes, spare })?;
    }
    Ok(pieces)
}

// The kind and the chunks of a slot's buffer, as they are shown.
fn shown(alloc: Global, slot: &Slot) -> Result<(Kind, Vec<Piece>), Refusal>
    ensures ok { IfOk result (λ shown. Shows slot.now shown.0 (map shown_piece shown.1.items)) }
    ensures free { slot.now ≡ Slot.Free → result ≡ Err Refusal.WrongKind }
    ensures held { slot.now ≢ Slot.Free → IsOkUnless result Refusal.Memory }
{
    match slot {
        Slot::Free => Err(Refusal::WrongKind),
        Slot::Part(part) => Ok((
            Kind::Part,
            one_piece(alloc, part.as_ref(), part.remaining_mut())?,
        )),
        Slot::View(view) => Ok((Kind::View, one_piece(alloc, view.as_ref(), 0)?)),
        Slot::Text(text) => Ok((Kind::Text, chunks(alloc, text)?)),
        Slot::Parts(parts) => Ok((Kind::Parts, parts_shown(alloc, parts)?)),
    }
}

pub(super) fn show(alloc: Global, slots: &[Slot], target: usize) -> Outcome
    ensures { Step slots.now (Cmd.Show target) (reply_of result) slots.now }
{
    known(slots, target)?;
    let (kind, pieces) = shown(alloc, &slots[target])?;
    Ok(Reply::Shown { kind, pieces })
}
