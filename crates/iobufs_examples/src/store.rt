// Parts that are filled by a reader.
ghost use Rattle.std.specs.Prelude.{◌≡◌, ◌⊎◌, ℕ, ◌+◌, ◌<◌, ◌≤◌, List, length, IfOk, IsOk, OnErr, OnOk};
ghost use Rattle.std.specs.Io.KnownBytes.{Consumes, IsAtEnd};
ghost use Rattle.iobufs.specs.Sending.{IsStored};
ghost use Rattle.iobufs.specs.Parts.{parts_capacity, parts_spare};

use iobufs::bufs::IoBufs;
use iobufs::bufs_mut::IoBufsMut;
use iobufs_core::codec::BufMut;
use std::alloc::Global;
use std::io::{self, ErrorKind, Read};

// Reads at most 512 bytes into the spare capacity of the buffers, if there is some, and returns how many came.
#[tactic(auto, using(iobufs::proofs::CallerFacts::storing))]
fn fill_once<R: Read>(from: &mut R, parts: &mut IoBufsMut) -> io::Result<usize>
    ensures stored { IsStored (R.remaining from.old) (R.remaining from.new) parts.old parts.new }
    ensures room { IfOk result (λ n. parts_spare parts.old ≡ n + parts_spare parts.new) }
    ensures left { OnErr result (0 < parts_spare parts.new) }
    ensures end { IfOk result (λ n. n ≡ 0 → (parts_spare parts.new ≡ 0) ⊎ IsAtEnd (R.remaining from.new)) }
{
    let room = parts.remaining_mut();
    if room == 0 {
        return Ok(0);
    }
    let mut bytes = [0; 512];
    let most = bytes.len().min(room);
    let n = from.read(&mut bytes[..most])?;
    parts.put_slice(&bytes[..n]);
    Ok(n)
}

/// Reads into the spare capacity of the buffers until it is full, or the reader has no more. The buffers hold all bytes
/// that were read, whatever the result: it may be called again. An error is the reader's, and comes only while there is
/// spare capacity.
#[tactic(auto, using(iobufs::proofs::CallerFacts::storing))]
pub fn fill<R: Read>(from: &mut R, parts: &mut IoBufsMut) -> io::Result<()>
    ensures stored { IsStored (R.remaining from.old) (R.remaining from.new) parts.old parts.new }
    ensures left { OnErr result (0 < parts_spare parts.new) }
    ensures done { OnOk result ((parts_spare parts.new ≡ 0) ⊎ IsAtEnd (R.remaining from.new)) }
{
    while fill_once(from, parts)? != 0 {}
    Ok(())
}

/// Fills the parts with what a reader has, from their first byte on, and freezes them: until they are full, or the
/// reader has no more. After an error the bytes that were read are lost, at most as many as the parts hold.
#[tactic(auto, using(iobufs::proofs::CallerFacts::storing))]
pub fn store<R: Read>(alloc: Global, from: &mut R, mut parts: IoBufsMut) -> io::Result<IoBufs>
    ensures bytes { IfOk result (λ text. Consumes (R.remaining from.old) (R.remaining from.new) text.bytes) }
    ensures done { IfOk result (λ text. (length text.bytes ≡ parts_capacity parts) ⊎ IsAtEnd (R.remaining from.new)) }
    ensures lost { OnErr result ((read : List ℕ) × (length read ≤ parts_capacity parts)
        × Consumes (R.remaining from.old) (R.remaining from.new) read) }
    ensures nothing { parts_capacity parts ≡ 0 → IsOk result }
{
    parts.set_len(0);
    fill(from, &mut parts)?;
    let Ok(text) = parts.freeze(alloc) else {
        return Err(io::Error::from(ErrorKind::OutOfMemory));
    };
    Ok(text)
}
