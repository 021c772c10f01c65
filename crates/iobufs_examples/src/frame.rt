// Frames: a length followed by a body, in order.
ghost use Rattle.std.specs.Prelude.{◌≡◌, ◌^◌, ◌<◌, ◌≤◌, ◌++◌, List, ℕ, length, IfOk, IsOkUnless, OnErr};
ghost use Rattle.iobufs_core.specs.ReadBack.{AreReadBack};
ghost use Rattle.iobufs_core.specs.Wire.{bytes_written};

use iobufs::bufs::IoBufs;
use iobufs::builder::EncodeExt;
use iobufs_core::buf::IoBuf;
use iobufs_core::codec::{Error, RangeCfg, Read};
use std::alloc::Global;

// [docs: frame]
/// Encodes a body as a frame that shares its bytes.
#[tactic(auto, using(iobufs_core::proofs::CallerFacts::writing))]
pub fn frame(alloc: Global, body: &IoBuf) -> Result<IoBufs, Error>
    ensures bytes { IfOk result (λ text. text.bytes ≡ bytes_written body.now.bytes) }
    ensures memory { length body.now.bytes < 2 ^ 63 → IsOkUnless result Error.Memory }
{
    body.encode_iobufs(alloc)
}
// [docs end]

// [docs: read_frame]
/// Takes a frame's body of at most `most` bytes from the front. If it fails, `text` is unchanged.
#[tactic(auto, using(iobufs_core::proofs::CallerFacts::reading))]
pub fn read_frame(alloc: Global, text: &mut IoBufs, most: usize) -> Result<IoBuf, Error>
    ensures framed { IfOk result (λ body. text.old.bytes ≡ bytes_written body.bytes ++ text.new.bytes) }
    ensures short { IfOk result (λ body. length body.bytes ≤ most) }
    ensures unchanged { OnErr result (text.new ≡ text.old) }
    ensures back { (body rest : List ℕ) → length body ≤ most → text.old.bytes ≡ bytes_written body ++ rest
        → AreReadBack body rest text.new.bytes result }
{
    IoBuf::read_cfg(alloc, text, &RangeCfg { lo: 0, hi: most })
}
// [docs end]

/// Encodes a body as a frame and reads it back; nothing is left.
pub fn echo(alloc: Global, body: &IoBuf) -> Result<IoBuf, Error>
    ensures bytes { IfOk result (λ read. read.bytes ≡ body.now.bytes) }
    ensures memory { length body.now.bytes < 2 ^ 63 → IsOkUnless result Error.Memory }
{
    let mut text = frame(alloc, body)?;
    read_frame(alloc, &mut text, body.len())
}
