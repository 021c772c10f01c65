// How native storage is made and taken apart.
ghost use Rattle.std.specs.Prelude.{◌≡◌, ◌≤◌, ◌-◌, length, drop, IfOk, MatchResult};
ghost use Rattle.iobufs_core.specs.Native.{IsSpace};
ghost use Rattle.iobufs_core.specs.Part.{part_capacity};

use super::IoBufMut;
use super::block::{Block, Shell, Space};
use super::held::Native;
use bytes::Bytes;
use std::alloc::{AllocError, Global};

/// Native storage made of a writable buffer's: the bytes from `start` on.
#[inline(always)]
pub(super) fn frozen(
    alloc: Global,
    shell: Shell,
    space: Space,
    start: usize,
) -> Result<Native, AllocError>
    requires { IsSpace space × (start ≤ length space.filled) }
    ensures { IfOk result (λ n. n ≡ record { bytes = drop start space.filled; room = part_capacity space - start }) }
{
    let len = space.len() - start;
    Ok(Native {
        block: Block::new(alloc, shell, space)?,
        start,
        len,
    })
}

/// The bytes as a `Bytes`: in their storage if no other handle has the block and its capacity ends with them, else a
/// copy. If allocation fails, the range comes back.
pub(super) fn into_bytes(native: Native, alloc: Global) -> Result<Bytes, Native>
    ensures { MatchResult result (λ bytes. bytes ≡ native.bytes) (λ n. n ≡ native) }
{
    let Native {
        mut block,
        start,
        len,
    } = native;
    if start + len == block.capacity() {
        match block.into_bytes(alloc) {
            Ok(Ok(mut bytes)) => {
                bytes.advance(start);
                return Ok(bytes);
            }
            Ok(Err(block)) => {
                return Err(Native { block, start, len });
            }
            Err(shared) => block = shared,
        }
    }
    match Bytes::copy_from_slice(alloc, &block.as_slice()[start..start + len]) {
        Ok(bytes) => Ok(bytes),
        Err(_) => Err(Native { block, start, len }),
    }
}

/// The bytes as a writable buffer, if no other handle has their block; else the range comes back.
pub(super) fn try_into_mut(native: Native) -> Result<IoBufMut, Native>
    ensures { MatchResult result (λ b. b ≡ record { filled = native.bytes; spare = native.room - length native.bytes })
        (λ n. n ≡ native) }
{
    let Native { block, start, len } = native;
    match block.take() {
        Ok((mut space, shell)) => {
            space.truncate(start + len);
            Ok(IoBufMut::from_space(space, start, shell))
        }
        Err(block) => Err(Native { block, start, len }),
    }
}
