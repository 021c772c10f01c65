// Calls on any reader or writer, so many times, and the workloads on several readers of `n` chunks.
use crate::run::{CHUNK, Run, RunError, Sum, begun};
use iobufs_core::codec::{Buf, BufMut};
use std::alloc::Global;

/// Puts the same bytes so many times.
pub fn put_turns<B: BufMut>(buf: &mut B, piece: &[u8], turns: usize) -> Result<(), RunError> {
    let mut room = buf.remaining_mut();
    'turns: for _ in 0..turns {
        if room < piece.len() {
            return Err(RunError::Unfit);
        }
        buf.put_slice(piece);
        room -= piece.len();
    }
    Ok(())
}

/// Advances by 100 so many times, and then by the rest.
pub fn advance_turns<B: Buf>(buf: &mut B, turns: usize, sum: &mut Sum) -> Result<(), RunError> {
    let mut left = buf.remaining();
    'turns: for _ in 0..turns {
        if left < 100 {
            return Err(RunError::Unfit);
        }
        buf.advance(100);
        left -= 100;
        sum.mark(buf.chunk());
    }
    buf.advance(left);
    Ok(())
}

/// Takes `size` bytes out so many times.
pub fn take_turns<B: Buf>(
    alloc: Global,
    buf: &mut B,
    turns: usize,
    size: usize,
    sum: &mut Sum,
) -> Result<(), RunError> {
    let mut left = buf.remaining();
    'turns: for _ in 0..turns {
        if left < size {
            return Err(RunError::Unfit);
        }
        let bytes = buf.copy_to_bytes(alloc, size)?;
        left -= size;
        sum.mark(bytes.as_slice());
    }
    Ok(())
}

/// Reads so many chunks, each to its end.
pub fn read_turns<B: Buf>(buf: &mut B, turns: usize, sum: &mut Sum) {
    'turns: for _ in 0..turns {
        let chunk = buf.chunk();
        sum.mark(chunk);
        let len = chunk.len();
        buf.advance(len);
    }
}

pub fn advance100<B: Buf + Drop>(
    rt: &HostRuntime,
    n: u32,
    mut bufs: Vec<B>,
) -> Result<Run, RunError> {
    let turns = n as usize * CHUNK / 100;
    let ops = bufs.len().saturating_mul(turns + 1);
    let mut sum = Sum::new();
    let start = begun(rt);
    for buf in &mut bufs {
        advance_turns(buf, turns, &mut sum)?;
    }
    Ok(Run::since(rt, start, ops, sum))
}

pub fn take<B: Buf + Drop>(
    rt: &HostRuntime,
    n: u32,
    size: u32,
    mut bufs: Vec<B>,
) -> Result<Run, RunError> {
    let alloc = rt.alloc();
    let turns = (n as usize * CHUNK).checked_div(size as usize).unwrap_or(0);
    let ops = bufs.len().saturating_mul(turns);
    let mut sum = Sum::new();
    let start = begun(rt);
    for buf in &mut bufs {
        take_turns(alloc, buf, turns, size as usize, &mut sum)?;
    }
    Ok(Run::since(rt, start, ops, sum))
}

/// Reads chunk by chunk, to the end.
pub fn drain<B: Buf + Drop>(rt: &HostRuntime, n: u32, mut bufs: Vec<B>) -> Result<Run, RunError> {
    let ops = bufs.len().saturating_mul(n as usize);
    let mut sum = Sum::new();
    let start = begun(rt);
    for buf in &mut bufs {
        read_turns(buf, n as usize, &mut sum);
    }
    Ok(Run::since(rt, start, ops, sum))
}
