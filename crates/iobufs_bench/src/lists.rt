// The workloads on an `IoBufsMut` of n buffers.
ghost use Rattle.std.specs.Prelude.{◌≡◌, length};
ghost use Rattle.iobufs.specs.Parts.{parts_filled};

use crate::run::{CHUNK, Run, RunError, Sum, begun, copies, lists, parts, pattern};
use crate::turns::put_turns;
use iobufs::bufs_mut::IoBufsMut;
use iobufs_core::buf::IoBufMut;
use iobufs_core::codec::Buf;

pub fn put(rt: &HostRuntime, n: u32, size: u32) -> Result<Run, RunError> {
    let alloc = rt.alloc();
    let k = copies(n);
    let mut lists = lists(alloc, k, n, 0)?;
    let piece = pattern(alloc, size as usize)?;
    let turns = (n as usize * CHUNK).checked_div(size as usize).unwrap_or(0);
    let start = begun(rt);
    for list in &mut lists {
        put_turns(list, piece.as_slice(), turns)?;
    }
    let mut run = Run::since(rt, start, k.saturating_mul(turns), Sum::new());
    for list in &lists {
        run.sum.add(list.len());
    }
    Ok(run)
}

pub fn freeze(rt: &HostRuntime, n: u32) -> Result<Run, RunError> {
    let alloc = rt.alloc();
    let k = copies(n);
    let lists = lists(alloc, k, n, CHUNK)?;
    let mut kept = Vec::with_capacity(alloc, k)?;
    let start = begun(rt);
    for list in lists {
        kept.push(list.freeze(alloc)?)?;
    }
    let mut run = Run::since(rt, start, k, Sum::new());
    for text in &kept {
        run.sum.add(text.len());
        run.sum.mark(text.chunk());
    }
    Ok(run)
}

/// Makes one buffer of `n`, each of which has this many of its 256 bytes filled.
pub fn coalesce(rt: &HostRuntime, n: u32, filled: usize) -> Result<Run, RunError> {
    let alloc = rt.alloc();
    let k = copies(n);
    let lists = lists(alloc, k, n, filled)?;
    let mut kept = Vec::with_capacity(alloc, k)?;
    let start = begun(rt);
    for list in lists {
        kept.push(list.coalesce(alloc)?)?;
    }
    let mut run = Run::since(rt, start, k, Sum::new());
    for part in &kept {
        run.sum.mark(part.as_ref());
    }
    Ok(run)
}

// Writes over all bytes so many times.
#[tactic(auto, using(crate::proofs::Overwritten::length_overwritten))]
fn overwrite_turns(list: &mut IoBufsMut, source: &[u8], turns: usize)
    requires { length source.now ≡ length (parts_filled list.old) }
{
    'turns: for _ in 0..turns {
        list.copy_from_slice(source);
    }
}

pub fn overwrite(rt: &HostRuntime, n: u32) -> Result<Run, RunError> {
    let alloc = rt.alloc();
    let k = copies(n);
    let source = pattern(alloc, n as usize * CHUNK)?;
    let mut list = parts(alloc, n, CHUNK)?;
    if source.len() != list.len() {
        return Err(RunError::Unfit);
    }
    let mut sum = Sum::new();
    let start = begun(rt);
    overwrite_turns(&mut list, source.as_slice(), k);
    sum.mark(list.chunk());
    Ok(Run::since(rt, start, k, sum))
}

/// Keeps `n` writable buffers: for the bytes that each requests.
pub fn hold(rt: &HostRuntime, n: u32) -> Result<Run, RunError> {
    let alloc = rt.alloc();
    let start = begun(rt);
    let mut kept = Vec::with_capacity(alloc, n as usize)?;
    for _ in 0..n {
        kept.push(IoBufMut::with_capacity(alloc, CHUNK)?)?;
    }
    let mut run = Run::since(rt, start, n as usize, Sum::new());
    run.sum.add(kept.len());
    Ok(run)
}
