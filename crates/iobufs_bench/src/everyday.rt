// Everyday calls on small values: numbers, a small buffer's life, headers, frames in one view.
use crate::run::{CHUNK, Run, RunError, Sum, begun, copies, native, pattern, texts};
use iobufs::bufs::IoBufs;
use iobufs::builder::EncodeExt;
use iobufs_core::buf::{IoBuf, IoBufMut};
use iobufs_core::codec::{Buf, BufMut, RangeCfg, Read};
use std::alloc::Global;
use std::io::IoSlice;
use std::ops::Bound;

// How often most of these calls are made.
const TURNS: usize = 1000;

const RANGE: RangeCfg = RangeCfg { lo: 0, hi: 64 };

/// Reads numbers of one, two, four and eight bytes in turn from one view.
pub fn read_numbers(rt: &HostRuntime) -> Result<Run, RunError> {
    let alloc = rt.alloc();
    let whole = native(alloc, 15 * TURNS)?;
    let mut view = whole.clone()?;
    let mut sum = Sum::new();
    let start = begun(rt);
    for _ in 0..TURNS {
        sum.add(usize::from(u8::read_cfg(alloc, &mut view, &())?));
        sum.add(usize::from(u16::read_cfg(alloc, &mut view, &())?));
        sum.add(u32::read_cfg(alloc, &mut view, &())? as usize);
        sum.add(u64::read_cfg(alloc, &mut view, &())? as usize);
    }
    Ok(Run::since(rt, start, 4 * TURNS, sum))
}

/// Puts numbers of one, two, four and eight bytes in turn into one buffer.
pub fn put_numbers(rt: &HostRuntime) -> Result<Run, RunError> {
    let mut part = IoBufMut::with_capacity(rt.alloc(), 15 * TURNS)?;
    let mut sum = Sum::new();
    let start = begun(rt);
    for i in 0..TURNS {
        if part.remaining_mut() < 1 {
            return Err(RunError::Unfit);
        }
        part.put_u8((i % 256) as u8);
        if part.remaining_mut() < 2 {
            return Err(RunError::Unfit);
        }
        part.put_u16((i % 65536) as u16);
        if part.remaining_mut() < 4 {
            return Err(RunError::Unfit);
        }
        part.put_u32((i % 65536) as u32);
        if part.remaining_mut() < 8 {
            return Err(RunError::Unfit);
        }
        part.put_u64(i as u64);
    }
    sum.mark(part.as_ref());
    Ok(Run::since(rt, start, 4 * TURNS, sum))
}

/// Makes a buffer of 64 bytes, fills it, freezes it and drops the view.
pub fn new_freeze(rt: &HostRuntime) -> Result<Run, RunError> {
    let alloc = rt.alloc();
    let piece = pattern(alloc, 64)?;
    let mut sum = Sum::new();
    let start = begun(rt);
    for _ in 0..TURNS {
        let mut part = IoBufMut::with_capacity(alloc, 64)?;
        if part.remaining_mut() < piece.len() {
            return Err(RunError::Unfit);
        }
        part.put_slice(piece.as_slice());
        let view = part.freeze()?;
        sum.mark(view.as_ref());
    }
    Ok(Run::since(rt, start, TURNS, sum))
}

/// Makes views of `Vec`s of 64 bytes, and drops them.
pub fn from_vec(rt: &HostRuntime) -> Result<Run, RunError> {
    let alloc = rt.alloc();
    let mut all = Vec::with_capacity(alloc, TURNS)?;
    for _ in 0..TURNS {
        all.push(pattern(alloc, 64)?)?;
    }
    let mut sum = Sum::new();
    let start = begun(rt);
    for bytes in all {
        let view = IoBuf::from_vec(bytes)?;
        sum.mark(view.as_ref());
    }
    Ok(Run::since(rt, start, TURNS, sum))
}

/// Slices a view of 64 bytes, recovers its buffer, writes over its last four bytes, and freezes it.
pub fn slice_recover(rt: &HostRuntime) -> Result<Run, RunError> {
    let alloc = rt.alloc();
    let mut view = native(alloc, 64)?;
    let mut sum = Sum::new();
    let start = begun(rt);
    for i in 0..TURNS {
        if view.len() < 64 {
            return Err(RunError::Unfit);
        }
        let slice = view.slice(Bound::Included(8), Bound::Excluded(64))?;
        sum.mark(slice.as_ref());
        drop(slice);
        let Ok(mut part) = view.try_into_mut(alloc) else {
            return Err(RunError::Unfit);
        };
        part.truncate(60);
        if part.remaining_mut() < 4 {
            return Err(RunError::Unfit);
        }
        part.put_u32((i % 65536) as u32);
        view = part.freeze()?;
    }
    sum.mark(view.as_ref());
    Ok(Run::since(rt, start, TURNS, sum))
}

/// Joins two views.
pub fn from_array(rt: &HostRuntime) -> Result<Run, RunError> {
    let alloc = rt.alloc();
    let one = native(alloc, 64)?;
    let other = native(alloc, CHUNK)?;
    let mut sum = Sum::new();
    let start = begun(rt);
    for _ in 0..TURNS {
        let text = IoBufs::from_chunks(alloc, [one.clone()?, other.clone()?].into_iter())?;
        sum.mark(text.chunk());
    }
    Ok(Run::since(rt, start, TURNS, sum))
}

// The number of slices for one write, of the first chunks.
fn slices_of<'a>(text: &'a IoBufs) -> usize {
    let mut slices: [IoSlice<'a>; 4] = [IoSlice::new(&[]); 4];
    text.fill_slices(&mut slices)
}

// A header of eight bytes before a body, as slices for one write; both are then sent.
fn send(alloc: Global, body: &IoBuf, i: u32, sum: &mut Sum) -> Result<(), RunError> {
    let mut head = IoBufMut::with_capacity(alloc, 8)?;
    if head.remaining_mut() < 4 {
        return Err(RunError::Unfit);
    }
    head.put_u32(1024);
    if head.remaining_mut() < 4 {
        return Err(RunError::Unfit);
    }
    head.put_u32(i);
    let mut text = IoBufs::from(body.clone()?);
    text.prepend(alloc, head.freeze()?)?;
    sum.add(slices_of(&text));
    sum.mark(text.chunk());
    let len = text.len();
    text.advance(len);
    Ok(())
}

pub fn header_body(rt: &HostRuntime) -> Result<Run, RunError> {
    let alloc = rt.alloc();
    let body = native(alloc, 1024)?;
    let keep = body.clone()?;
    let mut sum = Sum::new();
    let start = begun(rt);
    for i in 0..1000u32 {
        send(alloc, &body, i, &mut sum)?;
    }
    let run = Run::since(rt, start, TURNS, sum);
    drop(keep);
    Ok(run)
}

// Frames of 60 bytes, each after its length in four bytes, in one view.
fn frames(alloc: Global) -> Result<IoBuf, RunError> {
    let body = pattern(alloc, 60)?;
    let mut part = IoBufMut::with_capacity(alloc, 64 * TURNS)?;
    for _ in 0..TURNS {
        if part.remaining_mut() < 4 {
            return Err(RunError::Unfit);
        }
        part.put_u32(60);
        if part.remaining_mut() < body.len() {
            return Err(RunError::Unfit);
        }
        part.put_slice(body.as_slice());
    }
    Ok(part.freeze()?)
}

/// Reads frames of one view: the length, and then the body as a view.
pub fn frames_view(rt: &HostRuntime) -> Result<Run, RunError> {
    let alloc = rt.alloc();
    let whole = frames(alloc)?;
    let mut view = whole.clone()?;
    let mut sum = Sum::new();
    let start = begun(rt);
    for _ in 0..TURNS {
        let len = u32::read_cfg(alloc, &mut view, &())? as usize;
        if view.len() < len {
            return Err(RunError::Unfit);
        }
        let body = view.split_to(len)?;
        sum.mark(body.as_ref());
    }
    Ok(Run::since(rt, start, TURNS, sum))
}

/// Compares views of 40 equal bytes, each in its own storage.
pub fn equal(rt: &HostRuntime) -> Result<Run, RunError> {
    let alloc = rt.alloc();
    let one = native(alloc, 40)?;
    let mut views = Vec::with_capacity(alloc, TURNS)?;
    for _ in 0..TURNS {
        views.push(native(alloc, 40)?)?;
    }
    let mut sum = Sum::new();
    let start = begun(rt);
    for view in &views {
        if *view == one {
            sum.add(1);
        }
    }
    Ok(Run::since(rt, start, TURNS, sum))
}

/// Fills slices for one write with the chunks of each `IoBufs`.
pub fn vectored(rt: &HostRuntime, n: u32) -> Result<Run, RunError> {
    let k = copies(n);
    let texts = texts(rt.alloc(), k, n)?;
    let mut slices = [IoSlice::new(&[]); 64];
    let mut sum = Sum::new();
    let start = begun(rt);
    for text in &texts {
        sum.add(text.fill_slices(&mut slices));
        sum.mark(text.chunk());
    }
    Ok(Run::since(rt, start, k, sum))
}

/// Encodes a number and a view of 64 bytes, whose bytes aren't copied.
pub fn encode_entry(rt: &HostRuntime) -> Result<Run, RunError> {
    let alloc = rt.alloc();
    let body = native(alloc, 64)?;
    let mut sum = Sum::new();
    let start = begun(rt);
    for i in 0..1000u32 {
        let text = (i, body.clone()?).encode_iobufs(alloc)?;
        sum.add(text.chunk_count());
        sum.mark(text.chunk());
    }
    Ok(Run::since(rt, start, TURNS, sum))
}

/// Decodes numbers and views of 64 bytes from one view.
pub fn decode_entry(rt: &HostRuntime) -> Result<Run, RunError> {
    let alloc = rt.alloc();
    let body = native(alloc, 64)?;
    let entry = (7u32, body).encode_iobufs(alloc)?.coalesce(alloc)?;
    let mut all = Vec::new(alloc);
    for _ in 0..TURNS {
        all.extend_from_slice(entry.as_ref())?;
    }
    let whole = IoBuf::from_vec(all)?;
    let mut view = whole.clone()?;
    let mut sum = Sum::new();
    let start = begun(rt);
    for _ in 0..TURNS {
        sum.add(u32::read_cfg(alloc, &mut view, &())? as usize);
        let body = IoBuf::read_cfg(alloc, &mut view, &RANGE)?;
        sum.mark(body.as_ref());
    }
    Ok(Run::since(rt, start, TURNS, sum))
}
