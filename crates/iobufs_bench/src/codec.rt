// The workloads that encode and decode.
use crate::run::{Run, RunError, Sum, begun, cut, native};
use iobufs::bufs::IoBufs;
use iobufs::builder::{Builder, EncodeExt};
use iobufs_core::buf::IoBuf;
use iobufs_core::codec::{Buf, BufMut, BufsMut, OwnedBuf, RangeCfg, Read};
use std::alloc::Global;

/// A place where no `IoBufs` is cut.
pub const NO_CUT: usize = 1_073_741_824;

const RANGE: RangeCfg = RangeCfg {
    lo: 0,
    hi: 1_048_576,
};

pub fn encode(rt: &HostRuntime) -> Result<Run, RunError> {
    let alloc = rt.alloc();
    let view = native(alloc, 64)?;
    let keep = view.clone()?;
    let mut sum = Sum::new();
    let start = begun(rt);
    for _ in 0..1000 {
        let text = view.encode_iobufs(alloc)?;
        sum.add(text.chunk_count());
        sum.mark(text.chunk());
    }
    let run = Run::since(rt, start, 1000, sum);
    drop(keep);
    Ok(run)
}

fn record(builder: &mut Builder, view: &IoBuf, i: u16) -> Result<(), RunError> {
    if builder.remaining_mut() < 2 {
        return Err(RunError::Unfit);
    }
    builder.put_u16(i);
    builder.push(view.clone()?)?;
    if builder.remaining_mut() < 4 {
        return Err(RunError::Unfit);
    }
    builder.put_u32(7);
    Ok(())
}

pub fn build(rt: &HostRuntime) -> Result<Run, RunError> {
    let alloc = rt.alloc();
    let view = native(alloc, 64)?;
    let keep = view.clone()?;
    let mut sum = Sum::new();
    let start = begun(rt);
    for _ in 0..50 {
        let mut builder = Builder::new(alloc, 384)?;
        for i in 0..64u16 {
            record(&mut builder, &view, i)?;
        }
        let text = builder.finish()?;
        sum.add(text.chunk_count());
        sum.mark(text.chunk());
    }
    let run = Run::since(rt, start, 3200, sum);
    drop(keep);
    Ok(run)
}

// Cuts the bytes into views of `piece` bytes each; the last may be shorter.
fn cut_up(alloc: Global, all: Vec<u8>, piece: usize) -> Result<Vec<IoBuf>, RunError> {
    let mut rest = IoBuf::from_vec(all)?;
    let mut views = Vec::new(alloc);
    for _ in 0..rest.len() {
        let len = piece.min(rest.len());
        views.push(rest.split_to(len)?)?;
        if rest.is_empty() {
            break;
        }
    }
    Ok(views)
}

fn frames(alloc: Global, count: usize, len: usize, piece: usize) -> Result<IoBufs, RunError> {
    let body = native(alloc, len)?;
    let mut all = Vec::new(alloc);
    for _ in 0..count {
        let frame = body.encode_iobufs(alloc)?.coalesce(alloc)?;
        all.extend_from_slice(frame.as_ref())?;
    }
    Ok(IoBufs::from_chunks(alloc, cut_up(alloc, all, piece)?.into_iter())?)
}

fn decode(alloc: Global, text: &mut IoBufs, count: usize, sum: &mut Sum) -> Result<(), RunError> {
    for _ in 0..count {
        if !text.has_remaining() {
            return Err(RunError::Unfit);
        }
        let view = IoBuf::read_cfg(alloc, text, &RANGE)?;
        sum.mark(view.as_ref());
    }
    Ok(())
}

fn take_frames(
    alloc: Global,
    text: &mut IoBufs,
    count: usize,
    sum: &mut Sum,
) -> Result<(), RunError> {
    for _ in 0..count {
        if !text.has_remaining() {
            return Err(RunError::Unfit);
        }
        let len = usize::read_cfg(alloc, text, &RANGE)?;
        if text.len() < len {
            return Err(RunError::Unfit);
        }
        let view: IoBuf = text.take_owned(alloc, len)?;
        sum.mark(view.as_ref());
    }
    Ok(())
}

fn sources(alloc: Global, count: usize, len: usize, piece: usize) -> Result<Vec<IoBufs>, RunError> {
    let source = frames(alloc, count, len, piece)?;
    let mut texts = Vec::with_capacity(alloc, 4)?;
    for _ in 0..4 {
        texts.push(source.clone()?)?;
    }
    Ok(texts)
}

// Reads so many frames: as one value, or the length and then the bytes.
fn read_all(
    alloc: Global,
    text: &mut IoBufs,
    count: usize,
    is_take: bool,
    sum: &mut Sum,
) -> Result<(), RunError> {
    if is_take {
        return take_frames(alloc, text, count, sum);
    }
    decode(alloc, text, count, sum)
}

pub fn decoding(
    rt: &HostRuntime,
    count: usize,
    len: usize,
    piece: usize,
    is_take: bool,
) -> Result<Run, RunError> {
    let alloc = rt.alloc();
    let mut texts = sources(alloc, count, len, piece)?;
    let mut sum = Sum::new();
    let start = begun(rt);
    for text in &mut texts {
        read_all(alloc, text, count, is_take, &mut sum)?;
    }
    Ok(Run::since(rt, start, count.saturating_mul(4), sum))
}

// Encodes a view, and appends each chunk.
#[inline(always)]
fn append_frame(alloc: Global, body: &IoBuf, wire: &mut IoBufs) -> Result<(), RunError> {
    let mut text = body.encode_iobufs(alloc)?;
    for _ in 0..text.chunk_count() {
        let n = text.chunk().len();
        if text.len() < n {
            return Err(RunError::Unfit);
        }
        let piece: IoBuf = text.take_owned(alloc, n)?;
        wire.append(alloc, piece)?;
    }
    Ok(())
}

// Encodes views of many lengths, and appends each chunk to one `IoBufs`.
fn wired(alloc: Global, master: &IoBuf) -> Result<IoBufs, RunError> {
    let mut wire = IoBufs::default();
    for i in 0..1000usize {
        append_frame(alloc, &cut(master, 0, i * 37 % 1400 + 1)?, &mut wire)?;
    }
    Ok(wire)
}

pub fn there_and_back(rt: &HostRuntime, is_take: bool) -> Result<Run, RunError> {
    let alloc = rt.alloc();
    let master = native(alloc, 1400)?;
    let mut sum = Sum::new();
    let start = begun(rt);
    let mut wire = wired(alloc, &master)?;
    read_all(alloc, &mut wire, 1000, is_take, &mut sum)?;
    drop(wire);
    Ok(Run::since(rt, start, 1000, sum))
}

// How many bytes a proxy sends at once.
const SENT: usize = 16_384;

// The lengths of a proxy's frames. Of ten, four have less than 64 bytes, three 200 to 1,399, two 1,400, and one 16 KiB.
fn proxied_len(i: u32) -> usize {
    let n = i as usize;
    match n % 10 {
        0..=3 => n % 56 + 8,
        4..=6 => n * 37 % 1200 + 200,
        7 | 8 => 1400,
        _ => SENT,
    }
}

// The frames that a proxy receives, in views of 1,400 bytes.
fn received(alloc: Global, count: u32) -> Result<Vec<IoBuf>, RunError> {
    let mut all = Vec::new(alloc);
    for i in 0..count {
        let frame = native(alloc, proxied_len(i))?
            .encode_iobufs(alloc)?
            .coalesce(alloc)?;
        all.extend_from_slice(frame.as_ref())?;
    }
    cut_up(alloc, all, 1400)
}

// Reads a frame, encodes it, and sends 16 KiB if there are so many bytes.
#[inline(always)]
fn pass_on(
    alloc: Global,
    input: &mut IoBufs,
    output: &mut IoBufs,
    sum: &mut Sum,
) -> Result<(), RunError> {
    let frame = IoBuf::read_cfg(alloc, input, &RANGE)?;
    sum.mark(frame.as_ref());
    append_frame(alloc, &frame, output)?;
    if output.len() >= SENT {
        sum.mark(output.chunk());
        output.advance(SENT);
    }
    Ok(())
}

/// Receives frames of mixed lengths, and passes on each that is whole.
pub fn proxy(rt: &HostRuntime) -> Result<Run, RunError> {
    let alloc = rt.alloc();
    let views = received(alloc, 1000)?;
    let mut input = IoBufs::default();
    let mut output = IoBufs::default();
    let mut sum = Sum::new();
    let mut next = 0u32;
    let start = begun(rt);
    for view in views {
        input.append(alloc, view)?;
        for _ in 0..1000 {
            // The length itself takes at most three bytes.
            if input.len() < proxied_len(next).saturating_add(3) {
                break;
            }
            pass_on(alloc, &mut input, &mut output, &mut sum)?;
            next = next.saturating_add(1);
        }
    }
    sum.add(output.len());
    drop(input);
    drop(output);
    Ok(Run::since(rt, start, 1000, sum))
}
