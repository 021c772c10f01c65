// Where bytes are stored.
use crate::{native, part, twin_of};
use bytes::{Bytes, BytesMut};
use iobufs::bufs::IoBufs;
use iobufs_core::buf::{IoBuf, IoBufMut};
use iobufs_core::codec::{Buf, BufError, BufMut};
use std::alloc::Global;

/// Where the bytes of a view are stored.
#[derive(Clone, Copy, Debug)]
pub enum Store {
    Static,
    StaticBytes,
    Bytes,
    SharedBytes,
    // Native storage without spare capacity.
    Full,
    SharedFull,
    // Native storage with spare capacity.
    Roomy,
    // Native storage with spare capacity, whose front is dropped.
    Advanced,
    Aligned,
    // The first half of native storage, whose rest is another view.
    Half,
    // The second half, alone.
    LoneHalf,
    // Native, drained.
    Emptied,
}

pub const STORES: [Store; 12] = [
    Store::Static,
    Store::StaticBytes,
    Store::Bytes,
    Store::SharedBytes,
    Store::Full,
    Store::SharedFull,
    Store::Roomy,
    Store::Advanced,
    Store::Aligned,
    Store::Half,
    Store::LoneHalf,
    Store::Emptied,
];

fn aligned(alloc: Global, bytes: &[u8]) -> Result<IoBufMut, BufError> {
    let mut part = IoBufMut::with_alignment(alloc, bytes.len(), 4096)?;
    if part.remaining_mut() >= bytes.len() {
        part.put_slice(bytes);
    }
    Ok(part)
}

// Native storage that holds the bytes twice, with room for so many more.
fn twice(alloc: Global, bytes: &[u8], more: usize) -> Result<IoBufMut, BufError> {
    let n = bytes.len();
    let mut twice = part(alloc, bytes, n.saturating_add(more))?;
    if twice.remaining_mut() >= n {
        twice.put_slice(bytes);
    }
    Ok(twice)
}

fn advanced(alloc: Global, bytes: &[u8]) -> Result<IoBufMut, BufError> {
    let mut part = twice(alloc, bytes, bytes.len())?;
    if part.remaining() >= bytes.len() {
        part.advance(bytes.len());
    }
    Ok(part)
}

// Both halves of native storage that holds the bytes twice.
fn halves(alloc: Global, bytes: &[u8]) -> Result<(IoBuf, IoBuf), BufError> {
    let n = bytes.len();
    let mut back = twice(alloc, bytes, 0)?.freeze()?;
    if back.len() < n {
        return Err(BufError::TooLong);
    }
    Ok((back.split_to(n)?, back))
}

fn drained(mut view: IoBuf) -> IoBuf {
    view.advance(view.remaining());
    view
}

/// Returns a view, and the other handle of its storage, or else the empty view.
pub fn stored(
    alloc: Global,
    kind: Store,
    bytes: &'static [u8],
) -> Result<(IoBuf, IoBuf), BufError> {
    let view = match kind {
        Store::Static => IoBuf::from(bytes),
        Store::StaticBytes => IoBuf::from(Bytes::from_static(bytes)),
        Store::Bytes | Store::SharedBytes => IoBuf::from(Bytes::copy_from_slice(alloc, bytes)?),
        Store::Emptied => drained(IoBuf::copy_from_slice(alloc, bytes)?),
        Store::Full | Store::SharedFull => IoBuf::copy_from_slice(alloc, bytes)?,
        Store::Roomy => native(alloc, bytes, bytes.len())?,
        Store::Advanced => advanced(alloc, bytes)?.freeze()?,
        Store::Aligned => aligned(alloc, bytes)?.freeze()?,
        Store::Half => return halves(alloc, bytes),
        Store::LoneHalf => halves(alloc, bytes)?.1,
    };
    match kind {
        Store::SharedBytes | Store::SharedFull => Ok((twin_of(&view)?, view)),
        _ => Ok((view, IoBuf::default())),
    }
}

/// How a writable buffer is made.
#[derive(Clone, Copy, Debug)]
pub enum Origin {
    Roomy,
    Advanced,
    Aligned,
    Full,
    List,
    Bytes,
    // The rest of a `BytesMut` whose front is dropped.
    BytesMut,
}

/// All of them.
pub const ORIGINS: [Origin; 7] = [
    Origin::Roomy,
    Origin::Advanced,
    Origin::Aligned,
    Origin::Full,
    Origin::List,
    Origin::Bytes,
    Origin::BytesMut,
];

/// Returns both halves of a block that holds the bytes twice.
pub fn block(alloc: Global, bytes: &[u8]) -> Result<(BytesMut, BytesMut), BufError> {
    let mut both = BytesMut::copy_from_slice(alloc, bytes)?;
    both.extend_from_slice(bytes)?;
    if both.len() < bytes.len() {
        return Err(BufError::TooLong);
    }
    let rest = both.split_off(bytes.len())?;
    Ok((both, rest))
}

/// Makes a writable buffer of the bytes, in this way.
pub fn stored_part(alloc: Global, origin: Origin, bytes: &[u8]) -> Result<IoBufMut, BufError> {
    match origin {
        Origin::Roomy => part(alloc, bytes, bytes.len()),
        Origin::Advanced => advanced(alloc, bytes),
        Origin::Aligned => aligned(alloc, bytes),
        Origin::Full => IoBufMut::copy_from_slice(alloc, bytes),
        Origin::List => Ok(IoBufMut::from(Vec::from_slice(alloc, bytes)?)),
        Origin::Bytes => IoBufMut::from_bytes(alloc, Bytes::copy_from_slice(alloc, bytes)?),
        Origin::BytesMut => IoBufMut::from_bytes_mut(block(alloc, bytes)?.1),
    }
}

/// Cuts the bytes into chunks of `len` bytes; fewer than these at the end are left out.
pub fn cut(alloc: Global, bytes: &'static [u8], len: usize) -> Result<Vec<IoBuf>, BufError> {
    let count = bytes.len().checked_div(len).unwrap_or(0);
    let mut views = Vec::with_capacity(alloc, count)?;
    let mut rest = bytes;
    for _ in 0..count {
        let (chunk, after) = rest.split_at(len.min(rest.len()));
        views.push(IoBuf::from(chunk))?;
        rest = after;
    }
    Ok(views)
}

/// Concatenates the chunks, each in native storage of its own; for `Store::Static` they are slices of the bytes.
pub fn text(
    alloc: Global,
    kind: Store,
    bytes: &'static [u8],
    len: usize,
) -> Result<IoBufs, BufError> {
    let mut text = IoBufs::default();
    for view in cut(alloc, bytes, len)? {
        let view = match kind {
            Store::Static => view,
            _ => IoBuf::copy_from_slice(alloc, view.as_ref())?,
        };
        text.append(alloc, view)?;
    }
    Ok(text)
}

/// Makes writable buffers of the chunks.
pub fn parts_of(
    alloc: Global,
    bytes: &'static [u8],
    len: usize,
) -> Result<Vec<IoBufMut>, BufError> {
    let mut parts = Vec::new(alloc);
    for view in cut(alloc, bytes, len)? {
        parts.push(IoBufMut::copy_from_slice(alloc, view.as_ref())?)?;
    }
    Ok(parts)
}
