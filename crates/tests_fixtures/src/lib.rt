// Makes the buffers of the tests, of each kind of storage in `stores`, and shows their chunks.
#![tactic(auto)]

pub mod stores;

use iobufs::bufs::IoBufs;
use iobufs::bufs_mut::IoBufsMut;
use iobufs_core::buf::{IoBuf, IoBufMut};
use iobufs_core::codec::{BufError, BufMut};
use std::alloc::{AllocError, Global};

/// The cases of a table, one a line.
#[macro_export]
macro_rules! rows {
    ($($($value:expr),+;)+) => {
        [$(($($value),+)),+]
    };
}

/// Makes a writable buffer of these bytes, with `spare` bytes of spare capacity.
pub fn part(alloc: Global, bytes: &[u8], spare: usize) -> Result<IoBufMut, BufError> {
    let Some(capacity) = bytes.len().checked_add(spare) else {
        return Err(BufError::TooLong);
    };
    let mut part = IoBufMut::with_capacity(alloc, capacity)?;
    part.put_slice(bytes);
    Ok(part)
}

/// Makes a view of native storage with these bytes, with `spare` bytes of spare capacity.
pub fn native(alloc: Global, bytes: &[u8], spare: usize) -> Result<IoBuf, BufError> {
    part(alloc, bytes, spare)?.freeze()
}

/// Makes another view of the same bytes.
pub fn twin_of(view: &IoBuf) -> Result<IoBuf, BufError> {
    Ok(view.clone()?)
}

/// Makes writable buffers, each of its bytes and its spare capacity, in order.
pub fn parts(alloc: Global, rows: &[(&[u8], usize)]) -> Result<IoBufsMut, BufError> {
    let mut parts = Vec::new(alloc);
    for (bytes, spare) in rows.iter() {
        parts.push(part(alloc, bytes, *spare)?)?;
    }
    IoBufsMut::from_parts(alloc, parts.into_iter())
}

/// Concatenates static views.
pub fn text(alloc: Global, pieces: &[&'static [u8]]) -> Result<IoBufs, BufError> {
    let mut text = IoBufs::default();
    for piece in pieces {
        text.append(alloc, IoBuf::from(*piece))?;
    }
    Ok(text)
}

/// Returns the chunks, with `|` between them.
pub fn chunks(alloc: Global, text: &IoBufs) -> Result<Vec<u8>, AllocError> {
    let mut shown = Vec::new(alloc);
    for i in 0..text.chunk_count() {
        if i > 0 {
            shown.push(b'|')?;
        }
        if let Some(chunk) = text.chunk_at(i) {
            shown.extend_from_slice(chunk)?;
        }
    }
    Ok(shown)
}

/// Tells whether these are the chunks.
pub fn shows(text: &IoBufs, chunks: &[&[u8]]) -> bool {
    if text.chunk_count() != chunks.len() {
        return false;
    }
    for (i, chunk) in chunks.iter().enumerate() {
        match text.chunk_at(i) {
            Some(shown) if shown == *chunk => (),
            _ => return false,
        }
    }
    true
}
