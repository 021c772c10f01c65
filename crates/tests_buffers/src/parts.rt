// Writable buffers.
use crate::same::assert_same;
use bytes::{Bytes, BytesMut};
use iobufs_core::buf::{IoBuf, IoBufMut};
use iobufs_core::codec::BufError;
use std::alloc::Global;
use std::test::Fail;
use tests_fixtures::part;

#[test]
fn bytes_are_written_over(rt: HostRuntime) -> Result<(), Fail> {
    let mut part = IoBufMut::copy_from_slice(rt.alloc(), b"abc")?;
    part.as_mut()[1] = b'x';
    assert_same!(rt; part.as_ref(), b"axc".as_slice());
    Ok(())
}

#[test]
fn an_adopted_block_is_kept(rt: HostRuntime) -> Result<(), Fail> {
    let view = IoBuf::from_bytes_mut(BytesMut::copy_from_slice(rt.alloc(), b"abc")?)?;
    let declined = view.try_into_mut(rt.alloc()).err();
    let bytes = declined.as_ref().map(|view| view.as_ref());
    assert_same!(rt; bytes, Some(b"abc".as_slice()));
    Ok(())
}

// The value that becomes a writable buffer.
#[derive(Clone, Copy, Debug)]
enum Adopted {
    // A `Bytes` of a list with this capacity.
    List(usize),
    // A `Bytes` from this place on.
    Rest(usize),
    // A `Bytes` with a clone.
    Shared,
    // A `Bytes` of a static slice.
    Static,
    // A `BytesMut` with this capacity, and the bytes from this place on.
    Block(usize, usize),
    // A `BytesMut` whose bytes from this place on are another one.
    Split(usize),
    // A view of native storage with so much spare capacity.
    View(usize),
    // Such a view with a clone.
    SharedView(usize),
    // A static view.
    StaticView,
}

// The adopted value, its bytes, those of the writable buffer, and its capacity. This is the capacity of the storage if
// no other handle shares it, and else that of a copy. A `Bytes` of an empty list has no storage.
const ADOPTED: [(Adopted, &'static [u8], &'static [u8], usize); 14] = [
    // The capacity of an adopted list.
    (Adopted::List(100), b"abc", b"abc", 100),
    (Adopted::List(5), b"exact", b"exact", 5),
    (Adopted::List(64), b"", b"", 0),
    // The capacity of an adopted rest.
    (Adopted::Rest(7), b"prefix-payload", b"payload", 14),
    // The capacity of a copy of shared bytes.
    (Adopted::Shared, b"shared", b"shared", 6),
    (Adopted::Static, b"static", b"static", 6),
    (Adopted::Static, b"", b"", 0),
    // The capacity of an adopted block.
    (Adopted::Block(100, 0), b"abc", b"abc", 100),
    (Adopted::Block(100, 7), b"prefix-payload", b"payload", 100),
    (Adopted::Block(64, 0), b"", b"", 64),
    (Adopted::Split(3), b"shared", b"sha", 3),
    // A view becomes the buffer that it was.
    (Adopted::View(13), b"abc", b"abc", 16),
    // A shared view is copied into a buffer.
    (Adopted::SharedView(13), b"abc", b"abc", 3),
    (Adopted::StaticView, b"abc", b"abc", 3),
];

fn of_list(alloc: Global, bytes: &[u8], capacity: usize) -> Result<IoBufMut, BufError> {
    let mut list = Vec::with_capacity(alloc, capacity)?;
    list.extend_from_slice(bytes)?;
    IoBufMut::from_bytes(alloc, Bytes::from_vec(list)?)
}

fn of_rest(alloc: Global, bytes: &[u8], from: usize) -> Result<IoBufMut, BufError> {
    let mut rest = Bytes::copy_from_slice(alloc, bytes)?;
    if rest.len() < from {
        return Err(BufError::TooLong);
    }
    rest.advance(from);
    IoBufMut::from_bytes(alloc, rest)
}

fn of_shared(alloc: Global, bytes: &[u8]) -> Result<IoBufMut, BufError> {
    let one = Bytes::copy_from_slice(alloc, bytes)?;
    let other = one.clone()?;
    let part = IoBufMut::from_bytes(alloc, one)?;
    drop(other);
    Ok(part)
}

fn of_block(
    alloc: Global,
    bytes: &[u8],
    capacity: usize,
    from: usize,
) -> Result<IoBufMut, BufError> {
    let mut block = BytesMut::with_capacity(alloc, capacity)?;
    block.extend_from_slice(bytes)?;
    if block.len() < from {
        return Err(BufError::TooLong);
    }
    block.advance(from);
    IoBufMut::from_bytes_mut(block)
}

fn of_split(alloc: Global, bytes: &[u8], at: usize) -> Result<IoBufMut, BufError> {
    let mut first = BytesMut::copy_from_slice(alloc, bytes)?;
    if first.len() < at {
        return Err(BufError::TooLong);
    }
    let rest = first.split_off(at)?;
    let part = IoBufMut::from_bytes_mut(first)?;
    drop(rest);
    Ok(part)
}

fn of_view(alloc: Global, view: IoBuf) -> Result<IoBufMut, BufError> {
    match IoBufMut::from_view(alloc, view) {
        Ok(part) => Ok(part),
        Err(_) => Err(BufError::Memory),
    }
}

fn of_shared_view(alloc: Global, view: IoBuf) -> Result<IoBufMut, BufError> {
    let twin = view.clone()?;
    let part = of_view(alloc, view)?;
    drop(twin);
    Ok(part)
}

fn adopt(alloc: Global, what: Adopted, bytes: &'static [u8]) -> Result<IoBufMut, BufError> {
    match what {
        Adopted::List(capacity) => of_list(alloc, bytes, capacity),
        Adopted::Rest(from) => of_rest(alloc, bytes, from),
        Adopted::Shared => of_shared(alloc, bytes),
        Adopted::Static => IoBufMut::from_bytes(alloc, Bytes::from_static(bytes)),
        Adopted::Block(capacity, from) => of_block(alloc, bytes, capacity, from),
        Adopted::Split(at) => of_split(alloc, bytes, at),
        Adopted::View(spare) => of_view(alloc, part(alloc, bytes, spare)?.freeze()?),
        Adopted::SharedView(spare) => of_shared_view(alloc, part(alloc, bytes, spare)?.freeze()?),
        Adopted::StaticView => of_view(alloc, IoBuf::from(bytes)),
    }
}

#[test]
fn adopted_capacities(rt: HostRuntime) -> Result<(), Fail> {
    for case in &ADOPTED {
        let (what, bytes, left, capacity) = *case;
        let part = adopt(rt.alloc(), what, bytes)?;
        assert_same!(rt; (part.as_ref(), part.capacity()), (left, capacity), "{what:?}");
    }
    Ok(())
}
