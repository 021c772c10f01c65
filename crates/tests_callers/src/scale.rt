// A thousand times what an example has.
use crate::same::assert_same;
use iobufs::bufs_mut::IoBufsMut;
use iobufs_core::buf::IoBufMut;
use iobufs_core::codec::{Buf, BufError, BufMut};
use iobufs_examples::store::store;
use std::alloc::Global;
use std::process::Abort;
use std::test::Fail;

const PIECES: u16 = 5000;

const MEBIBYTE: usize = 1048576;

const HALF: usize = 524288;

// A part with the two bytes of a number.
fn number(alloc: Global, capacity: usize, number: u16) -> Result<IoBufMut, BufError> {
    let mut part = IoBufMut::with_capacity(alloc, capacity)?;
    if part.remaining_mut() >= 2 {
        part.put_u16(number);
    }
    Ok(part)
}

// Two parts of half a mebibyte.
fn halves(alloc: Global) -> Result<IoBufsMut, BufError> {
    let mut parts = Vec::new(alloc);
    parts.push(IoBufMut::with_capacity(alloc, HALF)?)?;
    parts.push(IoBufMut::with_capacity(alloc, HALF)?)?;
    IoBufsMut::from_parts(alloc, parts.into_iter())
}

// The low two bytes of each number below half a mebibyte, and then `!`.
fn low_bytes(alloc: Global) -> Result<Vec<u8>, BufError> {
    let mut bytes = Vec::with_capacity(alloc, 2 * HALF)?;
    for i in 0..HALF as u32 {
        bytes.extend_from_slice(&i.to_be_bytes()[2..])?;
    }
    bytes.push(b'!')?;
    Ok(bytes)
}

#[test]
fn a_mebibyte_is_stored(rt: HostRuntime) -> Result<(), Fail> {
    let bytes = low_bytes(rt.alloc())?;
    let mut from = bytes.as_slice();
    let text = store(rt.alloc(), &mut from, halves(rt.alloc())?)?;
    assert_same!(rt; (from, text.len(), text.chunk_count()), (b"!".as_slice(), MEBIBYTE, 2));
    assert!(rt; text.chunk_at(0) == bytes.as_slice().get(..HALF));
    assert!(rt; text.chunk_at(1) == bytes.as_slice().get(HALF..MEBIBYTE));
    Ok(())
}

// Parts of two bytes, each with its number; every other one, from the first on, has two spare bytes.
fn numbered_parts(alloc: Global) -> Result<IoBufsMut, BufError> {
    let mut parts = Vec::with_capacity(alloc, PIECES as usize)?;
    for i in 0..PIECES {
        let capacity = if i % 2 == 0 { 4 } else { 2 };
        parts.push(number(alloc, capacity, i)?)?;
    }
    IoBufsMut::from_parts(alloc, parts.into_iter())
}

// The parts once the first numbers are read, which are compared.
fn read_to(rt: &(impl Abort + AllocGlobal), to: u16) -> Result<IoBufsMut, BufError> {
    let mut parts = numbered_parts(rt.alloc())?;
    for i in 0..to {
        let mut bytes = [0; 2];
        assert!(rt; parts.len() >= bytes.len());
        parts.copy_to_slice(&mut bytes);
        assert_same!(rt; bytes, i.to_be_bytes());
    }
    Ok(parts)
}

// The parts that are used up come before the others.
const PLACES: [(usize, Option<&'static [u8]>); 5] = [
    (0, Some(b"")),
    (1, Some(b"")),
    (2, Some(&[0, 4])),
    (4997, Some(&[0x13, 0x87])),
    (4998, None),
];

#[test]
fn parts_that_are_used_up_come_first(rt: HostRuntime) -> Result<(), Fail> {
    let parts = read_to(&rt, 4)?;
    assert_same!(rt; (parts.part_count(), parts.len()), (4998, 9992));
    for (place, wanted) in PLACES {
        let bytes = parts.part_at(place).map(|part| part.as_ref());
        assert!(rt; bytes == wanted, "{place}");
    }
    Ok(())
}
