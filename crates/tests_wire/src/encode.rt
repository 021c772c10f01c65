// Values that are encoded, into one buffer and into chunks.
use crate::chunks::{assert_chunks, concatenated, view};
use crate::same::assert_same;
use crate::shard::Shard;
use crate::zeros::Zeros;
use bytes::Bytes;
use iobufs::bufs::IoBufs;
use iobufs::builder::EncodeExt;
use iobufs_core::buf::{IoBuf, IoBufMut};
use iobufs_core::codec::{Buf, BufMut, Encode, EncodeSize, Error, Write};
use std::process::Abort;
use tests_fixtures::rows;

// The size of a value, and how many of its bytes are put inline.
fn sizes<T: EncodeSize>(value: &T) -> Option<(usize, usize)> {
    let size = value.encode_size()?;
    Some((size, value.encode_inline_size()))
}

// The value is encoded into these chunks, and into one buffer of exactly their bytes.
pub fn assert_written<T: Write>(
    rt: &(impl Abort + AllocGlobal),
    what: &str,
    value: &T,
    inline: usize,
    chunks: &[&[u8]],
) {
    let bytes = concatenated(rt, chunks);
    assert_same!(rt; sizes(value), Some((bytes.len(), inline)), "{what}");
    let encoded = value.encode(rt.alloc()).expect(rt, what);
    assert_same!(rt; encoded.as_ref(), bytes.as_slice(), "{what}");
    assert_same!(rt; encoded.capacity(), bytes.len(), "{what}");
    let pieces = value.encode_iobufs(rt.alloc()).expect(rt, what);
    assert_chunks(rt, what, &pieces, chunks);
    let size = value.encode_size().expect(rt, what);
    let mut written = IoBufMut::with_capacity(rt.alloc(), size).expect(rt, what);
    value.write(&mut written);
    assert_same!(rt; written.as_ref(), bytes.as_slice(), "{what}");
}

const NINES: [u8; 128] = [9; 128];

#[test]
fn values_with_views(rt: HostRuntime) {
    let shard = Shard {
        id: 99,
        body: view(b"S"),
        sum: 7,
    };
    let chunks: &[&[u8]] = &[b"\0\x63\x01", b"S", b"\0\0\0\x07"];
    assert_written(&rt, "a shard", &shard, 7, chunks);
    let hello = view(b"hello world");
    assert_written(&rt, "a view", &hello, 1, &[b"\x0b", b"hello world"]);
    assert_written(&rt, "a view of no bytes", &IoBuf::default(), 1, &[b"\0"]);
    let bytes = Bytes::from_static(b"abc");
    assert_written(&rt, "bytes", &bytes, 1, &[b"\x03", b"abc"]);
    let long = IoBuf::copy_from_slice(rt.alloc(), &NINES).expect(&rt, "a long view");
    assert_written(&rt, "a long view", &long, 2, &[b"\x80\x01", &NINES]);
}

// The capacity of the last chunk of some bytes, if that becomes a writable buffer.
fn last_capacity(
    rt: &(impl Abort + AllocGlobal),
    mut bufs: IoBufs,
    before: usize,
) -> Option<usize> {
    assert!(rt; bufs.len() >= before, "too few bytes");
    bufs.advance(before);
    let view = bufs.try_into_single().ok().expect(rt, "a last chunk");
    Some(view.try_into_mut(rt.alloc()).ok()?.capacity())
}

// Where a chunk of an encoded shard begins and ends, and its capacity if it becomes writable.
const CHUNKS: [(usize, usize, Option<usize>); 3] = [(0, 3, Some(7)), (3, 4, None), (4, 8, Some(4))];

// The two runs of inline bytes lie in one buffer of exactly their length, and the view stays as it is.
#[test]
fn chunks_of_a_shard(rt: HostRuntime) {
    for (before, end, capacity) in CHUNKS {
        let shard = Shard {
            id: 99,
            body: view(b"S"),
            sum: 7,
        };
        let mut bufs = shard.encode_iobufs(rt.alloc()).expect(&rt, "a shard");
        bufs.truncate(rt.alloc(), end).expect(&rt, "a chunk");
        assert_same!(rt; last_capacity(&rt, bufs, before), capacity, "{before} to {end}");
    }
}

#[test]
fn a_chunk_of_zeros(rt: HostRuntime) {
    let zeros = Zeros { a: 2, b: 1 };
    let bufs = zeros.encode_iobufs(rt.alloc()).expect(&rt, "zeros");
    assert_same!(rt; last_capacity(&rt, bufs, 0), Some(3));
}

#[test]
fn inline_values(rt: HostRuntime) {
    assert_written(&rt, "a byte", &1u8, 1, &[b"\x01"]);
    assert_written(&rt, "two bytes", &0x0203u16, 2, &[b"\x02\x03"]);
    assert_written(&rt, "four bytes", &0x04050607u32, 4, &[b"\x04\x05\x06\x07"]);
    let eight: &[u8] = b"\x08\x09\x0a\x0b\x0c\x0d\x0e\x0f";
    assert_written(&rt, "eight bytes", &0x08090a0b0c0d0e0fu64, 8, &[eight]);
    let zeros = Zeros { a: 2, b: 1 };
    assert_written(&rt, "two runs of zeros", &zeros, 3, &[b"\0\0\0"]);
}

// Lengths, as varints.
const LENGTHS: [(usize, &'static [u8]); 7] = rows! {
    0, b"\0";
    // The longest length of one byte.
    127, b"\x7f";
    // The shortest length of two bytes.
    128, b"\x80\x01";
    // Three hundred.
    300, b"\xac\x02";
    9223372036854775807, b"\xff\xff\xff\xff\xff\xff\xff\xff\x7f";
    9223372036854775808, b"\x80\x80\x80\x80\x80\x80\x80\x80\x80\x01";
    // The longest length.
    usize::MAX, b"\xff\xff\xff\xff\xff\xff\xff\xff\xff\x01";
};

#[test]
fn lengths(rt: HostRuntime) {
    for (length, bytes) in &LENGTHS {
        assert_written(&rt, "a length", length, bytes.len(), &[bytes]);
    }
}

// Values that are too long to be encoded, each with the error.
const TOO_LONG: [(Zeros, Error); 3] = rows! {
    // More zeros than a number counts.
    Zeros { a: 1 << 63, b: 1 << 63, }, Error::TooLong;
    // More zeros than a buffer has.
    Zeros { a: 1 << 63, b: 0 }, Error::BadLayout;
    Zeros { a: 1 << 62, b: 0 }, Error::Memory;
};

#[test]
fn values_that_are_too_long(rt: HostRuntime) {
    for (zeros, error) in &TOO_LONG {
        let cause = zeros.encode_iobufs(rt.alloc()).err();
        assert_same!(rt; cause, Some(*error), "{} and {} zeros", zeros.a, zeros.b);
    }
}
