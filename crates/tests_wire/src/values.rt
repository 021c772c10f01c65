// Numbers and bytes that are read, and ranges of lengths.
use crate::chunks::{copied_bytewise, view};
use crate::same::assert_same;
use bytes::Bytes;
use iobufs::builder::EncodeExt;
use iobufs_core::buf::IoBufMut;
use iobufs_core::codec::{Buf, BufMut, Error, RangeCfg, Read};
use std::process::Abort;

const SIXTEEN: &[u8] = b"\x01\x02\x03\x04\x05\x06\x07\x08\x09\x0a\x0b\x0c\x0d\x0e\x0f\x10";

#[test]
fn numbers_are_read(rt: HostRuntime) {
    let alloc = rt.alloc();
    let mut rest = view(SIXTEEN);
    assert_same!(rt; u8::read_cfg(alloc, &mut rest, &()), Ok(1));
    assert_same!(rt; u16::read_cfg(alloc, &mut rest, &()), Ok(0x0203));
    assert_same!(rt; u32::read_cfg(alloc, &mut rest, &()), Ok(0x04050607));
    assert_same!(rt; u64::read_cfg(alloc, &mut rest, &()), Ok(0x08090a0b0c0d0e0f));
    assert_same!(rt; u16::read_cfg(alloc, &mut rest, &()), Err(Error::EndOfBuffer));
    assert_same!(rt; rest.as_ref(), b"\x10".as_slice());
}

#[test]
fn numbers_of_sixteen_bytes(rt: HostRuntime) {
    let mut bufs = copied_bytewise(&rt, SIXTEEN);
    let read = u128::read_cfg(rt.alloc(), &mut bufs, &());
    assert_same!(rt; read, Ok(0x0102030405060708090a0b0c0d0e0f10));
    assert_same!(rt; bufs.remaining(), 0);
    let mut part = IoBufMut::with_capacity(rt.alloc(), 17).expect(&rt, "a buffer");
    part.put_u128(1);
    assert_same!(rt; part.as_ref(), b"\0\0\0\0\0\0\0\0\0\0\0\0\0\0\0\x01".as_slice());
}

#[test]
fn bytes_are_read(rt: HostRuntime) {
    let alloc = rt.alloc();
    let encoded = Bytes::from_static(b"abc").encode_iobufs(alloc);
    let mut bufs = encoded.expect(&rt, "encoded bytes");
    let read = Bytes::read_cfg(alloc, &mut bufs, &RangeCfg::new(..4)).expect(&rt, "bytes");
    assert_same!(rt; read.as_slice(), b"abc".as_slice());
    assert_same!(rt; bufs.remaining(), 0);
}

#[test]
fn ranges_of_lengths(rt: HostRuntime) {
    let some = RangeCfg::new(3..5);
    let which = [2, 3, 4, 5].map(|n| some.contains(n));
    assert_same!(rt; which, [false, true, true, false]);
    assert!(rt; RangeCfg::new(..).contains(usize::MAX));
    assert!(rt; RangeCfg::new(..=7).contains(7));
    for none in [RangeCfg::new(0..0), RangeCfg::new(5..3)] {
        assert!(rt;
            ![0, 3, 4, 5, usize::MAX].iter().any(|n| none.contains(*n)),
            "{none:?}"
        );
    }
}
