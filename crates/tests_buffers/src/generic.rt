// Generic code over the traits, through their bounds.
ghost use Rattle.std.specs.Prelude.{◌≡◌, ◌+◌, ◌≤◌, length, OnOk, IfOk, take};
ghost use Rattle.iobufs_core.specs.MarkedText.{taken_view};

use crate::same::assert_same;
use bytes::Bytes;
use iobufs_core::buf::{IoBuf, IoBufMut};
use iobufs_core::codec::{Buf, BufError, BufMut, OwnedBuf, OwnedBytes};
use std::alloc::Global;
use std::test::Fail;

// A header of two numbers, and then all bytes of a reader.
fn frame<P: BufMut, B: Buf + Drop>(part: &mut P, body: B)
    requires { 15 + length (B.text body) ≤ P.room part.old }
{
    part.put_u8(1);
    part.put_u16(99);
    part.put_u32(7);
    part.put_u64(258);
    part.put(body);
}

// The two bytes behind the first, kept as any type of bytes.
fn second<B: OwnedBuf, T: OwnedBytes>(alloc: Global, buf: &mut B) -> Result<T, BufError>
    requires { 3 ≤ length (B.text buf.old) }
    ensures { IfOk result (T.makes (taken_view (B.marked buf.old) 1 2)) }
{
    buf.take_owned_after(alloc, 1, 2)
}

// The bytes of a reader, and what is put.
const FRAMED: [(&'static [u8], &'static [u8]); 2] = [
    (
        b"abc",
        b"\x01\x00\x63\x00\x00\x00\x07\x00\x00\x00\x00\x00\x00\x01\x02abc",
    ),
    (
        b"",
        b"\x01\x00\x63\x00\x00\x00\x07\x00\x00\x00\x00\x00\x00\x01\x02",
    ),
];

#[test]
fn numbers_and_a_reader_are_put(rt: HostRuntime) -> Result<(), Fail> {
    for (body, wanted) in FRAMED {
        let mut part = IoBufMut::with_capacity(rt.alloc(), wanted.len())?;
        let body = IoBuf::from(body);
        assert!(rt; part.remaining_mut() >= 15 + body.len());
        frame(&mut part, body);
        assert_same!(rt; (part.as_ref(), part.remaining_mut()), (wanted, 0));
    }
    Ok(())
}

#[test]
fn bytes_are_taken_and_kept(rt: HostRuntime) -> Result<(), Fail> {
    let mut view = IoBuf::from(b"abcdefg".as_slice());
    let kept = second::<IoBuf, IoBuf>(rt.alloc(), &mut view)?;
    assert_same!(rt; (kept.as_ref(), view.as_ref()), (b"bc".as_slice(), b"defg".as_slice()));
    assert!(rt; view.len() >= 3);
    let kept = second::<IoBuf, Bytes>(rt.alloc(), &mut view)?;
    assert_same!(rt; (kept.as_slice(), view.as_ref()), (b"ef".as_slice(), b"g".as_slice()));
    Ok(())
}
