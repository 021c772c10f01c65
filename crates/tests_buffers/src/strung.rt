// Writable buffers in a row.
ghost use Rattle.std.specs.Prelude.{◌+◌, ◌≤◌, length};

use crate::same::assert_same;
use iobufs::bufs_mut::IoBufsMut;
use iobufs_core::codec::{Buf, BufMut};
use std::process::Abort;
use std::test::Fail;
use tests_fixtures::{part, parts};

// Compares the buffers, each as its bytes and its spare capacity.
fn assert_parts(rt: &impl Abort, name: &str, found: &IoBufsMut, wanted: &[(&[u8], usize)]) {
    assert_same!(rt; found.part_count(), wanted.len(), "{name}");
    for (i, (bytes, spare)) in wanted.iter().enumerate() {
        let part = found.part_at(i).expect(rt, "a buffer");
        assert_same!(rt; (part.as_ref(), part.remaining_mut()), (*bytes, *spare), "{name}: {i}");
    }
}

#[test]
fn bytes_of_three_buffers_are_seen(rt: HostRuntime) -> Result<(), Fail> {
    let parts = parts(
        rt.alloc(),
        &[(b"ab", 1), (b"", 3), (b"", 0), (b"c", 0), (b"de", 2)],
    )?;
    assert_same!(rt; (parts.remaining(), parts.chunk(), parts.byte_at(2)), (5, b"ab".as_slice(), Some(b'c')));
    let first = parts.chunks_vectored(rt.alloc(), 2)?;
    assert_same!(rt; first.as_slice(), [b"ab".as_slice(), b"c"].as_slice());
    Ok(())
}

#[test]
fn a_single_buffer_is_borrowed(rt: HostRuntime) -> Result<(), Fail> {
    let mut one = IoBufsMut::from(part(rt.alloc(), b"ab", 2)?);
    one.as_single_mut().ok_or("not single")?.clear();
    assert_parts(&rt, "cleared", &one, &[(b"", 4)]);
    assert!(rt; one.freeze(rt.alloc())?.is_empty());
    let none = parts(rt.alloc(), &[(b"", 0), (b"", 0)])?;
    assert!(rt; none.is_single() && none.as_single().is_some());
    let mut two = parts(rt.alloc(), &[(b"ab", 2), (b"c", 1)])?;
    assert!(rt; two.as_single_mut().is_none() && two.try_into_single().is_err());
    Ok(())
}

// A number, and then all bytes of a reader.
fn frame<P: BufMut, B: Buf + Drop>(into: &mut P, body: B)
    requires { 2 + length (B.text body) ≤ P.room into.old }
{
    into.put_u16(25185);
    into.put(body);
}

#[test]
fn buffers_through_their_bounds(rt: HostRuntime) -> Result<(), Fail> {
    let mut into = parts(rt.alloc(), &[(b"", 1), (b"", 5)])?;
    let body = parts(rt.alloc(), &[(b"c", 1), (b"", 2), (b"de", 0), (b"f", 3)])?;
    assert!(rt; body.remaining() == 4 && into.remaining_mut() == 6);
    frame(&mut into, body);
    assert_parts(&rt, "framed", &into, &[(b"b", 0), (b"acdef", 0)]);
    Ok(())
}
