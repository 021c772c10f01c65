// Worked examples with the values that the rules name, beside the sessions of `tests/rows`.
use crate::same::assert_same;
use iobufs::bufs::IoBufs;
use iobufs::builder::Builder;
use iobufs_core::buf::IoBuf;
use iobufs_core::codec::{Buf, BufError, BufMut, BufsMut, OwnedBuf, RangeCfg, Read};
use std::alloc::Global;
use std::ops::Bound;
use std::process::Abort;
use std::test::Fail;
use tests_fixtures::{chunks, text};

#[test]
fn a_static_view_is_read_to_its_end(rt: HostRuntime) -> Result<(), Fail> {
    let alloc = rt.alloc();
    let mut view = IoBuf::from(b"hello world".as_slice());
    view.advance(6);
    assert_same!(rt; view.chunk(), b"world".as_slice());
    let first = view.copy_to_bytes(alloc, 2)?;
    assert_same!(rt; first.as_slice(), b"wo".as_slice());
    let rest = view.copy_to_bytes(alloc, 3)?;
    assert_same!(rt; rest.as_slice(), b"rld".as_slice());
    assert_recovers(&rt, view, 0);
    Ok(())
}

// A view is not shared, and becomes a buffer of this capacity: the default view of 0.
fn assert_recovers(rt: &(impl Abort + AllocGlobal), view: IoBuf, capacity: usize) {
    match view.try_into_mut(rt.alloc()) {
        Ok(part) => assert_same!(*rt; part.capacity(), capacity),
        Err(_) => assert_same!(*rt; "declined", "recovered"),
    }
}

const MAX: usize = usize::MAX;

const HELLO: &[u8] = b"hello";

// A view, the bounds of a range, and whether it fits.
const RANGES: [(&'static [u8], Bound<usize>, Bound<usize>, bool); 10] = [
    (HELLO, Bound::Excluded(0), Bound::Unbounded, true),
    (HELLO, Bound::Excluded(4), Bound::Unbounded, true),
    (HELLO, Bound::Included(5), Bound::Included(4), true),
    (HELLO, Bound::Unbounded, Bound::Excluded(6), false),
    (HELLO, Bound::Included(3), Bound::Excluded(1), false),
    (HELLO, Bound::Included(0), Bound::Included(MAX), false),
    (HELLO, Bound::Excluded(MAX), Bound::Unbounded, false),
    (HELLO, Bound::Excluded(5), Bound::Unbounded, false),
    (b"", Bound::Unbounded, Bound::Unbounded, true),
    (b"", Bound::Unbounded, Bound::Included(0), false),
];

#[test]
fn ranges_fit(rt: HostRuntime) {
    for case in &RANGES {
        let (bytes, lo, hi, wanted) = *case;
        assert_same!(rt; IoBuf::from(bytes).fits_range(lo, hi), wanted);
    }
}

// Takes a view of the first bytes, of which there are as many.
fn taken(alloc: Global, bufs: &mut IoBufs, n: usize) -> Result<IoBuf, BufError> {
    if bufs.remaining() < n {
        return Ok(IoBuf::default());
    }
    bufs.take_owned::<IoBuf>(alloc, n)
}

#[test]
fn an_owned_view_spans_chunks(rt: HostRuntime) -> Result<(), Fail> {
    let alloc = rt.alloc();
    let mut bufs = text(alloc, &[b"ab", b"cd"])?;
    let first = taken(alloc, &mut bufs, 1)?;
    assert_same!(rt; first.as_ref(), b"a".as_slice());
    let both = taken(alloc, &mut bufs, 2)?;
    assert_same!(rt; both.as_ref(), b"bc".as_slice());
    assert_recovers(&rt, both, 2);
    assert_same!(rt; chunks(alloc, &bufs)?.as_slice(), b"d".as_slice());
    Ok(())
}

#[test]
fn numbers_are_put_between_views(rt: HostRuntime) -> Result<(), Fail> {
    let alloc = rt.alloc();
    let mut builder = Builder::new(alloc, 6)?;
    builder.put_u16(99);
    builder
        .push(IoBuf::from(b"S".as_slice()))
        .map_err(|refused| refused.cause)?;
    builder
        .push(IoBuf::default())
        .map_err(|refused| refused.cause)?;
    builder.put_u32(7);
    let mut bufs = builder.finish()?;
    assert_same!(rt; chunks(alloc, &bufs)?.as_slice(), b"\0\x63|S|\0\0\0\x07".as_slice());
    let inline = taken(alloc, &mut bufs, 2)?;
    bufs.try_advance(1);
    let last = taken(alloc, &mut bufs, 4)?;
    drop(inline);
    assert_recovers(&rt, last, 4);
    Ok(())
}

#[test]
fn no_bytes_are_the_default_view(rt: HostRuntime) -> Result<(), Fail> {
    let alloc = rt.alloc();
    let range = RangeCfg { lo: 0, hi: 1024 };
    let mut bufs = IoBufs::from(IoBuf::copy_from_slice(alloc, b"\0\x01x")?);
    let view = IoBuf::read_cfg(alloc, &mut bufs, &range)?;
    assert_same!(rt; view.len(), 0);
    assert_recovers(&rt, view, 0);
    Ok(())
}
