// Lengths as prefixes write them, and the frames of bytes that come in chunks.
use crate::same::assert_same;
use iobufs_core::buf::IoBuf;
use iobufs_core::codec::{BufError, RangeCfg};
use iobufs_frames::{ByteOrder, Frames, Prefix, Width};
use std::alloc::Global;
use std::process::Abort;
use std::test::Fail;
use tests_fixtures::rows;

pub const VARINT: Prefix = Prefix::Spelled;

pub const BIG_16: Prefix = Prefix::Fixed(Width::U16, ByteOrder::Big);

pub const LITTLE_16: Prefix = Prefix::Fixed(Width::U16, ByteOrder::Little);

pub const BYTE: Prefix = Prefix::Fixed(Width::U8, ByteOrder::Big);

pub const BIG_24: Prefix = Prefix::Fixed(Width::U24, ByteOrder::Big);

pub const LITTLE_24: Prefix = Prefix::Fixed(Width::U24, ByteOrder::Little);

pub const BIG_32: Prefix = Prefix::Fixed(Width::U32, ByteOrder::Big);

pub const LITTLE_32: Prefix = Prefix::Fixed(Width::U32, ByteOrder::Little);

const BIG_64: Prefix = Prefix::Fixed(Width::U64, ByteOrder::Big);

const LITTLE_64: Prefix = Prefix::Fixed(Width::U64, ByteOrder::Little);

// Lengths as each prefix writes them, if it can.
const LENGTHS: [(Prefix, usize, Option<&'static [u8]>); 25] = rows! {
    VARINT, 2, Some(b"\x02");
    VARINT, 16384, Some(b"\x80\x80\x01");
    VARINT, 65536, Some(b"\x80\x80\x04");
    VARINT, 18446744073709551615, Some(b"\xff\xff\xff\xff\xff\xff\xff\xff\xff\x01");
    BYTE, 2, Some(b"\x02");
    BYTE, 255, Some(b"\xff");
    BYTE, 256, None;
    BIG_16, 2, Some(b"\0\x02");
    BIG_16, 65535, Some(b"\xff\xff");
    BIG_16, 65536, None;
    LITTLE_16, 3, Some(b"\x03\0");
    LITTLE_16, 258, Some(b"\x02\x01");
    BIG_24, 66051, Some(b"\x01\x02\x03");
    BIG_24, 16777215, Some(b"\xff\xff\xff");
    BIG_24, 16777216, None;
    LITTLE_24, 66051, Some(b"\x03\x02\x01");
    LITTLE_24, 16777216, None;
    BIG_32, 2, Some(b"\0\0\0\x02");
    BIG_32, 4294967295, Some(b"\xff\xff\xff\xff");
    LITTLE_32, 3, Some(b"\x03\0\0\0");
    LITTLE_32, 16909060, Some(b"\x04\x03\x02\x01");
    BIG_64, 2, Some(b"\0\0\0\0\0\0\0\x02");
    BIG_64, 18446744073709551615, Some(b"\xff\xff\xff\xff\xff\xff\xff\xff");
    LITTLE_64, 3, Some(b"\x03\0\0\0\0\0\0\0");
    LITTLE_64, 1099511627777, Some(b"\x01\0\0\0\0\x01\0\0");
};

fn assert_written(
    rt: &(impl Abort + AllocGlobal),
    prefix: Prefix,
    n: usize,
    wanted: Option<&'static [u8]>,
) -> Result<(), BufError> {
    assert_same!(rt; prefix.fits(n), wanted.is_some(), "{n} as {prefix:?}");
    if prefix.fits(n) {
        let length = prefix.written(rt.alloc(), n)?;
        assert_same!(rt; Some(length.as_ref()), wanted, "{n} as {prefix:?}");
    }
    Ok(())
}

#[test]
fn lengths_are_written(rt: HostRuntime) -> Result<(), Fail> {
    for case in &LENGTHS {
        assert_written(&rt, case.0, case.1, case.2)?;
    }
    Ok(())
}

// Chunks, the greatest length that is admitted, and the bodies of the frames, the end, and the rest, as `framed` shows
// them.
type Case = (&'static [&'static [u8]], usize, &'static [u8]);

const FRAMES: [Case; 6] = rows! {
    // Frames of no chunk.
    &[], 1024, b"Open|";
    // Two frames of no bytes.
    &[b"\0\0"], 1024, b"||Open|";
    // Frames across five chunks.
    &[b"\x02", b"ab\x03", b"c", b"de\x84", b"\0"], 1024, b"ab|cde|Bad(InvalidVarint)|\x84\0";
    // Those frames in one chunk.
    &[b"\x02ab\x03cde\x84\0"], 1024, b"ab|cde|Bad(InvalidVarint)|\x84\0";
    // A frame whose length is not in the range.
    &[b"\x02ab\x03cde\x84\0"], 2, b"ab|Bad(InvalidLength(3))|\x03cde\x84\0";
    // A frame and a length that goes on.
    &[b"\x02a", b"b\x84"], 1024, b"ab|Open|\x84";
};

// The bodies of the frames of some chunks, then the end, and then the rest, with `|` between them.
fn framed(alloc: Global, chunks: &[&'static [u8]], most: usize) -> Result<Vec<u8>, BufError> {
    let mut views = Vec::new(alloc);
    for chunk in chunks {
        views.push(IoBuf::from(*chunk))?;
    }
    let run = Frames::run(alloc, views, &RangeCfg { lo: 0, hi: most })?;
    let mut shown = Vec::new(alloc);
    for frame in &run.frames {
        shown.extend_from_slice(frame.as_ref())?;
        shown.push(b'|')?;
    }
    shown.extend_from_slice(format!(in alloc; "{:?}|", run.stop)?.as_bytes())?;
    for chunk in run.rest.chunks() {
        shown.extend_from_slice(chunk)?;
    }
    Ok(shown)
}

#[test]
fn frames_of_chunks(rt: HostRuntime) -> Result<(), Fail> {
    for case in &FRAMES {
        let (chunks, most, wanted) = *case;
        let shown = framed(rt.alloc(), chunks, most)?;
        assert_same!(rt; shown.as_slice(), wanted, "{chunks:?}");
    }
    Ok(())
}

#[test]
fn frames_that_are_cut_in_every_way(rt: HostRuntime) -> Result<(), Fail> {
    let bytes: &'static [u8] = b"\x02ab\x03cde\x84\0";
    for n in 0..=bytes.len() {
        let (front, rest) = bytes.split_at(n);
        let shown = framed(rt.alloc(), &[front, rest], 1024)?;
        assert_same!(rt; shown.as_slice(), b"ab|cde|Bad(InvalidVarint)|\x84\0".as_slice(), "{n}");
    }
    Ok(())
}
