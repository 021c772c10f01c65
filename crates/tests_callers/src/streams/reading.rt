// Frames that are read.
use crate::frames::{BIG_16, BIG_24, BIG_32, BYTE, LITTLE_16, LITTLE_24, LITTLE_32, VARINT};
use crate::same::assert_same;
use crate::streams::fakes::FakeReader;
use crate::streams::{
    Ending, FRAMES, FRAMES_BIG_16, FRAMES_BIG_24, FRAMES_BIG_32, FRAMES_LITTLE_16,
    FRAMES_LITTLE_24, FRAMES_LITTLE_32, frame_reader, take_bodies,
};
use iobufs_core::codec::Error;
use iobufs_frames::Prefix;
use std::alloc::AllocError;
use std::io::ErrorKind;
use std::process::Abort;
use std::test::Fail;

struct Reading {
    name: &'static str,
    prefix: Prefix,
    bytes: &'static [u8],
    // How many bytes a read gives at most, each number in turn.
    most: &'static [usize],
    // The bodies, with `|` after each, and why no further one comes.
    bodies: &'static [u8],
    ending: Ending,
}

macro_rules! readings {
    ($($name:expr, $prefix:expr, $bytes:expr, $most:expr, $bodies:expr, $ending:expr;)+) => {
        [$(Reading {
            name: $name, prefix: $prefix, bytes: $bytes, most: $most, bodies: $bodies, ending: $ending
        }),+]
    };
}

const READINGS: [Reading; 17] = readings! {
    "whole frames", VARINT, FRAMES, &[1, 2, 3, 4, 7, 100], b"abc||hello|", Ending::End;
    "the end inside a body", VARINT, b"\x05hell", &[3], b"", Ending::Cut;
    "the end after a length", VARINT, b"\x05", &[3], b"", Ending::Cut;
    "the end inside a length", VARINT, b"\x88", &[3], b"", Ending::Cut;
    "a length outside the range", VARINT, b"\0\x09aaaaaaaaa", &[1], b"|", Ending::Bad(Error::InvalidLength(9));
    "a length that is not in the shortest form", VARINT, b"\x80\0", &[1], b"", Ending::Bad(Error::InvalidVarint);
    "u16, big", BIG_16, FRAMES_BIG_16, &[1, 2, 3, 5, 100], b"abc||hello|", Ending::End;
    "u16, little", LITTLE_16, FRAMES_LITTLE_16, &[1, 2, 3, 5, 100], b"abc||hello|", Ending::End;
    "u8", BYTE, FRAMES, &[1, 2, 3, 5, 100], b"abc||hello|", Ending::End;
    "u24, big", BIG_24, FRAMES_BIG_24, &[1, 2, 3, 5, 100], b"abc||hello|", Ending::End;
    "u24, little", LITTLE_24, FRAMES_LITTLE_24, &[1, 2, 3, 5, 100], b"abc||hello|", Ending::End;
    "the end inside a u24", BIG_24, b"\0\0", &[1], b"", Ending::Cut;
    "a u24 outside the range", LITTLE_24, b"\x01\x02\x03a", &[1], b"", Ending::Bad(Error::InvalidLength(197121));
    "u32, big", BIG_32, FRAMES_BIG_32, &[1, 2, 3, 5, 100], b"abc||hello|", Ending::End;
    "u32, little", LITTLE_32, FRAMES_LITTLE_32, &[1, 2, 3, 5, 100], b"abc||hello|", Ending::End;
    "a u16 outside the range", BIG_16, b"\x01\x02a", &[1], b"", Ending::Bad(Error::InvalidLength(258));
    "the end inside a u16", BIG_16, b"\0", &[1], b"", Ending::Cut;
};

// The ending is reported a second time.
fn assert_reading(
    rt: &(impl Abort + AllocGlobal),
    case: &Reading,
    most: usize,
) -> Result<(), AllocError> {
    let Reading { name, ending, .. } = *case;
    let from = FakeReader::new(case.bytes, most, None);
    let mut reader = frame_reader(rt.alloc(), case.prefix, from)?;
    let mut bodies = Vec::new(rt.alloc());
    let first = take_bodies(&mut reader, &mut bodies)?;
    let second = take_bodies(&mut reader, &mut bodies)?;
    assert_same!(rt; bodies.as_slice(), case.bodies, "{name} by {most}");
    assert_same!(rt; (first, second), (ending, ending), "{name} by {most}");
    Ok(())
}

#[test]
fn frames_are_read(rt: HostRuntime) -> Result<(), Fail> {
    for case in &READINGS {
        for most in case.most {
            assert_reading(&rt, case, *most)?;
        }
    }
    Ok(())
}

// The range of a reader applies to the frame that is taken next, also if its length was decoded before.
#[test]
fn a_limit_applies_to_the_next_frame(rt: HostRuntime) -> Result<(), Fail> {
    let from = FakeReader::new(b"\x03ab", 100, Some(ErrorKind::TimedOut));
    let mut reader = frame_reader(rt.alloc(), VARINT, from)?;
    let mut bodies = Vec::new(rt.alloc());
    let first = take_bodies(&mut reader, &mut bodies)?;
    reader.from.give(b"c\x01d");
    reader.range.hi = 2;
    let second = take_bodies(&mut reader, &mut bodies)?;
    reader.range.hi = 3;
    let third = take_bodies(&mut reader, &mut bodies)?;
    assert_same!(rt; first, Ending::Io(ErrorKind::TimedOut));
    assert_same!(rt; second, Ending::Bad(Error::InvalidLength(3)));
    assert_same!(rt; (third, bodies.as_slice()), (Ending::End, b"abc|d|".as_slice()));
    Ok(())
}

// Two frames come in one read, and the length of a third. No frame that is held needs a read.
#[test]
fn held_frames_are_taken(rt: HostRuntime) -> Result<(), Fail> {
    let from = FakeReader::new(b"\x01a\x01b\x01", 100, None);
    let mut reader = frame_reader(rt.alloc(), VARINT, from)?;
    let unread = reader.try_next().ok().flatten().is_some();
    let first = reader.next().ok().flatten();
    let second = reader.try_next().ok().flatten();
    let third = reader.try_next().ok().flatten().is_some();
    assert_same!(rt; (unread, third, reader.from.reads), (false, false, 1));
    assert_same!(rt; first.map(|body| body.as_ref() == b"a".as_slice()), Some(true));
    assert_same!(rt; second.map(|body| body.as_ref() == b"b".as_slice()), Some(true));
    Ok(())
}
