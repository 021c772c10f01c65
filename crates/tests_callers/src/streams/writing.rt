// Frames that are written.
use crate::frames::{BIG_16, BIG_24, BIG_32, BYTE, LITTLE_16, LITTLE_24, LITTLE_32, VARINT};
use crate::same::assert_same;
use crate::streams::counts::long;
use crate::streams::fakes::FakeWriter;
use crate::streams::{
    FRAMES, FRAMES_BIG_16, FRAMES_BIG_24, FRAMES_BIG_32, FRAMES_LITTLE_16, FRAMES_LITTLE_24,
    FRAMES_LITTLE_32, LONG, SHORT, frame_writer, put_chunks,
};
use iobufs_core::codec::BufError;
use iobufs_frames::{FrameWriter, Prefix, framed_with};
use std::io::{ErrorKind, Write};
use std::process::Abort;
use std::test::Fail;
use tests_fixtures::{rows, text};

// The chunks of each of three bodies.
const BODIES: &[&[&[u8]]] = &[&[b"abc"], &[], &[b"hello"]];

// A prefix, how many bytes a write takes at most (each number in turn), the chunks of each body, and what is written.
type Writing = (
    Prefix,
    &'static [usize],
    &'static [&'static [&'static [u8]]],
    &'static [u8],
);

const WRITINGS: [Writing; 8] = rows! {
    VARINT, &[1, 2, 3, 7, 100], &[&[b"abc", b"def"], &[]], b"\x06abcdef\0";
    BYTE, &[3], BODIES, FRAMES;
    BIG_16, &[3], BODIES, FRAMES_BIG_16;
    LITTLE_16, &[3], BODIES, FRAMES_LITTLE_16;
    BIG_24, &[3], BODIES, FRAMES_BIG_24;
    LITTLE_24, &[3], BODIES, FRAMES_LITTLE_24;
    BIG_32, &[3], BODIES, FRAMES_BIG_32;
    LITTLE_32, &[3], BODIES, FRAMES_LITTLE_32;
};

// A frame is not sent when it is put, and sent when it is sent.
fn send_body<W: Write + Drop>(
    rt: &(impl Abort + AllocGlobal),
    writer: &mut FrameWriter<W>,
    pieces: &[&'static [u8]],
) -> Result<(), Fail> {
    assert!(rt; writer.rest.is_empty());
    put_chunks(rt.alloc(), writer, pieces)?;
    assert!(rt; !writer.rest.is_empty());
    writer.send()?;
    Ok(())
}

fn assert_writing(
    rt: &(impl Abort + AllocGlobal),
    case: &Writing,
    most: usize,
) -> Result<(), Fail> {
    let (prefix, _, bodies, written) = *case;
    let mut writer = frame_writer(rt.alloc(), prefix, FakeWriter::new(rt.alloc(), most));
    for body in bodies {
        send_body(rt, &mut writer, body)?;
    }
    assert!(rt; writer.rest.is_empty());
    assert_same!(rt; writer.to.record.as_slice(), written, "{prefix:?} by {most}");
    Ok(())
}

#[test]
fn frames_are_written(rt: HostRuntime) -> Result<(), Fail> {
    for case in &WRITINGS {
        for most in case.1 {
            assert_writing(&rt, case, *most)?;
        }
    }
    Ok(())
}

// All frames are put before one is sent.
fn assert_queued(rt: &(impl Abort + AllocGlobal), case: &Writing, most: usize) -> Result<(), Fail> {
    let (prefix, _, bodies, written) = *case;
    let mut writer = frame_writer(rt.alloc(), prefix, FakeWriter::new(rt.alloc(), most));
    for body in bodies {
        put_chunks(rt.alloc(), &mut writer, body)?;
    }
    assert_same!(rt; writer.unsent(), written.len());
    writer.send()?;
    assert_same!(rt; writer.unsent(), 0);
    assert_same!(rt; writer.to.record.as_slice(), written, "{prefix:?} by {most}");
    Ok(())
}

#[test]
fn frames_wait_for_a_send(rt: HostRuntime) -> Result<(), Fail> {
    for case in &WRITINGS {
        for most in case.1 {
            assert_queued(&rt, case, *most)?;
        }
    }
    Ok(())
}

// The write of the first body fails, and a frame is put before the rest of it is written.
#[test]
fn a_frame_follows_the_rest_of_another(rt: HostRuntime) -> Result<(), Fail> {
    let to = FakeWriter::failing(rt.alloc(), 100, 1, ErrorKind::BrokenPipe);
    let mut writer = FrameWriter::new(rt.alloc(), to, SHORT);
    put_chunks(rt.alloc(), &mut writer, &[b"abc"])?;
    assert!(rt; writer.send().is_err());
    put_chunks(rt.alloc(), &mut writer, &[b"d"])?;
    assert_same!(rt; (writer.unsent(), writer.rest.len()), (5, 5));
    writer.send()?;
    assert_same!(rt; writer.to.record.as_slice(), b"\x03abc\x01d".as_slice());
    Ok(())
}

// The lengths of two bodies, and how many bytes wait, and are in `rest`: a short body is copied there.
const PAIRS: [(usize, usize, usize, usize); 5] = rows! {
    4, 0, 6, 6;
    4, 256, 263, 263;
    4, 257, 264, 5;
    0, 1, 3, 3;
    300, 3, 306, 306;
};

#[test]
fn a_short_body_is_copied(rt: HostRuntime) -> Result<(), Fail> {
    let alloc = rt.alloc();
    for (first, second, unsent, rest) in PAIRS {
        let mut writer = FrameWriter::new(alloc, FakeWriter::new(alloc, 100), LONG);
        writer.put(long(alloc, first)?)?;
        writer.put(long(alloc, second)?)?;
        let found = (writer.unsent(), writer.rest.len());
        assert_same!(rt; found, (unsent, rest), "{first:?}, {second:?}");
        writer.send()?;
        let found = (writer.unsent(), writer.to.record.len());
        assert_same!(rt; found, (0, unsent), "{first:?}, {second:?}");
    }
    Ok(())
}

// The write of the body fails, and a flush comes before it is written.
#[test]
fn a_flush_comes_before_the_rest_of_a_frame(rt: HostRuntime) -> Result<(), Fail> {
    let to = FakeWriter::failing(rt.alloc(), 100, 1, ErrorKind::BrokenPipe);
    let mut writer = FrameWriter::new(rt.alloc(), to, SHORT);
    put_chunks(rt.alloc(), &mut writer, &[b"abc"])?;
    assert!(rt; writer.send().is_err());
    writer.to.flush()?;
    writer.send()?;
    assert_same!(rt; writer.to.record.as_slice(), b"\x03|abc".as_slice());
    Ok(())
}

// `send` doesn't flush, and sends the bytes of `framed_with`.
#[test]
fn a_frame_is_sent_without_a_flush(rt: HostRuntime) -> Result<(), Fail> {
    let frame = framed_with(rt.alloc(), VARINT, text(rt.alloc(), &[b"abc", b"def"])?)?;
    assert_same!(rt; frame.to_vec(rt.alloc())?.as_slice(), b"\x06abcdef".as_slice());
    let mut writer = FrameWriter::new(rt.alloc(), FakeWriter::new(rt.alloc(), 100), SHORT);
    put_chunks(rt.alloc(), &mut writer, &[b"abc", b"def"])?;
    writer.send()?;
    assert_same!(rt; writer.to.record.as_slice(), b"\x06abcdef".as_slice());
    Ok(())
}

#[test]
fn a_body_above_its_length_is_refused(rt: HostRuntime) -> Result<(), Fail> {
    let alloc = rt.alloc();
    let mut writer = FrameWriter::with_prefix(alloc, FakeWriter::new(alloc, 100), BIG_16, LONG);
    let refused = writer.put(long(alloc, 65536)?).err();
    let refused = refused.map(|refused| (refused.cause, refused.value.len()));
    assert_same!(rt; refused, Some((BufError::TooLong, 65536)));
    assert!(rt; writer.rest.is_empty());
    writer.put(long(alloc, 65535)?)?;
    let rest = &writer.rest;
    let found = (rest.len(), rest.byte_at(0), rest.byte_at(1));
    assert_same!(rt; found, (65537, Some(255), Some(255)));
    Ok(())
}

#[test]
fn a_body_above_the_limit_is_refused(rt: HostRuntime) -> Result<(), Fail> {
    let alloc = rt.alloc();
    let mut writer = FrameWriter::new(alloc, FakeWriter::new(alloc, 100), SHORT);
    writer.range.hi = 2;
    let refused = writer.put(text(alloc, &[b"ab", b"c"])?).err();
    let refused = refused.map(|refused| (refused.cause, refused.value.len()));
    assert_same!(rt; refused, Some((BufError::TooLong, 3)));
    assert!(rt; writer.rest.is_empty());
    put_chunks(alloc, &mut writer, &[b"ab"])?;
    writer.send()?;
    assert_same!(rt; writer.to.record.as_slice(), b"\x02ab".as_slice());
    Ok(())
}
