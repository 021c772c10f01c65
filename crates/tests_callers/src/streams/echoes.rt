// Frames that are echoed: each is flushed before the next read. Nothing is lost or sent twice if a read, a write or a
// flush fails.
use crate::frames::{BIG_16, BIG_32, LITTLE_16, LITTLE_32, VARINT};
use crate::same::assert_same;
use crate::streams::fakes::{FakeReader, FakeWriter};
use crate::streams::{
    Ending, FRAMES, FRAMES_BIG_16, FRAMES_BIG_32, FRAMES_LITTLE_16, FRAMES_LITTLE_32, ending_by,
    frame_reader, frame_writer,
};
use iobufs_examples::echo::echo;
use iobufs_frames::{FrameReader, FrameWriter, Prefix};
use std::io::{ErrorKind, Read, Write};
use std::process::Abort;
use std::test::Fail;

struct Echo {
    name: &'static str,
    // The reader's prefix, its bytes, and those that it gives after a failure. It fails only if there are some.
    prefix: Prefix,
    bytes: &'static [u8],
    more: &'static [u8],
    // The writer's prefix, and the number of the call that fails.
    other: Prefix,
    fails_at: usize,
    // How `echo` ends, what the writer took until then, and how many bytes are left to write.
    first: Ending,
    written: &'static [u8],
    rest: usize,
    // How `echo` ends if it is called again, and all that the writer took then.
    last: Ending,
    all: &'static [u8],
}

// Echoes without failure, which end the second time as they do first.
macro_rules! whole {
    ($($name:expr, $prefix:expr, $bytes:expr, $other:expr, $ending:expr, $written:expr;)+) => {
        [$(Echo {
            name: $name, prefix: $prefix, bytes: $bytes, more: b"", other: $other, fails_at: usize::MAX,
            first: $ending, written: $written, rest: 0, last: $ending, all: $written
        }),+]
    };
}

const ALL: &[u8] = b"\x03abc|\0|\x05hello|";

const ECHOES: [Echo; 11] = whole! {
    "no failure", VARINT, FRAMES, VARINT, Ending::End, ALL;
    "the end inside a body", VARINT, b"\x01a\x02b", VARINT, Ending::Cut, b"\x01a|";
    "two frames a read", VARINT, b"\0\0\0\0", VARINT, Ending::End, b"\0\0|\0\0|";
    "u16, big", BIG_16, FRAMES_BIG_16, BIG_16, Ending::End, b"\0\x03abc|\0\0|\0\x05hello|";
    "u16, big, to varints", BIG_16, FRAMES_BIG_16, VARINT, Ending::End, ALL;
    "u16, little", LITTLE_16, FRAMES_LITTLE_16, LITTLE_16, Ending::End, b"\x03\0abc|\0\0|\x05\0hello|";
    "u16, little, to varints", LITTLE_16, FRAMES_LITTLE_16, VARINT, Ending::End, ALL;
    "u32, big", BIG_32, FRAMES_BIG_32, BIG_32, Ending::End, b"\0\0\0\x03abc|\0\0\0\0|\0\0\0\x05hello|";
    "u32, big, to varints", BIG_32, FRAMES_BIG_32, VARINT, Ending::End, ALL;
    "u32, little", LITTLE_32, FRAMES_LITTLE_32, LITTLE_32, Ending::End,
        b"\x03\0\0\0abc|\0\0\0\0|\x05\0\0\0hello|";
    "u32, little, to varints", LITTLE_32, FRAMES_LITTLE_32, VARINT, Ending::End, ALL;
};

// Echoes with one failure.
macro_rules! failed {
    ($($name:expr, $prefix:expr, $bytes:expr, $more:expr, $fails_at:expr, $first:expr, $written:expr, $rest:expr,
        $all:expr;)+) => {
        [$(Echo {
            name: $name, prefix: $prefix, bytes: $bytes, more: $more, other: $prefix, fails_at: $fails_at,
            first: $first, written: $written, rest: $rest, last: Ending::End, all: $all
        }),+]
    };
}

const PIPE: Ending = Ending::Io(ErrorKind::BrokenPipe);

const RESET: Ending = Ending::Io(ErrorKind::ConnectionReset);

const NEVER: usize = usize::MAX;

const FAILED_ECHOES: [Echo; 9] = failed! {
    "a read between two frames", VARINT, b"\x03abc", b"\0\x05hello", NEVER, RESET, b"\x03abc|", 0, ALL;
    "a read inside a body", VARINT, b"\x03abc\0\x05he", b"llo", NEVER, RESET, b"\x03abc|\0|", 0, ALL;
    "a read inside a length", BIG_16, b"\0\0\0", b"\x03abc", NEVER, RESET, b"\0\0|", 0, b"\0\0|\0\x03abc|";
    "the write of a length", VARINT, FRAMES, b"", 0, PIPE, b"", 4, ALL;
    "the write of a body", VARINT, FRAMES, b"", 1, PIPE, b"\x03", 3, ALL;
    "the first flush", VARINT, FRAMES, b"", 2, PIPE, b"\x03abc", 0, ALL;
    "the flush of an empty frame", VARINT, FRAMES, b"", 4, PIPE, b"\x03abc|\0", 0, ALL;
    "the write of the last body", VARINT, FRAMES, b"", 6, PIPE, b"\x03abc|\0|\x05", 5, ALL;
    "the last flush", VARINT, FRAMES, b"", 7, PIPE, b"\x03abc|\0|\x05hello", 0, ALL;
};

fn echoed<R: Read + Drop, W: Write + Drop>(
    from: &mut FrameReader<R>,
    to: &mut FrameWriter<W>,
) -> Ending {
    match echo(from, to) {
        Ok(()) => Ending::End,
        Err(error) => ending_by(error),
    }
}

fn assert_echoed(rt: &(impl Abort + AllocGlobal), case: &Echo) -> Result<(), Fail> {
    let name = case.name;
    let fails = !case.more.is_empty();
    let from = FakeReader::new(case.bytes, 2, fails.then_some(ErrorKind::ConnectionReset));
    let mut from = frame_reader(rt.alloc(), case.prefix, from)?;
    let to = FakeWriter::failing(rt.alloc(), 100, case.fails_at, ErrorKind::BrokenPipe);
    let mut to = frame_writer(rt.alloc(), case.other, to);
    let ending = echoed(&mut from, &mut to);
    assert_same!(rt; (ending, to.rest.len()), (case.first, case.rest), "{name}");
    assert_same!(rt; to.to.record.as_slice(), case.written, "{name}");
    if fails {
        from.from.give(case.more);
    }
    let ending = echoed(&mut from, &mut to);
    assert_same!(rt; (ending, to.to.record.as_slice()), (case.last, case.all), "{name}");
    Ok(())
}

#[test]
fn frames_are_echoed(rt: HostRuntime) -> Result<(), Fail> {
    for case in ECHOES.iter().chain(FAILED_ECHOES.iter()) {
        assert_echoed(&rt, case)?;
    }
    Ok(())
}
