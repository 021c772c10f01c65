// Frames over readers and writers that take and give as they like.
use iobufs_core::codec::{Error, RangeCfg};
use iobufs_frames::{FrameError, FrameReader, FrameWriter, Prefix};
use std::alloc::{AllocError, Global};
use std::io::{ErrorKind, Read, Write};
use std::test::Fail;
use tests_fixtures::text;

mod counts;
mod echoes;
mod errors;
mod fakes;
mod reading;
mod std_io;
mod writing;

// The lengths of short bodies, and of long ones.
const SHORT: RangeCfg = RangeCfg { lo: 0, hi: 8 };

const LONG: RangeCfg = RangeCfg { lo: 0, hi: 1 << 20 };

// `abc`, nothing and `hello`, as each prefix writes them.
const FRAMES: &[u8] = b"\x03abc\0\x05hello";

const FRAMES_BIG_16: &[u8] = b"\0\x03abc\0\0\0\x05hello";

const FRAMES_LITTLE_16: &[u8] = b"\x03\0abc\0\0\x05\0hello";

const FRAMES_BIG_24: &[u8] = b"\0\0\x03abc\0\0\0\0\0\x05hello";

const FRAMES_LITTLE_24: &[u8] = b"\x03\0\0abc\0\0\0\x05\0\0hello";

const FRAMES_BIG_32: &[u8] = b"\0\0\0\x03abc\0\0\0\0\0\0\0\x05hello";

const FRAMES_LITTLE_32: &[u8] = b"\x03\0\0\0abc\0\0\0\0\x05\0\0\0hello";

// Why no further frame comes.
#[derive(Clone, Copy, Debug, PartialEq, Eq)]
enum Ending {
    End,
    Cut,
    Bad(Error),
    Io(ErrorKind),
    Other,
}

fn ending_by(error: FrameError) -> Ending {
    match error {
        FrameError::Cut => Ending::Cut,
        FrameError::Frame(error) => Ending::Bad(error),
        FrameError::Io(error) => Ending::Io(error.kind()),
    }
}

fn frame_reader<R: Read + Drop>(
    alloc: Global,
    prefix: Prefix,
    from: R,
) -> Result<FrameReader<R>, AllocError> {
    match prefix {
        Prefix::Spelled => FrameReader::new(alloc, from, SHORT),
        _ => FrameReader::with_prefix(alloc, from, prefix, SHORT),
    }
}

fn frame_writer<W: Write + Drop>(alloc: Global, prefix: Prefix, to: W) -> FrameWriter<W> {
    match prefix {
        Prefix::Spelled => FrameWriter::new(alloc, to, SHORT),
        _ => FrameWriter::with_prefix(alloc, to, prefix, SHORT),
    }
}

// Puts a body of these chunks.
fn put_chunks<W: Write + Drop>(
    alloc: Global,
    writer: &mut FrameWriter<W>,
    chunks: &[&'static [u8]],
) -> Result<(), Fail> {
    writer.put(text(alloc, chunks)?)?;
    Ok(())
}

// Takes all bodies, with `|` after each, and returns why no further one comes.
fn take_bodies<R: Read + Drop>(
    reader: &mut FrameReader<R>,
    bodies: &mut Vec<u8>,
) -> Result<Ending, AllocError> {
    for _ in 0..9 {
        match reader.next() {
            Ok(Some(body)) => bodies.extend_from_slice(body.as_ref())?,
            Ok(None) => return Ok(Ending::End),
            Err(error) => return Ok(ending_by(error)),
        }
        bodies.push(b'|')?;
    }
    Ok(Ending::Other)
}
