// Errors of readers and writers: each kind but `Interrupted` is returned at once, and the next call goes on.
use crate::frames::VARINT;
use crate::same::assert_same;
use crate::streams::fakes::{FakeReader, FakeWriter, Interruptions};
use crate::streams::{Ending, FRAMES, SHORT, frame_reader, put_chunks, take_bodies};
use iobufs_frames::FrameWriter;
use std::alloc::Global;
use std::io::{self, ErrorKind, IoSlice, Write};
use std::process::Abort;
use std::test::Fail;
use tests_fixtures::{rows, text};

macro_rules! kinds {
    ($($kind:ident)+) => {
        [$(ErrorKind::$kind),+]
    };
}

// All kinds but `Interrupted`.
const KINDS: [ErrorKind; 41] = kinds! {
    NotFound PermissionDenied ConnectionRefused ConnectionReset HostUnreachable NetworkUnreachable ConnectionAborted
    NotConnected AddrInUse AddrNotAvailable NetworkDown BrokenPipe AlreadyExists WouldBlock NotADirectory IsADirectory
    DirectoryNotEmpty ReadOnlyFilesystem FilesystemLoop StaleNetworkFileHandle InvalidInput InvalidData TimedOut
    WriteZero StorageFull NotSeekable QuotaExceeded FileTooLarge ResourceBusy ExecutableFileBusy Deadlock CrossesDevices
    TooManyLinks InvalidFilename ArgumentListTooLong Unsupported UnexpectedEof OutOfMemory InProgress Other
    Uncategorized
};

// The bytes before the error, how many a read gives at most, the bodies that come then, and the number of reads; the
// bytes after the error, and all bodies.
type FailedRead = (
    &'static [u8],
    usize,
    &'static [u8],
    usize,
    &'static [u8],
    &'static [u8],
);

const FAILED_READS: [FailedRead; 4] = rows! {
    // The first read.
    b"", 100, b"", 1, b"\x03abc", b"abc|";
    // Frames that are held before the reader fails.
    FRAMES, 100, b"abc||hello|", 2, b"", b"abc||hello|";
    // A read inside a body.
    b"\x03a", 1, b"", 3, b"bc", b"abc|";
    // A read between two frames.
    b"\0", 100, b"|", 2, b"\x01d", b"|d|";
};

fn assert_failed_read(
    rt: &(impl Abort + AllocGlobal),
    kind: ErrorKind,
    case: &FailedRead,
) -> Result<(), Fail> {
    let (before, most, first, reads, after, all) = *case;
    let from = FakeReader::new(before, most, Some(kind));
    let mut reader = frame_reader(rt.alloc(), VARINT, from)?;
    let mut bodies = Vec::new(rt.alloc());
    assert_same!(rt; take_bodies(&mut reader, &mut bodies)?, Ending::Io(kind));
    assert_same!(rt; (bodies.as_slice(), reader.from.reads), (first, reads), "{kind:?}");
    reader.from.give(after);
    take_bodies(&mut reader, &mut bodies)?;
    assert_same!(rt; bodies.as_slice(), all, "{kind:?}");
    Ok(())
}

#[test]
fn an_error_is_returned_at_once(rt: HostRuntime) -> Result<(), Fail> {
    for kind in &KINDS {
        for case in &FAILED_READS {
            assert_failed_read(&rt, *kind, case)?;
        }
    }
    Ok(())
}

// A frame of seven bytes in three chunks, of which a write fails: its number, how many bytes a write takes at most, the
// bytes that are written before, and how many are left.
type FailedWrite = (usize, usize, &'static [u8], usize);

const FAILED_WRITES: [FailedWrite; 5] = rows! {
    0, 100, b"", 7;
    1, 100, b"\x06", 6;
    2, 100, b"\x06abc", 3;
    2, 2, b"\x06ab", 4;
    6, 1, b"\x06abcde", 1;
};

// The error is of this kind, no call came after the one that failed, and none is a flush.
fn assert_failed_write(
    rt: &impl Abort,
    kind: ErrorKind,
    case: &FailedWrite,
    ended: io::Result<()>,
    to: &FakeWriter,
    rest: usize,
) {
    let (fails_at, _, written, left) = *case;
    let found = ended.err().map(|error| error.kind());
    assert_same!(rt; (found, to.calls, rest), (Some(kind), fails_at.saturating_add(1), left));
    assert_same!(rt; to.record.as_slice(), written, "{kind:?}");
}

fn assert_failed_send(
    rt: &(impl Abort + AllocGlobal),
    kind: ErrorKind,
    case: &FailedWrite,
) -> Result<(), Fail> {
    let to = FakeWriter::failing(rt.alloc(), case.1, case.0, kind);
    let mut writer = FrameWriter::new(rt.alloc(), to, SHORT);
    put_chunks(rt.alloc(), &mut writer, &[b"abc", b"def"])?;
    let ended = writer.send();
    assert_failed_write(rt, kind, case, ended, &writer.to, writer.rest.len());
    writer.send()?;
    assert_same!(rt; writer.to.record.as_slice(), b"\x06abcdef".as_slice());
    Ok(())
}

#[test]
fn the_rest_of_a_frame_is_written_later(rt: HostRuntime) -> Result<(), Fail> {
    for kind in &KINDS {
        for case in &FAILED_WRITES {
            assert_failed_send(&rt, *kind, case)?;
        }
    }
    Ok(())
}

fn assert_failed_write_to(
    rt: &(impl Abort + AllocGlobal),
    kind: ErrorKind,
    case: &FailedWrite,
) -> Result<(), Fail> {
    let mut rest = text(rt.alloc(), &[b"\x06", b"abc", b"def"])?;
    let mut to = FakeWriter::failing(rt.alloc(), case.1, case.0, kind);
    let ended = rest.write_to(&mut to);
    assert_failed_write(rt, kind, case, ended, &to, rest.len());
    rest.write_to(&mut to)?;
    assert_same!(rt; to.record.as_slice(), b"\x06abcdef".as_slice());
    Ok(())
}

#[test]
fn refused_chunks_are_left(rt: HostRuntime) -> Result<(), Fail> {
    for kind in &KINDS {
        for case in &FAILED_WRITES {
            assert_failed_write_to(&rt, *kind, case)?;
        }
    }
    Ok(())
}

// A frame of four bytes in two chunks, of which one write fails, and none is interrupted: whether a vectored write goes
// on to the second chunk, as Rattle's does and Rust's doesn't, the number of the write that fails, how many bytes a
// write takes at most, whether `send` fails, and what is written and left then. An error after bytes of the same
// vectored write is dropped.
type FailedOnce = (bool, usize, usize, bool, &'static [u8], usize);

const FAILED_ONCE: [FailedOnce; 8] = rows! {
    true, 0, 100, true, b"", 4;
    true, 1, 100, false, b"\x03abc", 0;
    true, 1, 1, false, b"\x03abc", 0;
    true, 2, 1, true, b"\x03a", 2;
    false, 0, 100, true, b"", 4;
    false, 1, 100, true, b"\x03", 3;
    false, 1, 1, true, b"\x03", 3;
    false, 2, 1, true, b"\x03a", 2;
};

fn failing_once(alloc: Global, most: usize, fails_at: usize) -> FakeWriter {
    let mut to = FakeWriter::failing(alloc, most, fails_at, ErrorKind::BrokenPipe);
    to.interruptions = Interruptions::new(0);
    to
}

fn assert_failed_once(rt: &(impl Abort + AllocGlobal), case: &FailedOnce) -> Result<(), Fail> {
    let (_, fails_at, most, fails, written, left) = *case;
    let to = failing_once(rt.alloc(), most, fails_at);
    let mut writer = FrameWriter::new(rt.alloc(), to, SHORT);
    put_chunks(rt.alloc(), &mut writer, &[b"abc"])?;
    let found = (writer.send().is_err(), writer.rest.len());
    assert_same!(rt; found, (fails, left), "{fails_at} by {most}");
    assert_same!(rt; writer.to.record.as_slice(), written, "{fails_at} by {most}");
    writer.send()?;
    assert_same!(rt; writer.to.record.as_slice(), b"\x03abc".as_slice());
    Ok(())
}

#[test]
fn a_frame_is_sent_by_a_writer_that_fails_once(rt: HostRuntime) -> Result<(), Fail> {
    let chunks = [IoSlice::new(b"a"), IoSlice::new(b"b")];
    let all = failing_once(rt.alloc(), 100, 9).write_vectored(&chunks)? == 2;
    for case in &FAILED_ONCE {
        if case.0 == all {
            assert_failed_once(&rt, case)?;
        }
    }
    Ok(())
}

// The error comes after bytes of the only chunk.
#[test]
fn an_error_inside_a_chunk_is_returned(rt: HostRuntime) -> Result<(), Fail> {
    let mut rest = text(rt.alloc(), &[b"abcd"])?;
    let mut to = failing_once(rt.alloc(), 2, 1);
    let error = rest.write_to(&mut to).err().map(|error| error.kind());
    assert_same!(rt; (error, rest.len()), (Some(ErrorKind::BrokenPipe), 2));
    rest.write_to(&mut to)?;
    assert_same!(rt; to.record.as_slice(), b"abcd".as_slice());
    Ok(())
}

// A writer that takes no byte of a write is asked once.
#[test]
fn a_write_of_no_bytes_is_an_error(rt: HostRuntime) -> Result<(), Fail> {
    let mut rest = text(rt.alloc(), &[b"ab", b"cd"])?;
    let mut to = FakeWriter::new(rt.alloc(), 0);
    let error = rest.write_to(&mut to).err().map(|error| error.kind());
    assert_same!(rt; (error, to.calls, rest.len()), (Some(ErrorKind::WriteZero), 1, 4));
    Ok(())
}
