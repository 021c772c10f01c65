// How many reads and writes a frame takes, and long frames.
use crate::frames::VARINT;
use crate::same::assert_same;
use crate::streams::LONG;
use crate::streams::fakes::{FakeReader, FakeWriter, Interruptions};
use iobufs::bufs::IoBufs;
use iobufs_core::codec::BufError;
use iobufs_frames::{FrameReader, FrameWriter, framed_with};
use std::alloc::Global;
use std::io::ErrorKind;
use std::process::Abort;
use std::test::Fail;
use tests_fixtures::{rows, text};

// How often each call is interrupted, how many bytes it moves at most, a body's chunks, and how many reads and writes
// its frame takes.
type Counting = (usize, usize, &'static [&'static [u8]], usize, usize);

const COUNTINGS: [Counting; 7] = rows! {
    0, usize::MAX, &[], 1, 1;
    0, usize::MAX, &[&[7; 1000]], 1, 2;
    0, usize::MAX, &[&[7; 500], &[7; 500]], 1, 3;
    0, 1, &[&[7; 100]], 101, 101;
    0, 7, &[&[7; 1000]], 144, 144;
    1000, usize::MAX, &[&[7; 1000]], 1, 2;
    1000, 7, &[&[7; 500], &[7; 500]], 144, 145;
};

// The length of the frame of these bytes, how many reads it takes, and whether all interruptions came. The reader fails
// if it is read after them.
fn read_counted(
    alloc: Global,
    bytes: &'static [u8],
    each: usize,
    most: usize,
) -> Result<(usize, usize, bool), Fail> {
    let mut from = FakeReader::new(bytes, most, Some(ErrorKind::Other));
    from.interruptions = Interruptions::new(each);
    let mut reader = FrameReader::new(alloc, from, LONG)?;
    let found = reader.next()?.ok_or("no frame")?;
    let from = &reader.from;
    Ok((found.len(), from.reads, from.interruptions.are_over()))
}

// Whether the frame of this body is sent as these bytes, how many writes it takes, and whether all interruptions came.
fn write_counted(
    alloc: Global,
    body: IoBufs,
    bytes: &[u8],
    each: usize,
    most: usize,
) -> Result<(bool, usize, bool), Fail> {
    let mut to = FakeWriter::new(alloc, most);
    to.interruptions = Interruptions::new(each);
    let mut writer = FrameWriter::new(alloc, to, LONG);
    writer.put(body)?;
    writer.send()?;
    let to = &writer.to;
    Ok((
        to.record.as_slice() == bytes,
        to.calls,
        to.interruptions.are_over(),
    ))
}

// The frame of a body.
fn framed_bytes(alloc: Global, body: IoBufs) -> Result<&'static [u8], BufError> {
    let framed = framed_with(alloc, VARINT, body)?;
    let bytes: &'static [u8] = framed.to_vec(alloc)?.leak();
    Ok(bytes)
}

fn assert_counted(rt: &(impl Abort + AllocGlobal), case: &Counting) -> Result<(), Fail> {
    let (each, most, chunks, reads, writes) = *case;
    let n = chunks.len();
    let body = text(rt.alloc(), chunks)?;
    let len = body.len();
    let bytes = framed_bytes(rt.alloc(), body.clone()?)?;
    let found = read_counted(rt.alloc(), bytes, each, most)?;
    let sent = write_counted(rt.alloc(), body, bytes, each, most)?;
    assert_same!(rt; found, (len, reads, true), "{n} chunks by {most}");
    assert_same!(rt; sent, (true, writes, true), "{n} chunks by {most}");
    Ok(())
}

// Reads and writes that are interrupted are made again, and no others.
#[test]
fn reads_and_writes_are_counted(rt: HostRuntime) -> Result<(), Fail> {
    for case in &COUNTINGS {
        assert_counted(&rt, case)?;
    }
    Ok(())
}

// Lengths of bodies, of which some fill a block with their frame.
const LONG_BODIES: [usize; 12] = [
    4094,
    4095,
    8190,
    16381,
    16384,
    65533,
    65534,
    65535,
    65536,
    70000,
    1 << 19,
    1 << 20,
];

// A long frame is read, and sent back.
fn assert_sent_back(
    rt: &(impl Abort + AllocGlobal),
    reader: &mut FrameReader<FakeReader<'static>>,
    writer: &mut FrameWriter<FakeWriter>,
    n: usize,
) -> Result<(), Fail> {
    let bytes = framed_bytes(rt.alloc(), long(rt.alloc(), n)?)?;
    reader.from.give(bytes);
    let body = reader.next()?.ok_or("no frame")?;
    writer.send()?;
    writer.to.record.clear();
    writer.put(IoBufs::from(body))?;
    writer.send()?;
    assert!(rt; writer.to.record.as_slice() == bytes, "{n}");
    Ok(())
}

// Each long frame is sent back before the next comes, in short reads and writes, and no read comes after its end.
#[test]
fn long_frames_go_in_turn(rt: HostRuntime) -> Result<(), Fail> {
    let alloc = rt.alloc();
    let from = FakeReader::new(b"", 1000, Some(ErrorKind::Other));
    let mut reader = FrameReader::new(alloc, from, LONG)?;
    let mut writer = FrameWriter::new(alloc, FakeWriter::new(alloc, 1000), LONG);
    for n in &LONG_BODIES {
        assert_sent_back(&rt, &mut reader, &mut writer, *n)?;
    }
    Ok(())
}

// A body of `len` bytes.
pub fn long(alloc: Global, len: usize) -> Result<IoBufs, BufError> {
    let mut bytes = Vec::new(alloc);
    bytes.resize(len, 7)?;
    IoBufs::from_vec(bytes)
}
