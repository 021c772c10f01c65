// Frames to a writer, and from a reader to a writer. `tests/gate/costs.py` has the numbers that are wanted: a frame
// that is put and sent allocates nothing, and an echo allocates blocks, and a header for each that is filled.
use crate::word::{Ended, end_case, mark};
use iobufs::bufs::IoBufs;
use iobufs_core::buf::IoBuf;
use iobufs_core::codec::{BufError, Error, RangeCfg};
use iobufs_frames::{ByteOrder, FrameError, FrameReader, FrameWriter, Prefix, Width};
use std::alloc::Global;
use std::io::{self, ErrorKind, Write};
use std::mem;
use std::process::Abort;
use tests_fixtures::rows;

const RANGE: RangeCfg = RangeCfg { lo: 0, hi: 1 << 18 };

const FIXED: Prefix = Prefix::Fixed(Width::U32, ByteOrder::Big);

// A writer that counts the writes, and the bytes that it takes, at most `most` at a time.
#[derive(Drop)]
struct Counter {
    most: usize,
    writes: usize,
    taken: usize,
}

impl Counter {
    fn new(most: usize) -> Counter {
        Counter {
            most,
            writes: 0,
            taken: 0,
        }
    }
}

impl Write for Counter {
    fn write(&mut self, buf: &[u8]) -> io::Result<usize> {
        let n = buf.len().min(self.most);
        self.writes = self.writes.wrapping_add(1);
        self.taken = self.taken.wrapping_add(n);
        Ok(n)
    }

    fn flush(&mut self) -> io::Result<()> {
        Ok(())
    }
}

// A name, a prefix, how many chunks a body has and how long each is, how many bytes a write takes at most, and how many
// writes and bytes the frame takes.
const FRAMES: [(&'static str, Prefix, usize, usize, usize, usize, usize); 5] = rows! {
    "an_empty_frame_is_sent", Prefix::Spelled, 0, 0, 100, 1, 1;
    "a_frame_is_sent", Prefix::Spelled, 1, 3, 100, 2, 4;
    "a_frame_is_sent_byte_by_byte", FIXED, 1, 3, 1, 7, 7;
    "a_frame_of_five_chunks_is_sent", FIXED, 5, 2, 3, 7, 14;
    "a_frame_of_long_chunks_is_sent", Prefix::Spelled, 2, 100000, usize::MAX, 3, 200003;
};

fn text(alloc: Global, chunks: usize, len: usize) -> Result<IoBufs, BufError> {
    let mut bytes = Vec::new(alloc);
    bytes.resize(len, 7)?;
    let chunk: &'static [u8] = bytes.leak();
    let mut text = IoBufs::default();
    for _ in 0..chunks {
        text.append(alloc, IoBuf::from(chunk))?;
    }
    Ok(text)
}

// Puts a frame, and sends it.
fn send(writer: &mut FrameWriter<Counter>, body: &mut IoBufs) -> Result<(), BufError> {
    if !writer.rest.is_empty() {
        return Err(BufError::TooLong);
    }
    writer.put(mem::take(body))?;
    match writer.send() {
        Ok(()) => Ok(()),
        Err(_) => Err(BufError::TooLong),
    }
}

#[test]
fn sends(rt: HostRuntime) {
    for (case, prefix, chunks, len, most, writes, taken) in FRAMES {
        let mut body = text(rt.alloc(), chunks, len).expect(&rt, "a fixture");
        let mut writer = FrameWriter::with_prefix(rt.alloc(), Counter::new(most), prefix, RANGE);
        let ((), word) = lent!(rt, send(&mut writer, &mut body), BufError::Memory, true);
        end_case(
            &rt,
            case,
            word,
            writer.rest.is_empty() && writer.to.writes == writes && writer.to.taken == taken,
        );
    }
}

// A name, and how many frames of 64 bytes come.
const ECHOES: [(&'static str, usize); 3] = rows! {
    "an_echo_of_60_frames", 60;
    "an_echo_of_20000_frames", 20000;
    "an_echo_of_40000_frames", 40000;
};

// So many frames of 64 bytes.
fn frames(alloc: Global, count: usize) -> Result<&'static [u8], BufError> {
    let mut bytes = Vec::new(alloc);
    for _ in 0..count {
        bytes.push(64)?;
        bytes.resize(bytes.len().saturating_add(64), 7)?;
    }
    Ok(bytes.leak())
}

fn cause_of(error: FrameError) -> BufError {
    match error {
        FrameError::Frame(Error::Memory) => BufError::Memory,
        FrameError::Io(error) if error.kind() == ErrorKind::OutOfMemory => BufError::Memory,
        _ => BufError::TooLong,
    }
}

// Sends the frames back that come.
fn echoed(
    from: &mut FrameReader<&'static [u8]>,
    to: &mut FrameWriter<Counter>,
) -> Result<(), BufError> {
    for _ in 0..u64::MAX {
        if to.send().is_err() {
            return Err(BufError::TooLong);
        }
        let Some(body) = from.next().map_err(cause_of)? else {
            return Ok(());
        };
        to.put(IoBufs::from(body))?;
    }
    Ok(())
}

#[test]
fn echoes(rt: HostRuntime) {
    for (case, count) in ECHOES {
        let bytes = frames(rt.alloc(), count).expect(&rt, "a fixture");
        let mut from = FrameReader::new(rt.alloc(), bytes, RANGE).expect(&rt, "a fixture");
        let mut to = FrameWriter::new(rt.alloc(), Counter::new(usize::MAX), RANGE);
        let ((), word) = lent!(rt, echoed(&mut from, &mut to), BufError::Memory, true);
        end_case(&rt, case, word, to.to.taken == bytes.len());
    }
}
