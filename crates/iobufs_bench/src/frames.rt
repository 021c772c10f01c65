// Frames that are read, and sent back.
use crate::run::{Run, RunError, Sum, begun};
use iobufs::bufs::IoBufs;
use iobufs_core::codec::RangeCfg;
use iobufs_frames::{FrameError, FrameReader, FrameWriter, Prefix};
use std::alloc::Global;
use std::io::{self, BufWriter, Read, Write};

// A writer that adds up the lengths of what it takes.
#[derive(Drop)]
struct Counter {
    sum: Sum,
}

impl Write for Counter {
    fn write(&mut self, buf: &[u8]) -> io::Result<usize> {
        self.sum.add(buf.len());
        Ok(buf.len())
    }

    fn flush(&mut self) -> io::Result<()> {
        Ok(())
    }
}

// So many frames of `len` bytes each.
fn frames(alloc: Global, count: usize, len: usize) -> Result<Vec<u8>, RunError> {
    let head = Prefix::Spelled.head(len);
    let mut bytes = Vec::new(alloc);
    for _ in 0..count {
        bytes.extend_from_slice(head.as_slice())?;
        bytes.resize(bytes.len().saturating_add(len), 7)?;
    }
    Ok(bytes)
}

fn send_back<R: Read + Drop, W: Write + Drop>(
    from: &mut FrameReader<R>,
    to: &mut FrameWriter<W>,
) -> Result<(), FrameError> {
    for _ in 0..u64::MAX {
        to.send()?;
        let Some(body) = from.next()? else {
            return Ok(());
        };
        if to.put(IoBufs::from(body)).is_err() {
            return Err(FrameError::Cut);
        }
    }
    Ok(())
}

/// Reads so many frames of `len` bytes, and writes each to a `BufWriter`.
pub fn echo(rt: &HostRuntime, count: usize, len: usize) -> Result<Run, RunError> {
    let bytes = frames(rt.alloc(), count, len)?;
    let range = RangeCfg { lo: 0, hi: len };
    let mut from = FrameReader::new(rt.alloc(), bytes.as_slice(), range)?;
    let to = BufWriter::new(rt.alloc(), Counter { sum: Sum::new() })?;
    let mut to = FrameWriter::new(rt.alloc(), to, range);
    let start = begun(rt);
    send_back(&mut from, &mut to)?;
    to.to.flush()?;
    Ok(Run::since(rt, start, count, to.to.get_ref().sum))
}
