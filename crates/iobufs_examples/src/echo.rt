// Frames sent back to a writer.
use iobufs::bufs::IoBufs;
use iobufs_core::codec::Error;
use iobufs_frames::{FrameError, FrameReader, FrameWriter};
use std::io::{Read, Write};

// [docs: echo]
/// Sends each frame that is read, until the input ends. The writer is flushed before a read, and before an error of
/// the reader, but not while a whole frame is held. An error loses no frame that can be sent, and sends none twice:
/// `echo` may be called again.
pub fn echo<R: Read + Drop, W: Write + Drop>(
    from: &mut FrameReader<R>,
    to: &mut FrameWriter<W>,
) -> Result<(), FrameError> {
    for _ in 0..u64::MAX {
        to.send()?;
        let held = from.try_next();
        if !to.is_flushed && !matches!(&held, Ok(Some(_))) {
            to.to.flush()?;
            to.is_flushed = true;
        }
        let found = match held? {
            Some(body) => Some(body),
            None => from.next()?,
        };
        let Some(body) = found else {
            return Ok(());
        };
        to.put(IoBufs::from(body)).map_err(Error::from)?;
    }
    Ok(())
}
// [docs end]
