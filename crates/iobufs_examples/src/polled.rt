// An `IoBufs`, and a frame, handed to an async writer.
ghost use Rattle.std.specs.Prelude.{◌≡◌, ◌<◌, ◌≤◌, [], length, drop, map, take, IfOk};
ghost use Rattle.std.specs.Io.Slices.{io_slice_bytes};
ghost use Rattle.iobufs_core.specs.MarkedText.{text_chunks};
ghost use Rattle.futures.specs.Poll.{OnPending};
ghost use Rattle.futures.specs.Task.{Covers, Keeps};
ghost use Rattle.tokio.specs.Io.Moved.{IfReadyErr, OnReadyOk, TakesWritten, WriteFails, bytes_moved, count_moved};

use futures::task::{Context, Poll};
use iobufs::bufs::IoBufs;
use iobufs_core::codec::Buf;
use iobufs_frames::FrameWriter;
use std::alloc::Global;
use std::io::{self, ErrorKind, IoSlice};
use tokio::io::{AsyncWrite, poll_write_all_buf};

// How many chunks are written at a time.
const MOST: usize = 64;

// The first chunks of an `IoBufs`, at most `most` of them.
fn batch(alloc: Global, text: &IoBufs, most: usize) -> io::Result<Vec<IoSlice<'_>>>
    ensures { IfOk result (λ slices. map io_slice_bytes slices.items ≡ take most (text_chunks text.now)) }
{
    let Ok(chunks) = text.chunks_vectored(alloc, most) else {
        return Err(io::Error::from(ErrorKind::OutOfMemory));
    };
    let mut slices = Vec::new(alloc);
    for chunk in chunks {
        slices.push(IoSlice::new(chunk))?;
    }
    Ok(slices)
}

// Writes the first chunks in one call, and says how many bytes the writer took.
fn poll_batch<W: AsyncWrite>(
    alloc: Global,
    to: &mut W,
    cx: &mut Context<'_>,
    text: &IoBufs,
) -> Poll<io::Result<usize>>
    ensures bound { count_moved result ≤ length text.now.bytes }
    ensures bytes { W.writes to.old (bytes_moved result text.now.bytes) to.new }
    ensures registered { OnPending result (Covers cx.new (W.needs to.new)) }
    ensures kept { Keeps cx.old cx.new }
{
    match batch(alloc, text, MOST) {
        Ok(slices) => to.poll_write_vectored(cx, &slices),
        Err(error) => Poll::Ready(Err(error)),
    }
}

/// Writes the first chunks, up to 64 of them in one call, and drops from the front what was taken.
pub fn poll_send<W: AsyncWrite>(
    alloc: Global,
    to: &mut W,
    cx: &mut Context<'_>,
    text: &mut IoBufs,
) -> Poll<io::Result<usize>>
    ensures bytes { W.writes to.old (bytes_moved result text.old.bytes) to.new }
    ensures rest { text.new.bytes ≡ drop (count_moved result) text.old.bytes }
    ensures registered { OnPending result (Covers cx.new (W.needs to.new)) }
    ensures kept { Keeps cx.old cx.new }
{
    let polled = poll_batch(alloc, to, cx, text);
    if let Poll::Ready(Ok(n)) = &polled {
        bytes::Buf::advance(text, *n);
    }
    polled
}

// [docs: poll_frame]
/// Sends `frames.rest`, chunk by chunk: the first frame that isn't sent, whose body isn't copied, and copies of short
/// ones after it. If it is pending, or after an error, no byte is lost or sent twice, and the next call goes on.
pub fn poll_frame<W: AsyncWrite>(
    frames: &mut FrameWriter<W>,
    cx: &mut Context<'_>,
) -> Poll<io::Result<()>>
    ensures sent { TakesWritten W.writes frames.old.to frames.new.to frames.old.rest.bytes frames.new.rest.bytes }
    ensures all { OnReadyOk result (frames.new.rest.bytes ≡ []) }
    ensures left { OnPending result (0 < length frames.new.rest.bytes) }
    ensures failed { IfReadyErr result (WriteFails W.fails W.is_full frames.new.to) }
    ensures registered { OnPending result (Covers cx.new (W.needs frames.new.to)) }
    ensures kept { Keeps cx.old cx.new }
{
    poll_write_all_buf(&mut frames.to, cx, &mut frames.rest)
}
// [docs end]
