// Bodies of HTTP messages.
ghost use Rattle.std.specs.Prelude.{◌≡◌, ◌==◌, if◌then◌else◌, length, None, Some};
ghost use Rattle.http_body.specs.SizeHint.{exact};
ghost use Rattle.tokio.specs.Io.Steps.{Yields};
ghost use Rattle.iobufs_examples.specs.Web.{StepsChunk, TakesChunk};

use bytes::Bytes;
use futures::task::{Context, Poll};
use http_body::{Body, Frame, SizeHint};
use http_body_util::Full;
use iobufs::bufs::IoBufs;
use iobufs_core::codec::{Buf, BufError};
use std::alloc::Global;

/// Makes a body of an `IoBufs`: one frame of all its chunks, which aren't copied; no frame if there are no bytes.
pub fn body(text: IoBufs) -> Full<IoBufs>
    ensures { result.buf ≡ (if length text.bytes == 0 then None else Some text) }
{
    Full::new(text)
}

/// Returns how long the body of an `IoBufs` is.
pub fn hint(text: IoBufs) -> SizeHint
    ensures { exact result ≡ Some (length text.bytes) }
{
    body(text).size_hint()
}

/// A body of the chunks of an `IoBufs`, a `Bytes` each, as hyper requires. Only a chunk of native storage is copied.
#[derive(Drop)]
pub struct ChunkBody {
    pub text: IoBufs,
    alloc: Global,
}

impl ChunkBody {
    /// Makes a body of the chunks of an `IoBufs`.
    pub fn new(alloc: Global, text: IoBufs) -> ChunkBody
        ensures { result.text ≡ text }
    {
        ChunkBody { text, alloc }
    }

    // Takes the first chunk.
    fn next_chunk(&mut self) -> Option<Result<Bytes, BufError>>
        ensures { TakesChunk self.old.text.bytes result self.new.text.bytes }
    {
        let n = self.text.chunk().len();
        if n == 0 {
            return None;
        }
        Some(self.text.copy_to_bytes(self.alloc, n))
    }

    // Takes the first chunk as a frame.
    fn step(&mut self) -> Poll<Option<Result<Frame<Bytes>, BufError>>>
        ensures { StepsChunk self.old result self.new }
    {
        match self.next_chunk() {
            Some(Ok(bytes)) => Poll::Ready(Some(Ok(Frame::data(bytes)))),
            Some(Err(cause)) => Poll::Ready(Some(Err(cause))),
            None => Poll::Ready(None),
        }
    }
}

impl Body for ChunkBody {
    type Data = Bytes;

    type Error = BufError;

    ghost yields = { Yields StepsChunk };

    fn poll_frame(
        &mut self,
        _cx: &mut Context<'_>,
    ) -> Poll<Option<Result<Frame<Bytes>, BufError>>> {
        self.step()
    }
}
