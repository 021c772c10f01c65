//! Frames over the kit's `tokio_util`: `FramedRead::new(alloc, from, FrameCodec::new(prefix, range))`, and as well
//! `FramedWrite` and `Framed`.
#![tactic(auto)]

ghost use Rattle.std.specs.Prelude.{◌≡◌, IfOk, IfSome};
ghost use Rattle.iobufs_core.specs.View.{view_of_bytes};
ghost use Rattle.iobufs_tokio_util.specs.Decoding.{RefusesBody, gives_frames, writes_frame};
ghost use Rattle.iobufs_tokio_util.specs.DecodingLaws.{end_is_partial, partial_has_no_frame, stable};
ghost use Rattle.iobufs_frames.specs.Frames.{TakesFirst};
ghost use Rattle.iobufs_frames.specs.Prefixes.{bare};

use bytes::{BufMut, BytesMut};
use iobufs::bufs::IoBufs;
use iobufs_core::buf::IoBuf;
use iobufs_core::codec::{Error, RangeCfg};
use iobufs_frames::{FrameError, Layout, Prefix, Received};
use std::mem;
use tokio_util::codec::{Decoder, Encoder};

/// A codec of frames. A body that is decoded shares the block that it was read into; one that is encoded is copied.
#[derive(Drop)]
pub struct FrameCodec {
    /// How the headers are laid out. A body is encoded only if a header is its length alone.
    pub layout: Layout,
    /// The lengths that a body may have.
    pub range: RangeCfg,
}

impl FrameCodec {
    /// Makes a codec of frames whose headers are their lengths, written as `prefix`.
    pub fn new(prefix: Prefix, range: RangeCfg) -> FrameCodec
        ensures { result ≡ record { layout = bare prefix; range = range } }
    {
        FrameCodec {
            layout: Layout::bare(prefix),
            range,
        }
    }

    // Takes the first frame, if it is there whole.
    fn take(&self, src: &mut BytesMut) -> Result<Option<IoBuf>, Error>
        ensures first { TakesFirst self.now.layout self.now.range src.old.items result src.new.items }
        ensures shares { IfOk result (λ found. IfSome found (λ body. body ≡ view_of_bytes body.bytes)) }
    {
        let mut held = Received::with_layout(*src.allocator(), self.layout);
        mem::swap(held.block_mut(), src);
        let found = held.next(&self.range);
        mem::swap(held.block_mut(), src);
        found
    }
}

impl Decoder for FrameCodec {
    type Item = IoBuf;

    type Error = FrameError;

    ghost gives = { gives_frames };

    fn decode(&mut self, src: &mut BytesMut) -> Result<Option<IoBuf>, FrameError> {
        Ok(self.take(src)?)
    }

    fn decode_eof(&mut self, src: &mut BytesMut) -> Result<Option<IoBuf>, FrameError> {
        match self.take(src)? {
            None if !src.is_empty() => Err(FrameError::Cut),
            found => Ok(found),
        }
    }

    ghost stable = { stable };

    ghost partial_has_no_frame = { partial_has_no_frame };

    ghost end_is_partial = { end_is_partial };
}

impl Encoder<IoBufs> for FrameCodec {
    type Error = FrameError;

    ghost encodes = { writes_frame };

    ghost refuses = { RefusesBody };

    fn encode(&mut self, item: IoBufs, dst: &mut BytesMut) -> Result<(), FrameError> {
        let Some(head) = self.layout.header_within(&[], &[], item.len(), &self.range) else {
            return Err(FrameError::Frame(Error::TooLong));
        };
        let before = dst.len();
        if dst.extend_from_slice(head.as_slice()).is_err() {
            return Err(FrameError::Frame(Error::Memory));
        }
        if dst.put(item).is_err() {
            dst.truncate(before);
            return Err(FrameError::Frame(Error::Memory));
        }
        Ok(())
    }
}
