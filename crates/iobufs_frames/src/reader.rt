//! Whole frames from reads of any size.
ghost use Rattle.std.specs.Prelude.{◌≡◌, ◌<◌, ◌^◌, IfOk, length};
ghost use Rattle.iobufs_frames.specs.Frames.{has_bytes, is_any, is_body, is_whole};
ghost use Rattle.iobufs_frames.specs.Prefixes.{bare};
ghost use Rattle.iobufs_frames.specs.Receiving.{is_bytes_view};
ghost use Rattle.iobufs_frames.specs.Streams.{BeginsReading, Fills, ReadsMore, TakesFrame, TakesHeld, TakesWholeFrame};
ghost use Rattle.iobufs_frames.specs.declared.lengths.Prefix.TheVariants.{Spelled};

use crate::{FrameError, Layout, Prefix, Received};
use iobufs_core::buf::IoBuf;
use iobufs_core::codec::{Error, RangeCfg};
use std::alloc::{AllocError, Global};
use std::io::{self, ErrorKind, Read};

/// A reader from which whole frames are taken, of lengths in a range.
#[derive(Drop)]
pub struct FrameReader<R> {
    /// The reader: `&reader.from` and `&mut reader.from` are the `get_ref` and `get_mut` of std's readers.
    pub from: R,
    /// The lengths that a body may have. A change applies to the next frame, even if its length was already decoded.
    pub range: RangeCfg,
    /// The bytes that were read and not taken.
    pub held: Received,
}

impl<R: Drop> FrameReader<R> {
    /// Makes a reader of frames with varint lengths, and allocates space for one read. Fails with `AllocError`.
    pub fn new(alloc: Global, from: R, range: RangeCfg) -> Result<FrameReader<R>, AllocError>
        ensures { IfOk result (BeginsReading from (bare Spelled) range) }
    {
        FrameReader::with_prefix(alloc, from, Prefix::Spelled, range)
    }

    /// Makes a reader of frames whose headers are their lengths, written as `prefix`. Fails with `AllocError`.
    pub fn with_prefix(
        alloc: Global,
        from: R,
        prefix: Prefix,
        range: RangeCfg,
    ) -> Result<FrameReader<R>, AllocError>
        ensures { IfOk result (BeginsReading from (bare prefix) range) }
    {
        FrameReader::with_layout(alloc, from, Layout::bare(prefix), range)
    }

    /// Makes a reader of frames with this layout. Fails with `AllocError`.
    pub fn with_layout(
        alloc: Global,
        from: R,
        layout: Layout,
        range: RangeCfg,
    ) -> Result<FrameReader<R>, AllocError>
        ensures { IfOk result (BeginsReading from layout range) }
    {
        let mut held = Received::with_layout(alloc, layout);
        held.make_space()?;
        Ok(FrameReader { from, range, held })
    }

    /// Sets the layout of the next frames.
    pub fn set_layout(&mut self, layout: Layout)
        ensures { self.new ≡ record self.old { held = record self.old.held { layout = layout } } }
    {
        self.held.set_layout(layout);
    }

    /// Takes the next frame if it is held whole, and returns its body; `None` if it isn't. Reads nothing, and fails as
    /// `Received::next` does.
    #[inline(always)]
    pub fn try_next(&mut self) -> Result<Option<IoBuf>, Error>
        ensures { TakesHeld is_body has_bytes is_bytes_view self.old result self.new }
    {
        self.held.next(&self.range)
    }

    /// Takes the next frame with its header, as `try_next` takes its body, and returns how many bytes the header has.
    /// Fails as `try_next` does.
    #[inline(always)]
    pub fn try_next_whole(&mut self) -> Result<Option<(usize, IoBuf)>, Error>
        ensures { TakesHeld (is_whole self.old.held.layout (λ view. view.bytes)) is_any (λ whole. is_bytes_view whole.1)
            self.old result self.new }
    {
        self.held.next_whole(&self.range)
    }
}

impl<R: Read + Drop> FrameReader<R> {
    // Reads once, and again if a signal interrupts it. Returns whether no byte came.
    fn fill(&mut self) -> io::Result<bool>
        requires { 0 < self.old.held.space }
        ensures { Fills R.remaining self.old result self.new }
    {
        for _ in 0..u64::MAX {
            match self.held.read_from(&mut self.from) {
                Err(error) if error.kind() == ErrorKind::Interrupted => {}
                Err(error) => return Err(error),
                Ok(n) => return Ok(n == 0),
            }
        }
        Err(io::Error::from(ErrorKind::TimedOut))
    }

    // Makes space if there is none, and reads once. At the end of the input, returns `false` if no byte is held, else
    // `FrameError::Cut`.
    fn read_more(&mut self) -> Result<bool, FrameError>
        ensures more { ReadsMore R.remaining self.old result self.new }
        ensures bound { length self.old.held.bytes < 2 ^ 63 }
    {
        let len = self.held.len();
        if let Err(error) = self.held.make_space() {
            return Err(FrameError::Io(io::Error::from(error)));
        }
        if !self.fill()? {
            return Ok(true);
        }
        if len == 0 {
            Ok(false)
        } else {
            Err(FrameError::Cut)
        }
    }

    /// Takes the next frame, and returns its body; `None` at the end of the input. Starts no read while a whole frame
    /// is held. After an error no byte is lost: all that was read is held, and `next` may be called again.
    pub fn next(&mut self) -> Result<Option<IoBuf>, FrameError>
        ensures { TakesFrame R.remaining self.old result self.new }
    {
        loop {
            if let Some(body) = self.held.next(&self.range)? {
                return Ok(Some(body));
            }
            if !self.read_more()? {
                return Ok(None);
            }
        }
    }

    /// Takes the next frame with its header, as `next` takes its body, and returns how many bytes the header has.
    pub fn next_whole(&mut self) -> Result<Option<(usize, IoBuf)>, FrameError>
        ensures { TakesWholeFrame R.remaining self.old result self.new }
    {
        loop {
            if let Some(whole) = self.held.next_whole(&self.range)? {
                return Ok(Some(whole));
            }
            if !self.read_more()? {
                return Ok(None);
            }
        }
    }
}
