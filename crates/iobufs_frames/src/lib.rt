// Frames of bytes that come in chunks, also from std's readers and to its writers: each is a header followed by a body.
// `reader` takes whole frames out of reads of any size. `writer` sends frames chunk by chunk, by writes of any size.
#![tactic(auto)]

ghost use Rattle.std.specs.Prelude.{◌≡◌, ◌≢◌, ◌⊎◌, ℕ, ◌+◌, ◌^◌, ◌<◌, ◌≤◌, List, ◌++◌, length, OnOk, OnErr, IfOk, IfErr, IsOk, IsErrAnd, IsOkUnless, IfNone, IfSome};
ghost use Rattle.iobufs.specs.Refusals.{Adds};
ghost use Rattle.iobufs_core.specs.MarkedText.{default_text, text_append};
ghost use Rattle.iobufs_frames.specs.Frames.{AreMoved, HasBodies, HasStaticBody, IsCutFrom, IsSplitFrom, LacksFrame, MatchTaken, TakesFirst, TakesWhole, bodies, joined_bytes};
ghost use Rattle.iobufs_frames.specs.Prefixes.{bare};
ghost use Rattle.iobufs_frames.specs.declared.lengths.Prefix.TheVariants.{Spelled};

pub mod adapters;
mod block;
pub mod error;
mod heads;
pub mod laws;
mod lengths;
pub mod queue;
pub mod reader;
pub mod rest;
mod shown;
pub mod unsent;
pub mod writer;

pub use adapters::Writer;
pub use block::Received;
pub use error::FrameError;
pub use heads::Head;
use iobufs::bufs::IoBufs;
use iobufs_core::buf::IoBuf;
use iobufs_core::codec::{BufError, Error, OwnedBuf, RangeCfg, Refused};
use lengths::sizes_of;
pub use lengths::{ByteOrder, Layout, Prefix, Width, framed_with, framed_with_layout};
pub use reader::FrameReader;
use std::alloc::Global;
pub use writer::FrameWriter;

/// Why no further frame follows the frames of some bytes.
#[derive(Clone, Copy, Debug, PartialEq, Eq)]
pub enum End {
    /// The length may continue, or it is in the range and its frame isn't whole. More bytes need not make a frame
    /// whole: each length that begins with `80 80 80` is above 1024, and yet these bytes are open in 0 to 1024.
    Open,
    /// No further bytes make a frame: `Error::InvalidVarint`, or `Error::InvalidLength`.
    Bad(Error),
}

/// Bytes that are fed at the end, and whole frames that are taken from the front. A frame is a header followed by a
/// body; the layout says where in the header the length is, and how it is written.
pub struct Frames {
    /// How the headers are laid out. A change applies to the next frame.
    pub layout: Layout,
    // The bytes that were fed and not taken.
    rest: IoBufs,
}

impl Drop for Frames {
    fn drop(self) {
        let Frames { layout: _, rest: _ } = self;
    }
}

impl Default for Frames {
    ghost is_default = { λ frames. (frames.layout ≡ bare Spelled) × (frames.rest ≡ default_text) };

    fn default() -> Frames {
        Frames::new(Prefix::Spelled)
    }
}

impl Frames {
    /// Makes a `Frames` without bytes, for frames whose headers are their lengths, written as `prefix`.
    pub fn new(prefix: Prefix) -> Frames
        ensures layout { result.layout ≡ bare prefix }
        ensures empty { result.rest ≡ default_text }
    {
        Frames::with_layout(Layout::bare(prefix))
    }

    /// Makes a `Frames` without bytes, for frames with this layout.
    pub fn with_layout(layout: Layout) -> Frames
        ensures layout { result.layout ≡ layout }
        ensures empty { result.rest ≡ default_text }
    {
        Frames {
            layout,
            rest: IoBufs::default(),
        }
    }

    /// Borrows the bytes that were fed and not taken.
    pub fn rest(&self) -> &IoBufs
        ensures { result.now ≡ self.now.rest }
    {
        &self.rest
    }

    /// Adds bytes at the end, as `IoBufs::append` does. Fails with `BufError::TooLong` or `BufError::Memory`.
    pub fn feed(&mut self, alloc: Global, piece: IoBuf) -> Result<(), Refused<IoBuf>>
        ensures added { Adds (text_append self.old.rest piece) self.old.rest piece result self.new.rest }
        ensures bytes { OnOk result (self.new.rest.bytes ≡ self.old.rest.bytes ++ piece.bytes) }
        ensures layout { self.new.layout ≡ self.old.layout }
        ensures nothing { length piece.bytes ≡ 0 → IsOk result }
        ensures onto_nothing { length self.old.rest.bytes ≡ 0 → IsOk result }
    {
        self.rest.append(alloc, piece)
    }

    /// Takes the first frame, and returns its body; `None` if it is not whole yet. Fails with `Error::InvalidVarint`
    /// (of varints alone) or `Error::InvalidLength` if no further bytes can make it whole, or with `Error::Memory`,
    /// unless the body is empty or in one static chunk. Unless a frame is taken, the rest is unchanged.
    pub fn next(&mut self, alloc: Global, range: &RangeCfg) -> Result<Option<IoBuf>, Error>
        ensures next { TakesFirst self.old.layout range.now self.old.rest.bytes result self.new.rest.bytes }
        ensures left { MatchTaken result (λ body. (self.new.layout ≡ self.old.layout)
            × IsCutFrom self.old.layout self.old.rest self.new.rest body) (self.new ≡ self.old) }
        ensures static_text { HasStaticBody self.old.layout self.old.rest
            → IfErr result (λ error. error ≢ Error.Memory) }
    {
        let Some(found) = self.layout.length_in(&self.rest)? else {
            return Ok(None);
        };
        let Some(sizes) = sizes_of(self.layout, found, self.rest.len(), range)? else {
            return Ok(None);
        };
        match self.rest.take_owned_after(alloc, sizes.header, sizes.body) {
            Ok(body) => Ok(Some(body)),
            Err(_) => Err(Error::Memory),
        }
    }

    /// Takes the first frame with its header, as `next` takes its body, and returns how many bytes the header has. The
    /// frame's chunks aren't copied. Fails with `Error::InvalidVarint`, `Error::InvalidLength` or `Error::Memory`. A
    /// frame of several chunks may need an allocation even if its body is static.
    pub fn next_whole(
        &mut self,
        alloc: Global,
        range: &RangeCfg,
    ) -> Result<Option<(usize, IoBufs)>, Error>
        ensures next { TakesWhole (λ text. text.bytes) self.old.layout range.now self.old.rest.bytes result
            self.new.rest.bytes }
        ensures left { MatchTaken result (λ whole. (self.new.layout ≡ self.old.layout)
            × IsSplitFrom self.old.rest self.new.rest whole.1) (self.new ≡ self.old) }
    {
        let Some(length) = self.layout.length_in(&self.rest)? else {
            return Ok(None);
        };
        let Some(parts) = sizes_of(self.layout, length, self.rest.len(), range)? else {
            return Ok(None);
        };
        match self.rest.split_to(alloc, parts.header + parts.body) {
            Ok(frame) => Ok(Some((parts.header, frame))),
            Err(_) => Err(Error::Memory),
        }
    }

    fn into_rest(self) -> IoBufs
        ensures { result ≡ self.rest }
    {
        let Frames { layout: _, rest } = self;
        rest
    }

    // Moves the first frame to the end of those that were found; if there is none, returns why.
    fn move_frame(
        &mut self,
        alloc: Global,
        range: &RangeCfg,
        found: &mut Vec<IoBuf>,
    ) -> Result<Option<End>, BufError>
        ensures layout { self.new.layout ≡ self.old.layout }
        ensures moved { IfOk result (λ end. IfNone end
            (AreMoved self.old.layout range.now (bodies found.old.items) self.old.rest.bytes
            (bodies found.new.items) self.new.rest.bytes)) }
        ensures shorter { IfOk result (λ end. IfNone end (length self.new.rest.bytes < length self.old.rest.bytes)) }
        ensures ends { IfOk result (λ end. IfSome end (LacksFrame self.old.layout range.now self.old.rest.bytes)) }
        ensures spelled { IfOk result (λ end. IfSome end (λ end. end ≡ End.Bad Error.InvalidVarint
            → self.old.layout.prefix ≡ Prefix.Spelled)) }
        ensures same { IfOk result (λ end. IfSome end (λ _. (self.new ≡ self.old)
            × (found.new.items ≡ found.old.items))) }
        ensures memory { IsOkUnless result BufError.Memory }
    {
        match self.next(alloc, range) {
            Ok(Some(body)) => {
                found.push(body)?;
                Ok(None)
            }
            Ok(None) => Ok(Some(End::Open)),
            Err(Error::Memory) => Err(BufError::Memory),
            Err(error) => Ok(Some(End::Bad(error))),
        }
    }

    // Moves all whole frames to the end of those that were found, and returns why there is no further one.
    fn move_frames(
        &mut self,
        alloc: Global,
        range: &RangeCfg,
        found: &mut Vec<IoBuf>,
    ) -> Result<End, BufError>
        ensures layout { self.new.layout ≡ self.old.layout }
        ensures moved { OnOk result (AreMoved self.old.layout range.now (bodies found.old.items) self.old.rest.bytes
            (bodies found.new.items) self.new.rest.bytes) }
        ensures ends { IfOk result (LacksFrame self.old.layout range.now self.new.rest.bytes) }
        ensures spelled { IfOk result (λ end. end ≡ End.Bad Error.InvalidVarint
            → self.old.layout.prefix ≡ Prefix.Spelled) }
        ensures memory { IsOkUnless result BufError.Memory }
    {
        loop {
            if let Some(end) = self.move_frame(alloc, range, found)? {
                return Ok(end);
            }
        }
    }

    // Adds a chunk to the rest, and moves the frames that it makes whole, unless the rest was bad before.
    fn feed_and_move(
        &mut self,
        alloc: Global,
        range: &RangeCfg,
        found: &mut Vec<IoBuf>,
        stop: End,
        piece: IoBuf,
    ) -> Result<End, BufError>
        ensures layout { self.new.layout ≡ self.old.layout }
        ensures framed { IfOk result (λ end. (text : List ℕ)
            → HasBodies self.old.layout range.now text (bodies found.old.items) stop self.old.rest.bytes
            → HasBodies self.old.layout range.now (text ++ piece.bytes)
            (bodies found.new.items) end self.new.rest.bytes) }
        ensures spelled { (stop ≡ End.Bad Error.InvalidVarint → self.old.layout.prefix ≡ Prefix.Spelled)
            → IfOk result (λ end. end ≡ End.Bad Error.InvalidVarint → self.old.layout.prefix ≡ Prefix.Spelled) }
        ensures memory { length self.old.rest.bytes + length piece.bytes < 2 ^ 64 → IsOkUnless result BufError.Memory }
        ensures causes { IfErr result (λ cause. (cause ≡ BufError.Memory) ⊎ (cause ≡ BufError.TooLong)) }
    {
        self.feed(alloc, piece)?;
        match stop {
            End::Open => self.move_frames(alloc, range, found),
            End::Bad(_) => Ok(stop),
        }
    }

    /// Takes all frames with varint lengths of bytes that come in chunks, each as soon as it is whole. Fails with
    /// `BufError::Memory`, or with `BufError::TooLong` only if the bytes are more than `usize::MAX`. An error drops the
    /// chunks.
    pub fn run(alloc: Global, pieces: Vec<IoBuf>, range: &RangeCfg) -> Result<Run, BufError>
        ensures framed { IfOk result (λ run. HasBodies (bare Spelled) range.now (joined_bytes pieces.items)
            (bodies run.frames.items) run.stop run.rest.bytes) }
        ensures memory { length (joined_bytes pieces.items) < 2 ^ 64 → IsOkUnless result BufError.Memory }
        ensures nothing { length pieces.items ≡ 0 → IsOk result }
        ensures causes { IfErr result (λ cause. (cause ≡ BufError.Memory) ⊎ (cause ≡ BufError.TooLong)) }
    {
        Frames::run_with(alloc, Prefix::Spelled, pieces, range)
    }

    /// Acts as `run` on frames whose lengths are written as `prefix`.
    pub fn run_with(
        alloc: Global,
        prefix: Prefix,
        pieces: Vec<IoBuf>,
        range: &RangeCfg,
    ) -> Result<Run, BufError>
        ensures framed { IfOk result (λ run. HasBodies (bare prefix) range.now (joined_bytes pieces.items)
            (bodies run.frames.items) run.stop run.rest.bytes) }
        ensures spelled { IfOk result (λ run. run.stop ≡ End.Bad Error.InvalidVarint → prefix ≡ Prefix.Spelled) }
        ensures memory { length (joined_bytes pieces.items) < 2 ^ 64 → IsOkUnless result BufError.Memory }
        ensures nothing { length pieces.items ≡ 0 → IsOk result }
        ensures causes { IfErr result (λ cause. (cause ≡ BufError.Memory) ⊎ (cause ≡ BufError.TooLong)) }
    {
        Frames::run_with_layout(alloc, Layout::bare(prefix), pieces, range)
    }

    /// Acts as `run` on frames with this layout.
    pub fn run_with_layout(
        alloc: Global,
        layout: Layout,
        pieces: Vec<IoBuf>,
        range: &RangeCfg,
    ) -> Result<Run, BufError>
        ensures framed { IfOk result (λ run. HasBodies layout range.now (joined_bytes pieces.items)
            (bodies run.frames.items) run.stop run.rest.bytes) }
        ensures spelled { IfOk result (λ run. run.stop ≡ End.Bad Error.InvalidVarint → layout.prefix ≡ Prefix.Spelled) }
        ensures memory { length (joined_bytes pieces.items) < 2 ^ 64 → IsOkUnless result BufError.Memory }
        ensures nothing { length pieces.items ≡ 0 → IsOk result }
        ensures causes { IfErr result (λ cause. (cause ≡ BufError.Memory) ⊎ (cause ≡ BufError.TooLong)) }
    {
        let mut frames = Frames::with_layout(layout);
        let mut found = Vec::new(alloc);
        let mut stop = End::Open;
        for piece in pieces {
            stop = frames.feed_and_move(alloc, range, &mut found, stop, piece)?;
        }
        Ok(Run {
            frames: found,
            stop,
            rest: frames.into_rest(),
        })
    }
}

/// The frames of bytes that came in chunks.
#[derive(Drop)]
pub struct Run {
    /// The bodies of its frames, in order.
    pub frames: Vec<IoBuf>,
    /// Why no further frame follows.
    pub stop: End,
    /// The bytes after the last frame.
    pub rest: IoBufs,
}
