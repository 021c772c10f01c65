//! Frames as lists of chunks, for writes of any size.
ghost use Rattle.std.specs.Prelude.{◌≡◌, ◌≢◌, ◌+◌, ◌-◌, ◌^◌, ◌≤◌, [], ◌∷◌, length, drop, min, nat_lt, take, IfErr};
ghost use Rattle.std.specs.Io.{WritesAtMost};
ghost use Rattle.std.specs.Io.KnownBytes.{WriteAppends};
ghost use Rattle.std.specs.Io.Slices.{io_slices_bytes};
ghost use Rattle.std.specs.IoError.{error_kind};
ghost use Rattle.std.specs.declared.io.ErrorKind.TheVariants.{Interrupted};
ghost use Rattle.iobufs_core.specs.declared.codec.base.BufError.TheVariants.{TooLong};
ghost use Rattle.iobufs_frames.specs.Prefixes.{bare};
ghost use Rattle.iobufs_frames.specs.Streams.{BeginsWriting, PutsFrame, SendsRest, unsent_bytes, unsent_frames};
ghost use Rattle.iobufs_frames.specs.Unsent.{ArePassed, IsFront, frames_bytes};
ghost use Rattle.iobufs_frames.specs.declared.lengths.Prefix.TheVariants.{Spelled};

use crate::queue::Queue;
use crate::rest::Rest;
use crate::unsent::Unsent;
use crate::{Layout, Prefix};
use bytes::Buf;
use iobufs::bufs::{BATCH, IoBufs, write_chunks_again};
use iobufs_core::codec::{BufError, RangeCfg, Refused};
use std::alloc::Global;
use std::collections::VecDeque;
use std::io::{self, ErrorKind, IoSlice, Write};

/// A writer to which whole frames are sent, of lengths in a range. Headers and chunks of all frames that were put are
/// written from where they are, up to `BATCH` at a time. Short frames after the first are copied into one block. Once
/// all is sent, a block above 4 KiB is freed; a smaller one stays, and the space for the list `more`.
#[derive(Drop)]
pub struct FrameWriter<W> {
    /// The writer: `&writer.to` and `&mut writer.to` are the `get_ref` and `get_mut` of std's writers.
    pub to: W,
    /// How the headers are laid out. A change applies to the next `put`.
    pub layout: Layout,
    /// The lengths that a body may have. A change applies to the next `put`.
    pub range: RangeCfg,
    /// The rest of the first frame that isn't sent whole, and copies of short ones after it; without bytes if all is
    /// sent.
    pub rest: Rest,
    /// The frames after `rest`, of which nothing is sent.
    pub more: Queue,
    /// Whether nothing was sent since this was set: a `send` that has bytes clears it. Set it after `to.flush()`, to
    /// spare the next flush.
    pub is_flushed: bool,
}

// A body that can't be sent, or can't wait.
fn too_long(body: IoBufs) -> Refused<IoBufs>
    ensures { result ≡ record { cause = TooLong; value = body } }
{
    Refused {
        cause: BufError::TooLong,
        value: body,
    }
}

impl<W: Drop> FrameWriter<W> {
    /// Makes a writer of frames with varint lengths. Allocates nothing.
    pub fn new(alloc: Global, to: W, range: RangeCfg) -> FrameWriter<W>
        ensures { BeginsWriting to (bare Spelled) range result }
    {
        FrameWriter::with_prefix(alloc, to, Prefix::Spelled, range)
    }

    /// Makes a writer of frames whose headers are their lengths, written as `prefix`. Allocates nothing.
    pub fn with_prefix(alloc: Global, to: W, prefix: Prefix, range: RangeCfg) -> FrameWriter<W>
        ensures { BeginsWriting to (bare prefix) range result }
    {
        FrameWriter::with_layout(alloc, to, Layout::bare(prefix), range)
    }

    /// Makes a writer of frames with this layout. Allocates nothing.
    pub fn with_layout(alloc: Global, to: W, layout: Layout, range: RangeCfg) -> FrameWriter<W>
        ensures { BeginsWriting to layout range result }
    {
        FrameWriter {
            to,
            layout,
            range,
            rest: Rest::new(alloc),
            more: Queue::new(alloc),
            is_flushed: true,
        }
    }

    /// Puts a frame of this body after those that aren't sent; nothing is sent yet. A body of one chunk and at most 256
    /// bytes may be copied if others aren't sent, and is then dropped here. The chunks of any other aren't copied.
    /// Fails with `BufError::TooLong` if the body's length is outside the range, if the length in the header doesn't
    /// fit (see `Prefix::fits`), if more than `usize::MAX` bytes would wait with it, or if the layout has bytes around
    /// the length. Fails with `BufError::Memory` if the list `more` can't grow; a body that can't be copied goes there.
    /// Nothing is allocated if all is sent.
    pub fn put(&mut self, body: IoBufs) -> Result<(), Refused<IoBufs>>
        ensures { PutsFrame [] [] self.old body result self.new }
    {
        self.put_with(&[], &[], body)
    }

    /// Acts as `put`, with a header that has these bytes before its length, and these after it. Fails with
    /// `BufError::TooLong` or `BufError::Memory` as `put` does, and with `BufError::TooLong` also if the layout has
    /// another number of bytes before the length or after it, or more than 22 in all.
    #[inline(always)]
    pub fn put_with(
        &mut self,
        before: &[u8],
        after: &[u8],
        body: IoBufs,
    ) -> Result<(), Refused<IoBufs>>
        ensures { PutsFrame before.now after.now self.old body result self.new }
    {
        let Some(head) = self
            .layout
            .header_within(before, after, body.len(), &self.range)
        else {
            return Err(too_long(body));
        };
        if self.more.is_empty() && self.rest.is_empty() {
            self.rest.set(Unsent::new(head, body));
            return Ok(());
        }
        if !self.can_wait(head.len() + body.len()) {
            return Err(too_long(body));
        }
        if self.more.is_empty() && self.rest.copy_in(&head, &body) {
            return Ok(());
        }
        self.more.push(Unsent::new(head, body))
    }

    // Returns whether `n` bytes can wait after those that do.
    #[inline(always)]
    fn can_wait(&self, n: usize) -> bool
        ensures { result ≡ nat_lt (length (unsent_bytes self.now) + n) (2 ^ 64) }
    {
        let space = usize::MAX - self.rest.len();
        self.more.len() <= space && n <= space - self.more.len()
    }

    /// Returns how many bytes wait: those of all frames that aren't sent. Returns `usize::MAX` if there are more, which
    /// `put` doesn't admit.
    pub fn unsent(&self) -> usize
        ensures { result ≡ min (length (unsent_bytes self.now)) (2 ^ 64 - 1) }
    {
        self.rest.len().saturating_add(self.more.len())
    }

    // Drops the first `n` unsent bytes, and frames of which none are left.
    #[inline(always)]
    fn drop_sent(&mut self, n: usize)
        requires { n ≤ length (unsent_bytes self.old) }
        ensures bytes { unsent_bytes self.new ≡ drop n (unsent_bytes self.old) }
        ensures passed { ArePassed (unsent_frames self.old) self.new.rest self.new.more }
        ensures settled { self.new.rest.bytes ≡ [] → self.new.more ≡ [] }
        ensures same { self.new ≡ record self.old { rest = self.new.rest; more = self.new.more } }
    {
        if self.more.is_empty() {
            self.rest.advance(n);
            return;
        }
        self.drop_frames(n);
    }

    // Acts as `drop_sent` if frames wait.
    #[inline(never)]
    #[tactic(auto, using(crate::proofs::UnsentLaws::passed_none))]
    fn drop_frames(&mut self, n: usize)
        requires { n ≤ length (unsent_bytes self.old) }
        ensures bytes { unsent_bytes self.new ≡ drop n (unsent_bytes self.old) }
        ensures passed { ArePassed (unsent_frames self.old) self.new.rest self.new.more }
        ensures settled { self.new.rest.bytes ≡ [] → self.new.more ≡ [] }
        ensures same { self.new ≡ record self.old { rest = self.new.rest; more = self.new.more } }
    {
        let mut left = n;
        while left >= self.rest.len() {
            let Some(next) = self.more.pop() else {
                break;
            };
            left -= self.rest.len();
            self.rest.set(next);
        }
        self.rest.advance(left);
    }
}

// Fills `dst` with the first chunks of these frames, and returns their number.
fn fill_slices<'a>(rest: &'a Rest, more: &'a VecDeque<Unsent>, dst: &mut [IoSlice<'a>]) -> usize
    ensures room { length dst.new ≡ length dst.old }
    ensures few { result ≤ length dst.old }
    ensures front { IsFront (io_slices_bytes (take result dst.new)) (frames_bytes (rest.now ∷ more.now.items)) }
{
    let mut count = rest.fill_slices(dst);
    for frame in more {
        if count == dst.len() {
            break;
        }
        count += frame.fill_slices(&mut dst[count..]);
    }
    count
}

// Writes the header, the first chunk and the copies once.
fn write_three<W: Write>(to: &mut W, rest: &Rest) -> io::Result<usize>
    ensures bound { WritesAtMost result rest.now.bytes }
    ensures bytes { WriteAppends (W.contents to.old) (W.contents to.new) result rest.now.bytes }
    ensures retried { IfErr result (λ error. error_kind error ≢ Interrupted) }
{
    let (head, chunk, copies) = rest.first_three();
    if copies.is_empty() {
        return write_chunks_again(to, &[IoSlice::new(head), IoSlice::new(chunk)]);
    }
    write_chunks_again(
        to,
        &[
            IoSlice::new(head),
            IoSlice::new(chunk),
            IoSlice::new(copies),
        ],
    )
}

// Writes the first chunks of these frames once, at most `BATCH`.
#[inline(never)]
fn write_batch<'a, W: Write>(
    to: &mut W,
    rest: &'a Rest,
    more: &'a VecDeque<Unsent>,
) -> io::Result<usize>
    ensures bound { WritesAtMost result (frames_bytes (rest.now ∷ more.now.items)) }
    ensures bytes { WriteAppends (W.contents to.old) (W.contents to.new) result
        (frames_bytes (rest.now ∷ more.now.items)) }
    ensures retried { IfErr result (λ error. error_kind error ≢ Interrupted) }
{
    let mut slices: [IoSlice<'a>; BATCH] = [IoSlice::new(&[]); BATCH];
    let count = fill_slices(rest, more, &mut slices);
    write_chunks_again(to, &slices[..count])
}

impl<W: Write + Drop> FrameWriter<W> {
    /// Sends all frames that were put, up to `BATCH` chunks at a time. An error is that of `write_chunks_again`, or
    /// `ErrorKind::WriteZero` if the writer takes no byte. After an error no byte is lost or sent twice: `send` may be
    /// called again.
    #[tactic(auto, using(crate::proofs::UnsentLaws::passed_none, iobufs::proofs::CallerFacts::sent_nothing))]
    pub fn send(&mut self) -> io::Result<()>
        ensures { SendsRest W.contents self.old result self.new }
    {
        if self.rest.is_empty() && self.more.is_empty() {
            return Ok(());
        }
        self.is_flushed = false;
        if self.rest.is_empty() {
            self.drop_sent(0);
        }
        while !self.rest.is_empty() {
            let n = self.write_front()?;
            if n == 0 {
                return Err(io::Error::from(ErrorKind::WriteZero));
            }
            self.drop_sent(n);
        }
        Ok(())
    }

    // Writes the first chunks once.
    fn write_front(&mut self) -> io::Result<usize>
        ensures bound { WritesAtMost result (unsent_bytes self.old) }
        ensures bytes { WriteAppends (W.contents self.old.to) (W.contents self.new.to) result (unsent_bytes self.old) }
        ensures retried { IfErr result (λ error. error_kind error ≢ Interrupted) }
        ensures same { self.new ≡ record self.old { to = self.new.to } }
    {
        if self.more.is_empty() && self.rest.is_single() {
            write_three(&mut self.to, &self.rest)
        } else {
            write_batch(&mut self.to, &self.rest, self.more.frames())
        }
    }
}
