// Frames of bytes that come in pieces.
use crate::word::{Ended, end, end_case, mark};
use iobufs::bufs::IoBufs;
use iobufs_core::buf::IoBuf;
use iobufs_core::codec::{BufError, Error, RangeCfg};
use iobufs_frames::{ByteOrder, End, Frames, Prefix, Run, Width, framed_with};
use std::alloc::Global;
use std::process::Abort;
use tests_fixtures::{rows, shows};

const RANGE: RangeCfg = RangeCfg { lo: 0, hi: 1024 };

// Two frames, the first in two pieces.
const FIRST: &[u8] = b"\x03ab";

const SECOND: &[u8] = b"c\x01d";

const PIECES: [&'static [u8]; 2] = [FIRST, SECOND];

// Those frames with lengths of two bytes.
const FIXED_PIECES: [&'static [u8]; 2] = [b"\0\x03ab", b"c\0\x01d"];

const FIXED: Prefix = Prefix::Fixed(Width::U16, ByteOrder::Big);

// Frames that were fed these pieces.
fn fed(alloc: Global, prefix: Prefix, pieces: &[&'static [u8]]) -> Result<Frames, BufError> {
    let mut frames = Frames::new(prefix);
    for piece in pieces {
        frames.feed(alloc, IoBuf::from(*piece))?;
    }
    Ok(frames)
}

// Feeds a chunk. A failure hands it back.
fn feed(alloc: Global, frames: &mut Frames, chunk: &'static [u8]) -> Result<(), BufError> {
    match frames.feed(alloc, IoBuf::from(chunk)) {
        Ok(()) => Ok(()),
        Err(refused) if refused.value.as_ref() == chunk => Err(refused.cause),
        Err(_) => Err(BufError::TooLong),
    }
}

// A name, fed chunks, a chunk more, and those that are held then.
const FEEDS: [(
    &'static str,
    &'static [&'static [u8]],
    &'static [u8],
    &'static [&'static [u8]],
); 2] = rows! {
    "feed_nothing", &[], FIRST, &[FIRST];
    "feed_behind_a_piece", &[FIRST], SECOND, &PIECES;
};

#[test]
fn feeds(rt: HostRuntime) {
    for (case, before, chunk, after) in FEEDS {
        let mut frames = fed(rt.alloc(), Prefix::Spelled, before).expect(&rt, "a fixture");
        let ((), word) = lent!(
            rt,
            feed(rt.alloc(), &mut frames, chunk),
            BufError::Memory,
            shows(frames.rest(), before)
        );
        end_case(&rt, case, word, shows(frames.rest(), after));
    }
}

// A name, a prefix, fed chunks, the body of the first frame, and the chunks that are left.
const NEXT: [(
    &'static str,
    Prefix,
    &'static [&'static [u8]],
    Option<&'static [u8]>,
    &'static [&'static [u8]],
); 3] = rows! {
    "next_across_pieces", Prefix::Spelled, &PIECES, Some(b"abc"), &[b"\x01d"];
    "next_of_an_open_front", Prefix::Spelled, &[FIRST], None, &[FIRST];
    "next_behind_a_fixed_length", FIXED, &FIXED_PIECES, Some(b"abc"), &[b"\0\x01d"];
};

#[test]
fn next(rt: HostRuntime) {
    for (case, prefix, before, wanted, left) in NEXT {
        let mut frames = fed(rt.alloc(), prefix, before).expect(&rt, "a fixture");
        let (body, word) = lent!(
            rt,
            frames.next(rt.alloc(), &RANGE),
            Error::Memory,
            shows(frames.rest(), before)
        );
        let is_wanted = match &body {
            Some(body) => wanted == Some(body.as_ref()),
            None => wanted.is_none(),
        };
        end_case(&rt, case, word, is_wanted && shows(frames.rest(), left));
    }
}

// The frames of new chunks.
fn run_of(alloc: Global) -> Result<Run, BufError> {
    let mut views = Vec::with_capacity(alloc, 2)?;
    for piece in PIECES {
        views.push(IoBuf::from(piece))?;
    }
    Frames::run(alloc, views, &RANGE)
}

#[test]
fn run(rt: HostRuntime) {
    let (run, word) = lent!(rt, run_of(rt.alloc()), BufError::Memory, true);
    let is_whole = run.frames.len() == 2 && run.rest.is_empty();
    end(&rt, word, is_whole && run.stop == End::Open);
}

// A body after its length. A failure hands the body back.
fn framed(alloc: Global) -> Result<IoBufs, BufError> {
    match framed_with(alloc, FIXED, IoBufs::from(b"abc".as_slice())) {
        Ok(frame) => Ok(frame),
        Err(refused) if shows(&refused.value, &[b"abc"]) => Err(refused.cause),
        Err(_) => Err(BufError::TooLong),
    }
}

#[test]
fn framed_behind_a_fixed_length(rt: HostRuntime) {
    let (frame, word) = lent!(rt, framed(rt.alloc()), BufError::Memory, true);
    end(&rt, word, shows(&frame, &[b"\0\x03", b"abc"]));
}

// How a length is written, the length, and its bytes.
const WRITTEN: [(&'static str, Prefix, usize, &'static [u8]); 2] = rows! {
    "a_fixed_length_is_written", FIXED, 3, b"\0\x03";
    "a_length_is_written", Prefix::Spelled, 300, b"\xac\x02";
};

#[test]
fn written(rt: HostRuntime) {
    for (case, prefix, n, bytes) in WRITTEN {
        let (length, word) = lent!(rt, prefix.written(rt.alloc(), n), BufError::Memory, true);
        end_case(&rt, case, word, length.as_ref() == bytes);
    }
}
