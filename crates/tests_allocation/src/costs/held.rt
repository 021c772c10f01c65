// How much memory is held for bytes that are received, for buffers that are coalesced, and for chunks after others
// are gone. A test prints the most bytes held since its last line. `tests/gate/costs.py` compares the memory that was
// allocated and not freed meanwhile.
use crate::costs::calls::ANY;
use crate::costs::drawn::Draw;
use crate::word::mark;
use iobufs::bufs::IoBufs;
use iobufs_core::buf::IoBuf;
use iobufs_core::codec::{Buf, BufError};
use iobufs_frames::{FrameReader, Prefix, Received};
use std::alloc::Global;
use std::io::{self, Read};
use std::process::Abort;
use std::test::Fail;
use tests_fixtures::{parts, rows};

// A name, how many frames there are, how many bytes a body has, how many bytes come at a time at most, and whether
// bodies are kept.
type Case = (&'static str, usize, usize, usize, bool);

const CASES: [Case; 7] = rows! {
    "a_byte_at_a_time", 30000, 64, 1, false;
    "short_bodies_that_are_kept", 30000, 3, 1, true;
    "short_bodies_that_come_together", 60000, 3, 65536, true;
    "a_mebibyte_byte_by_byte", 1, 1048576, 1, true;
    "mebibytes_that_are_dropped", 5, 1048576, 4096, false;
    "bodies_above_half_a_block", 60, 33000, 65536, true;
    "bodies_above_a_block", 30, 70000, 1000, true;
};

// Bytes that were not read, and how many a read gives at most.
#[derive(Drop)]
struct Source {
    rest: &'static [u8],
    most: usize,
}

impl Read for Source {
    fn read(&mut self, buf: &mut [u8]) -> io::Result<usize> {
        let mut part = self.rest.get(..self.most).unwrap_or(self.rest);
        let n = part.read(buf)?;
        self.rest = self.rest.get(n..).unwrap_or_default();
        Ok(n)
    }
}

// Adds a frame of so many bytes.
fn push_frame(bytes: &mut Vec<u8>, len: usize) -> Result<(), BufError> {
    bytes.extend_from_slice(Prefix::Spelled.head(len).as_slice())?;
    bytes.resize(bytes.len().saturating_add(len), 7)?;
    Ok(())
}

fn source_of(alloc: Global, case: &Case) -> Result<Source, BufError> {
    let (_, count, len, most, _) = *case;
    let mut bytes = Vec::new(alloc);
    for _ in 0..count {
        push_frame(&mut bytes, len)?;
    }
    Ok(Source {
        rest: bytes.leak(),
        most,
    })
}

// Takes the frames that are whole, and returns how many bytes the bodies have that are kept.
fn take_frames(
    received: &mut Received,
    kept: &mut Vec<IoBuf>,
    is_kept: bool,
) -> Result<usize, BufError> {
    let mut held = 0usize;
    for _ in 0..u64::MAX {
        match received.next(&ANY) {
            Ok(Some(body)) if is_kept => {
                held = held.saturating_add(body.len());
                kept.push(body)?;
            }
            Ok(Some(_)) => {}
            _ => return Ok(held),
        }
    }
    Ok(held)
}

// Receives the frames, and prints the most bytes that were held, for each 1,000 bytes or each read.
fn receive(rt: &(impl Print + Abort + AllocGlobal), case: &Case) -> Result<(), Fail> {
    let mut from = source_of(rt.alloc(), case)?;
    let mut kept = Vec::with_capacity(rt.alloc(), case.1)?;
    let mut received = Received::new(rt.alloc(), Prefix::Spelled);
    let (mut held, mut most, mut unprinted) = (0usize, 0usize, 0usize);
    mark(rt, "call");
    for _ in 0..u64::MAX {
        received.make_space()?;
        let n = received.read_from(&mut from)?;
        if n == 0 {
            break;
        }
        most = most.max(held.saturating_add(received.len()));
        held = held.saturating_add(take_frames(&mut received, &mut kept, case.4)?);
        unprinted = unprinted.saturating_add(n);
        if unprinted >= 1000 {
            println!(rt; "held {most}")?;
            most = held.saturating_add(received.len());
            unprinted = 0;
        }
    }
    println!(rt; "{} {most}", case.0)?;
    assert!(rt;
        from.rest.is_empty() && received.len() == 0,
        "{}: bytes are left",
        case.0
    );
    Ok(())
}

// The body of the frame after the first `skipped` ones, without the reader and the other bodies.
fn body_alone(alloc: Global, from: Source, skipped: usize) -> Result<IoBuf, BufError> {
    let mut reader = FrameReader::new(alloc, from, ANY)?;
    for _ in 0..skipped {
        if reader.next().is_err() {
            return Err(BufError::TooLong);
        }
    }
    match reader.next() {
        Ok(Some(body)) => Ok(body),
        _ => Err(BufError::TooLong),
    }
}

// Reads frames of drawn lengths, keeps the body of one of them, and prints how many bytes its frame has.
fn keep_one(rt: &(impl Print + Abort + AllocGlobal), draw: &mut Draw) -> Result<(), Fail> {
    let (skipped, most) = (draw.below(5), draw.size(100000));
    let (mut bytes, mut before, mut len) = (Vec::new(rt.alloc()), 0usize, 0usize);
    for _ in 0..=skipped {
        (before, len) = (bytes.len(), draw.size(1000000));
        push_frame(&mut bytes, len)?;
    }
    let size = bytes.len().saturating_sub(before);
    push_frame(&mut bytes, draw.size(1000000))?;
    let rest = bytes.leak();
    mark(rt, "call");
    let body = body_alone(rt.alloc(), Source { rest, most }, skipped)?;
    println!(rt; "dropped")?;
    println!(rt; "alone {size}")?;
    assert!(rt; body.len() == len, "{} bytes for {len}", body.len());
    Ok(())
}

// Coalesces a hundred times two bytes in a long buffer and two more, and keeps them.
fn coalesce_many(rt: &(impl Print + Abort + AllocGlobal)) -> Result<(), Fail> {
    let mut kept = Vec::with_capacity(rt.alloc(), 100)?;
    mark(rt, "call");
    for _ in 0..100usize {
        let both = parts(rt.alloc(), &[(b"ab", 8192), (b"cd", 0)])?;
        kept.push(both.coalesce(rt.alloc())?)?;
    }
    println!(rt; "coalesced_buffers 400")?;
    Ok(())
}

// Advances 65,536 chunks without storage to the last one, which keeps no deque for the others.
fn drain_chunks(rt: &(impl Print + Abort + AllocGlobal)) -> Result<(), Fail> {
    let mut text = IoBufs::default();
    mark(rt, "call");
    for _ in 0..65536usize {
        text.append(rt.alloc(), IoBuf::from(b"ab".as_slice()))?;
    }
    println!(rt; "chunks {}", 65536 * 64)?;
    assert!(rt; text.try_advance(131070), "chunks are missing");
    println!(rt; "advanced {}", 65536 * 64)?;
    println!(rt; "last_chunk {}", text.len())?;
    Ok(())
}

#[test]
fn held(rt: HostRuntime) -> Result<(), Fail> {
    for case in &CASES {
        receive(&rt, case)?;
    }
    let mut draw = Draw::new(&rt);
    for _ in 0..40usize {
        keep_one(&rt, &mut draw)?;
    }
    coalesce_many(&rt)?;
    drain_chunks(&rt)
}
