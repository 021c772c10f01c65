// A text of up to six chunks of two bytes, cut at each place by six calls, also if its deque wraps.
use crate::same::assert_same;
use iobufs::bufs::IoBufs;
use iobufs_core::buf::IoBuf;
use iobufs_core::codec::{Buf, BufError, OwnedBuf};
use std::alloc::{AllocError, Global};
use std::process::Abort;
use std::test::Fail;
use tests_fixtures::chunks;

const BYTES: [u8; 12] = *b"abcdefghijkl";

const CHUNKS: [&'static [u8]; 6] = [b"ab", b"cd", b"ef", b"gh", b"ij", b"kl"];

// The first chunks. So many of these are prepended, one after the other, once the others are there.
fn text_of(alloc: Global, count: usize, prepended: usize) -> Result<IoBufs, BufError> {
    let mut text = IoBufs::default();
    for i in prepended..count {
        let chunk = CHUNKS.get(i).copied().unwrap_or_default();
        text.append(alloc, IoBuf::from(chunk))?;
    }
    for i in 0..prepended {
        let chunk = CHUNKS.get(prepended - 1 - i).copied().unwrap_or_default();
        text.prepend(alloc, IoBuf::from(chunk))?;
    }
    Ok(text)
}

// The bytes of a range, with `|` before each at an even offset but the first.
fn model(alloc: Global, from: usize, to: usize) -> Result<Vec<u8>, AllocError> {
    let mut shown = Vec::new(alloc);
    for (i, byte) in BYTES.iter().enumerate() {
        if from < i && i < to && i % 2 == 0 {
            shown.push(b'|')?;
        }
        if from <= i && i < to {
            shown.push(*byte)?;
        }
    }
    Ok(shown)
}

fn assert_shows(
    rt: &(impl Abort + AllocGlobal),
    text: &IoBufs,
    from: usize,
    to: usize,
) -> Result<(), Fail> {
    let (shown, wanted) = (chunks(rt.alloc(), text)?, model(rt.alloc(), from, to)?);
    assert_same!(rt; shown.as_slice(), wanted.as_slice(), "{from}..{to}");
    Ok(())
}

// The bytes before a place are split off, and so is the rest.
fn assert_split(rt: &(impl Abort + AllocGlobal), whole: &IoBufs, at: usize) -> Result<(), Fail> {
    let mut rest = whole.clone()?;
    let front = rest.try_split_to(rt.alloc(), at).ok_or("too short")??;
    assert_shows(rt, &front, 0, at)?;
    assert_shows(rt, &rest, at, whole.len())
}

fn assert_truncated(
    rt: &(impl Abort + AllocGlobal),
    whole: &IoBufs,
    at: usize,
) -> Result<(), Fail> {
    let mut kept = whole.clone()?;
    kept.truncate(rt.alloc(), at)?;
    assert_shows(rt, &kept, 0, at)
}

// The bytes before a place are skipped.
fn assert_advanced(rt: &(impl Abort + AllocGlobal), whole: &IoBufs, at: usize) -> Result<(), Fail> {
    let mut advanced = whole.clone()?;
    assert!(rt; at <= advanced.remaining());
    advanced.advance(at);
    assert_shows(rt, &advanced, at, whole.len())
}

// The bytes before a place are copied out.
fn assert_copied(rt: &(impl Abort + AllocGlobal), whole: &IoBufs, at: usize) -> Result<(), Fail> {
    let (mut copied, mut copy) = (whole.clone()?, vec![in rt.alloc(); 0u8; at]?);
    copied.try_copy_to_slice(copy.as_mut_slice())?;
    assert_same!(rt; copy.as_slice(), BYTES.get(..at).unwrap_or_default());
    assert_shows(rt, &copied, at, whole.len())
}

// The bytes before a place are taken as one buffer.
fn assert_taken(rt: &(impl Abort + AllocGlobal), whole: &IoBufs, at: usize) -> Result<(), Fail> {
    let mut taken = whole.clone()?;
    let view = taken.try_take_owned::<IoBuf>(rt.alloc(), at)?;
    assert_same!(rt; view.as_ref(), BYTES.get(..at).unwrap_or_default());
    assert_shows(rt, &taken, at, whole.len())
}

#[test]
fn texts_are_cut_at_each_place(rt: HostRuntime) -> Result<(), Fail> {
    for count in 0..7usize {
        for prepended in 0..=count {
            let whole = text_of(rt.alloc(), count, prepended)?;
            for at in 0..=whole.len() {
                assert_split(&rt, &whole, at)?;
                assert_truncated(&rt, &whole, at)?;
                assert_advanced(&rt, &whole, at)?;
                assert_copied(&rt, &whole, at)?;
                assert_taken(&rt, &whole, at)?;
            }
        }
    }
    Ok(())
}

#[test]
fn texts_are_sliced_at_each_place(rt: HostRuntime) -> Result<(), Fail> {
    for count in 0..7usize {
        for prepended in 0..=count {
            let whole = text_of(rt.alloc(), count, prepended)?;
            for from in 0..=whole.len() {
                for to in from..=whole.len() {
                    let slice = whole.try_slice(rt.alloc(), from..to).ok_or("too short")??;
                    assert_shows(&rt, &slice, from, to)?;
                }
            }
        }
    }
    Ok(())
}
