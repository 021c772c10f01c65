// Texts of several chunks.
ghost use Rattle.std.specs.Prelude.{◌≤◌, length};

use crate::same::assert_same;
use bytes::Bytes;
use iobufs::bufs::IoBufs;
use iobufs::bufs_mut::IoBufsMut;
use iobufs_core::buf::{IoBuf, IoBufMut};
use iobufs_core::codec::{Buf, BufError, BufMut, OwnedBuf};
use std::alloc::{AllocError, Global};
use std::process::Abort;
use std::test::Fail;
use tests_fixtures::{chunks, part, rows, text};

struct Case {
    name: &'static str,
    // The chunks of a text, and their spare capacity if they are native.
    pieces: &'static [&'static [u8]],
    spare: Option<usize>,
    // How many bytes are taken out first, how many are skipped then, and how many after them are taken out.
    before: usize,
    skip: usize,
    n: usize,
    // Their kind, as `owned` tells it, and the chunks that are left.
    wanted: &'static [u8],
    left: &'static [u8],
}

macro_rules! cases {
    ($($name:expr, $pieces:expr, $spare:expr, $before:expr, $skip:expr, $n:expr, $wanted:expr, $left:expr;)+) => {
        [$(Case {
            name: $name, pieces: $pieces, spare: $spare, before: $before, skip: $skip, n: $n, wanted: $wanted,
            left: $left
        }),+]
    };
}

const OWNED: [Case; 6] = cases! {
    "bytes inside a chunk", &[b"ab", b"cd"], None, 0, 0, 1, b"a|declined", b"b|cd";
    "bytes inside a chunk, and then across two", &[b"ab", b"cd"], None, 1, 0, 2, b"bc|2", b"d";
    "bytes across two of four chunks", &[b"ab", b"cd", b"ef", b"gh"], None, 0, 1, 2, b"bc|2", b"d|ef|gh";
    "bytes across two of four native chunks", &[b"ab", b"cd", b"ef", b"gh"], Some(6), 0, 1, 2, b"bc|2", b"d|ef|gh";
    "a whole chunk of four", &[b"ab", b"cd", b"ef", b"gh"], None, 0, 2, 2, b"cd|declined", b"ef|gh";
    "a whole native chunk of four", &[b"ab", b"cd", b"ef", b"gh"], Some(6), 0, 2, 2, b"cd|8", b"ef|gh";
};

fn chunked(
    alloc: Global,
    chunks: &[&'static [u8]],
    spare: Option<usize>,
) -> Result<IoBufs, BufError> {
    let mut text = IoBufs::default();
    for chunk in chunks {
        let view = match spare {
            Some(spare) => part(alloc, chunk, spare)?.freeze()?,
            None => IoBuf::from(*chunk),
        };
        text.append(alloc, view)?;
    }
    Ok(text)
}

// Bytes of a text as a view, `|`, and the capacity of the writable buffer that it becomes, or `declined`.
fn owned(alloc: Global, text: &mut IoBufs, skip: usize, n: usize) -> Result<Vec<u8>, BufError> {
    if skip > text.len() || n > text.len() - skip {
        return Ok(Vec::from_slice(alloc, b"short")?);
    }
    let view = text.take_owned_after::<IoBuf>(alloc, skip, n)?;
    let mut shown = Vec::from_slice(alloc, view.as_ref())?;
    match view.try_into_mut(alloc) {
        Ok(part) => shown.extend_from_slice(format!(in alloc; "|{}", part.capacity())?.as_bytes())?,
        Err(_) => shown.extend_from_slice(b"|declined")?,
    }
    Ok(shown)
}

#[test]
fn bytes_are_taken_out(rt: HostRuntime) -> Result<(), Fail> {
    for case in &OWNED {
        let name = case.name;
        let mut text = chunked(rt.alloc(), case.pieces, case.spare)?;
        drop(owned(rt.alloc(), &mut text, 0, case.before)?);
        let found = owned(rt.alloc(), &mut text, case.skip, case.n)?;
        assert_same!(rt; found.as_slice(), case.wanted, "{name}");
        assert_same!(rt; chunks(rt.alloc(), &text)?.as_slice(), case.left, "{name}");
    }
    Ok(())
}

#[test]
fn four_chunks(rt: HostRuntime) -> Result<(), Fail> {
    let text = text(rt.alloc(), &[b"ab", b"cd", b"ef", b"gh"])?;
    let ends = (text.chunk_count(), text.chunk_at(3), text.chunk_at(4));
    assert_same!(rt; ends, (4, Some(b"gh".as_slice()), None));
    let first = text.chunks_vectored(rt.alloc(), 2)?;
    assert_same!(rt; first.as_slice(), [b"ab".as_slice(), b"cd"].as_slice());
    assert_same!(rt; text.chunks_vectored(rt.alloc(), 0)?.len(), 0);
    assert_same!(rt; (text.byte_at(5), text.byte_at(8)), (Some(b'f'), None));
    Ok(())
}

#[test]
fn chunks_come_in_order(rt: HostRuntime) -> Result<(), Fail> {
    let text = text(rt.alloc(), &[b"ab", b"cd", b"ef"])?;
    let mut chunks = text.chunks();
    for wanted in [Some(b"ab".as_slice()), Some(b"cd"), Some(b"ef"), None, None] {
        assert_same!(rt; chunks.next(), wanted);
    }
    Ok(())
}

// The chunks that are left are counted before the walk, after each chunk, and after the last one.
#[test]
fn chunks_are_counted(rt: HostRuntime) -> Result<(), Fail> {
    for count in [0usize, 1, 2, 3, 4, 5, 64, 1000] {
        let mut text = IoBufs::default();
        for _ in 0..count {
            text.append(rt.alloc(), IoBuf::from(b"ab".as_slice()))?;
        }
        let mut chunks = text.chunks();
        for taken in 0..1003usize {
            let left = count.saturating_sub(taken);
            let found = (chunks.len(), chunks.size_hint());
            assert_same!(rt; found, (left, (left, Some(left))), "{taken} of {count} are taken");
            assert_same!(rt; chunks.next().is_some(), left > 0, "{taken} of {count} are taken");
        }
    }
    Ok(())
}

// Records a visited chunk, and `|` after it.
fn record(visits: &mut Vec<u8>, chunk: &[u8]) {
    visits.extend_from_slice(chunk).ok();
    visits.push(b'|').ok();
}

// Chunks, and the visits of those that hold bytes: each once, and none after the last.
const VISITS: [(&'static [&'static [u8]], &'static [u8]); 8] = rows! {
    &[], b"";
    &[b""], b"";
    &[b"ab"], b"ab|";
    &[b"ab", b"c"], b"ab|c|";
    &[b"ab", b"", b"c"], b"ab|c|";
    &[b"ab", b"c", b"de"], b"ab|c|de|";
    &[b"ab", b"c", b"de", b"f"], b"ab|c|de|f|";
    &[b"", b"ab", b"c", b"", b"de", b"f", b"gh", b""], b"ab|c|de|f|gh|";
};

#[test]
fn each_chunk_is_visited_once(rt: HostRuntime) -> Result<(), Fail> {
    for case in &VISITS {
        let (chunks, wanted) = *case;
        let mut visits = Vec::new(rt.alloc());
        text(rt.alloc(), chunks)?.for_each_chunk(|chunk: &[u8]| record(&mut visits, chunk));
        assert_same!(rt; visits.as_slice(), wanted);
    }
    Ok(())
}

// Writable buffers of these bytes and a spare byte each.
#[test]
fn each_writable_chunk_is_visited_once(rt: HostRuntime) -> Result<(), Fail> {
    for case in &VISITS {
        let (chunks, wanted) = *case;
        let mut parts = Vec::new(rt.alloc());
        for chunk in chunks {
            parts.push(part(rt.alloc(), chunk, 1)?)?;
        }
        let mut bufs = IoBufsMut::from_parts(rt.alloc(), parts.into_iter())?;
        let mut visits = Vec::new(rt.alloc());
        bufs.for_each_chunk_mut(|chunk: &mut [u8]| record(&mut visits, chunk));
        assert_same!(rt; visits.as_slice(), wanted);
    }
    Ok(())
}

#[test]
fn a_text_of_chunks(rt: HostRuntime) -> Result<(), Fail> {
    let mut views = Vec::new(rt.alloc());
    for bytes in [b"ab".as_slice(), b"", b"c"] {
        views.push(IoBuf::from(bytes))?;
    }
    let text = IoBufs::from_chunks(rt.alloc(), views.into_iter())?;
    assert_same!(rt; chunks(rt.alloc(), &text)?.as_slice(), b"ab|c".as_slice());
    Ok(())
}

// A text has one chunk, of these bytes.
fn assert_single(
    rt: &(impl Abort + AllocGlobal),
    text: &IoBufs,
    wanted: &[u8],
) -> Result<(), AllocError> {
    assert!(rt; text.as_single().is_some(), "{text:?}");
    assert_same!(rt; chunks(rt.alloc(), text)?.as_slice(), wanted);
    Ok(())
}

#[test]
fn texts_of_one_buffer(rt: HostRuntime) -> Result<(), Fail> {
    let alloc = rt.alloc();
    assert_single(&rt, &IoBufs::from_mut(part(alloc, b"ab", 2)?)?, b"ab")?;
    assert_single(
        &rt,
        &IoBufs::from_vec(Vec::from_slice(alloc, b"cd")?)?,
        b"cd",
    )?;
    assert_single(
        &rt,
        &IoBufs::from(Bytes::copy_from_slice(alloc, b"ef")?),
        b"ef",
    )?;
    Ok(())
}

#[test]
fn a_part_is_filled_from_two_chunks(rt: HostRuntime) -> Result<(), Fail> {
    let text = text(rt.alloc(), &[b"hel", b"lo"])?;
    let mut part = IoBufMut::with_capacity(rt.alloc(), 8)?;
    assert!(rt; part.remaining_mut() >= text.remaining());
    part.put(text);
    assert_same!(rt; (part.as_ref(), part.remaining_mut()), (b"hello".as_slice(), 3));
    Ok(())
}

// Bytes, and whether they are those of `abcdef`.
const SAME_AS_THREE: [(&'static [u8], bool); 4] = [
    (b"abcdef", true),
    (b"xbcdef", false),
    (b"abxdef", false),
    (b"abcdex", false),
];

// The bytes up to a place, those up to another, and the rest.
fn cut(bytes: &'static [u8], first: usize, second: usize) -> [&'static [u8]; 3]
    requires order { first ≤ second }
    requires inside { second ≤ length bytes.now }
{
    [&bytes[..first], &bytes[first..second], &bytes[second..]]
}

// Compares two texts, in both orders, and one of them with the bytes of the other.
fn assert_compared(
    rt: &(impl Abort + AllocGlobal),
    one: &[&'static [u8]],
    other: &[&'static [u8]],
    same: bool,
) -> Result<(), BufError> {
    let (left, right) = (text(rt.alloc(), one)?, text(rt.alloc(), other)?);
    let bytes = right.to_vec(rt.alloc())?;
    let found = (
        left == right,
        right == left,
        left.eq_bytes(bytes.as_slice()),
    );
    assert_same!(rt; found, (same, same, same), "{one:?} and {other:?}");
    Ok(())
}

#[test]
fn texts_are_the_same_by_their_bytes(rt: HostRuntime) -> Result<(), Fail> {
    for from in 0..7usize {
        for to in from..7usize {
            for (bytes, same) in SAME_AS_THREE {
                assert!(rt; bytes.len() == 6);
                assert_compared(&rt, &[b"ab", b"cd", b"ef"], &cut(bytes, from, to), same)?;
            }
        }
    }
    Ok(())
}

// The chunks of two texts, and whether they have the same bytes.
const PAIRS: [(&'static [&'static [u8]], &'static [&'static [u8]], bool); 6] = [
    (&[b"ab", b"cd"], &[b"ab", b"cd", b"ef"], false),
    (&[b"ab", b"cd", b"ef"], &[b"ab", b"cd"], false),
    (&[b"ab", b"cd"], &[b"abc"], false),
    (&[], &[], true),
    (&[], &[b"ab", b"cd"], false),
    (&[b"ab"], &[], false),
];

#[test]
fn texts_of_other_lengths_differ(rt: HostRuntime) -> Result<(), Fail> {
    for case in &PAIRS {
        let (one, other, same) = *case;
        assert_compared(&rt, one, other, same)?;
    }
    Ok(())
}
