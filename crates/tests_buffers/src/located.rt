// Places found among the ends of chunks.
use crate::same::assert_same;
use iobufs::bufs::IoBufs;
use iobufs_core::buf::IoBuf;
use iobufs_core::codec::BufError;
use std::alloc::Global;
use std::test::Fail;
use tests_fixtures::{rows, text};

// A name, a first chunk unless it is empty, chunks, and how often they come after it; an offset in these bytes, the
// index of its chunk, its offset in that, and how many ends are probed.
type Case = (
    &'static str,
    &'static [u8],
    &'static [&'static [u8]],
    usize,
    usize,
    usize,
    usize,
    u32,
);

const CASES: [Case; 7] = rows! {
    "the first byte of four chunks", b"", &[b"ab", b"cd", b"ef", b"gh"], 1, 0, 0, 0, 2;
    "a byte inside the third of four chunks", b"", &[b"ab", b"cd", b"ef", b"gh"], 1, 5, 2, 1, 2;
    "the first byte of the last of four chunks", b"", &[b"ab", b"cd", b"ef", b"gh"], 1, 6, 3, 0, 2;
    "one chunk", b"", &[b"ab"], 1, 1, 0, 1, 0;
    "four chunks after a prepended one", b"xyz", &[b"ab", b"cd", b"ef", b"gh"], 1, 5, 2, 0, 2;
    // From 0 to 999 the halves end at 499, 249, 124, 62, 31, 15, 7, 3, 1 and 0, or begin at 500, 750, 875, 938, 969,
    // 985, 993, 997 and 999.
    "the first of a thousand chunks", b"", &[b"a"], 1000, 0, 0, 0, 10;
    "the last of a thousand chunks", b"", &[b"a"], 1000, 999, 999, 0, 9;
};

fn chunked(
    alloc: Global,
    first: &'static [u8],
    chunks: &[&'static [u8]],
    times: usize,
) -> Result<IoBufs, BufError> {
    let mut text = text(alloc, chunks)?;
    for _ in 1..times {
        for chunk in chunks {
            text.append(alloc, IoBuf::from(*chunk))?;
        }
    }
    if !first.is_empty() {
        text.prepend(alloc, IoBuf::from(first))?;
    }
    Ok(text)
}

#[test]
fn places_are_found(rt: HostRuntime) -> Result<(), Fail> {
    for case in &CASES {
        let (name, first, chunks, times, at, index, offset, probes) = *case;
        let text = chunked(rt.alloc(), first, chunks, times)?;
        assert!(rt; at < text.len(), "{name}");
        let found = text.locate(at);
        let found = (found.index, found.offset, found.probes);
        assert_same!(rt; found, (index, offset, probes), "{name}");
    }
    Ok(())
}
