// Byte strings as readers, and the chunks of a reader.
use crate::same::assert_same;
use iobufs::bufs::IoBufs;
use iobufs_core::buf::IoBuf;
use iobufs_core::codec::{Buf, RangeCfg};
use std::process::Abort;

pub const ANY: RangeCfg = RangeCfg {
    lo: 0,
    hi: usize::MAX,
};

pub const UP_TO_9: RangeCfg = RangeCfg { lo: 0, hi: 9 };

pub fn view(bytes: &'static [u8]) -> IoBuf {
    IoBuf::from(bytes)
}

// A chunk for each byte, in a buffer of its own.
pub fn copied_bytewise(rt: &(impl Abort + AllocGlobal), bytes: &[u8]) -> IoBufs {
    let mut all = IoBufs::default();
    for i in 0..bytes.len() {
        let byte = IoBuf::copy_from_slice(rt.alloc(), &bytes[i..=i]).expect(rt, "a byte is copied");
        all.append(rt.alloc(), byte)
            .expect(rt, "a byte is appended");
    }
    all
}

pub fn concatenated(rt: &(impl Abort + AllocGlobal), chunks: &[&[u8]]) -> Vec<u8> {
    let mut all = Vec::new(rt.alloc());
    for chunk in chunks {
        all.extend_from_slice(chunk)
            .expect(rt, "chunks are concatenated");
    }
    all
}

// The chunks of a reader, copied.
pub fn chunks_of<B: Buf>(rt: &(impl Abort + AllocGlobal), buf: &B) -> Vec<Vec<u8>> {
    let mut all = Vec::new(rt.alloc());
    for chunk in buf
        .chunks_vectored(rt.alloc(), usize::MAX)
        .expect(rt, "the chunks are listed")
    {
        let copy = Vec::from_slice(rt.alloc(), chunk).expect(rt, "a chunk is copied");
        all.push(copy).expect(rt, "a chunk is kept");
    }
    all
}

pub fn assert_chunks(rt: &(impl Abort + AllocGlobal), what: &str, bufs: &IoBufs, chunks: &[&[u8]]) {
    assert_same!(rt; bufs.chunk_count(), chunks.len(), "{what}");
    for (i, chunk) in chunks.iter().enumerate() {
        assert_same!(rt; bufs.chunk_at(i), Some(*chunk), "{what}, chunk {i}");
    }
    assert_same!(rt; bufs.chunk_at(chunks.len()), None, "{what}");
}
