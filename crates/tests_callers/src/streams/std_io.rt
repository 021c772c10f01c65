// Buffers as readers and writers of std, and `IoBufs` that are written to one.
use crate::same::assert_same;
use crate::streams::counts::long;
use crate::streams::fakes::FakeWriter;
use iobufs::bufs::IoBufs;
use iobufs_core::buf::{IoBuf, IoBufMut};
use iobufs_frames::Writer;
use std::io::{ErrorKind, Read, Write};
use std::test::Fail;
use tests_fixtures::text;

#[test]
fn chunks_are_written_in_order(rt: HostRuntime) -> Result<(), Fail> {
    let mut text = text(rt.alloc(), &[b"ab", b"cd", b"ef"])?;
    let mut to = Vec::from_slice(rt.alloc(), b">")?;
    text.write_to(&mut to)?;
    assert_same!(rt; (to.as_slice(), text.is_empty()), (b">abcdef".as_slice(), true));
    Ok(())
}

// The writer is interrupted before each write, and takes at most two bytes.
#[test]
fn many_chunks_are_written_bit_by_bit(rt: HostRuntime) -> Result<(), Fail> {
    let mut text = IoBufs::default();
    for _ in 0..5000 {
        text.append(rt.alloc(), IoBuf::from(b"abc".as_slice()))?;
    }
    let all = text.to_vec(rt.alloc())?;
    let mut to = FakeWriter::new(rt.alloc(), 2);
    text.write_to(&mut to)?;
    assert!(rt; to.record.as_slice() == all.as_slice() && text.is_empty());
    Ok(())
}

// A long chunk goes by one write.
#[test]
fn a_long_chunk_is_written_at_once(rt: HostRuntime) -> Result<(), Fail> {
    let mut chunk = long(rt.alloc(), 1 << 20)?;
    let mut to = FakeWriter::new(rt.alloc(), usize::MAX);
    chunk.write_to(&mut to)?;
    assert_same!(rt; (to.calls, to.record.len()), (1, 1 << 20));
    Ok(())
}

#[test]
fn a_text_is_read_by_std(rt: HostRuntime) -> Result<(), Fail> {
    let mut reader = bytes::Buf::reader(text(rt.alloc(), &[b"ab", b"cde"])?);
    let mut four = [0; 4];
    assert_same!(rt; (reader.read(&mut four).ok(), four), (Some(4), *b"abcd"));
    assert_same!(rt; (reader.read(&mut four).ok(), four[0]), (Some(1), b'e'));
    assert_same!(rt; reader.read(&mut four).ok(), Some(0));
    Ok(())
}

#[test]
fn a_part_is_written_by_std(rt: HostRuntime) -> Result<(), Fail> {
    let mut writer = Writer {
        buf: IoBufMut::with_capacity(rt.alloc(), 4)?,
    };
    writer.write_all(b"abc")?;
    let short = writer.write(b"de").ok();
    let refused = writer.write_all(b"e").err().map(|error| error.kind());
    assert_same!(rt; (short, refused), (Some(1), Some(ErrorKind::WriteZero)));
    writer.flush()?;
    assert_same!(rt; writer.buf.as_ref(), b"abcd".as_slice());
    Ok(())
}
