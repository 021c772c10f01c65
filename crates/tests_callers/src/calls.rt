// Each caller once, without allocation failure.
use crate::same::assert_same;
use iobufs_core::buf::IoBuf;
use iobufs_core::codec::{Buf, RangeCfg};
use iobufs_examples::frame::{echo, frame, read_frame};
use iobufs_examples::start::{Entry, put, receive};
use iobufs_examples::store::store;
use iobufs_frames::{FrameReader, FrameWriter};
use std::test::Fail;
use tests_fixtures::{chunks, parts};

#[test]
fn frames_are_lengths_and_bodies(rt: HostRuntime) -> Result<(), Fail> {
    let alloc = rt.alloc();
    let mut text = frame(alloc, &IoBuf::from(b"abc".as_slice()))?;
    assert_same!(rt; text.to_vec(alloc)?.as_slice(), b"\x03abc".as_slice());
    text.append(alloc, IoBuf::from(b"\x00".as_slice()))?;
    let body = read_frame(alloc, &mut text, 3)?;
    let echoed = echo(alloc, &body)?;
    assert_same!(rt; (body.as_ref(), echoed.as_ref()), (b"abc".as_slice(), b"abc".as_slice()));
    assert_same!(rt; text.to_vec(alloc)?.as_slice(), b"\x00".as_slice());
    Ok(())
}

#[test]
fn parts_are_filled_from_a_reader(rt: HostRuntime) -> Result<(), Fail> {
    let alloc = rt.alloc();
    let mut from = b"abcdefgh".as_slice();
    let full = store(alloc, &mut from, parts(alloc, &[(b"", 2), (b"", 3)])?)?;
    assert_same!(rt; chunks(alloc, &full)?.as_slice(), b"ab|cde".as_slice());
    let rest = store(alloc, &mut from, parts(alloc, &[(b"", 2), (b"", 3)])?)?;
    assert_same!(rt; rest.to_vec(alloc)?.as_slice(), b"fgh".as_slice());
    Ok(())
}

#[test]
fn entries_come_back(rt: HostRuntime) {
    let range = RangeCfg { lo: 0, hi: 1 << 17 };
    let mut to = FrameWriter::new(rt.alloc(), Vec::new(rt.alloc()), range);
    for number in 0..3 {
        let entry = Entry {
            number,
            flags: 1,
            key: IoBuf::from(b"key".as_slice()),
            value: IoBuf::from(b"value".as_slice()),
        };
        put(rt.alloc(), &mut to, entry).expect(&rt, "an entry is put");
        to.send().expect(&rt, "an entry is sent");
    }
    let sent = to.to.as_slice();
    let mut from = FrameReader::new(rt.alloc(), sent, range).expect(&rt, "space for a read");
    for number in 0..3 {
        let entry = receive(rt.alloc(), &mut from)
            .expect(&rt, "an entry")
            .expect(&rt, "an entry");
        assert_eq!(rt;
            (
                entry.number,
                entry.flags,
                entry.key.as_ref(),
                entry.value.as_ref()
            ),
            (number, 1, b"key".as_slice(), b"value".as_slice())
        );
    }
    assert!(rt;
        receive(rt.alloc(), &mut from)
            .expect(&rt, "the end")
            .is_none()
    );
}
