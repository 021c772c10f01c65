// Lengths that lie or don't end, read as a number and as a view, from one chunk of an `IoBuf`, from one chunk of an
// `IoBufs`, and from a chunk for each byte.
use crate::chunks::{ANY, chunks_of, copied_bytewise, view};
use crate::same::assert_same;
use iobufs::bufs::IoBufs;
use iobufs_core::buf::IoBuf;
use iobufs_core::codec::{Buf, Error, OwnedBuf, RangeCfg, Read};
use std::process::Abort;
use std::test::Fail;
use tests_fixtures::rows;

const UP_TO_1024: RangeCfg = RangeCfg { lo: 0, hi: 1024 };

// No length is in it.
const NONE: RangeCfg = RangeCfg { lo: 1, hi: 0 };

const END: Error = Error::EndOfBuffer;

const VARINT: Error = Error::InvalidVarint;

const HIGH: usize = 9223372036854775808;

const TOO_HIGH: Error = Error::InvalidLength(HIGH);

// Bytes, the lengths that are admitted, and what a view and a number are read as. What is read takes all of the bytes.
type Case = (
    &'static [u8],
    RangeCfg,
    Result<&'static [u8], Error>,
    Result<usize, Error>,
);

const LENGTHS: [Case; 10] = rows! {
    // A length of nothing.
    b"", UP_TO_1024, Err(END), Err(END);
    // A length of none.
    b"\x00", UP_TO_1024, Ok(b""), Ok(0);
    // A length in a range without numbers.
    b"\x00", NONE, Err(Error::InvalidLength(0)), Err(Error::InvalidLength(0));
    // A length that has no end in nine bytes.
    b"\x80\x80\x80\x80\x80\x80\x80\x80\x80", UP_TO_1024, Err(END), Err(END);
    // A length that ends with a zero.
    b"\x80\x80\x80\x80\x80\x80\x80\x80\x80\x00", ANY, Err(VARINT), Err(VARINT);
    // A length of two to the sixty-third, outside the range.
    b"\x80\x80\x80\x80\x80\x80\x80\x80\x80\x01", UP_TO_1024, Err(TOO_HIGH), Err(TOO_HIGH);
    // A length of two to the sixty-third.
    b"\x80\x80\x80\x80\x80\x80\x80\x80\x80\x01", ANY, Err(END), Ok(HIGH);
    // A length that ends in a tenth byte above one.
    b"\xff\xff\xff\xff\xff\xff\xff\xff\xff\x7f", ANY, Err(VARINT), Err(VARINT);
    // A length of ten bytes of ones.
    b"\xff\xff\xff\xff\xff\xff\xff\xff\xff\xff", ANY, Err(VARINT), Err(VARINT);
    // The longest length of nine bytes.
    b"\xff\xff\xff\xff\xff\xff\xff\xff\x7f", ANY, Err(END), Ok(HIGH - 1);
};

// Reads a value, and tests that the right chunks are left: none, or all if it failed.
fn read<T: Read<Cfg = RangeCfg> + Drop, B: OwnedBuf>(
    rt: &(impl Abort + AllocGlobal),
    buf: &mut B,
    range: RangeCfg,
) -> Result<T, Error> {
    let before = chunks_of(rt, buf);
    let found = T::read_cfg(rt.alloc(), buf, &range);
    match &found {
        Ok(_) => assert_same!(rt; buf.remaining(), 0),
        Err(_) => assert!(rt; chunks_of(rt, buf) == before, "changed"),
    }
    found
}

// Both readers hold the bytes of a case.
fn assert_read<B: OwnedBuf + Drop>(
    rt: &(impl Abort + AllocGlobal),
    case: &Case,
    mut first: B,
    mut second: B,
) {
    let (bytes, range, view, number) = *case;
    match (read::<IoBuf, B>(rt, &mut first, range), view) {
        (Ok(found), Ok(wanted)) => assert_same!(rt; found.as_ref(), wanted, "{bytes:?}"),
        (found, wanted) => assert_same!(rt; found.err(), wanted.err(), "{bytes:?}"),
    }
    assert_same!(rt; read::<usize, B>(rt, &mut second, range), number, "{bytes:?}");
}

#[test]
fn lengths_that_lie(rt: HostRuntime) -> Result<(), Fail> {
    for case in LENGTHS {
        let bytes = case.0;
        assert_read(&rt, &case, view(bytes), view(bytes));
        assert_read(
            &rt,
            &case,
            IoBufs::from(view(bytes)),
            IoBufs::from(view(bytes)),
        );
        assert_read(
            &rt,
            &case,
            copied_bytewise(&rt, bytes),
            copied_bytewise(&rt, bytes),
        );
    }
    Ok(())
}

#[test]
fn beginnings_of_a_view(rt: HostRuntime) -> Result<(), Fail> {
    let mut written = Vec::from_slice(rt.alloc(), b"\xac\x02")?;
    written.resize(302, b'x')?;
    for n in 0..written.len() {
        let mut one = IoBuf::copy_from_slice(rt.alloc(), &written[..n])?;
        assert_same!(rt; read::<IoBuf, IoBuf>(&rt, &mut one, UP_TO_1024).err(), Some(END), "{n} bytes");
        let mut many = copied_bytewise(&rt, &written[..n]);
        assert_same!(rt; read::<IoBuf, IoBufs>(&rt, &mut many, UP_TO_1024).err(), Some(END), "{n} chunks");
    }
    let mut whole = IoBuf::copy_from_slice(rt.alloc(), &written)?;
    let found = read::<IoBuf, IoBuf>(&rt, &mut whole, UP_TO_1024)?;
    assert_same!(rt; found.as_ref(), &written[2..]);
    Ok(())
}

#[test]
fn a_destination_that_is_longer(rt: HostRuntime) -> Result<(), Fail> {
    let mut view = view(b"abc");
    let mut dst = *b"wxyz";
    let error = view.try_copy_to_slice(&mut dst).err();
    assert_same!(rt; error.map(|error| (error.requested, error.available)), Some((4, 3)));
    assert_same!(rt; (view.as_ref(), &dst), (b"abc".as_slice(), b"wxyz"));
    Ok(())
}
