// Values that are read whole, out of one chunk and out of a chunk for each byte. Each prefix of a value ends too early,
// and a byte after it is too much.
use crate::chunks::{ANY, UP_TO_9, chunks_of, concatenated, copied_bytewise, view};
use crate::encode::assert_written;
use crate::message::Message;
use crate::same::assert_same;
use bytes::Bytes;
use iobufs::EncodeExt;
use iobufs::bufs::IoBufs;
use iobufs_codec::{Fault, List, Look, Signed};
use iobufs_core::buf::IoBuf;
use iobufs_core::codec::{Encode, Error, Peek, RangeCfg, Write};
use std::process::Abort;

pub const END: Fault = Fault::Codec(Error::EndOfBuffer);

// Reading a value fails with this fault, and leaves each chunk.
pub fn assert_refused<T: Look + Drop, B: Peek>(
    rt: &(impl Abort + AllocGlobal),
    what: &str,
    buf: &mut B,
    cfg: &T::Cfg,
    fault: Fault,
) {
    let before = chunks_of(rt, buf);
    assert_same!(rt; T::read_whole(rt.alloc(), buf, cfg).err(), Some(fault), "{what}");
    assert!(rt; chunks_of(rt, buf) == before, "{what}: changed");
}

// Each prefix ends too early, as one chunk and as a chunk for each byte.
pub fn assert_prefixes<T: Look + Drop>(
    rt: &(impl Abort + AllocGlobal),
    what: &str,
    bytes: &[u8],
    cfg: &T::Cfg,
) {
    for n in 0..bytes.len() {
        let mut one = IoBuf::copy_from_slice(rt.alloc(), &bytes[..n]).expect(rt, what);
        assert_refused::<T, IoBuf>(rt, what, &mut one, cfg, END);
        let mut many = copied_bytewise(rt, &bytes[..n]);
        assert_refused::<T, IoBufs>(rt, what, &mut many, cfg, END);
    }
}

// The value is read, and `left` bytes are left.
pub fn assert_front<T: Look + PartialEq + Drop, B: Peek>(
    rt: &(impl Abort + AllocGlobal),
    what: &str,
    buf: &mut B,
    cfg: &T::Cfg,
    value: &T,
    left: usize,
) {
    let read = T::read_whole(rt.alloc(), buf, cfg).expect(rt, what);
    assert!(rt; read == *value, "{what}: another value");
    assert_same!(rt; buf.remaining(), left, "{what}");
}

// The value is all that a reader has.
pub fn assert_read<T: Look + PartialEq + Drop, B: Peek>(
    rt: &(impl Abort + AllocGlobal),
    what: &str,
    buf: &mut B,
    cfg: &T::Cfg,
    value: &T,
) {
    let decoded = T::decode_cfg(rt.alloc(), buf, cfg).expect(rt, what);
    assert!(rt; decoded == *value, "{what}: another value");
    assert_front(rt, what, buf, cfg, value, 0);
}

// The value is written as these chunks, and read from them, and from a chunk for each of their bytes.
pub fn assert_whole<T: Look + Write + PartialEq + Drop>(
    rt: &(impl Abort + AllocGlobal),
    what: &str,
    value: &T,
    cfg: &T::Cfg,
    inline: usize,
    chunks: &[&[u8]],
) {
    assert_written(rt, what, value, inline, chunks);
    let mut encoded = value.encode_iobufs(rt.alloc()).expect(rt, what);
    assert_read(rt, what, &mut encoded, cfg, value);
    let bytes = concatenated(rt, chunks);
    assert_read(rt, what, &mut copied_bytewise(rt, &bytes), cfg, value);
    assert_prefixes::<T>(rt, what, &bytes, cfg);
    let mut longer = copied_bytewise(rt, &bytes);
    longer.append(rt.alloc(), view(b"z")).expect(rt, what);
    let extra = T::decode_cfg(rt.alloc(), &longer, cfg).err();
    assert_same!(rt; extra, Some(Fault::ExtraData(1)), "{what}");
    assert_front(rt, what, &mut longer, cfg, value, 1);
}

// The number 7, the kind 2 and the body `abc`.
const MESSAGE: &[u8] = b"\0\0\0\x07\x02\x03abc";

#[test]
fn a_message(rt: HostRuntime) {
    let message = Message {
        number: 7,
        kind: 2,
        body: view(b"abc"),
    };
    let cfg = ((), ((), UP_TO_9));
    let chunks: &[&[u8]] = &[b"\0\0\0\x07\x02\x03", b"abc"];
    assert_whole(&rt, "a message", &message, &cfg, 6, chunks);
    let mut shared = IoBuf::from(Bytes::from_static(MESSAGE));
    assert_read(&rt, "a message in bytes", &mut shared, &cfg, &message);
}

#[test]
fn bytes_after_their_length(rt: HostRuntime) {
    let bytes = Bytes::from_static(b"abc");
    assert_whole(&rt, "bytes", &bytes, &UP_TO_9, 1, &[b"\x03", b"abc"]);
}

// Yes; 258 after its byte; `xyz`; and 300, as a varint.
const SOME: &[u8] = b"\x01\x01\x01\x02xyz\xac\x02";

// Nothing, 9 and no.
const NONE: &[u8] = b"\0\0\0\0\x09\0";

// Six values: 1, yes, 2, 3 after its byte, two bytes, and 300 as a varint.
const SIX: &[u8] = b"\x01\x01\0\x02\x01\x03\x09\x09\xac\x02";

#[test]
fn tuples(rt: HostRuntime) {
    let some = ((true, Some(0x0102u16)), (*b"xyz", 300usize));
    let cfg = (((), ()), ((), RangeCfg { lo: 0, hi: 300 }));
    assert_whole(&rt, "two pairs", &some, &cfg, 9, &[SOME]);
    let none = (None::<u64>, (9u32, false));
    assert_whole(&rt, "three values", &none, &((), ((), ())), 6, &[NONE]);
    let six = (1u8, (true, (2u16, (Some(3u8), ([9u8; 2], 300usize)))));
    let cfg = ((), ((), ((), ((), ((), ANY)))));
    assert_whole(&rt, "six values", &six, &cfg, 10, &[SIX]);
    let five = (1u8, (true, (2u16, (Some(3u8), [9u8; 2]))));
    let cfg = ((), ((), ((), ((), ()))));
    assert_whole(&rt, "five values", &five, &cfg, 8, &[&SIX[..8]]);
    let mut all = copied_bytewise(&rt, SIX);
    assert_front(&rt, "five of six", &mut all, &cfg, &five, 2);
}

// -1, -2, -3 and -4 in one, two, four and eight bytes.
const NEGATIVE: &[u8] = b"\xff\xff\xfe\xff\xff\xff\xfd\xff\xff\xff\xff\xff\xff\xff\xfc";

const WIDE: u128 = 0x0102030405060708090a0b0c0d0e0f10;

const WIDE_BYTES: &[u8] = b"\x01\x02\x03\x04\x05\x06\x07\x08\x09\x0a\x0b\x0c\x0d\x0e\x0f\x10";

// -2, and the least number with a sign: the highest bit alone.
const WIDE_NEGATIVE: &[u8] =
    b"\xff\xff\xff\xff\xff\xff\xff\xff\xff\xff\xff\xff\xff\xff\xff\xfe\x80\0\0\0\0\0\0\0\0\0\0\0\0\0\0\0";

#[test]
fn signed_and_wide_numbers(rt: HostRuntime) {
    let four = (
        (Signed { value: -1i8 }, Signed { value: -2i16 }),
        (Signed { value: -3i32 }, Signed { value: -4i64 }),
    );
    assert_whole(
        &rt,
        "four signs",
        &four,
        &(((), ()), ((), ())),
        15,
        &[NEGATIVE],
    );
    assert_whole(&rt, "sixteen bytes", &WIDE, &(), 16, &[WIDE_BYTES]);
    let both = (Signed { value: -2i128 }, Signed { value: i128::MIN });
    let cfg = ((), ());
    assert_whole(&rt, "two wide signs", &both, &cfg, 32, &[WIDE_NEGATIVE]);
    let largest = Signed { value: i128::MAX }.encode(rt.alloc());
    let encoded = largest.expect(&rt, "the largest number with a sign");
    let mut view = encoded.freeze().expect(&rt, "a view");
    let bits = u128::MAX / 2;
    assert_read(&rt, "all bits below the sign", &mut view, &(), &bits);
}

#[test]
fn lists_of_lists(rt: HostRuntime) {
    let first = vec![in rt.alloc(); view(b"ab"), IoBuf::default()].expect(&rt, "a list");
    let second = vec![in rt.alloc(); view(b"c")].expect(&rt, "a list");
    let both = vec![in rt.alloc(); List { values: first }, List { values: second }];
    let lists = List {
        values: both.expect(&rt, "a list of lists"),
    };
    let chunks: &[&[u8]] = &[b"\x02\x02\x02", b"ab", b"\0\x01\x01", b"c"];
    assert_whole(&rt, "lists of lists", &lists, &(ANY, (ANY, ANY)), 6, chunks);
}

// A count of 2^63, and nothing after it.
const COUNT: &[u8] = b"\x80\x80\x80\x80\x80\x80\x80\x80\x80\x01";

#[test]
fn counts_that_are_wrong(rt: HostRuntime) {
    let few = RangeCfg { lo: 1, hi: 3 };
    let length = |n| Fault::Codec(Error::InvalidLength(n));
    let largest = length(9223372036854775808);
    assert_refused::<List<u64>, IoBuf>(&rt, "numbers", &mut view(COUNT), &(ANY, ()), END);
    assert_refused::<List<IoBuf>, IoBuf>(&rt, "views", &mut view(COUNT), &(ANY, ANY), END);
    assert_refused::<List<u64>, IoBuf>(&rt, "too many", &mut view(COUNT), &(few, ()), largest);
    assert_refused::<List<u8>, IoBuf>(&rt, "none", &mut view(b"\0abc"), &(few, ()), length(0));
    assert_refused::<List<u8>, IoBuf>(&rt, "four", &mut view(b"\x04abcd"), &(few, ()), length(4));
    let mut bits = view(b"\x03\x01\x02\x01");
    assert_refused::<List<bool>, IoBuf>(&rt, "bits", &mut bits, &(few, ()), Fault::InvalidBool);
}

#[test]
fn lengths_and_bytes_that_are_wrong(rt: HostRuntime) {
    let invalid = Fault::Codec(Error::InvalidVarint);
    let too_long = Fault::Codec(Error::InvalidLength(10));
    let mut large = view(b"\0\x80\x80\x80\x80\x80\x80\x80\x80\x80\x01");
    assert_refused::<(u8, IoBuf), IoBuf>(&rt, "a large length", &mut large, &((), ANY), END);
    let mut none = view(b"\0\x80\x80\x80\x80\x80\x80\x80\x80\x80\x02");
    assert_refused::<(u8, IoBuf), IoBuf>(&rt, "no length", &mut none, &((), ANY), invalid);
    let mut ten = view(b"\0\x0aabcdefghij");
    assert_refused::<(u8, Bytes), IoBuf>(&rt, "ten bytes", &mut ten, &((), UP_TO_9), too_long);
    let mut neither = view(b"\x05\x02\x07");
    let fault = Fault::InvalidBool;
    assert_refused::<(u8, bool), IoBuf>(&rt, "a bit", &mut neither, &((), ()), fault);
    assert_refused::<(u8, Option<u8>), IoBuf>(&rt, "an option", &mut neither, &((), ()), fault);
}
