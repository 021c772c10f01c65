// Values that are written and read.
use crate::word::{Ended, end, mark};
use bytes::Bytes;
use iobufs::bufs::IoBufs;
use iobufs::builder::Builder;
use iobufs_codec::{Fault, List, Look};
use iobufs_core::buf::IoBuf;
use iobufs_core::codec::{BufError, BufMut, Encode, Error, RangeCfg, Read, Write};
use std::alloc::Global;
use std::process::Abort;
use tests_fixtures::{native, shows, text};

const RANGE: RangeCfg = RangeCfg { lo: 0, hi: 1024 };

// The value is read from these chunks, and leaves those.
fn is_read<T: Read + PartialEq + Drop>(
    rt: &(impl Print + Abort + AllocGlobal),
    chunks: &[&'static [u8]],
    cfg: &T::Cfg,
    value: &T,
    left: &[&[u8]],
) {
    let mut bufs = text(rt.alloc(), chunks).expect(rt, "a fixture");
    let (read, word) = lent!(
        *rt,
        T::read_cfg(rt.alloc(), &mut bufs, cfg),
        Error::Memory,
        shows(&bufs, chunks)
    );
    end(rt, word, read == *value && shows(&bufs, left));
}

// Four bytes after their length, in one chunk and in two.
#[test]
fn bytes_are_read_from_one_piece(rt: HostRuntime) {
    let bytes = Bytes::from_static(b"wxyz");
    is_read(&rt, &[b"\x04wxyz", b"!"], &RANGE, &bytes, &[b"!"]);
}

#[test]
fn bytes_are_read_across_pieces(rt: HostRuntime) {
    let bytes = Bytes::from_static(b"wxyz");
    is_read(&rt, &[b"\x04", b"wx", b"yz!"], &RANGE, &bytes, &[b"!"]);
}

#[test]
fn a_length_is_read_across_pieces(rt: HostRuntime) {
    is_read(&rt, &[b"\xac", b"\x02!"], &RANGE, &300usize, &[b"!"]);
}

#[test]
fn a_byte_is_read(rt: HostRuntime) {
    is_read(
        &rt,
        &[b"ab", b"cd", b"ef", b"gh"],
        &(),
        &b'a',
        &[b"b", b"cd", b"ef", b"gh"],
    );
}

#[test]
fn eight_bytes_are_read(rt: HostRuntime) {
    let number = u64::from_be_bytes(*b"abcdefgh");
    is_read(&rt, &[b"ab", b"cd", b"ef", b"gh"], &(), &number, &[]);
}

// Writes a value into a builder that has two bytes. A failure leaves these and a prefix of what is written.
fn written<T: Write>(rt: &(impl Print + Abort + AllocGlobal), value: &T, begun: &[&[u8]]) {
    let mut builder = Builder::new(rt.alloc(), 16).expect(rt, "a fixture");
    assert!(rt; builder.remaining_mut() >= 2, "no space");
    builder.put_slice(b"ab");
    assert!(rt; value.encode_size().is_some(), "no size");
    assert!(rt;
        builder.remaining_mut() >= value.encode_inline_size(),
        "no space"
    );
    mark(rt, "call");
    let answer = value.write_bufs(&mut builder);
    mark(rt, "done");
    match answer {
        Ok(()) => end(rt, Ended::Done, true),
        Err(Error::Memory) => {
            let built = builder.finish().expect(rt, "what is begun");
            end(rt, Ended::Refused, shows(&built, begun));
        }
        Err(_) => panic!(rt; "another error"),
    }
}

// A view is shared before anything is put. Sharing allocates nothing, so only the push fails, after the length.
#[test]
fn a_native_view_is_written(rt: HostRuntime) {
    let view = native(rt.alloc(), b"xyz", 5).expect(&rt, "a fixture");
    written(&rt, &view, &[b"ab\x03"])
}

#[test]
fn a_static_view_is_written(rt: HostRuntime) {
    written(&rt, &IoBuf::from(b"xyz".as_slice()), &[b"ab\x03"])
}

#[test]
fn bytes_are_written(rt: HostRuntime) {
    written(&rt, &Bytes::from_static(b"xyz"), &[b"ab\x03"])
}

#[test]
fn a_length_is_written(rt: HostRuntime) {
    written(&rt, &300usize, &[])
}

#[test]
fn a_number_is_written(rt: HostRuntime) {
    written(&rt, &258u32, &[])
}

#[test]
fn a_byte_is_written(rt: HostRuntime) {
    written(&rt, &b'a', &[])
}

#[test]
fn encoded_into_one_buffer(rt: HostRuntime) {
    let view = IoBuf::from(b"abc".as_slice());
    let (encoded, word) = lent!(rt, view.encode(rt.alloc()), Error::Memory, true);
    end(&rt, word, encoded.as_ref() == b"\x03abc".as_slice());
}

// A value made of others is read from these chunks, and leaves those.
fn is_read_whole<T: Look + PartialEq + Drop>(
    rt: &(impl Print + Abort + AllocGlobal),
    chunks: &[&'static [u8]],
    cfg: &T::Cfg,
    value: &T,
    left: &[&[u8]],
) {
    let mut bufs = text(rt.alloc(), chunks).expect(rt, "a fixture");
    let (read, word) = lent!(
        *rt,
        T::read_whole(rt.alloc(), &mut bufs, cfg),
        Fault::Codec(Error::Memory),
        shows(&bufs, chunks)
    );
    end(rt, word, read == *value && shows(&bufs, left));
}

// Views in three chunks: a count of two, `wx` in one chunk, and `yz` in two.
const LISTED: [&'static [u8]; 3] = [b"\x02\x02wx\x02", b"y", b"z!"];

#[test]
fn a_list_of_bytes_is_read(rt: HostRuntime) {
    let mut bufs = text(rt.alloc(), &LISTED).expect(&rt, "a fixture");
    let (list, word) = lent!(
        rt,
        <List<Bytes> as Look>::read_whole(rt.alloc(), &mut bufs, &(RANGE, RANGE)),
        Fault::Codec(Error::Memory),
        shows(&bufs, &LISTED)
    );
    let two = [Bytes::from_static(b"wx"), Bytes::from_static(b"yz")];
    end(
        &rt,
        word,
        list.values.as_slice() == two.as_slice() && shows(&bufs, &[b"!"]),
    );
}

#[test]
fn an_option_is_read(rt: HostRuntime) {
    let value = Some(wxyz());
    is_read_whole(&rt, &[b"\x01\x04w", b"xyz!"], &RANGE, &value, &[b"!"]);
}

// Six values, each across two chunks. Pairs in pairs make each of their values once.
const SIX: [&'static [u8]; 13] = [
    b"\x04w", b"xyz", b"\x04w", b"xyz", b"\x04w", b"xyz", b"\x04w", b"xyz", b"\x04w", b"xyz",
    b"\x04w", b"xyz", b"!",
];

fn wxyz() -> Bytes {
    Bytes::from_static(b"wxyz")
}

#[test]
fn two_values_are_read(rt: HostRuntime) {
    let value = (wxyz(), wxyz());
    is_read_whole(&rt, &SIX, &(RANGE, RANGE), &value, &SIX[4..]);
}

#[test]
fn three_values_are_read(rt: HostRuntime) {
    let value = (wxyz(), (wxyz(), wxyz()));
    is_read_whole(&rt, &SIX, &(RANGE, (RANGE, RANGE)), &value, &SIX[6..]);
}

#[test]
fn four_values_are_read(rt: HostRuntime) {
    let value = (wxyz(), (wxyz(), (wxyz(), wxyz())));
    is_read_whole(
        &rt,
        &SIX,
        &(RANGE, (RANGE, (RANGE, RANGE))),
        &value,
        &SIX[8..],
    );
}

#[test]
fn five_values_are_read(rt: HostRuntime) {
    let value = (wxyz(), (wxyz(), (wxyz(), (wxyz(), wxyz()))));
    is_read_whole(
        &rt,
        &SIX,
        &(RANGE, (RANGE, (RANGE, (RANGE, RANGE)))),
        &value,
        &SIX[10..],
    );
}

#[test]
fn six_values_are_read(rt: HostRuntime) {
    let value = (wxyz(), (wxyz(), (wxyz(), (wxyz(), (wxyz(), wxyz())))));
    is_read_whole(
        &rt,
        &SIX,
        &(RANGE, (RANGE, (RANGE, (RANGE, (RANGE, RANGE))))),
        &value,
        &SIX[12..],
    );
}

const ANY: RangeCfg = RangeCfg {
    lo: 0,
    hi: usize::MAX,
};

// A count of 2^63 in ten bytes, and of a thousand million in five, before five bytes.
const LARGEST: [&'static [u8]; 1] = [b"\x80\x80\x80\x80\x80\x80\x80\x80\x80\x01"];

const MANY: [&'static [u8]; 2] = [b"\x80\x94\xeb\xdc\x03", b"abcde"];

// Whether a list of these fails with this, and leaves the chunks.
fn fails<T: Look + Drop>(
    alloc: Global,
    bufs: &mut IoBufs,
    cfg: &(RangeCfg, T::Cfg),
    cause: Error,
    chunks: &[&[u8]],
) -> bool {
    let fault = Some(Fault::Codec(cause));
    <List<T> as Look>::read_whole(alloc, bufs, cfg).err() == fault
        && <List<T> as Look>::decode_cfg(alloc, bufs, cfg).err() == fault
        && shows(bufs, chunks)
}

// A count allocates nothing, however large it is: space is made for values that are found.
#[test]
fn counts_that_lie_ask_for_nothing(rt: HostRuntime) {
    let mut largest = text(rt.alloc(), &LARGEST).expect(&rt, "a fixture");
    let mut many = text(rt.alloc(), &MANY).expect(&rt, "a fixture");
    let (alloc, end_of_bytes) = (rt.alloc(), Error::EndOfBuffer);
    mark(&rt, "call");
    let outside = Error::InvalidLength(1 << 63);
    let numbers = fails::<u64>(alloc, &mut largest, &(ANY, ()), end_of_bytes, &LARGEST)
        && fails::<u64>(alloc, &mut many, &(ANY, ()), end_of_bytes, &MANY)
        && fails::<u64>(alloc, &mut largest, &(RANGE, ()), outside, &LARGEST);
    let bytes = fails::<Bytes>(alloc, &mut largest, &(ANY, ANY), end_of_bytes, &LARGEST)
        && fails::<Bytes>(alloc, &mut many, &(ANY, ANY), end_of_bytes, &MANY);
    let lists = fails::<List<u8>>(
        alloc,
        &mut largest,
        &(ANY, (ANY, ())),
        end_of_bytes,
        &LARGEST,
    );
    mark(&rt, "done");
    end(&rt, Ended::Done, numbers && bytes && lists);
}
