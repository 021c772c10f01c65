// Types that are read by their parts, out of a chunk for each byte: a letter of several fields, and a request of one
// kind or another.
use crate::chunks::{ANY, UP_TO_9, assert_chunks, concatenated, copied_bytewise, view};
use crate::encode::assert_written;
use crate::same::assert_same;
use crate::whole::{END, assert_front, assert_prefixes, assert_refused, assert_whole};
use iobufs::bufs::IoBufs;
use iobufs_codec::{ByParts, Either, Fault, IntoParts, Kind, List, Look, Tagged};
use iobufs_core::buf::IoBuf;
use iobufs_core::codec::{EncodeSize, Error, RangeCfg, Write};
use iobufs_examples::note::{Letter, Note};
use iobufs_examples::request::{Request, RequestParts};
use iobufs_examples::start::Entry;
use std::process::Abort;
use std::test::Fail;
use tests_fixtures::rows;

// Each prefix ends too early and is left as it was, and a byte after the value is too much.
fn assert_by_parts<T: ByParts + PartialEq + Drop>(
    rt: &(impl Abort + AllocGlobal),
    what: &str,
    bytes: &[u8],
    cfg: &<T::Parts as Look>::Cfg,
    value: &T,
) {
    for n in 0..bytes.len() {
        let mut prefix = copied_bytewise(rt, &bytes[..n]);
        assert_same!(rt; T::read_whole(rt.alloc(), &mut prefix, cfg).err(), Some(END), "{what}");
        assert_same!(rt; (prefix.len(), prefix.chunk_count()), (n, n), "{what}");
    }
    let mut longer = copied_bytewise(rt, bytes);
    let decoded = T::decode_cfg(rt.alloc(), &longer, cfg).expect(rt, what);
    assert!(rt; decoded == *value, "{what}: another value");
    longer.append(rt.alloc(), view(b"z")).expect(rt, what);
    let extra = T::decode_cfg(rt.alloc(), &longer, cfg).err();
    assert_same!(rt; extra, Some(Fault::ExtraData(1)), "{what}");
    let read = T::read_whole(rt.alloc(), &mut longer, cfg).expect(rt, what);
    assert!(rt; read == *value, "{what}: another value");
    assert_same!(rt; longer.len(), 1, "{what}");
}

fn note() -> Note {
    Note {
        number: 7,
        kind: 2,
        body: view(b"abc"),
    }
}

// Sent at -1, the note 7 of the kind 2 with the body `abc`, and the answers 8 and 9.
const LETTER: &[u8] =
    b"\xff\xff\xff\xff\xff\xff\xff\xff\0\0\0\x07\x02\x03abc\x02\0\0\0\x08\0\0\0\x09";

#[test]
fn a_letter(rt: HostRuntime) {
    let letter = Letter {
        sent: -1,
        note: note(),
        answers: vec![in rt.alloc(); 8u32, 9u32].expect(&rt, "answers"),
    };
    let cfg = ((), (((), ((), UP_TO_9)), (RangeCfg { lo: 0, hi: 2 }, ())));
    assert_by_parts(&rt, "a letter", LETTER, &cfg, &letter);
}

#[test]
fn a_note(rt: HostRuntime) {
    let mut encoded = note().encode(rt.alloc()).expect(&rt, "a note");
    assert_chunks(&rt, "a note", &encoded, &[b"\0\0\0\x07\x02\x03", b"abc"]);
    let read = Note::read_whole(rt.alloc(), &mut encoded, &((), ((), UP_TO_9)));
    assert!(rt; read.expect(&rt, "a note") == note(), "another note");
}

#[test]
fn an_entry_is_read_back(rt: HostRuntime) -> Result<(), Fail> {
    let entry = Entry {
        number: 7,
        flags: 1,
        key: view(b"k"),
        value: view(b"value"),
    };
    let mut text: IoBufs = entry.encode_iobufs(rt.alloc())?;
    assert_same!(rt; text.len(), 17);
    let read = Entry::read_whole(rt.alloc(), &mut text, &((), ((), (UP_TO_9, UP_TO_9))))?;
    assert_same!(rt; (read.number, read.flags), (7, 1));
    assert_same!(rt; (read.key.as_ref(), read.value.as_ref()), (b"k".as_slice(), b"value".as_slice()));
    assert!(rt; text.is_empty());
    Ok(())
}

// A request, with bytes for views.
#[derive(Clone, Copy)]
enum Asked {
    Get(&'static [u8], u32),
    Put(&'static [u8], &'static [u8]),
    Sync(u64),
    Ping,
}

fn request(asked: Asked) -> Request {
    match asked {
        Asked::Get(key, limit) => Request::Get {
            key: view(key),
            limit,
        },
        Asked::Put(key, body) => Request::Put {
            key: view(key),
            body: view(body),
        },
        Asked::Sync(last) => Request::Sync(last),
        Asked::Ping => Request::Ping,
    }
}

// A name, a request, and the chunks that it is written as.
const REQUESTS: [(&'static str, Asked, &'static [&'static [u8]]); 4] = rows! {
    "a get", Asked::Get(b"key", 7), &[b"\0\x03", b"key", b"\0\0\0\x07"];
    "a put", Asked::Put(b"key", b"body"), &[b"\x01\x03", b"key", b"\x04", b"body"];
    "a sync", Asked::Sync(300), &[b"\x02\0\0\0\0\0\0\x01\x2c"];
    "a ping", Asked::Ping, &[b"\x03"];
};

const CFG: <RequestParts as Look>::Cfg = ((UP_TO_9, ()), ((UP_TO_9, UP_TO_9), ((), ())));

// A value, given four times, is written as these chunks, and read from them and from their bytes.
fn assert_parted<T: IntoParts + PartialEq + Drop>(
    rt: &(impl Abort + AllocGlobal),
    what: &str,
    values: [T; 4],
    chunks: &[&[u8]],
    cfg: &<T::Parts as Look>::Cfg,
)
where
    T::Parts: Write,
{
    let [parts, whole, pieces, value] = values;
    let bytes = concatenated(rt, chunks);
    assert_same!(rt; parts.into_parts().encode_size(), Some(bytes.len()), "{what}");
    let encoded = whole.encode(rt.alloc()).expect(rt, what);
    assert_same!(rt; encoded.as_ref(), bytes.as_slice(), "{what}");
    let mut pieces: IoBufs = pieces.encode_iobufs(rt.alloc()).expect(rt, what);
    assert_chunks(rt, what, &pieces, chunks);
    let read = T::read_whole(rt.alloc(), &mut pieces, cfg).expect(rt, what);
    assert!(rt; read == value && pieces.is_empty(), "{what}: another value");
    assert_by_parts(rt, what, &bytes, cfg, &read);
    assert_prefixes::<T::Parts>(rt, what, &bytes, cfg);
}

#[test]
fn requests(rt: HostRuntime) {
    for (name, asked, chunks) in REQUESTS {
        let values = [(); 4].map(|()| request(asked));
        assert_parted(&rt, name, values, chunks, &CFG);
    }
}

#[test]
fn a_long_request(rt: HostRuntime) {
    let body = vec![in rt.alloc(); 5u8; 2_000_000].expect(&rt, "two million bytes");
    let put = Request::Put {
        key: view(b"key"),
        body: IoBuf::from_vec(body).expect(&rt, "a long body"),
    };
    let written = put.encode(rt.alloc()).expect(&rt, "a long request");
    assert_same!(rt; written.len(), 2_000_008);
    let first = written.as_ref().get(..9);
    assert_same!(rt; first, Some(b"\x01\x03key\x80\x89\x7a\x05".as_slice()));
}

// A name, bytes that begin no request, and the fault.
const NO_REQUESTS: [(&'static str, &'static [u8], Fault); 3] = rows! {
    "a fifth kind", b"\x04\x03key\0\0\0\x07", Fault::InvalidEnum(4);
    "the last kind", b"\xff", Fault::InvalidEnum(255);
    "a long key", b"\x01\x0aabcdefghij\0", Fault::Codec(Error::InvalidLength(10));
};

#[test]
fn bytes_that_are_no_request(rt: HostRuntime) {
    for (what, bytes, fault) in NO_REQUESTS {
        let mut parts = copied_bytewise(&rt, bytes);
        assert_refused::<RequestParts, IoBufs>(&rt, what, &mut parts, &CFG, fault);
        let mut view = view(bytes);
        assert_same!(rt; Request::read_whole(rt.alloc(), &mut view, &CFG).err(), Some(fault), "{what}");
        assert_same!(rt; view.as_ref(), bytes, "{what}");
    }
}

#[test]
fn another_kind(rt: HostRuntime) {
    let (mut other, fault) = (view(b"\x01\x05"), Fault::InvalidEnum(1));
    assert_refused::<Kind<2, u8>, IoBuf>(&rt, "another kind", &mut other, &(), fault);
}

// Both kinds have the byte 7, so the first is read.
type Alike = Either<Kind<7, u8>, Kind<7, u16>>;

#[test]
fn kinds_with_one_byte(rt: HostRuntime) {
    let second: Alike = Either::Second(Kind { value: 0x0102 });
    assert_written(&rt, "the second kind", &second, 3, &[b"\x07\x01\x02"]);
    let first: Alike = Either::First(Kind { value: 1 });
    let mut bytes = view(b"\x07\x01\x02");
    assert_front(&rt, "the first kind", &mut bytes, &((), ()), &first, 1);
    for (tag, is_one) in [(0, true), (3, true), (4, false)] {
        assert_same!(rt; RequestParts::is_tag(tag), is_one);
    }
}

type Mixed = List<Either<Kind<0, u8>, Kind<9, u16>>>;

#[test]
fn a_list_of_kinds(rt: HostRuntime) {
    let three = vec![in rt.alloc();
        Either::First(Kind { value: 5 }),
        Either::Second(Kind { value: 0x0102 }),
        Either::First(Kind { value: 6 }),
    ];
    let mixed: Mixed = List {
        values: three.expect(&rt, "three values"),
    };
    let bytes: &[u8] = b"\x03\0\x05\x09\x01\x02\0\x06";
    let cfg = (UP_TO_9, ((), ()));
    assert_whole(&rt, "three of two kinds", &mixed, &cfg, 8, &[bytes]);
    let mut wrong = view(b"\x02\0\x05\x01");
    assert_refused::<Mixed, IoBuf>(&rt, "a third kind", &mut wrong, &cfg, Fault::InvalidEnum(1));
}
