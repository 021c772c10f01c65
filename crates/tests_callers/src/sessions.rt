// Sessions of six protocols whose headers are more than a length: what is sent is the session, byte for byte, and its
// frames are read back. No layout says a length of several widths (ZMTP, WebSocket), or a byte after the body (AMQP).
use iobufs::bufs::IoBufs;
use iobufs_core::buf::IoBuf;
use iobufs_core::codec::{Error, RangeCfg};
use iobufs_frames::{ByteOrder, FrameError, FrameReader, FrameWriter, Layout, Prefix, Width};
use std::process::Abort;

// What is sent in a session.
#[derive(Clone, Copy)]
enum Sent {
    // Bytes that are no frame, before the first one.
    Bytes(&'static [u8]),
    // Nothing: from here on headers are laid out so.
    Laid(Layout),
    // A frame: the bytes before its length, those after it, and its body.
    Frame(&'static [u8], &'static [u8], &'static [u8]),
}

fn is_sent(to: &mut FrameWriter<Vec<u8>>, sent: Sent) -> bool {
    match sent {
        Sent::Bytes(bytes) => to.to.extend_from_slice(bytes).is_ok(),
        Sent::Laid(layout) => {
            to.layout = layout;
            true
        }
        Sent::Frame(before, after, body) => {
            let body = IoBufs::from(IoBuf::from(body));
            to.put_with(before, after, body).is_ok() && to.send().is_ok()
        }
    }
}

fn is_received(from: &mut FrameReader<&'static [u8]>, sent: Sent) -> bool {
    match sent {
        Sent::Bytes(bytes) => {
            let Some(rest) = from.from.strip_prefix(bytes) else {
                return false;
            };
            from.from = rest;
            true
        }
        Sent::Laid(layout) => {
            from.set_layout(layout);
            true
        }
        Sent::Frame(before, after, body) => {
            let Ok(Some((len, frame))) = from.next_whole() else {
                return false;
            };
            let Some((header, rest)) = frame.as_ref().split_at_checked(len) else {
                return false;
            };
            header.starts_with(before) && header.ends_with(after) && rest == body
        }
    }
}

// Sends a session, which has to be these bytes, and receives it.
fn hold(rt: &(impl Abort + AllocGlobal), session: &[Sent], bytes: &'static [u8], range: RangeCfg) {
    let mut to = FrameWriter::new(rt.alloc(), Vec::new(rt.alloc()), range);
    for sent in session {
        assert!(rt; is_sent(&mut to, *sent), "it isn't sent");
    }
    assert_eq!(rt; to.to.as_slice(), bytes);
    let mut from = FrameReader::new(rt.alloc(), bytes, range).expect(rt, "space for a read");
    for sent in session {
        assert!(rt; is_received(&mut from, *sent), "it isn't received");
    }
    assert!(rt; matches!(from.next(), Ok(None)), "more is received");
}

// PostgreSQL: a type, and a length that counts its own four bytes. The first message has no type.
const STARTUP: Layout = Layout {
    before: 0,
    prefix: Prefix::Fixed(Width::U32, ByteOrder::Big),
    after: 0,
    counts: 4,
};

const TYPED: Layout = Layout {
    before: 1,
    prefix: Prefix::Fixed(Width::U32, ByteOrder::Big),
    after: 0,
    counts: 4,
};

const POSTGRES: &[Sent] = &[
    Sent::Laid(STARTUP),
    Sent::Frame(b"", b"", b"\0\x03\0\0user\0bob\0\0"),
    Sent::Laid(TYPED),
    Sent::Frame(b"R", b"", b"\0\0\0\0"),
    Sent::Frame(b"Z", b"", b"I"),
    Sent::Frame(b"Q", b"", b"SELECT 1\0"),
    Sent::Frame(b"X", b"", b""),
];

#[test]
fn postgres(rt: HostRuntime) {
    let bytes =
        b"\0\0\0\x12\0\x03\0\0user\0bob\0\0R\0\0\0\x08\0\0\0\0Z\0\0\0\x05IQ\0\0\0\x0dSELECT 1\0X\0\0\0\x04";
    hold(
        &rt,
        POSTGRES,
        bytes.as_slice(),
        RangeCfg { lo: 0, hi: 1 << 30 },
    );
}

// MQTT: a type, and a varint of at most four bytes.
const MQTT: &[Sent] = &[
    Sent::Laid(Layout {
        before: 1,
        prefix: Prefix::Spelled,
        after: 0,
        counts: 0,
    }),
    Sent::Frame(b"\x10", b"", b"\0\x04MQTT\x04\x02\0\x3c\0\x04bob1"),
    Sent::Frame(b"\x20", b"", b"\0\0"),
    Sent::Frame(b"\xe0", b"", b""),
];

#[test]
fn mqtt(rt: HostRuntime) {
    let bytes = b"\x10\x10\0\x04MQTT\x04\x02\0\x3c\0\x04bob1\x20\x02\0\0\xe0\0";
    let range = RangeCfg {
        lo: 0,
        hi: (1 << 28) - 1,
    };
    hold(&rt, MQTT, bytes.as_slice(), range);
}

// gRPC: whether the message is compressed, and a length.
const GRPC: &[Sent] = &[
    Sent::Laid(Layout {
        before: 1,
        prefix: Prefix::Fixed(Width::U32, ByteOrder::Big),
        after: 0,
        counts: 0,
    }),
    Sent::Frame(b"\0", b"", b"\x0a\x03bob"),
    Sent::Frame(b"\x01", b"", b""),
];

#[test]
fn grpc(rt: HostRuntime) {
    let bytes = b"\0\0\0\0\x05\x0a\x03bob\x01\0\0\0\0";
    hold(&rt, GRPC, bytes.as_slice(), RangeCfg { lo: 0, hi: 1 << 22 });
}

// HTTP/2: 24 bytes that are no frame, and then a length, and six bytes of type, flags and stream.
const HTTP2: &[Sent] = &[
    Sent::Bytes(b"PRI * HTTP/2.0\r\n\r\nSM\r\n\r\n"),
    Sent::Laid(Layout {
        before: 0,
        prefix: Prefix::Fixed(Width::U24, ByteOrder::Big),
        after: 6,
        counts: 0,
    }),
    Sent::Frame(b"", b"\x04\0\0\0\0\0", b""),
    Sent::Frame(b"", b"\0\x01\0\0\0\x01", b"hello"),
];

#[test]
fn http2(rt: HostRuntime) {
    let bytes =
        b"PRI * HTTP/2.0\r\n\r\nSM\r\n\r\n\0\0\0\x04\0\0\0\0\0\0\0\x05\0\x01\0\0\0\x01hello";
    hold(
        &rt,
        HTTP2,
        bytes.as_slice(),
        RangeCfg { lo: 0, hi: 1 << 14 },
    );
}

// MySQL: a length, the lowest byte first, and then a number.
const MYSQL: &[Sent] = &[
    Sent::Laid(Layout {
        before: 0,
        prefix: Prefix::Fixed(Width::U24, ByteOrder::Little),
        after: 1,
        counts: 0,
    }),
    Sent::Frame(b"", b"\0", b"\x03SELECT 1"),
    Sent::Frame(b"", b"\x01", b"\x01"),
];

#[test]
fn mysql(rt: HostRuntime) {
    let bytes = b"\x09\0\0\0\x03SELECT 1\x01\0\0\x01\x01";
    hold(
        &rt,
        MYSQL,
        bytes.as_slice(),
        RangeCfg {
            lo: 0,
            hi: (1 << 24) - 1,
        },
    );
}

// TLS: a type and a version, and a length.
const TLS: &[Sent] = &[
    Sent::Laid(Layout {
        before: 3,
        prefix: Prefix::Fixed(Width::U16, ByteOrder::Big),
        after: 0,
        counts: 0,
    }),
    Sent::Frame(b"\x16\x03\x01", b"", b"\x01\0\0\0"),
];

#[test]
fn tls(rt: HostRuntime) {
    let bytes = b"\x16\x03\x01\0\x04\x01\0\0\0";
    hold(
        &rt,
        TLS,
        bytes.as_slice(),
        RangeCfg {
            lo: 0,
            hi: (1 << 14) + 256,
        },
    );
}
