// Frames over async readers and writers: the kit's `FramedRead` and `FramedWrite` with the codec, and `poll_frame`.
ghost use Rattle.std.specs.Prelude.{◌≡◌, length, IfOk, ⊤};

use futures::task::{Context, Poll};
use futures::test::MockTask;
use futures::{FutureExt, Sink, StreamExt, ready};
use iobufs::bufs::IoBufs;
use iobufs_core::buf::IoBuf;
use iobufs_core::codec::RangeCfg;
use iobufs_examples::polled::poll_frame;
use iobufs_frames::{FrameError, FrameWriter, Prefix};
use iobufs_tokio_util::FrameCodec;
use std::alloc::Global;
use std::io::{self, ErrorKind};
use std::test::Fail;
use tokio::io::{AsyncRead, AsyncWrite};
use tokio_util::codec::{FramedRead, FramedWrite};

const RANGE: RangeCfg = RangeCfg { lo: 0, hi: 8 };

// A step of the script.
#[derive(Clone, Copy)]
enum Call {
    // A read gives these bytes, or as many as fit; at the end of the script it gives none.
    Gives(&'static [u8]),
    // A write takes at most this many bytes.
    Takes(usize),
    // It is to be called again.
    Waits,
    Fails(ErrorKind),
}

// A reader or a writer that follows a script, and records what was written, with `|` for a flush and `.` for the end.
#[derive(Drop)]
struct Script {
    calls: &'static [Call],
    at: usize,
    record: Vec<u8>,
}

impl Script {
    fn new(alloc: Global, calls: &'static [Call]) -> Script {
        Script {
            calls,
            at: 0,
            record: Vec::new(alloc),
        }
    }

    fn next(&mut self) -> Option<Call> {
        let call = *self.calls.get(self.at)?;
        self.at = self.at.saturating_add(1);
        Some(call)
    }

    fn write(&mut self, bytes: &[u8]) -> io::Result<usize>
        ensures { IfOk result (λ n. n ≡ length bytes.now) }
    {
        self.record.extend_from_slice(bytes)?;
        Ok(bytes.len())
    }
}

impl AsyncRead for Script {
    ghost reads = { λ _ _ _. ⊤ };

    ghost is_at_end = { λ _. ⊤ };

    ghost reads_nothing = { λ _. tt };

    ghost reads_in_order = { λ _ _ _ _ _ _ _. tt };

    fn poll_read(&mut self, cx: &mut Context<'_>, buf: &mut [u8]) -> Poll<io::Result<usize>> {
        match self.next() {
            Some(Call::Gives(bytes)) => {
                let n = bytes.len().min(buf.len());
                buf[..n].copy_from_slice(&bytes[..n]);
                Poll::Ready(Ok(n))
            }
            Some(Call::Waits) => cx.yield_now(),
            Some(Call::Fails(kind)) => Poll::Ready(Err(io::Error::from(kind))),
            _ => Poll::Ready(Ok(0)),
        }
    }
}

impl AsyncWrite for Script {
    ghost writes = { λ _ _ _. ⊤ };

    ghost writes_nothing = { λ _. tt };

    ghost writes_in_order = { λ _ _ _ _ _ _ _. tt };

    fn poll_write(&mut self, cx: &mut Context<'_>, buf: &[u8]) -> Poll<io::Result<usize>> {
        match self.next() {
            Some(Call::Takes(most)) => {
                let n = most.min(buf.len());
                Poll::Ready(self.write(&buf[..n]))
            }
            Some(Call::Waits) => cx.yield_now(),
            Some(Call::Fails(kind)) => Poll::Ready(Err(io::Error::from(kind))),
            _ => Poll::Ready(self.write(buf)),
        }
    }

    fn poll_flush(&mut self, _cx: &mut Context<'_>) -> Poll<io::Result<()>> {
        Poll::Ready(self.write(b"|").map(|_| ()))
    }

    fn poll_shutdown(&mut self, _cx: &mut Context<'_>) -> Poll<io::Result<()>> {
        Poll::Ready(self.write(b".").map(|_| ()))
    }
}

// Scripts of a reader, and what four polls give: a body as it is, `~` if it is pending, `.` for the end, or a word.
const READS: &[(&str, &[Call], &[u8])] = &[
    ("nothing", &[], b". . . . "),
    (
        "short reads",
        &[
            Call::Gives(b"\x03a"),
            Call::Gives(b"b"),
            Call::Gives(b"c\0\x01"),
        ],
        b"abc  cut . ",
    ),
    (
        "a read that waits inside a frame is no end",
        &[Call::Gives(b"\x02a"), Call::Waits, Call::Gives(b"b")],
        b"~ ab . . ",
    ),
    (
        "an interruption is an error",
        &[Call::Fails(ErrorKind::Interrupted), Call::Gives(b"\x01a")],
        b"error . a . ",
    ),
    (
        "an error loses nothing",
        &[
            Call::Gives(b"\x01a\x02b"),
            Call::Fails(ErrorKind::ConnectionReset),
            Call::Gives(b"c"),
        ],
        b"a error . bc ",
    ),
    (
        "a length above the range stays",
        &[Call::Gives(b"\x01a\x09"), Call::Gives(b"\x01b")],
        b"a bad . bad ",
    ),
];

fn shown(polled: &Option<Option<Result<IoBuf, FrameError>>>) -> &[u8] {
    match polled {
        Some(Some(Ok(body))) => body.as_ref(),
        Some(Some(Err(FrameError::Cut))) => b"cut",
        Some(Some(Err(FrameError::Frame(_)))) => b"bad",
        Some(Some(Err(_))) => b"error",
        Some(None) => b".",
        None => b"~",
    }
}

#[test]
fn frames_are_read(rt: HostRuntime) -> Result<(), Fail> {
    for (name, calls, want) in READS {
        let from = Script::new(rt.alloc(), calls);
        let decoder = FrameCodec::new(Prefix::Spelled, RANGE);
        let mut stream = FramedRead::new(rt.alloc(), from, decoder)?;
        let mut log = Vec::new(rt.alloc());
        for _ in 0..4 {
            let polled = stream.next().now_or_never(&rt)?;
            log.extend_from_slice(shown(&polled))?;
            log.push(b' ')?;
        }
        assert_eq!(rt; log.as_slice(), *want, "{name}");
    }
    Ok(())
}

// Scripts of a writer, bodies that are sent and flushed, what comes of each and of two closes, and what is written: `=`
// if it is done, `~` if it is pending, `x` if a body is too long, and `!` for another error.
const WRITES: &[(&str, &[Call], &[&[u8]], &[u8], &[u8])] = &[
    (
        "each frame is flushed",
        &[],
        &[b"abc", b""],
        b"====",
        b"\x03abc|\0||.|.",
    ),
    (
        "short writes, and such as wait, lose nothing",
        &[
            Call::Takes(1),
            Call::Takes(1),
            Call::Waits,
            Call::Takes(1),
            Call::Waits,
        ],
        &[b"abc"],
        b"~~=",
        b"\x03abc|.",
    ),
    (
        "a body above the limit",
        &[],
        &[b"abcde", b"abcd"],
        b"x====",
        b"|\x04abcd||.|.",
    ),
    (
        "an error loses nothing",
        &[Call::Takes(1), Call::Fails(ErrorKind::BrokenPipe)],
        &[b"ab"],
        b"!==",
        b"\x02ab|.|.",
    ),
    (
        "a writer that takes none",
        &[Call::Takes(0)],
        &[b"ab"],
        b"!==",
        b"\x02ab|.|.",
    ),
];

fn mark<E: Drop>(polled: Poll<Result<(), E>>) -> u8 {
    match polled {
        Poll::Ready(Ok(())) => b'=',
        Poll::Ready(Err(_)) => b'!',
        Poll::Pending => b'~',
    }
}

const SENT: RangeCfg = RangeCfg { lo: 0, hi: 4 };

#[test]
fn frames_are_sent(rt: HostRuntime) -> Result<(), Fail> {
    let task = MockTask::new(&rt)?;
    for (name, calls, bodies, want, record) in WRITES {
        let encoder = FrameCodec::new(Prefix::Spelled, SENT);
        let mut sink = FramedWrite::new(rt.alloc(), Script::new(rt.alloc(), calls), encoder)?;
        let mut log = Vec::new(rt.alloc());
        for bytes in *bodies {
            let body = IoBufs::from(IoBuf::from(*bytes));
            if sink.write_buffer().is_empty() && sink.start_send(body).is_err() {
                log.push(b'x')?;
            }
            log.push(mark(task.enter(|cx| sink.poll_flush(cx))))?;
        }
        for _ in 0..2 {
            log.push(mark(task.enter(|cx| sink.poll_close(cx))))?;
        }
        assert_eq!(rt; log.as_slice(), *want, "{name}");
        assert_eq!(rt; sink.get_ref().record.as_slice(), *record, "{name}");
    }
    Ok(())
}

fn poll_sent_out(frames: &mut FrameWriter<Script>, cx: &mut Context<'_>) -> Poll<io::Result<()>> {
    if let Err(error) = ready!(poll_frame(frames, cx)) {
        return Poll::Ready(Err(error));
    }
    frames.to.poll_flush(cx)
}

fn poll_closed(frames: &mut FrameWriter<Script>, cx: &mut Context<'_>) -> Poll<io::Result<()>> {
    if let Err(error) = ready!(poll_sent_out(frames, cx)) {
        return Poll::Ready(Err(error));
    }
    frames.to.poll_shutdown(cx)
}

// The scripts of `frames_are_sent`, without a copy of a body.
#[test]
fn frames_are_sent_without_a_copy(rt: HostRuntime) -> Result<(), Fail> {
    let task = MockTask::new(&rt)?;
    for (name, calls, bodies, want, record) in WRITES {
        let mut frames = FrameWriter::new(rt.alloc(), Script::new(rt.alloc(), calls), SENT);
        let mut log = Vec::new(rt.alloc());
        for bytes in *bodies {
            let body = IoBufs::from(IoBuf::from(*bytes));
            if frames.rest.is_empty() && frames.put(body).is_err() {
                log.push(b'x')?;
            }
            log.push(mark(task.enter(|cx| poll_sent_out(&mut frames, cx))))?;
        }
        for _ in 0..2 {
            log.push(mark(task.enter(|cx| poll_closed(&mut frames, cx))))?;
        }
        assert_eq!(rt; log.as_slice(), *want, "{name}");
        assert_eq!(rt; frames.to.record.as_slice(), *record, "{name}");
    }
    Ok(())
}

// After `poll_ready`, the buffer of a `FramedWrite` holds one frame and fewer than 8,192 bytes more: the length of a
// body, and the most bytes that are held.
const HELD: [(usize, usize); 4] = [
    (64, 8256),
    (1 << 10, 9217),
    (1 << 16, 73730),
    (1 << 20, 1056770),
];

#[test]
fn what_is_unwritten_is_bounded(rt: HostRuntime) -> Result<(), Fail> {
    let task = MockTask::new(&rt)?;
    for (size, bound) in HELD {
        let codec = FrameCodec::new(Prefix::Spelled, RangeCfg { lo: 0, hi: size });
        let mut sink = FramedWrite::new(rt.alloc(), Script::new(rt.alloc(), &[]), codec)?;
        let mut bytes = Vec::new(rt.alloc());
        bytes.resize(size, 7)?;
        let body = IoBuf::copy_from_slice(rt.alloc(), bytes.as_slice())?;
        for _ in 0..200 {
            let ready = task.enter(|cx| {
                <FramedWrite<Script, FrameCodec> as Sink<IoBufs>>::poll_ready(&mut sink, cx)
            });
            assert!(rt; matches!(ready, Poll::Ready(Ok(()))));
            assert!(rt; sink.start_send(IoBufs::from(body.clone()?)).is_ok());
            assert!(rt; sink.write_buffer().len() <= bound, "{size}");
        }
    }
    Ok(())
}
