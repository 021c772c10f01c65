// A reader and a writer that move few bytes at a time, are interrupted before each read or write, and fail once.
use std::alloc::Global;
use std::io::{self, ErrorKind, Read, Write};

// How often each call is interrupted before it is done, and how often this one will still be.
#[derive(Drop)]
pub struct Interruptions {
    each: usize,
    left: usize,
}

impl Interruptions {
    pub fn new(each: usize) -> Interruptions {
        Interruptions { each, left: each }
    }

    // Fails if the call is to be interrupted once more.
    fn next(&mut self) -> io::Result<()> {
        if self.left == 0 {
            self.left = self.each;
            return Ok(());
        }
        self.left = self.left.saturating_sub(1);
        Err(io::Error::from(ErrorKind::Interrupted))
    }

    // Whether no call was given up.
    pub fn are_over(&self) -> bool {
        self.each == self.left
    }
}

// A reader that gives at most `most` bytes at a time. The first read after its bytes fails with `error`, if there is
// one; further ones find the end.
#[derive(Drop)]
pub struct FakeReader<'a> {
    bytes: &'a [u8],
    most: usize,
    error: Option<ErrorKind>,
    pub interruptions: Interruptions,
    // Those that aren't interrupted.
    pub reads: usize,
}

impl<'a> FakeReader<'a> {
    pub fn new(bytes: &'a [u8], most: usize, error: Option<ErrorKind>) -> FakeReader<'a> {
        FakeReader {
            bytes,
            most,
            error,
            interruptions: Interruptions::new(1),
            reads: 0,
        }
    }

    // Replaces the bytes that are left.
    pub fn give(&mut self, bytes: &'a [u8]) {
        self.bytes = bytes;
    }
}

impl Read for FakeReader<'_> {
    fn read(&mut self, buf: &mut [u8]) -> io::Result<usize> {
        self.interruptions.next()?;
        self.reads = self.reads.saturating_add(1);
        if self.bytes.is_empty() {
            return match self.error.take() {
                Some(kind) => Err(io::Error::from(kind)),
                None => Ok(0),
            };
        }
        let n = buf.len().min(self.bytes.len()).min(self.most);
        buf[..n].copy_from_slice(&self.bytes[..n]);
        self.bytes = &self.bytes[n..];
        Ok(n)
    }
}

// A writer that takes at most `most` bytes at a time. It records them, and `|` for each flush. Its call number
// `fails_at`, of writes and flushes, fails with `error`.
#[derive(Drop)]
pub struct FakeWriter {
    pub record: Vec<u8>,
    most: usize,
    fails_at: usize,
    error: ErrorKind,
    pub interruptions: Interruptions,
    // Writes that aren't interrupted, and flushes.
    pub calls: usize,
}

impl FakeWriter {
    // Never fails.
    pub fn new(alloc: Global, most: usize) -> FakeWriter {
        FakeWriter::failing(alloc, most, usize::MAX, ErrorKind::Other)
    }

    pub fn failing(alloc: Global, most: usize, fails_at: usize, error: ErrorKind) -> FakeWriter {
        FakeWriter {
            record: Vec::new(alloc),
            most,
            fails_at,
            error,
            interruptions: Interruptions::new(1),
            calls: 0,
        }
    }

    fn call(&mut self, bytes: &[u8]) -> io::Result<()> {
        let number = self.calls;
        self.calls = self.calls.saturating_add(1);
        if number == self.fails_at {
            return Err(io::Error::from(self.error));
        }
        self.record.extend_from_slice(bytes)?;
        Ok(())
    }
}

impl Write for FakeWriter {
    fn write(&mut self, buf: &[u8]) -> io::Result<usize> {
        self.interruptions.next()?;
        let n = buf.len().min(self.most);
        self.call(&buf[..n])?;
        Ok(n)
    }

    fn flush(&mut self) -> io::Result<()> {
        self.call(b"|")
    }
}
