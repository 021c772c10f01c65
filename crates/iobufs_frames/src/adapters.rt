//! Writable buffers as std's writers.
ghost use Rattle.std.specs.Prelude.{◌≡◌, min, length, take, None, Ok, IsOk, IfOk};
ghost use Rattle.std.specs.Io.{WritesAtMost};
ghost use Rattle.std.specs.Io.KnownBytes.{Keeps, WriteAppends};

use iobufs_core::codec::BufMut;
use std::io::{self, Write};

/// Makes any writable buffer one of std's writers (`bytes::BufMut::writer`). `IoBufsMut` needs this, because it isn't a
/// `bytes::BufMut`.
#[derive(Drop)]
pub struct Writer<B> {
    /// The remaining space, and what was written.
    pub buf: B,
}

impl<B: BufMut> Write for Writer<B> {
    /// Takes as many bytes as fit: 0 if there is no space, which `write_all` turns into `ErrorKind::WriteZero`. Cannot
    /// fail.
    fn write(&mut self, src: &[u8]) -> io::Result<usize>
        ensures bound { WritesAtMost result src.now }
        ensures bytes { WriteAppends None None result src.now }
        ensures count { result ≡ Ok (min (length src.now) (B.room self.old.buf)) }
        ensures filled { IfOk result (λ n. B.filled self.old.buf (take n src.now) self.new.buf) }
    {
        let n = src.len().min(self.buf.remaining_mut());
        self.buf.put_slice(&src[..n]);
        Ok(n)
    }

    fn flush(&mut self) -> io::Result<()>
        ensures bytes { Keeps None None }
        ensures ok { IsOk result }
        ensures unchanged { self.new ≡ self.old }
    {
        Ok(())
    }
}
