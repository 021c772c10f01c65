// Writing bytes, and the first chunks of an `IoBufs`, to a writer.
ghost use Rattle.std.specs.Prelude.{◌≡◌, ◌≢◌, ◌+◌, ◌≤◌, length, map, take, IfErr, IfOk, OnErr};
ghost use Rattle.std.specs.Io.{WritesAtMost};
ghost use Rattle.std.specs.Io.KnownBytes.{WriteAppends};
ghost use Rattle.std.specs.IoError.{error_kind};
ghost use Rattle.std.specs.declared.io.ErrorKind.TheVariants.{Interrupted};
ghost use Rattle.std.specs.Io.Slices.{io_slice_bytes, io_slices_bytes};
ghost use Rattle.iobufs.specs.Sending.{IsSent};
ghost use Rattle.iobufs_core.specs.MarkedText.{text_advanced, text_chunks};

use super::IoBufs;
use iobufs_core::codec::Buf;
use std::io::{self, ErrorKind, IoSlice, Write};

/// How many chunks are given to one write, at most.
pub const BATCH: usize = 64;

/// Writes once, and again if a signal interrupts it (own, for layers). Fails as the writer does, but not with
/// `ErrorKind::Interrupted`: after 2^64 - 1 interruptions it fails with `ErrorKind::TimedOut`.
#[tactic(auto, using(crate::proofs::CallerFacts::again))]
pub fn write_again<W: Write>(to: &mut W, bytes: &[u8]) -> io::Result<usize>
    ensures bound { WritesAtMost result bytes.now }
    ensures bytes { WriteAppends (W.contents to.old) (W.contents to.new) result bytes.now }
    ensures retried { IfErr result (λ error. error_kind error ≢ Interrupted) }
{
    for _ in 0..u64::MAX {
        match to.write(bytes) {
            Err(error) if error.kind() == ErrorKind::Interrupted => {}
            answer => return answer,
        }
    }
    Err(io::Error::from(ErrorKind::TimedOut))
}

/// Writes these chunks by one `write_vectored`, and again if a signal interrupts it (own, for layers). Fails as
/// `write_again` does. Rattle's `write_vectored` calls `write` for each chunk: an error after written bytes is dropped,
/// and the next write fails if its cause lasts.
#[tactic(auto, using(crate::proofs::CallerFacts::again))]
#[inline(always)]
pub fn write_chunks_again<W: Write>(to: &mut W, chunks: &[IoSlice<'_>]) -> io::Result<usize>
    ensures bound { WritesAtMost result (io_slices_bytes chunks.now) }
    ensures bytes { WriteAppends (W.contents to.old) (W.contents to.new) result (io_slices_bytes chunks.now) }
    ensures retried { IfErr result (λ error. error_kind error ≢ Interrupted) }
{
    for _ in 0..u64::MAX {
        match to.write_vectored(chunks) {
            Err(error) if error.kind() == ErrorKind::Interrupted => {}
            answer => return answer,
        }
    }
    Err(io::Error::from(ErrorKind::TimedOut))
}

impl IoBufs {
    /// Fills `dst` with the first chunks that hold bytes, and returns their number (`Buf::chunks_vectored`). Allocates
    /// nothing.
    pub fn fill_slices<'a>(&'a self, dst: &mut [IoSlice<'a>]) -> usize
        ensures room { length dst.new ≡ length dst.old }
        ensures chunks { map io_slice_bytes (take result dst.new) ≡ take (length dst.old) (text_chunks self.now) }
        ensures few { result ≤ length dst.old }
    {
        let mut count = 0;
        while count < dst.len() {
            let Some(chunk) = self.chunk_at(count) else {
                break;
            };
            dst[count] = IoSlice::new(chunk);
            count += 1;
        }
        count
    }

    // Writes the first chunks once. A single chunk needs no list.
    fn write_front<'a, W: Write>(&'a self, to: &mut W) -> io::Result<usize>
        ensures bound { WritesAtMost result self.now.bytes }
        ensures bytes { WriteAppends (W.contents to.old) (W.contents to.new) result self.now.bytes }
        ensures retried { IfErr result (λ error. error_kind error ≢ Interrupted) }
    {
        if self.is_single() {
            return write_again(to, self.chunk());
        }
        let mut slices: [IoSlice<'a>; BATCH] = [IoSlice::new(&[]); BATCH];
        let count = self.fill_slices(&mut slices);
        write_chunks_again(to, &slices[..count])
    }

    // Writes the first chunks, and drops from the front what was taken.
    #[tactic(auto, using(crate::proofs::CallerFacts::sending))]
    pub(super) fn write_chunks<W: Write>(&mut self, to: &mut W) -> io::Result<usize>
        ensures sent { IsSent (W.contents to.old) (W.contents to.new) self.old.bytes self.new.bytes }
        ensures left { IfOk result (λ n. self.new ≡ text_advanced self.old n) }
        ensures unchanged { OnErr result (self.new ≡ self.old) }
        ensures count { IfOk result (λ n. length self.old.bytes ≡ n + length self.new.bytes) }
        ensures retried { IfErr result (λ error. error_kind error ≢ Interrupted) }
    {
        let n = self.write_front(to)?;
        self.advance(n);
        Ok(n)
    }
}
