// One buffer as a reader and a writer of the crate `bytes` and of std. A put of the crate `bytes` that doesn't fit
// fails, and changes nothing.
ghost use Rattle.std.specs.Prelude.{◌≡◌, ◌≤◌, ◌++◌, [], ◌∷◌, length, take, drop, min, Some, None, Ok, IfOk, IsOk, IsOkAnd};
ghost use Rattle.std.specs.Borrow.{sem};
ghost use Rattle.std.specs.Io.{ReadsAtMost, StartsWith, WritesAtMost};
ghost use Rattle.std.specs.Io.BufRead.{DropsConsumable, FillKeeps, Rests};
ghost use Rattle.std.specs.Io.KnownBytes.{Keeps, ReadConsumes, WriteAppends};
ghost use Rattle.bytes.specs.Unread.{IsChunkOf};
ghost use Rattle.iobufs_core.specs.Part.{part_drained, part_put};
ghost use Rattle.iobufs_core.specs.View.{view_advanced};
ghost use Rattle.iobufs_core.specs.contracts.buf.view.IoBuf.{the_row as view_row};
ghost use Rattle.iobufs_core.specs.contracts.buf.part.IoBufMut.{the_row as part_row};

use super::{IoBuf, IoBufMut};
use crate::codec;
use std::alloc::AllocError;
use std::io::{self, BufRead, Read, Write};

impl bytes::Buf for IoBuf {
    ghost unread = { λ v. v.bytes };

    fn remaining(&self) -> usize {
        self.len()
    }

    fn chunk(&self) -> &[u8]
        ensures chunk { IsChunkOf result.now self.now.bytes }
        ensures whole { result.now ≡ self.now.bytes }
    {
        self.as_ref()
    }

    fn advance(&mut self, cnt: usize)
        requires { cnt ≤ length self.old.bytes }
        ensures value { self.new.bytes ≡ drop cnt self.old.bytes }
        ensures whole { self.new ≡ view_advanced self.old cnt }
    {
        codec::Buf::advance(self, cnt);
    }
}

impl bytes::Buf for IoBufMut {
    ghost unread = { λ p. p.filled };

    ghost kept = { λ p. ([], p.spare) ∷ [] };

    fn remaining(&self) -> usize {
        self.len()
    }

    fn chunk(&self) -> &[u8] {
        self.as_ref()
    }

    fn advance(&mut self, cnt: usize) {
        codec::Buf::advance(self, cnt);
    }
}

impl bytes::BufMut for IoBufMut {
    ghost written = { λ p. p.filled };

    ghost spare = { λ p. p.spare };

    ghost max_spare = { λ p. Some p.spare };

    fn reserve(&mut self, additional: usize) -> Result<(), AllocError> {
        if additional <= codec::BufMut::remaining_mut(self) {
            Ok(())
        } else {
            Err(AllocError)
        }
    }

    fn put_slice(&mut self, src: &[u8]) -> Result<(), AllocError> {
        if codec::BufMut::remaining_mut(self) < src.len() {
            return Err(AllocError);
        }
        codec::BufMut::put_slice(self, src);
        Ok(())
    }

    fn put_bytes(&mut self, val: u8, cnt: usize) -> Result<(), AllocError> {
        if codec::BufMut::remaining_mut(self) < cnt {
            return Err(AllocError);
        }
        codec::BufMut::put_bytes(self, val, cnt);
        Ok(())
    }

    fn remaining_mut(&self) -> usize {
        codec::BufMut::remaining_mut(self)
    }
}

impl Read for IoBuf {
    ghost remaining = { λ b. Some b.bytes };

    #[tactic(auto, using(crate::proofs::TraitLaws::took_front))]
    fn read(&mut self, dst: &mut [u8]) -> io::Result<usize>
        ensures bound { ReadsAtMost result dst.new }
        ensures bytes { ReadConsumes (Some self.old.bytes) (Some self.new.bytes) result dst.new }
        ensures count { result ≡ Ok (min (length dst.old) (length self.old.bytes)) }
        ensures copied { IfOk result (λ n. dst.new ≡ take n self.old.bytes ++ drop n dst.old) }
        ensures rest { IfOk result (λ n. self.new ≡ view_advanced self.old n) }
    {
        let n = dst.len().min(self.len());
        codec::Buf::copy_to_slice(self, &mut dst[..n]);
        Ok(n)
    }
}

impl BufRead for IoBuf {
    fn fill_buf(&mut self) -> io::Result<&[u8]>
        ensures front { IfOk result (λ s. StartsWith self.old.bytes s.now) }
        ensures end { IfOk result (λ s. length s.now ≡ 0 → self.old.bytes ≡ []) }
        ensures* after_borrow { sem 𝓛 (Rests view_row self.entry (λ new.
            FillKeeps (Some self.old.bytes) (Some new.bytes) None result)) }
        ensures value { IsOkAnd result (λ s. s.now ≡ self.old.bytes) }
    {
        Ok(self.as_ref())
    }

    // Drops at most the bytes that there are.
    #[tactic(auto, using(crate::proofs::TraitLaws::dropped_all))]
    fn consume(&mut self, amount: usize)
        ensures bytes { DropsConsumable (Some self.old.bytes) (Some self.new.bytes) None amount }
        ensures rest { self.new.bytes ≡ drop amount self.old.bytes }
        ensures whole { self.new ≡ view_advanced self.old (min amount (length self.old.bytes)) }
    {
        let n = amount.min(self.len());
        codec::Buf::advance(self, n);
    }
}

impl Read for IoBufMut {
    ghost remaining = { λ b. Some b.filled };

    #[tactic(auto, using(crate::proofs::TraitLaws::took_front))]
    fn read(&mut self, dst: &mut [u8]) -> io::Result<usize>
        ensures bound { ReadsAtMost result dst.new }
        ensures bytes { ReadConsumes (Some self.old.filled) (Some self.new.filled) result dst.new }
        ensures count { result ≡ Ok (min (length dst.old) (length self.old.filled)) }
        ensures copied { IfOk result (λ n. dst.new ≡ take n self.old.filled ++ drop n dst.old) }
        ensures rest { IfOk result (λ n. self.new ≡ part_drained self.old n) }
    {
        let n = dst.len().min(self.len());
        codec::Buf::copy_to_slice(self, &mut dst[..n]);
        Ok(n)
    }
}

impl BufRead for IoBufMut {
    fn fill_buf(&mut self) -> io::Result<&[u8]>
        ensures front { IfOk result (λ s. StartsWith self.old.filled s.now) }
        ensures end { IfOk result (λ s. length s.now ≡ 0 → self.old.filled ≡ []) }
        ensures* after_borrow { sem 𝓛 (Rests part_row self.entry (λ new.
            FillKeeps (Some self.old.filled) (Some new.filled) None result)) }
        ensures value { IsOkAnd result (λ s. s.now ≡ self.old.filled) }
    {
        Ok(self.as_ref())
    }

    // Drops at most the bytes that there are.
    #[tactic(auto, using(crate::proofs::TraitLaws::dropped_all))]
    fn consume(&mut self, amount: usize)
        ensures bytes { DropsConsumable (Some self.old.filled) (Some self.new.filled) None amount }
        ensures rest { self.new.filled ≡ drop amount self.old.filled }
        ensures whole { self.new ≡ part_drained self.old (min amount (length self.old.filled)) }
    {
        let count = amount.min(self.len());
        codec::Buf::advance(self, count);
    }
}

impl Write for IoBufMut {
    ghost contents = { λ b. Some b.filled };

    // Takes as many bytes as fit.
    fn write(&mut self, src: &[u8]) -> io::Result<usize>
        ensures bound { WritesAtMost result src.now }
        ensures bytes { WriteAppends (Some self.old.filled) (Some self.new.filled) result src.now }
        ensures count { result ≡ Ok (min (length src.now) self.old.spare) }
        ensures put { IfOk result (λ n. self.new ≡ part_put self.old (take n src.now)) }
    {
        let n = src.len().min(codec::BufMut::remaining_mut(self));
        codec::BufMut::put_slice(self, &src[..n]);
        Ok(n)
    }

    fn flush(&mut self) -> io::Result<()>
        ensures bytes { Keeps (Some self.old.filled) (Some self.new.filled) }
        ensures ok { IsOk result }
        ensures unchanged { self.new ≡ self.old }
    {
        Ok(())
    }
}
