// `IoBufs`, `IoBufsMut` and `Builder` as readers and writers of the crate `bytes` and of std.
ghost use Rattle.std.specs.Prelude.{◌≡◌, ◌≤◌, [], ◌∷◌, length, drop, min, Some, None, Ok, IfOk, IsOk};
ghost use Rattle.bytes.specs.Unread.{IsChunkOf};
ghost use Rattle.iobufs_core.specs.Chunks.{first_chunk};
ghost use Rattle.iobufs_core.specs.MarkedText.{text_advanced, text_chunks};
ghost use Rattle.iobufs.specs.Parts.{parts_chunks, parts_drained, parts_filled, parts_spare};
ghost use Rattle.iobufs.specs.Building.{building_room, building_bytes};
ghost use Rattle.std.specs.Borrow.{sem};
ghost use Rattle.std.specs.Io.BufRead.{Rests, FillKeeps, DropsConsumable};
ghost use Rattle.std.specs.Io.{ReadsAtMost, WritesAtMost, StartsWith};
ghost use Rattle.std.specs.Io.KnownBytes.{Keeps, ReadConsumes, WriteAppends};
ghost use Rattle.iobufs.specs.contracts.bufs.IoBufs.{the_row};

use crate::{Builder, IoBufs, IoBufsMut};
use iobufs_core::codec;
use std::alloc::AllocError;
use std::io::{self, BufRead, Read, Write};

impl bytes::Buf for IoBufs {
    ghost unread = { λ t. t.bytes };

    fn remaining(&self) -> usize {
        codec::Buf::remaining(self)
    }

    #[tactic(auto, using(iobufs_core::proofs::TraitLaws::chunk_of_bytes))]
    fn chunk(&self) -> &[u8]
        ensures chunk { IsChunkOf result.now self.now.bytes }
        ensures first { result.now ≡ first_chunk (text_chunks self.now) }
    {
        codec::Buf::chunk(self)
    }

    #[tactic(auto, using(crate::proofs::TraitLaws::text_drops))]
    fn advance(&mut self, cnt: usize)
        requires { cnt ≤ length self.old.bytes }
        ensures value { self.new.bytes ≡ drop cnt self.old.bytes }
        ensures whole { self.new ≡ text_advanced self.old cnt }
    {
        codec::Buf::advance(self, cnt);
    }
}

impl bytes::Buf for IoBufsMut {
    ghost unread = { parts_filled };

    ghost kept = { λ parts. ([], parts_spare parts) ∷ [] };

    fn remaining(&self) -> usize {
        codec::Buf::remaining(self)
    }

    #[tactic(auto, using(iobufs_core::proofs::TraitLaws::chunk_of_bytes))]
    fn chunk(&self) -> &[u8]
        ensures chunk { IsChunkOf result.now (parts_filled self.now) }
        ensures first { result.now ≡ first_chunk (parts_chunks self.now) }
    {
        codec::Buf::chunk(self)
    }

    #[tactic(auto, using(crate::proofs::TraitLaws::parts_drop, crate::proofs::TraitLaws::parts_keep))]
    fn advance(&mut self, cnt: usize) {
        codec::Buf::advance(self, cnt);
    }
}

impl bytes::BufMut for Builder {
    ghost written = { building_bytes };

    ghost spare = { building_room };

    ghost max_spare = { λ b. Some (building_room b) };

    fn reserve(&mut self, additional: usize) -> Result<(), AllocError> {
        if additional <= codec::BufMut::remaining_mut(self) {
            Ok(())
        } else {
            Err(AllocError)
        }
    }

    #[tactic(auto, using(crate::proofs::TraitLaws::built_bytes, crate::proofs::TraitLaws::built_room))]
    fn put_slice(&mut self, src: &[u8]) -> Result<(), AllocError> {
        if codec::BufMut::remaining_mut(self) < src.len() {
            return Err(AllocError);
        }
        codec::BufMut::put_slice(self, src);
        Ok(())
    }

    #[tactic(auto, using(crate::proofs::TraitLaws::built_bytes, crate::proofs::TraitLaws::built_room))]
    fn put_bytes(&mut self, val: u8, cnt: usize) -> Result<(), AllocError> {
        if codec::BufMut::remaining_mut(self) < cnt {
            return Err(AllocError);
        }
        codec::BufMut::put_bytes(self, val, cnt);
        Ok(())
    }

    fn remaining_mut(&self) -> usize {
        codec::BufMut::remaining_mut(self)
    }
}

impl Read for IoBufs {
    ghost remaining = { λ t. Some t.bytes };

    #[tactic(auto, using(crate::proofs::TraitLaws::text_drops, iobufs_core::proofs::TraitLaws::took_front))]
    fn read(&mut self, dst: &mut [u8]) -> io::Result<usize>
        ensures bound { ReadsAtMost result dst.new }
        ensures bytes { ReadConsumes (Some self.old.bytes) (Some self.new.bytes) result dst.new }
        ensures count { result ≡ Ok (min (length dst.old) (length self.old.bytes)) }
        ensures rest { IfOk result (λ n. self.new ≡ text_advanced self.old n) }
        ensures tail { IfOk result (λ n. drop n dst.new ≡ drop n dst.old) }
    {
        let n = dst.len().min(self.len());
        codec::Buf::copy_to_slice(self, &mut dst[..n]);
        Ok(n)
    }
}

impl BufRead for IoBufs {
    #[tactic(auto, using(iobufs_core::proofs::TraitLaws::starts_with, iobufs_core::proofs::TraitLaws::ends_where))]
    fn fill_buf(&mut self) -> io::Result<&[u8]>
        ensures front { IfOk result (λ s. StartsWith self.old.bytes s.now) }
        ensures end { IfOk result (λ s. length s.now ≡ 0 → self.old.bytes ≡ []) }
        ensures* after_borrow { sem 𝓛 (Rests the_row self.entry (λ new.
            FillKeeps (Some self.old.bytes) (Some new.bytes) None result)) }
        ensures chunk { IfOk result (λ s. s.now ≡ first_chunk (text_chunks self.old)) }
    {
        Ok(codec::Buf::chunk(self))
    }

    // Drops at most the bytes that there are.
    #[tactic(auto, using(crate::proofs::TraitLaws::text_drops, iobufs_core::proofs::TraitLaws::dropped_all))]
    fn consume(&mut self, amount: usize)
        ensures bytes { DropsConsumable (Some self.old.bytes) (Some self.new.bytes) None amount }
        ensures rest { self.new.bytes ≡ drop amount self.old.bytes }
        ensures whole { self.new ≡ text_advanced self.old (min amount (length self.old.bytes)) }
    {
        let n = amount.min(self.len());
        codec::Buf::advance(self, n);
    }
}

impl Write for Builder {
    ghost contents = { λ b. Some (building_bytes b) };

    // Takes as many bytes as fit.
    #[tactic(auto, using(crate::proofs::TraitLaws::built_bytes))]
    fn write(&mut self, src: &[u8]) -> io::Result<usize>
        ensures bound { WritesAtMost result src.now }
        ensures bytes { WriteAppends (Some (building_bytes self.old)) (Some (building_bytes self.new)) result src.now }
        ensures count { result ≡ Ok (min (length src.now) (building_room self.old)) }
    {
        let n = src.len().min(codec::BufMut::remaining_mut(self));
        codec::BufMut::put_slice(self, &src[..n]);
        Ok(n)
    }

    fn flush(&mut self) -> io::Result<()>
        ensures bytes { Keeps (Some (building_bytes self.old)) (Some (building_bytes self.new)) }
        ensures ok { IsOk result }
        ensures unchanged { self.new ≡ self.old }
    {
        Ok(())
    }
}
