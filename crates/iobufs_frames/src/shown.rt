// Bytes that are read where they are.
ghost use Rattle.iobufs_core.specs.Chunks.{full_chunks};
ghost use Rattle.iobufs_core.specs.ChunkLaws.{full-one, joined-one};

use bytes::Bytes;
use iobufs_core::codec::{Buf, BufError};
use std::alloc::Global;
use std::marker::Model;

/// Bytes that are read where they are.
#[derive(Drop)]
pub(crate) struct Shown<'a> {
    pub(crate) bytes: &'a [u8],
}

impl<'a> Model for Shown<'a> {
    ghost use Rattle.std.specs.Prelude.{List, ℕ};

    ghost Value = { List ℕ };

    ghost view = { λ s. s.bytes.now };
}

impl<'a> Buf for Shown<'a> {
    ghost use Rattle.std.specs.Prelude.{[], ◌∷◌, refl, drop};

    ghost text = { λ s. s };

    ghost advanced = { λ s n. drop n s };

    ghost copied = { λ s n. drop n s };

    ghost pieces = { λ s. full_chunks (s ∷ []) };

    fn remaining(&self) -> usize {
        self.bytes.len()
    }

    #[tactic(auto, using(iobufs_core::specs::ChunkLaws::first_one, iobufs_core::specs::ChunkLaws::chunk_one))]
    fn chunk(&self) -> &[u8] {
        self.bytes
    }

    fn byte_at(&self, i: usize) -> Option<u8> {
        self.bytes.get(i).copied()
    }

    fn advance(&mut self, n: usize) {
        self.bytes = &self.bytes[n..];
    }

    fn copy_to_slice(&mut self, dst: &mut [u8]) {
        let n = dst.len();
        dst.copy_from_slice(&self.bytes[..n]);
        self.advance(n);
    }

    fn copy_to_bytes(&mut self, alloc: Global, n: usize) -> Result<Bytes, BufError> {
        if n == 0 {
            return Ok(Bytes::new());
        }
        let bytes = Bytes::copy_from_slice(alloc, &self.bytes[..n])?;
        self.advance(n);
        Ok(bytes)
    }

    fn chunks_vectored(&self, alloc: Global, max: usize) -> Result<Vec<&[u8]>, BufError> {
        let mut chunks = Vec::new(alloc);
        if max != 0 && !self.bytes.is_empty() {
            chunks.push(self.bytes)?;
        }
        Ok(chunks)
    }

    ghost drops = { λ s n h. refl };

    ghost copies = { λ s n h. refl };

    ghost joins = { joined-one };

    ghost full = { full-one };
}
