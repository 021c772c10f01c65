// The bytes of one header.
ghost use Rattle.std.specs.Prelude.{◌≡◌, ◌≤◌, length, drop};
ghost use Rattle.iobufs_core.specs.Part.{empty_part};
ghost use Rattle.iobufs_core.specs.PartLaws.{IsPut, put_composes, put_lessens, put_nothing, put_unchanged};

use iobufs_core::codec::BufMut;
use std::marker::Model;

// How many bytes a header has at most.
const MOST: usize = 32;

/// A header: at most 32 bytes, which are sent before a body. Needs no allocation.
#[derive(Drop)]
pub struct Head {
    bytes: [u8; 32],
    start: usize,
    end: usize,
}

impl Model for Head {
    ghost use Rattle.std.specs.Prelude.{◌≡◌, ◌≤◌, ◌-◌, length, take, drop};
    ghost use Rattle.iobufs_core.specs.Part.{Part};

    ghost Value = { Part };

    ghost view = { λ h. record { filled = drop h.start (take h.end h.bytes); spare = 32 - h.end } };

    ghost invariant = { λ h. (h.start ≤ h.end) × (h.end ≤ 32) × (length h.bytes ≡ 32) };
}

impl Head {
    /// Makes a header without bytes.
    pub fn new() -> Head
        ensures { result ≡ empty_part 32 }
    {
        Head {
            bytes: [0; 32],
            start: 0,
            end: 0,
        }
    }

    /// Borrows the bytes.
    pub fn as_slice(&self) -> &[u8]
        ensures { result.now ≡ self.now.filled }
    {
        &self.bytes[..self.end][self.start..]
    }

    /// Returns how many bytes there are.
    pub fn len(&self) -> usize
        ensures value { result ≡ length self.now.filled }
        ensures few { result ≤ 32 }
    {
        self.end - self.start
    }

    /// Drops the first `n` bytes.
    pub fn advance(&mut self, n: usize)
        requires { n ≤ length self.old.filled }
        ensures { self.new.filled ≡ drop n self.old.filled }
    {
        self.start += n;
    }
}

impl BufMut for Head {
    ghost room = { λ h. h.spare };

    ghost filled = { IsPut };

    fn remaining_mut(&self) -> usize {
        MOST - self.end
    }

    fn put_slice(&mut self, src: &[u8]) {
        let end = self.end + src.len();
        self.bytes[self.end..end].copy_from_slice(src);
        self.end = end;
    }

    fn put_bytes(&mut self, value: u8, n: usize) {
        let end = self.end + n;
        self.bytes[self.end..end].fill(value);
        self.end = end;
    }

    ghost nothing = { put_nothing };

    ghost unchanged = { put_unchanged };

    ghost composes = { put_composes };

    ghost lessens = { put_lessens };
}
