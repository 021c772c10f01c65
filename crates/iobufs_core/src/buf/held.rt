// The bytes of a view, with a share of their storage. In the Rust crate `rust/iobufs/layer/held.rs` takes the place of
// this file, and keeps the address of the bytes.
ghost use Rattle.std.specs.Prelude.{ℕ, ◌↔◌, ◌≡◌, ◌≤◌, length, IfOk, IsErr, IsOk, IsTrue, MatchResult, OnErr, OnOk};
ghost use Rattle.iobufs_core.specs.Native.{native_advanced, native_cut};
ghost use Rattle.iobufs_core.specs.View.{IsFreelyShared, IsView, bytes_mark, native_mark, static_mark, view_advanced, view_front};

use super::block::Block;
use bytes::Bytes;
use std::alloc::AllocError;
use std::marker::Model;

/// A range of a block. The block lives as long as any of its ranges. A clause sees the bytes and their capacity
/// (`NativeText`).
#[derive(Drop)]
pub(super) struct Native {
    pub(super) start: usize,
    pub(super) len: usize,
    pub(super) block: Block,
}

impl Model for Native {
    ghost use Rattle.std.specs.Prelude.{◌+◌, ◌-◌, ◌≤◌, length, take, drop};
    ghost use Rattle.iobufs_core.specs.Native.{IsSpace, NativeText};
    ghost use Rattle.iobufs_core.specs.Part.{part_capacity};

    ghost Value = { NativeText };

    ghost view = { λ n. record {
      bytes = take n.len
          (drop n.start n.block.filled);
      room = part_capacity n.block - n.start;
    } };

    ghost invariant = { λ n. IsSpace n.block × (n.start + n.len ≤ length n.block.filled) };
}

impl Native {
    fn len(&self) -> usize
        ensures value { result ≡ length self.now.bytes }
        ensures room { result ≤ self.now.room }
    {
        self.len
    }

    pub(super) fn as_slice(&self) -> &[u8]
        ensures { result.now ≡ self.now.bytes }
    {
        &self.block.as_slice()[self.start..self.start + self.len]
    }

    fn advance(&mut self, n: usize)
        requires { n ≤ length self.old.bytes }
        ensures { self.new ≡ native_advanced self.old n }
    {
        self.start += n;
        self.len -= n;
    }

    // The first bytes, in the same block.
    fn front(&self, n: usize) -> Result<Native, AllocError>
        requires { n ≤ length self.now.bytes }
        ensures { IfOk result (λ f. f ≡ native_cut self.now n) }
    {
        Ok(Native {
            block: self.block.share()?,
            start: self.start,
            len: n,
        })
    }

    // The bytes of a range, in the same block.
    fn slice(&self, from: usize, to: usize) -> Result<Native, AllocError>
        requires { (from ≤ to) × (to ≤ length self.now.bytes) }
        ensures { IfOk result (λ s. s ≡ native_advanced (native_cut self.now to) from) }
    {
        let mut slice = self.front(to)?;
        slice.advance(from);
        Ok(slice)
    }

    // Takes the first bytes, in the same block.
    fn split_to(&mut self, n: usize) -> Result<Native, AllocError>
        requires { n ≤ length self.old.bytes }
        ensures front { IfOk result (λ f. f ≡ native_cut self.old n) }
        ensures rest { OnOk result (self.new ≡ native_advanced self.old n) }
        ensures unchanged { OnErr result (self.new ≡ self.old) }
    {
        let front = self.front(n)?;
        self.advance(n);
        Ok(front)
    }
}

#[derive(Drop)]
enum Storage {
    Native(Native),
    Static(&'static [u8]),
    Shared(Bytes),
}

/// The bytes of a view. A clause sees a `View`.
#[derive(Drop)]
pub(super) struct Held {
    storage: Storage,
}

impl Model for Held {
    ghost use Rattle.iobufs_core.specs.View.{View};

    ghost Value = { View };

    ghost use Rattle.iobufs_core.specs.Storage.{stored_view};

    ghost view = { λ h. stored_view h.storage };
}

impl Held {
    /// The bytes of a view: all of a range.
    pub(super) fn of_native(native: Native) -> Held
        ensures { result ≡ record { bytes = native.bytes; mark = native_mark native.room } }
    {
        Held {
            storage: Storage::Native(native),
        }
    }

    /// The bytes of a view: static ones.
    pub(super) fn of_static(text: &'static [u8]) -> Held
        ensures { result ≡ record { bytes = text.now; mark = static_mark } }
    {
        Held {
            storage: Storage::Static(text),
        }
    }

    /// The bytes of a view: all of a `Bytes`.
    pub(super) fn of_bytes(bytes: Bytes) -> Held
        ensures { result ≡ record { bytes = bytes; mark = bytes_mark } }
    {
        Held {
            storage: Storage::Shared(bytes),
        }
    }

    pub(super) fn len(&self) -> usize
        ensures value { result ≡ length self.now.bytes }
        ensures room { IsView self.now }
    {
        match &self.storage {
            Storage::Static(text) => text.len(),
            Storage::Shared(bytes) => bytes.len(),
            Storage::Native(native) => native.len(),
        }
    }

    pub(super) fn as_slice(&self) -> &[u8]
        ensures { result.now ≡ self.now.bytes }
    {
        match &self.storage {
            Storage::Static(text) => text,
            Storage::Shared(bytes) => bytes.as_slice(),
            Storage::Native(native) => native.as_slice(),
        }
    }

    /// Returns whether the storage is static.
    pub(super) fn is_static(&self) -> bool
        ensures { IsTrue result ↔ (self.now.mark ≡ static_mark) }
    {
        match &self.storage {
            Storage::Static(_) => true,
            _ => false,
        }
    }

    /// Returns whether the storage is a `Bytes`.
    pub(super) fn is_shared(&self) -> bool
        ensures { IsTrue result ↔ (self.now.mark ≡ bytes_mark) }
    {
        match &self.storage {
            Storage::Shared(_) => true,
            _ => false,
        }
    }

    /// Drops the first `n` bytes.
    #[inline(always)]
    pub(super) fn advance(&mut self, n: usize)
        requires { n ≤ length self.old.bytes }
        ensures { self.new ≡ view_advanced self.old n }
    {
        match &mut self.storage {
            Storage::Static(text) => *text = &text[n..],
            Storage::Shared(bytes) => bytes.advance(n),
            Storage::Native(native) => native.advance(n),
        }
    }

    /// Returns the bytes between two offsets, and shares their storage.
    #[inline(always)]
    pub(super) fn share(&self, from: usize, to: usize) -> Result<Held, AllocError>
        requires { (from ≤ to) × (to ≤ length self.now.bytes) }
        ensures value { IfOk result (λ h. h ≡ view_advanced (view_front self.now to) from) }
        ensures static_text { self.now.mark ≡ static_mark → IsOk result }
    {
        match &self.storage {
            Storage::Native(native) => Ok(Held::of_native(native.slice(from, to)?)),
            Storage::Static(text) => Ok(Held::of_static(&text[..to][from..])),
            Storage::Shared(bytes) => {
                let mut slice = bytes.slice(..to)?;
                slice.advance(from);
                Ok(Held::of_bytes(slice))
            }
        }
    }

    /// Returns all of the bytes, and shares their storage.
    pub(super) fn try_clone(&self) -> Result<Held, AllocError>
        ensures value { IfOk result (λ h. h ≡ self.now) }
        ensures nothing { IsFreelyShared self.now → IsOk result }
    {
        let storage = match &self.storage {
            Storage::Static(text) => Storage::Static(text),
            Storage::Shared(bytes) => Storage::Shared(bytes.slice(..)?),
            Storage::Native(native) => Storage::Native(native.front(native.len())?),
        };
        Ok(Held { storage })
    }

    /// Takes the first `n` bytes, and shares their storage.
    #[inline(always)]
    pub(super) fn split_to(&mut self, n: usize) -> Result<Held, AllocError>
        requires { n ≤ length self.old.bytes }
        ensures front { IfOk result (λ h. h ≡ view_front self.old n) }
        ensures rest { OnOk result (self.new ≡ view_advanced self.old n) }
        ensures unchanged { OnErr result (self.new ≡ self.old) }
        ensures static_text { self.old.mark ≡ static_mark → IsOk result }
    {
        let storage = match &mut self.storage {
            Storage::Native(native) => Storage::Native(native.split_to(n)?),
            Storage::Static(text) => {
                let (front, rest) = text.split_at(n);
                *text = rest;
                Storage::Static(front)
            }
            Storage::Shared(bytes) => Storage::Shared(bytes.split_to(n)?),
        };
        Ok(Held { storage })
    }

    /// Returns the range of native storage that has the bytes; bytes of another storage come back.
    #[inline(always)]
    pub(super) fn into_native(self) -> Result<Native, Held>
        ensures { MatchResult result (λ n. self ≡ record { bytes = n.bytes; mark = native_mark n.room })
            (λ h. h ≡ self) }
    {
        let Held { storage } = self;
        match storage {
            Storage::Native(native) => Ok(native),
            storage => Err(Held { storage }),
        }
    }

    /// Converts into a `Bytes` without copying; bytes of native storage come back.
    #[inline(always)]
    pub(super) fn into_bytes(self) -> Result<Bytes, Held>
        ensures same { MatchResult result (λ bytes. bytes ≡ self.bytes) (λ h. h ≡ self) }
        ensures native { (room : ℕ) → self.mark ≡ native_mark room → IsErr result }
        ensures static_text { self.mark ≡ static_mark → IsOk result }
        ensures shared_text { self.mark ≡ bytes_mark → IsOk result }
    {
        let Held { storage } = self;
        match storage {
            Storage::Static(text) => Ok(Bytes::from_static(text)),
            Storage::Shared(bytes) => Ok(bytes),
            storage => Err(Held { storage }),
        }
    }
}
