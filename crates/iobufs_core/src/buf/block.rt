// Storage that is filled and then shared. In the Rust crate `rust/iobufs/layer/block.rs` takes the place of this file,
// and keeps the count of the handles after the bytes, if there is room.
ghost use Rattle.std.specs.Prelude.{◌≡◌, ◌≤◌, ◌∷◌, [], length, drop, IfOk, IsTrue, MatchResult};
ghost use Rattle.std.specs.Borrow.{Lends, Array, sem, u8 as byte};
ghost use Rattle.iobufs_core.specs.Native.{IsLimit, space_of, space_overwritten, space_resized};
ghost use Rattle.iobufs_core.specs.Part.{empty_part, part_capacity, part_put, part_truncated};
ghost use Rattle.iobufs_core.specs.contracts.buf.block.Space.{the_row};

use bytes::Bytes;
use std::alloc::{AllocError, Global};
use std::marker::Model;
use std::mem;
use std::sync::Arc;

/// An `Arc` of an empty `Vec`, so that sharing storage allocates nothing: made with the storage, or left over if
/// storage is taken back. Adopted storage has none.
#[derive(Drop)]
pub(super) struct Shell {
    block: Option<Arc<Vec<u8>>>,
}

impl Shell {
    pub(super) fn none() -> Shell {
        Shell { block: None }
    }
}

/// Bytes, and space for more. A clause sees them as a buffer (`Part`).
#[derive(Drop)]
pub(super) struct Space {
    storage: Vec<u8>,
    // No byte is put beyond this capacity.
    limit: usize,
}

impl Model for Space {
    ghost use Rattle.iobufs_core.specs.Native.{IsLimit, space_of};
    ghost use Rattle.iobufs_core.specs.Part.{Part};

    ghost Value = { Part };

    ghost view = { λ s. space_of s.storage s.limit };

    ghost invariant = { λ s. IsLimit s.storage s.limit };
}

impl Space {
    /// The bytes of a `Vec`, and its capacity up to a limit.
    #[inline(always)]
    pub(super) fn of(storage: Vec<u8>, limit: usize) -> Space
        requires { IsLimit storage limit }
        ensures { result ≡ space_of storage limit }
    {
        Space { storage, limit }
    }

    /// An empty space with a capacity of `n`, and a shell: the given one if it has an `Arc`, else a new one.
    pub(super) fn new(alloc: Global, n: usize, shell: Shell) -> Result<(Space, Shell), AllocError>
        ensures { IfOk result (λ made. made.0 ≡ empty_part n) }
    {
        let space = Space {
            storage: Vec::with_capacity(alloc, n)?,
            limit: n,
        };
        if shell.block.is_some() {
            return Ok((space, shell));
        }
        let block = Arc::new(alloc, Vec::new(alloc))?;
        Ok((space, Shell { block: Some(block) }))
    }

    pub(super) fn into_vec(self) -> Vec<u8>
        ensures { result.items ≡ self.filled }
    {
        let Space { storage, limit: _ } = self;
        storage
    }

    pub(super) fn allocator(&self) -> Global {
        *self.storage.allocator()
    }

    pub(super) fn len(&self) -> usize
        ensures { result ≡ length self.now.filled }
    {
        self.storage.len()
    }

    pub(super) fn capacity(&self) -> usize
        ensures { result ≡ part_capacity self.now }
    {
        self.limit
    }

    pub(super) fn spare(&self) -> usize
        ensures { result ≡ self.now.spare }
    {
        self.limit - self.storage.len()
    }

    /// The number of bytes that are allocated.
    pub(super) fn allocated(&self) -> usize
        ensures { part_capacity self.now ≤ result }
    {
        self.storage.capacity()
    }

    /// Returns `true` if `n` bytes fit. If they don't, its clause allows both values.
    pub(super) fn has_room(&self, n: usize) -> bool
        ensures { n ≤ self.now.spare → IsTrue result }
    {
        n <= self.storage.capacity() - self.storage.len()
    }

    pub(super) fn as_slice(&self) -> &[u8]
        ensures { result.now ≡ self.now.filled }
    {
        self.storage.as_slice()
    }

    /// The bytes from `start` on, for overwriting.
    pub(super) fn slice_mut(&mut self, start: usize) -> &mut [u8]
        requires { start ≤ length self.old.filled }
        ensures* writes_back { sem 𝓛 (Lends the_row (Array byte 0) self.entry result
            (space_overwritten self.old start)) }
        ensures value { result.now ≡ drop start self.old.filled }
    {
        self.storage.slice_mut(start..)
    }

    /// Appends bytes that fit.
    #[inline(always)]
    pub(super) fn put(&mut self, src: &[u8])
        requires { length src.now ≤ self.old.spare }
        ensures { self.new ≡ part_put self.old src.now }
    {
        self.storage.extend_from_slice(src).unwrap();
    }

    /// Appends a byte, which fits.
    #[inline(always)]
    pub(super) fn push(&mut self, byte: u8)
        requires { 1 ≤ self.old.spare }
        ensures { self.new ≡ part_put self.old (byte ∷ []) }
    {
        self.storage.push_reserved(byte);
    }

    /// Keeps the first `n` bytes, or appends `byte` until there are `n`, which fit.
    pub(super) fn resize(&mut self, n: usize, byte: u8)
        requires { n ≤ part_capacity self.old }
        ensures { self.new ≡ space_resized self.old n byte }
    {
        self.storage.resize(n, byte).unwrap();
    }

    /// Keeps at most the first `n` bytes.
    pub(super) fn truncate(&mut self, n: usize)
        ensures { self.new ≡ part_truncated self.old n }
    {
        self.storage.truncate(n);
    }

    /// Makes the spare capacity 0.
    pub(super) fn close(&mut self)
        ensures { self.new ≡ record { filled = self.old.filled; spare = 0 } }
    {
        self.limit = self.storage.len();
    }
}

/// A handle of shared storage. A clause sees the bytes and the space after them.
#[derive(Drop)]
pub(super) struct Block {
    storage: Arc<Vec<u8>>,
    limit: usize,
}

impl Model for Block {
    ghost use Rattle.std.specs.Arc.{arc_value};
    ghost use Rattle.iobufs_core.specs.Native.{IsLimit, space_of};
    ghost use Rattle.iobufs_core.specs.Part.{Part};

    ghost Value = { Part };

    ghost view = { λ b. space_of (arc_value b.storage) b.limit };

    ghost invariant = { λ b. IsLimit (arc_value b.storage) b.limit };
}

impl Block {
    /// Makes a handle of storage. If allocation fails, the storage is dropped.
    #[inline(always)]
    pub(super) fn new(alloc: Global, shell: Shell, space: Space) -> Result<Block, AllocError>
        ensures { IfOk result (λ block. block ≡ space) }
    {
        let Space { storage, limit } = space;
        if let Some(mut block) = shell.block {
            if let Some(place) = Arc::get_mut(&mut block) {
                *place = storage;
                return Ok(Block {
                    storage: block,
                    limit,
                });
            }
        }
        Ok(Block {
            storage: Arc::new(alloc, storage)?,
            limit,
        })
    }

    pub(super) fn as_slice(&self) -> &[u8]
        ensures { result.now ≡ self.now.filled }
    {
        let storage: &Vec<u8> = &self.storage;
        storage.as_slice()
    }

    pub(super) fn capacity(&self) -> usize
        ensures { result ≡ part_capacity self.now }
    {
        self.limit
    }

    /// Returns one more handle.
    pub(super) fn share(&self) -> Result<Block, AllocError>
        ensures { IfOk result (λ block. block ≡ self.now) }
    {
        Ok(Block {
            storage: Arc::try_clone(&self.storage)?,
            limit: self.limit,
        })
    }

    /// Takes the storage back if this is the only handle; else returns the handle.
    pub(super) fn take(self) -> Result<(Space, Shell), Block>
        ensures { MatchResult result (λ taken. taken.0 ≡ self) (λ block. block ≡ self) }
    {
        let Block {
            storage: mut block,
            limit,
        } = self;
        match Arc::get_mut(&mut block) {
            Some(place) => {
                let empty = Vec::new(*place.allocator());
                let storage = mem::replace(place, empty);
                Ok((Space { storage, limit }, Shell { block: Some(block) }))
            }
            None => Err(Block {
                storage: block,
                limit,
            }),
        }
    }

    /// Converts the storage into a `Bytes`. If there are other handles, the outer error is the block. If allocation
    /// fails, the inner error is the block.
    pub(super) fn into_bytes(mut self, alloc: Global) -> Result<Result<Bytes, Block>, Block>
        requires { self.spare ≡ 0 }
        ensures { MatchResult result (λ made. MatchResult made (λ bytes. bytes ≡ self.filled)
            (λ block. block ≡ self)) (λ block. block ≡ self) }
    {
        let Some(place) = Arc::get_mut(&mut self.storage) else {
            return Err(self);
        };
        match Bytes::from_vec(mem::replace(place, Vec::new(alloc))) {
            Ok(bytes) => Ok(Ok(bytes)),
            Err(refused) => {
                *place = refused.value;
                Ok(Err(self))
            }
        }
    }
}
