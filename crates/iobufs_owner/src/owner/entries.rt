//! Entries of the machine's tables: a record, a block, and the block that a handle's descriptor describes.
ghost use Rattle.std.specs.Prelude.{◌≡◌, ◌-◌, ◌<◌, ◌≤◌, length, Some};
ghost use Rattle.iobufs_owner.specs.declared.owner.types.Word.TheVariants.{Descriptor};
ghost use Rattle.iobufs_owner.specs.Sound.{IsSound, DescribesBlock};
ghost use Rattle.iobufs_owner.specs.State as state;
ghost use Rattle.iobufs_owner.specs.State.{handle_at, record_at, block_at, owner_of, owned_by};

use crate::owner::handle::end;
use crate::owner::{Block, Freed, Handle, Machine, Record};

// The first block with this base.
fn block_with(blocks: &[Block], base: u64) -> Option<usize>
    ensures { result ≡ state.block_with base blocks.now }
{
    for i in 0..blocks.len() {
        if blocks[i].base == base {
            return Some(i);
        }
    }
    None
}

impl Machine {
    /// Makes the machine's invariant known. The prover knows it of a borrowed machine only once a field of it is read,
    /// so this reads one; the call is gone when the program is built.
    pub(super) fn known(&self)
        ensures sound { IsSound self.now.state }
        ensures blocks { length self.now.state.tables.blocks ≤ self.now.room.blocks }
        ensures handles { length self.now.state.handles ≤ self.now.room.handles }
        ensures records { length self.now.state.tables.records ≤ self.now.room.records }
    {
        let _ = &self.format;
    }

    /// The record of this number.
    pub(super) fn record(&self, r: usize) -> Record
        requires { r < length self.now.state.tables.records }
        ensures { result ≡ record_at self.now.state.tables r }
    {
        self.records[r]
    }

    /// The block of this number.
    pub(super) fn block(&self, b: usize) -> Block
        requires { b < length self.now.state.tables.blocks }
        ensures { result ≡ block_at self.now.state.tables b }
    {
        self.blocks[b]
    }

    /// The base, size and alignment that the descriptor and its handle give.
    pub(super) fn recovered(&self, x: Handle, word: u64) -> Freed
        requires { DescribesBlock self.now.state.tables x word }
        ensures { result ≡ state.recovered self.now.state.tables x word }
    {
        let fields = self.format.unpack(word);
        Freed {
            base: end(x, fields.tail) - fields.size,
            size: fields.size,
            align: fields.align,
        }
    }

    /// The number of the block that a descriptor of this handle describes: the one at the base that both give.
    pub(super) fn described(&self, x: Handle, word: u64) -> usize
        requires word { x.word ≡ Descriptor word }
        requires says { DescribesBlock self.now.state.tables x word }
        ensures { owner_of self.now.state.tables x ≡ Some result }
    {
        match block_with(&self.blocks, self.recovered(x, word).base) {
            Some(number) => number,
            None => unreachable!(),
        }
    }

    /// The number of the block of a handle with a descriptor.
    pub(super) fn owned(&self, h: usize, x: Handle, word: u64) -> usize
        requires at { handle_at self.now.state h ≡ Some x }
        requires word { x.word ≡ Descriptor word }
        ensures owner { owner_of self.now.state.tables x ≡ Some result }
        ensures number { result ≡ owned_by self.now.state.tables x }
    {
        self.known();
        self.described(x, word)
    }
}
