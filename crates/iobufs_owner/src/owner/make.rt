//! Calls that make blocks and handles.
ghost use Rattle.std.specs.Prelude.{◌≡◌, ◌+◌, ◌^◌, ◌<◌, [], All, true, false};
ghost use Rattle.iobufs_owner.specs.declared.owner.types.Kind.TheVariants.{Mut};
ghost use Rattle.iobufs_owner.specs.declared.owner.types.Word.TheVariants.{Record as Counted};
ghost use Rattle.iobufs_owner.specs.Changes.{made, detached_handle, next_record};
ghost use Rattle.iobufs_owner.specs.ShortCalls.{CanDescribe, new_of, external_of, described_of, recorded_of};
ghost use Rattle.iobufs_owner.specs.Moves.{Took};
ghost use Rattle.iobufs_owner.specs.Places.{IsPlace, ApartFrom, IsGoodPlace};
ghost use Rattle.iobufs_owner.specs.Sound.{LiesIn};

use crate::owner::room::{room_for_block, room_for_handle, room_for_record};
use crate::owner::{Block, Full, Handle, Kind, Machine, Record, Refusal, Reply, Word};

/// Whether a block may have this base, size and alignment.
fn is_place(base: u64, size: u64, align: u64) -> bool
    ensures yes { result ≡ true → IsPlace base size align }
    ensures no { result ≡ false → IsPlace base size align → ⊥ }
{
    if size == 0 || base == 0 || align == 0 {
        return false;
    }
    if align != 1 << align.trailing_zeros() {
        return false;
    }
    if base % align != 0 || size > u64::MAX - base {
        return false;
    }
    match size.checked_next_multiple_of(align) {
        Some(rounded) => rounded < 1 << 63,
        None => false,
    }
}

// Whether a range touches no byte of a block.
fn is_apart(block: &Block, base: u64, size: u64) -> bool
    requires { 0 < size }
    ensures yes { result ≡ true → ApartFrom block.now base size }
    ensures no { result ≡ false → ApartFrom block.now base size → ⊥ }
{
    if block.base <= base {
        block.size <= base - block.base
    } else {
        size <= block.base - base
    }
}

// Whether a range touches none of the blocks.
fn are_apart(blocks: &[Block], base: u64, size: u64) -> bool
    requires { 0 < size }
    ensures yes { result ≡ true → All (λ b. ApartFrom b base size) blocks.now }
    ensures no { result ≡ false → All (λ b. ApartFrom b base size) blocks.now → ⊥ }
{
    for block in blocks {
        if !is_apart(block, base, size) {
            return false;
        }
    }
    true
}

impl Machine {
    /// Whether a new block may be here.
    fn is_good_place(&self, base: u64, size: u64, align: u64) -> bool
        ensures yes { result ≡ true → IsGoodPlace self.now.state.tables.blocks base size align }
        ensures no { result ≡ false → IsGoodPlace self.now.state.tables.blocks base size align → ⊥ }
    {
        is_place(base, size, align) && are_apart(&self.blocks, base, size)
    }

    /// A new block with a writable handle, which holds it by a descriptor if its fields fit, else by a record.
    pub(super) fn new_block(
        &mut self,
        base: u64,
        size: u64,
        align: u64,
        memory: bool,
    ) -> Result<Reply, Full>
        ensures { Took self.old (new_of self.old.state base size align memory) result self.new }
    {
        if !self.is_good_place(base, size, align) {
            return Ok(Reply::Refused(Refusal::BadPlace));
        }
        if !memory {
            return Ok(Reply::Refused(Refusal::Memory));
        }
        let block = Block {
            base,
            size,
            align,
            external: false,
        };
        match self.format.pack(size, align, 0) {
            Some(word) => self.add_described(block, word),
            None => {
                let x = Handle {
                    kind: Kind::Mut,
                    ptr: base,
                    len: 0,
                    cap: size,
                    word: Word::Record(self.records.len()),
                };
                self.add_recorded(block, x)
            }
        }
    }

    /// A new block from outside with a view of the whole of it.
    pub(super) fn external_block(
        &mut self,
        base: u64,
        size: u64,
        memory: bool,
    ) -> Result<Reply, Full>
        ensures { Took self.old (external_of self.old.state base size memory) result self.new }
    {
        if !self.is_good_place(base, size, 1) {
            return Ok(Reply::Refused(Refusal::BadPlace));
        }
        if !memory {
            return Ok(Reply::Refused(Refusal::Memory));
        }
        let block = Block {
            base,
            size,
            align: 1,
            external: true,
        };
        let x = Handle {
            kind: Kind::View,
            ptr: base,
            len: size,
            cap: 0,
            word: Word::Record(self.records.len()),
        };
        self.add_recorded(block, x)
    }

    /// A view of `len` bytes without block, as the next handle.
    pub(super) fn add_detached(&mut self, len: u64) -> Result<Reply, Full>
        ensures { Took self.old (made self.old.state (detached_handle len)) result self.new }
    {
        room_for_handle(&self.handles)?;
        let h = self.handles.len();
        self.handles.push_reserved(Some(Handle {
            kind: Kind::View,
            ptr: 0,
            len,
            cap: 0,
            word: Word::Empty,
        }));
        Ok(Reply::Made(h))
    }

    /// A writable handle on a new block, which a descriptor describes.
    fn add_described(&mut self, block: Block, word: u64) -> Result<Reply, Full>
        requires { CanDescribe self.old.state block word }
        ensures { Took self.old (described_of self.old.state block word) result self.new }
    {
        room_for_block(&self.blocks, &self.freed_blocks)?;
        room_for_handle(&self.handles)?;
        let h = self.handles.len();
        self.blocks.push_reserved(block);
        self.handles.push_reserved(Some(Handle {
            kind: Kind::Mut,
            ptr: block.base,
            len: 0,
            cap: block.size,
            word: Word::Descriptor(word),
        }));
        Ok(Reply::Made(h))
    }

    /// A handle on a new block, which a new record counts.
    fn add_recorded(&mut self, block: Block, x: Handle) -> Result<Reply, Full>
        requires place { IsGoodPlace self.old.state.tables.blocks block.base block.size block.align }
        requires word { x.word ≡ Counted (next_record self.old.state) }
        requires lies { LiesIn block x x.kind }
        requires native { x.kind ≡ Mut → block.external ≡ false }
        ensures { Took self.old (recorded_of self.old.state block x) result self.new }
    {
        room_for_block(&self.blocks, &self.freed_blocks)?;
        room_for_record(&self.records, &self.freed_records)?;
        room_for_handle(&self.handles)?;
        let number = self.blocks.len();
        let h = self.handles.len();
        self.blocks.push_reserved(block);
        self.records.push_reserved(Record {
            count: 1,
            block: number,
            live: true,
        });
        self.handles.push_reserved(Some(x));
        Ok(Reply::Made(h))
    }
}
