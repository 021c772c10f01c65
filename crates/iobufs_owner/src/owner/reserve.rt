//! Space in the machine's tables, as it is made: in all of them, or in none.
ghost use Rattle.std.specs.Prelude.{◌≡◌, ◌⊎◌, ◌+◌, ◌*◌, ◌^◌, ◌<◌, ◌≤◌, length, vec_capacity, None, true, IfOk, IfSome, IsOk, IsOkUnless, OnErr, OnOk};
ghost use Rattle.iobufs_owner.specs.Reserved.{RoomFor};
ghost use Rattle.iobufs_owner.specs.State.{KeepsRoom};

use crate::owner::Machine;
use iobufs_core::codec::BufError;
use std::alloc::AllocError;

impl Machine {
    // Whether each table has memory for this many entries more, and its log and what else grows with it.
    fn has_room(&self, blocks: usize, handles: usize, records: usize) -> bool
        ensures yes { result ≡ true → RoomFor self.now.room self.now.state blocks handles records }
        ensures no { RoomFor self.now.room self.now.state blocks handles records → result ≡ true }
    {
        let all_blocks = self.blocks.len();
        let all_handles = self.handles.len();
        let all_records = self.records.len();
        blocks <= self.blocks.capacity() - all_blocks
            && blocks <= self.freed_blocks.capacity() - all_blocks
            && handles <= self.handles.capacity() - all_handles
            && records <= self.records.capacity() - all_records
            && records <= self.freed_records.capacity() - all_records
    }

    /// Makes space for this many entries more in each table and its log. If it fails, returns `BufError::Memory` and
    /// changes nothing, not even capacities. A table that grows becomes at least twice as large, so space for one entry
    /// before each step costs little.
    pub fn reserve(&mut self, blocks: usize, handles: usize, records: usize) -> Result<(), BufError>
        ensures state { self.new.state ≡ self.old.state }
        ensures room { KeepsRoom self.old.room self.new.room }
        ensures blocks { OnOk result (length self.old.state.tables.blocks + blocks ≤ self.new.room.blocks) }
        ensures handles { OnOk result (length self.old.state.handles + handles ≤ self.new.room.handles) }
        ensures records { OnOk result (length self.old.state.tables.records + records ≤ self.new.room.records) }
        ensures memory { IsOkUnless result BufError.Memory }
        ensures unchanged { OnErr result (self.new ≡ self.old) }
        ensures enough { length self.old.state.tables.blocks + blocks ≤ self.old.room.blocks
            → length self.old.state.handles + handles ≤ self.old.room.handles
            → length self.old.state.tables.records + records ≤ self.old.room.records
            → IsOk result }
        ensures same { length self.old.state.tables.blocks + blocks ≤ self.old.room.blocks
            → length self.old.state.handles + handles ≤ self.old.room.handles
            → length self.old.state.tables.records + records ≤ self.old.room.records
            → self.new ≡ self.old }
    {
        if self.has_room(blocks, handles, records) {
            return Ok(());
        }
        let (new_blocks, new_freed_blocks) = grown(&self.blocks, &self.freed_blocks, blocks)?;
        let new_handles = larger(
            &self.handles,
            self.handles.len().checked_add(handles).ok_or(AllocError)?,
        )?;
        let (new_records, new_freed_records) = grown(&self.records, &self.freed_records, records)?;
        self.calls.reserve(capacity(&new_handles))?;
        move_into(&mut self.blocks, new_blocks);
        move_into(&mut self.freed_blocks, new_freed_blocks);
        move_into(&mut self.handles, new_handles);
        move_into(&mut self.records, new_records);
        move_into(&mut self.freed_records, new_freed_records);
        Ok(())
    }
}

// Memory for `more` entries more than the first table has, for it and for one beside it.
fn grown<T: Copy, B: Copy>(
    table: &Vec<T>,
    beside: &Vec<B>,
    more: usize,
) -> Result<(Option<Vec<T>>, Option<Vec<B>>), AllocError>
    ensures items { IfOk result (λ larger. IfSome larger.0 (λ new. new.items ≡ table.now.items)) }
    ensures items_beside { IfOk result (λ larger. IfSome larger.1 (λ new. new.items ≡ beside.now.items)) }
    ensures room { IfOk result (λ larger. IfSome larger.0 (λ new. length table.now.items + more ≤ vec_capacity new)) }
    ensures room_beside { IfOk result (λ larger. IfSome larger.1
        (λ new. length table.now.items + more ≤ vec_capacity new)) }
    ensures more { IfOk result (λ larger. IfSome larger.0 (λ new. vec_capacity table.now < vec_capacity new)) }
    ensures more_beside { IfOk result (λ larger. IfSome larger.1 (λ new. vec_capacity beside.now < vec_capacity new)) }
    ensures enough { IfOk result (λ larger. larger.0 ≡ None → length table.now.items + more ≤ vec_capacity table.now) }
    ensures enough_beside { IfOk result (λ larger. larger.1 ≡ None
        → length table.now.items + more ≤ vec_capacity beside.now) }
    ensures full { OnErr result (
        (vec_capacity table.now < length table.now.items + more)
        ⊎ (vec_capacity beside.now < length table.now.items + more)) }
{
    let entries = table.len().checked_add(more).ok_or(AllocError)?;
    Ok((larger(table, entries)?, larger(beside, entries)?))
}

// The entries of a table in memory for `entries` in all, if the table has less: then for at least twice as many as
// before, so that a table that grows often is copied seldom.
fn larger<T: Copy>(table: &Vec<T>, entries: usize) -> Result<Option<Vec<T>>, AllocError>
    ensures items { IfOk result (λ larger. IfSome larger (λ new. new.items ≡ table.now.items)) }
    ensures room { IfOk result (λ larger. IfSome larger (λ new. entries ≤ vec_capacity new)) }
    ensures more { IfOk result (λ larger. IfSome larger (λ new. vec_capacity table.now < vec_capacity new)) }
    ensures twice { IfOk result (λ larger. IfSome larger (λ new.
        (vec_capacity table.now * 2 ≤ vec_capacity new) ⊎ (2 ^ 64 ≤ vec_capacity new + 1))) }
    ensures enough { IfOk result (λ larger. larger ≡ None → entries ≤ vec_capacity table.now) }
    ensures full { OnErr result (vec_capacity table.now < entries) }
{
    if entries <= table.capacity() {
        return Ok(None);
    }
    let capacity = entries.max(table.capacity().saturating_mul(2));
    let mut new = Vec::with_capacity(*table.allocator(), capacity)?;
    new.extend_from_slice(table)?;
    Ok(Some(new))
}

// The capacity of larger memory, if there is some.
fn capacity<T>(larger: &Option<Vec<T>>) -> usize
    ensures { IfSome larger.now (λ new. result ≡ vec_capacity new) }
{
    match larger {
        Some(new) => new.capacity(),
        None => 0,
    }
}

// The table moves to its larger memory, if there is one.
fn move_into<T: Drop>(table: &mut Vec<T>, larger: Option<Vec<T>>)
    requires items { IfSome larger (λ new. new.items ≡ table.old.items) }
    requires more { IfSome larger (λ new. vec_capacity table.old ≤ vec_capacity new) }
    ensures items { table.new.items ≡ table.old.items }
    ensures capacity { vec_capacity table.old ≤ vec_capacity table.new }
    ensures room { IfSome larger (λ new. vec_capacity table.new ≡ vec_capacity new) }
    ensures same { larger ≡ None → vec_capacity table.new ≡ vec_capacity table.old }
{
    if let Some(new) = larger {
        *table = new;
    }
}
