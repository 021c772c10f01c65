//! Space in the machine's tables, as a step requires it.
ghost use Rattle.std.specs.Prelude.{◌≡◌, min, ◌+◌, ◌^◌, ◌<◌, ◌≤◌, length, vec_len, vec_capacity, OnOk, OnErr};
ghost use Rattle.iobufs_owner.specs.Reserved.{blocks_of, new_blocks};
ghost use Rattle.iobufs_owner.specs.State.{IsFull};

use crate::owner::types::{Act, Block, Call, Freed, Full, Handle, Record, Step};

/// A table may have this many entries.
const MOST: usize = 1 << 32;

/// Whether a table has space for one entry more.
fn room_for_one<T>(table: &Vec<T>) -> Result<(), Full>
    ensures room { OnOk result (vec_len table.now < vec_capacity table.now) }
    ensures few { OnOk result (vec_len table.now < 2 ^ 32) }
    ensures full { OnErr result (IsFull (vec_capacity table.now) (vec_len table.now)) }
{
    if table.len() < table.capacity() && table.len() < MOST {
        Ok(())
    } else {
        Err(Full)
    }
}

/// Whether there is space for one handle more.
pub(super) fn room_for_handle(handles: &Vec<Option<Handle>>) -> Result<(), Full>
    ensures room { OnOk result (vec_len handles.now < vec_capacity handles.now) }
    ensures few { OnOk result (length handles.now.items < 2 ^ 32) }
    ensures full { OnErr result (IsFull (vec_capacity handles.now) (length handles.now.items)) }
{
    room_for_one(handles)
}

/// Whether there is space for one record more, and for each record in the log of freed ones.
pub(super) fn room_for_record(records: &Vec<Record>, freed: &Vec<usize>) -> Result<(), Full>
    ensures room { OnOk result (vec_len records.now < vec_capacity records.now) }
    ensures few { OnOk result (length records.now.items < 2 ^ 32) }
    ensures freed_room { OnOk result (length records.now.items + 1 ≤ vec_capacity freed.now) }
    ensures full { OnErr result (IsFull (min (vec_capacity records.now) (vec_capacity freed.now))
        (length records.now.items)) }
{
    room_for_one(records)?;
    if records.len() < freed.capacity() {
        Ok(())
    } else {
        Err(Full)
    }
}

/// Whether there is space for one block more, and for each block in the log of freed ones.
pub(super) fn room_for_block(blocks: &Vec<Block>, freed: &Vec<Freed>) -> Result<(), Full>
    ensures room { OnOk result (vec_len blocks.now < vec_capacity blocks.now) }
    ensures few { OnOk result (length blocks.now.items < 2 ^ 32) }
    ensures freed_room { OnOk result (length blocks.now.items + 1 ≤ vec_capacity freed.now) }
    ensures full { OnErr result (IsFull (min (vec_capacity blocks.now) (vec_capacity freed.now))
        (length blocks.now.items)) }
{
    room_for_one(blocks)?;
    if blocks.len() < freed.capacity() {
        Ok(())
    } else {
        Err(Full)
    }
}

/// How many blocks a step may make.
fn new_blocks(act: Act) -> usize
    ensures { result ≡ new_blocks act }
{
    match act {
        Act::Begin(Call::New(_, _, _), _) => 1,
        Act::Begin(Call::External(_, _), _) => 1,
        _ => 0,
    }
}

/// How many blocks a run may make.
pub(super) fn blocks_made(steps: &[Step]) -> usize
    ensures { result ≡ blocks_of steps.now }
{
    let mut blocks = 0;
    for step in steps {
        blocks += new_blocks(step.act);
    }
    blocks
}
