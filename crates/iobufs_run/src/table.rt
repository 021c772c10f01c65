// Named buffers, and the commands on them.
ghost use Rattle.std.specs.Prelude.{◌≡◌, true, length, replicate, IfErr, IfOk, IsOk, IsOkUnless, None, OnErr};
ghost use Rattle.iobufs_run.specs.Causes.{refusal_for};
ghost use Rattle.iobufs_run.specs.Run.{Run, Step, reply_of};
ghost use Rattle.iobufs_run.specs.Slots.{AreSlots, IsSlot, kind_of, slot_named};

mod build;
mod causes;
mod gather;
mod made;
mod parts;
mod shown;
mod slots;
mod texts;
mod views;

use crate::command::{Cmd, Kind, Outcome, Refusal, Reply};
use iobufs::bufs::IoBufs;
use iobufs::bufs_mut::IoBufsMut;
use iobufs_core::buf::{IoBuf, IoBufMut};
use iobufs_core::codec::BufError;
use std::alloc::Global;
use std::marker::Model;

/// The contents of a name.
#[derive(Drop)]
pub enum Slot {
    /// Nothing.
    Free,
    /// A writable buffer.
    Part(IoBufMut),
    /// A read-only buffer.
    View(IoBuf),
    /// Several read-only buffers as one `IoBufs`.
    Text(IoBufs),
    /// Several writable buffers in a row.
    Parts(IoBufsMut),
}

impl Slot {
    /// Returns the kind of the buffer, if there is one.
    pub fn kind(&self) -> Option<Kind>
        ensures { result ≡ kind_of self.now }
    {
        match self {
            Slot::Free => None,
            Slot::Part(_) => Some(Kind::Part),
            Slot::View(_) => Some(Kind::View),
            Slot::Text(_) => Some(Kind::Text),
            Slot::Parts(_) => Some(Kind::Parts),
        }
    }
}

/// Buffers under the names 0, 1, and so on.
pub struct Table {
    slots: Vec<Slot>,
}

// An end of an `IoBufs`.
#[derive(Clone, Copy)]
enum End {
    Front,
    Back,
}

impl Drop for Table {
    fn drop(self) {
        let Table { slots: _ } = self;
    }
}

impl Model for Table {
    ghost use Rattle.std.specs.Prelude.{List};
    ghost use Rattle.iobufs_run.specs.declared.table.Slot.{Slot};

    ghost Value = { List Slot };

    ghost use Rattle.iobufs_run.specs.Slots.{AreSlots};

    ghost view = { λ t. t.slots.items };

    ghost invariant = { λ t. AreSlots t.slots.items };
}

// Does one command.
fn done(alloc: Global, slots: &mut [Slot], cmd: &Cmd) -> Outcome
    ensures { Step slots.old cmd.now (reply_of result) slots.new }
{
    match cmd {
        Cmd::NewMut {
            dst,
            capacity,
            align,
        } => parts::new_mut(alloc, slots, *dst, *capacity, *align),
        Cmd::Zeroed { dst, len, align } => parts::zeroed(alloc, slots, *dst, *len, *align),
        Cmd::Adopt { dst, bytes } => parts::adopt(alloc, slots, *dst, bytes),
        Cmd::Static { dst, text } => made::of_static(slots, *dst, text),
        Cmd::FromBytes { dst, bytes } => made::of_bytes(alloc, slots, *dst, bytes),
        Cmd::Put { target, bytes } => parts::put(slots, *target, bytes),
        Cmd::Fill { target, byte, n } => parts::fill(slots, *target, *byte, *n),
        Cmd::SetLen { target, n } => parts::set_len(slots, *target, *n),
        Cmd::Truncate { target, n } => parts::truncate(slots, *target, *n),
        Cmd::Clear { target } => parts::clear(slots, *target),
        Cmd::Overwrite { target, bytes } => parts::overwrite(slots, *target, bytes),
        Cmd::Freeze { src, dst } => parts::freeze(alloc, slots, *src, *dst),
        Cmd::Recover { src, dst } => parts::recover(alloc, slots, *src, *dst),
        Cmd::Clone { src, dst } => made::clone(slots, *src, *dst),
        Cmd::Slice { src, dst, lo, hi } => made::slice(slots, *src, *dst, *lo, *hi),
        Cmd::Split { src, dst, at } => views::split(alloc, slots, *src, *dst, *at),
        Cmd::Advance { target, n } => views::advance(slots, *target, *n),
        Cmd::Take { target, n } => views::take(alloc, slots, *target, *n),
        Cmd::Gather { dst, sources } => gather::gather(alloc, slots, *dst, sources),
        Cmd::GatherMut { dst, sources } => gather::gather_mut(alloc, slots, *dst, sources),
        Cmd::Append { target, src } => texts::join(alloc, slots, *target, *src, End::Back),
        Cmd::Prepend { target, src } => texts::join(alloc, slots, *target, *src, End::Front),
        Cmd::Coalesce { src, dst } => texts::coalesce(alloc, slots, *src, *dst),
        Cmd::Build {
            dst,
            capacity,
            items,
        } => build::build(alloc, slots, *dst, *capacity, items),
        Cmd::Encode { src, dst } => made::encode(alloc, slots, *src, *dst),
        Cmd::Decode { src, dst, range } => views::decode(alloc, slots, *src, *dst, range),
        Cmd::Drop { target } => slots::free(slots, *target),
        Cmd::Show { target } => shown::show(alloc, slots, *target),
    }
}

// Whether the length or the capacity of a slot's buffer fits a `usize`, which is always so.
fn is_well_formed(slot: &Slot) -> bool
    ensures always { result ≡ true }
    ensures slot { IsSlot slot.now }
{
    match slot {
        Slot::Free => true,
        Slot::Part(part) => part.capacity() <= usize::MAX,
        Slot::View(view) => view.len() <= usize::MAX,
        Slot::Text(text) => text.len() <= usize::MAX,
        Slot::Parts(parts) => parts.capacity() <= usize::MAX,
    }
}

// Whether each slot is well formed.
fn are_well_formed(slots: &[Slot]) -> bool
    ensures always { result ≡ true }
    ensures slots { AreSlots slots.now }
{
    for slot in slots {
        if !is_well_formed(slot) {
            return false;
        }
    }
    true
}

impl Table {
    /// Makes the names 0 to `n - 1`, which hold nothing.
    /// Returns `BufError::Memory` if allocation fails.
    pub fn new(alloc: Global, n: usize) -> Result<Table, BufError>
        ensures ok { IfOk result (λ table. table ≡ replicate n Slot.Free) }
        ensures slots { IfOk result AreSlots }
        ensures memory { IsOkUnless result BufError.Memory }
        ensures nothing { n ≡ 0 → IsOk result }
    {
        let mut slots = Vec::with_capacity(alloc, n)?;
        for _ in 0..n {
            slots.push(Slot::Free)?;
        }
        Ok(Table { slots })
    }

    /// Borrows what the command `Show` prints of a name, or returns why it is refused. Nothing is copied.
    pub fn shown(&self, target: usize) -> Result<&Slot, Refusal>
        ensures ok { IfOk result (λ slot. (refusal_for self.now (Cmd.Show target) ≡ None)
            × (slot.now ≡ slot_named self.now target)) }
        ensures err { IfErr result (λ refusal. Step self.now (Cmd.Show target) (Reply.Refused refusal) self.now) }
    {
        let slots = self.slots.as_slice();
        causes::in_use(slots, target)?;
        Ok(&slots[target])
    }

    /// Executes one command.
    pub fn apply(&mut self, cmd: &Cmd) -> Reply
        ensures step { Step self.old cmd.now result self.new }
        ensures slots { AreSlots self.new }
    {
        let alloc = *self.slots.allocator();
        let outcome = done(alloc, self.slots.as_mut_slice(), cmd);
        prove!(are_well_formed(self.slots.as_slice()));
        match outcome {
            Ok(reply) => reply,
            Err(refusal) => Reply::Refused(refusal),
        }
    }

    /// Executes commands in order, with a reply for each. Fails with `BufError::Memory`, before the first command, if
    /// allocation fails.
    pub fn run(&mut self, cmds: &[Cmd]) -> Result<Vec<Reply>, BufError>
        ensures run { IfOk result (λ replies. Run self.old cmds.now replies.items self.new) }
        ensures unchanged { OnErr result (self.new ≡ self.old) }
        ensures slots { AreSlots self.new }
        ensures memory { IsOkUnless result BufError.Memory }
        ensures nothing { length cmds.now ≡ 0 → IsOk result }
    {
        let alloc = *self.slots.allocator();
        let mut replies = Vec::with_capacity(alloc, cmds.len())?;
        for cmd in cmds {
            let reply = self.apply(cmd);
            replies.push(reply).unwrap();
        }
        Ok(replies)
    }
}
