//! A view goes back from a record to a descriptor. The original has no such call.
ghost use Rattle.std.specs.Prelude.{◌≡◌};
ghost use Rattle.iobufs_owner.specs.declared.owner.types.Kind.TheVariants.{View};
ghost use Rattle.iobufs_owner.specs.declared.owner.types.Word.TheVariants.{Record as Counted};
ghost use Rattle.iobufs_owner.specs.ShortCalls as short;
ghost use Rattle.iobufs_owner.specs.Lending.{Lends};
ghost use Rattle.iobufs_owner.specs.ShortCalls.{demote_of};

use crate::owner::{Handle, Machine, Record, Reply, Word};

impl Machine {
    /// A view's record is freed, if it counts the view alone, the block is native, and a descriptor can take its place.
    pub(super) fn demote(&mut self, h: usize) -> Reply
        ensures reply { result ≡ (demote_of self.old.state h).reply }
        ensures state { self.new.state ≡ (demote_of self.old.state h).state }
        ensures room { self.new.room ≡ self.old.room }
    {
        let x = match self.lend_owning_view(h) {
            Ok(x) => x,
            Err(why) => return Reply::Refused(why),
        };
        match x.word {
            Word::Record(r) => self.demote_counted(h, x, r),
            _ => Reply::Declined,
        }
    }

    /// Demotes a view with a record.
    fn demote_counted(&mut self, h: usize, x: Handle, r: usize) -> Reply
        requires lent { Lends self.old.state h View x }
        requires word { x.word ≡ Counted r }
        ensures { (result ≡ (short.demote_counted self.old.state h x r).reply)
            × (self.new.state ≡ (short.demote_counted self.old.state h x r).state)
            × (self.new.room ≡ self.old.room) }
    {
        let record = self.record(r);
        let block = self.block(record.block);
        let is_sole = record.count == 1;
        let is_external = block.external;
        if !is_sole || is_external {
            return Reply::Declined;
        }
        let tail = block.base + block.size - x.ptr - x.len;
        let Some(word) = self.format.pack(block.size, block.align, tail) else {
            return Reply::Declined;
        };
        self.handles[h] = Some(Handle {
            word: Word::Descriptor(word),
            ..x
        });
        self.records[r] = Record {
            live: false,
            ..record
        };
        self.freed_records.push_reserved(r);
        Reply::Done
    }
}
