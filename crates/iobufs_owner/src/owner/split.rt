//! A view is split in two.
ghost use Rattle.std.specs.Prelude.{◌≡◌, ◌+◌, ◌^◌, ◌<◌, ◌≤◌, true};
ghost use Rattle.iobufs_owner.specs.declared.owner.types.Kind.TheVariants.{View};
ghost use Rattle.iobufs_owner.specs.declared.owner.types.Word.TheVariants.{Empty, Descriptor, Record as Counted};
ghost use Rattle.iobufs_owner.specs.Changes as change;
ghost use Rattle.iobufs_owner.specs.ShortCalls as short;
ghost use Rattle.iobufs_owner.specs.Changes.{edited, made};
ghost use Rattle.iobufs_owner.specs.Lending.{Lends};
ghost use Rattle.iobufs_owner.specs.ShortCalls.{split_by, split_of};
ghost use Rattle.iobufs_owner.specs.Moves.{Took};

use crate::owner::handle::{detached, part};
use crate::owner::room::{room_for_handle, room_for_record};
use crate::owner::{Full, Handle, Kind, Machine, Record, Refusal, Reply, Word};

impl Machine {
    /// The first `at` bytes of a view become a view of their own, the rest stays.
    pub(super) fn split(&mut self, h: usize, at: u64, memory: bool) -> Result<Reply, Full>
        ensures { Took self.old (split_of self.old.state h at memory) result self.new }
    {
        let x = match self.lend(h, Kind::View) {
            Ok(x) => x,
            Err(why) => return Ok(Reply::Refused(why)),
        };
        if at > x.len {
            return Ok(Reply::Refused(Refusal::OutOfRange));
        }
        if at == 0 {
            return self.add_detached(0);
        }
        if at == x.len {
            return self.move_whole(h, x);
        }
        match x.word {
            Word::Empty => self.split_empty(h, at, x),
            Word::Descriptor(word) => self.split_described(h, at, memory, x, word),
            Word::Record(r) => self.split_counted(h, at, x, r),
        }
    }

    /// The whole view goes to a new number, and a detached one is left.
    fn move_whole(&mut self, h: usize, x: Handle) -> Result<Reply, Full>
        requires { Lends self.old.state h View x }
        ensures { Took self.old
            (made (edited self.old.state h (change.detached_handle 0)) x) result self.new }
    {
        room_for_handle(&self.handles)?;
        let new = self.handles.len();
        self.handles[h] = Some(detached());
        self.handles.push_reserved(Some(x));
        Ok(Reply::Made(new))
    }

    /// A view without block is split.
    fn split_empty(&mut self, h: usize, at: u64, x: Handle) -> Result<Reply, Full>
        requires lent { Lends self.old.state h View x }
        requires word { x.word ≡ Empty }
        requires within { at ≤ x.len }
        requires ends { x.ptr + x.len < 2 ^ 64 }
        ensures { Took self.old (short.split_with self.old.state h at x Empty) result self.new }
    {
        room_for_handle(&self.handles)?;
        let new = self.handles.len();
        self.handles[h] = Some(part(x, at, x.len, Word::Empty));
        self.handles
            .push_reserved(Some(part(x, 0, at, Word::Empty)));
        Ok(Reply::Made(new))
    }

    /// A view with a descriptor is split: a new record counts both parts.
    fn split_described(
        &mut self,
        h: usize,
        at: u64,
        memory: bool,
        x: Handle,
        word: u64,
    ) -> Result<Reply, Full>
        requires lent { Lends self.old.state h View x }
        requires word { x.word ≡ Descriptor word }
        requires within { at ≤ x.len }
        requires ends { x.ptr + x.len < 2 ^ 64 }
        ensures { Took self.old (split_by self.old.state h at memory x (Descriptor word)) result self.new }
    {
        if !memory {
            return Ok(Reply::Refused(Refusal::Memory));
        }
        let block = self.owned(h, x, word);
        room_for_record(&self.records, &self.freed_records)?;
        room_for_handle(&self.handles)?;
        let new = self.handles.len();
        let r = self.records.len();
        self.records.push_reserved(Record {
            count: 2,
            block,
            live: true,
        });
        self.handles[h] = Some(part(x, at, x.len, Word::Record(r)));
        self.handles
            .push_reserved(Some(part(x, 0, at, Word::Record(r))));
        Ok(Reply::Made(new))
    }

    /// A view with a record is split: the record counts one more.
    fn split_counted(&mut self, h: usize, at: u64, x: Handle, r: usize) -> Result<Reply, Full>
        requires lent { Lends self.old.state h View x }
        requires word { x.word ≡ Counted r }
        requires within { at ≤ x.len }
        requires ends { x.ptr + x.len < 2 ^ 64 }
        ensures { Took self.old (split_by self.old.state h at true x (Counted r)) result self.new }
    {
        let record = self.record(r);
        if record.count > self.ceiling {
            return Ok(Reply::Refused(Refusal::Ceiling));
        }
        room_for_handle(&self.handles)?;
        let new = self.handles.len();
        self.records[r] = Record {
            count: record.count + 1,
            ..record
        };
        self.handles[h] = Some(part(x, at, x.len, Word::Record(r)));
        self.handles
            .push_reserved(Some(part(x, 0, at, Word::Record(r))));
        Ok(Reply::Made(new))
    }
}
