//! A writable handle becomes a view; an empty one lets its block go.
ghost use Rattle.std.specs.Prelude.{◌≡◌, ◌<◌};
ghost use Rattle.iobufs_owner.specs.declared.owner.types.Kind.TheVariants.{View, Mut};
ghost use Rattle.iobufs_owner.specs.declared.owner.types.Reply.TheVariants.{Done};
ghost use Rattle.iobufs_owner.specs.declared.owner.types.Word.TheVariants.{Empty, Descriptor, Record as Counted};
ghost use Rattle.iobufs_owner.specs.Changes as change;
ghost use Rattle.iobufs_owner.specs.ShortCalls as short;
ghost use Rattle.iobufs_owner.specs.Changes.{done, edited, next_record};
ghost use Rattle.iobufs_owner.specs.Lending.{Lends};
ghost use Rattle.iobufs_owner.specs.ShortCalls.{promoted, freeze_by, freeze_of};
ghost use Rattle.iobufs_owner.specs.Moves.{Took};

use crate::owner::handle::detached;
use crate::owner::room::room_for_record;
use crate::owner::{Freed, Full, Handle, Kind, Machine, Record, Refusal, Reply, Word};

/// A writable handle as a view, which owns what the word says.
fn frozen(x: Handle, word: Word) -> Handle
    ensures { result ≡ short.frozen x word }
{
    Handle {
        kind: Kind::View,
        cap: 0,
        word,
        ..x
    }
}

impl Machine {
    /// A writable handle becomes a view; an empty one frees its block.
    pub(super) fn freeze(&mut self, h: usize, memory: bool) -> Result<Reply, Full>
        ensures { Took self.old (freeze_of self.old.state h memory) result self.new }
    {
        let x = match self.lend(h, Kind::Mut) {
            Ok(x) => x,
            Err(why) => return Ok(Reply::Refused(why)),
        };
        if x.len == 0 {
            return Ok(self.freeze_nothing(h, x));
        }
        match x.word {
            Word::Empty => Ok(self.freeze_empty(h, x)),
            Word::Descriptor(word) => self.freeze_described(h, memory, x, word),
            Word::Record(r) => Ok(self.freeze_counted(h, x, r)),
        }
    }

    /// An empty writable handle is detached, and what it owned is freed.
    fn freeze_nothing(&mut self, h: usize, x: Handle) -> Reply
        requires { Lends self.old.state h Mut x }
        ensures reply { result ≡ Done }
        ensures state { self.new.state ≡ edited (short.freed_with self.old.state x x.word) h
            (change.detached_handle 0) }
        ensures room { self.new.room ≡ self.old.room }
    {
        match x.word {
            Word::Empty => self.detach(h, x),
            Word::Descriptor(word) => self.free_described(h, x, word, Some(detached())),
            Word::Record(r) => self.free_counted(h, x, r, Some(detached())),
        }
        Reply::Done
    }

    /// A handle without block becomes the detached view.
    fn detach(&mut self, h: usize, x: Handle)
        requires lent { Lends self.old.state h Mut x }
        requires word { x.word ≡ Empty }
        ensures state { self.new.state ≡ edited self.old.state h (change.detached_handle 0) }
        ensures room { self.new.room ≡ self.old.room }
    {
        self.handles[h] = Some(detached());
    }

    /// A writable handle without block becomes a view.
    fn freeze_empty(&mut self, h: usize, x: Handle) -> Reply
        requires lent { Lends self.old.state h Mut x }
        requires word { x.word ≡ Empty }
        ensures reply { result ≡ Done }
        ensures state { self.new.state ≡ edited self.old.state h (short.frozen x Empty) }
        ensures room { self.new.room ≡ self.old.room }
    {
        self.handles[h] = Some(frozen(x, Word::Empty));
        Reply::Done
    }

    /// A writable handle with a record becomes a view.
    fn freeze_counted(&mut self, h: usize, x: Handle, r: usize) -> Reply
        requires lent { Lends self.old.state h Mut x }
        requires word { x.word ≡ Counted r }
        ensures reply { result ≡ Done }
        ensures state { self.new.state ≡ edited self.old.state h (short.frozen x (Counted r)) }
        ensures room { self.new.room ≡ self.old.room }
    {
        self.handles[h] = Some(frozen(x, Word::Record(r)));
        Reply::Done
    }

    /// A writable handle with a descriptor becomes a view: its tail goes into the word if it fits, else a record takes
    /// the word's place.
    fn freeze_described(
        &mut self,
        h: usize,
        memory: bool,
        x: Handle,
        word: u64,
    ) -> Result<Reply, Full>
        requires lent { Lends self.old.state h Mut x }
        requires word { x.word ≡ Descriptor word }
        ensures { Took self.old (freeze_by self.old.state h memory x (Descriptor word)) result self.new }
    {
        if let Some(tailed) = self.format.with_tail(word, x.cap - x.len) {
            self.handles[h] = Some(frozen(x, Word::Descriptor(tailed)));
            return Ok(Reply::Done);
        }
        if !memory {
            return Ok(Reply::Refused(Refusal::Memory));
        }
        self.promote(h, x, word)
    }

    /// A record takes the place of a writable handle's descriptor, and the handle becomes a view.
    fn promote(&mut self, h: usize, x: Handle, word: u64) -> Result<Reply, Full>
        requires lent { Lends self.old.state h Mut x }
        requires word { x.word ≡ Descriptor word }
        ensures { Took self.old
            (done (edited (promoted self.old.state x 1) h (short.frozen x (Counted (next_record self.old.state)))))
            result self.new }
    {
        let block = self.owned(h, x, word);
        room_for_record(&self.records, &self.freed_records)?;
        let r = self.records.len();
        self.records.push_reserved(Record {
            count: 1,
            block,
            live: true,
        });
        self.handles[h] = Some(frozen(x, Word::Record(r)));
        Ok(Reply::Done)
    }
}
