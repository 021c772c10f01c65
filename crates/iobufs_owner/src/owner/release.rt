//! Drops, step by step. In the original `Owner::drop_unless_unique`, which loads the count and subtracts, then
//! `release_unique` or `drop_shared_race_final`, and `release_record`, which frees.
ghost use Rattle.std.specs.Prelude.{◌≡◌, ◌<◌, length, None, Some};
ghost use Rattle.iobufs_owner.specs.declared.owner.types.Kind.TheVariants.{View, Mut};
ghost use Rattle.iobufs_owner.specs.declared.owner.types.Word.TheVariants.{Empty, Descriptor, Record as Counted};
ghost use Rattle.iobufs_owner.specs.declared.owner.types.Reply.TheVariants.{More, Done};
ghost use Rattle.iobufs_owner.specs.declared.owner.types.Pending.TheVariants.{Subtract, Release};
ghost use Rattle.iobufs_owner.specs.LongCalls as long;
ghost use Rattle.iobufs_owner.specs.Changes.{block_freed, both_freed, called, replaced, state_without};
ghost use Rattle.iobufs_owner.specs.Lending.{Lends};
ghost use Rattle.iobufs_owner.specs.LongCalls.{drop_of, subtract_of, release_of};
ghost use Rattle.iobufs_owner.specs.ShortCalls.{IsLoose};
ghost use Rattle.iobufs_owner.specs.State.{call_at, record_at, recovered};

use crate::owner::{Freed, Handle, Kind, Machine, Pending, Record, Reply, Word};

/// Returns the next state of a drop that loaded this count.
fn after_count(count: u64, r: usize) -> Pending
    ensures { result ≡ long.after_count count r }
{
    if count == 1 {
        Pending::Release(r)
    } else {
        Pending::Subtract(r)
    }
}

impl Machine {
    /// A drop begins: the handle is gone. A block that it holds alone is freed at once, except by a view with a record.
    pub(super) fn drop_handle(&mut self, thread: usize, h: usize) -> Reply
        requires there { thread < length self.old.state.calls }
        requires idle { call_at self.old.state thread ≡ None }
        ensures reply { result ≡ (drop_of self.old.state thread h).reply }
        ensures state { self.new.state ≡ (drop_of self.old.state thread h).state }
        ensures room { self.new.room ≡ self.old.room }
    {
        let x = match self.lend_any(h) {
            Ok(x) => x,
            Err(why) => return Reply::Refused(why),
        };
        match x.word {
            Word::Empty => self.drop_empty(h, x),
            Word::Descriptor(word) => {
                self.free_described(h, x, word, None);
                Reply::Done
            }
            Word::Record(r) => self.drop_counted(thread, h, x, r),
        }
    }

    /// A handle without block is gone.
    fn drop_empty(&mut self, h: usize, x: Handle) -> Reply
        requires lent { Lends self.old.state h x.kind x }
        requires word { x.word ≡ Empty }
        ensures reply { result ≡ Done }
        ensures state { self.new.state ≡ state_without self.old.state h }
        ensures room { self.new.room ≡ self.old.room }
    {
        self.handles[h] = None;
        Reply::Done
    }

    /// A handle with a record is gone: a writable one frees record and block, a view loads the count.
    fn drop_counted(&mut self, thread: usize, h: usize, x: Handle, r: usize) -> Reply
        requires there { thread < length self.old.state.calls }
        requires idle { call_at self.old.state thread ≡ None }
        requires lent { Lends self.old.state h x.kind x }
        requires word { x.word ≡ Counted r }
        ensures reply { result ≡ (long.drop_counted self.old.state thread h r x.kind).reply }
        ensures state { self.new.state ≡ (long.drop_counted self.old.state thread h r x.kind).state }
        ensures room { self.new.room ≡ self.old.room }
    {
        match x.kind {
            Kind::Mut => {
                self.free_counted(h, x, r, None);
                Reply::Done
            }
            Kind::View => self.drop_view(thread, h, x, r),
        }
    }

    /// A view with a record is gone; its drop loads the count.
    fn drop_view(&mut self, thread: usize, h: usize, x: Handle, r: usize) -> Reply
        requires there { thread < length self.old.state.calls }
        requires idle { call_at self.old.state thread ≡ None }
        requires lent { Lends self.old.state h View x }
        requires word { x.word ≡ Counted r }
        ensures reply { result ≡ More }
        ensures state { self.new.state
            ≡ called (state_without self.old.state h) thread
            (Some (long.after_count (record_at self.old.state.tables r).count r)) }
        ensures room { self.new.room ≡ self.old.room }
    {
        let record = self.record(r);
        let next = after_count(record.count, r);
        self.handles[h] = None;
        self.calls.set(thread, Some(next));
        Reply::More
    }

    /// A drop subtracts its holder; the drop that saw the count at 1 frees.
    pub(super) fn subtract(&mut self, thread: usize, r: usize) -> Reply
        requires { call_at self.old.state thread ≡ Some (Subtract r) }
        ensures reply { result ≡ (subtract_of self.old.state thread r).reply }
        ensures state { self.new.state ≡ (subtract_of self.old.state thread r).state }
        ensures room { self.new.room ≡ self.old.room }
    {
        let record = self.record(r);
        self.records[r] = Record {
            count: record.count - 1,
            ..record
        };
        if record.count == 1 {
            self.calls.set(thread, Some(Pending::Release(r)));
            return Reply::More;
        }
        self.calls.set(thread, None);
        Reply::Done
    }

    /// The last step of a drop: record and block are freed.
    pub(super) fn release(&mut self, thread: usize, r: usize) -> Reply
        requires { call_at self.old.state thread ≡ Some (Release r) }
        ensures reply { result ≡ (release_of self.old.state thread r).reply }
        ensures state { self.new.state ≡ (release_of self.old.state thread r).state }
        ensures room { self.new.room ≡ self.old.room }
    {
        let record = self.record(r);
        let block = self.block(record.block);
        self.records[r] = Record {
            live: false,
            ..record
        };
        self.freed_blocks.push_reserved(Freed {
            base: block.base,
            size: block.size,
            align: block.align,
        });
        self.freed_records.push_reserved(r);
        self.calls.set(thread, None);
        Reply::Done
    }

    /// A handle with a descriptor is replaced, and its block is freed, as the word and the handle describe it.
    pub(super) fn free_described(&mut self, h: usize, x: Handle, word: u64, rest: Option<Handle>)
        requires lent { Lends self.old.state h x.kind x }
        requires word { x.word ≡ Descriptor word }
        requires rest { IsLoose rest }
        ensures state { self.new.state ≡ replaced
            (block_freed self.old.state (recovered self.old.state.tables x word)) h rest }
        ensures room { self.new.room ≡ self.old.room }
    {
        let freed = self.recovered(x, word);
        self.handles[h] = rest;
        self.freed_blocks.push_reserved(freed);
    }

    /// A writable handle with a record is replaced, and its record and block are freed.
    pub(super) fn free_counted(&mut self, h: usize, x: Handle, r: usize, rest: Option<Handle>)
        requires lent { Lends self.old.state h Mut x }
        requires word { x.word ≡ Counted r }
        requires rest { IsLoose rest }
        ensures state { self.new.state ≡ replaced (both_freed self.old.state r) h rest }
        ensures room { self.new.room ≡ self.old.room }
    {
        let record = self.record(r);
        let block = self.block(record.block);
        self.handles[h] = rest;
        self.records[r] = Record {
            live: false,
            ..record
        };
        self.freed_blocks.push_reserved(Freed {
            base: block.base,
            size: block.size,
            align: block.align,
        });
        self.freed_records.push_reserved(r);
    }
}
