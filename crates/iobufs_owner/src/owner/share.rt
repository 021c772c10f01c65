//! Clones and slices of a view, step by step. In the original `OwnerCell::promote`, whose compare-exchange is the race
//! here, and `Owner::clone_shared`, which adds to the count.
ghost use Rattle.std.specs.Prelude.{◌≡◌, ◌+◌, ◌-◌, ◌^◌, ◌<◌, ◌≤◌, length, slice_index_or, slice_set, vec_capacity, IfOk, None, Some};
ghost use Rattle.iobufs_owner.specs.declared.owner.types.Kind.TheVariants.{View};
ghost use Rattle.iobufs_owner.specs.declared.owner.types.Word.TheVariants.{Empty, Descriptor, Record as Counted};
ghost use Rattle.iobufs_owner.specs.declared.owner.types.Pending.TheVariants.{Loaded, Ready, Add};
ghost use Rattle.iobufs_owner.specs.declared.owner.types.Reply.TheVariants.{More};
ghost use Rattle.iobufs_owner.specs.Changes as change;
ghost use Rattle.iobufs_owner.specs.Lending as lending;
ghost use Rattle.iobufs_owner.specs.LongCalls as long;
ghost use Rattle.iobufs_owner.specs.Changes.{called, edited, record_freed, with_count};
ghost use Rattle.iobufs_owner.specs.LongCalls.{shared, share_by, clone_of, slice_of, ready_of, race_of, add_of};
ghost use Rattle.iobufs_owner.specs.Moves.{Took};
ghost use Rattle.iobufs_owner.specs.Sound.{IsSound, Shares};
ghost use Rattle.iobufs_owner.specs.State.{handle_at, call_at, record_at};

use crate::owner::handle::part;
use crate::owner::room::{room_for_handle, room_for_record};
use crate::owner::{Full, Handle, Kind, Machine, Pending, Record, Refusal, Reply, Share, Word};

impl Machine {
    /// The view, for a call that shares it.
    fn view(&self, h: usize) -> Result<Handle, Refusal>
        ensures value { result ≡ lending.lend_view_of self.now.state h }
        ensures at { IfOk result (λ x. handle_at self.now.state h ≡ Some x) }
        ensures kind { IfOk result (λ x. x.kind ≡ View) }
        ensures sound { IsSound self.now.state }
    {
        let Some(x) = self.find(h) else {
            return Err(Refusal::NoHandle);
        };
        if x.kind != Kind::View {
            return Err(Refusal::WrongKind);
        }
        Ok(x)
    }

    /// A clone begins.
    pub(super) fn clone_view(&mut self, thread: usize, h: usize) -> Result<Reply, Full>
        requires there { thread < length self.old.state.calls }
        requires idle { call_at self.old.state thread ≡ None }
        ensures { Took self.old (clone_of self.old.state thread h) result self.new }
    {
        let x = match self.view(h) {
            Ok(x) => x,
            Err(why) => return Ok(Reply::Refused(why)),
        };
        let whole = Share {
            handle: h,
            lo: 0,
            hi: x.len,
        };
        self.share(thread, whole, x)
    }

    /// A slice begins; an empty one ends at once.
    pub(super) fn slice_view(
        &mut self,
        thread: usize,
        h: usize,
        lo: u64,
        hi: u64,
    ) -> Result<Reply, Full>
        requires there { thread < length self.old.state.calls }
        requires idle { call_at self.old.state thread ≡ None }
        ensures { Took self.old (slice_of self.old.state thread h lo hi) result self.new }
    {
        let x = match self.view(h) {
            Ok(x) => x,
            Err(why) => return Ok(Reply::Refused(why)),
        };
        if lo > hi || hi > x.len {
            return Ok(Reply::Refused(Refusal::OutOfRange));
        }
        if lo == hi {
            return self.add_detached(0);
        }
        let range = Share { handle: h, lo, hi };
        self.share(thread, range, x)
    }

    /// The word is loaded: a view without block is shared at once.
    fn share(&mut self, thread: usize, range: Share, x: Handle) -> Result<Reply, Full>
        requires there { thread < length self.old.state.calls }
        requires idle { call_at self.old.state thread ≡ None }
        requires fits { Shares self.old.state range x }
        ensures { Took self.old (share_by self.old.state thread range x x.word) result self.new }
    {
        match x.word {
            Word::Empty => self.share_empty(range, x),
            Word::Descriptor(word) => Ok(self.load(thread, range, x, word)),
            Word::Record(r) => Ok(self.will_add(thread, range, x, r)),
        }
    }

    /// A part of a view without block is a new view.
    fn share_empty(&mut self, range: Share, x: Handle) -> Result<Reply, Full>
        requires fits { Shares self.old.state range x }
        requires word { x.word ≡ Empty }
        ensures { Took self.old (change.made self.old.state (change.part x range.lo range.hi Empty)) result self.new }
    {
        room_for_handle(&self.handles)?;
        let new = self.handles.len();
        self.handles
            .push_reserved(Some(part(x, range.lo, range.hi, Word::Empty)));
        Ok(Reply::Made(new))
    }

    /// A descriptor was loaded.
    fn load(&mut self, thread: usize, range: Share, x: Handle, word: u64) -> Reply
        requires there { thread < length self.old.state.calls }
        requires idle { call_at self.old.state thread ≡ None }
        requires fits { Shares self.old.state range x }
        requires word { x.word ≡ Descriptor word }
        ensures reply { result ≡ More }
        ensures state { self.new.state ≡ called self.old.state thread (Some (Loaded range word)) }
        ensures room { self.new.room ≡ self.old.room }
    {
        self.calls.set(thread, Some(Pending::Loaded(range, word)));
        Reply::More
    }

    /// A record's number was loaded.
    fn will_add(&mut self, thread: usize, range: Share, x: Handle, r: usize) -> Reply
        requires there { thread < length self.old.state.calls }
        requires idle { call_at self.old.state thread ≡ None }
        requires fits { Shares self.old.state range x }
        requires word { x.word ≡ Counted r }
        ensures reply { result ≡ More }
        ensures state { self.new.state ≡ called self.old.state thread (Some (Add range r)) }
        ensures room { self.new.room ≡ self.old.room }
    {
        self.calls.set(thread, Some(Pending::Add(range, r)));
        Reply::More
    }

    /// The number of the block that a loaded descriptor describes.
    fn loaded_block(&self, thread: usize, range: Share, word: u64) -> usize
        requires { call_at self.now.state thread ≡ Some (Loaded range word) }
        ensures { result ≡ long.loaded_block self.now.state range word }
    {
        let Some(x) = self.find(range.handle) else {
            unreachable!()
        };
        let loaded = Handle {
            word: Word::Descriptor(word),
            ..x
        };
        self.described(loaded, word)
    }

    /// A record is made for the block of the loaded descriptor.
    pub(super) fn make_ready(
        &mut self,
        thread: usize,
        range: Share,
        word: u64,
        memory: bool,
    ) -> Result<Reply, Full>
        requires { call_at self.old.state thread ≡ Some (Loaded range word) }
        ensures { Took self.old (ready_of self.old.state thread range word memory) result self.new }
    {
        if !memory {
            self.calls.set(thread, None);
            return Ok(Reply::Refused(Refusal::Memory));
        }
        let block = self.loaded_block(thread, range, word);
        room_for_record(&self.records, &self.freed_records)?;
        let r = self.records.len();
        self.records.push_reserved(Record {
            count: 2,
            block,
            live: true,
        });
        self.calls.set(thread, Some(Pending::Ready(range, word, r)));
        Ok(Reply::More)
    }

    /// The record takes the descriptor's place, if that is unchanged; else another record has taken it.
    pub(super) fn race(
        &mut self,
        thread: usize,
        range: Share,
        word: u64,
        r: usize,
    ) -> Result<Reply, Full>
        requires { call_at self.old.state thread ≡ Some (Ready range word r) }
        ensures { Took self.old (race_of self.old.state thread range word r) result self.new }
    {
        let Some(x) = self.find(range.handle) else {
            unreachable!()
        };
        match x.word {
            Word::Descriptor(now) if now == word => self.win(thread, range, word, r, x),
            Word::Record(winner) => Ok(self.lose(thread, range, word, r, x, winner)),
            _ => unreachable!(),
        }
    }

    /// The record is published: it counts the handle and the new view.
    fn win(
        &mut self,
        thread: usize,
        range: Share,
        word: u64,
        r: usize,
        x: Handle,
    ) -> Result<Reply, Full>
        requires call { call_at self.old.state thread ≡ Some (Ready range word r) }
        requires at { handle_at self.old.state range.handle ≡ Some x }
        requires word { x.word ≡ Descriptor word }
        ensures { Took self.old
            (shared (edited self.old.state range.handle (record x { word = Counted r })) thread range x r)
            result self.new }
    {
        room_for_handle(&self.handles)?;
        let new = self.handles.len();
        self.handles[range.handle] = Some(Handle {
            word: Word::Record(r),
            ..x
        });
        self.handles
            .push_reserved(Some(part(x, range.lo, range.hi, Word::Record(r))));
        self.calls.set(thread, None);
        Ok(Reply::Made(new))
    }

    /// The record is freed, and the call will add to the winner's.
    fn lose(
        &mut self,
        thread: usize,
        range: Share,
        word: u64,
        r: usize,
        x: Handle,
        winner: usize,
    ) -> Reply
        requires call { call_at self.old.state thread ≡ Some (Ready range word r) }
        requires at { handle_at self.old.state range.handle ≡ Some x }
        requires word { x.word ≡ Counted winner }
        ensures reply { result ≡ More }
        ensures state { self.new.state ≡ called (record_freed self.old.state r) thread (Some (Add range winner)) }
        ensures room { self.new.room ≡ self.old.room }
    {
        let record = self.record(r);
        self.records[r] = Record {
            live: false,
            ..record
        };
        self.freed_records.push_reserved(r);
        self.calls.set(thread, Some(Pending::Add(range, winner)));
        Reply::More
    }

    /// One holder more, unless the count is above the ceiling.
    pub(super) fn add(&mut self, thread: usize, range: Share, r: usize) -> Result<Reply, Full>
        requires { call_at self.old.state thread ≡ Some (Add range r) }
        ensures { Took self.old (add_of self.old.state thread range r) result self.new }
    {
        let Some(x) = self.find(range.handle) else {
            unreachable!()
        };
        let record = self.record(r);
        if record.count > self.ceiling {
            self.calls.set(thread, None);
            return Ok(Reply::Refused(Refusal::Ceiling));
        }
        self.add_holder(thread, range, r, x)
    }

    /// One holder more.
    fn add_holder(
        &mut self,
        thread: usize,
        range: Share,
        r: usize,
        x: Handle,
    ) -> Result<Reply, Full>
        requires call { call_at self.old.state thread ≡ Some (Add range r) }
        requires at { handle_at self.old.state range.handle ≡ Some x }
        requires low { (record_at self.old.state.tables r).count ≤ self.old.state.ceiling }
        ensures { Took self.old
            (shared (with_count self.old.state r ((record_at self.old.state.tables r).count + 1)) thread range x r)
            result self.new }
    {
        let record = self.record(r);
        room_for_handle(&self.handles)?;
        let new = self.handles.len();
        self.records[r] = Record {
            count: record.count + 1,
            ..record
        };
        self.handles
            .push_reserved(Some(part(x, range.lo, range.hi, Word::Record(r))));
        self.calls.set(thread, None);
        Ok(Reply::Made(new))
    }
}
