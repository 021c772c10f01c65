//! Calls that change at most one handle, and allocate nothing.
ghost use Rattle.std.specs.Prelude.{◌≡◌, ◌+◌};
ghost use Rattle.iobufs_owner.specs.declared.owner.types.Kind.TheVariants.{View};
ghost use Rattle.iobufs_owner.specs.declared.owner.types.Word.TheVariants.{Empty, Descriptor, Record as Counted};
ghost use Rattle.iobufs_owner.specs.Lending.{Lends};
ghost use Rattle.iobufs_owner.specs.ShortCalls.{put_of, advance_of, recover_of, recover_by, unique_of};

use crate::owner::{Handle, Kind, Machine, Refusal, Reply, Word};

impl Machine {
    /// A writable handle is filled by `n` bytes.
    pub(super) fn put(&mut self, h: usize, n: u64) -> Reply
        ensures reply { result ≡ (put_of self.old.state h n).reply }
        ensures state { self.new.state ≡ (put_of self.old.state h n).state }
        ensures room { self.new.room ≡ self.old.room }
    {
        let x = match self.lend(h, Kind::Mut) {
            Ok(x) => x,
            Err(why) => return Reply::Refused(why),
        };
        if n > x.cap - x.len {
            return Reply::Refused(Refusal::OutOfRange);
        }
        self.handles[h] = Some(Handle {
            len: x.len + n,
            ..x
        });
        Reply::Done
    }

    /// `n` bytes go from the front of a handle.
    pub(super) fn advance(&mut self, h: usize, n: u64) -> Reply
        ensures reply { result ≡ (advance_of self.old.state h n).reply }
        ensures state { self.new.state ≡ (advance_of self.old.state h n).state }
        ensures room { self.new.room ≡ self.old.room }
    {
        let x = match self.lend_any(h) {
            Ok(x) => x,
            Err(why) => return Reply::Refused(why),
        };
        if n > x.len {
            return Reply::Refused(Refusal::OutOfRange);
        }
        // A view has no capacity to lose.
        self.handles[h] = Some(Handle {
            ptr: x.ptr + n,
            len: x.len - n,
            cap: x.cap.saturating_sub(n),
            ..x
        });
        Reply::Done
    }

    /// A view that holds its block alone becomes writable.
    pub(super) fn recover(&mut self, h: usize) -> Reply
        ensures reply { result ≡ (recover_of self.old.state h).reply }
        ensures state { self.new.state ≡ (recover_of self.old.state h).state }
        ensures room { self.new.room ≡ self.old.room }
    {
        let x = match self.lend(h, Kind::View) {
            Ok(x) => x,
            Err(why) => return Reply::Refused(why),
        };
        match x.word {
            Word::Empty => self.recover_empty(h, x),
            Word::Descriptor(word) => self.recover_described(h, x, word),
            Word::Record(r) => self.recover_counted(h, x, r),
        }
    }

    /// A view without block becomes writable if it is empty.
    fn recover_empty(&mut self, h: usize, x: Handle) -> Reply
        requires lent { Lends self.old.state h View x }
        requires word { x.word ≡ Empty }
        ensures reply { result ≡ (recover_by self.old.state h x Empty).reply }
        ensures state { self.new.state ≡ (recover_by self.old.state h x Empty).state }
        ensures room { self.new.room ≡ self.old.room }
    {
        if x.len != 0 {
            return Reply::Declined;
        }
        self.handles[h] = Some(Handle {
            kind: Kind::Mut,
            cap: 0,
            word: Word::Empty,
            ..x
        });
        Reply::Done
    }

    /// A view with a descriptor becomes writable to the end of its block.
    fn recover_described(&mut self, h: usize, x: Handle, word: u64) -> Reply
        requires lent { Lends self.old.state h View x }
        requires word { x.word ≡ Descriptor word }
        ensures reply { result ≡ (recover_by self.old.state h x (Descriptor word)).reply }
        ensures state { self.new.state ≡ (recover_by self.old.state h x (Descriptor word)).state }
        ensures room { self.new.room ≡ self.old.room }
    {
        let tail = self.format.unpack(word).tail;
        let whole = self.format.with_tail(word, 0).unwrap();
        self.handles[h] = Some(Handle {
            kind: Kind::Mut,
            cap: x.len + tail,
            word: Word::Descriptor(whole),
            ..x
        });
        Reply::Done
    }

    /// A view with a record becomes writable to the end of its native block, if the record counts the view alone.
    fn recover_counted(&mut self, h: usize, x: Handle, r: usize) -> Reply
        requires lent { Lends self.old.state h View x }
        requires word { x.word ≡ Counted r }
        ensures reply { result ≡ (recover_by self.old.state h x (Counted r)).reply }
        ensures state { self.new.state ≡ (recover_by self.old.state h x (Counted r)).state }
        ensures room { self.new.room ≡ self.old.room }
    {
        let record = self.record(r);
        let block = self.block(record.block);
        if block.external {
            return Reply::Declined;
        }
        if record.count != 1 {
            return Reply::Declined;
        }
        self.handles[h] = Some(Handle {
            kind: Kind::Mut,
            cap: block.base + block.size - x.ptr,
            word: Word::Record(r),
            ..x
        });
        Reply::Done
    }

    /// Whether a handle holds its block alone.
    pub(super) fn unique(&self, h: usize) -> Reply
        ensures { result ≡ (unique_of self.now.state h).reply }
    {
        let x = match self.lend_owning(h) {
            Ok(x) => x,
            Err(why) => return Reply::Refused(why),
        };
        match (x.kind, x.word) {
            (Kind::View, Word::Record(r)) => Reply::Unique(self.record(r).count == 1),
            _ => Reply::Unique(true),
        }
    }
}
