//! The threads' unfinished calls, and for each handle how many of them borrow it, so that a step looks at no other
//! thread's call.
ghost use Rattle.std.specs.Prelude.{◌≡◌, ℕ, ◌+◌, ◌^◌, ◌<◌, ◌≤◌, length, slice_index, slice_set, replicate, if◌then◌else◌, IfOk, IfSome, IsOk, OnErr, OnOk, None};
ghost use Rattle.iobufs_owner.specs.Lending as lending;
ghost use Rattle.iobufs_owner.specs.Lending.{is_lent, lends};

use crate::owner::Pending;
use std::alloc::{AllocError, Global};
use std::marker::Model;

/// A clause sees the calls, and of how many handles the borrowers are counted.
#[derive(Drop)]
pub(super) struct Calls {
    pending: Vec<Option<Pending>>,
    borrowers: Vec<usize>,
}

impl Model for Calls {
    ghost use Rattle.iobufs_owner.specs.Lending.{Calling};

    ghost Value = { Calling };

    ghost use Rattle.iobufs_owner.specs.Borrowers.{calling_of, CountsBorrowers};

    ghost view = { calling_of };

    ghost invariant = { CountsBorrowers };
}

// The handle that a call borrows.
fn borrowed(call: Option<Pending>) -> Option<usize>
    ensures { result ≡ lending.handle_of call }
{
    match call {
        Some(Pending::Loaded(range, _)) => Some(range.handle),
        Some(Pending::Ready(range, _, _)) => Some(range.handle),
        Some(Pending::Add(range, _)) => Some(range.handle),
        _ => None,
    }
}

// The handle has a borrower less.
fn uncount(borrowers: &mut Vec<usize>, handle: Option<usize>)
    requires { IfSome handle (λ h. 0 < slice_index borrowers.old.items h) }
    ensures counts { (k : ℕ) → slice_index borrowers.new.items k +
        (if lends k handle then 1 else 0) ≡ slice_index borrowers.old.items k }
    ensures len { length borrowers.new.items ≡ length borrowers.old.items }
{
    if let Some(h) = handle {
        borrowers[h] -= 1;
    }
}

// The handle has a borrower more.
fn count(borrowers: &mut Vec<usize>, handle: Option<usize>)
    requires counted { IfSome handle (λ h. h < length borrowers.old.items) }
    requires fits { IfSome handle (λ h. slice_index borrowers.old.items h + 1 < 2 ^ 64) }
    ensures counts { (k : ℕ) → slice_index borrowers.new.items k ≡ slice_index borrowers.old.items k +
        (if lends k handle then 1 else 0) }
    ensures len { length borrowers.new.items ≡ length borrowers.old.items }
{
    if let Some(h) = handle {
        borrowers[h] += 1;
    }
}

impl Calls {
    /// Makes space for the calls of this many threads, none of which has one.
    pub(super) fn new(alloc: Global, threads: usize) -> Result<Calls, AllocError>
        ensures items { IfOk result (λ calls. calls.items ≡ replicate threads None) }
        ensures handles { IfOk result (λ calls. calls.handles ≡ 0) }
        ensures nothing { threads ≡ 0 → IsOk result }
    {
        if threads == 0 {
            return Ok(Calls {
                pending: Vec::new(alloc),
                borrowers: Vec::new(alloc),
            });
        }
        Ok(Calls {
            pending: Vec::from_elem(alloc, None, threads)?,
            borrowers: Vec::new(alloc),
        })
    }

    /// Borrows the calls.
    pub(super) fn as_slice(&self) -> &[Option<Pending>]
        ensures { result.now ≡ self.now.items }
    {
        &self.pending
    }

    /// Whether a call borrows the handle.
    pub(super) fn is_lent(&self, h: usize) -> bool
        ensures { result ≡ is_lent h self.now.items }
    {
        h < self.borrowers.len() && self.borrowers[h] != 0
    }

    /// Replaces the call of a thread.
    pub(super) fn set(&mut self, thread: usize, call: Option<Pending>)
        requires there { thread < length self.old.items }
        requires counted { IfSome (lending.handle_of call) (λ h. h < self.old.handles) }
        ensures { self.new ≡ record self.old { items = slice_set self.old.items thread call } }
    {
        uncount(&mut self.borrowers, borrowed(self.pending[thread]));
        count(&mut self.borrowers, borrowed(call));
        self.pending[thread] = call;
    }

    /// Counts the borrowers of this many handles at least.
    pub(super) fn reserve(&mut self, handles: usize) -> Result<(), AllocError>
        ensures items { self.new.items ≡ self.old.items }
        ensures more { self.old.handles ≤ self.new.handles }
        ensures ok { OnOk result (handles ≤ self.new.handles) }
        ensures unchanged { OnErr result (self.new ≡ self.old) }
        ensures enough { handles ≤ self.old.handles → IsOk result }
    {
        if handles > self.borrowers.len() {
            self.borrowers.resize(handles, 0)?;
        }
        Ok(())
    }
}
