//! Handles as a call requires them: there, of the right kind, and not borrowed.
ghost use Rattle.std.specs.Prelude.{◌≡◌, ◌+◌, ◌^◌, ◌<◌, length, IfOk, IfSome};
ghost use Rattle.iobufs_owner.specs.declared.owner.types.Kind.TheVariants.{View};
ghost use Rattle.iobufs_owner.specs.Lending.{lend_of, lend_any_of, lend_owning_of, lend_owning_view_of, Lends};
ghost use Rattle.iobufs_owner.specs.Sound.{IsSound};
ghost use Rattle.iobufs_owner.specs.State.{handle_at};

use crate::owner::{Handle, Kind, Machine, Refusal, Word};

impl Machine {
    /// The handle of this number, if it was given and isn't gone.
    pub(super) fn find(&self, h: usize) -> Option<Handle>
        ensures value { result ≡ handle_at self.now.state h }
        ensures known { IfSome result (λ _. h < length self.now.state.handles) }
        ensures sound { IsSound self.now.state }
    {
        if h < self.handles.len() {
            self.handles[h]
        } else {
            None
        }
    }

    /// The handle, for a call that must have it alone.
    pub(super) fn lend(&self, h: usize, kind: Kind) -> Result<Handle, Refusal>
        ensures value { result ≡ lend_of self.now.state h kind }
        ensures sound { IsSound self.now.state }
        ensures lends { IfOk result (Lends self.now.state h kind) }
        ensures ends { IfOk result (λ x. x.ptr + x.len < 2 ^ 64) }
    {
        let Some(x) = self.find(h) else {
            return Err(Refusal::NoHandle);
        };
        if x.kind != kind {
            return Err(Refusal::WrongKind);
        }
        if self.calls.is_lent(h) {
            return Err(Refusal::Borrowed);
        }
        Ok(x)
    }

    /// Borrows a handle of either kind.
    pub(super) fn lend_any(&self, h: usize) -> Result<Handle, Refusal>
        ensures value { result ≡ lend_any_of self.now.state h }
        ensures sound { IsSound self.now.state }
        ensures lends { IfOk result (λ x. Lends self.now.state h x.kind x) }
    {
        let Some(x) = self.find(h) else {
            return Err(Refusal::NoHandle);
        };
        if self.calls.is_lent(h) {
            return Err(Refusal::Borrowed);
        }
        Ok(x)
    }

    /// Borrows a handle that has a block.
    pub(super) fn lend_owning(&self, h: usize) -> Result<Handle, Refusal>
        ensures value { result ≡ lend_owning_of self.now.state h }
        ensures sound { IsSound self.now.state }
        ensures lends { IfOk result (λ x. Lends self.now.state h x.kind x) }
    {
        let Some(x) = self.find(h) else {
            return Err(Refusal::NoHandle);
        };
        if let Word::Empty = x.word {
            return Err(Refusal::WrongKind);
        }
        if self.calls.is_lent(h) {
            return Err(Refusal::Borrowed);
        }
        Ok(x)
    }

    /// Borrows a view that has a block.
    pub(super) fn lend_owning_view(&self, h: usize) -> Result<Handle, Refusal>
        ensures value { result ≡ lend_owning_view_of self.now.state h }
        ensures sound { IsSound self.now.state }
        ensures lends { IfOk result (Lends self.now.state h View) }
    {
        let Some(x) = self.find(h) else {
            return Err(Refusal::NoHandle);
        };
        if x.kind != Kind::View {
            return Err(Refusal::WrongKind);
        }
        self.lend_owning(h)
    }
}
