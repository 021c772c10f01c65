// Memory of a machine's blocks that is handed out again.
ghost use Rattle.std.specs.Prelude.{◌≡◌, ◌≢◌, ℕ, ◌+◌, ◌<◌, ◌≤◌, All, IfSome, None, Some, length, slice_get, take};
ghost use Rattle.iobufs_owner.specs.Promises.{Promises};
ghost use Rattle.iobufs_owner.specs.Reading.{reading};
ghost use Rattle.iobufs_owner.specs.Sound.{IsTripleOf};
ghost use Rattle.iobufs_owner.specs.State.{State, KeepsLogs, block_at, triple};
ghost use Rattle.iobufs_owner.specs.World.{holders};

use iobufs_owner::owner::{Freed, Machine};

/// A pool after a machine. It hands out the memory of each block again once that is freed, in the order of freeing, and
/// none twice.
#[derive(Debug, Drop)]
pub struct Pool {
    /// How many of the freed blocks are handed out.
    pub given: usize,
}

impl Pool {
    /// Nothing is handed out.
    pub fn new() -> Pool
        ensures { result.given ≡ 0 }
    {
        Pool { given: 0 }
    }

    /// Returns the memory of the next freed block, if there is one that isn't handed out. No handle holds it, and it
    /// differs from each that was handed out before.
    pub fn take(&mut self, machine: &Machine) -> Option<Freed>
        requires { Promises machine.now.state }
        ensures next { result ≡ slice_get machine.now.state.freed_blocks self.old.given }
        ensures counted { IfSome result (λ _. self.new.given ≡ self.old.given + 1) }
        ensures none { result ≡ None → (self.new.given ≡ self.old.given)
            × (length machine.now.state.freed_blocks ≤ self.old.given) }
        ensures block { IfSome result (IsTripleOf machine.now.state.tables.blocks) }
        ensures unheld { IfSome result (λ freed. (b : ℕ) → b < length machine.now.state.tables.blocks
            → triple (block_at machine.now.state.tables b) ≡ freed → holders (reading machine.now.state) b ≡ 0) }
        ensures once { IfSome result (λ freed.
            All (λ other. other ≢ freed) (take self.old.given machine.now.state.freed_blocks)) }
    {
        let freed = *machine.freed_blocks().get(self.given)?;
        self.given += 1;
        Some(freed)
    }
}

/// The blocks handed out stay a prefix of the log: each block that a pool hands out after further steps is new too.
pub fn pool_law()
    ensures { (before after : State) → (given : ℕ) → KeepsLogs before after → given ≤ length before.freed_blocks
        → take given after.freed_blocks ≡ take given before.freed_blocks }
{}
