//! Laws of runs.
ghost use Rattle.std.specs.Prelude.{◌≡◌, ◌≢◌, ℕ, List, All, length};
ghost use Rattle.iobufs_owner.specs.declared.owner.types.Reply.{Reply};
ghost use Rattle.iobufs_owner.specs.declared.owner.types.Step.{Step};
ghost use Rattle.iobufs_owner.specs.Causes.{cause_of, may_take, IsCaused};
ghost use Rattle.iobufs_owner.specs.Reserved.{RoomFor, limit, blocks_of};
ghost use Rattle.iobufs_owner.specs.Types.{Refused, Room};
ghost use Rattle.iobufs_owner.specs.Reading.{reading};
ghost use Rattle.iobufs_owner.specs.Runs.{Runs, EndsInFour, taken_of};
ghost use Rattle.iobufs_owner.specs.Growing.{IsMove, GrowingRuns};
ghost use Rattle.iobufs_owner.specs.State.{State, Seen, KeepsLogs};
ghost use Rattle.iobufs_owner.specs.Steps.{Steps};
ghost use Rattle.iobufs_owner.specs.Tells.{TellsUnique, TellsTables};
ghost use Rattle.iobufs_owner.specs.World.{World, going_at};

/// State and step determine the reply and the next state.
pub fn answer_law()
    ensures { (m next other : Seen) → (step : Step) → (reply answer : Reply) → IsMove m step reply next
        → IsMove m step answer other
        → (answer ≡ reply) × (other ≡ next) }
{}

/// Steps in order, before each of which tables may get more capacity, are a run.
pub fn growing_law()
    ensures { (m next : Seen) → (steps : List Step) → (replies : List Reply) → GrowingRuns m steps replies next
        → Runs m.state steps replies next.state }
{}

/// The steps and replies of a run determine its tables: words, counts, records and logs.
pub fn tables_law()
    ensures { (m next : Seen) → (steps : List Step) → (replies : List Reply) → GrowingRuns m steps replies next
        → TellsTables m.state steps replies next.state }
{}

/// No step is refused with `Room` in a run of a machine that has space for what the steps may add.
pub fn room_law()
    ensures { (m next : Seen) → (steps : List Step) → (replies : List Reply) → GrowingRuns m steps replies next
        → RoomFor m.room m.state (blocks_of steps) (length steps) (length steps)
        → RoomFor limit m.state (blocks_of steps) (length steps) (length steps)
        → All (λ reply. reply ≢ Refused Room) replies }
{}

/// A step is refused by the first cause that holds. If none holds, it is refused only with `Memory`, if memory is
/// denied, or with `Room`.
pub fn cause_law()
    ensures { (w next : World) → (step : Step) → (reply : Reply) → Steps w step reply next
        → IsCaused (may_take step.act) (cause_of w step) reply }
{}

/// `IsUnique` returns true exactly if no other handle and no unfinished drop holds the block.
pub fn unique_law()
    ensures { (w next : World) → (step : Step) → (reply : Reply) → Steps w step reply next → TellsUnique w step reply }
{}

/// A call ends with its fourth executed step at the latest.
pub fn ends_law()
    ensures { (s next : State) → (steps : List Step) → (replies : List Reply) → Runs s steps replies next
        → (p : ℕ) → EndsInFour p (taken_of (going_at (reading s) p)) steps replies }
{}

/// A run adds what it frees at the end of the logs.
pub fn logs_law()
    ensures { (s next : State) → (steps : List Step) → (replies : List Reply) → Runs s steps replies next
        → KeepsLogs s next }
{}
