//! Commands on named buffers, and the theorem over every list of them.
//!
//! - `command`: the commands and their replies (`Cmd`, `Reply`, `Refusal`).
//! - `table`: `Table`, with a function for each command, and one for `Append` and `Prepend`, in the file of what it
//!   works on (`parts`, `made`, `views`, `texts`, `gather`, `build`, `shown`, `slots`); `causes` has the tests that
//!   several commands share.
//! - `laws`: what a run leaves open, and what a refused command changes.
//! - `specs/`: `Slots` and `Causes` (what names hold, and why a command is refused), `Refusals` (the refusal for an
//!   error), `Run` (`Step`, `Run`), `Choices`.
#![tactic(auto)]

pub mod command;
pub mod laws;
pub mod table;

pub use command::{Cmd, Item, Kind, Piece, Refusal, Reply};
pub use table::{Slot, Table};
