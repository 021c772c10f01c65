//! Buffers of several chunks, and the builder.
//!
//! - `bufs`: `IoBufs`; its `Buf`, `OwnedBuf` and `Peek` are in `reading`. Its chunks are in `pieces`: one chunk, or a
//!   `row`, which is a deque in which `search` finds offsets.
//! - `bufs_mut`: `IoBufsMut`, one buffer or, in `several`, a deque of them with their sums.
//! - `traits`: the traits of the crate `bytes` and of std's `io`.
//! - `builder`: `Builder`, and `EncodeExt` for every value that can be written.
//! - `specs/`: the definitions of public contracts; in `Inside/` how private fields are read, in `Laws/` what impls
//!   cite.
#![tactic(auto)]

pub mod bufs;
pub mod bufs_mut;
pub mod builder;
mod traits;

pub use bufs::{BATCH, Ends, IoBufs, Located, find_end, write_again, write_chunks_again};
pub use bufs_mut::IoBufsMut;
pub use builder::{Builder, EncodeExt};
