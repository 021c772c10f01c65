//! Proved callers: frames, messages, senders, stores, a pool.
//!
//! - `frame`: a frame codec. `echo`: frames sent back. `store`, `fill`: writable buffers, and one filled from a reader.
//!   `pool`, a caller of the machine: the memory of freed blocks.
//! - `web`: bodies of HTTP messages. `polled`: senders to an async writer.
//! - `start`: a log of entries, a crate to begin with.
//! - `note`, `request`: messages, and an enum, read by their parts. `alike`: code that is generic in the value and in
//!   the reader.
//! - The contracts are in the words of the layer and its `CallerFacts`.
#![tactic(auto)]

pub mod alike;
pub mod echo;
pub mod fill;
pub mod frame;
pub mod note;
pub mod polled;
pub mod pool;
pub mod request;
pub mod start;
pub mod store;
pub mod web;
