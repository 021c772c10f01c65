//! The library for C.
//!
//! A buffer is memory of the caller, reached by its handle (`ViewAt`, `PartAt`, ..): a pointer, with the buffer's value
//! as a ghost. `init` makes a buffer of memory, `get` borrows the one of a handle. Ranges and space are tested here,
//! and a status (`Status`) is returned. The caller makes sure that handles are alive and don't overlap, as the header
//! `c/include/iobufs.h` says. It declares each export after the export's comment, by `tests/gate/docs.py --write`; the
//! comment is therefore in C's words, and what only Rattle's reader needs is above it.
#![tactic(auto)]

pub mod builder;
pub mod built;
pub mod frames;
pub mod layouts;
pub mod lengths;
pub mod numbers;
pub mod part;
pub mod parts;
pub mod received;
pub mod status;
pub mod text;
pub mod view;
