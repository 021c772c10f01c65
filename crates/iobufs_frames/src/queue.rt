//! The frames that are sent later.
ghost use Rattle.std.specs.Prelude.{◌≡◌, ◌+◌, ◌^◌, ◌<◌, [], ◌∷◌, ◌++◌, length, nat_eq, option_to_list, IfErr, IfNone, OnErr, OnOk};
ghost use Rattle.iobufs_core.specs.declared.codec.base.BufError.TheVariants.{Memory};
ghost use Rattle.iobufs_frames.specs.Unsent.{frames_bytes};

use crate::unsent::Unsent;
use iobufs::bufs::IoBufs;
use iobufs_core::codec::{BufError, Refused};
use std::alloc::Global;
use std::collections::VecDeque;
use std::marker::Model;

/// Frames in order, of which nothing is sent, and how many bytes they have.
#[derive(Drop)]
pub struct Queue {
    frames: VecDeque<Unsent>,
    len: usize,
}

impl Model for Queue {
    ghost use Rattle.std.specs.Prelude.{◌≡◌, List, length};
    ghost use Rattle.iobufs_frames.specs.Unsent.{UnsentBytes, frames_bytes};

    ghost Value = { List UnsentBytes };

    ghost view = { λ q. q.frames.items };

    ghost invariant = { λ q. q.len ≡ length (frames_bytes q.frames.items) };
}

impl Queue {
    // No frames.
    pub(crate) fn new(alloc: Global) -> Queue
        ensures { result ≡ [] }
    {
        Queue {
            frames: VecDeque::new(alloc),
            len: 0,
        }
    }

    // The frames.
    pub(crate) fn frames(&self) -> &VecDeque<Unsent>
        ensures { result.now.items ≡ self.now }
    {
        &self.frames
    }

    /// Returns whether there are no frames.
    pub fn is_empty(&self) -> bool
        ensures { result ≡ nat_eq (length self.now) 0 }
    {
        self.frames.is_empty()
    }

    /// Returns how many bytes the frames have.
    pub fn len(&self) -> usize
        ensures { result ≡ length (frames_bytes self.now) }
    {
        self.len
    }

    // Adds a frame after the others.
    #[inline(never)]
    pub(crate) fn push(&mut self, frame: Unsent) -> Result<(), Refused<IoBufs>>
        requires { length (frames_bytes self.old) + length frame.bytes < 2 ^ 64 }
        ensures ok { OnOk result (self.new ≡ self.old ++ frame ∷ []) }
        ensures unchanged { OnErr result (self.new ≡ self.old) }
        ensures err { IfErr result (λ refused. refused ≡ record { cause = Memory; value = frame.body }) }
    {
        let n = frame.len();
        match self.frames.push_back(frame) {
            Ok(()) => {
                self.len += n;
                Ok(())
            }
            Err(failed) => Err(Refused {
                cause: BufError::Memory,
                value: failed.value.into_body(),
            }),
        }
    }

    // Takes the first frame.
    pub(crate) fn pop(&mut self) -> Option<Unsent>
        ensures items { self.old ≡ option_to_list result ++ self.new }
        ensures none { IfNone result (self.old ≡ []) }
    {
        let frame = self.frames.pop_front()?;
        self.len -= frame.len();
        Some(frame)
    }
}
