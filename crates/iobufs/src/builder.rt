// Encoded bytes and existing buffers, put together as one `IoBufs`.
ghost use Rattle.std.specs.Prelude.{◌≡◌, ◌+◌, ◌<◌, ◌≤◌, ◌^◌, [], length, Err, IfErr, IsErrAnd, IfOk, IsOk, IsOkUnless, OnOk};
ghost use Rattle.iobufs_core.specs.Items.{items_inline};
ghost use Rattle.iobufs.specs.Building.{IsBuilding, building_items, building_room, building_after, empty_building, finished, building_bytes, room_for_pushes};
ghost use Rattle.iobufs.specs.Laws.Building.{IsBuilderPut, put_composes, put_lessens, put_nothing, put_unchanged, IsBuiltBy, built_adds, built_follows, built_idle, built_puts, built_skips, built_spends, built_uses};

use crate::bufs::IoBufs;
use crate::bufs::row::Gapped;
use bytes::Bytes;
use iobufs_core::buf::{IoBuf, IoBufMut};
use iobufs_core::codec::{BufError, BufMut, BufsMut, Error, Refused, Write};
use std::alloc::Global;
use std::marker::Model;

/// Puts and pushes that become one `IoBufs` (`Builder`). All puts share one buffer of a fixed capacity; pushed views
/// are not copied:
///
/// ```text
/// inline   | a b | c | d e . . |      pushes   X after a b, Y after c
/// finished | a b | X | c | Y | d e |
/// ```
///
/// A put doesn't allocate. `finish` splits the inline buffer between pushed views, and copies no byte.
pub struct Builder {
    inline: IoBufMut,
    // The pushed views, after gaps for the inline bytes.
    pushes: Gapped,
    // How many inline bytes come before the last push.
    placed: usize,
    // How many bytes pushes may still add.
    pushable: usize,
}

impl Drop for Builder {
    fn drop(self) {
        let Builder {
            inline: _,
            pushes: _,
            placed: _,
            pushable: _,
        } = self;
    }
}

impl Model for Builder {
    ghost use Rattle.iobufs.specs.Building.{Building};

    ghost Value = { Building };

    ghost use Rattle.iobufs.specs.Inside.Pushes.{building_of, IsBuilder};

    ghost view = { building_of };

    ghost invariant = { IsBuilder };
}

// Reserves space for one more push of `len` bytes, if pushes may still add them.
fn make_room(pushes: &mut Gapped, pushable: usize, len: usize) -> Result<(), BufError>
    ensures same { pushes.new.segments ≡ pushes.old.segments }
    ensures more { pushes.old.room ≤ pushes.new.room }
    ensures ok { OnOk result ((len ≤ pushable) × (length pushes.new.segments + 3 ≤ pushes.new.room)) }
    ensures too_long { pushable < len → IsErrAnd result (λ cause. cause ≡ BufError.TooLong) }
    ensures memory { len ≤ pushable → IfErr result (λ cause. cause ≡ BufError.Memory) }
{
    if len > pushable {
        return Err(BufError::TooLong);
    }
    pushes.make_room()?;
    Ok(())
}

impl Builder {
    /// Makes a builder without space for inline bytes, to which views may be pushed. Allocates nothing (own).
    #[tactic(auto, using(crate::proofs::Building::BuildLaws::building))]
    pub fn empty(alloc: Global) -> Builder
        ensures { result ≡ empty_building 0 }
    {
        Builder {
            inline: IoBufMut::new(alloc),
            pushes: Gapped::new(alloc),
            placed: 0,
            pushable: usize::MAX,
        }
    }

    /// Makes a builder for this many inline bytes (`Builder::new`). Fails with `BufError::BadLayout` above
    /// `isize::MAX`, and with `BufError::Memory` if allocation fails.
    #[tactic(auto, using(crate::proofs::Building::BuildLaws::building))]
    pub fn new(alloc: Global, capacity: usize) -> Result<Builder, BufError>
        ensures ok { IfOk result (λ b. b ≡ empty_building capacity) }
        ensures bad_layout { 2 ^ 63 ≤ capacity → result ≡ Err BufError.BadLayout }
        ensures memory { capacity < 2 ^ 63 → IsOkUnless result BufError.Memory }
        ensures nothing { capacity ≡ 0 → IsOk result }
    {
        let inline = IoBufMut::with_capacity(alloc, capacity)?;
        Ok(Builder {
            inline,
            pushes: Gapped::new(alloc),
            placed: 0,
            pushable: usize::MAX - capacity,
        })
    }

    /// Returns all that was put and pushed, in order, without copying (`Builder::finish`). The pushes have made space
    /// for all chunks. If it fails with `BufError::Memory`, all bytes are dropped.
    #[tactic(auto, using(crate::proofs::Building::FinishLaws::finishing))]
    pub fn finish(self) -> Result<IoBufs, BufError>
        ensures ok { IfOk result (λ text. text ≡ finished self) }
        ensures memory { IsOkUnless result BufError.Memory }
        ensures nothing { building_items self ≡ [] → IsOk result }
        ensures no_inline { items_inline (building_items self) ≡ 0 → IsOk result }
    {
        let Builder {
            inline,
            pushes,
            placed: _,
            pushable: _,
        } = self;
        let rest = inline.freeze()?;
        if pushes.is_empty() {
            return Ok(IoBufs::from(rest));
        }
        Ok(IoBufs::from_row(pushes.fill(rest)?))
    }
}

impl BufMut for Builder {
    ghost room = { building_room };

    ghost filled = { IsBuilderPut };

    #[tactic(auto, using(crate::proofs::Building::BuildLaws::building))]
    fn remaining_mut(&self) -> usize
        ensures room { result ≡ building_room self.now }
        ensures building { IsBuilding self.now }
    {
        self.inline.remaining_mut()
    }

    #[tactic(auto, using(crate::proofs::Building::BuildLaws::building))]
    fn put_slice(&mut self, src: &[u8]) {
        self.inline.put_slice(src);
    }

    #[tactic(auto, using(crate::proofs::Building::BuildLaws::building))]
    fn put_bytes(&mut self, value: u8, n: usize) {
        self.inline.put_bytes(value, n);
    }

    ghost nothing = { put_nothing };

    ghost unchanged = { put_unchanged };

    ghost composes = { put_composes };

    ghost lessens = { put_lessens };
}

impl BufsMut for Builder {
    ghost joined = { building_bytes };

    ghost pushable = { room_for_pushes };

    ghost done = { IsBuiltBy };

    #[tactic(auto, using(crate::proofs::Building::BuildLaws::building))]
    #[inline(always)]
    fn push(&mut self, view: IoBuf) -> Result<(), Refused<IoBuf>> {
        let len = view.len();
        if len == 0 {
            return Ok(());
        }
        if let Err(cause) = make_room(&mut self.pushes, self.pushable, len) {
            return Err(Refused { cause, value: view });
        }
        let run = self.inline.len() - self.placed;
        self.pushes.push(run, view);
        self.placed += run;
        self.pushable -= len;
        Ok(())
    }

    #[tactic(auto, using(crate::proofs::Building::BuildLaws::building))]
    fn push_bytes(&mut self, bytes: Bytes) -> Result<(), Refused<Bytes>> {
        let len = bytes.len();
        if len == 0 {
            return Ok(());
        }
        if let Err(cause) = make_room(&mut self.pushes, self.pushable, len) {
            return Err(Refused {
                cause,
                value: bytes,
            });
        }
        let (run, view) = (self.inline.len() - self.placed, IoBuf::from(bytes));
        self.pushes.push(run, view);
        self.placed += run;
        self.pushable -= len;
        Ok(())
    }

    ghost idle = { built_idle };

    ghost puts = { built_puts };

    ghost skips = { built_skips };

    ghost follows = { built_follows };

    ghost adds = { built_adds };

    ghost uses = { built_uses };

    ghost spends = { built_spends };
}

/// Encoding into chunks (`EncodeExt`).
pub trait EncodeExt: Write {
    /// Encodes into chunks: inline bytes in one buffer of exactly their size, pushed views not copied
    /// (`EncodeExt::encode_iobufs`). Fails with `Error::TooLong` if `encode_size` is `None`, with `Error::BadLayout` if
    /// more than `isize::MAX` bytes are inline, and with `Error::Memory` if allocation fails.
    final fn encode_iobufs(&self, alloc: Global) -> Result<IoBufs, Error>
    where
        Self: Sized,
        ensures pieces { IfOk result (λ text. text ≡ finished
            (building_after (empty_building (items_inline (Self.items self.now))) (Self.items self.now))) }
        ensures bytes { IfOk result (λ text. text.bytes ≡ Self.written self.now) }
        ensures too_long { 2 ^ 64 ≤ length (Self.written self.now) → result ≡ Err Error.TooLong }
        ensures bad_layout { length (Self.written self.now) < 2 ^ 64 → 2 ^ 63 ≤ items_inline (Self.items self.now)
            → result ≡ Err Error.BadLayout }
        ensures memory { length (Self.written self.now) < 2 ^ 64 → items_inline (Self.items self.now) < 2 ^ 63
            → IsOkUnless result Error.Memory }
        ensures nothing { length (Self.written self.now) ≡ 0 → IsOk result }
    {
        if self.encode_size().is_none() {
            return Err(Error::TooLong);
        }
        let mut builder = Builder::new(alloc, self.encode_inline_size())?;
        self.write_bufs(&mut builder)?;
        Ok(builder.finish()?)
    }
}

impl<T: Write> EncodeExt for T {}
