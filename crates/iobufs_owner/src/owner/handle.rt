//! Handles by themselves: a part of a view, a view of no bytes, and where the block of a handle ends.
ghost use Rattle.std.specs.Prelude.{◌≡◌, ◌+◌, ◌^◌, ◌<◌, ◌≤◌};
ghost use Rattle.iobufs_owner.specs.declared.owner.types.Kind.TheVariants.{View, Mut};
ghost use Rattle.iobufs_owner.specs.Changes as change;
ghost use Rattle.iobufs_owner.specs.State.{end_of};

use crate::owner::{Handle, Kind, Word};

/// The bytes `lo` to `hi` of a view as a view, which owns what the word says.
pub(super) fn part(x: Handle, lo: u64, hi: u64, word: Word) -> Handle
    requires order { lo ≤ hi }
    requires within { hi ≤ x.len }
    requires ends { x.ptr + x.len < 2 ^ 64 }
    ensures { result ≡ change.part x lo hi word }
{
    Handle {
        kind: Kind::View,
        ptr: x.ptr + lo,
        len: hi - lo,
        cap: 0,
        word,
    }
}

/// A view of no bytes without block.
pub(super) fn detached() -> Handle
    ensures { result ≡ change.detached_handle 0 }
{
    Handle {
        kind: Kind::View,
        ptr: 0,
        len: 0,
        cap: 0,
        word: Word::Empty,
    }
}

/// Where the block ends under a descriptor with this tail.
pub(super) fn end(x: Handle, tail: u64) -> u64
    requires behind_view { x.kind ≡ View → x.ptr + x.len + tail < 2 ^ 64 }
    requires behind_room { x.kind ≡ Mut → x.ptr + x.cap < 2 ^ 64 }
    ensures { result ≡ end_of x tail }
{
    match x.kind {
        Kind::View => x.ptr + x.len + tail,
        Kind::Mut => x.ptr + x.cap,
    }
}
