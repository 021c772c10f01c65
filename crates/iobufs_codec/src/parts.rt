// Types that are read and written as their fields: a value, a pair, or pairs in pairs.
ghost use Rattle.std.specs.Prelude.{◌≡◌, ◌⊎◌, ℕ, ◌+◌, ◌^◌, ◌<◌, ◌≤◌, ◌++◌, List, length, Err, IfOk, IfErr, OnErr, IsOk, IsOkUnless};
ghost use Rattle.iobufs.specs.Building.{building_after, empty_building, finished};
ghost use Rattle.iobufs_core.specs.Items.{items_inline};
ghost use Rattle.iobufs_core.specs.MarkedText.{MarkedText};
ghost use Rattle.iobufs_codec.specs.Form.{IsDecodedBack, IsReadBackWhole};
ghost use Rattle.iobufs_codec.specs.declared.fault.Fault.TheVariants.{ExtraData};

use crate::{Fault, Look};
use iobufs::EncodeExt;
use iobufs::bufs::IoBufs;
use iobufs_core::buf::IoBufMut;
use iobufs_core::codec::{Encode, Error, Peek, Write};
use std::alloc::Global;

/// A type that is read as its fields (own). `read_whole` and `decode_cfg` promise of it what they promise of these. For
/// a field that is itself such a type, put its pairs into the pairs.
pub trait ByParts: Sized {
    /// Its fields: one value, a pair, or pairs in pairs, as `(u8, (u16, u32))`.
    type Parts: Look + Drop;

    ghost parts: { Self → Self.Parts };

    /// Makes the value of its fields.
    fn from_parts(all: Self::Parts) -> Self
        ensures { parts result ≡ all };

    /// Reads the value from the front, whole. If it fails, `buf` is unchanged.
    final fn read_whole<B: Peek>(
        alloc: Global,
        buf: &mut B,
        cfg: &<Self::Parts as Look>::Cfg,
    ) -> Result<Self, Fault>
        ensures found { IfOk result (λ value. Self.Parts.is_found (B.marked buf.old) 0 cfg.now (parts value)) }
        ensures left { IfOk result (λ value. buf.new ≡ B.advanced buf.old (length (Self.Parts.written (parts value)))) }
        ensures bytes { IfOk result (λ value. B.text buf.old ≡ Self.Parts.written (parts value) ++ B.text buf.new) }
        ensures back { (value : Self) (rest : List ℕ) → Self.Parts.admits cfg.now (parts value)
            → B.text buf.old ≡ Self.Parts.written (parts value) ++ rest
            → IsReadBackWhole (λ x y. Self.Parts.same (parts x) (parts y)) value rest (B.text buf.new) result }
        ensures fault { IfErr result (Self.Parts.is_fault (B.marked buf.old) 0 cfg.now) }
        ensures unchanged { OnErr result (buf.new ≡ buf.old) }
    {
        let all = <Self::Parts as Look>::read_whole(alloc, buf, cfg)?;
        Ok(Self::from_parts(all))
    }

    /// Decodes all bytes as one value (`decode_cfg`). Fails as `Look::look` does, or with `Fault::ExtraData` and the
    /// number of bytes that remain.
    final fn decode_cfg<B: Peek>(
        alloc: Global,
        buf: &B,
        cfg: &<Self::Parts as Look>::Cfg,
    ) -> Result<Self, Fault>
        ensures found { IfOk result (λ value. Self.Parts.is_found (B.marked buf.now) 0 cfg.now (parts value)) }
        ensures whole { IfOk result (λ value. B.text buf.now ≡ Self.Parts.written (parts value)) }
        ensures back { (value : Self) → Self.Parts.admits cfg.now (parts value)
            → B.text buf.now ≡ Self.Parts.written (parts value)
            → IsDecodedBack (λ x y. Self.Parts.same (parts x) (parts y)) value result }
        ensures fault { IfErr result (λ fault. Self.Parts.is_fault (B.marked buf.now) 0 cfg.now fault
            ⊎ ((all : Self.Parts) × (n : ℕ) × (fault ≡ ExtraData n)
            × (Self.Parts.is_found (B.marked buf.now) 0 cfg.now all) × (0 < n)
            × (length (B.text buf.now) ≡ length (Self.Parts.written all) + n))) }
    {
        let all = <Self::Parts as Look>::decode_cfg(alloc, buf, cfg)?;
        Ok(Self::from_parts(all))
    }
}

/// The result type of `IntoParts::encode_iobufs`: `IoBufs`.
pub trait FromText: Sized {
    ghost as_text: { Self → MarkedText };

    /// Makes the result of an `IoBufs`.
    fn from_text(text: IoBufs) -> Self
        ensures { as_text result ≡ text };
}

impl FromText for IoBufs {
    ghost as_text = { λ text. text };

    fn from_text(text: IoBufs) -> IoBufs {
        text
    }
}

/// A type that is also written as its fields (own).
pub trait IntoParts: ByParts
where
    Self::Parts: Write,
{
    /// Returns the fields.
    fn into_parts(self) -> Self::Parts
        ensures { result ≡ Self.parts self };

    /// Encodes the fields into chunks, and fails, as `EncodeExt::encode_iobufs` does; name the type `X`: `IoBufs`.
    final fn encode_iobufs<X: FromText>(self, alloc: Global) -> Result<X, Error>
        ensures pieces { IfOk result (λ made. X.as_text made ≡ finished
            (building_after (empty_building (items_inline (Self.Parts.items (Self.parts self))))
            (Self.Parts.items (Self.parts self)))) }
        ensures bytes { IfOk result (λ made. (X.as_text made).bytes ≡ Self.Parts.written (Self.parts self)) }
        ensures too_long { 2 ^ 64 ≤ length (Self.Parts.written (Self.parts self)) → result ≡ Err Error.TooLong }
        ensures bad_layout { length (Self.Parts.written (Self.parts self)) < 2 ^ 64
            → 2 ^ 63 ≤ items_inline (Self.Parts.items (Self.parts self))
            → result ≡ Err Error.BadLayout }
        ensures memory { length (Self.Parts.written (Self.parts self)) < 2 ^ 64
            → items_inline (Self.Parts.items (Self.parts self)) < 2 ^ 63
            → IsOkUnless result Error.Memory }
        ensures nothing { length (Self.Parts.written (Self.parts self)) ≡ 0 → IsOk result }
    {
        let text = self.into_parts().encode_iobufs(alloc)?;
        Ok(X::from_text(text))
    }

    /// Encodes the fields into one buffer of exactly their size, and fails, as `Encode::encode` does.
    final fn encode(self, alloc: Global) -> Result<IoBufMut, Error>
        ensures ok { IfOk result (λ part. part ≡ record { filled = Self.Parts.written (Self.parts self); spare = 0 }) }
        ensures too_long { 2 ^ 64 ≤ length (Self.Parts.written (Self.parts self)) → result ≡ Err Error.TooLong }
        ensures bad_layout { length (Self.Parts.written (Self.parts self)) < 2 ^ 64
            → 2 ^ 63 ≤ length (Self.Parts.written (Self.parts self))
            → result ≡ Err Error.BadLayout }
        ensures memory { length (Self.Parts.written (Self.parts self)) < 2 ^ 63 → IsOkUnless result Error.Memory }
        ensures nothing { length (Self.Parts.written (Self.parts self)) ≡ 0 → IsOk result }
    {
        self.into_parts().encode(alloc)
    }
}
