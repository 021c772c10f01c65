// The traits to write and read values, with bytes that are pushed and not copied.
ghost use Rattle.std.specs.Prelude.{◌≡◌, ◌⊎◌, ℕ, ◌+◌, ◌^◌, ◌<◌, ◌≤◌, List, [], ◌∷◌, ◌++◌, length, take, Result, Ok, SomeIff, OnOk, OnErr, IfOk, IfErr, IsOk, IsErrAnd, true};
ghost use Rattle.iobufs_core.specs.View.{View, static_mark};
ghost use Rattle.iobufs_core.specs.MarkedText.{MarkedText, taken_view, text_advanced, text_rest};
ghost use Rattle.iobufs_core.specs.Spelling.{spell};
ghost use Rattle.iobufs_core.specs.Wire.{HasStaticView, HasView, IsTaken, IsViewFault, IsViewRead, view_items, view_written, IsLengthRead};
ghost use Rattle.iobufs_core.specs.ReadBack.{IsCodec, IsReadAlike};
ghost use Rattle.iobufs_core.specs.Dropping.{Dropping, by_advance, by_copy, dropped};
ghost use Rattle.iobufs_core.specs.Items.{PutOrPush, put_item, push_item, items_bytes, items_inline, items_pushed, IsBegun};
ghost use Rattle.iobufs_core.specs.View.{view_of_bytes};
ghost use Rattle.iobufs_core.specs.declared.codec.base.Error.{Error as AnyError};
ghost use Rattle.iobufs_core.specs.CodecLaws.{length_codec, view_codec};
ghost use Rattle.iobufs_core.specs.Ranges.{in_range};
ghost use Rattle.iobufs_core.specs.ReadLaws.{length_alike, views_alike};
ghost use Rattle.iobufs_core.specs.WireLaws.{joins-put, joins-view};

use super::length::{length_in, put_length, spelled_len};
use super::{Buf, BufError, BufMut, Error, OwnedBuf, OwnedBytes, RangeCfg, Refused};
use crate::buf::IoBuf;
use bytes::Bytes;
use std::alloc::Global;

/// Space that also takes whole views without copying (the codec's `BufsMut`).
pub trait BufsMut: BufMut {
    // All bytes, in order.
    ghost joined: { Self → List ℕ };

    // How many bytes pushes may still add.
    ghost pushable: { Self → ℕ };

    // From one value to another by these puts and pushes, all of which fit.
    ghost done: { Self → List PutOrPush → Self → Type 0 };

    /// Appends a view (`BufsMut::push`). If it fails, returns the view: with `BufError::TooLong` exactly if it is
    /// longer than pushes may still add, else with `BufError::Memory`.
    fn push(&mut self, view: IoBuf) -> Result<(), Refused<IoBuf>>
        ensures ok { OnOk result (done self.old (push_item view ∷ []) self.new) }
        ensures unchanged { OnErr result (self.new ≡ self.old) }
        ensures back { IfErr result (λ refused. refused.value ≡ view) }
        ensures too_long { pushable self.old < length view.bytes
            → IsErrAnd result (λ refused. refused.cause ≡ BufError.TooLong) }
        ensures memory { length view.bytes ≤ pushable self.old
            → IfErr result (λ refused. refused.cause ≡ BufError.Memory) }
        ensures nothing { length view.bytes ≡ 0 → IsOk result };

    /// Appends a `Bytes` (`BufsMut::push`). If it fails, returns the `Bytes`: with `BufError::TooLong` exactly if it is
    /// longer than pushes may still add, else with `BufError::Memory`.
    fn push_bytes(&mut self, bytes: Bytes) -> Result<(), Refused<Bytes>>
        ensures ok { OnOk result (done self.old (push_item (view_of_bytes bytes) ∷ []) self.new) }
        ensures unchanged { OnErr result (self.new ≡ self.old) }
        ensures back { IfErr result (λ refused. refused.value ≡ bytes) }
        ensures too_long { pushable self.old < length bytes
            → IsErrAnd result (λ refused. refused.cause ≡ BufError.TooLong) }
        ensures memory { length bytes ≤ pushable self.old → IfErr result (λ refused. refused.cause ≡ BufError.Memory) }
        ensures nothing { length bytes ≡ 0 → IsOk result };

    ghost idle: { (s : Self) → done s [] s };

    ghost puts: { (a b : Self) (w : List ℕ) → Self.filled a w b → done a (put_item w ∷ []) b };

    ghost skips: { (s : Self) (view : View) → length view.bytes ≡ 0 → done s (push_item view ∷ []) s };

    ghost follows: { (a b c : Self) (us vs : List PutOrPush) → done a us b → done b vs c → done a (us ++ vs) c };

    ghost adds: { (a b : Self) (items : List PutOrPush) → done a items b → joined b ≡ joined a ++ items_bytes items };

    ghost uses: { (a b : Self) (items : List PutOrPush) → done a items b
        → Self.room a ≡ Self.room b + items_inline items };

    ghost spends: { (a b : Self) (items : List PutOrPush) → done a items b
        → pushable a ≡ pushable b + items_pushed items };
}

/// A value whose encoded size is known (the codec's `EncodeSize`).
pub trait EncodeSize {
    // The bytes that are written, and the puts and pushes that write them.
    ghost written: { Self → List ℕ };

    ghost items: { Self → List PutOrPush };

    /// Returns how many bytes are written; `None` above `usize::MAX` (`EncodeSize::encode_size`).
    fn encode_size(&self) -> Option<usize>
        ensures { SomeIff result (length (written self.now) < 2 ^ 64) (length (written self.now)) };

    /// Returns how many bytes `write_bufs` puts inline (`EncodeSize::encode_inline_size`).
    fn encode_inline_size(&self) -> usize
        requires { length (written self.now) < 2 ^ 64 }
        ensures { result ≡ items_inline (items self.now) };

    ghost joins_items: { (value : Self) → items_bytes (items value) ≡ written value };
}

/// A value that can be written (the codec's `Write`).
pub trait Write: EncodeSize {
    /// Puts the encoded bytes (`Write::write`).
    fn write<B: BufMut>(&self, buf: &mut B)
        requires { length (Self.written self.now) ≤ B.room buf.old }
        ensures { B.filled buf.old (Self.written self.now) buf.new };

    /// Puts and pushes the encoded bytes (`Write::write_bufs`). Fails with `Error::Memory`, or with `Error::TooLong` if
    /// the pushed bytes are more than pushes may still add; then `buf` keeps a prefix of the encoded bytes. Cannot fail
    /// if no byte is pushed.
    fn write_bufs<B: BufsMut>(&self, buf: &mut B) -> Result<(), Error>
        requires { items_inline (Self.items self.now) ≤ B.room buf.old }
        ensures ok { OnOk result (B.done buf.old (Self.items self.now) buf.new) }
        ensures begun { OnErr result (IsBegun (B.joined buf.old) (Self.written self.now) (B.joined buf.new)) }
        ensures cause { IfErr result (λ error. (error ≡ Error.Memory)
            ⊎ ((error ≡ Error.TooLong) × (B.pushable buf.old < items_pushed (Self.items self.now)))) }
        ensures no_push { items_pushed (Self.items self.now) ≡ 0 → IsOk result };
}

/// A value that can be read (the codec's `Read`).
pub trait Read: Sized {
    /// The configuration of a read: what is required of the value.
    type Cfg;

    // The result of a read, and how the value that was read is dropped from the front.
    ghost is_read: { MarkedText → Self.Cfg → Result Self AnyError → Type 0 };

    ghost dropping: { Self → List Dropping };

    // Two values are equal, wherever their bytes are kept.
    ghost same: { Self → Self → Type 0 } = { λ x y. x ≡ y };

    /// Reads a value from the front (`Read::read_cfg`). If it fails, `buf` is unchanged.
    fn read_cfg<B: OwnedBuf>(alloc: Global, buf: &mut B, cfg: &Self::Cfg) -> Result<Self, Error>
        ensures answer { is_read (B.marked buf.old) cfg.now result }
        ensures left { IfOk result (λ value. buf.new ≡ dropped B.advanced B.copied buf.old (dropping value)) }
        ensures rest { IfOk result (λ value. B.marked buf.new ≡ dropped text_advanced text_rest (B.marked buf.old)
            (dropping value)) }
        ensures unchanged { OnErr result (buf.new ≡ buf.old) };

    // Reading doesn't depend on the chunking, except for `Memory`.
    ghost alike: { (s t : MarkedText) (cfg : Self.Cfg) (a b : Result Self AnyError) → s.bytes ≡ t.bytes
        → is_read s cfg a → is_read t cfg b
        → IsReadAlike same a b };
}

/// A value that is read back as it was written, if the configuration accepts it and no allocation fails (the codec's
/// `Codec`).
pub trait Codec: Write + Read {
    // Which values a configuration admits.
    ghost admits: { Self.Cfg → Self → Type 0 };

    ghost form: { IsCodec Self Self.Cfg Self.written Self.is_read Self.dropping Self.same admits };
}

impl EncodeSize for usize {
    ghost written = { spell };

    ghost items = { λ n. put_item (spell n) ∷ [] };

    fn encode_size(&self) -> Option<usize> {
        Some(spelled_len(*self))
    }

    fn encode_inline_size(&self) -> usize {
        spelled_len(*self)
    }

    ghost joins_items = { λ n. joins-put (spell n) };
}

impl Write for usize {
    fn write<B: BufMut>(&self, buf: &mut B) {
        put_length(buf, *self);
    }

    fn write_bufs<B: BufsMut>(&self, buf: &mut B) -> Result<(), Error> {
        put_length(buf, *self);
        Ok(())
    }
}

impl Read for usize {
    type Cfg = RangeCfg;

    ghost is_read = { λ text range answer. IsLengthRead text.bytes range answer };

    ghost dropping = { λ n. by_advance (length (spell n)) ∷ [] };

    fn read_cfg<B: OwnedBuf>(
        _alloc: Global,
        buf: &mut B,
        range: &RangeCfg,
    ) -> Result<usize, Error> {
        let found = length_in(buf, range)?;
        buf.advance(found.len);
        Ok(found.value)
    }

    ghost alike = { λ s t range a b e p q. length_alike s t range a b e p q };
}

impl Codec for usize {
    ghost admits = { λ range n. (n < 2 ^ 64) × (in_range range n ≡ true) };

    ghost form = { length_codec };
}

impl EncodeSize for IoBuf {
    ghost written = { view_written };

    ghost items = { view_items };

    fn encode_size(&self) -> Option<usize> {
        let len = self.len();
        spelled_len(len).checked_add(len)
    }

    fn encode_inline_size(&self) -> usize {
        spelled_len(self.len())
    }

    ghost joins_items = { joins-view };
}

impl Write for IoBuf {
    fn write<B: BufMut>(&self, buf: &mut B) {
        put_length(buf, self.len());
        buf.put_slice(self.as_ref());
    }

    /// Shares the view before it puts the length. If it fails, `buf` is unchanged, or only the length was put.
    fn write_bufs<B: BufsMut>(&self, buf: &mut B) -> Result<(), Error>
        requires { items_inline (view_items self.now) ≤ B.room buf.old }
        ensures ok { OnOk result (B.done buf.old (view_items self.now) buf.new) }
        ensures begun { OnErr result (IsBegun (B.joined buf.old) (view_written self.now) (B.joined buf.new)) }
        ensures left { OnErr result ((buf.new ≡ buf.old)
            ⊎ B.done buf.old (put_item (spell (length self.now.bytes)) ∷ []) buf.new) }
        ensures cause { IfErr result (λ error. (error ≡ Error.Memory)
            ⊎ ((error ≡ Error.TooLong) × (B.pushable buf.old < items_pushed (view_items self.now)))) }
        ensures no_push { items_pushed (view_items self.now) ≡ 0 → IsOk result }
    {
        if self.is_empty() {
            put_length(buf, 0);
            return Ok(());
        }
        let view = self.clone()?;
        put_length(buf, self.len());
        buf.push(view)?;
        Ok(())
    }
}

impl Read for IoBuf {
    type Cfg = RangeCfg;

    ghost is_read = { IsViewRead };

    ghost dropping = { λ view. by_copy (length (view_written view)) ∷ [] };

    ghost same = { λ x y. x.bytes ≡ y.bytes };

    /// Cannot fail with `Error::Memory` if the bytes are in one static chunk.
    #[inline(always)]
    fn read_cfg<B: OwnedBuf>(alloc: Global, buf: &mut B, range: &RangeCfg) -> Result<IoBuf, Error>
        ensures answer { IsViewRead (B.marked buf.old) range.now result }
        ensures left { IfOk result (λ view. buf.new ≡ dropped B.advanced B.copied buf.old
            (by_copy (length (view_written view)) ∷ [])) }
        ensures rest { IfOk result (λ view. B.marked buf.new ≡ dropped text_advanced text_rest (B.marked buf.old)
            (by_copy (length (view_written view)) ∷ [])) }
        ensures unchanged { OnErr result (buf.new ≡ buf.old) }
        ensures static_text { HasStaticView (B.marked buf.old) range.now → IsOk result }
    {
        read_bytes(alloc, buf, range)
    }

    ghost alike = { views_alike };
}

impl Codec for IoBuf {
    ghost admits = { λ range view. (length view.bytes < 2 ^ 64) × (in_range range (length view.bytes) ≡ true) };

    ghost form = { view_codec };
}

/// Reads the bytes after a length, as a type made of a view.
#[inline(always)]
pub(super) fn read_bytes<T: OwnedBytes, B: OwnedBuf>(
    alloc: Global,
    buf: &mut B,
    range: &RangeCfg,
) -> Result<T, Error>
    ensures ok { IfOk result (IsTaken T.makes B.copied (B.marked buf.old) range.now buf.old buf.new) }
    ensures fault { IfErr result (IsViewFault (B.marked buf.old) range.now) }
    ensures unchanged { OnErr result (buf.new ≡ buf.old) }
    ensures static_text { (n : ℕ) → HasView (B.marked buf.old) range.now n
        → (taken_view (B.marked buf.old) (length (spell n)) n).mark ≡ static_mark
        → T.is_free (taken_view (B.marked buf.old) (length (spell n)) n) → IsOk result }
{
    let found = length_in(buf, range)?;
    if buf.remaining() - found.len < found.value {
        return Err(Error::EndOfBuffer);
    }
    Ok(buf.take_owned_after(alloc, found.len, found.value)?)
}
