// A `Bytes` as a value that is written and read after its length.
ghost use Rattle.std.specs.Prelude.{◌≡◌, ◌⊎◌, ◌^◌, ◌<◌, ◌≤◌, [], ◌∷◌, length, OnOk, OnErr, IfOk, IfErr, IsOk, true};
ghost use Rattle.iobufs_core.specs.Dropping.{by_copy, dropped};
ghost use Rattle.iobufs_core.specs.Items.{IsBegun, items_inline, items_pushed, put_item};
ghost use Rattle.iobufs_core.specs.MarkedText.{text_advanced, text_rest};
ghost use Rattle.iobufs_core.specs.Spelling.{spell};
ghost use Rattle.iobufs_core.specs.Wire.{HasStaticView, IsBytesRead, bytes_items, bytes_written};
ghost use Rattle.iobufs_core.specs.CodecLaws.{bytes_codec};
ghost use Rattle.iobufs_core.specs.Ranges.{in_range};
ghost use Rattle.iobufs_core.specs.ReadLaws.{bytes_alike};
ghost use Rattle.iobufs_core.specs.WireLaws.{joins-bytes};

use super::length::{put_length, spelled_len};
use super::wire::read_bytes;
use super::{BufMut, BufsMut, Codec, EncodeSize, Error, OwnedBuf, RangeCfg, Read, Write};
use bytes::Bytes;
use std::alloc::Global;

impl EncodeSize for Bytes {
    ghost written = { bytes_written };

    ghost items = { bytes_items };

    fn encode_size(&self) -> Option<usize> {
        let len = self.len();
        spelled_len(len).checked_add(len)
    }

    fn encode_inline_size(&self) -> usize {
        spelled_len(self.len())
    }

    ghost joins_items = { joins-bytes };
}

impl Write for Bytes {
    fn write<B: BufMut>(&self, buf: &mut B) {
        put_length(buf, self.len());
        buf.put_slice(self.as_slice());
    }

    /// Shares the bytes before it puts the length. If it fails, `buf` is unchanged, or only the length was put.
    fn write_bufs<B: BufsMut>(&self, buf: &mut B) -> Result<(), Error>
        requires { items_inline (bytes_items self.now) ≤ B.room buf.old }
        ensures ok { OnOk result (B.done buf.old (bytes_items self.now) buf.new) }
        ensures begun { OnErr result (IsBegun (B.joined buf.old) (bytes_written self.now) (B.joined buf.new)) }
        ensures left { OnErr result ((buf.new ≡ buf.old)
            ⊎ B.done buf.old (put_item (spell (length self.now)) ∷ []) buf.new) }
        ensures cause { IfErr result
            (λ error. (error ≡ Error.Memory) ⊎ ((error ≡ Error.TooLong)
            × (B.pushable buf.old < items_pushed (bytes_items self.now)))) }
        ensures no_push { items_pushed (bytes_items self.now) ≡ 0 → IsOk result }
    {
        if self.is_empty() {
            put_length(buf, 0);
            return Ok(());
        }
        let bytes = self.clone()?;
        put_length(buf, self.len());
        buf.push_bytes(bytes)?;
        Ok(())
    }
}

impl Read for Bytes {
    type Cfg = RangeCfg;

    ghost is_read = { IsBytesRead };

    ghost dropping = { λ bytes. by_copy (length (bytes_written bytes)) ∷ [] };

    /// Cannot fail with `Error::Memory` if the bytes are in one static chunk.
    fn read_cfg<B: OwnedBuf>(alloc: Global, buf: &mut B, range: &RangeCfg) -> Result<Bytes, Error>
        ensures answer { IsBytesRead (B.marked buf.old) range.now result }
        ensures left { IfOk result (λ bytes. buf.new ≡ dropped B.advanced B.copied buf.old
            (by_copy (length (bytes_written bytes)) ∷ [])) }
        ensures rest { IfOk result (λ bytes. B.marked buf.new
            ≡ dropped text_advanced text_rest (B.marked buf.old) (by_copy (length (bytes_written bytes)) ∷ [])) }
        ensures unchanged { OnErr result (buf.new ≡ buf.old) }
        ensures static_text { HasStaticView (B.marked buf.old) range.now → IsOk result }
    {
        read_bytes(alloc, buf, range)
    }

    ghost alike = { bytes_alike };
}

impl Codec for Bytes {
    ghost admits = { λ range bytes. (length bytes < 2 ^ 64) × (in_range range (length bytes) ≡ true) };

    ghost form = { bytes_codec };
}
