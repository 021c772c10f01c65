// `()` as no bytes, a `bool` as one byte, and an `Option` as such a byte and then its value, if it has one.
ghost use Rattle.std.specs.Prelude.{[], ◌∷◌};
ghost use Rattle.iobufs_core.specs.Items.{put_item};
ghost use Rattle.iobufs_core.specs.SeveralLaws.{joins-option};
ghost use Rattle.iobufs_core.specs.Wire.{flag, option_items, option_written};
ghost use Rattle.iobufs_core.specs.WireLaws.{joins-put};
ghost use Rattle.std.proofs.Common.{refl};

use super::{BufMut, BufsMut, EncodeSize, Error, Write};

impl EncodeSize for () {
    ghost written = { λ _. [] };

    ghost items = { λ _. [] };

    fn encode_size(&self) -> Option<usize> {
        Some(0)
    }

    fn encode_inline_size(&self) -> usize {
        0
    }

    ghost joins_items = { λ _. refl };
}

impl Write for () {
    fn write<B: BufMut>(&self, _buf: &mut B) {}

    fn write_bufs<B: BufsMut>(&self, _buf: &mut B) -> Result<(), Error> {
        Ok(())
    }
}

impl EncodeSize for bool {
    ghost written = { λ truth. flag truth ∷ [] };

    ghost items = { λ truth. put_item (flag truth ∷ []) ∷ [] };

    fn encode_size(&self) -> Option<usize> {
        Some(1)
    }

    fn encode_inline_size(&self) -> usize {
        1
    }

    ghost joins_items = { λ truth. joins-put (flag truth ∷ []) };
}

impl Write for bool {
    fn write<B: BufMut>(&self, buf: &mut B) {
        buf.put_u8(u8::from(*self));
    }

    fn write_bufs<B: BufsMut>(&self, buf: &mut B) -> Result<(), Error> {
        buf.put_u8(u8::from(*self));
        Ok(())
    }
}

impl<T: EncodeSize> EncodeSize for Option<T> {
    ghost written = { option_written T.written };

    ghost items = { option_items T.items };

    fn encode_size(&self) -> Option<usize> {
        match self {
            None => Some(1),
            Some(value) => (1u8, value).encode_size(),
        }
    }

    fn encode_inline_size(&self) -> usize {
        match self {
            None => 1,
            Some(value) => (1u8, value).encode_inline_size(),
        }
    }

    ghost joins_items = { joins-option T.written T.items T.joins_items };
}

impl<T: Write> Write for Option<T> {
    fn write<B: BufMut>(&self, buf: &mut B) {
        match self {
            None => buf.put_u8(0),
            Some(value) => (1u8, value).write(buf),
        }
    }

    fn write_bufs<B: BufsMut>(&self, buf: &mut B) -> Result<(), Error> {
        match self {
            None => 0u8.write_bufs(buf),
            Some(value) => (1u8, value).write_bufs(buf),
        }
    }
}
