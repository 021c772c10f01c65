// Arrays of bytes, written as they are.
ghost use Rattle.std.specs.Prelude.{[], ◌∷◌};
ghost use Rattle.iobufs_core.specs.Items.{put_item};
ghost use Rattle.iobufs_core.specs.WireLaws.{joins-put};

use super::{BufMut, BufsMut, EncodeSize, Error, Write};

impl<const N: usize> EncodeSize for [u8; N] {
    ghost written = { λ bytes. bytes };

    ghost items = { λ bytes. put_item bytes ∷ [] };

    fn encode_size(&self) -> Option<usize> {
        Some(self.len())
    }

    fn encode_inline_size(&self) -> usize {
        self.len()
    }

    ghost joins_items = { λ bytes. joins-put bytes };
}

impl<const N: usize> Write for [u8; N] {
    fn write<B: BufMut>(&self, buf: &mut B) {
        buf.put_slice(self);
    }

    fn write_bufs<B: BufsMut>(&self, buf: &mut B) -> Result<(), Error> {
        buf.put_slice(self);
        Ok(())
    }
}
