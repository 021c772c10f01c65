// Zero bytes in two runs, all inline.
ghost use Rattle.std.specs.Prelude.{[], ◌∷◌, ◌++◌, replicate};
ghost use Rattle.iobufs_core.specs.Items.{put_item};
ghost use Rattle.std.proofs.Common.{rules, append-nil};

use iobufs_core::codec::{BufMut, BufsMut, EncodeSize, Error, Write};

#[derive(Clone, Copy)]
pub struct Zeros {
    pub a: usize,
    pub b: usize,
}

impl EncodeSize for Zeros {
    ghost written = { λ z. replicate z.a 0 ++ replicate z.b 0 };

    ghost items = { λ z. put_item (replicate z.a 0) ∷ put_item (replicate z.b 0) ∷ [] };

    fn encode_size(&self) -> Option<usize> {
        self.a.checked_add(self.b)
    }

    fn encode_inline_size(&self) -> usize {
        self.a + self.b
    }

    ghost joins_items = { Prim.search (rules, append-nil) };
}

impl Write for Zeros {
    fn write<B: BufMut>(&self, buf: &mut B) {
        buf.put_bytes(0, self.a);
        buf.put_bytes(0, self.b);
    }

    fn write_bufs<B: BufsMut>(&self, buf: &mut B) -> Result<(), Error> {
        buf.put_bytes(0, self.a);
        buf.put_bytes(0, self.b);
        Ok(())
    }
}
