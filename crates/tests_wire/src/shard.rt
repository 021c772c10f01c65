// A value of several fields, with a view between two numbers.
ghost use Rattle.std.specs.Prelude.{[], ◌∷◌, ◌++◌};
ghost use Rattle.std.specs.Int.{w16, w32, to_be_bytes};
ghost use Rattle.iobufs_core.specs.Items.{put_item};
ghost use Rattle.iobufs_core.specs.Wire.{view_items, view_written};
ghost use Rattle.std.proofs.Common.{rules, append-nil, append_assoc};

use iobufs_core::buf::IoBuf;
use iobufs_core::codec::{BufMut, BufsMut, EncodeSize, Error, Write};

#[derive(Drop)]
pub struct Shard {
    pub id: u16,
    pub body: IoBuf,
    pub sum: u32,
}

impl EncodeSize for Shard {
    ghost written = { λ s. to_be_bytes w16 s.id ++ view_written s.body ++ to_be_bytes w32 s.sum };

    ghost items = { λ s. put_item (to_be_bytes w16 s.id) ∷ view_items s.body ++ put_item (to_be_bytes w32 s.sum) ∷ [] };

    fn encode_size(&self) -> Option<usize> {
        self.body.encode_size()?.checked_add(6)
    }

    fn encode_inline_size(&self) -> usize {
        self.body.encode_inline_size() + 6
    }

    ghost joins_items = { Prim.search (rules, append-nil, append_assoc) };
}

impl Write for Shard {
    fn write<B: BufMut>(&self, buf: &mut B) {
        buf.put_u16(self.id);
        self.body.write(buf);
        buf.put_u32(self.sum);
    }

    fn write_bufs<B: BufsMut>(&self, buf: &mut B) -> Result<(), Error> {
        buf.put_u16(self.id);
        self.body.write_bufs(buf)?;
        buf.put_u32(self.sum);
        Ok(())
    }
}
