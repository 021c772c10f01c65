// Pairs: the second value is written after the first. A reference is written as its value.
ghost use Rattle.std.specs.Prelude.{◌++◌};
ghost use Rattle.iobufs_core.specs.SeveralLaws.{joins_two};

use super::{BufMut, BufsMut, EncodeSize, Error, Write};

impl<T: EncodeSize> EncodeSize for &T {
    ghost written = { λ value. T.written value.now };

    ghost items = { λ value. T.items value.now };

    fn encode_size(&self) -> Option<usize> {
        (**self).encode_size()
    }

    fn encode_inline_size(&self) -> usize {
        (**self).encode_inline_size()
    }

    ghost joins_items = { λ value. T.joins_items value.now };
}

impl<T: Write> Write for &T {
    fn write<O: BufMut>(&self, buf: &mut O) {
        (**self).write(buf)
    }

    fn write_bufs<O: BufsMut>(&self, buf: &mut O) -> Result<(), Error> {
        (**self).write_bufs(buf)
    }
}

impl<A: EncodeSize, B: EncodeSize> EncodeSize for (A, B) {
    ghost written = { λ p. A.written p.0 ++ B.written p.1 };

    ghost items = { λ p. A.items p.0 ++ B.items p.1 };

    fn encode_size(&self) -> Option<usize> {
        let first = self.0.encode_size()?;
        let second = self.1.encode_size()?;
        first.checked_add(second)
    }

    fn encode_inline_size(&self) -> usize {
        self.0.encode_inline_size() + self.1.encode_inline_size()
    }

    ghost joins_items = { λ p. joins_two (A.items p.0) (B.items p.1) _ _ (A.joins_items p.0) (B.joins_items p.1) };
}

impl<A: Write, B: Write> Write for (A, B) {
    fn write<O: BufMut>(&self, buf: &mut O) {
        self.0.write(buf);
        self.1.write(buf);
    }

    #[tactic(auto, using(crate::specs::SeveralLaws::pushed_append, crate::specs::SeveralLaws::begun_first, crate::specs::SeveralLaws::begun_second))]
    fn write_bufs<O: BufsMut>(&self, buf: &mut O) -> Result<(), Error> {
        self.0.write_bufs(buf)?;
        self.1.write_bufs(buf)?;
        Ok(())
    }
}
