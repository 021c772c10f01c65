// A message of three values, written and peeked as pairs in pairs.
ghost use Rattle.std.specs.Prelude.{◌≡◌, ◌++◌, [], ◌∷◌};
ghost use Rattle.std.specs.Int.{w32, to_be_bytes};
ghost use Rattle.iobufs_core.specs.Items.{put_item};
ghost use Rattle.iobufs_core.specs.NumberLaws.{form_8, form_32};
ghost use Rattle.iobufs_core.specs.SeveralLaws.{joins_two};
ghost use Rattle.iobufs_core.specs.Wire.{view_items, view_written};
ghost use Rattle.iobufs_core.specs.WireLaws.{joins-put, joins-view};
ghost use Rattle.iobufs_codec.specs.Forms.{bytes_form, form_as, number_form, pair_form};
ghost use Rattle.std.proofs.Common.{ap, refl};

use iobufs_codec::{Fault, Look};
use iobufs_core::buf::IoBuf;
use iobufs_core::codec::{BufMut, BufsMut, EncodeSize, Error, Peek, RangeCfg, Write};
use std::alloc::Global;

/// A number, a byte and a body.
#[derive(PartialEq, Drop)]
pub struct Message {
    pub number: u32,
    pub kind: u8,
    pub body: IoBuf,
}

type Fields = (u32, (u8, IoBuf));

impl EncodeSize for Message {
    // Its bytes: those of the fields, in order.
    ghost written = { λ m. to_be_bytes w32 m.number ++ ((m.kind ∷ []) ++ view_written m.body) };

    // The puts and pushes that write them.
    ghost items = { λ m. (put_item (to_be_bytes w32 m.number) ∷ [])
        ++ ((put_item (m.kind ∷ []) ∷ []) ++ view_items m.body) };

    fn encode_size(&self) -> Option<usize> {
        (self.number, (self.kind, &self.body)).encode_size()
    }

    fn encode_inline_size(&self) -> usize {
        (self.number, (self.kind, &self.body)).encode_inline_size()
    }

    // They write these bytes: a law for each field, joined pair by pair.
    ghost joins_items = { λ m. joins_two (put_item (to_be_bytes w32 m.number) ∷ [])
        ((put_item (m.kind ∷ []) ∷ []) ++ view_items m.body)
        (to_be_bytes w32 m.number) ((m.kind ∷ []) ++ view_written m.body) (joins-put (to_be_bytes w32 m.number))
        (joins_two (put_item (m.kind ∷ []) ∷ []) (view_items m.body) (m.kind ∷ []) (view_written m.body)
        (joins-put (m.kind ∷ [])) (joins-view m.body)) };
}

impl Write for Message {
    fn write<B: BufMut>(&self, buf: &mut B) {
        (self.number, (self.kind, &self.body)).write(buf)
    }

    fn write_bufs<B: BufsMut>(&self, buf: &mut B) -> Result<(), Error> {
        (self.number, (self.kind, &self.body)).write_bufs(buf)
    }
}

impl Look for Message {
    type Cfg = ((), ((), RangeCfg));

    // All four are those of the pairs.
    ghost is_found = { λ text skip cfg m. ⟦<Fields as Look>⟧.is_found text skip cfg (m.number, (m.kind, m.body)) };

    ghost is_fault = { ⟦<Fields as Look>⟧.is_fault };

    ghost admits = { λ cfg m. ⟦<Fields as Look>⟧.admits cfg (m.number, (m.kind, m.body)) };

    ghost same = { λ x y. ⟦<Fields as Look>⟧.same (x.number, (x.kind, x.body)) (y.number, (y.kind, y.body)) };

    fn look<B: Peek>(
        alloc: Global,
        buf: &B,
        skip: usize,
        cfg: &((), ((), RangeCfg)),
    ) -> Result<(Message, usize), Fault> {
        let ((number, (kind, body)), len) = Fields::look(alloc, buf, skip, cfg)?;
        Ok((Message { number, kind, body }, len))
    }

    // The forms of the fields, paired; `form_as` takes the struct apart.
    ghost form = { form_as (λ m. (m.number, (m.kind, m.body)))
        (λ m. to_be_bytes w32 m.number ++ ((m.kind ∷ []) ++ view_written m.body)) (λ m. refl)
        (pair_form (number_form _ (to_be_bytes w32) 4 form_32) (pair_form (number_form _ (λ n. n ∷ []) 1 form_8)
        (bytes_form (λ view. view.bytes) (λ view made. made ≡ view) (λ view made is. ap (λ v. v.bytes) is)))) };
}
