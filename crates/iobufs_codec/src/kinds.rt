// A byte for the kind followed by a value, and a value of one of two kinds.
ghost use Rattle.std.specs.Prelude.{◌≡◌, ℕ, Bool, true, ◌||◌, nat_eq, [], ◌∷◌};
ghost use Rattle.iobufs_core.specs.Items.{put_item};
ghost use Rattle.iobufs_codec.specs.Kinds.{IsEitherAdmitted, IsEitherFault, IsEitherFound, IsTagAt, IsKindFault, IsKindFound, IsSameEither, either_items, either_written, kind_form, kind_first, joins_either, either_form, either_first};
ghost use Rattle.iobufs_core.specs.SeveralLaws.{joins_two};
ghost use Rattle.iobufs_core.specs.WireLaws.{joins-put};
ghost use Rattle.iobufs_codec.specs.Forms.{form_as};
ghost use Rattle.std.proofs.Common.{refl};

use crate::look::has_len;
use crate::views::bytes_at;
use crate::{Fault, Look};
use iobufs_core::codec::{BufMut, BufsMut, EncodeSize, Error, Peek, Write};
use std::alloc::Global;

/// A value whose first byte determines its kind (own).
pub trait Tagged: Look {
    // The first bytes that values of this kind have.
    ghost is_tag: { ℕ → Bool };

    /// Returns whether this byte is of the kind.
    fn is_tag(byte: u8) -> bool
        ensures { result ≡ is_tag byte };

    // Each encoding begins with such a byte.
    ghost begins: { (value : Self) → IsTagAt is_tag true (Self.written value) };
}

/// The byte `TAG` followed by a value (own).
#[derive(Debug, PartialEq, Eq, Drop)]
pub struct Kind<const TAG: u8, T> {
    pub value: T,
}

/// A value of one of two kinds, by its first byte (own). Nest it for more, as `Either<A, Either<B, C>>`; nesting adds
/// no byte. If a byte is of both kinds, the first kind is decoded.
#[derive(Debug, PartialEq, Eq, Drop)]
pub enum Either<A, B> {
    First(A),
    Second(B),
}

impl<const TAG: u8, T: EncodeSize> EncodeSize for Kind<TAG, T> {
    ghost written = { λ kind. TAG ∷ T.written kind.value };

    ghost items = { λ kind. put_item (TAG ∷ []) ∷ T.items kind.value };

    fn encode_size(&self) -> Option<usize> {
        (TAG, &self.value).encode_size()
    }

    fn encode_inline_size(&self) -> usize {
        (TAG, &self.value).encode_inline_size()
    }

    ghost joins_items = { λ kind. joins_two (put_item (TAG ∷ []) ∷ []) (T.items kind.value) (TAG ∷ [])
        (T.written kind.value)
        (joins-put (TAG ∷ [])) (T.joins_items kind.value) };
}

impl<const TAG: u8, T: Write> Write for Kind<TAG, T> {
    fn write<B: BufMut>(&self, buf: &mut B) {
        (TAG, &self.value).write(buf)
    }

    fn write_bufs<B: BufsMut>(&self, buf: &mut B) -> Result<(), Error> {
        (TAG, &self.value).write_bufs(buf)
    }
}

impl<const TAG: u8, T: Look + Drop> Look for Kind<TAG, T> {
    type Cfg = T::Cfg;

    ghost is_found = { λ text skip cfg kind. IsKindFound TAG T.is_found text skip cfg kind.value };

    ghost is_fault = { IsKindFault TAG T.is_fault };

    ghost admits = { λ cfg kind. T.admits cfg kind.value };

    ghost same = { λ x y. T.same x.value y.value };

    fn look<B: Peek>(
        alloc: Global,
        buf: &B,
        skip: usize,
        cfg: &T::Cfg,
    ) -> Result<(Kind<TAG, T>, usize), Fault> {
        has_len(buf);
        let [byte]: [u8; 1] = bytes_at(buf, skip)?;
        if byte != TAG {
            return Err(Fault::InvalidEnum(byte));
        }
        let (value, len) = T::look(alloc, buf, skip + 1, cfg)?;
        Ok((Kind { value }, 1 + len))
    }

    ghost form = { form_as (λ kind. kind.value) (λ kind. TAG ∷ T.written kind.value) (λ kind. refl)
        (kind_form TAG T.form) };
}

impl<const TAG: u8, T: Look + Drop> Tagged for Kind<TAG, T> {
    ghost is_tag = { λ byte. nat_eq byte TAG };

    fn is_tag(byte: u8) -> bool {
        byte == TAG
    }

    ghost begins = { λ kind. kind_first TAG (T.written kind.value) };
}

impl<A: EncodeSize, B: EncodeSize> EncodeSize for Either<A, B> {
    ghost written = { either_written A.written B.written };

    ghost items = { either_items A.items B.items };

    fn encode_size(&self) -> Option<usize> {
        match self {
            Either::First(value) => value.encode_size(),
            Either::Second(value) => value.encode_size(),
        }
    }

    fn encode_inline_size(&self) -> usize {
        match self {
            Either::First(value) => value.encode_inline_size(),
            Either::Second(value) => value.encode_inline_size(),
        }
    }

    ghost joins_items = { joins_either A.written A.items A.joins_items B.written B.items B.joins_items };
}

impl<A: Write, B: Write> Write for Either<A, B> {
    fn write<R: BufMut>(&self, buf: &mut R) {
        match self {
            Either::First(value) => value.write(buf),
            Either::Second(value) => value.write(buf),
        }
    }

    fn write_bufs<R: BufsMut>(&self, buf: &mut R) -> Result<(), Error> {
        match self {
            Either::First(value) => value.write_bufs(buf),
            Either::Second(value) => value.write_bufs(buf),
        }
    }
}

impl<A: Tagged + Drop, B: Tagged + Drop> Look for Either<A, B> {
    type Cfg = (A::Cfg, B::Cfg);

    ghost is_found = { IsEitherFound A.is_tag A.is_found B.is_found };

    ghost is_fault = { IsEitherFault A.is_tag A.is_fault B.is_fault };

    ghost admits = { IsEitherAdmitted A.is_tag B.written A.admits B.admits };

    ghost same = { IsSameEither A.same B.same };

    fn look<R: Peek>(
        alloc: Global,
        buf: &R,
        skip: usize,
        cfg: &(A::Cfg, B::Cfg),
    ) -> Result<(Either<A, B>, usize), Fault> {
        let [byte]: [u8; 1] = bytes_at(buf, skip)?;
        if A::is_tag(byte) {
            let (value, len) = A::look(alloc, buf, skip, &cfg.0)?;
            return Ok((Either::First(value), len));
        }
        let (value, len) = B::look(alloc, buf, skip, &cfg.1)?;
        Ok((Either::Second(value), len))
    }

    ghost form = { either_form A.form A.begins B.form B.begins };
}

impl<A: Tagged + Drop, B: Tagged + Drop> Tagged for Either<A, B> {
    ghost is_tag = { λ byte. A.is_tag byte || B.is_tag byte };

    fn is_tag(byte: u8) -> bool {
        A::is_tag(byte) || B::is_tag(byte)
    }

    ghost begins = { either_first A.begins B.begins };
}
