// Signed numbers, as the number of their bits.
ghost use Rattle.std.specs.Prelude.{◌≡◌};
ghost use Rattle.iobufs_codec.specs.Forms.{form_as};
ghost use Rattle.iobufs_codec.specs.Signed.{signed_form, one_of_bits, small_8, small_16, small_32, small_64, small_128};
ghost use Rattle.std.proofs.Common.{refl};
ghost use Rattle.std.specs.Int.{cast_unsigned, w8, w16, w32, w64, w128};
ghost use Rattle.std.specs.Int.RustNames.{FitsSigned};

use crate::{Fault, Look};
use iobufs_core::codec::{BufMut, BufsMut, EncodeSize, Error, Peek, Write};
use std::alloc::Global;

/// A signed number that is written as the unsigned number of its bits (own).
pub trait SignedNumber: Copy {
    /// The unsigned type of the bits.
    type Bits: Look + Write + Copy;

    // The number of the bits, and which numbers the type has.
    ghost bits: { Self → Self.Bits };

    ghost fits: { Self → Type 0 };

    /// Returns the number of the bits.
    fn to_bits(self) -> Self::Bits
        ensures { result ≡ bits self };

    /// Returns the number with these bits.
    fn from_bits(number: Self::Bits) -> Self
        ensures fits { fits result }
        ensures bits { bits result ≡ number };

    // Two numbers of the type with the same bits are equal, and any configuration admits the bits of a number.
    ghost one: { (x y : Self) → fits x → fits y → Self.Bits.same (bits x) (bits y) → x ≡ y };

    ghost admitted: { (cfg : Self.Bits.Cfg) (x : Self) → fits x → Self.Bits.admits cfg (bits x) };
}

/// A signed number, written as the number of its bits: `i8` to `i128` big-endian, in two's complement. It wraps the
/// number because the traits of writing are another crate's.
#[derive(Clone, Copy, Debug, PartialEq, Eq)]
pub struct Signed<N> {
    pub value: N,
}

impl<N: SignedNumber> EncodeSize for Signed<N> {
    ghost written = { λ n. N.Bits.written (N.bits n.value) };

    ghost items = { λ n. N.Bits.items (N.bits n.value) };

    fn encode_size(&self) -> Option<usize> {
        self.value.to_bits().encode_size()
    }

    fn encode_inline_size(&self) -> usize {
        self.value.to_bits().encode_inline_size()
    }

    ghost joins_items = { λ n. N.Bits.joins_items (N.bits n.value) };
}

impl<N: SignedNumber> Write for Signed<N> {
    fn write<B: BufMut>(&self, buf: &mut B) {
        self.value.to_bits().write(buf)
    }

    fn write_bufs<B: BufsMut>(&self, buf: &mut B) -> Result<(), Error> {
        self.value.to_bits().write_bufs(buf)
    }
}

impl<N: SignedNumber> Look for Signed<N> {
    type Cfg = <N::Bits as Look>::Cfg;

    ghost is_found = { λ text skip cfg n. N.fits n.value × N.Bits.is_found text skip cfg (N.bits n.value) };

    ghost is_fault = { λ text skip cfg fault. N.Bits.is_fault text skip cfg fault };

    ghost admits = { λ _ n. N.fits n.value };

    ghost same = { λ m n. m.value ≡ n.value };

    fn look<B: Peek>(
        alloc: Global,
        buf: &B,
        skip: usize,
        cfg: &<N::Bits as Look>::Cfg,
    ) -> Result<(Signed<N>, usize), Fault> {
        let (bits, len) = <N::Bits as Look>::look(alloc, buf, skip, cfg)?;
        let value = N::from_bits(bits);
        Ok((Signed { value }, len))
    }

    ghost form = { form_as (λ n. n.value) (λ n. N.Bits.written (N.bits n.value)) (λ n. refl)
        (signed_form N.fits N.bits N.Bits.form N.one N.admitted) };
}

impl SignedNumber for i8 {
    type Bits = u8;

    ghost bits = { cast_unsigned w8 };

    ghost fits = { FitsSigned w8 };

    fn to_bits(self) -> u8 {
        self.cast_unsigned()
    }

    fn from_bits(number: u8) -> i8 {
        number.cast_signed()
    }

    ghost one = { one_of_bits w8 };

    ghost admitted = { λ _ x h. small_8 x h };
}

impl SignedNumber for i16 {
    type Bits = u16;

    ghost bits = { cast_unsigned w16 };

    ghost fits = { FitsSigned w16 };

    fn to_bits(self) -> u16 {
        self.cast_unsigned()
    }

    fn from_bits(number: u16) -> i16 {
        number.cast_signed()
    }

    ghost one = { one_of_bits w16 };

    ghost admitted = { λ _ x h. small_16 x h };
}

impl SignedNumber for i32 {
    type Bits = u32;

    ghost bits = { cast_unsigned w32 };

    ghost fits = { FitsSigned w32 };

    fn to_bits(self) -> u32 {
        self.cast_unsigned()
    }

    fn from_bits(number: u32) -> i32 {
        number.cast_signed()
    }

    ghost one = { one_of_bits w32 };

    ghost admitted = { λ _ x h. small_32 x h };
}

impl SignedNumber for i64 {
    type Bits = u64;

    ghost bits = { cast_unsigned w64 };

    ghost fits = { FitsSigned w64 };

    fn to_bits(self) -> u64 {
        self.cast_unsigned()
    }

    fn from_bits(number: u64) -> i64 {
        number.cast_signed()
    }

    ghost one = { one_of_bits w64 };

    ghost admitted = { λ _ x h. small_64 x h };
}

impl SignedNumber for i128 {
    type Bits = u128;

    ghost bits = { cast_unsigned w128 };

    ghost fits = { FitsSigned w128 };

    fn to_bits(self) -> u128 {
        self.cast_unsigned()
    }

    fn from_bits(number: u128) -> i128 {
        number.cast_signed()
    }

    ghost one = { one_of_bits w128 };

    ghost admitted = { λ _ x h. small_128 x h };
}
