// Numbers of a fixed size, and lengths.
ghost use Rattle.std.specs.Prelude.{◌≡◌, ◌^◌, ◌<◌, [], ◌∷◌, drop, true, Ok, Err};
ghost use Rattle.std.specs.Int.{w16, w32, w64, w128, to_be_bytes};
ghost use Rattle.iobufs_core.specs.Wire.{IsNumberRead, IsLengthRead};
ghost use Rattle.iobufs_codec.specs.Form.{IsCodecFault};
ghost use Rattle.iobufs_core.specs.NumberLaws.{form_8, form_16, form_32, form_64, form_128};
ghost use Rattle.iobufs_core.specs.Ranges.{in_range};
ghost use Rattle.iobufs_codec.specs.Forms.{number_form, length_form};

use crate::views::bytes_at;
use crate::{Fault, Look};
use iobufs_core::codec::{Peek, RangeCfg, peek_length};
use std::alloc::Global;

impl Look for u8 {
    type Cfg = ();

    ghost is_found = { λ text skip _ n. IsNumberRead (λ n. n ∷ []) 1 (drop skip text.bytes) (Ok n) };

    ghost is_fault = { λ text skip _ fault. IsCodecFault
        (λ error. IsNumberRead (λ n. n ∷ []) 1 (drop skip text.bytes) (Err error)) fault };

    ghost admits = { λ _ n. n < 2 ^ 8 };

    fn look<B: Peek>(
        _alloc: Global,
        buf: &B,
        skip: usize,
        _cfg: &(),
    ) -> Result<(u8, usize), Fault> {
        let bytes: [u8; 1] = bytes_at(buf, skip)?;
        let [byte] = bytes;
        Ok((byte, 1))
    }

    ghost form = { number_form _ (λ n. n ∷ []) 1 form_8 };
}

impl Look for u16 {
    type Cfg = ();

    ghost is_found = { λ text skip _ n. IsNumberRead (to_be_bytes w16) 2 (drop skip text.bytes) (Ok n) };

    ghost is_fault = { λ text skip _ fault. IsCodecFault
        (λ error. IsNumberRead (to_be_bytes w16) 2 (drop skip text.bytes) (Err error)) fault };

    ghost admits = { λ _ n. n < 2 ^ 16 };

    fn look<B: Peek>(
        _alloc: Global,
        buf: &B,
        skip: usize,
        _cfg: &(),
    ) -> Result<(u16, usize), Fault> {
        Ok((u16_of(bytes_at(buf, skip)?), 2))
    }

    ghost form = { number_form _ (to_be_bytes w16) 2 form_16 };
}

impl Look for u32 {
    type Cfg = ();

    ghost is_found = { λ text skip _ n. IsNumberRead (to_be_bytes w32) 4 (drop skip text.bytes) (Ok n) };

    ghost is_fault = { λ text skip _ fault. IsCodecFault
        (λ error. IsNumberRead (to_be_bytes w32) 4 (drop skip text.bytes) (Err error)) fault };

    ghost admits = { λ _ n. n < 2 ^ 32 };

    fn look<B: Peek>(
        _alloc: Global,
        buf: &B,
        skip: usize,
        _cfg: &(),
    ) -> Result<(u32, usize), Fault> {
        Ok((u32_of(bytes_at(buf, skip)?), 4))
    }

    ghost form = { number_form _ (to_be_bytes w32) 4 form_32 };
}

impl Look for u64 {
    type Cfg = ();

    ghost is_found = { λ text skip _ n. IsNumberRead (to_be_bytes w64) 8 (drop skip text.bytes) (Ok n) };

    ghost is_fault = { λ text skip _ fault. IsCodecFault
        (λ error. IsNumberRead (to_be_bytes w64) 8 (drop skip text.bytes) (Err error)) fault };

    ghost admits = { λ _ n. n < 2 ^ 64 };

    fn look<B: Peek>(
        _alloc: Global,
        buf: &B,
        skip: usize,
        _cfg: &(),
    ) -> Result<(u64, usize), Fault> {
        Ok((u64_of(bytes_at(buf, skip)?), 8))
    }

    ghost form = { number_form _ (to_be_bytes w64) 8 form_64 };
}

impl Look for u128 {
    type Cfg = ();

    ghost is_found = { λ text skip _ n. IsNumberRead (to_be_bytes w128) 16 (drop skip text.bytes) (Ok n) };

    ghost is_fault = { λ text skip _ fault. IsCodecFault
        (λ error. IsNumberRead (to_be_bytes w128) 16 (drop skip text.bytes) (Err error)) fault };

    ghost admits = { λ _ n. n < 2 ^ 128 };

    fn look<B: Peek>(
        _alloc: Global,
        buf: &B,
        skip: usize,
        _cfg: &(),
    ) -> Result<(u128, usize), Fault> {
        Ok((u128_of(bytes_at(buf, skip)?), 16))
    }

    ghost form = { number_form _ (to_be_bytes w128) 16 form_128 };
}

impl Look for usize {
    type Cfg = RangeCfg;

    ghost is_found = { λ text skip range n. IsLengthRead (drop skip text.bytes) range (Ok n) };

    ghost is_fault = { λ text skip range fault. IsCodecFault
        (λ error. IsLengthRead (drop skip text.bytes) range (Err error)) fault };

    ghost admits = { λ range n. (n < 2 ^ 64) × (in_range range n ≡ true) };

    fn look<B: Peek>(
        _alloc: Global,
        buf: &B,
        skip: usize,
        range: &RangeCfg,
    ) -> Result<(usize, usize), Fault> {
        Ok(peek_length(buf, skip, range)?)
    }

    ghost form = { length_form };
}

// The number with these bytes.
fn u16_of(bytes: [u8; 2]) -> u16
    ensures { to_be_bytes w16 result ≡ bytes }
{
    u16::from_be_bytes(bytes)
}

// The number with these bytes.
fn u32_of(bytes: [u8; 4]) -> u32
    ensures { to_be_bytes w32 result ≡ bytes }
{
    u32::from_be_bytes(bytes)
}

// The number with these bytes.
fn u64_of(bytes: [u8; 8]) -> u64
    ensures { to_be_bytes w64 result ≡ bytes }
{
    u64::from_be_bytes(bytes)
}

// The number with these bytes.
fn u128_of(bytes: [u8; 16]) -> u128
    ensures { to_be_bytes w128 result ≡ bytes }
{
    u128::from_be_bytes(bytes)
}
