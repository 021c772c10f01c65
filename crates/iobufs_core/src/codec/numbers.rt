// Numbers as values of a fixed size, the highest byte first.
ghost use Rattle.std.specs.Prelude.{◌≡◌, ◌^◌, ◌<◌, [], ◌∷◌};
ghost use Rattle.std.specs.Int.{w16, w32, w64, w128, to_be_bytes};
ghost use Rattle.iobufs_core.specs.Dropping.{by_advance};
ghost use Rattle.iobufs_core.specs.Items.{put_item};
ghost use Rattle.iobufs_core.specs.Wire.{IsNumberRead};
ghost use Rattle.iobufs_core.specs.CodecLaws.{number_codec};
ghost use Rattle.iobufs_core.specs.NumberLaws.{form_8, form_16, form_32, form_64, form_128};
ghost use Rattle.iobufs_core.specs.ReadLaws.{number_alike};
ghost use Rattle.iobufs_core.specs.WireLaws.{joins-put};

use super::{Buf, BufMut, BufsMut, Codec, EncodeSize, Error, OwnedBuf, Read, Write};
use std::alloc::Global;

impl EncodeSize for u8 {
    ghost written = { λ n. n ∷ [] };

    ghost items = { λ n. put_item (n ∷ []) ∷ [] };

    fn encode_size(&self) -> Option<usize> {
        Some(1)
    }

    fn encode_inline_size(&self) -> usize {
        1
    }

    ghost joins_items = { λ n. joins-put (n ∷ []) };
}

impl Write for u8 {
    fn write<B: BufMut>(&self, buf: &mut B) {
        buf.put_u8(*self);
    }

    fn write_bufs<B: BufsMut>(&self, buf: &mut B) -> Result<(), Error> {
        buf.put_u8(*self);
        Ok(())
    }
}

impl Read for u8 {
    type Cfg = ();

    ghost is_read = { λ text _ answer. IsNumberRead (λ n. n ∷ []) 1 text.bytes answer };

    ghost dropping = { λ _. by_advance 1 ∷ [] };

    fn read_cfg<B: OwnedBuf>(_alloc: Global, buf: &mut B, _cfg: &()) -> Result<u8, Error> {
        let Some(byte) = buf.byte_at(0) else {
            return Err(Error::EndOfBuffer);
        };
        buf.advance(1);
        Ok(byte)
    }

    ghost alike = { λ s t _ a b e p q. number_alike (λ n. n ∷ []) 1 form_8 s t a b e p q };
}

impl Codec for u8 {
    ghost admits = { λ _ n. n < 2 ^ 8 };

    ghost form = { number_codec _ (λ n. n ∷ []) 1 form_8 };
}

impl EncodeSize for u16 {
    ghost written = { λ n. to_be_bytes w16 n };

    ghost items = { λ n. put_item (to_be_bytes w16 n) ∷ [] };

    fn encode_size(&self) -> Option<usize> {
        Some(2)
    }

    fn encode_inline_size(&self) -> usize {
        2
    }

    ghost joins_items = { λ n. joins-put (to_be_bytes w16 n) };
}

impl Write for u16 {
    fn write<B: BufMut>(&self, buf: &mut B) {
        buf.put_u16(*self);
    }

    fn write_bufs<B: BufsMut>(&self, buf: &mut B) -> Result<(), Error> {
        buf.put_u16(*self);
        Ok(())
    }
}

impl Read for u16 {
    type Cfg = ();

    ghost is_read = { λ text _ answer. IsNumberRead (λ n. to_be_bytes w16 n) 2 text.bytes answer };

    ghost dropping = { λ _. by_advance 2 ∷ [] };

    fn read_cfg<B: OwnedBuf>(_alloc: Global, buf: &mut B, _cfg: &()) -> Result<u16, Error> {
        let mut bytes = [0; 2];
        if buf.try_copy_to_slice(&mut bytes).is_err() {
            return Err(Error::EndOfBuffer);
        }
        Ok(u16_of(bytes))
    }

    ghost alike = { λ s t _ a b e p q. number_alike (to_be_bytes w16) 2 form_16 s t a b e p q };
}

impl Codec for u16 {
    ghost admits = { λ _ n. n < 2 ^ 16 };

    ghost form = { number_codec _ (to_be_bytes w16) 2 form_16 };
}

impl EncodeSize for u32 {
    ghost written = { λ n. to_be_bytes w32 n };

    ghost items = { λ n. put_item (to_be_bytes w32 n) ∷ [] };

    fn encode_size(&self) -> Option<usize> {
        Some(4)
    }

    fn encode_inline_size(&self) -> usize {
        4
    }

    ghost joins_items = { λ n. joins-put (to_be_bytes w32 n) };
}

impl Write for u32 {
    fn write<B: BufMut>(&self, buf: &mut B) {
        buf.put_u32(*self);
    }

    fn write_bufs<B: BufsMut>(&self, buf: &mut B) -> Result<(), Error> {
        buf.put_u32(*self);
        Ok(())
    }
}

impl Read for u32 {
    type Cfg = ();

    ghost is_read = { λ text _ answer. IsNumberRead (λ n. to_be_bytes w32 n) 4 text.bytes answer };

    ghost dropping = { λ _. by_advance 4 ∷ [] };

    fn read_cfg<B: OwnedBuf>(_alloc: Global, buf: &mut B, _cfg: &()) -> Result<u32, Error> {
        let mut bytes = [0; 4];
        if buf.try_copy_to_slice(&mut bytes).is_err() {
            return Err(Error::EndOfBuffer);
        }
        Ok(u32_of(bytes))
    }

    ghost alike = { λ s t _ a b e p q. number_alike (to_be_bytes w32) 4 form_32 s t a b e p q };
}

impl Codec for u32 {
    ghost admits = { λ _ n. n < 2 ^ 32 };

    ghost form = { number_codec _ (to_be_bytes w32) 4 form_32 };
}

impl EncodeSize for u64 {
    ghost written = { λ n. to_be_bytes w64 n };

    ghost items = { λ n. put_item (to_be_bytes w64 n) ∷ [] };

    fn encode_size(&self) -> Option<usize> {
        Some(8)
    }

    fn encode_inline_size(&self) -> usize {
        8
    }

    ghost joins_items = { λ n. joins-put (to_be_bytes w64 n) };
}

impl Write for u64 {
    fn write<B: BufMut>(&self, buf: &mut B) {
        buf.put_u64(*self);
    }

    fn write_bufs<B: BufsMut>(&self, buf: &mut B) -> Result<(), Error> {
        buf.put_u64(*self);
        Ok(())
    }
}

impl Read for u64 {
    type Cfg = ();

    ghost is_read = { λ text _ answer. IsNumberRead (λ n. to_be_bytes w64 n) 8 text.bytes answer };

    ghost dropping = { λ _. by_advance 8 ∷ [] };

    fn read_cfg<B: OwnedBuf>(_alloc: Global, buf: &mut B, _cfg: &()) -> Result<u64, Error> {
        let mut bytes = [0; 8];
        if buf.try_copy_to_slice(&mut bytes).is_err() {
            return Err(Error::EndOfBuffer);
        }
        Ok(u64_of(bytes))
    }

    ghost alike = { λ s t _ a b e p q. number_alike (to_be_bytes w64) 8 form_64 s t a b e p q };
}

impl Codec for u64 {
    ghost admits = { λ _ n. n < 2 ^ 64 };

    ghost form = { number_codec _ (to_be_bytes w64) 8 form_64 };
}

impl EncodeSize for u128 {
    ghost written = { λ n. to_be_bytes w128 n };

    ghost items = { λ n. put_item (to_be_bytes w128 n) ∷ [] };

    fn encode_size(&self) -> Option<usize> {
        Some(16)
    }

    fn encode_inline_size(&self) -> usize {
        16
    }

    ghost joins_items = { λ n. joins-put (to_be_bytes w128 n) };
}

impl Write for u128 {
    fn write<B: BufMut>(&self, buf: &mut B) {
        buf.put_u128(*self);
    }

    fn write_bufs<B: BufsMut>(&self, buf: &mut B) -> Result<(), Error> {
        buf.put_u128(*self);
        Ok(())
    }
}

impl Read for u128 {
    type Cfg = ();

    ghost is_read = { λ text _ answer. IsNumberRead (λ n. to_be_bytes w128 n) 16 text.bytes answer };

    ghost dropping = { λ _. by_advance 16 ∷ [] };

    fn read_cfg<B: OwnedBuf>(_alloc: Global, buf: &mut B, _cfg: &()) -> Result<u128, Error> {
        let mut bytes = [0; 16];
        if buf.try_copy_to_slice(&mut bytes).is_err() {
            return Err(Error::EndOfBuffer);
        }
        Ok(u128_of(bytes))
    }

    ghost alike = { λ s t _ a b e p q. number_alike (to_be_bytes w128) 16 form_128 s t a b e p q };
}

impl Codec for u128 {
    ghost admits = { λ _ n. n < 2 ^ 128 };

    ghost form = { number_codec _ (to_be_bytes w128) 16 form_128 };
}

// The number with these bytes.
fn u16_of(bytes: [u8; 2]) -> u16
    ensures { to_be_bytes w16 result ≡ bytes }
{
    u16::from_be_bytes(bytes)
}

// The number with these bytes.
fn u32_of(bytes: [u8; 4]) -> u32
    ensures { to_be_bytes w32 result ≡ bytes }
{
    u32::from_be_bytes(bytes)
}

// The number with these bytes.
fn u64_of(bytes: [u8; 8]) -> u64
    ensures { to_be_bytes w64 result ≡ bytes }
{
    u64::from_be_bytes(bytes)
}

// The number with these bytes.
fn u128_of(bytes: [u8; 16]) -> u128
    ensures { to_be_bytes w128 result ≡ bytes }
{
    u128::from_be_bytes(bytes)
}
