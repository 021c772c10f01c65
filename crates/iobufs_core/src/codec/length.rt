// Lengths as varints: seven bits a byte, lowest first.
ghost use Rattle.std.specs.Prelude.{◌≡◌, ℕ, ◌+◌, ◌/◌, ◌%◌, ◌<◌, ◌≤◌, ◌∷◌, ◌++◌, [], List, length, take, drop, slice_get, Some, Ok, Err, IfOk, IfErr};
ghost use Rattle.iobufs_core.specs.Spelling.{IsSpelledAt, spell};
ghost use Rattle.iobufs_core.specs.Wire.{IsLengthRead, IsNoLength};

use super::{Buf, BufMut, Error, RangeCfg};

/// A length that some bytes begin with, and how many bytes its varint has.
#[derive(Clone, Copy)]
pub(super) struct Spelled {
    pub value: usize,
    pub len: usize,
}

// The first `len` bytes are the varint of a length.
struct Spelling {
    bytes: [u8; 10],
    len: usize,
}

fn spelling_of(n: usize) -> Spelling
    ensures len { result.len ≡ length (spell n) }
    ensures few { result.len ≤ 10 }
    ensures bytes { take result.len result.bytes ≡ spell n }
{
    let mut bytes = [0; 10];
    let mut len = 0;
    let mut rest = n;
    while rest >= 128 {
        bytes[len] = (128 + rest % 128) as u8;
        rest /= 128;
        len += 1;
    }
    bytes[len] = rest as u8;
    Spelling {
        bytes,
        len: len + 1,
    }
}

/// How many bytes the varint of a length has: at most ten.
pub(super) fn spelled_len(n: usize) -> usize
    ensures value { result ≡ length (spell n) }
    ensures few { result ≤ 10 }
{
    let Spelling { bytes: _, len } = spelling_of(n);
    len
}

/// Puts the varint of a length.
pub(super) fn put_length<B: BufMut>(buf: &mut B, n: usize)
    requires { length (spell n) ≤ B.room buf.old }
    ensures { B.filled buf.old (spell n) buf.new }
{
    let Spelling { bytes, len } = spelling_of(n);
    buf.put_slice(&bytes[..len]);
}

/// The byte at offset `i` after the first `skip` bytes.
#[inline(always)]
fn byte_behind<B: Buf>(buf: &B, skip: usize, i: usize) -> Option<u8>
    requires { skip ≤ length (B.text buf.now) }
    ensures { result ≡ slice_get (drop skip (B.text buf.now)) i }
{
    if i < buf.remaining() - skip {
        buf.byte_at(skip + i)
    } else {
        None
    }
}

/// The length after the first `skip` bytes of a reader.
#[inline(always)]
fn length_at<B: Buf>(buf: &B, skip: usize) -> Result<Spelled, Error>
    requires { skip ≤ length (B.text buf.now) }
    ensures ok { IfOk result (λ s. IsSpelledAt (drop skip (B.text buf.now)) s.value
        × (s.len ≡ length (spell s.value))) }
    ensures err { IfErr result (IsNoLength (drop skip (B.text buf.now))) }
{
    let Some(byte) = buf.byte_at(skip) else {
        return Err(Error::EndOfBuffer);
    };
    if byte < 128 {
        return Ok(Spelled {
            value: usize::from(byte),
            len: 1,
        });
    }
    long_length_at(buf, skip, byte)
}

// Reads on after a first byte that says that others follow.
#[inline(never)]
fn long_length_at<B: Buf>(buf: &B, skip: usize, first: u8) -> Result<Spelled, Error>
    requires within { skip ≤ length (B.text buf.now) }
    requires first { slice_get (drop skip (B.text buf.now)) 0 ≡ Some first }
    requires goes_on { 128 ≤ first }
    ensures ok { IfOk result (λ s. IsSpelledAt (drop skip (B.text buf.now)) s.value
        × (s.len ≡ length (spell s.value))) }
    ensures err { IfErr result (IsNoLength (drop skip (B.text buf.now))) }
{
    let mut value = usize::from(first) - 128;
    let mut place = 128usize;
    for i in 1..9usize {
        let Some(byte) = byte_behind(buf, skip, i) else {
            return Err(Error::EndOfBuffer);
        };
        if byte < 128 {
            if byte == 0 {
                return Err(Error::InvalidVarint);
            }
            return Ok(Spelled {
                value: value + place * usize::from(byte),
                len: i + 1,
            });
        }
        value += place * usize::from(byte - 128);
        place *= 128;
    }
    match byte_behind(buf, skip, 9) {
        None => Err(Error::EndOfBuffer),
        Some(1) => Ok(Spelled {
            value: value + place,
            len: 10,
        }),
        Some(_) => Err(Error::InvalidVarint),
    }
}

/// The length after the first `skip` bytes of a reader, if it is in a range.
#[inline(always)]
pub(super) fn length_behind<B: Buf>(
    buf: &B,
    skip: usize,
    range: &RangeCfg,
) -> Result<Spelled, Error>
    requires { skip ≤ length (B.text buf.now) }
    ensures ok { IfOk result (λ s. IsLengthRead (drop skip (B.text buf.now)) range.now (Ok s.value)
        × (s.len ≡ length (spell s.value))) }
    ensures err { IfErr result (λ error. IsLengthRead (drop skip (B.text buf.now)) range.now (Err error)) }
{
    let found = length_at(buf, skip)?;
    if range.contains(found.value) {
        Ok(found)
    } else {
        Err(Error::InvalidLength(found.value))
    }
}

/// The length that a reader's bytes begin with, if it is in a range.
#[inline(always)]
pub(super) fn length_in<B: Buf>(buf: &B, range: &RangeCfg) -> Result<Spelled, Error>
    ensures ok { IfOk result (λ s. IsLengthRead (B.text buf.now) range.now (Ok s.value)
        × (s.len ≡ length (spell s.value))) }
    ensures err { IfErr result (λ error. IsLengthRead (B.text buf.now) range.now (Err error)) }
{
    length_behind(buf, 0, range)
}

/// Decodes the varint after the first `skip` bytes, and returns the number and the varint's size (own). All bytes stay.
/// Fails with `Error::EndOfBuffer`, `Error::InvalidVarint` or `Error::InvalidLength`, as reading a length does.
pub fn peek_length<B: Buf>(buf: &B, skip: usize, range: &RangeCfg) -> Result<(usize, usize), Error>
    requires { skip ≤ length (B.text buf.now) }
    ensures ok { IfOk result (λ s. IsLengthRead (drop skip (B.text buf.now)) range.now (Ok s.0)) }
    ensures len { IfOk result (λ s. s.1 ≡ length (spell s.0)) }
    ensures within { IfOk result (λ s. skip + s.1 ≤ length (B.text buf.now)) }
    ensures err { IfErr result (λ error. IsLengthRead (drop skip (B.text buf.now)) range.now (Err error)) }
{
    let found = length_behind(buf, skip, range)?;
    Ok((found.value, found.len))
}

/// Does nothing (own). Its contract has laws of varints. The varint of a number below 128 is the number as one byte.
/// Any other is the number's low seven bits with the top bit set, and then the varint of its other bits. No varint is a
/// prefix of another number's.
pub fn spelling_law(n: usize, m: usize)
    ensures last { n < 128 → spell n ≡ n ∷ [] }
    ensures more { 128 ≤ n → spell n ≡ (128 + n % 128) ∷ spell (n / 128) }
    ensures no_front { (x y : List ℕ) → spell n ++ x ≡ spell m ++ y → n ≡ m }
{
    let _ = (n, m);
}
