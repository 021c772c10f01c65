// How the length before a body is written and read.
ghost use Rattle.std.specs.Prelude.{◌≡◌, ◌≢◌, ◌≤◌, ◌<◌, ◌+◌, ◌-◌, ◌++◌, [], ℕ, List, length, nat_lt, take, drop, true, false, MatchOption, IfOk, IfErr, IfSome, IfNone, OnOk, IsOkUnless};
ghost use Rattle.iobufs_core.specs.PartLaws.{IsPut};
ghost use Rattle.iobufs_frames.specs.Frames.{CanBeSent, HasFrameSize, PrependsLength, TakesWhole, header_written};
ghost use Rattle.iobufs_frames.specs.Prefixes.{HasNoLengthAt, HasNoLengthIn, IsLengthAt, IsOpenAt, IsOpenIn, IsSeenAt, IsSeenIn, admits, bare, own_view, prefix_limit, prefix_written, width_size};

use crate::heads::Head;
use crate::shown::Shown;
use iobufs::bufs::IoBufs;
use iobufs_core::buf::IoBuf;
use iobufs_core::codec::{Buf, BufError, BufMut, Error, RangeCfg, Refused, Write, peek_length};
use std::alloc::Global;

/// The size of a length that is written as a number.
#[derive(Clone, Copy, Debug, PartialEq, Eq)]
pub enum Width {
    U8,
    U16,
    U24,
    U32,
    U64,
}

/// Which byte of a number comes first.
#[derive(Clone, Copy, Debug, PartialEq, Eq)]
pub enum ByteOrder {
    /// The highest.
    Big,
    /// The lowest.
    Little,
}

/// How the length before a body is written.
#[derive(Clone, Copy, Debug, PartialEq, Eq)]
pub enum Prefix {
    /// Seven bits a byte, the lowest first, the top bit set on all bytes but the last (unsigned LEB128).
    Spelled,
    /// As a number of this size.
    Fixed(Width, ByteOrder),
}

/// Where a frame's length is in its header, how it is written, and what it counts.
#[derive(Clone, Copy, Debug, PartialEq, Eq)]
pub struct Layout {
    /// How many bytes are before the length.
    pub before: u8,
    /// How the length is written.
    pub prefix: Prefix,
    /// How many bytes are between the length and the body.
    pub after: u8,
    /// How many bytes the length counts besides those of the body: 0 if it counts the body alone.
    pub counts: u8,
}

impl Width {
    /// Returns how many bytes a length of this width has.
    pub fn size(self) -> usize
        ensures { result ≡ width_size self }
    {
        match self {
            Width::U8 => 1,
            Width::U16 => 2,
            Width::U24 => 3,
            Width::U32 => 4,
            Width::U64 => 8,
        }
    }
}

/// A length that was decoded, and how many bytes it has.
#[derive(Clone, Copy)]
pub(crate) struct Length {
    pub(crate) value: usize,
    pub(crate) len: usize,
}

/// How many bytes a header has, and its body.
#[derive(Clone, Copy)]
pub(crate) struct Sizes {
    pub(crate) header: usize,
    pub(crate) body: usize,
}

// The first `N` bytes after `skip`, if there are `N`.
#[inline(always)]
fn front<B: Buf, const N: usize>(buf: &B, skip: u8) -> Option<[u8; N]>
    ensures { MatchOption result (length (drop skip (B.text buf.now)) < N)
        (λ bytes. (N ≤ length (drop skip (B.text buf.now))) × (bytes ≡ take N (drop skip (B.text buf.now)))) }
{
    let mut bytes = [0; N];
    for i in 0..N {
        bytes[i] = buf.byte_at((skip as usize).checked_add(i)?)?;
    }
    Some(bytes)
}

// The big-endian number after `skip` bytes.
#[inline(always)]
fn big_in<B: Buf>(buf: &B, skip: u8, width: Width) -> Option<usize>
    ensures { MatchOption result (IsOpenAt (Prefix.Fixed width ByteOrder.Big) (drop skip (B.text buf.now)))
        (IsLengthAt (Prefix.Fixed width ByteOrder.Big) (drop skip (B.text buf.now))) }
{
    match width {
        Width::U8 => Some(u8::from_be_bytes(front(buf, skip)?) as usize),
        Width::U16 => Some(u16::from_be_bytes(front(buf, skip)?) as usize),
        Width::U24 => {
            let [a, b, c]: [u8; 3] = front(buf, skip)?;
            Some(u32::from_be_bytes([0, a, b, c]) as usize)
        }
        Width::U32 => Some(u32::from_be_bytes(front(buf, skip)?) as usize),
        Width::U64 => Some(u64::from_be_bytes(front(buf, skip)?) as usize),
    }
}

// The little-endian number after `skip` bytes.
#[inline(always)]
fn little_in<B: Buf>(buf: &B, skip: u8, width: Width) -> Option<usize>
    ensures { MatchOption result (IsOpenAt (Prefix.Fixed width ByteOrder.Little) (drop skip (B.text buf.now)))
        (IsLengthAt (Prefix.Fixed width ByteOrder.Little) (drop skip (B.text buf.now))) }
{
    match width {
        Width::U8 => Some(u8::from_le_bytes(front(buf, skip)?) as usize),
        Width::U16 => Some(u16::from_le_bytes(front(buf, skip)?) as usize),
        Width::U24 => {
            let [a, b, c]: [u8; 3] = front(buf, skip)?;
            Some(u32::from_le_bytes([a, b, c, 0]) as usize)
        }
        Width::U32 => Some(u32::from_le_bytes(front(buf, skip)?) as usize),
        Width::U64 => Some(u64::from_le_bytes(front(buf, skip)?) as usize),
    }
}

// The number after `skip` bytes, if all its bytes are there.
#[inline(always)]
fn number_in<B: Buf>(buf: &B, skip: u8, width: Width, order: ByteOrder) -> Option<Length>
    ensures found { IfSome result (λ l. IsSeenAt (Prefix.Fixed width order) (drop skip
        (B.text buf.now)) l.value l.len) }
    ensures none { IfNone result (IsOpenAt (Prefix.Fixed width order) (drop skip (B.text buf.now))) }
{
    let value = match order {
        ByteOrder::Big => big_in(buf, skip, width)?,
        ByteOrder::Little => little_in(buf, skip, width)?,
    };
    Some(Length {
        value,
        len: width.size(),
    })
}

// The varint after `skip` bytes, if it is whole.
#[inline(always)]
fn varint_in<B: Buf>(buf: &B, skip: u8) -> Result<Option<Length>, Error>
    ensures found { IfOk result (λ found. IfSome found (λ l. IsSeenAt Prefix.Spelled (drop skip
        (B.text buf.now)) l.value l.len)) }
    ensures none { IfOk result (λ found. IfNone found (HasNoLengthAt Prefix.Spelled (drop skip (B.text buf.now))
        × IsOpenAt Prefix.Spelled (drop skip (B.text buf.now)))) }
    ensures bad { IfErr result (λ error. (error ≡ Error.InvalidVarint)
        × HasNoLengthAt Prefix.Spelled (drop skip (B.text buf.now))
        × (IsOpenAt Prefix.Spelled (drop skip (B.text buf.now)) → ⊥)) }
{
    if buf.remaining() < skip as usize {
        return Ok(None);
    }
    let all = RangeCfg {
        lo: 0,
        hi: usize::MAX,
    };
    match peek_length(buf, skip as usize, &all) {
        Ok((value, len)) => Ok(Some(Length { value, len })),
        Err(Error::EndOfBuffer) => Ok(None),
        Err(_) => Err(Error::InvalidVarint),
    }
}

/// Returns how many bytes a header and its body have, if `len` bytes contain both.
#[inline(always)]
pub(crate) fn sizes_of(
    layout: Layout,
    found: Length,
    len: usize,
    range: &RangeCfg,
) -> Result<Option<Sizes>, Error>
    ensures inside { OnOk result (admits layout range.now found.value ≡ true) }
    ensures header { IfOk result (λ sizes. IfSome sizes (λ s. s.header ≡ layout.before + found.len + layout.after)) }
    ensures body { IfOk result (λ sizes. IfSome sizes (λ s. s.body + layout.counts ≡ found.value)) }
    ensures whole { IfOk result (λ sizes. IfSome sizes (λ s. s.header + s.body ≤ len)) }
    ensures none { IfOk result (λ sizes. IfNone sizes
        (len < layout.before + found.len + layout.after + (found.value - layout.counts))) }
    ensures outside { IfErr result (λ error. (error ≡ Error.InvalidLength found.value)
        × (admits layout range.now found.value ≡ false)) }
{
    let (counts, after) = (layout.counts as usize, layout.after as usize);
    if found.value < counts || !range.contains(found.value - counts) {
        return Err(Error::InvalidLength(found.value));
    }
    let body = found.value - counts;
    let around = layout.before as usize + after;
    if len < around || len - around < found.len || len - around - found.len < body {
        return Ok(None);
    }
    Ok(Some(Sizes {
        header: around + found.len,
        body,
    }))
}

impl Prefix {
    /// Returns whether a length can be written in this form.
    pub fn fits(self, n: usize) -> bool
        ensures { result ≡ nat_lt n (prefix_limit self) }
    {
        match self {
            Prefix::Fixed(Width::U8, _) => n <= u8::MAX as usize,
            Prefix::Fixed(Width::U16, _) => n <= u16::MAX as usize,
            Prefix::Fixed(Width::U24, _) => n < 1 << 24,
            Prefix::Fixed(Width::U32, _) => n <= u32::MAX as usize,
            Prefix::Fixed(Width::U64, _) | Prefix::Spelled => true,
        }
    }

    /// Encodes a length. Allocates nothing.
    #[inline(always)]
    pub fn head(self, n: usize) -> Head
        requires { n < prefix_limit self }
        ensures { result.filled ≡ prefix_written self n }
    {
        let mut head = Head::new();
        self.put_length(n, &mut head);
        head
    }

    /// Encodes a length into a buffer of its own.
    /// Returns `BufError::Memory` if allocation fails.
    pub fn written(self, alloc: Global, n: usize) -> Result<IoBuf, BufError>
        requires { n < prefix_limit self }
        ensures view { IfOk result (λ view. view ≡ own_view (prefix_written self n)) }
        ensures memory { IsOkUnless result BufError.Memory }
    {
        IoBuf::copy_from_slice(alloc, self.head(n).as_slice())
    }

    // Encodes a length after what is there.
    #[inline(always)]
    fn put_length(self, n: usize, head: &mut Head)
        requires { (n < prefix_limit self) × (10 ≤ head.old.spare) }
        ensures { IsPut head.old (prefix_written self n) head.new }
    {
        match self {
            Prefix::Spelled if n < 128 => head.put_u8(n as u8),
            Prefix::Spelled => n.write(head),
            Prefix::Fixed(width, ByteOrder::Big) => {
                head.put_slice(&(n as u64).to_be_bytes()[8 - width.size()..]);
            }
            Prefix::Fixed(width, ByteOrder::Little) => {
                head.put_slice(&(n as u64).to_le_bytes()[..width.size()]);
            }
        }
    }
}

impl From<Prefix> for Layout {
    ghost from_gives = { λ prefix layout. layout ≡ bare prefix };

    fn from(prefix: Prefix) -> Layout {
        Layout::bare(prefix)
    }
}

// How many bytes a header that is written has at most, besides its length.
const MOST: usize = 22;

impl Layout {
    /// Returns the layout of a header that is its length alone, which counts the body.
    pub fn bare(prefix: Prefix) -> Layout
        ensures { result ≡ bare prefix }
    {
        Layout {
            before: 0,
            prefix,
            after: 0,
            counts: 0,
        }
    }

    /// Returns the length in the header at the front, if all its bytes are there. Fails with `Error::InvalidVarint`, of
    /// varints alone.
    #[inline(always)]
    pub(crate) fn length_in<B: Buf>(self, buf: &B) -> Result<Option<Length>, Error>
        ensures found { IfOk result (λ found. IfSome found (λ l. IsSeenIn self (B.text buf.now) l.value l.len)) }
        ensures none { IfOk result (λ found. IfNone found (HasNoLengthIn self (B.text buf.now)
            × IsOpenIn self (B.text buf.now))) }
        ensures bad { IfErr result (λ error. (error ≡ Error.InvalidVarint) × HasNoLengthIn self (B.text buf.now)
            × (IsOpenIn self (B.text buf.now) → ⊥)
            × (self.prefix ≡ Prefix.Spelled)) }
    {
        match self.prefix {
            Prefix::Spelled => varint_in(buf, self.before),
            Prefix::Fixed(width, order) => Ok(number_in(buf, self.before, width, order)),
        }
    }

    /// Returns how many bytes the first frame has in its header, and in all; `None` if it is not whole. Fails with
    /// `Error::InvalidVarint` or `Error::InvalidLength` if no further bytes can make it whole.
    #[inline(always)]
    pub fn frame_in(self, bytes: &[u8], range: &RangeCfg) -> Result<Option<(usize, usize)>, Error>
        ensures first { (left : List ℕ) × TakesWhole (λ n. take n bytes.now) self range.now bytes.now result left }
        ensures fits { IfOk result (λ found. IfSome found (λ sizes. (sizes.0 ≤ sizes.1)
            × (sizes.1 ≤ length bytes.now))) }
        ensures memory { IfErr result (λ error. error ≢ Error.Memory) }
    {
        let Some(length) = self.length_in(&Shown { bytes })? else {
            return Ok(None);
        };
        let Some(parts) = sizes_of(self, length, bytes.len(), range)? else {
            return Ok(None);
        };
        Ok(Some((parts.header, parts.header + parts.body)))
    }

    /// How many bytes a frame with this length has, its header among them; at most `usize::MAX`. No contract says so:
    /// it is only a guess of a size.
    pub(crate) fn whole_of(self, found: Length) -> usize {
        let around = self.before as usize + self.after as usize;
        let body = found.value.saturating_sub(self.counts as usize);
        found.len.saturating_add(body).saturating_add(around)
    }

    // Encodes a header whose length is this number.
    #[inline(always)]
    fn header(self, before: &[u8], after: &[u8], value: usize) -> Head
        requires { (length before.now + length after.now ≤ 22) × (value < prefix_limit self.prefix) }
        ensures { result.filled ≡ before.now ++ (prefix_written self.prefix value ++ after.now) }
    {
        if before.is_empty() && after.is_empty() {
            return self.prefix.head(value);
        }
        let mut head = Head::new();
        head.put_slice(before);
        self.prefix.put_length(value, &mut head);
        head.put_slice(after);
        head
    }

    // Encodes the header of a body of `n` bytes, if such a frame has a size (`HasFrameSize`).
    #[inline(always)]
    fn header_of(self, before: &[u8], after: &[u8], n: usize) -> Option<Head>
        ensures { MatchOption result (HasFrameSize self before.now after.now n → ⊥)
            (λ head. HasFrameSize self before.now after.now n
            × ((body : List ℕ) → length body ≡ n
            → head.filled ≡ header_written self (record { before = before.now; after = after.now; body = body }))) }
    {
        if before.len() != self.before as usize || after.len() != self.after as usize {
            return None;
        }
        if before.len() + after.len() > MOST {
            return None;
        }
        let value = n.checked_add(self.counts as usize)?;
        if !self.prefix.fits(value) {
            return None;
        }
        let head = self.header(before, after, value);
        if usize::MAX - n < head.len() {
            return None;
        }
        Some(head)
    }

    /// Encodes the header of a body of `n` bytes; `None` if such a frame can't be sent. The causes: `n` is outside the
    /// range; the length doesn't fit (see `Prefix::fits`); `before` or `after` has another number of bytes than the
    /// layout says; both have more than 22 in all; the frame is longer than `usize::MAX`.
    #[inline(always)]
    pub fn header_within(
        self,
        before: &[u8],
        after: &[u8],
        n: usize,
        range: &RangeCfg,
    ) -> Option<Head>
        ensures { MatchOption result (CanBeSent self range.now before.now after.now n → ⊥)
            (λ head. CanBeSent self range.now before.now after.now n
            × ((body : List ℕ) → length body ≡ n
            → head.filled ≡ header_written self (record { before = before.now; after = after.now; body = body }))) }
    {
        if !range.contains(n) {
            return None;
        }
        self.header_of(before, after, n)
    }
}

/// Prepends its length to a body, whose chunks aren't copied. Fails with `BufError::TooLong`, before it allocates, if
/// the length doesn't fit (see `Prefix::fits`) or the frame is longer than `usize::MAX`. Fails with `BufError::Memory`
/// if allocation fails.
pub fn framed_with(alloc: Global, prefix: Prefix, body: IoBufs) -> Result<IoBufs, Refused<IoBufs>>
    ensures { PrependsLength (bare prefix) [] [] body result }
{
    framed_with_layout(alloc, Layout::bare(prefix), &[], &[], body)
}

/// Prepends its header to a body, as `framed_with` does its length. Fails as `framed_with`, and with
/// `BufError::TooLong` also if the layout has another number of bytes before the length or after it, or more than 22 in
/// all.
pub fn framed_with_layout(
    alloc: Global,
    layout: Layout,
    before: &[u8],
    after: &[u8],
    mut body: IoBufs,
) -> Result<IoBufs, Refused<IoBufs>>
    ensures { PrependsLength layout before.now after.now body result }
{
    let Some(head) = layout.header_of(before, after, body.len()) else {
        let cause = BufError::TooLong;
        return Err(Refused { cause, value: body });
    };
    let cause = BufError::Memory;
    let Ok(header) = IoBuf::copy_from_slice(alloc, head.as_slice()) else {
        return Err(Refused { cause, value: body });
    };
    let Ok(()) = body.prepend(alloc, header) else {
        return Err(Refused { cause, value: body });
    };
    Ok(body)
}
