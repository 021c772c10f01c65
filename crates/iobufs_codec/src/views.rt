// Bytes: a view or a `Bytes` after its length, and an array as it is.
ghost use Rattle.std.specs.Prelude.{◌≡◌, ℕ, ◌+◌, ◌^◌, ◌<◌, ◌≤◌, length, take, drop, true, IfOk, IfErr, IsOk};
ghost use Rattle.iobufs_core.specs.MarkedText.{taken_view};
ghost use Rattle.iobufs_core.specs.Spelling.{spell};
ghost use Rattle.iobufs_core.specs.View.{static_mark};
ghost use Rattle.iobufs_core.specs.Wire.{HasView, IsViewFault, bytes_written};
ghost use Rattle.iobufs_codec.specs.Form.{HasStaticViewThere, IsCodecFault, IsMadeThere, IsShortThere, behind};
ghost use Rattle.iobufs_core.specs.Ranges.{in_range};
ghost use Rattle.iobufs_codec.specs.Forms.{bytes_form, array_form};
ghost use Rattle.std.proofs.Common.{ap};

use crate::{Fault, Look};
use bytes::Bytes;
use iobufs_core::buf::IoBuf;
use iobufs_core::codec::{Error, OwnedBytes, Peek, RangeCfg, peek_length};
use std::alloc::Global;

/// Decodes the bytes after a length, which stay.
fn look_bytes<T: OwnedBytes, B: Peek>(
    alloc: Global,
    buf: &B,
    skip: usize,
    range: &RangeCfg,
) -> Result<(T, usize), Fault>
    requires { skip ≤ length (B.text buf.now) }
    ensures found { IfOk result (λ found. IsMadeThere T.makes (B.marked buf.now) skip range.now found.0) }
    ensures len { IfOk result (λ found. found.1 ≡ length (bytes_written (T.bytes_of found.0))) }
    ensures within { IfOk result (λ found. skip + found.1 ≤ length (B.text buf.now)) }
    ensures fault { IfErr result (IsCodecFault (IsViewFault (behind (B.marked buf.now) skip) range.now)) }
    ensures static_text { (n : ℕ) → HasView (behind (B.marked buf.now) skip) range.now n
        → (taken_view (B.marked buf.now) (skip + length (spell n)) n).mark ≡ static_mark
        → T.is_free (taken_view (B.marked buf.now) (skip + length (spell n)) n) → IsOk result }
{
    let (n, len) = peek_length(buf, skip, range)?;
    let left = buf.remaining() - skip - len;
    if left < n {
        return Err(Fault::Codec(Error::EndOfBuffer));
    }
    let made = buf.peek_owned::<T>(alloc, skip + len, n)?;
    Ok((made, len + n))
}

/// The `N` bytes after the first `skip`.
pub(crate) fn bytes_at<const N: usize, B: Peek>(buf: &B, skip: usize) -> Result<[u8; N], Fault>
    requires { skip ≤ length (B.text buf.now) }
    ensures bytes { IfOk result (λ bytes. take N (drop skip (B.text buf.now)) ≡ bytes) }
    ensures within { IfOk result (λ _. skip + N ≤ length (B.text buf.now)) }
    ensures fault { IfErr result (IsCodecFault (IsShortThere (B.marked buf.now) skip N)) }
{
    if buf.remaining() - skip < N {
        return Err(Fault::Codec(Error::EndOfBuffer));
    }
    let mut bytes = [0; N];
    buf.peek_slice(skip, &mut bytes);
    Ok(bytes)
}

impl Look for IoBuf {
    type Cfg = RangeCfg;

    ghost is_found = { IsMadeThere (λ view made. made ≡ view) };

    ghost is_fault = { λ text skip range fault. IsCodecFault (IsViewFault (behind text skip) range) fault };

    ghost admits = { λ range view. (length view.bytes < 2 ^ 64) × (in_range range (length view.bytes) ≡ true) };

    ghost same = { λ x y. x.bytes ≡ y.bytes };

    /// Cannot fail with `Error::Memory` if the bytes are in one static chunk.
    fn look<B: Peek>(
        alloc: Global,
        buf: &B,
        skip: usize,
        range: &RangeCfg,
    ) -> Result<(IoBuf, usize), Fault>
        requires { skip ≤ length (B.text buf.now) }
        ensures found { IfOk result (λ found. IsMadeThere (λ view made. made ≡ view)
            (B.marked buf.now) skip range.now found.0) }
        ensures len { IfOk result (λ found. found.1 ≡ length (bytes_written found.0.bytes)) }
        ensures within { IfOk result (λ found. skip + found.1 ≤ length (B.text buf.now)) }
        ensures fault { IfErr result (IsCodecFault (IsViewFault (behind (B.marked buf.now) skip) range.now)) }
        ensures static_text { HasStaticViewThere (B.marked buf.now) skip range.now → IsOk result }
    {
        look_bytes(alloc, buf, skip, range)
    }

    ghost form = { bytes_form (λ view. view.bytes) (λ view made. made ≡ view) (λ view made is. ap (λ v. v.bytes) is) };
}

impl Look for Bytes {
    type Cfg = RangeCfg;

    ghost is_found = { IsMadeThere (λ view made. made ≡ view.bytes) };

    ghost is_fault = { λ text skip range fault. IsCodecFault (IsViewFault (behind text skip) range) fault };

    ghost admits = { λ range bytes. (length bytes < 2 ^ 64) × (in_range range (length bytes) ≡ true) };

    /// Cannot fail with `Error::Memory` if the bytes are in one static chunk.
    fn look<B: Peek>(
        alloc: Global,
        buf: &B,
        skip: usize,
        range: &RangeCfg,
    ) -> Result<(Bytes, usize), Fault>
        requires { skip ≤ length (B.text buf.now) }
        ensures found { IfOk result (λ found. IsMadeThere (λ view made. made ≡ view.bytes)
            (B.marked buf.now) skip range.now found.0) }
        ensures len { IfOk result (λ found. found.1 ≡ length (bytes_written found.0)) }
        ensures within { IfOk result (λ found. skip + found.1 ≤ length (B.text buf.now)) }
        ensures fault { IfErr result (IsCodecFault (IsViewFault (behind (B.marked buf.now) skip) range.now)) }
        ensures static_text { HasStaticViewThere (B.marked buf.now) skip range.now → IsOk result }
    {
        look_bytes(alloc, buf, skip, range)
    }

    ghost form = { bytes_form (λ bytes. bytes) (λ view made. made ≡ view.bytes) (λ view made is. is) };
}

impl<const N: usize> Look for [u8; N] {
    type Cfg = ();

    ghost is_found = { λ text skip _ bytes. (length bytes ≡ N) × (take N (drop skip text.bytes) ≡ bytes) };

    ghost is_fault = { λ text skip _ fault. IsCodecFault (IsShortThere text skip N) fault };

    ghost admits = { λ _ bytes. length bytes ≡ N };

    fn look<B: Peek>(
        _alloc: Global,
        buf: &B,
        skip: usize,
        _cfg: &(),
    ) -> Result<([u8; N], usize), Fault> {
        Ok((bytes_at(buf, skip)?, N))
    }

    ghost form = { array_form _ N };
}
