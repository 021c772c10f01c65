// The trait of values that are decoded without consuming.
ghost use Rattle.std.specs.Prelude.{◌≡◌, ◌⊎◌, ℕ, ◌+◌, ◌<◌, ◌≤◌, ◌^◌, ◌++◌, List, length, IfOk, IfErr, OnErr};
ghost use Rattle.iobufs_core.specs.MarkedText.{MarkedText};
ghost use Rattle.iobufs_codec.specs.Form.{IsDecodedBack, IsForm, IsReadBackWhole};
ghost use Rattle.iobufs_codec.specs.declared.fault.Fault.{Fault as AnyFault};
ghost use Rattle.iobufs_codec.specs.declared.fault.Fault.TheVariants.{ExtraData};

use crate::Fault;
use iobufs_core::codec::{EncodeSize, Peek};
use std::alloc::Global;

/// A value that is decoded without consuming, so that a value of several parts is read whole or not at all (own). The
/// codec's `Read` consumes part by part.
pub trait Look: EncodeSize + Sized {
    /// The configuration: what is required of the value.
    type Cfg;

    // A value follows the first bytes; or why none does.
    ghost is_found: { MarkedText → ℕ → Self.Cfg → Self → Type 0 };

    ghost is_fault: { MarkedText → ℕ → Self.Cfg → AnyFault → Type 0 };

    // Which values a configuration admits, and which are the same, wherever their bytes are kept.
    ghost admits: { Self.Cfg → Self → Type 0 };

    ghost same: { Self → Self → Type 0 } = { λ x y. x ≡ y };

    /// Decodes the value after the first `skip` bytes, and returns it with its number of bytes. All bytes stay. Fails
    /// if the bytes are no such value, or if allocation fails.
    fn look<B: Peek>(
        alloc: Global,
        buf: &B,
        skip: usize,
        cfg: &Self::Cfg,
    ) -> Result<(Self, usize), Fault>
        requires { skip ≤ length (B.text buf.now) }
        ensures found { IfOk result (λ found. is_found (B.marked buf.now) skip cfg.now found.0) }
        ensures len { IfOk result (λ found. found.1 ≡ length (Self.written found.0)) }
        ensures within { IfOk result (λ found. skip + found.1 ≤ length (B.text buf.now)) }
        ensures fault { IfErr result (is_fault (B.marked buf.now) skip cfg.now) };

    ghost form: { IsForm Self Self.Cfg Self.written same admits is_found is_fault };

    /// Reads the value from the front, whole. If it fails, `buf` is unchanged.
    final fn read_whole<B: Peek>(alloc: Global, buf: &mut B, cfg: &Self::Cfg) -> Result<Self, Fault>
        ensures found { IfOk result (is_found (B.marked buf.old) 0 cfg.now) }
        ensures left { IfOk result (λ value. buf.new ≡ B.advanced buf.old (length (Self.written value))) }
        ensures bytes { IfOk result (λ value. B.text buf.old ≡ Self.written value ++ B.text buf.new) }
        ensures back { (value : Self) (rest : List ℕ) → admits cfg.now value
            → B.text buf.old ≡ Self.written value ++ rest
            → IsReadBackWhole same value rest (B.text buf.new) result }
        ensures fault { IfErr result (is_fault (B.marked buf.old) 0 cfg.now) }
        ensures unchanged { OnErr result (buf.new ≡ buf.old) }
    {
        let (value, len) = Self::look(alloc, buf, 0, cfg)?;
        buf.advance(len);
        Ok(value)
    }

    /// Decodes all bytes as one value (`decode_cfg`). Fails as `look` does, or with `Fault::ExtraData` and the number
    /// of bytes that remain.
    final fn decode_cfg<B: Peek>(alloc: Global, buf: &B, cfg: &Self::Cfg) -> Result<Self, Fault>
    where
        Self: Drop,
        ensures found { IfOk result (is_found (B.marked buf.now) 0 cfg.now) }
        ensures whole { IfOk result (λ value. B.text buf.now ≡ Self.written value) }
        ensures back { (value : Self) → admits cfg.now value → B.text buf.now ≡ Self.written value
            → IsDecodedBack same value result }
        ensures fault { IfErr result (λ fault. is_fault (B.marked buf.now) 0 cfg.now fault
            ⊎ ((value : Self) × (n : ℕ) × (fault ≡ ExtraData n)
            × (is_found (B.marked buf.now) 0 cfg.now value) × (0 < n)
            × (length (B.text buf.now) ≡ length (Self.written value) + n))) }
    {
        let (value, len) = Self::look(alloc, buf, 0, cfg)?;
        let left = buf.remaining() - len;
        if left != 0 {
            return Err(Fault::ExtraData(left));
        }
        Ok(value)
    }
}

/// Makes known that a reader's length fits a `usize`, and so does each offset within it. The prover knows this only of
/// a length that was read.
pub(crate) fn has_len<B: Peek>(buf: &B)
    ensures { length (B.text buf.now) < 2 ^ 64 }
{
    let _ = buf.remaining();
}
