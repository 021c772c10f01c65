// The laws of reading, in code that is generic in the value and in the reader.
ghost use Rattle.std.specs.Prelude.{◌≡◌, ◌++◌, List, ℕ, IfOk};
ghost use Rattle.iobufs_core.specs.ReadBack.{IsReadAlike};
ghost use Rattle.iobufs_examples.specs.InOrder.{AreReadInOrder};

use iobufs::EncodeExt;
use iobufs_codec::{Fault, Look};
use iobufs_core::codec::{Codec, Encode, Error, OwnedBuf, Read, Write};
use std::alloc::Global;

/// Reads a value from two readers of the same bytes. The results are the same, except that either allocation may fail.
pub fn read_twice<T: Read + Drop, A: OwnedBuf, B: OwnedBuf>(
    alloc: Global,
    one: &mut A,
    two: &mut B,
    cfg: &T::Cfg,
) -> (Result<T, Error>, Result<T, Error>)
    requires { A.text one.old ≡ B.text two.old }
    ensures { IsReadAlike T.same result.0 result.1 }
{
    (T::read_cfg(alloc, one, cfg), T::read_cfg(alloc, two, cfg))
}

/// Writes a value and reads it back.
pub fn there_and_back<T: Codec + Drop>(alloc: Global, value: &T, cfg: &T::Cfg) -> Result<T, Error>
    requires { T.admits cfg.now value.now }
    ensures { IfOk result (T.same value.now) }
{
    let mut view = value.encode(alloc)?.freeze()?;
    T::read_cfg(alloc, &mut view, cfg)
}

/// Encodes a value and decodes it. The same value comes back, unless it is too long or an allocation fails.
pub fn decoded_again<T: Look + Write + Drop>(
    alloc: Global,
    value: &T,
    cfg: &T::Cfg,
) -> Result<T, Fault>
    requires { T.admits cfg.now value.now }
    ensures { IfOk result (T.same value.now) }
{
    let text = value.encode_iobufs(alloc)?;
    let decoded = T::decode_cfg(alloc, &text, cfg)?;
    Ok(decoded)
}

/// Reads two values, one after the other.
pub fn read_in_order<T: Codec + Drop, U: Codec + Drop, B: OwnedBuf>(
    alloc: Global,
    buf: &mut B,
    first: &T::Cfg,
    second: &U::Cfg,
) -> Result<(T, U), Error>
    ensures { (x : T) (y : U) (rest : List ℕ) → T.admits first.now x → U.admits second.now y
        → B.text buf.old ≡ T.written x ++ (U.written y ++ rest)
        → AreReadInOrder T.same U.same x y rest (B.text buf.new) result }
{
    let one = T::read_cfg(alloc, buf, first)?;
    let two = U::read_cfg(alloc, buf, second)?;
    Ok((one, two))
}
