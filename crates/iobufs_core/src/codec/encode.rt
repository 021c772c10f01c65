// Encoding a value into one buffer.
ghost use Rattle.std.specs.Prelude.{◌≡◌, ◌^◌, ◌<◌, ◌≤◌, length, Err, IfOk, IsOk, IsOkUnless};

use super::{Error, Write};
use crate::buf::IoBufMut;
use std::alloc::Global;

/// Encoding into one buffer (the codec's `Encode`).
pub trait Encode: Write {
    /// Encodes into one buffer of exactly the value's size (`Encode::encode`). Fails with `Error::TooLong` if
    /// `encode_size` is `None`, with `Error::BadLayout` if the size is above `isize::MAX`, and with `Error::Memory` if
    /// allocation fails.
    #[tactic(auto, using(crate::proofs::LayoutLaws::good_layout, crate::proofs::LayoutLaws::large_layout))]
    final fn encode(&self, alloc: Global) -> Result<IoBufMut, Error>
    where
        Self: Sized,
        ensures ok { IfOk result (λ part. part ≡ record { filled = Self.written self.now; spare = 0 }) }
        ensures too_long { 2 ^ 64 ≤ length (Self.written self.now) → result ≡ Err Error.TooLong }
        ensures bad_layout { length (Self.written self.now) < 2 ^ 64 → 2 ^ 63 ≤ length (Self.written self.now)
            → result ≡ Err Error.BadLayout }
        ensures memory { length (Self.written self.now) < 2 ^ 63 → IsOkUnless result Error.Memory }
        ensures nothing { length (Self.written self.now) ≡ 0 → IsOk result }
    {
        let Some(size) = self.encode_size() else {
            return Err(Error::TooLong);
        };
        let mut buf = IoBufMut::with_capacity(alloc, size)?;
        self.write(&mut buf);
        Ok(buf)
    }
}

impl<T: Write> Encode for T {}
