// A writable buffer that a reader fills in place.
ghost use Rattle.std.specs.Prelude.{◌≡◌, ◌⊎◌, ℕ, ◌+◌, List, ◌++◌, length, IfOk, OnErr};
ghost use Rattle.std.specs.Io.KnownBytes.{Consumes, IsAtEnd, Keeps};

use iobufs_core::buf::IoBufMut;
use std::io::{self, Read};

// [docs: read_into]
/// Reads once into the spare capacity of a buffer, without a copy. Returns how many bytes came, after those that it
/// has.
/// If it fails, the buffer is unchanged.
pub fn read_into<R: Read>(from: &mut R, part: &mut IoBufMut) -> io::Result<usize>
    ensures ok { IfOk result (λ n. (more : List ℕ) × (length more ≡ n) × (part.new.filled ≡ part.old.filled ++ more)
        × Consumes (R.remaining from.old) (R.remaining from.new) more) }
    ensures spare { IfOk result (λ n. n + part.new.spare ≡ part.old.spare) }
    ensures end { IfOk result (λ n. n ≡ 0 → (part.old.spare ≡ 0) ⊎ IsAtEnd (R.remaining from.new)) }
    ensures unchanged { OnErr result (part.new ≡ part.old) }
    ensures kept { OnErr result (Keeps (R.remaining from.old) (R.remaining from.new)) }
{
    let len = part.len();
    part.set_len(part.capacity());
    match from.read(&mut part.as_mut()[len..]) {
        Ok(n) => {
            part.truncate(len + n);
            Ok(n)
        }
        Err(error) => {
            part.truncate(len);
            Err(error)
        }
    }
}
// [docs end]
