// From writable buffers to views and back.
ghost use Rattle.std.specs.Prelude.{◌≡◌, length, IfOk, IsOk, IsOkUnless, MatchResult};
ghost use Rattle.iobufs_core.specs.Part.{part_frozen};
ghost use Rattle.iobufs_core.specs.Recovery.{IsPartOf};

use super::{IoBuf, IoBufMut, native};
use crate::codec::BufError;
use std::alloc::Global;

impl IoBufMut {
    /// Recovers the storage of a view as `IoBuf::try_into_mut` does, or copies the bytes (`From<IoBuf>`). If allocation
    /// fails, the view comes back.
    pub fn from_view(alloc: Global, view: IoBuf) -> Result<IoBufMut, IoBuf>
        ensures same { MatchResult result (IsPartOf view) (λ other. other ≡ view) }
        ensures nothing { length view.bytes ≡ 0 → IsOk result }
    {
        match view.try_into_mut(alloc) {
            Ok(part) => Ok(part),
            Err(view) => match IoBufMut::copy_from_slice(alloc, view.as_ref()) {
                Ok(part) => Ok(part),
                Err(_) => Err(view),
            },
        }
    }

    /// Converts into a read-only view without copying; the default view if there are no bytes (`IoBufMut::freeze`).
    /// If allocation fails, returns `BufError::Memory` and drops the buffer.
    #[inline(always)]
    pub fn freeze(self) -> Result<IoBuf, BufError>
        ensures ok { IfOk result (λ b. b ≡ part_frozen self) }
        ensures memory { IsOkUnless result BufError.Memory }
        ensures nothing { length self.filled ≡ 0 → IsOk result }
    {
        let (space, start, shell) = self.into_space();
        if start == space.len() {
            return Ok(IoBuf::default());
        }
        let alloc = space.allocator();
        Ok(IoBuf::from_native(native::frozen(alloc, shell, space, start)?))
    }
}
