// Bytes put into space that is reserved for them.
ghost use Rattle.std.specs.Prelude.{◌≡◌, ◌+◌, ◌≤◌, ◌++◌, length, vec_capacity, vec_len};

/// Appends bytes to a `Vec` that has space for them. The test always holds, as that of `IoBufMut::put_slice`.
#[inline(always)]
pub(crate) fn put_reserved(copy: &mut Vec<u8>, bytes: &[u8])
    requires { vec_len copy.old + length bytes.now ≤ vec_capacity copy.old }
    ensures items { copy.new.items ≡ copy.old.items ++ bytes.now }
    ensures len { vec_len copy.new ≡ vec_len copy.old + length bytes.now }
    ensures capacity { vec_capacity copy.old ≤ vec_capacity copy.new }
{
    if bytes.len() <= copy.capacity() - copy.len() {
        copy.extend_from_slice(bytes).unwrap();
    }
}
