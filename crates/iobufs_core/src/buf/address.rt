// The address of bytes, for layers.
ghost use Rattle.std.specs.Prelude.{◌≡◌};
ghost use Rattle.std.specs.Ptr.{null_ptr};

/// Returns the address of these bytes, for writing (own, for layers). The address isn't null, even if there are no
/// bytes.
pub fn address_mut(bytes: &mut [u8]) -> *mut u8
    ensures { (result ≡ null_ptr → ⊥) × (bytes.new ≡ bytes.old) }
{
    bytes.as_mut_ptr()
}
