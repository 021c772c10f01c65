// How the library was built.
ghost use Rattle.std.specs.Prelude.{◌≡◌};

// 0: the kit built and proved this machine code. In the library that cargo builds from this source, a call of its own
// takes the place of this one, and returns 1.
/// Returns how this library was built: an `enum iobufs_build_kind`. (own)
#[unsafe(no_mangle)]
pub extern "C" fn iobufs_build() -> u32
    ensures { result ≡ 0 }
{
    0
}
