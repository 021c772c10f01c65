// How the headers of frames are laid out.
ghost use Rattle.std.specs.Prelude.{◌≡◌, ◌==◌, ◌++◌, if◌then◌else◌, length, drop, nat_le, false, IfNone, IfSome};
ghost use Rattle.iobufs_c.specs.Codes.{code_of};
ghost use Rattle.iobufs_c.specs.FrameRows.{HasHeader, header_for, layout_from_c, prefix_from_c};

use crate::status::Status;
use iobufs_core::codec::RangeCfg;
use iobufs_frames::{ByteOrder, Layout, Prefix, Width};

/// A `Layout` in C's form, the header's `struct iobufs_layout`.
#[repr(C)]
#[derive(Clone, Copy)]
pub struct LayoutInC {
    pub(crate) before: u8,
    // How the length is written, by the header's `enum iobufs_prefix`.
    pub(crate) prefix: u8,
    pub(crate) after: u8,
    pub(crate) counts: u8,
}

// The prefix of a kind, if it is known.
pub(crate) fn prefix_of(kind: u8) -> Option<Prefix>
    ensures { result ≡ prefix_from_c kind }
{
    match kind {
        0 => Some(Prefix::Spelled),
        1 => Some(Prefix::Fixed(Width::U16, ByteOrder::Big)),
        2 => Some(Prefix::Fixed(Width::U32, ByteOrder::Big)),
        3 => Some(Prefix::Fixed(Width::U64, ByteOrder::Big)),
        4 => Some(Prefix::Fixed(Width::U16, ByteOrder::Little)),
        5 => Some(Prefix::Fixed(Width::U32, ByteOrder::Little)),
        6 => Some(Prefix::Fixed(Width::U64, ByteOrder::Little)),
        7 => Some(Prefix::Fixed(Width::U8, ByteOrder::Big)),
        8 => Some(Prefix::Fixed(Width::U24, ByteOrder::Big)),
        9 => Some(Prefix::Fixed(Width::U24, ByteOrder::Little)),
        _ => None,
    }
}

// The layout, if the kind of its prefix is known.
pub(crate) fn layout_of(said: &LayoutInC) -> Option<Layout>
    ensures { result ≡ layout_from_c said.now }
{
    let prefix = prefix_of(said.prefix)?;
    Some(Layout {
        before: said.before,
        prefix,
        after: said.after,
        counts: said.counts,
    })
}

// The bytes around the length are one slice, so that each slice is passed in registers, as rust/c/src/lib.rs needs it.
/// Writes the header of a body of n bytes, which is sent before it, to `out`, and its size to `len`: at most 32 bytes.
/// The `count` bytes of `around` are those around its length: the first `layout->before` come before it, the others
/// after. (own)
/// Fails: IOBUFS_BAD_KIND if `layout->prefix` is unknown; IOBUFS_TOO_LONG if `count` isn't `before` and `after`
///   together, or is above 22, if no length of this form is n with `counts`, or if header and body would pass SIZE_MAX;
///   IOBUFS_OUT_OF_RANGE if the header doesn't fit into `room` bytes.
/// Keeps: `out` and `len`.
#[unsafe(no_mangle)]
pub extern "C" fn iobufs_layout_header(
    layout: &LayoutInC,
    around: &[u8],
    n: usize,
    out: &mut [u8],
    len: &mut usize,
) -> u8
    ensures unknown { IfNone (layout_from_c layout.now) (result ≡ code_of Status.BadKind) }
    ensures too_long { IfSome (layout_from_c layout.now) (λ known. (HasHeader known around.now n → ⊥)
        → result ≡ code_of Status.TooLong) }
    ensures known { IfSome (layout_from_c layout.now) (λ known. HasHeader known around.now n
        → result ≡ (if nat_le (length (header_for known around.now n))
        (length out.old) then 0 else code_of Status.OutOfRange)) }
    ensures written { result ≡ 0 → IfSome (layout_from_c layout.now) (λ known.
        (len.new ≡ length (header_for known around.now n))
        × (out.new ≡ header_for known around.now n ++ drop (length (header_for known around.now n)) out.old)) }
    ensures unchanged { (result == 0) ≡ false → (out.new ≡ out.old) × (len.new ≡ len.old) }
{
    let Some(layout) = layout_of(layout) else {
        return Status::BadKind.code();
    };
    let cut = layout.before as usize;
    if cut > around.len() {
        return Status::TooLong.code();
    }
    let any = RangeCfg {
        lo: 0,
        hi: usize::MAX,
    };
    let Some(head) = layout.header_within(&around[..cut], &around[cut..], n, &any) else {
        return Status::TooLong.code();
    };
    if head.len() > out.len() {
        return Status::OutOfRange.code();
    }
    out[..head.len()].copy_from_slice(head.as_slice());
    *len = head.len();
    Status::Done.code()
}
