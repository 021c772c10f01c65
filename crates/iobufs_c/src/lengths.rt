// Varint lengths: seven bits a byte, lowest first, in the shortest form.
ghost use Rattle.std.specs.Prelude.{◌≡◌, ℕ, ◌==◌, if◌then◌else◌, length, nat_le, false, Ok, Err};
ghost use Rattle.iobufs.specs.Building.{building_put, building_room};
ghost use Rattle.iobufs.specs.Parts.{parts_fill, parts_spare};
ghost use Rattle.iobufs_core.specs.MarkedText.{of_view, text_advanced, text_rest};
ghost use Rattle.iobufs_core.specs.Part.{part_put};
ghost use Rattle.iobufs_core.specs.Spelling.{spell};
ghost use Rattle.iobufs_core.specs.View.{view_advanced, view_rest};
ghost use Rattle.iobufs_core.specs.Wire.{HasStaticView, IsLengthRead, IsViewFault, IsViewRead, view_written};
ghost use Rattle.iobufs_c.specs.Codes.{IsReadCode, IsViewReadCode, code_of};

use crate::builder::BuilderAt;
use crate::frames::told;
use crate::part::PartAt;
use crate::parts::PartsAt;
use crate::status::{Status, fault};
use crate::text::TextAt;
use crate::view::ViewAt;
use iobufs_core::buf::IoBuf;
use iobufs_core::codec::{BufMut, EncodeSize, Error, RangeCfg, Read, Write};
use std::alloc::Global;

/// Returns the number of bytes of a varint length: at most ten. (usize::encode_size)
#[unsafe(no_mangle)]
pub extern "C" fn iobufs_length_size(n: usize) -> usize
    ensures { result ≡ length (spell n) }
{
    n.encode_inline_size()
}

/// Appends a varint length (see iobufs_length_size). (usize::write)
/// Fails: IOBUFS_OUT_OF_RANGE if it doesn't fit.
#[unsafe(no_mangle)]
pub extern "C" fn iobufmut_put_length(part: &mut PartAt, n: usize) -> u8
    ensures at { part.new.at ≡ part.old.at }
    ensures value { part.new.value ≡ (if result == 0 then part_put part.old.value (spell n) else part.old.value) }
    ensures result { result ≡ (if nat_le (length (spell n))
        part.old.value.spare then 0 else code_of Status.OutOfRange) }
{
    let part = part.get();
    if iobufs_length_size(n) > part.remaining_mut() {
        return Status::OutOfRange.code();
    }
    n.write(part);
    Status::Done.code()
}

/// Puts a varint length, part after part. (usize::write)
/// Fails: IOBUFS_OUT_OF_RANGE if it doesn't fit.
#[unsafe(no_mangle)]
pub extern "C" fn iobufsmut_put_length(parts: &mut PartsAt, n: usize) -> u8
    ensures at { parts.new.at ≡ parts.old.at }
    ensures value { parts.new.value ≡ (if result == 0 then parts_fill parts.old.value (spell n) else parts.old.value) }
    ensures result { result ≡ (if nat_le (length (spell n))
        (parts_spare parts.old.value) then 0 else code_of Status.OutOfRange) }
{
    let parts = parts.get();
    if iobufs_length_size(n) > parts.remaining_mut() {
        return Status::OutOfRange.code();
    }
    n.write(parts);
    Status::Done.code()
}

/// Appends a varint length. (usize::write)
/// Fails: IOBUFS_OUT_OF_RANGE if it doesn't fit.
#[unsafe(no_mangle)]
pub extern "C" fn iobufs_builder_put_length(builder: &mut BuilderAt, n: usize) -> u8
    ensures at { builder.new.at ≡ builder.old.at }
    ensures value { builder.new.value ≡ (if result == 0 then building_put builder.old.value (spell n) else
        builder.old.value) }
    ensures result { result ≡ (if nat_le (length (spell n))
        (building_room builder.old.value) then 0 else code_of Status.OutOfRange) }
{
    let builder = builder.get();
    if iobufs_length_size(n) > builder.remaining_mut() {
        return Status::OutOfRange.code();
    }
    n.write(builder);
    Status::Done.code()
}

/// Reads the length at the front, from lo to hi, and drops it. (usize::read_cfg)
/// Fails: IOBUFS_END_OF_BUFFER if the length may continue after the end; IOBUFS_INVALID_VARINT if the length is
///   invalid; IOBUFS_INVALID_LENGTH if the length is outside: it is written to `out` then.
/// Keeps: the bytes.
#[unsafe(no_mangle)]
pub extern "C" fn iobufs_read_length(
    alloc: Global,
    bufs: &mut TextAt,
    lo: usize,
    hi: usize,
    out: &mut usize,
) -> u8
    ensures at { bufs.new.at ≡ bufs.old.at }
    ensures read { result ≡ 0 → IsLengthRead bufs.old.value.bytes (record { lo = lo; hi = hi }) (Ok out.new) }
    ensures rest { result ≡ 0 → bufs.new.value ≡ text_advanced bufs.old.value (length (spell out.new)) }
    ensures unchanged { (result == 0) ≡ false → bufs.new.value ≡ bufs.old.value }
    ensures open { result ≡ code_of Status.EndOfBuffer
        → IsLengthRead bufs.old.value.bytes (record { lo = lo; hi = hi }) (Err Error.EndOfBuffer) }
    ensures invalid { result ≡ code_of Status.InvalidVarint
        → IsLengthRead bufs.old.value.bytes (record { lo = lo; hi = hi }) (Err Error.InvalidVarint) }
    ensures outside { result ≡ code_of Status.InvalidLength
        → IsLengthRead bufs.old.value.bytes (record { lo = lo; hi = hi }) (Err (Error.InvalidLength out.new)) }
    ensures out { (result == 0) ≡ false → (result == code_of Status.InvalidLength) ≡ false → out.new ≡ out.old }
    ensures causes { IsReadCode result }
{
    match usize::read_cfg(alloc, bufs.get(), &RangeCfg { lo, hi }) {
        Ok(n) => {
            *out = n;
            Status::Done.code()
        }
        Err(error) => told(error, out),
    }
}

/// Reads the length at the front of a view, as iobufs_read_length does. (Read)
/// Fails: IOBUFS_END_OF_BUFFER if the length may continue after the end; IOBUFS_INVALID_VARINT if the length is
///   invalid; IOBUFS_INVALID_LENGTH if the length is outside: it is written to `out` then.
/// Keeps: the bytes.
#[unsafe(no_mangle)]
pub extern "C" fn iobuf_read_length(
    alloc: Global,
    src: &mut ViewAt,
    lo: usize,
    hi: usize,
    out: &mut usize,
) -> u8
    ensures at { src.new.at ≡ src.old.at }
    ensures read { result ≡ 0 → IsLengthRead src.old.value.bytes (record { lo = lo; hi = hi }) (Ok out.new) }
    ensures rest { result ≡ 0 → src.new.value ≡ view_advanced src.old.value (length (spell out.new)) }
    ensures unchanged { (result == 0) ≡ false → src.new.value ≡ src.old.value }
    ensures open { result ≡ code_of Status.EndOfBuffer
        → IsLengthRead src.old.value.bytes (record { lo = lo; hi = hi }) (Err Error.EndOfBuffer) }
    ensures invalid { result ≡ code_of Status.InvalidVarint
        → IsLengthRead src.old.value.bytes (record { lo = lo; hi = hi }) (Err Error.InvalidVarint) }
    ensures outside { result ≡ code_of Status.InvalidLength
        → IsLengthRead src.old.value.bytes (record { lo = lo; hi = hi }) (Err (Error.InvalidLength out.new)) }
    ensures out { (result == 0) ≡ false → (result == code_of Status.InvalidLength) ≡ false → out.new ≡ out.old }
    ensures causes { IsReadCode result }
{
    match usize::read_cfg(alloc, src.get(), &RangeCfg { lo, hi }) {
        Ok(n) => {
            *out = n;
            Status::Done.code()
        }
        Err(error) => told(error, out),
    }
}

/// Reads a length from lo to hi and the bytes after it, as one view: shared within a chunk, a copy across chunks.
/// (IoBuf::read_cfg)
/// Fails: IOBUFS_END_OF_BUFFER if the length may continue after the end, or fewer bytes follow; IOBUFS_INVALID_VARINT
///   if it is invalid; IOBUFS_INVALID_LENGTH if it is outside; IOBUFS_MEMORY, for the copy.
/// Keeps: both.
#[unsafe(no_mangle)]
pub extern "C" fn iobufs_read_view(
    alloc: Global,
    bufs: &mut TextAt,
    lo: usize,
    hi: usize,
    out: &mut ViewAt,
) -> u8
    ensures at { (bufs.new.at ≡ bufs.old.at) × (out.new.at ≡ out.old.at) }
    ensures read { result ≡ 0 → IsViewRead bufs.old.value (record { lo = lo; hi = hi }) (Ok out.new.value) }
    ensures rest { result ≡ 0 → bufs.new.value ≡ text_rest bufs.old.value (length (view_written out.new.value)) }
    ensures unchanged { (result == 0) ≡ false → (bufs.new.value ≡ bufs.old.value) × (out.new.value ≡ out.old.value) }
    ensures open { result ≡ code_of Status.EndOfBuffer
        → IsViewFault bufs.old.value (record { lo = lo; hi = hi }) Error.EndOfBuffer }
    ensures invalid { result ≡ code_of Status.InvalidVarint
        → IsViewFault bufs.old.value (record { lo = lo; hi = hi }) Error.InvalidVarint }
    ensures outside { result ≡ code_of Status.InvalidLength
        → (n : ℕ) × IsViewFault bufs.old.value (record { lo = lo; hi = hi }) (Error.InvalidLength n) }
    ensures memory { result ≡ code_of Status.Memory
        → IsViewFault bufs.old.value (record { lo = lo; hi = hi }) Error.Memory }
    ensures static_text { HasStaticView bufs.old.value (record { lo = lo; hi = hi }) → result ≡ 0 }
    ensures causes { IsViewReadCode result }
{
    match IoBuf::read_cfg(alloc, bufs.get(), &RangeCfg { lo, hi }) {
        Ok(view) => {
            *out.get() = view;
            Status::Done.code()
        }
        Err(error) => fault(error),
    }
}

/// Reads a length and the bytes after it from a view, in its storage, as iobufs_read_view does. (IoBuf::read_cfg)
/// Fails: IOBUFS_END_OF_BUFFER if the length may continue after the end, or fewer bytes follow; IOBUFS_INVALID_VARINT
///   if it is invalid; IOBUFS_INVALID_LENGTH if it is outside; IOBUFS_MEMORY (reserved).
/// Keeps: both.
#[unsafe(no_mangle)]
pub extern "C" fn iobuf_read_view(
    alloc: Global,
    src: &mut ViewAt,
    lo: usize,
    hi: usize,
    out: &mut ViewAt,
) -> u8
    ensures at { (src.new.at ≡ src.old.at) × (out.new.at ≡ out.old.at) }
    ensures read { result ≡ 0 → IsViewRead (of_view src.old.value) (record { lo = lo; hi = hi }) (Ok out.new.value) }
    ensures rest { result ≡ 0 → src.new.value ≡ view_rest src.old.value (length (view_written out.new.value)) }
    ensures unchanged { (result == 0) ≡ false → (src.new.value ≡ src.old.value) × (out.new.value ≡ out.old.value) }
    ensures open { result ≡ code_of Status.EndOfBuffer
        → IsViewFault (of_view src.old.value) (record { lo = lo; hi = hi }) Error.EndOfBuffer }
    ensures invalid { result ≡ code_of Status.InvalidVarint
        → IsViewFault (of_view src.old.value) (record { lo = lo; hi = hi }) Error.InvalidVarint }
    ensures outside { result ≡ code_of Status.InvalidLength
        → (n : ℕ) × IsViewFault (of_view src.old.value) (record { lo = lo; hi = hi }) (Error.InvalidLength n) }
    ensures memory { result ≡ code_of Status.Memory
        → IsViewFault (of_view src.old.value) (record { lo = lo; hi = hi }) Error.Memory }
    ensures static_text { HasStaticView (of_view src.old.value) (record { lo = lo; hi = hi }) → result ≡ 0 }
    ensures causes { IsViewReadCode result }
{
    match IoBuf::read_cfg(alloc, src.get(), &RangeCfg { lo, hi }) {
        Ok(view) => {
            *out.get() = view;
            Status::Done.code()
        }
        Err(error) => fault(error),
    }
}
