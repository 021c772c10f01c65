// Numbers of one, two, four or eight bytes, in either order.
ghost use Rattle.std.specs.Prelude.{◌≡◌, ◌≤◌, ◌==◌, if◌then◌else◌, length, take, nat_le, false};
ghost use Rattle.iobufs.specs.Building.{building_put, building_room};
ghost use Rattle.iobufs.specs.Parts.{parts_fill, parts_spare};
ghost use Rattle.iobufs_core.specs.MarkedText.{text_advanced};
ghost use Rattle.iobufs_core.specs.Part.{part_put};
ghost use Rattle.iobufs_core.specs.View.{view_advanced};
ghost use Rattle.iobufs_c.specs.Codes.{code_of};
ghost use Rattle.iobufs_c.specs.Rows.{is_number, number_bytes, number_eight, number_padded, number_start};

use crate::builder::{BuilderAt, iobufs_builder_put_slice};
use crate::part::{PartAt, iobufmut_put_slice};
use crate::parts::{PartsAt, iobufsmut_put_slice};
use crate::status::Status;
use crate::text::{TextAt, iobufs_copy_to_slice};
use crate::view::{ViewAt, iobuf_copy_to_slice};

// Whether a number may have this size, and its bytes this order, by the header's `enum iobufs_order`.
fn is_known(size: u8, order: u8) -> bool
    ensures { result ≡ is_number size order }
{
    order <= 1 && (size == 1 || size == 2 || size == 4 || size == 8)
}

// The eight bytes of a number in this order.
fn eight_of(n: u64, order: u8) -> [u8; 8]
    ensures { result ≡ number_eight order n }
{
    if order == 0 {
        u64::to_be_bytes(n)
    } else {
        u64::to_le_bytes(n)
    }
}

// The number with these eight bytes.
fn number_of(bytes: [u8; 8], order: u8) -> u64
    ensures { number_eight order result ≡ bytes }
{
    if order == 0 {
        u64::from_be_bytes(bytes)
    } else {
        u64::from_le_bytes(bytes)
    }
}

// Where the `size` lowest of eight bytes in this order begin.
fn start_of(size: usize, order: u8) -> usize
    requires { size ≤ 8 }
    ensures { result ≡ number_start size order }
{
    if order == 0 { 8 - size } else { 0 }
}

/// Puts the lowest `size` bytes of a number, in an `enum iobufs_order`. (own)
/// Fails: IOBUFS_BAD_KIND if `size` isn't 1, 2, 4 or 8, or the order is unknown; IOBUFS_OUT_OF_RANGE if the bytes don't
///   fit.
#[unsafe(no_mangle)]
pub extern "C" fn iobufmut_put_number(part: &mut PartAt, n: u64, size: u8, order: u8) -> u8
    ensures at { part.new.at ≡ part.old.at }
    ensures value { part.new.value ≡ (if result == 0 then part_put part.old.value (number_bytes size order n)
        else part.old.value) }
    ensures result { result ≡ (if is_number size order then (if nat_le size part.old.value.spare then 0 else
        code_of Status.OutOfRange) else code_of Status.BadKind) }
{
    if !is_known(size, order) {
        return Status::BadKind.code();
    }
    let at = start_of(size as usize, order);
    iobufmut_put_slice(part, &eight_of(n, order)[at..at + size as usize])
}

/// Puts a number as iobufmut_put_number does, part after part. (own)
/// Fails: IOBUFS_BAD_KIND if `size` isn't 1, 2, 4 or 8, or the order is unknown; IOBUFS_OUT_OF_RANGE if the bytes don't
///   fit.
#[unsafe(no_mangle)]
pub extern "C" fn iobufsmut_put_number(parts: &mut PartsAt, n: u64, size: u8, order: u8) -> u8
    ensures at { parts.new.at ≡ parts.old.at }
    ensures value { parts.new.value ≡ (if result == 0 then parts_fill parts.old.value (number_bytes size order n)
        else parts.old.value) }
    ensures result { result ≡ (if is_number size order then (if nat_le size (parts_spare parts.old.value) then 0 else
        code_of Status.OutOfRange) else code_of Status.BadKind) }
{
    if !is_known(size, order) {
        return Status::BadKind.code();
    }
    let at = start_of(size as usize, order);
    iobufsmut_put_slice(parts, &eight_of(n, order)[at..at + size as usize])
}

/// Puts a number as iobufmut_put_number does. (own)
/// Fails: IOBUFS_BAD_KIND if `size` isn't 1, 2, 4 or 8, or the order is unknown; IOBUFS_OUT_OF_RANGE if the bytes don't
///   fit.
#[unsafe(no_mangle)]
pub extern "C" fn iobufs_builder_put_number(
    builder: &mut BuilderAt,
    n: u64,
    size: u8,
    order: u8,
) -> u8
    ensures at { builder.new.at ≡ builder.old.at }
    ensures value { builder.new.value ≡ (if result == 0 then building_put builder.old.value
        (number_bytes size order n) else builder.old.value) }
    ensures result { result ≡ (if is_number size order then (if nat_le size (building_room builder.old.value) then 0
        else code_of Status.OutOfRange) else code_of Status.BadKind) }
{
    if !is_known(size, order) {
        return Status::BadKind.code();
    }
    let at = start_of(size as usize, order);
    iobufs_builder_put_slice(builder, &eight_of(n, order)[at..at + size as usize])
}

/// Reads the number of `size` bytes at the front, and drops it. (own)
/// Fails: IOBUFS_BAD_KIND if `size` isn't 1, 2, 4 or 8, or the order is unknown; IOBUFS_END_OF_BUFFER if there are
///   fewer bytes.
/// Keeps: both.
#[unsafe(no_mangle)]
pub extern "C" fn iobuf_get_number(src: &mut ViewAt, size: u8, order: u8, out: &mut u64) -> u8
    ensures at { src.new.at ≡ src.old.at }
    ensures value { src.new.value ≡ (if result == 0 then view_advanced src.old.value size else src.old.value) }
    ensures read { result ≡ 0 → number_eight order out.new ≡ number_padded size order (take size src.old.value.bytes) }
    ensures unread { (result == 0) ≡ false → out.new ≡ out.old }
    ensures result { result ≡ (if is_number size order then (if nat_le size (length src.old.value.bytes) then 0 else
        code_of Status.EndOfBuffer) else code_of Status.BadKind) }
{
    if !is_known(size, order) {
        return Status::BadKind.code();
    }
    let mut bytes = [0; 8];
    let at = start_of(size as usize, order);
    let status = iobuf_copy_to_slice(src, &mut bytes[at..at + size as usize]);
    if status == 0 {
        *out = number_of(bytes, order);
    }
    status
}

/// Reads the number of `size` bytes at the front, as iobuf_get_number does. (own)
/// Fails: IOBUFS_BAD_KIND if `size` isn't 1, 2, 4 or 8, or the order is unknown; IOBUFS_END_OF_BUFFER if there are
///   fewer bytes.
/// Keeps: both.
#[unsafe(no_mangle)]
pub extern "C" fn iobufs_get_number(bufs: &mut TextAt, size: u8, order: u8, out: &mut u64) -> u8
    ensures at { bufs.new.at ≡ bufs.old.at }
    ensures value { bufs.new.value ≡ (if result == 0 then text_advanced bufs.old.value size else bufs.old.value) }
    ensures read { result ≡ 0 → number_eight order out.new ≡ number_padded size order (take size bufs.old.value.bytes) }
    ensures unread { (result == 0) ≡ false → out.new ≡ out.old }
    ensures result { result ≡ (if is_number size order then (if nat_le size (length bufs.old.value.bytes) then 0 else
        code_of Status.EndOfBuffer) else code_of Status.BadKind) }
{
    if !is_known(size, order) {
        return Status::BadKind.code();
    }
    let mut bytes = [0; 8];
    let at = start_of(size as usize, order);
    let status = iobufs_copy_to_slice(bufs, &mut bytes[at..at + size as usize]);
    if status == 0 {
        *out = number_of(bytes, order);
    }
    status
}
