// A count followed by a list of values.
ghost use Rattle.std.specs.Prelude.{◌≡◌, ◌⊎◌, ◌+◌, ◌^◌, ◌<◌, ◌≤◌, length, true, SomeIff, OnOk, OnErr, IfOk, IfErr, IsOk};
ghost use Rattle.std.specs.List.{All, flat_map};
ghost use Rattle.iobufs_core.specs.Items.{IsBegun, items_inline, items_pushed};
ghost use Rattle.iobufs_core.specs.Ranges.{in_range};
ghost use Rattle.iobufs_codec.specs.Form.{no_memory};
ghost use Rattle.iobufs_codec.specs.Listed.{AreFound, AreSame, IsListFault, IsListFound, IsOneFault, list_items, list_written, joins_list, list_form};
ghost use Rattle.iobufs_codec.specs.Forms.{form_as};
ghost use Rattle.std.proofs.Common.{refl};

use crate::look::has_len;
use crate::{Fault, Look};
use iobufs_core::codec::{Buf, BufMut, BufsMut, EncodeSize, Error, Peek, RangeCfg, Write};
use std::alloc::Global;

/// A varint count followed by the values (`Vec`). It wraps `Vec` because the traits of writing are another crate's. A
/// list of values without bytes, such as `List<()>`, takes as many steps to decode as its count says: bound the count.
#[derive(Debug, PartialEq, Eq, Drop)]
pub struct List<T> {
    pub values: Vec<T>,
}

impl<T: EncodeSize> EncodeSize for List<T> {
    ghost written = { λ list. list_written T.written list.values.items };

    ghost items = { λ list. list_items T.items list.values.items };

    fn encode_size(&self) -> Option<usize> {
        let values = self.values.as_slice();
        let count = values.len().encode_size()?;
        count.checked_add(each_size(values)?)
    }

    fn encode_inline_size(&self) -> usize {
        let values = self.values.as_slice();
        values.len().encode_inline_size() + each_inline_size(values)
    }

    ghost joins_items = { λ list. joins_list T.written T.items T.joins_items list.values.items };
}

impl<T: Write> Write for List<T> {
    fn write<B: BufMut>(&self, buf: &mut B) {
        let values = self.values.as_slice();
        values.len().write(buf);
        write_each(values, buf);
    }

    fn write_bufs<B: BufsMut>(&self, buf: &mut B) -> Result<(), Error> {
        let values = self.values.as_slice();
        values.len().write_bufs(buf)?;
        write_each_bufs(values, buf)
    }
}

impl<T: Look + Drop> Look for List<T> {
    type Cfg = (RangeCfg, T::Cfg);

    ghost is_found = { λ text skip cfg list. IsListFound T.written T.is_found text skip cfg list.values.items };

    ghost is_fault = { IsListFault T.written T.is_found T.is_fault };

    ghost admits = { λ cfg list. ((length list.values.items < 2 ^ 64)
        × (in_range cfg.0 (length list.values.items) ≡ true))
        × All (T.admits cfg.1) list.values.items };

    ghost same = { λ x y. AreSame T.same x.values.items y.values.items };

    fn look<B: Peek>(
        alloc: Global,
        buf: &B,
        skip: usize,
        cfg: &(RangeCfg, T::Cfg),
    ) -> Result<(List<T>, usize), Fault> {
        has_len(buf);
        let (count, len) = usize::look(alloc, buf, skip, &cfg.0)?;
        let (values, more) = look_each(alloc, buf, skip + len, count, &cfg.1)?;
        Ok((List { values }, len + more))
    }

    ghost form = { form_as (λ list. list.values.items) (λ list. list_written T.written list.values.items)
        (λ list. refl)
        (list_form T.form) };
}

// The encoded size of the values in order; `None` above `usize::MAX`.
fn each_size<T: EncodeSize>(values: &[T]) -> Option<usize>
    ensures { SomeIff result (length (flat_map T.written values.now) < 2 ^ 64)
        (length (flat_map T.written values.now)) }
{
    let mut size = 0usize;
    for value in values {
        size = size.checked_add(value.encode_size()?)?;
    }
    Some(size)
}

// How many bytes of the values are put inline.
fn each_inline_size<T: EncodeSize>(values: &[T]) -> usize
    requires { length (flat_map T.written values.now) < 2 ^ 64 }
    ensures { result ≡ items_inline (flat_map T.items values.now) }
{
    let mut size = 0;
    for value in values {
        size += value.encode_inline_size();
    }
    size
}

// Puts what is written of the values.
fn write_each<T: Write, B: BufMut>(values: &[T], buf: &mut B)
    requires { length (flat_map T.written values.now) ≤ B.room buf.old }
    ensures { B.filled buf.old (flat_map T.written values.now) buf.new }
{
    for value in values {
        value.write(buf);
    }
}

// Puts and pushes the values. If it fails, `buf` keeps the bytes that were written up to there.
fn write_each_bufs<T: Write, B: BufsMut>(values: &[T], buf: &mut B) -> Result<(), Error>
    requires { items_inline (flat_map T.items values.now) ≤ B.room buf.old }
    ensures ok { OnOk result (B.done buf.old (flat_map T.items values.now) buf.new) }
    ensures begun { OnErr result (IsBegun (B.joined buf.old) (flat_map T.written values.now) (B.joined buf.new)) }
    ensures cause { IfErr result (λ error. (error ≡ Error.Memory)
        ⊎ ((error ≡ Error.TooLong) × (B.pushable buf.old < items_pushed (flat_map T.items values.now)))) }
    ensures no_push { items_pushed (flat_map T.items values.now) ≡ 0 → IsOk result }
{
    for value in values {
        value.write_bufs(buf)?;
    }
    Ok(())
}

// Decodes `count` values after the first `skip` bytes, and returns them with their number of bytes. Space grows with
// the values that are decoded, and not with `count`.
fn look_each<T: Look + Drop, B: Peek>(
    alloc: Global,
    buf: &B,
    skip: usize,
    count: usize,
    cfg: &T::Cfg,
) -> Result<(Vec<T>, usize), Fault>
    requires { skip ≤ length (B.text buf.now) }
    ensures count { IfOk result (λ found. length found.0.items ≡ count) }
    ensures found { IfOk result (λ found. AreFound T.written T.is_found (B.marked buf.now) skip cfg.now found.0.items) }
    ensures len { IfOk result (λ found. found.1 ≡ length (flat_map T.written found.0.items)) }
    ensures within { IfOk result (λ found. skip + found.1 ≤ length (B.text buf.now)) }
    ensures fault { IfErr result (λ fault. IsOneFault T.written T.is_found T.is_fault count
        (B.marked buf.now) skip cfg.now fault
        ⊎ ((fault ≡ no_memory) × (0 < count))) }
{
    has_len(buf);
    let mut values = Vec::new(alloc);
    let mut len = 0;
    for _ in 0..count {
        let (value, more) = T::look(alloc, buf, skip + len, cfg)?;
        values.push(value)?;
        len += more;
    }
    Ok((values, len))
}
