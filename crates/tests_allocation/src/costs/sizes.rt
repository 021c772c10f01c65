// Lists, frames, capacities and runs above what other tests try.
use crate::costs::calls::ANY;
use crate::costs::shape::pattern;
use bytes::{Bytes, BytesMut};
use iobufs::EncodeExt;
use iobufs::bufs::IoBufs;
use iobufs::builder::Builder;
use iobufs_codec::{List, Look};
use iobufs_core::buf::{IoBuf, IoBufMut};
use iobufs_core::codec::{BufError, BufsMut};
use iobufs_frames::{ByteOrder, End, Frames, Prefix, Width, framed_with};
use iobufs_owner::format::FORMAT_64;
use iobufs_owner::owner::{self, Act, Call, Machine, Step};
use iobufs_run::command::{Cmd, Reply};
use iobufs_run::table::Table;
use std::alloc::Global;
use std::process::Abort;
use std::test::Fail;
use tests_fixtures::rows;

// How many numbers are in a list, and how many bytes its count has.
const LISTS: [(usize, usize); 4] = [(3, 1), (4, 1), (300, 2), (131073, 3)];

fn numbers(alloc: Global, count: usize) -> Result<List<u16>, BufError> {
    let mut values = Vec::new(alloc);
    for i in 0..count {
        values.push(u16::try_from(i % 65521).unwrap_or(0))?;
    }
    Ok(List { values })
}

#[test]
fn lists(rt: HostRuntime) -> Result<(), Fail> {
    for (count, prefix) in LISTS {
        let list = numbers(rt.alloc(), count)?;
        let mut text = list.encode_iobufs(rt.alloc())?;
        assert!(rt;
            text.len().saturating_sub(prefix) / 2 == count,
            "{count}: another length"
        );
        let back = List::read_whole(rt.alloc(), &mut text, &(ANY, ()));
        assert!(rt;
            back.ok() == Some(list) && text.is_empty(),
            "{count}: another list"
        );
    }
    Ok(())
}

// A list of values that are long together.
#[test]
fn a_list_of_views(rt: HostRuntime) -> Result<(), Fail> {
    let bytes = pattern(rt.alloc(), 100)?;
    let mut values = Vec::new(rt.alloc());
    for _ in 0..5000 {
        values.push(IoBuf::from(bytes))?;
    }
    let list = List { values };
    let mut text = list.encode_iobufs(rt.alloc())?;
    let back = List::read_whole(rt.alloc(), &mut text, &(ANY, ANY));
    assert!(rt; back.ok() == Some(list), "another list");
    Ok(())
}

// How a length is written, its bytes, and the length.
const FRAMES: [(Prefix, &'static [u8], usize); 7] = rows! {
    Prefix::Fixed(Width::U16, ByteOrder::Big), b"\x13\x89", 5001;
    Prefix::Fixed(Width::U16, ByteOrder::Little), b"\xff\xff", 65535;
    Prefix::Fixed(Width::U32, ByteOrder::Little), b"\xa1\x86\x01\0", 100001;
    Prefix::Fixed(Width::U64, ByteOrder::Big), b"\0\0\0\0\0\0\0\0", 0;
    Prefix::Fixed(Width::U64, ByteOrder::Little), b"\x01\0\x10\0\0\0\0\0", 1048577;
    Prefix::Spelled, b"\x81\x80\x40", 1048577;
    Prefix::Spelled, b"\x80\x80\x80\x10", 33554432;
};

// A length, and a body in three chunks.
fn pieces(
    alloc: Global,
    length: &'static [u8],
    body: &'static [u8],
) -> Result<Vec<IoBuf>, BufError> {
    let (first, rest) = body.split_at(body.len() / 3);
    let (second, third) = rest.split_at(rest.len() / 2);
    let mut pieces = Vec::with_capacity(alloc, 4)?;
    for piece in [length, first, second, third] {
        pieces.push(IoBuf::from(piece))?;
    }
    Ok(pieces)
}

#[test]
fn frames(rt: HostRuntime) -> Result<(), Fail> {
    let alloc = rt.alloc();
    for (prefix, length, n) in FRAMES {
        let body = pattern(alloc, n)?;
        let run = Frames::run_with(alloc, prefix, pieces(alloc, length, body)?, &ANY)?;
        let frame = run.frames.first().ok_or("no frame")?;
        assert!(rt;
            frame.as_ref() == body && run.frames.len() == 1,
            "{n}: another body"
        );
        assert!(rt;
            run.rest.is_empty() && run.stop == End::Open,
            "{n}: another end"
        );
        let framed = framed_with(alloc, prefix, IoBufs::from(body))
            .ok()
            .ok_or("no memory")?;
        assert!(rt; framed.chunk_at(0) == Some(length), "{n}: another length");
        assert!(rt;
            framed.chunk_at(1).unwrap_or_default() == body,
            "{n}: another body"
        );
    }
    Ok(())
}

// As many frames as chunks.
#[test]
fn many_frames(rt: HostRuntime) -> Result<(), Fail> {
    let mut pieces = Vec::new(rt.alloc());
    for _ in 0..65537 {
        pieces.push(IoBuf::from(b"\x01a".as_slice()))?;
    }
    let run = Frames::run(rt.alloc(), pieces, &ANY)?;
    assert!(rt;
        run.frames.len() == 65537 && run.rest.is_empty(),
        "other frames"
    );
    Ok(())
}

#[test]
fn a_long_push_of_bytes(rt: HostRuntime) -> Result<(), Fail> {
    let bytes = pattern(rt.alloc(), 1048577)?;
    let mut builder = Builder::new(rt.alloc(), 0)?;
    builder.push_bytes(Bytes::from_static(bytes))?;
    assert!(rt; builder.finish()?.eq_bytes(bytes), "other bytes");
    Ok(())
}

// The bytes in a list of so many times their capacity.
fn roomy(alloc: Global, bytes: &[u8], times: usize) -> Result<Vec<u8>, BufError> {
    let mut list = Vec::with_capacity(alloc, bytes.len().saturating_mul(times))?;
    list.extend_from_slice(bytes)?;
    Ok(list)
}

// Whether buffers that take a list over have its capacity.
fn keeps_capacity(alloc: Global, bytes: &[u8], times: usize) -> Result<bool, BufError> {
    let capacity = roomy(alloc, bytes, times)?.capacity();
    let view = IoBuf::from_vec(roomy(alloc, bytes, times)?)?;
    let of_view = IoBufMut::from_view(alloc, view).map_err(|_| BufError::Memory)?;
    let of_block = IoBufMut::from_bytes_mut(BytesMut::from(roomy(alloc, bytes, times)?))?;
    let of_list = IoBufMut::from(roomy(alloc, bytes, times)?);
    Ok(
        of_view.capacity() == capacity
            && of_block.capacity() == capacity
            && of_list.capacity() == capacity,
    )
}

// How many bytes a list has, and how many times as many it has room for.
const CAPACITIES: [(usize, usize); 6] = [
    (1, 2),
    (64, 2),
    (4097, 2),
    (1048577, 2),
    (64, 8),
    (65537, 8),
];

#[test]
fn capacities(rt: HostRuntime) -> Result<(), Fail> {
    for (n, times) in CAPACITIES {
        assert!(rt;
            keeps_capacity(rt.alloc(), pattern(rt.alloc(), n)?, times)?,
            "{n}: another capacity"
        );
    }
    Ok(())
}

// How many commands or steps are in one run.
const RUN: usize = 3000000;

#[test]
fn commands(rt: HostRuntime) -> Result<(), Fail> {
    let mut table = Table::new(rt.alloc(), 1)?;
    let mut cmds = Vec::with_capacity(rt.alloc(), RUN)?;
    for _ in 0..RUN / 2 {
        cmds.push(Cmd::Static {
            dst: 0,
            text: b"abc",
        })?;
        cmds.push(Cmd::Drop { target: 0 })?;
    }
    let replies = table.run(cmds.as_slice())?;
    assert!(rt; replies.len() == RUN, "another number of replies");
    for reply in &replies {
        assert!(rt; *reply == Reply::Done, "a refusal");
    }
    Ok(())
}

// The steps of one of so many threads. A step costs the same among any number of them, so as many end in time.
fn assert_steps(rt: &(impl Abort + AllocGlobal), threads: u32, count: usize) -> Result<(), Fail> {
    let mut machine = Machine::new(rt.alloc(), threads as usize, 9223372036854775807, FORMAT_64)?;
    let thread = threads.saturating_sub(1) as usize;
    machine.reserve(1, 1, 0)?;
    let first = Step {
        thread,
        act: Act::Begin(Call::New(64, 16, 1), true),
    };
    assert!(rt; machine.step(first) == owner::Reply::Made(0), "no block");
    let step = Step {
        thread,
        act: Act::Begin(Call::IsUnique(0), true),
    };
    let steps = vec![in rt.alloc(); step; count]?;
    let replies = machine.run(steps.as_slice())?;
    assert!(rt; replies.len() == count, "another number of replies");
    for reply in &replies {
        assert!(rt; *reply == owner::Reply::Unique(true), "shared");
    }
    Ok(())
}

#[test]
fn steps(rt: HostRuntime) -> Result<(), Fail> {
    assert_steps(&rt, 1, RUN)?;
    assert_steps(&rt, 200000, RUN)
}
