// Each call on each kind of storage, at each size. A test prints the buffers of the call, and whether value and rest
// are those of the model: a list of bytes, cut at multiples of a length.
use crate::costs::calls::{Args, Costed, Counted, Given};
use crate::costs::shape::{Place, Shape, Span};
use crate::word::{Ended, mark};
use iobufs::bufs::IoBufs;
use iobufs::bufs_mut::IoBufsMut;
use iobufs_core::buf::{IoBuf, IoBufMut};
use iobufs_core::codec::BufError;
use std::alloc::Global;
use std::fmt::Debug;
use std::process::Abort;
use std::test::Fail;
use tests_fixtures::stores::{ORIGINS, Origin, STORES, Store, parts_of, stored, stored_part, text};

mod calls;
mod drawn;
mod held;
mod shape;
mod sizes;

// The lengths of the views and writable buffers.
const LENGTHS: [usize; 5] = [64, 1000, 4097, 65537, 1048577];

// How many chunks of how many bytes each, at least two lengths for one number of chunks.
const CHUNKS: [(usize, usize); 22] = [
    (1, 64),
    (1, 4160),
    (1, 1048577),
    (2, 64),
    (2, 4160),
    (2, 1048577),
    (3, 64),
    (3, 4160),
    (3, 1048577),
    (4, 64),
    (4, 4160),
    (4, 65537),
    (5, 64),
    (5, 4160),
    (64, 64),
    (64, 4160),
    (4097, 64),
    (4097, 128),
    (65536, 64),
    (65536, 128),
    (65537, 64),
    (65537, 128),
];

const ALL: Span = (Place::Start, Place::End);

const NONE: Span = (Place::End, Place::End);

const FRONT: Span = (Place::Start, Place::Lower);

const MIDDLE: Span = (Place::Lower, Place::Upper);

const BACK: Span = (Place::Lower, Place::End);

const MOST: Span = (Place::Start, Place::Upper);

const REST: Span = (Place::Upper, Place::End);

const FIRST_HALF: Span = (Place::Start, Place::Part(32));

const SECOND_HALF: Span = (Place::Part(32), Place::End);

const FEW: Span = (Place::Start, Place::Part(10));

const AFTER_FEW: Span = (Place::Part(10), Place::End);

const FIRST: Span = (Place::Start, Place::FirstEnd);

const AFTER_FIRST: Span = (Place::FirstEnd, Place::End);

const AFTER: Span = (Place::End, Place::After);

const ALL_AND_AFTER: Span = (Place::Start, Place::After);

const BEFORE: Span = (Place::Before, Place::Start);

const BEFORE_AND_ALL: Span = (Place::Before, Place::End);

// Which storage a call shares. It copies other bytes.
#[derive(Clone, Copy, Debug)]
enum Sharing {
    Shares,
    Copies,
    // The storage of a `Bytes`, static storage, and that of no bytes.
    SharesBytes,
    // Also native storage without spare capacity or other handle.
    SharesWhole,
    // Native storage without other handle.
    SharesSole,
}

// A call, the bytes that it is given or gives, and those that it leaves; what it shares, and how often the original
// allocates for it: one number, or none if that isn't known.
#[derive(Clone, Copy)]
struct Case {
    call: Costed,
    gives: Span,
    leaves: Span,
    sharing: Sharing,
    original: &'static [usize],
}

// The cases of a table, one a line.
macro_rules! cases {
    ($($call:ident: $gives:ident, leaves $leaves:ident, $sharing:ident $(original $number:expr)?;)+) => {
        [$(Case {
            call: Costed::$call, gives: $gives, leaves: $leaves, sharing: Sharing::$sharing,
            original: &[$($number)?]
        }),+]
    };
}

const OF_VIEWS: [Case; 32] = cases! {
    Clone: ALL, leaves ALL, Shares original 0;
    Slice: MIDDLE, leaves ALL, Shares original 0;
    Slice: REST, leaves ALL, Shares original 0;
    SplitTo: FRONT, leaves BACK, Shares original 0;
    SplitTo: MOST, leaves REST, Shares original 0;
    Advance: FRONT, leaves BACK, Shares;
    CopyToSlice: FRONT, leaves BACK, Shares;
    TryCopy: FRONT, leaves BACK, Shares;
    CopyToBytes: FRONT, leaves BACK, SharesBytes;
    Chunks: ALL, leaves ALL, Shares;
    TwoChunks: ALL, leaves ALL, Shares;
    ManyChunks: ALL, leaves ALL, Shares;
    TakeView: MIDDLE, leaves REST, Shares original 0;
    TakeBytes: MIDDLE, leaves REST, SharesBytes;
    TryTake: FRONT, leaves BACK, Shares;
    TryTakeBytes: FRONT, leaves BACK, SharesBytes;
    PeekView: MIDDLE, leaves ALL, Shares;
    PeekView: REST, leaves ALL, Shares;
    PeekBytes: MIDDLE, leaves ALL, SharesBytes;
    PeekSlice: MIDDLE, leaves ALL, Shares;
    TakeAllView: ALL, leaves NONE, Shares;
    TakeAllBytes: ALL, leaves NONE, SharesWhole;
    ToVec: ALL, leaves ALL, Copies;
    IntoBytes: ALL, leaves NONE, SharesWhole;
    IntoPart: ALL, leaves NONE, SharesSole;
    Recover: ALL, leaves NONE, Shares original 0;
    FromView: ALL, leaves NONE, SharesWhole;
    ViewFromView: ALL, leaves NONE, Shares;
    Encode: ALL, leaves ALL, Copies;
    EncodeChunks: ALL, leaves ALL, Shares;
    Read: ALL, leaves ALL, Shares;
    CopyToBytes: ALL, leaves NONE, SharesWhole;
};

// Calls that make a buffer of bytes that are given to them.
const MAKERS: [Case; 18] = cases! {
    Copy: ALL, leaves ALL, Copies;
    CopyPart: ALL, leaves ALL, Copies original 1;
    OfList: ALL, leaves ALL, Shares;
    PartOfList: ALL, leaves ALL, Shares;
    TextOfList: ALL, leaves ALL, Shares;
    OfBytes: ALL, leaves ALL, Shares;
    BytesOfBytes: ALL, leaves ALL, Shares;
    OfBytesMut: ALL, leaves ALL, Shares;
    PartOfBytes: ALL, leaves ALL, Shares;
    PartOfSharedBytes: ALL, leaves ALL, Copies;
    PartOfBytesMut: ALL, leaves ALL, Shares;
    OfSharedBytesMut: ALL, leaves ALL, Shares;
    PartOfSharedBytesMut: ALL, leaves ALL, Copies;
    Capacity: ALL, leaves ALL, Copies;
    Aligned: ALL, leaves ALL, Copies;
    Zeroed: ALL, leaves ALL, Copies;
    ZeroedAligned: ALL, leaves ALL, Copies;
    EncodeBytes: ALL, leaves ALL, Shares;
};

const OF_PARTS: [Case; 13] = cases! {
    Advance: FRONT, leaves BACK, Shares;
    CopyToSlice: FRONT, leaves BACK, Shares;
    TryCopy: FRONT, leaves BACK, Shares;
    CopyToBytes: FRONT, leaves BACK, Copies;
    Chunks: ALL, leaves ALL, Shares;
    TwoChunks: ALL, leaves ALL, Shares;
    ManyChunks: ALL, leaves ALL, Shares;
    Truncate: FRONT, leaves FRONT, Shares;
    SetLen: FRONT, leaves FRONT, Shares;
    Put: ALL, leaves ALL, Shares original 0;
    Freeze: ALL, leaves NONE, Shares;
    IntoText: ALL, leaves NONE, Shares;
    CopyToBytes: ALL, leaves NONE, Copies;
};

const OF_TEXTS: [Case; 38] = cases! {
    Clone: ALL, leaves ALL, Shares original 1;
    Slice: MIDDLE, leaves ALL, Shares;
    Slice: ALL, leaves ALL, Shares;
    Slice: REST, leaves ALL, Shares;
    SplitTo: FRONT, leaves BACK, Shares original 1;
    SplitTo: FIRST_HALF, leaves SECOND_HALF, Shares original 1;
    Truncate: FRONT, leaves FRONT, Shares;
    Advance: FRONT, leaves BACK, Shares original 0;
    CopyToSlice: FRONT, leaves BACK, Shares;
    TryCopy: FRONT, leaves BACK, Shares;
    CopyToBytes: FRONT, leaves BACK, Copies;
    Chunks: ALL, leaves ALL, Shares;
    TwoChunks: ALL, leaves ALL, Shares;
    ManyChunks: ALL, leaves ALL, Shares;
    TakeView: MIDDLE, leaves REST, Copies original 1;
    TakeBytes: MIDDLE, leaves REST, Copies;
    TryTake: FRONT, leaves BACK, Copies;
    TryTakeBytes: FRONT, leaves BACK, Copies;
    PeekView: MIDDLE, leaves ALL, Copies;
    PeekView: REST, leaves ALL, Copies;
    PeekBytes: MIDDLE, leaves ALL, Copies;
    PeekSlice: MIDDLE, leaves ALL, Shares;
    ToVec: ALL, leaves ALL, Copies;
    Coalesce: ALL, leaves NONE, Copies original 1;
    Single: ALL, leaves NONE, Shares;
    Join: ALL, leaves ALL, Shares;
    Build: ALL, leaves ALL, Copies;
    Framed: ALL, leaves ALL, Shares;
    Fed: ALL, leaves ALL, Copies;
    Received: ALL, leaves ALL, Copies;
    Append: AFTER, leaves ALL_AND_AFTER, Shares original 1;
    Prepend: BEFORE, leaves BEFORE_AND_ALL, Shares original 1;
    SplitTo: MOST, leaves REST, Shares original 1;
    SplitTo: FIRST, leaves AFTER_FIRST, Shares original 1;
    TakeView: FIRST, leaves AFTER_FIRST, Copies original 1;
    TakeView: FEW, leaves AFTER_FEW, Copies original 1;
    Slice: FEW, leaves ALL, Shares;
    CopyToBytes: ALL, leaves NONE, Copies;
};

const OF_ROWS: [Case; 15] = cases! {
    Advance: FRONT, leaves BACK, Shares original 0;
    CopyToSlice: FRONT, leaves BACK, Shares;
    TryCopy: FRONT, leaves BACK, Shares;
    CopyToBytes: FRONT, leaves BACK, Copies original 1;
    Chunks: ALL, leaves ALL, Shares;
    TwoChunks: ALL, leaves ALL, Shares;
    ManyChunks: ALL, leaves ALL, Shares;
    SetLen: FRONT, leaves FRONT, Shares;
    Put: ALL, leaves ALL, Shares original 0;
    Overwrite: ALL, leaves ALL, Shares;
    Freeze: ALL, leaves NONE, Shares;
    Coalesce: ALL, leaves NONE, Copies;
    Single: ALL, leaves NONE, Shares;
    FromParts: ALL, leaves ALL, Shares;
    CopyToBytes: ALL, leaves NONE, Copies original 1;
};

// Whether what a call gives has the bytes of a range, cut as they are.
fn is_cut(alloc: Global, given: &Given, shape: &Shape, span: Span) -> Result<bool, BufError> {
    let bytes = shape.bytes(span);
    match given {
        Given::Nothing => Ok(true),
        Given::Wrong => Ok(false),
        Given::View(view) | Given::Shared(view) => Ok(view.as_ref() == bytes),
        Given::Bytes(given) => Ok(given.as_slice() == bytes),
        Given::List(list) => Ok(list.as_slice() == bytes),
        Given::Part(part) => Ok(part.as_ref() == bytes),
        Given::Text(text) | Given::Chunks(text) => shape.holds(alloc, text, span),
        Given::Parts(parts) => shape.holds(alloc, parts, span),
    }
}

// How a call ended that gave this, by the model.
fn compared<B: Counted>(
    alloc: Global,
    given: &Given,
    shape: &Shape,
    buf: &B,
    case: &Case,
) -> Result<Ended, BufError> {
    if !is_cut(alloc, given, shape, case.gives)? || !shape.holds(alloc, buf, case.leaves)? {
        return Ok(Ended::Wrong);
    }
    match given {
        Given::Shared(_) => Ok(Ended::Declined),
        Given::Chunks(_) | Given::Parts(_) => Ok(Ended::Several),
        _ => Ok(Ended::Done),
    }
}

// The result of a second call.
fn again<B: Counted>(
    alloc: Global,
    shape: &Shape,
    buf: &mut B,
    case: &Case,
) -> Result<Given, BufError> {
    let mut args = Args::new(alloc, shape, case.call, case.gives)?;
    buf.make(alloc, case.call, &mut args)
}

// How a call ended whose allocation failed: what it left, and what it gives the second time.
fn repeated<B: Counted>(
    alloc: Global,
    shape: &Shape,
    buf: &mut B,
    case: &Case,
) -> Result<Ended, BufError> {
    let is_gone = case.call.is_consuming();
    if !shape.holds(alloc, buf, if is_gone { NONE } else { ALL })? {
        return Ok(Ended::Changed);
    }
    if is_gone {
        return Ok(Ended::Refused);
    }
    let Ok(given) = again(alloc, shape, buf, case) else {
        return Ok(Ended::Failed);
    };
    match compared(alloc, &given, shape, buf, case)? {
        Ended::Wrong => Ok(Ended::Wrong),
        _ => Ok(Ended::Refused),
    }
}

// Makes a call, and prints what it was made on, what it shares, how often the original allocates, and how it ended.
fn count<B: Counted>(
    rt: &(impl Print + Abort + AllocGlobal),
    what: &impl Debug,
    shape: &Shape,
    mut buf: B,
    case: &Case,
) -> Result<(), BufError> {
    let (call, alloc) = (case.call, rt.alloc());
    let mut args = Args::new(alloc, shape, call, case.gives)?;
    mark(rt, "call");
    let answer = buf.make(alloc, call, &mut args);
    mark(rt, "done");
    let ended = match answer {
        Ok(given) => compared(alloc, &given, shape, &buf, case)?,
        Err(BufError::Memory) => repeated(alloc, shape, &mut buf, case)?,
        Err(_) => Ended::Failed,
    };
    let (count, len, sharing) = (shape.count, shape.len, case.sharing);
    let original = case.original.first().copied().unwrap_or(usize::MAX);
    println!(rt; "{call:?} {what:?} {count} {len} {sharing:?} {original} {ended:?}").expect(
        rt, "a line",
    );
    let is_right = !matches!(ended, Ended::Wrong | Ended::Failed | Ended::Changed);
    assert!(rt; is_right, "{call:?} of {what:?}: {ended:?}");
    Ok(())
}

// The calls on a view, each on a new one. The other handle of its storage stays as it is.
fn count_views(
    rt: &(impl Print + Abort + AllocGlobal),
    shape: &Shape,
    kind: Store,
) -> Result<(), BufError> {
    let count_left = if matches!(kind, Store::Emptied) { 0 } else { 1 };
    let left = Shape {
        count: count_left,
        ..*shape
    };
    for case in &OF_VIEWS {
        let (view, other) = stored(rt.alloc(), kind, shape.bytes(ALL))?;
        count(rt, &kind, &left, view, case)?;
        let is_same = other.is_empty() || other.as_ref() == shape.bytes(ALL);
        assert!(rt; is_same, "another handle of {kind:?}");
    }
    Ok(())
}

// The calls on a writable buffer, each on a new one.
fn count_parts(
    rt: &(impl Print + Abort + AllocGlobal),
    shape: &Shape,
    origin: Origin,
) -> Result<(), BufError> {
    for case in &OF_PARTS {
        let part = stored_part(rt.alloc(), origin, shape.bytes(ALL))?;
        count(rt, &origin, shape, part, case)?;
    }
    Ok(())
}

fn count_texts(
    rt: &(impl Print + Abort + AllocGlobal),
    shape: &Shape,
    kind: Store,
) -> Result<(), BufError> {
    for case in &OF_TEXTS {
        let text = text(rt.alloc(), kind, shape.bytes(ALL), shape.len)?;
        count(rt, &kind, shape, text, case)?;
    }
    Ok(())
}

fn count_rows(rt: &(impl Print + Abort + AllocGlobal), shape: &Shape) -> Result<(), BufError> {
    for case in &OF_ROWS {
        let parts = parts_of(rt.alloc(), shape.bytes(ALL), shape.len)?;
        let parts = IoBufsMut::from_parts(rt.alloc(), parts.into_iter())?;
        count(rt, &Origin::Full, shape, parts, case)?;
    }
    Ok(())
}

#[test]
fn views(rt: HostRuntime) -> Result<(), Fail> {
    for len in LENGTHS {
        let shape = Shape::new(rt.alloc(), 1, len)?;
        for kind in STORES {
            count_views(&rt, &shape, kind)?;
        }
    }
    Ok(())
}

#[test]
fn makers(rt: HostRuntime) -> Result<(), Fail> {
    for len in LENGTHS {
        let shape = Shape::new(rt.alloc(), 1, len)?;
        for case in &MAKERS {
            let view = IoBuf::from(shape.bytes(ALL));
            count(&rt, &Store::Static, &shape, view, case)?;
        }
    }
    Ok(())
}

#[test]
fn parts(rt: HostRuntime) -> Result<(), Fail> {
    for len in LENGTHS {
        let shape = Shape::new(rt.alloc(), 1, len)?;
        for origin in ORIGINS {
            count_parts(&rt, &shape, origin)?;
        }
    }
    Ok(())
}

#[test]
fn texts(rt: HostRuntime) -> Result<(), Fail> {
    for (chunks, len) in CHUNKS {
        let shape = Shape::new(rt.alloc(), chunks, len)?;
        count_texts(&rt, &shape, Store::Static)?;
        count_texts(&rt, &shape, Store::Full)?;
    }
    Ok(())
}

#[test]
fn rows(rt: HostRuntime) -> Result<(), Fail> {
    for (chunks, len) in CHUNKS {
        let shape = Shape::new(rt.alloc(), chunks, len)?;
        count_rows(&rt, &shape)?;
    }
    Ok(())
}
