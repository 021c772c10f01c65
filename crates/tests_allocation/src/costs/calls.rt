// The calls.
use crate::costs::shape::{Place, Shape, Span};
use bytes::{Bytes, BytesMut};
use iobufs::bufs::IoBufs;
use iobufs::bufs_mut::IoBufsMut;
use iobufs::builder::{Builder, EncodeExt};
use iobufs_core::buf::{IoBuf, IoBufMut};
use iobufs_core::codec::{
    Buf, BufError, BufMut, BufsMut, Encode, Error, OwnedBytes, Peek, RangeCfg, Read, Refused,
};
use iobufs_frames::{ByteOrder, Frames, Head, Prefix, Received, Width, framed_with};
use std::alloc::Global;
use std::ops::Bound::{Excluded, Included};
use std::{io, mem};
use tests_fixtures::stores::{block, cut, parts_of};

// Bodies of any length.
pub const ANY: RangeCfg = RangeCfg {
    lo: 0,
    hi: usize::MAX,
};

// The result of a call, by its type.
#[derive(Drop)]
pub enum Given {
    Nothing,
    View(IoBuf),
    Bytes(Bytes),
    List(Vec<u8>),
    Part(IoBufMut),
    Text(IoBufs),
    // Handed back by a call that requires sole ownership of the storage,
    Shared(IoBuf),
    // or a single chunk.
    Chunks(IoBufs),
    Parts(IoBufsMut),
    // Other bytes than those that the call was given.
    Wrong,
}

#[derive(Clone, Copy, Debug)]
pub enum Costed {
    // Of each reader.
    Advance,
    CopyToSlice,
    TryCopy,
    CopyToBytes,
    Chunks,
    TwoChunks,
    // All chunks but one.
    ManyChunks,
    // Of readers whose bytes can be taken or peeked at.
    TakeView,
    TakeBytes,
    TryTake,
    TryTakeBytes,
    PeekView,
    PeekBytes,
    PeekSlice,
    // Of views and texts.
    Clone,
    Slice,
    SplitTo,
    ToVec,
    // Of views alone.
    TakeAllView,
    TakeAllBytes,
    IntoBytes,
    IntoPart,
    Recover,
    FromView,
    ViewFromView,
    Encode,
    EncodeChunks,
    Read,
    // Of bytes that are given.
    Copy,
    CopyPart,
    OfList,
    PartOfList,
    TextOfList,
    OfBytes,
    BytesOfBytes,
    OfBytesMut,
    PartOfBytes,
    // Of a `Bytes` that another handle shares.
    PartOfSharedBytes,
    PartOfBytesMut,
    // Of a `BytesMut` that another one shares, the rest of its block.
    OfSharedBytesMut,
    PartOfSharedBytesMut,
    Capacity,
    Aligned,
    Zeroed,
    ZeroedAligned,
    EncodeBytes,
    Join,
    Build,
    Framed,
    Fed,
    Received,
    // Of texts.
    Append,
    Prepend,
    // Of texts and of several writable buffers.
    Coalesce,
    Single,
    // Of writable buffers.
    Truncate,
    SetLen,
    Put,
    Overwrite,
    Freeze,
    IntoText,
    FromParts,
}

impl Costed {
    // Whether a buffer is gone if an allocation fails.
    pub fn is_consuming(self) -> bool {
        matches!(
            self,
            Costed::FromView | Costed::Freeze | Costed::IntoText | Costed::Coalesce
        )
    }
}

// The arguments of a call.
#[derive(Drop)]
pub struct Args {
    // The bounds of a range, its bytes, and the length of their chunks.
    lo: usize,
    hi: usize,
    bytes: &'static [u8],
    len: usize,
    // A list of zeros for these bytes, writable buffers of them, and two halves of a block that each hold them.
    room: Vec<u8>,
    parts: Vec<IoBufMut>,
    halves: Option<(BytesMut, BytesMut)>,
}

impl Args {
    pub fn new(alloc: Global, shape: &Shape, call: Costed, span: Span) -> Result<Args, BufError> {
        let bytes = shape.bytes(span);
        let parts = match call {
            Costed::FromParts => parts_of(alloc, bytes, shape.len)?,
            _ => Vec::new(alloc),
        };
        let halves = match call {
            Costed::OfSharedBytesMut | Costed::PartOfSharedBytesMut => Some(block(alloc, bytes)?),
            _ => None,
        };
        Ok(Args {
            lo: shape.bytes((Place::Start, span.0)).len(),
            hi: shape.bytes((Place::Start, span.1)).len(),
            room: vec![in alloc; 0u8; bytes.len()]?,
            bytes,
            len: shape.len,
            parts,
            halves,
        })
    }

    fn take_room(&mut self, alloc: Global) -> Vec<u8> {
        mem::replace(&mut self.room, Vec::new(alloc))
    }
}

// A buffer whose calls are counted.
pub trait Counted: Buf + Drop {
    fn make(&mut self, alloc: Global, call: Costed, args: &mut Args) -> Result<Given, BufError>;
}

// A call of every reader.
fn read<B: Buf>(
    alloc: Global,
    buf: &mut B,
    call: Costed,
    args: &mut Args,
) -> Result<Given, BufError> {
    if buf.remaining() < args.hi {
        return Err(BufError::TooLong);
    }
    match call {
        Costed::Advance => {
            buf.advance(args.hi);
            Ok(Given::Nothing)
        }
        Costed::CopyToBytes => Ok(Given::Bytes(buf.copy_to_bytes(alloc, args.hi)?)),
        Costed::Chunks | Costed::TwoChunks | Costed::ManyChunks => listed(
            alloc, buf, call, args.len,
        ),
        Costed::CopyToSlice | Costed::TryCopy => fill(buf, call, args.take_room(alloc)),
        _ => maker(alloc, call, args),
    }
}

// The chunks of a reader are listed: all, all but one, or two of them.
fn listed<B: Buf>(alloc: Global, buf: &B, call: Costed, len: usize) -> Result<Given, BufError> {
    let all = buf.remaining().div_ceil(len.max(1));
    let (most, count) = match call {
        Costed::TwoChunks => (2, all.min(2)),
        Costed::ManyChunks => (all.saturating_sub(1), all.saturating_sub(1)),
        _ => (usize::MAX, all),
    };
    nothing(buf.chunks_vectored(alloc, most)?.len() == count)
}

// The zeros are overwritten with bytes of a reader.
fn fill<B: Buf>(buf: &mut B, call: Costed, mut room: Vec<u8>) -> Result<Given, BufError> {
    if buf.remaining() < room.len() {
        return Err(BufError::TooLong);
    }
    match call {
        Costed::TryCopy => {
            nothing(buf.try_copy_to_slice(room.as_mut_slice()).is_ok())?;
        }
        _ => buf.copy_to_slice(room.as_mut_slice()),
    }
    Ok(Given::List(room))
}

// A call of a reader whose bytes can be taken or peeked at.
fn own<B: Peek>(
    alloc: Global,
    buf: &mut B,
    call: Costed,
    args: &mut Args,
) -> Result<Given, BufError> {
    let (skip, n, len) = (args.lo, args.bytes.len(), buf.remaining());
    if len < skip || len - skip < n {
        return Err(BufError::TooLong);
    }
    match call {
        Costed::TakeView => Ok(Given::View(buf.take_owned_after(alloc, skip, n)?)),
        Costed::TakeBytes => Ok(Given::Bytes(buf.take_owned_after(alloc, skip, n)?)),
        Costed::TryTake => Ok(Given::View(memory(buf.try_take_owned(alloc, n))?)),
        Costed::TryTakeBytes => Ok(Given::Bytes(memory(buf.try_take_owned(alloc, n))?)),
        Costed::PeekView => Ok(Given::View(buf.peek_owned(alloc, skip, n)?)),
        Costed::PeekBytes => Ok(Given::Bytes(buf.peek_owned(alloc, skip, n)?)),
        Costed::PeekSlice => peek(buf, skip, args.take_room(alloc)),
        _ => read(alloc, buf, call, args),
    }
}

// The zeros are overwritten with bytes that stay in the reader.
fn peek<B: Peek>(buf: &B, skip: usize, mut room: Vec<u8>) -> Result<Given, BufError> {
    let len = buf.remaining();
    if len < skip || len - skip < room.len() {
        return Err(BufError::TooLong);
    }
    buf.peek_slice(skip, room.as_mut_slice());
    Ok(Given::List(room))
}

// The error of a reader, as that of a buffer.
fn memory<T: Drop>(read: Result<T, Error>) -> Result<T, BufError> {
    read.map_err(|error| match error {
        Error::Memory => BufError::Memory,
        _ => BufError::TooLong,
    })
}

// Nothing, or the cause of a refusal that hands these bytes back. Other bytes are wrong.
fn kept(answer: Result<(), Refused<IoBuf>>, bytes: &[u8]) -> Result<Given, BufError> {
    match answer {
        Ok(()) => Ok(Given::Nothing),
        Err(refused) if refused.value.as_ref() == bytes => Err(refused.cause),
        Err(_) => Ok(Given::Wrong),
    }
}

// The bytes in place of zeros.
fn filled(mut room: Vec<u8>, bytes: &[u8]) -> Result<Vec<u8>, BufError> {
    room.clear();
    room.extend_from_slice(bytes)?;
    Ok(room)
}

fn recovered(alloc: Global, view: &mut IoBuf) -> Given {
    match mem::take(view).try_into_mut(alloc) {
        Ok(part) => Given::Part(part),
        Err(view) => Given::Shared(view),
    }
}

// The result of a call that takes the view, and hands it back if an allocation fails.
fn handed_back<T: Drop>(view: &mut IoBuf, made: Result<T, IoBuf>) -> Result<T, BufError> {
    match made {
        Ok(made) => Ok(made),
        Err(back) => {
            *view = back;
            Err(BufError::Memory)
        }
    }
}

fn into_bytes(alloc: Global, view: &mut IoBuf) -> Result<Given, BufError> {
    let made = mem::take(view).into_bytes(alloc);
    Ok(Given::Bytes(handed_back(view, made)?))
}

fn into_part(alloc: Global, view: &mut IoBuf) -> Result<Given, BufError> {
    let made = IoBufMut::from_view(alloc, mem::take(view));
    Ok(Given::Part(handed_back(view, made)?))
}

fn from_view(alloc: Global, call: Costed, view: IoBuf) -> Result<Given, BufError> {
    match call {
        Costed::ViewFromView => Ok(Given::View(OwnedBytes::from_view(alloc, view)?)),
        _ => Ok(Given::Bytes(OwnedBytes::from_view(alloc, view)?)),
    }
}

// A buffer of the first half of a block. It leaves the second half.
fn of_half(
    call: Costed,
    halves: Option<(BytesMut, BytesMut)>,
    bytes: &[u8],
) -> Result<Given, BufError> {
    let (first, second) = halves.ok_or(BufError::TooLong)?;
    let given = match call {
        Costed::OfSharedBytesMut => Given::View(IoBuf::from_bytes_mut(first)?),
        _ => Given::Part(IoBufMut::from_bytes_mut(first)?),
    };
    nothing(second.as_slice() == bytes)?;
    Ok(given)
}

// The rest after the first chunk, which is the length.
fn body(mut text: IoBufs) -> IoBufs {
    let n = text.chunk().len();
    if n <= text.remaining() {
        text.advance(n);
    }
    text
}

// The last bytes.
fn last(mut part: IoBufMut, n: usize) -> IoBufMut {
    let len = part.remaining();
    if n <= len {
        part.advance(len - n);
    }
    part
}

// The value, encoded after its length and read back.
fn read_back(alloc: Global, view: &IoBuf) -> Result<IoBuf, Error> {
    IoBuf::read_cfg(alloc, &mut view.encode_iobufs(alloc)?, &ANY)
}

// The views, every second of which is put, and the others pushed as they are or as `Bytes`.
fn built(alloc: Global, views: Vec<IoBuf>, size: usize) -> Result<IoBufs, BufError> {
    let mut builder = Builder::new(alloc, size)?;
    for (i, view) in views.into_iter().enumerate() {
        match i % 4 {
            1 => builder.push(view)?,
            3 => push_bytes(alloc, &mut builder, view)?,
            _ => {
                put(&mut builder, view.as_ref())?;
            }
        }
    }
    builder.finish()
}

fn push_bytes(alloc: Global, builder: &mut Builder, view: IoBuf) -> Result<(), BufError> {
    let bytes = view.into_bytes(alloc).map_err(|_| BufError::Memory)?;
    builder.push_bytes(bytes).map_err(|refused| refused.cause)
}

// How lengths are written, in turn.
const PREFIXES: [Prefix; 10] = [
    Prefix::Spelled,
    Prefix::Fixed(Width::U8, ByteOrder::Big),
    Prefix::Fixed(Width::U24, ByteOrder::Big),
    Prefix::Fixed(Width::U24, ByteOrder::Little),
    Prefix::Fixed(Width::U16, ByteOrder::Big),
    Prefix::Fixed(Width::U32, ByteOrder::Big),
    Prefix::Fixed(Width::U64, ByteOrder::Big),
    Prefix::Fixed(Width::U16, ByteOrder::Little),
    Prefix::Fixed(Width::U32, ByteOrder::Little),
    Prefix::Fixed(Width::U64, ByteOrder::Little),
];

// The prefix of a body's length whose turn it is, if it can write that.
fn prefix_of(len: usize) -> Prefix {
    let prefix = PREFIXES[len / 64 % 10];
    if prefix.fits(len) {
        prefix
    } else {
        Prefix::Spelled
    }
}

// The prefix of a body's length, and the length.
fn head_of(len: usize) -> Result<(Prefix, Head), BufError> {
    let prefix = prefix_of(len);
    if !prefix.fits(len) {
        return Err(BufError::TooLong);
    }
    Ok((prefix, prefix.head(len)))
}

// A body, framed, without the length before it.
fn framed(alloc: Global, text: IoBufs) -> Result<Given, BufError> {
    let prefix = prefix_of(text.len());
    match framed_with(alloc, prefix, text) {
        Ok(text) => Ok(Given::Text(body(text))),
        Err(refused) => Err(refused.cause),
    }
}

// The body of a frame that comes in chunks.
fn fed(alloc: Global, bytes: &'static [u8], len: usize) -> Result<IoBuf, BufError> {
    let (prefix, head) = head_of(bytes.len())?;
    let mut frames = Frames::new(prefix);
    frames.feed(alloc, IoBuf::copy_from_slice(alloc, head.as_slice())?)?;
    for view in cut(alloc, bytes, len)? {
        frames.feed(alloc, view)?;
    }
    memory(frames.next(alloc, &ANY))?.ok_or(BufError::TooLong)
}

// The body of a frame that is read.
fn received(alloc: Global, bytes: &'static [u8]) -> Result<IoBuf, BufError> {
    let (prefix, head) = head_of(bytes.len())?;
    let mut from = io::Read::chain(head.as_slice(), bytes);
    let mut received = Received::new(alloc, prefix);
    for _ in 0..64 {
        received.make_space()?;
        if received.read_from(&mut from).is_err() {
            return Err(BufError::TooLong);
        }
        if let Some(body) = memory(received.next(&ANY))? {
            return Ok(body);
        }
    }
    Err(BufError::TooLong)
}

// Nothing, if a buffer is right.
fn nothing(is_right: bool) -> Result<Given, BufError> {
    if is_right {
        return Ok(Given::Nothing);
    }
    Err(BufError::TooLong)
}

// A call that makes a buffer.
fn maker(alloc: Global, call: Costed, args: &mut Args) -> Result<Given, BufError> {
    match call {
        Costed::Copy => Ok(Given::View(IoBuf::copy_from_slice(alloc, args.bytes)?)),
        Costed::CopyPart => Ok(Given::Part(IoBufMut::copy_from_slice(alloc, args.bytes)?)),
        Costed::EncodeBytes => encoded(alloc, args.bytes),
        Costed::Capacity | Costed::Aligned => empty(alloc, call, args.hi),
        Costed::Zeroed | Costed::ZeroedAligned => zeroed(alloc, call, args.take_room(alloc)),
        Costed::OfSharedBytesMut | Costed::PartOfSharedBytesMut => {
            of_half(call, args.halves.take(), args.bytes)
        }
        Costed::Received => Ok(Given::View(received(alloc, args.bytes)?)),
        Costed::Join | Costed::Framed | Costed::Fed | Costed::Build => joined(alloc, call, args),
        _ => of_list(alloc, call, filled(args.take_room(alloc), args.bytes)?),
    }
}

fn encoded(alloc: Global, bytes: &'static [u8]) -> Result<Given, BufError> {
    let text = memory(Bytes::from_static(bytes).encode_iobufs(alloc))?;
    Ok(Given::Text(body(text)))
}

// An alignment at most as large as a page, or one above.
fn alignment(n: usize) -> usize {
    if n % 2 == 0 { 4096 } else { 65536 }
}

fn empty(alloc: Global, call: Costed, n: usize) -> Result<Given, BufError> {
    let part = match call {
        Costed::Aligned => IoBufMut::with_alignment(alloc, n, alignment(n))?,
        _ => IoBufMut::with_capacity(alloc, n)?,
    };
    nothing(part.capacity() == n)
}

fn zeroed(alloc: Global, call: Costed, room: Vec<u8>) -> Result<Given, BufError> {
    let part = match call {
        Costed::ZeroedAligned => IoBufMut::zeroed_with_alignment(
            alloc,
            room.len(),
            alignment(room.len()),
        )?,
        _ => IoBufMut::zeroed(alloc, room.len())?,
    };
    nothing(part.as_ref() == room.as_slice())
}

// The chunks, made one.
fn joined(alloc: Global, call: Costed, args: &Args) -> Result<Given, BufError> {
    let (bytes, len) = (args.bytes, args.len);
    match call {
        Costed::Fed => Ok(Given::View(fed(alloc, bytes, len)?)),
        Costed::Build => Ok(Given::Text(built(alloc, cut(alloc, bytes, len)?, args.hi)?)),
        _ => {
            let text = IoBufs::from_chunks(alloc, cut(alloc, bytes, len)?.into_iter())?;
            match call {
                Costed::Framed => framed(alloc, text),
                _ => Ok(Given::Text(text)),
            }
        }
    }
}

// A list is made a buffer.
fn of_list(alloc: Global, call: Costed, list: Vec<u8>) -> Result<Given, BufError> {
    match call {
        Costed::OfList => Ok(Given::View(IoBuf::from_vec(list)?)),
        Costed::PartOfList => Ok(Given::Part(IoBufMut::from(list))),
        Costed::TextOfList => Ok(Given::Text(IoBufs::from_vec(list)?)),
        Costed::OfBytesMut => Ok(Given::View(IoBuf::from_bytes_mut(BytesMut::from(list))?)),
        Costed::PartOfBytesMut => {
            Ok(Given::Part(IoBufMut::from_bytes_mut(BytesMut::from(list))?))
        }
        _ => of_bytes(alloc, call, Bytes::from_vec(list)?),
    }
}

// A `Bytes` is made a buffer.
fn of_bytes(alloc: Global, call: Costed, bytes: Bytes) -> Result<Given, BufError> {
    match call {
        Costed::OfBytes => Ok(Given::View(OwnedBytes::from_bytes(bytes)?)),
        Costed::BytesOfBytes => Ok(Given::Bytes(OwnedBytes::from_bytes(bytes)?)),
        Costed::PartOfBytes => Ok(Given::Part(IoBufMut::from_bytes(alloc, bytes)?)),
        Costed::PartOfSharedBytes => Ok(Given::Part(IoBufMut::from_bytes(alloc, bytes.clone()?)?)),
        _ => Err(BufError::BadLayout),
    }
}

impl Counted for IoBuf {
    fn make(&mut self, alloc: Global, call: Costed, args: &mut Args) -> Result<Given, BufError> {
        match call {
            Costed::Clone => Ok(Given::View(self.clone()?)),
            Costed::Slice if self.fits_range(Included(args.lo), Excluded(args.hi)) => {
                Ok(Given::View(self.slice(Included(args.lo), Excluded(args.hi))?))
            }
            Costed::SplitTo if args.hi <= self.len() => Ok(Given::View(self.split_to(args.hi)?)),
            Costed::ToVec => Ok(Given::List(self.to_vec(alloc)?)),
            Costed::Encode => Ok(Given::Part(last(memory(self.encode(alloc))?, self.len()))),
            Costed::EncodeChunks => Ok(Given::Text(body(memory(self.encode_iobufs(alloc))?))),
            Costed::Read => Ok(Given::View(memory(read_back(alloc, self))?)),
            Costed::IntoBytes => into_bytes(alloc, self),
            Costed::IntoPart => into_part(alloc, self),
            Costed::Recover => Ok(recovered(alloc, self)),
            Costed::FromView | Costed::ViewFromView => from_view(alloc, call, mem::take(self)),
            Costed::TakeAllView => Ok(Given::View(OwnedBytes::take_view(alloc, self)?)),
            Costed::TakeAllBytes => Ok(Given::Bytes(OwnedBytes::take_view(alloc, self)?)),
            _ => own(alloc, self, call, args),
        }
    }
}

fn single(text: &mut IoBufs) -> Given {
    match mem::take(text).try_into_single() {
        Ok(view) => Given::View(view),
        Err(back) => Given::Chunks(back),
    }
}

impl Counted for IoBufs {
    fn make(&mut self, alloc: Global, call: Costed, args: &mut Args) -> Result<Given, BufError> {
        match call {
            Costed::Clone => Ok(Given::Text(self.clone()?)),
            Costed::Slice if args.lo <= args.hi && args.hi <= self.len() => {
                Ok(Given::Text(self.slice(alloc, args.lo..args.hi)?))
            }
            Costed::SplitTo if args.hi <= self.len() => {
                Ok(Given::Text(self.split_to(alloc, args.hi)?))
            }
            Costed::ToVec => Ok(Given::List(self.to_vec(alloc)?)),
            Costed::Append => kept(self.append(alloc, IoBuf::from(args.bytes)), args.bytes),
            Costed::Prepend => kept(self.prepend(alloc, IoBuf::from(args.bytes)), args.bytes),
            Costed::Truncate => {
                self.truncate(alloc, args.hi)?;
                Ok(Given::Nothing)
            }
            Costed::Coalesce => Ok(Given::View(mem::take(self).coalesce(alloc)?)),
            Costed::Single => Ok(single(self)),
            _ => own(alloc, self, call, args),
        }
    }
}

fn take_part(alloc: Global, part: &mut IoBufMut) -> IoBufMut {
    mem::replace(part, IoBufMut::default(alloc))
}

impl Counted for IoBufMut {
    fn make(&mut self, alloc: Global, call: Costed, args: &mut Args) -> Result<Given, BufError> {
        match call {
            Costed::Freeze => Ok(Given::View(take_part(alloc, self).freeze()?)),
            Costed::IntoText => Ok(Given::Text(IoBufs::from_mut(take_part(alloc, self))?)),
            Costed::Truncate => {
                self.truncate(args.hi);
                Ok(Given::Nothing)
            }
            Costed::SetLen if args.hi <= self.capacity() => {
                self.set_len(args.hi);
                Ok(Given::Nothing)
            }
            Costed::Put => {
                self.clear();
                put(self, args.bytes)
            }
            _ => read(alloc, self, call, args),
        }
    }
}

fn put<B: BufMut>(into: &mut B, bytes: &[u8]) -> Result<Given, BufError> {
    if into.remaining_mut() < bytes.len() {
        return Err(BufError::TooLong);
    }
    into.put_slice(bytes);
    Ok(Given::Nothing)
}

fn take_parts(alloc: Global, parts: &mut IoBufsMut) -> IoBufsMut {
    mem::replace(parts, IoBufsMut::default(alloc))
}

fn single_part(alloc: Global, parts: &mut IoBufsMut) -> Given {
    match take_parts(alloc, parts).try_into_single() {
        Ok(part) => Given::Part(part),
        Err(back) => Given::Parts(back),
    }
}

impl Counted for IoBufsMut {
    fn make(&mut self, alloc: Global, call: Costed, args: &mut Args) -> Result<Given, BufError> {
        match call {
            Costed::Freeze => Ok(Given::Text(take_parts(alloc, self).freeze(alloc)?)),
            Costed::Coalesce => Ok(Given::Part(take_parts(alloc, self).coalesce(alloc)?)),
            Costed::Single => Ok(single_part(alloc, self)),
            Costed::FromParts => {
                let parts = mem::replace(&mut args.parts, Vec::new(alloc));
                *self = IoBufsMut::from_parts(alloc, parts.into_iter())?;
                Ok(Given::Nothing)
            }
            Costed::SetLen if args.hi <= self.capacity() => {
                self.set_len(args.hi);
                Ok(Given::Nothing)
            }
            Costed::Put if self.capacity() > 0 => {
                self.set_len(0);
                put(self, args.bytes)
            }
            Costed::Overwrite if self.len() == args.bytes.len() => {
                self.copy_from_slice(args.bytes);
                Ok(Given::Nothing)
            }
            _ => read(alloc, self, call, args),
        }
    }
}
