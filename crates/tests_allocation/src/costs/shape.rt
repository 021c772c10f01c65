// The model: a list of bytes, and where it is cut.
use iobufs_core::codec::{Buf, BufError};
use std::alloc::Global;

// A place in the bytes of a buffer.
#[derive(Clone, Copy)]
pub enum Place {
    // One chunk before the first byte.
    Before,
    Start,
    // So many 64ths of the bytes.
    Part(usize),
    // Two that the shape has.
    Lower,
    Upper,
    // The end of the first chunk.
    FirstEnd,
    End,
    // One chunk after the last byte.
    After,
}

// From a place to another.
pub type Span = (Place, Place);

// A buffer of `count` chunks of `len` bytes each. It holds what follows the first `len` bytes of `all`, which has `len`
// bytes more after it.
#[derive(Clone, Copy)]
pub struct Shape {
    pub all: &'static [u8],
    pub count: usize,
    pub len: usize,
    // Two offsets in 65,536ths of the number of bytes.
    pub lower: usize,
    pub upper: usize,
}

// How many bytes are made before they repeat: a prime number.
const PERIOD: usize = 65521;

// Bytes that repeat late.
pub fn pattern(alloc: Global, len: usize) -> Result<&'static [u8], BufError> {
    let mut block = Vec::with_capacity(alloc, PERIOD)?;
    for i in 0..PERIOD {
        let mixed = i.wrapping_mul(7).wrapping_add(i / 251) % 253;
        block.push(u8::try_from(mixed).unwrap_or(0))?;
    }
    let mut bytes = Vec::with_capacity(alloc, len.saturating_add(PERIOD))?;
    for _ in 0..=len / PERIOD {
        bytes.extend_from_slice(block.as_slice())?;
    }
    bytes.truncate(len);
    Ok(bytes.leak())
}

impl Shape {
    pub fn new(alloc: Global, count: usize, len: usize) -> Result<Shape, BufError> {
        let all = pattern(alloc, count.saturating_add(2).saturating_mul(len))?;
        Ok(Shape {
            all,
            count,
            len,
            lower: 21 << 10,
            upper: 43 << 10,
        })
    }

    // The number of bytes.
    pub fn size(&self) -> usize {
        self.count.saturating_mul(self.len)
    }

    // An offset into `all`.
    fn offset(&self, place: Place) -> usize {
        let (size, len) = (self.size(), self.len);
        let part = |n: usize| (size.saturating_mul(n) >> 16).saturating_add(len);
        match place {
            Place::Before => 0,
            Place::Start => len,
            Place::Part(n) => part(n.saturating_mul(1024)),
            Place::Lower => part(self.lower),
            Place::Upper => part(self.upper),
            Place::FirstEnd => len.saturating_add(len),
            Place::End => size.saturating_add(len),
            Place::After => size.saturating_add(len).saturating_add(len),
        }
    }

    // The bytes of a range.
    pub fn bytes(&self, span: Span) -> &'static [u8] {
        self.all
            .get(self.offset(span.0)..self.offset(span.1))
            .unwrap_or_default()
    }

    // Whether a reader holds the bytes of a range, in chunks that end at multiples of the length.
    pub fn holds<B: Buf>(&self, alloc: Global, buf: &B, span: Span) -> Result<bool, BufError> {
        let (mut at, end) = (self.offset(span.0), self.offset(span.1));
        for chunk in buf.chunks_vectored(alloc, usize::MAX)? {
            let past = at.saturating_add(self.len);
            let next = end.min(past.saturating_sub(past.checked_rem(self.len).unwrap_or(0)));
            if self.all.get(at..next) != Some(chunk) {
                return Ok(false);
            }
            at = next;
        }
        Ok(at == end)
    }
}
