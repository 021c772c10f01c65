// Chunks in a deque, found by where they end.
ghost use Rattle.std.specs.Fn.{CalledAt};
ghost use Rattle.std.specs.List.{FoldsTo};
ghost use Rattle.std.specs.Option.{option_copied};
ghost use Rattle.std.specs.Prelude.{◌≡◌, ◌+◌, ◌-◌, ◌*◌, ◌^◌, ◌<◌, ◌≤◌, ◌++◌, [], ◌∷◌, ◌==◌, if◌then◌else◌, nat_le, nat_lt, length, map, take, drop, slice_get, IfOk, IfErr, IsOk, OnOk, OnErr, IsOkUnless, IsTrue, IsFalse, vec_capacity, vec_len};
ghost use Rattle.std.specs.VecDeque.{deque_len, deque_capacity};
ghost use Rattle.iobufs_core.specs.Part.{part_put};
ghost use Rattle.iobufs_core.specs.View.{IsView, static_mark, view_front};
ghost use Rattle.iobufs.specs.Inside.Ends.{cut_piece, shortened, views_in};
ghost use Rattle.iobufs.specs.Inside.Pieces.{AreFull, IsChunkPlace, left_pieces, piece_at, piece_start, pieces_bytes, right_pieces, view_len};

mod gaps;

use super::search::{Ends, Located, find_end};
pub(crate) use gaps::Gapped;
use iobufs_core::buf::{IoBuf, IoBufMut};
use iobufs_core::codec::{Buf, BufError, BufMut, OwnedBytes};
use std::alloc::{AllocError, AllocFailed, Global};
use std::collections::VecDeque;
use std::marker::Model;
use std::mem;
use std::ops::Bound;

// A chunk, and its end: the base of its row plus the number of bytes up to where it ends, modulo 2^64.
#[derive(Drop)]
struct Entry {
    view: IoBuf,
    end: u64,
}

impl Clone for Entry {
    ghost is_clone = { λ a b. b ≡ a };

    fn clone(&self) -> Result<Entry, AllocError> {
        Ok(Entry {
            view: self.view.clone()?,
            end: self.end,
        })
    }
}

// One chunk, or some whose entries are next to each other in a deque.
#[derive(Clone, Copy)]
enum Run<'a> {
    One(&'a [u8]),
    Several(&'a [Entry]),
}

/// Some chunks of an `IoBufs`, in order (own, for layers). Its value is the list of their bytes.
#[derive(Drop)]
pub struct ChunkSlice<'a> {
    run: Run<'a>,
}

impl<'a> Model for ChunkSlice<'a> {
    ghost use Rattle.std.specs.Prelude.{ℕ, List};

    ghost Value = { List (List ℕ) };

    ghost use Rattle.iobufs.specs.Inside.Ends.{run_chunks};

    ghost view = { λ slice. run_chunks slice.run };
}

impl<'a> ChunkSlice<'a> {
    // No chunks.
    pub(super) fn none() -> ChunkSlice<'a>
        ensures { result ≡ [] }
    {
        ChunkSlice {
            run: Run::Several(&[]),
        }
    }

    // One chunk.
    pub(super) fn one(chunk: &'a [u8]) -> ChunkSlice<'a>
        ensures { result ≡ chunk.now ∷ [] }
    {
        ChunkSlice {
            run: Run::One(chunk),
        }
    }

    /// Returns the number of chunks (own).
    pub fn len(&self) -> usize
        ensures { result ≡ length self.now }
    {
        match self.run {
            Run::One(_) => 1,
            Run::Several(entries) => entries.len(),
        }
    }

    /// Borrows a chunk by its index (own).
    pub fn get(&self, i: usize) -> Option<&'a [u8]>
        ensures { option_copied result ≡ slice_get self.now i }
    {
        match self.run {
            Run::One(chunk) => match i {
                0 => Some(chunk),
                _ => None,
            },
            Run::Several(entries) => match entries.get(i) {
                Some(piece) => Some(piece.view.as_ref()),
                None => None,
            },
        }
    }
}

/// Chunks that hold bytes, in a deque. Bytes that come or go at the front change the base and no end:
///
/// ```text
/// base 0   | a b c | d e |   ends 3, 5
/// base 3           | d e |   ends 5      the first is gone
/// base 2       | x | d e |   ends 3, 5   another came at the front
/// ```
pub(crate) struct Row {
    base: u64,
    entries: VecDeque<Entry>,
}

impl Drop for Row {
    fn drop(self) {
        let Row {
            base: _,
            entries: _,
        } = self;
    }
}

impl Model for Row {
    ghost use Rattle.iobufs.specs.Inside.RowValues.{ViewRow};

    ghost Value = { ViewRow };

    ghost use Rattle.std.specs.VecDeque.{deque_capacity};
    ghost use Rattle.iobufs.specs.Inside.Ends.{IsRow, views_in};

    ghost view = { λ r. record { views = views_in r.entries.items; room = deque_capacity r.entries } };

    ghost invariant = { λ r. IsRow r.base r.entries.items };
}

impl Row {
    /// No chunks yet, and space for `room`.
    pub(crate) fn with_room(alloc: Global, room: usize) -> Result<Row, AllocError>
        ensures views { IfOk result (λ row. row.views ≡ []) }
        ensures room { IfOk result (λ row. room ≤ row.room) }
    {
        Ok(Row {
            base: 0,
            entries: VecDeque::with_capacity(alloc, room)?,
        })
    }

    /// The number of bytes: the last end less the base.
    pub(super) fn len(&self) -> usize
        ensures value { result ≡ length (pieces_bytes self.now.views) }
        ensures full { AreFull self.now.views }
    {
        match self.entries.back() {
            Some(piece) => piece.end.wrapping_sub(self.base) as usize,
            None => 0,
        }
    }

    pub(super) fn count(&self) -> usize
        ensures value { result ≡ length self.now.views }
        ensures full { AreFull self.now.views }
    {
        self.entries.len()
    }

    pub(super) fn get(&self, i: usize) -> Option<&IoBuf>
        ensures { option_copied result ≡ slice_get self.now.views i }
    {
        match self.entries.get(i) {
            Some(piece) => Some(&piece.view),
            None => None,
        }
    }

    pub(super) fn piece(&self, i: usize) -> &IoBuf
        requires { i < length self.now.views }
        ensures { result.now ≡ piece_at self.now.views i }
    {
        self.get(i).unwrap()
    }

    /// Adds a chunk at the end, for a length of `len`.
    pub(super) fn push_back(&mut self, piece: IoBuf, len: usize) -> Result<(), AllocFailed<IoBuf>>
        requires some { 0 < length piece.bytes }
        requires total { len ≡ length (pieces_bytes self.old.views) + length piece.bytes }
        ensures done { OnOk result (self.new.views ≡ self.old.views ++ piece ∷ []) }
        ensures unchanged { OnErr result (self.new.views ≡ self.old.views) }
        ensures handed_back { IfErr result (λ e. e.value ≡ piece) }
    {
        if self.entries.try_reserve(1).is_err() {
            return Err(AllocFailed { value: piece });
        }
        self.push_back_reserved(piece, len);
        Ok(())
    }

    /// Whether one more chunk doesn't allocate.
    #[inline(always)]
    pub(super) fn has_room(&self) -> bool
        ensures { result ≡ nat_lt (length self.now.views) self.now.room }
    {
        self.entries.len() < self.entries.capacity()
    }

    /// Whether the deque is so small that it may stay for one chunk.
    pub(super) fn is_small(&self) -> bool
        ensures { result ≡ nat_le self.now.room 8 }
    {
        self.entries.capacity() <= SMALL
    }

    /// Calls `visit` on the bytes of each chunk, in order.
    pub(super) fn for_each<F: FnMut(&[u8])>(&self, visit: F)
        requires { F.IsAlwaysCallable visit }
        ensures { (last : F)
            × FoldsTo (λ before chunk after. CalledAt F.FnMut before chunk tt after) visit
            (map (λ view. view.bytes) self.now.views) last }
    {
        let (front, behind) = self.entries.as_slices();
        let visit = show(front, visit);
        show(behind, visit);
    }

    /// The chunks from an index on.
    pub(super) fn chunk_slices_from(&self, first: usize) -> (ChunkSlice<'_>, ChunkSlice<'_>)
        ensures { result.0 ++ result.1 ≡ drop first (map (λ view. view.bytes) self.now.views) }
    {
        let (front, behind) = self.entries.as_slices();
        if first < front.len() {
            return (
                ChunkSlice {
                    run: Run::Several(&front[first..]),
                },
                ChunkSlice {
                    run: Run::Several(behind),
                },
            );
        }
        let skip = (first - front.len()).min(behind.len());
        (
            ChunkSlice {
                run: Run::Several(&behind[skip..]),
            },
            ChunkSlice::none(),
        )
    }

    /// Puts the bytes of all chunks into a buffer that has space for them.
    pub(super) fn copy_to(&self, copy: &mut IoBufMut)
        requires { length (pieces_bytes self.now.views) ≤ copy.old.spare }
        ensures { copy.new ≡ part_put copy.old (pieces_bytes self.now.views) }
    {
        let (front, behind) = self.entries.as_slices();
        put_all(front, copy);
        put_all(behind, copy);
    }

    /// Adds a chunk at the end; an empty one changes nothing.
    #[inline(always)]
    pub(crate) fn add(&mut self, piece: IoBuf)
        requires fits { length (pieces_bytes self.old.views) + length piece.bytes < 2 ^ 64 }
        requires room { length self.old.views < self.old.room }
        ensures added { self.new.views ≡ (if length piece.bytes == 0 then self.old.views else self.old.views
            ++ piece ∷ []) }
        ensures same_room { self.new.room ≡ self.old.room }
        ensures view { IsView piece }
    {
        let more = piece.len();
        if more != 0 {
            self.push_back_reserved(piece, self.len() + more);
        }
    }

    /// Acts as `push_back`, within the reserved space.
    pub(crate) fn push_back_reserved(&mut self, piece: IoBuf, len: usize)
        requires some { 0 < length piece.bytes }
        requires total { len ≡ length (pieces_bytes self.old.views) + length piece.bytes }
        requires room { length self.old.views < self.old.room }
        ensures pushed { self.new.views ≡ self.old.views ++ piece ∷ [] }
        ensures same_room { self.new.room ≡ self.old.room }
    {
        let end = self.base.wrapping_add(len as u64);
        self.entries.push_back_reserved(Entry { view: piece, end });
    }

    /// Adds a chunk at the start.
    pub(super) fn push_front(&mut self, piece: IoBuf) -> Result<(), AllocFailed<IoBuf>>
        requires some { 0 < length piece.bytes }
        requires fits { length (pieces_bytes self.old.views) + length piece.bytes < 2 ^ 64 }
        ensures done { OnOk result (self.new.views ≡ piece ∷ self.old.views) }
        ensures unchanged { OnErr result (self.new.views ≡ self.old.views) }
        ensures handed_back { IfErr result (λ e. e.value ≡ piece) }
    {
        if self.entries.try_reserve(1).is_err() {
            return Err(AllocFailed { value: piece });
        }
        let ahead = piece.len();
        self.push_front_reserved(piece, ahead);
        Ok(())
    }

    /// Acts as `push_front`, within the reserved space; the chunk has `ahead` bytes.
    #[inline(always)]
    pub(super) fn push_front_reserved(&mut self, piece: IoBuf, ahead: usize)
        requires some { 0 < length piece.bytes }
        requires ahead { ahead ≡ length piece.bytes }
        requires fits { length (pieces_bytes self.old.views) + length piece.bytes < 2 ^ 64 }
        requires room { length self.old.views < self.old.room }
        ensures pushed { self.new.views ≡ piece ∷ self.old.views }
        ensures same_room { self.new.room ≡ self.old.room }
    {
        let end = self.base;
        self.entries.push_front_reserved(Entry { view: piece, end });
        self.base = end.wrapping_sub(ahead as u64);
    }

    pub(super) fn pop_front(&mut self) -> IoBuf
        requires { 0 < length self.old.views }
        ensures { self.old.views ≡ result ∷ self.new.views }
    {
        let piece = self.entries.pop_front().unwrap();
        self.base = piece.end;
        piece.view
    }

    /// Makes a value of the first chunk, and removes it.
    pub(super) fn take_first<T: OwnedBytes>(&mut self, alloc: Global) -> Result<T, BufError>
        requires { 0 < length self.old.views }
        ensures made { IfOk result (T.makes (piece_at self.old.views 0)) }
        ensures left { OnOk result (self.new.views ≡ drop 1 self.old.views) }
        ensures unchanged { OnErr result (self.new.views ≡ self.old.views) }
        ensures memory { IsOkUnless result BufError.Memory }
        ensures free { T.is_free (piece_at self.old.views 0) → IsOk result }
    {
        let mut piece = self.entries.pop_front().unwrap();
        match T::take_view(alloc, &mut piece.view) {
            Ok(made) => {
                self.base = piece.end;
                Ok(made)
            }
            Err(error) => {
                self.entries.push_front_reserved(piece);
                Err(error)
            }
        }
    }

    /// Drops the first `n` bytes if the first chunk has more. Else nothing changes.
    pub(super) fn shorten(&mut self, n: usize) -> bool
        requires { 0 < length self.old.views }
        ensures answer { result ≡ nat_lt n (view_len (piece_at self.old.views 0)) }
        ensures left { IsTrue result → self.new.views ≡ right_pieces self.old.views n }
        ensures same { IsFalse result → self.new.views ≡ self.old.views }
    {
        if !drop_inside(&mut self.entries, n) {
            return false;
        }
        self.base = self.base.wrapping_add(n as u64);
        true
    }

    /// Acts as `shorten` if there are several chunks. Else nothing changes.
    #[inline(always)]
    pub(super) fn shorten_several(&mut self, n: usize) -> bool
        ensures left { IsTrue result → (n < view_len (piece_at self.old.views 0))
            × (self.new.views ≡ right_pieces self.old.views n) }
        ensures same { IsFalse result → self.new.views ≡ self.old.views }
        ensures whole { IsFalse result → 1 < length self.old.views → view_len (piece_at self.old.views 0) ≤ n }
    {
        self.count() > 1 && self.shorten(n)
    }

    /// Drops the first `n` bytes, the first chunk among them.
    pub(super) fn drop_front(&mut self, n: usize)
        requires first { view_len (piece_at self.old.views 0) ≤ n }
        requires inside { n < length (pieces_bytes self.old.views) }
        ensures { self.new.views ≡ right_pieces self.old.views n }
    {
        let mut left = n - self.pop_front().len();
        while !self.shorten(left) {
            left -= self.pop_front().len();
        }
    }

    /// The chunk that contains an offset.
    pub(super) fn locate(&self, at: usize) -> Located
        requires { at < length (pieces_bytes self.now.views) }
        ensures place { IsChunkPlace self.now.views at result.index result.offset }
        ensures fits { length (pieces_bytes self.now.views) < 2 ^ 64 }
        ensures probes { 2 ^ result.probes ≤ 2 * length self.now.views }
        ensures halves { length self.now.views < 2 ^ (result.probes + 1) }
    {
        let mut ends = Looking {
            entries: &self.entries,
            base: self.base,
            place: at as u64,
            probes: 0,
        };
        let index = find_end(&mut ends);
        Located {
            index,
            offset: at - self.start(index),
            probes: ends.probes(),
        }
    }

    /// Clones of a chunk and of the `behind` chunks after it.
    pub(super) fn run(&self, alloc: Global, first: usize, behind: usize) -> Result<Row, AllocError>
        requires { first + behind < length self.now.views }
        ensures { IfOk result (λ run. run.views ≡ take (behind + 1) (drop first self.now.views)) }
    {
        let base = self.base.wrapping_add(self.start(first) as u64);
        let count = behind + 1;
        let mut entries = VecDeque::with_capacity(alloc, count)?;
        clone_run(&self.entries, &mut entries, first, count)?;
        Ok(Row { base, entries })
    }

    // The number of bytes before a chunk.
    fn start(&self, index: usize) -> usize
        requires { index < length self.now.views }
        ensures { result ≡ piece_start self.now.views index }
    {
        if index == 0 {
            return 0;
        }
        let before = self.entries.get(index - 1).unwrap();
        before.end.wrapping_sub(self.base) as usize
    }

    /// Takes the first bytes, of the first chunk alone.
    pub(super) fn split_first(&mut self, at: usize) -> Result<IoBuf, BufError>
        requires some { 0 < at }
        requires inside { at ≤ view_len (piece_at self.old.views 0) }
        ensures answer { IfOk result (λ front. front ∷ [] ≡ left_pieces self.old.views at) }
        ensures left { OnOk result (self.new.views ≡ right_pieces self.old.views at) }
        ensures unchanged { OnErr result (self.new.views ≡ self.old.views) }
        ensures memory { IsOkUnless result BufError.Memory }
        ensures whole { at ≡ view_len (piece_at self.old.views 0) → IsOk result }
        ensures static_text { (piece_at self.old.views 0).mark ≡ static_mark → IsOk result }
    {
        if at == self.piece(0).len() {
            return Ok(self.pop_front());
        }
        let Some(first) = self.entries.front_mut() else {
            unreachable!()
        };
        let front = first.view.split_to(at)?;
        self.base = self.base.wrapping_add(at as u64);
        Ok(front)
    }

    /// Takes the bytes from an offset in the last chunk on.
    pub(super) fn split_last(&mut self, place: Located, at: usize) -> Result<IoBuf, BufError>
        requires place { IsChunkPlace self.old.views at place.index place.offset }
        requires last { place.index + 1 ≡ length self.old.views }
        ensures answer { IfOk result (λ last. last ∷ [] ≡ right_pieces self.old.views at) }
        ensures left { OnOk result (self.new.views ≡ left_pieces self.old.views at) }
        ensures unchanged { OnErr result (self.new.views ≡ self.old.views) }
        ensures memory { IsOkUnless result BufError.Memory }
        ensures edge { place.offset ≡ 0 → IsOk result }
    {
        if place.offset == 0 {
            let last = self.entries.pop_back().unwrap();
            return Ok(last.view);
        }
        let view = front_of(&self.entries, place.index, place.offset)?;
        let end = self.base.wrapping_add(at as u64);
        let mut piece = self.entries.pop_back().unwrap();
        piece.view.advance(place.offset);
        self.entries.push_back_reserved(Entry { view, end });
        Ok(piece.view)
    }

    /// Takes the first bytes, up to an offset. Allocates a deque for the side with fewer chunks, or for either if they
    /// have equally many.
    pub(super) fn split_front(
        &mut self,
        alloc: Global,
        place: Located,
        at: usize,
    ) -> Result<Row, BufError>
        requires place { IsChunkPlace self.old.views at place.index place.offset }
        ensures answer { IfOk result (λ front. front.views ≡ left_pieces self.old.views at) }
        ensures left { OnOk result (self.new.views ≡ right_pieces self.old.views at) }
        ensures unchanged { OnErr result (self.new.views ≡ self.old.views) }
        ensures memory { IsOkUnless result BufError.Memory }
    {
        if place.index < self.count() - place.index {
            return self.split_left(alloc, place, at);
        }
        self.split_right(place, at)
    }

    // Reserves space, shares the bytes before the offset in its chunk, moves the chunks before it, and then cuts.
    fn split_left(&mut self, alloc: Global, place: Located, at: usize) -> Result<Row, BufError>
        requires place { IsChunkPlace self.old.views at place.index place.offset }
        requires fits { place.index + 1 < 2 ^ 64 }
        ensures answer { IfOk result (λ front. front.views ≡ left_pieces self.old.views at) }
        ensures left { OnOk result (self.new.views ≡ right_pieces self.old.views at) }
        ensures unchanged { OnErr result (self.new.views ≡ self.old.views) }
        ensures memory { IsOkUnless result BufError.Memory }
    {
        let mut front = VecDeque::with_capacity(alloc, place.index + 1)?;
        let inside = front_of(&self.entries, place.index, place.offset)?;
        let base = self.base;
        self.base = base.wrapping_add(at as u64);
        move_front(&mut self.entries, &mut front, place.index);
        cut(
            &mut front,
            &mut self.entries,
            inside,
            place.offset,
            self.base,
        );
        Ok(Row {
            base,
            entries: front,
        })
    }

    // Shares the bytes before the offset in its chunk, moves the chunks from there on into a deque of their own, and
    // then cuts.
    fn split_right(&mut self, place: Located, at: usize) -> Result<Row, BufError>
        requires place { IsChunkPlace self.old.views at place.index place.offset }
        ensures answer { IfOk result (λ front. front.views ≡ left_pieces self.old.views at) }
        ensures left { OnOk result (self.new.views ≡ right_pieces self.old.views at) }
        ensures unchanged { OnErr result (self.new.views ≡ self.old.views) }
        ensures memory { IsOkUnless result BufError.Memory }
    {
        let inside = front_of(&self.entries, place.index, place.offset)?;
        let mut entries = split_off(&mut self.entries, place.index)?;
        let base = self.base.wrapping_add(at as u64);
        cut(&mut self.entries, &mut entries, inside, place.offset, base);
        Ok(mem::replace(self, Row { base, entries }))
    }
}

/// A row in the making, with its entries in a `Vec`.
pub(crate) struct NewRow {
    entries: Vec<Entry>,
    len: usize,
}

// Written out, as that of `Row`.
impl Drop for NewRow {
    fn drop(self) {
        let NewRow { entries: _, len: _ } = self;
    }
}

impl Model for NewRow {
    ghost use Rattle.iobufs.specs.Inside.RowValues.{ViewRow};

    ghost Value = { ViewRow };

    ghost use Rattle.std.specs.Prelude.{length, vec_capacity, ◌≡◌};
    ghost use Rattle.iobufs.specs.Inside.Ends.{IsRow, views_in};
    ghost use Rattle.iobufs.specs.Inside.Pieces.{pieces_bytes};

    ghost view = { λ r. record { views = views_in r.entries.items; room = vec_capacity r.entries } };

    ghost invariant = { λ r. IsRow 0 r.entries.items × (r.len ≡ length (pieces_bytes (views_in r.entries.items))) };
}

impl NewRow {
    /// No chunks yet, and space for `room`.
    pub(crate) fn with_room(alloc: Global, room: usize) -> Result<NewRow, AllocError>
        ensures views { IfOk result (λ row. row.views ≡ []) }
        ensures room { IfOk result (λ row. room ≤ row.room) }
    {
        Ok(NewRow {
            entries: Vec::with_capacity(alloc, room)?,
            len: 0,
        })
    }

    /// Acts as `add` of `Row`.
    #[inline(always)]
    pub(crate) fn add(&mut self, piece: IoBuf)
        requires fits { length (pieces_bytes self.old.views) + length piece.bytes < 2 ^ 64 }
        requires room { length self.old.views < self.old.room }
        ensures added { self.new.views ≡ (if length piece.bytes == 0 then self.old.views else self.old.views
            ++ piece ∷ []) }
        ensures same_room { self.new.room ≡ self.old.room }
        ensures view { IsView piece }
    {
        let more = piece.len();
        if more != 0 {
            self.len += more;
            let end = self.len as u64;
            self.entries.push_reserved(Entry { view: piece, end });
        }
    }

    /// The row that was made.
    pub(crate) fn finish(self) -> Row
        ensures { result.views ≡ self.views }
    {
        let NewRow { entries, len: _ } = self;
        Row {
            base: 0,
            entries: VecDeque::from_vec(entries),
        }
    }
}

// The bytes of a chunk before an offset in it.
fn front_of(row: &VecDeque<Entry>, index: usize, offset: usize) -> Result<IoBuf, BufError>
    requires { offset < view_len (piece_at (views_in row.now.items) index) }
    ensures inside { 0 < offset → IfOk result
        (λ front. front ≡ view_front (piece_at (views_in row.now.items) index) offset) }
    ensures index { index < deque_len row.now }
    ensures memory { IsOkUnless result BufError.Memory }
{
    let piece = row.get(index).unwrap();
    piece.view.slice(Bound::Unbounded, Bound::Excluded(offset))
}

// Calls `visit` on the bytes of each chunk, in order, and returns it.
fn show<F: FnMut(&[u8])>(entries: &[Entry], mut visit: F) -> F
    requires { F.IsAlwaysCallable visit }
    ensures callable { F.IsAlwaysCallable result }
    ensures shown { FoldsTo (λ before chunk after. CalledAt F.FnMut before chunk tt after) visit
        (map (λ piece. piece.view.bytes) entries.now) result }
{
    for piece in entries {
        visit(piece.view.as_ref());
    }
    visit
}

// Puts the bytes of each chunk after those of a buffer that has space for them.
fn put_all(entries: &[Entry], copy: &mut IoBufMut)
    requires { length (pieces_bytes (views_in entries.now)) ≤ copy.old.spare }
    ensures { copy.new ≡ part_put copy.old (pieces_bytes (views_in entries.now)) }
{
    let mut left = entries;
    while let Some((piece, rest)) = left.split_first() {
        copy.put_slice(piece.view.as_ref());
        left = rest;
    }
}

// Drops bytes of the first chunk if it has more. Else nothing changes.
#[inline(always)]
fn drop_inside(row: &mut VecDeque<Entry>, n: usize) -> bool
    requires { 0 < deque_len row.old }
    ensures answer { result ≡ nat_lt n (view_len (piece_at (views_in row.old.items) 0)) }
    ensures left { IsTrue result → row.new.items ≡ shortened row.old.items n }
    ensures same { IsFalse result → row.new.items ≡ row.old.items }
{
    match row.front_mut() {
        Some(first) => {
            if n >= first.view.len() {
                return false;
            }
            first.view.advance(n);
            true
        }
        None => unreachable!(),
    }
}

// A deque with space for more chunks than this isn't kept for a single one.
const SMALL: usize = 8;

// Fewer chunks than this are moved one by one.
const FEW: usize = 8;

// Takes the chunks from an index on. Fewer than `FEW`, or than a quarter of those before the index, are moved one by
// one. Otherwise a `Vec` moves them at once, and those before the index may move too.
fn split_off(entries: &mut VecDeque<Entry>, at: usize) -> Result<VecDeque<Entry>, AllocError>
    requires { at ≤ deque_len entries.old }
    ensures items { OnOk result (entries.new.items ≡ take at entries.old.items) }
    ensures len { OnOk result (deque_len entries.new ≡ at) }
    ensures tail { IfOk result (λ rest. rest.items ≡ drop at entries.old.items) }
    ensures tail_len { IfOk result (λ rest. deque_len rest + at ≡ deque_len entries.old) }
    ensures err { OnErr result (entries.new.items ≡ entries.old.items) }
    ensures capacity { deque_capacity entries.new ≡ deque_capacity entries.old }
{
    let count = entries.len() - at;
    if count < FEW || count < at / 4 {
        return entries.split_off(at);
    }
    let alloc = *entries.allocator();
    let mut front = mem::replace(entries, VecDeque::new(alloc)).into_vec();
    let rest = front.split_off(at);
    *entries = VecDeque::from_vec(front);
    Ok(VecDeque::from_vec(rest?))
}

// Cuts a chunk in two: its first bytes, `inside`, go after the front chunks, and the first of those after keeps the
// others. Nothing changes if `offset` is 0.
fn cut(
    front: &mut VecDeque<Entry>,
    behind: &mut VecDeque<Entry>,
    inside: IoBuf,
    offset: usize,
    end: u64,
)
    requires room { deque_len front.old < deque_capacity front.old }
    requires inside { offset < view_len (piece_at (views_in behind.old.items) 0) }
    ensures front { front.new.items ≡ front.old.items ++ cut_piece inside end offset }
    ensures behind { behind.new.items ≡ shortened behind.old.items offset }
{
    if offset == 0 {
        return;
    }
    front.push_back_reserved(Entry { view: inside, end });
    drop_inside(behind, offset);
}

// Moves the first chunks from one row to the end of the other.
fn move_front(row: &mut VecDeque<Entry>, front: &mut VecDeque<Entry>, count: usize)
    requires some { count ≤ deque_len row.old }
    requires room { deque_len front.old + count ≤ deque_capacity front.old }
    ensures moved { front.new.items ≡ front.old.items ++ take count row.old.items }
    ensures left { row.new.items ≡ drop count row.old.items }
    ensures len { deque_len row.new + count ≡ deque_len row.old }
    ensures front_len { deque_len front.new ≡ deque_len front.old + count }
    ensures capacity { deque_capacity row.new ≡ deque_capacity row.old }
    ensures front_capacity { deque_capacity front.new ≡ deque_capacity front.old }
{
    for _ in 0..count {
        front.push_back_reserved(row.pop_front().unwrap());
    }
}

// Puts clones of `count` chunks from `first` on after those of another row, which has space for them.
fn clone_run(
    row: &VecDeque<Entry>,
    run: &mut VecDeque<Entry>,
    first: usize,
    count: usize,
) -> Result<(), AllocError>
    requires inside { first + count ≤ deque_len row.now }
    requires room { deque_len run.old + count ≤ deque_capacity run.old }
    ensures { OnOk result (run.new.items ≡ run.old.items ++ take count (drop first row.now.items)) }
{
    for i in 0..count {
        let piece = row.get(first + i).unwrap();
        run.push_back_reserved(piece.clone()?);
    }
    Ok(())
}

impl Clone for Row {
    ghost is_clone = { λ a b. b.views ≡ a.views };

    fn clone(&self) -> Result<Row, AllocError> {
        Ok(Row {
            base: self.base,
            entries: self.entries.clone()?,
        })
    }
}

// An offset that is sought among the ends of a row.
#[derive(Drop)]
struct Looking<'a> {
    entries: &'a VecDeque<Entry>,
    base: u64,
    place: u64,
    probes: u32,
}

impl<'a> Model for Looking<'a> {
    ghost use Rattle.iobufs.specs.Inside.RowValues.{Sought};

    ghost Value = { Sought };

    ghost use Rattle.iobufs.specs.Inside.Ends.{IsSearch, ends_from};

    ghost view = { λ s. record { ends = ends_from s.base s.entries.now.items; place = s.place; probed = s.probes } };

    ghost invariant = { λ s. IsSearch (ends_from s.base s.entries.now.items) s.place };
}

impl<'a> Ends for Looking<'a> {
    ghost ends = { λ s. s.ends };

    ghost place = { λ s. s.place };

    ghost probed = { λ s. s.probed };

    fn count(&self) -> usize {
        self.entries.len()
    }

    fn past(&mut self, i: usize) -> bool {
        self.probes += 1;
        let piece = self.entries.get(i).unwrap();
        self.place < piece.end.wrapping_sub(self.base)
    }

    fn probes(&self) -> u32 {
        self.probes
    }
}
