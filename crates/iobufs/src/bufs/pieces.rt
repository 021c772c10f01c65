// One chunk, or a row of some.
ghost use Rattle.iobufs.specs.Inside.Pieces.{AreFull, IsPieces, IsChunkPlace, advanced_pieces, behind_first, left_pieces, rest_pieces, right_pieces, piece_at, pieces_bytes, view_len, bytes_behind};
ghost use Rattle.iobufs.specs.Inside.Several.{views, IsPieced};
ghost use Rattle.iobufs_core.specs.Part.{part_frozen, part_put};
ghost use Rattle.iobufs_core.specs.View.{View, IsFreelyShared, default_view, static_mark};
ghost use Rattle.std.specs.Option.{option_copied};
ghost use Rattle.std.specs.Prelude.{◌≡◌, List, ◌+◌, ◌*◌, ◌<◌, ◌≤◌, ◌^◌, ◌++◌, [], ◌∷◌, OnOk, OnErr, IfOk, IfErr, IsOk, IsOkUnless, MatchResult, IsTrue, IsFalse, nat_le, length, slice_get, take, drop, map, Err, ℕ, MatchOption};

use super::reserved::put_reserved;
use super::row::Row;
use super::search::Located;
use iobufs_core::buf::{IoBuf, IoBufMut};
use iobufs_core::codec::{Buf, BufError, BufMut, OwnedBytes};
use std::alloc::{AllocError, AllocFailed, Global};
use std::marker::Model;
use std::mem;

/// The chunks of an `IoBufs`, in order: at least one, and of several none is empty.
pub(super) struct Pieces {
    pub(super) form: Form,
}

/// One chunk, or a row. A row of one is kept only if its deque is small (`Row::is_small`).
#[derive(Drop)]
pub(super) enum Form {
    One(IoBuf),
    Many(Row),
}

impl Drop for Pieces {
    fn drop(self) {
        let Pieces { form: _ } = self;
    }
}

impl Model for Pieces {
    ghost use Rattle.std.specs.Prelude.{List};
    ghost use Rattle.iobufs_core.specs.View.{View};

    ghost Value = { List View };

    ghost use Rattle.iobufs.specs.Inside.Several.{views, IsPieced};

    ghost view = { λ p. views p.form };

    ghost invariant = { λ p. IsPieced p.form };
}

/// The offset before all bytes.
pub(super) const START: Located = Located {
    index: 0,
    offset: 0,
    probes: 0,
};

impl Form {
    // The old form is dropped here, and not in each place that puts a new one. Both take the same instructions.
    fn set(&mut self, form: Form)
        ensures { self.new ≡ form }
    {
        *self = form;
    }

    // Drops all chunks, and leaves an empty one.
    #[inline(never)]
    fn clear(&mut self)
        ensures none { views self.new ≡ default_view ∷ [] }
        ensures pieced { IsPieced self.new }
    {
        *self = Form::One(IoBuf::default());
    }

    // A row of one chunk becomes that chunk.
    fn leave_row(&mut self)
        requires { 0 < length (views self.old) }
        ensures same { views self.new ≡ views self.old }
        ensures pieced { IsPieced self.new }
    {
        if let Form::Many(row) = self {
            if row.count() == 1 {
                let last = row.pop_front();
                self.set(Form::One(last));
            }
        }
    }

    // Acts as `leave_row`, unless the deque is small.
    fn settle(&mut self)
        requires { 0 < length (views self.old) }
        ensures same { views self.new ≡ views self.old }
        ensures pieced { IsPieced self.new }
    {
        if let Form::Many(row) = self {
            if row.count() == 1 && !row.is_small() {
                let last = row.pop_front();
                self.set(Form::One(last));
            }
        }
    }
}

impl Pieces {
    /// One chunk.
    pub(super) fn one(piece: IoBuf) -> Pieces
        ensures { result ≡ piece ∷ [] }
    {
        Pieces {
            form: Form::One(piece),
        }
    }

    /// The chunks of a row, at least one.
    #[inline(always)]
    pub(super) fn from_row(mut row: Row) -> Pieces
        requires { 0 < length row.views }
        ensures { result ≡ row.views }
    {
        if row.count() == 1 {
            return Pieces::one(row.pop_front());
        }
        Pieces {
            form: Form::Many(row),
        }
    }

    pub(super) fn count(&self) -> usize
        ensures value { result ≡ length self.now }
        ensures pieces { IsPieces self.now }
    {
        match &self.form {
            Form::One(_) => 1,
            Form::Many(row) => row.count(),
        }
    }

    /// The number of bytes.
    pub(super) fn len(&self) -> usize
        ensures value { result ≡ length (pieces_bytes self.now) }
        ensures pieces { IsPieces self.now }
    {
        match &self.form {
            Form::One(piece) => piece.len(),
            Form::Many(row) => row.len(),
        }
    }

    pub(super) fn get(&self, i: usize) -> Option<&IoBuf>
        ensures value { option_copied result ≡ slice_get self.now i }
        ensures pieces { IsPieces self.now }
    {
        match &self.form {
            Form::One(piece) => match i {
                0 => Some(piece),
                _ => None,
            },
            Form::Many(row) => row.get(i),
        }
    }

    /// The first chunk: there is one.
    pub(super) fn first(&self) -> &IoBuf
        ensures value { result.now ≡ piece_at self.now 0 }
        ensures pieces { IsPieces self.now }
    {
        match &self.form {
            Form::One(piece) => piece,
            Form::Many(row) => row.piece(0),
        }
    }

    pub(super) fn piece(&self, i: usize) -> &IoBuf
        requires { i < length self.now }
        ensures { result.now ≡ piece_at self.now i }
    {
        self.get(i).unwrap()
    }

    /// The chunk, or the row.
    #[inline(always)]
    pub(super) fn into_form(self) -> Form
        ensures views { views result ≡ self }
        ensures pieced { IsPieced result }
    {
        let Pieces { form } = self;
        form
    }

    /// The only chunk; the chunks themselves if there are more.
    pub(super) fn into_single(self) -> Result<IoBuf, Pieces>
        ensures { MatchResult result (λ piece. self ≡ piece ∷ []) (λ pieces. (pieces ≡ self) × (1 < length self)) }
    {
        let Pieces { form } = self;
        match form {
            Form::One(piece) => Ok(piece),
            Form::Many(mut row) if row.count() == 1 => Ok(row.pop_front()),
            Form::Many(row) => Err(Pieces {
                form: Form::Many(row),
            }),
        }
    }

    /// Adds a chunk at the end, for a length of `len`. If there was no row, one is made, with space for four.
    pub(super) fn push_back(
        &mut self,
        alloc: Global,
        piece: IoBuf,
        len: usize,
    ) -> Result<(), AllocFailed<IoBuf>>
        requires bytes { 0 < length (pieces_bytes self.old) }
        requires some { 0 < length piece.bytes }
        requires total { len ≡ length (pieces_bytes self.old) + length piece.bytes }
        ensures done { OnOk result (self.new ≡ self.old ++ piece ∷ []) }
        ensures unchanged { OnErr result (self.new ≡ self.old) }
        ensures handed_back { IfErr result (λ e. e.value ≡ piece) }
    {
        match &mut self.form {
            Form::One(only) => {
                let Ok(mut row) = Row::with_room(alloc, 4) else {
                    return Err(AllocFailed { value: piece });
                };
                let before = only.len();
                row.push_back_reserved(mem::take(only), before);
                row.push_back_reserved(piece, len);
                self.form.set(Form::Many(row));
                Ok(())
            }
            Form::Many(row) => Ok(row.push_back(piece, len)?),
        }
    }

    /// Adds a chunk at the start.
    pub(super) fn push_front(
        &mut self,
        alloc: Global,
        piece: IoBuf,
    ) -> Result<(), AllocFailed<IoBuf>>
        requires bytes { 0 < length (pieces_bytes self.old) }
        requires some { 0 < length piece.bytes }
        requires fits { length (pieces_bytes self.old) + length piece.bytes < 2 ^ 64 }
        ensures done { OnOk result (self.new ≡ piece ∷ self.old) }
        ensures unchanged { OnErr result (self.new ≡ self.old) }
        ensures handed_back { IfErr result (λ e. e.value ≡ piece) }
    {
        match &mut self.form {
            Form::One(only) => {
                let Ok(mut row) = Row::with_room(alloc, 4) else {
                    return Err(AllocFailed { value: piece });
                };
                let ahead = piece.len();
                let len = ahead + only.len();
                row.push_back_reserved(piece, ahead);
                row.push_back_reserved(mem::take(only), len);
                self.form.set(Form::Many(row));
                Ok(())
            }
            Form::Many(row) => row.push_front(piece),
        }
    }

    /// Drops the first `n` bytes, at least one. If all go, an empty chunk is left.
    #[inline(always)]
    pub(super) fn drop_front(&mut self, n: usize)
        requires some { 0 < n }
        requires inside { n ≤ length (pieces_bytes self.old) }
        ensures { self.new ≡ rest_pieces self.old n }
    {
        match &mut self.form {
            Form::One(piece) => {
                if n < piece.len() {
                    piece.advance(n);
                } else {
                    self.form.set(Form::One(IoBuf::default()));
                }
            }
            Form::Many(row) => {
                if !row.shorten(n) {
                    self.drop_pieces(n);
                }
            }
        }
    }

    /// Drops the first `n` bytes. A single chunk stays, also without bytes.
    #[inline(always)]
    pub(super) fn advance(&mut self, n: usize)
        requires { n ≤ length (pieces_bytes self.old) }
        ensures left { self.new ≡ advanced_pieces self.old n }
        ensures pieces { IsPieces self.old }
    {
        match &mut self.form {
            Form::One(piece) => piece.advance(n),
            Form::Many(row) => {
                if !row.shorten_several(n) {
                    self.advance_pieces(n);
                }
            }
        }
    }

    /// Acts as `advance` if there are `n` bytes. Else nothing changes.
    #[inline(always)]
    pub(super) fn try_advance(&mut self, n: usize) -> bool
        ensures answer { result ≡ nat_le n (length (pieces_bytes self.old)) }
        ensures left { IsTrue result → self.new ≡ advanced_pieces self.old n }
        ensures same { IsFalse result → self.new ≡ self.old }
        ensures pieces { IsPieces self.old }
    {
        match &mut self.form {
            Form::One(piece) => piece.try_advance(n),
            Form::Many(row) => row.shorten_several(n) || self.advance_if_inside(n),
        }
    }

    #[inline(never)]
    fn advance_if_inside(&mut self, n: usize) -> bool
        ensures answer { result ≡ nat_le n (length (pieces_bytes self.old)) }
        ensures left { IsTrue result → self.new ≡ advanced_pieces self.old n }
        ensures same { IsFalse result → self.new ≡ self.old }
        ensures pieces { IsPieces self.old }
    {
        if n > self.len() {
            return false;
        }
        self.advance(n);
        true
    }

    // Drops bytes of a single chunk, which then leaves its row, or at least the first of several chunks.
    #[inline(never)]
    fn advance_pieces(&mut self, n: usize)
        requires inside { n ≤ length (pieces_bytes self.old) }
        requires first { 1 < length self.old → view_len (piece_at self.old 0) ≤ n }
        ensures { self.new ≡ advanced_pieces self.old n }
    {
        match &mut self.form {
            Form::One(piece) => piece.advance(n),
            Form::Many(row) => {
                if row.count() > 1 {
                    self.drop_pieces(n);
                    return;
                }
                let mut last = row.pop_front();
                last.advance(n);
                self.form.set(Form::One(last));
            }
        }
    }

    // Drops the first `n` bytes, all of the first chunk among them.
    fn drop_pieces(&mut self, n: usize)
        requires some { 0 < n }
        requires inside { n ≤ length (pieces_bytes self.old) }
        requires first { view_len (piece_at self.old 0) ≤ n }
        ensures { self.new ≡ rest_pieces self.old n }
    {
        match &mut self.form {
            Form::Many(row) if n < row.len() => {
                row.drop_front(n);
                self.form.settle();
            }
            _ => self.form.clear(),
        }
    }

    /// Makes a value of the first chunk, and removes it; a single chunk leaves an empty one.
    pub(super) fn take_first<T: OwnedBytes>(&mut self, alloc: Global) -> Result<T, BufError>
        ensures made { IfOk result (T.makes (piece_at self.old 0)) }
        ensures left { OnOk result (self.new ≡ behind_first self.old) }
        ensures unchanged { OnErr result (self.new ≡ self.old) }
        ensures memory { IsOkUnless result BufError.Memory }
        ensures free { T.is_free (piece_at self.old 0) → IsOk result }
        ensures pieces { IsPieces self.old }
    {
        match &mut self.form {
            Form::One(piece) => T::take_view(alloc, piece),
            Form::Many(row) => {
                let made = row.take_first(alloc)?;
                if row.count() == 0 {
                    self.form.clear();
                    return Ok(made);
                }
                self.form.leave_row();
                Ok(made)
            }
        }
    }

    /// Takes the first `at` bytes, some but not all. A side of one chunk needs no row.
    pub(super) fn split_front(&mut self, alloc: Global, at: usize) -> Result<Pieces, BufError>
        requires some { 0 < at }
        requires inside { at < length (pieces_bytes self.old) }
        ensures split { MatchResult result (λ front. (front ≡ left_pieces self.old at)
            × (self.new ≡ right_pieces self.old at)) (λ cause. (self.new ≡ self.old) × (cause ≡ BufError.Memory)) }
        ensures first { at ≡ view_len (piece_at self.old 0) → IsOk result }
        ensures static_text { at ≤ view_len (piece_at self.old 0) → (piece_at self.old 0).mark ≡ static_mark
            → IsOk result }
        ensures last { (front : List View) (last : View) → self.old ≡ front ++ last ∷ []
            → at + view_len last ≡ length (pieces_bytes self.old) → IsOk result }
        ensures pieces { IsPieces self.old }
    {
        match &mut self.form {
            Form::One(piece) => Ok(Pieces::one(piece.split_to(at)?)),
            Form::Many(row) => {
                if at <= row.piece(0).len() {
                    let front = row.split_first(at)?;
                    self.form.settle();
                    return Ok(Pieces::one(front));
                }
                let place = row.locate(at);
                let behind = row.count() - place.index;
                if behind == 1 {
                    let last = row.split_last(place, at)?;
                    let form = mem::replace(&mut self.form, Form::One(last));
                    return Ok(Pieces { form });
                }
                let form = Form::Many(row.split_front(alloc, place, at)?);
                Ok(Pieces { form })
            }
        }
    }

    /// Clones of a chunk and of the `behind` chunks after it.
    pub(super) fn run(
        &self,
        alloc: Global,
        first: usize,
        behind: usize,
    ) -> Result<Pieces, AllocError>
        requires inside { first + behind < length self.now }
        ensures run { IfOk result (λ run. run ≡ take (behind + 1) (drop first self.now)) }
        ensures free { behind ≡ 0 → IsFreelyShared (piece_at self.now first) → IsOk result }
    {
        match &self.form {
            Form::One(piece) => Ok(Pieces::one(piece.clone()?)),
            Form::Many(row) if behind == 0 => Ok(Pieces::one(row.piece(first).clone()?)),
            Form::Many(row) => {
                let form = Form::Many(row.run(alloc, first, behind)?);
                Ok(Pieces { form })
            }
        }
    }

    /// The chunk that contains an offset.
    pub(super) fn locate(&self, at: usize) -> Located
        requires { at < length (pieces_bytes self.now) }
        ensures full { AreFull self.now }
        ensures place { IsChunkPlace self.now at result.index result.offset }
        ensures fits { 1 < length self.now → length (pieces_bytes self.now) < 2 ^ 64 }
        ensures probes { 2 ^ result.probes ≤ 2 * length self.now }
        ensures halves { length self.now < 2 ^ (result.probes + 1) }
    {
        match &self.form {
            Form::One(_) => Located {
                index: 0,
                offset: at,
                probes: 0,
            },
            Form::Many(row) => row.locate(at),
        }
    }

    /// Returns the offset after `bytes` if they are at the offset `from`, else `None`.
    pub(super) fn matched(&self, from: Located, bytes: &[u8]) -> Option<Located>
        requires offset { from.offset ≤ view_len (piece_at self.now from.index) }
        requires inside { length bytes.now ≤ length (bytes_behind self.now from.index from.offset) }
        ensures { MatchOption result ((more : List ℕ) → bytes_behind self.now from.index from.offset ≡ bytes.now ++ more
            → ⊥)
            (λ end. (end.offset ≤ view_len (piece_at self.now end.index))
            × (bytes_behind self.now from.index from.offset ≡ bytes.now
            ++ bytes_behind self.now end.index end.offset)) }
    {
        let count = self.count();
        let Located {
            mut index,
            mut offset,
            probes,
        } = from;
        let mut left = bytes;
        while index < count {
            let chunk = &self.piece(index).as_ref()[offset..];
            if left.len() < chunk.len() {
                if left != &chunk[..left.len()] {
                    return None;
                }
                offset += left.len();
                return Some(Located {
                    index,
                    offset,
                    probes,
                });
            }
            let Some(behind) = left.strip_prefix(chunk) else {
                return None;
            };
            left = behind;
            index += 1;
            offset = 0;
        }
        Some(Located {
            index,
            offset,
            probes,
        })
    }

    /// Fills `dst` with the bytes from an offset on.
    pub(super) fn copy_from(&self, from: Located, dst: &mut [u8])
        requires offset { from.offset ≤ length (piece_at self.now from.index).bytes }
        requires inside { length dst.old + from.offset ≤ length (pieces_bytes (drop from.index self.now)) }
        ensures { dst.new ≡ take (length dst.old) (drop from.offset (pieces_bytes (drop from.index self.now))) }
    {
        let count = self.count();
        let Located {
            mut index,
            mut offset,
            probes: _,
        } = from;
        let mut filled = 0;
        while filled < dst.len() && index < count {
            let bytes = &self.piece(index).as_ref()[offset..];
            let some = bytes.len().min(dst.len() - filled);
            dst[filled..filled + some].copy_from_slice(&bytes[..some]);
            filled += some;
            index += 1;
            offset = 0;
        }
    }

    /// A copy of the first `n` bytes.
    pub(super) fn copy_front(&self, alloc: Global, n: usize) -> Result<Vec<u8>, AllocError>
        requires { n ≤ length (pieces_bytes self.now) }
        ensures { IfOk result (λ copy. copy.items ≡ take n (pieces_bytes self.now)) }
    {
        let count = self.count();
        let mut copy = Vec::with_capacity(alloc, n)?;
        let mut index = 0;
        while copy.len() < n && index < count {
            let bytes = self.piece(index).as_ref();
            let some = bytes.len().min(n - copy.len());
            put_reserved(&mut copy, &bytes[..some]);
            index += 1;
        }
        Ok(copy)
    }

    /// A copy of `n` bytes from an offset on, in storage of just that capacity.
    pub(super) fn copied(&self, alloc: Global, from: Located, n: usize) -> Result<IoBuf, BufError>
        requires offset { from.offset ≤ length (piece_at self.now from.index).bytes }
        requires inside { n + from.offset ≤ length (pieces_bytes (drop from.index self.now)) }
        ensures ok { IfOk result (λ copy. copy ≡ part_frozen (record {
          filled = take n (drop from.offset (pieces_bytes (drop from.index self.now)));
          spare = 0;
        })) }
        ensures bad_layout { 2 ^ 63 ≤ n → result ≡ Err BufError.BadLayout }
        ensures memory { n < 2 ^ 63 → IsOkUnless result BufError.Memory }
    {
        let count = self.count();
        let mut copy = IoBufMut::with_capacity(alloc, n)?;
        let Located {
            mut index,
            mut offset,
            probes: _,
        } = from;
        while copy.len() < n && index < count {
            let bytes = &self.piece(index).as_ref()[offset..];
            let some = bytes.len().min(n - copy.len());
            copy.put_slice(&bytes[..some]);
            index += 1;
            offset = 0;
        }
        copy.freeze()
    }

    /// The bytes of the first chunks, at most `max` of these.
    pub(super) fn chunks(&self, alloc: Global, max: usize) -> Result<Vec<&[u8]>, AllocError>
        ensures ok { IfOk result (λ chunks. map (λ chunk. chunk.now) chunks.items ≡ take max
            (map (λ piece. piece.bytes) self.now)) }
        ensures nothing { max ≡ 0 → IsOk result }
        ensures pieces { IsPieces self.now }
    {
        let mut chunks = Vec::new(alloc);
        for index in 0..self.count().min(max) {
            chunks.push(self.piece(index).as_ref())?;
        }
        Ok(chunks)
    }
}

impl Clone for Pieces {
    ghost is_clone = { λ a b. b ≡ a };

    ghost is_infallible = { λ pieces. (length pieces ≤ 1) × IsFreelyShared (piece_at pieces 0) };

    fn clone(&self) -> Result<Pieces, AllocError> {
        match &self.form {
            Form::One(piece) => Ok(Pieces::one(piece.clone()?)),
            Form::Many(row) if row.count() == 1 => Ok(Pieces::one(row.piece(0).clone()?)),
            Form::Many(row) => {
                let form = Form::Many(row.clone()?);
                Ok(Pieces { form })
            }
        }
    }
}
