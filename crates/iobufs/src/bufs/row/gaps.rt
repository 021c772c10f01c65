// A row in the making, with gaps.
ghost use Rattle.std.specs.Prelude.{◌≡◌, List, ◌+◌, ◌^◌, ◌<◌, ◌≤◌, ◌++◌, [], ◌∷◌, ◌==◌, length, IfOk, OnOk, IsOk, IsOkUnless};
ghost use Rattle.iobufs_core.specs.View.{IsView};
ghost use Rattle.iobufs.specs.Inside.Gaps.{AreSegments, filled, gap_len, gaps_len, segment_len, segment_of, segments_pushed, stood_len};
ghost use Rattle.iobufs.specs.Inside.RowValues.{Segment};
ghost use Rattle.iobufs.specs.Inside.Pieces.{AreFull, AreViews, view_len};

use super::{Entry, Row};
use iobufs_core::buf::IoBuf;
use iobufs_core::codec::BufError;
use std::alloc::{AllocError, Global};
use std::collections::VecDeque;
use std::marker::Model;

/// A row in the making: chunks, and gaps before them for bytes that are to come. A gap is a chunk without bytes, and
/// its end says how many are to come:
///
/// ```text
/// pushed | gap 2 | X | gap 1 | Y |
/// filled |  a b  | X |   c   | Y | d e |      by the bytes a b c d e
/// ```
pub(crate) struct Gapped {
    entries: VecDeque<Entry>,
}

impl Drop for Gapped {
    fn drop(self) {
        let Gapped { entries: _ } = self;
    }
}

impl Model for Gapped {
    ghost use Rattle.iobufs.specs.Inside.RowValues.{SegmentRow};

    ghost Value = { SegmentRow };

    ghost use Rattle.std.specs.VecDeque.{deque_capacity};
    ghost use Rattle.iobufs.specs.Inside.Gaps.{segments_in};

    ghost view = { λ g. record { segments = segments_in g.entries.items; room = deque_capacity g.entries } };
}

impl Gapped {
    /// Nothing yet, and no space.
    pub(crate) fn new(alloc: Global) -> Gapped
        ensures { result.segments ≡ [] }
    {
        Gapped {
            entries: VecDeque::new(alloc),
        }
    }

    pub(crate) fn is_empty(&self) -> bool
        ensures { result ≡ (length self.now.segments == 0) }
    {
        self.entries.is_empty()
    }

    /// Reserves three entries: for a gap, a chunk, and the bytes after them. If there is no entry yet, reserves five:
    /// for two gaps, two chunks, and the bytes after them.
    pub(crate) fn make_room(&mut self) -> Result<(), AllocError>
        ensures same { self.new.segments ≡ self.old.segments }
        ensures more { self.old.room ≤ self.new.room }
        ensures room { OnOk result (length self.new.segments + 3 ≤ self.new.room) }
    {
        if self.entries.is_empty() {
            return self.entries.try_reserve(5);
        }
        self.entries.try_reserve(3)
    }

    /// Adds a gap for `run` bytes and a chunk; no gap if `run` is 0.
    pub(crate) fn push(&mut self, run: usize, view: IoBuf)
        requires some { 0 < length view.bytes }
        requires room { length self.old.segments + 3 ≤ self.old.room }
        ensures pushed { self.new.segments ≡ self.old.segments ++ segments_pushed run view }
        ensures room { length self.new.segments < self.new.room }
    {
        if run != 0 {
            self.entries.push_back_reserved(Entry {
                view: IoBuf::default(),
                end: run as u64,
            });
        }
        self.entries.push_back_reserved(Entry { view, end: 0 });
    }

    /// Fills each gap by the next bytes of a buffer. The remaining bytes come last.
    pub(crate) fn fill(self, rest: IoBuf) -> Result<Row, BufError>
        requires segments { AreSegments self.segments }
        requires within { gaps_len self.segments ≤ length rest.bytes }
        requires fits { stood_len self.segments + length rest.bytes < 2 ^ 64 }
        requires room { length self.segments < self.room }
        ensures filled { IfOk result (λ row. row.views ≡ filled rest self.segments) }
        ensures full { IfOk result (λ row. AreFull row.views) }
        ensures roomy { IfOk result (λ row. AreViews row.views) }
        ensures memory { IsOkUnless result BufError.Memory }
        ensures no_bytes { length rest.bytes ≡ 0 → IsOk result }
    {
        let Gapped { mut entries } = self;
        let mut rest = rest;
        let mut end = 0;
        for i in 0..entries.len() {
            let Some(piece) = entries.get_mut(i) else {
                unreachable!()
            };
            end = fill_piece(piece, &mut rest, end)?;
        }
        let mut row = Row { base: 0, entries };
        row.add(rest);
        Ok(row)
    }
}

// Fills a gap by the next bytes of a buffer; a chunk stays. Returns the end of the chunk after `start` bytes.
fn fill_piece(piece: &mut Entry, rest: &mut IoBuf, start: u64) -> Result<u64, BufError>
    requires within { gap_len (segment_of piece.old) ≤ length rest.old.bytes }
    requires fits { start + segment_len (segment_of piece.old) < 2 ^ 64 }
    ensures filled { OnOk result ((segments : List Segment)
        → filled rest.old (segment_of piece.old ∷ segments) ≡ piece.new.view ∷ filled rest.new segments) }
    ensures len { OnOk result (view_len piece.new.view ≡ segment_len (segment_of piece.old)) }
    ensures left { OnOk result (length rest.new.bytes + gap_len (segment_of piece.old) ≡ length rest.old.bytes) }
    ensures end { IfOk result (λ end. (end ≡ start + view_len piece.new.view) × (piece.new.end ≡ end)) }
    ensures roomy { OnOk result (IsView piece.new.view) }
    ensures memory { IsOkUnless result BufError.Memory }
    ensures no_bytes { length rest.old.bytes ≡ 0 → IsOk result }
{
    if piece.view.is_empty() {
        piece.view = rest.split_to(piece.end as usize)?;
    }
    let end = start + piece.view.len() as u64;
    piece.end = end;
    Ok(end)
}
