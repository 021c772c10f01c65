//! Laws of frames. Their contracts are the laws; the functions do nothing.
ghost use Rattle.std.specs.Prelude.{ℕ, List, Option, Result};
ghost use Rattle.iobufs_core.specs.View.{View};
ghost use Rattle.iobufs_core.specs.declared.codec.base.RangeCfg.{RangeCfg};
ghost use Rattle.iobufs_frames.specs.Frames.{BadStaysBad, BareIsPrefixed, BeginningsAreOpen, FirstIsRead, FirstIsTaken, HasFrames, HaveOneReading, has_bytes, is_any, is_body, is_whole};
ghost use Rattle.iobufs_frames.specs.Streams.{IsFirstOfAll, TakesFrame, TakesWholeFrame};
ghost use Rattle.iobufs_frames.specs.declared.error.FrameError.{FrameError};
ghost use Rattle.iobufs_frames.specs.declared.lengths.Layout.{Layout};
ghost use Rattle.iobufs_frames.specs.declared.lengths.Prefix.{Prefix};
ghost use Rattle.iobufs_frames.specs.declared.reader.FrameReader.{FrameReader};

use std::io::Read;

/// In a layout and a range, bytes have exactly one list of frames, one end and one rest. For every chunking
/// `Frames::run` returns equal bodies, end and rest, if it succeeds. A call that takes a frame takes the first frame. A
/// proper prefix of a frame is open, and a bad rest stays bad.
pub fn frames_law()
    ensures one { (layout : Layout) → HaveOneReading layout }
    ensures some { (layout : Layout) (range : RangeCfg) (text : List ℕ) → HasFrames layout range text }
    ensures first { (layout : Layout) → FirstIsTaken View is_body has_bytes layout }
    ensures whole { (layout : Layout) → FirstIsTaken (ℕ × View) (is_whole layout (λ view. view.bytes)) is_any layout }
    ensures read { (layout : Layout) → FirstIsRead View is_body has_bytes layout }
    ensures begun { (layout : Layout) → BeginningsAreOpen layout }
    ensures bare { (prefix : Prefix) → BareIsPrefixed prefix }
    ensures bad { (layout : Layout) → BadStaysBad layout }
{}

/// If a reader's bytes are known, a `FrameReader` takes the first frame of all that it holds and may still read, and
/// leaves the others.
pub fn reader_law<R: Read + Drop>()
    ensures body { (old new : FrameReader R) (result : Result (Option View) FrameError)
        → TakesFrame R.remaining old result new → IsFirstOfAll is_body has_bytes R.remaining old result new }
    ensures whole { (old new : FrameReader R) (result : Result (Option (ℕ × View)) FrameError)
        → TakesWholeFrame R.remaining old result new
        → IsFirstOfAll (is_whole old.held.layout (λ view. view.bytes)) is_any R.remaining old result new }
{}
