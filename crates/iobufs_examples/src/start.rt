// A log of entries, sent as frames: code to begin with.
ghost use Rattle.std.specs.Prelude.{◌≡◌, ◌++◌, [], ◌∷◌, None, Ok, Option, Result, Some, IfNone, IfOk, IfSome, OnErr, OnOk};
ghost use Rattle.std.specs.Int.{w64, to_be_bytes};
ghost use Rattle.std.specs.Io.KnownBytes.{Appends};
ghost use Rattle.iobufs.specs.Sending.{IsSent};
ghost use Rattle.iobufs_core.specs.View.{View};
ghost use Rattle.iobufs_core.specs.Wire.{view_written};
ghost use Rattle.iobufs_frames.specs.Frames.{bare_frame, frame_written};
ghost use Rattle.iobufs_frames.specs.Streams.{TakesFrame, unsent_bytes};
ghost use Rattle.iobufs_codec.specs.Form.{IsDecodedBack};

use iobufs::bufs::IoBufs;
use iobufs_codec::{ByParts, Fault, IntoParts, Look};
use iobufs_core::buf::IoBuf;
use iobufs_core::codec::{Error, RangeCfg};
use iobufs_frames::{FrameError, FrameReader, FrameWriter};
use std::alloc::Global;
use std::io::{self, Read, Write};

/// An entry of a log.
#[derive(Drop)]
pub struct Entry {
    pub number: u64,
    pub flags: u8,
    pub key: IoBuf,
    pub value: IoBuf,
}

// [docs: entry_parts]
/// The fields of an entry, as pairs in pairs.
pub type EntryParts = (u64, (u8, (IoBuf, IoBuf)));
// [docs end]

impl ByParts for Entry {
    type Parts = EntryParts;

    ghost parts = { λ entry. (entry.number, (entry.flags, (entry.key, entry.value))) };

    fn from_parts(all: EntryParts) -> Entry {
        let (number, (flags, (key, value))) = all;
        Entry {
            number,
            flags,
            key,
            value,
        }
    }
}

impl IntoParts for Entry {
    fn into_parts(self) -> EntryParts {
        (self.number, (self.flags, (self.key, self.value)))
    }
}

/// A configuration a field: keys of up to 255 bytes, and values of up to 64 KiB.
pub const CFG: ((), ((), (RangeCfg, RangeCfg))) = (
    (),
    (
        (),
        (RangeCfg { lo: 0, hi: 255 }, RangeCfg { lo: 0, hi: 1 << 16 }),
    ),
);

/// Encodes an entry. Its key and value aren't copied.
pub fn encoded(alloc: Global, entry: Entry) -> Result<IoBufs, Error>
    ensures { IfOk result (λ text. text.bytes
        ≡ to_be_bytes w64 entry.number
        ++ ((entry.flags ∷ []) ++ (view_written entry.key ++ view_written entry.value))) }
{
    entry.encode_iobufs(alloc)
}

/// Decodes all bytes as an entry, which shares them.
pub fn decoded(alloc: Global, body: &IoBuf) -> Result<Entry, Fault>
    ensures bytes { IfOk result (λ entry. body.now.bytes
        ≡ to_be_bytes w64 entry.number
        ++ ((entry.flags ∷ []) ++ (view_written entry.key ++ view_written entry.value))) }
    ensures back { (entry : Entry) → ⟦<EntryParts as Look>⟧.admits CFG
        (entry.number, (entry.flags, (entry.key, entry.value)))
        → body.now.bytes ≡ to_be_bytes w64 entry.number ++
        ((entry.flags ∷ []) ++ (view_written entry.key ++ view_written entry.value))
        → IsDecodedBack (λ x y. ⟦<EntryParts as Look>⟧.same (x.number, (x.flags, (x.key, x.value)))
        (y.number, (y.flags, (y.key, y.value)))) entry result }
{
    Entry::decode_cfg(alloc, body, &CFG)
}

/// Why an entry isn't sent or received.
#[derive(Debug, Drop, thiserror::Error)]
pub enum LogError {
    /// The writer's error.
    #[error("{0}")]
    Write(#[from] io::Error),
    /// An entry can't be encoded or put as a frame, or a body can't be decoded.
    #[error("{0}")]
    Entry(#[from] Fault),
    /// No frame is taken.
    #[error("{0}")]
    Frame(#[from] FrameError),
}

/// Puts an entry as a frame, once the frames before it are sent; `to.send` sends it. If it fails, the entry is dropped.
pub fn put<W: Write + Drop>(
    alloc: Global,
    to: &mut FrameWriter<W>,
    entry: Entry,
) -> Result<(), LogError>
    ensures before { OnOk result (Appends (W.contents to.old.to) (W.contents to.new.to) (unsent_bytes to.old)) }
    ensures put { OnOk result (to.new.rest.bytes ≡ frame_written to.old.layout
        (bare_frame (to_be_bytes w64 entry.number
        ++ ((entry.flags ∷ []) ++ (view_written entry.key ++ view_written entry.value))))) }
    ensures dropped { OnErr result (IsSent (W.contents to.old.to)
        (W.contents to.new.to) (unsent_bytes to.old) (unsent_bytes to.new)) }
    ensures layout { to.new.layout ≡ to.old.layout }
    ensures range { to.new.range ≡ to.old.range }
{
    to.send()?;
    let body = encoded(alloc, entry).map_err(Fault::Codec)?;
    to.put(body).map_err(|refused| Fault::from(refused.cause))?;
    Ok(())
}

/// Receives the next entry; `None` at the end of the input. `LogError::Entry` drops the body: it is no entry, or an
/// allocation failed. Another error loses no byte.
pub fn receive<R: Read + Drop>(
    alloc: Global,
    from: &mut FrameReader<R>,
) -> Result<Option<Entry>, LogError>
    ensures entry { IfOk result (λ found. IfSome found (λ entry. (body : View)
        × TakesFrame R.remaining from.old (Ok (Some body)) from.new
        × (body.bytes ≡ to_be_bytes w64 entry.number ++
        ((entry.flags ∷ []) ++ (view_written entry.key ++ view_written entry.value))))) }
    ensures end { IfOk result (λ found. IfNone found (TakesFrame R.remaining from.old (Ok None) from.new)) }
    ensures failed { OnErr result ((taken : Result (Option View) FrameError)
        × TakesFrame R.remaining from.old taken from.new) }
{
    let Some(body) = from.next()? else {
        return Ok(None);
    };
    let entry = decoded(alloc, &body)?;
    Ok(Some(entry))
}
