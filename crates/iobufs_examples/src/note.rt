// A note of three fields, and a letter that contains a note: each is read as its fields, as pairs in pairs.
ghost use Rattle.std.specs.Prelude.{◌≡◌, ◌++◌, [], ◌∷◌, IfOk};
ghost use Rattle.std.specs.Int.{w32, to_be_bytes};
ghost use Rattle.iobufs_core.specs.Wire.{view_written};

use iobufs::EncodeExt;
use iobufs::bufs::IoBufs;
use iobufs_codec::{ByParts, List, Signed};
use iobufs_core::buf::IoBuf;
use iobufs_core::codec::Error;
use std::alloc::Global;

/// A number, a byte and a body.
#[derive(PartialEq, Drop)]
pub struct Note {
    pub number: u32,
    pub kind: u8,
    pub body: IoBuf,
}

impl ByParts for Note {
    type Parts = (u32, (u8, IoBuf));

    ghost parts = { λ note. (note.number, (note.kind, note.body)) };

    fn from_parts(all: (u32, (u8, IoBuf))) -> Note {
        let (number, (kind, body)) = all;
        Note { number, kind, body }
    }
}

impl Note {
    /// Encodes the note. Its body is not copied.
    pub fn encode(self, alloc: Global) -> Result<IoBufs, Error>
        ensures { IfOk result (λ text. text.bytes ≡ to_be_bytes w32 self.number
            ++ ((self.kind ∷ []) ++ view_written self.body)) }
    {
        (self.number, (self.kind, self.body)).encode_iobufs(alloc)
    }
}

/// When it was sent, its note, and which it answers.
#[derive(PartialEq, Drop)]
pub struct Letter {
    pub sent: i64,
    pub note: Note,
    pub answers: Vec<u32>,
}

impl ByParts for Letter {
    type Parts = (Signed<i64>, ((u32, (u8, IoBuf)), List<u32>));

    ghost parts = { λ letter. (
      record { value = letter.sent },
      ((letter.note.number, (letter.note.kind, letter.note.body)), record { values = letter.answers }),
    ) };

    fn from_parts(all: (Signed<i64>, ((u32, (u8, IoBuf)), List<u32>))) -> Letter {
        let (sent, (note, answers)) = all;
        Letter {
            sent: sent.value,
            note: Note::from_parts(note),
            answers: answers.values,
        }
    }
}
