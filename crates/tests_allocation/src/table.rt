// A table of names, and a run of commands. `tests/sessions` have each command with each allocation failing.
use crate::word::{Ended, end, mark};
use iobufs_core::codec::BufError;
use iobufs_run::command::{Cmd, Kind, Piece, Refusal, Reply};
use iobufs_run::table::{Slot, Table};
use std::alloc::Global;
use std::process::Abort;
use tests_fixtures::shows;

const FREE: Reply = Reply::Refused(Refusal::WrongKind);

fn shown(table: &mut Table, target: usize) -> Reply {
    table.apply(&Cmd::Show { target })
}

#[test]
fn new(rt: HostRuntime) {
    let (mut table, word) = lent!(rt, Table::new(rt.alloc(), 6), BufError::Memory, true);
    end(&rt, word, shown(&mut table, 0) == FREE);
}

// Commands that hold static slices under names.
macro_rules! statics {
    ($($dst:expr, $text:expr;)+) => {
        [$(Cmd::Static { dst: $dst, text: $text }),+]
    };
}

const VIEWS: [Cmd; 3] = statics! {
    0, b"ab";
    1, b"cde";
    2, b"fg";
};

// A run whose first allocation fails changes no name.
#[test]
fn run(rt: HostRuntime) {
    let mut table = Table::new(rt.alloc(), 6).expect(&rt, "a fixture");
    let (replies, word) = lent!(
        rt,
        table.run(&VIEWS),
        BufError::Memory,
        shown(&mut table, 0) == FREE
    );
    let done = [Reply::Done, Reply::Done, Reply::Done];
    end(&rt, word, replies.as_slice() == done.as_slice());
}

fn apply(table: &mut Table, cmd: &Cmd) -> Result<(), BufError> {
    match table.apply(cmd) {
        Reply::Done => Ok(()),
        _ => Err(BufError::Memory),
    }
}

// Three views under the names 0 to 2, and `IoBufs` of the first two of them under the name 3.
fn filled(alloc: Global) -> Result<Table, BufError> {
    let mut table = Table::new(alloc, 4)?;
    for cmd in &VIEWS {
        apply(&mut table, cmd)?;
    }
    let sources = Vec::from_slice(alloc, &[0, 1])?;
    apply(&mut table, &Cmd::Gather { dst: 3, sources })?;
    Ok(table)
}

// Whether a name holds what `filled` puts there.
fn stays(table: &Table, target: usize) -> bool {
    match table.shown(target) {
        Ok(Slot::View(view)) => target == 2 && view.as_ref() == b"fg".as_slice(),
        Ok(Slot::Text(text)) => target == 3 && shows(text, &[b"ab", b"cde"]),
        _ => false,
    }
}

fn is_piece(piece: &Piece, bytes: &[u8]) -> bool {
    piece.bytes.as_slice() == bytes && piece.spare == 0
}

// Whether the reply shows it.
fn is_told(reply: &Reply, target: usize) -> bool {
    match reply {
        Reply::Shown {
            kind: Kind::View,
            pieces,
        } => { target == 2 && pieces.len() == 1 && is_piece(&pieces[0], b"fg") }
        Reply::Shown {
            kind: Kind::Text,
            pieces,
        } => {
            target == 3
                && pieces.len() == 2
                && is_piece(&pieces[0], b"ab")
                && is_piece(&pieces[1], b"cde")
        }
        _ => false,
    }
}

// The contents of a name, or the error.
fn asked(table: &mut Table, target: usize) -> Result<Reply, Refusal> {
    match shown(table, target) {
        Reply::Refused(cause) => Err(cause),
        reply => Ok(reply),
    }
}

// Shows a name. If an allocation fails, the reply says so, and the name holds what it held.
fn told(rt: &(impl Print + Abort + AllocGlobal), target: usize) {
    let mut table = filled(rt.alloc()).expect(rt, "a fixture");
    let (reply, word) = lent!(
        *rt,
        asked(&mut table, target),
        Refusal::Memory,
        stays(&table, target)
    );
    end(rt, word, is_told(&reply, target) && stays(&table, target));
}

#[test]
fn a_view_is_shown(rt: HostRuntime) {
    told(&rt, 2);
}

#[test]
fn a_text_of_two_pieces_is_shown(rt: HostRuntime) {
    told(&rt, 3);
}
