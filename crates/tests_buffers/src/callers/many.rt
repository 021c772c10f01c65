// Lists of ten thousand commands and of none, and a list of five hundred names.
use crate::same::assert_same;
use iobufs_run::command::{Cmd, Kind, Reply};
use iobufs_run::table::Table;
use std::alloc::{AllocError, Global};
use std::test::Fail;

// `ab` under each of so many names.
fn views(alloc: Global, names: usize) -> Result<Vec<Cmd>, AllocError> {
    let mut cmds = Vec::new(alloc);
    for dst in 0..names {
        cmds.push(Cmd::Static { dst, text: b"ab" })?;
    }
    Ok(cmds)
}

// How many chunks of `ab` a name shows, if it shows nothing else.
fn shown(table: &mut Table, target: usize, kind: Kind) -> Option<usize> {
    match table.apply(&Cmd::Show { target }) {
        Reply::Shown {
            kind: found,
            pieces,
        } => {
            let same = pieces
                .iter()
                .all(|piece| piece.bytes.as_slice() == b"ab".as_slice());
            (found == kind && same).then_some(pieces.len())
        }
        _ => None,
    }
}

#[test]
fn ten_thousand_commands(rt: HostRuntime) -> Result<(), Fail> {
    let mut table = Table::new(rt.alloc(), 10000)?;
    let replies = table.run(views(rt.alloc(), 10000)?.as_slice())?;
    let done = replies.iter().filter(|reply| **reply == Reply::Done);
    assert_same!(rt; (replies.len(), done.count()), (10000, 10000));
    assert_same!(rt; shown(&mut table, 9999, Kind::View), Some(1));
    Ok(())
}

#[test]
fn no_command(rt: HostRuntime) -> Result<(), Fail> {
    let mut table = Table::new(rt.alloc(), 1)?;
    assert_same!(rt; table.run(&[])?.len(), 0);
    Ok(())
}

#[test]
fn five_hundred_names(rt: HostRuntime) -> Result<(), Fail> {
    let mut table = Table::new(rt.alloc(), 501)?;
    drop(table.run(views(rt.alloc(), 500)?.as_slice())?);
    let mut sources = Vec::new(rt.alloc());
    for source in 0..500 {
        sources.push(source)?;
    }
    let gathered = table.apply(&Cmd::Gather { dst: 500, sources });
    assert_same!(rt; gathered, Reply::Done);
    assert_same!(rt; shown(&mut table, 500, Kind::Text), Some(500));
    Ok(())
}
