//! Lines of the owner machine: the step or question of a line, and the line that answers it.
ghost use Rattle.std.specs.Prelude.{IfOk};
ghost use Rattle.iobuf.specs.Session.{IsNew, MachineTakes};

use crate::session::Service;
use crate::words::{LineError, Words, number};
use iobufs_owner::format::{FORMAT_32, FORMAT_64};
use iobufs_owner::owner::{Act, Call, Handle, Kind, Machine, Record, Refusal, Reply, Step, Word};
use std::alloc::Global;
use std::fmt;
use std::io::Write;

// The most threads of a machine.
const MOST_THREADS: usize = 1 << 32;

/// The machine, once the first line has asked for it.
#[derive(Drop)]
pub struct Owner {
    alloc: Global,
    machine: Option<Machine>,
}

impl Owner {
    /// There is no machine yet.
    pub fn new(alloc: Global) -> Owner {
        Owner {
            alloc,
            machine: None,
        }
    }
}

impl Service for Owner {
    // It makes the machine, takes one step, or does nothing.
    ghost Takes = { λ old new. MachineTakes old.machine new.machine };

    fn answer<W: Write>(&mut self, line: &[u8], output: &mut W) -> Result<(), LineError> {
        let mut words = Words::of(line);
        let Some(machine) = &mut self.machine else {
            self.machine = Some(new_machine(self.alloc, &mut words)?);
            return Ok(output.write_all(b"ok\n")?);
        };
        match asked(&mut words)? {
            Ask::Step(step) => {
                // If this fails, a step that needs an entry is refused with `Room`.
                let _ = machine.reserve(1, 1, 1);
                writeln!(output, "{}", ReplyText(machine.step(step)))?;
            }
            Ask::Handle(h) => writeln!(
                output,
                "{}",
                HandleText(machine.handles().get(h).copied())
            )?,
            Ask::Record(r) => writeln!(
                output,
                "{}",
                RecordText(machine.records().get(r).copied())
            )?,
            Ask::Freed => writeln!(output, "{}", FreedText(machine))?,
        }
        Ok(())
    }
}

// The machine of a first line: `machine THREADS CEILING 64`, or `.. 32`.
fn new_machine(alloc: Global, words: &mut Words<'_>) -> Result<Machine, LineError>
    ensures { IfOk result IsNew }
{
    let Some(b"machine") = words.next_word() else {
        return Err(LineError::BadCommand);
    };
    let (threads, ceiling) = (words.number()?, words.number()?);
    let format = match words.word()? {
        b"64" => FORMAT_64,
        b"32" => FORMAT_32,
        _ => return Err(LineError::BadCommand),
    };
    words.end()?;
    if ceiling == 0 || threads > MOST_THREADS {
        return Err(LineError::BadCommand);
    }
    Ok(Machine::new(alloc, threads, ceiling as u64, format)?)
}

// The request of a further line: a step or a question.
#[derive(Clone, Copy, Drop)]
enum Ask {
    Step(Step),
    Handle(usize),
    Record(usize),
    Freed,
}

// Reads the request of a further line.
fn asked(words: &mut Words<'_>) -> Result<Ask, LineError> {
    let ask = match words.word()? {
        b"handle" => Ask::Handle(words.number()?),
        b"record" => Ask::Record(words.number()?),
        b"freed" => Ask::Freed,
        thread => Ask::Step(Step {
            thread: number(thread)?,
            act: act(words)?,
        }),
    };
    words.end()?;
    Ok(ask)
}

// The act of a thread: it goes on, or begins a call.
fn act(words: &mut Words<'_>) -> Result<Act, LineError> {
    match words.word()? {
        b"go" => Ok(Act::Go(grant(words)?)),
        verb => Ok(Act::Begin(call(verb, words)?, grant(words)?)),
    }
}

// Memory is granted unless the line ends with the word `deny`.
fn grant(words: &mut Words<'_>) -> Result<bool, LineError> {
    match words.next_word() {
        None => Ok(true),
        Some(b"deny") => Ok(false),
        Some(_) => Err(LineError::BadCommand),
    }
}

// The call that a thread begins.
fn call(verb: &[u8], words: &mut Words<'_>) -> Result<Call, LineError> {
    Ok(match verb {
        b"new" => Call::New(size(words)?, size(words)?, size(words)?),
        b"external" => Call::External(size(words)?, size(words)?),
        b"static" => Call::Static(size(words)?),
        b"put" => Call::Put(words.number()?, size(words)?),
        b"advance" => Call::Advance(words.number()?, size(words)?),
        b"freeze" => Call::Freeze(words.number()?),
        b"recover" => Call::TryIntoMut(words.number()?),
        b"split" => Call::SplitTo(words.number()?, size(words)?),
        b"unique" => Call::IsUnique(words.number()?),
        b"demote" => Call::Demote(words.number()?),
        b"clone" => Call::Clone(words.number()?),
        b"slice" => Call::Slice(words.number()?, size(words)?, size(words)?),
        b"drop" => Call::Drop(words.number()?),
        _ => return Err(LineError::BadCommand),
    })
}

// An address, a number of bytes or an alignment.
fn size(words: &mut Words<'_>) -> Result<u64, LineError> {
    Ok(words.number()? as u64)
}

// A reply, as it is printed.
#[derive(Clone, Copy)]
struct ReplyText(Reply);

// A handle by its number, as it is printed: it may be gone, or was never made.
#[derive(Clone, Copy)]
struct HandleText(Option<Option<Handle>>);

// The record of some number, as it is printed.
#[derive(Clone, Copy)]
struct RecordText(Option<Record>);

// The word that a handle owns, as it is printed.
#[derive(Clone, Copy)]
struct WordText(Word);

// The blocks and records that a machine has freed, as they are printed.
#[derive(Clone, Copy)]
struct FreedText<'a>(&'a Machine);

impl fmt::Display for ReplyText {
    fn fmt<W: fmt::Write>(&self, f: &mut fmt::Formatter<W>) -> fmt::Result {
        match self.0 {
            Reply::Made(handle) => write!(f, "made {handle}"),
            Reply::More => f.write_str("more"),
            Reply::Done => f.write_str("done"),
            Reply::Declined => f.write_str("declined"),
            Reply::Unique(unique) => write!(f, "unique {unique}"),
            Reply::Refused(refusal) => write!(f, "refused {}", name(refusal)),
        }
    }
}

impl fmt::Display for HandleText {
    fn fmt<W: fmt::Write>(&self, f: &mut fmt::Formatter<W>) -> fmt::Result {
        let handle = match self.0 {
            None => return f.write_str("none"),
            Some(None) => return f.write_str("gone"),
            Some(Some(handle)) => handle,
        };
        let (ptr, len, cap, word) = (handle.ptr, handle.len, handle.cap, WordText(handle.word));
        match handle.kind {
            Kind::View => write!(f, "view {ptr} {len} {word}"),
            Kind::Mut => write!(f, "mut {ptr} {len} {cap} {word}"),
        }
    }
}

impl fmt::Display for RecordText {
    fn fmt<W: fmt::Write>(&self, f: &mut fmt::Formatter<W>) -> fmt::Result {
        let Some(Record { count, block, live }) = self.0 else {
            return f.write_str("none");
        };
        let state = if live { "live" } else { "freed" };
        write!(f, "count {count} block {block} {state}")
    }
}

impl fmt::Display for WordText {
    fn fmt<W: fmt::Write>(&self, f: &mut fmt::Formatter<W>) -> fmt::Result {
        match self.0 {
            Word::Empty => f.write_str("empty"),
            Word::Descriptor(word) => write!(f, "word {word}"),
            Word::Record(record) => write!(f, "record {record}"),
        }
    }
}

impl fmt::Display for FreedText<'_> {
    fn fmt<W: fmt::Write>(&self, f: &mut fmt::Formatter<W>) -> fmt::Result {
        f.write_str("blocks")?;
        for freed in self.0.freed_blocks() {
            let (base, size, align) = (freed.base, freed.size, freed.align);
            write!(f, " {base}/{size}/{align}")?;
        }
        f.write_str(" records")?;
        for record in self.0.freed_records() {
            write!(f, " {record}")?;
        }
        Ok(())
    }
}

// A refusal with its number.
fn name(refusal: Refusal) -> &'static str {
    match refusal {
        Refusal::Busy => "O1 Busy",
        Refusal::Idle => "O2 Idle",
        Refusal::NoHandle => "O3 NoHandle",
        Refusal::WrongKind => "O4 WrongKind",
        Refusal::Borrowed => "O5 Borrowed",
        Refusal::OutOfRange => "O6 OutOfRange",
        Refusal::BadPlace => "O7 BadPlace",
        Refusal::Memory => "O8 Memory",
        Refusal::Ceiling => "O9 Ceiling",
        Refusal::Room => "O10 Room",
    }
}
