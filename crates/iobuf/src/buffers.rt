//! Lines of named buffers: the command that a line says, and the line of its reply.
ghost use Rattle.std.specs.Prelude.{◌≤◌, length};
ghost use Rattle.iobuf.specs.Session.{TakesOne};

use crate::session::Service;
use crate::words::{LineError, Words, bytes, number};
use iobufs_core::codec::{BufError, BufMut, RangeCfg};
use iobufs_run::command::{Cmd, Item, Refusal, Reply};
use iobufs_run::table::{Slot, Table};
use std::alloc::Global;
use std::io::{self, Write};
use std::ops::Bound;

// How many names there are.
const NAMES: usize = 16;

// The bytes of which static views are made.
const LETTERS: &[u8] = b"abcdefghijklmnopqrstuvwxyz";

/// Buffers under the names 0 to 15.
#[derive(Drop)]
pub struct Buffers {
    alloc: Global,
    table: Table,
}

impl Buffers {
    /// Holds no buffer.
    pub fn new(alloc: Global) -> Result<Buffers, BufError> {
        Ok(Buffers {
            alloc,
            table: Table::new(alloc, NAMES)?,
        })
    }
}

impl Service for Buffers {
    // It does one command, or nothing.
    ghost Takes = { λ old new. TakesOne old.table new.table };

    // A shown buffer is printed where it is, without a copy.
    fn answer<W: Write>(&mut self, line: &[u8], output: &mut W) -> Result<(), LineError> {
        match command(self.alloc, &mut Words::of(line))? {
            Cmd::Show { target } => match self.table.shown(target) {
                Ok(slot) => write_slot(slot, output)?,
                Err(refusal) => write_refusal(refusal, output)?,
            },
            cmd => write_reply(&self.table.apply(&cmd), output)?,
        }
        Ok(())
    }
}

// The command of a line.
fn command(alloc: Global, words: &mut Words<'_>) -> Result<Cmd, LineError> {
    let cmd = match words.word()? {
        b"new" => three(
            words,
            |dst, capacity, align| Cmd::NewMut {
                dst,
                capacity,
                align,
            },
        ),
        b"zeroed" => three(words, |dst, len, align| Cmd::Zeroed { dst, len, align }),
        b"adopt" => with_bytes(alloc, words, |dst, bytes| Cmd::Adopt { dst, bytes }),
        b"static" => letters(words),
        b"bytes" => with_bytes(alloc, words, |dst, bytes| Cmd::FromBytes { dst, bytes }),
        b"put" => with_bytes(alloc, words, |target, bytes| Cmd::Put { target, bytes }),
        b"fill" => fill(words),
        b"setlen" => two(words, |target, n| Cmd::SetLen { target, n }),
        b"truncate" => two(words, |target, n| Cmd::Truncate { target, n }),
        b"clear" => one(words, |target| Cmd::Clear { target }),
        b"overwrite" => with_bytes(
            alloc,
            words,
            |target, bytes| Cmd::Overwrite { target, bytes },
        ),
        b"freeze" => two(words, |src, dst| Cmd::Freeze { src, dst }),
        b"recover" => two(words, |src, dst| Cmd::Recover { src, dst }),
        b"clone" => two(words, |src, dst| Cmd::Clone { src, dst }),
        b"slice" => slice(words),
        b"split" => three(words, |src, dst, at| Cmd::Split { src, dst, at }),
        b"advance" => two(words, |target, n| Cmd::Advance { target, n }),
        b"take" => two(words, |target, n| Cmd::Take { target, n }),
        b"gather" => with_numbers(alloc, words, |dst, sources| Cmd::Gather { dst, sources }),
        b"gathermut" => with_numbers(alloc, words, |dst, sources| Cmd::GatherMut { dst, sources }),
        b"append" => two(words, |target, src| Cmd::Append { target, src }),
        b"prepend" => two(words, |target, src| Cmd::Prepend { target, src }),
        b"coalesce" => two(words, |src, dst| Cmd::Coalesce { src, dst }),
        b"build" => build(alloc, words),
        b"encode" => two(words, |src, dst| Cmd::Encode { src, dst }),
        b"decode" => decode(words),
        b"drop" => one(words, |target| Cmd::Drop { target }),
        b"show" => one(words, |target| Cmd::Show { target }),
        _ => Err(LineError::BadCommand),
    }?;
    words.end()?;
    Ok(cmd)
}

// A command of a number. It is a function, since every line zeroes a local for each `?` of a struct literal.
fn one<T, F: FnOnce(usize) -> T>(words: &mut Words<'_>, make: F) -> Result<T, LineError>
    requires { F.IsAlwaysCallable make }
{
    Ok(make(words.number()?))
}

// A command of two numbers.
fn two<T, F: FnOnce(usize, usize) -> T>(words: &mut Words<'_>, make: F) -> Result<T, LineError>
    requires { F.IsAlwaysCallable make }
{
    Ok(make(words.number()?, words.number()?))
}

// A command of three numbers.
fn three<T, F: FnOnce(usize, usize, usize) -> T>(
    words: &mut Words<'_>,
    make: F,
) -> Result<T, LineError>
    requires { F.IsAlwaysCallable make }
{
    Ok(make(words.number()?, words.number()?, words.number()?))
}

// A command of a number and bytes.
fn with_bytes<T, F: FnOnce(usize, Vec<u8>) -> T>(
    alloc: Global,
    words: &mut Words<'_>,
    make: F,
) -> Result<T, LineError>
    requires { F.IsAlwaysCallable make }
{
    Ok(make(words.number()?, words.bytes(alloc)?))
}

// A command of a number, and any number of numbers.
fn with_numbers<T, F: FnOnce(usize, Vec<usize>) -> T>(
    alloc: Global,
    words: &mut Words<'_>,
    make: F,
) -> Result<T, LineError>
    requires { F.IsAlwaysCallable make }
{
    Ok(make(words.number()?, numbers(alloc, words)?))
}

// A view of a range of the letters.
fn letters(words: &mut Words<'_>) -> Result<Cmd, LineError> {
    let (dst, lo, hi) = (words.number()?, words.number()?, words.number()?);
    match LETTERS.get(lo..hi) {
        Some(text) => Ok(Cmd::Static { dst, text }),
        None => Err(LineError::BadCommand),
    }
}

// A number, a byte and a number.
fn fill(words: &mut Words<'_>) -> Result<Cmd, LineError> {
    let target = words.number()?;
    let byte = u8::try_from(words.number()?).map_err(|_| LineError::BadCommand)?;
    let n = words.number()?;
    Ok(Cmd::Fill { target, byte, n })
}

// Two numbers and two bounds.
fn slice(words: &mut Words<'_>) -> Result<Cmd, LineError> {
    let (src, dst) = (words.number()?, words.number()?);
    let (lo, hi) = (bound(words.word()?)?, bound(words.word()?)?);
    Ok(Cmd::Slice { src, dst, lo, hi })
}

// Two numbers, and items up to the end of the line.
fn build(alloc: Global, words: &mut Words<'_>) -> Result<Cmd, LineError> {
    let (dst, capacity) = (words.number()?, words.number()?);
    let items = items(alloc, words)?;
    Ok(Cmd::Build {
        dst,
        capacity,
        items,
    })
}

// Two numbers, and a least and a greatest length.
fn decode(words: &mut Words<'_>) -> Result<Cmd, LineError> {
    let (src, dst) = (words.number()?, words.number()?);
    let range = RangeCfg {
        lo: words.number()?,
        hi: words.number()?,
    };
    Ok(Cmd::Decode { src, dst, range })
}

// A bound: `i3` is included, `e3` is excluded, `u` is none.
fn bound(word: &[u8]) -> Result<Bound<usize>, LineError> {
    match word {
        b"u" => Ok(Bound::Unbounded),
        [b'i', place @ ..] => Ok(Bound::Included(number(place)?)),
        [b'e', place @ ..] => Ok(Bound::Excluded(number(place)?)),
        _ => Err(LineError::BadCommand),
    }
}

// Numbers up to the end of the line.
fn numbers(alloc: Global, words: &mut Words<'_>) -> Result<Vec<usize>, LineError> {
    let mut numbers = Vec::new(alloc);
    while let Some(word) = words.next_word() {
        numbers.push(number(word)?)?;
    }
    Ok(numbers)
}

// Items up to the end of the line: bytes after an `i`, the name of a view after a `p`.
fn items(alloc: Global, words: &mut Words<'_>) -> Result<Vec<Item>, LineError> {
    let mut items = Vec::new(alloc);
    while let Some(word) = words.next_word() {
        items.push(match word {
            [b'i', digits @ ..] => Item::Inline(bytes(alloc, digits)?),
            [b'p', name @ ..] => Item::Push(number(name)?),
            _ => return Err(LineError::BadCommand),
        })?;
    }
    Ok(items)
}

// Writes the line of a reply.
fn write_reply<W: Write>(reply: &Reply, output: &mut W) -> io::Result<()> {
    match reply {
        Reply::Done => output.write_all(b"ok\n"),
        Reply::Bytes(bytes) => {
            output.write_all(b"bytes ")?;
            write_hex(bytes.as_slice(), output)?;
            output.write_all(b"\n")
        }
        Reply::Refused(refusal) => write_refusal(*refusal, output),
        // No reply: `answer` prints a buffer by `write_slot`.
        Reply::Shown { .. } => Ok(()),
    }
}

// Writes the line of a refusal.
fn write_refusal<W: Write>(refusal: Refusal, output: &mut W) -> io::Result<()> {
    writeln!(output, "refused {refusal}")
}

// Writes the line that shows a name.
fn write_slot<W: Write>(slot: &Slot, output: &mut W) -> io::Result<()> {
    match slot {
        Slot::Free => {}
        Slot::Part(part) => {
            output.write_all(b"part")?;
            write_part(part.as_ref(), part.remaining_mut(), output)?;
        }
        Slot::View(view) => {
            output.write_all(b"view")?;
            write_chunk(view.as_ref(), output)?;
        }
        Slot::Text(text) => {
            output.write_all(b"text")?;
            for index in 0..text.chunk_count() {
                if let Some(chunk) = text.chunk_at(index) {
                    write_chunk(chunk, output)?;
                }
            }
        }
        Slot::Parts(parts) => {
            output.write_all(b"parts")?;
            for index in 0..parts.part_count() {
                if let Some(part) = parts.part_at(index) {
                    write_part(part.as_ref(), part.remaining_mut(), output)?;
                }
            }
        }
    }
    output.write_all(b"\n")
}

// Writes a space, the bytes and the spare capacity of a writable buffer.
fn write_part<W: Write>(bytes: &[u8], spare: usize, output: &mut W) -> io::Result<()> {
    write_chunk(bytes, output)?;
    write!(output, "+{spare}")
}

// Writes a space and bytes.
fn write_chunk<W: Write>(bytes: &[u8], output: &mut W) -> io::Result<()> {
    output.write_all(b" ")?;
    write_hex(bytes, output)
}

// How many bytes become digits at once.
const AT_ONCE: usize = 32;

// Writes bytes as hexadecimal digits, or a dash if there are none.
fn write_hex<W: Write>(bytes: &[u8], output: &mut W) -> io::Result<()> {
    if bytes.is_empty() {
        return output.write_all(b"-");
    }
    let mut digits = [0; 2 * AT_ONCE];
    for few in bytes.chunks(AT_ONCE) {
        let digits = &mut digits[..2 * few.len()];
        let _ = hex::encode_to_slice(few, &mut *digits);
        output.write_all(digits)?;
    }
    Ok(())
}
