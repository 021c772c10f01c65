//! A session: each line of an input is answered.
ghost use Rattle.iobuf.specs.Session.{IsServed};

use crate::words::LineError;
use memchr::memchr;
use std::alloc::Global;
use std::io::{self, BufRead, BufReader, Read, Write};
use std::{fmt, str};

/// Why a session ends before the end of its input.
#[derive(Clone, Copy, Debug, PartialEq, Eq, Drop)]
pub enum Stop {
    /// The line of this number, from 1, is no command.
    BadCommand(u64),
    /// Reading, writing or an allocation failed, or a line isn't UTF-8.
    CannotContinue,
    /// The words after the program's name ask for no session.
    OtherWords,
}

impl From<io::Error> for Stop {
    fn from(_error: io::Error) -> Stop {
        Stop::CannotContinue
    }
}

impl fmt::Display for Stop {
    fn fmt<W: fmt::Write>(&self, f: &mut fmt::Formatter<W>) -> fmt::Result {
        match self {
            Stop::BadCommand(number) => write!(f, "line {number}: bad command"),
            Stop::CannotContinue => f.write_str("cannot continue"),
            Stop::OtherWords => f.write_str("usage: iobuf buf or iobuf owner"),
        }
    }
}

/// Answers lines.
pub trait Service {
    // How a line may change it.
    ghost Takes: { Self → Self → Type 0 };

    /// Answers a line, given without its end, by a line.
    fn answer<W: Write>(&mut self, line: &[u8], output: &mut W) -> Result<(), LineError>
        ensures { Takes self.old self.new };
}

// How many bytes of an input are read at once.
const AT_ONCE: usize = 1 << 16;

/// Answers each line of the input, and flushes the replies.
pub fn session<S: Service, R: Read + Drop, W: Write>(
    alloc: Global,
    service: &mut S,
    input: &mut R,
    output: &mut W,
) -> Result<(), Stop>
    ensures { IsServed S.Takes service.old service.new }
{
    let ended = answer_lines(alloc, service, input, output);
    output.flush()?;
    ended
}

// Answers each line. Replies are flushed before a read, which may wait.
fn answer_lines<S: Service, R: Read + Drop, W: Write>(
    alloc: Global,
    service: &mut S,
    input: &mut R,
    output: &mut W,
) -> Result<(), Stop>
    ensures { IsServed S.Takes service.old service.new }
{
    let mut input = BufReader::with_capacity(alloc, AT_ONCE, input)?;
    let mut line = Vec::new(alloc);
    for number in 1..u64::MAX {
        // A line that is in the buffer as a whole is answered there.
        if let Some(end) = memchr(b'\n', input.buffer()) {
            answer(service, number, &input.buffer()[..end + 1], output)?;
            input.consume(end + 1);
        } else {
            output.flush()?;
            line.clear();
            if input.read_until(b'\n', &mut line)? == 0 {
                return Ok(());
            }
            answer(service, number, &line, output)?;
        }
    }
    Err(Stop::CannotContinue)
}

// Answers the line of this number. Only a line that is no command can be other than UTF-8.
fn answer<S: Service, W: Write>(
    service: &mut S,
    number: u64,
    line: &[u8],
    output: &mut W,
) -> Result<(), Stop>
    ensures { S.Takes service.old service.new }
{
    let text = text(line);
    match service.answer(text, output) {
        Ok(()) => Ok(()),
        Err(LineError::BadCommand) if str::from_utf8(text).is_ok() => Err(Stop::BadCommand(number)),
        Err(_) => Err(Stop::CannotContinue),
    }
}

// A line without its end: LF, or CR LF.
fn text(line: &[u8]) -> &[u8] {
    match line.strip_suffix(b"\n") {
        Some(line) => line.strip_suffix(b"\r").unwrap_or(line),
        None => line,
    }
}
