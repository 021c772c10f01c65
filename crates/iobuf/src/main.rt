//! The program: a session of commands or of owner steps, line by line, over the standard streams.
//!
//! - `session`: answers each line of an input.
//! - `buffers`, `owner`: the lines of each half, and their replies.
//! - `words`: the words of a line, and the numbers and bytes that they say.
//! - `specs/`: `Session` says how lines may change what is served, and which statuses there are.
#![tactic(auto)]

ghost use Rattle.std.specs.Prelude.{◌≡◌, ◌≢◌, [], ◌∷◌, codes, map};
ghost use Rattle.iobuf.specs.Session.{IsStatus, stop_status};

mod buffers;
mod owner;
mod session;
mod words;

use crate::buffers::Buffers;
use crate::owner::Owner;
use crate::session::{Stop, session};
use std::alloc::Global;
use std::env;
use std::io::{self, BufWriter, ErrorKind, Read, Write};
use std::process::ExitCode;

// How many bytes of replies are written at once.
const AT_ONCE: usize = 1 << 16;

/// Runs the program on the words after its name, and returns its status. An error in writing to `errors` changes
/// nothing.
pub fn serve<R: Read + Drop, W: Write, E: Write>(
    alloc: Global,
    args: &[&str],
    input: &mut R,
    output: &mut W,
    errors: &mut E,
) -> u8
    ensures status { IsStatus result }
    ensures unread { map (λ arg. arg.now) args.now ≢ codes "buf" ∷ []
        → map (λ arg. arg.now) args.now ≢ codes "owner" ∷ []
        → (result ≡ 2) × (input.new ≡ input.old) × (output.new ≡ output.old) }
    ensures silent { result ≡ 0 → errors.new ≡ errors.old }
{
    let ended = match args {
        ["buf"] => match Buffers::new(alloc) {
            Ok(mut buffers) => session(alloc, &mut buffers, input, output),
            Err(_) => Err(Stop::CannotContinue),
        },
        ["owner"] => session(alloc, &mut Owner::new(alloc), input, output),
        _ => Err(Stop::OtherWords),
    };
    match ended {
        Ok(()) => 0,
        Err(stop) => stopped(stop, errors),
    }
}

// Writes why a session ended early, and returns the status.
fn stopped<E: Write>(stop: Stop, errors: &mut E) -> u8
    ensures { result ≡ stop_status stop }
{
    let _ = writeln!(errors, "{stop}");
    match stop {
        Stop::BadCommand(_) | Stop::OtherWords => 2,
        Stop::CannotContinue => 3,
    }
}

// An argument that is not UTF-8 is another argument.
fn run(rt: &HostRuntime) -> io::Result<u8> {
    let alloc = rt.alloc();
    let words = match env::args(rt) {
        Ok(words) => words,
        Err(error) if error.kind() == ErrorKind::InvalidData => {
            return Ok(stopped(Stop::OtherWords, &mut rt.stderr()));
        }
        Err(error) => return Err(error),
    };
    let mut owned = Vec::new(alloc);
    for word in words.skip(1) {
        owned.push(word)?;
    }
    let mut args = Vec::new(alloc);
    for word in &owned {
        args.push(word.as_str())?;
    }
    let mut output = BufWriter::with_capacity(alloc, AT_ONCE, rt.stdout())?;
    Ok(serve(
        alloc,
        args.as_slice(),
        &mut rt.reader(),
        &mut output,
        &mut rt.stderr(),
    ))
}

fn main(rt: HostRuntime) -> ExitCode {
    match run(&rt) {
        Ok(status) => ExitCode::from(status),
        Err(_) => ExitCode::from(stopped(Stop::CannotContinue, &mut rt.stderr())),
    }
}
