//! The words of a line, and the numbers and bytes that they say.
ghost use Rattle.std.specs.Prelude.{◌<◌, OnSome};
ghost use Rattle.iobuf.specs.Words.{bytes_left};

use hex::FromHexError;
use iobufs_core::codec::BufError;
use std::alloc::{AllocError, AllocFailed, Global};
use std::io;

/// Why a line isn't answered.
#[derive(Clone, Copy, Debug, PartialEq, Eq, Drop)]
pub enum LineError {
    /// It is no command.
    BadCommand,
    /// An allocation or a write failed.
    CannotContinue,
}

impl From<io::Error> for LineError {
    fn from(_error: io::Error) -> LineError {
        LineError::CannotContinue
    }
}

impl From<BufError> for LineError {
    fn from(_error: BufError) -> LineError {
        LineError::CannotContinue
    }
}

impl From<AllocError> for LineError {
    fn from(_error: AllocError) -> LineError {
        LineError::CannotContinue
    }
}

impl<T: Drop> From<AllocFailed<T>> for LineError {
    fn from(_error: AllocFailed<T>) -> LineError {
        LineError::CannotContinue
    }
}

/// The words of a line that are still to be read, separated by one space each.
#[derive(Drop)]
pub struct Words<'a> {
    rest: Option<&'a [u8]>,
}

impl<'a> Words<'a> {
    /// All words of a line.
    pub fn of(line: &'a [u8]) -> Words<'a> {
        Words { rest: Some(line) }
    }

    /// Takes the next word, if there is one.
    pub fn next_word(&mut self) -> Option<&'a [u8]>
        ensures { OnSome result (bytes_left self.new.rest < bytes_left self.old.rest) }
    {
        let line = self.rest?;
        let Some(end) = line.iter().position(|byte| *byte == b' ') else {
            self.rest = None;
            return Some(line);
        };
        self.rest = Some(&line[end + 1..]);
        Some(&line[..end])
    }

    /// Takes the next word.
    pub fn word(&mut self) -> Result<&'a [u8], LineError> {
        self.next_word().ok_or(LineError::BadCommand)
    }

    /// Takes the next word, which is a number.
    pub fn number(&mut self) -> Result<usize, LineError> {
        number(self.word()?)
    }

    /// Takes the next word, which says bytes.
    pub fn bytes(&mut self, alloc: Global) -> Result<Vec<u8>, LineError> {
        bytes(alloc, self.word()?)
    }

    /// Fails if a word is left.
    pub fn end(&self) -> Result<(), LineError> {
        match self.rest {
            None => Ok(()),
            Some(_) => Err(LineError::BadCommand),
        }
    }
}

/// Reads decimal digits, up to `usize::MAX`.
pub fn number(word: &[u8]) -> Result<usize, LineError> {
    if word.is_empty() {
        return Err(LineError::BadCommand);
    }
    let mut n: usize = 0;
    for byte in word {
        n = with_digit(n, *byte).ok_or(LineError::BadCommand)?;
    }
    Ok(n)
}

// A number with one more digit after it, if it is a digit and the number is not too large.
fn with_digit(n: usize, digit: u8) -> Option<usize> {
    if !digit.is_ascii_digit() {
        return None;
    }
    n.checked_mul(10)?.checked_add((digit - b'0') as usize)
}

/// Reads pairs of hexadecimal digits, at least one, or a dash for no bytes.
pub fn bytes(alloc: Global, word: &[u8]) -> Result<Vec<u8>, LineError> {
    match word {
        b"" => Err(LineError::BadCommand),
        b"-" => Ok(Vec::new(alloc)),
        digits => hex::decode(alloc, digits).map_err(|error| match error {
            FromHexError::OutOfMemory => LineError::CannotContinue,
            _ => LineError::BadCommand,
        }),
    }
}
