// Texts that errors print, and commands and buffers as they are printed.
use crate::same::assert_same;
use iobufs_codec::Fault;
use iobufs_core::buf::IoBuf;
use iobufs_core::codec::{BufError, Error, Refused, TryGetError};
use iobufs_run::command::Cmd;
use std::fmt::Display;
use std::process::Abort;
use std::test::Fail;
use tests_fixtures::{part, text};

const BUFFER_ERRORS: [(BufError, &'static str); 3] = [
    (BufError::Memory, "Memory"),
    (BufError::BadLayout, "BadLayout"),
    (BufError::TooLong, "TooLong"),
];

const ERRORS: [(Error, &'static str); 6] = [
    (Error::EndOfBuffer, "EndOfBuffer"),
    (Error::InvalidVarint, "InvalidVarint"),
    (Error::InvalidLength(7), "InvalidLength"),
    (Error::Memory, "Memory"),
    (Error::BadLayout, "BadLayout"),
    (Error::TooLong, "TooLong"),
];

const FAULTS: [(Fault, &'static str); 5] = [
    (Fault::Codec(Error::EndOfBuffer), "EndOfBuffer"),
    (Fault::Codec(Error::Memory), "Memory"),
    (Fault::InvalidBool, "InvalidBool"),
    (Fault::InvalidEnum(7), "InvalidEnum"),
    (Fault::ExtraData(3), "ExtraData"),
];

const SHORT: TryGetError = TryGetError {
    requested: 3,
    available: 2,
};

fn assert_printed<C: Display>(
    rt: &(impl Abort + AllocGlobal),
    cause: &C,
    wanted: &str,
) -> Result<(), Fail> {
    assert_same!(rt; format!(in rt.alloc(); "{cause}")?.as_str(), wanted);
    Ok(())
}

#[test]
fn errors_print_their_names(rt: HostRuntime) -> Result<(), Fail> {
    for case in &BUFFER_ERRORS {
        let (cause, wanted) = *case;
        assert_printed(&rt, &cause, wanted)?;
        let value = IoBuf::default();
        assert_printed(&rt, &Refused { cause, value }, wanted)?;
    }
    for case in &ERRORS {
        assert_printed(&rt, &case.0, case.1)?;
    }
    for case in &FAULTS {
        assert_printed(&rt, &case.0, case.1)?;
    }
    assert_printed(&rt, &SHORT, "TryGetError")
}

#[test]
fn a_command_is_printed(rt: HostRuntime) -> Result<(), Fail> {
    let put = Cmd::Put {
        target: 1,
        bytes: Vec::from_slice(rt.alloc(), &[7, 8])?,
    };
    let text = format!(in rt.alloc(); "{put:?}")?;
    assert_same!(rt; text.as_str(), "Put { target: 1, bytes: [7, 8] }");
    Ok(())
}

#[test]
fn buffers_print_their_lengths(rt: HostRuntime) -> Result<(), Fail> {
    let (view, part) = (IoBuf::from(b"abc".as_slice()), part(rt.alloc(), b"abc", 5)?);
    let text = text(rt.alloc(), &[b"ab", b"cde"])?;
    let printed = format!(in rt.alloc(); "{view:?} {part:?} {text:?}")?;
    assert_same!(rt;
        printed.as_str(),
        "IoBuf { len: 3 } IoBufMut { len: 3, cap: 8 } IoBufs { len: 5, chunks: 2 }"
    );
    Ok(())
}
