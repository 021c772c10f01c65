// Pushes to a `Builder`, which hand back what they were given, and values that are encoded into chunks.
use crate::word::{Ended, end, mark};
use bytes::Bytes;
use iobufs::builder::{Builder, EncodeExt};
use iobufs_core::buf::IoBuf;
use iobufs_core::codec::{BufError, BufMut, BufsMut, Error, Write};
use std::alloc::Global;
use std::process::Abort;
use tests_fixtures::shows;

fn put(builder: &mut Builder, bytes: &[u8]) -> Result<(), BufError> {
    if builder.remaining_mut() < bytes.len() {
        return Err(BufError::TooLong);
    }
    builder.put_slice(bytes);
    Ok(())
}

// A push that fails has to hand back what was pushed.
fn push(builder: &mut Builder, bytes: &'static [u8]) -> Result<(), BufError> {
    match builder.push(IoBuf::from(bytes)) {
        Ok(()) => Ok(()),
        Err(refused) if refused.value.as_ref() == bytes => Err(refused.cause),
        Err(_) => Err(BufError::TooLong),
    }
}

fn push_bytes(builder: &mut Builder, bytes: &'static [u8]) -> Result<(), BufError> {
    match builder.push_bytes(Bytes::from_static(bytes)) {
        Ok(()) => Ok(()),
        Err(refused) if refused.value.as_slice() == bytes => Err(refused.cause),
        Err(_) => Err(BufError::TooLong),
    }
}

// A builder for eight bytes, to which two were put.
fn begun(alloc: Global) -> Result<Builder, BufError> {
    let mut builder = Builder::new(alloc, 8)?;
    put(&mut builder, b"ab")?;
    Ok(builder)
}

// Whether a builder builds these two chunks.
fn is_built(rt: &impl Abort, builder: Builder) -> bool {
    shows(
        &builder.finish().expect(rt, "the builder is finished"),
        &[b"ab", b"cd"],
    )
}

#[test]
fn push_of_a_view(rt: HostRuntime) {
    let mut builder = begun(rt.alloc()).expect(&rt, "a fixture");
    let ((), word) = lent!(
        rt,
        push(&mut builder, b"cd"),
        BufError::Memory,
        builder.remaining_mut() == 6
    );
    end(&rt, word, is_built(&rt, builder));
}

#[test]
fn push_of_bytes(rt: HostRuntime) {
    let mut builder = begun(rt.alloc()).expect(&rt, "a fixture");
    let ((), word) = lent!(
        rt,
        push_bytes(&mut builder, b"cd"),
        BufError::Memory,
        builder.remaining_mut() == 6
    );
    end(&rt, word, is_built(&rt, builder));
}

// A value is encoded into these chunks.
fn encoded<T: Write>(rt: &(impl Print + Abort + AllocGlobal), value: &T, chunks: &[&[u8]]) {
    let (bufs, word) = lent!(*rt, value.encode_iobufs(rt.alloc()), Error::Memory, true);
    end(rt, word, shows(&bufs, chunks));
}

#[test]
fn bytes_are_encoded(rt: HostRuntime) {
    encoded(&rt, &Bytes::from_static(b"abc"), &[b"\x03", b"abc"]);
}

#[test]
fn a_length_is_encoded(rt: HostRuntime) {
    encoded(&rt, &300usize, &[b"\xac\x02"]);
}

#[test]
fn a_number_is_encoded(rt: HostRuntime) {
    encoded(&rt, &258u32, &[b"\x00\x00\x01\x02"]);
}
