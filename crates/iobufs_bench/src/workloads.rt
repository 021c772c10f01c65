// The workloads by their names.
use crate::run::{CHUNK, Run, RunError, copies, lists, native, pattern, texts};
use crate::{codec, everyday, frames, lists, single, texts, turns};
use bytes::Bytes;
use iobufs_core::buf::IoBuf;

/// One run of a workload.
pub fn run_named(rt: &HostRuntime, name: &str) -> Result<Run, RunError> {
    match name {
        "put64_1m_freeze" => single::put64(rt),
        "put_u8_64k_freeze" => single::put_u8(rt),
        "split_1m_1k_drop" => single::split_drop(rt),
        "split_1m_1k_keep" => single::split_keep(rt),
        "clone_drop_native" => single::clone_drop(rt, native(rt.alloc(), 1024)?),
        "clone_drop_bytes" => single::clone_drop(
            rt,
            IoBuf::from(Bytes::from_vec(pattern(rt.alloc(), 1024)?)?),
        ),
        "clone_drop_static" => single::clone_drop(
            rt,
            IoBuf::from(b"abcdefghijklmnopqrstuvwxyz".as_slice()),
        ),
        "new_share_drop_64" => single::new_share_drop(rt),
        "slice_drop_64" => single::slice_drop(rt),
        "slice_of_slice" => single::slice_of_slice(rt),
        "read_view_bytewise_1m" => single::read_bytewise(rt),
        "read_view_64_1m" => single::read_64(rt),
        "take_view_1k_1m" => single::take_1k(rt),
        "take_view_1k_whole" => single::take_whole(rt),
        "recover_put64_freeze" => single::recover(rt),
        _ => run_everyday(rt, name),
    }
}

// Everyday calls on small values.
fn run_everyday(rt: &HostRuntime, name: &str) -> Result<Run, RunError> {
    match name {
        "numbers_read" => everyday::read_numbers(rt),
        "numbers_put" => everyday::put_numbers(rt),
        "new_put64_freeze" => everyday::new_freeze(rt),
        "from_vec64" => everyday::from_vec(rt),
        "slice_recover_freeze64" => everyday::slice_recover(rt),
        "from_array2" => everyday::from_array(rt),
        "header_body" => everyday::header_body(rt),
        "frames1000_view" => everyday::frames_view(rt),
        "equal_views40" => everyday::equal(rt),
        "encode_entry64" => everyday::encode_entry(rt),
        "decode_entry64" => everyday::decode_entry(rt),
        _ => run_wire(rt, name),
    }
}

// The workloads that encode and decode. A frame's length, and that of its chunks, are in the name.
fn run_wire(rt: &HostRuntime, name: &str) -> Result<Run, RunError> {
    match name {
        "encode_view64" => codec::encode(rt),
        "build_records64" => codec::build(rt),
        "decode64_one_chunk" => codec::decoding(rt, 1024, 64, codec::NO_CUT, false),
        "decode64_one_chunk_take" => codec::decoding(rt, 1024, 64, codec::NO_CUT, true),
        "decode64_chunks1024" => codec::decoding(rt, 1024, 64, 1024, false),
        "decode64_chunks1024_take" => codec::decoding(rt, 1024, 64, 1024, true),
        "decode64_chunks48" => codec::decoding(rt, 1024, 64, 48, false),
        "decode64_chunks48_take" => codec::decoding(rt, 1024, 64, 48, true),
        "decode16k_chunks1024" => codec::decoding(rt, 16, 16384, 1024, false),
        "decode16k_chunks1024_take" => codec::decoding(rt, 16, 16384, 1024, true),
        "frames_echo64" => frames::echo(rt, 16384, 64),
        "frames_proxy_mixed" => codec::proxy(rt),
        "frames_there_and_back" => codec::there_and_back(rt, false),
        "frames_there_and_back_take" => codec::there_and_back(rt, true),
        _ => run_sized(rt, name),
    }
}

// The workloads whose names have a size: of chunks, or of buffers.
fn run_sized(rt: &HostRuntime, name: &str) -> Result<Run, RunError> {
    let Some((head, tail)) = name.split_once('_') else {
        return Err(RunError::NoName);
    };
    if let Some(n) = head.strip_prefix("text") {
        return run_text(rt, size(n)?, tail);
    }
    match head.strip_prefix("parts") {
        Some(n) => run_parts(rt, size(n)?, tail),
        None => Err(RunError::NoName),
    }
}

// A size, above 0.
fn size(word: &str) -> Result<u32, RunError> {
    match word.parse::<u32>() {
        Ok(n) if n > 0 => Ok(n),
        _ => Err(RunError::NoName),
    }
}

fn run_text(rt: &HostRuntime, n: u32, name: &str) -> Result<Run, RunError> {
    match name {
        "append" => texts::join(rt, n, false),
        "prepend" => texts::join(rt, n, true),
        "len" => texts::len(rt, n),
        "advance100" => turns::advance100(rt, n, texts(rt.alloc(), copies(n), n)?),
        "take100" => turns::take(rt, n, 100, texts(rt.alloc(), copies(n), n)?),
        "take300" => turns::take(rt, n, 300, texts(rt.alloc(), copies(n), n)?),
        "split1000" => texts::split1000(rt, n, usize::MAX),
        "split1000_few" => texts::split1000(rt, n, 200),
        "queue_split" => texts::queue_split(rt, n),
        "queue_advance" => texts::queue_advance(rt, n),
        "locate" => texts::locate(rt, n),
        "split_mid" => texts::split_mid(rt, n),
        "slice" => texts::slice(rt, n),
        "equal" => texts::equal(rt, n),
        "coalesce" => texts::coalesce(rt, n),
        "clone_drop" => texts::clone_drop(rt, n),
        "walk" => texts::walk(rt, n),
        "drain" => turns::drain(rt, n, texts(rt.alloc(), copies(n), n)?),
        "bytewise" => texts::bytewise(rt, n),
        "hold" => texts::hold(rt, n),
        "vectored" => everyday::vectored(rt, n),
        _ => Err(RunError::NoName),
    }
}

fn run_parts(rt: &HostRuntime, n: u32, name: &str) -> Result<Run, RunError> {
    match name {
        "put3" => lists::put(rt, n, 3),
        "put64" => lists::put(rt, n, 64),
        "put96" => lists::put(rt, n, 96),
        "advance100" => turns::advance100(rt, n, lists(rt.alloc(), copies(n), n, CHUNK)?),
        "take100" => turns::take(rt, n, 100, lists(rt.alloc(), copies(n), n, CHUNK)?),
        "take300" => turns::take(rt, n, 300, lists(rt.alloc(), copies(n), n, CHUNK)?),
        "freeze" => lists::freeze(rt, n),
        "overwrite" => lists::overwrite(rt, n),
        "coalesce" => lists::coalesce(rt, n, 8),
        "coalesce_full" => lists::coalesce(rt, n, CHUNK),
        // Buffers of eight bytes that are read to their ends, and keep their spare capacity.
        "drain" => turns::drain(rt, n, lists(rt.alloc(), copies(n), n, 8)?),
        "hold" => lists::hold(rt, n),
        _ => Err(RunError::NoName),
    }
}
