// Words of a format, on examples with known answers.
ghost use Rattle.std.specs.Prelude.{◌<◌};
ghost use Rattle.iobufs_owner.specs.Word.{IsPowerOfTwo};

use crate::same::assert_same;
use iobufs_owner::format::{FORMAT_32, FORMAT_64, Fields, Format};
use std::process::Abort;

// A block as it is packed: its size, the logarithm of its alignment, its tail, and the word, if it has one.
type Packed = (u64, u32, u64, Option<u64>);

const WORDS_OF_64_BITS: [Packed; 8] = [
    // A word of ten bytes with a tail.
    (10, 0, 9, Some(167773313)),
    // A word of the highest alignment.
    (1, 62, 0, Some(16777341)),
    // A word whose fields are full.
    ((1 << 40) - 1, 30, (1 << 17) - 1, Some(18446744073709551549)),
    // A word of an aligned block with a tail.
    (64, 3, 24, Some(1073744903)),
    (64, 0, (1 << 17) - 1, Some(1090518913)),
    // A size that has no room.
    (1 << 40, 0, 0, None),
    // A tail that has no room.
    (64, 0, 1 << 17, None),
    // No size.
    (0, 0, 0, None),
];

const WORDS_OF_32_BITS: [Packed; 3] = [
    // A word of 32 bits.
    (1000, 0, 0, Some(256001)),
    // A word of 32 bits with a tail.
    (1000, 0, 127, Some(256255)),
    // An alignment that has no room.
    (64, 1, 0, None),
];

// A word without bits for a size.
const WORDS_OF_ONE_BIT: [Packed; 1] = [(1, 0, 0, None)];

// A block of 1,000 bytes in a word of 32 bits: its tail, another tail, and the word with that one.
const OTHER_TAILS: [(u64, u64, Option<u64>); 3] = [
    // A longer tail.
    (0, 127, Some(256255)),
    // No tail.
    (127, 0, Some(256001)),
    // Another tail that has no room.
    (127, 128, None),
];

// Bits of alignment, tail and size, and how many a word has, if there is such a format.
const FORMATS: [(u32, u32, u32, Option<u32>); 3] = [
    // A format of 64 bits.
    (6, 17, 40, Some(64)),
    // A format of too many bits.
    (6, 17, 41, None),
    (0, 0, 0, Some(1)),
];

// An alignment of this logarithm.
fn alignment(log: u32) -> u64
    requires { log < 64 }
    ensures { IsPowerOfTwo result }
{
    1 << log
}

// Packs each block, and looks whether the test of its fields agrees.
fn assert_words(rt: &impl Abort, format: Format, blocks: &[Packed]) {
    for (size, log, tail, word) in blocks.iter() {
        assert!(rt; *log < 64);
        let align = alignment(*log);
        let packed = (
            format.pack(*size, align, *tail),
            format.fits(*size, align, *tail),
        );
        assert_same!(rt; packed, (*word, word.is_some()), "{size} {log} {tail}");
    }
}

#[test]
fn words(rt: HostRuntime) {
    assert_words(&rt, FORMAT_64, &WORDS_OF_64_BITS);
    assert_words(&rt, FORMAT_32, &WORDS_OF_32_BITS);
    let least = Format::new(0, 0, 0).expect(&rt, "it fits");
    assert_words(&rt, least, &WORDS_OF_ONE_BIT);
}

#[test]
fn fields(rt: HostRuntime) {
    let word = FORMAT_64.pack(64, alignment(3), 24).expect(&rt, "it fits");
    let fields = Fields {
        size: 64,
        align: 8,
        tail: 24,
    };
    assert_same!(rt; FORMAT_64.unpack(word), fields);
}

#[test]
fn other_tails(rt: HostRuntime) {
    for (tail, other, wanted) in OTHER_TAILS {
        let word = FORMAT_32
            .pack(1000, alignment(0), tail)
            .expect(&rt, "it fits");
        assert_same!(rt; FORMAT_32.with_tail(word, other), wanted, "{tail} {other}");
    }
}

#[test]
fn formats(rt: HostRuntime) {
    for (align, tail, size, bits) in FORMATS {
        let found = Format::new(align, tail, size).map(|format| format.bits());
        assert_same!(rt; found, bits, "{align} {tail} {size}");
    }
    assert_same!(rt; FORMAT_32.bits(), 32);
}
