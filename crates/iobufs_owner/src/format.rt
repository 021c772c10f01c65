//! Descriptor words: a size, an alignment and a tail in one number.
ghost use Rattle.std.specs.Prelude.{◌≡◌, ℕ, ◌+◌, ◌^◌, ◌<◌, ◌≤◌, ◌↔◌, SomeIff, IfSome, IsTrue, MatchOption};
ghost use Rattle.iobufs_owner.specs.Word.{IsPowerOfTwo, fits, word_of, HasRoom, IsWord, size_of_word, tail_of_word, log_of_word, word_with_tail};

/// How many bits of a word hold the alignment, the tail and the size. Below them a word has one bit that is always set:
///
/// ```text
/// high                                               low
/// | size             | tail      | log2 of align | 1 |
///   size_bits          tail_bits   align_bits
/// ```
#[derive(Clone, Copy, Debug, Drop)]
pub struct Format {
    /// Bits for the logarithm of the alignment.
    pub align_bits: u32,
    /// Bits for the number of bytes of the block after a view.
    pub tail_bits: u32,
    /// Bits for the size of the block, in bytes.
    pub size_bits: u32,
    pub ghost in_a_word: { 1 + align_bits + tail_bits + size_bits ≤ 64 },
}

/// The fields of a word: size and tail in bytes, the alignment as a power of two.
#[derive(Clone, Copy, Debug, PartialEq, Eq, Drop)]
pub struct Fields {
    /// The size of the block.
    pub size: u64,
    /// The alignment of the block.
    pub align: u64,
    /// How many bytes the block has after the view; 0 in a writable handle.
    pub tail: u64,
}

/// Six bits of alignment, seventeen of tail, forty of size.
pub const FORMAT_64: Format = Format {
    align_bits: 6,
    tail_bits: 17,
    size_bits: 40,
};

/// No alignment but 1, seven bits of tail, twenty-four of size.
pub const FORMAT_32: Format = Format {
    align_bits: 0,
    tail_bits: 7,
    size_bits: 24,
};

/// Whether a number has at most this many bits.
fn fits(x: u64, bits: u32) -> bool
    requires { bits < 64 }
    ensures { IsTrue result ↔ (x < 2 ^ bits) }
{
    x >> bits == 0
}

impl Format {
    /// Returns the format with these numbers of bits; `None` if they and the lowest bit don't fit a word.
    pub fn new(align_bits: u32, tail_bits: u32, size_bits: u32) -> Option<Format>
        ensures { MatchOption result (64 < 1 + align_bits + tail_bits + size_bits)
            (λ f. (f.align_bits ≡ align_bits) × (f.tail_bits ≡ tail_bits) × (f.size_bits ≡ size_bits)) }
    {
        if align_bits > 63
            || tail_bits > 63 - align_bits
            || size_bits > 63 - align_bits - tail_bits
        {
            return None;
        }
        Some(Format {
            align_bits,
            tail_bits,
            size_bits,
        })
    }

    /// Returns how many bits a word of this format has.
    pub fn bits(&self) -> u32
        ensures { result ≡ 1 + self.now.align_bits + self.now.tail_bits + self.now.size_bits }
    {
        1 + self.align_bits + self.tail_bits + self.size_bits
    }

    /// Whether the fields fit; the alignment is given by its logarithm.
    fn has_room(&self, size: u64, log: u32, tail: u64) -> bool
        ensures { IsTrue result
            ↔ HasRoom self.now.align_bits self.now.tail_bits self.now.size_bits size log tail }
    {
        size != 0
            && fits(u64::from(log), self.align_bits)
            && fits(tail, self.tail_bits)
            && fits(size, self.size_bits)
    }

    /// Returns whether `pack` returns a word of these fields.
    pub fn fits(&self, size: u64, align: u64, tail: u64) -> bool
        requires { IsPowerOfTwo align }
        ensures value { (log : ℕ) → align ≡ 2 ^ log → result
            ≡ fits self.now.align_bits self.now.tail_bits self.now.size_bits size log tail }
        ensures room { (log : ℕ) → align ≡ 2 ^ log → IsTrue result
            ↔ HasRoom self.now.align_bits self.now.tail_bits self.now.size_bits size log tail }
    {
        self.has_room(size, align.trailing_zeros(), tail)
    }

    /// Returns the word of these fields, or `None` if a field doesn't fit or the size is 0.
    pub fn pack(&self, size: u64, align: u64, tail: u64) -> Option<u64>
        requires { IsPowerOfTwo align }
        ensures sum { (log : ℕ) → align ≡ 2 ^ log → SomeIff result
            (HasRoom self.now.align_bits self.now.tail_bits self.now.size_bits size log tail)
            (word_of self.now.align_bits self.now.tail_bits size log tail) }
        ensures word { IfSome result
            (IsWord self.now.align_bits self.now.tail_bits self.now.size_bits) }
    {
        let log = align.trailing_zeros();
        if !self.has_room(size, log, tail) {
            return None;
        }
        let shape = u64::from(log) << 1 | 1;
        let low = tail << (1 + self.align_bits) | shape;
        Some(size << (1 + self.align_bits + self.tail_bits) | low)
    }

    /// Returns the fields of a word of this format.
    pub fn unpack(&self, word: u64) -> Fields
        requires { IsWord self.now.align_bits self.now.tail_bits self.now.size_bits word }
        ensures inverse { (size log tail : ℕ)
            → HasRoom self.now.align_bits self.now.tail_bits self.now.size_bits size log tail
            → word ≡ word_of self.now.align_bits self.now.tail_bits size log tail
            → (result.size ≡ size) × (result.align ≡ 2 ^ log) × (result.tail ≡ tail) }
        ensures size { result.size ≡ size_of_word self.now.align_bits self.now.tail_bits word }
        ensures align { result.align ≡ 2 ^ log_of_word self.now.align_bits word }
        ensures tail { result.tail ≡ tail_of_word self.now.align_bits self.now.tail_bits word }
    {
        let log = word >> 1 & (1 << self.align_bits) - 1;
        Fields {
            size: word >> (1 + self.align_bits + self.tail_bits),
            align: 1 << log,
            tail: word >> (1 + self.align_bits) & (1 << self.tail_bits) - 1,
        }
    }

    /// Returns the word with another tail, or `None` if the tail doesn't fit.
    pub fn with_tail(&self, word: u64, tail: u64) -> Option<u64>
        requires { IsWord self.now.align_bits self.now.tail_bits self.now.size_bits word }
        ensures sum { (size log old : ℕ)
            → HasRoom self.now.align_bits self.now.tail_bits self.now.size_bits size log old
            → word ≡ word_of self.now.align_bits self.now.tail_bits size log old → SomeIff result
            (tail < 2 ^ self.now.tail_bits)
            (word_of self.now.align_bits self.now.tail_bits size log tail) }
        ensures same { SomeIff result (tail < 2 ^ self.now.tail_bits)
            (word_with_tail self.now.align_bits self.now.tail_bits word tail) }
        ensures word { IfSome result
            (IsWord self.now.align_bits self.now.tail_bits self.now.size_bits) }
    {
        let fields = self.unpack(word);
        self.pack(fields.size, fields.align, tail)
    }
}
