// The trait to fill capacity with bytes, in order.
ghost use Rattle.std.specs.Prelude.{◌≡◌, ℕ, ◌+◌, ◌≤◌, List, [], ◌∷◌, ◌++◌, length, replicate, nat_le, IsTrue, IsFalse};
ghost use Rattle.std.specs.Int.{w16, w32, w64, w128, to_be_bytes};

use super::Buf;

/// Spare capacity that is filled in order (`bytes::BufMut`). An `IoBufsMut` fills its first spare capacity, also before
/// bytes of later buffers. No put of `IoBufMut`, `IoBufsMut` or `Builder` allocates.
pub trait BufMut {
    ghost room: { Self → ℕ };

    // From one value to another by filling these bytes in, which fit.
    ghost filled: { Self → List ℕ → Self → Type 0 };

    /// Returns how many more bytes fit (`BufMut::remaining_mut`).
    fn remaining_mut(&self) -> usize
        ensures { result ≡ room self.now };

    /// Puts the bytes into the spare capacity, in order (`BufMut::put_slice`).
    fn put_slice(&mut self, src: &[u8])
        requires { length src.now ≤ room self.old }
        ensures { filled self.old src.now self.new };

    /// Puts the byte `value` `n` times (`BufMut::put_bytes`).
    fn put_bytes(&mut self, value: u8, n: usize)
        requires { n ≤ room self.old }
        ensures { filled self.old (replicate n value) self.new };

    /// Puts one byte (`BufMut::put_u8`).
    fn put_u8(&mut self, n: u8)
    where
        Self: Sized,
        requires { 1 ≤ room self.old }
        ensures { filled self.old (n ∷ []) self.new }
    {
        self.put_slice(&[n]);
    }

    /// Acts as `put_slice` if the bytes fit, and returns whether they do (own); otherwise nothing changes.
    #[inline(always)]
    fn try_put_slice(&mut self, src: &[u8]) -> bool
    where
        Self: Sized,
        ensures answer { result ≡ nat_le (length src.now) (room self.old) }
        ensures done { IsTrue result → filled self.old src.now self.new }
        ensures unchanged { IsFalse result → self.new ≡ self.old }
    {
        if src.len() > self.remaining_mut() {
            return false;
        }
        self.put_slice(src);
        true
    }

    /// Acts as `put_bytes` if the bytes fit, and returns whether they do (own); otherwise nothing changes.
    #[inline(always)]
    fn try_put_bytes(&mut self, value: u8, n: usize) -> bool
    where
        Self: Sized,
        ensures answer { result ≡ nat_le n (room self.old) }
        ensures done { IsTrue result → filled self.old (replicate n value) self.new }
        ensures unchanged { IsFalse result → self.new ≡ self.old }
    {
        if n > self.remaining_mut() {
            return false;
        }
        self.put_bytes(value, n);
        true
    }

    // To fill nothing in is always possible, and changes nothing.
    ghost nothing: { (s : Self) → filled s [] s };

    ghost unchanged: { (a b : Self) → filled a [] b → b ≡ a };

    ghost composes: { (a b c : Self) (u v : List ℕ) → filled a u b → filled b v c → filled a (u ++ v) c };

    ghost lessens: { (a b : Self) (w : List ℕ) → filled a w b → room a ≡ room b + length w };

    /// Puts a big-endian number of two bytes (`BufMut::put_u16`).
    final fn put_u16(&mut self, n: u16)
    where
        Self: Sized,
        requires { 2 ≤ room self.old }
        ensures { filled self.old (to_be_bytes w16 n) self.new }
    {
        self.put_slice(&u16::to_be_bytes(n));
    }

    /// Puts a big-endian number of four bytes (`BufMut::put_u32`).
    final fn put_u32(&mut self, n: u32)
    where
        Self: Sized,
        requires { 4 ≤ room self.old }
        ensures { filled self.old (to_be_bytes w32 n) self.new }
    {
        self.put_slice(&u32::to_be_bytes(n));
    }

    /// Puts a big-endian number of eight bytes (`BufMut::put_u64`).
    final fn put_u64(&mut self, n: u64)
    where
        Self: Sized,
        requires { 8 ≤ room self.old }
        ensures { filled self.old (to_be_bytes w64 n) self.new }
    {
        self.put_slice(&u64::to_be_bytes(n));
    }

    /// Puts a big-endian number of sixteen bytes (`BufMut::put_u128`).
    final fn put_u128(&mut self, n: u128)
    where
        Self: Sized,
        requires { 16 ≤ room self.old }
        ensures { filled self.old (to_be_bytes w128 n) self.new }
    {
        self.put_slice(&u128::to_be_bytes(n));
    }

    /// Puts all bytes of a reader, by one `put_slice` for each of its chunks (`BufMut::put`).
    final fn put<B: Buf + Drop>(&mut self, mut src: B)
    where
        Self: Sized,
        requires { length (B.text src) ≤ room self.old }
        ensures { filled self.old (B.text src) self.new }
    {
        while src.has_remaining() {
            let chunk = src.chunk();
            self.put_slice(chunk);
            let n = chunk.len();
            src.advance(n);
        }
    }
}
