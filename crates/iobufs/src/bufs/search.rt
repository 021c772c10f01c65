// A search among rising ends, and what it finds in an `IoBufs`.
ghost use Rattle.std.specs.Prelude.{◌≡◌, ℕ, ◌+◌, ◌-◌, ◌*◌, ◌^◌, ◌<◌, ◌≤◌, nat_lt, List, length, get_or};
ghost use Rattle.iobufs.specs.Search.{IsFirstPast, IsRising};

/// An offset in an `IoBufs`: the chunk that contains it, the number of bytes before it in that chunk, and how many ends
/// it was compared with (own).
#[derive(Clone, Copy)]
pub struct Located {
    pub index: usize,
    pub offset: usize,
    pub probes: u32,
}

/// Rising ends, an offset below the last of them, and a count of probes (own, for layers). A probe compares the offset
/// with one end.
pub trait Ends {
    ghost ends: { Self → List ℕ };

    ghost place: { Self → ℕ };

    ghost probed: { Self → ℕ };

    /// Returns how many ends there are, at least one (own).
    fn count(&self) -> usize
        ensures count { result ≡ length (ends self.now) }
        ensures some { 0 < result }
        ensures rising { IsRising (ends self.now) }
        ensures inside { place self.now < get_or (ends self.now) (result - 1) 0 };

    /// Returns whether an end is above the offset, and counts a probe (own).
    fn past(&mut self, i: usize) -> bool
        requires inside { i < length (ends self.old) }
        requires more { probed self.old < 2 ^ 32 - 1 }
        ensures answer { result ≡ nat_lt (place self.old) (get_or (ends self.old) i 0) }
        ensures same_ends { ends self.new ≡ ends self.old }
        ensures same_place { place self.new ≡ place self.old }
        ensures probed { probed self.new ≡ probed self.old + 1 };

    /// Returns the number of probes so far (own).
    fn probes(&self) -> u32
        ensures { result ≡ probed self.now };
}

/// Finds the first end above the offset by bisection (own). Takes as many probes as the number of ends has binary
/// digits, or one fewer.
pub fn find_end<E: Ends>(ends: &mut E) -> usize
    requires { E.probed ends.old ≡ 0 }
    ensures found { IsFirstPast (E.ends ends.old) (E.place ends.old) result }
    ensures probes { 2 ^ E.probed ends.new ≤ 2 * length (E.ends ends.old) }
    ensures digits { (d : ℕ) → length (E.ends ends.old) < 2 ^ d → E.probed ends.new ≤ d }
    ensures halves { length (E.ends ends.old) < 2 ^ (E.probed ends.new + 1) }
    ensures same_ends { E.ends ends.new ≡ E.ends ends.old }
    ensures same_place { E.place ends.new ≡ E.place ends.old }
{
    let mut first = 0;
    let mut last = ends.count() - 1;
    while first < last {
        let middle = first + (last - first) / 2;
        if ends.past(middle) {
            last = middle;
        } else {
            first = middle + 1;
        }
    }
    first
}
