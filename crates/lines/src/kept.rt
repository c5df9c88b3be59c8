// Strings in rooms of a fixed size.
ghost use Rattle.std.specs.Prelude.{◌≡◌, ◌++◌, min, take};
ghost use Rattle.lines.specs.Rooms.{held, kept, held_over, added};

// A string in a room of N bytes: the first `len` of them, or all where `len` is greater. What stands behind does not count.
#[derive(Clone, Copy)]
pub struct Kept<const N: usize> {
    pub bytes: [u8; N],
    pub len: usize,
}

impl<const N: usize> Kept<N> {
    // A string put into a room of zeros, as much of it as fits.
    pub fn new(string: &[u8]) -> Kept<N>
        ensures { result ≡ kept N (take N string.now) }
    {
        Kept {
            bytes: arrays::filled(string),
            len: string.len().min(N),
        }
    }

    // The string.
    pub fn held(&self) -> &[u8]
        ensures { result.now ≡ held self.now }
    {
        octets::part(&self.bytes, 0, self.len)
    }

    // Puts another string into its place, as much of it as fits, and leaves what stands behind.
    pub(crate) fn hold(&mut self, string: &[u8])
        ensures { self.new ≡ held_over self.old (take N string.now) }
    {
        writing::copy_at(&mut self.bytes, 0, string);
        self.len = string.len().min(N);
    }

    // Adds a string at the end, as much of it as fits within the first `most` bytes; what stands behind is written over as far as the
    // string reaches. Of a longer string that is there the first `most` bytes stay.
    pub fn add(&mut self, string: &[u8], most: usize)
        ensures whole { self.new ≡ added self.old string.now (min most N) }
        ensures held { held self.new ≡ take (min most N) (held self.old ++ string.now) }
    {
        let room = most.min(N);
        let have = self.len.min(room);
        writing::copy_at(&mut self.bytes, have, string);
        self.len = have.saturating_add(string.len()).min(room);
    }

    // A length that is too great becomes that of the room.
    pub(crate) fn fit(&mut self)
        ensures { self.new ≡ held_over self.old (held self.old) }
    {
        self.len = self.len.min(N);
    }

    // Zeros in what stands behind the string.
    pub fn tidy(&mut self)
        ensures { self.new ≡ kept N (held self.old) }
    {
        self.len = self.len.min(N);
        writing::fill(&mut self.bytes, self.len, N, 0);
    }
}
