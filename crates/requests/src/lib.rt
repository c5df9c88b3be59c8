#![tactic(auto)]

// What a line of the two line programs asks for. Every function takes every input.
ghost use Rattle.std.specs.Prelude.{◌≡◌, suc, min, take};
ghost use Rattle.octets.specs.Octets.{Bytes};
ghost use Rattle.requests.specs.Requests.{longest, decimal, size_request, hex_request, request_of};
ghost use Rattle.requests.specs.Meanings.{meant, room_after};

// The two programs: document 01's transcript program, and the stand-in.
#[derive(Clone, Copy)]
pub enum Dialect {
    Transcript,
    StandIn,
}

impl Dialect {
    // The greatest length of a line.
    fn longest(self) -> usize
        ensures { result ≡ longest self }
    {
        match self {
            Dialect::Transcript => 1024,
            Dialect::StandIn => 4096,
        }
    }

    // How many characters of a line tell that it is too long.
    #[tactic(auto, using(crate::proofs::Requests::at_most))]
    pub fn most(self) -> usize
        ensures { result ≡ suc (longest self) }
    {
        self.longest() + 1
    }
}

// What a line asks for; of bytes only how many there are: they stand in a room beside it, of
// which the clause of `asked` could say nothing if a slice of it were lent on.
#[derive(Clone, Copy)]
pub enum Meaning {
    Reset,
    Command(usize),
    Delivery(usize),
    Image(usize),
    Saving,
    Authentication(usize),
    Signature(usize),
    Buffer(usize),
    Other,
}

// A decimal number, or 4,097 where it is greater than that. `parse` would refuse one that is too great for its type.
fn decimal(s: &[u8]) -> usize
    ensures { result ≡ min (decimal s.now) 4097 }
{
    let mut n: usize = 0;
    for c in s {
        n = (n * 10 + usize::from(c.saturating_sub(b'0'))).min(4097);
    }
    n
}

// The size of the answer buffer that decimal digits ask for.
#[tactic(auto, unfolding(crate::specs::Requests::size_request, crate::specs::Requests::is_size))]
fn size_asked(s: &[u8]) -> Meaning
    ensures { (room : Bytes) → meant result room ≡ size_request s.now }
{
    if s.is_empty() || !octets::all_digits(s) {
        return Meaning::Other;
    }
    if s.len() != 1 && octets::byte_at(s, 0) == b'0' {
        return Meaning::Other;
    }
    let size = decimal(s);
    if 4096 < size {
        return Meaning::Other;
    }
    Meaning::Buffer(size)
}

// What a letter asks for, with n bytes: L, A and S in the stand-in alone.
#[tactic(auto, unfolding(crate::specs::Requests::hex_request, crate::specs::Requests::further_request))]
fn hex_asked(dialect: Dialect, letter: u8, n: usize) -> Meaning
    ensures { (room : Bytes) → meant result room ≡ hex_request dialect letter (take n room) }
{
    match (dialect, letter) {
        (_, b'C') => Meaning::Command(n),
        (_, b'D') => Meaning::Delivery(n),
        (Dialect::StandIn, b'L') => Meaning::Image(n),
        (Dialect::StandIn, b'A') => Meaning::Authentication(n),
        (Dialect::StandIn, b'S') => Meaning::Signature(n),
        _ => Meaning::Other,
    }
}

// What a line asks for. The bytes that its hex says stand at the front of the room.
#[tactic(auto, unfolding(crate::specs::Requests::request_of, crate::specs::Meanings::room_after))]
pub fn asked(dialect: Dialect, line: &[u8], room: &mut [u8; 2048]) -> Meaning
    ensures { (meant result room.new ≡ request_of dialect line.now) × (room.new ≡ room_after dialect line.now room.old) }
{
    if dialect.longest() < line.len() {
        return Meaning::Other;
    }
    match (dialect, line) {
        (_, [b'P']) => Meaning::Reset,
        (Dialect::StandIn, [b'I']) => Meaning::Saving,
        (Dialect::StandIn, [b'B', digits @ ..]) => size_asked(digits),
        (_, [letter, hex @ ..]) if hexadecimal::is_hex(hex) => {
            let n = hexadecimal::bytes_of(hex, room);
            hex_asked(dialect, *letter, n)
        }
        _ => Meaning::Other,
    }
}
