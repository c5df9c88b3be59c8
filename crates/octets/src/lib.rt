#![tactic(auto)]

// Slices of bytes: what is asked of them. Every function takes every input.
// The definitions that the contracts cite stand in specs/, their laws in proofs/.
ghost use Rattle.std.specs.Prelude.{◌≡◌, take, drop};
ghost use Rattle.octets.specs.Octets.{byte_at, same, all_digits, all_zero, good_room};

// Whether a and b are the same string, in bytes and in length. Every byte of strings of one length is compared (docs/DECISIONS.md, "How
// long a comparison takes"), so not by `==`, which may end at the first difference.
pub fn equal(a: &[u8], b: &[u8]) -> bool
    ensures { result ≡ same a.now b.now }
{
    a.len() == b.len() && a.iter().zip(b).fold(true, |alike, (x, y)| alike & (x == y))
}

// The n bytes of s from index `from` on, or those of them that s has.
pub fn part(s: &[u8], from: usize, n: usize) -> &[u8]
    ensures { result.now ≡ take n (drop from s.now) }
{
    let rest = &s[from.min(s.len())..];
    &rest[..n.min(rest.len())]
}

// The byte at index i of s, or 0 where there is none.
pub fn byte_at(s: &[u8], i: usize) -> u8
    ensures { result ≡ byte_at s.now i }
{
    s.get(i).copied().unwrap_or(0)
}

// Whether every byte of s is a digit, 30h to 39h.
pub fn all_digits(s: &[u8]) -> bool
    ensures { result ≡ all_digits s.now }
{
    s.iter().all(|x| x.is_ascii_digit())
}

// Whether every byte of s is zero. Every byte is looked at.
pub fn all_zero(s: &[u8]) -> bool
    ensures { result ≡ all_zero s.now }
{
    s.iter().fold(true, |zero, x| zero & (*x == 0))
}

// Whether an array has the size stated, `len` is at most that size, and zeros stand after the first `len` places.
pub fn good_room(size: usize, bytes: &[u8], len: usize) -> bool
    ensures { result ≡ good_room size bytes.now len }
{
    bytes.len() == size && len <= size && all_zero(&bytes[len..])
}
