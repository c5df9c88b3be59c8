#![tactic(auto)]

// Upper-case hex of whole bytes. Every function takes every input.
ghost use Rattle.std.specs.Prelude.{◌≡◌, ◌+◌, ◌*◌, ◌%◌, ◌<◌, min, length};
ghost use Rattle.octets.specs.Octets.{byte_at, pasted};
ghost use Rattle.hexadecimal.specs.Hex.{hex_digit, hex_value, hex_character, is_hex, bytes_of, hex_of};

// Whether c is a hex digit.
fn digit(c: u8) -> bool
    ensures { result ≡ hex_digit c }
{
    matches!(c, b'0'..=b'9' | b'A'..=b'F')
}

// The value of a hex digit; 0 for any other character. The toolchain's crate hex takes lower case too, and into a
// slice it writes lower case.
#[tactic(auto, unfolding(crate::specs::Hex::hex_value))]
fn value(c: u8) -> u8
    ensures { result ≡ hex_value c }
{
    match c {
        b'0'..=b'9' => c - b'0',
        b'A'..=b'F' => c - b'A' + 10,
        _ => 0,
    }
}

// The byte that two hex digits say.
#[tactic(auto, using(crate::proofs::Laws::hex_value_small))]
fn byte(high: u8, low: u8) -> u8
    ensures { result ≡ hex_value high * 16 + hex_value low }
{
    value(high) * 16 + value(low)
}

// The hex digit of the low half of x.
#[tactic(auto, unfolding(crate::specs::Hex::hex_character))]
fn character(x: u8) -> u8
    ensures { result ≡ hex_character (x % 16) }
{
    match x % 16 {
        v @ 0..=9 => b'0' + v,
        v => b'A' - 10 + v,
    }
}

// Whether s is the hex of whole bytes, perhaps none.
pub fn is_hex(s: &[u8]) -> bool
    ensures { result ≡ is_hex s.now }
{
    s.len() % 2 == 0 && s.iter().all(|c| digit(*c))
}

// Writes at the front of dst the bytes that the pairs of hex digits of s say, as many as fit, and answers how many. By the places'
// numbers: of what is written through a `zip` of `iter_mut` no proof knows.
pub fn bytes_of(s: &[u8], dst: &mut [u8]) -> usize
    ensures { (result ≡ min (length (bytes_of s.now)) (length dst.old)) × (dst.new ≡ pasted dst.old 0 (bytes_of s.now)) }
{
    let end = dst.len().min(s.len() / 2);
    for (j, place) in dst[..end].iter_mut().enumerate() {
        *place = byte(s[2 * j], s[2 * j + 1]);
    }
    end
}

// The hex digit in place i of the hex of s.
#[tactic(auto, using(crate::proofs::Laws::digit_high, crate::proofs::Laws::digit_low))]
fn hex_digit(s: &[u8], i: usize) -> u8
    requires { i < length (hex_of s.now) }
    ensures { result ≡ byte_at (hex_of s.now) i }
{
    let x = octets::byte_at(s, i / 2);
    if i % 2 == 0 {
        return character(x / 16);
    }
    character(x)
}

// Writes the hex of s into dst, from index `at` on, as much of it as fits, and answers the place behind it.
pub fn hex_at(dst: &mut [u8], at: usize, s: &[u8]) -> usize
    ensures { (result ≡ min (at + length (hex_of s.now)) (length dst.old)) × (dst.new ≡ pasted dst.old at (hex_of s.now)) }
{
    let end = at
        .saturating_add(s.len())
        .saturating_add(s.len())
        .min(dst.len());

    // Digit by digit, since the room may end between the two digits of a byte.
    for (j, place) in dst[at.min(end)..end].iter_mut().enumerate() {
        *place = hex_digit(s, j);
    }
    end
}
