#![tactic(auto)]

// RSA block padding of RFC 8017, for 256-byte blocks. The key host is written in C and calls the two public functions, which pkcs1_c
// exports: for C a refusal is the number 0, and no Option.
ghost use Rattle.std.specs.Prelude.{◌≡◌, ◌*◌, ◌≤◌, length, eqb};
ghost use Rattle.std.specs.List.{list_any};
ghost use Rattle.octets.specs.Octets.{pasted};
ghost use Rattle.pkcs1.specs.Pkcs1.{pad, before_zero, strip};

// The size of a block.
const BLOCK: usize = 256;

// The most message bytes that padding takes.
const MOST: usize = 245;

// The least number of non-zero bytes before a stripped message.
const LEAST: usize = 8;

// How many bytes are looked at together.
const GROUP: usize = 8;

// Copies into dst, from index `at` on, as much of src as fits. By a local, of which the compiler makes one call of memmove: copied
// straight, padding is slower than plain Rust, since the compiler cannot tell dst and src apart.
#[tactic(auto, using(octets::proofs::Pasting::take_pasted))]
fn move_at(dst: &mut [u8], at: usize, src: &[u8])
    requires { length src.now ≤ 256 }
    ensures { dst.new ≡ pasted dst.old at src.now }
{
    let n = src.len();
    let mut kept = [0u8; BLOCK];
    writing::copy_at(&mut kept, 0, src);
    writing::copy_at(dst, at, &kept[..n]);
}

// Pads the message into the first 256 bytes of the buffer and returns 256; returns 0, with nothing written, where the message is
// longer than 245 bytes or the buffer is shorter than a block.
#[tactic(auto, using(std::proofs::lemmas::Grind::common_steps, crate::proofs::Steps::padding))]
pub fn shoalpennant_pad(message: &[u8], buffer: &mut [u8]) -> usize
    ensures { (result, buffer.new) ≡ pad message.now buffer.old }
{
    if MOST < message.len() {
        return 0;
    }
    if buffer.len() < BLOCK {
        return 0;
    }
    let start = BLOCK - message.len();
    move_at(buffer, start, message);
    buffer[0] = 0x00;
    buffer[1] = 0x01;
    writing::fill(buffer, 2, start - 3, 0xFF);
    buffer[start - 1] = 0x00;
    BLOCK
}

// Whether one of the bytes of a group is zero. It looks at all of them, so that the compiler compares them at once.
fn has_zero(group: &[u8; GROUP]) -> bool
    ensures { result ≡ list_any (λ x. eqb x 0) group.now }
{
    group.iter().fold(false, |found, x| found | (*x == 0))
}

// How many groups at the front of s have no zero.
fn groups_before_zero(s: &[u8]) -> usize
    ensures { 8 * result ≤ before_zero s.now }
{
    let (groups, _) = s.as_chunks::<GROUP>();
    groups.iter().take_while(|group| !has_zero(group)).count()
}

// How many bytes of s stand before its first zero; all of them where there is none.
fn bytes_before_zero(s: &[u8]) -> usize
    ensures { result ≡ before_zero s.now }
{
    s.iter().take_while(|x| **x != 0).count()
}

// The same, where groups with no zero are passed over first: byte by byte it takes up to five times as long.
#[tactic(auto, using(crate::proofs::Steps::before_most, crate::proofs::Steps::passed, std::proofs::lemmas::Grind::common_steps))]
fn before_zero(s: &[u8]) -> usize
    ensures { result ≡ before_zero s.now }
{
    let passed = GROUP * groups_before_zero(s);
    passed + bytes_before_zero(&s[passed..])
}

// The index at which the message of a deciphered block starts, 11 to 256; 0 where the block is not one that stripping takes.
#[tactic(auto, using(crate::proofs::Steps::before_most), unfolding(crate::specs::Pkcs1::strip, crate::specs::Pkcs1::enciphered))]
pub fn shoalpennant_strip(block: &[u8]) -> usize
    ensures { result ≡ strip block.now }
{
    if block.len() != BLOCK {
        return 0;
    }
    if block[0] != 0x00 || block[1] != 0x02 {
        return 0;
    }
    let n = before_zero(&block[2..]);
    if LEAST <= n && n < BLOCK - 2 {
        n + 3
    } else {
        0
    }
}
