#![tactic(auto)]

// Arrays of bytes in the sizes that the card stores.
ghost use Rattle.std.specs.Prelude.{◌≡◌, take};
ghost use Rattle.octets.specs.Octets.{blank, filled};

// N zeros.
#[tactic(auto, unfolding(octets::specs::Octets::blank))]
pub fn blank<const N: usize>() -> [u8; N]
    ensures { result ≡ blank N }
{
    [0u8; N]
}

// An array with s, or as much of it as fits, in its first places and zeros after it.
#[tactic(auto, using(octets::proofs::Pasting::pasted_blank))]
pub fn filled<const N: usize>(s: &[u8]) -> [u8; N]
    ensures { result ≡ filled N (take N s.now) }
{
    let mut bytes = blank::<N>();
    writing::copy_at(&mut bytes, 0, s);
    bytes
}
