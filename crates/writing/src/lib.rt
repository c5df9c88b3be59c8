#![tactic(auto)]

// What is written into a slice of bytes. Every function takes every input.
ghost use Rattle.std.specs.Prelude.{◌≡◌, replicate};
ghost use Rattle.octets.specs.Octets.{pasted};
ghost use Rattle.writing.specs.Puts.{Put};

// Copies into dst, from index `at` on, as much of src as fits.
#[tactic(auto, using(octets::proofs::Pasting::pasted_part, octets::proofs::Pasting::pasted_none))]
pub fn copy_at(dst: &mut [u8], at: usize, src: &[u8])
    ensures { dst.new ≡ pasted dst.old at src.now }
{
    let start = at.min(dst.len());
    let count = src.len().min(dst.len() - start);
    if count != 0 {
        dst[start..start + count].copy_from_slice(&src[..count]);
    }
}

// Writes `byte` into n places of dst, from index `at` on, or into those of them that dst has.
pub fn fill(dst: &mut [u8], at: usize, n: usize, byte: u8)
    ensures { dst.new ≡ pasted dst.old at (replicate n byte) }
{
    let start = at.min(dst.len());
    let count = n.min(dst.len() - start);

    // A loop, since the slice's own `fill` writes the last place by itself, and padding is then slower than plain Rust.
    for place in &mut dst[start..start + count] {
        *place = byte;
    }
}

// Writes a text from index `at` on, as much of it as fits, and answers the place behind it.
pub fn put(output: &mut [u8], at: usize, text: &[u8]) -> usize
    ensures { Put output.old at text.now output.new result }
{
    copy_at(output, at, text);
    at.saturating_add(text.len()).min(output.len())
}
