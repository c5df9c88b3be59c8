#![tactic(auto)]

// The padding and the stripping of crates/pkcs1, exported to C under the same names.
ghost use Rattle.std.specs.Prelude.{◌≡◌};
ghost use Rattle.pkcs1.specs.Pkcs1.{pad, strip};

// Pads the message into the first 256 bytes of the buffer and returns 256; returns 0, with nothing written, where the message is
// longer than 245 bytes or the buffer is shorter than a block.
#[unsafe(no_mangle)]
pub extern "C" fn shoalpennant_pad(message: &[u8], buffer: &mut [u8]) -> usize
    ensures { (result, buffer.new) ≡ pad message.now buffer.old }
{
    pkcs1::shoalpennant_pad(message, buffer)
}

// The index at which the message of a deciphered block starts, 11 to 256; 0 where the block is not one that stripping takes.
#[unsafe(no_mangle)]
pub extern "C" fn shoalpennant_strip(block: &[u8]) -> usize
    ensures { result ≡ strip block.now }
{
    pkcs1::shoalpennant_strip(block)
}
