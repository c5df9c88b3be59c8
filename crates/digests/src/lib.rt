#![tactic(auto)]

// The DigestInfo forms that SIGN accepts.
ghost use Rattle.std.specs.Prelude.{◌≡◌};
ghost use Rattle.rules.specs.Digests.{prefixed, row, sha2_form, fits, is_digest};

// What differs between the SHA-2 forms: L, A and H of document 01, in this order. Without field names a row is one short line, as
// in the rules.
#[derive(Clone, Copy)]
struct Row(u8, u8, u8);

// Whether d is a prefix and n bytes.
fn prefixed(prefix: &[u8], n: usize, d: &[u8]) -> bool
    ensures { result ≡ prefixed prefix.now n d.now }
{
    d.strip_prefix(prefix).is_some_and(|hash| hash.len() == n)
}

// Whether d is a digest of the SHA-2 form: its lengths are l and h, its algorithm's last byte is a.
fn sha2(l: u8, a: u8, h: u8, d: &[u8]) -> bool
    ensures { result ≡ fits d.now (sha2_form (row l a h)) }
{
    let prefix = [
        0x30, l, 0x30, 0x0D, 0x06, 0x09, 0x60, 0x86, 0x48, 0x01, 0x65, 0x03, 0x04, 0x02, a, 0x05,
        0x00, 0x04, h,
    ];
    prefixed(&prefix, usize::from(h), d)
}

// Whether d is a digest that SIGN accepts: SHA-1's, or one of a row.
pub fn is_digest(d: &[u8]) -> bool
    ensures { result ≡ is_digest d.now }
{
    // In the order of `rows` in the rules.
    let rows = [
        Row(0x2D, 0x04, 0x1C), // SHA-224
        Row(0x31, 0x01, 0x20), // SHA-256
        Row(0x41, 0x02, 0x30), // SHA-384
        Row(0x51, 0x03, 0x40), // SHA-512
    ];
    let sha1 = b"\x30\x21\x30\x09\x06\x05\x2B\x0E\x03\x02\x1A\x05\x00\x04\x14";
    prefixed(sha1, 20, d) || rows.iter().any(|Row(l, a, h)| sha2(*l, *a, *h, d))
}
