#![tactic(auto)]

// The files: their directories, their records, and the certificates that two of them show.
ghost use Rattle.std.specs.Prelude.{◌≡◌, length, take, drop};
ghost use Rattle.octets.specs.Octets.{member};
ghost use Rattle.rules.specs.Files.{files_in, certificate_file, certificate_of, record_count};

// Whether a file is in a directory.
#[tactic(auto, unfolding(rules::specs::Files::files_in))]
pub fn file_in(directory: u16, file: u16) -> bool
    ensures { result ≡ member file (files_in directory) }
{
    match directory {
        0x3F00 => file == 0x0016,
        _ => matches!(file, 0x5044 | 0x0033 | 0xAACE | 0xDDCE),
    }
}

// Whether a file shows a certificate.
pub fn certificate_file(file: u16) -> bool
    ensures { result ≡ certificate_file file }
{
    matches!(file, 0xAACE | 0xDDCE)
}

// How many records a record file has.
#[tactic(auto, unfolding(rules::specs::Files::record_count))]
pub fn record_count(file: u16) -> u8
    ensures { result ≡ record_count file }
{
    match file {
        0x0016 => 3,
        0x0033 => 1,
        _ => 16,
    }
}

// The certificate that a certificate file shows.
#[tactic(auto, unfolding(rules::specs::Files::certificate_of))]
fn certificate<'a>(authentication: &'a [u8], signature: &'a [u8], file: u16) -> &'a [u8]
    ensures { result.now ≡ certificate_of file authentication.now signature.now }
{
    match file {
        0xAACE => authentication,
        _ => signature,
    }
}

// The length of the certificate that a certificate file shows.
pub fn certificate_length(authentication: &[u8], signature: &[u8], file: u16) -> usize
    ensures { result ≡ length (certificate_of file authentication.now signature.now) }
{
    certificate(authentication, signature, file).len()
}

// The n bytes from an offset on, or those of them that there are, of the certificate that a certificate file shows.
pub fn certificate_part<'a>(
    authentication: &'a [u8],
    signature: &'a [u8],
    file: u16,
    offset: usize,
    n: usize,
) -> &'a [u8]
    ensures { result.now ≡ take n (drop offset (certificate_of file authentication.now signature.now)) }
{
    octets::part(certificate(authentication, signature, file), offset, n)
}
