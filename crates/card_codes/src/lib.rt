#![tactic(auto)]

// The three codes of a card and the unblocking counts of its PINs, by the codes' numbers, read and replaced. Codes and counts have
// functions of their own, since a PIN's count stands at another place than its code.
ghost use Rattle.std.specs.Prelude.{◌≡◌, ◌-◌};
ghost use Rattle.rules.specs.Codes.{zero_code, code_of, with_code, closed, count_of, with_count};

use rules::Code;

// A code of all zeros.
#[tactic(auto, unfolding(octets::specs::Octets::blank))]
pub fn zero_code() -> Code
    ensures { result ≡ zero_code }
{
    Code {
        digits: [0u8; 12],
        len: 0,
        tries: 0,
        verified: false,
    }
}

// The code of a number; all zeros where there is none.
pub fn code_of(codes: [Code; 3], number: usize) -> Code
    ensures { result ≡ code_of codes number }
{
    codes.get(number).copied().unwrap_or(zero_code())
}

// The codes with the code of a number replaced; as they are where there is none.
pub fn with_code(mut codes: [Code; 3], number: usize, code: Code) -> [Code; 3]
    ensures { result ≡ with_code codes number code }
{
    // Not by `get_mut`: what is written through it no proof knows.
    if number < codes.len() {
        codes[number] = code;
    }
    codes
}

// The codes with the verified mark of one of them off.
pub fn closed(codes: [Code; 3], number: usize) -> [Code; 3]
    ensures { result ≡ closed codes number }
{
    let mut code = code_of(codes, number);
    code.verified = false;
    with_code(codes, number, code)
}

// Where the unblocking count of a PIN stands: PIN1's first.
fn place_of(pin: usize) -> usize
    ensures { result ≡ pin - 1 }
{
    pin.saturating_sub(1)
}

// The unblocking count of a PIN; 0 where there is none.
pub fn count_of(counts: [u8; 2], pin: usize) -> u8
    ensures { result ≡ count_of counts pin }
{
    counts.get(place_of(pin)).copied().unwrap_or(0)
}

// The unblocking counts with that of a PIN replaced; as they are where there is none.
pub fn with_count(mut counts: [u8; 2], pin: usize, n: u8) -> [u8; 2]
    ensures { result ≡ with_count counts pin n }
{
    let place = place_of(pin);
    // As in `with_code`.
    if place < counts.len() {
        counts[place] = n;
    }
    counts
}
