#![tactic(auto)]

// One code: what values it may have, how it stores one, and whether it is good.
ghost use Rattle.std.specs.Prelude.{◌≡◌, take};
ghost use Rattle.rules.specs.Codes.{allowed, storing};
ghost use Rattle.rules.specs.State.{good_code};

use rules::Code;

// Whether a value is of allowed length for the code of a number, and digits.
#[tactic(auto, unfolding(rules::specs::Codes::allowed))]
pub fn allowed(number: usize, value: &[u8]) -> bool
    ensures { result ≡ allowed number value.now }
{
    (Code::least(number)..=Code::MOST).contains(&value.len()) && octets::all_digits(value)
}

// A code that stores a value, or its first twelve bytes.
pub fn storing(value: &[u8], tries: u8, verified: bool) -> Code
    ensures { result ≡ storing (take 12 value.now) tries verified }
{
    Code {
        digits: arrays::filled(value),
        len: value.len().min(Code::MOST) as u8,
        tries,
        verified,
    }
}

// Whether the code of a number obeys its rules.
#[tactic(auto, unfolding(rules::specs::State::good_code))]
pub fn good_code(number: usize, code: Code) -> bool
    ensures { result ≡ good_code number code }
{
    let len = usize::from(code.len);
    octets::good_room(Code::MOST, &code.digits, len)
        & (Code::least(number) <= len)
        & octets::all_digits(octets::part(&code.digits, 0, len))
        & (code.tries <= Code::TRIES)
        & (!code.verified | (code.tries == Code::TRIES))
}
