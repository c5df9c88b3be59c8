#![tactic(auto)]

// The kind of a job by its number, and the keys: their classes, which are present, and which is active. A key is its number, as commands,
// images and file 0033h name it, and may be none that the card knows; so it is no enum. The two classes are a row each, as in the rules.
ghost use Rattle.std.specs.Prelude.{◌≡◌};
ghost use Rattle.rules.specs.Numbers.{kind_number};
ghost use Rattle.rules.specs.Keys.{signature_key, authentication_key, of_class, present, usable, active_key};
ghost use Rattle.keys.specs.Kinds.{kind_in};

use rules::JobKind;

// The kind of job that a number stands for: 3 for any but 1 and 2, so that each number has one. `try_from` refuses what is none of 1 to 3.
#[tactic(auto, unfolding(crate::specs::Kinds::kind_in))]
pub fn kind_of(number: u16) -> JobKind
    ensures { kind_number result ≡ kind_in number }
{
    match number {
        1 => JobKind::Authenticate,
        2 => JobKind::Sign,
        _ => JobKind::Decipher,
    }
}

pub fn is_signature_key(key: u16) -> bool
    ensures { result ≡ signature_key key }
{
    matches!(key, 0x0100 | 0x0200)
}

pub fn is_authentication_key(key: u16) -> bool
    ensures { result ≡ authentication_key key }
{
    matches!(key, 0x1100 | 0x1200)
}

// Whether a key is of the class that a job of this kind uses.
#[tactic(auto, unfolding(rules::specs::Keys::of_class))]
pub fn of_class(kind: JobKind, key: u16) -> bool
    ensures { result ≡ of_class (kind_number kind) key }
{
    match kind {
        JobKind::Sign => is_signature_key(key),
        JobKind::Authenticate | JobKind::Decipher => is_authentication_key(key),
    }
}

// Whether a key is on the card.
#[tactic(auto, unfolding(rules::specs::Keys::present))]
pub fn present(keys: [bool; 4], key: u16) -> bool
    ensures { result ≡ present keys key }
{
    match key {
        0x0100 => keys[0],
        0x0200 => keys[1],
        0x1100 => keys[2],
        0x1200 => keys[3],
        _ => false,
    }
}

// Whether a key is on the card and of the class that a job of this kind uses.
pub fn usable(keys: [bool; 4], kind: JobKind, key: u16) -> bool
    ensures { result ≡ usable keys (kind_number kind) key }
{
    present(keys, key) && of_class(kind, key)
}

// The active key that the record of 0033h names.
#[tactic(auto, unfolding(rules::specs::Keys::active_key))]
pub fn active_key(references: [u8; 21], kind: JobKind) -> u16
    ensures { result ≡ active_key references (kind_number kind) }
{
    match kind {
        JobKind::Sign => u16::from_be_bytes([references[19], references[20]]),
        JobKind::Authenticate | JobKind::Decipher => {
            u16::from_be_bytes([references[9], references[10]])
        }
    }
}
