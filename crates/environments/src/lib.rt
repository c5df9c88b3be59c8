#![tactic(auto)]

// MANAGE SECURITY ENVIRONMENT, as functions of values: the next session and the answer.
ghost use Rattle.std.specs.Prelude.{◌≡◌};
ghost use Rattle.rules.specs.Numbers.{kind_number};
ghost use Rattle.rules.specs.KeyCommands.{set_environment, kind_chosen, choosing, choose_key};
ghost use Rattle.steps.specs.Steps.{session_output_for};

use rules::{Environment, Header, JobKind, Session};
use steps::SessionOutput;

// 22 F3: environment 1 or 6, with all key choices at "active".
#[tactic(auto, unfolding(rules::specs::KeyCommands::set_environment))]
pub fn set_environment(s: Session, h: Header) -> SessionOutput
    ensures { result ≡ session_output_for (set_environment s h) }
{
    match h.p2 {
        1 | 6 => {
            let next = state::with_environment(s, u16::from(h.p2), [0; 3]);
            steps::session_status(next, 0x9000)
        }
        _ => steps::session_status(s, 0x6A88),
    }
}

// The kind of job that P2 of 22 41 names.
#[tactic(auto, unfolding(rules::specs::KeyCommands::kind_chosen))]
fn kind_chosen(p2: u8) -> JobKind
    ensures { kind_number result ≡ kind_chosen p2 }
{
    match p2 {
        0xA4 => JobKind::Authenticate,
        0xB6 => JobKind::Sign,
        _ => JobKind::Decipher,
    }
}

// The session with another key choice for a kind of job; 0 is "active".
fn choosing(s: Session, kind: JobKind, key: u16) -> Session
    ensures { result ≡ choosing s (kind_number kind) key }
{
    let Environment {
        number,
        mut choices,
    } = s.environment;
    choices[usize::from(u16::from(kind)) - 1] = key;
    state::with_environment(s, number, choices)
}

// 22 41: chooses the active key or a key by its reference, for the jobs of one kind.
#[tactic(auto, unfolding(rules::specs::KeyCommands::choose_key))]
pub fn choose_key(keys: [bool; 4], s: Session, h: Header, d: &[u8]) -> SessionOutput
    ensures { result ≡ session_output_for (choose_key keys s h d.now) }
{
    let kind = kind_chosen(h.p2);
    match *d {
        [0x83, 0x00] => steps::session_status(choosing(s, kind, 0), 0x9000),
        [0x83, 0x03, 0x80, high, low] => {
            let key = u16::from_be_bytes([high, low]);
            if !keys::of_class(kind, key) {
                return steps::session_status(s, 0x6A80);
            }
            if !keys::present(keys, key) {
                return steps::session_status(s, 0x6A88);
            }
            steps::session_status(choosing(s, kind, key), 0x9000)
        }
        _ => steps::session_status(s, 0x6A80),
    }
}
