#![tactic(auto)]

// What waits in a session for the next command, the held answer and the chain, replaced and dropped; and a new session, in
// which nothing waits.
ghost use Rattle.std.specs.Prelude.{◌≡◌, ◌<◌, ◌≤◌, ◌^◌, length, take};
ghost use Rattle.octets.specs.Octets.{filled};
ghost use Rattle.rules.specs.Session.{holding, joining, with_held, with_chain, drop_held, drop_chain, drop_both, new_session};

use rules::{Chain, Environment, Held, Job, Selection, Session};

// The first `most` of some bytes, in an array with zeros after them, and how many they are.
#[tactic(auto, using(octets::proofs::Cutting::uncut_first))]
fn kept<const N: usize>(d: &[u8], most: usize) -> ([u8; N], u16)
    requires fits { most ≤ N }
    requires counted { most < 2 ^ 16 }
    ensures bytes { result.0 ≡ filled N (take most d.now) }
    ensures len { result.1 ≡ length (take most d.now) }
{
    let first = octets::part(d, 0, most);
    (arrays::filled(first), first.len() as u16)
}

// A held answer, and a chain, of some bytes, or of as many as fit.
fn holding(d: &[u8]) -> Held
    ensures { result ≡ holding (take 256 d.now) }
{
    let (bytes, len) = kept(d, 256);
    Held { bytes, len }
}

fn joining(d: &[u8]) -> Chain
    ensures { result ≡ joining (take 257 d.now) }
{
    let (bytes, len) = kept(d, 257);
    Chain { bytes, len }
}

// A session with another held answer; with another chain. One function for each, here and below, since each is a line over another field.
pub fn with_held(s: Session, d: &[u8]) -> Session
    ensures { result ≡ with_held s (take 256 d.now) }
{
    let held = holding(d);
    Session { held, ..s }
}

pub fn with_chain(s: Session, d: &[u8]) -> Session
    ensures { result ≡ with_chain s (take 257 d.now) }
{
    let chain = joining(d);
    Session { chain, ..s }
}

// The held answer dropped; the chain dropped; both dropped.
pub fn drop_held(s: Session) -> Session
    ensures { result ≡ drop_held s }
{
    with_held(s, b"")
}

pub fn drop_chain(s: Session) -> Session
    ensures { result ≡ drop_chain s }
{
    with_chain(s, b"")
}

pub fn drop_both(s: Session) -> Session
    ensures { result ≡ drop_both s }
{
    drop_held(drop_chain(s))
}

// What load and power reset give.
#[tactic(auto, unfolding(rules::specs::Session::new_session))]
pub fn new_session() -> Session
    ensures { result ≡ new_session }
{
    Session {
        selection: Selection {
            directory: 0x3F00,
            file: 0,
        },
        environment: Environment {
            number: 1,
            choices: [0u16; 3],
        },
        held: holding(b""),
        chain: joining(b""),
        job: Job {
            kind: 0,
            key: 0,
            le: 0,
        },
    }
}
