#![tactic(auto)]

// INTERNAL AUTHENTICATE, SIGN and DECIPHER, as functions of values: the next session and the answer, and for SIGN the next
// codes. Each takes those parts of the card that its rule reads, and not one struct of them: so its type says what it may read
// (docs/DECISIONS.md, "What no call changes").
ghost use Rattle.std.specs.Prelude.{◌≡◌, ◌++◌, ◌≤◌, length, take, drop};
ghost use Rattle.octets.specs.Octets.{filled};
ghost use Rattle.pkcs1.specs.Pkcs1.{padded};
ghost use Rattle.rules.specs.Numbers.{kind_number};
ghost use Rattle.rules.specs.Session.{chain_bytes};
ghost use Rattle.rules.specs.Answers.{status};
ghost use Rattle.rules.specs.KeyCommands.{job_key, internal_authenticate, sign, decipher_whole, decipher};
ghost use Rattle.steps.specs.Steps.{session_output_for, step_output_for};

use rules::{Code, Header, JobKind, Session};
use steps::{SessionOutput, StepOutput};

// The key that a job of a kind takes: the chosen one, or the active one of its class.
#[tactic(auto, unfolding(rules::specs::Keys::key_for))]
fn key_for(references: [u8; 21], s: Session, kind: JobKind) -> u16
    ensures { result ≡ job_key references s (kind_number kind) }
{
    match s.environment.choices[usize::from(u16::from(kind)) - 1] {
        0 => keys::active_key(references, kind),
        chosen => chosen,
    }
}

// The padded block of a job, of at most 245 bytes.
fn padded_block(d: &[u8]) -> [u8; 256]
    ensures { result ≡ padded (take 245 d.now) }
{
    let mut block = [0u8; 256];
    pkcs1::shoalpennant_pad(octets::part(d, 0, 245), &mut block);
    block
}

// 88 INTERNAL AUTHENTICATE, of at most 245 bytes.
#[tactic(auto, unfolding(rules::specs::KeyCommands::internal_authenticate))]
pub fn internal_authenticate(
    codes: [Code; 3],
    references: [u8; 21],
    s: Session,
    h: Header,
    d: &[u8],
) -> SessionOutput
    ensures { result ≡ session_output_for (internal_authenticate codes references s h (take 245 d.now)) }
{
    if s.environment.number != 1 {
        return steps::session_status(s, 0x6985);
    }
    if !card_codes::code_of(codes, Code::PIN1).verified {
        return steps::session_status(s, 0x6982);
    }
    let key = key_for(references, s, JobKind::Authenticate);
    steps::hand_out(s, JobKind::Authenticate, key, h.le, padded_block(d))
}

// A status word alone; the held answer and the chain are gone already, where a refusal by steps 1 to 6 drops them.
fn turned_down(codes: [Code; 3], counts: [u8; 2], s: Session, sw: u16) -> StepOutput
    ensures { result ≡ step_output_for (status codes counts s sw) }
{
    steps::in_session(codes, counts, steps::session_status(s, sw))
}

// 2A 9E 9A SIGN: PIN2's mark goes off as the job is handed out.
#[tactic(auto, using(crate::proofs::Blocks::digest_whole), unfolding(rules::specs::KeyCommands::sign))]
pub fn sign(
    codes: [Code; 3],
    counts: [u8; 2],
    references: [u8; 21],
    s: Session,
    h: Header,
    d: &[u8],
) -> StepOutput
    ensures { result ≡ step_output_for (sign codes counts references s h d.now) }
{
    if !digests::is_digest(d) {
        return turned_down(codes, counts, s, 0x6A80);
    }
    if s.environment.number != 1 {
        return turned_down(codes, counts, s, 0x6985);
    }
    if !card_codes::code_of(codes, Code::PIN2).verified {
        return turned_down(codes, counts, s, 0x6982);
    }
    let key = key_for(references, s, JobKind::Sign);
    let handed = steps::hand_out(s, JobKind::Sign, key, h.le, padded_block(d));
    steps::in_session(card_codes::closed(codes, Code::PIN2), counts, handed)
}

// The bytes of the chain.
fn chain_bytes(s: &Session) -> &[u8]
    ensures { result.now ≡ chain_bytes s.now }
{
    octets::part(&s.chain.bytes, 0, usize::from(s.chain.len))
}

// Two strings one behind the other, or as much of both as fits, with zeros after them.
fn joined(first: &[u8], second: &[u8]) -> [u8; 257]
    requires { length first.now ≤ 257 }
    ensures { result ≡ filled 257 (take 257 (first.now ++ second.now)) }
{
    let mut both = [0u8; 257];
    writing::copy_at(&mut both, 0, first);
    writing::copy_at(&mut both, first.len(), second);
    both
}

// The block of a cryptogram: all but its first byte.
fn last_256(cryptogram: [u8; 257]) -> [u8; 256]
    ensures { result ≡ drop 1 cryptogram }
{
    let mut block = [0u8; 256];
    block.copy_from_slice(&cryptogram[1..]);
    block
}

// DECIPHER of a whole cryptogram: a byte 00 and 256 more.
fn decipher_whole(
    codes: [Code; 3],
    references: [u8; 21],
    s: Session,
    h: Header,
    cryptogram: [u8; 257],
) -> SessionOutput
    ensures { result ≡ session_output_for (decipher_whole codes references s h cryptogram) }
{
    let emptied = pending::drop_chain(s);
    if cryptogram[0] != 0x00 {
        return steps::session_status(emptied, 0x6A80);
    }
    if s.environment.number != 6 {
        return steps::session_status(emptied, 0x6985);
    }
    if !card_codes::code_of(codes, Code::PIN1).verified {
        return steps::session_status(emptied, 0x6982);
    }
    let key = key_for(references, s, JobKind::Decipher);
    steps::hand_out(emptied, JobKind::Decipher, key, h.le, last_256(cryptogram))
}

// 2A 80 86 DECIPHER: joins the chain, and takes a whole cryptogram.
#[tactic(auto, using(crate::proofs::Blocks::chain_whole, crate::proofs::Blocks::cryptogram_whole), unfolding(rules::specs::KeyCommands::decipher))]
pub fn decipher(
    codes: [Code; 3],
    references: [u8; 21],
    s: Session,
    h: Header,
    d: &[u8],
) -> SessionOutput
    ensures { result ≡ session_output_for (decipher codes references s h d.now) }
{
    let chain = chain_bytes(&s);
    let len = chain.len().saturating_add(d.len());
    if 257 < len {
        return steps::session_status(pending::drop_chain(s), 0x6700);
    }
    let both = joined(chain, d);
    if h.cla == 0x10 {
        let chained = pending::with_chain(s, octets::part(&both, 0, len));
        return steps::session_status(chained, 0x9000);
    }
    if len != 257 {
        return steps::session_status(pending::drop_chain(s), 0x6700);
    }
    decipher_whole(codes, references, s, h, both)
}
