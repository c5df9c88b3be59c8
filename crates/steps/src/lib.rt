#![tactic(auto)]

// What a command leaves behind: the next session, or the next codes, unblocking counts and session, and the answer.
ghost use Rattle.std.specs.Prelude.{◌≡◌, length, take};
ghost use Rattle.rules.specs.Numbers.{kind_number};
ghost use Rattle.rules.specs.Answers.{response, session_status, more_bytes, give, hand_out, in_codes};
ghost use Rattle.steps.specs.Steps.{session_output_for, step_output_for};

use answers::Output;
use rules::{Code, CodeStep, Job, JobKind, Session};

// After a command that changes nothing but the session.
#[derive(Clone, Copy)]
pub struct SessionOutput {
    pub session: Session,
    pub output: Output,
}

// After any command: what else the card has no command changes.
#[derive(Clone, Copy)]
pub struct StepOutput {
    pub codes: [Code; 3],
    pub counts: [u8; 2],
    pub session: Session,
    pub output: Output,
}

// A status word alone.
pub fn session_status(s: Session, sw: u16) -> SessionOutput
    ensures { result ≡ session_output_for (session_status s sw) }
{
    SessionOutput {
        session: s,
        output: answers::status(sw),
    }
}

// Data, at most 256 bytes of it, and a status word.
pub fn session_data(s: Session, d: &[u8], sw: u16) -> SessionOutput
    ensures { result ≡ session_output_for (record { session = s; answer = response (take 256 d.now) sw }) }
{
    SessionOutput {
        session: s,
        output: answers::with_data(d, sw),
    }
}

// 61 and the number of bytes, of which at most 256 count, 256 as 00.
pub fn more_bytes(d: &[u8]) -> u16
    ensures { result ≡ more_bytes (length (take 256 d.now)) }
{
    let n = octets::part(d, 0, 256).len();
    if n == 256 {
        return 0x6100;
    }
    0x6100 + n as u16
}

// Data, at most 256 bytes of it, by Le: all of it and 9000, or held and 61 with its length.
pub fn give(s: Session, le: u16, d: &[u8]) -> SessionOutput
    ensures { result ≡ session_output_for (give s le (take 256 d.now)) }
{
    let shown = octets::part(d, 0, 256);
    if shown.len() <= usize::from(le) {
        return session_data(s, shown, 0x9000);
    }
    let held = pending::with_held(s, shown);
    session_status(held, more_bytes(shown))
}

// A job is handed out, and waits with its Le.
pub fn hand_out(s: Session, kind: JobKind, key: u16, le: u16, block: [u8; 256]) -> SessionOutput
    ensures { result ≡ session_output_for (hand_out s (kind_number kind) key le block) }
{
    let job = Job {
        kind: u16::from(kind),
        key,
        le,
    };
    SessionOutput {
        session: state::with_job(s, job),
        output: answers::handed_out(kind, key, block),
    }
}

// After a command that changes nothing but the codes and the unblocking counts; after one that changes nothing but the session.
pub fn in_codes(counts: [u8; 2], s: Session, step: CodeStep) -> StepOutput
    ensures { result ≡ step_output_for (in_codes counts s step) }
{
    let codes = step.codes;
    StepOutput {
        codes,
        counts,
        session: s,
        output: answers::status(step.sw),
    }
}

pub fn in_session(codes: [Code; 3], counts: [u8; 2], o: SessionOutput) -> StepOutput
    ensures { result ≡ record { codes = codes; counts = counts; session = o.session; output = o.output } }
{
    StepOutput {
        codes,
        counts,
        session: o.session,
        output: o.output,
    }
}
