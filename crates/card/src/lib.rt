#![tactic(auto)]

// The calls command, delivery and power reset.
ghost use Rattle.std.specs.Prelude.{◌≡◌};
ghost use Rattle.rules.specs.Numbers.{returned};
ghost use Rattle.rules.specs.Edge.{bad_certificate, job_waits, command, delivery, power_reset};
ghost use Rattle.answers.specs.Outputs.{output_of, written_or};
ghost use Rattle.card.specs.Ready.{ready};

use rules::{Card, Code, Refusal, Reply};
use steps::StepOutput;

// Edge refusal 3: a certificate empty or over 1,536 bytes.
fn bad_certificate(certificate: &[u8]) -> bool
    ensures { result ≡ bad_certificate certificate.now }
{
    let n = certificate.len();
    (n == 0) | (1536 < n)
}

// Edge refusals 1 and 2: a bad state, and a buffer under 258 bytes.
fn ready(card: &Card, buffer: &[u8]) -> Result<(), Refusal>
    ensures { result ≡ ready card.now buffer.now }
{
    if !good_state::good(card) {
        return Err(Refusal::BadState);
    }
    if buffer.len() < 258 {
        return Err(Refusal::ShortBuffer);
    }
    Ok(())
}

// Whether a job waits.
fn job_waits(card: &Card) -> bool
    ensures { result ≡ job_waits card.now }
{
    card.session.job.kind != 0
}

// The card after a step, and the step's answer in the buffer.
fn answered(card: &mut Card, step: StepOutput, buffer: &mut [u8]) -> Result<Reply, Refusal>
    ensures { record { returned = returned result; card = card.new; buffer = buffer.new } ≡ written_or buffer.old (record { codes = step.codes; counts = step.counts; profile = card.old.profile; session = step.session }) (output_of step.output) }
{
    let codes = step.codes;
    let counts = step.counts;
    let session = step.session;
    let next = Card {
        codes,
        counts,
        session,
        ..*card
    };
    *card = next;
    answers::write(step.output, buffer)
}

// A command: its bytes, the authentication and the signature certificate, and the buffer for the answer.
pub fn command<'a>(
    card: &mut Card,
    apdu: &'a [u8],
    authentication: &'a [u8],
    signature: &'a [u8],
    buffer: &mut [u8],
) -> Result<Reply, Refusal>
    ensures { record { returned = returned result; card = card.new; buffer = buffer.new } ≡ command card.old apdu.now authentication.now signature.now buffer.old }
{
    ready(card, buffer)?;
    if bad_certificate(authentication) | bad_certificate(signature) {
        return Err(Refusal::CertificateLength);
    }
    if job_waits(card) {
        return Err(Refusal::JobWaiting);
    }
    let Some((h, start)) = apdu::parse(apdu) else {
        let step = judgement::refuse(card, 0x6700);
        return answered(card, step, buffer);
    };
    let d = octets::part(apdu, start, h.lc);
    let step = judgement::judge(card, h, d, authentication, signature);
    answered(card, step, buffer)
}

// A delivery: the key host's result, and the buffer for the answer.
pub fn delivery(card: &mut Card, res: &[u8], buffer: &mut [u8]) -> Result<Reply, Refusal>
    ensures { record { returned = returned result; card = card.new; buffer = buffer.new } ≡ delivery card.old res.now buffer.old }
{
    ready(card, buffer)?;
    if !job_waits(card) {
        return Err(Refusal::NoJobWaiting);
    }
    let codes = card.codes;
    let counts = card.counts;
    let step = steps::in_session(codes, counts, deliveries::deliver(card.session, res));
    answered(card, step, buffer)
}

// A power reset: marks off and a new session; the unblocking counts stay.
pub fn power_reset(card: &mut Card) -> Result<Reply, Refusal>
    ensures { (returned result, card.new) ≡ power_reset card.old }
{
    if !good_state::good(card) {
        return Err(Refusal::BadState);
    }
    let kept = card.codes;
    let puk_closed = card_codes::closed(kept, Code::PUK);
    let pin1_closed = card_codes::closed(puk_closed, Code::PIN1);
    let codes = card_codes::closed(pin1_closed, Code::PIN2);
    *card = Card {
        codes,
        session: pending::new_session(),
        ..*card
    };
    Ok(Reply::WasReset)
}
