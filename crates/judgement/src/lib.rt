#![tactic(auto)]

// The order of judgement for a command whose length form is right: steps 2 to 7. Header, data and the two certificates go on as they
// came, since the rules' functions take them so; the certificates are lent to the card as two slices (document 01).
ghost use Rattle.std.specs.Prelude.{◌≡◌, take};
ghost use Rattle.rules.specs.Numbers.{naming};
ghost use Rattle.rules.specs.Answers.{in_codes};
ghost use Rattle.rules.specs.CodeCommands.{reset_retry, counts_left};
ghost use Rattle.rules.specs.Judgement.{refusal, own_rules, judge_named, judge_header};
ghost use Rattle.apdu.specs.Reach.{le_in_reach};
ghost use Rattle.steps.specs.Steps.{step_output_for};
ghost use Rattle.judgement.specs.Admitted.{Sized, Admitted};

use rules::{Card, Code, Command, Header, Session};
use steps::StepOutput;

// A refusal by status word, with the held answer and the chain dropped.
pub fn refuse(card: &Card, sw: u16) -> StepOutput
    ensures { result ≡ step_output_for (refusal card.now sw) }
{
    let codes = card.codes;
    let counts = card.counts;
    let bare = pending::drop_both(card.session);
    steps::in_session(codes, counts, steps::session_status(bare, sw))
}

// RESET RETRY, with the unblocking counts after it.
fn reset_retry(codes: [Code; 3], counts: [u8; 2], s: Session, h: Header, d: &[u8]) -> StepOutput
    ensures { result ≡ step_output_for (in_codes (counts_left counts h.p2 (reset_retry codes counts h d.now).sw) s (reset_retry codes counts h d.now)) }
{
    let step = code_commands::reset_retry(codes, counts, h, d);
    let left = code_commands::counts_left(counts, h, step.sw);
    steps::in_codes(left, s, step)
}

// Step 7: the own rules of each command.
fn own_rules<'a>(
    command: Command,
    card: &Card,
    h: Header,
    d: &'a [u8],
    authentication: &'a [u8],
    signature: &'a [u8],
) -> StepOutput
    requires { Admitted command h d.now }
    ensures { result ≡ step_output_for (own_rules command card.now h d.now authentication.now signature.now) }
{
    let codes = card.codes;
    let counts = card.counts;
    let keys = card.profile.keys;
    let references = card.profile.references;
    let kept = card.session;
    let bare = pending::drop_both(kept);
    match command {
        Command::Select => steps::in_session(codes, counts, file_commands::select(bare, h, d)),
        Command::ReadRecord => steps::in_session(
            codes,
            counts,
            file_commands::read_record(codes, card.profile, bare, h),
        ),
        Command::ReadBinary => steps::in_session(
            codes,
            counts,
            file_commands::read_binary(bare, h, authentication, signature),
        ),
        Command::GetResponse => steps::in_session(
            codes,
            counts,
            file_commands::get_response(pending::drop_chain(kept), h),
        ),
        Command::Verify => steps::in_codes(counts, bare, code_commands::verify(codes, h, d)),
        Command::Change => steps::in_codes(counts, bare, code_commands::change(codes, h, d)),
        Command::ResetRetry => reset_retry(codes, counts, bare, h, d),
        Command::SetEnvironment => steps::in_session(
            codes,
            counts,
            environments::set_environment(bare, h),
        ),
        Command::ChooseKey => steps::in_session(
            codes,
            counts,
            environments::choose_key(keys, bare, h, d),
        ),
        Command::InternalAuthenticate => steps::in_session(
            codes,
            counts,
            key_commands::internal_authenticate(codes, references, bare, h, d),
        ),
        Command::ComputeSignature => key_commands::sign(codes, counts, references, bare, h, d),
        Command::Decipher => steps::in_session(
            codes,
            counts,
            key_commands::decipher(codes, references, pending::drop_held(kept), h, d),
        ),
    }
}

// Steps 5 to 7, of what the header names.
fn judge_named<'a>(
    named: Option<Command>,
    card: &Card,
    h: Header,
    d: &'a [u8],
    authentication: &'a [u8],
    signature: &'a [u8],
) -> StepOutput
    requires { Sized h d.now }
    ensures { result ≡ step_output_for (judge_named (naming named) card.now h d.now authentication.now signature.now) }
{
    let Some(command) = named else {
        return refuse(card, 0x6A86);
    };
    if !headers::good_lengths(command, h) {
        return refuse(card, 0x6700);
    }
    own_rules(command, card, h, d, authentication, signature)
}

// Steps 2 to 7.
fn judge_header<'a>(
    card: &Card,
    h: Header,
    d: &'a [u8],
    authentication: &'a [u8],
    signature: &'a [u8],
) -> StepOutput
    requires { Sized h d.now }
    ensures { result ≡ step_output_for (judge_header card.now h d.now authentication.now signature.now) }
{
    if !headers::known_class(h) {
        return refuse(card, 0x6E00);
    }
    if !headers::known_instruction(h) {
        return refuse(card, 0x6D00);
    }
    if headers::bad_chaining(h) {
        return refuse(card, 0x6884);
    }
    judge_named(headers::named(h), card, h, d, authentication, signature)
}

// Steps 2 to 7, of a header with no more than 256 as Le and of as much of the data as it says.
pub fn judge<'a>(
    card: &Card,
    header: Header,
    body: &'a [u8],
    authentication: &'a [u8],
    signature: &'a [u8],
) -> StepOutput
    ensures { result ≡ step_output_for (judge_header card.now (le_in_reach header) (take header.lc body.now) authentication.now signature.now) }
{
    let lc = header.lc;
    let d = octets::part(body, 0, lc);
    let h = apdu::in_reach(header);
    judge_header(card, h, d, authentication, signature)
}
