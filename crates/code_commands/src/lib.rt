#![tactic(auto)]

// VERIFY, CHANGE REFERENCE DATA and RESET RETRY COUNTER, as functions of the codes: the codes afterwards and a status word. And the
// unblocking counts after RESET RETRY COUNTER.
ghost use Rattle.std.specs.Prelude.{◌≡◌, ◌+◌, take, drop};
ghost use Rattle.rules.specs.Codes.{marked, lowered};
ghost use Rattle.rules.specs.Answers.{code_status};
ghost use Rattle.rules.specs.CodeCommands.{verdict, judged, queried, verify, replaced};
ghost use Rattle.rules.specs.CodeCommands.{change, unblocked, LeavesClosed};
ghost use Rattle.rules.specs.CodeCommands.{unblock_by_verified_puk, unblock_by_presented_puk, reset_retry, counts_left};

use rules::{Code, CodeStep, Header, Verdict};

// A status word alone.
fn code_status(codes: [Code; 3], sw: u16) -> CodeStep
    ensures { result ≡ code_status codes sw }
{
    CodeStep { codes, sw }
}

// The same value, with other tries left and another verified mark.
fn marked(code: Code, tries: u8, verified: bool) -> Code
    ensures { result ≡ marked code tries verified }
{
    Code {
        tries,
        verified,
        ..code
    }
}

// 63Cx with the tries left.
fn wrong_status(left: u8) -> u16
    ensures { result ≡ 0x63C0 + left }
{
    0x63C0 + u16::from(left)
}

// A presented value is judged.
#[tactic(auto, unfolding(rules::specs::CodeCommands::verdict))]
fn verdict(code: Code, presented: &[u8]) -> Verdict
    ensures { result ≡ verdict code presented.now }
{
    if code.tries == 0 {
        return Verdict::NoTries;
    }
    let stored = octets::part(&code.digits, 0, usize::from(code.len));
    if octets::equal(presented, stored) {
        return Verdict::Right;
    }
    Verdict::Wrong
}

// What follows for the code of a number.
#[tactic(auto, unfolding(rules::specs::CodeCommands::judged))]
fn judged(codes: [Code; 3], number: usize, found: Verdict) -> CodeStep
    ensures { result ≡ judged codes number found }
{
    let code = card_codes::code_of(codes, number);
    match found {
        Verdict::Right => {
            let opened = marked(code, Code::TRIES, true);
            code_status(card_codes::with_code(codes, number, opened), 0x9000)
        }
        Verdict::Wrong => {
            let left = code.tries.saturating_sub(1);
            let shut = marked(code, left, false);
            code_status(
                card_codes::with_code(codes, number, shut),
                wrong_status(left),
            )
        }
        Verdict::NoTries => code_status(codes, 0x6983),
    }
}

// 20 VERIFY without data asks whether a code is open. No code changes.
#[tactic(auto, unfolding(rules::specs::CodeCommands::queried))]
fn queried(codes: [Code; 3], number: usize) -> CodeStep
    ensures { result ≡ queried codes number }
{
    let asked = card_codes::code_of(codes, number);
    if asked.tries == 0 {
        return code_status(codes, 0x6983);
    }
    if asked.verified {
        return code_status(codes, 0x9000);
    }
    code_status(codes, wrong_status(asked.tries))
}

// 20 VERIFY: without data it asks, with data the value is judged.
#[tactic(auto, unfolding(rules::specs::CodeCommands::verify))]
pub fn verify(codes: [Code; 3], h: Header, presented: &[u8]) -> CodeStep
    ensures { result ≡ verify codes h presented.now }
{
    let number = usize::from(h.p2);
    if h.lc == 0 {
        return queried(codes, number);
    }
    let code = card_codes::code_of(codes, number);
    judged(codes, number, verdict(code, presented))
}

// Two values, the first as long as the one that a code stores.
fn two_values(code: Code, values: &[u8]) -> (&[u8], &[u8])
    ensures old { result.0.now ≡ take code.len values.now }
    ensures new { result.1.now ≡ drop code.len values.now }
{
    values.split_at(usize::from(code.len).min(values.len()))
}

// The value of code k was judged, and a new value for code j stands behind it; `stored` has it.
#[tactic(auto, unfolding(rules::specs::CodeCommands::replaced))]
fn replaced(
    codes: [Code; 3],
    k: usize,
    j: usize,
    new: &[u8],
    stored: [Code; 3],
    found: Verdict,
) -> CodeStep
    ensures { result ≡ replaced codes k j new.now stored found }
{
    match found {
        Verdict::Right if codes::allowed(j, new) => code_status(stored, 0x9000),
        Verdict::Right => code_status(codes, 0x6A80),
        Verdict::Wrong | Verdict::NoTries => judged(codes, k, found),
    }
}

// 24 CHANGE: the old value, as long as the stored one, then the new value. Answered 9000, it leaves the code open.
#[tactic(auto, using(crate::proofs::Laws::replaced_whole), unfolding(rules::specs::CodeCommands::change))]
pub fn change(codes: [Code; 3], h: Header, values: &[u8]) -> CodeStep
    ensures { result ≡ change codes h values.now }
{
    let number = usize::from(h.p2);
    let code = card_codes::code_of(codes, number);
    let (old, new) = two_values(code, values);
    let found = verdict(code, old);
    let next = codes::storing(new, Code::TRIES, true);
    let stored = card_codes::with_code(codes, number, next);
    replaced(codes, number, number, new, stored, found)
}

// What 2C leaves where it is answered 9000: `code` for the PIN, with three tries, `left` tries for PUK, and both marks off.
#[tactic(auto, unfolding(rules::specs::CodeCommands::unblocked))]
fn unblocked(codes: [Code; 3], pin: usize, code: Code, left: u8) -> [Code; 3]
    ensures { result ≡ unblocked codes pin code left }
{
    let puk = card_codes::code_of(codes, Code::PUK);
    let with_pin = card_codes::with_code(codes, pin, marked(code, Code::TRIES, false));
    card_codes::with_code(with_pin, Code::PUK, marked(puk, left, false))
}

// 2C with P1 03: the PUK was verified before.
#[tactic(auto, unfolding(rules::specs::CodeCommands::unblock_by_verified_puk))]
fn unblock_by_verified_puk(codes: [Code; 3], pin: usize) -> CodeStep
    ensures { result ≡ unblock_by_verified_puk codes pin }
{
    let puk = card_codes::code_of(codes, Code::PUK);
    if !puk.verified {
        return code_status(codes, 0x6982);
    }
    let blocked = card_codes::code_of(codes, pin);
    code_status(unblocked(codes, pin, blocked, puk.tries), 0x9000)
}

// 2C with P1 00: the PUK, then the new PIN.
fn unblock_by_presented_puk(codes: [Code; 3], pin: usize, values: &[u8]) -> CodeStep
    ensures { result ≡ unblock_by_presented_puk codes pin values.now }
{
    let puk = card_codes::code_of(codes, Code::PUK);
    let (presented, new) = two_values(puk, values);
    let found = verdict(puk, presented);
    let blocked = card_codes::code_of(codes, pin);
    let renewed = codes::storing(new, blocked.tries, blocked.verified);
    let stored = unblocked(codes, pin, renewed, Code::TRIES);
    replaced(codes, Code::PUK, pin, new, stored, found)
}

// 2C RESET RETRY. Its promise says itself that 9000 leaves the PIN and PUK closed.
pub fn reset_retry(codes: [Code; 3], counts: [u8; 2], h: Header, values: &[u8]) -> CodeStep
    ensures { (result ≡ reset_retry codes counts h values.now) × LeavesClosed codes h.p2 result }
{
    let pin = usize::from(h.p2);
    let code = card_codes::code_of(codes, pin);
    if code.tries != 0 {
        return code_status(codes, 0x6A86);
    }
    if card_codes::count_of(counts, pin) == 0 {
        return code_status(codes, 0x6983);
    }
    if h.p1 == 0x03 {
        return unblock_by_verified_puk(codes, pin);
    }
    unblock_by_presented_puk(codes, pin, values)
}

// An unblocking count after an unblocking: one less, unless there is no limit.
#[tactic(auto, unfolding(rules::specs::Codes::lowered))]
fn lowered(n: u8) -> u8
    ensures { result ≡ lowered n }
{
    if n == Code::NO_LIMIT {
        n
    } else {
        n.saturating_sub(1)
    }
}

// The unblocking counts after a 2C that was answered by a status word: 9000 lowers that of the PIN.
#[tactic(auto, unfolding(rules::specs::CodeCommands::counts_left))]
pub fn counts_left(counts: [u8; 2], h: Header, sw: u16) -> [u8; 2]
    ensures { result ≡ counts_left counts h.p2 sw }
{
    if sw != 0x9000 {
        return counts;
    }
    let pin = usize::from(h.p2);
    let left = lowered(card_codes::count_of(counts, pin));
    card_codes::with_count(counts, pin, left)
}
