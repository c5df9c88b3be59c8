#![tactic(auto)]

// SELECT, READ RECORD, READ BINARY and GET RESPONSE, as functions of values: the next session and the answer.
ghost use Rattle.std.specs.Prelude.{◌≡◌, ◌≤◌, take};
ghost use Rattle.octets.specs.Octets.{byte_at, word};
ghost use Rattle.rules.specs.Files.{puk_record, pin_record, counter_record, personal_record, record_count, record_of};
ghost use Rattle.rules.specs.Answers.{give};
ghost use Rattle.rules.specs.FileCommands.{select, read_record, read_status, read_binary, get_response};
ghost use Rattle.apdu.specs.Reach.{le_in_reach};
ghost use Rattle.steps.specs.Steps.{session_output_for};

use rules::{Code, Header, Profile, Record, Session};
use steps::SessionOutput;

// The two directories, and no current file.
const ROOT: u16 = 0x3F00;

const ESTEID_DIRECTORY: u16 = 0xEEEE;

const NO_FILE: u16 = 0;

// The file identifier that SELECT names.
fn named_file(name: &[u8]) -> u16
    ensures { result ≡ word (byte_at name.now 0) (byte_at name.now 1) }
{
    u16::from_be_bytes([octets::byte_at(name, 0), octets::byte_at(name, 1)])
}

// A4 SELECT.
#[tactic(auto, unfolding(rules::specs::FileCommands::select))]
pub fn select(s: Session, h: Header, name: &[u8]) -> SessionOutput
    ensures { result ≡ session_output_for (select s h name.now) }
{
    let directory = s.selection.directory;
    let file = named_file(name);
    let chosen = match h.p1 {
        0x00 => state::with_selection(s, ROOT, NO_FILE),
        0x01 if directory == ROOT && file == ESTEID_DIRECTORY => {
            state::with_selection(s, ESTEID_DIRECTORY, NO_FILE)
        }
        0x02 if files::file_in(directory, file) => state::with_selection(s, directory, file),
        _ => return steps::session_status(s, 0x6A82),
    };
    steps::session_status(chosen, 0x9000)
}

// The records of 0016h by the tries left.
#[tactic(auto, unfolding(rules::specs::Files::puk_record))]
fn puk_record(tries: u8) -> [u8; 6]
    ensures { result ≡ puk_record tries }
{
    [0x80, 0x01, 0x03, 0x90, 0x01, tries]
}

#[tactic(auto, unfolding(rules::specs::Files::pin_record))]
fn pin_record(tries: u8) -> [u8; 10]
    ensures { result ≡ pin_record tries }
{
    [0x80, 0x01, 0x03, 0x90, 0x01, tries, 0x83, 0x02, 0x00, 0x00]
}

// Record n of 0016h, given by Le.
#[tactic(auto, unfolding(rules::specs::Files::counter_record, rules::specs::Files::puk_record, rules::specs::Files::pin_record))]
fn give_counter(codes: [Code; 3], s: Session, le: u16, n: u8) -> SessionOutput
    ensures { result ≡ session_output_for (give s le (counter_record codes n)) }
{
    match n {
        1 | 2 => {
            let pin = card_codes::code_of(codes, usize::from(n));
            steps::give(s, le, &pin_record(pin.tries))
        }
        _ => {
            let puk = card_codes::code_of(codes, Code::PUK);
            steps::give(s, le, &puk_record(puk.tries))
        }
    }
}

// What a personal record holds, given by Le.
#[tactic(auto, using(crate::proofs::Laws::first_uncut))]
fn give_contents(stored: Record, s: Session, le: u16) -> SessionOutput
    ensures { result ≡ session_output_for (give s le (take stored.len stored.bytes)) }
{
    let contents = octets::part(&stored.bytes, 0, usize::from(stored.len));
    steps::give(s, le, contents)
}

// Record n of 5044h; record 1 is the first.
#[tactic(auto, unfolding(rules::specs::Files::personal_record))]
fn give_personal(profile: Profile, s: Session, le: u16, n: u8) -> SessionOutput
    requires { n ≤ 16 }
    ensures { result ≡ session_output_for (give s le (personal_record profile.personal n)) }
{
    let place = usize::from(n).saturating_sub(1);
    give_contents(profile.personal[place], s, le)
}

// Record n of a record file.
#[tactic(auto, using(crate::proofs::Laws::uncut), unfolding(rules::specs::Files::record_of, rules::specs::Files::record_count))]
fn give_record(
    codes: [Code; 3],
    profile: Profile,
    s: Session,
    le: u16,
    file: u16,
    n: u8,
) -> SessionOutput
    requires { n ≤ record_count file }
    ensures { result ≡ session_output_for (give s le (record_of codes profile file n)) }
{
    match file {
        0x0016 => give_counter(codes, s, le, n),
        0x0033 => steps::give(s, le, &profile.references),
        _ => give_personal(profile, s, le, n),
    }
}

// B2 READ RECORD.
#[tactic(auto, unfolding(rules::specs::FileCommands::read_record))]
pub fn read_record(codes: [Code; 3], profile: Profile, s: Session, h: Header) -> SessionOutput
    ensures { result ≡ session_output_for (read_record codes profile s h) }
{
    match s.selection.file {
        NO_FILE => steps::session_status(s, 0x6986),
        file if files::certificate_file(file) => steps::session_status(s, 0x6981),
        file if files::record_count(file) < h.p1 => steps::session_status(s, 0x6A83),
        file => give_record(codes, profile, s, h.le, file, h.p1),
    }
}

// The status word of READ BINARY by Le and how many bytes remain.
#[tactic(auto, unfolding(rules::specs::FileCommands::read_status))]
fn read_status(le: usize, remains: usize) -> u16
    ensures { result ≡ read_status le remains }
{
    if le <= 255 && remains < le {
        0x6282
    } else {
        0x9000
    }
}

// B0 READ BINARY, of at most 256 bytes.
#[tactic(auto, using(crate::proofs::Laws::take_in_reach, crate::proofs::Laws::status_given), unfolding(rules::specs::FileCommands::read_binary))]
pub fn read_binary(s: Session, h: Header, authentication: &[u8], signature: &[u8]) -> SessionOutput
    ensures { result ≡ session_output_for (read_binary s (le_in_reach h) authentication.now signature.now) }
{
    let offset = usize::from(u16::from_be_bytes([h.p1, h.p2]));
    match s.selection.file {
        NO_FILE => steps::session_status(s, 0x6986),
        file if !files::certificate_file(file) => steps::session_status(s, 0x6981),
        file if files::certificate_length(authentication, signature, file) <= offset => {
            steps::session_status(s, 0x6B00)
        }
        file => {
            let le = usize::from(h.le);
            let shown = files::certificate_part(authentication, signature, file, offset, le);
            // The part is shorter than Le exactly where fewer than Le bytes remain.
            steps::session_data(s, shown, read_status(le, shown.len()))
        }
    }
}

// C0 GET RESPONSE.
#[tactic(auto, using(crate::proofs::Laws::first_uncut), unfolding(rules::specs::FileCommands::get_response))]
pub fn get_response(s: Session, h: Header) -> SessionOutput
    ensures { result ≡ session_output_for (get_response s h) }
{
    let all = octets::part(&s.held.bytes, 0, usize::from(s.held.len));
    if all.is_empty() {
        return steps::session_status(pending::drop_held(s), 0x6985);
    }
    let le = usize::from(h.le);
    if all.len() <= le {
        return steps::session_data(pending::drop_held(s), all, 0x9000);
    }
    let (first, rest) = all.split_at(le);
    steps::session_data(pending::with_held(s, rest), first, steps::more_bytes(rest))
}
