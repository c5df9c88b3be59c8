#![tactic(auto)]

// Whether a card state is good, for every state value whatever. `&` joins the tests of its parts, since `&&` was measured to be slower.
ghost use Rattle.std.specs.Prelude.{◌≡◌, length, eqb, ◌||◌, ◌&&◌};
ghost use Rattle.rules.specs.Numbers.{kind_number};
ghost use Rattle.rules.specs.Keys.{usable};
ghost use Rattle.rules.specs.State.{good_codes, good_counts, good_references, good_record, good_records, good_profile, good};
ghost use Rattle.rules.specs.State.{good_selection, good_environment, good_held, good_chain, good_job, good_session};

use rules::{
    Card, Chain, Code, Environment, Held, Job, JobKind, Profile, Record, Selection, Session,
};

// The three codes.
#[tactic(auto, unfolding(rules::specs::State::good_codes))]
fn good_codes(codes: &[Code; 3]) -> bool
    ensures { result ≡ good_codes codes.now }
{
    codes::good_code(Code::PUK, codes[Code::PUK])
        & codes::good_code(Code::PIN1, codes[Code::PIN1])
        & codes::good_code(Code::PIN2, codes[Code::PIN2])
}

// The two unblocking counts.
#[tactic(auto, unfolding(rules::specs::State::good_counts))]
fn good_counts(counts: [u8; 2]) -> bool
    ensures { result ≡ good_counts counts }
{
    (card_codes::count_of(counts, Code::PIN1) <= Code::NO_LIMIT)
        & (card_codes::count_of(counts, Code::PIN2) <= Code::NO_LIMIT)
}

// The record of 0033h.
#[tactic(auto, unfolding(rules::specs::State::good_references))]
fn good_references(keys: [bool; 4], references: [u8; 21]) -> bool
    ensures { result ≡ good_references keys references }
{
    let authentication = keys::active_key(references, JobKind::Authenticate);
    let signature = keys::active_key(references, JobKind::Sign);
    keys::usable(keys, JobKind::Authenticate, authentication)
        & keys::usable(keys, JobKind::Sign, signature)
}

// A personal record, which has at least one byte.
fn good_record(r: &Record) -> bool
    ensures { result ≡ good_record r.now }
{
    (1 <= r.len) & octets::good_room(64, &r.bytes, usize::from(r.len))
}

// The personal records, sixteen. Every one is looked at (docs/DECISIONS.md, "How long a comparison takes").
fn good_records(personal: &[Record; 16]) -> bool
    ensures { result ≡ (eqb (length personal.now) 16 && good_records 16 personal.now) }
{
    personal
        .iter()
        .fold(true, |all, record| all & good_record(record))
}

#[tactic(auto, unfolding(rules::specs::State::good_profile))]
fn good_profile(p: &Profile) -> bool
    ensures { result ≡ good_profile p.now }
{
    good_references(p.keys, p.references) & good_records(&p.personal)
}

#[tactic(auto, unfolding(rules::specs::State::good_selection))]
fn good_selection(s: Selection) -> bool
    ensures { result ≡ good_selection s }
{
    matches!(s.directory, 0x3F00 | 0xEEEE) & ((s.file == 0) | files::file_in(s.directory, s.file))
}

fn good_choice(keys: [bool; 4], kind: JobKind, key: u16) -> bool
    ensures { result ≡ (eqb key 0 || usable keys (kind_number kind) key) }
{
    (key == 0) | keys::usable(keys, kind, key)
}

#[tactic(auto, unfolding(rules::specs::State::good_environment))]
fn good_environment(keys: [bool; 4], e: Environment) -> bool
    ensures { result ≡ good_environment keys e }
{
    matches!(e.number, 1 | 6)
        & good_choice(keys, JobKind::Authenticate, e.choices[0])
        & good_choice(keys, JobKind::Sign, e.choices[1])
        & good_choice(keys, JobKind::Decipher, e.choices[2])
}

#[tactic(auto, unfolding(rules::specs::State::good_job))]
fn good_job(keys: [bool; 4], j: Job) -> bool
    ensures { result ≡ good_job keys j }
{
    match JobKind::try_from(j.kind) {
        Ok(kind) => keys::usable(keys, kind, j.key) & (j.le <= 256),
        Err(_) => (j.kind == 0) & (j.key == 0) & (j.le == 0),
    }
}

// The held answer. The chain has a test more.
fn good_held(h: &Held) -> bool
    ensures { result ≡ good_held h.now }
{
    octets::good_room(256, &h.bytes, usize::from(h.len))
}

// The chain, whose last place is empty.
fn good_chain(n: &Chain) -> bool
    ensures { result ≡ good_chain n.now }
{
    (n.len <= 257) & octets::good_room(258, &n.bytes, usize::from(n.len))
}

#[tactic(auto, unfolding(rules::specs::State::good_session))]
fn good_session(keys: [bool; 4], s: &Session) -> bool
    ensures { result ≡ good_session keys s.now }
{
    let excludes = (s.job.kind == 0) | (s.held.len == 0) & (s.chain.len == 0);
    good_selection(s.selection)
        & good_environment(keys, s.environment)
        & good_held(&s.held)
        & good_chain(&s.chain)
        & good_job(keys, s.job)
        & excludes
}

// Whether the state is good.
#[tactic(auto, unfolding(rules::specs::State::good))]
pub fn good(card: &Card) -> bool
    ensures { result ≡ good card.now }
{
    good_codes(&card.codes)
        & good_counts(card.counts)
        & good_profile(&card.profile)
        & good_session(card.profile.keys, &card.session)
}
