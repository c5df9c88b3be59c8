#![tactic(auto)]

// The call load: a card image is read byte by byte, each byte judged as it is read. The first fault in reading order stops it.
ghost use Rattle.std.specs.Prelude.{◌≡◌, true, ℕ, length};
ghost use Rattle.rules.specs.declared.Card.{Card};
ghost use Rattle.rules.specs.Numbers.{kind_number, fault_number, load_number};
ghost use Rattle.rules.specs.Keys.{usable, active_key};
ghost use Rattle.rules.specs.Image.{byte_if, any_byte, bytes_if, any_bytes, count, end, read_code, read_key, read_personal};
ghost use Rattle.rules.specs.Image.{code_section, key_section, reference_section, personal_section, read_counts, read_card, load};
ghost use Rattle.image.specs.Results.{read_as, read_into, within};
ghost use Rattle.image.specs.Marks.{with_mark, marked_keys};

use image_reader::Reader;
use rules::{Card, Code, Fault, JobKind, Loaded, Profile, Record};

// The next byte, whatever it is.
#[tactic(auto, unfolding(rules::specs::Image::byte_if))]
fn any_byte(reader: &mut Reader) -> Result<u8, Fault>
    ensures { read_as result reader.new ≡ any_byte reader.old }
{
    reader.next().ok_or(Fault::EndsEarly)
}

// The next byte, judged by its limits.
#[tactic(auto, using(crate::proofs::Readings::exits), unfolding(rules::specs::Image::byte_if))]
fn byte_within(reader: &mut Reader, low: usize, high: usize, fault: Fault) -> Result<u8, Fault>
    ensures { read_as result reader.new ≡ byte_if (within low high) (fault_number fault) reader.old }
{
    let byte = any_byte(reader)?;
    if (low..=high).contains(&usize::from(byte)) {
        Ok(byte)
    } else {
        Err(fault)
    }
}

// A section's count.
#[tactic(auto, using(crate::proofs::Readings::exits_into), unfolding(rules::specs::Image::byte_if))]
fn count(reader: &mut Reader, n: u8) -> Result<(), Fault>
    ensures { read_into result n reader.new ≡ count n reader.old }
{
    if any_byte(reader)? != n {
        return Err(Fault::WrongCount);
    }
    Ok(())
}

// As many bytes as there is room for, each judged by its limits.
fn bytes_within(
    reader: &mut Reader,
    room: &mut [u8],
    low: usize,
    high: usize,
    fault: Fault,
) -> Result<(), Fault>
    ensures { read_into result room.new reader.new ≡ bytes_if (within low high) (fault_number fault) (length room.old) reader.old }
{
    for byte in room.iter_mut() {
        *byte = byte_within(reader, low, high, fault)?;
    }
    Ok(())
}

// As many bytes as there is room for, whatever they are. Not by `bytes_within` with 0 and 255: a contract sees a reader as numbers, and
// does not know that they are bytes.
fn any_bytes(reader: &mut Reader, room: &mut [u8]) -> Result<(), Fault>
    ensures { read_into result room.new reader.new ≡ any_bytes (length room.old) reader.old }
{
    for byte in room.iter_mut() {
        *byte = any_byte(reader)?;
    }
    Ok(())
}

// Nothing is left over.
#[tactic(auto, unfolding(rules::specs::Image::end))]
fn end(reader: &mut Reader) -> Result<(), Fault>
    ensures { read_into result true reader.new ≡ end reader.old }
{
    match reader.next() {
        Some(_) => Err(Fault::LeftOver),
        None => Ok(()),
    }
}

// A code: its length, its digits, its tries.
#[tactic(auto, using(crate::proofs::Readings::exits, crate::proofs::Readings::read_within, crate::proofs::Readings::at_most, crate::proofs::Rooms::part_length), unfolding(rules::specs::Image::read_code, octets::specs::Octets::blank))]
fn read_code(reader: &mut Reader, number: usize) -> Result<Code, Fault>
    ensures { read_as result reader.new ≡ read_code number reader.old }
{
    let len = byte_within(reader, Code::least(number), Code::MOST, Fault::BadCode)?;
    let mut room = [0u8; 12];
    let digits = &mut room[..usize::from(len)];
    bytes_within(reader, digits, 0x30, 0x39, Fault::BadCode)?;
    let tries = byte_within(reader, 0, usize::from(Code::TRIES), Fault::BadCode)?;
    Ok(codes::storing(digits, tries, false))
}

// The codes: PUK, PIN1, PIN2.
#[tactic(auto, using(crate::proofs::Readings::exits), unfolding(rules::specs::Image::code_section))]
fn code_section(reader: &mut Reader) -> Result<[Code; 3], Fault>
    ensures { read_as result reader.new ≡ code_section reader.old }
{
    count(reader, 3)?;
    let puk = read_code(reader, Code::PUK)?;
    let pin1 = read_code(reader, Code::PIN1)?;
    let pin2 = read_code(reader, Code::PIN2)?;
    Ok([puk, pin1, pin2])
}

// A known key number above the last one, judged at its second byte.
#[tactic(auto, using(crate::proofs::Readings::exits), unfolding(rules::specs::Image::read_key))]
fn read_key(reader: &mut Reader, last: u16) -> Result<u16, Fault>
    ensures { read_as result reader.new ≡ read_key last reader.old }
{
    let high = any_byte(reader)?;
    let low = any_byte(reader)?;
    let key = u16::from_be_bytes([high, low]);
    let known = keys::is_signature_key(key) | keys::is_authentication_key(key);
    if known & (last < key) {
        Ok(key)
    } else {
        Err(Fault::BadKey)
    }
}

// Puts on the mark of one more key.
#[tactic(auto, unfolding(crate::specs::Marks::with_mark))]
fn put_mark(keys: &mut [bool; 4], key: u16)
    ensures { keys.new ≡ with_mark keys.old key }
{
    keys[0] |= key == 0x0100;
    keys[1] |= key == 0x0200;
    keys[2] |= key == 0x1100;
    keys[3] |= key == 0x1200;
}

// n key numbers: which of the four keys were read.
fn read_keys(reader: &mut Reader, n: u8) -> Result<[bool; 4], Fault>
    ensures { read_as result reader.new ≡ marked_keys n reader.old }
{
    let mut keys = [false; 4];
    let mut last = 0;
    for _ in 0..n {
        last = read_key(reader, last)?;
        put_mark(&mut keys, last);
    }
    Ok(keys)
}

// The keys; each class has at least one.
#[tactic(auto, using(crate::proofs::Readings::exits, crate::proofs::Keys::classes_tested), unfolding(rules::specs::Image::key_section, crate::specs::Marks::marked_keys))]
fn key_section(reader: &mut Reader) -> Result<[bool; 4], Fault>
    ensures { read_as result reader.new ≡ key_section reader.old }
{
    let number = byte_within(reader, 2, 4, Fault::WrongCount)?;
    let keys = read_keys(reader, number)?;
    if (keys[0] | keys[1]) & (keys[2] | keys[3]) {
        Ok(keys)
    } else {
        Err(Fault::BadKey)
    }
}

// Whether the active key for a kind of job is a present key of its class. `good_state` asks it of both at once, as the rules do there.
fn active_usable(keys: [bool; 4], references: [u8; 21], kind: JobKind) -> bool
    ensures { result ≡ usable keys (kind_number kind) (active_key references (kind_number kind)) }
{
    keys::usable(keys, kind, keys::active_key(references, kind))
}

// The record of 0033h; the active key of each class is one of the keys read.
#[tactic(auto, using(crate::proofs::Readings::exits), unfolding(rules::specs::Image::reference_section))]
fn reference_section(reader: &mut Reader, keys: [bool; 4]) -> Result<[u8; 21], Fault>
    ensures { read_as result reader.new ≡ reference_section keys reader.old }
{
    count(reader, 21)?;
    let mut references = [0u8; 21];
    any_bytes(reader, &mut references)?;
    let authentication = active_usable(keys, references, JobKind::Authenticate);
    let signature = active_usable(keys, references, JobKind::Sign);
    if authentication & signature {
        Ok(references)
    } else {
        Err(Fault::BadReference)
    }
}

// A personal record: its length, its bytes.
#[tactic(auto, using(crate::proofs::Readings::exits, crate::proofs::Readings::read_within, crate::proofs::Rooms::part_length, crate::proofs::Rooms::part_filled), unfolding(rules::specs::Image::read_personal, octets::specs::Octets::blank))]
fn read_record(reader: &mut Reader) -> Result<Record, Fault>
    ensures { read_as result reader.new ≡ read_personal reader.old }
{
    let len = byte_within(reader, 1, 64, Fault::RecordLength)?;
    let mut bytes = [0u8; 64];
    let filled = &mut bytes[..usize::from(len)];
    any_bytes(reader, filled)?;
    Ok(Record { bytes, len })
}

// The personal records, after their count.
#[tactic(auto, using(crate::proofs::Readings::exits), unfolding(rules::specs::Image::personal_section))]
fn personal_section(reader: &mut Reader) -> Result<[Record; 16], Fault>
    ensures { read_as result reader.new ≡ personal_section reader.old }
{
    count(reader, 16)?;
    let mut personal = zero_state::records();
    for record in personal.iter_mut() {
        *record = read_record(reader)?;
    }
    Ok(personal)
}

// The unblocking counts, after their count; where the image has ended there is no limit. That neither has a limit is refused
// after the second.
#[tactic(auto, using(crate::proofs::Readings::exits, crate::proofs::Readings::at_most), unfolding(rules::specs::Image::read_counts, rules::specs::Image::count_section, rules::specs::Image::byte_if))]
fn read_counts(reader: &mut Reader) -> Result<[u8; 2], Fault>
    ensures { read_as result reader.new ≡ read_counts reader.old }
{
    let Some(number) = reader.next() else {
        return Ok([Code::NO_LIMIT; 2]);
    };
    if number != 2 {
        return Err(Fault::WrongCount);
    }
    let most = usize::from(Code::NO_LIMIT);
    let pin1 = byte_within(reader, 0, most, Fault::UnblockingCount)?;
    let pin2 = byte_within(reader, 0, most, Fault::UnblockingCount)?;
    if (pin1 == Code::NO_LIMIT) & (pin2 == Code::NO_LIMIT) {
        return Err(Fault::UnblockingCount);
    }
    Ok([pin1, pin2])
}

// The whole image.
#[tactic(auto, using(crate::proofs::Readings::exits), unfolding(rules::specs::Image::read_card))]
fn read_card(reader: &mut Reader) -> Result<Card, Fault>
    ensures { read_as result reader.new ≡ read_card reader.old }
{
    let codes = code_section(reader)?;
    let keys = key_section(reader)?;
    let references = reference_section(reader, keys)?;
    let personal = personal_section(reader)?;
    let counts = read_counts(reader)?;
    end(reader)?;
    let profile = Profile {
        keys,
        references,
        personal,
    };
    let session = pending::new_session();
    Ok(Card {
        codes,
        counts,
        profile,
        session,
    })
}

// The card that an image says, in a new session; or the first fault beside the all-zero state.
#[tactic(auto, unfolding(rules::specs::Image::load, rules::specs::Image::loaded))]
pub fn load(image: &[u8]) -> Loaded
    ensures { ◌≡◌ {A = ℕ × Card} (load_number result.result, result.card) (load image.now) }
{
    match read_card(&mut Reader::new(image)) {
        Ok(card) => Loaded {
            card,
            result: Ok(()),
        },
        Err(fault) => Loaded {
            card: zero_state::card(),
            result: Err(fault),
        },
    }
}
