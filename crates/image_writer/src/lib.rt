#![tactic(auto)]

// The call write: a card's image, section by section as load reads it.
ghost use Rattle.std.specs.Prelude.{◌≡◌, ◌∷◌, length, take};
ghost use Rattle.octets.specs.Octets.{Bytes};
ghost use Rattle.writing.specs.Puts.{Put};
ghost use Rattle.rules.specs.Numbers.{Wrote, wrote_of};
ghost use Rattle.rules.specs.Writer.{code_image, codes_image, keys_on, keys_image, references_image};
ghost use Rattle.rules.specs.Writer.{record_image, personal_image, counts_image, image_of, write};
ghost use Rattle.pages.specs.Pages.{Written};

use pages::Page;
use rules::{Card, Code, Record, Refusal};

// How many keys are on the card.
#[tactic(auto, using(crate::proofs::Keys::marks_counted))]
fn key_count(keys: [bool; 4]) -> u8
    ensures { result ≡ length (keys_on keys) }
{
    keys.iter().filter(|on| **on).count() as u8
}

// A length, and as many of the bytes.
fn put_counted(page: &mut Page, len: u8, bytes: &[u8])
    ensures { Written page.old (len ∷ take len bytes.now) page.new }
{
    page.put(&[len]);
    page.put(octets::part(bytes, 0, usize::from(len)));
}

// A code: its length, its digits, its tries.
fn put_code(page: &mut Page, code: &Code)
    ensures { Written page.old (code_image code.now) page.new }
{
    put_counted(page, code.len, &code.digits);
    page.put(&[code.tries]);
}

// The codes: PUK, PIN1, PIN2.
fn put_codes(page: &mut Page, codes: &[Code; 3])
    ensures { Written page.old (codes_image codes.now) page.new }
{
    page.put(&[3]);
    put_code(page, &codes[Code::PUK]);
    put_code(page, &codes[Code::PIN1]);
    put_code(page, &codes[Code::PIN2]);
}

// The keys: how many there are, and their numbers.
fn put_keys(page: &mut Page, keys: [bool; 4])
    ensures { Written page.old (keys_image keys) page.new }
{
    page.put(&[key_count(keys)]);
    for key in [0x0100u16, 0x0200, 0x1100, 0x1200] {
        if keys::present(keys, key) {
            page.put(&key.to_be_bytes());
        }
    }
}

// The record of 0033h.
fn put_references(page: &mut Page, references: &[u8; 21])
    ensures { Written page.old (references_image references.now) page.new }
{
    page.put(&[21]);
    page.put(references);
}

// A personal record: its length, its bytes.
#[tactic(auto, unfolding(rules::specs::Writer::record_image))]
fn put_record(page: &mut Page, personal: &Record)
    ensures { Written page.old (record_image personal.now) page.new }
{
    put_counted(page, personal.len, &personal.bytes);
}

// The personal records, after their count.
fn put_personal(page: &mut Page, personal: &[Record; 16])
    ensures { Written page.old (personal_image personal.now) page.new }
{
    page.put(&[16]);
    for record in personal {
        put_record(page, record);
    }
}

// The unblocking counts, after their count; nothing where neither has a limit.
#[tactic(auto, unfolding(rules::specs::Writer::counts_image))]
fn put_counts(page: &mut Page, counts: [u8; 2])
    ensures { Written page.old (counts_image counts) page.new }
{
    let [pin1, pin2] = counts;
    if (pin1 == Code::NO_LIMIT) & (pin2 == Code::NO_LIMIT) {
        // The call stays: only behind a `put` is the place known to lie within the room.
        return page.put(b"");
    }
    page.put(&[2, pin1, pin2]);
}

// The sections, one behind the other, from the front of a buffer on; the place behind them.
fn put_image(buffer: &mut [u8], card: &Card) -> usize
    ensures { Put buffer.old 0 (image_of card.now) buffer.new result }
{
    let mut page = Page {
        room: buffer,
        at: 0,
    };
    put_codes(&mut page, &card.codes);
    put_keys(&mut page, card.profile.keys);
    put_references(&mut page, &card.profile.references);
    put_personal(&mut page, &card.profile.personal);
    put_counts(&mut page, card.counts);
    page.at
}

// Writes the image of a good card to the front of a buffer of at least 1,118 bytes.
pub fn write(card: &Card, buffer: &mut [u8]) -> Result<usize, Refusal>
    ensures { ◌≡◌ {A = Wrote × Bytes} (wrote_of result, buffer.new) (write card.now buffer.old) }
{
    if !good_state::good(card) {
        return Err(Refusal::BadState);
    }
    if buffer.len() < 1118 {
        return Err(Refusal::ShortBuffer);
    }
    Ok(put_image(buffer, card))
}
