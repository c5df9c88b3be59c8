#![tactic(auto)]

// A line of output, written. Every public function takes every input.
ghost use Rattle.std.specs.Prelude.{◌≡◌, [], ◌∷◌, ◌++◌, take};
ghost use Rattle.hexadecimal.specs.Hex.{hex_of};
ghost use Rattle.rules.specs.Numbers.{kind_number, refusal_number, returned, handed_out, fault_number, load_number, wrote_of};
ghost use Rattle.requests.specs.Requests.{line_feed};
ghost use Rattle.writing.specs.Puts.{Put};
ghost use Rattle.pages.specs.Pages.{Written};
ghost use Rattle.line_texts.specs.Texts.{numeral, block_text, reply_text, load_text, saved_text};

use pages::Page;
use requests::Dialect;
use rules::{Fault, JobKind, Refusal, Reply};

// The hex of some bytes.
fn put_hex(page: &mut Page, s: &[u8])
    ensures { Written page.old (hex_of s.now) page.new }
{
    page.at = hexadecimal::hex_at(page.room, page.at, s);
}

// A letter, and the first n bytes of a buffer.
fn put_lettered(page: &mut Page, letter: u8, n: usize, buffer: &[u8])
    ensures { Written page.old (letter ∷ hex_of (take n buffer.now)) page.new }
{
    page.put(&[letter]);
    put_hex(page, octets::part(buffer, 0, n));
}

// What stands behind a job's key.
fn put_block(page: &mut Page, dialect: Dialect, buffer: &[u8])
    ensures { Written page.old (block_text dialect buffer.now) page.new }
{
    match dialect {
        Dialect::Transcript => page.put(b""),
        Dialect::StandIn => {
            page.put(b" ");
            put_hex(page, octets::part(buffer, 0, 256));
        }
    }
}

// J, the kind, a space, the key and what stands behind it.
#[tactic(auto, using(crate::proofs::Texts::small_kind))]
fn put_job(page: &mut Page, dialect: Dialect, kind: JobKind, key: u16, buffer: &[u8])
    ensures { Written page.old (reply_text dialect (handed_out (kind_number kind) key) buffer.now) page.new }
{
    page.put(&[b'J', b'0' + u16::from(kind) as u8, b' ']);
    put_hex(page, &key.to_be_bytes());
    put_block(page, dialect, buffer);
}

// H and the edge number.
#[tactic(auto, using(crate::proofs::Texts::small_refusal))]
fn put_refusal(page: &mut Page, refusal: Refusal)
    ensures { Written page.old (0x48 ∷ numeral (refusal_number refusal) ∷ []) page.new }
{
    page.put(&[b'H', b'0' + u8::from(refusal)]);
}

// What a call returned, without the line feed.
#[tactic(auto, unfolding(crate::specs::Texts::reply_text))]
fn put_reply(page: &mut Page, dialect: Dialect, reply: Result<Reply, Refusal>, buffer: &[u8])
    ensures { Written page.old (reply_text dialect (returned reply) buffer.now) page.new }
{
    match reply {
        Ok(Reply::WasReset) => page.put(b"P"),
        Ok(Reply::Response(n)) => put_lettered(page, b'R', n, buffer),
        Ok(Reply::HandedOut(kind, key)) => put_job(page, dialect, kind, key, buffer),
        Err(refusal) => put_refusal(page, refusal),
    }
}

// A call's line of output.
pub fn put_line(
    dialect: Dialect,
    reply: Result<Reply, Refusal>,
    buffer: &[u8],
    output: &mut [u8],
    at: usize,
) -> usize
    ensures { Put output.old at (reply_text dialect (returned reply) buffer.now ++ line_feed ∷ []) output.new result }
{
    let mut page = Page { room: output, at };
    put_reply(&mut page, dialect, reply, buffer);
    page.put(b"\n");
    page.at
}

// F and the number of a fault, with the line feed. Two digits are no plainer by a formatter: of what it writes into a slice no proof knows.
fn put_fault(page: &mut Page, fault: Fault)
    ensures { Written page.old (load_text (fault_number fault) ++ line_feed ∷ []) page.new }
{
    let n = u8::from(fault);
    page.put(&[b'F', b'0' + n / 10, b'0' + n % 10, b'\n']);
}

// What load answers, with the line feed.
#[tactic(auto, unfolding(crate::specs::Texts::load_text))]
pub fn put_load(res: Result<(), Fault>, output: &mut [u8], at: usize) -> usize
    ensures { Put output.old at (load_text (load_number res) ++ line_feed ∷ []) output.new result }
{
    let mut page = Page { room: output, at };
    match res {
        Ok(()) => page.put(b"L\n"),
        Err(fault) => put_fault(&mut page, fault),
    }
    page.at
}

// What the writer answered, without the line feed.
#[tactic(auto, unfolding(crate::specs::Texts::saved_text))]
fn put_image(page: &mut Page, res: Result<usize, Refusal>, buffer: &[u8])
    ensures { Written page.old (saved_text (wrote_of res) buffer.now) page.new }
{
    match res {
        Ok(n) => put_lettered(page, b'I', n, buffer),
        Err(refusal) => put_refusal(page, refusal),
    }
}

// What the writer answered, with the line feed.
pub fn put_saved(res: Result<usize, Refusal>, buffer: &[u8], output: &mut [u8], at: usize) -> usize
    ensures { Put output.old at (saved_text (wrote_of res) buffer.now ++ line_feed ∷ []) output.new result }
{
    let mut page = Page { room: output, at };
    put_image(&mut page, res, buffer);
    page.put(b"\n");
    page.at
}
