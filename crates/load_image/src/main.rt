#![tactic(auto)]

// Reads a card image and prints what load makes of it: the fault's number, or the card, a line for each part.
use rules::{Card, Code};
use std::io;
use std::io::Write;

// A name, and bytes in hex, at most 64.
fn put_bytes<W: Write>(text: &mut W, name: &[u8], bytes: &[u8]) -> io::Result<()> {
    let mut hex = [0u8; 128];
    let end = hexadecimal::hex_at(&mut hex, 0, bytes);
    text.write_all(name)?;
    text.write_all(&hex[..end])?;
    text.write_all(b"\n")
}

// A name, the digits and the tries left.
fn put_code<W: Write>(text: &mut W, name: &str, code: Code) -> io::Result<()> {
    write!(text, "{name} ")?;
    text.write_all(octets::part(&code.digits, 0, usize::from(code.len)))?;
    writeln!(text, " {}", code.tries)
}

fn put_keys<W: Write>(text: &mut W, keys: [bool; 4]) -> io::Result<()> {
    write!(text, "keys")?;
    for (there, reference) in keys.iter().zip(["0100", "0200", "1100", "1200"]) {
        if *there {
            write!(text, " {reference}")?;
        }
    }
    writeln!(text)
}

fn put_card<W: Write>(text: &mut W, card: &Card) -> io::Result<()> {
    let (codes, profile) = (card.codes, card.profile);
    put_code(text, "PUK", card_codes::code_of(codes, Code::PUK))?;
    put_code(text, "PIN1", card_codes::code_of(codes, Code::PIN1))?;
    put_code(text, "PIN2", card_codes::code_of(codes, Code::PIN2))?;
    put_keys(text, profile.keys)?;
    put_bytes(text, b"references ", &profile.references)?;
    for record in profile.personal {
        put_bytes(
            text,
            b"record ",
            octets::part(&record.bytes, 0, usize::from(record.len)),
        )?;
    }
    let pin1 = card_codes::count_of(card.counts, Code::PIN1);
    let pin2 = card_codes::count_of(card.counts, Code::PIN2);
    writeln!(text, "unblocking {pin1} {pin2}")
}

fn put_loaded<W: Write>(text: &mut W, image: &[u8]) -> io::Result<()> {
    let loaded = image::load(image);
    match loaded.result {
        Ok(()) => put_card(text, &loaded.card),
        Err(fault) => writeln!(text, "{}", u8::from(fault)),
    }
}

// Puts the text of an image to the front of a room, and answers how long it is: at most 2,333 characters.
fn put_text(image: &[u8], text: &mut [u8; 4096]) -> usize {
    let room = text.len();
    let mut rest = &mut text[..];
    let _ = put_loaded(&mut rest, image);
    room.saturating_sub(rest.len())
}

fn main(rt: HostRuntime) {
    let _ = image_input::answer(
        &rt,
        &mut rt.stdin(),
        &mut rt.stdout(),
        &mut rt.stderr(),
        b"usage: load_image (it takes no arguments; an image is read from standard input)\n",
        put_text,
    );
}
