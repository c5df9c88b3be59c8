#![tactic(auto)]

// What an image that is loaded and written again gives: the same image, or its load number.
ghost use Rattle.std.specs.Prelude.{◌≡◌, true};
ghost use Rattle.writing.specs.Puts.{Put};
ghost use Rattle.rules.specs.Numbers.{fault_number};
ghost use Rattle.rules.specs.State.{good};
ghost use Rattle.rules.specs.Writer.{image_of};
ghost use Rattle.rewriting.specs.Rewriting.{number_text, rewritten};

use rules::{Card, Fault};

// A load number and a line end.
fn put_number(text: &mut [u8], fault: Fault) -> usize
    ensures { Put text.old 0 (number_text (fault_number fault)) text.new result }
{
    let n = u8::from(fault);
    // By hand: std says nothing of the bytes that `write!` leaves in a slice, and `Put` names them.
    let line = [b'0' + n / 10, b'0' + n % 10, b'\n'];
    writing::put(text, 0, &line)
}

// The image of a good card.
fn put_image(text: &mut [u8; 1119], card: &Card) -> usize
    requires { good card.now ≡ true }
    ensures { Put text.old 0 (image_of card.now) text.new result }
{
    image_writer::write(card, text).unwrap_or(0)
}

// An image, loaded and written to the front of the text; or its load number. Answers the place behind it.
pub fn rewrite(image: &[u8], text: &mut [u8; 1119]) -> usize
    ensures { Put text.old 0 (rewritten image.now) text.new result }
{
    let loaded = image::load(image);
    match loaded.result {
        Ok(()) => put_image(text, &loaded.card),
        Err(fault) => put_number(text, fault),
    }
}
