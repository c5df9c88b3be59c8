#![tactic(auto)]

// A card image read byte by byte. A reader holds the image and a position in it; `byte_at`, which takes a plain slice, does the
// work. A contract sees a reader as the bytes that are left.
ghost use Rattle.std.specs.Prelude.{◌≡◌, ℕ, List, drop, slice_get, take};
ghost use Rattle.std.specs.Iterator.{YieldsFirst, item_count};
ghost use Rattle.image_reader.specs.Reading.{standing, place_after};

use std::marker::Model;

#[derive(Drop)]
pub struct Reader<'a> {
    image: &'a [u8],
    at: usize,
}

impl<'a> Model for Reader<'a> {
    ghost Value = { List ℕ };

    ghost view = { λ r. drop r.at r.image.now };
}

// What stands at a position, and the place after it.
#[derive(Clone, Copy)]
pub struct Found {
    pub next: Option<u8>,
    pub place: usize,
}

// The byte at a position, if the image has one there.
fn byte_at(image: &[u8], at: usize) -> Option<u8>
    ensures { result ≡ slice_get image.now at }
{
    image.get(at).copied()
}

// What an image has at a position, and the place after it; at the end the place stays.
pub fn read_at(image: &[u8], at: usize) -> Found
    ensures { ◌≡◌ {A = List ℕ × ℕ} (standing result.next, result.place) (take 1 (drop at image.now), place_after image.now at) }
{
    match byte_at(image, at) {
        Some(byte) => Found {
            next: Some(byte),
            place: at + 1,
        },
        None => Found {
            next: None,
            place: at,
        },
    }
}

impl<'a> Reader<'a> {
    // A reader at the front of an image.
    pub fn new(image: &'a [u8]) -> Reader<'a>
        ensures { result ≡ image.now }
    {
        Reader { image, at: 0 }
    }

    // A reader of an image at a position; past the end nothing is left.
    pub fn at(image: &'a [u8], at: usize) -> Reader<'a>
        ensures { result ≡ drop at image.now }
    {
        Reader { image, at }
    }
}

impl<'a> Iterator for Reader<'a> {
    type Item = u8;

    ghost next_gives = { YieldsFirst (λ left. left) };

    ghost remaining = { item_count (λ left. left) };

    // The next byte, and the reader behind it; at the end nothing.
    fn next(&mut self) -> Option<u8> {
        let byte = byte_at(self.image, self.at)?;
        self.at += 1;
        Some(byte)
    }
}
