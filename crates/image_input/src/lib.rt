#![tactic(auto)]

// A card image read from standard input, never more of it than its room holds, and the text of it that a program writes. No contract can
// say which bytes the system brings (docs/DECISIONS.md); what follows from its answers is stated, and which bytes came and went where the
// reader and the writer know them.
ghost use Rattle.std.specs.Prelude.{◌≡◌, ◌<◌, ◌≤◌, IfErr, IfOk, OnSome, length, take};
ghost use Rattle.std.specs.Io.KnownBytes.{Consumes, IsAtEnd};
ghost use Rattle.image_input.specs.ImageInput.{came, Answered};

use std::convert::AsSlice;
use std::io::{Read, Write};
use std::rt::Env;

// The input was not read to its end: how many bytes came.
#[derive(Clone, Copy, Debug, PartialEq, Eq)]
pub struct Unfinished {
    pub len: usize,
}

// Reads until the input ends, a reading fails or the room is full; a line program answers what came instead, turn by turn. A room that is
// full was read, whatever its last reading says: an empty one is read once. A proved loop has to end, and nothing says that the input
// does: so the loop has a number of turns that no run uses up, and behind them the input has not ended.
pub fn read_image<R: Read, E: Write>(
    stdin: &mut R,
    stderr: &mut E,
    image: &mut [u8],
) -> Result<usize, Unfinished>
    ensures fits { came result ≤ length image.old }
    ensures bytes { Consumes (R.remaining stdin.old) (R.remaining stdin.new) (take (came result) image.new) }
    ensures short { IfErr result (λ unfinished. unfinished.len < length image.old) }
    ensures end { IfOk result (λ len. len < length image.old → IsAtEnd (R.remaining stdin.new)) }
{
    let mut len = 0;
    for _ in 0..u64::MAX {
        match streams::read(stdin, stderr, &mut image[len..]) {
            Ok(0) => return Ok(len),
            Ok(n) => {
                len += n;
                if len == image.len() {
                    return Ok(len);
                }
            }
            Err(_) if len == image.len() => return Ok(len),
            Err(why) => {
                if why.reads_on() {
                    continue;
                }
                return Err(Unfinished { len });
            }
        }
    }
    Err(Unfinished { len })
}

// The first bytes of a room, as many as are asked for, or all.
fn front<T: AsSlice<u8>>(room: &T, end: usize) -> &[u8]
    ensures { result.now ≡ take end (T.items room.now) }
{
    let bytes = room.as_slice();
    bytes.get(..end).unwrap_or(bytes)
}

// A program that makes a text of a card image and takes no arguments: reads the image, and writes the front of a room that the text was
// put into. The type that `put_text` takes says how large the room is, as `[u8; 1119]`. Some where all of the text was written; what
// failed else was said, and nobody asks for it. What stands past 1,119 bytes of an image changes nothing (`FirstBytes` and `Rewrites`,
// field `enough`).
pub fn answer<
    V: Env,
    R: Read,
    W: Write,
    E: Write,
    T: AsSlice<u8> + Default + Drop,
    F: FnOnce(&[u8], &mut T) -> usize,
>(rt: &V, stdin: &mut R, stdout: &mut W, stderr: &mut E, usage: &[u8], put_text: F) -> Option<()>
    requires { F.IsAlwaysCallable put_text }
    ensures { OnSome result (Answered T.is_default T.items F.FnOnce put_text (R.remaining stdin.old) (R.remaining stdin.new) (W.contents stdout.old) (W.contents stdout.new)) }
{
    streams::arguments_given(rt, stderr, usage).ok()?;
    let mut image = [0u8; 1119];
    let len = read_image(stdin, stderr, &mut image).ok()?;
    let mut room = T::default();
    let end = put_text(&image[..len], &mut room);
    let outcome = streams::write_all(stdout, front(&room, end));
    streams::written_or_said(stderr, outcome).ok()
}

#[cfg(test)]
mod tests {
    use super::*;
    use std::io;
    use std::io::ErrorKind;

    // A reader whose readings fail, and how many there were.
    #[derive(Drop)]
    struct Failing {
        kind: ErrorKind,
        readings: u8,
    }

    impl Read for Failing {
        fn read(&mut self, _room: &mut [u8]) -> io::Result<usize> {
            self.readings = self.readings.saturating_add(1);
            Err(io::Error::from(self.kind))
        }
    }

    // An empty room is full: it is read once, and what that reading answers is no failure of it.
    #[test]
    fn full_room_was_read(rt: HostRuntime) {
        let cases = [
            (ErrorKind::Interrupted, 0, Ok(0)),
            (ErrorKind::ConnectionReset, 0, Ok(0)),
            (ErrorKind::ConnectionReset, 1, Err(Unfinished { len: 0 })),
        ];
        for (kind, size, want) in cases {
            let mut stdin = Failing { kind, readings: 0 };
            let mut image = [0u8; 1];
            let read = read_image(&mut stdin, &mut io::sink(), &mut image[..size]);
            assert_eq!(rt; read, want, "{kind:?} in a room of {size}");
            assert_eq!(rt; stdin.readings, 1, "{kind:?} in a room of {size}");
        }
    }
}
