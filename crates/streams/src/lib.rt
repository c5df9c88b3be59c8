#![tactic(auto)]

// Standard input read, and what the programs say on standard error, a line each. No contract can say which bytes the system reads or
// writes (docs/DECISIONS.md); what follows from its answers is stated, and which bytes came or went where a reader or a writer knows
// them, as one over memory does.
ghost use Rattle.std.specs.Prelude.{◌≡◌, ◌↔◌, OnErr, OnOk};
ghost use Rattle.std.specs.IoError.{error_kind};
ghost use Rattle.std.specs.Io.{ReadsAtMost};
ghost use Rattle.std.specs.Io.KnownBytes.{Appends, ReadConsumes};
ghost use Rattle.streams.specs.Streams.{AppendsFront, reads_on, counted, arguments_for, written_for};

use std::env::FillError;
use std::io;
use std::io::{ErrorKind, Read, Write};
use std::rt::Env;

// Why nothing was read or not all was written: a signal interrupted the reading, so that it can be made again; or it failed, and that
// was said.
#[derive(Clone, Copy, Debug, PartialEq, Eq)]
pub enum Failure {
    Interrupted,
    Said,
}

impl Failure {
    // Whether to read on after a reading that failed.
    pub fn reads_on(self) -> bool
        ensures { result ≡ reads_on self }
    {
        match self {
            Failure::Interrupted => true,
            Failure::Said => false,
        }
    }
}

// More arguments than a program takes: how many the system says that there are, the program's name among them.
#[derive(Clone, Copy, Debug, PartialEq, Eq)]
pub struct Given {
    pub count: usize,
}

// Reads standard input once. The bytes that came are the first of the room; where it has any, none come at the end of the input alone.
pub fn read<R: Read, E: Write>(
    stdin: &mut R,
    stderr: &mut E,
    room: &mut [u8],
) -> Result<usize, Failure>
    ensures bound { ReadsAtMost result room.new }
    ensures bytes { ReadConsumes (R.remaining stdin.old) (R.remaining stdin.new) result room.new }
{
    stdin.read(room).map_err(|why| read_failure(stderr, why))
}

// Why a reading failed. It is said, unless a signal interrupted the reading.
fn read_failure<E: Write>(stderr: &mut E, why: io::Error) -> Failure
    ensures { (result ≡ Failure.Interrupted) ↔ (error_kind why ≡ ErrorKind.Interrupted) }
{
    if why.kind() == ErrorKind::Interrupted {
        return Failure::Interrupted;
    }
    say(stderr, b"cannot read standard input", why);
    Failure::Said
}

// Writes all of the text, or stops at the first write that takes nothing or fails, when some of it may have been written. A write that a
// signal interrupted has failed (docs/DECISIONS.md), where std's `write_all` would make it again.
pub fn write_all<W: Write>(output: &mut W, text: &[u8]) -> io::Result<()>
    ensures all { OnOk result (Appends (W.contents output.old) (W.contents output.new) text.now) }
    ensures front { OnErr result (AppendsFront (W.contents output.old) (W.contents output.new) text.now) }
{
    let mut rest = text;
    while !rest.is_empty() {
        match output.write(rest)? {
            0 => return Err(io::Error::from(ErrorKind::WriteZero)),
            n => rest = &rest[n..],
        }
    }
    output.flush()
}

// Takes whether all was written to standard output, and says it where not.
pub fn written_or_said<E: Write>(stderr: &mut E, outcome: io::Result<()>) -> Result<(), Failure>
    ensures { result ≡ written_for outcome }
{
    match outcome {
        Ok(()) => Ok(()),
        Err(why) => {
            say(stderr, b"cannot write to standard output", why);
            Err(Failure::Said)
        }
    }
}

// How many arguments the program was started with, its own name among them.
fn argument_count(rt: &impl Env) -> usize {
    (0..usize::MAX)
        .take_while(|i| !matches!(rt.arg(*i, &mut []), Err(FillError::NotPresent)))
        .count()
}

// Takes how many arguments a program was given that takes none but its name; where it was given more, its use is said.
pub fn without_arguments<E: Write>(
    stderr: &mut E,
    count: usize,
    usage: &[u8],
) -> Result<usize, Given>
    ensures { result ≡ arguments_for count }
{
    if 1 < count {
        let _ = write_all(stderr, usage);
        return Err(Given { count });
    }
    Ok(count)
}

// Asks the system for the program's arguments; where it was given any beside its name, its use is said.
pub fn arguments_given<V: Env, E: Write>(
    rt: &V,
    stderr: &mut E,
    usage: &[u8],
) -> Result<usize, Given>
    ensures { result ≡ arguments_for (counted result) }
{
    let count = argument_count(rt);
    without_arguments(stderr, count, usage)?;
    Ok(count)
}

// Writes a line: what failed, a colon and the system's words for why. Where that fails too, there is nobody to tell.
fn say<E: Write>(stderr: &mut E, what: &[u8], why: io::Error) {
    let mut text = [0u8; 256];
    let mut rest = &mut text[..];
    let _ = write!(rest, "{why}");
    let len = 256usize.saturating_sub(rest.len());
    for piece in [what, b": ", words(&text[..len]), b"\n"] {
        let _ = write_all(stderr, piece);
    }
}

// An error's text without the system's number for it, as in `Is a directory (os error 21)`.
fn words(text: &[u8]) -> &[u8] {
    let number = b" (os error ";
    (0..text.len())
        .rev()
        .filter_map(|end| text.split_at_checked(end))
        .find(|(_, rest)| rest.starts_with(number))
        .map_or(text, |(words, _)| words)
}
