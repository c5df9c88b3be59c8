#![tactic(auto)]

// The input of the line programs, answered line by line.
ghost use Rattle.std.specs.Prelude.{◌≡◌, take, position, ◌==◌};
ghost use Rattle.requests.specs.Requests.{line_feed};
ghost use Rattle.transcripts.specs.Transcript.{run, finished, start, first_buffer, at_line_end};
ghost use Rattle.transcripts.specs.Consoles.{program_of, with_more, Holds, EndsLine, Reads};

use lines::{Kept, Terminal};
use requests::Dialect;

// A program between two characters: the terminal, and what has come of the line. Which program it is, is told beside it, here and in
// `lines`, as the rules do: it is no part of what a line changes.
#[derive(Clone, Copy)]
pub struct Console {
    pub terminal: Terminal,
    pub line: Kept<4097>,
}

// Where the first line ends.
fn line_end(s: &[u8]) -> Option<usize>
    ensures { result ≡ position (λ c. c == line_feed) s.now }
{
    s.iter().position(|c| *c == b'\n')
}

// A line whose last characters have come is answered, and the next one is empty.
fn end_line(
    dialect: Dialect,
    console: &mut Console,
    last: &[u8],
    output: &mut [u8],
    at: usize,
) -> usize
    ensures { EndsLine (at_line_end dialect (with_more dialect (program_of dialect console.old) last.now)) output.old at (program_of dialect console.new) output.new result }
{
    console.line.add(last, dialect.most());
    let end = lines::answer(
        dialect,
        &mut console.terminal,
        console.line.held(),
        output,
        at,
    );
    console.line.len = 0;
    end
}

// Input read and answered line by line; what fits of the output stands at the front of the buffer, and the result says how much that is.
pub fn read(dialect: Dialect, console: &mut Console, input: &[u8], output: &mut [u8]) -> usize
    ensures { Reads (run dialect (program_of dialect console.old) input.now) output.old console.new output.new result }
{
    let mut rest = input;
    let mut written = 0;
    while let Some(n) = line_end(rest) {
        written = end_line(dialect, console, &rest[..n], output, written);
        rest = &rest[n + 1..];
    }
    console.line.add(rest, dialect.most());
    console.line.tidy();
    console.terminal.authentication.tidy();
    console.terminal.signature.tidy();
    written
}

// The end of the input: a last line that did not end in a line feed is answered.
pub fn finish(dialect: Dialect, console: &mut Console, output: &mut [u8]) -> usize
    ensures { Reads (finished dialect (program_of dialect console.old)) output.old console.new output.new result }
{
    if console.line.held().is_empty() {
        return read(dialect, console, b"", output);
    }
    read(dialect, console, b"\n", output)
}

// The answer buffer at the start. No method of Dialect, since its definition is the rule book's, in Transcript.antt above that crate.
fn first_buffer(dialect: Dialect) -> usize
    ensures { result ≡ first_buffer dialect }
{
    match dialect {
        Dialect::Transcript => 258,
        Dialect::StandIn => 4096,
    }
}

// The program as it starts: the sample card, these certificates (of each at most 2,048 bytes), and no character read.
pub fn begin(dialect: Dialect, first: &[u8], second: &[u8]) -> Console
    ensures { Holds (start dialect (take 2048 first.now) (take 2048 second.now)) result }
{
    let loaded = image::load(
        b"\x03\x0812345678\x03\x041234\x03\x0512345\x03\x02\x01\x00\x11\x00\
        \x15\x00\x00\x00\x00\x00\x00\x00\x00\x00\x11\x00\x00\x00\x00\x00\x00\x00\x00\x00\x01\x00\
        \x10\x01\x20\x01\x20\x01\x20\x01\x20\x01\x20\x01\x20\x01\x20\x01\x20\
        \x01\x20\x01\x20\x01\x20\x01\x20\x01\x20\x01\x20\x01\x20\x01\x20",
    );
    Console {
        terminal: Terminal {
            card: loaded.card,
            authentication: Kept::new(first),
            signature: Kept::new(second),
            buffer: first_buffer(dialect),
        },
        line: Kept::new(b""),
    }
}
