#![tactic(auto)]

// A line of the two line programs: what an input line asks for is done, and answered by a line of output. Every public function takes
// every input.
ghost use Rattle.requests.specs.Meanings.{meant};
ghost use Rattle.lines.specs.Lines.{line_answer, answer_line};
ghost use Rattle.lines.specs.Terminals.{setup_of, Answers};

mod kept;

pub use kept::Kept;
use requests::{Dialect, Meaning};
use rules::Card;

// What a program holds between two lines: the card, the certificates that it lends, and the size of the answer buffer.
#[derive(Clone, Copy)]
pub struct Terminal {
    pub card: Card,
    pub authentication: Kept<2048>,
    pub signature: Kept<2048>,
    pub buffer: usize,
}

// Does what a line asks for, whose bytes stand at the front of the room, and answers it.
fn done(
    dialect: Dialect,
    meaning: Meaning,
    room: &[u8; 2048],
    terminal: &mut Terminal,
    output: &mut [u8],
    at: usize,
) -> usize
    ensures { Answers (line_answer dialect (setup_of terminal.old) (meant meaning room.now)) terminal.old output.old at terminal.new output.new result }
{
    terminal.authentication.fit();
    terminal.signature.fit();
    let mut space = arrays::blank::<4096>();
    let buffer = &mut space[..terminal.buffer.min(4096)];
    match meaning {
        Meaning::Reset => {
            let reply = card::power_reset(&mut terminal.card);
            line_texts::put_line(dialect, reply, b"", output, at)
        }
        Meaning::Command(n) => {
            let reply = card::command(
                &mut terminal.card,
                octets::part(room, 0, n),
                terminal.authentication.held(),
                terminal.signature.held(),
                buffer,
            );
            line_texts::put_line(dialect, reply, buffer, output, at)
        }
        Meaning::Delivery(n) => {
            let reply = card::delivery(&mut terminal.card, octets::part(room, 0, n), buffer);
            line_texts::put_line(dialect, reply, buffer, output, at)
        }
        Meaning::Image(n) => {
            let loaded = image::load(octets::part(room, 0, n));
            terminal.card = loaded.card;
            line_texts::put_load(loaded.result, output, at)
        }
        Meaning::Saving => {
            let result = image_writer::write(&terminal.card, buffer);
            line_texts::put_saved(result, buffer, output, at)
        }
        Meaning::Authentication(n) => {
            terminal.authentication.hold(octets::part(room, 0, n));
            writing::put(output, at, b"A\n")
        }
        Meaning::Signature(n) => {
            terminal.signature.hold(octets::part(room, 0, n));
            writing::put(output, at, b"S\n")
        }
        Meaning::Buffer(n) => {
            terminal.buffer = n;
            writing::put(output, at, b"B\n")
        }
        Meaning::Other => writing::put(output, at, b"?\n"),
    }
}

// A line answered: its line of output stands in `output` from index `at` on, as much of it as fits; the place behind it is the result.
pub fn answer(
    dialect: Dialect,
    terminal: &mut Terminal,
    line: &[u8],
    output: &mut [u8],
    at: usize,
) -> usize
    ensures { Answers (answer_line dialect (setup_of terminal.old) line.now) terminal.old output.old at terminal.new output.new result }
{
    let mut room = arrays::blank::<2048>();
    let meaning = requests::asked(dialect, line, &mut room);
    done(dialect, meaning, &room, terminal, output, at)
}
