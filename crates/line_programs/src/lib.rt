#![tactic(auto)]

// The line programs: standard input read, answered and written to standard output.
pub mod certificates;

ghost use Rattle.std.specs.Prelude.{◌*◌, ◌<◌, ◌≤◌, [], IfErr, IfOk, length, take};
ghost use Rattle.std.specs.Io.KnownBytes.{Appends};
ghost use Rattle.transcripts.specs.Transcript.{finished, run, most_text};
ghost use Rattle.transcripts.specs.Consoles.{program_of, Holds};
ghost use Rattle.line_programs.specs.Programs.{LendsBytes, Written, SomeRead, RanFrom, Ran};

use certificates::{AUTHENTICATION, SIGNATURE};
use requests::Dialect;
use std::io::{Read, Write};
use std::rt::Env;
use streams::{Failure, Given};
use transcripts::Console;

// Why a line program stopped before all was read, answered and written: a reading failed, and what came before is answered; a writing
// failed, of an answer or a flush; or one at the end of the input, where a line that it left open is answered.
#[derive(Clone, Copy, Debug, PartialEq, Eq)]
pub enum Stop {
    NotRead,
    NotWritten,
    EndNotWritten,
}

// The program where it stopped, and why it did before the end.
#[derive(Clone, Copy)]
pub struct Stopped {
    pub console: Console,
    pub outcome: Result<(), Stop>,
}

// Writes the front of the output; where that fails, it is said. The three streams are parameters of their own, here and below, and no
// struct: what a function is not given it leaves as it was, and no clause has to say so.
fn written<W: Write, E: Write>(
    stdout: &mut W,
    stderr: &mut E,
    output: &[u8],
    n: usize,
) -> Result<(), Failure>
    ensures { Written (take n output.now) (W.contents stdout.old) (W.contents stdout.new) result }
{
    let outcome = streams::write_all(stdout, octets::part(output, 0, n));
    streams::written_or_said(stderr, outcome)
}

// Flushes the output where there is nothing to write; where that fails, it is said.
fn flushed<W: Write, E: Write>(stdout: &mut W, stderr: &mut E) -> Result<(), Failure>
    ensures { Appends (W.contents stdout.old) (W.contents stdout.new) [] }
{
    let outcome = streams::write_all(stdout, b"");
    streams::written_or_said(stderr, outcome)
}

// How many bytes a program reads at once. Each gives at most 518 characters, or 2,238 of the stand-in (`ShortOutput`), so that 524,288
// hold all. No method of Dialect, since its clause speaks of the transcript's text, above that crate.
fn at_once(dialect: Dialect) -> usize
    ensures fits { most_text dialect * result ≤ 524288 }
    ensures some { 0 < result }
    ensures room { result ≤ 1006 }
{
    match dialect {
        Dialect::Transcript => 1006,
        Dialect::StandIn => 234,
    }
}

// Answers some of the input. That the certificates are bytes and that the output has room is asked here and below, and no type's
// invariant, since the functions of `transcripts` take every console and every output.
fn answer_some<W: Write, E: Write>(
    dialect: Dialect,
    console: &mut Console,
    input: &[u8],
    stdout: &mut W,
    stderr: &mut E,
    output: &mut [u8],
) -> Result<(), Failure>
    requires bytes { LendsBytes (program_of dialect console.old) }
    requires few { most_text dialect * length input.now ≤ 524288 }
    requires room { 524288 ≤ length output.old }
    ensures held { Holds (run dialect (program_of dialect console.old) input.now).program console.new }
    ensures written { Written (run dialect (program_of dialect console.old) input.now).text (W.contents stdout.old) (W.contents stdout.new) result }
{
    let n = transcripts::read(dialect, console, input, output);
    written(stdout, stderr, output, n)
}

// Answers a line that the end of the input left open: two lines, as above, of which one is another call.
fn finish<W: Write, E: Write>(
    dialect: Dialect,
    console: &mut Console,
    stdout: &mut W,
    stderr: &mut E,
    output: &mut [u8],
) -> Result<(), Failure>
    requires bytes { LendsBytes (program_of dialect console.old) }
    requires room { 524288 ≤ length output.old }
    ensures held { Holds (finished dialect (program_of dialect console.old)).program console.new }
    ensures written { Written (finished dialect (program_of dialect console.old)).text (W.contents stdout.old) (W.contents stdout.new) result }
{
    let n = transcripts::finish(dialect, console, output);
    written(stdout, stderr, output, n)
}

// Answers the input up to its end. A proved loop has to end, and nothing says that the input does: so the loop has a number of turns that
// no run uses up, and behind them there is more to read.
fn read_all<R: Read, W: Write, E: Write>(
    dialect: Dialect,
    console: &mut Console,
    stdin: &mut R,
    stdout: &mut W,
    stderr: &mut E,
    input: &mut [u8],
    output: &mut [u8],
) -> Result<(), Stop>
    requires held { Holds (program_of dialect console.old) console.old }
    requires bytes { LendsBytes (program_of dialect console.old) }
    requires few { most_text dialect * length input.old ≤ 524288 }
    requires some { 0 < length input.old }
    requires room { 524288 ≤ length output.old }
    ensures { SomeRead dialect (program_of dialect console.old) (R.remaining stdin.old) (R.remaining stdin.new) (W.contents stdout.old) (W.contents stdout.new) console.new result }
{
    for _ in 0..u64::MAX {
        match streams::read(stdin, stderr, input) {
            Ok(0) => {
                let _ = flushed(stdout, stderr);
                return Ok(());
            }
            Ok(n) => {
                let sent = answer_some(dialect, console, &input[..n], stdout, stderr, output);
                if sent.is_err() {
                    return Err(Stop::NotWritten);
                }
            }
            Err(why) => {
                let outcome = flushed(stdout, stderr);
                if outcome.is_err() {
                    return Err(Stop::NotWritten);
                }
                if why.reads_on() {
                    continue;
                }
                return Err(Stop::NotRead);
            }
        }
    }
    Err(Stop::NotRead)
}

// Answers standard input from a program on, to where it stops.
fn answer_all<R: Read, W: Write, E: Write>(
    dialect: Dialect,
    console: &mut Console,
    stdin: &mut R,
    stdout: &mut W,
    stderr: &mut E,
    input: &mut [u8; 1006],
    output: &mut [u8; 524288],
) -> Result<(), Stop>
    requires held { Holds (program_of dialect console.old) console.old }
    requires bytes { LendsBytes (program_of dialect console.old) }
    ensures { RanFrom dialect (program_of dialect console.old) (R.remaining stdin.old) (R.remaining stdin.new) (W.contents stdout.old) (W.contents stdout.new) console.new result }
{
    let most = at_once(dialect);
    read_all(
        dialect,
        console,
        stdin,
        stdout,
        stderr,
        &mut input[..most],
        output,
    )?;
    finish(dialect, console, stdout, stderr, output).map_err(|_| Stop::EndNotWritten)
}

// Answers standard input, from the sample card on, with the authentication certificate first and the signature certificate second
// (of each at most 2,048 bytes).
pub fn run<R: Read, W: Write, E: Write>(
    dialect: Dialect,
    stdin: &mut R,
    stdout: &mut W,
    stderr: &mut E,
    first: &[u8],
    second: &[u8],
) -> Stopped
    ensures { Ran dialect (take 2048 first.now) (take 2048 second.now) (R.remaining stdin.old) (R.remaining stdin.new) (W.contents stdout.old) (W.contents stdout.new) result }
{
    let mut console = transcripts::begin(dialect, first, second);
    let mut input = [0u8; 1006];
    let mut output = [0u8; 524288];
    let outcome = answer_all(
        dialect,
        &mut console,
        stdin,
        stdout,
        stderr,
        &mut input,
        &mut output,
    );
    Stopped { console, outcome }
}

// A line program, which takes no arguments: answers standard input, with the two certificates of source document 003.
pub fn answer<V: Env, R: Read, W: Write, E: Write>(
    rt: &V,
    stdin: &mut R,
    stdout: &mut W,
    stderr: &mut E,
    usage: &[u8],
    dialect: Dialect,
) -> Result<Stopped, Given>
    ensures given { IfErr result (λ given. 1 < given.count) }
    ensures ran { IfOk result (Ran dialect (take 2048 AUTHENTICATION) (take 2048 SIGNATURE) (R.remaining stdin.old) (R.remaining stdin.new) (W.contents stdout.old) (W.contents stdout.new)) }
{
    streams::arguments_given(rt, stderr, usage)?;
    Ok(run(dialect, stdin, stdout, stderr, &AUTHENTICATION, &SIGNATURE))
}
