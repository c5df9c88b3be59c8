#![tactic(auto)]

// Document 01's transcript program: lines in, one line out for each.
use requests::Dialect;

fn main(rt: HostRuntime) {
    let _ = line_programs::answer(
        &rt,
        &mut rt.stdin(),
        &mut rt.stdout(),
        &mut rt.stderr(),
        b"usage: transcript (it takes no arguments; lines are read from standard input)\n",
        Dialect::Transcript,
    );
}
