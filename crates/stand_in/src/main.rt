#![tactic(auto)]

// The stand-in: the transcript program's lines, and lines for an image, the certificates and the answer buffer.
use requests::Dialect;

fn main(rt: HostRuntime) {
    let _ = line_programs::answer(
        &rt,
        &mut rt.stdin(),
        &mut rt.stdout(),
        &mut rt.stderr(),
        b"usage: stand_in (it takes no arguments; lines are read from standard input)\n",
        Dialect::StandIn,
    );
}
