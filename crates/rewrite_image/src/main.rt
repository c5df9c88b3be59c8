#![tactic(auto)]

// Reads a card image and writes it again, or its load number and a line end.
fn main(rt: HostRuntime) {
    let _ = image_input::answer(
        &rt,
        &mut rt.stdin(),
        &mut rt.stdout(),
        &mut rt.stderr(),
        b"usage: rewrite_image (it takes no arguments; an image is read from standard input)\n",
        rewriting::rewrite,
    );
}
