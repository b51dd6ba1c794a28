// The program: the words IMAGE and greymap or lines, and then those that name the input on standard input: an image of it as a greymap, or
// its line numbers, on standard output. What the run answers is the exit status.
#![tactic(auto)]

use std::process::ExitCode;
use window::Source;

fn main(rt: HostRuntime) -> ExitCode {
    if inputs::refused(&rt, b"picture", 3) {
        return window::exit(window::BROKEN);
    }
    let mut image = io::buffer();
    let mut form = io::buffer();
    let i = inputs::word(&rt, 1, &mut image);
    let f = inputs::word(&rt, 2, &mut form);
    let lines = octets::same(octets::part(&form, 0, f), b"lines");
    let input = Source::Input(rt.stdin());
    window::exit(picture_run::run(
        b"picture",
        octets::part(&image, 0, i),
        lines,
        &input,
        inputs::by_words(&rt, 3),
    ))
}
