// The program: the layouts in the file of its first word, and what comes on standard input, a recording or what its further words name; its
// readings on standard output. What the run answers is the exit status.
#![tactic(auto)]

use std::process::ExitCode;
use window::Source;

fn main(rt: HostRuntime) -> ExitCode {
    let mut path = io::buffer();
    let n = inputs::word(&rt, 1, &mut path);
    if inputs::refused(&rt, b"readings", 2) {
        return window::exit(window::BROKEN);
    }
    let input = Source::Input(rt.stdin());
    window::exit(readings_run::run(
        &rt,
        b"readings",
        octets::part(&path, 0, n),
        &input,
        inputs::by_words(&rt, 2),
    ))
}
