// The program: a training table, the file of its first word, against the input that its further words name, on standard input; the verdict
// on standard output. What the run answers is the exit status.
#![tactic(auto)]

use std::process::ExitCode;
use window::Source;

fn main(rt: HostRuntime) -> ExitCode {
    if inputs::refused(&rt, b"audit", 2) {
        return window::exit(window::BROKEN);
    }
    let mut path = io::buffer();
    let n = inputs::word(&rt, 1, &mut path);
    let input = Source::Input(rt.stdin());
    window::exit(audit_run::run(
        &rt,
        b"audit",
        octets::part(&path, 0, n),
        &input,
        inputs::by_words(&rt, 2),
    ))
}
