// The program: the word text or csv, and then those that name the input on standard input: the counts of it, as text or as CSV, on standard
// output. What the run answers is the exit status.
#![tactic(auto)]

use std::process::ExitCode;
use window::Source;

fn main(rt: HostRuntime) -> ExitCode {
    if inputs::refused(&rt, b"summary", 2) {
        return window::exit(window::BROKEN);
    }
    let mut form = io::buffer();
    let f = inputs::word(&rt, 1, &mut form);
    let csv = octets::same(octets::part(&form, 0, f), b"csv");
    let input = Source::Input(rt.stdin());
    window::exit(summary_run::run(csv, &input, inputs::by_words(&rt, 2)))
}
