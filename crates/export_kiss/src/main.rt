// The program: a recording on standard input, its accepted frames as a KISS stream on standard output, with the word both 0xC0 before each
// frame as well as behind it. What the run answers is the exit status.
#![tactic(auto)]

use std::process::ExitCode;
use window::Source;

fn main(rt: HostRuntime) -> ExitCode {
    let mut word = [0u8; 8];
    let n = inputs::word(&rt, 1, &mut word);
    let both = octets::same(octets::part(&word, 0, n), b"both");
    let input = Source::Input(rt.stdin());
    window::exit(export_kiss_run::run(b"export-kiss", &input, both))
}
