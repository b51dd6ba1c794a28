// The program: a recording on standard input, its listing on standard output. What the run answers is the exit status.
#![tactic(auto)]

use std::process::ExitCode;
use window::Source;

fn main(rt: HostRuntime) -> ExitCode {
    let input = Source::Input(rt.stdin());
    window::exit(decode_run::run(b"decode", &input))
}
