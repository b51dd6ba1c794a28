// The program: a script of the test bench on standard input, its recording on standard output. What the run answers is the exit status.
#![tactic(auto)]

use std::process::ExitCode;
use window::Source;

fn main(rt: HostRuntime) -> ExitCode {
    let input = Source::Input(rt.stdin());
    window::exit(transmit_run::run(b"transmit", &input))
}
