// The program: a stream on standard input, of the kind and with the t that its words tell, its listing on standard output. What the run
// answers is the exit status. decode's twin for streams: a program that lists recordings alone is the faster for it.
#![tactic(auto)]

use std::process::ExitCode;
use window::Source;

fn main(rt: HostRuntime) -> ExitCode {
    if !inputs::has_word(&rt, 1) {
        inputs::tell(b"decode");
        return window::exit(window::BROKEN);
    }
    if inputs::refused(&rt, b"decode", 1) {
        return window::exit(window::BROKEN);
    }
    let input = Source::Input(rt.stdin());
    window::exit(decode_run::run_stream(b"decode", &input, inputs::by_words(&rt, 1)))
}
