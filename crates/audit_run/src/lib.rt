// Checks a training table, a file, against a recording or a stream that comes by a descriptor, and writes the verdict as one line.
//
// Crate table says what the verdict is. The file is opened once and read twice: first for its form, then its rows beside the packets.
#![tactic(auto)]

ghost use Rattle.std.specs.Prelude.{◌≤◌, ◌≡◌, length, take};
ghost use Rattle.session.specs.Lent.{lent};
ghost use Rattle.audit_line.specs.Text.{longest_verdict, verdict_line};
ghost use Rattle.audit_run.specs.Loop.{Looped};
ghost use Rattle.audit_run.specs.Told.{first_status, standing, Tells, Ends};

use audit_form::Formed;
use audit_turns::State;
use receiver::Receiver;
use session::Session;
use std::io::{Error, Result};
use stretch::KEPT;
use table::{Check, Verdict};
use window::{Source, Written};

// Standard error's descriptor.
const STDERR_FILENO: i32 = 2;

// The most turns.
const TURNS: u64 = 18446744073709551615;

// Where the second reading stopped, and after how many turns.
#[derive(Clone, Copy)]
struct Stopped {
    state: State,
    made: u64,
}

// Checks the table in the file at path against what a fresh receiver hands out of the descriptor source, writes one line to standard
// output,
// and answers the program's exit status. What fails, and why a recording is bad, is told on standard error, behind the program's name.
pub fn run(rt: &HostRuntime, name: &[u8], path: &[u8], source: &Source, receiver: Receiver) -> i32 {
    match window::open(rt, path) {
        Ok(file) => {
            let table = Source::Named(file);
            readings(name, path, &table, source, receiver)
        }
        Err(why) => {
            complain(name, path, why);
            window::BROKEN
        }
    }
}

// Both readings of the table. One that is badly formed is told before anything of the input is read.
fn readings(name: &[u8], path: &[u8], table: &Source, source: &Source, receiver: Receiver) -> i32 {
    if let Err(why) = readable(table) {
        complain(name, path, why);
        return window::BROKEN;
    }
    let mut buffer = io::large_buffer();
    let mut line = [0u8; audit_line::VERDICT];
    let formed = audit_form::form(name, table, &mut buffer);
    let check = formed.reading.form.end();
    let status = first_status(formed, check);
    if status == window::BROKEN {
        return status;
    }
    if status == window::AGAINST {
        let verdict = check.end(&buffer);
        let told = say(name, &mut line, verdict);
        if told.failed() {
            return window::BROKEN;
        }
        return status;
    }
    if let Err(why) = sought(table, check.start()) {
        complain(name, path, why);
        return window::BROKEN;
    }
    let state = second(name, table, check, source, &mut buffer, receiver);
    let written = told(name, state, &mut line);
    state_status(state, written)
}

// Says on standard error, behind the program's name, that the system failed with the table.
fn complain(name: &[u8], path: &[u8], why: Error) {
    telling::fail(name, path, why);
}

// Reads the table's first octet by its place and without going on from there, which fails with a folder or a pipe.
fn readable(table: &Source) -> Result<usize> {
    table.probe()
}

// Goes to an index of the table, where its rows begin.
fn sought(table: &Source, at: usize) -> Result<u64> {
    table.seek(at as u64)
}

// What the first reading comes to: that it did not reach the file's end, that the table is badly formed, or that its rows are to be read.
fn first_status(formed: Formed, check: Check) -> i32
    ensures { result ≡ first_status formed check }
{
    if formed.reading.going | formed.reading.read.failed() {
        return window::BROKEN;
    }
    if check.formed {
        return window::DONE;
    }
    window::AGAINST
}

// The second reading, with a buffer for the rows: where it stops.
fn second(
    name: &[u8],
    table: &Source,
    check: Check,
    source: &Source,
    buffer: &mut [u8],
    receiver: Receiver,
) -> State {
    let mut input = io::large_buffer();
    let mut kept = [0u8; KEPT];
    let mut octets = [0u8; Session::OCTETS];
    let mut lengths = [0u16; Session::LENGTHS];
    let mut firsts = [0u32; Session::FIRSTS];
    let stopped = rows(
        name,
        table,
        check,
        source,
        &mut input,
        buffer,
        &mut kept,
        &mut octets,
        &mut lengths,
        &mut firsts,
        receiver,
    );
    let state = stopped.state;
    if state.going {
        io::write_all(STDERR_FILENO, name);
        io::write_all(STDERR_FILENO, b": the input has no end\n");
    }
    state
}

// The same with all buffers. After 2^64 - 1 turns it would stop too.
fn rows(
    name: &[u8],
    table: &Source,
    check: Check,
    source: &Source,
    input: &mut [u8],
    buffer: &mut [u8],
    kept: &mut [u8; KEPT],
    octets: &mut [u8],
    lengths: &mut [u16],
    firsts: &mut [u32],
    receiver: Receiver,
) -> Stopped
    ensures { Looped receiver check input.old kept.old
        (lent octets.old lengths.old firsts.old) buffer.old result input.new
        kept.new
        (lent octets.new lengths.new firsts.new) buffer.new }
{
    let mut state = State::fresh(receiver, check);
    for made in 0..TURNS {
        if !state.going {
            return Stopped { state, made };
        }
        state = state.turn(
            name, table, source, input, buffer, kept, octets, lengths, firsts,
        );
    }
    Stopped { state, made: TURNS }
}

// Whether a verdict stands: the input has ended, and no read of the table failed.
fn stands(state: State) -> bool
    ensures { result ≡ standing state }
{
    !state.going & state.ended & !state.audit.read.failed()
}

// Writes the verdict's line, if one stands; what else there is to tell was told.
fn told(name: &[u8], state: State, line: &mut [u8]) -> Written
    requires { longest_verdict ≤ length line.old }
    ensures { Tells state result line.new }
{
    if !stands(state) {
        return Written::none();
    }
    say(name, line, state.audit.verdict)
}

// Writes the line of a verdict.
fn say(name: &[u8], line: &mut [u8], verdict: Verdict) -> Written
    requires { longest_verdict ≤ length line.old }
    ensures { take result.size line.new ≡ verdict_line verdict }
{
    let n = audit_line::line(line, 0, verdict);
    window::write(name, line, n)
}

// The exit status by where the second reading stopped, and what was written then.
fn state_status(state: State, written: Written) -> i32
    ensures { Ends state written.failed result }
{
    if state.going {
        return window::BROKEN;
    }
    if !state.ended {
        if state.read.failed() {
            return window::BROKEN;
        }
        return window::AGAINST;
    }
    if state.audit.read.failed() {
        return window::BROKEN;
    }
    if written.failed() {
        return window::BROKEN;
    }
    match state.audit.verdict {
        Verdict::Passes => window::DONE,
        Verdict::Faulty { .. } => window::AGAINST,
    }
}
