// Lists a recording or a stream that comes by a descriptor, each frame's lines as soon as the frame is whole.
//
// What is told is listing's. Here is the loop: each turn goes on with the run that the turns before it made, and no octet is read while
// text is unwritten. What the system's read and write did is for them to answer: the state holds what they answered last.
#![tactic(auto)]

ghost use Rattle.std.specs.Prelude.{◌≡◌, ◌≤◌, false, [], length, take};
ghost use Rattle.listing_lines.specs.Text.{header};
ghost use Rattle.window.specs.Window.{Refills};
ghost use Rattle.receiver.specs.Receive.{fresh};
ghost use Rattle.listing.specs.Promised.{room, at_end};
ghost use Rattle.decode_run.specs.Turns.{Left, Turned, failed_in, last_of, none_accepted, status_of, Looped, Ran};

use listing::Stop;
use receiver::Receiver;
use source::Source;
use stretch::KEPT;
use window::{Refilled, Written};

// The most turns: each but the last reads or writes an octet at least.
const TURNS: u64 = 18446744073709551615;

// Where a run stands: the receiver, the input's octets from at up to end, which are read and not yet used, how many the last turn used,
// whether it goes on, whether the recording is bad and that is told, and what the last turn read and wrote.
#[derive(Clone, Copy)]
struct State {
    receiver: Receiver,
    at: usize,
    end: usize,
    used: usize,
    going: bool,
    over: bool,
    read: Refilled,
    written: Written,
}

// Where a run stopped, after how many turns, and what was written at its end.
#[derive(Clone, Copy)]
struct Stopped {
    state: State,
    made: u64,
    last: Written,
}

// Lists the recording that comes by the descriptor source to standard output, and answers the program's exit status. What fails is told on
// standard error, behind the program's name.
pub fn run(name: &[u8], source: &window::Source) -> i32
    ensures { Ran [] fresh result }
{
    let mut input = io::large_buffer();
    let mut out = io::large_buffer();
    let mut kept = [0u8; KEPT];
    let receiver = Receiver::recording();
    let first = Written::none();
    let stopped = turns(
        name, source, receiver, first, &mut input, &mut kept, &mut out,
    );
    status(stopped)
}

// The same of a stream, by a receiver of which nothing is read yet: the header line first.
pub fn run_stream(name: &[u8], source: &window::Source, receiver: Receiver) -> i32
    ensures { Ran header receiver result }
{
    let mut input = io::large_buffer();
    let mut out = io::large_buffer();
    let mut kept = [0u8; KEPT];
    let n = listing_lines::header_line(&mut out, 0);
    let first = emit(name, &out, n);
    let stopped = turns(
        name, source, receiver, first, &mut input, &mut kept, &mut out,
    );
    status(stopped)
}

// The exit status of a run: whether it came to its end with no read and no write failed, and the recording was not bad.
fn status(stopped: Stopped) -> i32
    ensures { result ≡ status_of stopped }
{
    let state = stopped.state;
    if state.going | failed(state) | stopped.last.failed() {
        return window::BROKEN;
    }
    if state.over | state.receiver.source.cut() {
        return window::AGAINST;
    }
    window::DONE
}

// Whether the last read or the last write failed.
fn failed(state: State) -> bool
    ensures { result ≡ failed_in state }
{
    state.read.failed() | state.written.failed()
}

// The whole run of a receiver, with an input and an output buffer, behind a first write. It ends with the input, a bad recording, or a read
// or write that failed; after 2^64 - 1 turns it would end too. A stream whose first octets look like another kind is told so, and listed.
fn turns(
    name: &[u8],
    source: &window::Source,
    receiver: Receiver,
    first: Written,
    input: &mut [u8],
    kept: &mut [u8; KEPT],
    out: &mut [u8],
) -> Stopped
    requires { room ≤ length out.old }
    ensures { Looped receiver first input.old kept.old result input.new kept.new
        out.new }
{
    let read = Refilled::none();
    let mut state = State {
        receiver,
        at: 0,
        end: 0,
        used: 0,
        going: !first.failed(),
        over: false,
        read,
        written: first,
    };
    let mut made = TURNS;
    let mut before = receiver.source;
    let mut from = 0;
    let mut passed: u64 = 0;
    for i in 0..TURNS {
        if !state.going {
            made = i;
            break;
        }
        before = state.receiver.source;
        from = state.at;
        faults::tell_start(name, passed, before, window::hand(input, from, state.end));
        state = turn(name, source, input, kept, out, state);
        passed = std::num::wrapping_add_u64(passed, state.used as u64);
    }
    if state.going {
        return Stopped {
            state,
            made,
            last: Written::none(),
        };
    }
    let last = ended(name, state, before, input, from, passed, out);
    Stopped { state, made, last }
}

// Writes the last line, and says why the recording was bad, or that no frame was accepted: the last turn went on from a source at index
// from
// of the input, and all turns used passed octets. Where a read or a write failed, which was told, nothing more is said.
fn ended(
    name: &[u8],
    state: State,
    first: Source,
    input: &[u8],
    from: usize,
    passed: u64,
    out: &mut [u8],
) -> Written
    requires { room ≤ length out.old }
    ensures { take result.size out.new ≡ last_of state }
{
    if failed(state) {
        return Written::none();
    }
    if state.over {
        let window = window::hand(input, from, state.end);
        faults::tell_over(name, passed, first, window, state.used);
        return Written::none();
    }
    let source = state.receiver.source;
    let last = last_line(name, source, out);
    let window = window::hand(input, state.at, state.end);
    faults::tell(name, passed, source, window);
    doubt(name, state);
    last
}

// Says that no frame was accepted, where that is so: t may be wrong.
fn doubt(name: &[u8], state: State) {
    if none_accepted(state) {
        let receiver = state.receiver;
        faults::tell_none(
            name,
            receiver.session.arrival,
            receiver.source,
            receiver.session.t,
        );
    }
}

// Whether frames arrived and none was accepted, of an input that is not cut.
fn none_accepted(state: State) -> bool
    ensures { result ≡ none_accepted state }
{
    let receiver = state.receiver;
    !receiver.source.cut() & !receiver.session.heard & (receiver.session.arrival != 0)
}

// One turn: what the octets at hand tell is written, and if octets are missing more are read.
fn turn(
    name: &[u8],
    source: &window::Source,
    input: &mut [u8],
    kept: &mut [u8; KEPT],
    out: &mut [u8],
    state: State,
) -> State
    requires { room ≤ length out.old }
    ensures { Turned state input.old kept.old (take result.written.size out.new) result input.new
        kept.new }
{
    let at = state.at;
    let end = state.end;
    let listed = listing::next(state.receiver, window::hand(input, at, end), kept, out);
    let from = at + listed.used;
    let written = emit(name, out, listed.size);
    let read = Refilled::none();
    let mut next = State {
        receiver: listed.receiver,
        at: from,
        end,
        used: listed.used,
        going: true,
        over: false,
        read,
        written,
    };
    if written.failed() {
        next.going = false;
        return next;
    }
    match listed.stop {
        Stop::Full => next,
        Stop::Over => {
            next.going = false;
            next.over = true;
            next
        }
        Stop::Missing(_) => {
            let read = refill(name, source, input, from, end, written);
            next.at = 0;
            next.end = read.have();
            next.going = !read.failed() & (read.came() != 0);
            next.read = read;
            next
        }
    }
}

// Writes the first octets of the output, so many: the text that a call of the listing left there, the header or the line of the end, whole,
// and no other octets. Nothing else here writes.
fn emit(name: &[u8], out: &[u8], size: usize) -> Written
    requires { Left out.now size }
    ensures { take result.size out.now ≡ take size out.now }
{
    window::write(name, out, size)
}

// Reads more behind the octets at hand. Asked only once the text is written.
fn refill(
    name: &[u8],
    source: &window::Source,
    input: &mut [u8],
    at: usize,
    end: usize,
    written: Written,
) -> Refilled
    requires { written.failed ≡ false }
    ensures { Refills input.old at end input.new result }
{
    window::refill(name, source, input, at, end)
}

// Writes what is told at the input's end.
fn last_line(name: &[u8], source: Source, out: &mut [u8]) -> Written
    requires { room ≤ length out.old }
    ensures { take result.size out.new ≡ at_end source }
{
    let n = listing::end(source, out, 0);
    emit(name, out, n)
}
