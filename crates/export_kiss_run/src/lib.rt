// Writes the accepted frames of a recording that comes by a descriptor as a KISS stream, each as soon as it is whole.
//
// What is written of a frame is kiss_export's. A frame that is refused is left out and told on standard error.
//
// What computes is apart from what writes: a section leaves its octets in the output, and a turn writes them.
#![tactic(auto)]

ghost use Rattle.std.specs.Prelude.{◌≡◌, ◌≤◌, length};
ghost use Rattle.octets.specs.Pick.{pick};
ghost use Rattle.export_kiss_run.specs.Turns.{room, Fits, HandsOn, leads, led_to, Sections, Said};
ghost use Rattle.export_kiss_run.specs.Turns.{failed_in, Reads, Turned, Looped, status_of, Ran};

use answer::Reason;
use recording::{Reader, Taken};
use source::Source;
use window::{Refilled, Written};

// Standard error's descriptor.
const STDERR_FILENO: i32 = 2;

// The most turns.
const TURNS: u64 = 18446744073709551615;

// Room for the stream of any one frame that is accepted.
const ROOM: usize = 600;

// Where a run stands: the recording's reader and t, the input's octets from at up to end, which are read and not yet used, how many octets
// were used before them and how many frames have passed, whether one was left out, whether the run goes on, whether the recording was found
// bad, and what the last turn read and wrote.
#[derive(Clone, Copy)]
struct State {
    reader: Reader,
    t: u8,
    at: usize,
    end: usize,
    passed: u64,
    frames: u64,
    left: bool,
    going: bool,
    over: bool,
    read: Refilled,
    written: Written,
}

// Where a run stopped, and after how many turns.
#[derive(Clone, Copy)]
struct Stopped {
    state: State,
    made: u64,
}

// Writes what comes by the descriptor source to standard output, with 0xC0 behind each frame or, if asked, both before and behind it, and
// answers the program's exit status. What fails is told on standard error, behind the program's name.
pub fn run(name: &[u8], source: &window::Source, both: bool) -> i32
    ensures { Ran both result }
{
    let mut input = io::large_buffer();
    let mut out = [0u8; ROOM];
    let stopped = turns(name, source, both, &mut input, &mut out);
    status(stopped)
}

// The exit status of a run: whether it came to its end with no read and no write failed, the recording was not bad, and no frame was left
// out.
fn status(stopped: Stopped) -> i32
    ensures { result ≡ status_of stopped }
{
    let state = stopped.state;
    if state.going | failed(state) {
        return window::BROKEN;
    }
    if state.over | Source::Recording(state.reader).cut() | state.left {
        return window::AGAINST;
    }
    window::DONE
}

// Whether the last read or the last write failed.
fn failed(state: State) -> bool
    ensures { result ≡ failed_in state }
{
    state.read.failed() | state.written.failed()
}

// The whole run. It ends with the input, a bad recording, or a read or write that failed; after 2^64 - 1 turns it would end too.
fn turns(
    name: &[u8],
    source: &window::Source,
    both: bool,
    input: &mut [u8],
    out: &mut [u8],
) -> Stopped
    requires { room ≤ length out.old }
    ensures { Looped both input.old result input.new }
{
    let read = Refilled::none();
    let written = Written::none();
    let mut state = State {
        reader: Reader::Settings,
        t: 0,
        at: 0,
        end: 0,
        passed: 0,
        frames: 0,
        left: false,
        going: true,
        over: false,
        read,
        written,
    };
    for made in 0..TURNS {
        if !state.going {
            return Stopped { state, made };
        }
        state = turn(name, source, both, input, out, state);
    }
    Stopped { state, made: TURNS }
}

// Says a line on standard error, behind the program's name.
fn say(name: &[u8], what: &[u8]) {
    io::write_all(STDERR_FILENO, name);
    io::write_all(STDERR_FILENO, what);
}

// Says that a frame is left out, and why.
fn left_out(name: &[u8], frame: u64, refusal: u16) {
    say(name, b": frame ");
    io::print_decimal(STDERR_FILENO, frame);
    io::write_all(STDERR_FILENO, b" is left out: refusal ");
    io::print_decimal(STDERR_FILENO, refusal as u64);
    io::write_all(STDERR_FILENO, b"\n");
}

// Writes octets that a section led to, all of them and no others. Nothing else here writes.
fn emit(name: &[u8], octets: &[u8]) -> Written
    requires { Said octets.now }
    ensures { result.size ≡ length octets.now }
{
    window::write(name, octets, octets.len())
}

// From where on a frame's block is written: with the 0xC0 before it, or without.
fn first(both: bool) -> usize
    ensures { result ≡ pick both 0 1 }
{
    if both {
        return 0;
    }
    1
}

// Leaves one frame's block in the output and answers the index behind it, or why the frame is left out: the block begins at index 1,
// behind a 0xC0.
fn hand_on(t: u8, frame: &[u8], out: &mut [u8]) -> Result<usize, Reason>
    requires { Fits frame.now out.old }
    ensures { HandsOn t frame.now result out.new }
{
    let lengths = [(frame.len() % 65536) as u16];
    kiss_writer::write(t, frame, &lengths, out)
}

// What a section leads to: t, how many frames have passed, the output's octets from an index up to another, which are to be written, or why
// a frame is left out, and whether the run goes on.
#[derive(Clone, Copy)]
struct Led {
    t: u8,
    frames: u64,
    from: usize,
    handed: Result<usize, Reason>,
    going: bool,
}

// A section of the octets at hand that is whole: the first 0xC0 goes out with t, then each frame.
fn section(both: bool, taken: Taken, t: u8, frames: u64, hand: &[u8], out: &mut [u8]) -> Led
    requires { Sections taken hand.now out.old }
    ensures { led_to result out.new ≡ leads both t frames taken hand.now }
{
    let mut led = Led {
        t,
        frames,
        from: 0,
        handed: Ok(0),
        going: true,
    };
    match taken {
        Taken::Opened(n) => {
            out[0] = kiss::MARK;
            led.t = (n % 256) as u8;
            led.handed = Ok(1);
        }
        Taken::Here(from, to) => {
            let n = to - from;
            led.handed = hand_on(t, octets::part(hand, from, n), out);
            led.frames = std::num::wrapping_add_u64(frames, 1);
            led.from = first(both);
        }
        Taken::Bad | Taken::Over => {
            led.going = false;
        }
        Taken::Nothing | Taken::Missing(_) => {}
    }
    led
}

// One turn: what the section at hand leads to is written, or more is read; what is left out and why a recording is bad is told.
fn turn(
    name: &[u8],
    source: &window::Source,
    both: bool,
    input: &mut [u8],
    out: &mut [u8],
    state: State,
) -> State
    requires { room ≤ length out.old }
    ensures { Turned both state input.old result input.new }
{
    let at = state.at;
    let end = state.end;
    let reader = state.reader;
    let scanned = reader.scan(window::hand(input, at, end));
    let taken = scanned.taken;
    if let Taken::Missing(_) = taken {
        return more(name, source, input, state);
    }
    let from = at + scanned.used;
    let passed = std::num::wrapping_add_u64(state.passed, scanned.used as u64);
    if let Taken::Bad = taken {
        faults::tell(
            name,
            passed,
            Source::Recording(reader),
            window::hand(input, from, end),
        );
    }
    let led = section(
        both,
        taken,
        state.t,
        state.frames,
        window::hand(input, at, end),
        out,
    );
    if let Err(reason) = led.handed {
        left_out(name, led.frames, reason.number());
    }
    let to = led.handed.unwrap_or(0);
    let written = emit(name, window::hand(out, led.from, to));
    let well = !written.failed();
    let read = Refilled::none();
    State {
        reader: scanned.reader,
        t: led.t,
        at: from,
        end,
        passed,
        frames: led.frames,
        left: state.left | led.handed.is_err(),
        going: led.going & well,
        over: !led.going,
        read,
        written,
    }
}

// Octets are missing: more are read, and if none come the run ends, which is told where the recording is cut. A read that fails was told.
fn more(name: &[u8], source: &window::Source, input: &mut [u8], state: State) -> State
    ensures { Reads state input.old result input.new }
{
    let read = window::refill(name, source, input, state.at, state.end);
    let have = read.have();
    let came = read.came();
    let well = !read.failed();
    if well & (came == 0) {
        faults::tell(
            name,
            state.passed,
            Source::Recording(state.reader),
            window::hand(input, 0, have),
        );
    }
    let mut next = state;
    next.at = 0;
    next.end = have;
    next.going = well & (came != 0);
    next.over = false;
    next.read = read;
    next.written = Written::none();
    next
}
