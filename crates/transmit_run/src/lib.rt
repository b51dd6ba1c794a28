// A script of the test bench, made into a recording: settings, packets, and steps that the sender makes frames of, a line each.
//
// What the frames are is sender's. Here are the lines.
#![tactic(auto)]

ghost use Rattle.std.specs.Prelude.{◌≡◌, ◌+◌, ◌-◌, ◌*◌, ◌≤◌, length};
ghost use Rattle.transmit_steps.specs.Step.{lent};
ghost use Rattle.transmit_recording.specs.Recording.{recording_of};
ghost use Rattle.window.specs.Window.{hand};
ghost use Rattle.transmit_run.specs.Turn.{LineEnds, turned, turning, is_fault, fresh_place, run, running};
ghost use Rattle.transmit_run.specs.Filled.{Fills, Looped};
ghost use Rattle.transmit_run.specs.Ended.{Ends, status_of};
ghost use Rattle.transmit_run.specs.Whole.{Makes, Reads};

use transmit_settings::{Fault, State};
use window::{Refilled, Written};

// Standard error's descriptor.
const STDERR_FILENO: i32 = 2;

// The most reads of a script.
const READS: u64 = 18446744073709551615;

// The most frames that a script makes.
const FRAMES: usize = 4096;

// The most octets of a recording: its first nine, those of the frames made, and two before each frame.
const RECORDING: usize = 73737;

// Whether there is a fault.
fn faulty(fault: Fault) -> bool
    ensures { result ≡ is_fault fault }
{
    !matches!(fault, Fault::Nothing)
}

// Says why a line of the script stops it.
fn say(name: &[u8], number: u64, fault: Fault) {
    io::write_all(STDERR_FILENO, name);
    io::write_all(STDERR_FILENO, b": line ");
    io::print_decimal(STDERR_FILENO, number);
    match fault {
        Fault::Word => io::write_all(STDERR_FILENO, b": no such word\n"),
        Fault::Value => io::write_all(STDERR_FILENO, b": not a value that it can have\n"),
        Fault::Room => io::write_all(STDERR_FILENO, b": too much for one recording\n"),
        Fault::Refused(n) => {
            io::write_all(STDERR_FILENO, b": refused with ");
            io::print_decimal(STDERR_FILENO, n as u64);
            io::write_all(STDERR_FILENO, b"\n")
        }
        Fault::Nothing => io::write_all(STDERR_FILENO, b"\n"),
    };
}

// Where a script stands: its state, where the link's signs that are not used yet start, how many there are, and a fault.
#[derive(Clone, Copy)]
struct Place {
    state: State,
    link: usize,
    signs: usize,
    fault: Fault,
}

// One line, from one index of the script up to another. A line `link` gives signs for the frames that follow, one each: - is lost,
// any other arrives.
fn turn(
    before: Place,
    script: &[u8],
    at: usize,
    end: usize,
    stamp: &mut [u8],
    packets: &mut [u8],
    lengths: &mut [u16],
    made: &mut [u8],
    frames: &mut [u16],
) -> Place
    requires { at ≤ end }
    ensures { turned result (lent stamp.new packets.new lengths.new made.new frames.new)
        ≡ turning before script.now at end
        (lent stamp.old packets.old lengths.old made.old frames.old) }
{
    let line = octets::part(script, at, end - at);
    if octets::same(words::word(line), b"link") {
        let mut next = before;
        next.link = std::num::wrapping_add_usize(at, 5);
        next.signs = words::rest(line).len();
        return next;
    }
    let first = before.state.made.count;
    let stepped = transmit_steps::step(before.state, line, stamp, packets, lengths, made, frames);
    let last = stepped.state.made.count;
    transmit_recording::lose(
        octets::part(script, before.link, before.signs),
        frames,
        first,
        last,
    );
    let more = last.saturating_sub(first);
    Place {
        state: stepped.state,
        link: std::num::wrapping_add_usize(before.link, more),
        signs: before.signs.saturating_sub(more),
        fault: stepped.fault,
    }
}

// Where the line ends that stands at an index of s.
fn line_end(s: &[u8], at: usize) -> usize
    requires { at ≤ length s.now }
    ensures { LineEnds s.now at result }
{
    for i in at..s.len() {
        if s[i] == b'\n' {
            return i;
        }
    }
    s.len()
}

// Where a script stands, and how many lines it went over.
#[derive(Clone, Copy)]
struct Ran {
    place: Place,
    lines: u64,
}

// Goes over the lines of a script, up to the first that has a fault.
fn over(
    script: &[u8],
    stamp: &mut [u8],
    packets: &mut [u8],
    lengths: &mut [u16],
    made: &mut [u8],
    frames: &mut [u16],
) -> Ran
    ensures { run result.place result.lines
        (lent stamp.new packets.new lengths.new made.new frames.new)
        ≡ running (length script.now) fresh_place script.now 0 0
        (lent stamp.old packets.old lengths.old made.old frames.old) }
{
    let mut place = Place {
        state: State::fresh(),
        link: 0,
        signs: 0,
        fault: Fault::Nothing,
    };
    let mut lines: u64 = 0;
    let mut at = 0;
    while at < script.len() {
        let end = line_end(script, at);
        place = turn(
            place, script, at, end, stamp, packets, lengths, made, frames,
        );
        lines = std::num::wrapping_add_u64(lines, 1);
        if faulty(place.fault) {
            return Ran { place, lines };
        }
        at = end + 1;
    }
    Ran { place, lines }
}

// Hands on the recording that stands at the output's start.
fn emit(name: &[u8], t: u8, made: &[u8], frames: &[u16], out: &[u8], size: usize) -> Written
    requires { hand out.now 0 size ≡ recording_of t made.now frames.now }
    ensures { result.size ≡ length (recording_of t made.now frames.now) }
{
    window::write(name, out, size)
}

// Lays the recording of the frames that arrive into the output, and hands it on.
fn hand_on(name: &[u8], t: u8, made: &[u8], frames: &[u16], out: &mut [u8]) -> Written
    requires { 9 + length made.now + 2 * length frames.now ≤ length out.old }
    ensures { result.size ≡ length (recording_of t made.now frames.now) }
{
    let size = transmit_recording::lay(t, made, frames, out);
    emit(name, t, made, frames, out, size)
}

// What was handed on, and whether a line of the script had a fault.
#[derive(Clone, Copy)]
struct Ended {
    written: Written,
    faulty: bool,
}

// The exit status.
fn status(ended: Ended) -> i32
    ensures { result ≡ status_of ended.faulty ended.written.failed }
{
    if ended.faulty {
        return window::AGAINST;
    }
    if ended.written.failed() {
        return window::BROKEN;
    }
    window::DONE
}

// Goes over the lines of a script; at their end the recording is handed on, at a fault it is said and nothing is handed on.
fn lines(
    name: &[u8],
    script: &[u8],
    stamp: &mut [u8],
    packets: &mut [u8],
    lengths: &mut [u16],
    made: &mut [u8],
    frames: &mut [u16],
    out: &mut [u8],
) -> Ended
    requires { 9 + length made.old + 2 * length frames.old ≤ length out.old }
    ensures { Ends (running (length script.now) fresh_place script.now 0 0
        (lent stamp.old packets.old lengths.old made.old frames.old)) result }
{
    let ran = over(script, stamp, packets, lengths, made, frames);
    if faulty(ran.place.fault) {
        say(name, ran.lines, ran.place.fault);
        return Ended {
            written: Written::none(),
            faulty: true,
        };
    }
    let state = ran.place.state;
    let written = hand_on(
        name,
        state.common.t,
        made,
        transmit_steps::front(frames, state.made.count),
        out,
    );
    Ended {
        written,
        faulty: false,
    }
}

// How many octets of the script are at hand, the last read, and whether more may come.
#[derive(Clone, Copy)]
struct Filling {
    have: usize,
    read: Refilled,
    going: bool,
}

// Where the reads stopped, and after how many.
#[derive(Clone, Copy)]
struct Filled {
    state: Filling,
    made: u64,
}

// Reads more of the script behind the octets at hand; where there is no room none is read.
fn more(name: &[u8], source: &window::Source, script: &mut [u8], before: Filling) -> Filling
    ensures { Fills before script.old result script.new }
{
    let have = before.have;
    if script.len() <= have {
        return Filling {
            have,
            read: Refilled::none(),
            going: false,
        };
    }
    let read = window::refill(name, source, script, 0, have);
    Filling {
        have: read.have(),
        read,
        going: read.came() != 0,
    }
}

// Reads the script to its end, or as far as there is room. A read that fails is told; after 2^64 - 1 reads it would end too.
fn fill(name: &[u8], source: &window::Source, script: &mut [u8]) -> Filled
    ensures { Looped script.old result script.new }
{
    let mut state = Filling {
        have: 0,
        read: Refilled::none(),
        going: true,
    };
    for made in 0..READS {
        if !state.going {
            return Filled { state, made };
        }
        state = more(name, source, script, state);
    }
    Filled { state, made: READS }
}

// Makes the recording of the script that comes by the descriptor source, on standard output, and answers the exit status. What fails is
// told
// on standard error, behind the program's name.
pub fn run(name: &[u8], source: &window::Source) -> i32
    ensures { Reads result }
{
    let mut script = io::large_buffer();
    let filled = fill(name, source, &mut script);
    if filled.state.read.failed() {
        return window::BROKEN;
    }
    let have = filled.state.have;
    if script.len() <= have {
        io::write_all(STDERR_FILENO, name);
        io::write_all(STDERR_FILENO, b": the script has above 65,535 octets\n");
        return window::AGAINST;
    }
    made_of(name, window::hand(&script, 0, have))
}

// The same with the script's octets.
fn made_of(name: &[u8], script: &[u8]) -> i32
    ensures { Makes script.now result }
{
    let mut stamp = [0u8; 8];
    let mut packets = [0u8; 32768];
    let mut lengths = [0u16; 2048];
    let mut made = io::large_buffer();
    let mut frames = [0u16; FRAMES];
    let mut out = no_recording();
    let ended = lines(
        name,
        script,
        &mut stamp,
        &mut packets,
        &mut lengths,
        &mut made,
        &mut frames,
        &mut out,
    );
    status(ended)
}

// Room for any recording.
fn no_recording() -> [u8; RECORDING] {
    [0u8; RECORDING]
}
