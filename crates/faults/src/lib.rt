// Why a recording is bad, for people: said on standard error, behind the program's name, with the octet of the input; and what an input
// looks like that is of another kind than was said.
#![tactic(auto)]

ghost use Rattle.std.specs.Prelude.{◌≡◌, length};
ghost use Rattle.faults.specs.Why.{settings_why, frame_why, why_at, before, goes_on, stops_at};

use recording::{Reader, Taken};
use source::Source;
use start::Look;

mod start;

// Standard error's descriptor.
const STDERR_FILENO: i32 = 2;

// What is wrong with a recording.
#[derive(Clone, Copy)]
enum Why {
    Nothing,
    SettingsCut,
    CountNotOne,
    TimeLong,
    CountCut,
    FramesMissing,
    FrameLong,
    FrameCut,
    Behind,
}

// Whether a section is whole, so that the next may follow.
fn whole(taken: Taken) -> bool
    ensures { result ≡ goes_on taken }
{
    matches!(taken, Taken::Opened(_) | Taken::Nothing | Taken::Here(_, _))
}

// The reader of the section at which a reader that goes on from the window's start stops.
fn last(first: Reader, window: &[u8]) -> Reader
    ensures { result ≡ stops_at (length window.now) first window.now }
{
    let mut reader = first;
    let mut at = 0;
    while at < window.len() {
        let scanned = reader.scan(&window[at..]);
        if !whole(scanned.taken) {
            return reader;
        }
        at += scanned.used;
        reader = scanned.reader;
    }
    reader
}

// What is wrong with settings that are not whole or not right.
fn settings(rest: &[u8]) -> Why
    ensures { result ≡ settings_why rest.now }
{
    if rest.len() < 4 {
        return Why::SettingsCut;
    }
    if octets::four(rest[0], rest[1], rest[2], rest[3]) != 1 {
        return Why::CountNotOne;
    }
    if rest.len() < 5 {
        return Why::SettingsCut;
    }
    Why::TimeLong
}

// What is wrong with a frame that is not whole or too long.
fn frame(rest: &[u8]) -> Why
    ensures { result ≡ frame_why rest.now }
{
    if rest.len() < 2 {
        return Why::FramesMissing;
    }
    if recording::FRAME < octets::word(rest[0], rest[1]) as usize {
        return Why::FrameLong;
    }
    Why::FrameCut
}

// Why a reader stops at these octets.
fn cause(reader: Reader, rest: &[u8]) -> Why
    ensures { result ≡ why_at reader rest.now }
{
    match reader {
        Reader::Settings => settings(rest),
        Reader::Count => Why::CountCut,
        Reader::Frames(n) => {
            if n != 0 {
                return frame(rest);
            }
            if rest.len() == 0 {
                return Why::Nothing;
            }
            Why::Behind
        }
        Reader::Bad => Why::Nothing,
    }
}

// How many octets of the section stand before the one that is wrong.
fn before(why: Why) -> u64
    ensures { result ≡ before why }
{
    match why {
        Why::TimeLong => 4,
        _ => 0,
    }
}

// Says that a recording is bad at an octet, and what it looks like.
fn say(name: &[u8], octet: u64, why: &[u8], look: Look) {
    io::write_all(STDERR_FILENO, name);
    io::write_all(STDERR_FILENO, b": bad recording at octet ");
    io::print_decimal(STDERR_FILENO, octet);
    io::write_all(STDERR_FILENO, b": ");
    io::write_all(STDERR_FILENO, why);
    match look {
        Look::Nothing => {}
        Look::Kiss => {
            io::write_all(
                STDERR_FILENO,
                b"; it looks like a KISS stream, which decode --kiss T reads",
            );
        }
        Look::Bit => {
            io::write_all(
                STDERR_FILENO,
                b"; it looks like one bit an octet, and decode --bits T wants eight",
            );
        }
        Look::Recording => {}
    }
    io::write_all(STDERR_FILENO, b"\n");
}

// The words for what is wrong at an octet with a recording whose section there, or whole input, has these octets.
fn words(name: &[u8], octet: u64, why: Why, rest: &[u8]) {
    let nothing = Look::Nothing;
    match why {
        Why::Nothing => {}
        Why::SettingsCut => say(
            name,
            octet,
            b"it ends inside the settings",
            start::seen(rest),
        ),
        Why::CountNotOne => say(name, octet, b"the first count is not 1", start::seen(rest)),
        Why::TimeLong => say(name, octet, b"t is above 8", nothing),
        Why::CountCut => say(name, octet, b"it ends inside the count of frames", nothing),
        Why::FramesMissing => say(name, octet, b"it ends before the last frame", nothing),
        Why::FrameLong => say(name, octet, b"a frame of more than 1,024 octets", nothing),
        Why::FrameCut => say(name, octet, b"it ends inside a frame", nothing),
        Why::Behind => say(name, octet, b"octets behind the last frame", nothing),
    }
}

// Says why a recording is bad: its source found it bad, or it ended, with the octets `rest` left, the first of which is number `octet` of
// the input. It prints nothing if the recording is good.
pub fn tell(name: &[u8], octet: u64, source: Source, rest: &[u8]) {
    match source {
        Source::Recording(reader) => tell_at(name, octet, reader, rest),
        Source::Kiss(_) => {}
        Source::Bits(_) => {}
    }
}

// The same of a recording that was found bad by a source that went on from the window's start, of which so many octets were used.
pub fn tell_over(name: &[u8], octet: u64, source: Source, window: &[u8], used: usize) {
    match source {
        Source::Recording(first) => {
            if used <= window.len() {
                tell_at(name, octet, last(first, window), &window[used..]);
            }
        }
        Source::Kiss(_) => {}
        Source::Bits(_) => {}
    }
}

// The same by the recording's reader.
fn tell_at(name: &[u8], octet: u64, reader: Reader, rest: &[u8]) {
    let why = cause(reader, rest);
    words(name, octet.wrapping_add(before(why)), why, rest);
}

// Says what the first octets of a stream look like, if of another kind than the stream; nothing of a recording, and nothing once octets
// were used, which are so many.
pub fn tell_start(name: &[u8], passed: u64, source: Source, first: &[u8]) {
    if passed != 0 {
        return;
    }
    match source {
        Source::Recording(_) => {}
        Source::Kiss(_) => tell_look(name, start::seen(first)),
        Source::Bits(_) => tell_look(name, start::seen(first)),
    }
}

// Says what a stream looks like that is none.
fn tell_look(name: &[u8], look: Look) {
    match look {
        Look::Nothing => {}
        Look::Kiss => {}
        Look::Bit => say_look(
            name,
            b": this looks like one bit an octet, and --bits T wants eight\n",
        ),
        Look::Recording => say_look(
            name,
            b": this looks like a recording, which is read without --kiss and --bits\n",
        ),
    }
}

// Says a line behind the program's name.
fn say_look(name: &[u8], line: &[u8]) {
    io::write_all(STDERR_FILENO, name);
    io::write_all(STDERR_FILENO, line);
}

// Says that of so many frames none was accepted, and that t may be wrong, which came with a source.
pub fn tell_none(name: &[u8], frames: u32, source: Source, t: u8) {
    io::write_all(STDERR_FILENO, name);
    io::write_all(STDERR_FILENO, b": no frame was accepted of the ");
    io::print_decimal(STDERR_FILENO, frames as u64);
    io::write_all(
        STDERR_FILENO,
        b" that came; if the listing says 14, t may be wrong: it is ",
    );
    io::print_decimal(STDERR_FILENO, t as u64);
    match source {
        Source::Recording(_) => {
            io::write_all(STDERR_FILENO, b" by the recording's header\n");
        }
        Source::Kiss(_) => {
            io::write_all(STDERR_FILENO, b" by --kiss\n");
        }
        Source::Bits(_) => {
            io::write_all(STDERR_FILENO, b" by --bits\n");
        }
    }
}
