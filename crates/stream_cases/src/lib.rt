// The readers of streams and their writers.
#![tactic(auto)]

use answer::Refusal;
use format_cases::{frames, packets};
use records::{input, places, text};
use stretch::{Found, KEPT};

// Prints what a scan found.
fn told(found: Found, kept: &[u8; KEPT]) {
    match found {
        Found::Nothing => {}
        Found::Frame(n) => text::hex(b" frame ", octets::part(kept, 0, n)),
        Found::Refused(reason) => text::field(b" refusal ", reason.number() as u64),
    }
}

// The next octets of a stream, from index at on, n at most.
fn piece(stream: &[u8], at: usize, n: usize) -> &[u8] {
    octets::part(stream, at, n.min(stream.len().wrapping_sub(at)))
}

// Scans the case's KISS stream, so many octets at a time, and prints what was found.
pub fn kiss_import(c: &[u8]) {
    let stream = input::block(c, places::INPUT);
    let n = input::four(c, places::PIECE) as usize;
    let mut kept = [0u8; KEPT];
    let mut reader = kiss::Reader::new();
    let mut at = 0;
    text::say(b"accepted");
    for _ in 0..stream.len() {
        let scanned = reader.scan(piece(stream, at, n), &mut kept);
        told(scanned.found, &kept);
        reader = scanned.reader;
        at = at.wrapping_add(scanned.used);
    }
}

// The same of the case's raw bits.
pub fn bits_reader(c: &[u8]) {
    let stream = input::block(c, places::INPUT);
    let n = input::four(c, places::PIECE) as usize;
    let mut kept = [0u8; KEPT];
    let mut reader = rawbits::Reader::new();
    let mut at = 0;
    text::say(b"accepted");
    for _ in 0..stream.len() {
        let scanned = reader.scan(piece(stream, at, n), &mut kept);
        told(scanned.found, &kept);
        reader = scanned.reader;
        at = at.wrapping_add(scanned.used);
    }
}

// Writes the KISS stream of the case's frames, and prints the output whole.
pub fn kiss_export(c: &[u8], out: &mut [u8]) {
    let lengths = input::words(input::block(c, places::PARTS));
    let n = input::room(c, places::LENGTHS, 65);
    let t = input::octet(c, places::T);
    match kiss_writer::write(t, input::block(c, places::INPUT), &lengths[..n], out) {
        Ok(length) => text::field(b"accepted length ", length as u64),
        Err(reason) => frames::refused(Refusal::of(reason)),
    }
    text::lent(b" output ", out, 238);
}

// The same as raw bits.
pub fn bits_writer(c: &[u8], out: &mut [u8]) {
    let lengths = input::words(input::block(c, places::PARTS));
    let n = input::room(c, places::LENGTHS, 65);
    let written = rawbits_writer::write(input::block(c, places::INPUT), &lengths[..n], out);
    packets::written(written, out);
}
