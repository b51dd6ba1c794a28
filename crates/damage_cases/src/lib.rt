// Damage: bits of octets that a reader accepts are changed, and what the reader then says.
#![tactic(auto)]

use format_cases::{frames, packets};
use frame::Frame;
use packet::Packet;
use records::{input, places, text};

// Whether the case is of a frame; else of a packet.
fn of_frame(c: &[u8]) -> bool {
    input::octet(c, places::FRAME) == 1
}

// Prints whether the octets are accepted as they were.
fn before(c: &[u8], octets: &[u8]) {
    let accepted = if of_frame(c) {
        Frame::read(input::octet(c, places::T), octets).is_ok()
    } else {
        Packet::read(octets).is_ok()
    };
    if accepted {
        text::say(b"accepted");
    } else {
        text::say(b"refused");
    }
}

// Prints what the reader says of them as they became.
fn after(c: &[u8], octets: &[u8]) {
    text::hex(b" became ", octets);
    text::say(b" ");
    if of_frame(c) {
        frames::told(input::octet(c, places::T), octets);
    } else {
        packets::read(octets);
    }
}

// The octet with a 1 at one bit, by its number in an octet: of a packet from the high bit on, of a frame from the low bit on.
fn alone(low_first: bool, k: u32) -> u8 {
    if low_first {
        1 << (k % 8)
    } else {
        128 >> (k % 8)
    }
}

// Changes a bit.
fn change(octets: &mut [u8], bit: u32, low_first: bool) {
    let at = (bit / 8) as usize;
    if at < octets.len() {
        octets[at] ^= alone(low_first, bit);
    }
}

// Changes each bit of a list of their numbers, four octets each.
fn change_all(octets: &mut [u8], bits: &[u8], low_first: bool) {
    for bit in bits.chunks(4) {
        change(octets, input::four(bit, 0), low_first);
    }
}

pub fn read(c: &[u8], octets: &mut [u8]) {
    let was = input::block(c, places::INPUT);
    before(c, was);
    octets::put(octets, 0, was);
    change_all(octets, input::block(c, places::BITS), of_frame(c));
    after(c, octets);
}
