// The frame reader and writer.
use crate::packets;
use answer::Refusal;
use counts::{ChannelCount, MasterCount};
use frame::{Address, Callsign, Frame};
use records::{input, places, text};

// Prints an address.
fn address(name: &[u8], a: Address) {
    let c = a.callsign;
    let characters = [c.0, c.1, c.2, c.3, c.4, c.5];
    text::hex(name, &characters);
    text::field(b" ", a.ssid as u64);
}

// Prints a frame's fields.
fn print(f: Frame) {
    text::tell(
        b"accepted channel # master # count # pointer #",
        &[
            f.channel as u64,
            f.master.0 as u64,
            f.count.0 as u64,
            f.pointer as u64,
        ],
    );
    text::field(b" telecommands ", f.telecommands as u64);
    let destination = f.destination;
    let source = f.source;
    address(b" destination ", destination);
    address(b" source ", source);
}

// Prints a refusal with its octet.
pub fn refused(r: Refusal) {
    text::tell(b"refusal # octet #", &[r.number as u64, r.octet as u64]);
}

pub fn read(c: &[u8]) {
    told(input::octet(c, places::T), input::block(c, places::INPUT));
}

// Prints what the frame reader says of octets.
pub fn told(t: u8, octets: &[u8]) {
    match Frame::read(t, octets) {
        Ok(f) => {
            print(f);
            text::hex(b" data ", f.data(octets));
            text::hex(b" time ", f.time(t, octets));
        }
        Err(reason) => refused(Refusal::of(reason)),
    }
}

// The address of a callsign of six characters; of six zeros if there aren't as many.
pub fn station(s: &[u8], ssid: u8) -> Address {
    let mut callsign = Callsign(0, 0, 0, 0, 0, 0);
    if s.len() == 6 {
        callsign = Callsign(s[0], s[1], s[2], s[3], s[4], s[5]);
    }
    Address { callsign, ssid }
}

pub fn write(c: &[u8], out: &mut [u8]) {
    let destination = station(
        input::block(c, places::DESTINATION),
        input::octet(c, places::DESTINATION_SSID),
    );
    let source = station(
        input::block(c, places::SOURCE),
        input::octet(c, places::SOURCE_SSID),
    );
    let f = Frame::new(
        destination,
        source,
        input::octet(c, places::CHANNEL),
        MasterCount(input::octet(c, places::MASTER)),
        ChannelCount(input::octet(c, places::COUNT)),
        input::octet(c, places::POINTER),
        input::octet(c, places::TELECOMMANDS),
        input::eight(c, places::LENGTH) as usize,
    );
    let data = input::block(c, places::INPUT);
    let time = input::block(c, places::STAMP);
    packets::written(f.write(input::octet(c, places::T), data, time, out), out);
}
