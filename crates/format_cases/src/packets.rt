// The packet reader and writer.
use answer::Reason;
use counts::SequenceCount;
use packet::Packet;
use records::{input, places, text};

// Prints a packet's fields.
pub fn print(p: Packet) {
    text::tell(
        b" apid # sequence # type # subtype # time #",
        &[
            p.apid as u64,
            p.sequence.0 as u64,
            p.service as u64,
            p.subtype as u64,
            p.time,
        ],
    );
}

pub fn read(octets: &[u8]) {
    match Packet::read(octets) {
        Ok(p) => {
            text::say(b"accepted");
            print(p);
            text::hex(b" source ", p.source(octets));
        }
        Err(reason) => text::field(b"refusal ", reason.number() as u64),
    }
}

// The packet that the case gives.
pub fn given(c: &[u8]) -> Packet {
    Packet {
        apid: input::word(c, places::APID),
        sequence: SequenceCount(input::word(c, places::SEQUENCE)),
        service: input::octet(c, places::SERVICE),
        subtype: input::octet(c, places::SUBTYPE),
        time: input::eight(c, places::TIME),
        length: input::eight(c, places::LENGTH) as usize,
    }
}

// Prints what a writer answered, and its output, which held 0xEE everywhere.
pub fn written(w: Result<usize, Reason>, out: &[u8]) {
    match w {
        Ok(n) => text::field(b"accepted length ", n as u64),
        Err(reason) => text::field(b"refusal ", reason.number() as u64),
    }
    text::lent(b" output ", out, 238);
}

pub fn write(c: &[u8], out: &mut [u8]) {
    let p = given(c);
    written(p.write(input::block(c, places::INPUT), out), out);
}
