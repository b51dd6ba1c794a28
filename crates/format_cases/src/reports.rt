// The report reader and the writers.
use crate::packets;
use answer::Reason;
use records::{input, places, text};
use report::{Available, Content, Failure, Housekeeping, Line, Report, Success};

// Prints what a report says.
fn print(content: Content, octets: &[u8]) {
    match content {
        Content::Success(r) => {
            text::tell(b" fields # #", &[r.id as u64, r.control as u64]);
        }
        Content::Failure(r) => {
            text::tell(
                b" fields # # #",
                &[r.id as u64, r.control as u64, r.code as u64],
            );
        }
        Content::Housekeeping(r) => {
            text::field(b" fields ", r.sid as u64);
            text::hex(b" ", r.rest(octets));
        }
        Content::Available(r) => {
            text::tell(b" fields # #", &[r.image as u64, r.ticks as u64]);
            text::hex(b" ", r.first_block(octets));
            text::hex(b" ", r.second_block(octets));
        }
        Content::Line(r) => {
            text::tell(b" fields # #", &[r.image as u64, r.line as u64]);
            text::hex(b" ", r.pixels(octets));
        }
    }
}

pub fn read(c: &[u8]) {
    let octets = input::block(c, places::INPUT);
    match Report::read(octets) {
        Ok(r) => {
            text::say(b"accepted");
            if input::octet(c, places::SHOW) == 1 {
                let p = r.packet;
                packets::print(p);
            }
            let content = r.content;
            print(content, octets);
        }
        Err(reason) => text::field(b"refusal ", reason.number() as u64),
    }
}

// What the writers of verification answer.
fn verified(c: &[u8], code: bool, out: &mut [u8]) -> Result<usize, Reason> {
    let p = packets::given(c);
    let id = input::word(c, places::FIRST);
    let control = input::word(c, places::SECOND);
    if code {
        let code = input::word(c, places::THIRD);
        let r = Failure { id, control, code };
        return r.write(p, out);
    }
    let r = Success { id, control };
    r.write(p, out)
}

// What the writer of the case's report answers.
fn answer(c: &[u8], out: &mut [u8]) -> Result<usize, Reason> {
    let p = packets::given(c);
    let octets = input::block(c, places::INPUT);
    let image = input::word(c, places::FIRST);
    match input::octet(c, places::WRITER) {
        1 => verified(c, false, out),
        2 => verified(c, true, out),
        3 => {
            let sid = input::octet(c, places::FIRST);
            let length = input::four(c, places::SECOND) as usize;
            let r = Housekeeping { sid, length };
            r.write(p, octets, out)
        }
        4 => {
            let ticks = input::four(c, places::SECOND);
            let r = Available { image, ticks };
            r.write(p, octets, input::block(c, places::BLOCK), out)
        }
        _ => {
            let line = input::octet(c, places::SECOND);
            let r = Line { image, line };
            r.write(p, octets, out)
        }
    }
}

pub fn write(c: &[u8], out: &mut [u8]) {
    packets::written(answer(c, out), out);
}
