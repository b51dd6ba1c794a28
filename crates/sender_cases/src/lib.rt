// The sender for the test bench.
#![tactic(auto)]

use answer::Reason;
use counts::{ChannelCount, MasterCount};
use format_cases::frames;
use records::{input, places, text};
use sender::{Common, Sent};

// What the case gives for all frames.
fn common(c: &[u8]) -> Common {
    let destination = frames::station(
        input::block(c, places::DESTINATION),
        input::octet(c, places::DESTINATION_SSID),
    );
    let source = frames::station(
        input::block(c, places::SOURCE),
        input::octet(c, places::SOURCE_SSID),
    );
    Common {
        destination,
        source,
        channel: input::octet(c, places::CHANNEL),
        telecommands: input::octet(c, places::TELECOMMANDS),
        t: input::octet(c, places::T),
    }
}

// Prints what a call answered.
fn told(answer: Result<Sent, Reason>) {
    match answer {
        Ok(s) => text::tell(
            b"accepted frames # octets # master # count #",
            &[
                s.frames as u64,
                s.octets as u64,
                s.master.0 as u64,
                s.count.0 as u64,
            ],
        ),
        Err(reason) => text::field(b"refusal ", reason.number() as u64),
    }
}

// Makes the frames of the case's packets, and prints the lent list and the output, whole.
pub fn send(c: &[u8], out: &mut [u8], frames: &mut [u16]) {
    let lengths = input::words(input::block(c, places::PARTS));
    let n = input::room(c, places::LENGTHS, 65);
    told(sender::send(
        common(c),
        MasterCount(input::octet(c, places::MASTER)),
        ChannelCount(input::octet(c, places::COUNT)),
        input::block(c, places::STAMP),
        input::block(c, places::INPUT),
        &lengths[..n],
        input::eight(c, places::LENGTH) as usize,
        out,
        frames,
    ));
    text::words(b" lengths", frames, 61166);
    text::lent(b" output ", out, 238);
}

// Makes one empty frame, and prints the output whole.
pub fn empty(c: &[u8], out: &mut [u8]) {
    told(sender::empty(
        common(c),
        MasterCount(input::octet(c, places::MASTER)),
        ChannelCount(input::octet(c, places::COUNT)),
        input::block(c, places::STAMP),
        out,
    ));
    text::lent(b" output ", out, 238);
}
