// Lists what a source tells, in pieces: a step by value, without reading or writing a file.
//
// source says where frames stand, listing_lines writes the text of a line, session takes the frames, and packet reads the packets.
#![tactic(auto)]

ghost use Rattle.std.specs.Prelude.{◌+◌, ◌*◌, ◌≤◌, ◌≡◌, length, take};
ghost use Rattle.decimal.specs.Laid.{Laid, Puts};
ghost use Rattle.rules.specs.Packets.{total};
ghost use Rattle.session.specs.Step.{told};
ghost use Rattle.listing_lines.specs.Text.{longest_line};
ghost use Rattle.listing.specs.Listing.{packets_text};
ghost use Rattle.listing.specs.Promised.{room, at_end, answered, cut};
ghost use Rattle.listing.specs.Next.{stopped, Nexts};

use answer::{Reason, Refusal};
use listing_lines::{LINE, bad_line};
use packet::Packet;
use receiver::Receiver;
use session::{Accepted, Session};
use source::{Source, Taken};
use stretch::KEPT;

// The most octets that the lines of one frame take: its own and those of 16 packets.
pub const ROOM: usize = 17 * LINE;

// Why a call stopped.
#[derive(Clone, Copy)]
pub enum Stop {
    // That many octets are missing before more can be told.
    Missing(usize),
    // Less than the room of a frame's lines is left.
    Full,
    // The recording is bad and that is told: nothing comes any more.
    Over,
}

// The next receiver, how many octets of the window were used, how many octets of text were left, and why it stopped.
#[derive(Clone, Copy)]
pub struct Listed {
    pub receiver: Receiver,
    pub used: usize,
    pub size: usize,
    pub stop: Stop,
}

// What a call answers that stops there.
fn stopped(source: Source, session: Session, used: usize, size: usize, stop: Stop) -> Listed
    ensures { result ≡ stopped source session used size stop }
{
    let receiver = Receiver { source, session };
    Listed {
        receiver,
        used,
        size,
        stop,
    }
}

// Lists the window's sections one after another until octets are missing, less than ROOM is left in out, or the recording is bad. A source
// keeps octets in kept from one call to the next.
pub fn next(receiver: Receiver, window: &[u8], kept: &mut [u8; KEPT], out: &mut [u8]) -> Listed
    ensures { Nexts receiver kept.old window.now out.old result kept.new out.new }
{
    let mut octets = [0u8; Session::OCTETS];
    let mut lengths = [0u16; Session::LENGTHS];
    let mut firsts = [0u32; Session::FIRSTS];
    let mut source = receiver.source;
    let mut session = receiver.session;
    let mut at = 0;
    let mut size = 0;
    while ROOM <= out.len() - size {
        let scanned = source.scan(&window[at..], kept);
        let taken = scanned.taken;
        source = scanned.source;
        match taken {
            Taken::Missing(n) => return stopped(source, session, at, size, Stop::Missing(n)),
            Taken::Over => return stopped(source, session, at, size, Stop::Over),
            Taken::Bad => return stopped(source, session, at, bad_line(out, size), Stop::Over),
            Taken::Opened(t) => {
                let opened = Session::open(t as u8, 0);
                session = opened.session;
                size = listing_lines::header_line(out, size);
            }
            Taken::Nothing => {}
            Taken::Here(_, _) | Taken::Kept(_) | Taken::Refused(_) => {
                let stepped = receiver::offer(
                    session,
                    taken,
                    &window[at..],
                    kept,
                    &mut octets,
                    &mut lengths,
                    &mut firsts,
                );
                session = stepped.session;
                size = frame_lines(
                    out,
                    size,
                    session.arrival,
                    stepped.answer,
                    &octets,
                    &lengths,
                    &firsts,
                );
            }
        }
        at += scanned.used;
    }
    stopped(source, session, at, size, Stop::Full)
}

// What is told at the input's end, from index at on, and the index behind it. With less than a line's room there out stays.
pub fn end(source: Source, out: &mut [u8], at: usize) -> usize
    ensures { Puts longest_line (at_end source) out.old at out.new result }
{
    if source.cut() {
        return listing_lines::bad_line(out, at);
    }
    at
}

// The lines of a frame and of the packets that it completes, put behind what the output has, and how much it then has.
fn frame_lines(
    out: &mut [u8],
    used: usize,
    arrival: u32,
    answer: Result<Accepted, Refusal>,
    octets: &[u8],
    lengths: &[u16],
    firsts: &[u32],
) -> usize
    requires room_in_bounds { used + room ≤ length out.old }
    requires answer_bound { (told answer).fields.packets ≤ 16 }
    requires lengths_len { (length lengths.now ≡ 16) × (length firsts.now ≡ 16) }
    requires lengths_in_bounds { total (take (told answer).fields.packets lengths.now) ≤ length octets.now }
    ensures { Laid room
        (answered arrival (told answer) octets.now lengths.now firsts.now)
        out.old used out.new result }
{
    let next = listing_lines::answer_line(out, used, arrival, answer);
    match answer {
        Ok(a) => {
            packet_lines(
                out,
                next,
                arrival,
                usize::from(a.packets),
                octets,
                lengths,
                firsts,
            )
        }
        Err(_) => next,
    }
}

// The lines of the packets that stand end to end at the start of octets, handed out under that arrival number.
fn packet_lines(
    out: &mut [u8],
    used: usize,
    arrival: u32,
    packets: usize,
    octets: &[u8],
    lengths: &[u16],
    firsts: &[u32],
) -> usize
    requires packets_in_bounds { used + longest_line * packets ≤ length out.old }
    requires packets_bound { packets ≤ 16 }
    requires lengths_len { (length lengths.now ≡ 16) × (length firsts.now ≡ 16) }
    requires lengths_in_bounds { total (take packets lengths.now) ≤ length octets.now }
    ensures { Laid (longest_line * packets)
        (packets_text (cut arrival octets.now (take packets lengths.now) firsts.now))
        out.old used out.new result }
{
    let mut next = used;
    let mut from = 0;
    for i in 0..packets {
        let size = lengths[i];
        let end = from + usize::from(size);
        let read = Packet::read(&octets[from..end]).map_err(Reason::number);
        next = listing_lines::packet_line(out, next, firsts[i], arrival, size, read);
        from = end;
    }
    next
}
