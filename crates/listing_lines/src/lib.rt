// The listing's lines as text, each put into lent octets from an index on.
#![tactic(auto)]

ghost use Rattle.std.specs.Prelude.{◌≡◌, [], ◌∷◌, ◌++◌, ◌+◌, ◌≤◌, length, ltb};
ghost use Rattle.decimal.specs.Text.{longest_number, decimal, each};
ghost use Rattle.decimal.specs.Laid.{Laid, Puts};
ghost use Rattle.session.specs.Step.{told as toldStep};
ghost use Rattle.listing_lines.specs.Text.{longest_line, shown, accepted_line, refused_line, packet_line, turned_away_line, packet_text};
ghost use Rattle.listing_lines.specs.Text.{answer_text, numbered, header, bad_recording};

use answer::Refusal;
use packet::Packet;
use session::Accepted;

// The most octets that a line takes. With less room a call here leaves `out` unchanged and returns the index that it was given.
pub const LINE: usize = 80;

// The listing's first line from index at on, and the index behind it.
pub fn header_line(out: &mut [u8], at: usize) -> usize
    ensures { Puts longest_line header out.old at out.new result }
{
    if no_room(out, at) {
        return at;
    }
    octets::put(out, at, b"arrival answer channel lost master packets\n");
    at + 43
}

// The line of a bad recording.
pub fn bad_line(out: &mut [u8], at: usize) -> usize
    ensures { Puts longest_line bad_recording out.old at out.new result }
{
    if no_room(out, at) {
        return at;
    }
    octets::put(out, at, b"bad recording\n");
    at + 14
}

// The line of a frame with that arrival number that the session answered so.
pub fn answer_line(
    out: &mut [u8],
    at: usize,
    arrival: u32,
    answer: Result<Accepted, Refusal>,
) -> usize
    ensures { Puts longest_line (answer_text arrival (toldStep answer)) out.old at out.new result }
{
    if no_room(out, at) {
        return at;
    }
    match answer {
        Ok(a) => accepted(out, at, arrival, a),
        Err(refusal) => refused(out, at, arrival, refusal.number),
    }
}

// The line of a packet of that size, with the arrival numbers of the frames with its first octet and its last, that the packet reader
// answered so.
pub fn packet_line(
    out: &mut [u8],
    at: usize,
    first: u32,
    arrival: u32,
    size: u16,
    read: Result<Packet, u16>,
) -> usize
    ensures { Puts longest_line (packet_text first arrival size (numbered read)) out.old at out.new result }
{
    if no_room(out, at) {
        return at;
    }
    match read {
        Ok(p) => taken(out, at, first, arrival, p, size),
        Err(refusal) => turned_away(out, at, first, arrival, refusal, size),
    }
}

// Whether out has no room for a line from index at on.
fn no_room(out: &[u8], at: usize) -> bool
    ensures { result ≡ ltb (length out.now) (at + longest_line) }
{
    out.len() < at || out.len() - at < LINE
}

// A loss and a space behind it: the number, or a question mark.
fn loss(out: &mut [u8], at: usize, lost: Option<u8>) -> usize
    ensures { Puts longest_number (shown lost ++ (32 ∷ [])) out.old at out.new result }
{
    match lost {
        None => mark(out, at),
        Some(n) => decimal::number(out, at, n as u32, b' '),
    }
}

// A question mark and a space behind it, where a number would have room.
fn mark(out: &mut [u8], at: usize) -> usize
    ensures { Puts longest_number (63 ∷ 32 ∷ []) out.old at out.new result }
{
    if out.len() < at || out.len() - at < decimal::NUMBER {
        return at;
    }
    octets::put(out, at, b"? ");
    at + 2
}

// The line of an accepted frame.
fn accepted(out: &mut [u8], at: usize, arrival: u32, a: Accepted) -> usize
    requires { at + longest_line ≤ length out.old }
    ensures { Laid longest_line (accepted_line arrival a) out.old at out.new result }
{
    let list = [arrival, 0, a.channel as u32];
    let next = decimal::numbers(out, at, &list, b' ');
    let after = loss(out, next, a.lost);
    let last = loss(out, after, a.master);
    decimal::number(out, last, a.packets as u32, b'\n')
}

// The line of a refused frame.
fn refused(out: &mut [u8], at: usize, arrival: u32, refusal: u16) -> usize
    requires { at + longest_line ≤ length out.old }
    ensures { Laid longest_line (refused_line arrival refusal) out.old at out.new result }
{
    let list = [arrival, refusal as u32];
    let next = decimal::numbers(out, at, &list, b' ');
    octets::put(out, next, b"- - - -\n");
    next + 8
}

// The line of a packet that the packet reader accepts.
fn taken(out: &mut [u8], at: usize, first: u32, arrival: u32, p: Packet, size: u16) -> usize
    requires { at + longest_line ≤ length out.old }
    ensures { Laid longest_line (packet_line first arrival p size) out.old at out.new result }
{
    let list = [
        first,
        arrival,
        p.apid as u32,
        p.sequence.0 as u32,
        p.service as u32,
        p.subtype as u32,
    ];
    lettered(out, at, b'P', &list, size)
}

// The line of a packet that the packet reader turns away.
fn turned_away(
    out: &mut [u8],
    at: usize,
    first: u32,
    arrival: u32,
    refusal: u16,
    size: u16,
) -> usize
    requires { at + longest_line ≤ length out.old }
    ensures { Laid longest_line (turned_away_line first arrival refusal size) out.old at out.new result }
{
    let list = [first, arrival, refusal as u32];
    lettered(out, at, b'Q', &list, size)
}

// A packet's line: a letter, a list of numbers, and the packet's length.
fn lettered(out: &mut [u8], at: usize, x: u8, list: &[u32], size: u16) -> usize
    requires longest_line_in_bounds { at + longest_line ≤ length out.old }
    requires list_len_bound { length list.now ≤ 6 }
    ensures { Laid longest_line (x ∷ 32 ∷ each 32 list.now (decimal size ++ (10 ∷ []))) out.old at
        out.new result }
{
    let first = at + 2;
    octets::put(out, at, &[x, b' ']);
    let next = decimal::numbers(out, first, list, b' ');
    decimal::number(out, next, size as u32, b'\n')
}
