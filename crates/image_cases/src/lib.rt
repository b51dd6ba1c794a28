// The sequence gap, and placing a line: calls on lent lists, which are printed whole.
#![tactic(auto)]

use counts::SequenceCount;
use records::{input, places, text};
use sequence::Gap;

// Puts an entry into a list, if it has that place.
fn enter(list: &mut [u16], place: usize, entry: u16) {
    if place < list.len() {
        list[place] = entry;
    }
}

// The sequence gap, with the entry of the APID put into the list before.
pub fn missing(c: &[u8], list: &mut [u16]) {
    let apid = input::word(c, places::APID);
    enter(list, usize::from(apid), input::word(c, places::ENTRY));
    match sequence::missing(apid, SequenceCount(input::word(c, places::SEQUENCE)), list) {
        Ok(Gap::Unknown) => text::say(b"accepted missing unknown"),
        Ok(Gap::Restart) => text::say(b"accepted missing restart"),
        Ok(Gap::Missing(n)) => text::field(b"accepted missing ", n as u64),
        Err(reason) => text::field(b"refusal ", reason.number() as u64),
    }
    text::words(b" list", list, input::word(c, places::WORD));
}

// Where a line starts in an image.
fn row(n: u8) -> usize {
    188 * usize::from(n)
}

// Puts a held line, its number of the line, arrival number and pixels, into an image and its list.
fn hold(line: &[u8], image: &mut [u8], lines: &mut [u32]) {
    if line.len() < 5 {
        return;
    }
    octets::put(image, row(line[0]), octets::part(line, 5, 188));
    let n = usize::from(line[0]);
    if n < lines.len() {
        lines[n] = octets::four(line[1], line[2], line[3], line[4]);
    }
}

// Puts the held lines of a case into the image.
fn hold_all(c: &[u8], image: &mut [u8], lines: &mut [u32]) {
    let held = input::block(c, places::HELD);
    for line in held.chunks_exact(193) {
        hold(line, image, lines);
    }
}

// Placing a line, with the held lines put into the image before.
pub fn place(c: &[u8], image: &mut [u8], lines: &mut [u32]) {
    hold_all(c, image, lines);
    placed(c, image, lines);
    left(image, lines);
}

// Placing lines one after the other, with the held lines put into the image before.
pub fn place_in_order(c: &[u8], image: &mut [u8], lines: &mut [u32]) {
    hold_all(c, image, lines);
    let all = input::block(c, places::INPUT);
    let wanted = input::word(c, places::WANTED);
    text::say(b"accepted");
    for one in all.chunks_exact(256) {
        place_next(one, wanted, image, lines);
    }
    left(image, lines);
}

// Places one of several lines, given by its arrival number, its packet's length and the packet, and prints which it is, or the refusal.
fn place_next(one: &[u8], wanted: u16, image: &mut [u8], lines: &mut [u32]) {
    if one.len() < 5 {
        return;
    }
    let arrival = octets::four(one[0], one[1], one[2], one[3]);
    let packet = octets::part(one, 5, usize::from(one[4]));
    match image::place(packet, arrival, wanted, image, lines) {
        Ok(n) => text::field(b" line ", n as u64),
        Err(reason) => text::field(b" refusal ", reason.number() as u64),
    }
}

// Places the line, and prints which it is with its pixels, or the refusal.
fn placed(c: &[u8], image: &mut [u8], lines: &mut [u32]) {
    let packet = input::block(c, places::INPUT);
    let arrival = input::four(c, places::ARRIVAL);
    match image::place(
        packet,
        arrival,
        input::word(c, places::WANTED),
        image,
        lines,
    ) {
        Ok(n) => {
            text::field(b"accepted line ", n as u64);
            text::hex(b" pixels ", octets::part(image, row(n), 188));
        }
        Err(reason) => text::field(b"refusal ", reason.number() as u64),
    }
}

// Prints the image, by its check, and the numbers of its lines.
fn left(image: &[u8], lines: &[u32]) {
    text::check(b" image ", crc::packet_check(image));
    text::fours(b" lines", lines, 0);
}
