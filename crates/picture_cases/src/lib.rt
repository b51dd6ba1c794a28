// The reader and the writer of pictures. A greymap or an image stands in a record in runs, each of four octets: 256 times its length, and
// its octet.
#![tactic(auto)]

use records::{input, places, text};

// Puts a run into out from index at on, as far as there is room, and answers the index behind it.
fn run(n: u32, out: &mut [u8], at: usize) -> usize {
    let octet = [(n % 256) as u8];
    let mut end = at;
    for _ in 0..n / 256 {
        octets::put(out, end, &octet);
        end = end.wrapping_add(1);
    }
    end
}

// Puts runs at the start of out, as far as there is room, and answers how many octets they are.
fn unfold(runs: &[u8], out: &mut [u8]) -> usize {
    let mut end = 0;
    for four in runs.chunks(4) {
        end = run(input::four(four, 0), out, end);
    }
    end
}

// Puts numbers, each of four octets, into a list.
fn number(numbers: &[u8], list: &mut [u32]) {
    for (i, entry) in list.iter_mut().enumerate() {
        *entry = input::four(octets::part(numbers, i.wrapping_mul(4), 4), 0);
    }
}

// Reads a greymap and the text of the line numbers, and prints the lent image, by its check, and the lent list.
pub fn read(c: &[u8], image: &mut [u8], lines: &mut [u32]) {
    let mut given = [0u8; 22600];
    let n = unfold(input::block(c, places::INPUT), &mut given);
    match greymap::read(
        octets::part(&given, 0, n),
        input::block(c, places::TEXT),
        image,
        lines,
    ) {
        Ok(()) => text::say(b"accepted"),
        Err(reason) => text::field(b"refusal ", reason.number() as u64),
    }
    text::check(b" image ", crc::packet_check(image));
    text::fours(b" lines", lines, 61166);
}

// Writes an image and its line numbers, and prints both outputs, the greymap's by its check.
pub fn write(c: &[u8], grey: &mut [u8], lines: &mut [u32]) {
    let mut given = [0u8; 22600];
    let n = unfold(input::block(c, places::INPUT), &mut given);
    number(input::block(c, places::LIST), lines);
    let mut numbers = [238u8; greymap::TEXT];
    let room = input::room(c, places::ROOM, greymap::TEXT);
    written(
        octets::part(&given, 0, n),
        lines,
        grey,
        &mut numbers[..room],
    );
}

fn written(image: &[u8], lines: &[u32], grey: &mut [u8], numbers: &mut [u8]) {
    match greymap::write(image, lines, grey, numbers) {
        Ok(l) => {
            text::tell(b"accepted lengths # #", &[l.grey as u64, l.text as u64]);
        }
        Err(reason) => text::field(b"refusal ", reason.number() as u64),
    }
    text::check(b" grey ", crc::packet_check(grey));
    text::lent(b" text ", numbers, 238);
}
