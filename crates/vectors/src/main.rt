// Runs the cases that stand on standard input through the public calls, and prints one line a case.
#![tactic(auto)]

use format_cases::{frames, packets, reports};
use records::{input, kinds, places, text};
use session::Session;

// Standard input's descriptor.
const STDIN_FILENO: i32 = 0;

// Runs a case of a call without a session by its kind, on what is lent to it.
fn format(c: &[u8], octets: &mut [u8], words: &mut [u16], fours: &mut [u32]) {
    let input = input::block(c, places::INPUT);
    match input::octet(c, places::KIND) {
        kinds::PACKET_CHECK => text::check(b"accepted ", crc::packet_check(input)),
        kinds::FRAME_CHECK => text::check(b"accepted ", crc::frame_check(input)),
        kinds::SEQUENCE => image_cases::missing(c, words),
        kinds::PACKET_READER => packets::read(input),
        kinds::PACKET_WRITER => packets::write(c, octets),
        kinds::FRAME_READER => frames::read(c),
        kinds::FRAME_WRITER => frames::write(c, octets),
        kinds::SENDER => sender_cases::send(c, octets, words),
        kinds::SENDER_EMPTY => sender_cases::empty(c, octets),
        kinds::PLACING => image_cases::place(c, octets, fours),
        kinds::PLACING_ORDER => image_cases::place_in_order(c, octets, fours),
        kinds::REPORT_READER => reports::read(c),
        kinds::REPORT_WRITER => reports::write(c, octets),
        kinds::HOUSEKEEPING_READER => housekeeping_cases::read(c, octets, words, fours),
        kinds::HOUSEKEEPING_WRITER => housekeeping_cases::write(c, octets),
        kinds::DAMAGE => damage_cases::read(c, octets),
        kinds::PICTURE_READER => picture_cases::read(c, octets, fours),
        kinds::PICTURE_WRITER => picture_cases::write(c, octets, fours),
        kinds::KISS_IMPORT => stream_cases::kiss_import(c),
        kinds::KISS_EXPORT => stream_cases::kiss_export(c, octets),
        kinds::BITS_READER => stream_cases::bits_reader(c),
        kinds::BITS_WRITER => stream_cases::bits_writer(c, octets),
        _ => text::say(b"no such kind"),
    }
}

// Runs a case by its kind, and answers the session for the next.
fn run(c: &[u8], s: Session, octets: &mut [u8], words: &mut [u16], fours: &mut [u32]) -> Session {
    match input::octet(c, places::KIND) {
        kinds::SESSION_OPEN => session_cases::open(c),
        kinds::SESSION => session_cases::given(c),
        kinds::SESSION_STEP => session_cases::step(c, s, octets, words, fours),
        _ => {
            format(c, octets, words, fours);
            s
        }
    }
}

// Lends what the case asks for, and runs it behind its name.
fn lend(c: &[u8], s: Session) -> Session {
    let octet = input::octet(c, places::OCTET);
    let word = input::word(c, places::WORD);
    let four = input::four(c, places::FOUR);
    let mut octets = [octet; 30000];
    let mut words = [word; 2051];
    let mut fours = [four; 1872];
    let n = input::room(c, places::OCTETS, 30000);
    let m = input::room(c, places::WORDS, 2051);
    let k = input::room(c, places::FOURS, 1872);
    text::say(input::block(c, places::NAME));
    text::say(b": ");
    let next = run(c, s, &mut octets[..n], &mut words[..m], &mut fours[..k]);
    text::say(b"\n");
    next
}

// Reads a record as long as what is lent, and runs it.
fn read(record: &mut [u8], s: Session) -> Session {
    io::read_full(STDIN_FILENO, record);
    lend(record, s)
}

// The same with the length that stands before it.
fn next(head: &[u8], s: Session) -> Session {
    let mut record = io::large_buffer();
    let n = input::room(head, 0, 65536);
    read(&mut record[..n], s)
}

fn main() {
    let opened = Session::open(0, 0);
    let mut s = opened.session;
    let mut head = [0u8; 4];
    let mut left = u64::MAX;
    while left > 0 && io::read_full(STDIN_FILENO, &mut head) == 4 {
        s = next(&head, s);
        left -= 1;
    }
}
