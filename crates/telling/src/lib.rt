// What is told on standard error, behind the program's name, and counts of what is refused, by its number.
#![tactic(auto)]

ghost use Rattle.std.specs.Prelude.{◌≡◌};
ghost use Rattle.telling.specs.Counts.{counted, next_of};

use std::io::{Cursor, Error, Write};

// Standard error's descriptor.
const STDERR_FILENO: i32 = 2;

// Says a line.
pub fn say(name: &[u8], what: &[u8]) {
    io::write_all(STDERR_FILENO, name);
    io::write_all(STDERR_FILENO, what);
}

// Says that a file could not be opened, read or written, and why.
pub fn fail(name: &[u8], file: &[u8], why: Error) {
    say(name, b": ");
    explain(file, why);
}

// Says what failed, and behind a colon the system's words for why.
pub fn explain(what: &[u8], why: Error) {
    let mut text = Cursor::new([0u8; 256]);
    let put = write!(text, "{why}");
    let n = match put {
        Ok(()) => worded(why, text.position()),
        Err(_) => 0,
    };
    say(what, b": ");
    io::write_all(STDERR_FILENO, octets::part(text.get_ref(), 0, n));
    io::write_all(STDERR_FILENO, b"\n");
}

// How many octets of an error's text, which has n, are the system's words: its number stands behind them, as in " (os error 2)".
fn worded(why: Error, n: u64) -> usize {
    let all = n as usize;
    match why.raw_os_error() {
        Some(code) => {
            let behind = numbered(code);
            all.checked_sub(behind).unwrap_or(all)
        }
        None => all,
    }
}

// How many octets tell an error's number behind the system's words.
fn numbered(code: i32) -> usize {
    if code < 10 {
        return 13;
    }
    if code < 100 {
        return 14;
    }
    15
}

// Counts one more of a number, if it has a place in the counts.
pub fn count(counts: &mut [u64], number: u16)
    ensures { counts.new ≡ counted counts.old number }
{
    let n = number as usize;
    if n < counts.len() {
        counts[n] = counts[n].wrapping_add(1);
    }
}

// Says how many of what were refused with a number.
fn refused(name: &[u8], count: u64, what: &[u8], number: u64) {
    say(name, b": refused ");
    io::print_decimal(STDERR_FILENO, count);
    io::write_all(STDERR_FILENO, what);
    if count != 1 {
        io::write_all(STDERR_FILENO, b"s");
    }
    io::write_all(STDERR_FILENO, b" with ");
    io::print_decimal(STDERR_FILENO, number);
    io::write_all(STDERR_FILENO, b"\n");
}

// The first number from one on of which there were any; if there is none, that behind the last.
fn next(counts: &[u64], from: usize) -> usize
    ensures { result ≡ next_of counts.now from }
{
    for i in from..counts.len() {
        if counts[i] != 0 {
            return i;
        }
    }
    from.max(counts.len())
}

// Says how many of what were refused, by the refusals' rising numbers.
pub fn tell(name: &[u8], counts: &[u64], what: &[u8]) {
    let mut i = next(counts, 0);
    while i < counts.len() {
        refused(name, counts[i], what, i as u64);
        i = next(counts, i + 1);
    }
}
