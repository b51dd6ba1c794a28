// The layouts' file: read whole, and what is wrong with it told.
ghost use Rattle.readings_run.specs.Text.{Ends};

use layouts::Fault;
use std::fs::File;
use std::io::Read;
use std::os::fd::AsRawFd;

// Standard error's descriptor.
const STDERR_FILENO: i32 = 2;

// What loading the file came to.
#[derive(Clone, Copy)]
pub(crate) enum Loaded {
    // So many octets at the start of the buffer are its text.
    Text(usize),
    // It fills the buffer, which was told.
    Wrong,
    // It could not be opened or read, or it changed while it was read, which was told.
    Failed,
}

// Puts the file at path to the start of text, and a newline behind it where the last line has none.
pub(crate) fn load(rt: &HostRuntime, name: &[u8], path: &[u8], text: &mut [u8]) -> Loaded {
    let filled = match window::open(rt, path) {
        Ok(file) => fill(name, path, &file, text),
        Err(why) => {
            telling::fail(name, path, why);
            Loaded::Failed
        }
    };
    match filled {
        Loaded::Text(size) => Loaded::Text(line_ended(text, size)),
        _ => filled,
    }
}

// Ends the last line of the n octets at the start of text, where there is room for that.
fn line_ended(text: &mut [u8], n: usize) -> usize
    ensures { Ends text.old n text.new result }
{
    if n == 0 {
        return 0;
    }
    if text.len() <= n {
        return n;
    }
    if text[n - 1] == b'\n' {
        return n;
    }
    text[n] = b'\n';
    n + 1
}

// Puts the file's octets to the start of text.
fn fill(name: &[u8], path: &[u8], file: &File, text: &mut [u8]) -> Loaded {
    let n = io::read_full(file.as_raw_fd(), text);
    if n == text.len() {
        about(name, path, b" has more than 65,535 octets\n");
        return Loaded::Wrong;
    }
    let mut more = [0u8; 1];
    let mut from = file;
    match from.read(&mut more) {
        Ok(0) => Loaded::Text(n),
        Ok(_) => {
            about(name, path, b" changed while it was read\n");
            Loaded::Failed
        }
        Err(why) => {
            telling::fail(name, path, why);
            Loaded::Failed
        }
    }
}

// Says a line about the file.
fn about(name: &[u8], path: &[u8], what: &[u8]) {
    named(name, path);
    says(what);
}

// Begins a line about the file.
fn named(name: &[u8], path: &[u8]) {
    telling::say(name, b": ");
    io::write_all(STDERR_FILENO, path);
}

// Begins a line about a line of the file.
fn numbered(name: &[u8], path: &[u8], line: u64) {
    named(name, path);
    io::write_all(STDERR_FILENO, b" line ");
    io::print_decimal(STDERR_FILENO, line);
    io::write_all(STDERR_FILENO, b": ");
}

// Says what is wrong with a line of the file, with the paper's refusal where it has one.
pub(crate) fn wrong(name: &[u8], path: &[u8], line: usize, fault: Fault) {
    numbered(name, path, line as u64);
    let number = layouts::fault_number(fault);
    if number != 0 {
        io::print_decimal(STDERR_FILENO, number as u64);
        io::write_all(STDERR_FILENO, b": ");
    }
    words(fault);
}

// Whether a file that was read whole has no layout, or a name twice in one; it is told.
pub(crate) fn unusable(
    name: &[u8],
    path: &[u8],
    text: &[u8],
    starts: &[usize],
    n: usize,
    froms: &[usize],
    tos: &[usize],
) -> bool {
    if n == 0 {
        about(name, path, b" has no layout\n");
        return true;
    }
    match layout_names::repeated(text, starts, n, froms, tos) {
        None => false,
        Some(k) => {
            repeated(name, path, text, froms, k);
            true
        }
    }
}

// Says that the name of entry k stands before it in its layout.
fn repeated(name: &[u8], path: &[u8], text: &[u8], froms: &[usize], k: usize) {
    if let Some(&from) = froms.get(k) {
        let before = layout_names::lines(octets::part(text, 0, from));
        numbered(name, path, (before as u64).wrapping_add(1));
        says(b"a name that stands before it in this layout\n");
    }
}

// Says what a fault is, and ends the line.
fn words(fault: Fault) {
    match fault {
        Fault::Line => says(b"no 'layout APID SID', no 'TYPE FORMAT NAME' and no comment\n"),
        Fault::Number => says(b"an APID above 2047, or a SID, type or format above 255\n"),
        Fault::Name => says(b"a name is 1 to 32 letters, digits, '_', '-' and '.'\n"),
        Fault::First => says(b"an entry before any layout\n"),
        Fault::Many => says(b"more than 64 entries\n"),
        Fault::Code => says(b"unknown code\n"),
        Fault::Empty => says(b"a layout without entries\n"),
        Fault::Width => says(b"not a whole number of octets\n"),
        Fault::Twice => says(b"a second layout for this APID and SID\n"),
        Fault::Room => says(b"more than 64 layouts, or more than 1,024 entries\n"),
        Fault::Mark => says(b"a byte order mark before the first word\n"),
        Fault::Return => says(b"a carriage return: a newline alone ends a line\n"),
        Fault::Tab => says(b"a tab: one space stands between words\n"),
        Fault::Zero => says(b"a number with a leading zero\n"),
    };
}

// Says words.
fn says(what: &[u8]) -> bool {
    io::write_all(STDERR_FILENO, what)
}
