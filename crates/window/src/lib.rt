// The input's window and the output: the octets at hand are kept while more are read, and what fails is told.
//
// The octets at hand are those of an input buffer from an index at up to an index end, as far as they are there.
#![tactic(auto)]

ghost use Rattle.std.specs.Prelude.{◌+◌, ◌≤◌, ◌≡◌, ◌≢◌, length, take, drop, IfSome};
ghost use Rattle.std.specs.Io.{ReadsAtMost};
ghost use Rattle.std.specs.Process.{exit_status};
ghost use Rattle.window.specs.Status.{done, against};
ghost use Rattle.window.specs.Window.{hand, Refills, unread, unwritten};

use std::fs::File;
use std::io::{Error, ErrorKind, Read, Result, Seek, SeekFrom, Stdin};
use std::os::unix::fs::FileExt;
use std::process::ExitCode;
use std_io::io::last_error;

// The descriptors of standard output and standard error.
const STDOUT_FILENO: i32 = 1;

const STDERR_FILENO: i32 = 2;

// A program's exit status: all that was asked was done.
pub const DONE: i32 = 0;

// The verdict went against the input: a bad recording, a table that does not pass, a wrong script or layout.
pub const AGAINST: i32 = 1;

// The program was used wrongly, or the system failed.
pub const BROKEN: i32 = 2;

// The system's number for octets that are no text: EILSEQ.
const NO_TEXT: i32 = 84;

// A program's exit status as the system takes it.
pub fn exit(status: i32) -> ExitCode
    ensures done { status ≡ done → exit_status result ≡ 0 }
    ensures against { status ≡ against → exit_status result ≡ 1 }
    ensures other { status ≢ done → status ≢ against → exit_status result ≡ 2 }
{
    if status == DONE {
        return ExitCode::from(0);
    }
    if status == AGAINST {
        return ExitCode::from(1);
    }
    ExitCode::from(2)
}

// Where octets come from: standard input, or a file that the command line names.
#[derive(Drop)]
pub enum Source {
    Input(Stdin),
    Named(File),
}

impl Source {
    // Reads once, as many octets as come, to the buffer's start.
    fn read_once(&self, part: &mut [u8]) -> Result<usize>
        ensures { ReadsAtMost result part.new }
    {
        match self {
            Source::Input(input) => {
                let mut from = input;
                from.read(part)
            }
            Source::Named(file) => {
                let mut from = file;
                from.read(part)
            }
        }
    }

    // Reads the first octet by its place, without going on from there: that fails with a folder or a pipe. Standard input is no named file.
    pub fn probe(&self) -> Result<usize> {
        let mut one = [0u8; 1];
        match self {
            Source::Input(_) => Err(Error::from(ErrorKind::NotSeekable)),
            Source::Named(file) => file.read_at(&mut one, 0),
        }
    }

    // Goes to an index of a named file, and answers where it is then.
    pub fn seek(&self, at: u64) -> Result<u64> {
        match self {
            Source::Input(_) => Err(Error::from(ErrorKind::NotSeekable)),
            Source::Named(file) => {
                let mut from = file;
                from.seek(SeekFrom::Start(at))
            }
        }
    }
}

// Opens the file at a path for reading. The path is text in UTF-8; octets that are none name no file.
pub fn open(rt: &HostRuntime, path: &[u8]) -> Result<File> {
    match std::str::from_utf8(path) {
        Ok(text) => File::open(rt, text),
        Err(_) => Err(Error::from_raw_os_error(NO_TEXT)),
    }
}

// What a read left: how many octets are at hand, from the buffer's start on, how many of them came, whether it failed, and whether the
// system was asked at all. The fields are private, so that only a read answers that octets came, that none are left or that it failed.
#[derive(Clone, Copy)]
pub struct Refilled {
    have: usize,
    came: usize,
    failed: bool,
    tried: bool,
}

impl Refilled {
    // Nothing was read.
    pub fn none() -> Refilled
        ensures { result ≡ unread }
    {
        Refilled {
            have: 0,
            came: 0,
            failed: false,
            tried: false,
        }
    }

    // How many octets are at hand.
    pub fn have(self) -> usize
        ensures { result ≡ self.have }
    {
        self.have
    }

    // How many octets came.
    pub fn came(self) -> usize
        ensures { result ≡ self.came }
    {
        self.came
    }

    // Whether the read failed.
    pub fn failed(self) -> bool
        ensures { result ≡ self.failed }
    {
        self.failed
    }
}

// How many of an output's first octets were handed to a write, and whether it failed. The fields are private, so that only a write answers
// that octets were handed on or that it failed.
#[derive(Clone, Copy)]
pub struct Written {
    size: usize,
    failed: bool,
}

impl Written {
    // Nothing was written.
    pub fn none() -> Written
        ensures { result ≡ unwritten }
    {
        Written {
            size: 0,
            failed: false,
        }
    }

    // How many octets were handed on.
    pub fn size(self) -> usize
        ensures { result ≡ self.size }
    {
        self.size
    }

    // Whether the write failed.
    pub fn failed(self) -> bool
        ensures { result ≡ self.failed }
    {
        self.failed
    }
}

// The octets at hand.
pub fn hand(input: &[u8], at: usize, end: usize) -> &[u8]
    ensures { result.now ≡ hand input.now at end }
{
    if end <= at {
        return octets::part(input, 0, 0);
    }
    if end <= input.len() {
        return &input[at..end];
    }
    if at <= input.len() {
        return &input[at..];
    }
    octets::part(input, 0, 0)
}

// Moves the octets at hand to the buffer's start and reads behind them once. What fails is told on standard error, behind the program's
// name; where the buffer has no room nothing is read, and that is told as a failure.
pub fn refill(name: &[u8], source: &Source, input: &mut [u8], at: usize, end: usize) -> Refilled
    ensures { Refills input.old at end input.new result }
{
    let have = hand(input, at, end).len();
    shift(input, at, have);
    if have == input.len() {
        tell_full(name, source);
        return Refilled {
            have,
            came: 0,
            failed: true,
            tried: true,
        };
    }
    let got = read_some(name, source, input, have);
    let came = got.unwrap_or(0);
    Refilled {
        have: have + came,
        came,
        failed: got.is_none(),
        tried: true,
    }
}

// Hands the first n octets of the output to the system. What fails is told on standard error, behind the program's name.
pub fn write(name: &[u8], out: &[u8], n: usize) -> Written
    ensures { result.size ≡ length (hand out.now 0 n) }
{
    let octets = hand(out, 0, n);
    let size = octets.len();
    let well = io::write_all(STDOUT_FILENO, octets);
    if !well {
        io::write_all(STDERR_FILENO, name);
        telling::explain(b": standard output", last_error());
    }
    Written {
        size,
        failed: !well,
    }
}

// Moves the n octets from index at on to the start.
fn shift(input: &mut [u8], at: usize, n: usize)
    requires { n ≤ length (drop at input.old) }
    ensures { take n input.new ≡ take n (drop at input.old) }
{
    if n != 0 {
        input.copy_within(at..at + n, 0);
    }
}

// One read to the octets from index `from` on, and how many came; one that fails is told, and answers none.
fn read_some(name: &[u8], source: &Source, input: &mut [u8], from: usize) -> Option<usize>
    requires { from ≤ length input.old }
    ensures came_in_bounds { IfSome result (λ came. from + came ≤ length input.new) }
    ensures input_unchanged { take from input.new ≡ take from input.old }
{
    let part = &mut input[from..];
    match source.read_once(part) {
        Ok(came) => Some(came),
        Err(why) => {
            report(name, source, why);
            None
        }
    }
}

// Tells on standard error, behind the program's name, which input this is about: a program reads standard input, or one file that its
// command line names.
fn name_input(name: &[u8], source: &Source) {
    io::write_all(STDERR_FILENO, name);
    match source {
        Source::Input(_) => {
            io::write_all(STDERR_FILENO, b": standard input");
        }
        Source::Named(_) => {
            io::write_all(STDERR_FILENO, b": the named file");
        }
    }
}

// Tells on standard error that there is no room for a read.
fn tell_full(name: &[u8], source: &Source) {
    name_input(name, source);
    io::write_all(STDERR_FILENO, b": no room to read more of it\n");
}

// Tells a read that failed on standard error.
fn report(name: &[u8], source: &Source, why: Error) {
    name_input(name, source);
    telling::explain(b"", why);
}
