// Which input a program's words name: a recording, or with --kiss T or --bits T a stream whose frames end with T octets of time.
#![tactic(auto)]

ghost use Rattle.std.specs.Prelude.{◌≡◌};
ghost use Rattle.io.specs.Counts.{IsPrefixLen};
ghost use Rattle.inputs.specs.Words.{time_of, wrong_words, none_named, receiver_of};

use receiver::Receiver;
use std::env::{Env, FillError};

// Standard error's descriptor.
const STDERR_FILENO: i32 = 2;

// t, told by one digit, 0 to 8; else 9.
fn time(word: &[u8]) -> u8
    ensures { result ≡ time_of word.now }
{
    if word.len() != 1 {
        return 9;
    }
    if word[0] < b'0' {
        return 9;
    }
    if b'8' < word[0] {
        return 9;
    }
    word[0] - b'0'
}

// Whether two words name no input: there is a first, and it is no kind of stream or the second is no t.
pub fn wrong(kind: &[u8], word: &[u8]) -> bool
    ensures { result ≡ wrong_words kind.now word.now }
{
    let kiss = octets::same(kind, b"--kiss");
    let bits = octets::same(kind, b"--bits");
    let t = time(word);
    (kind.len() != 0) & (!(kiss | bits) | (t == 9))
}

// The receiver of the input that two words name, of which nothing is read yet; with any other words of a recording.
pub fn receiver(kind: &[u8], word: &[u8]) -> Receiver
    ensures { result ≡ receiver_of kind.now word.now }
{
    if octets::same(kind, b"--kiss") {
        return Receiver::kiss(time(word)).receiver;
    }
    if octets::same(kind, b"--bits") {
        return Receiver::bits(time(word)).receiver;
    }
    Receiver::recording()
}

// Says on standard error, behind a program's name, which words name an input.
pub fn tell(name: &[u8]) {
    io::write_all(STDERR_FILENO, name);
    io::write_all(
        STDERR_FILENO,
        b": words: --kiss T or --bits T, T from 0 to 8\n",
    );
}

// Puts the program's word number i to the start of a buffer, and answers how many octets it has: 0 too if it is not there or too long.
pub fn word(rt: &HostRuntime, i: usize, buffer: &mut [u8]) -> usize
    ensures { IsPrefixLen result buffer.new }
{
    match rt.arg(i, buffer) {
        Ok(n) => n,
        Err(_) => 0,
    }
}

// Whether the program has a word number i.
pub fn has_word(rt: &HostRuntime, i: usize) -> bool {
    let mut none = [0u8; 1];
    match rt.arg(i, &mut none) {
        Ok(_) => true,
        Err(FillError::TooLong) => true,
        Err(FillError::NotPresent) => false,
    }
}

// Whether the program's words from number i on name no input, which is told; a word that is empty or too long names none.
pub fn refused(rt: &HostRuntime, name: &[u8], i: usize) -> bool {
    let mut kind = [0u8; 8];
    let mut word = [0u8; 2];
    let n = self::word(rt, i, &mut kind);
    let m = self::word(rt, i.wrapping_add(1), &mut word);
    let refused = none_named(has_word(rt, i), &kind[..n], &word[..m]);
    if refused {
        tell(name);
    }
    refused
}

// Whether two words as they were read name no input: a first word that is there and of which nothing was read, as it is empty or too long,
// names none.
fn none_named(there: bool, kind: &[u8], word: &[u8]) -> bool
    ensures { result ≡ none_named there kind.now word.now }
{
    let unread = there & (kind.len() == 0);
    let wrong = wrong(kind, word);
    unread | wrong
}

// The receiver of the input that the program's words from number i on name, if they are not refused.
pub fn by_words(rt: &HostRuntime, i: usize) -> Receiver {
    let mut kind = [0u8; 8];
    let mut word = [0u8; 2];
    let n = self::word(rt, i, &mut kind);
    let m = self::word(rt, i.wrapping_add(1), &mut word);
    receiver(&kind[..n], &word[..m])
}
