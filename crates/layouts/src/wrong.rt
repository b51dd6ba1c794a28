// What is wrong with a line, where more can be told of it than that it is no layout, no entry and no comment.
ghost use Rattle.std.specs.Prelude.{◌≡◌, drop};
ghost use Rattle.layouts.specs.Reason.{in_line, second_at, zero_led, numbers_at, zero_at, marked, reason_at};

use super::Fault;

// Whether the line from index at of text on has an octet.
fn in_line(text: &[u8], at: usize, octet: u8) -> bool
    ensures { result ≡ in_line octet (drop at text.now) }
{
    for i in at..text.len() {
        if text[i] == b'\n' {
            return false;
        }
        if text[i] == octet {
            return true;
        }
    }
    false
}

// The index behind the first space of the line from index at of text on; where it has none, of what ends it.
fn second(text: &[u8], at: usize) -> usize
    ensures { result ≡ second_at text.now at }
{
    for i in at..text.len() {
        if text[i] == b'\n' {
            return i;
        }
        if text[i] == b' ' {
            return i + 1;
        }
    }
    at.max(text.len())
}

// Whether a number at index at of text has a leading zero.
fn zero_led(text: &[u8], at: usize) -> bool
    ensures { result ≡ zero_led text.now at }
{
    let two = octets::part(text, at, 2);
    if two.len() < 2 {
        return false;
    }
    (two[0] == b'0') & (b'0' <= two[1]) & (two[1] <= b'9')
}

// Where the numbers of the line that starts at index at of text start.
fn numbers_at(text: &[u8], at: usize) -> usize
    ensures { result ≡ numbers_at text.now at }
{
    if octets::same(octets::part(text, at, 7), b"layout ") {
        return second(text, at);
    }
    at
}

// Whether one of the two numbers of the line that starts at index at of text has a leading zero.
fn zero_at(text: &[u8], at: usize) -> bool
    ensures { result ≡ zero_at text.now at }
{
    let first = numbers_at(text, at);
    zero_led(text, first) | zero_led(text, second(text, first))
}

// Whether a byte order mark stands at the text's start.
fn marked(text: &[u8]) -> bool
    ensures { result ≡ marked text.now }
{
    octets::same(octets::part(text, 0, 3), b"\xef\xbb\xbf")
}

// What is wrong with the line that starts at index at of text and has this fault: the first of a byte order mark at the text's start, a
// carriage return, a tab and a leading zero; else the fault.
pub(crate) fn reason(text: &[u8], at: usize, fault: Fault) -> Fault
    ensures { result ≡ reason_at text.now at fault }
{
    if (at == 0) & marked(text) {
        return Fault::Mark;
    }
    if in_line(text, at, b'\r') {
        return Fault::Return;
    }
    if in_line(text, at, b'\t') {
        return Fault::Tab;
    }
    if zero_at(text, at) {
        return Fault::Zero;
    }
    fault
}
