// Words, numbers and octets in a line of text. Nothing here asks anything of a caller.
#![tactic(auto)]

ghost use Rattle.std.specs.Prelude.{◌≡◌, false, ◌*◌, ◌≤◌, length};
ghost use Rattle.octets.specs.Parts.{written};
ghost use Rattle.words.specs.Octets.{digit_of, other_than_hex, octets_of, hex_count, hex_left};
ghost use Rattle.words.specs.Words.{word_of, rest_of, number_of};

// No number that a line can give, and no number of octets.
pub const NONE: usize = 18446744073709551615;

// How many octets of s come before its first space; all if there is none.
fn spaced(s: &[u8]) -> usize
    ensures value { result ≡ length (word_of s.now) }
    ensures upper_bound { result ≤ length s.now }
{
    s.iter().position(|x| *x == b' ').unwrap_or(s.len())
}

// The first word of s, up to a space, and what stands behind that space.
pub fn word(s: &[u8]) -> &[u8]
    ensures { result.now ≡ word_of s.now }
{
    &s[..spaced(s)]
}

pub fn rest(s: &[u8]) -> &[u8]
    ensures { result.now ≡ rest_of s.now }
{
    s.get(spaced(s) + 1..).unwrap_or(&[])
}

// The number below 1,000,000 that decimal digits are; else NONE.
pub fn number(s: &[u8]) -> usize
    ensures { result ≡ number_of s.now }
{
    if s.is_empty() {
        return NONE;
    }
    let mut n: usize = 0;
    for &x in s {
        if (x < b'0') | (b'9' < x) {
            return NONE;
        }
        if 99999 < n {
            return NONE;
        }
        n = n * 10 + usize::from(x - b'0');
    }
    n
}

// The number of a hexadecimal digit; 16 of anything else.
fn digit(x: u8) -> u8
    ensures { result ≡ digit_of x }
{
    if (b'0'..=b'9').contains(&x) {
        return x - b'0';
    }
    if (b'A'..=b'F').contains(&x) {
        return x - b'A' + 10;
    }
    if (b'a'..=b'f').contains(&x) {
        return x - b'a' + 10;
    }
    16
}

// Whether any octet of s is no hexadecimal digit.
fn no_hex(s: &[u8]) -> bool
    ensures { result ≡ other_than_hex s.now }
{
    s.iter().any(|x| !x.is_ascii_hexdigit())
}

// Puts the octets of hexadecimal digits at the start of out, where there is room.
fn lay(s: &[u8], n: usize, out: &mut [u8])
    requires { (length s.now ≡ 2 * n) × (n ≤ length out.old) × (other_than_hex s.now ≡ false) }
    ensures { out.new ≡ written (octets_of s.now) out.old }
{
    for i in 0..n {
        out[i] = digit(s[2 * i]) * 16 + digit(s[2 * i + 1]);
    }
}

// Puts the octets that hexadecimal digits are at the start of out, and answers how many. NONE if s has anything else, an odd number of
// digits or more than fit: then out stays.
pub fn hex(s: &[u8], out: &mut [u8]) -> usize
    ensures { (result ≡ hex_count s.now (length out.old)) ×
        (out.new ≡ hex_left s.now out.old) }
{
    let n = s.len() / 2;
    if s.len() % 2 != 0 {
        return NONE;
    }
    if out.len() < n {
        return NONE;
    }
    if no_hex(s) {
        return NONE;
    }
    lay(s, n, out);
    n
}
