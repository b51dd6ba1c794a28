// Numbers as octets, high octet first, and parts of lent octets. Nothing here asks anything of a caller.
#![tactic(auto)]

ghost use Rattle.std.specs.Prelude.{◌≡◌};
ghost use Rattle.octets.specs.Numbers.{word, four, five, word_of, four_of, five_of};
ghost use Rattle.octets.specs.Parts.{part, put};
ghost use Rattle.octets.specs.Same.{same};

// An octet as a number of an index's width.
pub fn wide(x: u8) -> usize
    ensures { result ≡ x }
{
    usize::from(x)
}

// The number of two octets.
pub fn word(high: u8, low: u8) -> u16
    ensures { result ≡ word high low }
{
    u16::from_be_bytes([high, low])
}

// The number of four octets.
pub fn four(a: u8, b: u8, c: u8, d: u8) -> u32
    ensures { result ≡ four a b c d }
{
    u32::from_be_bytes([a, b, c, d])
}

// The number of five octets.
pub fn five(a: u8, b: u8, c: u8, d: u8, e: u8) -> u64
    ensures { result ≡ five a b c d e }
{
    u64::from_be_bytes([0, 0, 0, a, b, c, d, e])
}

// The two octets of a number.
pub fn word_octets(n: u16) -> [u8; 2]
    ensures { result ≡ word_of n }
{
    u16::to_be_bytes(n)
}

// The four octets of a number.
pub fn four_octets(n: u32) -> [u8; 4]
    ensures { result ≡ four_of n }
{
    u32::to_be_bytes(n)
}

// The low five octets of a number.
pub fn five_octets(n: u64) -> [u8; 5]
    ensures { result ≡ five_of n }
{
    let [_, _, _, a, b, c, d, e] = u64::to_be_bytes(n);
    [a, b, c, d, e]
}

// The n octets of s from index at on; none if s has not all of them.
pub fn part(s: &[u8], at: usize, n: usize) -> &[u8]
    ensures { result.now ≡ part s.now at n }
{
    let rest = s.get(at..).unwrap_or(&[]);
    rest.get(..n).unwrap_or(&[])
}

// Whether two rows of octets are equal.
pub fn same(a: &[u8], b: &[u8]) -> bool
    ensures { result ≡ same a.now b.now }
{
    a == b
}

// The octets of src at index at of out, if all fit there; else out stays.
pub fn put(out: &mut [u8], at: usize, src: &[u8])
    ensures { out.new ≡ put out.old at src.now }
{
    let n = src.len();
    if out.len() < n {
        return;
    }
    if out.len() - n < at {
        return;
    }
    out[at..at + n].copy_from_slice(src);
}
