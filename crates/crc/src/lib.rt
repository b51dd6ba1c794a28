// The packet check, half an octet at a time by a table of sixteen words, and the frame check, eight octets at a time.
#![tactic(auto)]

ghost use Rattle.std.specs.Prelude.{◌≡◌, ◌+◌, ◌*◌, ◌/◌, ◌≤◌, length, take, drop};
ghost use Rattle.bits.specs.Rows.{bits_of, bits_of_all, zeros};
ghost use Rattle.crc.specs.Check.{run, register, packet_check, frame_check};
ghost use Rattle.bits.specs.Rows.Order.{low_first};

// The register at the start: all ones.
const START: u16 = 0xffff;

// Word k is what the register has after the four bits of k, high bit first, from all zeros.
const HIGH: [u16; 16] = [
    0x0000, 0x1021, 0x2042, 0x3063, 0x4084, 0x50a5, 0x60c6, 0x70e7, 0x8108, 0x9129, 0xa14a, 0xb16b,
    0xc18c, 0xd1ad, 0xe1ce, 0xf1ef,
];

// The packet check of octets: high bit first, not complemented. They stay as they are. An octet leaves by halves, the high one first.
pub fn packet_check(octets: &[u8]) -> u16
    ensures { result ≡ packet_check octets.now }
{
    let table = HIGH;
    let mut crc = START;
    for x in octets {
        let high = crc ^ ((*x as u16) << 8);
        let low = table[(high / 4096) as usize] ^ (high << 4);
        crc = table[(low / 4096) as usize] ^ (low << 4);
    }
    crc
}

// The eight octets from index i on, joined to a number: its bits, low first, are theirs.
fn low_joined(octets: &[u8], i: usize) -> u64
    requires { i + 8 ≤ length octets.now }
    ensures { bits_of low_first 64 result ≡ bits_of_all low_first (take 8 (drop i octets.now)) }
{
    ((octets[i + 7] as u64) << 56)
        ^ ((octets[i + 6] as u64) << 48)
        ^ ((octets[i + 5] as u64) << 40)
        ^ ((octets[i + 4] as u64) << 32)
        ^ ((octets[i + 3] as u64) << 24)
        ^ ((octets[i + 2] as u64) << 16)
        ^ ((octets[i + 1] as u64) << 8)
        ^ (octets[i] as u64)
}

// Bits that leave in the register what those of s and 64 zeros leave: s modulo the generator's fourth power, X^64 + X^48 + X^20 + 1.
fn low_zeros(s: u64) -> u64
    ensures { run (zeros 16) (bits_of low_first 64 result) ≡ run (run (zeros 16) (bits_of low_first 64 s)) (zeros 64) }
{
    let c = s ^ (s << 16) ^ (s << 44);
    let quotient = c ^ (c << 32);
    quotient ^ (quotient >> 20) ^ (quotient >> 48)
}

// The register after the 64 bits of s, from all zeros: s modulo the generator.
fn low_bits(s: u64) -> u16
    ensures { bits_of low_first 16 result ≡ run (zeros 16) (bits_of low_first 64 s) }
{
    let a = s ^ (s << 4) ^ (s << 11) ^ (s << 16);
    let b = a ^ (a << 8) ^ (a << 22) ^ (a << 32);
    let c = b ^ (b << 16) ^ (b << 44);
    let quotient = c ^ (c << 32);
    ((quotient ^ (quotient >> 5) ^ (quotient >> 12)) >> 48) as u16
}

// The register after one octet x more.
fn low_octet(crc: u16, x: u8) -> u16
    ensures { bits_of low_first 16 result ≡ run (bits_of low_first 16 crc) (bits_of low_first 8 x) }
{
    let k = (crc % 256) ^ (x as u16);
    let quotient = (k ^ (k << 4)) % 256;
    (quotient << 8) ^ (quotient << 3) ^ (quotient >> 4) ^ (crc >> 8)
}

// The register after the octets, all but the last len % 8 of them.
fn low_eights(octets: &[u8]) -> u16
    ensures { bits_of low_first 16 result ≡ register low_first (take (length octets.now / 8 * 8) octets.now) }
{
    if octets.len() < 8 {
        return START;
    }
    let mut s = (START as u64) ^ low_joined(octets, 0);
    for k in 1..octets.len() / 8 {
        s = low_zeros(s) ^ low_joined(octets, 8 * k);
    }
    low_bits(s)
}

// The frame check of octets: low bit first, complemented. They stay as they are.
pub fn frame_check(octets: &[u8]) -> u16
    ensures { result ≡ frame_check octets.now }
{
    let mut crc = low_eights(octets);
    for x in &octets[octets.len() / 8 * 8..] {
        crc = low_octet(crc, *x);
    }
    crc ^ 0xffff
}
