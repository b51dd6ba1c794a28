// One address: six shifted characters and the SSID octet.
ghost use Rattle.std.specs.Prelude.{◌≡◌, length, ◌≤◌};
ghost use Rattle.frame.specs.Address.{sign, breaks, unfit, shifted_sign, start_wrong, next_wrong, ssid_wrong, address_of};
ghost use Rattle.frame.specs.Address.{address_octets};
ghost use Rattle.frame.specs.Asked.{blamed, Fits};

use super::{Address, Callsign};

// An address's octets.
pub(crate) const LENGTH: usize = 7;

// The octet that is told of an all-blank callsign.
const ALL_BLANK: u8 = 0;

const SPACE: u8 = 32;

// A space, shifted.
const BLANK: u8 = 64;

// Whether x is a letter or digit.
fn sign(x: u8) -> bool
    ensures { result ≡ sign x }
{
    x.is_ascii_uppercase() | x.is_ascii_digit()
}

// Whether x may not stand behind the character before.
fn breaks(before: u8, x: u8) -> bool
    ensures { result ≡ breaks before x }
{
    (x != SPACE) & ((before == SPACE) | !sign(x))
}

// Whether the SSID has more than 4 bits, or the callsign is not one to six letters and digits, then only spaces.
pub(crate) fn unfit(a: Address) -> bool
    ensures { result ≡ unfit a }
{
    let c = a.callsign;
    (Address::LAST_SSID < a.ssid)
        | (!sign(c.0)
            | breaks(c.0, c.1)
            | breaks(c.1, c.2)
            | breaks(c.2, c.3)
            | breaks(c.3, c.4)
            | breaks(c.4, c.5))
}

// Whether x is a letter or digit, shifted left one bit.
fn shifted_sign(x: u8) -> bool
    ensures { result ≡ shifted_sign x }
{
    (x % 2 == 0) & sign(x / 2)
}

// Whether the first octet x is neither a letter or digit nor a space.
fn start_wrong(x: u8) -> bool
    ensures { result ≡ start_wrong x }
{
    (x != BLANK) & !shifted_sign(x)
}

// Whether a later character's octet x is wrong behind the octet before.
fn next_wrong(before: u8, x: u8) -> bool
    ensures { result ≡ next_wrong before x }
{
    if x == BLANK {
        return false;
    }
    (before == BLANK) | !shifted_sign(x)
}

// Whether the SSID octet x is wrong, where the last bit is to be last.
fn ssid_wrong(x: u8, last: u8) -> bool
    ensures { result ≡ ssid_wrong x last }
{
    (x / 32 != 3) | (x % 2 != last)
}

// The first wrong octet of an address, if one is wrong.
pub(crate) fn first_wrong(s: &[u8], last: u8) -> Option<u8>
    requires { 7 ≤ length s.now }
    ensures { result ≡ blamed s.now last }
{
    if start_wrong(s[0]) {
        return Some(0);
    }
    for i in 0..5 {
        let next = i + 1;
        if next_wrong(s[i], s[next]) {
            return Some(next as u8);
        }
    }
    if s[0] == BLANK {
        return Some(ALL_BLANK);
    }
    if ssid_wrong(s[6], last) {
        return Some(6);
    }
    None
}

// The address that stands in seven octets, each character shifted back.
pub(crate) fn address_of(s: &[u8]) -> Address
    requires { 7 ≤ length s.now }
    ensures { result ≡ address_of s.now }
{
    let callsign = Callsign(s[0] / 2, s[1] / 2, s[2] / 2, s[3] / 2, s[4] / 2, s[5] / 2);
    Address {
        callsign,
        ssid: s[6] / 2 % 16,
    }
}

// The seven octets of an address.
pub(crate) fn address_octets(a: Address, last: u8) -> [u8; 7]
    requires { Fits a × (last ≤ 1) }
    ensures { result ≡ address_octets a last }
{
    let c = a.callsign;
    [
        2 * c.0,
        2 * c.1,
        2 * c.2,
        2 * c.3,
        2 * c.4,
        2 * c.5,
        96 + 2 * a.ssid + last,
    ]
}
