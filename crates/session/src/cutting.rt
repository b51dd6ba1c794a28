// Packets cut by their lengths out of the octets that a channel holds and the octets of a frame behind them.
ghost use Rattle.std.specs.Prelude.{◌≡◌, ◌++◌, ◌+◌, ◌≤◌, ◌<◌, length, take, drop, cond, eqb};
ghost use Rattle.octets.specs.Parts.{written};
ghost use Rattle.octets.specs.Numbers.{at};
ghost use Rattle.rules.specs.Channel.{begun_in, length_in, fits, pointer_to, dropped};
ghost use Rattle.rules.specs.Cutting.{header};
ghost use Rattle.session.specs.Asked.{Begun, Counted, Front, Completed};
ghost use Rattle.session.specs.Promised.{Cuts};

use frame::Frame;
use packet::Packet;

// The packets found: how many, how many octets they have, where what stays held begins, in which frame it was begun, how many headers
// were whole, and in step or not afterwards.
#[derive(Clone, Copy)]
pub(crate) struct Found {
    pub packets: usize,
    pub octets: usize,
    pub kept: usize,
    pub first: u32,
    pub headers: usize,
    pub instep: bool,
}

// The frame in which a packet was begun of which n octets are held: first, or with none held the frame arrival.
pub(crate) fn begun(arrival: u32, first: u32, n: usize) -> u32
    ensures { result ≡ begun_in arrival first n }
{
    if n == 0 {
        return arrival;
    }
    first
}

// The octet at index i of held and data end to end.
fn octet(held: &[u8], data: &[u8], i: usize) -> u8
    requires { i < length held.now + length «data».now }
    ensures { result ≡ at (held.now ++ «data».now) i }
{
    let k = held.len();
    if i < k {
        return held[i];
    }
    data[i - k]
}

// The length that the packet from index i on says of itself.
fn length_at(held: &[u8], data: &[u8], i: usize) -> usize
    requires { i + 6 ≤ length held.now + length «data».now }
    ensures { result ≡ length_in (drop i (held.now ++ «data».now)) }
{
    let high = octet(held, data, i + 4);
    let low = octet(held, data, i + 5);
    octets::word(high, low) as usize + 7
}

// Whether the pointer of a frame with n octets of data tells that a header starts at place.
fn points(pointer: u8, place: usize, n: usize) -> bool
    ensures { result ≡ eqb pointer (pointer_to place n) }
{
    if place < n {
        return pointer as usize == place;
    }
    pointer == Frame::NONE_STARTS
}

// Whether a frame with this pointer and this data goes on from what is held: rule 3.
pub(crate) fn fits(held: &[u8], data: &[u8], pointer: u8) -> bool
    requires { Begun held.now «data».now }
    ensures { result ≡ fits held.now pointer «data».now }
{
    let k = held.len();
    let n = data.len();
    if k == 0 {
        return points(pointer, 0, n);
    }
    if k + n < 6 {
        return points(pointer, n, n);
    }
    let whole = length_at(held, data, 0);
    if (whole < Packet::LEAST) | (Packet::GREATEST < whole) {
        return false;
    }
    points(pointer, whole - k, n)
}

// The headers completed in held and data where rule 3 drops them.
pub(crate) fn dropped(instep: bool, held: &[u8], data: &[u8]) -> usize
    requires { Begun held.now «data».now }
    ensures { result ≡ cond instep (dropped held.now «data».now) 0 }
{
    let k = held.len();
    if instep & (0 < k) & (k < 6) & (6 <= k + data.len()) {
        return 1;
    }
    0
}

// The headers completed in a frame: those in what was dropped and those found, without one that was held whole.
pub(crate) fn completed(dropped: usize, found: usize, held: usize) -> usize
    requires { Completed dropped found held }
    ensures { header held + result ≡ dropped + found }
{
    if held < 6 {
        return dropped + found;
    }
    dropped + found - 1
}

// Cuts packets from `held ++ data`. `first` is the arrival number of the frame in which `held` began, `arrival` that of the frame with
// `data`. The packets' lengths and first numbers are left at the start of `lengths` and `firsts`.
pub(crate) fn cut(
    first: u32,
    arrival: u32,
    held: &[u8],
    data: &[u8],
    lengths: &mut [u16],
    firsts: &mut [u32],
) -> Found
    requires { Counted held.now «data».now lengths.old firsts.old }
    ensures { Cuts first arrival held.now «data».now result
        lengths.old firsts.old lengths.new firsts.new }
{
    let all = held.len() + data.len();
    let mut from = first;
    let mut packets = 0;
    let mut at = 0;
    while 6 <= all - at {
        let n = length_at(held, data, at);
        if (n < Packet::LEAST) | (Packet::GREATEST < n) {
            return Found {
                packets,
                octets: at,
                kept: all,
                first: from,
                headers: packets + 1,
                instep: false,
            };
        }
        if all - at < n {
            return Found {
                packets,
                octets: at,
                kept: at,
                first: from,
                headers: packets + 1,
                instep: true,
            };
        }
        lengths[packets] = n as u16;
        firsts[packets] = from;
        from = arrival;
        packets += 1;
        at += n;
    }
    Found {
        packets,
        octets: at,
        kept: at,
        first: from,
        headers: packets,
        instep: true,
    }
}

// The first n octets of held and data end to end, at the start of out.
pub(crate) fn hand_out(held: &[u8], data: &[u8], n: usize, out: &mut [u8])
    requires { Front held.now «data».now n out.old }
    ensures { out.new ≡ written (take n (held.now ++ «data».now)) out.old }
{
    let k = held.len();
    if n < k {
        return;
    }
    octets::put(out, 0, held);
    octets::put(out, k, &data[..n - k]);
}
