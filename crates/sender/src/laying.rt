// The frames of packets, one after another.
ghost use Rattle.std.specs.Prelude.{◌≡◌, ◌+◌, ◌<◌, ◌≤◌, length, take, drop};
ghost use Rattle.rules.specs.Channel.{pointer_to};
ghost use Rattle.sender.specs.Stream.{next_count};
ghost use Rattle.sender.specs.Frames.{wanted, fields_of, full_frames};
ghost use Rattle.sender.specs.Send.{lent, observed, made, octets_of};
ghost use Rattle.sender.specs.Asked.{Begun, First, Within, Frameable, Framing, Ready};

use super::{Common, Sent};
use counts::{ChannelCount, MasterCount};
use frame::Frame;

// Where the next packet starts, and its number, from 0 on.
#[derive(Clone, Copy)]
struct Next {
    packet: usize,
    start: usize,
}

// The count of the frame to follow.
pub(crate) fn next_count(count: u8) -> u8
    ensures { result ≡ next_count count }
{
    std::num::wrapping_add_u8(count, 1)
}

// How many frames come before the last one, if all but that one take size octets of n.
pub(crate) fn full_frames(n: usize, size: usize) -> usize
    requires { 0 < size }
    ensures { result ≡ full_frames size n }
{
    if n == 0 {
        return 0;
    }
    (n - 1) / size
}

// The pointer of a frame of n octets of data in which a header starts at place, if that is below n.
fn pointer(place: usize, n: usize) -> u8
    requires { n ≤ 251 }
    ensures { result ≡ pointer_to place n }
{
    if place < n {
        return place as u8;
    }
    Frame::NONE_STARTS
}

// The frame of n octets of data in which a header starts at place, if that is below n.
pub(crate) fn frame(
    common: Common,
    master: MasterCount,
    count: ChannelCount,
    place: usize,
    n: usize,
) -> Frame
    requires { n ≤ 251 }
    ensures { result ≡ fields_of common master.0 count.0 (pointer_to place n) n }
{
    Frame::new(
        common.destination,
        common.source,
        common.channel,
        master,
        count,
        pointer(place, n),
        common.telecommands,
        n,
    )
}

// Writes the frame of the n octets from at on, in which a header starts at place if that is below n; and answers its length.
fn write(
    common: Common,
    master: MasterCount,
    count: ChannelCount,
    time: &[u8],
    packets: &[u8],
    at: usize,
    n: usize,
    place: usize,
    out: &mut [u8],
) -> usize
    requires { Frameable common master.0 count.0 time.now packets.now at n out.old }
    ensures { Framing common master.0 count.0 time.now (take n (drop at packets.now)) place
        out.old result out.new }
{
    let f = frame(common, master, count, place, n);
    let _ = f.write(common.t, &packets[at..at + n], time, out);
    n + Frame::LEAST + usize::from(common.t)
}

// The first packet that starts at `at` or behind, going on from one whose predecessor started before.
fn behind(mut next: Next, lengths: &[u16], at: usize) -> Next
    requires begun { Begun lengths.now at next.packet next.start }
    requires within { Within lengths.now at }
    ensures { First lengths.now at result.packet result.start }
{
    while next.start < at {
        next.start += usize::from(lengths[next.packet]);
        next.packet += 1;
    }
    next
}

// Makes all frames, full of them before the last.
pub(crate) fn lay(
    common: Common,
    master: MasterCount,
    count: ChannelCount,
    time: &[u8],
    packets: &[u8],
    lengths: &[u16],
    size: usize,
    full: usize,
    out: &mut [u8],
    frames: &mut [u16],
) -> Sent
    requires { Ready (wanted common master count time.now packets.now lengths.now size) full (lent out.old frames.old) }
    ensures { observed (Ok result) out.new frames.new
        ≡ made master.0 count.0
        (octets_of (wanted common master count time.now packets.now lengths.now size))
        (lent out.old frames.old) }
{
    let mut next = Next {
        packet: 0,
        start: 0,
    };
    let mut all = master.0;
    let mut own = count.0;
    let mut at: usize = 0;
    let mut end: usize = 0;
    for k in 0..full + 1 {
        let n = size.min(packets.len() - at);
        let place = next.start - at;
        let length = write(
            common,
            MasterCount(all),
            ChannelCount(own),
            time,
            packets,
            at,
            n,
            place,
            &mut out[end..],
        );
        frames[k] = length as u16;
        all = next_count(all);
        own = next_count(own);
        at += n;
        end += length;
        next = behind(next, lengths, at);
    }
    Sent {
        frames: full + 1,
        octets: end,
        master: MasterCount(all),
        count: ChannelCount(own),
    }
}
