// One channel: rules 1 to 5.
ghost use Rattle.std.specs.Prelude.{◌≡◌, ◌++◌, ◌+◌, ◌≤◌, length, drop};
ghost use Rattle.rules.specs.Channel.{held_of, cleared, follow, step};
ghost use Rattle.session.specs.Channel.{view, channel_of, stored, fresh, channel_unsound};
ghost use Rattle.session.specs.Lent.{lent};
ghost use Rattle.session.specs.Asked.{Asked, Followable, Left, Taken};
ghost use Rattle.session.specs.Promised.{head_of, headed, Takes, Follows, Heeds};

use super::{Channel, cutting};
use counts::ChannelCount;
use frame::Frame;
use packet::Packet;

// What of a frame the rules read beside its data: the arrival number, the channel count and the pointer.
#[derive(Clone, Copy)]
pub(crate) struct Head {
    pub arrival: u32,
    pub count: ChannelCount,
    pub pointer: u8,
}

impl Head {
    // What the rules read of a frame with that arrival number.
    pub(crate) fn of(arrival: u32, f: Frame) -> Head
        ensures { result ≡ head_of arrival f }
    {
        Head {
            arrival,
            count: f.count,
            pointer: f.pointer,
        }
    }
}

// A channel after a frame, how many were lost before it, how many packets were handed out and how many headers completed.
#[derive(Clone, Copy)]
pub(crate) struct Heeded {
    pub channel: Channel,
    pub lost: Option<u8>,
    pub packets: u8,
    pub headers: u8,
}

// The same without the loss, as rules 2 to 5 leave it.
#[derive(Clone, Copy)]
pub(crate) struct Followed {
    pub channel: Channel,
    pub packets: u8,
    pub headers: u8,
}

impl Channel {
    // The octets of an unfinished packet that are held at most.
    pub const HELD: usize = 250;

    // A channel that heard nothing yet.
    pub(crate) fn fresh() -> Channel
        ensures { result ≡ fresh }
    {
        let held = [0u8; Channel::HELD];
        Channel {
            last: ChannelCount(0),
            heard: false,
            instep: false,
            first: 0,
            length: 0,
            held,
        }
    }

    // Whether refusal 4 holds of the channel: above 250 held, or any while out of step, or six or more whose packet's length is
    // outside 16 to 251 or not above the number held.
    pub(crate) fn unsound(self) -> bool
        ensures { result ≡ channel_unsound self }
    {
        let n = self.length as usize;
        if n == 0 {
            return false;
        }
        if (Channel::HELD < n) | !self.instep {
            return true;
        }
        if n < 6 {
            return false;
        }
        let whole = octets::word(self.held[4], self.held[5]) as usize + 7;
        (whole < Packet::LEAST) | (Packet::GREATEST < whole) | (whole <= n)
    }

    // The channel that holds `front ++ back` with zeros behind them; `first` is the frame in which they began, 0 if nothing is held.
    fn holding(count: ChannelCount, instep: bool, first: u32, front: &[u8], back: &[u8]) -> Channel
        requires { length front.now + length back.now ≤ 250 }
        ensures { result ≡ stored (channel_of count.0 instep (cleared (held_of first (front.now ++ back.now)))) }
    {
        let k = front.len();
        let n = k + back.len();
        let mut held = [0u8; Channel::HELD];
        octets::put(&mut held, 0, front);
        octets::put(&mut held, k, back);
        Channel {
            last: count,
            heard: true,
            instep,
            first: cutting::begun(0, first, n),
            length: n as u8,
            held,
        }
    }

    // The channel that holds what follows the first n octets of `held ++ data`; `first` is the frame in which that began.
    fn left(
        count: ChannelCount,
        instep: bool,
        first: u32,
        held: &[u8],
        data: &[u8],
        n: usize,
    ) -> Channel
        requires { Left held.now «data».now n }
        ensures { result ≡ stored (channel_of count.0 instep
            (cleared (held_of first (drop n (held.now ++ «data».now))))) }
    {
        let k = held.len();
        if n < k {
            return Channel::holding(count, instep, first, held, data);
        }
        let at = n - k;
        Channel::holding(count, instep, first, &held[..0], &data[at..])
    }

    // Rules 1 to 5: the channel after a frame with this head and data; the packets that it completes are at the start of octets, their
    // lengths and first numbers at the start of lengths and firsts.
    pub(crate) fn heed(
        self,
        head: Head,
        data: &[u8],
        octets: &mut [u8],
        lengths: &mut [u16],
        firsts: &mut [u32],
    ) -> Heeded
        requires { Asked self head.pointer «data».now (lent octets.old lengths.old firsts.old) }
        ensures { Heeds (step head.arrival (view self) (headed head «data».now)) result
            (lent octets.old lengths.old firsts.old)
            (lent octets.new lengths.new firsts.new) }
    {
        let lost = head.count.lost(self.heard, self.last);
        let mut k = self.length as usize;
        let mut instep = self.instep;
        if 0 < lost.unwrap_or(0) {
            k = 0;
            instep = false;
        }
        let followed = follow(
            head,
            instep,
            self.first,
            &self.held[..k],
            data,
            octets,
            lengths,
            firsts,
        );
        Heeded {
            channel: followed.channel,
            lost,
            packets: followed.packets,
            headers: followed.headers,
        }
    }
}

// Rules 2 to 5 for a channel that holds `held`; `first` is the frame in which that began.
fn follow(
    head: Head,
    instep: bool,
    first: u32,
    held: &[u8],
    data: &[u8],
    octets: &mut [u8],
    lengths: &mut [u16],
    firsts: &mut [u32],
) -> Followed
    requires { Followable instep held.now head.pointer «data».now (lent octets.old lengths.old firsts.old) }
    ensures { Follows head.count.0
        (follow head.arrival instep (held_of first held.now) head.pointer «data».now) result
        (lent octets.old lengths.old firsts.old)
        (lent octets.new lengths.new firsts.new) }
{
    if head.pointer == Frame::RAW_DATA {
        return Followed {
            channel: Channel::holding(head.count, instep, first, held, &data[..0]),
            packets: 0,
            headers: 0,
        };
    }
    let begun = cutting::begun(head.arrival, first, held.len());
    let mut dropped = cutting::dropped(instep, held, data);
    let mut k = 0;
    let mut from = head.arrival;
    let mut at = 0;
    let mut on = true;
    if instep & cutting::fits(held, data, head.pointer) {
        k = held.len();
        from = begun;
        dropped = 0;
    } else if head.pointer == Frame::NONE_STARTS {
        at = data.len();
        on = false;
    } else {
        at = head.pointer as usize;
    }
    take(
        head,
        on,
        dropped,
        from,
        &held[..k],
        &data[at..],
        octets,
        lengths,
        firsts,
    )
}

// Rule 5: packets taken one after another out of the held octets and the data, and the rest held; `on` if a packet goes on or starts
// there, else out of step. The first of them was begun in the frame first, and so many headers were completed in what was dropped.
fn take(
    head: Head,
    on: bool,
    dropped: usize,
    first: u32,
    held: &[u8],
    data: &[u8],
    octets: &mut [u8],
    lengths: &mut [u16],
    firsts: &mut [u32],
) -> Followed
    requires { Taken dropped held.now «data».now (lent octets.old lengths.old firsts.old) }
    ensures { Takes head on dropped first held.now «data».now result
        (lent octets.old lengths.old firsts.old)
        (lent octets.new lengths.new firsts.new) }
{
    let cut = cutting::cut(first, head.arrival, held, data, lengths, firsts);
    cutting::hand_out(held, data, cut.octets, octets);
    Followed {
        channel: Channel::left(head.count, on & cut.instep, cut.first, held, data, cut.kept),
        packets: cut.packets as u8,
        headers: cutting::completed(dropped, cut.headers, held.len()) as u8,
    }
}
