// A session: eight virtual channels that take frames one after another and hand out packets.
#![tactic(auto)]

ghost use Rattle.std.specs.Prelude.{◌≡◌};
ghost use Rattle.session.specs.Channel.{unsound};
ghost use Rattle.session.specs.Open.{opened, Opens};
ghost use Rattle.session.specs.Lent.{lent, scant};
ghost use Rattle.session.specs.Step.{barred, refusal_if, Steps, TurnsAway};
ghost use Rattle.session.specs.Promised.{Advances};

use answer::{Reason, Refusal};
use channels::Head;
use counts::{ChannelCount, MasterCount};
use frame::Frame;

mod channels;
mod cutting;

// A virtual channel: its last count if a frame was heard, in step or not, the arrival number of the frame with the first octet held, and
// how many octets at the start of held are held.
#[derive(Clone, Copy)]
pub struct Channel {
    pub last: ChannelCount,
    pub heard: bool,
    pub instep: bool,
    pub first: u32,
    pub length: u8,
    pub held: [u8; Channel::HELD],
}

// A session: t, the last arrival number used, the last master count if a frame was heard, and the eight channels.
#[derive(Clone, Copy)]
pub struct Session {
    pub t: u8,
    pub arrival: u32,
    pub master: MasterCount,
    pub heard: bool,
    pub channels: [Channel; Session::CHANNELS],
}

// The opened session beside the answer.
#[derive(Clone, Copy)]
pub struct Opened {
    pub session: Session,
    pub answer: Result<(), Reason>,
}

// An accepted frame: its arrival number and channel, the frames lost on it and over all, how many packets were handed out, and how many
// packet headers were completed in it, whatever became of the packets.
#[derive(Clone, Copy)]
pub struct Accepted {
    pub arrival: u32,
    pub channel: u8,
    pub lost: Option<u8>,
    pub master: Option<u8>,
    pub packets: u8,
    pub headers: u8,
}

// The next session beside the answer.
#[derive(Clone, Copy)]
pub struct Stepped {
    pub session: Session,
    pub answer: Result<Accepted, Refusal>,
}

impl Session {
    // What is lent to a step at least: octets for the packets, and entries for their lengths and first numbers.
    pub const OCTETS: usize = 501;

    pub const LENGTHS: usize = 16;

    pub const FIRSTS: usize = 16;

    // The virtual channels, the most time octets of a frame, and the last arrival number.
    pub const CHANNELS: usize = 8;

    pub const TIME: u8 = Frame::LONGEST_TIME as u8;

    pub const LAST: u32 = 4294967295;

    // The session that heard nothing yet.
    fn fresh(t: u8, last: u32) -> Session
        ensures { result ≡ opened t last }
    {
        let channel = Channel::fresh();
        Session {
            t,
            arrival: last,
            master: MasterCount(0),
            heard: false,
            channels: [channel; Session::CHANNELS],
        }
    }

    // A fresh session of t whose last arrival number used is last; else 2, and a fresh one of t = 0.
    pub fn open(t: u8, last: u32) -> Opened
        ensures { Opens t last result }
    {
        if Session::TIME < t {
            return Opened {
                session: Session::fresh(0, 0),
                answer: Err(Reason::TimeLength),
            };
        }
        Opened {
            session: Session::fresh(t, last),
            answer: Ok(()),
        }
    }

    // Whether refusal 4 holds: t above 8, or a channel of which it holds.
    fn unsound(&self) -> bool
        ensures { result ≡ unsound self.now }
    {
        Session::TIME < self.t || self.channels.iter().any(|c| c.unsound())
    }

    // The first of refusals 1, 4 and 3 that holds, if one does.
    fn barred(&self, octets: &[u8], lengths: &[u16], firsts: &[u32]) -> Option<Refusal>
        ensures { result ≡ refusal_if (barred self.now (lent octets.now lengths.now firsts.now)) }
    {
        if scant(octets, lengths, firsts) {
            return Some(Refusal::of(Reason::Room));
        }
        if self.unsound() {
            return Some(Refusal::of(Reason::Session));
        }
        if self.arrival == Session::LAST {
            return Some(Refusal::of(Reason::Arrivals));
        }
        None
    }

    // The session after a frame is offered; the packets that it completes are end to end at the start of octets, their lengths at the
    // start of lengths, and the arrival numbers of the frames with their first octets at the start of firsts. Else the first refusal
    // of 1, 4, 3 and the frame's (10, 11, 120 to 123, 13 to 15), which use up an arrival number and tell the frame's octet. What is
    // lent stays beyond that.
    pub fn step(
        mut self,
        frame: &[u8],
        octets: &mut [u8],
        lengths: &mut [u16],
        firsts: &mut [u32],
    ) -> Stepped
        ensures { Steps self frame.now
            (lent octets.old lengths.old firsts.old) result
            (lent octets.new lengths.new firsts.new) }
    {
        let answer = self.advance(frame, octets, lengths, firsts);
        Stepped {
            session: self,
            answer,
        }
    }

    // The same, with the session changed in place. It is compiled apart from its callers: within them the compiler would fill each step's
    // result, of 2 KB, with zeros first.
    #[inline(never)]
    fn advance(
        &mut self,
        frame: &[u8],
        octets: &mut [u8],
        lengths: &mut [u16],
        firsts: &mut [u32],
    ) -> Result<Accepted, Refusal>
        ensures { Advances self.old frame.now
            (lent octets.old lengths.old firsts.old) self.new result
            (lent octets.new lengths.new firsts.new) }
    {
        if let Some(refusal) = self.barred(octets, lengths, firsts) {
            return Err(refusal);
        }
        self.arrival += 1;
        let f = match Frame::read(self.t, frame) {
            Ok(f) => f,
            Err(reason) => return Err(Refusal::of(reason)),
        };
        let i = f.channel as usize;
        let head = Head::of(self.arrival, f);
        let heeded = self.channels[i].heed(head, f.data(frame), octets, lengths, firsts);
        let master = f.master.lost(self.heard, self.master);
        self.channels[i] = heeded.channel;
        self.master = f.master;
        self.heard = true;
        Ok(Accepted {
            arrival: self.arrival,
            channel: f.channel,
            lost: heeded.lost,
            master,
            packets: heeded.packets,
            headers: heeded.headers,
        })
    }

    // The session after a stretch that was refused before any frame could be read: the first of 1, 4, 3, else its own refusal,
    // which uses up an arrival number. The channels stay.
    pub fn turn_away(mut self, own: u16, octets: &[u8], lengths: &[u16], firsts: &[u32]) -> Stepped
        ensures { TurnsAway self own
            (lent octets.now lengths.now firsts.now) result
            (lent octets.now lengths.now firsts.now) }
    {
        let answer = match self.barred(octets, lengths, firsts) {
            Some(refusal) => Err(refusal),
            None => {
                self.arrival = self.arrival + 1;
                Err(Refusal::plain(own))
            }
        };
        Stepped {
            session: self,
            answer,
        }
    }
}

// Whether refusal 1 holds of what is lent: under 501 octets, or under 16 lengths, or under 16 first numbers.
fn scant(octets: &[u8], lengths: &[u16], firsts: &[u32]) -> bool
    ensures { result ≡ scant (lent octets.now lengths.now firsts.now) }
{
    (octets.len() < Session::OCTETS)
        | (lengths.len() < Session::LENGTHS)
        | (firsts.len() < Session::FIRSTS)
}
