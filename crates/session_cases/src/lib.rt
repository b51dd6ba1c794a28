// Opening a session, giving one as it stands, and steps. Each prints the session whole, and answers it.
#![tactic(auto)]

use counts::{ChannelCount, MasterCount};
use format_cases::frames;
use records::{input, places, text};
use session::{Channel, Session, Stepped};

// Whether a channel is fresh, its whole array too.
fn fresh(c: Channel) -> bool {
    let held = c.held;
    let idle = !c.heard & !c.instep & (c.last.0 == 0) & (c.first == 0) & (c.length == 0);
    idle & (text::used(&held, 0) == 0)
}

// Prints a channel that isn't fresh, with its whole array.
fn channel(i: usize, c: Channel) {
    if fresh(c) {
        return;
    }
    text::tell(
        b" | channel # heard # last # instep # first # length # held ",
        &[
            i as u64,
            c.heard as u64,
            c.last.0 as u64,
            c.instep as u64,
            c.first as u64,
            c.length as u64,
        ],
    );
    let held = c.held;
    text::lent(b"", &held, 0);
}

// Prints a session.
fn print(s: Session) {
    text::tell(
        b" | t # arrival # heard # master #",
        &[
            s.t as u64,
            s.arrival as u64,
            s.heard as u64,
            s.master.0 as u64,
        ],
    );
    for (i, &c) in s.channels.iter().enumerate() {
        channel(i, c);
    }
}

pub fn open(c: &[u8]) -> Session {
    let opened = Session::open(input::octet(c, places::T), input::four(c, places::ARRIVAL));
    let s = opened.session;
    match opened.answer {
        Ok(()) => text::say(b"accepted"),
        Err(reason) => text::field(b"refusal ", reason.number() as u64),
    }
    print(s);
    s
}

// The channel that the case gives.
fn channel_of(c: &[u8]) -> Channel {
    let mut held = [0u8; 250];
    octets::put(&mut held, 0, input::block(c, places::INPUT));
    Channel {
        last: ChannelCount(input::octet(c, places::LAST)),
        heard: input::octet(c, places::CHANNEL_HEARD) == 1,
        instep: input::octet(c, places::INSTEP) == 1,
        first: input::four(c, places::BEGUN),
        length: input::octet(c, places::HOLDS),
        held,
    }
}

// The session that the case gives: that channel, the others fresh.
pub fn given(c: &[u8]) -> Session {
    let opened = Session::open(0, 0);
    let mut s = opened.session;
    s.t = input::octet(c, places::T);
    s.arrival = input::four(c, places::ARRIVAL);
    s.master = MasterCount(input::octet(c, places::MASTER));
    s.heard = input::octet(c, places::HEARD) == 1;
    let i = input::four(c, places::CHANNEL) as usize;
    if i < 8 {
        let channel = channel_of(c);
        s.channels[i] = channel;
    }
    text::say(b"given");
    print(s);
    s
}

// Prints how many frames were lost.
fn loss(name: &[u8], l: Option<u8>) {
    match l {
        None => {
            text::say(name);
            text::say(b"unknown");
        }
        Some(n) => text::field(name, n as u64),
    }
}

// What comes of what is offered: a frame, or, where the case names its refusal, a stretch that is turned away.
fn offer(
    c: &[u8],
    s: Session,
    octets: &mut [u8],
    lengths: &mut [u16],
    firsts: &mut [u32],
) -> Stepped {
    let own = input::octet(c, places::OWN);
    if own == 0 {
        return s.step(input::block(c, places::INPUT), octets, lengths, firsts);
    }
    s.turn_away(own as u16, octets, lengths, firsts)
}

pub fn step(
    c: &[u8],
    s: Session,
    octets: &mut [u8],
    lengths: &mut [u16],
    firsts: &mut [u32],
) -> Session {
    let stepped = offer(c, s, octets, lengths, firsts);
    let next = stepped.session;
    match stepped.answer {
        Ok(a) => {
            text::tell(
                b"accepted arrival # channel #",
                &[a.arrival as u64, a.channel as u64],
            );
            loss(b" lost ", a.lost);
            loss(b" master ", a.master);
            text::field(b" packets ", a.packets as u64);
            text::field(b" headers ", a.headers as u64);
        }
        Err(r) => frames::refused(r),
    }
    text::words(b" lengths", lengths, 61166);
    text::fours(b" firsts", firsts, 61166);
    text::lent(b" octets ", octets, 238);
    print(next);
    next
}
