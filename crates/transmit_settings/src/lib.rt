// What a script for the test bench has set and made so far, and the lines that set it. No function here asks anything of a caller.
#![tactic(auto)]

ghost use Rattle.std.specs.Prelude.{◌≡◌, length, slice_index_or};
ghost use Rattle.words.specs.Octets.{hex_left};
ghost use Rattle.words.specs.Words.{space};
ghost use Rattle.transmit_settings.specs.Setting.{
  stopped,
  going,
  up_to,
  set_number,
  address_of,
  set_address,
  set_time,
  observed,
  setting,
};
ghost use Rattle.transmit_settings.specs.State.{more, count_of, with_count, after_sent, fresh_state};

use frame::{Address, Callsign};
use sender::{Common, Sent};

// Octets that stand end to end, and how many packets or frames they are.
#[derive(Clone, Copy)]
pub struct Row {
    pub octets: usize,
    pub count: usize,
}

// The settings: what is the same for all frames, the data length, how many octets the time has, and the counts of the frames to follow.
// Then the packets that wait to be sent, and the frames made.
#[derive(Clone, Copy)]
pub struct State {
    pub common: Common,
    pub size: usize,
    pub stamp: usize,
    pub master: u8,
    pub counts: [u8; 8],
    pub waiting: Row,
    pub made: Row,
}

// What stops a script: an unknown word, a value that the word cannot have, too much for the room, or a refusal.
#[derive(Clone, Copy)]
pub enum Fault {
    Nothing,
    Word,
    Value,
    Room,
    Refused(u16),
}

#[derive(Clone, Copy)]
pub struct Stepped {
    pub state: State,
    pub fault: Fault,
}

impl Row {
    // With more octets and more packets or frames.
    pub fn more(self, octets: usize, count: usize) -> Row
        ensures { result ≡ more self octets count }
    {
        Row {
            octets: std::num::wrapping_add_usize(self.octets, octets),
            count: std::num::wrapping_add_usize(self.count, count),
        }
    }
}

impl State {
    // Before the first line.
    pub fn fresh() -> State
        ensures { result ≡ fresh_state }
    {
        let nobody = Address {
            callsign: Callsign(32, 32, 32, 32, 32, 32),
            ssid: 0,
        };
        let common = Common {
            destination: nobody,
            source: nobody,
            channel: 0,
            telecommands: 0,
            t: 0,
        };
        let none = Row {
            octets: 0,
            count: 0,
        };
        State {
            common,
            size: 243,
            stamp: 0,
            master: 0,
            counts: [0u8; 8],
            waiting: none,
            made: none,
        }
    }

    // It goes on, or it stops with a fault.
    pub fn going(self) -> Stepped
        ensures { result ≡ going self }
    {
        Stepped {
            state: self,
            fault: Fault::Nothing,
        }
    }

    pub fn stopped(self, fault: Fault) -> Stepped
        ensures { result ≡ stopped self fault }
    {
        Stepped { state: self, fault }
    }

    // The count of the channel's next frame.
    pub fn count(self) -> u8
        ensures { result ≡ count_of self }
    {
        self.counts
            .get(usize::from(self.common.channel))
            .copied()
            .unwrap_or(0)
    }

    // With another count of the channel's next frame.
    pub fn counted(self, count: u8) -> State
        ensures { result ≡ with_count self count }
    {
        let v = usize::from(self.common.channel);
        if v < 8 {
            let mut next = self;
            next.counts[v] = count;
            return next;
        }
        self
    }

    // After frames were made: their counts go on.
    pub fn sent(self, s: Sent) -> State
        ensures { result ≡ after_sent self s }
    {
        let mut next = self.counted(s.count.0);
        next.master = s.master.0;
        next.made = self.made.more(s.octets, s.frames);
        next
    }
}

// A character of a callsign, spaces behind its last.
fn sign(s: &[u8], i: usize) -> u8
    ensures { result ≡ slice_index_or s.now i space }
{
    s.get(i).copied().unwrap_or(b' ')
}

// The address of a callsign, with an SSID.
fn address(s: &[u8], ssid: u8) -> Address
    ensures { result ≡ address_of s.now ssid }
{
    let callsign = Callsign(
        sign(s, 0),
        sign(s, 1),
        sign(s, 2),
        sign(s, 3),
        sign(s, 4),
        sign(s, 5),
    );
    Address { callsign, ssid }
}

// Sets an address: a callsign and an SSID.
fn station(state: State, word: &[u8], value: &[u8]) -> Stepped
    ensures { result ≡ set_address state word.now value.now }
{
    let callsign = words::word(value);
    let n = words::number(words::rest(value));
    if (6 < callsign.len()) | (255 < n) {
        return state.stopped(Fault::Value);
    }
    let given = address(callsign, n as u8);
    let mut common = state.common;
    let mut next = state;
    if octets::same(word, b"source") {
        common.source = given;
        next.common = common;
        return next.going();
    }
    common.destination = given;
    next.common = common;
    next.going()
}

// Goes on with another state if a number is not above the largest that it may be.
fn up_to(most: usize, n: usize, state: State, next: State) -> Stepped
    ensures { result ≡ up_to most n state next }
{
    if most < n {
        return state.stopped(Fault::Value);
    }
    next.going()
}

// Sets a number. t is the recording's, so it stands before the first frame.
fn number(state: State, word: &[u8], n: usize) -> Stepped
    ensures { result ≡ set_number state word.now n }
{
    let x = (n % 256) as u8;
    let mut common = state.common;
    let mut next = state;
    if octets::same(word, b"size") {
        next.size = n;
        return up_to(999999, n, state, next);
    }
    if octets::same(word, b"t") {
        if state.made.count != 0 {
            return state.stopped(Fault::Value);
        }
        common.t = x;
        next.common = common;
        return up_to(255, n, state, next);
    }
    if octets::same(word, b"channel") {
        common.channel = x;
        next.common = common;
        return up_to(255, n, state, next);
    }
    if octets::same(word, b"count") {
        return up_to(255, n, state, state.counted(x));
    }
    if octets::same(word, b"master") {
        next.master = x;
        return up_to(255, n, state, next);
    }
    if octets::same(word, b"telecommands") {
        common.telecommands = x;
        next.common = common;
        return up_to(255, n, state, next);
    }
    state.stopped(Fault::Word)
}

// Sets the time's octets.
fn time(state: State, value: &[u8], stamp: &mut [u8]) -> Stepped
    ensures { (result ≡ set_time state value.now (length stamp.old)) ×
        (stamp.new ≡ hex_left value.now stamp.old) }
{
    let n = words::hex(value, stamp);
    let mut next = state;
    next.stamp = n;
    up_to(stamp.len(), n, state, next)
}

// A setting: an address, the time or a number.
pub fn set(state: State, word: &[u8], value: &[u8], stamp: &mut [u8]) -> Stepped
    ensures { observed result stamp.new ≡ setting state word.now value.now stamp.old }
{
    if octets::same(word, b"destination") | octets::same(word, b"source") {
        return station(state, word, value);
    }
    if octets::same(word, b"time") {
        return time(state, value, stamp);
    }
    number(state, word, words::number(value))
}
