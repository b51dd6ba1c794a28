// The lines of a script, each a step: what it sets, the packets that wait, the frames that it makes.
//
// No public function asks anything of a caller.
#![tactic(auto)]

ghost use Rattle.std.specs.Prelude.{◌≡◌, ◌||◌, length, take, eqb};
ghost use Rattle.octets.specs.Numbers.{at};
ghost use Rattle.transmit_steps.specs.Step.{
  entered,
  queued,
  queuing,
  laid,
  sending,
  sending_all,
  emptying,
  framing,
  lent,
  outcome,
  making,
  remark,
  stepping,
};

use counts::{ChannelCount, MasterCount};
use transmit_settings::{Fault, Row, State, Stepped};

// The longest frame that a recording can hold.
const LONGEST: usize = 1024;

// Puts a length into a list, if it has that place.
fn enter(list: &mut [u16], place: usize, length: usize)
    ensures { list.new ≡ entered list.old place length }
{
    if place < list.len() {
        list[place] = (length % 65536) as u16;
    }
}

// One packet more to be sent.
fn packet(state: State, value: &[u8], packets: &mut [u8], lengths: &mut [u16]) -> Stepped
    ensures { queued result packets.new lengths.new
        ≡ queuing state value.now packets.old lengths.old }
{
    let waiting = state.waiting;
    let at = waiting.octets;
    let k = waiting.count;
    if packets.len() < at {
        return state.stopped(Fault::Room);
    }
    if lengths.len() <= k {
        return state.stopped(Fault::Room);
    }
    let n = words::hex(value, &mut packets[at..]);
    if 65535 < n {
        return state.stopped(Fault::Value);
    }
    enter(lengths, k, n);
    let mut next = state;
    next.waiting = waiting.more(n, 1);
    next.going()
}

// The first n of a list; all if there are fewer.
pub fn front(list: &[u16], n: usize) -> &[u16]
    ensures { result.now ≡ take n list.now }
{
    &list[..n.min(list.len())]
}

// The frames of the packets that wait, with their lengths.
fn send(
    state: State,
    stamp: &[u8],
    packets: &[u8],
    lengths: &[u16],
    out: &mut [u8],
    list: &mut [u16],
) -> Stepped
    ensures { laid result out.new list.new
        ≡ sending state stamp.now packets.now lengths.now out.old list.old }
{
    let waiting = state.waiting;
    match sender::send(
        state.common,
        MasterCount(state.master),
        ChannelCount(state.count()),
        octets::part(stamp, 0, state.stamp),
        octets::part(packets, 0, waiting.octets),
        front(lengths, waiting.count),
        state.size,
        out,
        list,
    ) {
        Ok(s) => {
            let none = Row {
                octets: 0,
                count: 0,
            };
            let mut next = state.sent(s);
            next.waiting = none;
            next.going()
        }
        Err(reason) => state.stopped(Fault::Refused(reason.number())),
    }
}

// The same, with the list of all frames' lengths.
fn send_all(
    state: State,
    stamp: &[u8],
    packets: &[u8],
    lengths: &[u16],
    out: &mut [u8],
    frames: &mut [u16],
) -> Stepped
    ensures { laid result out.new frames.new
        ≡ sending_all state stamp.now packets.now lengths.now out.old frames.old }
{
    let first = state.made.count;
    if frames.len() < first {
        return state.stopped(Fault::Room);
    }
    send(state, stamp, packets, lengths, out, &mut frames[first..])
}

// One empty frame.
fn empty(state: State, stamp: &[u8], out: &mut [u8], frames: &mut [u16]) -> Stepped
    ensures { laid result out.new frames.new
        ≡ emptying state stamp.now out.old frames.old }
{
    match sender::empty(
        state.common,
        MasterCount(state.master),
        ChannelCount(state.count()),
        octets::part(stamp, 0, state.stamp),
        out,
    ) {
        Ok(s) => {
            enter(frames, state.made.count, s.octets);
            state.sent(s).going()
        }
        Err(reason) => state.stopped(Fault::Refused(reason.number())),
    }
}

// A frame as it stands, whatever it is.
fn frame(state: State, value: &[u8], out: &mut [u8], frames: &mut [u16]) -> Stepped
    ensures { laid result out.new frames.new
        ≡ framing state value.now out.old frames.old }
{
    let n = words::hex(value, out);
    if LONGEST < n {
        return state.stopped(Fault::Value);
    }
    enter(frames, state.made.count, n);
    let mut next = state;
    next.made = state.made.more(n, 1);
    next.going()
}

// The frames that a line makes, at the start of out; a setting if it makes none.
fn make(
    state: State,
    line: &[u8],
    stamp: &mut [u8],
    packets: &[u8],
    lengths: &[u16],
    out: &mut [u8],
    frames: &mut [u16],
) -> Stepped
    ensures { outcome result (lent stamp.new packets.now lengths.now out.new
        frames.new)
        ≡ making state line.now
        (lent stamp.old packets.now lengths.now out.old frames.old) }
{
    let word = words::word(line);
    let value = words::rest(line);
    if frames.len() <= state.made.count {
        return state.stopped(Fault::Room);
    }
    if octets::same(line, b"send") {
        return send_all(state, stamp, packets, lengths, out, frames);
    }
    if octets::same(line, b"empty") {
        return empty(state, stamp, out, frames);
    }
    if octets::same(word, b"frame") {
        return frame(state, value, out, frames);
    }
    transmit_settings::set(state, word, value, stamp)
}

// Whether nothing is done of a line: an empty one, and one that begins with #.
fn passed_over(line: &[u8]) -> bool
    ensures { result ≡ (eqb (length line.now) 0 || eqb (at line.now 0) remark) }
{
    line.len() == 0 || line[0] == b'#'
}

// The step that a line is, with the time's octets, the packets that wait and the frames made. Nothing is done of an empty line and of
// one that starts with #.
pub fn step(
    state: State,
    line: &[u8],
    stamp: &mut [u8],
    packets: &mut [u8],
    lengths: &mut [u16],
    made: &mut [u8],
    frames: &mut [u16],
) -> Stepped
    ensures { outcome result (lent stamp.new packets.new lengths.new made.new
        frames.new)
        ≡ stepping state line.now
        (lent stamp.old packets.old lengths.old made.old frames.old) }
{
    let from = state.made.octets;
    if passed_over(line) {
        return state.going();
    }
    if octets::same(words::word(line), b"packet") {
        return packet(state, words::rest(line), packets, lengths);
    }
    if made.len() < from {
        return state.stopped(Fault::Room);
    }
    make(
        state,
        line,
        stamp,
        packets,
        lengths,
        &mut made[from..],
        frames,
    )
}
