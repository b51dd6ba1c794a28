// The loop of the readings: each turn takes one section of a recording, adds what it hands out to the text, and counts what is refused.
#![tactic(auto)]

mod section;

ghost use Rattle.std.specs.Prelude.{◌≡◌};
ghost use Rattle.session.specs.Lent.{lent};
ghost use Rattle.readings_frame.specs.Readings.{layouts_of};
ghost use Rattle.readings_lines.specs.Output.{failed_in};
ghost use Rattle.readings_turn.specs.Turns.{Turned};
ghost use Rattle.readings_turn.specs.Written.{begins, Looped, Reported, status_of};

use feed::Feed;
use readings_frame::State;
use receiver::Receiver;
use session::Session;
use stretch::KEPT;
use window::Refilled;

// The most turns.
const TURNS: u64 = 18446744073709551615;

// Where a run stands: the feed, the receiver, what was handed out and is not yet written, the last turn's read, whether the recording is
// bad, which was told, and whether more may come.
#[derive(Clone, Copy)]
pub struct Standing {
    feed: Feed,
    receiver: Receiver,
    state: State,
    read: Refilled,
    bad: bool,
    going: bool,
}

// Where a run stopped, and after how many turns.
#[derive(Clone, Copy)]
pub struct Stopped {
    standing: Standing,
    made: u64,
}

impl Stopped {
    // Whether a write failed.
    pub fn failed(self) -> bool
        ensures { result ≡ failed_in self.standing.state.output }
    {
        self.standing.state.failed()
    }

    // The exit status: whether a read or a write failed, and then whether the recording is bad.
    pub fn status(self) -> i32
        ensures { result ≡ status_of self.standing }
    {
        let unfinished = self.standing.read.failed() | self.standing.going;
        if self.failed() | unfinished {
            return window::BROKEN;
        }
        if self.standing.bad {
            return window::AGAINST;
        }
        window::DONE
    }
}

// Writes the readings of all that comes by a descriptor to a receiver of which nothing is read yet: the header, what each turn adds, and
// what is left behind the last turn.
pub fn report(
    name: &[u8],
    descriptor: &window::Source,
    input: &mut [u8],
    text: &[u8],
    apids: &[u16],
    sids: &[u8],
    starts: &[usize],
    n: usize,
    codes: &[u16],
    froms: &[usize],
    tos: &[usize],
    out: &mut [u8],
    counts: &mut [u64],
    fresh: Receiver,
) -> Stopped
    ensures { Reported (layouts_of text.now apids.now sids.now starts.now n
        codes.now froms.now tos.now)
        fresh input.old out.old counts.old result input.new out.new counts.new }
{
    let begun = State::begun(out);
    let first = begun.written(name, out);
    let stopped = turns(
        name, descriptor, input, text, apids, sids, starts, n, codes, froms, tos, out, counts,
        first, fresh,
    );
    let mut standing = stopped.standing;
    standing.state = standing.state.written(name, out);
    Stopped {
        standing,
        made: stopped.made,
    }
}

// The turns. They end with the input, a bad recording, or a read or a write that failed; after 2^64 - 1 turns they would end too.
fn turns(
    name: &[u8],
    descriptor: &window::Source,
    input: &mut [u8],
    text: &[u8],
    apids: &[u16],
    sids: &[u8],
    starts: &[usize],
    n: usize,
    codes: &[u16],
    froms: &[usize],
    tos: &[usize],
    out: &mut [u8],
    counts: &mut [u64],
    first: State,
    fresh: Receiver,
) -> Stopped
    ensures { Looped (layouts_of text.now apids.now sids.now starts.now n
        codes.now froms.now tos.now)
        fresh first input.old out.old counts.old result.standing result.made
        input.new out.new counts.new }
{
    let mut kept = [0u8; KEPT];
    let mut octets = [0u8; Session::OCTETS];
    let mut lengths = [0u16; Session::LENGTHS];
    let mut firsts = [0u32; Session::FIRSTS];
    let mut standing = begins(fresh, first);
    for made in 0..TURNS {
        if !standing.going {
            return Stopped { standing, made };
        }
        standing = turn(
            name,
            descriptor,
            input,
            &mut kept,
            &mut octets,
            &mut lengths,
            &mut firsts,
            text,
            apids,
            sids,
            starts,
            n,
            codes,
            froms,
            tos,
            out,
            counts,
            standing,
        );
    }
    Stopped {
        standing,
        made: TURNS,
    }
}

// Nothing is read yet; after a write that failed no turn is made.
fn begins(fresh: Receiver, first: State) -> Standing
    ensures { result ≡ begins fresh first }
{
    Standing {
        feed: Feed::fresh(),
        receiver: fresh,
        state: first,
        read: Refilled::none(),
        bad: false,
        going: !first.failed(),
    }
}

// One turn: what is told of the recording's next section is heeded, and the text is written before a read that could wait.
fn turn(
    name: &[u8],
    descriptor: &window::Source,
    input: &mut [u8],
    kept: &mut [u8; KEPT],
    octets: &mut [u8],
    lengths: &mut [u16],
    firsts: &mut [u32],
    text: &[u8],
    apids: &[u16],
    sids: &[u8],
    starts: &[usize],
    n: usize,
    codes: &[u16],
    froms: &[usize],
    tos: &[usize],
    out: &mut [u8],
    counts: &mut [u64],
    before: Standing,
) -> Standing
    ensures { Turned (layouts_of text.now apids.now sids.now starts.now n
        codes.now
        froms.now tos.now)
        before input.old kept.old (lent octets.old lengths.old firsts.old)
        out.old counts.old result input.new kept.new
        (lent octets.new lengths.new firsts.new) out.new counts.new }
{
    let pulled = before.feed.pull(
        name,
        descriptor,
        input,
        before.receiver,
        kept,
        octets,
        lengths,
        firsts,
    );
    let heard = section::heed(
        name,
        pulled.pull,
        octets,
        lengths,
        firsts,
        text,
        apids,
        sids,
        starts,
        n,
        codes,
        froms,
        tos,
        out,
        counts,
        before.state,
    );
    let hand = window::hand(input, pulled.feed.at, pulled.feed.end);
    let after = section::before_a_read(name, out, hand.len(), heard);
    Standing {
        feed: pulled.feed,
        receiver: pulled.receiver,
        state: after,
        read: pulled.read,
        bad: section::is_bad(pulled.pull),
        going: section::may_go_on(pulled.pull, after),
    }
}
