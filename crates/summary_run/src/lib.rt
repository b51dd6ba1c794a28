// The summary of a recording or a stream: every answer is counted with the packets handed out with it, and at the input's end the counts
// are written.
//
// What computes is apart from what writes: nothing is written before the input's end, and nothing at all if a read failed.
#![tactic(auto)]

ghost use Rattle.std.specs.Prelude.{◌≡◌};
ghost use Rattle.session.specs.Lent.{lent, Enough};
ghost use Rattle.summary_count.specs.Count.{tally, ledger};
ghost use Rattle.summary_run.specs.Counted.{found_bad, Heeds, Turned};
ghost use Rattle.summary_run.specs.Whole.{Looped, Counts};
ghost use Rattle.summary_run.specs.Told.{Finished, no_counts, Runs};

use feed::{Feed, Pull};
use receiver::Receiver;
use session::Session;
use stretch::KEPT;
use summary_count::counters;
use window::Refilled;

mod showing;

// The most different packets that are listed, by APID, type and subtype.
const KEYS: usize = 1024;

// The most turns.
const TURNS: u64 = 18446744073709551615;

// Where a run stands: the feed and the receiver, whether it goes on, whether the recording was found bad, and what the last turn read.
#[derive(Clone, Copy)]
struct State {
    feed: Feed,
    receiver: Receiver,
    going: bool,
    bad: bool,
    read: Refilled,
}

// Where a run stopped, and after how many turns.
#[derive(Clone, Copy)]
struct Stopped {
    state: State,
    made: u64,
}

// Counts all that a fresh receiver tells of what comes from a source, writes the counts to standard output, as text or as CSV, and answers the
// program's exit status. What fails, and why a recording is bad, is told on standard error.
pub fn run(csv: bool, source: &window::Source, receiver: Receiver) -> i32
    ensures { Runs csv receiver result }
{
    let mut counts = no_counts();
    let mut keys = [0u32; KEYS];
    let mut many = [0u64; KEYS];
    let mut last = [0u16; sequence::LIST];
    let stopped = count(
        source,
        &mut counts,
        &mut keys,
        &mut many,
        &mut last,
        receiver,
    );
    finish(csv, stopped, &counts, &keys, &many)
}

// Counters of which none has counted anything.
fn no_counts() -> [u64; counters::COUNTERS]
    ensures { result ≡ no_counts }
{
    [0u64; counters::COUNTERS]
}

// Counts the whole input, and then whether the recording is bad.
fn count(
    source: &window::Source,
    counts: &mut [u64],
    keys: &mut [u32],
    many: &mut [u64],
    last: &mut [u16],
    receiver: Receiver,
) -> Stopped
    ensures { Counts receiver (ledger counts.old keys.old many.old last.old) result
        (ledger counts.new keys.new many.new last.new) }
{
    let mut input = io::large_buffer();
    let stopped = turns(source, &mut input, counts, keys, many, last, receiver);
    let state = stopped.state;
    counters::judge(counts, state.bad);
    stopped
}

// The turns. They end with the input, a bad recording or a failed read; after 2^64 - 1 turns they would end too.
fn turns(
    source: &window::Source,
    input: &mut [u8],
    counts: &mut [u64],
    keys: &mut [u32],
    many: &mut [u64],
    last: &mut [u16],
    receiver: Receiver,
) -> Stopped
    ensures { Looped receiver (ledger counts.old keys.old many.old last.old) result
        (ledger counts.new keys.new many.new last.new) }
{
    let mut kept = [0u8; KEPT];
    let mut octets = [0u8; Session::OCTETS];
    let mut lengths = [0u16; Session::LENGTHS];
    let mut firsts = [0u32; Session::FIRSTS];
    let feed = Feed::fresh();
    let read = Refilled::none();
    let mut state = State {
        feed,
        receiver,
        going: true,
        bad: false,
        read,
    };
    let mut made: u64 = 0;
    while state.going {
        if made == TURNS {
            return Stopped { state, made };
        }
        state = turn(
            source,
            input,
            &mut kept,
            &mut octets,
            &mut lengths,
            &mut firsts,
            counts,
            keys,
            many,
            last,
            state,
        );
        made += 1;
    }
    Stopped { state, made }
}

// One turn: the next section of the octets at hand, or a further read.
fn turn(
    source: &window::Source,
    input: &mut [u8],
    kept: &mut [u8; KEPT],
    octets: &mut [u8],
    lengths: &mut [u16],
    firsts: &mut [u32],
    counts: &mut [u64],
    keys: &mut [u32],
    many: &mut [u64],
    last: &mut [u16],
    state: State,
) -> State
    requires { Enough (lent octets.old lengths.old firsts.old) }
    ensures { Turned state input.old kept.old
        (lent octets.old lengths.old firsts.old)
        (ledger counts.old keys.old many.old last.old) result input.new kept.new
        (lent octets.new lengths.new firsts.new)
        (ledger counts.new keys.new many.new last.new) }
{
    let before = state.feed;
    let first = state.receiver;
    let pulled = before.pull(
        b"summary", source, input, first, kept, octets, lengths, firsts,
    );
    let feed = pulled.feed;
    let receiver = pulled.receiver;
    let pull = pulled.pull;
    let read = pulled.read;
    let bad = found_bad(pull);
    let going = heed(pull, octets, lengths, counts, keys, many, last);
    State {
        feed,
        receiver,
        going,
        bad,
        read,
    }
}

// Whether what was told says that the recording is bad.
fn found_bad(pull: Pull) -> bool
    ensures { result ≡ found_bad pull }
{
    match pull {
        Pull::Bad | Pull::Cut => true,
        Pull::More | Pull::Opened | Pull::Answered(_) | Pull::End | Pull::Failed => false,
    }
}

// Counts what was told of the input's next section, and answers whether more may come.
fn heed(
    pull: Pull,
    octets: &[u8],
    lengths: &[u16],
    counts: &mut [u64],
    keys: &mut [u32],
    many: &mut [u64],
    last: &mut [u16],
) -> bool
    ensures { Heeds pull octets.now lengths.now
        (ledger counts.old keys.old many.old last.old) result
        (ledger counts.new keys.new many.new last.new) }
{
    match pull {
        Pull::More | Pull::Opened => true,
        Pull::Answered(answer) => {
            summary_count::answered(answer, octets, lengths, counts, keys, many, last);
            true
        }
        Pull::Bad | Pull::End | Pull::Cut | Pull::Failed => false,
    }
}

// Writes the counts, if the whole input was taken; answers the exit status.
fn finish(csv: bool, stopped: Stopped, counts: &[u64], keys: &[u32], many: &[u64]) -> i32
    ensures { Finished csv stopped (tally counts.now keys.now many.now) result }
{
    let state = stopped.state;
    let read = state.read;
    if state.going | read.failed() {
        return window::BROKEN;
    }
    let mut out = io::large_buffer();
    let told = showing::show(csv, counts, keys, many, &mut out);
    if told.unfinished() {
        return window::BROKEN;
    }
    if state.bad {
        return window::AGAINST;
    }
    window::DONE
}
