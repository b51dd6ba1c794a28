// Frames from a descriptor: a call goes on with one section of the octets at hand, and reads once if octets are missing.
#![tactic(auto)]

ghost use Rattle.std.specs.Prelude.{◌≡◌};
ghost use Rattle.session.specs.Lent.{lent};
ghost use Rattle.feed.specs.Pull.{fresh, Tells, ReadsOn, Pulls};

use answer::Refusal;
use receiver::{Event, Receiver};
use session::Accepted;
use source::Source;
use stretch::KEPT;
use window::Refilled;

// The octets of an input buffer from at up to end are read and not yet used; so many octets were used before them.
#[derive(Clone, Copy)]
pub struct Feed {
    pub at: usize,
    pub end: usize,
    pub passed: u64,
}

// What a call tells.
#[derive(Clone, Copy)]
pub enum Pull {
    // Nothing yet: octets came, or were used that nothing is told of.
    More,
    // t was told, and a session opened with it.
    Opened,
    // What the session answers to what it was offered.
    Answered(Result<Accepted, Refusal>),
    // The recording is bad: nothing comes any more.
    Bad,
    // The input has ended.
    End,
    // It has ended inside a section or before the last frame: the recording is bad.
    Cut,
    // A read failed, and that was told.
    Failed,
}

// The next feed and receiver, what is told, and the read that was made; none was made unless octets were missing.
#[derive(Clone, Copy)]
pub struct Pulled {
    pub feed: Feed,
    pub receiver: Receiver,
    pub pull: Pull,
    pub read: Refilled,
}

// The next feed, what is told, and the read that was made.
#[derive(Clone, Copy)]
struct Told {
    feed: Feed,
    pull: Pull,
    read: Refilled,
}

impl Feed {
    // Nothing is read yet.
    pub fn fresh() -> Feed
        ensures { result ≡ fresh }
    {
        Feed {
            at: 0,
            end: 0,
            passed: 0,
        }
    }

    // Goes on with a receiver: the packets that a frame completes are handed out as `Session::step` does. If octets are missing, more are
    // read from the descriptor behind those at hand. What fails, and why a recording is bad, is told on standard error, behind the
    // program's name.
    pub fn pull(
        self,
        name: &[u8],
        descriptor: &window::Source,
        input: &mut [u8],
        receiver: Receiver,
        kept: &mut [u8; KEPT],
        octets: &mut [u8],
        lengths: &mut [u16],
        firsts: &mut [u32],
    ) -> Pulled
        ensures { Pulls self input.old receiver kept.old
            (lent octets.old lengths.old firsts.old) result input.new kept.new
            (lent octets.new lengths.new firsts.new) }
    {
        let hand = window::hand(input, self.at, self.end);
        let received = receiver.next(hand, kept, octets, lengths, firsts);
        let from = self.at + received.used;
        let passed = self.passed.wrapping_add(received.used as u64);
        let told = tell(
            name,
            descriptor,
            input,
            from,
            self.end,
            passed,
            receiver.source,
            received.event,
        );
        Pulled {
            feed: told.feed,
            receiver: received.receiver,
            pull: told.pull,
            read: told.read,
        }
    }
}

// What is told by what a receiver tells that went on from a source, and the feed behind it; if octets are missing more are read.
fn tell(
    name: &[u8],
    descriptor: &window::Source,
    input: &mut [u8],
    from: usize,
    end: usize,
    passed: u64,
    before: Source,
    event: Event,
) -> Told
    ensures { Tells input.old from end passed before event result input.new }
{
    let feed = Feed {
        at: from,
        end,
        passed,
    };
    let read = Refilled::none();
    let pull;
    match event {
        Event::Missing(_) => {
            return more(name, descriptor, input, from, end, passed, before);
        }
        Event::Bad => {
            faults::tell(name, passed, before, window::hand(input, from, end));
            pull = Pull::Bad;
        }
        Event::Over => {
            pull = Pull::Bad;
        }
        Event::Opened => {
            pull = Pull::Opened;
        }
        Event::Nothing => {
            pull = Pull::More;
        }
        Event::Answered(answer) => {
            pull = Pull::Answered(answer);
        }
    }
    Told { feed, pull, read }
}

// Reads once behind the octets at hand, and tells whether more came, or how the input ended. An input whose first octets look like another
// kind of input is told so.
fn more(
    name: &[u8],
    descriptor: &window::Source,
    input: &mut [u8],
    from: usize,
    end: usize,
    passed: u64,
    before: Source,
) -> Told
    ensures { ReadsOn input.old from end passed before result input.new }
{
    let read = window::refill(name, descriptor, input, from, end);
    let have = read.have();
    let pull;
    if read.failed() {
        pull = Pull::Failed;
    } else if read.came() != 0 {
        faults::tell_start(name, passed, before, window::hand(input, 0, have));
        pull = Pull::More;
    } else if before.cut() {
        faults::tell(name, passed, before, window::hand(input, 0, have));
        pull = Pull::Cut;
    } else {
        pull = Pull::End;
    }
    let feed = Feed {
        at: 0,
        end: have,
        passed,
    };
    Told { feed, pull, read }
}
