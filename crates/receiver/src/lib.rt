// Receives frames: what a source tells opens a session or is offered to it, one section of the octets at hand a call.
#![tactic(auto)]

ghost use Rattle.session.specs.Lent.{lent};
ghost use Rattle.source.specs.Scan.{fresh_kiss, fresh_bits};
ghost use Rattle.receiver.specs.Receive.{fresh, Begins, frame_of, stretch_of, Offers, Receives};
ghost use Rattle.std.specs.Prelude.{◌≡◌};

use answer::{Reason, Refusal};
use session::{Accepted, Session, Stepped};
use source::{Source, Taken};
use stretch::KEPT;

// A source of frames, and the session that is offered them.
#[derive(Clone, Copy)]
pub struct Receiver {
    pub source: Source,
    pub session: Session,
}

// A receiver of a stream, beside what opening its session answered.
#[derive(Clone, Copy)]
pub struct Begun {
    pub receiver: Receiver,
    pub answer: Result<(), Reason>,
}

// What a call tells.
#[derive(Clone, Copy)]
pub enum Event {
    // That many octets are missing before more can be told.
    Missing(usize),
    // The recording was found bad.
    Bad,
    // It was bad before: nothing comes any more.
    Over,
    // t was told, and a session opened with it.
    Opened,
    // Octets were used that nothing is told of.
    Nothing,
    // What the session answers to what it was offered.
    Answered(Result<Accepted, Refusal>),
}

// The next receiver, how many octets of the window were used, and what is told.
#[derive(Clone, Copy)]
pub struct Received {
    pub receiver: Receiver,
    pub used: usize,
    pub event: Event,
}

impl Receiver {
    // A receiver of a recording of which nothing is read yet.
    pub fn recording() -> Receiver
        ensures { result ≡ fresh }
    {
        let source = Source::recording();
        let opened = Session::open(0, 0);
        Receiver {
            source,
            session: opened.session,
        }
    }

    // A receiver of a KISS stream of which nothing is read yet, for frames with t octets of time. With t above 8 refusal 2, and one for
    // t = 0.
    pub fn kiss(t: u8) -> Begun
        ensures { Begins fresh_kiss t result }
    {
        Receiver::begun(Source::kiss(), t)
    }

    // A receiver of raw bits of which nothing is read yet, for frames with t octets of time. With t above 8 refusal 2, and one for t = 0.
    pub fn bits(t: u8) -> Begun
        ensures { Begins fresh_bits t result }
    {
        Receiver::begun(Source::bits(), t)
    }

    // A receiver of what a source is to tell, with a session opened for t.
    fn begun(source: Source, t: u8) -> Begun
        ensures { Begins source t result }
    {
        let opened = Session::open(t, 0);
        Begun {
            receiver: Receiver {
                source,
                session: opened.session,
            },
            answer: opened.answer,
        }
    }

    // Goes on with the window's first section: the packets that a frame completes are handed out as `Session::step` does. A source
    // keeps octets in kept from one call to the next.
    pub fn next(
        self,
        window: &[u8],
        kept: &mut [u8; KEPT],
        octets: &mut [u8],
        lengths: &mut [u16],
        firsts: &mut [u32],
    ) -> Received
        ensures { Receives self kept.old window.now
            (lent octets.old lengths.old firsts.old) result kept.new
            (lent octets.new lengths.new firsts.new) }
    {
        let mut session = self.session;
        let scanned = self.source.scan(window, kept);
        let event = match scanned.taken {
            Taken::Missing(n) => Event::Missing(n),
            Taken::Bad => Event::Bad,
            Taken::Over => Event::Over,
            Taken::Opened(t) => {
                let opened = Session::open(t as u8, 0);
                session = opened.session;
                Event::Opened
            }
            Taken::Nothing => Event::Nothing,
            taken @ (Taken::Here(_, _) | Taken::Kept(_) | Taken::Refused(_)) => {
                let stepped = offer(session, taken, window, kept, octets, lengths, firsts);
                session = stepped.session;
                Event::Answered(stepped.answer)
            }
        };
        Received {
            receiver: Receiver {
                source: scanned.source,
                session,
            },
            used: scanned.used,
            event,
        }
    }
}

// What a session makes of what was found in the window or in the octets kept: of a frame what `Session::step` does, of a stretch that was
// refused what `Session::turn_away` does. Where neither was found, a frame of no octets is offered.
pub fn offer<'a>(
    session: Session,
    taken: Taken,
    window: &'a [u8],
    kept: &'a [u8; KEPT],
    octets: &mut [u8],
    lengths: &mut [u16],
    firsts: &mut [u32],
) -> Stepped
    ensures { Offers session (stretch_of kept.now window.now taken)
        (lent octets.old lengths.old firsts.old) result
        (lent octets.new lengths.new firsts.new) }
{
    match taken {
        Taken::Refused(n) => session.turn_away(n, octets, lengths, firsts),
        _ => session.step(frame_of(taken, window, kept), octets, lengths, firsts),
    }
}

// The octets of the frame that was found; none where no frame was found, or not all of its octets are there.
fn frame_of<'a>(taken: Taken, window: &'a [u8], kept: &'a [u8; KEPT]) -> &'a [u8]
    ensures { result.now ≡ frame_of kept.now window.now taken }
{
    match taken {
        Taken::Here(from, to) => {
            if to < from {
                return octets::part(window, from, 0);
            }
            octets::part(window, from, to - from)
        }
        Taken::Kept(n) => octets::part(kept, 0, n),
        _ => &[],
    }
}
