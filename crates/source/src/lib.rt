// Where frames come from: what stands at the start of the octets at hand, whatever format the input has.
#![tactic(auto)]

ghost use Rattle.std.specs.Prelude.{◌≡◌};
ghost use Rattle.source.specs.Found.{cut_at};
ghost use Rattle.source.specs.Scan.{taken_of, stream_taken, fresh, fresh_kiss, fresh_bits, Scans};

use recording::Reader;
use stretch::{Found, KEPT};

// A source of frames, as far as it is read.
#[derive(Clone, Copy)]
pub enum Source {
    Recording(Reader),
    Kiss(kiss::Reader),
    Bits(rawbits::Reader),
}

// What was found at a window's start.
#[derive(Clone, Copy)]
pub enum Taken {
    // That many octets are missing before more can be told.
    Missing(usize),
    // What may not stand there.
    Bad,
    // The recording was bad before.
    Over,
    // t, which is accepted.
    Opened(usize),
    // Octets that nothing is told of.
    Nothing,
    // A frame: the window's octets from the first index up to the second.
    Here(usize, usize),
    // A frame: so many of the octets kept, from the first on.
    Kept(usize),
    // A stretch that is refused with this number before any frame can be read.
    Refused(u16),
}

// The source behind what was found, and how many octets of the window are used with it.
#[derive(Clone, Copy)]
pub struct Scanned {
    pub source: Source,
    pub used: usize,
    pub taken: Taken,
}

impl Source {
    // A recording of which nothing is read yet.
    pub fn recording() -> Source
        ensures { result ≡ fresh }
    {
        Source::Recording(Reader::Settings)
    }

    // A KISS stream of which nothing is read yet.
    pub fn kiss() -> Source
        ensures { result ≡ fresh_kiss }
    {
        let reader = kiss::Reader::new();
        Source::Kiss(reader)
    }

    // Raw bits of which nothing is read yet.
    pub fn bits() -> Source
        ensures { result ≡ fresh_bits }
    {
        let reader = rawbits::Reader::new();
        Source::Bits(reader)
    }

    // What stands at the window's start. A stream keeps the octets of a stretch that is not yet told in kept; a recording leaves them.
    pub fn scan(self, window: &[u8], kept: &mut [u8; KEPT]) -> Scanned
        ensures { Scans self kept.old window.now result kept.new }
    {
        match self {
            Source::Recording(before) => {
                let scanned = before.scan(window);
                Scanned {
                    source: Source::Recording(scanned.reader),
                    used: scanned.used,
                    taken: told(scanned.taken),
                }
            }
            Source::Kiss(before) => {
                let scanned = before.scan(window, kept);
                Scanned {
                    source: Source::Kiss(scanned.reader),
                    used: scanned.used,
                    taken: stream_told(window.len(), scanned.found),
                }
            }
            Source::Bits(before) => {
                let scanned = before.scan(window, kept);
                Scanned {
                    source: Source::Bits(scanned.reader),
                    used: scanned.used,
                    taken: stream_told(window.len(), scanned.found),
                }
            }
        }
    }

    // Whether the input may not end there: a section is cut, or frames are missing. A stream may end anywhere.
    pub fn cut(self) -> bool
        ensures { result ≡ cut_at self }
    {
        match self {
            Source::Recording(reader) => match reader {
                Reader::Settings => true,
                Reader::Count => true,
                Reader::Frames(n) => n != 0,
                Reader::Bad => false,
            },
            Source::Kiss(_) => false,
            Source::Bits(_) => false,
        }
    }
}

// What a stream's reader found in so many octets: with none at hand one is missing.
fn stream_told(size: usize, found: Found) -> Taken
    ensures { result ≡ stream_taken size found }
{
    if size == 0 {
        return Taken::Missing(1);
    }
    match found {
        Found::Nothing => Taken::Nothing,
        Found::Frame(n) => Taken::Kept(n),
        Found::Refused(reason) => Taken::Refused(reason.number()),
    }
}

// What a recording's reader found.
fn told(section: recording::Taken) -> Taken
    ensures { result ≡ taken_of section }
{
    match section {
        recording::Taken::Missing(n) => Taken::Missing(n),
        recording::Taken::Bad => Taken::Bad,
        recording::Taken::Over => Taken::Over,
        recording::Taken::Opened(t) => Taken::Opened(t),
        recording::Taken::Nothing => Taken::Nothing,
        recording::Taken::Here(from, to) => Taken::Here(from, to),
    }
}
