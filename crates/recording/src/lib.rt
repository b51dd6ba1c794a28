// A recording's sections in a window of octets.
// Nothing here reads a file: a window is octets read and not yet used.
#![tactic(auto)]

ghost use Rattle.std.specs.Prelude.{◌≡◌};
ghost use Rattle.recording.specs.Reader.{scanned, waiting, stopped};
ghost use Rattle.recording.specs.Sections.{told, settings_at, count_at, frame_at};

// The greatest length of a frame.
pub const FRAME: usize = 1024;
// The least window in which more can always be told: a frame and its length.
pub const WINDOW: usize = 2 + FRAME;

// How far a recording is read: the section that comes next.
#[derive(Clone, Copy)]
pub enum Reader {
    Settings,
    Count,
    // So many frames are still to come.
    Frames(usize),
    // Nothing more is read of a bad recording.
    Bad,
}

// What was found at a window's start.
#[derive(Clone, Copy)]
pub enum Taken {
    // That many octets are missing before more can be told.
    Missing(usize),
    // What may not stand there.
    Bad,
    // The recording was bad before.
    Over,
    // t, which is accepted.
    Opened(usize),
    // Octets that nothing is told of.
    Nothing,
    // A frame: the window's octets from the first index up to the second.
    Here(usize, usize),
}

// The reader behind what was found, and how many octets of the window are used with it.
#[derive(Clone, Copy)]
pub struct Scanned {
    pub reader: Reader,
    pub used: usize,
    pub taken: Taken,
}

impl Reader {
    // The section at the window's start.
    pub fn scan(self, window: &[u8]) -> Scanned
        ensures { result ≡ scanned self window.now }
    {
        match self {
            Reader::Settings => match settings(window) {
                Section::Missing(n) => self.waits(n),
                Section::Bad => Reader::stopped(),
                Section::Whole(t) => Scanned {
                    reader: Reader::Count,
                    used: 5,
                    taken: Taken::Opened(t),
                },
            },
            Reader::Count => match count(window) {
                Section::Missing(n) => self.waits(n),
                Section::Bad => Reader::stopped(),
                Section::Whole(n) => Scanned {
                    reader: Reader::Frames(n),
                    used: 4,
                    taken: Taken::Nothing,
                },
            },
            Reader::Frames(left) => Reader::frames(left, window),
            Reader::Bad => Scanned {
                reader: Reader::Bad,
                used: 0,
                taken: Taken::Over,
            },
        }
    }

    // The next of so many frames.
    fn frames(left: usize, window: &[u8]) -> Scanned
        ensures { result ≡ scanned (Reader.Frames left) window.now }
    {
        if left == 0 {
            if window.len() == 0 {
                return Reader::waits(Reader::Frames(left), 1);
            }
            return Reader::stopped();
        }
        match frame(window) {
            Section::Missing(n) => Reader::waits(Reader::Frames(left), n),
            Section::Bad => Reader::stopped(),
            Section::Whole(n) => {
                let to = 2 + n;
                Scanned {
                    reader: Reader::Frames(left - 1),
                    used: to,
                    taken: Taken::Here(2, to),
                }
            }
        }
    }

    // Nothing yet.
    fn waits(self, n: usize) -> Scanned
        ensures { result ≡ waiting self n }
    {
        Scanned {
            reader: self,
            used: 0,
            taken: Taken::Missing(n),
        }
    }

    // A bad recording.
    fn stopped() -> Scanned
        ensures { result ≡ stopped }
    {
        Scanned {
            reader: Reader::Bad,
            used: 0,
            taken: Taken::Bad,
        }
    }
}

// What stands at a window's start.
#[derive(Clone, Copy)]
pub enum Section {
    // That many octets are missing before more can be told.
    Missing(usize),
    // What may not stand there.
    Bad,
    // A whole section: t of the settings, the count of frames, the length of a frame.
    Whole(usize),
}

// The settings at the window's start.
pub fn settings(window: &[u8]) -> Section
    ensures { told result ≡ settings_at window.now }
{
    let n = window.len();
    if n < 4 {
        return Section::Missing(4 - n);
    }
    if octets::four(window[0], window[1], window[2], window[3]) != 1 {
        return Section::Bad;
    }
    if n < 5 {
        return Section::Missing(5 - n);
    }
    if 8 < window[4] {
        return Section::Bad;
    }
    Section::Whole(usize::from(window[4]))
}

// The count of frames at the window's start.
pub fn count(window: &[u8]) -> Section
    ensures { told result ≡ count_at window.now }
{
    let n = window.len();
    if n < 4 {
        return Section::Missing(4 - n);
    }
    Section::Whole(octets::four(window[0], window[1], window[2], window[3]) as usize)
}

// The frame at the window's start, behind its two octets of length.
pub fn frame(window: &[u8]) -> Section
    ensures { told result ≡ frame_at window.now }
{
    let n = window.len();
    if n < 2 {
        return Section::Missing(2 - n);
    }
    let length = octets::word(window[0], window[1]) as usize;
    if FRAME < length {
        return Section::Bad;
    }
    if n < 2 + length {
        return Section::Missing(2 + length - n);
    }
    Section::Whole(length)
}
