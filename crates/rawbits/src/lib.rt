// Recordings of raw bits, the earliest bit in the top of each octet: the frames in them are found.
#![tactic(auto)]

ghost use Rattle.std.specs.Prelude.{◌≡◌, true, false, length, set, ◌*◌, ◌<◌};
ghost use Rattle.bits.specs.Rows.{digit};
ghost use Rattle.rawbits.specs.Eight.{eight_passed, Eights};
ghost use Rattle.rawbits.specs.Reader.{standing, counted, added, stored, begun, fresh, closed, after, passing, passed, octet_passed};
ghost use Rattle.rawbits.specs.Reader.{outcome, scanned};

use answer::Reason;
use stretch::{Found, KEPT};

mod table;

// The bits of a frame so far: the last eight, the latest on top; how many of them belong to an octet begun; and how many octets are whole,
// as
// far as there is room for them.
#[derive(Clone, Copy)]
pub struct Row {
    pub last: u8,
    pub begun: u8,
    pub whole: usize,
}

// A reader of raw bits: whether a flag has passed; how many 1s came last, 7 where no flag can end behind them; whether the stretch is
// abandoned;
// how many bits of an octet had begun before the last 0; and the frame's bits since the last flag.
#[derive(Clone, Copy)]
pub struct Reader {
    pub seen: bool,
    pub ones: u8,
    pub abandoned: bool,
    pub mark: u8,
    pub row: Row,
}

// The next reader, how many octets of the window are used, and what was found in them.
#[derive(Clone, Copy)]
pub struct Scanned {
    pub reader: Reader,
    pub used: usize,
    pub found: Found,
}

// A reader behind some bits, and what the last flag in them told.
#[derive(Clone, Copy)]
struct Passed {
    reader: Reader,
    found: Found,
}

// A bit in the top of an octet.
fn top(bit: bool) -> u8
    ensures { result ≡ 128 * digit bit }
{
    if bit {
        return 128;
    }
    0
}

// The octet at index at of those kept, if there is room; and how many are kept then.
fn keep(kept: &mut [u8], at: usize, octet: u8) -> usize
    ensures { (result ≡ counted (length kept.old) at) × (kept.new ≡ set kept.old at octet) }
{
    if at < kept.len() {
        kept[at] = octet;
        return at + 1;
    }
    at
}

impl Row {
    // One bit more. The octet that it makes whole goes to kept, if there is room.
    fn add(self, bit: bool, kept: &mut [u8]) -> Row
        ensures { (result ≡ added (length kept.old) self bit) × (kept.new ≡ stored self bit kept.old) }
    {
        let last = self.last / 2 + top(bit);
        let whole = self.whole;
        if self.begun < 7 {
            return Row {
                last,
                begun: self.begun + 1,
                whole,
            };
        }
        let next = keep(kept, whole, last);
        Row {
            last,
            begun: 0,
            whole: next,
        }
    }
}

impl Reader {
    // A reader that has read nothing yet.
    pub fn new() -> Reader
        ensures { result ≡ fresh }
    {
        Reader::begun(false)
    }

    // A reader behind a flag, or at the start, where none is seen.
    fn begun(seen: bool) -> Reader
        ensures { result ≡ begun seen }
    {
        let row = Row {
            last: 0,
            begun: 0,
            whole: 0,
        };
        Reader {
            seen,
            ones: 0,
            abandoned: false,
            mark: 0,
            row,
        }
    }

    // A flag ends: what the stretch before it was. Of a frame so many octets are kept at most.
    fn closed(self, most: usize) -> Found
        ensures { result ≡ closed most self }
    {
        if !self.seen {
            return Found::Nothing;
        }
        if self.abandoned {
            return Found::Refused(Reason::StretchAbandoned);
        }
        if self.mark != 0 {
            return Found::Refused(Reason::StretchOctets);
        }
        if self.row.whole == 0 {
            return Found::Nothing;
        }
        Found::Frame(self.row.whole.min(most))
    }

    // A 1.
    fn one(mut self, kept: &mut [u8]) -> Reader
        ensures { standing result kept.new ≡ after (standing self kept.old) true }
    {
        let row = self.row;
        let next = row.add(true, kept);
        self.row = next;
        if self.ones < 5 {
            self.ones += 1;
            return self;
        }
        if (self.ones == 5) & !((row.begun == 5) & (row.whole == 0)) {
            self.ones = 6;
            return self;
        }
        self.ones = 7;
        self.abandoned = true;
        self
    }

    // A 0 that ends no flag.
    fn zero(mut self, kept: &mut [u8]) -> Reader
        ensures { standing result kept.new ≡ after (standing self kept.old) false }
    {
        let row = self.row;
        let stuffed = self.ones == 5;
        self.mark = row.begun;
        if stuffed {
            self.ones = 0;
            return self;
        }
        let next = row.add(false, kept);
        self.row = next;
        self.ones = 0;
        self
    }

    // The next bit, and what the last flag has told.
    fn bit(self, bit: bool, found: Found, kept: &mut [u8]) -> Passed
        ensures { passing result kept.new ≡ passed (record { standing = standing self kept.old; found = found }) bit }
    {
        if bit {
            let reader = self.one(kept);
            return Passed { reader, found };
        }
        if self.ones == 6 {
            let told = self.closed(kept.len());
            let reader = Reader::begun(true);
            return Passed {
                reader,
                found: told,
            };
        }
        let reader = self.zero(kept);
        Passed { reader, found }
    }

    // The eight bits of an entry at once, where no five 1s in a row come about.
    fn eight(mut self, entry: u16, kept: &mut [u8]) -> Reader
        requires { self.row.begun < 8 }
        ensures { standing result kept.new ≡ eight_passed (standing self kept.old) entry }
    {
        let begun = self.row.begun;
        let trail = (entry / 256 % 16) as u8;
        let joined = entry % 256 * 256 + self.row.last as u16;
        let octet = ((joined >> (8 - begun)) % 256) as u8;
        let whole = keep(kept, self.row.whole, octet);
        let row = Row {
            last: (entry % 256) as u8,
            begun,
            whole,
        };
        self.ones = trail;
        self.mark = (begun + 15 - trail) % 8;
        self.row = row;
        self
    }

    // The bits of an octet one after another.
    fn bits(self, octet: u8, kept: &mut [u8]) -> Passed
        ensures { passing result kept.new ≡ octet_passed (standing self kept.old) octet }
    {
        let mut reader = self;
        let mut found = Found::Nothing;
        let mut rest = octet;
        for _ in 0..8u8 {
            let next = reader.bit(128 <= rest, found, kept);
            reader = next.reader;
            found = next.found;
            rest = rest % 128 * 2;
        }
        Passed { reader, found }
    }

    // All bits of an octet.
    fn octet(self, octet: u8, eights: &[u16], kept: &mut [u8]) -> Passed
        requires { Eights eights.now }
        ensures { passing result kept.new ≡ octet_passed (standing self kept.old) octet }
    {
        let entry = eights[usize::from(octet)];
        if ((self.ones as u16) + entry / 4096 < 5) & (self.row.begun < 8) {
            let reader = self.eight(entry, kept);
            return Passed {
                reader,
                found: Found::Nothing,
            };
        }
        self.bits(octet, kept)
    }

    // Goes over the window's octets up to the one in which something is told, or up to its end. A frame is the first of the octets kept,
    // which
    // are to be lent again as they were left.
    pub fn scan(self, window: &[u8], kept: &mut [u8; KEPT]) -> Scanned
        ensures { outcome result kept.new ≡ scanned (standing self kept.old) window.now }
    {
        let eights = table::EIGHTS;
        let mut reader = self;
        for (i, &octet) in window.iter().enumerate() {
            let next = reader.octet(octet, &eights, kept);
            let found = next.found;
            reader = next.reader;
            if !matches!(found, Found::Nothing) {
                return Scanned {
                    reader,
                    used: i + 1,
                    found,
                };
            }
        }
        Scanned {
            reader,
            used: window.len(),
            found: Found::Nothing,
        }
    }
}
