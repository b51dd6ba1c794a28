// Frames as KISS hands them on, found in a stream of octets. No public function asks anything of a caller.
#![tactic(auto)]

ghost use Rattle.std.specs.Prelude.{◌≡◌, ◌+◌, ◌≤◌, min, length};
ghost use Rattle.kiss.specs.Reader.{standing, reader, fresh, meant, misplaced, frame_length, sealed, scanned_by, outcome, closed};
ghost use Rattle.kiss.specs.Reader.{scanned};

use answer::Reason;
use stretch::{Found, KEPT};

// Between frames.
pub const MARK: u8 = 0xc0;
// Within a frame ESCAPE FOR_MARK stands for MARK, and ESCAPE FOR_ESCAPE for ESCAPE.
pub const ESCAPE: u8 = 0xdb;

pub const FOR_MARK: u8 = 0xdc;

pub const FOR_ESCAPE: u8 = 0xdd;
// The type octet of data frames of port 0.
pub const DATA_FRAME: u8 = 0;

// How far a stream is read: whether a MARK has passed; since then, whether an ESCAPE stands unanswered, whether one was answered wrongly,
// whether the type octet was another than DATA_FRAME, and how many octets have come with it, up to one more than are kept.
#[derive(Clone, Copy)]
pub struct Reader {
    pub marked: bool,
    pub escaping: bool,
    pub wrong: bool,
    pub other: bool,
    pub count: usize,
}

// What was found, the reader behind it, and how many octets of the window are used with it.
#[derive(Clone, Copy)]
pub struct Scanned {
    pub reader: Reader,
    pub used: usize,
    pub found: Found,
}

// What an octet behind ESCAPE stands for.
fn meant(x: u8) -> u8
    ensures { result ≡ meant x }
{
    if x == FOR_MARK {
        return MARK;
    }
    if x == FOR_ESCAPE {
        return ESCAPE;
    }
    x
}

// Whether it may not stand there.
fn misplaced(x: u8) -> bool
    ensures { result ≡ misplaced x }
{
    (x != FOR_MARK) & (x != FOR_ESCAPE)
}

// How many of a frame's octets are kept, if so many octets have come with the type octet.
fn frame_length(count: usize) -> usize
    ensures { result ≡ frame_length count }
{
    count.saturating_sub(1).min(KEPT)
}

// The check of the first n octets behind them, as far as there is room; how many they are with it.
fn seal(kept: &mut [u8], n: usize) -> usize
    requires { n ≤ length kept.old }
    ensures value { result ≡ min (n + 2) (length kept.old) }
    ensures kept_after { kept.new ≡ sealed n kept.old }
{
    let room = kept.len();
    let check = crc::frame_check(&kept[..n]);
    if n == room {
        return n;
    }
    kept[n] = (check % 256) as u8;
    let second = n + 1;
    if second == room {
        return second;
    }
    kept[second] = (check / 256) as u8;
    second + 1
}

impl Reader {
    // A reader that stands so.
    fn at(marked: bool, escaping: bool, wrong: bool, other: bool, count: usize) -> Reader
        ensures { result ≡ reader marked escaping wrong other count }
    {
        Reader {
            marked,
            escaping,
            wrong,
            other,
            count,
        }
    }

    // A reader at the start of a stream.
    pub fn new() -> Reader
        ensures { result ≡ fresh }
    {
        Reader {
            marked: false,
            escaping: false,
            wrong: false,
            other: false,
            count: 0,
        }
    }

    // What a scan answers that used so many octets of the window and found this.
    fn tells(self, used: usize, found: Found) -> Scanned
        ensures { result ≡ scanned_by self used found }
    {
        Scanned {
            reader: self,
            used,
            found,
        }
    }

    // Behind a MARK before which something stands: 18, then 19, else the frame with its check.
    fn close(self, used: usize, kept: &mut [u8; KEPT]) -> Scanned
        ensures { outcome result kept.new ≡ closed self used kept.old }
    {
        let reader = Reader::at(true, false, false, false, 0);
        if self.wrong | self.escaping {
            return reader.tells(used, Found::Refused(Reason::Escape));
        }
        if self.other {
            return reader.tells(used, Found::Refused(Reason::TypeOctet));
        }
        let n = seal(kept, frame_length(self.count));
        reader.tells(used, Found::Frame(n))
    }

    // Goes over the window up to the MARK at which something is told, or up to its end. kept are the octets of the frame begun; a frame
    // that is told is the first of them.
    pub fn scan(self, window: &[u8], kept: &mut [u8; KEPT]) -> Scanned
        ensures { outcome result kept.new ≡ scanned (standing self kept.old) window.now }
    {
        let mut marked = self.marked;
        let mut escaping = self.escaping;
        let mut wrong = self.wrong;
        let mut other = self.other;
        let mut count = self.count;
        for (i, &octet) in window.iter().enumerate() {
            let mut x = octet;
            if x == MARK {
                if marked & (wrong | escaping | (count != 0)) {
                    return Reader::at(marked, escaping, wrong, other, count).close(i + 1, kept);
                }
                marked = true;
                escaping = false;
                wrong = false;
                other = false;
                count = 0;
                continue;
            }
            if escaping {
                wrong = wrong | misplaced(x);
                escaping = false;
                x = meant(x);
            } else if x == ESCAPE {
                escaping = true;
                continue;
            }
            if count == 0 {
                other = x != DATA_FRAME;
                count = 1;
                continue;
            }
            if count <= KEPT {
                kept[count - 1] = x;
                count += 1;
            }
        }
        Reader::at(marked, escaping, wrong, other, count).tells(window.len(), Found::Nothing)
    }
}
