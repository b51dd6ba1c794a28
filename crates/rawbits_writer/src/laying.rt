// The bits of frames, one after another.
ghost use Rattle.std.specs.Prelude.{◌≡◌, [], ◌≤◌, length, ltb};
ghost use Rattle.octets.specs.Parts.{written};
ghost use Rattle.bits.specs.Rows.{bits_of, zeros};
ghost use Rattle.bits.specs.Rows.Order.{low_first};
ghost use Rattle.rawbits.specs.Recording.{flag};
ghost use Rattle.rules.specs.Packets.{cut};
ghost use Rattle.frame.specs.Limits.{greatest_length};
ghost use Rattle.rawbits_writer.specs.Stream.{body_bits, stream_of};
ghost use Rattle.rawbits_writer.specs.Pen.{start, with_bit, with_row, body_from, Few, Ready, Room, Writes, Frames, FramesRoom};

// The bits of a flag as a number.
const FLAG: u32 = 126;

// Where bits are written: the index of the next octet; the bits before it that fill no octet yet, as a number, and how many of its low
// digits
// they are; and how many 1s in a row stand before the next bit.
#[derive(Clone, Copy)]
struct Pen {
    at: usize,
    held: u32,
    bits: u8,
    ones: u8,
}

impl Pen {
    // At the start, where so many 1s stand before.
    fn new(ones: u8) -> Pen
        ensures { result ≡ start ones }
    {
        Pen {
            at: 0,
            held: 0,
            bits: 0,
            ones,
        }
    }

    // One bit of a frame more, and a 0 behind it if it is the fifth 1 in a row.
    fn bit(mut self, bit: bool) -> Pen
        requires { Few self }
        ensures { result ≡ with_bit self bit }
    {
        if !bit {
            self.held = self.held * 2;
            self.bits += 1;
            self.ones = 0;
            return self;
        }
        if self.ones < 4 {
            self.held = self.held * 2 + 1;
            self.bits += 1;
            self.ones += 1;
            return self;
        }
        self.held = self.held * 4 + 2;
        self.bits += 2;
        self.ones = 0;
        self
    }

    // An octet of a frame more, low bit first.
    fn octet(self, octet: u8) -> Pen
        requires { Ready self }
        ensures { result ≡ with_row self (bits_of low_first 8 octet) }
    {
        let mut pen = self;
        let mut rest = octet;
        for _i in 0..8u8 {
            pen = pen.bit(rest % 2 == 1);
            rest /= 2;
        }
        pen
    }

    // Of the bits held those that fill octets go to out.
    fn drain(mut self, out: &mut [u8]) -> Pen
        requires { Room self out.old [] }
        ensures { Writes self out.old [] self.ones result out.new }
    {
        while 8 <= self.bits {
            self.bits -= 8;
            out[self.at] = ((self.held >> self.bits) % 256) as u8;
            self.at += 1;
        }
        self.held %= 128;
        self
    }

    // The octets of a frame.
    fn body(self, frame: &[u8], out: &mut [u8]) -> Pen
        requires { Ready self × Room self out.old (body_from self frame.now) }
        ensures { Writes self out.old (body_from self frame.now) result.ones result out.new }
    {
        let mut pen = self;
        for &octet in frame {
            pen = pen.octet(octet).drain(out);
        }
        pen
    }

    // A flag.
    fn flag(self, out: &mut [u8]) -> Pen
        requires { Ready self × Room self out.old flag }
        ensures { Writes self out.old flag 0 result out.new }
    {
        let flagged = Pen {
            at: self.at,
            held: self.held * 256 + FLAG,
            bits: self.bits + 8,
            ones: 0,
        };
        flagged.drain(out)
    }

    // As many 0s as the last octet may want.
    fn fill(mut self, out: &mut [u8]) -> Pen
        requires { Ready self × Room self out.old (zeros 7) }
        ensures { Writes self out.old (zeros 7) self.ones result out.new }
    {
        self.held = self.held * 128;
        self.bits += 7;
        self.drain(out)
    }
}

// How many bits the octets of a frame are, stuffed.
fn measured(frame: &[u8]) -> usize
    requires { length frame.now ≤ greatest_length }
    ensures { result ≡ length (body_bits frame.now) }
{
    let mut count: usize = 0;
    let mut ones: u8 = 0;
    for &octet in frame {
        let pen = Pen::new(ones).octet(octet);
        count += usize::from(pen.bits);
        ones = pen.ones;
    }
    count
}

// Whether the stream of frames is longer than room.
pub(crate) fn short(octets: &[u8], lengths: &[u16], room: usize) -> bool
    requires { Frames octets.now lengths.now }
    ensures { result ≡ ltb room (length (stream_of (cut octets.now lengths.now))) }
{
    if room == 0 {
        return true;
    }
    let mut left = room - 1;
    let mut part: usize = 0;
    let mut at = 0;
    for &length in lengths {
        let next = at + usize::from(length);
        let bits = part + measured(&octets[at..next]) + 8;
        let whole = bits / 8;
        if left < whole {
            return true;
        }
        left -= whole;
        part = bits % 8;
        at = next;
    }
    (left == 0) & (part != 0)
}

// All frames; the stream's length.
pub(crate) fn lay(octets: &[u8], lengths: &[u16], out: &mut [u8]) -> usize
    requires { FramesRoom octets.now lengths.now out.old }
    ensures value { result ≡ length (stream_of (cut octets.now lengths.now)) }
    ensures out_after { out.new ≡ written (stream_of (cut octets.now lengths.now)) out.old }
{
    let mut pen = Pen::new(0);
    let mut at = 0;
    for &length in lengths {
        let next = at + usize::from(length);
        pen = pen.flag(out).body(&octets[at..next], out);
        at = next;
    }
    pen.flag(out).fill(out).at
}
