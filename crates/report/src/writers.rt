// A writer for each report, on one core. Private to the crate but for the methods.
// Each writes the report's packet to the start of out and answers its length; beyond it out stays.
// Refusal 51: a pair that is unknown or another report's, a length that isn't the lent one, a line above 119, a field of the packet
// out of range; 50: out too short. Then out stays whole.
ghost use Rattle.std.specs.Prelude.{◌+◌, ◌≤◌, ◌≡◌, [], ◌∷◌, length, take};
ghost use Rattle.report.specs.Write.{WroteReport};
ghost use Rattle.report.specs.Asked.{Short};
ghost use Rattle.report.specs.Promised.{together, WroteSource};

use super::{Available, Content, Failure, Housekeeping, Line, Success, table};
use answer::Reason;
use packet::Packet;

// Four strings one after another, with zeros after them.
fn lay(a: &[u8], b: &[u8], c: &[u8], d: &[u8]) -> [u8; 478]
    requires { Short a.now b.now c.now d.now }
    ensures { take (length a.now + length b.now + length c.now + length d.now) result ≡
        together a.now b.now c.now d.now }
{
    let mut source = [0u8; 478];
    let after_a = a.len();
    let after_b = after_a + b.len();
    let after_c = after_b + c.len();
    octets::put(&mut source, 0, a);
    octets::put(&mut source, after_a, b);
    octets::put(&mut source, after_b, c);
    octets::put(&mut source, after_c, d);
    source
}

// The core: refusal 51 if wrong or a string is longer than any source data, else what the packet's writer does with four strings one after
// another.
fn write(
    wrong: bool,
    packet: Packet,
    a: &[u8],
    b: &[u8],
    c: &[u8],
    d: &[u8],
    out: &mut [u8],
) -> Result<usize, Reason>
    requires { (length a.now ≤ 4) × (length b.now ≤ 4) }
    ensures { WroteSource wrong packet (together a.now b.now c.now d.now)
        out.old result out.new }
{
    if wrong | (Packet::LONGEST_SOURCE < c.len()) | (Packet::LONGEST_SOURCE < d.len()) {
        return Err(Reason::FieldRange);
    }
    let n = a.len() + b.len() + c.len() + d.len();
    let source = lay(a, b, c, d);
    packet.write(&source[..n], out)
}

impl Success {
    // Writes a verification success: packet ID and sequence control.
    pub fn write(self, packet: Packet, out: &mut [u8]) -> Result<usize, Reason>
        ensures { WroteReport packet (Content.Success self) [] out.old result out.new }
    {
        let wrong = !table::success(packet.service, packet.subtype);
        let id = octets::word_octets(self.id);
        let control = octets::word_octets(self.control);
        write(wrong, packet, &id, &control, b"", b"", out)
    }
}

impl Failure {
    // Writes a verification failure: packet ID, sequence control and code.
    pub fn write(self, packet: Packet, out: &mut [u8]) -> Result<usize, Reason>
        ensures { WroteReport packet (Content.Failure self) [] out.old result out.new }
    {
        let wrong = !table::failure(packet.service, packet.subtype);
        let id = octets::word_octets(self.id);
        let control = octets::word_octets(self.control);
        let code = octets::word_octets(self.code);
        write(wrong, packet, &id, &control, &code, b"", out)
    }
}

impl Housekeeping {
    // Writes a housekeeping report: SID and the rest.
    pub fn write(self, packet: Packet, rest: &[u8], out: &mut [u8]) -> Result<usize, Reason>
        ensures { WroteReport packet (Content.Housekeeping self) (rest.now ∷ []) out.old result out.new }
    {
        let wrong = !table::housekeeping(packet.service, packet.subtype)
            | (rest.len() != self.length);
        let sid = [self.sid];
        write(wrong, packet, &sid, b"", rest, b"", out)
    }
}

impl Available {
    // Writes an available image: image number, ticks and two blocks.
    pub fn write(
        self,
        packet: Packet,
        first: &[u8],
        second: &[u8],
        out: &mut [u8],
    ) -> Result<usize, Reason>
        ensures { WroteReport packet (Content.Available self) (first.now ∷ second.now ∷ []) out.old result
            out.new }
    {
        let wrong = !table::available(packet.service, packet.subtype)
            | ((first.len() != Available::BLOCK) | (second.len() != Available::BLOCK));
        let image = octets::word_octets(self.image);
        let ticks = octets::four_octets(self.ticks);
        write(wrong, packet, &image, &ticks, first, second, out)
    }
}

impl Line {
    // Writes an image line: image number, line and pixels.
    pub fn write(self, packet: Packet, pixels: &[u8], out: &mut [u8]) -> Result<usize, Reason>
        ensures { WroteReport packet (Content.Line self) (pixels.now ∷ []) out.old result out.new }
    {
        let wrong = !table::image_line(packet.service, packet.subtype)
            | (pixels.len() != Line::PIXELS)
            | (Line::LAST < self.line);
        let image = octets::word_octets(self.image);
        let line = [self.line];
        write(wrong, packet, &image, &line, pixels, b"", out)
    }
}
