// The reports: one reader, refusals 20 to 22 and 30 to 32, and a writer for each, refusals 51 and 50.
#![tactic(auto)]

ghost use Rattle.std.specs.Prelude.{◌≡◌, ◌≤◌};
ghost use Rattle.octets.specs.Numbers.{at, word};
ghost use Rattle.report.specs.Report.{told, content_of, read_content, read_report};
ghost use Rattle.report.specs.Report.{rest_of, first_block, second_block, pixels_of};

use answer::Reason;
use packet::Packet;

mod table;
mod writers;

// Verification success: packet ID and sequence control of the telecommand.
#[derive(Clone, Copy)]
pub struct Success {
    pub id: u16,
    pub control: u16,
}

// Verification failure: the same and a code.
#[derive(Clone, Copy)]
pub struct Failure {
    pub id: u16,
    pub control: u16,
    pub code: u16,
}

// Housekeeping: SID and how many octets the rest has.
#[derive(Clone, Copy)]
pub struct Housekeeping {
    pub sid: u8,
    pub length: usize,
}

// Available image: image number and ticks, before two blocks.
#[derive(Clone, Copy)]
pub struct Available {
    pub image: u16,
    pub ticks: u32,
}

// Image line: image number and line, before the pixels.
#[derive(Clone, Copy)]
pub struct Line {
    pub image: u16,
    pub line: u8,
}

// What a report says. Strings of octets are places in the packet, which the calls below give.
#[derive(Clone, Copy)]
pub enum Content {
    Success(Success),
    Failure(Failure),
    Housekeeping(Housekeeping),
    Available(Available),
    Line(Line),
}

// A report: the fields of its packet and its content.
#[derive(Clone, Copy)]
pub struct Report {
    pub packet: Packet,
    pub content: Content,
}

// The octet at index i of s, 0 past its end.
fn octet(s: &[u8], i: usize) -> u8
    ensures { result ≡ at s.now i }
{
    s.get(i).copied().unwrap_or(0)
}

// The number of the octets at two indices of s.
fn word(s: &[u8], high: usize, low: usize) -> u16
    ensures { result ≡ word (at s.now high) (at s.now low) }
{
    octets::word(octet(s, high), octet(s, low))
}

// The content of the packet s of a known pair, whose fields are p, from the first three words of its source data; ticks are two of them.
fn content_of(p: Packet, s: &[u8]) -> Content
    requires { 1 ≤ p.length }
    ensures { result ≡ content_of p s.now }
{
    let first = word(s, 14, 15);
    let second = word(s, 16, 17);
    let third = word(s, 18, 19);
    if table::success(p.service, p.subtype) {
        return Content::Success(Success {
            id: first,
            control: second,
        });
    }
    if table::failure(p.service, p.subtype) {
        return Content::Failure(Failure {
            id: first,
            control: second,
            code: third,
        });
    }
    if table::housekeeping(p.service, p.subtype) {
        return Content::Housekeeping(Housekeeping {
            sid: octet(s, 14),
            length: p.length - 1,
        });
    }
    if table::available(p.service, p.subtype) {
        return Content::Available(Available {
            image: first,
            ticks: second as u32 * 65536 + third as u32,
        });
    }
    Content::Line(Line {
        image: first,
        line: octet(s, 16),
    })
}

// The report of the packet s, whose fields are p, or refusal 30, 31 or 32.
fn read_content(p: Packet, s: &[u8]) -> Result<Report, Reason>
    ensures { told result ≡ read_content p s.now }
{
    let pair = table::find(p.service, p.subtype).ok_or(Reason::Pair)?;
    if (p.length < pair.least) | (pair.greatest < p.length) {
        return Err(Reason::SourceLength);
    }
    if table::image_line(p.service, p.subtype) & (Line::LAST < octet(s, 16)) {
        return Err(Reason::Line);
    }
    let content = content_of(p, s);
    Ok(Report { packet: p, content })
}

impl Report {
    // The report that octets are, or refusal 20, 21, 22, 30, 31 or 32, the first that holds.
    pub fn read(octets: &[u8]) -> Result<Report, Reason>
        ensures { told result ≡ read_report octets.now }
    {
        let packet = Packet::read(octets)?;
        read_content(packet, octets)
    }
}

impl Housekeeping {
    // The place of the rest in its packet.
    pub const REST: usize = 15;

    // The rest after the SID, uncut; none if the octets are too few.
    pub fn rest(self, octets: &[u8]) -> &[u8]
        ensures { result.now ≡ rest_of self octets.now }
    {
        octets::part(octets, Housekeeping::REST, self.length)
    }
}

impl Available {
    // The places of the two blocks in their packet, and the length of each.
    pub const FIRST: usize = 20;

    pub const SECOND: usize = 100;

    pub const BLOCK: usize = 80;

    // The first block; none if the octets are too few.
    pub fn first_block(self, octets: &[u8]) -> &[u8]
        ensures { result.now ≡ first_block octets.now }
    {
        octets::part(octets, Available::FIRST, Available::BLOCK)
    }

    // The second block; none if the octets are too few.
    pub fn second_block(self, octets: &[u8]) -> &[u8]
        ensures { result.now ≡ second_block octets.now }
    {
        octets::part(octets, Available::SECOND, Available::BLOCK)
    }
}

impl Line {
    // The greatest line, the place of the pixels in their packet, and how many they are.
    pub const LAST: u8 = 119;

    pub const PLACE: usize = 17;

    pub const PIXELS: usize = 188;

    // The pixels; none if the octets are too few.
    pub fn pixels(self, octets: &[u8]) -> &[u8]
        ensures { result.now ≡ pixels_of octets.now }
    {
        octets::part(octets, Line::PLACE, Line::PIXELS)
    }
}
