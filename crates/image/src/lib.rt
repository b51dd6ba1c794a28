// One image, filled line by line in lent octets, with the arrival number of each line in a lent list.
#![tactic(auto)]

ghost use Rattle.std.specs.Prelude.{◌≡◌, length, ◌≤◌, ◌<◌};
ghost use Rattle.image.specs.Line.{image_lines, image_of, line_of, held_otherwise, number, placed, Fits};
ghost use Rattle.image.specs.Placing.{observed, placing, brought, Places};
ghost use Rattle.image.specs.Asked.{Brings};

use answer::Reason;
use report::{Content, Line, Report};

// How many lines an image has: the least length of the list that is lent for their numbers.
pub const LINES: usize = 120;

// How many octets an image has: the least length of what is lent for its pixels.
pub const OCTETS: usize = LINES * Line::PIXELS;

// The number of a line that is numbered held and comes again with this arrival number: the smaller of the two, 0 aside.
fn number(held: u32, arrival: u32) -> u32
    ensures { result ≡ number held arrival }
{
    if held == 0 {
        return arrival;
    }
    arrival.min(held)
}

// Refusal 42: line n is held, with other pixels.
fn held_otherwise(n: usize, pixels: &[u8], image: &[u8], lines: &[u32]) -> bool
    requires { (n < image_lines) × (image_lines ≤ length lines.now) }
    ensures { result ≡ held_otherwise (image_of image.now lines.now) n pixels.now }
{
    if lines[n] == 0 {
        return false;
    }
    !octets::same(octets::part(image, Line::PIXELS * n, Line::PIXELS), pixels)
}

// Puts the pixels of line n at their place, and gives the line its number.
fn lay(n: usize, pixels: &[u8], arrival: u32, image: &mut [u8], lines: &mut [u32])
    requires { Fits (image_of image.old lines.old) (line_of n pixels.now arrival) }
    ensures { image_of image.new lines.new ≡ placed (image_of image.old lines.old)
        (line_of n pixels.now arrival) }
{
    octets::put(image, Line::PIXELS * n, pixels);
    lines[n] = number(lines[n], arrival);
}

// Places a line, unless it is held with other pixels: refusal 42, and nothing lent changes.
fn place_line(
    line: u8,
    pixels: &[u8],
    arrival: u32,
    image: &mut [u8],
    lines: &mut [u32],
) -> Result<u8, Reason>
    requires { Fits (image_of image.old lines.old) (line_of line pixels.now arrival) }
    ensures { observed result (image_of image.new lines.new) ≡ placing
        (image_of image.old lines.old) (line_of line pixels.now arrival) }
{
    let n = line as usize;
    if held_otherwise(n, pixels, image, lines) {
        return Err(Reason::LineHeld);
    }
    lay(n, pixels, arrival, image, lines);
    Ok(line)
}

// Places what a packet's report brings, if it is a line of the wanted image: else refusal 33, 41 or 42, and nothing lent changes.
fn bring(
    content: Content,
    packet: &[u8],
    arrival: u32,
    wanted: u16,
    image: &mut [u8],
    lines: &mut [u32],
) -> Result<u8, Reason>
    requires { Brings content packet.now (image_of image.old lines.old) }
    ensures { observed result (image_of image.new lines.new) ≡ brought packet.now arrival wanted
        (image_of image.old lines.old) content }
{
    let Content::Line(l) = content else {
        return Err(Reason::NotLine);
    };
    if l.image != wanted {
        return Err(Reason::ImageOther);
    }
    place_line(l.line, l.pixels(packet), arrival, image, lines)
}

// Places the line that a packet brings at its place in the image, numbers it with its arrival number, and answers which line it is.
// Of an equal second copy the smaller number stays. On a refusal nothing lent changes.
pub fn place(
    packet: &[u8],
    arrival: u32,
    wanted: u16,
    image: &mut [u8],
    lines: &mut [u32],
) -> Result<u8, Reason>
    ensures { Places packet.now arrival wanted (image_of image.old lines.old) result
        (image_of image.new lines.new) }
{
    if (image.len() < OCTETS) | (lines.len() < LINES) {
        return Err(Reason::ImageShort);
    }
    if arrival == 0 {
        return Err(Reason::NoArrival);
    }
    let report = Report::read(packet)?;
    bring(report.content, packet, arrival, wanted, image, lines)
}
