// An image as a binary greymap (PGM, P5), with its line numbers as decimal text beside it: written into lent octets, and read back.
#![tactic(auto)]

ghost use Rattle.std.specs.Prelude.{◌≡◌, ◌≤◌, length};
ghost use Rattle.octets.specs.Parts.{put, written};
ghost use Rattle.image.specs.Line.{image_lines, image_of};
ghost use Rattle.greymap.specs.Picture.{line_shown, greymap_of, short};
ghost use Rattle.greymap.specs.Writing.{outputs, Writes};
ghost use Rattle.greymap.specs.Reading.{greymap_wrong, pixels_in, unnumbered_wrong, Reads};
ghost use Rattle.greymap.specs.Asked.{Drawable, PutText, listed, Picture};

use answer::Reason;
use report::Line;

// The octets that a greymap starts with.
pub const HEADER: [u8; 15] = *b"P5\n188 120\n255\n";

// Where its pixels start, and how many octets it has.
pub const PIXELS: usize = 15;

pub const OCTETS: usize = PIXELS + image::OCTETS;

// The most octets that the line numbers take as text.
pub const TEXT: usize = decimal::NUMBER * image::LINES;

// How many octets the greymap has, and the text of the line numbers.
#[derive(Clone, Copy)]
pub struct Lengths {
    pub grey: usize,
    pub text: usize,
}

// Writes an image as a greymap, lines numbered 0 as 0, and its line numbers as text, at the start of the lent outputs.
// Refusals 40 and 50. Beyond the lengths answered, and on a refusal, the outputs stay.
pub fn write(
    image: &[u8],
    lines: &[u32],
    grey: &mut [u8],
    text: &mut [u8],
) -> Result<Lengths, Reason>
    ensures { Writes (image_of image.now lines.now) (outputs grey.old text.old) result
        (outputs grey.new text.new) }
{
    if short(image, lines) {
        return Err(Reason::ImageShort);
    }
    if grey.len() < OCTETS {
        return Err(Reason::OutputShort);
    }
    let n = put_text(lines, text);
    if text.len() < n {
        return Err(Reason::OutputShort);
    }
    draw(image, lines, grey);
    Ok(Lengths {
        grey: OCTETS,
        text: n,
    })
}

// Reads a greymap and the text of its line numbers into the start of a lent image and list.
// Refusals 40, 80, 81 and 82. Beyond the image, and on a refusal, nothing lent changes.
pub fn read(grey: &[u8], text: &[u8], image: &mut [u8], lines: &mut [u32]) -> Result<(), Reason>
    ensures { Reads grey.now text.now (image_of image.old lines.old) result
        (image_of image.new lines.new) }
{
    if short(image, lines) {
        return Err(Reason::ImageShort);
    }
    if greymap_wrong(grey) {
        return Err(Reason::Greymap);
    }
    let list = numbers_in(text).ok_or(Reason::LineList)?;
    if unnumbered_wrong(&list, grey) {
        return Err(Reason::UnnumberedLine);
    }
    octets::put(image, 0, octets::part(grey, PIXELS, image::OCTETS));
    lines[..image::LINES].copy_from_slice(&list);
    Ok(())
}

// Refusal 40: image or line list too short.
fn short(image: &[u8], lines: &[u32]) -> bool
    ensures { result ≡ short (image_of image.now lines.now) }
{
    (image.len() < image::OCTETS) | (lines.len() < image::LINES)
}

// Puts the line numbers as text at the start of text if they have room there, and answers how many octets they take.
fn put_text(lines: &[u32], text: &mut [u8]) -> usize
    requires { image_lines ≤ length lines.now }
    ensures { PutText lines.now text.old result text.new }
{
    let mut list = [0u8; TEXT];
    let n = decimal::numbers(&mut list, 0, &lines[..image::LINES], b'\n');
    octets::put(text, 0, octets::part(&list, 0, n));
    n
}

// Puts the greymap of an image at the start of grey.
fn draw(image: &[u8], lines: &[u32], grey: &mut [u8])
    requires { Drawable (image_of image.now lines.now) grey.old }
    ensures { grey.new ≡ written (greymap_of (image_of image.now lines.now)) grey.old }
{
    octets::put(grey, 0, &HEADER);
    for n in 0..image::LINES {
        let at = Line::PIXELS * n;
        draw_line(
            lines[n],
            octets::part(image, at, Line::PIXELS),
            grey,
            PIXELS + at,
        );
    }
}

// Puts a line's pixels at index at of grey, those of a line numbered 0 as 0.
fn draw_line(number: u32, pixels: &[u8], grey: &mut [u8], at: usize)
    ensures { grey.new ≡ put grey.old at (line_shown number pixels.now) }
{
    if number == 0 {
        octets::put(grey, at, &[0u8; Line::PIXELS]);
        return;
    }
    octets::put(grey, at, pixels);
}

// Refusal 80: not a greymap of an image.
fn greymap_wrong(grey: &[u8]) -> bool
    ensures { result ≡ greymap_wrong grey.now }
{
    let known = octets::same(octets::part(grey, 0, PIXELS), &HEADER);
    (grey.len() != OCTETS) | !known
}

// The numbers that a text gives 120 lines; none if it is another text, refusal 81.
fn numbers_in(text: &[u8]) -> Option<[u32; image::LINES]>
    ensures { result ≡ listed text.now }
{
    let mut list = [0u32; image::LINES];
    let mut at = 0;
    for number in list.iter_mut() {
        let (n, next) = decimal::read(text, at, b'\n')?;
        *number = n;
        at = next;
    }
    if at < text.len() {
        return None;
    }
    Some(list)
}

// Refusal 82: a line numbered 0 with a pixel other than 0.
fn unnumbered_wrong(list: &[u32], grey: &[u8]) -> bool
    requires { Picture list.now grey.now }
    ensures { result ≡ unnumbered_wrong list.now (pixels_in grey.now) }
{
    let blank = [0u8; Line::PIXELS];
    for (n, &number) in list.iter().enumerate() {
        let pixels = octets::part(grey, PIXELS + Line::PIXELS * n, Line::PIXELS);
        if (number == 0) & !octets::same(pixels, &blank) {
            return true;
        }
    }
    false
}
