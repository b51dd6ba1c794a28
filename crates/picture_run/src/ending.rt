// The end of a run: the image is written, or it is told which images' lines were received instead; and the exit status.
ghost use Rattle.std.specs.Prelude.{◌≡◌, length};
ghost use Rattle.image.specs.Line.{image_of, Room};
ghost use Rattle.picture_images.specs.Noted.{images_in};
ghost use Rattle.picture_images.specs.Line.{line_of};
ghost use Rattle.picture_run.specs.Files.{Drawable, Drawn, shown_of, no_line};
ghost use Rattle.picture_run.specs.Whole.{broke, Finished, status_of};

use crate::Stopped;
use greymap::Lengths;
use window::Written;

// What was done at the end: whether no line was received, how many octets were told of that, and what was written.
#[derive(Clone, Copy)]
pub(crate) struct Ended {
    none: bool,
    told: usize,
    written: Written,
}

// Writes the image, or its line numbers, if the whole input was taken and a line of it was received; if none was, tells which images' lines
// were.
pub(crate) fn finish(
    name: &[u8],
    lines: bool,
    stopped: Stopped,
    wanted: u16,
    pixels: &[u8],
    numbers: &[u32],
    images: &[u32],
) -> Ended
    requires { Room (image_of pixels.now numbers.now) }
    ensures { Finished lines wanted stopped (image_of pixels.now numbers.now) images.now result }
{
    let mut ended = Ended {
        none: false,
        told: 0,
        written: Written::none(),
    };
    if broken(stopped) {
        return ended;
    }
    if none_received(numbers) {
        ended.none = true;
        ended.told = instead(name, wanted, images);
        return ended;
    }
    ended.written = show(name, lines, pixels, numbers);
    ended
}

// Whether the input was not taken to its end.
fn broken(stopped: Stopped) -> bool
    ensures { result ≡ broke stopped }
{
    let state = stopped.state;
    let read = state.read;
    state.going | read.failed()
}

// The exit status of a run.
pub(crate) fn status(stopped: Stopped, ended: Ended) -> i32
    ensures { result ≡ status_of stopped ended }
{
    if broken(stopped) {
        return window::BROKEN;
    }
    if ended.none {
        return window::AGAINST;
    }
    let written = ended.written;
    if written.failed() {
        return window::BROKEN;
    }
    let state = stopped.state;
    if state.bad {
        return window::AGAINST;
    }
    window::DONE
}

// Whether no line was received: no line has the number of a frame.
fn none_received(numbers: &[u32]) -> bool
    ensures { result ≡ no_line numbers.now }
{
    numbers.iter().all(|&number| number == 0)
}

// Tells which images' lines were received instead, and answers in how many octets.
fn instead(name: &[u8], wanted: u16, images: &[u32]) -> usize
    ensures { result ≡ length (line_of wanted (images_in images.now)) }
{
    let mut line = [0u8; picture_images::LINE];
    let n = picture_images::line(&mut line, wanted, images);
    tell(name, wanted, images, octets::part(&line, 0, n))
}

// Tells octets that are the line of the images received instead, all of them and no others, and answers how many.
fn tell(name: &[u8], wanted: u16, images: &[u32], octets: &[u8]) -> usize
    requires { octets.now ≡ line_of wanted (images_in images.now) }
    ensures { result ≡ length (line_of wanted (images_in images.now)) }
{
    telling::say(name, octets);
    octets.len()
}

// Writes an image as a greymap, or its line numbers.
fn show(name: &[u8], lines: bool, pixels: &[u8], numbers: &[u32]) -> Written
    requires { Room (image_of pixels.now numbers.now) }
    ensures { result.size ≡ length (shown_of lines (image_of pixels.now numbers.now)) }
{
    let mut out = empty();
    let mut text = [0u8; greymap::TEXT];
    let drawn = draw(pixels, numbers, &mut out, &mut text);
    if lines {
        return emit(
            name,
            true,
            pixels,
            numbers,
            octets::part(&text, 0, drawn.text),
        );
    }
    emit(
        name,
        false,
        pixels,
        numbers,
        octets::part(&out, 0, drawn.grey),
    )
}

// Writes octets that are an image's greymap or its line numbers, all of them and no others. Nothing else here writes.
fn emit(name: &[u8], lines: bool, pixels: &[u8], numbers: &[u32], octets: &[u8]) -> Written
    requires { octets.now ≡ shown_of lines (image_of pixels.now numbers.now) }
    ensures { result.size ≡ length (shown_of lines (image_of pixels.now numbers.now)) }
{
    window::write(name, octets, octets.len())
}

// Leaves the octets of the greymap and of the line numbers at the start of two outputs, and answers how many there are. Both have room:
// nothing is refused.
fn draw(pixels: &[u8], numbers: &[u32], out: &mut [u8], text: &mut [u8]) -> Lengths
    requires { Drawable (image_of pixels.now numbers.now) out.old text.old }
    ensures { Drawn (image_of pixels.now numbers.now) result out.new text.new }
{
    match greymap::write(pixels, numbers, out, text) {
        Ok(lengths) => lengths,
        Err(_) => Lengths { grey: 0, text: 0 },
    }
}

// Room for a greymap.
fn empty() -> [u8; greymap::OCTETS] {
    [0u8; greymap::OCTETS]
}
