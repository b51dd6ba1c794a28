// The images of which lines came, in a lent list, and the line that tells them where no line of the wanted image was received.
//
// The list has places: an image is held as one more than its number, and 0 is a free place.
#![tactic(auto)]

ghost use Rattle.std.specs.Prelude.{◌≡◌, ◌∷◌, ◌++◌, ◌+◌, ◌-◌, ◌*◌, ◌≤◌, length, take};
ghost use Rattle.decimal.specs.Text.{longest_number, decimal};
ghost use Rattle.decimal.specs.Laid.{Laid, Puts};
ghost use Rattle.picture_images.specs.Noted.{images_in, noted};
ghost use Rattle.picture_images.specs.Line.{name_of, names_of, list_of, head_of, line_of, Names, Lists};
ghost use Rattle.picture_images.specs.Line.{longest_name, longest_list, longest_head, longest_line};

// As many places as an image can have numbers: then no image finds the list full.
pub const PLACES: usize = 65536;

// The most octets that the line takes.
pub const LINE: usize = 337;

// How many images are named at most.
const NAMED: usize = 16;

// Notes an image: at the first free place, unless a place before it holds the image.
pub fn note(images: &mut [u32], image: u16)
    ensures { images.new ≡ noted images.old image }
{
    let held = u32::from(image) + 1;
    for place in images.iter_mut() {
        if *place == 0 {
            *place = held;
            return;
        }
        if *place == held {
            return;
        }
    }
}

// Puts the line, as it stands behind the program's name, at the start of out, and answers how many octets it has. With less than LINE
// octets there out stays, and the answer is 0.
pub fn line(out: &mut [u8], wanted: u16, images: &[u32]) -> usize
    ensures { Puts longest_line (line_of wanted (images_in images.now)) out.old 0 out.new result }
{
    if out.len() < LINE {
        return 0;
    }
    let n = known(images);
    if n == 0 {
        return lay(out, b": no image line was received at all\n");
    }
    let next = head(out, wanted, n);
    list(out, next, images, n)
}

// How many images the places hold.
fn known(images: &[u32]) -> usize
    ensures { result ≡ length (images_in images.now) }
{
    images
        .iter()
        .position(|place| *place == 0)
        .unwrap_or(images.len())
}

// Puts a text at the start of out, and answers how many octets it has.
fn lay(out: &mut [u8], text: &[u8]) -> usize
    requires { length text.now ≤ length out.old }
    ensures { Laid (length text.now) text.now out.old 0 out.new result }
{
    octets::put(out, 0, text);
    text.len()
}

// What stands before the images, of which there are n.
fn head(out: &mut [u8], wanted: u16, n: usize) -> usize
    requires { longest_head ≤ length out.old }
    ensures { Laid longest_head (head_of wanted n) out.old 0 out.new result }
{
    let at = lay(out, b": no line of image ");
    if n == 1 {
        return told(
            out,
            at,
            wanted as u32,
            b' ',
            b"was received; lines of image ",
        );
    }
    told(
        out,
        at,
        wanted as u32,
        b' ',
        b"was received; lines of images ",
    )
}

// All images, or the first of them and how many more there are.
fn list(out: &mut [u8], at: usize, images: &[u32], n: usize) -> usize
    requires { Lists out.old at images.now n }
    ensures { Laid longest_list (list_of (images_in images.now)) out.old at out.new result }
{
    if n <= NAMED {
        return names(out, at, images, n, 0);
    }
    let next = names(out, at, images, NAMED, 1);
    let more = ((n - NAMED) % 4294967296) as u32;
    told(out, next, more, b' ', b"more were\n")
}

// The first images by their numbers, so many, with more told behind them all.
fn names(out: &mut [u8], at: usize, images: &[u32], named: usize, more: usize) -> usize
    requires { Names out.old at images.now named more }
    ensures { Laid (longest_name * named) (names_of more (take named (images_in images.now))) out.old at
        out.new result }
{
    let mut next = at;
    for (i, &place) in images[..named].iter().enumerate() {
        let image = place.saturating_sub(1);
        next = name(out, next, image, named - 1 - i + more);
    }
    next
}

// An image's number, with so many told behind it.
fn name(out: &mut [u8], at: usize, image: u32, behind: usize) -> usize
    requires { at + longest_name ≤ length out.old }
    ensures { Laid longest_name (name_of image behind) out.old at out.new result }
{
    if behind == 0 {
        return told(out, at, image, b' ', b"were\n");
    }
    if behind == 1 {
        return told(out, at, image, b' ', b"and ");
    }
    told(out, at, image, b',', b" ")
}

// A number, the character after it, and words.
fn told(out: &mut [u8], at: usize, n: u32, after: u8, words: &[u8]) -> usize
    requires { at + longest_number + length words.now ≤ length out.old }
    ensures { Laid (longest_number + length words.now) (decimal n ++ (after ∷ words.now)) out.old at
        out.new result }
{
    let next = decimal::number(out, at, n, after);
    octets::put(out, next, words);
    next + words.len()
}
