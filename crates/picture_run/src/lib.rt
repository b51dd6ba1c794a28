// A picture of one image of a recording or a stream: every packet that is handed out is placed, what is refused is counted, and at the end
// the image is written as a greymap, or its line numbers as text.
//
// What computes is apart from what writes: nothing is written before the input's end, and nothing at all if a read failed.
#![tactic(auto)]

ghost use Rattle.std.specs.Prelude.{◌≡◌};
ghost use Rattle.session.specs.Lent.{lent, Enough};
ghost use Rattle.picture_frame.specs.Received.{received};
ghost use Rattle.picture_run.specs.Gathered.{gathered, pull_placed, pull_counted, goes_on, found_bad, Turned};
ghost use Rattle.picture_run.specs.Whole.{black, unnoted, start_of, Looped, Shown, Ran};

use feed::{Feed, Pull};
use receiver::Receiver;
use stretch::KEPT;
use window::Refilled;

mod ending;

// One more than the greatest number of a refusal.
const NUMBERS: usize = 124;

// The largest number of an image.
const LAST_IMAGE: usize = 65535;

// The most turns.
const TURNS: u64 = 18446744073709551615;

// Where a run stands: the feed and the receiver, whether it goes on, whether the recording was found bad, and what the last turn read.
#[derive(Clone, Copy)]
pub(crate) struct State {
    feed: Feed,
    receiver: Receiver,
    pub(crate) going: bool,
    pub(crate) bad: bool,
    pub(crate) read: Refilled,
}

// Where a run stopped, and after how many turns.
#[derive(Clone, Copy)]
pub(crate) struct Stopped {
    pub(crate) state: State,
    made: u64,
}

// Places every packet that a fresh receiver hands out of a descriptor, if it is a line of the image, and writes the image as a greymap to
// standard output, or if asked its line numbers; answers the program's exit status. What fails, that no line was received, and then what
// was refused, is told on standard error, behind the program's name.
pub fn run(
    name: &[u8],
    image: &[u8],
    lines: bool,
    descriptor: &window::Source,
    receiver: Receiver,
) -> i32
    ensures { Ran image.now lines receiver result }
{
    let wanted = words::number(image);
    if LAST_IMAGE < wanted {
        telling::say(name, b": IMAGE is 0 to 65535\n");
        return window::BROKEN;
    }
    show_image(name, wanted as u16, lines, descriptor, receiver)
}

// The same of an image by its number.
fn show_image(
    name: &[u8],
    wanted: u16,
    lines: bool,
    descriptor: &window::Source,
    receiver: Receiver,
) -> i32
    ensures { Shown wanted lines receiver result }
{
    let mut pixels = black();
    let mut numbers = [0u32; image::LINES];
    let mut frames = [0u64; NUMBERS];
    let mut packets = [0u64; NUMBERS];
    let mut images = unnoted();
    let stopped = turns(
        name,
        descriptor,
        receiver,
        wanted,
        &mut pixels,
        &mut numbers,
        &mut frames,
        &mut packets,
        &mut images,
    );
    let ended = ending::finish(name, lines, stopped, wanted, &pixels, &numbers, &images);
    telling::tell(name, &frames, b" frame");
    telling::tell(name, &packets, b" packet");
    ending::status(stopped, ended)
}

// An image of which nothing was received.
fn black() -> [u8; image::OCTETS]
    ensures { result ≡ black }
{
    [0u8; image::OCTETS]
}

// Places for images, of which none is noted.
fn unnoted() -> [u32; picture_images::PLACES]
    ensures { result ≡ unnoted }
{
    [0u32; picture_images::PLACES]
}

// Takes the whole input. It ends with the input, a bad recording or a failed read; after 2^64 - 1 turns it would end too.
fn turns(
    name: &[u8],
    descriptor: &window::Source,
    receiver: Receiver,
    wanted: u16,
    pixels: &mut [u8],
    numbers: &mut [u32],
    frames: &mut [u64],
    packets: &mut [u64],
    images: &mut [u32],
) -> Stopped
    ensures { Looped wanted receiver
        (gathered pixels.old numbers.old packets.old images.old frames.old) result
        (gathered pixels.new numbers.new packets.new images.new frames.new) }
{
    let mut buffer = io::large_buffer();
    let mut kept = [0u8; KEPT];
    let mut octets = [0u8; 501];
    let mut lengths = [0u16; 16];
    let mut firsts = [0u32; 16];
    let mut state = start(receiver);
    let mut made: u64 = 0;
    while state.going {
        if made == TURNS {
            return Stopped { state, made };
        }
        state = turn(
            name,
            descriptor,
            &mut buffer,
            &mut kept,
            &mut octets,
            &mut lengths,
            &mut firsts,
            wanted,
            pixels,
            numbers,
            frames,
            packets,
            images,
            state,
        );
        made += 1;
    }
    Stopped { state, made }
}

// Before the first turn.
fn start(receiver: Receiver) -> State
    ensures { result ≡ start_of receiver }
{
    let feed = Feed::fresh();
    let read = Refilled::none();
    State {
        feed,
        receiver,
        going: true,
        bad: false,
        read,
    }
}

// One turn: the next section of the octets at hand, or a further read.
fn turn(
    name: &[u8],
    descriptor: &window::Source,
    input: &mut [u8],
    kept: &mut [u8; KEPT],
    octets: &mut [u8],
    lengths: &mut [u16],
    firsts: &mut [u32],
    wanted: u16,
    pixels: &mut [u8],
    numbers: &mut [u32],
    frames: &mut [u64],
    packets: &mut [u64],
    images: &mut [u32],
    state: State,
) -> State
    requires { Enough (lent octets.old lengths.old firsts.old) }
    ensures { Turned wanted state input.old kept.old
        (lent octets.old lengths.old firsts.old)
        (gathered pixels.old numbers.old packets.old images.old frames.old) result
        input.new kept.new (lent octets.new lengths.new firsts.new)
        (gathered pixels.new numbers.new packets.new images.new frames.new) }
{
    let before = state.feed;
    let first = state.receiver;
    let pulled = before.pull(
        name, descriptor, input, first, kept, octets, lengths, firsts,
    );
    let feed = pulled.feed;
    let receiver = pulled.receiver;
    let pull = pulled.pull;
    let read = pulled.read;
    count_frame(pull, frames);
    place_packets(
        pull, octets, lengths, wanted, pixels, numbers, packets, images,
    );
    let going = goes_on(pull);
    let bad = found_bad(pull);
    State {
        feed,
        receiver,
        going,
        bad,
        read,
    }
}

// Counts the refusal of a frame.
fn count_frame(pull: Pull, frames: &mut [u64])
    ensures { frames.new ≡ pull_counted pull frames.old }
{
    let Pull::Answered(answer) = pull else {
        return;
    };
    let Err(refusal) = answer else {
        return;
    };
    telling::count(frames, refusal.number);
}

// Places the packets of an accepted frame.
fn place_packets(
    pull: Pull,
    octets: &[u8],
    lengths: &[u16],
    wanted: u16,
    pixels: &mut [u8],
    numbers: &mut [u32],
    packets: &mut [u64],
    images: &mut [u32],
)
    ensures { received pixels.new numbers.new packets.new images.new
        ≡ pull_placed wanted pull octets.now lengths.now
        (received pixels.old numbers.old packets.old images.old) }
{
    let Pull::Answered(answer) = pull else {
        return;
    };
    let Ok(accepted) = answer else {
        return;
    };
    picture_frame::place_all(
        octets, lengths, accepted, wanted, pixels, numbers, packets, images,
    );
}

// Whether more may come behind what was told.
fn goes_on(pull: Pull) -> bool
    ensures { result ≡ goes_on pull }
{
    match pull {
        Pull::More | Pull::Opened | Pull::Answered(_) => true,
        Pull::Bad | Pull::End | Pull::Cut | Pull::Failed => false,
    }
}

// Whether what was told says that the recording is bad.
fn found_bad(pull: Pull) -> bool
    ensures { result ≡ found_bad pull }
{
    match pull {
        Pull::Bad | Pull::Cut => true,
        Pull::More | Pull::Opened | Pull::Answered(_) | Pull::End | Pull::Failed => false,
    }
}
