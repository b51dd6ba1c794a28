// The frames that a script has made, laid out as a recording: those that the link does not lose.
//
// No public function asks anything of a caller.
#![tactic(auto)]

ghost use Rattle.std.specs.Prelude.{◌≡◌, ◌+◌, ◌-◌, ◌*◌, ◌%◌, ◌^◌, ◌≤◌, length};
ghost use Rattle.transmit_recording.specs.Recording.{lost_at, marked, losing, arrivals, head_of, behind_of};
ghost use Rattle.transmit_recording.specs.Laid.{LaysOne, LaysFrames, Lays};

// No number of octets.
pub const NONE: usize = 18446744073709551615;

// Added to the length of a frame that the link loses.
const LOST: u16 = 32768;

// Whether the link's sign says that a frame is lost; beyond the last sign all arrive.
fn lost(link: &[u8], i: usize) -> bool
    ensures { result ≡ lost_at link.now i }
{
    i < link.len() && link[i] == b'-'
}

// Marks a frame if it is lost.
fn mark(frames: &mut [u16], i: usize, lost: bool)
    ensures { frames.new ≡ marked frames.old i lost }
{
    if lost {
        if i < frames.len() {
            frames[i] = std::num::wrapping_add_u16(frames[i], LOST);
        }
    }
}

// Marks those of the frames from one number up to another that the link loses, by a sign for each.
pub fn lose(link: &[u8], frames: &mut [u16], from: usize, to: usize)
    ensures { frames.new ≡ losing (to - from) link.now frames.old from }
{
    for i in from..to {
        mark(frames, i, lost(link, i - from));
    }
}

// How many of the frames arrive.
fn arriving(frames: &[u16]) -> u32
    ensures { result ≡ arrivals frames.now % 2 ^ 32 }
{
    let n = frames.iter().filter(|n| **n < LOST).count();
    (n % 4294967296) as u32
}

// The recording's first octets: the settings, and the count of the frames that arrive.
pub fn head(t: u8, frames: &[u16]) -> [u8; 9]
    ensures { result ≡ head_of t frames.now }
{
    let count = octets::four_octets(arriving(frames));
    [0, 0, 0, 1, t, count[0], count[1], count[2], count[3]]
}

// Puts a frame that arrives, behind its length, into out from index to on, and answers the index behind it; a lost one puts nothing. The
// frame's octets stand at the start of rest.
fn lay_one(rest: &[u8], n: u16, out: &mut [u8], to: usize) -> usize
    requires { to + 2 + length rest.now ≤ length out.old }
    ensures { LaysOne rest.now n out.old to result out.new }
{
    if LOST <= n {
        return to;
    }
    let length = octets::word_octets(n);
    octets::put(out, to, &length);
    let octets = octets::part(rest, 0, usize::from(n));
    octets::put(out, to + 2, octets);
    to + 2 + octets.len()
}

// The index behind a frame of a length, which may be marked; at most that of the octets' end.
fn behind(at: usize, n: u16, end: usize) -> usize
    requires { at ≤ end }
    ensures { result ≡ behind_of at n end }
{
    at + usize::from(n % LOST).min(end - at)
}

// Lays a recording at the start of out: its first octets, and each frame that arrives behind its length. Answers how many octets it has; if
// out is too short for all the frames made it stays as it is, and the answer is NONE.
pub fn lay(t: u8, made: &[u8], frames: &[u16], out: &mut [u8]) -> usize
    ensures { Lays t made.now frames.now out.old result out.new }
{
    if out.len() < 9 {
        return NONE;
    }
    let room = out.len() - 9;
    if room < made.len() {
        return NONE;
    }
    if (room - made.len()) / 2 < frames.len() {
        return NONE;
    }
    let first = head(t, frames);
    octets::put(out, 0, &first);
    lay_frames(made, frames, out)
}

// The same of the frames, behind the first octets.
fn lay_frames(made: &[u8], frames: &[u16], out: &mut [u8]) -> usize
    requires { 9 + length made.now + 2 * length frames.now ≤ length out.old }
    ensures { LaysFrames made.now frames.now out.old result out.new }
{
    let mut to = 9;
    let mut at = 0;
    for &n in frames {
        to = lay_one(&made[at..], n, out, to);
        at = behind(at, n, made.len());
    }
    to
}
