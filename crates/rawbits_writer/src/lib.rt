// Frames written as raw bits, the earliest bit in the top of each octet. No public function asks anything of a caller.
#![tactic(auto)]

ghost use Rattle.std.specs.Prelude.{◌≡◌};
ghost use Rattle.rawbits_writer.specs.Stream.{any_outside, WroteFrames};

use answer::Reason;
use frame::Frame;

mod laying;

// Whether a length is outside 23 to 274.
fn any_outside(lengths: &[u16]) -> bool
    ensures { result ≡ any_outside lengths.now }
{
    lengths.iter().any(|n| (usize::from(*n) < Frame::LEAST) | (Frame::GREATEST < usize::from(*n)))
}

// The stream of frames, which stand end to end with their lengths, at the start of out, and its length; beyond it out stays. Refusal 51: a
// length outside 23 to 274, or lengths that don't add up to the octets; then 50: out too short. Then out stays whole.
pub fn write(octets: &[u8], lengths: &[u16], out: &mut [u8]) -> Result<usize, Reason>
    ensures { WroteFrames octets.now lengths.now out.old result out.new }
{
    if any_outside(lengths) | lengths::wrong(lengths, octets.len()) {
        return Err(Reason::FieldRange);
    }
    if laying::short(octets, lengths, out.len()) {
        return Err(Reason::OutputShort);
    }
    Ok(laying::lay(octets, lengths, out))
}
