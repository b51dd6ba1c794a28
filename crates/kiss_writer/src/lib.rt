// Frames written as KISS hands them on. No public function asks anything of a caller.
#![tactic(auto)]

ghost use Rattle.std.specs.Prelude.{◌≡◌, length};
ghost use Rattle.rules.specs.Packets.{cut, total};
ghost use Rattle.kiss_writer.specs.Export.{told, first_bad, Exports};

use answer::Reason;
use frame::Frame;

mod laying;

// Why the frame reader turns away the first frame that it does, else no octets.
fn first_bad(t: u8, octets: &[u8], lengths: &[u16]) -> Result<usize, Reason>
    requires { total lengths.now ≡ length octets.now }
    ensures { told result ≡ first_bad t (cut octets.now lengths.now) }
{
    let mut at = 0;
    for &length in lengths {
        let end = at + usize::from(length);
        Frame::read(t, &octets[at..end])?;
        at = end;
    }
    Ok(0)
}

// The stream of frames, which stand end to end with their lengths, at the start of out, and its length; beyond it out stays. Refusal 2: t
// above 8; 51: lengths that don't add up to the octets; 10 to 15, 120 to 123 with the octet: the first bad frame's; 50: out too short; the
// first that holds. Then out stays whole.
pub fn write(t: u8, octets: &[u8], lengths: &[u16], out: &mut [u8]) -> Result<usize, Reason>
    ensures { Exports t octets.now lengths.now out.old result out.new }
{
    if Frame::LONGEST_TIME < usize::from(t) {
        return Err(Reason::TimeLength);
    }
    let n = octets.len();
    if lengths::wrong(lengths, n) {
        return Err(Reason::FieldRange);
    }
    first_bad(t, octets, lengths)?;
    let escapes = laying::all_escapes(octets, lengths);
    let room = out.len();
    if room <= n || room - n - 1 < escapes {
        return Err(Reason::OutputShort);
    }
    Ok(laying::lay(octets, lengths, out))
}
