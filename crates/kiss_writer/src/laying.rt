// The stream of frames, one after another.
ghost use Rattle.std.specs.Prelude.{◌≡◌, ◌+◌, length};
ghost use Rattle.std.proofs.lemmas.List.Edits.{sets};
ghost use Rattle.octets.specs.Parts.{written};
ghost use Rattle.rules.specs.Packets.{cut};
ghost use Rattle.kiss.specs.Stream.{escaped};
ghost use Rattle.kiss_writer.specs.Export.{body_block, stream_of};
ghost use Rattle.kiss_writer.specs.Asked.{BlockRoom, Frames, Room};

// How many octets of the check stand at a frame's end.
const CHECK: usize = 2;

// How many of the octets are escaped.
fn escapes(body: &[u8]) -> usize
    ensures { length (escaped body.now) ≡ length body.now + result }
{
    body.iter()
        .filter(|x| (**x == kiss::MARK) | (**x == kiss::ESCAPE))
        .count()
}

// How many octets of all frames are escaped, the checks left out.
pub(crate) fn all_escapes(octets: &[u8], lengths: &[u16]) -> usize
    requires { Frames octets.now lengths.now }
    ensures { length (stream_of (cut octets.now lengths.now)) ≡ length octets.now + 1 + result }
{
    let mut count: usize = 0;
    let mut at = 0;
    for &length in lengths {
        let next = at + usize::from(length);
        count += escapes(&octets[at..next - CHECK]);
        at = next;
    }
    count
}

// The block of one frame, given without its check, from index at of out on; the index behind it.
fn lay_block(body: &[u8], at: usize, out: &mut [u8]) -> usize
    requires { BlockRoom body.now at out.old }
    ensures value { result ≡ at + length (body_block body.now) }
    ensures out_after { out.new ≡ sets out.old at (body_block body.now) }
{
    out[at] = kiss::DATA_FRAME;
    let mut n = at + 1;
    for &x in body {
        if x == kiss::MARK {
            out[n] = kiss::ESCAPE;
            out[n + 1] = kiss::FOR_MARK;
            n += 2;
        } else if x == kiss::ESCAPE {
            out[n] = kiss::ESCAPE;
            out[n + 1] = kiss::FOR_ESCAPE;
            n += 2;
        } else {
            out[n] = x;
            n += 1;
        }
    }
    out[n] = kiss::MARK;
    n + 1
}

// All frames; the stream's length.
pub(crate) fn lay(octets: &[u8], lengths: &[u16], out: &mut [u8]) -> usize
    requires { Room octets.now lengths.now out.old }
    ensures value { result ≡ length (stream_of (cut octets.now lengths.now)) }
    ensures out_after { out.new ≡ written (stream_of (cut octets.now lengths.now)) out.old }
{
    out[0] = kiss::MARK;
    let mut end = 1;
    let mut at = 0;
    for &length in lengths {
        let next = at + usize::from(length);
        end = lay_block(&octets[at..next - CHECK], end, out);
        at = next;
    }
    end
}
