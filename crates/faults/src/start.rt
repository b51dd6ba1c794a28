// What the start of an input looks like, which may be of another kind than was said.
ghost use Rattle.std.specs.Prelude.{◌≡◌};
ghost use Rattle.faults.specs.Look.{alone, one_among, bit_octets, starts_kiss, starts_recording, look_of};

// What the first octets of an input look like.
#[derive(Clone, Copy)]
pub(crate) enum Look {
    // Nothing that is known.
    Nothing,
    // A KISS stream.
    Kiss,
    // Bits, one to an octet.
    Bit,
    // A recording.
    Recording,
}

// Whether the octets are bits, one to an octet.
fn alone(octets: &[u8]) -> bool
    ensures { result ≡ alone octets.now }
{
    octets.iter().all(|&x| x <= 1)
}

// Whether one of the octets is not 0.
fn one_among(octets: &[u8]) -> bool
    ensures { result ≡ one_among octets.now }
{
    octets.iter().any(|&x| x != 0)
}

// Whether the first sixteen octets are bits, one to an octet, and not all 0, as eight to an octet may begin.
fn bit_octets(octets: &[u8]) -> bool
    ensures { result ≡ bit_octets octets.now }
{
    if octets.len() < 16 {
        return false;
    }
    let first = octets::part(octets, 0, 16);
    alone(first) & one_among(first)
}

// Whether the first octet is the one that stands between the frames of a KISS stream.
fn starts_kiss(octets: &[u8]) -> bool
    ensures { result ≡ starts_kiss octets.now }
{
    if octets.len() == 0 {
        return false;
    }
    octets[0] == kiss::MARK
}

// Whether a recording's settings stand first.
fn starts_recording(octets: &[u8]) -> bool
    ensures { result ≡ starts_recording octets.now }
{
    if octets.len() < 5 {
        return false;
    }
    (octets::four(octets[0], octets[1], octets[2], octets[3]) == 1) & (octets[4] <= 8)
}

// What the first octets of an input look like. A recording of few frames has bits alone in its settings and its count, but not up to the
// sixteenth octet.
pub(crate) fn seen(octets: &[u8]) -> Look
    ensures { result ≡ look_of octets.now }
{
    if starts_kiss(octets) {
        return Look::Kiss;
    }
    if bit_octets(octets) {
        return Look::Bit;
    }
    if starts_recording(octets) {
        return Look::Recording;
    }
    Look::Nothing
}
