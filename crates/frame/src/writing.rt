// The octets of a frame.
ghost use Rattle.std.specs.Prelude.{◌≡◌, length, take, ◌≤◌};
ghost use Rattle.octets.specs.Parts.{put, written};
ghost use Rattle.crc.specs.Check.{frame_check, octets_of};
ghost use Rattle.bits.specs.Rows.Order.{low_first};
ghost use Rattle.frame.specs.Asked.{FrontRoom, Room};
ghost use Rattle.frame.specs.Limits.{last_channel, longest_time, most_telecommands};
ghost use Rattle.frame.specs.Write.{fields_wrong, head_of, front, status_octet, frame_octets};

use super::{Frame, addresses, reading};

// Whether a field is out of range, where n octets of data and m octets of time are lent: refusal 51.
pub(crate) fn fields_wrong(f: Frame, t: usize, n: usize, m: usize) -> bool
    ensures { result ≡ fields_wrong f t n m }
{
    if Frame::LONGEST_TIME < t {
        return true;
    }
    (m != t)
        | (f.length != n)
        | (Frame::GREATEST - Frame::LEAST - t < n)
        | (Frame::LAST_CHANNEL < f.channel)
        | (Frame::MOST_TELECOMMANDS < f.telecommands)
        | reading::pointer_wrong(f.pointer, n)
        | addresses::unfit(f.destination)
        | addresses::unfit(f.source)
}

// The six octets after the addresses.
fn head(f: Frame) -> [u8; 6]
    requires { f.channel ≤ last_channel }
    ensures { result ≡ head_of f }
{
    [
        reading::CONTROL,
        reading::PROTOCOL,
        8 * f.channel,
        f.master.0,
        f.count.0,
        f.pointer,
    ]
}

// The status octet.
fn status(f: Frame, t: usize) -> u8
    requires { (t ≤ longest_time) × (f.telecommands ≤ most_telecommands) }
    ensures { result ≡ status_octet f t }
{
    (16 * reading::flag(t)) as u8 + f.telecommands
}

// The frame's octets before the data, at the start of out; beyond them out stays.
fn lay_front(f: Frame, out: &mut [u8])
    requires { FrontRoom f out.old }
    ensures { out.new ≡ written (front f) out.old }
{
    let destination = addresses::address_octets(f.destination, 0);
    let source = addresses::address_octets(f.source, 1);
    let rest = head(f);
    octets::put(out, 0, &destination);
    octets::put(out, reading::SOURCE_AT, &source);
    octets::put(out, reading::CONTROL_AT, &rest);
}

// The check of the first n octets of out, put behind them; all else stays.
fn seal(out: &mut [u8], n: usize)
    requires { n ≤ length out.old }
    ensures { out.new ≡ put out.old n (octets_of low_first (frame_check (take n out.old))) }
{
    let check = u16::to_le_bytes(crc::frame_check(&out[..n]));
    octets::put(out, n, &check);
}

// The frame's octets at the start of out; beyond them out stays.
pub(crate) fn lay(f: Frame, t: usize, data: &[u8], time: &[u8], out: &mut [u8])
    requires { Room f t «data».now time.now out.old }
    ensures { out.new ≡ written (frame_octets f t «data».now time.now) out.old }
{
    let status_at = data.len() + reading::DATA_AT;
    let time_at = status_at + 1;
    let check_at = time_at + t;
    let state = [status(f, t)];
    lay_front(f, out);
    octets::put(out, reading::DATA_AT, data);
    octets::put(out, status_at, &state);
    octets::put(out, time_at, time);
    seal(out, check_at);
}
