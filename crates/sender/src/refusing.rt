// What the sender turns away: 51, 52 and 50.
ghost use Rattle.std.specs.Prelude.{◌≡◌, ◌≤◌, length};
ghost use Rattle.rules.specs.Packets.{cut, total};
ghost use Rattle.sender.specs.Send.{common_wrong, turned_away, any_turned_away};
ghost use Rattle.sender.specs.Asked.{too_short};

use super::Common;
use counts::{ChannelCount, MasterCount};
use frame::Frame;
use packet::Packet;

// Room for any empty frame.
const EMPTY: usize = Frame::LEAST + Frame::LONGEST_TIME;

// Refusal 51, of fields: an empty frame of them cannot be made, whatever the room.
pub(crate) fn fields_wrong(
    common: Common,
    master: MasterCount,
    count: ChannelCount,
    time: &[u8],
) -> bool
    ensures { result ≡ common_wrong common master.0 count.0 time.now }
{
    let mut room = [0u8; EMPTY];
    super::empty(common, master, count, time, &mut room).is_err()
}

// Whether the packet reader turns a packet away.
fn turned_away(packet: &[u8]) -> bool
    ensures { result ≡ turned_away packet.now }
{
    Packet::read(packet).is_err()
}

// Refusal 52: a packet that the packet reader turns away.
pub(crate) fn packets_wrong(packets: &[u8], lengths: &[u16]) -> bool
    requires { total lengths.now ≡ length packets.now }
    ensures { result ≡ any_turned_away (cut packets.now lengths.now) }
{
    let mut at = 0;
    for &length in lengths {
        let end = at + usize::from(length);
        if turned_away(&packets[at..end]) {
            return true;
        }
        at = end;
    }
    false
}

// Refusal 50: less than room for frames that carry n octets, full of them before the last, or for their lengths.
pub(crate) fn room_wrong(octets: usize, lengths: usize, n: usize, full: usize, t: usize) -> bool
    requires { t ≤ 8 }
    ensures { result ≡ too_short octets lengths n full t }
{
    if octets < n {
        return true;
    }
    ((octets - n) / (Frame::LEAST + t) <= full) | (lengths <= full)
}
