// The sender for the test bench: the frames of one channel, made from packets by the rules. No public function asks anything of a caller.
#![tactic(auto)]

ghost use Rattle.std.specs.Prelude.{◌≡◌};
ghost use Rattle.sender.specs.Frames.{wanted};
ghost use Rattle.sender.specs.Send.{lent, observed, sending, Emptied};

use answer::Reason;
use counts::{ChannelCount, MasterCount};
use frame::{Address, Frame};

mod laying;
mod refusing;

// What is the same for all frames of a call, beside the time's octets, of which there are t.
#[derive(Clone, Copy)]
pub struct Common {
    pub destination: Address,
    pub source: Address,
    pub channel: u8,
    pub telecommands: u8,
    pub t: u8,
}

// How many frames were made, and their octets in all; and both counts of the frame to follow.
#[derive(Clone, Copy)]
pub struct Sent {
    pub frames: usize,
    pub octets: usize,
    pub master: MasterCount,
    pub count: ChannelCount,
}

// Makes the frames of packets that stand end to end, with their lengths: each takes the next octets, size of them, the last one what is
// left; no packets give one empty frame. The frames stand end to end at the start of out, their lengths at the start of frames; beyond
// them both stay. master and count are the first frame's.
// Refusal 51: a frame field but size out of range, or lengths that don't add up to the octets; 52: a packet that the packet reader turns
// away; 53: size 0 or above 251 - t; 50: out or frames too short; the first that holds. Then nothing lent changes.
pub fn send(
    common: Common,
    master: MasterCount,
    count: ChannelCount,
    time: &[u8],
    packets: &[u8],
    lengths: &[u16],
    size: usize,
    out: &mut [u8],
    frames: &mut [u16],
) -> Result<Sent, Reason>
    ensures { observed result out.new frames.new
        ≡ sending (wanted common master count time.now packets.now lengths.now size)
        (lent out.old frames.old) }
{
    let total = packets.len();
    if refusing::fields_wrong(common, master, count, time) | lengths::wrong(lengths, total) {
        return Err(Reason::FieldRange);
    }
    if refusing::packets_wrong(packets, lengths) {
        return Err(Reason::PacketTurnedAway);
    }
    let t = usize::from(common.t);
    if (size == 0) | (Frame::GREATEST - Frame::LEAST - t < size) {
        return Err(Reason::DataLength);
    }
    let full = laying::full_frames(total, size);
    if refusing::room_wrong(out.len(), frames.len(), total, full, t) {
        return Err(Reason::OutputShort);
    }
    Ok(laying::lay(
        common, master, count, time, packets, lengths, size, full, out, frames,
    ))
}

// Makes one empty frame with these counts at the start of out; beyond it out stays. Refusals 51, then 50: then out stays whole.
pub fn empty(
    common: Common,
    master: MasterCount,
    count: ChannelCount,
    time: &[u8],
    out: &mut [u8],
) -> Result<Sent, Reason>
    ensures { Emptied common master.0 count.0 time.now out.old result out.new }
{
    let f = laying::frame(common, master, count, 0, 0);
    let octets = f.write(common.t, &time[..0], time, out)?;
    Ok(Sent {
        frames: 1,
        octets,
        master: MasterCount(laying::next_count(master.0)),
        count: ChannelCount(laying::next_count(count.0)),
    })
}
