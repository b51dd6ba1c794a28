// Frames: read, written, and their data and time found. No function here asks anything of a caller.
#![tactic(auto)]

ghost use Rattle.std.specs.Prelude.{◌≡◌};
ghost use Rattle.frame.specs.Frame.{told, read_frame, data_of, time_of};
ghost use Rattle.frame.specs.Write.{WroteFrame};

use answer::Reason;
use counts::{ChannelCount, MasterCount};

mod addresses;
mod reading;
mod writing;

// One to six letters and digits, then spaces, as characters (not shifted).
#[derive(Clone, Copy)]
pub struct Callsign(pub u8, pub u8, pub u8, pub u8, pub u8, pub u8);

#[derive(Clone, Copy)]
pub struct Address {
    pub callsign: Callsign,
    pub ssid: u8,
}

// A frame's fields; length is that of its data.
#[derive(Clone, Copy)]
pub struct Frame {
    pub destination: Address,
    pub source: Address,
    pub channel: u8,
    pub master: MasterCount,
    pub count: ChannelCount,
    pub pointer: u8,
    pub telecommands: u8,
    pub length: usize,
}

impl Address {
    pub const LAST_SSID: u8 = 15;
}

impl Frame {
    // The fewest octets of a frame, without a time.
    pub const LEAST: usize = 23;

    // The most octets of a frame.
    pub const GREATEST: usize = 274;

    // The octets before the information: two addresses, control and protocol.
    pub const HEADER: usize = 16;

    // The Secondary Header: the information's octets before the data.
    pub const SECONDARY_HEADER: usize = 4;

    // The most octets of a time.
    pub const LONGEST_TIME: usize = 8;

    // The last channel, and the most telecommands that are counted.
    pub const LAST_CHANNEL: u8 = 7;

    pub const MOST_TELECOMMANDS: u8 = 3;

    // Pointers that are no place: no packet header starts here; raw data and no packet octets.
    pub const NONE_STARTS: u8 = 255;

    pub const RAW_DATA: u8 = 254;

    // The frame of these fields, as they stand: writing refuses what is out of range.
    pub fn new(
        destination: Address,
        source: Address,
        channel: u8,
        master: MasterCount,
        count: ChannelCount,
        pointer: u8,
        telecommands: u8,
        length: usize,
    ) -> Frame
        ensures { result ≡ record {
          destination = destination;
          source = source;
          channel = channel;
          master = master;
          count = count;
          pointer = pointer;
          telecommands = telecommands;
          length = length;
        } }
    {
        Frame {
            destination,
            source,
            channel,
            master,
            count,
            pointer,
            telecommands,
            length,
        }
    }

    // The fields of a single frame whose time has t octets, or the first of the refusals 2, 10, 11, 120 to 123, 13 to 15. The octets
    // stay as they are.
    pub fn read(t: u8, octets: &[u8]) -> Result<Frame, Reason>
        ensures { told result ≡ read_frame t octets.now }
    {
        let time = t as usize;
        if Frame::LONGEST_TIME < time {
            return Err(Reason::TimeLength);
        }
        if reading::length_wrong(time, octets.len()) {
            return Err(Reason::FrameLength);
        }
        if reading::check_wrong(octets) {
            return Err(Reason::FrameCheck);
        }
        reading::read_header(time, octets)
    }

    // The data of a frame's octets; none if they have not all of it.
    pub fn data(self, octets: &[u8]) -> &[u8]
        ensures { result.now ≡ data_of self octets.now }
    {
        octets::part(octets, reading::DATA_AT, self.length)
    }

    // The time, t octets, of a frame's octets; none if they have not all of it.
    pub fn time(self, t: u8, octets: &[u8]) -> &[u8]
        ensures { result.now ≡ time_of self t octets.now }
    {
        if octets.len() < self.length {
            return &octets[..0];
        }
        let at = reading::BEFORE_TIME + self.length;
        octets::part(octets, at, t as usize)
    }

    // The frame's octets at the start of out, and their number; else 51 or 50, and out stays.
    pub fn write(self, t: u8, data: &[u8], time: &[u8], out: &mut [u8]) -> Result<usize, Reason>
        ensures { WroteFrame self t «data».now time.now out.old result out.new }
    {
        let n = data.len();
        let m = time.len();
        let asked = t as usize;
        if writing::fields_wrong(self, asked, n, m) {
            return Err(Reason::FieldRange);
        }
        let whole = n + Frame::LEAST + m;
        if out.len() < whole {
            return Err(Reason::OutputShort);
        }
        writing::lay(self, asked, data, time, out);
        Ok(whole)
    }
}
