// Three counters that run apart and are never compared with one another.
#![tactic(auto)]

ghost use Rattle.std.specs.Prelude.{◌≡◌};
ghost use Rattle.counts.specs.Gap.{gap};
ghost use Rattle.counts.specs.Lost.{last_of, lost_since};

// The master frame count, over all channels.
#[derive(Clone, Copy)]
pub struct MasterCount(pub u8);

// The frame count of one virtual channel.
#[derive(Clone, Copy)]
pub struct ChannelCount(pub u8);

// The source sequence count of one APID, 14 bits of it in use.
#[derive(Clone, Copy)]
pub struct SequenceCount(pub u16);

// (count - last - 1) modulo 256, by subtraction that wraps.
fn gap(count: u8, last: u8) -> u8
    ensures { result ≡ gap 256 count last }
{
    count.wrapping_sub(last).wrapping_sub(1)
}

// How many frames were lost between the last one, if one was heard, and the one with this count; none if there is no last one to compare
// with.
fn lost(heard: bool, last: u8, count: u8) -> Option<u8>
    ensures { result ≡ lost_since (last_of heard last) count }
{
    heard.then_some(gap(count, last))
}

impl MasterCount {
    // How many frames of all channels were lost before this one, after the last if one was heard.
    pub fn lost(self, heard: bool, last: MasterCount) -> Option<u8>
        ensures { result ≡ lost_since (last_of heard last.0) self.0 }
    {
        lost(heard, last.0, self.0)
    }
}

impl ChannelCount {
    // How many of the channel's frames were lost before this one, after the last if one was heard.
    pub fn lost(self, heard: bool, last: ChannelCount) -> Option<u8>
        ensures { result ≡ lost_since (last_of heard last.0) self.0 }
    {
        lost(heard, last.0, self.0)
    }
}

impl SequenceCount {
    // How many of the APID's packets are missing between the one counted last and this one.
    pub fn missing(self, last: SequenceCount) -> u16
        ensures { result ≡ gap 16384 self.0 last.0 }
    {
        self.0.wrapping_sub(last.0).wrapping_sub(1) % 16384
    }
}
