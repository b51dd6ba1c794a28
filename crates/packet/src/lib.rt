// The packet: its reader, refusals 20 to 22, and its writer, refusals 51 and 50.
#![tactic(auto)]

ghost use Rattle.std.specs.Prelude.{◌≡◌, length, ◌≤◌};
ghost use Rattle.octets.specs.Parts.{written};
ghost use Rattle.bits.specs.Rows.{zeros};
ghost use Rattle.bits.specs.Rows.Order.{high_first};
ghost use Rattle.crc.specs.Check.{check_wrong};
ghost use Rattle.packet.specs.Packet.{length_wrong, bits_wrong, fields_of, told, read_packet, source_of};
ghost use Rattle.packet.specs.Write.{fields_wrong, header_of, packet_octets, WrotePacket};
ghost use Rattle.packet.specs.Asked.{InRange, Room};
ghost use Rattle.packet.specs.Limits.{least_length};

use answer::Reason;
use counts::SequenceCount;

// A packet's fields. The time is one count of 1/256 s; length is how many octets of source data there are.
#[derive(Clone, Copy)]
pub struct Packet {
    pub apid: u16,
    pub sequence: SequenceCount,
    pub service: u8,
    pub subtype: u8,
    pub time: u64,
    pub length: usize,
}

// Refusal 20: outside 16 to 251 octets, or not C + 7.
fn length_wrong(s: &[u8]) -> bool
    ensures { result ≡ length_wrong s.now }
{
    let n = s.len();
    if n < Packet::LEAST {
        return true;
    }
    (Packet::GREATEST < n) | (n != octets::word(s[4], s[5]) as usize + 7)
}

// Refusal 21: the last two octets aren't the check of all before them.
fn check_wrong(s: &[u8]) -> bool
    requires { least_length ≤ length s.now }
    ensures { result ≡ check_wrong high_first (zeros 16) s.now }
{
    let n = s.len();
    octets::word(s[n - 2], s[n - 1]) != crc::packet_check(&s[..n - 2])
}

// Refusal 22: not version 000, type 0, header flag 1; grouping 11; spare 0, PUS version 001, spare 0000.
fn bits_wrong(s: &[u8]) -> bool
    requires { least_length ≤ length s.now }
    ensures { result ≡ bits_wrong s.now }
{
    (s[0] / 8 != 1) | (s[2] / 64 != 3) | (s[6] != 16)
}

// The fields of a packet that was not refused.
fn fields(s: &[u8]) -> Packet
    requires { least_length ≤ length s.now }
    ensures { result ≡ fields_of s.now }
{
    Packet {
        apid: octets::word(s[0] % 8, s[1]),
        sequence: SequenceCount(octets::word(s[2] % 64, s[3])),
        service: s[7],
        subtype: s[8],
        time: octets::five(s[9], s[10], s[11], s[12], s[13]),
        length: s.len() - Packet::LEAST,
    }
}

// Refusal 51: a field out of range, or n octets of source data that are too many or not as many as the fields say.
fn fields_wrong(p: Packet, n: usize) -> bool
    ensures { result ≡ fields_wrong p n }
{
    (Packet::LAST_APID < p.apid)
        | (Packet::LAST_COUNT < p.sequence.0)
        | (Packet::LAST_TIME < p.time)
        | (Packet::LONGEST_SOURCE < n)
        | (p.length != n)
}

// The 14 octets before the source data.
fn header(p: Packet) -> [u8; 14]
    requires { InRange p p.length }
    ensures { result ≡ header_of p }
{
    let apid = octets::word_octets(p.apid);
    let count = octets::word_octets(p.sequence.0);
    let behind = octets::word_octets((p.length + 9) as u16);
    let time = octets::five_octets(p.time);
    [
        8 + apid[0],
        apid[1],
        192 + count[0],
        count[1],
        behind[0],
        behind[1],
        16,
        p.service,
        p.subtype,
        time[0],
        time[1],
        time[2],
        time[3],
        time[4],
    ]
}

// Puts the packet's octets at the start of out: header, source data, check.
fn lay(p: Packet, source: &[u8], out: &mut [u8])
    requires { Room p source.now out.old }
    ensures { out.new ≡ written (packet_octets p source.now) out.old }
{
    let n = source.len() + Packet::SOURCE;
    let head = header(p);
    octets::put(out, 0, &head);
    octets::put(out, Packet::SOURCE, source);
    let check = octets::word_octets(crc::packet_check(&out[..n]));
    octets::put(out, n, &check);
}

impl Packet {
    // The least and the greatest length of a packet, and the place of its source data.
    pub const LEAST: usize = 16;

    pub const GREATEST: usize = 251;

    pub const SOURCE: usize = 14;

    // The most octets of source data.
    pub const LONGEST_SOURCE: usize = Packet::GREATEST - Packet::LEAST;

    // The last APID (11 bits), source sequence count (14) and time (40).
    pub const LAST_APID: u16 = 2047;

    pub const LAST_COUNT: u16 = 16383;

    pub const LAST_TIME: u64 = 1099511627775;

    // The fields of the packet that octets are, or refusal 20, 21 or 22, the first that holds.
    pub fn read(octets: &[u8]) -> Result<Packet, Reason>
        ensures { told result ≡ read_packet octets.now }
    {
        if length_wrong(octets) {
            return Err(Reason::PacketLength);
        }
        if check_wrong(octets) {
            return Err(Reason::PacketCheck);
        }
        if bits_wrong(octets) {
            return Err(Reason::PacketBits);
        }
        Ok(fields(octets))
    }

    // The source data of the packet that octets are; none if they are too few.
    pub fn source(self, octets: &[u8]) -> &[u8]
        ensures { result.now ≡ source_of self octets.now }
    {
        octets::part(octets, Packet::SOURCE, self.length)
    }

    // The packet's octets at the start of out, and their number; else 51 or 50, and out stays.
    pub fn write(self, source: &[u8], out: &mut [u8]) -> Result<usize, Reason>
        ensures { WrotePacket self source.now out.old result out.new }
    {
        let n = source.len();
        if fields_wrong(self, n) {
            return Err(Reason::FieldRange);
        }
        if out.len() < n + Packet::LEAST {
            return Err(Reason::OutputShort);
        }
        lay(self, source, out);
        Ok(n + Packet::LEAST)
    }
}
