// The packets that are handed out with a frame, counted by their keys, their source sequence counts and the image lines that they bring.
ghost use Rattle.std.specs.Prelude.{◌≡◌, take};
ghost use Rattle.rules.specs.Packets.{cut};
ghost use Rattle.summary_count.specs.Count.{ledger, sequel, sequel_of, read_counted, handed_counted, all_counted};

use crate::{counters, images};
use counts::SequenceCount;
use packet::Packet;
use sequence::Gap;

// The type and the subtype of an image line.
const SERVICE: u8 = 128;

const SUBTYPE: u8 = 7;

// Counts the gap that a source sequence count leaves after its APID's last one.
fn gap(counts: &mut [u64], last: &mut [u16], apid: u16, count: SequenceCount)
    ensures { sequel counts.new last.new ≡ sequel_of apid count.0
        (sequel counts.old last.old) }
{
    let Ok(gap) = sequence::missing(apid, count, last) else {
        return;
    };
    match gap {
        Gap::Missing(n) => {
            counters::add(
                counts,
                counters::APID_MISSING + usize::from(apid),
                u64::from(n),
            )
        }
        Gap::Restart => counters::add(counts, counters::APID_RESTARTED + usize::from(apid), 1),
        Gap::Unknown => {}
    }
}

// Counts a packet whose fields were read.
fn read(
    p: Packet,
    packet: &[u8],
    counts: &mut [u64],
    keys: &mut [u32],
    many: &mut [u64],
    last: &mut [u16],
)
    ensures { ledger counts.new keys.new many.new last.new
        ≡ read_counted p packet.now (ledger counts.old keys.old many.old last.old) }
{
    let key = counters::key(p.apid, p.service, p.subtype);
    counters::packet(counts, keys, many, key);
    gap(counts, last, p.apid, p.sequence);
    if (p.service == SERVICE) & (p.subtype == SUBTYPE) {
        images::line(counts, packet);
    }
}

// Counts a packet: it is read, or turned away.
fn one(packet: &[u8], counts: &mut [u64], keys: &mut [u32], many: &mut [u64], last: &mut [u16])
    ensures { ledger counts.new keys.new many.new last.new
        ≡ handed_counted packet.now (ledger counts.old keys.old many.old last.old) }
{
    match Packet::read(packet) {
        Ok(p) => read(p, packet, counts, keys, many, last),
        Err(reason) => {
            counters::refusal(counts, counters::AWAY, counters::AWAY_WITH, reason.number())
        }
    }
}

// Counts the packets of a frame, which stand end to end at the start of octets, by their lengths.
pub(crate) fn all(
    octets: &[u8],
    lengths: &[u16],
    packets: u8,
    counts: &mut [u64],
    keys: &mut [u32],
    many: &mut [u64],
    last: &mut [u16],
)
    ensures { ledger counts.new keys.new many.new last.new
        ≡ all_counted (cut octets.now (take packets lengths.now))
        (ledger counts.old keys.old many.old last.old) }
{
    let mut from = 0;
    let listed = &lengths[..lengths.len().min(usize::from(packets))];
    for &n in listed {
        let to = from + usize::from(n);
        one(window::hand(octets, from, to), counts, keys, many, last);
        from = to;
    }
}
