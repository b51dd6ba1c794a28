// What a session answers and the packets that it hands out, counted in lent lists.
#![tactic(auto)]

ghost use Rattle.std.specs.Prelude.{◌≡◌};
ghost use Rattle.summary_count.specs.Count.{ledger, answer_counted};

use answer::Refusal;
use session::Accepted;

pub mod counters;
mod images;
mod packets;

// Counts an answer: a refusal, or an accepted frame and the packets handed out with it, which stand end to end at the start of octets, by
// their lengths. Nothing else changes in what is lent.
pub fn answered(
    answer: Result<Accepted, Refusal>,
    octets: &[u8],
    lengths: &[u16],
    counts: &mut [u64],
    keys: &mut [u32],
    many: &mut [u64],
    last: &mut [u16],
)
    ensures { ledger counts.new keys.new many.new last.new
        ≡ answer_counted answer octets.now lengths.now
        (ledger counts.old keys.old many.old last.old) }
{
    match answer {
        Ok(a) => {
            counters::frame(counts, a.channel, a.lost, a.master);
            packets::all(octets, lengths, a.packets, counts, keys, many, last);
        }
        Err(r) => { counters::refusal(counts, counters::REFUSED, counters::REFUSED_WITH, r.number) }
    }
}
