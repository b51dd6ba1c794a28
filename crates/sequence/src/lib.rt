// The sequence gap of each APID over a lent list of its last counts.
#![tactic(auto)]

ghost use Rattle.std.specs.Prelude.{◌≡◌};
ghost use Rattle.sequence.specs.Sequence.{told, since, observed, outcome};

use answer::Reason;
use counts::SequenceCount;

// How many entries the list has, one an APID: the least length of what is lent for them.
pub const LIST: usize = 2048;

// What one APID's source sequence count tells: so many packets missing, unknown at the first, or a restart.
#[derive(Clone, Copy)]
pub enum Gap {
    Unknown,
    Restart,
    Missing(u16),
}

// The gap that a count leaves after an entry of the list: unknown at the first, and a restart where 0 follows another than 16,383.
fn since(count: SequenceCount, entry: u16) -> Gap
    ensures { told (Ok result) ≡ since entry count.0 }
{
    if entry == 0 {
        return Gap::Unknown;
    }
    let last = entry - 1;
    if (count.0 == 0) & (last != 16383) {
        return Gap::Restart;
    }
    Gap::Missing(count.missing(SequenceCount(last)))
}

// How many of the APID's packets are missing before this one; the APID's entry becomes count + 1. All else stays, and on a refusal the
// entry too.
pub fn missing(apid: u16, count: SequenceCount, list: &mut [u16]) -> Result<Gap, Reason>
    ensures { observed result list.new ≡ outcome apid count.0 list.old }
{
    if list.len() < LIST {
        return Err(Reason::ListShort);
    }
    if (2047 < apid) | (16383 < count.0) {
        return Err(Reason::CountRange);
    }
    let place = apid as usize;
    let entry = list[place];
    if 16384 < entry {
        return Err(Reason::Entry);
    }
    list[place] = count.0 + 1;
    Ok(since(count, entry))
}
