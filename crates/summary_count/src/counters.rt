// Counters in lent lists: one stays at its largest number, and one that a list has no place for counts nothing.
ghost use Rattle.std.specs.Prelude.{◌≡◌, ◌≤◌, set};
ghost use Rattle.summary_count.specs.Count.{saturated, added, loss_added, accepted, of_number, place_of, key_of};
ghost use Rattle.summary_count.specs.Count.{Listed, tally, packet_counted, judged};

// Where the counters stand: image lines of images that have no place in the list of images, and whether the recording is bad, 0 or 1.
pub const UNPLACED: usize = 0;

pub const BAD: usize = 1;

// Frames accepted and refused; frames lost over all, and losses over all that are unknown.
pub const ACCEPTED: usize = 2;

pub const REFUSED: usize = 3;

pub const LOST: usize = 4;

pub const UNKNOWN: usize = 5;

// Packets read and turned away, and those read that have no place in the list of keys.
pub const PACKETS: usize = 6;

pub const AWAY: usize = 7;

pub const UNLISTED: usize = 8;

// By channel: frames accepted, frames lost, and losses unknown.
pub const CHANNELS: usize = 256;

pub const CHANNEL_FRAMES: usize = 256;

pub const CHANNEL_LOST: usize = 512;

pub const CHANNEL_UNKNOWN: usize = 768;

// By the refusal's number: frames, and packets.
pub const NUMBERS: usize = 65536;

pub const REFUSED_WITH: usize = 1024;

pub const AWAY_WITH: usize = 66560;

// By APID: packets missing by the source sequence count, and how often that count started again at 0.
pub const APIDS: usize = 2048;

pub const APID_MISSING: usize = 132096;

pub const APID_RESTARTED: usize = 134144;

// By the place in the list of images: the image's number and one more, 0 for a free place; and for each of its lines 1 if it was received.
pub const IMAGES: usize = 1024;

pub const IMAGE_KEYS: usize = 136192;

pub const IMAGE_LINES: usize = 137216;

// How many counters there are.
pub const COUNTERS: usize = 260096;

// The sum of two numbers, or the largest number.
pub fn sum(x: u64, n: u64) -> u64
    ensures { result ≡ saturated x n }
{
    x.saturating_add(n)
}

// Adds n to the counter at index i.
pub(crate) fn add(counts: &mut [u64], i: usize, n: u64)
    ensures { counts.new ≡ added counts.old i n }
{
    if i < counts.len() {
        counts[i] = sum(counts[i], n);
    }
}

// Leaves a number at index i, if there is one.
pub(crate) fn leave(counts: &mut [u64], i: usize, n: u64)
    ensures { counts.new ≡ set counts.old i n }
{
    if i < counts.len() {
        counts[i] = n;
    }
}

// Adds a loss: what is known to the one counter, or one to the other.
fn add_loss(counts: &mut [u64], known: usize, unknown: usize, lost: Option<u8>)
    ensures { counts.new ≡ loss_added counts.old known unknown lost }
{
    match lost {
        None => add(counts, unknown, 1),
        Some(n) => add(counts, known, u64::from(n)),
    }
}

// Counts an accepted frame.
pub(crate) fn frame(counts: &mut [u64], channel: u8, lost: Option<u8>, master: Option<u8>)
    ensures { counts.new ≡ accepted counts.old channel lost master }
{
    let i = usize::from(channel);
    add(counts, ACCEPTED, 1);
    add(counts, CHANNEL_FRAMES + i, 1);
    add_loss(counts, CHANNEL_LOST + i, CHANNEL_UNKNOWN + i, lost);
    add_loss(counts, LOST, UNKNOWN, master);
}

// Counts a refusal, over all and by its number.
pub(crate) fn refusal(counts: &mut [u64], all: usize, each: usize, number: u16)
    requires { each ≤ 66560 }
    ensures { counts.new ≡ of_number counts.old all each number }
{
    add(counts, all, 1);
    add(counts, each + usize::from(number), 1);
}

// The key of an APID, a type and a subtype: it rises with them in this order.
pub(crate) fn key(apid: u16, service: u8, subtype: u8) -> u32
    ensures { result ≡ key_of apid service subtype }
{
    (u32::from(apid) * 256 + u32::from(service)) * 256 + u32::from(subtype)
}

// The index of a key in the list, or else of the first free place, whose count is 0; the end of a list if there is none.
fn place(keys: &[u32], many: &[u64], key: u32) -> usize
    ensures { result ≡ place_of key keys.now many.now }
{
    for (i, &held) in keys.iter().enumerate() {
        if many.len() <= i {
            return i;
        }
        if (many[i] == 0) | (held == key) {
            return i;
        }
    }
    keys.len()
}

// Counts one more of a key, and answers whether it has a place.
fn list(keys: &mut [u32], many: &mut [u64], key: u32) -> bool
    ensures { Listed key keys.old many.old result keys.new many.new }
{
    let i = place(keys, many, key);
    if i < keys.len() {
        if i < many.len() {
            keys[i] = key;
            add(many, i, 1);
            return true;
        }
    }
    false
}

// Counts a packet that was read, over all and by its key.
pub(crate) fn packet(counts: &mut [u64], keys: &mut [u32], many: &mut [u64], key: u32)
    ensures { tally counts.new keys.new many.new
        ≡ packet_counted key (tally counts.old keys.old many.old) }
{
    add(counts, PACKETS, 1);
    if list(keys, many, key) {
        return;
    }
    add(counts, UNLISTED, 1);
}

// Notes whether the recording is bad.
pub fn judge(counts: &mut [u64], bad: bool)
    ensures { counts.new ≡ judged bad counts.old }
{
    if bad {
        leave(counts, BAD, 1);
    }
}
