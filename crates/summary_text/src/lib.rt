// The summary of what was received, as text and as CSV, put into lent octets.
#![tactic(auto)]

ghost use Rattle.summary_pen.specs.Page.{Shows, page, Says};
ghost use Rattle.summary_pen.specs.Choice.{form};
ghost use Rattle.summary_text.specs.Text.{whole, summary_of, csv_of, of_frames, of_packets, of_others};

use summary_count::counters;
use summary_pen::forms;
use summary_pen::pen::Pen;

mod keys;
mod walks;

// Puts the summary as text from its index skip on to the start of out, as far as there is room, and answers how many octets that are.
pub fn put(counts: &[u64], keys: &[u32], many: &[u64], skip: u64, out: &mut [u8]) -> usize
    ensures { Shows (summary_of counts.now keys.now many.now)
        skip out.old out.new result }
{
    let start = Pen { skip, at: 0 };
    let end = all(out, start, false, counts, keys, many);
    end.at
}

// Puts the summary as CSV in the same way.
pub fn put_csv(counts: &[u64], keys: &[u32], many: &[u64], skip: u64, out: &mut [u8]) -> usize
    ensures { Shows (csv_of counts.now keys.now many.now)
        skip out.old out.new result }
{
    let top = Pen { skip, at: 0 };
    let end = all(out, top, true, counts, keys, many);
    end.at
}

// The whole summary.
fn all(out: &mut [u8], start: Pen, csv: bool, counts: &[u64], keys: &[u32], many: &[u64]) -> Pen
    ensures { Says (whole (form csv) counts.now keys.now many.now)
        (page out.old start) (page out.new result) }
{
    let begun = forms::begin(out, start, csv);
    let frames = of_frames(out, begun, csv, counts);
    let packets = of_packets(out, frames, csv, counts, keys, many);
    of_others(out, packets, csv, counts)
}

// What is told of frames.
fn of_frames(out: &mut [u8], start: Pen, csv: bool, counts: &[u64]) -> Pen
    ensures { Says (of_frames (form csv) counts.now) (page out.old start) (page out.new result) }
{
    let accepted = walks::of(counts, counters::ACCEPTED);
    let refused = walks::of(counts, counters::REFUSED);
    let lost = walks::of(counts, counters::LOST);
    let unknown = walks::of(counts, counters::UNKNOWN);
    let frames = forms::frames(out, start, csv, accepted, refused);
    let refusals = walks::refused(out, frames, csv, counts);
    let channels = walks::channels(out, refusals, csv, counts);
    forms::over_all(out, channels, csv, accepted, lost, unknown)
}

// What is told of packets.
fn of_packets(
    out: &mut [u8],
    start: Pen,
    csv: bool,
    counts: &[u64],
    keys: &[u32],
    many: &[u64],
) -> Pen
    ensures { Says (of_packets (form csv) counts.now keys.now many.now)
        (page out.old start) (page out.new result) }
{
    let read = walks::of(counts, counters::PACKETS);
    let away = walks::of(counts, counters::AWAY);
    let unlisted = walks::of(counts, counters::UNLISTED);
    let packets = forms::packets(out, start, csv, read, away);
    let listed = keys::listed(out, packets, csv, keys, many);
    let others = forms::others(out, listed, csv, unlisted);
    walks::away(out, others, csv, counts)
}

// What is told of APIDs, of images and of the recording.
fn of_others(out: &mut [u8], start: Pen, csv: bool, counts: &[u64]) -> Pen
    ensures { Says (of_others (form csv) counts.now) (page out.old start) (page out.new result) }
{
    let unplaced = walks::of(counts, counters::UNPLACED);
    let bad = walks::of(counts, counters::BAD);
    let apids = walks::apids(out, start, csv, counts);
    let images = walks::images(out, apids, csv, counts);
    let lines = forms::other_lines(out, images, csv, unplaced);
    forms::bad(out, lines, csv, bad)
}
