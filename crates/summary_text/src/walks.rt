// What is told of many things of a kind, one after another.
ghost use Rattle.std.specs.Prelude.{◌≡◌, ◌≤◌};
ghost use Rattle.octets.specs.Numbers.{at};
ghost use Rattle.summary_pen.specs.Page.{page, Says};
ghost use Rattle.summary_pen.specs.Words.{pair};
ghost use Rattle.summary_pen.specs.Choice.{form};
ghost use Rattle.summary_text.specs.Text.{marked, refusals, channel_texts, apid_texts, image_texts};

use summary_count::counters;
use summary_pen::forms;
use summary_pen::pen::Pen;

// How many lines an image has.
const LINES: usize = 120;

// What stands at index i of the counters, 0 past their end.
pub(crate) fn of(counts: &[u64], i: usize) -> u64
    ensures { result ≡ at counts.now i }
{
    counts.get(i).copied().unwrap_or(0)
}

// How many there were of each refusal, by their rising numbers: their counters stand from an index on.
fn refusals(
    out: &mut [u8],
    start: Pen,
    counts: &[u64],
    from: usize,
    words: &[u8],
    others: &[u8],
) -> Pen
    requires { from ≤ 66560 }
    ensures { Says (refusals from (pair words.now others.now) counts.now)
        (page out.old start) (page out.new result) }
{
    let mut pen = start;
    for i in 0..counters::NUMBERS {
        let n = of(counts, from + i);
        pen = forms::refusal(out, pen, words, others, i as u64, n);
    }
    pen
}

// Frames refused.
pub(crate) fn refused(out: &mut [u8], start: Pen, csv: bool, counts: &[u64]) -> Pen
    ensures { Says (refusals 1024 (form csv).refused counts.now)
        (page out.old start) (page out.new result) }
{
    if csv {
        return refusals(
            out,
            start,
            counts,
            counters::REFUSED_WITH,
            b"frames,",
            b",refused,",
        );
    }
    refusals(
        out,
        start,
        counts,
        counters::REFUSED_WITH,
        b"refused with ",
        b": ",
    )
}

// Packets turned away.
pub(crate) fn away(out: &mut [u8], start: Pen, csv: bool, counts: &[u64]) -> Pen
    ensures { Says (refusals 66560 (form csv).away counts.now)
        (page out.old start) (page out.new result) }
{
    if csv {
        return refusals(
            out,
            start,
            counts,
            counters::AWAY_WITH,
            b"packets,",
            b",turned away,",
        );
    }
    refusals(
        out,
        start,
        counts,
        counters::AWAY_WITH,
        b"turned away with ",
        b": ",
    )
}

// The channels, by their rising numbers.
pub(crate) fn channels(out: &mut [u8], start: Pen, csv: bool, counts: &[u64]) -> Pen
    ensures { Says (channel_texts (form csv) counts.now) (page out.old start) (page out.new result) }
{
    let mut pen = start;
    for i in 0..counters::CHANNELS {
        let n = of(counts, counters::CHANNEL_FRAMES + i);
        let lost = of(counts, counters::CHANNEL_LOST + i);
        let unknown = of(counts, counters::CHANNEL_UNKNOWN + i);
        pen = forms::channel(out, pen, csv, i as u64, n, lost, unknown);
    }
    pen
}

// The APIDs, by their rising numbers.
pub(crate) fn apids(out: &mut [u8], start: Pen, csv: bool, counts: &[u64]) -> Pen
    ensures { Says (apid_texts (form csv) counts.now) (page out.old start) (page out.new result) }
{
    let mut pen = start;
    for i in 0..counters::APIDS {
        let missing = of(counts, counters::APID_MISSING + i);
        let restarted = of(counts, counters::APID_RESTARTED + i);
        pen = forms::apid(out, pen, csv, i as u64, missing, restarted);
    }
    pen
}

// How many lines of an image were received: its counters stand from an index on.
fn received(counts: &[u64], from: usize) -> u64
    requires { from ≤ 260096 }
    ensures { result ≡ marked 120 from counts.now }
{
    let mut lines: u64 = 0;
    for i in 0..LINES {
        let n = of(counts, from + i);
        if n != 0 {
            lines += 1;
        }
    }
    lines
}

// The images, by their places.
pub(crate) fn images(out: &mut [u8], start: Pen, csv: bool, counts: &[u64]) -> Pen
    ensures { Says (image_texts (form csv) counts.now) (page out.old start) (page out.new result) }
{
    let mut pen = start;
    for i in 0..counters::IMAGES {
        let key = of(counts, counters::IMAGE_KEYS + i);
        let lines = received(counts, counters::IMAGE_LINES + i * LINES);
        pen = forms::image(out, pen, csv, key, lines);
    }
    pen
}
