// The images of which lines were received, in a list of images, and which lines.
ghost use Rattle.std.specs.Prelude.{◌≡◌};
ghost use Rattle.octets.specs.Numbers.{at};
ghost use Rattle.report.specs.Report.{read_report};
ghost use Rattle.summary_count.specs.Count.{image_place, line_noted, report_noted};

use crate::counters;
use report::{Content, Report};

// The number at index i, 0 past the end.
fn number(counts: &[u64], i: usize) -> u64
    ensures { result ≡ at counts.now i }
{
    counts.get(i).copied().unwrap_or(0)
}

// The place of an image's key in the list of images: its own, or else the first that is free; the list's end if there is none.
fn place(counts: &[u64], key: u64) -> usize
    ensures { result ≡ image_place key counts.now }
{
    for i in 0..counters::IMAGES {
        let held = number(counts, counters::IMAGE_KEYS + i);
        if (held == 0) | (held == key) {
            return i;
        }
    }
    counters::IMAGES
}

// Notes that a line of an image was received.
fn note(counts: &mut [u64], image: u16, line: u8)
    ensures { counts.new ≡ line_noted image line counts.old }
{
    let key = u64::from(image) + 1;
    let i = place(counts, key);
    if i < counters::IMAGES {
        counters::leave(counts, counters::IMAGE_KEYS + i, key);
        counters::leave(
            counts,
            counters::IMAGE_LINES + (i * image::LINES + usize::from(line)),
            1,
        );
        return;
    }
    counters::add(counts, counters::UNPLACED, 1);
}

// Notes the line that a packet brings, if its report is an image line.
pub(crate) fn line(counts: &mut [u64], packet: &[u8])
    ensures { counts.new ≡ report_noted (read_report packet.now) counts.old }
{
    let Ok(report) = Report::read(packet) else {
        return;
    };
    let Content::Line(l) = report.content else {
        return;
    };
    note(counts, l.image, l.line);
}
