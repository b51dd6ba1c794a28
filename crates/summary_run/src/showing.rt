// The counts as text or as CSV, written part after part by an output buffer.
ghost use Rattle.std.specs.Prelude.{◌≡◌, length, take, drop};
ghost use Rattle.window.specs.Window.{hand};
ghost use Rattle.summary_count.specs.Count.{tally};
ghost use Rattle.summary_pen.specs.Page.{Shows};
ghost use Rattle.summary_run.specs.Shown.{text_of, Showed, Shown, not_shown};

use summary_count::counters;
use window::Written;

// The most parts.
const PARTS: u64 = 18446744073709551615;

// The largest number of octets that can be skipped.
const LARGEST: u64 = 18446744073709551615;

// How far the text is written: how many octets of it, what the last write did, whether it was the text's last part, and whether another
// part is to be written.
#[derive(Clone, Copy)]
struct Page {
    skip: u64,
    written: Written,
    whole: bool,
    going: bool,
}

// Where the writing stopped, and after how many parts.
#[derive(Clone, Copy)]
pub(crate) struct Told {
    page: Page,
    made: u64,
}

impl Told {
    // Whether not all of the text was written.
    pub(crate) fn unfinished(self) -> bool
        ensures { result ≡ not_shown self }
    {
        let page = self.page;
        let written = page.written;
        !page.whole | written.failed()
    }
}

// Writes the text of the counts by an output buffer, part after part. A write that fails is told, and ends it; so would 2^64 - 1 octets.
pub(crate) fn show(csv: bool, counts: &[u64], keys: &[u32], many: &[u64], out: &mut [u8]) -> Told
    ensures { Shown (text_of csv (tally counts.now keys.now many.now))
        (length out.old) result }
{
    let written = Written::none();
    let mut page = Page {
        skip: 0,
        written,
        whole: false,
        going: true,
    };
    let mut made: u64 = 0;
    while page.going {
        if made == PARTS {
            return Told { page, made };
        }
        page = part(csv, counts, keys, many, out, page);
        made += 1;
    }
    Told { page, made }
}

// Writes the next part: as much as the output buffer has room for.
fn part(csv: bool, counts: &[u64], keys: &[u32], many: &[u64], out: &mut [u8], page: Page) -> Page
    ensures { Showed (text_of csv (tally counts.now keys.now many.now))
        (length out.old) page result }
{
    let n = put(csv, counts, keys, many, page.skip, out);
    let written = emit(csv, counts, keys, many, page.skip, out, n);
    let whole = n < out.len();
    let skip = counters::sum(page.skip, n as u64);
    let going = !(written.failed() | (whole | (skip == LARGEST)));
    Page {
        skip,
        written,
        whole,
        going,
    }
}

// Puts the text from its index skip on to the start of out, as far as there is room, and answers how many octets that are.
fn put(csv: bool, counts: &[u64], keys: &[u32], many: &[u64], skip: u64, out: &mut [u8]) -> usize
    ensures { Shows (text_of csv (tally counts.now keys.now many.now)) skip out.old
        out.new result }
{
    if csv {
        return summary_text::put_csv(counts, keys, many, skip, out);
    }
    summary_text::put(counts, keys, many, skip, out)
}

// Writes the first n octets of out, which are the part of the text behind its first octets, as much as there is room for. Nothing else here
// writes.
fn emit(
    csv: bool,
    counts: &[u64],
    keys: &[u32],
    many: &[u64],
    skip: u64,
    out: &[u8],
    n: usize,
) -> Written
    requires { hand out.now 0 n ≡ take (length out.now) (drop skip (text_of csv (tally counts.now keys.now many.now))) }
    ensures { result.size ≡ length (take (length out.now)
        (drop skip (text_of csv (tally counts.now keys.now many.now)))) }
{
    window::write(b"summary", out, n)
}
