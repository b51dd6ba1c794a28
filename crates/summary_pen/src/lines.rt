// What only the summary's text has: shares in a whole, and lines that tell them.
ghost use Rattle.std.specs.Prelude.{◌≡◌};
ghost use Rattle.summary_count.specs.Count.{saturated};
ghost use Rattle.summary_pen.specs.Page.{page, Says};
ghost use Rattle.summary_pen.specs.Lines.{thousandths, share, shared, both, losses};

use crate::pen;
use crate::pen::Pen;
use summary_count::counters;

// How much n is of n and the rest together, in parts of a thousand: n is added up a thousand times, and each time that the whole is full
// it is emptied and counted, so that no number grows beyond it.
fn parts(n: u64, rest: u64) -> u64
    ensures { result ≡ thousandths n (saturated n rest) }
{
    let all = counters::sum(n, rest);
    if all == 0 {
        return 0;
    }
    let others = all - n;
    let mut full: u64 = 0;
    let mut over: u64 = 0;
    for turn in 0..1000u32 {
        if over < others {
            over += n;
        } else {
            over -= others;
            full += 1;
        }
    }
    full
}

// A share as a percentage.
fn share(out: &mut [u8], start: Pen, n: u64, rest: u64) -> Pen
    ensures { Says (share n rest) (page out.old start) (page out.new result) }
{
    let share = parts(n, rest);
    let whole = pen::told(out, start, b" (", share / 10);
    let tenth = pen::told(out, whole, b".", share % 10);
    pen::say(out, tenth, b" %)")
}

// Words, a number and its share.
fn shared(out: &mut [u8], start: Pen, words: &[u8], n: u64, rest: u64) -> Pen
    ensures { Says (shared words.now n rest) (page out.old start) (page out.new result) }
{
    let pen = pen::told(out, start, words, n);
    share(out, pen, n, rest)
}

// How many there were of two kinds together, and of each.
pub(crate) fn both(
    out: &mut [u8],
    start: Pen,
    words: &[u8],
    one: &[u8],
    other: &[u8],
    m: u64,
    n: u64,
) -> Pen
    ensures { Says (both words.now one.now other.now m n)
        (page out.old start) (page out.new result) }
{
    let all = counters::sum(m, n);
    let pen = pen::told(out, start, words, all);
    let next = shared(out, pen, one, m, n);
    let last = shared(out, next, other, n, m);
    pen::say(out, last, b"\n")
}

// The frames lost, and the losses that are unknown.
pub(crate) fn losses(
    out: &mut [u8],
    start: Pen,
    words: &[u8],
    received: u64,
    lost: u64,
    unknown: u64,
) -> Pen
    ensures { Says (losses words.now received lost unknown) (page out.old start) (page out.new result) }
{
    let pen = shared(out, start, words, lost, received);
    pen::row(out, pen, b", unknown ", unknown)
}
