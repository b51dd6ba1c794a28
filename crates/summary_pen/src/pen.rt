// Where the next octet of a text goes. Octets before the part that is asked for, and those behind it, are left out.
ghost use Rattle.std.specs.Prelude.{[], ◌∷◌};
ghost use Rattle.summary_pen.specs.Page.{page, Says};
ghost use Rattle.summary_pen.specs.Words.{number, told, row, pair, keyed};

// How many octets are still skipped, and the index in out of the next one behind them.
#[derive(Clone, Copy)]
pub struct Pen {
    pub skip: u64,
    pub at: usize,
}

// One octet.
fn octet(out: &mut [u8], pen: Pen, c: u8) -> Pen
    ensures { Says (c ∷ []) (page out.old pen) (page out.new result) }
{
    let mut next = pen;
    if 0 < pen.skip {
        next.skip = pen.skip - 1;
        return next;
    }
    let at = pen.at;
    if at < out.len() {
        out[at] = c;
        next.at = at + 1;
        return next;
    }
    next
}

// Words.
pub(crate) fn say(out: &mut [u8], start: Pen, words: &[u8]) -> Pen
    ensures { Says words.now (page out.old start) (page out.new result) }
{
    let mut pen = start;
    for &c in words {
        pen = octet(out, pen, c);
    }
    pen
}

// A number's digits.
fn digits(out: &mut [u8], start: Pen, n: u64) -> Pen
    ensures { Says (number n) (page out.old start) (page out.new result) }
{
    if n < 10 {
        return octet(out, start, 48 + n as u8);
    }
    let pen = digits(out, start, n / 10);
    octet(out, pen, 48 + (n % 10) as u8)
}

// Words and a number behind them.
pub(crate) fn told(out: &mut [u8], start: Pen, words: &[u8], n: u64) -> Pen
    ensures { Says (told words.now n) (page out.old start) (page out.new result) }
{
    let pen = say(out, start, words);
    digits(out, pen, n)
}

// A line of words and a number.
pub(crate) fn row(out: &mut [u8], start: Pen, words: &[u8], n: u64) -> Pen
    ensures { Says (row words.now n) (page out.old start) (page out.new result) }
{
    let pen = told(out, start, words, n);
    say(out, pen, b"\n")
}

// A line of words and a number, and other words and another number.
pub(crate) fn pair(out: &mut [u8], start: Pen, words: &[u8], others: &[u8], i: u64, n: u64) -> Pen
    ensures { Says (pair words.now others.now i n)
        (page out.old start) (page out.new result) }
{
    let pen = told(out, start, words, i);
    row(out, pen, others, n)
}

// A line of a key's APID, type and subtype and of how many packets there were, each behind words of its own.
pub(crate) fn keyed(
    out: &mut [u8],
    start: Pen,
    apid: &[u8],
    service: &[u8],
    subtype: &[u8],
    many: &[u8],
    key: u64,
    n: u64,
) -> Pen
    ensures { Says (keyed apid.now service.now subtype.now many.now key n)
        (page out.old start) (page out.new result) }
{
    let first = told(out, start, apid, key / 65536);
    let second = told(out, first, service, key / 256 % 256);
    let third = told(out, second, subtype, key % 256);
    row(out, third, many, n)
}
