// What is told of one thing, as text or as CSV, if there is something to tell.
ghost use Rattle.summary_count.specs.Count.{saturated};
ghost use Rattle.std.specs.Prelude.{◌-◌};
ghost use Rattle.summary_pen.specs.Page.{page, Says};
ghost use Rattle.summary_pen.specs.Words.{pair, if_any};
ghost use Rattle.summary_pen.specs.Choice.{form};

use crate::pen::Pen;
use crate::{lines, pen};
use summary_count::counters;

// Begins the summary: CSV has a header, and the text has nothing before its lines.
pub fn begin(out: &mut [u8], start: Pen, csv: bool) -> Pen
    ensures { Says (form csv).begins (page out.old start) (page out.new result) }
{
    if csv {
        return pen::say(out, start, b"subject,key,measure,value\n");
    }
    start
}

// Tells how many frames were accepted and refused, if there was one.
pub fn frames(out: &mut [u8], start: Pen, csv: bool, accepted: u64, refused: u64) -> Pen
    ensures { Says (if_any (saturated accepted refused) ((form csv).frames accepted refused))
        (page out.old start) (page out.new result) }
{
    let all = counters::sum(accepted, refused);
    if all == 0 {
        return start;
    }
    if csv {
        let pen = pen::row(out, start, b"frames,,accepted,", accepted);
        return pen::row(out, pen, b"frames,,refused,", refused);
    }
    lines::both(
        out,
        start,
        b"frames ",
        b": accepted ",
        b", refused ",
        accepted,
        refused,
    )
}

// Tells a refusal by its number and how often it was met, each behind words of its own, if it was met.
pub fn refusal(out: &mut [u8], start: Pen, words: &[u8], others: &[u8], i: u64, n: u64) -> Pen
    ensures { Says (if_any n (pair words.now others.now i n))
        (page out.old start) (page out.new result) }
{
    if n == 0 {
        return start;
    }
    pen::pair(out, start, words, others, i, n)
}

// Tells of a channel its frames, those lost and the losses that are unknown, if it has a frame.
pub fn channel(
    out: &mut [u8],
    start: Pen,
    csv: bool,
    i: u64,
    n: u64,
    lost: u64,
    unknown: u64,
) -> Pen
    ensures { Says (if_any n ((form csv).channel i n lost unknown)) (page out.old start) (page out.new result) }
{
    if n == 0 {
        return start;
    }
    if csv {
        let pen = pen::pair(out, start, b"channel,", b",frames,", i, n);
        let next = pen::pair(out, pen, b"channel,", b",lost,", i, lost);
        return pen::pair(out, next, b"channel,", b",unknown,", i, unknown);
    }
    let number = pen::told(out, start, b"channel ", i);
    let frames = pen::told(out, number, b": frames ", n);
    lines::losses(out, frames, b", lost ", n, lost, unknown)
}

// Tells the losses of all channels together, if a frame was accepted.
pub fn over_all(
    out: &mut [u8],
    start: Pen,
    csv: bool,
    accepted: u64,
    lost: u64,
    unknown: u64,
) -> Pen
    ensures { Says (if_any accepted ((form csv).over_all accepted lost unknown))
        (page out.old start) (page out.new result) }
{
    if accepted == 0 {
        return start;
    }
    if csv {
        let pen = pen::row(out, start, b"all,,lost,", lost);
        return pen::row(out, pen, b"all,,unknown,", unknown);
    }
    lines::losses(out, start, b"all channels: lost ", accepted, lost, unknown)
}

// Tells how many packets were read and turned away, if there was one.
pub fn packets(out: &mut [u8], start: Pen, csv: bool, read: u64, away: u64) -> Pen
    ensures { Says (if_any (saturated read away) ((form csv).packets read away))
        (page out.old start) (page out.new result) }
{
    let all = counters::sum(read, away);
    if all == 0 {
        return start;
    }
    if csv {
        let pen = pen::row(out, start, b"packets,,read,", read);
        return pen::row(out, pen, b"packets,,turned away,", away);
    }
    lines::both(
        out,
        start,
        b"packets ",
        b": read ",
        b", turned away ",
        read,
        away,
    )
}

// Tells how many packets there were of a key, if there was one.
pub fn of_key(out: &mut [u8], start: Pen, csv: bool, key: u64, n: u64) -> Pen
    ensures { Says (if_any n ((form csv).key key n)) (page out.old start) (page out.new result) }
{
    if n == 0 {
        return start;
    }
    if csv {
        return pen::keyed(out, start, b"packets,", b"/", b"/", b",read,", key, n);
    }
    pen::keyed(out, start, b"APID ", b" (", b",", b"): ", key, n)
}

// Tells how many packets had no place among the keys, if there was one.
pub fn others(out: &mut [u8], start: Pen, csv: bool, n: u64) -> Pen
    ensures { Says (if_any n ((form csv).others n)) (page out.old start) (page out.new result) }
{
    if n == 0 {
        return start;
    }
    if csv {
        return pen::row(out, start, b"packets,,other,", n);
    }
    pen::row(out, start, b"other packets: ", n)
}

// Tells of an APID its packets missing and how often its count started again, if there is either.
pub fn apid(out: &mut [u8], start: Pen, csv: bool, i: u64, missing: u64, restarted: u64) -> Pen
    ensures { Says (if_any (saturated missing restarted) ((form csv).apid i missing restarted))
        (page out.old start) (page out.new result) }
{
    let any = counters::sum(missing, restarted);
    if any == 0 {
        return start;
    }
    if csv {
        let pen = pen::pair(out, start, b"apid,", b",missing,", i, missing);
        return pen::pair(out, pen, b"apid,", b",restarted,", i, restarted);
    }
    let pen = pen::told(out, start, b"APID ", i);
    pen::pair(out, pen, b": missing ", b", restarted ", missing, restarted)
}

// Tells of an image how many lines of it there are. The key is one more than its number, and 0 where there is none.
pub fn image(out: &mut [u8], start: Pen, csv: bool, key: u64, lines: u64) -> Pen
    ensures { Says (if_any key ((form csv).image (key - 1) lines)) (page out.old start) (page out.new result) }
{
    if key == 0 {
        return start;
    }
    let i = key - 1;
    if csv {
        return pen::pair(out, start, b"image,", b",lines,", i, lines);
    }
    let pen = pen::told(out, start, b"image ", i);
    let next = pen::told(out, pen, b": ", lines);
    pen::say(out, next, b" of 120 lines\n")
}

// Tells how many lines there were of images without a place, if there was one.
pub fn other_lines(out: &mut [u8], start: Pen, csv: bool, n: u64) -> Pen
    ensures { Says (if_any n ((form csv).other_lines n)) (page out.old start) (page out.new result) }
{
    if n == 0 {
        return start;
    }
    if csv {
        return pen::row(out, start, b"image,,other lines,", n);
    }
    pen::row(out, start, b"lines of other images: ", n)
}

// Tells that the recording is bad, if it is.
pub fn bad(out: &mut [u8], start: Pen, csv: bool, n: u64) -> Pen
    ensures { Says (if_any n ((form csv).bad n)) (page out.old start) (page out.new result) }
{
    if n == 0 {
        return start;
    }
    if csv {
        return pen::row(out, start, b"recording,,bad,", n);
    }
    pen::say(out, start, b"bad recording\n")
}
