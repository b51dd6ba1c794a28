// The verdict on a training table as one line of text, put into lent octets from an index on.
#![tactic(auto)]

ghost use Rattle.std.specs.Prelude.{◌+◌, ◌≤◌, length};
ghost use Rattle.decimal.specs.Laid.{Laid, Puts};
ghost use Rattle.audit_line.specs.Text.{longest_words, longest_verdict, words_of, spoken, verdict_line};
ghost use Rattle.table.specs.declared.Verdict.TheVariants.{Faulty};

use table::Verdict;

// The most octets that a verdict's line takes.
pub const VERDICT: usize = 87;

// Puts the line of a verdict into out from index at on, and answers the index behind it. With less than VERDICT octets there out stays, and
// the answer is at.
pub fn line(out: &mut [u8], at: usize, verdict: Verdict) -> usize
    ensures { Puts longest_verdict (verdict_line verdict) out.old at out.new result }
{
    if out.len() < at {
        return at;
    }
    if out.len() - at < VERDICT {
        return at;
    }
    match verdict {
        Verdict::Passes => {
            octets::put(out, at, b"passes\n");
            at + 7
        }
        Verdict::Faulty { reason, row } => faulty(out, at, reason, row),
    }
}

// The line of a faulty row.
fn faulty(out: &mut [u8], at: usize, reason: u16, row: u32) -> usize
    requires { at + longest_verdict ≤ length out.old }
    ensures { Laid longest_verdict (verdict_line (Faulty reason row)) out.old at out.new result }
{
    octets::put(out, at, b"row ");
    let next = decimal::number(out, at + 4, row, b':');
    octets::put(out, next, b" ");
    let last = decimal::number(out, next + 1, reason as u32, b':');
    words(out, last, reason)
}

// The words of a reason, with a space before them and the line's end behind.
fn words(out: &mut [u8], at: usize, reason: u16) -> usize
    requires { at + longest_words ≤ length out.old }
    ensures { Laid longest_words (spoken (words_of reason)) out.old at out.new result }
{
    match reason {
        answer::TABLE_FORM => lay(out, at, b" the table is badly formed\n"),
        answer::ROW_ORDER => lay(out, at, b" rows out of order\n"),
        answer::ROW_PACKET => lay(
            out,
            at,
            b" no such packet or column, or a packet that was turned away\n",
        ),
        answer::ROW_VALUE => lay(out, at, b" the value is not in the packet\n"),
        answer::ROW_CLAIM => lay(out, at, b" claimed before the frame arrived that told it\n"),
        _ => lay(out, at, b" \n"),
    }
}

// Puts a text into out, and answers the index behind it.
fn lay(out: &mut [u8], at: usize, text: &[u8]) -> usize
    requires longest_words_in_bounds { at + longest_words ≤ length out.old }
    requires text_len_bound { length text.now ≤ longest_words }
    ensures { Laid longest_words text.now out.old at out.new result }
{
    octets::put(out, at, text);
    at + text.len()
}
