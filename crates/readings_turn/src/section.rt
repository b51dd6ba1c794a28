// What one section of a recording leads to: its packets' lines or a refusal, what is written before a read, and whether more may come.
ghost use Rattle.std.specs.Prelude.{◌≡◌};
ghost use Rattle.session.specs.Lent.{lent};
ghost use Rattle.readings_frame.specs.Readings.{layouts_of};
ghost use Rattle.readings_lines.specs.Output.{failed_in};
ghost use Rattle.readings_turn.specs.Turns.{is_bad, goes_on, Heeds, Clears};

use feed::Pull;
use readings_frame::State;

// With so many octets at hand the recording goes on without a read.
const SECTION: usize = 1026;

// Writes the text if fewer octets are at hand than a section may have.
pub(crate) fn before_a_read(name: &[u8], out: &[u8], hand: usize, state: State) -> State
    ensures { Clears hand out.now state result }
{
    if SECTION <= hand {
        return state;
    }
    state.written(name, out)
}

// Whether the recording is bad.
pub(crate) fn is_bad(pull: Pull) -> bool
    ensures { result ≡ is_bad pull }
{
    match pull {
        Pull::Bad | Pull::Cut => true,
        _ => false,
    }
}

// Whether more may come, and no write failed.
pub(crate) fn may_go_on(pull: Pull, state: State) -> bool
    ensures { result ≡ goes_on pull (failed_in state.output) }
{
    if state.failed() {
        return false;
    }
    match pull {
        Pull::More | Pull::Opened | Pull::Answered(_) => true,
        _ => false,
    }
}

// Takes what was told of the recording's next section: the packets of an accepted frame, or a refusal, which is counted.
pub(crate) fn heed(
    name: &[u8],
    pull: Pull,
    octets: &[u8],
    lengths: &[u16],
    firsts: &[u32],
    text: &[u8],
    apids: &[u16],
    sids: &[u8],
    starts: &[usize],
    n: usize,
    codes: &[u16],
    froms: &[usize],
    tos: &[usize],
    out: &mut [u8],
    counts: &mut [u64],
    state: State,
) -> State
    ensures { Heeds (layouts_of text.now apids.now sids.now starts.now n
        codes.now
        froms.now tos.now)
        pull (lent octets.now lengths.now firsts.now) out.old counts.old state
        out.new counts.new result }
{
    let Pull::Answered(answer) = pull else {
        return state;
    };
    match answer {
        Err(r) => {
            telling::count(counts, r.number);
            state
        }
        Ok(a) => readings_frame::frame(
            name, a, octets, lengths, firsts, text, apids, sids, starts, n, codes, froms, tos, out,
            counts, state,
        ),
    }
}
