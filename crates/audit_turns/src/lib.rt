// A turn of the second reading of a training table: a pull at the input, and the rows beside the packets that it handed out.
#![tactic(auto)]

ghost use Rattle.std.specs.Prelude.{◌≡◌};
ghost use Rattle.session.specs.Lent.{lent};
ghost use Rattle.audit_turns.specs.Turns.{begun, Heeds, Turned};

use audit_rows::Audit;
use feed::{Feed, Pull};
use receiver::Receiver;
use stretch::KEPT;
use table::Check;
use window::Refilled;

// Where both readings stand, of the input and of the rows, what the last read of the input answered, whether they go on, and if not whether
// the input has ended: then the verdict stands.
#[derive(Clone, Copy)]
pub struct State {
    pub feed: Feed,
    pub receiver: Receiver,
    pub audit: Audit,
    pub read: Refilled,
    pub going: bool,
    pub ended: bool,
}

// The same of the rows alone.
#[derive(Clone, Copy)]
struct Heeded {
    audit: Audit,
    going: bool,
    ended: bool,
}

impl State {
    // Before the first turn: nothing is read of the input, and nothing of the rows.
    pub fn fresh(receiver: Receiver, check: Check) -> State
        ensures { result ≡ begun receiver check }
    {
        State {
            feed: Feed::fresh(),
            receiver,
            audit: Audit::fresh(check),
            read: Refilled::none(),
            going: true,
            ended: false,
        }
    }

    // One pull at the input that comes by the descriptor source, and the rows beside the packets that it handed out. What fails, and why a
    // recording is bad, is told on standard error, behind the program's name.
    pub fn turn(
        self,
        name: &[u8],
        table: &window::Source,
        source: &window::Source,
        input: &mut [u8],
        rows: &mut [u8],
        kept: &mut [u8; KEPT],
        octets: &mut [u8],
        lengths: &mut [u16],
        firsts: &mut [u32],
    ) -> State
        ensures { Turned self input.old kept.old
            (lent octets.old lengths.old firsts.old) rows.old result input.new
            kept.new
            (lent octets.new lengths.new firsts.new) rows.new }
    {
        let pulled = self.feed.pull(
            name,
            source,
            input,
            self.receiver,
            kept,
            octets,
            lengths,
            firsts,
        );
        let heeded = heed(name, table, rows, self.audit, pulled.pull, octets, lengths);
        State {
            feed: pulled.feed,
            receiver: pulled.receiver,
            audit: heeded.audit,
            read: pulled.read,
            going: heeded.going,
            ended: heeded.ended,
        }
    }
}

// Takes what was told of the input: the rows beside the packets that a frame handed out, and at the input's end what is still to be said of
// them.
fn heed(
    name: &[u8],
    table: &window::Source,
    rows: &mut [u8],
    audit: Audit,
    pull: Pull,
    octets: &[u8],
    lengths: &[u16],
) -> Heeded
    ensures { Heeds audit rows.old octets.now lengths.now result rows.new pull }
{
    let next;
    let mut going = true;
    let mut ended = false;
    match pull {
        Pull::More | Pull::Opened => {
            next = audit;
        }
        Pull::Answered(answer) => {
            next = audit.frame(name, table, rows, answer, octets, lengths);
        }
        Pull::Bad | Pull::Cut | Pull::Failed => {
            next = audit;
            going = false;
        }
        Pull::End => {
            next = audit.ended(name, table, rows);
            going = false;
            ended = true;
        }
    }
    Heeded {
        audit: next,
        going,
        ended,
    }
}
