// The second reading of a training table: its rows, read by a descriptor in pieces, beside the packets that are handed out.
//
// Crate table says what the verdict is. Here its calls are made one after another, each on what the one before left.
#![tactic(auto)]

ghost use Rattle.std.specs.Prelude.{◌≡◌, false, [], ◌∷◌};
ghost use Rattle.table.specs.Look.{handed};
ghost use Rattle.audit_rows.specs.Goes.{fresh, stopped, Turns, Goes, Fills, Ends};
ghost use Rattle.audit_rows.specs.Frame.{handed_in, handed_by};

use answer::Refusal;
use session::Accepted;
use table::{Check, Form, Verdict, Wanted};
use window::Refilled;

// Where the reading stands: the check, the octets of the rows from at up to end of a buffer, which are read and not yet used, whether it is
// over, what the last read of the table answered, and once it is over the verdict, which stands unless that read failed.
#[derive(Clone, Copy)]
pub struct Audit {
    pub check: Check,
    pub at: usize,
    pub end: usize,
    pub over: bool,
    pub read: Refilled,
    pub verdict: Verdict,
}

// The next audit, and whether it is done with the packet at hand.
#[derive(Clone, Copy)]
struct Turned {
    audit: Audit,
    done: bool,
}

impl Audit {
    // No row is read yet.
    pub fn fresh(check: Check) -> Audit
        ensures { result ≡ fresh check }
    {
        Audit {
            check,
            at: 0,
            end: 0,
            over: false,
            read: Refilled::none(),
            verdict: Verdict::Passes,
        }
    }

    // Goes on with the rows beside each of the packets that a frame handed out, which stand end to end in octets, by their lengths. Where
    // rows are missing more are read. What fails is told on standard error, behind the program's name.
    pub fn frame(
        self,
        name: &[u8],
        table: &window::Source,
        rows: &mut [u8],
        answer: Result<Accepted, Refusal>,
        octets: &[u8],
        lengths: &[u16],
    ) -> Audit
        ensures { Goes self rows.old (handed_by answer octets.now lengths.now) result rows.new }
    {
        match answer {
            Err(_) => self,
            Ok(a) => { self.packets(name, table, rows, a.packets, a.arrival, octets, lengths) }
        }
    }

    // When no packet comes any more.
    pub fn ended(self, name: &[u8], table: &window::Source, rows: &mut [u8]) -> Audit
        ensures { Ends self rows.old result rows.new }
    {
        if self.over {
            return self;
        }
        let audit = self.filled(name, table, rows);
        let verdict = audit.check.end(window::hand(rows, audit.at, audit.end));
        audit.stopped(verdict)
    }

    // The reading is over: the verdict stands, unless the last read failed.
    fn stopped(self, verdict: Verdict) -> Audit
        ensures { result ≡ stopped self verdict }
    {
        Audit {
            over: true,
            verdict,
            ..self
        }
    }

    // Beside each of so many packets.
    fn packets(
        self,
        name: &[u8],
        table: &window::Source,
        rows: &mut [u8],
        packets: u8,
        arrival: u32,
        octets: &[u8],
        lengths: &[u16],
    ) -> Audit
        ensures { Goes self rows.old (handed_in arrival packets octets.now lengths.now) result
            rows.new }
    {
        let mut audit = self;
        let mut from = 0;
        let n = usize::from(packets).min(lengths.len());
        for &length in &lengths[..n] {
            let size = usize::from(length);
            audit = audit.beside(name, table, rows, octets::part(octets, from, size), arrival);
            from += size;
        }
        audit
    }

    // Beside one packet, until the next is wanted or the reading is over.
    fn beside(
        self,
        name: &[u8],
        table: &window::Source,
        rows: &mut [u8],
        packet: &[u8],
        arrival: u32,
    ) -> Audit
        ensures { Goes self rows.old (handed packet.now arrival ∷ []) result rows.new }
    {
        let mut audit = self;
        let mut done = audit.over;
        while !done {
            let turned = audit.turn(name, table, rows, packet, arrival);
            audit = turned.audit;
            done = turned.done;
        }
        audit
    }

    // One look at the rows at hand beside a packet; if it wants more rows they are read.
    fn turn(
        self,
        name: &[u8],
        table: &window::Source,
        rows: &mut [u8],
        packet: &[u8],
        arrival: u32,
    ) -> Turned
        requires { self.over ≡ false }
        ensures { Turns self rows.old (handed packet.now arrival) result rows.new }
    {
        let mut audit = self;
        let looked = self
            .check
            .look(window::hand(rows, self.at, self.end), packet, arrival);
        let from = self.at + looked.used;
        audit.check = looked.check;
        audit.at = from;
        match looked.wanted {
            Wanted::Packet => Turned { audit, done: true },
            Wanted::Nothing(verdict) => Turned {
                audit: audit.stopped(verdict),
                done: true,
            },
            Wanted::Rows => {
                let read = window::refill(name, table, rows, from, self.end);
                let have = read.have();
                audit.at = 0;
                audit.end = have;
                audit.read = read;
                if audit_form::brought(read) {
                    return Turned { audit, done: false };
                }
                let verdict = looked.check.end(window::hand(rows, 0, have));
                Turned {
                    audit: audit.stopped(verdict),
                    done: true,
                }
            }
        }
    }

    // Reads until a row's octets are at hand, or none come.
    fn filled(self, name: &[u8], table: &window::Source, rows: &mut [u8]) -> Audit
        ensures { Fills self rows.old result rows.new }
    {
        let mut audit = self;
        let mut here = window::hand(rows, self.at, self.end).len();
        while here < Form::ROW {
            let read = window::refill(name, table, rows, audit.at, audit.end);
            here = read.have();
            audit.at = 0;
            audit.end = here;
            audit.read = read;
            if !audit_form::brought(read) {
                return audit;
            }
        }
        audit
    }
}
