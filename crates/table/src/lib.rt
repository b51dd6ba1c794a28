// The training table: the form of its file, then its rows beside the packets as they are handed out. Refusals 70 to 74.
// Nothing here reads a file: the table comes in pieces, twice.
#![tactic(auto)]

ghost use Rattle.std.specs.Prelude.{◌+◌, ◌*◌, ◌≤◌, ◌<◌, ◌≡◌, true, [], length, drop};
ghost use Rattle.std.proofs.Math.Option.{some};
ghost use Rattle.std.proofs.Math.ListN.{get_elem?};
ghost use Rattle.packet.specs.Packet.{read_packet};
ghost use Rattle.table.specs.Table.{four_at, rows_from, columns_in, widths_wrong, badly_formed, stands, against, row_in};
ghost use Rattle.table.specs.Form.{known, grown, started};
ghost use Rattle.table.specs.Told.{told};
ghost use Rattle.table.specs.Look.{at_hand, handed, reason_at, looked, ended};

use packet::Packet;

// The table passes, or its first faulty row, counted from 1, with its first reason; row 0 for a file that is badly formed.
#[derive(Clone, Copy)]
pub enum Verdict {
    Passes,
    Faulty { reason: u16, row: u32 },
}

// What is kept of a table file as far as it is read: its first octets, and how many there are.
#[derive(Clone, Copy)]
pub struct Form {
    pub head: [u8; Form::HEAD],
    pub length: usize,
}

// A table under check: whether it is well formed, its head with the columns, how many columns and rows it has, how many rows were looked
// at, the least packet number that the next row may have, and the number of the packet that is handed out next.
#[derive(Clone, Copy)]
pub struct Check {
    pub formed: bool,
    pub head: [u8; Form::HEAD],
    pub columns: u8,
    pub rows: u32,
    pub row: u32,
    pub least: u32,
    pub number: u32,
}

// What a check wants next: more octets of the rows, the next packet, or nothing: the verdict stands.
#[derive(Clone, Copy)]
pub enum Wanted {
    Rows,
    Packet,
    Nothing(Verdict),
}

// The next check, how many octets of the rows were used, and what is wanted.
#[derive(Clone, Copy)]
pub struct Looked {
    pub check: Check,
    pub used: usize,
    pub wanted: Wanted,
}

// The number of the four octets at an index.
fn four_at(s: &[u8], at: usize) -> u32
    requires { at + 4 ≤ length s.now }
    ensures { result ≡ four_at s.now at }
{
    octets::four(s[at], s[at + 1], s[at + 2], s[at + 3])
}

// Whether one of so many columns has a width that is not 1 to 8.
fn widths_wrong(head: &[u8], columns: usize) -> bool
    requires { 4 + 2 * columns ≤ length head.now }
    ensures { result ≡ widths_wrong (columns_in columns (drop 4 head.now)) }
{
    for i in 0..columns {
        let width = head[5 + 2 * i];
        if (width == 0) | (Form::WIDEST < width) {
            return true;
        }
    }
    false
}

// Refusal 70, of a file of so many octets.
fn badly_formed(head: &[u8], size: usize) -> bool
    requires { 72 ≤ length head.now }
    ensures { result ≡ badly_formed head.now size }
{
    let columns = four_at(head, 0) as usize;
    if Form::COLUMNS < columns {
        return true;
    }
    if widths_wrong(head, columns) {
        return true;
    }
    let at = 4 + 2 * columns;
    let rows = four_at(head, at) as usize;
    size != at + 4 + Form::ROW * rows
}

impl Form {
    // The octets that hold both counts and the columns, the most columns, the widest, and the octets of a row.
    pub const HEAD: usize = 72;

    pub const COLUMNS: usize = 32;

    pub const WIDEST: u8 = 8;

    pub const ROW: usize = 17;

    // One octet more than the longest table has.
    pub const MOST: usize = 73014444088;

    // Nothing read yet.
    pub fn fresh() -> Form
        ensures { result ≡ known [] }
    {
        Form {
            head: [0u8; Form::HEAD],
            length: 0,
        }
    }

    // The next piece of the file, of any length.
    pub fn read(self, piece: &[u8]) -> Form
        ensures { result ≡ grown self piece.now }
    {
        let room = Form::HEAD - self.length.min(Form::HEAD);
        let n = piece.len().min(room);
        let mut head = self.head;
        octets::put(&mut head, self.length, &piece[..n]);
        let before = self.length.min(Form::MOST);
        Form {
            head,
            length: before + piece.len().min(Form::MOST - before),
        }
    }

    // The file's end: the check of its rows, which tells 70 if the file is badly formed.
    pub fn end(self) -> Check
        ensures { result ≡ started self }
    {
        let mut check = Check {
            formed: false,
            head: self.head,
            columns: 0,
            rows: 0,
            row: 0,
            least: 0,
            number: 1,
        };
        if badly_formed(&self.head, self.length) {
            return check;
        }
        let columns = four_at(&self.head, 0);
        let rows = four_at(&self.head, 4 + 2 * columns as usize);
        check.formed = true;
        check.columns = columns as u8;
        check.rows = rows;
        check
    }
}

// Whether the packet reader accepts a packet.
fn accepted(packet: &[u8]) -> bool
    ensures { result ≡ (read_packet packet.now).accepted }
{
    Packet::read(packet).is_ok()
}

// Whether the octets of a column are in the packet, and the value is these behind zeros.
fn stands(offset: u8, width: u8, packet: &[u8], value: &[u8]) -> bool
    requires { length value.now ≡ 8 }
    ensures { result ≡ stands (record { offset = offset; width = width }) packet.now value.now }
{
    let at = usize::from(offset);
    let n = usize::from(width);
    if packet.len() < at + n {
        return false;
    }
    if 8 < n {
        return false;
    }
    let mut whole = [0u8; 8];
    octets::put(&mut whole, 8 - n, octets::part(packet, at, n));
    octets::same(value, &whole)
}

// What is against the row at the start of row, about a packet that the packet reader accepts: 72 to 74, if anything is.
fn against(head: &[u8], columns: usize, row: &[u8], packet: &[u8], arrival: u32) -> Option<u16>
    requires in_bounds { 17 ≤ length row.now }
    requires packet_value { (read_packet packet.now).accepted ≡ true }
    ensures { result ≡ told (against (row_in row.now)
        (get_elem? (columns_in columns (drop 4 head.now)) (row_in row.now).column)
        (some (handed packet.now arrival))) }
{
    let column = usize::from(row[4]);
    if columns <= column {
        return Some(answer::ROW_PACKET);
    }
    let c = octets::part(head, 4 + 2 * column, 2);
    if c.len() < 2 {
        return Some(answer::ROW_PACKET);
    }
    if !stands(c[0], c[1], packet, octets::part(row, 9, 8)) {
        return Some(answer::ROW_VALUE);
    }
    if four_at(row, 5) < arrival {
        return Some(answer::ROW_CLAIM);
    }
    None
}

impl Check {
    // Where the rows begin in the file.
    pub fn start(self) -> usize
        ensures { result ≡ rows_from self.columns }
    {
        8 + 2 * usize::from(self.columns)
    }

    // The first reason against the row at the start of row, if there is one.
    fn reason(self, row: &[u8], packet: &[u8], accepted: bool, arrival: u32) -> Option<u16>
        requires in_bounds { 17 ≤ length row.now }
        requires accepted_value { accepted ≡ (read_packet packet.now).accepted }
        ensures { result ≡ told (reason_at self
            (at_hand self (handed packet.now arrival) (row_in row.now)) (row_in row.now)) }
    {
        let number = four_at(row, 0);
        if number < self.least {
            return Some(answer::ROW_ORDER);
        }
        if (number != self.number) | !accepted {
            return Some(answer::ROW_PACKET);
        }
        against(&self.head, usize::from(self.columns), row, packet, arrival)
    }

    // Looks at the whole rows at the start of rows, one after another, beside the packet that was handed out with this arrival number,
    // until a row is about a later packet or is faulty, or the table's rows are all looked at.
    pub fn look(self, rows: &[u8], packet: &[u8], arrival: u32) -> Looked
        ensures { result ≡ looked self rows.now (handed packet.now arrival) }
    {
        let mut check = self;
        let mut at = 0;
        if !check.formed {
            let verdict = Verdict::Faulty {
                reason: answer::TABLE_FORM,
                row: 0,
            };
            return Looked {
                check,
                used: at,
                wanted: Wanted::Nothing(verdict),
            };
        }
        let accepted = accepted(packet);
        while check.row < check.rows {
            if rows.len() - at < Form::ROW {
                return Looked {
                    check,
                    used: at,
                    wanted: Wanted::Rows,
                };
            }
            let number = four_at(&rows[at..], 0);
            if check.number < number {
                check.number += 1;
                check.least = check.number;
                return Looked {
                    check,
                    used: at,
                    wanted: Wanted::Packet,
                };
            }
            if let Some(reason) = check.reason(&rows[at..], packet, accepted, arrival) {
                let verdict = Verdict::Faulty {
                    reason,
                    row: check.row + 1,
                };
                return Looked {
                    check,
                    used: at,
                    wanted: Wanted::Nothing(verdict),
                };
            }
            check.row += 1;
            check.least = number;
            at += Form::ROW;
        }
        Looked {
            check,
            used: at,
            wanted: Wanted::Nothing(Verdict::Passes),
        }
    }

    // The verdict when no packet comes any more, with the octets of the next row at hand.
    pub fn end(self, rows: &[u8]) -> Verdict
        ensures { result ≡ ended self rows.now }
    {
        if !self.formed {
            return Verdict::Faulty {
                reason: answer::TABLE_FORM,
                row: 0,
            };
        }
        if self.rows <= self.row {
            return Verdict::Passes;
        }
        if rows.len() < Form::ROW {
            return Verdict::Faulty {
                reason: answer::TABLE_FORM,
                row: 0,
            };
        }
        if four_at(rows, 0) < self.least {
            return Verdict::Faulty {
                reason: answer::ROW_ORDER,
                row: self.row + 1,
            };
        }
        Verdict::Faulty {
            reason: answer::ROW_PACKET,
            row: self.row + 1,
        }
    }
}
