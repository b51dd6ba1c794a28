// The first reading of a training table: its form, read by a descriptor in pieces, up to the file's end.
//
// Crate table says what is kept of the pieces. Here is the loop: one read after another, until one brings nothing or fails.
#![tactic(auto)]

ghost use Rattle.std.specs.Prelude.{◌≡◌};
ghost use Rattle.audit_form.specs.Reads.{brought, Grows, Looped};

use table::Form;
use window::Refilled;

// The most reads.
const READS: u64 = 18446744073709551615;

// Where the reading stands: the form of the octets that came so far, what the last read answered, and whether another is made.
#[derive(Clone, Copy)]
pub struct Reading {
    pub form: Form,
    pub read: Refilled,
    pub going: bool,
}

// Where the reading stopped, and after how many reads.
#[derive(Clone, Copy)]
pub struct Formed {
    pub reading: Reading,
    pub made: u64,
}

// Whether a read brought octets and did not fail.
pub fn brought(read: Refilled) -> bool
    ensures { result ≡ brought read }
{
    (read.came() != 0) & !read.failed()
}

// Reads a table by its descriptor and a buffer, until a read brings nothing or fails, which is told on standard error, behind the program's
// name. After 2^64 - 1 reads it would stop too.
pub fn form(name: &[u8], table: &window::Source, buffer: &mut [u8]) -> Formed
    ensures { Looped buffer.old result buffer.new }
{
    let mut reading = Reading {
        form: Form::fresh(),
        read: Refilled::none(),
        going: true,
    };
    for made in 0..READS {
        if !reading.going {
            return Formed { reading, made };
        }
        reading = reading.more(name, table, buffer);
    }
    Formed {
        reading,
        made: READS,
    }
}

impl Reading {
    // One read more, and the form with the octets that it brought.
    fn more(self, name: &[u8], table: &window::Source, buffer: &mut [u8]) -> Reading
        ensures { Grows self buffer.old result buffer.new }
    {
        let read = window::refill(name, table, buffer, 0, 0);
        let have = read.have();
        let form = self.form.read(window::hand(buffer, 0, have));
        let going = brought(read);
        Reading { form, read, going }
    }
}
