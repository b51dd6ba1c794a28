// Why something is turned away, in the order of the paper's table, and a refusal as a session answers it.
#![tactic(auto)]

ghost use Rattle.std.specs.Prelude.{◌≡◌};
ghost use Rattle.answer.specs.Told.{number_of, octet_of, plain, refusal_of};

// Why something is turned away.
#[derive(Clone, Copy)]
pub enum Reason {
    // Under 501 octets, or under 16 lengths or 16 first arrival numbers lent.
    Room,
    // Opening, or reading a single frame outside a session, with t above 8.
    TimeLength,
    // Arrival number 4,294,967,295 already used.
    Arrivals,
    // A session with t above 8, or with a channel that holds above 250 octets, or any while out of step, or six or more whose packet's
    // length is outside 16 to 251 or not above the number held.
    Session,

    // Frame shorter than 23 + t or longer than 274.
    FrameLength,
    // Frame check wrong.
    FrameCheck,
    // Destination address wrong.
    FrameDestination(u8),
    // Source address wrong.
    FrameSource(u8),
    // Control octet wrong.
    FrameControl,
    // Protocol octet wrong.
    FrameProtocol,
    // Frame version or spare not 0.
    FrameVersion,
    // Time flag isn't t's, or status spare not 0.
    FrameStatus,
    // Pointer wrong.
    FramePointer,

    // Stretch of bits: not whole octets.
    StretchOctets,
    // Stretch of bits: abandoned.
    StretchAbandoned,
    // KISS: a wrong or cut escape.
    Escape,
    // KISS: another type octet.
    TypeOctet,

    // Packet outside 16 to 251, or not C + 7.
    PacketLength,
    // Packet check wrong.
    PacketCheck,
    // Another fixed packet bit wrong.
    PacketBits,

    // Pair unknown.
    Pair,
    // Source data length wrong.
    SourceLength,
    // Line above 119.
    Line,
    // Placing: not (128,7).
    NotLine,

    // Image or line list too short.
    ImageShort,
    // Another image number.
    ImageOther,
    // Line held with other pixels.
    LineHeld,
    // Placing with arrival number 0.
    NoArrival,
    // Sequence list too short.
    ListShort,
    // That APID's entry above 16,384.
    Entry,
    // APID above 2,047 or count above 16,383.
    CountRange,

    // Writer: output too short.
    OutputShort,
    // Writer: a field out of range.
    FieldRange,
    // Sender: a packet that the packet reader turns away.
    PacketTurnedAway,
    // Sender: data length out of range.
    DataLength,

    // A layout's code unknown, or the layout empty or above 64.
    LayoutCodes,
    // Layout not a whole number of octets.
    LayoutWidth,
    // The parameters aren't one or more whole sequences.
    Sequences,
    // Readings: not (3,25).
    NotHousekeeping,

    // Greymap: header or length different.
    Greymap,
    // Line list badly formed, or a number above 4,294,967,295.
    LineList,
    // A line numbered 0 with a pixel other than 0.
    UnnumberedLine,
}

impl Reason {
    // The paper's number.
    pub fn number(self) -> u16
        ensures { result ≡ number_of self }
    {
        match self {
            Reason::Room => 1,
            Reason::TimeLength => 2,
            Reason::Arrivals => 3,
            Reason::Session => 4,
            Reason::FrameLength => 10,
            Reason::FrameCheck => 11,
            Reason::FrameDestination(_) => 120,
            Reason::FrameSource(_) => 121,
            Reason::FrameControl => 122,
            Reason::FrameProtocol => 123,
            Reason::FrameVersion => 13,
            Reason::FrameStatus => 14,
            Reason::FramePointer => 15,
            Reason::StretchOctets => 16,
            Reason::StretchAbandoned => 17,
            Reason::Escape => 18,
            Reason::TypeOctet => 19,
            Reason::PacketLength => 20,
            Reason::PacketCheck => 21,
            Reason::PacketBits => 22,
            Reason::Pair => 30,
            Reason::SourceLength => 31,
            Reason::Line => 32,
            Reason::NotLine => 33,
            Reason::ImageShort => 40,
            Reason::ImageOther => 41,
            Reason::LineHeld => 42,
            Reason::NoArrival => 43,
            Reason::ListShort => 44,
            Reason::Entry => 45,
            Reason::CountRange => 46,
            Reason::OutputShort => 50,
            Reason::FieldRange => 51,
            Reason::PacketTurnedAway => 52,
            Reason::DataLength => 53,
            Reason::LayoutCodes => 60,
            Reason::LayoutWidth => 61,
            Reason::Sequences => 62,
            Reason::NotHousekeeping => 63,
            Reason::Greymap => 80,
            Reason::LineList => 81,
            Reason::UnnumberedLine => 82,
        }
    }

    // The octet of the frame that is wrong; 0 where none is told.
    pub fn octet(self) -> u8
        ensures { result ≡ octet_of self }
    {
        match self {
            Reason::FrameDestination(octet) | Reason::FrameSource(octet) => octet,
            _ => 0,
        }
    }
}

// A refusal as a session answers it: its number, and the octet of the frame that is wrong, 0 where none is told.
#[derive(Clone, Copy)]
pub struct Refusal {
    pub number: u16,
    pub octet: u8,
}

impl Refusal {
    // The refusal of this number that tells no octet.
    pub fn plain(number: u16) -> Refusal
        ensures { result ≡ plain number }
    {
        Refusal { number, octet: 0 }
    }

    // The refusal for this reason.
    pub fn of(reason: Reason) -> Refusal
        ensures { result ≡ refusal_of reason }
    {
        Refusal {
            number: reason.number(),
            octet: reason.octet(),
        }
    }
}

// Numbers of a verdict on a table: `audit_line::line` tells any.
// Table file badly formed, or a width not 1 to 8.
pub const TABLE_FORM: u16 = 70;
// Rows out of order.
pub const ROW_ORDER: u16 = 71;
// No such packet or column, or a packet that the packet reader turns away.
pub const ROW_PACKET: u16 = 72;
// Value absent or different.
pub const ROW_VALUE: u16 = 73;
// Claimed too early.
pub const ROW_CLAIM: u16 = 74;
