// The fixed table of pairs, searched, and which report a pair is of. Private to the crate.
ghost use Rattle.std.specs.Prelude.{◌≡◌};
ghost use Rattle.report.specs.Table.{find_pair, success, failure, housekeeping, available, image_line};
ghost use Rattle.report.specs.Promised.{Tells};

use packet::Packet;

// A pair of service type and subtype, with the least and the greatest length of its source data.
#[derive(Clone, Copy)]
pub(crate) struct Pair {
    pub(crate) service: u8,
    pub(crate) subtype: u8,
    pub(crate) least: usize,
    pub(crate) greatest: usize,
}

const PAIRS: [Pair; 9] = [
    Pair {
        service: 1,
        subtype: 1,
        least: 4,
        greatest: 4,
    },
    Pair {
        service: 1,
        subtype: 3,
        least: 4,
        greatest: 4,
    },
    Pair {
        service: 1,
        subtype: 7,
        least: 4,
        greatest: 4,
    },
    Pair {
        service: 1,
        subtype: 2,
        least: 6,
        greatest: 6,
    },
    Pair {
        service: 1,
        subtype: 4,
        least: 6,
        greatest: 6,
    },
    Pair {
        service: 1,
        subtype: 8,
        least: 6,
        greatest: 6,
    },
    Pair {
        service: 3,
        subtype: 25,
        least: 1,
        greatest: Packet::LONGEST_SOURCE,
    },
    Pair {
        service: 128,
        subtype: 3,
        least: 166,
        greatest: 166,
    },
    Pair {
        service: 128,
        subtype: 7,
        least: 191,
        greatest: 191,
    },
];

// The table's pair of this service type and subtype, if it has one.
pub(crate) fn find(service: u8, subtype: u8) -> Option<Pair>
    ensures { result ≡ find_pair service subtype }
{
    PAIRS
        .iter()
        .find(|p| (p.service == service) & (p.subtype == subtype))
        .copied()
}

// Verification success: (1,1), (1,3), (1,7).
pub(crate) fn success(service: u8, subtype: u8) -> bool
    ensures { Tells success service subtype result }
{
    (service == 1) & ((subtype == 1) | (subtype == 3) | (subtype == 7))
}

// Verification failure: (1,2), (1,4), (1,8).
pub(crate) fn failure(service: u8, subtype: u8) -> bool
    ensures { Tells failure service subtype result }
{
    (service == 1) & ((subtype == 2) | (subtype == 4) | (subtype == 8))
}

// Housekeeping: (3,25).
pub(crate) fn housekeeping(service: u8, subtype: u8) -> bool
    ensures { Tells housekeeping service subtype result }
{
    (service == 3) & (subtype == 25)
}

// Available image: (128,3).
pub(crate) fn available(service: u8, subtype: u8) -> bool
    ensures { Tells available service subtype result }
{
    (service == 128) & (subtype == 3)
}

// Image line: (128,7).
pub(crate) fn image_line(service: u8, subtype: u8) -> bool
    ensures { Tells image_line service subtype result }
{
    (service == 128) & (subtype == 7)
}
