// Where each field stands in a case's record. Written by tools/vectors.
pub const KIND: u8 = 0;

pub const NAME: u8 = 1;

pub const OCTETS: u8 = 3;

pub const OCTET: u8 = 4;

pub const WORDS: u8 = 5;

pub const WORD: u8 = 6;

pub const FOURS: u8 = 7;

pub const FOUR: u8 = 8;

pub const INPUT: u8 = 9;

pub const APID: u8 = 11;

pub const SEQUENCE: u8 = 12;

pub const ENTRY: u8 = 13;

pub const SERVICE: u8 = 13;

pub const SUBTYPE: u8 = 14;

pub const TIME: u8 = 15;

pub const LENGTH: u8 = 17;

pub const T: u8 = 11;

pub const COUNT: u8 = 12;

pub const MASTER: u8 = 13;

pub const POINTER: u8 = 14;

pub const CHANNEL: u8 = 15;

pub const TELECOMMANDS: u8 = 16;

pub const DESTINATION: u8 = 19;

pub const DESTINATION_SSID: u8 = 21;

pub const SOURCE: u8 = 22;

pub const SOURCE_SSID: u8 = 24;

pub const STAMP: u8 = 25;

pub const PARTS: u8 = 27;

pub const LENGTHS: u8 = 29;

pub const WANTED: u8 = 11;

pub const ARRIVAL: u8 = 12;

pub const HELD: u8 = 13;

pub const SHOW: u8 = 11;

pub const WRITER: u8 = 19;

pub const FIRST: u8 = 20;

pub const SECOND: u8 = 21;

pub const THIRD: u8 = 22;

pub const BLOCK: u8 = 23;

pub const PLACES: u8 = 11;

pub const PACKET: u8 = 13;

pub const CODES: u8 = 19;

pub const NUMBERS: u8 = 20;

pub const SIGNED: u8 = 21;

pub const SID: u8 = 22;

pub const VALUES: u8 = 23;

pub const STRINGS: u8 = 25;

pub const HEARD: u8 = 14;

pub const LAST: u8 = 16;

pub const CHANNEL_HEARD: u8 = 17;

pub const INSTEP: u8 = 18;

pub const HOLDS: u8 = 19;

pub const BEGUN: u8 = 20;

pub const OWN: u8 = 11;

pub const FRAME: u8 = 12;

pub const BITS: u8 = 13;

pub const TEXT: u8 = 11;

pub const LIST: u8 = 11;

pub const ROOM: u8 = 13;

pub const PIECE: u8 = 11;
