// The number of each kind of case. Written by tools/vectors.
pub const PACKET_CHECK: u8 = 1;

pub const FRAME_CHECK: u8 = 2;

pub const SEQUENCE: u8 = 3;

pub const PACKET_READER: u8 = 4;

pub const PACKET_WRITER: u8 = 5;

pub const FRAME_READER: u8 = 6;

pub const FRAME_WRITER: u8 = 7;

pub const SENDER: u8 = 8;

pub const SENDER_EMPTY: u8 = 9;

pub const PLACING: u8 = 10;

pub const PLACING_ORDER: u8 = 11;

pub const REPORT_READER: u8 = 12;

pub const REPORT_WRITER: u8 = 13;

pub const HOUSEKEEPING_READER: u8 = 14;

pub const HOUSEKEEPING_WRITER: u8 = 15;

pub const SESSION_OPEN: u8 = 16;

pub const SESSION: u8 = 17;

pub const SESSION_STEP: u8 = 18;

pub const DAMAGE: u8 = 19;

pub const PICTURE_READER: u8 = 20;

pub const PICTURE_WRITER: u8 = 21;

pub const KISS_IMPORT: u8 = 22;

pub const KISS_EXPORT: u8 = 23;

pub const BITS_READER: u8 = 24;

pub const BITS_WRITER: u8 = 25;
