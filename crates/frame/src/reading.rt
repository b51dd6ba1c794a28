// The lines of the refusals 10, 11, 120 to 123 and 13 to 15, and the fields of a frame's octets.
ghost use Rattle.std.specs.Prelude.{◌≡◌, length, ◌≤◌};
ghost use Rattle.bits.specs.Rows.{ones};
ghost use Rattle.bits.specs.Rows.Order.{low_first};
ghost use Rattle.crc.specs.Check.{check_wrong};
ghost use Rattle.frame.specs.Asked.{Whole};
ghost use Rattle.frame.specs.Limits.{least_length, longest_time};
ghost use Rattle.frame.specs.Frame.{told, flag_of, length_wrong, version_wrong, status_wrong, pointer_wrong, fields_of, read_header};
ghost use Rattle.frame.specs.Frame.{read_information};

use super::{Frame, addresses};
use answer::Reason;
use counts::{ChannelCount, MasterCount};

// The control and the protocol octet.
pub(crate) const CONTROL: u8 = 0x03;

pub(crate) const PROTOCOL: u8 = 0xf0;

// Where the octets before the data stand.
pub(crate) const SOURCE_AT: usize = addresses::LENGTH;

pub(crate) const CONTROL_AT: usize = SOURCE_AT + addresses::LENGTH;

const PROTOCOL_AT: usize = CONTROL_AT + 1;

const CHANNEL_AT: usize = Frame::HEADER;

const MASTER_AT: usize = CHANNEL_AT + 1;

const COUNT_AT: usize = MASTER_AT + 1;

const POINTER_AT: usize = COUNT_AT + 1;

pub(crate) const DATA_AT: usize = Frame::HEADER + Frame::SECONDARY_HEADER;

// The octets before the time, beside the data: those before the data, and the status octet.
pub(crate) const BEFORE_TIME: usize = DATA_AT + 1;

// The status octet before the time and the check's two octets behind it.
const AROUND_TIME: usize = 3;

// Whether a frame of n octets is too short or too long: refusal 10.
pub(crate) fn length_wrong(t: usize, n: usize) -> bool
    requires { t ≤ longest_time }
    ensures { result ≡ length_wrong t n }
{
    (n < Frame::LEAST + t) | (Frame::GREATEST < n)
}

// Whether the last two octets, low octet first, aren't the check of those before: refusal 11.
pub(crate) fn check_wrong(s: &[u8]) -> bool
    requires { least_length ≤ length s.now }
    ensures { result ≡ check_wrong low_first (ones 16) s.now }
{
    let n = s.len();
    octets::word(s[n - 1], s[n - 2]) != crc::frame_check(&s[..n - 2])
}

// Whether the information's first octet x has a version or a spare that isn't 0: refusal 13.
fn version_wrong(x: u8) -> bool
    ensures { result ≡ version_wrong x }
{
    (x / 64 != 0) | (x % 8 != 0)
}

// The time flag of a time of t octets.
pub(crate) fn flag(t: usize) -> usize
    requires { t ≤ longest_time }
    ensures { result ≡ flag_of t }
{
    if t == 0 {
        return 0;
    }
    8 + (t - 1)
}

// Whether the status octet x has another flag than t's, or a spare that isn't 0: refusal 14.
fn status_wrong(t: usize, x: u8) -> bool
    requires { t ≤ longest_time }
    ensures { result ≡ status_wrong t x }
{
    (usize::from(x / 16) != flag(t)) | (x / 4 % 4 != 0)
}

// Whether the pointer is wrong for n octets of data: refusal 15.
pub(crate) fn pointer_wrong(pointer: u8, n: usize) -> bool
    ensures { result ≡ pointer_wrong pointer n }
{
    !((usize::from(pointer) < n)
        | (pointer == Frame::NONE_STARTS)
        | ((pointer == Frame::RAW_DATA) & (n != 0)))
}

// The fields that stand in a frame's octets, of which n are data and one is the status octet.
fn frame_of(s: &[u8], n: usize, status: u8) -> Frame
    requires { 20 ≤ length s.now }
    ensures { result ≡ fields_of s.now n status }
{
    let destination = addresses::address_of(&s[0..SOURCE_AT]);
    let source = addresses::address_of(&s[SOURCE_AT..CONTROL_AT]);
    Frame::new(
        destination,
        source,
        s[CHANNEL_AT] / 8,
        MasterCount(s[MASTER_AT]),
        ChannelCount(s[COUNT_AT]),
        s[POINTER_AT],
        status % 4,
        n,
    )
}

// What a frame with a right header is: its fields, or the first of the refusals 13 to 15.
fn read_information(t: usize, s: &[u8]) -> Result<Frame, Reason>
    requires { Whole t s.now }
    ensures { told result ≡ read_information t s.now }
{
    if version_wrong(s[CHANNEL_AT]) {
        return Err(Reason::FrameVersion);
    }
    let status = s[s.len() - AROUND_TIME - t];
    if status_wrong(t, status) {
        return Err(Reason::FrameStatus);
    }
    let n = s.len() - Frame::LEAST - t;
    if pointer_wrong(s[POINTER_AT], n) {
        return Err(Reason::FramePointer);
    }
    Ok(frame_of(s, n, status))
}

// What a frame of a right length and check is: the first of the refusals 120 to 123, an address's with its octet in the frame; else as
// its information is.
pub(crate) fn read_header(t: usize, s: &[u8]) -> Result<Frame, Reason>
    requires { Whole t s.now }
    ensures { told result ≡ read_header t s.now }
{
    if let Some(to) = addresses::first_wrong(&s[0..SOURCE_AT], 0) {
        return Err(Reason::FrameDestination(to));
    }
    if let Some(from) = addresses::first_wrong(&s[SOURCE_AT..CONTROL_AT], 1) {
        return Err(Reason::FrameSource(SOURCE_AT as u8 + from));
    }
    if s[CONTROL_AT] != CONTROL {
        return Err(Reason::FrameControl);
    }
    if s[PROTOCOL_AT] != PROTOCOL {
        return Err(Reason::FrameProtocol);
    }
    read_information(t, s)
}
