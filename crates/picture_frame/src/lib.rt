// The packets of an accepted frame placed in an image. What is refused is counted by its number, and the images are noted of which lines
// came that are not the wanted one's.
#![tactic(auto)]

ghost use Rattle.std.specs.Prelude.{◌≡◌, take};
ghost use Rattle.picture_frame.specs.Received.{received, image_in, leaving, all_placed, packets_in};

use answer::Reason;
use report::{Content, Report};
use session::Accepted;

// The number of the image of which a packet brings a line; 0 of any other packet.
fn image_in(packet: &[u8]) -> u16
    ensures { result ≡ image_in packet.now }
{
    let Ok(report) = Report::read(packet) else {
        return 0;
    };
    let Content::Line(line) = report.content else {
        return 0;
    };
    line.image
}

// Places a packet, or counts its refusal, and notes which image a line is of that is not the wanted one's.
fn place(
    packet: &[u8],
    arrival: u32,
    wanted: u16,
    pixels: &mut [u8],
    lines: &mut [u32],
    refused: &mut [u64],
    images: &mut [u32],
)
    ensures { received pixels.new lines.new refused.new images.new
        ≡ leaving packet.now arrival wanted
        (received pixels.old lines.old refused.old images.old) }
{
    let Err(reason) = image::place(packet, arrival, wanted, pixels, lines) else {
        return;
    };
    telling::count(refused, reason.number());
    if let Reason::ImageOther = reason {
        picture_images::note(images, image_in(packet));
    }
}

// Places the packets of an accepted frame, which stand end to end at the start of octets, by their lengths.
pub fn place_all(
    octets: &[u8],
    lengths: &[u16],
    accepted: Accepted,
    wanted: u16,
    pixels: &mut [u8],
    lines: &mut [u32],
    refused: &mut [u64],
    images: &mut [u32],
)
    ensures { received pixels.new lines.new refused.new images.new
        ≡ all_placed accepted.arrival wanted
        (received pixels.old lines.old refused.old images.old)
        (packets_in octets.now 0 (take accepted.packets lengths.now)) }
{
    let mut from = 0;
    let listed = &lengths[..lengths.len().min(usize::from(accepted.packets))];
    for &n in listed {
        let size = usize::from(n);
        let packet = octets::part(octets, from, size);
        place(
            packet,
            accepted.arrival,
            wanted,
            pixels,
            lines,
            refused,
            images,
        );
        from += size;
    }
}
