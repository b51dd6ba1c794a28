// A case's record: numbers of four octets, high octet first, then octets; src/places.rt has the fields' places.
ghost use Rattle.std.specs.Prelude.{◌≡◌, ◌≤◌, length};

// The number at a field's place; 0 if it isn't there.
pub fn four(c: &[u8], field: u8) -> u32 {
    match octets::part(c, usize::from(field) * 4, 4) {
        [w, x, y, z] => octets::four(*w, *x, *y, *z),
        _ => 0,
    }
}

// The same in 8, 16 and 64 bits, of which the last takes two places.
pub fn octet(c: &[u8], field: u8) -> u8 {
    (four(c, field) % 256) as u8
}

pub fn word(c: &[u8], field: u8) -> u16 {
    (four(c, field) % 65536) as u16
}

pub fn eight(c: &[u8], field: u8) -> u64 {
    let low = four(c, field.wrapping_add(1));
    u64::from(four(c, field)) * 4294967296 + u64::from(low)
}

// The octets whose place and number stand at a field's place; none if they aren't there.
pub fn block(c: &[u8], field: u8) -> &[u8] {
    let n = four(c, field.wrapping_add(1));
    octets::part(c, four(c, field) as usize, n as usize)
}

// The number at a field's place as a length, at most most.
pub fn room(c: &[u8], field: u8, most: usize) -> usize
    ensures { result ≤ most }
{
    let n = four(c, field) as usize;
    n.min(most)
}

// The first 65 numbers of 16 bits, each four octets of s; 0 where there are none.
pub fn words(s: &[u8]) -> [u16; 65]
    ensures { 65 ≡ length result }
{
    let mut list = [0u16; 65];
    for (n, four) in list.iter_mut().zip(s.chunks(4)) {
        *n = word(four, 0);
    }
    list
}
