// What is printed of a case.
ghost use Rattle.std.specs.Prelude.{◌≤◌, length};

// Standard output's descriptor.
const STDOUT_FILENO: i32 = 1;

// Prints text.
pub fn say(s: &[u8]) {
    io::write_all(STDOUT_FILENO, s);
}

// Prints a name and a number.
pub fn field(name: &[u8], n: u64) {
    say(name);
    io::print_decimal(STDOUT_FILENO, n);
}

// Prints text, in it a number for each #.
pub fn tell(text: &[u8], numbers: &[u64]) {
    let mut left = numbers.iter();
    for c in text {
        if *c != b'#' {
            say(&[*c]);
        } else if let Some(n) = left.next() {
            io::print_decimal(STDOUT_FILENO, *n);
        }
    }
}

// Prints a name and a check, by four hexadecimal digits.
pub fn check(name: &[u8], n: u16) {
    say(name);
    io::print_hex(STDOUT_FILENO, u64::from(n), 4);
}

// Prints a name and octets, by two hexadecimal digits each, "(none)" for none.
pub fn hex(name: &[u8], s: &[u8]) {
    say(name);
    if s.is_empty() {
        say(b"(none)");
    }
    for x in s {
        io::print_hex(STDOUT_FILENO, u64::from(*x), 2);
    }
}

// How many octets there are up to the last that isn't x.
pub fn used(s: &[u8], x: u8) -> usize
    ensures { result ≤ length s.now }
{
    for i in (0..s.len()).rev() {
        if s[i] != x {
            return i + 1;
        }
    }
    0
}

// Prints a name, the octets up to the last that isn't x, and how many are left.
pub fn lent(name: &[u8], s: &[u8], x: u8) {
    let n = used(s, x);
    hex(name, octets::part(s, 0, n));
    field(b"+", (s.len() - n) as u64);
}

// Prints a name and each number of a list that isn't x, behind its place.
fn numbers<T: Copy + PartialEq + Into<u64>>(name: &[u8], s: &[T], x: T) {
    say(name);
    for (i, &n) in s.iter().enumerate() {
        if n != x {
            tell(b" #=#", &[i as u64, n.into()]);
        }
    }
}

// The same of 16-bit and of 32-bit numbers.
pub fn words(name: &[u8], s: &[u16], x: u16) {
    numbers(name, s, x);
}

pub fn fours(name: &[u8], s: &[u32], x: u32) {
    numbers(name, s, x);
}
