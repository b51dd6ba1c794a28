// Numbers as decimal text, put into lent octets and read from them.
#![tactic(auto)]

ghost use Rattle.std.specs.Prelude.{◌≡◌, [], ◌∷◌, ◌++◌, ◌+◌, ◌*◌, ◌≤◌, length};
ghost use Rattle.octets.specs.Parts.{overlay};
ghost use Rattle.decimal.specs.Text.{longest_number, decimal, each};
ghost use Rattle.decimal.specs.Laid.{Laid, Puts};
ghost use Rattle.decimal.specs.Read.{read_at};

// The most octets that a number takes with the character behind it.
pub const NUMBER: usize = 11;

// The largest number that is read.
pub const LARGEST: u64 = 4294967295;

// Puts n's decimal digits and the character after them into out from index at on, and answers the index behind them.
// With less than NUMBER octets there out stays, and the answer is at.
pub fn number(out: &mut [u8], at: usize, n: u32, after: u8) -> usize
    ensures { Puts longest_number (decimal n ++ (after ∷ [])) out.old at out.new result }
{
    if out.len() < at {
        return at;
    }
    if out.len() - at < NUMBER {
        return at;
    }
    lay(out, at, n, after)
}

// Puts each number of a list and the octet after behind it into out from index at on, and answers the index behind them.
// With less than NUMBER octets for each out stays, and the answer is at.
pub fn numbers(out: &mut [u8], at: usize, list: &[u32], after: u8) -> usize
    ensures { Puts (longest_number * length list.now) (each after list.now []) out.old at
        out.new result }
{
    if out.len() < at {
        return at;
    }
    if (out.len() - at) / NUMBER < list.len() {
        return at;
    }
    let mut next = at;
    for n in list {
        next = lay(out, next, *n, after);
    }
    next
}

// Reads the number that stands at index at of text and is ended by the octet after.
// The answer is the number and the index behind the octet that ends it; none if there is no digit, a leading zero, a number above LARGEST,
// or another octet behind the digits.
pub fn read(text: &[u8], at: usize, after: u8) -> Option<(u32, usize)>
    ensures { result ≡ read_at text.now at after }
{
    let mut n: u64 = 0;
    for end in at..text.len() {
        let c = text[end];
        if (c < b'0') | (b'9' < c) {
            let digits = end - at;
            if (digits == 0) | ((text[at] == b'0') & (1 < digits)) | (c != after) {
                return None;
            }
            return Some((n as u32, end + 1));
        }
        n = n * 10 + u64::from(c - b'0');
        if LARGEST < n {
            return None;
        }
    }
    None
}

// The same as `number`, where there is room.
fn lay(out: &mut [u8], at: usize, n: u32, after: u8) -> usize
    requires { at + longest_number ≤ length out.old }
    ensures { Laid longest_number (decimal n ++ (after ∷ [])) out.old at out.new result }
{
    let k = places(n);
    digits(out, at, n, k);
    let end = at + k;
    out[end] = after;
    end + 1
}

// How many decimal digits n has.
fn places(n: u32) -> usize
    ensures value { result ≡ length (decimal n) }
    ensures upper_bound { result ≤ 10 }
{
    let mut bound: u64 = 10;
    for k in 1..10 {
        if u64::from(n) < bound {
            return k;
        }
        bound *= 10;
    }
    10
}

// Puts n's k decimal digits into out from index at on, the last first.
fn digits(out: &mut [u8], at: usize, n: u32, k: usize)
    requires k_value { k ≡ length (decimal n) }
    requires k_in_bounds { at + k ≤ length out.old }
    ensures { out.new ≡ overlay out.old at (decimal n) }
{
    let mut rest = n;
    for i in (0..k).rev() {
        out[at + i] = b'0' + (rest % 10) as u8;
        rest /= 10;
    }
}
