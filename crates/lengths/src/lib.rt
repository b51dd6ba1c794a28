// Lengths lent beside octets that stand end to end.
#![tactic(auto)]

ghost use Rattle.std.specs.Prelude.{◌≡◌};
ghost use Rattle.lengths.specs.Lengths.{lengths_wrong};

// Whether they don't add up to n octets, however large their sum is.
pub fn wrong(lengths: &[u16], n: usize) -> bool
    ensures { result ≡ lengths_wrong lengths.now n }
{
    let mut left = n;
    for x in lengths {
        let length = usize::from(*x);
        if left < length {
            return true;
        }
        left -= length;
    }
    left != 0
}
