// The names of a layout's entries: which one stands there twice, and how many lines stand before it. Nothing asks anything of a caller.
#![tactic(auto)]

ghost use Rattle.std.specs.Prelude.{◌≡◌, ◌-◌};
ghost use Rattle.octets.specs.Numbers.{at};
ghost use Rattle.octets.specs.Parts.{part};
ghost use Rattle.layout_names.specs.Names.{names_of, same_name, earlier, first_within, first_repeated, newlines};

// The first entry, if any, whose name an entry of its layout before it has, of n layouts: layout i has the entries from starts[i] up to
// starts[i + 1], and the name of entry j is the octets froms[j] up to tos[j] of the text.
pub fn repeated(
    text: &[u8],
    starts: &[usize],
    n: usize,
    froms: &[usize],
    tos: &[usize],
) -> Option<usize>
    ensures { result ≡ first_repeated (names_of text.now froms.now tos.now) starts.now n }
{
    for i in 0..n {
        let from = element(starts, i);
        let to = element(starts, i + 1);
        if let Some(k) = within(text, froms, tos, from, to) {
            return Some(k);
        }
    }
    None
}

// How many lines end in octets.
pub fn lines(octets: &[u8]) -> usize
    ensures { result ≡ newlines octets.now }
{
    octets.iter().filter(|&&octet| octet == b'\n').count()
}

// The first of the entries from index from up to index to whose name one of them before it has.
fn within(text: &[u8], froms: &[usize], tos: &[usize], from: usize, to: usize) -> Option<usize>
    ensures { result ≡ first_within (names_of text.now froms.now tos.now) from to }
{
    (from..to).find(|&k| earlier(text, froms, tos, from, k))
}

// Whether an entry from index from on, before entry k, has its name.
fn earlier(text: &[u8], froms: &[usize], tos: &[usize], from: usize, k: usize) -> bool
    ensures { result ≡ earlier (names_of text.now froms.now tos.now) from k }
{
    (from..k).any(|j| same_name(text, froms, tos, j, k))
}

// Whether two entries have the same name, which has octets.
fn same_name(text: &[u8], froms: &[usize], tos: &[usize], j: usize, k: usize) -> bool
    ensures { result ≡ same_name (names_of text.now froms.now tos.now) j k }
{
    let one = name(text, element(froms, j), element(tos, j));
    let other = name(text, element(froms, k), element(tos, k));
    (other.len() != 0) & octets::same(one, other)
}

// The octets of a text from an index up to another; none if it has not all of them.
fn name(text: &[u8], from: usize, to: usize) -> &[u8]
    ensures { result.now ≡ part text.now from (to - from) }
{
    octets::part(text, from, to.saturating_sub(from))
}

// The element at an index; 0 past the end.
fn element(list: &[usize], i: usize) -> usize
    ensures { result ≡ at list.now i }
{
    list.get(i).copied().unwrap_or(0)
}
