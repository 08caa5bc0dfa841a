// Lists and numbers with no card in them. The definitions are in specs/, the laws that the crates above cite in proofs/.
#![tactic(auto)]

ghost use Rattle.std.specs.Prelude.{◌≡◌, ℕ, ◌≤◌, ◌<◌, length, get_or, set};
ghost use Rattle.lists.specs.Tables.{over, always};

// Room for N words, each of them v.
pub fn filled<const N: usize>(v: u32) -> [u32; N]
    ensures { (N ≡ length result) × ((i : ℕ) → i < N → get_or result i 0 ≡ v) }
{
    [v; N]
}

// The first n words of a buffer become v; the others stay.
pub fn fill(buffer: &mut [u32], n: usize, v: u32)
    requires { n ≤ length buffer.old }
    ensures { buffer.new ≡ over n (always v) buffer.old }
{
    buffer[..n].fill(v);
}

// The word at a place of a slice, and a store there: one need each where an index would leave several.
pub fn get(words: &[u32], i: usize) -> u32
    requires { i < length words.now }
    ensures { result ≡ get_or words.now i 0 }
{
    words[i]
}

pub fn put(words: &mut [u32], i: usize, v: u32)
    requires { i < length words.old }
    ensures { words.new ≡ set words.old i v }
{
    words[i] = v;
}
