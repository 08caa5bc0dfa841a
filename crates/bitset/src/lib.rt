// Sets of numbers in the bits of words, 32 in each: number i is bit i % 32 of the word that stands i / 32 after a base.
#![tactic(auto)]

ghost use Rattle.std.specs.Prelude.{◌≡◌, ℕ, ◌+◌, ◌/◌, ◌≤◌, ◌<◌, length, get_or};
ghost use Rattle.bitset.specs.Members.{member, WithBit, Gains, Next};

// A word with bit b set.
fn with_bit(w: u32, b: u32) -> u32
    requires { b < 32 }
    ensures { WithBit w b result }
{
    w | (1 << b)
}

// Number i is put into the set at `base`.
pub fn put(words: &mut [u32], base: usize, i: usize)
    requires { base + i / 32 < length words.old }
    ensures { Gains base words.old words.new × (member words.new base i ≡ 1) }
{
    let at = base + i / 32;
    let w = lists::get(words, at);
    lists::put(words, at, with_bit(w, (i % 32) as u32));
}

// The numbers of the set at `from` among `rows`, words lo to hi - 1 of it, are put into the set at `base`.
pub fn merge(rows: &[u32], from: usize, lo: usize, hi: usize, words: &mut [u32], base: usize)
    requires { (from + hi ≤ length rows.now) × (base + hi ≤ length words.old) }
    ensures { Gains base words.old words.new
        × ((i : ℕ) → lo ≤ i / 32 → i / 32 < hi → member rows.now from i ≤ member words.new base i) }
{
    for w in lo..hi {
        let more = lists::get(rows, from + w);
        let had = lists::get(words, base + w);
        lists::put(words, base + w, had | more);
    }
}

// The set at `base` becomes empty, as far as n words tell of it.
pub fn clear(words: &mut [u32], base: usize, n: usize)
    requires { base + n ≤ length words.old }
    ensures { ((i : ℕ) → i < base → get_or words.new i 0 ≡ get_or words.old i 0)
        × ((i : ℕ) → i / 32 < n → member words.new base i ≡ 0) }
{
    words[base..base + n].fill(0);
}

// The least number of the set at `base` from `start` on, or some number from `end` on where there is none below it.
pub fn next(words: &[u32], base: usize, start: usize, end: usize) -> usize
    requires { (end ≤ 1024) × (base + 32 ≤ length words.now) }
    ensures { Next words.now base start end result }
{
    // by hand: it leaps from word to word, and there is no heap for a set of the library's
    let mut i = start;
    while i < end {
        let rest = lists::get(words, base + i / 32) >> (i % 32) as u32;
        if rest != 0 {
            return i + u32::trailing_zeros(rest) as usize;
        }
        i = (i / 32 + 1) * 32;
    }
    i
}
