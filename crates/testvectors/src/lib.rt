// The form of vectors: how many words, the bit of an input, refusal 10 of one vector and of a list, and one vector of a list. A list is lent by words or
// in bytes, and read in place: where it has bytes, its words are those that they hold.
#![tactic(auto)]

ghost use Rattle.std.specs.Prelude.{◌≡◌, ◌+◌, ◌*◌, ◌<◌, ◌≤◌, length, get_or};
ghost use Rattle.lists.specs.Tables.{over};
ghost use Rattle.answers.specs.Limits.{max_graphs};
ghost use Rattle.answers.specs.Tests.{first_broken};
ghost use Rattle.answers.specs.Calls.{lends};
ghost use Rattle.testvectors.specs.Vectors.{width, bit, carried, word_verdict, words_verdict, vector_verdict, list_tests, list_verdict, vectors, vector, lent_form};
ghost use Rattle.testvectors.specs.Lists.{list_words, lent_list};
ghost use Rattle.testvectors.specs.Parts.{HasBit};

use answers::{Lent, MAX_VECTORS, Refusal, Rule};
use word32::WordKind;

// The words of a vector for m inputs.
pub fn width(m: usize) -> usize
    requires { m ≤ max_graphs }
    ensures { result ≡ width m }
{
    (m + 15) / 16
}

// The value of input i.
pub fn bit(vector: &[u32], i: usize) -> u32
    requires { HasBit vector.now i }
    ensures { result ≡ bit vector.now i }
{
    let w = vector[i / 16];
    word32::bit(w, (i % 16) as u32)
}

// How many inputs word j of a vector carries.
#[tactic(auto, unfolding(crate::specs::Vectors::carried))]
fn carried(m: usize, j: usize) -> u32
    requires { (m ≤ max_graphs) × (16 * j < m) }
    ensures { (result ≡ carried m j) × (result ≤ 16) }
{
    (m - 16 * j).min(16) as u32
}

// A word at p, which is word j of its vector.
fn check_word(m: usize, j: usize, p: usize, w: u32) -> Result<(), Refusal>
    requires { (m ≤ max_graphs) × (16 * j < m) }
    ensures { result ≡ word_verdict m j p w }
{
    let spare = word32::input_spare(w) >> carried(m, j);
    if !word32::is_kind(w, WordKind::Vector) {
        return Err(Refusal(Rule::VectorForm, p));
    }
    if spare != 0 {
        return Err(Refusal(Rule::VectorForm, p));
    }
    Ok(())
}

// A list of vectors as it is lent, which is read in place: its words, or the bytes that hold them, highest byte first.
#[derive(Clone, Copy)]
pub enum VectorList<'a> {
    Words(&'a [u32]),
    Bytes(&'a [u8]),
}

impl<'a> VectorList<'a> {
    // How many words it has.
    pub fn length(self) -> usize
        ensures { result ≡ length (list_words self.entry) }
    {
        match self {
            VectorList::Words(words) => words.len(),
            VectorList::Bytes(bytes) => bytes.len() / 4,
        }
    }

    // How many bytes follow them that make no word.
    fn extra(self) -> usize
        ensures { result ≡ (lent_list self.entry).extra }
    {
        match self {
            VectorList::Words(_) => 0,
            VectorList::Bytes(bytes) => bytes.len() % 4,
        }
    }

    // Its word p.
    fn word(self, p: usize) -> u32
        requires { p < length (list_words self) }
        ensures { result ≡ get_or (list_words self.entry) p 0 }
    {
        match self {
            VectorList::Words(words) => words[p],
            VectorList::Bytes(bytes) => word32::word_at(bytes, p),
        }
    }

    // Its n words from `start` on go to the front of a buffer.
    pub fn part(self, start: usize, n: usize, out: &mut [u32])
        requires { (start + n ≤ length (list_words self)) × (start + n < 4294967296) × (n ≤ length out.old) }
        ensures { out.new ≡ over n (λ i. get_or (list_words self.entry) (start + i) 0) out.old }
    {
        for i in 0..n {
            out[i] = self.word(start + i);
        }
    }
}

// All words of a list, of which each width of them are a vector.
fn check_words(m: usize, list: VectorList<'_>) -> Result<(), Refusal>
    requires { (0 < m) × (m ≤ max_graphs) }
    ensures { result ≡ words_verdict m (list_words list.entry) (length (list_words list.entry)) 0 }
{
    let w = width(m);
    let n = list.length();
    for p in 0..n {
        check_word(m, p % w, p, list.word(p))?;
    }
    Ok(())
}

// One vector for m inputs, whose words are followed by so many bytes that make no word.
pub fn check_vector(m: usize, vector: Lent<'_>) -> Result<(), Refusal>
    requires { (0 < m) × (m ≤ max_graphs) }
    ensures { result ≡ lent_form vector_verdict m (lends vector.entry) }
{
    if 0 < vector.extra {
        return Err(Refusal(Rule::VectorForm, 0));
    }
    if vector.words.len() != width(m) {
        return Err(Refusal(Rule::VectorForm, 0));
    }
    check_words(m, VectorList::Words(vector.words))
}

// How many words a list of vectors for m inputs may have: whole vectors, and not too many.
fn test_list(m: usize, n: usize) -> Result<(), Refusal>
    requires { (0 < m) × (m ≤ max_graphs) }
    ensures { result ≡ first_broken (list_tests m n) }
{
    let w = width(m);
    if n % w != 0 {
        return Err(Refusal(Rule::VectorForm, 0));
    }
    if MAX_VECTORS < n / w {
        return Err(Refusal(Rule::VectorForm, 0));
    }
    Ok(())
}

// A list of vectors for m inputs.
pub fn check_list(m: usize, list: VectorList<'_>) -> Result<(), Refusal>
    requires { (0 < m) × (m ≤ max_graphs) }
    ensures { result ≡ lent_form list_verdict m (lent_list list.entry) }
{
    if 0 < list.extra() {
        return Err(Refusal(Rule::VectorForm, 0));
    }
    test_list(m, list.length())?;
    check_words(m, list)
}

// How many vectors a list has.
pub fn count_vectors(m: usize, list: &[u32]) -> usize
    requires { (0 < m) × (m ≤ max_graphs) }
    ensures { result ≡ vectors m list.now }
{
    list.len() / width(m)
}

// The words of vector t of a list, as a part of it.
pub fn vector_at(m: usize, list: &[u32], t: usize) -> &[u32]
    requires { (m ≤ max_graphs) × ((t + 1) * width m ≤ length list.now) }
    ensures { result.now ≡ vector m list.now t }
{
    let w = width(m);
    let start = t * w;
    &list[start..start + w]
}
