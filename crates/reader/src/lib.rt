// A reader of lent words that goes forward only: a thin struct of the words and the position due, lent by `&mut` to what reads on. The work is in
// `word_at` and `after`, over a plain slice and a number; `next` hands them what the reader holds.
#![tactic(auto)]

ghost use Rattle.std.specs.Prelude.{◌≡◌};
ghost use Rattle.reader.specs.Due.{due_at, after_at};

// The lent words, and the position due.
#[derive(Drop)]
pub struct Reader<'a> {
    pub words: &'a [u32],
    pub at: usize,
}

// What is due: a word and its position, or at the end the number of words.
pub type Due = Result<(u32, usize), usize>;

// What is due at a position of a slice.
#[tactic(auto, unfolding(crate::specs::Due::due_at))]
pub fn word_at(words: &[u32], at: usize) -> Due
    ensures { result ≡ due_at words.now at }
{
    if at < words.len() {
        Ok((words[at], at))
    } else {
        Err(words.len())
    }
}

// The position due after that: the next, or the same at the end.
#[tactic(auto, unfolding(crate::specs::Due::after_at))]
pub fn after(words: &[u32], at: usize) -> usize
    ensures { result ≡ after_at words.now at }
{
    if at < words.len() { at + 1 } else { at }
}

impl<'a> Reader<'a> {
    // A reader of the lent words that stands at a position.
    pub fn new(words: &'a [u32], at: usize) -> Reader<'a>
        ensures { (result.words ≡ words.entry) × (result.at ≡ at) }
    {
        Reader { words, at }
    }

    // What is due where the reader stands; and the reader goes one word on, or stays at the end.
    pub fn next(&mut self) -> Due
        ensures { (result ≡ due_at self.old.words.now self.old.at)
            × ((self.new.words ≡ self.old.words) × (self.new.at ≡ after_at self.old.words.now self.old.at)) }
    {
        let due = word_at(self.words, self.at);
        self.at = after(self.words, self.at);
        due
    }
}
