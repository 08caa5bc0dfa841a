// What cardgrade prints, written on line by line into a buffer. specs/Text.antt says what the lines are.
#![tactic(auto)]

ghost use Rattle.std.specs.Prelude.{◌∷◌, [], ◌≡◌, ◌+◌, ◌*◌, ◌-◌, ◌<◌, ◌≤◌, length, get_or, MatchOption};
ghost use Rattle.answers.specs.Limits.{max_faults};
ghost use Rattle.textlines.specs.Text.{max_text, decimal, field, mark_field, count_fields, card_line, fault_line, fault_lines, line, grading_text, refused_line};
ghost use Rattle.textlines.specs.Puts.{Grew};

use answers::{Counts, FIRST_MARK, MAX_FAULTS, UNMARKED};
use itoa::Buffer;

// The length of the longest text; specs/Text.antt has the same.
pub const MAX_TEXT: usize = 28 * MAX_FAULTS + 160;

// A text that grows in a buffer, and where it goes on.
#[derive(Drop)]
pub struct Text<'a> {
    pub out: &'a mut [u8],
    pub at: usize,
}

#[tactic(auto, using(crate::proofs::Digits::few_5, crate::proofs::Digits::few_10, crate::proofs::Digits::few_20))]
impl<'a> Text<'a> {
    // Bytes go to the end of the text.
    pub fn put(&mut self, bytes: &[u8])
        requires { self.old.at + length bytes.now ≤ length self.old.out.now }
        ensures { Grew self.old bytes.now self.new }
    {
        let end = self.at + bytes.len();
        self.out[self.at..end].copy_from_slice(bytes);
        self.at = end;
    }

    // The digits of a number, the highest first.
    fn put_decimal(&mut self, n: usize)
        requires { self.old.at + length (decimal n) ≤ length self.old.out.now }
        ensures { Grew self.old (decimal n) self.new }
    {
        self.put(Buffer::new().format(n).as_bytes());
    }

    // A space and a number.
    fn put_field(&mut self, n: usize)
        requires { self.old.at + length (field n) ≤ length self.old.out.now }
        ensures { Grew self.old (field n) self.new }
    {
        self.put(b" ");
        self.put_decimal(n);
    }

    // A space and the first vector that a mark tells, or `-`.
    fn put_mark(&mut self, mark: u32)
        requires { self.old.at + 11 ≤ length self.old.out.now }
        ensures { Grew self.old (mark_field mark) self.new × (self.new.at ≤ self.old.at + 11) }
    {
        match first_vector(mark) {
            None => self.put(b" -"),
            Some(t) => self.put_field(t),
        }
    }

    // The line of one fault, in 28 bytes at most.
    fn put_fault(&mut self, f: usize, mark: u32, tally: u32)
        requires { (self.old.at + 28 ≤ length self.old.out.now) × (f < max_faults) }
        ensures { Grew self.old (fault_line f mark tally) self.new × (self.new.at ≤ self.old.at + 28) }
    {
        self.put_decimal(f);
        self.put_mark(mark);
        self.put_field(tally as usize);
        self.put(b"\n");
    }

    // The lines of the first n faults.
    fn put_faults(&mut self, n: usize, marks: &[u32], tallies: &[u32])
        requires { (self.old.at + 28 * n ≤ length self.old.out.now) × (n ≤ max_faults) × (n ≤ length marks.now) × (n ≤ length tallies.now) }
        ensures { Grew self.old (fault_lines (λ f. get_or marks.now f 0) (λ f. get_or tallies.now f 0) n) self.new
            × (self.new.at ≤ self.old.at + 28 * n) }
    {
        for f in 0..n {
            self.put_fault(f, lists::get(marks, f), lists::get(tallies, f));
        }
    }

    // The numbers of a card, each of 21 bytes at most with its space.
    fn put_counts(&mut self, c: Counts)
        requires { self.old.at + 84 ≤ length self.old.out.now }
        ensures { Grew self.old (count_fields c) self.new × (self.new.at ≤ self.old.at + 84) }
    {
        self.put_field(c.inputs);
        self.put_field(c.graphs);
        self.put_field(c.nodes);
        self.put_field(c.faults);
    }

    // The line of a card.
    fn put_card(&mut self, c: Counts)
        requires { self.old.at + 100 ≤ length self.old.out.now }
        ensures { Grew self.old (card_line c) self.new × (self.new.at ≤ self.old.at + 100) }
    {
        self.put(b"card");
        self.put_counts(c);
        self.put(b"\n");
    }

    // A line of a word and two numbers.
    pub fn put_line(&mut self, word: &[u8], x: usize, y: usize)
        requires { self.old.at + length word.now + 43 ≤ length self.old.out.now }
        ensures { Grew self.old (line word.now x y) self.new }
    {
        self.put(word);
        self.put_field(x);
        self.put_field(y);
        self.put(b"\n");
    }

    // The line of a refusal.
    pub fn put_refused(&mut self, number: u32, position: usize)
        requires { self.old.at + 60 ≤ length self.old.out.now }
        ensures { Grew self.old (refused_line number position) self.new }
    {
        self.put_line(b"refused", number as usize, position);
    }

    // The whole text of a grading. 286,880 bytes hold any: 100 for the card's line, 28 for each of 10,240 faults, 60 for the grade's.
    pub fn put_grading(
        &mut self,
        c: Counts,
        marks: &[u32],
        tallies: &[u32],
        marked: usize,
        total: usize,
    )
        requires { (self.old.at + max_text ≤ length self.old.out.now) × (c.faults ≤ max_faults) × (c.faults ≤ length marks.now) × (c.faults ≤ length tallies.now) }
        ensures { Grew self.old (grading_text c (λ f. get_or marks.now f 0) (λ f. get_or tallies.now f 0) marked total) self.new }
    {
        self.put_card(c);
        self.put_faults(c.faults, marks, tallies);
        self.put_line(b"grade", marked, total);
    }
}

// The first vector that catches a fault, which its mark tells, or none. A mark that is neither UNMARKED nor FIRST_MARK or more tells 0.
fn first_vector(mark: u32) -> Option<usize>
    ensures { MatchOption result (mark ≡ UNMARKED) (λ t. ¬ (mark ≡ UNMARKED) × (t ≡ mark - FIRST_MARK) × (t < 4294967296)) }
{
    if mark == UNMARKED {
        return None;
    }
    Some(mark.saturating_sub(FIRST_MARK) as usize)
}
