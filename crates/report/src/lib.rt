// What cardgrade prints for the bytes that it reads, put into a buffer. specs/Report.antt says what that is.
#![tactic(auto)]

ghost use Rattle.std.specs.Prelude.{◌≡◌, ◌∷◌, [], ◌+◌, ◌*◌, ◌-◌, ◌/◌, ◌%◌, ◌<◌, ◌≤◌, length, get_or};
ghost use Rattle.answers.specs.Limits.{max_words, max_faults};
ghost use Rattle.lists.specs.Tables.{front};
ghost use Rattle.word32.specs.Bytes.{words_of};
ghost use Rattle.cardtables.specs.Stems.{total};
ghost use Rattle.testvectors.specs.Lists.{list_words};
ghost use Rattle.detect.specs.Grading.{mark, tally, marked};
ghost use Rattle.grade.specs.Graded.{CardWithList};
ghost use Rattle.textlines.specs.Text.{max_text, grading_text};
ghost use Rattle.textlines.specs.Puts.{Grew};
ghost use Rattle.report.specs.Report.{max_input, word_count, graded_text, text_of, bytes_wanted};

use answers::{Counts, Lent, MAX_FAULTS, MAX_WORDS, Refusal, Rule};
use testvectors::VectorList;
use textlines::Text;

// The most vector words that are taken, the most bytes after a card that can decide, and the most bytes in all; specs/Report.antt has the same.
const MAX_VECTOR_WORDS: usize = 16384;

const MAX_VECTOR_BYTES: usize = 4 * (MAX_VECTOR_WORDS + 1);

pub const MAX_INPUT: usize = 4 + 4 * MAX_WORDS + MAX_VECTOR_BYTES;

// The text for an accepted card and a list of vectors.
fn report_accepted(card: &[u32], c: Counts, list: VectorList<'_>, text: &mut Text<'_>)
    requires { CardWithList card.now c (list_words list) × (text.old.at + max_text ≤ length text.old.out.now) }
    ensures { Grew text.old (grading_text c (mark card.now c (list_words list.entry))
        (tally card.now c (list_words list.entry)) (marked card.now c (list_words list.entry))
        (total card.now c)) text.new }
{
    let mut marks = lists::filled::<MAX_FAULTS>(0);
    let mut tallies = lists::filled::<MAX_FAULTS>(0);
    let tables = cardtables::make_tables(card, c);
    let marked = grade::grade_list(card, c, &tables, list, &mut marks, &mut tallies);
    let total = cardtables::total(c, &tables);
    text.put_grading(c, &marks, &tallies, marked, total);
}

// The text for a card and the bytes of vector words.
fn report_words(card: &[u32], vectors: &[u8], text: &mut Text<'_>)
    requires { (length vectors.now % 4 ≡ 0) × (text.old.at + max_text ≤ length text.old.out.now) }
    ensures { Grew text.old (graded_text card.now (words_of vectors.now)) text.new }
{
    let list = VectorList::Bytes(vectors);
    match opening::open_list(Lent::whole(card), list) {
        Err(Refusal(rule, position)) => text.put_refused(u32::from(rule), position),
        Ok(c) => report_accepted(card, c, list, text),
    }
}

// The text for the bytes of a card and of vector words.
fn report_parts(card: &[u8], vectors: &[u8], text: &mut Text<'_>)
    requires { (length card.now / 4 ≤ max_words) × (length vectors.now % 4 ≡ 0) × (text.old.at + max_text ≤ length text.old.out.now) }
    ensures { Grew text.old (graded_text (words_of card.now) (words_of vectors.now)) text.new }
{
    let mut card_words = lists::filled::<MAX_WORDS>(0);
    let n = word32::words_of(card, &mut card_words);
    report_words(&card_words[..n], vectors, text);
}

// The text for all the bytes read, given their word count.
fn report_counted(input: &[u8], n: usize, text: &mut Text<'_>)
    requires { (4 ≤ length input.now) × (n ≡ word_count input.now) × (text.old.at + max_text ≤ length text.old.out.now) }
    ensures { Grew text.old (text_of input.now) text.new }
{
    if MAX_WORDS < n {
        return text.put_refused(u32::from(Rule::CardTooLong), 0);
    }
    let start = 4 + 4 * n;
    if input.len() < start {
        return text.put(b"short\n");
    }
    let rest = input.len() - start;
    if MAX_VECTOR_WORDS < rest / 4 {
        return text.put(b"long\n");
    }
    if rest % 4 != 0 {
        return text.put(b"short\n");
    }
    report_parts(&input[4..start], &input[start..], text);
}

// The text for the bytes read stands in the front of the buffer, whose other bytes stay; the result is its length.
pub fn report(input: &[u8], out: &mut [u8]) -> usize
    requires { max_text ≤ length out.old }
    ensures { (result ≡ length (text_of input.now)) × (out.new ≡ front (text_of input.now) out.old)
        × (result ≤ length out.new) }
{
    let mut text = Text { out, at: 0 };
    if input.len() < 4 {
        text.put(b"short\n");
    } else {
        report_counted(input, word32::word_at(input, 0) as usize, &mut text);
    }
    text.at
}

// How many bytes decide, given the first four or, where there are fewer, all.
pub fn wanted(input: &[u8]) -> usize
    ensures { (result ≡ bytes_wanted input.now) × (4 ≤ result) × (result ≤ max_input) }
{
    if input.len() < 4 {
        return 4;
    }
    let n = word32::word_at(input, 0) as usize;
    if MAX_WORDS < n {
        return 4;
    }
    4 + 4 * n + MAX_VECTOR_BYTES
}
