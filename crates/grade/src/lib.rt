// The grading of a list of vectors, marks and tallies in one, by a running result. The list is given by words or in bytes, and read a block at a time.
#![tactic(auto)]

ghost use Rattle.std.specs.Prelude.{◌≡◌, ◌≤◌, min, length};
ghost use Rattle.answers.specs.Limits.{max_faults};
ghost use Rattle.answers.specs.Tests.{first_broken};
ghost use Rattle.answers.specs.Calls.{lends, whole, ByWordsBoth};
ghost use Rattle.answers.specs.Ends.{ending, EndsBoth};
ghost use Rattle.testvectors.specs.Lists.{list_words, lent_list};
ghost use Rattle.cardtables.specs.Stems.{in_grade};
ghost use Rattle.cardtables.specs.Tables.{Tabled};
ghost use Rattle.running.specs.Running.{Counted};
ghost use Rattle.grade.specs.Graded.{CardWithList, Graded, GradedList};
ghost use Rattle.grade.specs.Calls.{grade_tests, grade_outcome};

use answers::{Counts, Done, Lent, MAX_WIDTH, Refusal};
use block::BLOCK;
use cardtables::Tables;
use running::Running;
use testvectors::VectorList;

// The words of any block.
const BLOCK_WORDS: usize = BLOCK * MAX_WIDTH;

// Takes in a whole list, block by block, from a result that has taken in none.
fn take_list(
    start: Running,
    card: &[u32],
    c: Counts,
    tables: &Tables,
    list: VectorList<'_>,
    marks: &mut [u32],
    tallies: &mut [u32],
) -> usize
    requires { CardWithList card.now c (list_words list) × Tabled card.now c tables.now × (start.vector ≡ 0)
        × Counted (in_grade card.now c) c.faults marks.old tallies.old start
        × Graded card.now c (list_words list) 0 marks.old tallies.old marks.old tallies.old }
    ensures { GradedList card.now c (list_words list.entry) result marks.old tallies.old
        marks.new tallies.new }
{
    let mut buffer = lists::filled::<BLOCK_WORDS>(0);
    let w = testvectors::width(c.inputs);
    let n = list.length() / w;
    let mut r = start;
    for t in (0..n).step_by(BLOCK) {
        let end = block::block_end(t, n);
        let first = t * w;
        let held = end * w - first;
        list.part(first, held, &mut buffer);
        r = block::take_block(r, card, c, tables, &buffer[..held], marks, tallies);
    }
    r.marked
}

// Grades an accepted card, whose tables are made, by a list of vectors: the words of the faults, and how many of those that count are marked.
pub fn grade_list(
    card: &[u32],
    c: Counts,
    tables: &Tables,
    list: VectorList<'_>,
    marks: &mut [u32],
    tallies: &mut [u32],
) -> usize
    requires { CardWithList card.now c (list_words list) × Tabled card.now c tables.now
        × (c.faults ≤ length marks.old) × (c.faults ≤ length tallies.old) }
    ensures { GradedList card.now c (list_words list.entry) result marks.old tallies.old
        marks.new tallies.new }
{
    let start = block::begin(c, marks, tallies);
    take_list(start, card, c, tables, list, marks, tallies)
}

// The tests of a grading after the form of its list, for buffers of so many words: room for the marks, and then for the tallies.
#[tactic(auto, unfolding(crate::specs::Calls::grade_tests, answers::specs::Tests::room_tests))]
fn test_grade(c: Counts, marks: usize, tallies: usize) -> Result<(), Refusal>
    ensures { result ≡ first_broken (grade_tests marks tallies c) }
{
    answers::test_rooms(c.faults, marks, tallies)
}

// The grading of a card, whose words are followed by so many bytes that make no word, by a list, for buffers of `room` and `more` words. No card has
// more than 10,240 faults, so that the buffers themselves need be no longer.
pub fn grade_with(
    card: Lent<'_>,
    list: VectorList<'_>,
    room: usize,
    more: usize,
    marks: &mut [u32],
    tallies: &mut [u32],
) -> Result<Done, Refusal>
    requires { (min room max_faults ≤ length marks.old) × (min more max_faults ≤ length tallies.old) }
    ensures { EndsBoth (grade_outcome (lends card.entry) (lent_list list.entry) room more) room more (ending result)
        marks.old tallies.old marks.new tallies.new }
{
    let c = opening::open_list(card, list)?;
    test_grade(c, room, more)?;
    let tables = cardtables::make_tables(card.words, c);
    let marked = grade_list(card.words, c, &tables, list, marks, tallies);
    Ok(Done {
        number: marked,
        words: c.faults,
        more: c.faults,
    })
}

// The grading: for each fault its mark, C0000000 if no vector catches it, else E0000000 plus the number of the earliest that does; its tally, the number of
// vectors that catch it; and the marked count, of the faults that count in the grade.
pub fn grade(
    card: &[u32],
    vectors: &[u32],
    marks: &mut [u32],
    tallies: &mut [u32],
) -> Result<usize, Refusal>
    ensures { ByWordsBoth (grade_outcome (whole card.now) (whole vectors.now))
        result marks.old tallies.old marks.new tallies.new }
{
    let (card, list) = (Lent::whole(card), VectorList::Words(vectors));
    let (room, more) = (marks.len(), tallies.len());
    grade_with(card, list, room, more, marks, tallies).map(|done| done.number)
}
