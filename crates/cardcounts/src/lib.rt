// The check of a card with its numbers in a buffer, as a host has it.
#![tactic(auto)]

ghost use Rattle.std.specs.Prelude.{◌≡◌, ◌≤◌, min, length};
ghost use Rattle.lists.specs.Tables.{front};
ghost use Rattle.answers.specs.Limits.{max_faults};
ghost use Rattle.answers.specs.Answers.{values_of};
ghost use Rattle.answers.specs.Calls.{lends};
ghost use Rattle.answers.specs.Ends.{ending, EndsAs};
ghost use Rattle.cardcounts.specs.Calls.{check_outcome};

use answers::{Counts, Done, Lent, Refusal};

// The numbers of a check go to the front of a buffer, as words.
fn put_counts(c: Counts, numbers: &mut [u32])
    requires { (c.inputs ≤ max_faults) × (c.graphs ≤ max_faults) × (c.nodes ≤ max_faults) × (c.observable ≤ max_faults) × (c.faults ≤ max_faults) × (5 ≤ length numbers.old) }
    ensures { numbers.new ≡ front (values_of c) numbers.old }
{
    numbers[..5].copy_from_slice(&[
        c.inputs as u32,
        c.graphs as u32,
        c.nodes as u32,
        c.observable as u32,
        c.faults as u32,
    ]);
}

// The check of a card, with its numbers at the front of a buffer, for one of `room` words.
pub fn check_counts(card: Lent<'_>, room: usize, numbers: &mut [u32]) -> Result<Done, Refusal>
    requires { min room 5 ≤ length numbers.old }
    ensures { EndsAs (check_outcome (lends card.entry) room) room (ending result) numbers.old numbers.new }
{
    let c = cardcheck::check_lent(card)?;
    answers::test_room(5, room)?;
    put_counts(c, numbers);
    Ok(Done {
        number: 0,
        words: 5,
        more: 0,
    })
}
