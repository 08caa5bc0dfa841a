// The plain path: the calls that work a card out afresh, with no fault or with those of a list.
#![tactic(auto)]

ghost use Rattle.std.specs.Prelude.{◌≤◌, min, length};
ghost use Rattle.answers.specs.Limits.{max_graphs};
ghost use Rattle.answers.specs.Calls.{lends, whole, ByWords};
ghost use Rattle.answers.specs.Ends.{ending, EndsAs};
ghost use Rattle.plain.specs.Calls.{good_outcome, fault_outcome};

use answers::{Done, Lent, Refusal};

// Values with the faults of a list in, all holding together: one word 0 or 1 for each graph; for a buffer of `room` words.
pub fn fault_values_with(
    card: Lent<'_>,
    vector: Lent<'_>,
    faults: Lent<'_>,
    room: usize,
    values: &mut [u32],
) -> Result<Done, Refusal>
    requires { min room max_graphs ≤ length values.old }
    ensures { EndsAs (fault_outcome (lends card.entry) (lends vector.entry) (lends faults.entry) room)
        room (ending result) values.old values.new }
{
    let c = opening::open_vector(card, vector)?;
    faultlist::test_faults(c, faults, room)?;
    evaluate::work_out(card.words, c, vector.words, faults.words, values);
    Ok(Done {
        number: 0,
        words: c.graphs,
        more: 0,
    })
}

// The same by words, for the whole of a buffer.
pub fn fault_values(
    card: &[u32],
    vector: &[u32],
    faults: &[u32],
    values: &mut [u32],
) -> Result<usize, Refusal>
    ensures { ByWords (fault_outcome (whole card.now) (whole vector.now) (whole faults.now))
        result values.old values.new }
{
    let (card, vector, faults) = (Lent::whole(card), Lent::whole(vector), Lent::whole(faults));
    fault_values_with(card, vector, faults, values.len(), values).map(|done| done.number)
}

// Good values: those of the empty list.
pub fn good_values(card: &[u32], vector: &[u32], values: &mut [u32]) -> Result<usize, Refusal>
    ensures { ByWords (good_outcome (whole card.now) (whole vector.now))
        result values.old values.new }
{
    let none = [0u32; 1];
    fault_values(card, vector, &none[..0], values)
}
