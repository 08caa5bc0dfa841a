// A gate list turned into a card: its check, and then the card's words.
#![tactic(auto)]

ghost use Rattle.std.specs.Prelude.{◌≤◌, min, length};
ghost use Rattle.answers.specs.Limits.{max_words};
ghost use Rattle.answers.specs.Calls.{lends, whole, ByWords};
ghost use Rattle.answers.specs.Ends.{ending, EndsAs};
ghost use Rattle.gates.specs.Calls.{to_card_outcome};

use answers::{Done, Lent, Refusal};

// The work of the call, for a gate list whose words so many bytes follow that make no word, and a buffer of `room` words.
pub fn to_card_with(gates: Lent<'_>, room: usize, card: &mut [u32]) -> Result<Done, Refusal>
    requires { min room max_words ≤ length card.old }
    ensures { EndsAs (to_card_outcome (lends gates.entry) room) room (ending result) card.old card.new }
{
    let c = gatecheck::check_lent(gates)?;
    answers::test_room(c.graphs + 2 * c.nodes, room)?;
    let n = gatewords::write_card(gates.words, c, card);
    Ok(Done {
        number: n,
        words: n,
        more: 0,
    })
}

// To card: the words of a gate list give those of its card, in the front of the buffer, and their number.
pub fn to_card(gates: &[u32], card: &mut [u32]) -> Result<usize, Refusal>
    ensures { ByWords (to_card_outcome (whole gates.now)) result card.old card.new }
{
    to_card_with(Lent::whole(gates), card.len(), card).map(|done| done.number)
}
