// Two cards wired together: both are checked, then the wires, and the joined card's words are written.
#![tactic(auto)]

ghost use Rattle.std.specs.Prelude.{◌≡◌, ◌≤◌, min, length, Ok};
ghost use Rattle.answers.specs.Limits.{max_words};
ghost use Rattle.wiring.specs.Calls.{counted_on};
ghost use Rattle.form.specs.Check.{card_length, lent_check};
ghost use Rattle.answers.specs.Tests.{first_broken};
ghost use Rattle.answers.specs.Calls.{lends, whole, outcome, ByWords};
ghost use Rattle.answers.specs.Ends.{ending, EndsAs};
ghost use Rattle.layout.specs.Shape.{Accepts};
ghost use Rattle.wiring.specs.Joined.{joined_counts};
ghost use Rattle.joinwords.specs.Numbers.{WithinLimits};
ghost use Rattle.join.specs.Calls.{wire_tests, join_work, join_outcome};

use answers::{Counts, Done, Lent, Refusal, Rule};

// The tests of the wires as they are lent: a leftover is a wrong number of wire words.
fn test_wires(a: Counts, b: Counts, wires: Lent<'_>, room: usize) -> Result<(), Refusal>
    requires { WithinLimits a b }
    ensures { result ≡ first_broken (wire_tests a b (lends wires.entry) (card_length (joined_counts a b wires.entry.words.now)) room) }
{
    if 0 < wires.extra {
        return Err(Refusal(Rule::WireForm, 0));
    }
    joinwords::test_join(a, b, wires.words, room)
}

// Two accepted cards: the tests, and then the words.
fn join_accepted(
    a: &[u32],
    ca: Counts,
    b: &[u32],
    cb: Counts,
    wires: Lent<'_>,
    room: usize,
    card: &mut [u32],
) -> Result<Done, Refusal>
    requires { Accepts a.now ca × Accepts b.now cb × (min room max_words ≤ length card.old) }
    ensures { EndsAs (outcome (Ok cb) (join_work (whole a.now) (whole b.now) (lends wires.entry) room ca)) room (ending result)
        card.old card.new }
{
    test_wires(ca, cb, wires, room)?;
    let n = joinwords::write_joined(a, ca, b, cb, wires.words, card);
    Ok(Done {
        number: n,
        words: n,
        more: 0,
    })
}

// The check of the second card, B, whose positions count on after the n words of A.
fn check_second(b: Lent<'_>, n: usize) -> Result<Counts, Refusal>
    requires { n ≤ max_words }
    ensures { result ≡ counted_on n (lent_check (lends b.entry)) }
{
    match cardcheck::check_lent(b) {
        Err(Refusal(rule, position)) => Err(Refusal(rule, n + position)),
        Ok(c) => Ok(c),
    }
}

// The work of a joining, for a buffer of `room` words.
pub fn join_with(
    a: Lent<'_>,
    b: Lent<'_>,
    wires: Lent<'_>,
    room: usize,
    card: &mut [u32],
) -> Result<Done, Refusal>
    requires { min room max_words ≤ length card.old }
    ensures { EndsAs (join_outcome (lends a.entry) (lends b.entry) (lends wires.entry) room) room (ending result)
        card.old card.new }
{
    let ca = cardcheck::check_lent(a)?;
    let cb = check_second(b, a.words.len())?;
    join_accepted(a.words, ca, b.words, cb, wires, room, card)
}

// Join: the words of A and of B and a wire word for each of B's inputs give one card's words, in the front of the buffer, and their number.
pub fn join(a: &[u32], b: &[u32], wires: &[u32], card: &mut [u32]) -> Result<usize, Refusal>
    ensures { ByWords (join_outcome (whole a.now) (whole b.now) (whole wires.now)) result
        card.old card.new }
{
    let (a, b, wires) = (Lent::whole(a), Lent::whole(b), Lent::whole(wires));
    join_with(a, b, wires, card.len(), card).map(|done| done.number)
}
