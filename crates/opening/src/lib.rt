// How a call on a card opens: the card is checked, and then the form of the call's vectors, one or a list. A card, and one vector, are lent with how many bytes
// follow their words that make no word.
#![tactic(auto)]

ghost use Rattle.std.specs.Prelude.{◌≡◌};
ghost use Rattle.answers.specs.Calls.{lends};
ghost use Rattle.testvectors.specs.Lists.{lent_list};
ghost use Rattle.opening.specs.Opened.{opened_vector, opened_list};

use answers::{Counts, Lent, Refusal};
use testvectors::VectorList;

// A card and one vector.
pub fn open_vector(card: Lent<'_>, vector: Lent<'_>) -> Result<Counts, Refusal>
    ensures { result ≡ opened_vector (lends card.entry) (lends vector.entry) }
{
    let c = cardcheck::check_lent(card)?;
    testvectors::check_vector(c.inputs, vector)?;
    Ok(c)
}

// A card and a list of vectors. By itself: one function over the form of what follows would be no shorter than the two.
pub fn open_list(card: Lent<'_>, list: VectorList<'_>) -> Result<Counts, Refusal>
    ensures { result ≡ opened_list (lends card.entry) (lent_list list.entry) }
{
    let c = cardcheck::check_lent(card)?;
    testvectors::check_list(c.inputs, list)?;
    Ok(c)
}
