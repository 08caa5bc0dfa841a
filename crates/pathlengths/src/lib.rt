// How many decisions the values of a card take: the length of each graph's active path, by a walk over the values.
#![tactic(auto)]

ghost use Rattle.std.specs.Prelude.{◌≡◌, List, ℕ, ◌≤◌, ◌<◌, length};
ghost use Rattle.lists.specs.Tables.{over};
ghost use Rattle.layout.specs.Shape.{Shape};
ghost use Rattle.layout.specs.Tables.{Ready};
ghost use Rattle.value.specs.Settings.{good};
ghost use Rattle.value.specs.Values.{path_length};
ghost use Rattle.pathlengths.specs.GoodValues.{GoodIn};

use answers::Counts;
use layout::FIRSTS;

// The length of graph g, where the buffer has the graphs' good values: an input takes no decision, an output those of its walk.
fn path_length(card: &[u32], c: Counts, firsts: &[u32], g: usize, values: &[u32]) -> u32
    requires { Ready card.now c firsts.now × (g < c.graphs) × (c.graphs ≤ length values.now) }
    ensures { (x : List ℕ) → GoodIn card.now c x values.now → result ≡ path_length card.now c good x g }
{
    if g < c.inputs {
        return 0;
    }
    let walked = value::walk_graph(card, firsts, g, values);
    walked.decisions
}

// The lengths of all graphs.
pub fn path_lengths(card: &[u32], c: Counts, values: &[u32], lengths: &mut [u32])
    requires { Shape card.now c × (c.graphs ≤ length values.now) × (c.graphs ≤ length lengths.old) }
    ensures { (x : List ℕ) → GoodIn card.now c x values.now
        → lengths.new ≡ over c.graphs (path_length card.now c good x) lengths.old }
{
    let mut firsts = lists::filled::<FIRSTS>(0);
    layout::first_nodes(card, c, &mut firsts);
    for (g, length) in lengths[..c.graphs].iter_mut().enumerate() {
        *length = path_length(card, c, &firsts, g, values);
    }
}
