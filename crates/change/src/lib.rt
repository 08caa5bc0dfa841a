// The change walk of rule 2: one graph is flipped, and those above it are walked again with the flipped values.
#![tactic(auto)]

ghost use Rattle.std.specs.Prelude.{◌≡◌, List, ℕ, ◌+◌, ◌≤◌, ◌<◌, length, get_or};
ghost use Rattle.lists.specs.Tables.{over};
ghost use Rattle.layout.specs.Tables.{Ready};
ghost use Rattle.value.specs.Settings.{good};
ghost use Rattle.value.specs.Values.{value};
ghost use Rattle.rules.specs.Rules.{flipped};
ghost use Rattle.change.specs.Flips.{Has, Between};

use answers::Counts;

// Graph h in the change walk of a lower graph: an input stays, and an output is walked again.
fn flip_at(card: &[u32], c: Counts, tables: &[u32], h: usize, flips: &mut [u32])
    requires { Ready card.now c tables.now × (h < c.graphs) × (c.graphs ≤ length flips.old) }
    ensures { (x : List ℕ) (g : ℕ) → g < h → Between (flipped card.now c x g) (value card.now c good x) c.graphs h flips.old
        → Between (flipped card.now c x g) (value card.now c good x) c.graphs (h + 1) flips.new }
{
    if h < c.inputs {
        return;
    }
    let v = value::walk_graph(card, tables, h, flips).value;
    lists::put(flips, h, v);
}

// The change walk of graph g. Where the buffer has the graphs' good values under a vector, it then has those with g held at the opposite of its own.
pub fn change(card: &[u32], c: Counts, tables: &[u32], g: usize, flips: &mut [u32])
    requires { Ready card.now c tables.now × (g < c.graphs) × (c.graphs ≤ length flips.old) × (get_or flips.old g 0 < 2) }
    ensures { (x : List ℕ) → Has (value card.now c good x) c.graphs flips.old
        → Has (flipped card.now c x g) c.graphs flips.new }
{
    let own = lists::get(flips, g);
    lists::put(flips, g, 1 - own);
    for h in g + 1..c.graphs {
        flip_at(card, c, tables, h, flips);
    }
}

// The values of the graphs, from those of all sites.
pub fn copy_values(c: Counts, values: &[u32], flips: &mut [u32])
    requires { (c.nodes + c.graphs ≤ length values.now) × (c.graphs ≤ length flips.old) }
    ensures { flips.new ≡ over c.graphs (λ h. get_or values.now (c.nodes + h) 0) flips.old }
{
    // word by word: the library's copy would have an archive for C ask for `memmove`
    for h in 0..c.graphs {
        let own = lists::get(values, c.nodes + h);
        lists::put(flips, h, own);
    }
}
