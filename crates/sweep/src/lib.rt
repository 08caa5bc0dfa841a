// The good values of all nodes and graphs of a card under one vector, in one sweep: graphs from the first to the last, in each its nodes from the last to
// the first.
#![tactic(auto)]

ghost use Rattle.std.specs.Prelude.{◌≡◌, List, ℕ, ◌+◌, ◌-◌, ◌≤◌, ◌<◌, length, get_or};
ghost use Rattle.layout.specs.Layout.{first, size};
ghost use Rattle.layout.specs.Shape.{Shape};
ghost use Rattle.layout.specs.Tables.{Ready};
ghost use Rattle.testvectors.specs.Parts.{Wide};
ghost use Rattle.value.specs.Values.{follow};
ghost use Rattle.sweep.specs.Swept.{Swept, Partly};

use answers::Counts;

// The good value of exit e of a graph whose first node is `first`: a constant, or that of a later node, which is there already.
pub fn exit_value(values: &[u32], first: usize, e: usize) -> u32
    requires { 2 ≤ e → first + (e - 2) < length values.now }
    ensures { result ≡ follow (λ l. get_or values.now (first + l) 0) e }
{
    if e < 2 {
        return e as u32;
    }
    lists::get(values, first + (e - 2))
}

// The value of local node k of graph g, whose first node is `from`, goes to its site, where those of the later nodes are. No bit of a vector is read: it
// promises so for each.
fn sweep_node(card: &[u32], c: Counts, from: usize, g: usize, k: usize, values: &mut [u32])
    requires { Shape card.now c × (from ≡ first card.now g) × (g < c.graphs) × (k < size card.now g) × (c.nodes + c.graphs ≤ length values.old) }
    ensures { (x : List ℕ) → Partly card.now c x g (k + 1) values.old → Partly card.now c x g k values.new }
{
    let j = from + k;
    let d = layout::decision(card, g, j, values, c.nodes);
    let e = layout::exit_at(card, g, j, d);
    let v = exit_value(values, from, e);
    lists::put(values, j, v);
}

// All nodes of graph g, of which there are n, from `from` on.
fn sweep_nodes(card: &[u32], c: Counts, from: usize, g: usize, n: usize, values: &mut [u32])
    requires { Shape card.now c × (from ≡ first card.now g) × (g < c.graphs) × (n ≡ size card.now g) × (c.nodes + c.graphs ≤ length values.old) }
    ensures { (x : List ℕ) → Swept card.now c x g values.old → Partly card.now c x g 0 values.new }
{
    for k in (0..n).rev() {
        sweep_node(card, c, from, g, k, values);
    }
}

// Graph g, where those below it are done.
fn sweep_graph(
    card: &[u32],
    c: Counts,
    tables: &[u32],
    vector: &[u32],
    g: usize,
    values: &mut [u32],
)
    requires { Ready card.now c tables.now × Wide c.inputs vector.now × (g < c.graphs) × Swept card.now c vector.now g values.old }
    ensures { Swept card.now c vector.now (g + 1) values.new }
{
    let site = c.nodes + g;
    if g < c.inputs {
        lists::put(values, site, testvectors::bit(vector, g));
        return;
    }
    let first = layout::first_node(tables, g);
    let n = layout::graph_size(tables, g);
    sweep_nodes(card, c, first, g, n, values);
    let v = lists::get(values, first);
    lists::put(values, site, v);
}

// All graphs.
pub fn sweep(card: &[u32], c: Counts, tables: &[u32], vector: &[u32], values: &mut [u32])
    requires { Ready card.now c tables.now × Wide c.inputs vector.now × (c.nodes + c.graphs ≤ length values.old) }
    ensures { Swept card.now c vector.now c.graphs values.new }
{
    for g in 0..c.graphs {
        sweep_graph(card, c, tables, vector, g, values);
    }
}
