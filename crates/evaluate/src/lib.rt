// The evaluators of the plain path: values worked out afresh on demand, with the faults of a list in. A node's value calls for the value of the graph
// that it reads, and that for its entrance's; each found value is saved in a lent buffer, a word for each site.
#![tactic(auto)]

ghost use Rattle.std.specs.Prelude.{◌≡◌, ◌≤◌, ◌<◌, length};
ghost use Rattle.lists.specs.Tables.{over};
ghost use Rattle.layout.specs.Layout.{size};
ghost use Rattle.layout.specs.Shape.{Shape};
ghost use Rattle.layout.specs.Tables.{Ready};
ghost use Rattle.testvectors.specs.Vectors.{width};
ghost use Rattle.testvectors.specs.Parts.{Wide};
ghost use Rattle.value.specs.Settings.{faulty};
ghost use Rattle.value.specs.Values.{value};
ghost use Rattle.value.specs.Run.{run};
ghost use Rattle.evaluate.specs.Saved.{Saved, FoundNode, FoundGraph};

use answers::{Counts, MAX_SITES};
use layout::FIRSTS;

// The value of local node k of graph g, which then stands at the node's site.
#[cycle(graph_value_node_value)]
fn node_value(
    card: &[u32],
    c: Counts,
    firsts: &[u32],
    vector: &[u32],
    faults: &[u32],
    g: usize,
    k: usize,
    saved: &mut [u32],
) -> u32
    requires { Ready card.now c firsts.now × Wide c.inputs vector.now × (g < c.graphs) × (k < size card.now g) × Saved (run card.now c faults.now vector.now) saved.old }
    ensures { FoundNode (run card.now c faults.now vector.now) g k result saved.old saved.new }
{
    let j = layout::first_node(firsts, g) + k;
    let known = lists::get(saved, j);
    if known < 2 {
        return known;
    }
    let read = layout::graph_read(card, g, j);
    graph_value(card, c, firsts, vector, faults, read, saved);
    let d = layout::decision(card, g, j, saved, c.nodes);
    let e = value::exit_taken(card, faults, g, j, d);
    if e < 2 {
        lists::put(saved, j, e as u32);
        return e as u32;
    }
    let v = node_value(card, c, firsts, vector, faults, g, e - 2, saved);
    lists::put(saved, j, v);
    v
}

// The value of graph g, which then stands at the graph's site.
#[cycle(graph_value_node_value)]
fn graph_value(
    card: &[u32],
    c: Counts,
    firsts: &[u32],
    vector: &[u32],
    faults: &[u32],
    g: usize,
    saved: &mut [u32],
) -> u32
    requires { Ready card.now c firsts.now × Wide c.inputs vector.now × (g < c.graphs) × Saved (run card.now c faults.now vector.now) saved.old }
    ensures { FoundGraph (run card.now c faults.now vector.now) g result saved.old saved.new }
{
    let site = c.nodes + g;
    let known = lists::get(saved, site);
    if known < 2 {
        return known;
    }
    if g < c.inputs {
        let input = value::set_at(faults, site, testvectors::bit(vector, g));
        lists::put(saved, site, input);
        return input;
    }
    let entrance = node_value(card, c, firsts, vector, faults, g, 0, saved);
    let v = value::set_at(faults, site, entrance);
    lists::put(saved, site, v);
    v
}

// The values of all graphs, with the faults of a list in.
pub fn work_out(card: &[u32], c: Counts, vector: &[u32], faults: &[u32], values: &mut [u32])
    requires { Shape card.now c × (width c.inputs ≤ length vector.now) × (c.graphs ≤ length values.old) }
    ensures { values.new ≡ over c.graphs (value card.now c (faulty faults.now) vector.now) values.old }
{
    let mut firsts = lists::filled::<FIRSTS>(0);
    layout::first_nodes(card, c, &mut firsts);
    // no value is known yet: one is 0 or 1
    let mut saved = lists::filled::<MAX_SITES>(2);
    for (g, v) in values[..c.graphs].iter_mut().enumerate() {
        *v = graph_value(card, c, &firsts, vector, faults, g, &mut saved);
    }
}
