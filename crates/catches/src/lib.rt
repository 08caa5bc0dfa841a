// What one vector catches, by the marking rules: for each site the value at which it is stuck in the fault that is caught there, or 2.
#![tactic(auto)]

ghost use Rattle.std.specs.Prelude.{◌≡◌, List, true, not, cond, Some, None, ℕ, ◌+◌, ◌-◌, ◌*◌, ◌≤◌, ◌<◌, length, get_or, eqb};
ghost use Rattle.word32.specs.Fields.{exit_of};
ghost use Rattle.layout.specs.Layout.{size};
ghost use Rattle.layout.specs.Tables.{Ready};
ghost use Rattle.cardtables.specs.Tables.{Tabled};
ghost use Rattle.testvectors.specs.Vectors.{width};
ghost use Rattle.value.specs.Settings.{good};
ghost use Rattle.value.specs.Values.{follow, value};
ghost use Rattle.rules.specs.Rules.{critical};
ghost use Rattle.sweep.specs.Swept.{Swept};
ghost use Rattle.change.specs.Flips.{Has};
ghost use Rattle.critical.specs.Walking.{walk_length};
ghost use Rattle.catches.specs.Good.{Bits, Caught};
ghost use Rattle.catches.specs.Words.{Cleared, Along};
ghost use Rattle.catches.specs.Detections.{Detections, Room};

use answers::Counts;

// The word of a site where nothing is caught, above both values at which it can be stuck.
const NOTHING: u32 = 2;

// What is caught at node j, of graph g, if anything is, where the node is active and the graph critical: rules 4 and 5. Its decision is d, and its graph's
// first node `first`.
fn caught_there(
    card: &[u32],
    values: &[u32],
    g: usize,
    first: usize,
    j: usize,
    d: u32,
) -> Option<u32>
    requires { (g + 2 + 2 * j < length card.now) × (d < 2)
        × ((b : ℕ) → 2 ≤ exit_of (get_or card.now (g + 2 + 2 * j) 0) b → first + (exit_of (get_or card.now (g + 2 + 2 * j) 0) b - 2) < length values.now) }
    ensures { result ≡ cond (not (eqb (follow (λ l. get_or values.now (first + l) 0) (exit_of (get_or card.now (g + 2 + 2 * j) 0) 0))
        (follow (λ l. get_or values.now (first + l) 0) (exit_of (get_or card.now (g + 2 + 2 * j) 0) 1)))) (Some (1 - d)) None }
{
    let v0 = sweep::exit_value(values, first, layout::exit_at(card, g, j, 0));
    let v1 = sweep::exit_value(values, first, layout::exit_at(card, g, j, 1));
    if v0 == v1 {
        return None;
    }
    Some(1 - d)
}

// The active path of graph g, which is critical and whose words are 2: the nodes that the path meets get what is caught there.
fn catch_path(card: &[u32], c: Counts, tables: &[u32], values: &[u32], g: usize, caught: &mut [u32])
    requires { Ready card.now c tables.now × Bits c values.now × (g < c.graphs) × (0 < size card.now g) × (c.nodes ≤ length caught.old) }
    ensures { (x : List ℕ) → Swept card.now c x c.graphs values.now → critical card.now c x g ≡ true
        → Along card.now c x g 0 caught.old caught.old
        → Along card.now c x g (size card.now g) caught.old caught.new }
{
    let first = layout::first_node(tables, g);
    let mut k = 0;
    loop {
        let j = first + k;
        let d = layout::decision(card, g, j, values, c.nodes);
        let v = caught_there(card, values, g, first, j, d);
        let e = layout::exit_at(card, g, j, d);
        lists::put(caught, j, v.unwrap_or(NOTHING));
        if e < 2 {
            return;
        }
        k = e - 2;
    }
}

// The words of all nodes of graph g become 2: nothing is caught there.
fn clear_nodes(tables: &[u32], g: usize, caught: &mut [u32])
    requires { (g + 1 < length tables.now) × (get_or tables.now g 0 ≤ get_or tables.now (g + 1) 0) × (get_or tables.now (g + 1) 0 ≤ length caught.old) }
    ensures { Cleared (get_or tables.now g 0) (get_or tables.now (g + 1) 0) caught.old caught.new }
{
    let first = layout::first_node(tables, g);
    let next = layout::first_node(tables, g + 1);
    caught[first..next].fill(NOTHING);
}

// All nodes of graph g; `alters` says whether the graph is critical. Where it is not, nothing is caught at them; an input has none.
fn catch_nodes(
    card: &[u32],
    c: Counts,
    tables: &[u32],
    values: &[u32],
    g: usize,
    alters: bool,
    caught: &mut [u32],
)
    requires { Ready card.now c tables.now × Bits c values.now × (g < c.graphs) × (c.nodes ≤ length caught.old) }
    ensures { (x : List ℕ) → Swept card.now c x c.graphs values.now → alters ≡ critical card.now c x g
        → Along card.now c x g (size card.now g) caught.old caught.new }
{
    clear_nodes(tables, g, caught);
    if !alters {
        return;
    }
    if g < c.inputs {
        return;
    }
    catch_path(card, c, tables, values, g, caught);
}

// What is caught at a graph of value v, if it is critical. That it is, is a fact told once and used twice, with no value beside it.
fn caught_whole(v: u32, alters: bool) -> Option<u32>
    requires { v < 2 }
    ensures { result ≡ cond alters (Some (1 - v)) None }
{
    if alters {
        return Some(1 - v);
    }
    None
}

// Whether graph g is critical, where the graphs above it are done. Where it is not observable and one node alone reads it, what is caught there tells.
fn is_altering(
    card: &[u32],
    c: Counts,
    tables: &[u32],
    values: &[u32],
    g: usize,
    walk: &mut [u32],
    caught: &[u32],
) -> bool
    requires { Tabled card.now c tables.now × (c.nodes + c.graphs ≤ length values.now) × (g < c.graphs) × (walk_length ≤ length walk.old) × (get_or walk.old g 0 < 2)
        × (c.nodes ≤ length caught.now) }
    ensures { (x : List ℕ) → Swept card.now c x c.graphs values.now → Caught card.now c x (g + 1) walk.old caught.now
        → (result ≡ critical card.now c x g) × Has (value card.now c good x) c.graphs walk.new }
{
    if layout::is_observable(card, tables, g) {
        return true;
    }
    match cardtables::only_reader(tables, g) {
        Some(j) => lists::get(caught, j) < 2,
        None => critical::is_critical(card, c, tables, values, g, walk),
    }
}

// Graph g and its nodes, where the graphs above it are done. The buffer of walks has the good values before and after.
fn catch_graph(
    card: &[u32],
    c: Counts,
    tables: &[u32],
    values: &[u32],
    g: usize,
    walk: &mut [u32],
    caught: &mut [u32],
)
    requires { Tabled card.now c tables.now × Bits c values.now × (g < c.graphs) × (walk_length ≤ length walk.old) × (get_or walk.old g 0 < 2)
        × (c.nodes + c.graphs ≤ length caught.old) }
    ensures { (x : List ℕ) → Swept card.now c x c.graphs values.now → Caught card.now c x (g + 1) walk.old caught.old
        → Caught card.now c x g walk.new caught.new }
{
    let alters = is_altering(card, c, tables, values, g, walk, caught);
    catch_nodes(card, c, tables, values, g, alters, caught);
    let v = lists::get(values, c.nodes + g);
    let whole = caught_whole(v, alters);
    lists::put(caught, c.nodes + g, whole.unwrap_or(NOTHING));
}

// What one vector catches, at all graphs and their nodes: from the last graph down, so that what is caught at a graph's readers is known.
pub fn catch_vector(
    card: &[u32],
    c: Counts,
    tables: &[u32],
    vector: &[u32],
    values: &mut [u32],
    walk: &mut [u32],
    caught: &mut [u32],
)
    requires { Tabled card.now c tables.now × (width c.inputs ≤ length vector.now) × Room c values.old walk.old caught.old }
    ensures { Detections card.now c vector.now 0 caught.new }
{
    sweep::sweep(card, c, tables, vector, values);
    change::copy_values(c, values, walk);
    for g in (0..c.graphs).rev() {
        catch_graph(card, c, tables, values, g, walk, caught);
    }
}
