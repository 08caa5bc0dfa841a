// The room of an accepted card's parts: where its nodes stand, what a node reads, decides and takes.
#![tactic(auto)]

ghost use Rattle.std.specs.Prelude.{◌≡◌, ◌+◌, ◌*◌, ◌-◌, ◌≤◌, ◌<◌, length, get_or};
ghost use Rattle.lists.specs.Tables.{over};
ghost use Rattle.word32.specs.Fields.{read_graph, exit_of};
ghost use Rattle.layout.specs.Layout.{first, observable};
ghost use Rattle.layout.specs.Shape.{Shape};
ghost use Rattle.layout.specs.Tables.{Decided, Walkable};

use answers::{Counts, MAX_GRAPHS};
use word32::WordKind;

// A word for each graph of any card.
pub type Graphs = [u32; MAX_GRAPHS];

// The words of the first nodes of any card, and of the number of nodes after them.
pub const FIRSTS: usize = MAX_GRAPHS + 1;

// The first node of each graph of an accepted card, and after the last the number of nodes.
pub fn first_nodes(card: &[u32], c: Counts, firsts: &mut [u32])
    requires { Shape card.now c × (c.graphs < length firsts.old) }
    ensures { firsts.new ≡ over (c.graphs + 1) (first card.now) firsts.old }
{
    let mut n: usize = 0;
    for g in 0..c.graphs {
        firsts[g] = n as u32;
        n += word32::node_count(card[g + 2 * n]);
    }
    firsts[c.graphs] = n as u32;
}

// The first node of graph g. A card's tables begin with the first nodes; a call that wants no other table makes these alone.
pub fn first_node(tables: &[u32], g: usize) -> usize
    requires { g < length tables.now }
    ensures { result ≡ get_or tables.now g 0 }
{
    lists::get(tables, g) as usize
}

// The number of nodes of graph g.
pub fn graph_size(tables: &[u32], g: usize) -> usize
    requires { (g + 1 < length tables.now) × (get_or tables.now g 0 ≤ get_or tables.now (g + 1) 0) }
    ensures { result ≡ get_or tables.now (g + 1) 0 - get_or tables.now g 0 }
{
    let first = first_node(tables, g);
    first_node(tables, g + 1) - first
}

// The graph that node j, of graph g, reads.
pub fn graph_read(card: &[u32], g: usize, j: usize) -> usize
    requires { g + 1 + 2 * j < length card.now }
    ensures { result ≡ read_graph (get_or card.now (g + 1 + 2 * j) 0) }
{
    word32::read_graph(lists::get(card, g + 1 + 2 * j))
}

// The decision of node j, of graph g, where graph r's value, 0 or 1, stands at base + r: 0 where the value read is the bit of an inverted read, and else 1.
// Every walk takes a node's decision from here.
pub fn decision(card: &[u32], g: usize, j: usize, values: &[u32], base: usize) -> u32
    requires { (g + 1 + 2 * j < length card.now) × (base + read_graph (get_or card.now (g + 1 + 2 * j) 0) < length values.now) }
    ensures { Decided card.now (g + 1 + 2 * j) values.now base result }
{
    let w = lists::get(card, g + 1 + 2 * j);
    if lists::get(values, base + word32::read_graph(w)) == word32::read_inverted(w) {
        return 0;
    }
    1
}

// The exit of node j, of graph g, at a decision.
pub fn exit_at(card: &[u32], g: usize, j: usize, decision: u32) -> usize
    requires { g + 2 + 2 * j < length card.now }
    ensures { result ≡ exit_of (get_or card.now (g + 2 + 2 * j) 0) decision }
{
    let w = lists::get(card, g + 2 + 2 * j);
    if decision == 0 {
        return word32::exit0(w);
    }
    word32::exit1(w)
}

// Whether graph h is observable.
pub fn is_observable(card: &[u32], tables: &[u32], h: usize) -> bool
    requires { Walkable card.now tables.now h }
    ensures { result ≡ observable card.now h }
{
    let first = first_node(tables, h);
    word32::is_kind(lists::get(card, h + 2 * first), WordKind::Observable)
}
