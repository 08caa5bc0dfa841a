// What changes under one vector: change lists and critical nodes, by the marking rules.
#![tactic(auto)]

ghost use Rattle.std.specs.Prelude.{◌≡◌, not, ◌+◌, ◌≤◌, ◌<◌, min, length, get_or, ltb, eqb};
ghost use Rattle.lists.specs.Counting.{choose, count};
ghost use Rattle.lists.specs.Tables.{over, chosen, front};
ghost use Rattle.answers.specs.Limits.{max_graphs, max_nodes};
ghost use Rattle.answers.specs.Tests.{first_broken};
ghost use Rattle.layout.specs.Shape.{Shape};
ghost use Rattle.testvectors.specs.Vectors.{width};
ghost use Rattle.detect.specs.Detects.{changes, critical_at};
ghost use Rattle.answers.specs.Calls.{lends, whole, ByWords};
ghost use Rattle.answers.specs.Ends.{ending, EndsAs};
ghost use Rattle.changes.specs.Calls.{change_tests, change_outcome, critical_tests, critical_outcome};
ghost use Rattle.changes.specs.Appended.{Appended};

use answers::{Counts, Done, Lent, MAX_GRAPHS, MAX_SITES, Refusal, Rule};
use critical::Walk;
use layout::FIRSTS;

// Number h follows the n numbers at the front of a list, if it is to.
fn append(list: &mut [u32], n: usize, h: usize, differs: bool) -> usize
    requires { (n < length list.old) × (h ≤ max_graphs) }
    ensures { Appended list.old n h differs result list.new }
{
    if differs {
        list[n] = h as u32;
        return n + 1;
    }
    n
}

// The graphs whose words differ from those of their sites among the values, in the front of the list; and how many they are.
fn list_changes(c: Counts, values: &[u32], flips: &[u32], list: &mut [u32]) -> usize
    requires { (c.graphs ≤ max_graphs) × (c.nodes + c.graphs ≤ length values.now) × (c.graphs ≤ length flips.now) × (c.graphs ≤ length list.old) }
    ensures { (result ≡ count (λ h. not (eqb (get_or flips.now h 0) (get_or values.now (c.nodes + h) 0))) c.graphs)
        × (list.new ≡ front (chosen (λ h. not (eqb (get_or flips.now h 0) (get_or values.now (c.nodes + h) 0))) c.graphs) list.old) }
{
    let mut n = 0;
    for h in 0..c.graphs {
        n = append(
            list,
            n,
            h,
            lists::get(flips, h) != lists::get(values, c.nodes + h),
        );
    }
    n
}

// The change list of graph g of an accepted card.
pub fn work_out_changes(
    card: &[u32],
    c: Counts,
    vector: &[u32],
    g: usize,
    list: &mut [u32],
) -> usize
    requires { Shape card.now c × (width c.inputs ≤ length vector.now) × (g < c.graphs) × (c.graphs ≤ length list.old) }
    ensures { (result ≡ count (changes card.now c vector.now g) c.graphs)
        × (list.new ≡ front (chosen (changes card.now c vector.now g) c.graphs) list.old) }
{
    let mut firsts = lists::filled::<FIRSTS>(0);
    layout::first_nodes(card, c, &mut firsts);
    let mut values = lists::filled::<MAX_SITES>(0);
    sweep::sweep(card, c, &firsts, vector, &mut values);
    let mut flips = lists::filled::<MAX_GRAPHS>(0);
    change::copy_values(c, &values, &mut flips);
    change::change(card, c, &firsts, g, &mut flips);
    list_changes(c, &values, &flips, list)
}

// The tests of a change list after the form of its vector, for a buffer of `room` words: the graph's number, and the room.
pub fn test_change(c: Counts, graph: u32, room: usize) -> Result<(), Refusal>
    ensures { result ≡ first_broken (change_tests graph room c) }
{
    if c.graphs <= graph as usize {
        return Err(Refusal(Rule::NumberTooHigh, 0));
    }
    answers::test_room(c.graphs, room)
}

// The change list of a graph: its length, and the numbers rising in the front of `list`, for a buffer of `room` words.
pub fn change_list_with(
    card: Lent<'_>,
    vector: Lent<'_>,
    graph: u32,
    room: usize,
    list: &mut [u32],
) -> Result<Done, Refusal>
    requires { min room max_graphs ≤ length list.old }
    ensures { EndsAs (change_outcome (lends card.entry) (lends vector.entry) graph room)
        room (ending result) list.old list.new }
{
    let c = opening::open_vector(card, vector)?;
    test_change(c, graph, room)?;
    let n = work_out_changes(card.words, c, vector.words, graph as usize, list);
    Ok(Done {
        number: n,
        words: n,
        more: 0,
    })
}

// The same by words, for the whole of a buffer.
pub fn change_list(
    card: &[u32],
    vector: &[u32],
    graph: u32,
    list: &mut [u32],
) -> Result<usize, Refusal>
    ensures { ByWords (change_outcome (whole card.now) (whole vector.now) graph)
        result list.old list.new }
{
    let (card, vector) = (Lent::whole(card), Lent::whole(vector));
    change_list_with(card, vector, graph, list.len(), list).map(|done| done.number)
}

// For each of the first n sites 1 where a fault is caught there, else 0; into a buffer.
fn flag_sites(caught: &[u32], n: usize, nodes: &mut [u32])
    requires { (n ≤ length caught.now) × (n ≤ length nodes.old) }
    ensures { nodes.new ≡ over n (λ j. choose (ltb (get_or caught.now j 0) 2) 1 0) nodes.old }
{
    for (j, node) in nodes[..n].iter_mut().enumerate() {
        *node = u32::from(lists::get(caught, j) < 2);
    }
}

// The critical nodes of an accepted card.
pub fn work_out_critical(card: &[u32], c: Counts, vector: &[u32], nodes: &mut [u32])
    requires { Shape card.now c × (width c.inputs ≤ length vector.now) × (c.nodes ≤ length nodes.old) }
    ensures { nodes.new ≡ over c.nodes (λ j. choose (critical_at card.now c vector.now j) 1 0) nodes.old }
{
    let tables = cardtables::make_tables(card, c);
    let mut values = lists::filled::<MAX_SITES>(0);
    let mut walk: Walk = lists::filled(0);
    let mut caught = lists::filled::<MAX_SITES>(0);
    catches::catch_vector(
        card,
        c,
        &tables,
        vector,
        &mut values,
        &mut walk,
        &mut caught,
    );
    flag_sites(&caught, c.nodes, nodes)
}

// The tests of critical nodes after the form of their vector, for a buffer of `room` words: the room alone.
#[tactic(auto, unfolding(crate::specs::Calls::critical_tests))]
pub fn test_critical(c: Counts, room: usize) -> Result<(), Refusal>
    ensures { result ≡ first_broken (critical_tests room c) }
{
    answers::test_room(c.nodes, room)
}

// Critical nodes: one word for each node, 1 where forcing its other exit alters an observable graph, else 0; for a buffer of `room` words.
pub fn critical_nodes_with(
    card: Lent<'_>,
    vector: Lent<'_>,
    room: usize,
    nodes: &mut [u32],
) -> Result<Done, Refusal>
    requires { min room max_nodes ≤ length nodes.old }
    ensures { EndsAs (critical_outcome (lends card.entry) (lends vector.entry) room)
        room (ending result) nodes.old nodes.new }
{
    let c = opening::open_vector(card, vector)?;
    test_critical(c, room)?;
    work_out_critical(card.words, c, vector.words, nodes);
    Ok(Done {
        number: 0,
        words: c.nodes,
        more: 0,
    })
}

// The same by words, for the whole of a buffer.
pub fn critical_nodes(card: &[u32], vector: &[u32], nodes: &mut [u32]) -> Result<usize, Refusal>
    ensures { ByWords (critical_outcome (whole card.now) (whole vector.now))
        result nodes.old nodes.new }
{
    let (card, vector) = (Lent::whole(card), Lent::whole(vector));
    critical_nodes_with(card, vector, nodes.len(), nodes).map(|done| done.number)
}
