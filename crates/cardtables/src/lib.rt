// The tables of an accepted card, made once: which graphs read each graph, its only reader, and which faults count in the grade.
#![tactic(auto)]

ghost use Rattle.std.specs.Prelude.{◌≡◌, List, not, ◌||◌, ℕ, ◌+◌, ◌*◌, ◌≤◌, ◌<◌, length, get_or};
ghost use Rattle.lists.specs.Counting.{choose};
ghost use Rattle.answers.specs.Limits.{max_graphs, max_nodes, max_sites};
ghost use Rattle.word32.specs.Fields.{read_graph};
ghost use Rattle.layout.specs.Layout.{first, size, observable, reads};
ghost use Rattle.layout.specs.Shape.{Shape};
ghost use Rattle.layout.specs.Tables.{Ready, Walkable};
ghost use Rattle.cardtables.specs.Stems.{read_by, site_in_grade, total};
ghost use Rattle.cardtables.specs.Tables.{sole_of, readers_of, grade_of, grade_from, tables_length, several_readers, is_only, only_in, ReadIn, Noted, Tabled};

use answers::{Counts, MAX_GRAPHS, MAX_NODES, MAX_SITES};
use layout::FIRSTS;

// The tables of a card, one after the other, each at a multiple of 32 words: the first node of each graph; where one node alone reads it, that node's number
// plus 1, else 0 or `SEVERAL`; a set of 32 words that has every graph which reads it; and for each site 1 where its faults count in the grade, else 0.
pub type Tables = [u32; TABLES];

const SOLE: usize = MAX_GRAPHS + 32;

const READERS: usize = SOLE + MAX_GRAPHS;

const GRADE: usize = READERS + 32 * MAX_GRAPHS;

const TABLES: usize = GRADE + MAX_SITES;

// What a word for an only reader is where several nodes read the graph.
const SEVERAL: u32 = MAX_NODES as u32 + 1;

// The number of the only node that reads graph r, plus 1; 0 where none does, and `SEVERAL`, which is above all of these, where several do.
pub fn sole_reader(tables: &[u32], r: usize) -> u32
    requires { (r < max_graphs) × (grade_from ≤ length tables.now) }
    ensures { result ≡ get_or tables.now (sole_of r) 0 }
{
    lists::get(tables, SOLE + r)
}

// The only node that reads graph r, or none where no node does, or several do.
pub fn only_reader(tables: &[u32], r: usize) -> Option<usize>
    requires { (r < max_graphs) × (grade_from ≤ length tables.now) }
    ensures { result ≡ only_in (get_or tables.now (sole_of r) 0) }
{
    let word = sole_reader(tables, r);
    if 0 < word && word < SEVERAL {
        return Some(word as usize - 1);
    }
    None
}

// Where the set of graph r's readers stands in the tables.
pub fn readers_of(r: usize) -> usize
    requires { r < max_graphs }
    ensures { result ≡ readers_of r }
{
    READERS + 32 * r
}

// What a table says of a graph's only reader, which said `had`, after one more node that reads it: node j.
fn sole_with(had: u32, j: usize) -> u32
    requires { j < max_nodes }
    ensures { (had ≡ 0 → result ≡ j + 1) × (0 < had → result ≡ several_readers) }
{
    if had == 0 {
        return j as u32 + 1;
    }
    SEVERAL
}

// Node j, of graph h, is noted: h is one of the readers of the graph that it reads, and j the only one if there was none.
fn note_node(card: &[u32], h: usize, j: usize, tables: &mut [u32])
    requires { (h + 1 + 2 * j < length card.now) × (read_graph (get_or card.now (h + 1 + 2 * j) 0) < max_graphs) × (h < max_graphs) × (j < max_nodes)
        × (grade_from ≤ length tables.old) }
    ensures { (q : ℕ → ℕ) (k : ℕ) → k < size card.now h → j ≡ first card.now h + k → q j ≡ reads card.now h k
        → Noted card.now q j tables.old → Noted card.now q (j + 1) tables.new }
{
    let read = layout::graph_read(card, h, j);
    bitset::put(tables, readers_of(read), h);
    let had = sole_reader(tables, read);
    lists::put(tables, SOLE + read, sole_with(had, j));
}

// All nodes of graph h.
fn note_graph(card: &[u32], firsts: &[u32], h: usize, tables: &mut [u32])
    requires { Walkable card.now firsts.now h × (h < max_graphs) × (first card.now h + size card.now h ≤ max_nodes) × (grade_from ≤ length tables.old) }
    ensures { (q : ℕ → ℕ) → ReadIn card.now q h → Noted card.now q (first card.now h) tables.old
        → Noted card.now q (first card.now (h + 1)) tables.new }
{
    let first = layout::first_node(firsts, h);
    let n = layout::graph_size(firsts, h);
    for k in 0..n {
        note_node(card, h, first + k, tables);
    }
}

// All nodes.
fn note_readers(card: &[u32], c: Counts, firsts: &[u32], tables: &mut [u32])
    requires { Ready card.now c firsts.now × (grade_from ≤ length tables.old) × Noted card.now (read_by card.now c) 0 tables.old }
    ensures { Noted card.now (read_by card.now c) c.nodes tables.new }
{
    for h in 0..c.graphs {
        note_graph(card, firsts, h, tables);
    }
}

// Whether graph g has a stem, as the tables tell its only reader.
fn has_stem(card: &[u32], tables: &[u32], g: usize) -> bool
    requires { Walkable card.now tables.now g × (g < max_graphs) × (grade_from ≤ length tables.now) }
    ensures { result ≡ observable card.now g || not (is_only (get_or tables.now (sole_of g) 0)) }
{
    if layout::is_observable(card, tables, g) {
        return true;
    }
    only_reader(tables, g).is_none()
}

// The word of site p, a node or a graph: 1 where its faults count in the grade, else 0.
fn grade_word(card: &[u32], c: Counts, tables: &[u32], p: usize) -> u32
    requires { Ready card.now c tables.now × Noted card.now (read_by card.now c) c.nodes tables.now × (grade_from ≤ length tables.now)
        × (p < c.nodes + c.graphs) }
    ensures { result ≡ choose (site_in_grade card.now c p) 1 0 }
{
    u32::from(p < c.nodes || has_stem(card, tables, p - c.nodes))
}

// The words of all sites.
fn grade_sites(card: &[u32], c: Counts, tables: &mut [u32])
    requires { Ready card.now c tables.old × Noted card.now (read_by card.now c) c.nodes tables.old × (tables_length ≤ length tables.old) }
    ensures { Tabled card.now c tables.new }
{
    for p in 0..c.nodes + c.graphs {
        let word = grade_word(card, c, tables, p);
        lists::put(tables, GRADE + p, word);
    }
}

// Where the words of the sites stand in the tables.
pub fn grade_words() -> usize
    ensures { result ≡ grade_of 0 }
{
    GRADE
}

// How many faults count in the grade.
pub fn total(c: Counts, tables: &[u32]) -> usize
    requires { (tables_length ≤ length tables.now) × (c.nodes + c.graphs ≤ max_sites) }
    ensures { (ws : List ℕ) → Tabled ws c tables.now → result ≡ total ws c }
{
    let sites = &tables[GRADE..GRADE + c.nodes + c.graphs];
    2 * sites.iter().filter(|w| **w == 1).count()
}

// The tables of an accepted card.
pub fn make_tables(card: &[u32], c: Counts) -> Tables
    requires { Shape card.now c }
    ensures { Tabled card.now c result }
{
    // twice, since the tables cannot be read for the first nodes while readers are put into them
    let mut firsts = lists::filled::<FIRSTS>(0);
    layout::first_nodes(card, c, &mut firsts);
    let mut tables: Tables = lists::filled(0);
    note_readers(card, c, &firsts, &mut tables);
    layout::first_nodes(card, c, &mut tables);
    grade_sites(card, c, &mut tables);
    tables
}
