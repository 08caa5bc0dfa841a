// Whether a graph is critical, by a change walk that ends at the first observable graph that changes. The walk goes by the sets of readers: a graph that
// changes makes its readers due, and no graph is walked again that is not due.
#![tactic(auto)]

ghost use Rattle.std.specs.Prelude.{◌≡◌, List, false, ℕ, ◌+◌, ◌≤◌, ◌<◌, length, get_or};
ghost use Rattle.answers.specs.Limits.{max_graphs};
ghost use Rattle.bitset.specs.Members.{member, Gains};
ghost use Rattle.layout.specs.Layout.{observable};
ghost use Rattle.layout.specs.Tables.{Walkable};
ghost use Rattle.cardtables.specs.Tables.{readers_of, grade_from, Tabled};
ghost use Rattle.value.specs.Settings.{good};
ghost use Rattle.value.specs.Values.{value};
ghost use Rattle.rules.specs.Rules.{critical};
ghost use Rattle.sweep.specs.Swept.{Swept};
ghost use Rattle.change.specs.Flips.{Has};
ghost use Rattle.critical.specs.Walking.{due_from, walk_length, Hidden, Lists, Entries, Stops, Walking, Stepped, walk_ends, But};

use answers::{Counts, MAX_GRAPHS};

// The buffer of a walk: the graphs' values, then its list, then the set of the graphs that are due.
pub type Walk = [u32; WALK];

const LIST: usize = MAX_GRAPHS;

const DUE: usize = LIST + MAX_GRAPHS;

const WALK: usize = DUE + 32;

// The readers of graph h become due.
fn note_due(c: Counts, tables: &[u32], h: usize, walk: &mut [u32])
    requires { (h < max_graphs) × (c.graphs ≤ max_graphs) × (grade_from ≤ length tables.now) × (walk_length ≤ length walk.old) }
    ensures { Gains due_from walk.old walk.new
        × ((j : ℕ) → h ≤ j → j < c.graphs → member tables.now (readers_of h) j ≤ member walk.new due_from j) }
{
    let row = cardtables::readers_of(h);
    bitset::merge(tables, row, h / 32, (c.graphs + 31) / 32, walk, DUE);
}

// Graph h has the value v, is number n of the list, and its readers are due.
fn list_graph(c: Counts, tables: &[u32], h: usize, v: u32, n: usize, walk: &mut [u32])
    requires { (h < max_graphs) × (n < max_graphs) × (c.graphs ≤ max_graphs) × (grade_from ≤ length tables.now) × (walk_length ≤ length walk.old) }
    ensures { Lists c tables.now h v n walk.old walk.new }
{
    lists::put(walk, h, v);
    lists::put(walk, LIST + n, h as u32);
    note_due(c, tables, h, walk);
}

// The start of the walk of graph g, which is flipped and listed.
fn begin(c: Counts, tables: &[u32], g: usize, walk: &mut [u32])
    requires { (g < c.graphs) × (c.graphs ≤ max_graphs) × (grade_from ≤ length tables.now) × (walk_length ≤ length walk.old) × (get_or walk.old g 0 < 2) }
    ensures { Entries c.graphs 1 walk.new × ((ws : List ℕ) → observable ws g ≡ false → Hidden ws 1 walk.new)
        × ((ws x : List ℕ) → Tabled ws c tables.now → observable ws g ≡ false
        → Has (value ws c good x) c.graphs walk.old → Walking ws c x g (g + 1) 1 walk.new) }
{
    bitset::clear(walk, DUE, 32);
    let own = lists::get(walk, g);
    list_graph(c, tables, g, 1 - own, 0, walk);
}

// Graph h, which is due, is walked again, with n graphs listed and none of them observable; the answer is how many are listed then. An input is never due,
// but no promise of the sets says so.
fn step(card: &[u32], c: Counts, tables: &[u32], h: usize, n: usize, walk: &mut [u32]) -> usize
    requires { Tabled card.now c tables.now × (h < c.graphs) × (n ≤ h) × Entries c.graphs n walk.old × Hidden card.now n walk.old × (walk_length ≤ length walk.old) }
    ensures { (result ≤ h + 1) × Entries c.graphs result walk.new × (walk_ends card.now h n result ≡ false → Hidden card.now result walk.new)
        × ((x : List ℕ) (g : ℕ) → Walking card.now c x g h n walk.old
        → Stepped card.now c x g h n result walk.new) }
{
    if h < c.inputs {
        return n;
    }
    let v = value::walk_graph(card, tables, h, walk).value;
    let own = lists::get(walk, h);
    if v == own {
        return n;
    }
    list_graph(c, tables, h, v, n, walk);
    n + 1
}

// Whether the walk ends with graph h, after which m graphs are listed and before which n were.
fn is_last(card: &[u32], tables: &[u32], h: usize, n: usize, m: usize) -> bool
    requires { Walkable card.now tables.now h }
    ensures { result ≡ walk_ends card.now h n m }
{
    if n == m {
        return false;
    }
    layout::is_observable(card, tables, h)
}

// THE STOPPED WALK of graph g, which is not observable: how many graphs it lists, each of them flipped.
fn stopped_walk(card: &[u32], c: Counts, tables: &[u32], g: usize, walk: &mut [u32]) -> usize
    requires { Tabled card.now c tables.now × (g < c.graphs) × (observable card.now g ≡ false) × (walk_length ≤ length walk.old) × (get_or walk.old g 0 < 2) }
    ensures { (result ≤ c.graphs)
        × ((x : List ℕ) → Has (value card.now c good x) c.graphs walk.old → Stops card.now c x g result walk.new)
        × Entries c.graphs result walk.new }
{
    begin(c, tables, g, walk);
    let mut n = 1;
    let mut p = g + 1;
    loop {
        let h = bitset::next(walk, DUE, p, c.graphs);
        if c.graphs <= h {
            return n;
        }
        let m = step(card, c, tables, h, n, walk);
        if is_last(card, tables, h, n, m) {
            return m;
        }
        n = m;
        p = h + 1;
    }
}

// The words of the n listed graphs are again those of the values, which have a word for each fault site.
fn put_back(c: Counts, values: &[u32], n: usize, walk: &mut [u32])
    requires { (n ≤ max_graphs) × (c.graphs ≤ max_graphs) × Entries c.graphs n walk.old × (c.nodes + c.graphs ≤ length values.now) × (walk_length ≤ length walk.old) }
    ensures { (v : ℕ → ℕ) → ((i : ℕ) → i < c.graphs → get_or values.now (c.nodes + i) 0 ≡ v i)
        → But v c.graphs 0 n walk.old → Has v c.graphs walk.new }
{
    for e in 0..n {
        let i = lists::get(walk, LIST + e) as usize;
        let own = lists::get(values, c.nodes + i);
        lists::put(walk, i, own);
    }
}

// Whether graph g, which is not observable, is critical: rule 3. The last graph of its stopped walk tells. The buffer has the graphs' good values, before
// and after.
pub fn is_critical(
    card: &[u32],
    c: Counts,
    tables: &[u32],
    values: &[u32],
    g: usize,
    walk: &mut [u32],
) -> bool
    requires { Tabled card.now c tables.now × (g < c.graphs) × (observable card.now g ≡ false) × (c.nodes + c.graphs ≤ length values.now)
        × (walk_length ≤ length walk.old) × (get_or walk.old g 0 < 2) }
    ensures { (x : List ℕ) → Swept card.now c x c.graphs values.now → Has (value card.now c good x) c.graphs walk.old
        → (result ≡ critical card.now c x g) × Has (value card.now c good x) c.graphs walk.new }
{
    let n = stopped_walk(card, c, tables, g, walk);
    let last = lists::get(walk, LIST + n - 1) as usize;
    put_back(c, values, n, walk);
    layout::is_observable(card, tables, last)
}
