// What faults make of a site, the exit that a node takes, and the walk of a graph.
#![tactic(auto)]

ghost use Rattle.std.specs.Prelude.{◌≡◌, ◌+◌, ◌*◌, ◌≤◌, ◌<◌, length, get_or};
ghost use Rattle.word32.specs.Fields.{exit_of};
ghost use Rattle.layout.specs.Layout.{size};
ghost use Rattle.layout.specs.Tables.{Walkable};
ghost use Rattle.value.specs.Settings.{good, faulty};
ghost use Rattle.value.specs.Values.{walked, taken};
ghost use Rattle.value.specs.Buffers.{BitsBelow};

// What a walk gives: the value that it ends with, and how many decision nodes it met.
#[derive(Clone, Copy)]
pub struct Walked {
    pub value: u32,
    pub decisions: u32,
}

// The value that a site has where v is worked out there, with the faults of a list in.
pub fn set_at(faults: &[u32], site: usize, v: u32) -> u32
    ensures { result ≡ faulty faults.now site v }
{
    match faults.iter().find(|f| **f as usize / 2 == site) {
        Some(f) => f % 2,
        None => v,
    }
}

// The exit that node j, of graph g, takes where its decision is d, with the faults of a list in.
pub fn exit_taken(card: &[u32], faults: &[u32], g: usize, j: usize, d: u32) -> usize
    requires { g + 2 + 2 * j < length card.now }
    ensures { result ≡ exit_of (get_or card.now (g + 2 + 2 * j) 0) (faulty faults.now j d) }
{
    layout::exit_at(card, g, j, set_at(faults, j, d))
}

// The walk of output graph h from its entrance, where the graphs have the values of the buffer, 0 or 1 each. Exit e leads to local node e - 2, and so the
// walk starts as if exit 2 had been taken.
pub fn walk_graph(card: &[u32], tables: &[u32], h: usize, values: &[u32]) -> Walked
    requires { Walkable card.now tables.now h × (0 < size card.now h) × (h ≤ length values.now) }
    ensures { BitsBelow h values.now → result ≡ walked (taken card.now good (λ g. get_or values.now g 0) h) (size card.now h) 0 }
{
    let first = layout::first_node(tables, h);
    let mut e = 2;
    let mut met = 0;
    loop {
        let j = first + (e - 2);
        let d = layout::decision(card, h, j, values, 0);
        e = layout::exit_at(card, h, j, d);
        met += 1;
        if e < 2 {
            return Walked {
                value: e as u32,
                decisions: met,
            };
        }
    }
}
