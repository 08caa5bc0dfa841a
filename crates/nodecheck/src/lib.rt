// The nodes of one graph: each node's pair of words, as the reader hands them out, and the table of the local nodes that exits name.
#![tactic(auto)]

ghost use Rattle.std.specs.Prelude.{◌≡◌, ◌-◌, ◌≤◌, ◌<◌, length};
ghost use Rattle.answers.specs.Limits.{max_nodes};
ghost use Rattle.form.specs.Check.{misplaced};
ghost use Rattle.nodecheck.specs.Table.{ReadWord, ReadTold, ExitsWord, ExitsOf, name_exit, Blank, ExitsTold, NodesTold, zero_after, UnnamedTold};

use answers::{MAX_NODES, Refusal, Rule};
use reader::{Due, Reader};
use word32::WordKind;

// A word for each local node of any graph: 1 where an exit names it, and else 0.
pub type Named = [u32; MAX_NODES];

// The word w at a place, as the read of a node in graph g.
fn word_as_read(w: u32, at: usize, g: usize) -> Result<(), Refusal>
    ensures { ReadWord w at g result }
{
    if !word32::is_kind(w, WordKind::Read) {
        return Err(Refusal(Rule::WordNotDue, at));
    }
    if word32::read_spare(w) != 0 {
        return Err(Refusal(Rule::StrayBit, at));
    }
    if g <= word32::read_graph(w) {
        return Err(Refusal(Rule::ReadNotBelow, at));
    }
    Ok(())
}

// The read of a node in graph g, from what was due.
fn check_read(due: Due, g: usize) -> Result<(), Refusal>
    ensures { ReadTold due g result }
{
    match due {
        Ok((w, at)) => word_as_read(w, at, g),
        Err(len) => Err(Refusal(Rule::WordNotDue, len)),
    }
}

// Whether exit e of local node k is no constant and no later node of a graph of n nodes.
fn is_misplaced(n: usize, k: usize, e: usize) -> bool
    requires { (n ≤ max_nodes) × (k < n) }
    ensures { result ≡ misplaced n k e }
{
    if e <= 1 {
        return false;
    }
    if e <= k + 2 {
        return true;
    }
    n + 2 <= e
}

// The word w at a place, as the exits of local node k in a graph of n nodes. By itself: its tests are not a read's.
fn word_as_exits(w: u32, at: usize, n: usize, k: usize) -> Result<(usize, usize), Refusal>
    requires { (n ≤ max_nodes) × (k < n) }
    ensures { ExitsWord w at n k result }
{
    let e0 = word32::exit0(w);
    let e1 = word32::exit1(w);
    if !word32::is_kind(w, WordKind::Exits) {
        return Err(Refusal(Rule::WordNotDue, at));
    }
    if word32::exits_spare(w) != 0 {
        return Err(Refusal(Rule::StrayBit, at));
    }
    if is_misplaced(n, k, e0) {
        return Err(Refusal(Rule::ExitNotLater, at));
    }
    if is_misplaced(n, k, e1) {
        return Err(Refusal(Rule::ExitNotLater, at));
    }
    Ok((e0, e1))
}

// The exits of local node k in a graph of n nodes, from what was due.
fn read_exits(due: Due, n: usize, k: usize) -> Result<(usize, usize), Refusal>
    requires { (n ≤ max_nodes) × (k < n) }
    ensures { ExitsOf due n k result }
{
    match due {
        Ok((w, at)) => word_as_exits(w, at, n, k),
        Err(end) => Err(Refusal(Rule::WordNotDue, end)),
    }
}

// The local node that an exit names, if any, is set to 1 in the table.
fn name_exit(table: &mut Named, e: usize)
    requires { e < 4098 }
    ensures { table.new ≡ name_exit e table.old }
{
    if e <= 1 {
        return;
    }
    table[e - 2] = 1;
}

// The exits of local node k in a graph of n nodes, from what was due; what they name goes into the table.
fn check_exits(due: Due, n: usize, k: usize, table: &mut Named) -> Result<(), Refusal>
    requires { (n ≤ max_nodes) × (k < n) }
    ensures { ExitsTold due n k table.old table.new result }
{
    let (e0, e1) = read_exits(due, n, k)?;
    name_exit(table, e0);
    name_exit(table, e1);
    Ok(())
}

// The n nodes of graph g, from where the reader stands, just after the header. The table, blank at first, then has the local nodes that exits name.
pub fn check_nodes(r: &mut Reader<'_>, g: usize, n: usize, table: &mut Named) -> Result<(), Refusal>
    requires { (n ≤ max_nodes) × (0 < r.old.at) × Blank table.old }
    ensures { NodesTold r.old.words.now (r.old.at - 1) g n table.new r.new.at result
        × (r.new.words ≡ r.old.words) }
{
    for k in 0..n {
        check_read(r.next(), g)?;
        check_exits(r.next(), n, k, table)?;
    }
    Ok(())
}

// Whether one of the table's places 1 to n - 1 is 0.
fn has_unnamed(table: &[u32], n: usize) -> bool
    requires { n ≤ length table.now }
    ensures { result ≡ zero_after table.now (n - 1) }
{
    let mut i = 0;
    while i + 1 < n {
        if table[i + 1] == 0 {
            return true;
        }
        i += 1;
    }
    false
}

// Whether a local node of a graph of n nodes is not named, by the table that `check_nodes` left; and the table is blank again.
pub fn take_unnamed(table: &mut Named, n: usize) -> bool
    requires { n ≤ max_nodes }
    ensures { UnnamedTold n table.old table.new result }
{
    let unnamed = has_unnamed(table, n);
    lists::fill(table, n, 0);
    unnamed
}
