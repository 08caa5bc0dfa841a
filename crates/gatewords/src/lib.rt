// The words of the card of an accepted gate list, line by line.
#![tactic(auto)]

ghost use Rattle.std.specs.Prelude.{◌≡◌, ◌++◌, ◌+◌, ◌*◌, ◌≤◌, ◌<◌, length, get_or, take};
ghost use Rattle.lists.specs.Tables.{chain, front};
ghost use Rattle.word32.specs.Fields.{gate_function, lead_count};
ghost use Rattle.answers.specs.Limits.{max_nodes};
ghost use Rattle.gatelist.specs.Drawn.{constant, gate_exit, node_words, lead_nodes, line_words, drawn};
ghost use Rattle.gatelist.specs.AcceptsGates.{AcceptsGates};
ghost use Rattle.gatelist.specs.Functions.{function_number};

use answers::Counts;
use gatelist::Function;

// The value of a gate of function f whose walk ends at a lead with the value d.
fn constant(f: Function, d: u32) -> usize
    requires { d < 2 }
    ensures { (result ≡ constant (function_number f) d) × (result < 2) }
{
    if f.complements() {
        return (1 - d) as usize;
    }
    d as usize
}

// The exit at decision d of the node of lead k, of n, in a gate of function f.
fn gate_exit(f: Function, n: usize, k: usize, d: u32) -> usize
    requires { (d < 2) × (k < max_nodes) }
    ensures { (result ≡ gate_exit (function_number f) n k d) × (result < 16384) }
{
    if d == f.controlling() {
        return constant(f, d);
    }
    if n <= k + 1 {
        return constant(f, d);
    }
    k + 3
}

// The node of lead k, whose word is w, of n in a gate of function f: its two words go to a place of the buffer.
fn put_node(w: u32, f: Function, n: usize, k: usize, out: &mut [u32], at: usize)
    requires { (k < max_nodes) × (at + 2 ≤ length out.old) }
    ensures { out.new ≡ front (take at out.old ++ node_words (function_number f) n w k) out.old }
{
    let e0 = gate_exit(f, n, k, 0);
    let e1 = gate_exit(f, n, k, 1);
    out[at] = w;
    out[at + 1] = word32::exits_word(e0, e1);
}

// The nodes of the leads of a gate of function f, whose header w stands at p, go to a place of the buffer.
fn put_nodes(gates: &[u32], p: usize, w: u32, f: Function, out: &mut [u32], at: usize)
    requires { (gate_function w ≡ function_number f) × (lead_count w ≤ max_nodes) × (p + 1 + lead_count w ≤ length gates.now) × (at + 2 * lead_count w ≤ length out.old) }
    ensures { out.new ≡ front (take at out.old ++ chain (lead_nodes gates.now p w) (lead_count w)) out.old }
{
    let n = word32::node_count(w);
    for k in 0..n {
        put_node(lists::get(gates, p + 1 + k), f, n, k, out, at + 2 * k);
    }
}

// The words of the line whose header stands at p go to a place of the buffer.
fn put_line(gates: &[u32], p: usize, out: &mut [u32], at: usize)
    requires { (gate_function (get_or gates.now p 0) < 6) × (lead_count (get_or gates.now p 0) ≤ max_nodes) × (p + 1 + lead_count (get_or gates.now p 0) ≤ length gates.now)
        × (at + 1 + 2 * lead_count (get_or gates.now p 0) ≤ length out.old) }
    ensures { out.new ≡ front (take at out.old ++ line_words gates.now p) out.old }
{
    let w = lists::get(gates, p);
    out[at] = word32::header_word(word32::kind(w), word32::node_count(w));
    // Each gate of an accepted list has one of the functions.
    if let Some(f) = gatelist::function_of(w) {
        put_nodes(gates, p, w, f, out, at + 1);
    }
}

// The words of the card of an accepted gate list go to the front of a buffer; the result is their number.
pub fn write_card(gates: &[u32], c: Counts, out: &mut [u32]) -> usize
    requires { AcceptsGates gates.now c × (c.graphs + 2 * c.nodes ≤ length out.old) }
    ensures { (result ≡ length (drawn gates.now c.graphs)) × (out.new ≡ front (drawn gates.now c.graphs) out.old) }
{
    let mut leads = 0;
    for line in 0..c.graphs {
        put_line(gates, line + leads, out, line + 2 * leads);
        leads += word32::node_count(lists::get(gates, line + leads));
    }
    c.graphs + 2 * leads
}
