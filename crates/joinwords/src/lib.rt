// The words of two cards wired together: the tests of the wires, and then the joined card's words: the inputs, A's outputs, B's outputs, every graph read
// under its new number.
#![tactic(auto)]

ghost use Rattle.std.specs.Prelude.{◌≡◌, ◌++◌, ℕ, ◌+◌, ◌-◌, ◌*◌, ◌≤◌, ◌<◌, length, get_or, take};
ghost use Rattle.lists.specs.Counting.{least};
ghost use Rattle.lists.specs.Tables.{at, tab, over, front};
ghost use Rattle.answers.specs.Limits.{max_graphs};
ghost use Rattle.answers.specs.Tests.{first_broken};
ghost use Rattle.layout.specs.Shape.{Accepts};
ghost use Rattle.form.specs.Check.{counts, card_length};
ghost use Rattle.wiring.specs.Joined.{is_free, free_below, wrong_wire, size_tests, renumbered, moved, joined_counts, joined, join_tests};
ghost use Rattle.joinwords.specs.Numbers.{wire_of, names_none, WithinLimits, Numbered, LowWires, wired_input, output_words, parts_words};

use answers::{Counts, MAX_GRAPHS, MAX_NODES, Refusal, Rule};
use word32::WordKind;

// The wire word that leaves its input free.
const FREE: u32 = 0xFFFF_FFFF;

// The graph that a wire word names, or none where it leaves its input free.
fn wire_of(word: u32) -> Option<usize>
    ensures { result ≡ wire_of word }
{
    if word == FREE {
        return None;
    }
    Some(word as usize)
}

// How many inputs the wires leave free.
fn count_free(wires: &[u32]) -> usize
    ensures { result ≡ free_below wires.now (length wires.now) }
{
    wires.iter().filter(|w| **w == FREE).count()
}

// Whether a wire word names none of so many graphs, and is not free.
fn is_wrong(graphs: usize, word: u32) -> bool
    ensures { result ≡ names_none graphs word }
{
    wire_of(word).is_some_and(|g| graphs <= g)
}

// The first wrong wire word, or the number of wire words.
fn first_wrong(graphs: usize, wires: &[u32]) -> usize
    ensures { result ≡ least (wrong_wire graphs wires.now) (length wires.now) }
{
    wires
        .iter()
        .position(|w| is_wrong(graphs, *w))
        .unwrap_or(wires.len())
}

// A joined card of so many graphs and nodes: the limits of a card, and a buffer of `room` words.
fn test_size(graphs: usize, nodes: usize, room: usize) -> Result<(), Refusal>
    requires { (graphs ≤ 8192) × (nodes ≤ 8192) }
    ensures { (i o : ℕ) → result ≡ first_broken (size_tests (counts i graphs nodes o) (graphs + 2 * nodes) room) }
{
    if MAX_GRAPHS < graphs {
        return Err(Refusal(Rule::JoinedTooLarge, 0));
    }
    if MAX_NODES < nodes {
        return Err(Refusal(Rule::JoinedTooLarge, 0));
    }
    answers::test_room(graphs + 2 * nodes, room)
}

// The tests after both checks, for a buffer of `room` words: the number of wire words, each of them, the limits of a card, the room.
pub fn test_join(a: Counts, b: Counts, wires: &[u32], room: usize) -> Result<(), Refusal>
    requires { WithinLimits a b }
    ensures { result ≡ first_broken (join_tests a b wires.now (card_length (joined_counts a b wires.now)) room) }
{
    if wires.len() != b.inputs {
        return Err(Refusal(Rule::WireForm, 0));
    }
    let wrong = first_wrong(a.graphs, wires);
    if wrong < wires.len() {
        return Err(Refusal(Rule::WireForm, wrong));
    }
    let free = count_free(wires);
    test_size(
        a.graphs + free + (b.graphs - b.inputs),
        a.nodes + b.nodes,
        room,
    )
}

// The new number of graph g of a card: its inputs have those of a list, and its outputs follow one another from `start` on.
fn new_number(inputs: &[u32], start: usize, g: usize) -> usize
    requires { (start ≤ 4096) × (g < 4294967296) }
    ensures { result ≡ renumbered (length inputs.now) (at inputs.now) start g }
{
    if g < inputs.len() {
        return lists::get(inputs, g) as usize;
    }
    start + (g - inputs.len())
}

// A word under the new numbers: a read has its graph's number exchanged, and every other word is as it was.
fn move_word(inputs: &[u32], start: usize, w: u32) -> u32
    requires { Numbered 4096 inputs.now start }
    ensures { result ≡ moved (renumbered (length inputs.now) (at inputs.now) start) w }
{
    if !word32::is_kind(w, WordKind::Read) {
        return w;
    }
    word32::with_read(w, new_number(inputs, start, word32::read_graph(w)))
}

// The words of a card after its inputs, under the new numbers, follow n words at the front of a buffer; the result is the number of words there.
fn put_outputs(card: &[u32], inputs: &[u32], start: usize, out: &mut [u32], n: usize) -> usize
    requires { Numbered 4096 inputs.now start × (length inputs.now ≤ length card.now) × (n + (length card.now - length inputs.now) ≤ length out.old) }
    ensures { (result ≡ n + (length card.now - length inputs.now))
        × (out.new ≡ front (take n out.old ++ output_words card.now inputs.now start) out.old) }
{
    let words = &card[inputs.len()..];
    for (k, w) in words.iter().enumerate() {
        out[n + k] = move_word(inputs, start, *w);
    }
    n + words.len()
}

// The new numbers of A's inputs: they keep theirs.
fn kept_inputs(m: usize) -> layout::Graphs
    requires { m ≤ max_graphs }
    ensures { (max_graphs ≡ length result) × (take m result ≡ tab (λ i. i) m) }
{
    let mut table = lists::filled::<MAX_GRAPHS>(0);
    for (i, number) in table[..m].iter_mut().enumerate() {
        *number = i as u32;
    }
    table
}

// The new numbers of B's inputs, where those of A's are given: free ones follow A's inputs in their order.
fn wired_inputs(wires: &[u32], inputs: &[u32], start: usize) -> layout::Graphs
    requires { LowWires wires.now × Numbered 2048 inputs.now start × (length inputs.now ≤ max_graphs) }
    ensures { (max_graphs ≡ length result) × (take (length wires.now) result ≡ tab (wired_input wires.now inputs.now start) (length wires.now)) }
{
    let mut table = lists::filled::<MAX_GRAPHS>(0);
    let mut due = inputs.len();
    for (i, word) in wires.iter().enumerate() {
        match wire_of(*word) {
            Some(g) => table[i] = new_number(inputs, start, g) as u32,
            None => {
                table[i] = due as u32;
                due += 1;
            }
        }
    }
    table
}

// The words of a joined card go to the front of a buffer: the inputs, A's outputs with numbers from `start` on, B's from `then` on. A's inputs have the
// numbers `kept`, and B's the numbers `wired`. The result is how many words there are.
fn write_parts(
    a: &[u32],
    b: &[u32],
    kept: &[u32],
    wired: &[u32],
    start: usize,
    then: usize,
    out: &mut [u32],
) -> usize
    requires { Numbered 4096 kept.now start × Numbered 4096 wired.now then × (length kept.now ≤ length a.now) × (length wired.now ≤ length b.now)
        × (start + (length a.now - length kept.now) + (length b.now - length wired.now) ≤ length out.old) }
    ensures { (result ≡ length (parts_words a.now b.now kept.now wired.now start then))
        × (out.new ≡ front (parts_words a.now b.now kept.now wired.now start then) out.old) }
{
    lists::fill(out, start, 0);
    let n = put_outputs(a, kept, start, out, start);
    put_outputs(b, wired, then, out, n)
}

// The words of the joined card go to the front of a buffer; the result is their number.
pub fn write_joined(
    a: &[u32],
    ca: Counts,
    b: &[u32],
    cb: Counts,
    wires: &[u32],
    out: &mut [u32],
) -> usize
    requires { Accepts a.now ca × Accepts b.now cb × LowWires wires.now × (length wires.now ≡ cb.inputs) × (card_length (joined_counts ca cb wires.now) ≤ length out.old) }
    ensures { (result ≡ length (joined ca cb wires.now a.now b.now))
        × (out.new ≡ front (joined ca cb wires.now a.now b.now) out.old) }
{
    let free = count_free(wires);
    let kept = kept_inputs(ca.inputs);
    let wired = wired_inputs(wires, &kept[..ca.inputs], ca.inputs + free);
    write_parts(
        a,
        b,
        &kept[..ca.inputs],
        &wired[..cb.inputs],
        ca.inputs + free,
        ca.graphs + free,
        out,
    )
}
