// The calls for the fixture's host, in C: cards, vectors, lists of faults, wires and buffers are bytes, each word four of them, highest byte first, and
// the answer is one 64-bit number. What is lent is read into words, the call is the one by words, and its words are written as bytes. There are eight
// functions since C calls each by its name.
#![tactic(auto)]

ghost use Rattle.inbytes.specs.Calls.{of_bytes, InBytes, InBytesBoth};
ghost use Rattle.cardcounts.specs.Calls.{check_outcome};
ghost use Rattle.plain.specs.Calls.{good_outcome, fault_outcome};
ghost use Rattle.changes.specs.Calls.{change_outcome, critical_outcome};
ghost use Rattle.grade.specs.Calls.{grade_outcome};
ghost use Rattle.join.specs.Calls.{join_outcome};
ghost use Rattle.gates.specs.Calls.{to_card_outcome};

use answers::{MAX_FAULTS, MAX_GRAPHS, MAX_NODES, MAX_WORDS};
use hostfaults::FAULTS_ROOM;
use inbytes::{CARD_ROOM, VECTOR_ROOM, WIRES_ROOM};
use testvectors::VectorList;

// Check: the numbers of inputs, graphs, nodes, observable graphs and faults, in a buffer of at least five words.
#[unsafe(no_mangle)]
pub extern "C" fn card_check(card: &[u8], numbers: &mut [u8]) -> u64
    ensures { InBytes (check_outcome (of_bytes card.now)) result numbers.old numbers.new }
{
    let mut ws = lists::filled::<CARD_ROOM>(0);
    let mut out = [0u32; 5];
    let card = inbytes::read(card, &mut ws);
    let end = cardcounts::check_counts(card, numbers.len() / 4, &mut out);
    inbytes::answer_of(end, &out, numbers)
}

// Good values: one word 0 or 1 for each graph; those of the empty list of faults.
#[unsafe(no_mangle)]
pub extern "C" fn card_good_values(card: &[u8], vector: &[u8], values: &mut [u8]) -> u64
    ensures { InBytes (good_outcome (of_bytes card.now) (of_bytes vector.now))
        result values.old values.new }
{
    let none = [0u8; 1];
    card_fault_values(card, vector, &none[..0], values)
}

// Values with the faults of a list in, all holding together.
#[unsafe(no_mangle)]
pub extern "C" fn card_fault_values(
    card: &[u8],
    vector: &[u8],
    faults: &[u8],
    values: &mut [u8],
) -> u64
    ensures { InBytes (fault_outcome (of_bytes card.now) (of_bytes vector.now) (of_bytes faults.now))
        result values.old values.new }
{
    let mut ws = lists::filled::<CARD_ROOM>(0);
    let mut x = lists::filled::<VECTOR_ROOM>(0);
    let mut numbers = lists::filled::<FAULTS_ROOM>(0);
    let mut out = lists::filled::<MAX_GRAPHS>(0);
    let list = hostfaults::lend_faults(faults, &mut numbers);
    let card = inbytes::read(card, &mut ws);
    let vector = inbytes::read(vector, &mut x);
    let end = plain::fault_values_with(card, vector, list, values.len() / 4, &mut out);
    inbytes::answer_of(end, &out, values)
}

// The change list of a graph: its length, and the numbers rising in the front of the buffer.
#[unsafe(no_mangle)]
pub extern "C" fn card_change_list(card: &[u8], vector: &[u8], graph: u32, list: &mut [u8]) -> u64
    ensures { InBytes (change_outcome (of_bytes card.now) (of_bytes vector.now) graph)
        result list.old list.new }
{
    let mut ws = lists::filled::<CARD_ROOM>(0);
    let mut x = lists::filled::<VECTOR_ROOM>(0);
    let mut out = lists::filled::<MAX_GRAPHS>(0);
    let card = inbytes::read(card, &mut ws);
    let vector = inbytes::read(vector, &mut x);
    let end = changes::change_list_with(card, vector, graph, list.len() / 4, &mut out);
    inbytes::answer_of(end, &out, list)
}

// Critical nodes: one word for each node, 1 where forcing its other exit alters an observable graph, else 0.
#[unsafe(no_mangle)]
pub extern "C" fn card_critical_nodes(card: &[u8], vector: &[u8], nodes: &mut [u8]) -> u64
    ensures { InBytes (critical_outcome (of_bytes card.now) (of_bytes vector.now))
        result nodes.old nodes.new }
{
    let mut ws = lists::filled::<CARD_ROOM>(0);
    let mut x = lists::filled::<VECTOR_ROOM>(0);
    let mut out = lists::filled::<MAX_NODES>(0);
    let card = inbytes::read(card, &mut ws);
    let vector = inbytes::read(vector, &mut x);
    let end = changes::critical_nodes_with(card, vector, nodes.len() / 4, &mut out);
    inbytes::answer_of(end, &out, nodes)
}

// The grading: for each fault its mark, C0000000 if no vector catches it, else E0000000 plus the number of the earliest that does; its tally, the number of
// vectors that catch it; and the marked count, of the faults that count in the grade. The list is read in place.
#[unsafe(no_mangle)]
pub extern "C" fn card_grade(
    card: &[u8],
    vectors: &[u8],
    marks: &mut [u8],
    tallies: &mut [u8],
) -> u64
    ensures { InBytesBoth (grade_outcome (of_bytes card.now) (of_bytes vectors.now))
        result marks.old tallies.old marks.new tallies.new }
{
    let mut ws = lists::filled::<CARD_ROOM>(0);
    let mut out = lists::filled::<MAX_FAULTS>(0);
    let mut more = lists::filled::<MAX_FAULTS>(0);
    let card = inbytes::read(card, &mut ws);
    let end = grade::grade_with(
        card,
        VectorList::Bytes(vectors),
        marks.len() / 4,
        tallies.len() / 4,
        &mut out,
        &mut more,
    );
    inbytes::answer_both_of(end, &out, &more, marks, tallies)
}

// Two cards wired together: the number of the joined card's words, which stand in the front of the buffer.
#[unsafe(no_mangle)]
pub extern "C" fn card_join(a: &[u8], b: &[u8], wires: &[u8], card: &mut [u8]) -> u64
    ensures { InBytes (join_outcome (of_bytes a.now) (of_bytes b.now) (of_bytes wires.now))
        result card.old card.new }
{
    let mut wa = lists::filled::<CARD_ROOM>(0);
    let mut wb = lists::filled::<CARD_ROOM>(0);
    let mut ws = lists::filled::<WIRES_ROOM>(0);
    let mut out = lists::filled::<MAX_WORDS>(0);
    let a = inbytes::read(a, &mut wa);
    let b = inbytes::read(b, &mut wb);
    let wires = inbytes::read(wires, &mut ws);
    let end = join::join_with(a, b, wires, card.len() / 4, &mut out);
    inbytes::answer_of(end, &out, card)
}

// A gate list turned into a card: the number of the card's words, which stand in the front of the buffer.
#[unsafe(no_mangle)]
pub extern "C" fn card_from_gates(gates: &[u8], card: &mut [u8]) -> u64
    ensures { InBytes (to_card_outcome (of_bytes gates.now)) result card.old card.new }
{
    let mut ws = lists::filled::<CARD_ROOM>(0);
    let mut out = lists::filled::<MAX_WORDS>(0);
    let gates = inbytes::read(gates, &mut ws);
    let end = gates::to_card_with(gates, card.len() / 4, &mut out);
    inbytes::answer_of(end, &out, card)
}
