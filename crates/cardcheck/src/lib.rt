// The check of a card: its counts, or the first of document 01's rules that it breaks, and where.
// It goes through the words once, forward, each word by the reader.
#![tactic(auto)]

ghost use Rattle.std.specs.Prelude.{◌≡◌, ◌+◌, ◌≤◌, eqb};
ghost use Rattle.lists.specs.Counting.{choose};
ghost use Rattle.word32.specs.Fields.{kind};
ghost use Rattle.form.specs.Check.{counts, card_length, with_graph, input_tests, output_tests, header_verdict, rest, lent_check};
ghost use Rattle.answers.specs.Limits.{max_graphs, max_nodes};
ghost use Rattle.answers.specs.Calls.{lends, whole};
ghost use Rattle.answers.specs.Tests.{first_broken};
ghost use Rattle.nodecheck.specs.Table.{Blank};
ghost use Rattle.answers.specs.Answers.{Verdict};
ghost use Rattle.cardcheck.specs.Graph.{header_by, EndTold, DueAfter, opening_of, OpeningTold, Few, GraphTold};

use answers::{Counts, Lent, MAX_GRAPHS, MAX_NODES, MAX_WORDS, Refusal, Rule};
use nodecheck::Named;
use reader::{Due, Reader};
use word32::WordKind;

// A sound header: its word, where it stands, and how many nodes follow.
#[derive(Clone, Copy)]
struct Header {
    word: u32,
    at: usize,
    nodes: usize,
}

// An input's header.
pub fn check_input(w: u32, at: usize, c: Counts) -> Result<(), Refusal>
    ensures { result ≡ first_broken (input_tests w at c) }
{
    if c.inputs < c.graphs {
        return Err(Refusal(Rule::WordNotDue, at));
    }
    if word32::input_spare(w) != 0 {
        return Err(Refusal(Rule::StrayBit, at));
    }
    Ok(())
}

// An output's header. By itself: two of its four tests are not those of a gate's header.
fn check_output(w: u32, at: usize, c: Counts) -> Result<(), Refusal>
    requires { (at ≡ card_length c) × (c.nodes ≤ max_nodes) }
    ensures { result ≡ first_broken (output_tests w c) }
{
    let n = word32::node_count(w);
    if 2 < word32::kind(w) {
        return Err(Refusal(Rule::WordNotDue, at));
    }
    if word32::header_spare(w) != 0 {
        return Err(Refusal(Rule::StrayBit, at));
    }
    if n == 0 {
        return Err(Refusal(Rule::NodeCount, at));
    }
    if MAX_NODES < c.nodes + n {
        return Err(Refusal(Rule::NodeCount, at));
    }
    Ok(())
}

// Any header, where `other` checks what is no input.
pub fn check_header_by<F: FnOnce(u32, usize, Counts) -> Result<(), Refusal>>(
    w: u32,
    at: usize,
    c: Counts,
    other: F,
) -> Result<(), Refusal>
    requires { F.pre other w at c }
    ensures { (v : Verdict) → ((r : Verdict) → F.post other w at c r → r ≡ v) → result ≡ header_by w at c v }
{
    if MAX_GRAPHS <= c.graphs {
        return Err(Refusal(Rule::TooManyGraphs, at));
    }
    if word32::is_kind(w, WordKind::Input) {
        return check_input(w, at, c);
    }
    other(w, at, c)
}

// Any header of a card.
fn check_header(w: u32, at: usize, c: Counts) -> Result<(), Refusal>
    requires { (at ≡ card_length c) × (c.nodes ≤ max_nodes) }
    ensures { result ≡ header_verdict w c }
{
    check_header_by(w, at, c, check_output)
}

// The counts with one graph more, whose header is w.
pub fn with_graph(w: u32, c: Counts) -> Counts
    requires { Few c }
    ensures { result ≡ with_graph w c }
{
    let inputs = c.inputs + usize::from(word32::is_kind(w, WordKind::Input));
    let graphs = c.graphs + 1;
    let nodes = c.nodes + word32::node_count(w);
    let observable = c.observable + usize::from(word32::is_kind(w, WordKind::Observable));
    Counts {
        inputs,
        graphs,
        nodes,
        observable,
        faults: 2 * nodes + 2 * graphs,
    }
}

// The words end after the graphs that c counts; len is how many they are.
pub fn finish(len: usize, extra: usize, c: Counts) -> Result<Counts, Refusal>
    ensures { EndTold len extra c result }
{
    if 0 < extra {
        return Err(Refusal(Rule::WordNotDue, len));
    }
    if c.observable == 0 {
        return Err(Refusal(Rule::NothingObservable, len));
    }
    Ok(c)
}

// A header that is due.
fn open_word(w: u32, at: usize, c: Counts) -> Result<Header, Refusal>
    requires { (at ≡ card_length c) × (c.nodes ≤ max_nodes) }
    ensures { result ≡ opening_of (header_verdict w c) w at }
{
    check_header(w, at, c)?;
    let nodes = word32::node_count(w);
    Ok(Header { word: w, at, nodes })
}

// What is due after the graphs that c counts: the header of one graph more, or none where the words end.
fn open_graph(due: Due, c: Counts, extra: usize) -> Result<Option<Header>, Refusal>
    requires { (c.nodes ≤ max_nodes) × DueAfter due c }
    ensures { OpeningTold due c extra result }
{
    match due {
        Ok((w, at)) => Ok(Some(open_word(w, at, c)?)),
        Err(len) => {
            finish(len, extra, c)?;
            Ok(None)
        }
    }
}

// The graph whose header and nodes are read, and are sound: whether each node is named, and then the counts with it. The table is blank again.
fn close_graph(h: Header, c: Counts, table: &mut Named) -> Result<Counts, Refusal>
    requires { (h.nodes ≤ max_nodes) × Few c }
    ensures { GraphTold h c table.old table.new result }
{
    if nodecheck::take_unnamed(table, h.nodes) {
        return Err(Refusal(Rule::NodeNotNamed, h.at));
    }
    Ok(with_graph(h.word, c))
}

// All the words, and so many bytes after them that make no word: one reader goes from the first word to the last.
fn check_words(card: &[u32], extra: usize, table: &mut Named) -> Result<Counts, Refusal>
    requires { Blank table.old }
    ensures { result ≡ rest card.now extra (max_graphs + 1) (counts 0 0 0 0) }
{
    let mut r = Reader::new(card, 0);
    let mut c = Counts::default();
    while let Some(h) = open_graph(r.next(), c, extra)? {
        nodecheck::check_nodes(&mut r, c.graphs, h.nodes, table)?;
        c = close_graph(h, c, table)?;
    }
    Ok(c)
}

// The check of a card as it is lent.
pub fn check_lent(card: Lent<'_>) -> Result<Counts, Refusal>
    ensures { result ≡ lent_check (lends card.entry) }
{
    if MAX_WORDS < card.words.len() {
        return Err(Refusal(Rule::CardTooLong, 0));
    }
    let mut table: Named = lists::filled(0);
    check_words(card.words, card.extra, &mut table)
}

// The check of a card.
pub fn check(card: &[u32]) -> Result<Counts, Refusal>
    ensures { result ≡ lent_check (whole card.now) }
{
    check_lent(Lent::whole(card))
}
