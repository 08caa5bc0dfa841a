// The check of a gate list: its counts, or the first rule that it breaks, and where. It goes through the words once, forward.
#![tactic(auto)]

ghost use Rattle.std.specs.Prelude.{◌≡◌, ◌+◌, ◌≤◌, ◌<◌, length};
ghost use Rattle.word32.specs.Fields.{gate_function};
ghost use Rattle.answers.specs.Limits.{max_graphs, max_nodes, max_words};
ghost use Rattle.answers.specs.Tests.{first_broken};
ghost use Rattle.form.specs.Check.{counts};
ghost use Rattle.gatelist.specs.Form.{gate_list_length, wrong_gate, gate_tests, header_verdict, lead_verdict, leads_verdict, line_verdict, rest, gates_checked_with};

use answers::{Counts, Lent, MAX_NODES, MAX_WORDS, Refusal, Rule};
use gatelist::Function;
use word32::WordKind;

// Whether no gate has the function in the header w with n leads.
fn is_wrong_gate(w: u32, n: usize) -> bool
    ensures { result ≡ wrong_gate (gate_function w) n }
{
    match gatelist::function_of(w) {
        Some(Function::Not | Function::Buf) => n != 1,
        Some(_) => n == 0,
        None => true,
    }
}

// A gate's header. By itself: two of its four tests are not those of an output's header.
fn check_gate(w: u32, at: usize, c: Counts) -> Result<(), Refusal>
    requires { (at ≡ gate_list_length c) × (c.nodes ≤ max_nodes) }
    ensures { result ≡ first_broken (gate_tests w c) }
{
    let n = word32::node_count(w);
    if 2 < word32::kind(w) {
        return Err(Refusal(Rule::WordNotDue, at));
    }
    if word32::gate_spare(w) != 0 {
        return Err(Refusal(Rule::StrayBit, at));
    }
    if MAX_NODES < c.nodes + n {
        return Err(Refusal(Rule::NodeCount, at));
    }
    if is_wrong_gate(w, n) {
        return Err(Refusal(Rule::GateForm, at));
    }
    Ok(())
}

// Any header of a gate list.
fn check_header(w: u32, at: usize, c: Counts) -> Result<(), Refusal>
    requires { (at ≡ gate_list_length c) × (c.nodes ≤ max_nodes) }
    ensures { result ≡ header_verdict w c }
{
    cardcheck::check_header_by(w, at, c, check_gate)
}

// The word at p as a lead of a line.
fn check_lead(gates: &[u32], line: usize, p: usize) -> Result<(), Refusal>
    ensures { result ≡ lead_verdict gates.now line p }
{
    if gates.len() <= p {
        return Err(Refusal(Rule::WordNotDue, gates.len()));
    }
    let w = lists::get(gates, p);
    if !word32::is_kind(w, WordKind::Read) {
        return Err(Refusal(Rule::WordNotDue, p));
    }
    if word32::header_spare(w) != 0 {
        return Err(Refusal(Rule::StrayBit, p));
    }
    if line <= word32::read_graph(w) {
        return Err(Refusal(Rule::LeadNotEarlier, p));
    }
    Ok(())
}

// The n leads of a line, from p on.
fn check_leads(gates: &[u32], line: usize, n: usize, p: usize) -> Result<(), Refusal>
    requires { (n ≤ max_nodes) × (p ≤ max_words) }
    ensures { result ≡ leads_verdict gates.now line n p }
{
    for k in 0..n {
        check_lead(gates, line, p + k)?;
    }
    Ok(())
}

// The line whose header stands at the place due.
fn check_line(gates: &[u32], at: usize, c: Counts) -> Result<(), Refusal>
    requires { (at ≡ gate_list_length c) × (at < length gates.now) × (length gates.now ≤ max_words) × (c.nodes ≤ max_nodes) }
    ensures { result ≡ line_verdict gates.now c }
{
    let w = lists::get(gates, at);
    check_header(w, at, c)?;
    check_leads(gates, c.graphs, word32::node_count(w), at + 1)
}

// All the words, and so many bytes after them that make no word.
fn check_lines(gates: &[u32], extra: usize) -> Result<Counts, Refusal>
    requires { length gates.now ≤ max_words }
    ensures { result ≡ rest gates.now extra (max_graphs + 1) (counts 0 0 0 0) }
{
    let mut c = Counts::default();
    let mut at = 0;
    while at < gates.len() {
        check_line(gates, at, c)?;
        c = cardcheck::with_graph(lists::get(gates, at), c);
        at = c.graphs + c.nodes;
    }
    cardcheck::finish(gates.len(), extra, c)
}

// The check of a gate list as it is lent.
pub fn check_lent(gates: Lent<'_>) -> Result<Counts, Refusal>
    ensures { result ≡ gates_checked_with gates.entry.words.now gates.entry.extra }
{
    if MAX_WORDS < gates.words.len() {
        return Err(Refusal(Rule::CardTooLong, 0));
    }
    check_lines(gates.words, gates.extra)
}
