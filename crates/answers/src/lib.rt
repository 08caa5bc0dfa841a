// The rules of documents 01 and 02, the answers of a check and the replies of calls; in specs/ document 01's numbers for each, how tests come in their order, and
// how any call goes.
#![tactic(auto)]

ghost use Rattle.std.specs.Prelude.{◌≡◌};
ghost use Rattle.answers.specs.Answers.{number_of};
ghost use Rattle.answers.specs.Tests.{first_broken, room_test, room_tests};
ghost use Rattle.answers.specs.Ends.{ending};

// The limits of a card and of a list of vectors; specs/Limits.antt has the same.
pub const MAX_GRAPHS: usize = 1024;

pub const MAX_NODES: usize = 4096;

pub const MAX_WORDS: usize = MAX_GRAPHS + 2 * MAX_NODES;

pub const MAX_SITES: usize = MAX_NODES + MAX_GRAPHS;

pub const MAX_FAULTS: usize = 2 * MAX_SITES;

pub const MAX_VECTORS: usize = 65535;

pub const MAX_WIDTH: usize = MAX_GRAPHS / 16;

// The mark of a fault that no vector of the list catches, and of one that vector 0 catches; where vector t is the earliest, the mark is FIRST_MARK + t.
pub const UNMARKED: u32 = 0xC000_0000;

pub const FIRST_MARK: u32 = 0xE000_0000;

// The rules of document 01's table of refusals, and those of the later requests. As a `u32` each is its number.
#[derive(Clone, Copy, PartialEq, Eq, Debug)]
pub enum Rule {
    CardTooLong,
    TooManyGraphs,
    NodeCount,
    WordNotDue,
    StrayBit,
    ReadNotBelow,
    ExitNotLater,
    NodeNotNamed,
    NothingObservable,
    VectorForm,
    NumberTooHigh,
    BufferTooShort,
    WireForm,
    JoinedTooLarge,
    GateForm,
    LeadNotEarlier,
    FaultListForm,
}

// Why something is refused: the first rule that it breaks, and where.
#[derive(Clone, Copy, PartialEq, Eq, Debug)]
pub struct Refusal(pub Rule, pub usize);

// What is lent to a call: whole words, and how many bytes follow them that make no word. By words there are none.
#[derive(Clone, Copy)]
pub struct Lent<'a> {
    pub words: &'a [u32],
    pub extra: usize,
}

impl<'a> Lent<'a> {
    pub fn whole(words: &'a [u32]) -> Lent<'a>
        ensures { (result.words ≡ words.entry) × (result.extra ≡ 0) }
    {
        Lent { words, extra: 0 }
    }
}

// The numbers that a check answers.
#[derive(Clone, Copy, PartialEq, Eq, Debug, Default)]
pub struct Counts {
    pub inputs: usize,
    pub graphs: usize,
    pub nodes: usize,
    pub observable: usize,
    pub faults: usize,
}

// What a call is done with: the number that it tells beside its buffers (the length of a change list, the marked count of a grading, the number of words of a
// joined card or of the card of a gate list, else 0), and how many words it wrote to the front of its buffer, and of a second one.
#[derive(Clone, Copy, PartialEq, Eq, Debug)]
pub struct Done {
    pub number: usize,
    pub words: usize,
    pub more: usize,
}

// How a call ended, part by part: its reply, and how many words it wrote to the front of its buffer, and of a second one.
#[derive(Clone, Copy, PartialEq, Eq, Debug)]
pub struct Ending {
    pub reply: Result<usize, Refusal>,
    pub words: usize,
    pub more: usize,
}

// Of a worker that is done, or refused: then it wrote none.
impl From<Result<Done, Refusal>> for Ending {
    ghost from_gives = { λ r e. e ≡ ending r };

    fn from(end: Result<Done, Refusal>) -> Ending {
        match end {
            Ok(done) => Ending {
                reply: Ok(done.number),
                words: done.words,
                more: done.more,
            },
            Err(refusal) => Ending {
                reply: Err(refusal),
                words: 0,
                more: 0,
            },
        }
    }
}

// A rule's number: 1 to 12 in document 01, from 13 on in document 02.
impl From<Rule> for u32 {
    ghost from_gives = { λ rule n. n ≡ number_of rule };

    #[tactic(auto, unfolding(crate::specs::Answers::number_of))]
    fn from(rule: Rule) -> u32 {
        match rule {
            Rule::CardTooLong => 1,
            Rule::TooManyGraphs => 2,
            Rule::NodeCount => 3,
            Rule::WordNotDue => 4,
            Rule::StrayBit => 5,
            Rule::ReadNotBelow => 6,
            Rule::ExitNotLater => 7,
            Rule::NodeNotNamed => 8,
            Rule::NothingObservable => 9,
            Rule::VectorForm => 10,
            Rule::NumberTooHigh => 11,
            Rule::BufferTooShort => 12,
            Rule::WireForm => 13,
            Rule::JoinedTooLarge => 14,
            Rule::GateForm => 15,
            Rule::LeadNotEarlier => 16,
            Rule::FaultListForm => 17,
        }
    }
}

// The room of a buffer of so many words, which wants n.
pub fn test_room(n: usize, room: usize) -> Result<(), Refusal>
    ensures { result ≡ first_broken (room_test n room) }
{
    if room < n {
        return Err(Refusal(Rule::BufferTooShort, 0));
    }
    Ok(())
}

// The room of two buffers of so many words, each of which wants n.
#[tactic(auto, unfolding(crate::specs::Tests::room_tests))]
pub fn test_rooms(n: usize, first: usize, second: usize) -> Result<(), Refusal>
    ensures { result ≡ first_broken (room_tests n first second) }
{
    test_room(n, first)?;
    if second < n {
        return Err(Refusal(Rule::BufferTooShort, 1));
    }
    Ok(())
}
