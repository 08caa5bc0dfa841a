// A block of vectors taken in by the running result of a grading, one vector after the other.
#![tactic(auto)]

ghost use Rattle.std.specs.Prelude.{◌≡◌, ◌+◌, ◌≤◌, ◌<◌, min, length};
ghost use Rattle.cardtables.specs.Stems.{in_grade};
ghost use Rattle.cardtables.specs.Tables.{Tabled};
ghost use Rattle.testvectors.specs.Vectors.{vectors as many};
ghost use Rattle.running.specs.Running.{Counted};
ghost use Rattle.block.specs.Block.{block_vectors, BlockEnd, Block, TookIn, Begun};

use answers::{Counts, MAX_SITES, UNMARKED};
use cardtables::Tables;
use critical::Walk;
use running::Running;

// Before the first vector: no fault is marked, and every tally is 0.
pub fn begin(c: Counts, marks: &mut [u32], tallies: &mut [u32]) -> Running
    requires { (c.faults ≤ length marks.old) × (c.faults ≤ length tallies.old) }
    ensures { Begun c marks.old tallies.old marks.new tallies.new result }
{
    lists::fill(marks, c.faults, UNMARKED);
    lists::fill(tallies, c.faults, 0);
    Running::start()
}

// The most vectors of a block.
pub const BLOCK: usize = 64;

// Where the block ends that starts at vector t of n: after 64 vectors, or after the last.
pub fn block_end(t: usize, n: usize) -> usize
    requires { t < n }
    ensures { BlockEnd t n result × (result ≡ min (t + block_vectors) n) }
{
    t + BLOCK.min(n - t)
}

// Takes in a block of vectors given as words and hands the next result back.
pub fn take_block(
    r: Running,
    card: &[u32],
    c: Counts,
    tables: &Tables,
    vectors: &[u32],
    marks: &mut [u32],
    tallies: &mut [u32],
) -> Running
    requires { Tabled card.now c tables.now × Block c vectors.now r.vector
        × Counted (in_grade card.now c) c.faults marks.old tallies.old r }
    ensures { TookIn card.now c vectors.now (many c.inputs vectors.now) marks.old tallies.old
        marks.new tallies.new r result }
{
    let mut values = lists::filled::<MAX_SITES>(0);
    let mut walk: Walk = lists::filled(0);
    let mut caught = lists::filled::<MAX_SITES>(0);
    let n = testvectors::count_vectors(c.inputs, vectors);
    let all = c.nodes + c.graphs;
    let words = &tables[..];
    let graded = &words[cardtables::grade_words()..];
    let mut q = r;
    for i in 0..n {
        let vector = testvectors::vector_at(c.inputs, vectors, i);
        catches::catch_vector(card, c, tables, vector, &mut values, &mut walk, &mut caught);
        q = q.take_in(all, &caught, graded, marks, tallies);
    }
    q
}
