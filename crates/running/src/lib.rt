// The running result of a grading: it takes in what one vector catches at a time. No card is in it: the marks and the tallies of the faults lie in two
// lent buffers, two words of each for each site, and a word for each site tells whether its two faults count in the grade.
#![tactic(auto)]

ghost use Rattle.std.specs.Prelude.{◌≡◌, ◌+◌, ◌*◌, ◌≤◌, ◌<◌, length, get_or, eqb};
ghost use Rattle.answers.specs.Limits.{max_sites, max_vectors};
ghost use Rattle.running.specs.Running.{Put, in_grade_by, found, Folded, TalliesUpTo, Counted};

use answers::FIRST_MARK;

// Site p, where the fault stuck at d is caught, or none if d is 2: its tally, its mark at the first catch, and the marked count, in which the fault
// counts if the site's word in `graded` is 1. The word is looked at no earlier.
fn take_site(
    t: u32,
    p: usize,
    d: u32,
    graded: &[u32],
    marked: usize,
    marks: &mut [u32],
    tallies: &mut [u32],
) -> usize
    requires { (t < max_vectors) × (marked < 65536) × (p < max_sites) × (p < length graded.now) × (2 * p + 1 < length marks.old) × (2 * p + 1 < length tallies.old)
        × TalliesUpTo t (2 * p) (2 * p + 2) tallies.old }
    ensures { Put t p d (eqb (get_or graded.now p 0) 1) marks.old tallies.old marked marks.new tallies.new result }
{
    if 2 <= d {
        return marked;
    }
    let f = 2 * p + d as usize;
    let n = lists::get(tallies, f);
    lists::put(tallies, f, n + 1);
    if 0 < n {
        return marked;
    }
    lists::put(marks, f, FIRST_MARK + t);
    if lists::get(graded, p) != 1 {
        return marked;
    }
    marked + 1
}

// All n sites; the word of each in `graded` is 1 where its faults count.
fn take_sites(
    t: u32,
    n: usize,
    caught: &[u32],
    graded: &[u32],
    marked: usize,
    marks: &mut [u32],
    tallies: &mut [u32],
) -> usize
    requires { (t < max_vectors) × (n ≤ max_sites) × (n ≤ length caught.now) × (n ≤ length graded.now) × (2 * n ≤ length marks.old)
        × (2 * n ≤ length tallies.old) × (marked ≡ found (in_grade_by graded.now) tallies.old (2 * n)) × TalliesUpTo t 0 (2 * n) tallies.old }
    ensures { (result ≡ found (in_grade_by graded.now) tallies.new (2 * n))
        × Folded t n caught.now marks.old tallies.old marks.new tallies.new }
{
    let mut m = marked;
    for p in 0..n {
        m = take_site(t, p, lists::get(caught, p), graded, m, marks, tallies);
    }
    m
}

// The running result of a grading: the number of the vector that is due, and how many of the faults that count are marked.
#[derive(Clone, Copy, Default)]
pub struct Running {
    pub vector: u32,
    pub marked: usize,
}

impl Running {
    // Before the first vector.
    pub fn start() -> Running
        ensures { (result.vector ≡ 0) × (result.marked ≡ 0) }
    {
        Running::default()
    }

    // Takes in what one vector catches at n sites and hands the next result back. What it promises holds of any two buffers that the result counts.
    pub fn take_in(
        self,
        n: usize,
        caught: &[u32],
        graded: &[u32],
        marks: &mut [u32],
        tallies: &mut [u32],
    ) -> Running
        requires { (self.vector < max_vectors) × (n ≤ max_sites) × (n ≤ length caught.now) × (n ≤ length graded.now)
            × Counted (in_grade_by graded.now) (2 * n) marks.old tallies.old self }
        ensures { (result.vector ≡ self.vector + 1)
            × Folded self.vector n caught.now marks.old tallies.old marks.new tallies.new
            × Counted (in_grade_by graded.now) (2 * n) marks.new tallies.new result }
    {
        let t = self.vector;
        let marked = take_sites(t, n, caught, graded, self.marked, marks, tallies);
        Running {
            vector: t + 1,
            marked: marked,
        }
    }
}
