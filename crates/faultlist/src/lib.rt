// The list of faults of a call on the plain path: whether its numbers are those of faults, at most eight of them, no two of one site.
#![tactic(auto)]

ghost use Rattle.std.specs.Prelude.{◌≡◌};
ghost use Rattle.answers.specs.Tests.{first_broken};
ghost use Rattle.faultlist.specs.Faults.{too_high, at_site, site_twice, fault_tests};

use answers::{Counts, Lent, Refusal, Rule};

// Whether some number of a list is not that of one of so many faults.
fn too_high(count: usize, faults: &[u32]) -> bool
    ensures { result ≡ too_high count faults.now }
{
    faults.iter().any(|f| count <= *f as usize)
}

// Whether some number of a list is a fault of the site.
fn at_site(faults: &[u32], site: u32) -> bool
    ensures { result ≡ at_site site faults.now }
{
    faults.iter().any(|f| *f / 2 == site)
}

// Whether two numbers of a list are faults of one site.
fn site_twice(faults: &[u32]) -> bool
    ensures { result ≡ site_twice faults.now }
{
    for (i, f) in faults.iter().enumerate() {
        if at_site(&faults[i + 1..], *f / 2) {
            return true;
        }
    }
    false
}

// The tests of a call with faults after the form of its vector, for a buffer of `room` words: the list of its faults, which so many bytes
// follow that are no number, and its room.
pub fn test_faults(c: Counts, faults: Lent<'_>, room: usize) -> Result<(), Refusal>
    ensures { result ≡ first_broken (fault_tests faults.entry.extra faults.entry.words.now room c) }
{
    if too_high(c.faults, faults.words) {
        return Err(Refusal(Rule::NumberTooHigh, 0));
    }
    if 0 < faults.extra {
        return Err(Refusal(Rule::FaultListForm, 0));
    }
    if 8 < faults.words.len() {
        return Err(Refusal(Rule::FaultListForm, 0));
    }
    if site_twice(faults.words) {
        return Err(Refusal(Rule::FaultListForm, 0));
    }
    answers::test_room(c.graphs, room)
}
