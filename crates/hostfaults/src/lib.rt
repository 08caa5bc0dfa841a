// A list of faults in bytes, read into words. It may be of any length, and a number too high is refused before the length is looked at, so that all of it is
// looked at, however long.
#![tactic(auto)]

ghost use Rattle.std.specs.Prelude.{◌≡◌, length};
ghost use Rattle.answers.specs.Calls.{lends};
ghost use Rattle.hostfaults.specs.Faults.{Highest, FaultsRead, FaultsLent};

use answers::Lent;

// The numbers of any list of faults, and one number more, by which a longer one is refused.
pub const FAULTS_ROOM: usize = 9;

// The highest of a number and those of a list in bytes from its tenth on.
fn highest(faults: &[u8], start: u32) -> u32
    ensures { Highest faults.now start result }
{
    let mut high = start;
    for i in 9..faults.len() / 4 {
        high = high.max(word32::word_at(faults, i));
    }
    high
}

// A list of faults in bytes goes to the front of a buffer; of a list that is too long, nine numbers, of which the last is the highest of the rest, so that
// it is refused for a number too high where the list is.
pub fn read_faults(faults: &[u8], out: &mut [u32]) -> usize
    requires { 9 ≡ length out.old }
    ensures { FaultsRead faults.now result out.new }
{
    let n = inbytes::read_words(faults, out);
    if faults.len() / 4 < 9 {
        return n;
    }
    out[8] = highest(faults, out[8]);
    9
}

// The numbers that are read, lent from there.
pub fn lend_faults<'a>(faults: &[u8], out: &'a mut [u32]) -> Lent<'a>
    requires { 9 ≡ length out.old }
    ensures { FaultsLent faults.now (lends result) }
{
    let n = read_faults(faults, out);
    Lent {
        words: &out[..n],
        extra: faults.len() % 4,
    }
}
