// Reads of an input, one after the other. What they told is kept in a `Source`, and only this module can make one, since its
// fields are private. So no other function can make up an end of the input, or a byte: it has what the reads told.
ghost use Rattle.std.specs.Prelude.{◌≡◌, ◌+◌, ◌^◌, ◌<◌, ◌≤◌, ℕ, List, length, take, Option, IfOk};
ghost use Rattle.std.specs.Io.{ReadsAtMost};
ghost use Rattle.std.specs.Io.KnownBytes.{ReadConsumes};
ghost use Rattle.cardinput.specs.declared.reads.Answer.TheVariants.{Bytes};
ghost use Rattle.cardinput.specs.Reads.{told_by, Grown};
ghost use Rattle.cardinput.specs.Known.{FrontOf};

use std::io;
use std::io::{ErrorKind, Read};

// What one read answered: so many bytes, one or more; none, at the end of the input; or that it failed, and why. An enum of its own, since these are three,
// and the law `whole-input` speaks of the end by its name.
#[derive(Clone, Copy)]
pub enum Answer {
    Bytes(usize),
    End,
    Failed(io::Error),
}

// How many bytes the reads have handed out, and what the last of them answered.
#[derive(Clone, Copy)]
pub struct Source {
    handed: usize,
    last: Answer,
}

impl Source {
    // Before the first read there are no bytes, and no end is told.
    pub fn start() -> Source
        ensures { (result.handed ≡ 0) × (result.last ≡ Bytes 0) }
    {
        Source {
            handed: 0,
            last: Answer::Bytes(0),
        }
    }

    pub fn handed(self) -> usize
        ensures { result ≡ self.handed }
    {
        self.handed
    }

    pub fn last(self) -> Answer
        ensures { result ≡ self.last }
    {
        self.last
    }

    // What a read tells by its answer, after so many bytes: 0, and no other number, is the end.
    fn told(handed: usize, got: io::Result<usize>) -> Source
        requires { IfOk got (λ n. handed + n < 2 ^ 64) }
        ensures { result ≡ told_by handed got }
    {
        match got {
            Ok(0) => Source {
                handed,
                last: Answer::End,
            },
            Ok(n) => Source {
                handed: handed + n,
                last: Answer::Bytes(n),
            },
            Err(error) => Source {
                handed,
                last: Answer::Failed(error),
            },
        }
    }

    // One read more, up to the bytes wanted, right behind those that the reads have handed out, which stay as they are. At least one
    // byte is asked for: a read of none answers 0 where the input has not ended.
    pub fn read_more<R: Read>(self, reader: &mut R, input: &mut [u8], wanted: usize) -> Source
        requires { (self.handed < wanted) × (wanted ≤ length input.old) }
        ensures handed_le_wanted { (result.handed ≤ wanted) × Grown self.handed result.handed result.last }
        ensures input_unchanged { take self.handed input.new ≡ take self.handed input.old }
        ensures front { (known : Option (List ℕ)) → FrontOf known (R.remaining reader.old) self input.old
            → FrontOf known (R.remaining reader.new) result input.new }
    {
        let at = self.handed;
        let got = read_some(reader, &mut input[at..wanted]);
        Source::told(at, got)
    }
}

// One read. One that a signal interrupts is tried again, a hundred times in all.
fn read_some<R: Read>(reader: &mut R, room: &mut [u8]) -> io::Result<usize>
    ensures moved { ReadsAtMost result room.new }
    ensures gave { ReadConsumes (R.remaining reader.old) (R.remaining reader.new) result room.new }
{
    // counted by hand: a range that counts the tries could not be planted to try for ever (must-fail/tried_for_ever)
    let mut tries: usize = 0;
    while tries < 99 {
        match reader.read(room) {
            Err(error) if error.kind() == ErrorKind::Interrupted => {}
            answer => return answer,
        }
        tries += 1;
    }
    reader.read(room)
}
