// An input, read on until the bytes wanted are there or it ends. A read that fails is no end of the input.
#![tactic(auto)]

pub mod reads;

ghost use Rattle.std.specs.Prelude.{◌≡◌, false, ◌≤◌, ℕ, List, length, take, Option};
ghost use Rattle.cardinput.specs.Reads.{failed};
ghost use Rattle.cardinput.specs.Reading.{Came};
ghost use Rattle.cardinput.specs.Known.{FrontOf, told_in};

use reads::{Answer, Source};
use std::io;
use std::io::Read;

// A read failed: what the reads told, that one with them, and why it failed.
#[derive(Clone, Copy)]
pub struct Unread {
    pub source: Source,
    pub error: io::Error,
}

// Reads on, until the bytes wanted are there or the input ends: as many as were wanted, or all that there were. Those that were there stay.
pub fn read_on<R: Read>(
    reader: &mut R,
    input: &mut [u8],
    mut source: Source,
    wanted: usize,
) -> Result<Source, Unread>
    requires { (source.handed ≤ wanted) × (wanted ≤ length input.old) × (failed source.last ≡ false) }
    ensures came { Came wanted result }
    ensures input_unchanged { take source.handed input.new ≡ take source.handed input.old }
    ensures front { (known : Option (List ℕ)) → FrontOf known (R.remaining reader.old) source input.old
        → FrontOf known (R.remaining reader.new) (told_in result) input.new }
{
    while source.handed() < wanted {
        source = source.read_more(reader, input, wanted);
        match source.last() {
            Answer::Failed(error) => return Err(Unread { source, error }),
            Answer::End => return Ok(source),
            Answer::Bytes(_) => {}
        }
    }
    Ok(source)
}
