// Reads a card's word count, the card and vector words from standard input, and prints the grading, or why there is none.
// What is printed for the bytes read is the contract of report::report. How many bytes decide is that of report::wanted: the
// text of so many is the text of all (the law `text-front` of report's proofs), so an input without end has its line too.
// Fewer are graded only where a read answered that the input ends: so the text is that of the whole input, given what is
// trusted of the reads (the law `whole-input`, proofs/Whole.antt). For a reader and a writer whose bytes are known that is
// the contract of `grade`, and nothing is trusted. A read that fails is no end of the input: then nothing is printed but a
// message on standard error.
#![tactic(auto)]

ghost use Rattle.std.specs.Prelude.{◌≡◌, ◌≤◌, length, take, OnOk, IfSome};
ghost use Rattle.std.specs.Io.KnownBytes.{Appends};
ghost use Rattle.report.specs.Report.{max_input, text_of};
ghost use Rattle.cardinput.specs.Known.{told_in};
ghost use Rattle.cardgrade.specs.declared.Failure.TheVariants.{Unread};
ghost use Rattle.cardgrade.specs.Whole.{CameAll, FirstOf};

use cardinput::Unread;
use cardinput::reads::Source;
use report::MAX_INPUT;
use std::io;
use std::io::{Eprint, Read, Write};
use std::process::ExitCode;
use textlines::MAX_TEXT;

// Why nothing, or not all, was printed.
#[derive(Drop)]
enum Failure {
    Unread(io::Error),
    Unwritten(io::Error),
}

impl From<Unread> for Failure {
    ghost from_gives = { λ u f. f ≡ Unread u.error };

    fn from(unread: Unread) -> Failure {
        Failure::Unread(unread.error)
    }
}

// Room for N bytes.
fn room<const N: usize>() -> [u8; N]
    ensures { N ≡ length result }
{
    [0; N]
}

// Reads the word count, and then the bytes that it makes wanted.
fn read_input<R: Read>(reader: &mut R, input: &mut [u8]) -> Result<Source, Unread>
    requires { max_input ≤ length input.old }
    ensures came { CameAll input.new result }
    ensures first { IfSome (R.remaining reader.old) (λ w. FirstOf w input.new (told_in result)) }
{
    let source = cardinput::read_on(reader, input, Source::start(), 4)?;
    if source.handed() < 4 {
        return Ok(source);
    }
    let wanted = report::wanted(&input[..4]);
    cardinput::read_on(reader, input, source, wanted)
}

// Prints the text for the bytes read. It asks that they are all, and that no read failed.
fn print_report<W: Write>(writer: &mut W, input: &[u8], source: Source) -> io::Result<()>
    requires { CameAll input.now (Ok source) × (max_input ≤ length input.now) }
    ensures { OnOk result (Appends (W.contents writer.old) (W.contents writer.new) (text_of (take source.handed input.now))) }
{
    let n = source.handed();
    let mut text = room::<MAX_TEXT>();
    let long = report::report(&input[..n], &mut text);
    writer.write_all(&text[..long])
}

// Grades all that a reader has: the text is that of the whole input.
fn grade<R: Read, W: Write>(reader: &mut R, writer: &mut W) -> Result<(), Failure>
    ensures { OnOk result (IfSome (R.remaining reader.old) (λ w. Appends (W.contents writer.old) (W.contents writer.new) (text_of w))) }
{
    let mut input = room::<MAX_INPUT>();
    let source = read_input(reader, &mut input)?;
    print_report(writer, &input, source).map_err(Failure::Unwritten)
}

// Says what failed, and why. Where standard error does not take it there is nobody to tell.
fn fail<P: Eprint>(rt: &P, what: &str, why: io::Error) -> ExitCode {
    let _ = eprintln!(rt; "cardgrade: {what}: {why}");
    ExitCode::FAILURE
}

fn main(rt: HostRuntime) -> ExitCode {
    match grade(&mut rt.stdin(), &mut rt.stdout()) {
        Ok(()) => ExitCode::SUCCESS,
        Err(Failure::Unread(e)) => fail(&rt, "cannot read standard input", e),
        Err(Failure::Unwritten(e)) => fail(&rt, "standard output did not take the whole text", e),
    }
}
