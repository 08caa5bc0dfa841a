// What is lent in bytes, each word four of them, highest byte first: it is read into words. And how a host's call ends: its one number, and its words as
// bytes.
#![tactic(auto)]

ghost use Rattle.std.specs.Prelude.{◌≡◌, ◌+◌, ◌*◌, ◌≤◌, ◌<◌, min, length, take, Err};
ghost use Rattle.answers.specs.Answers.{refused};
ghost use Rattle.answers.specs.Ends.{reply_of, written, written_more, clip, Stands};
ghost use Rattle.answers.specs.Calls.{lends};
ghost use Rattle.inbytes.specs.Calls.{of_bytes, host_answer, as_bytes};
ghost use Rattle.inbytes.specs.Read.{WordsRead};

use answers::{Done, Ending, Lent, MAX_GRAPHS, MAX_WIDTH, MAX_WORDS, Refusal, Rule};

// The words of any card, of any vector and of any wires, and one word more, by which longer ones are refused.
pub const CARD_ROOM: usize = MAX_WORDS + 1;

pub const VECTOR_ROOM: usize = MAX_WIDTH + 1;

pub const WIRES_ROOM: usize = MAX_GRAPHS + 1;

// The words of some bytes, as many as there are or as fit, go to the front of a buffer; the result is their number.
pub fn read_words(b: &[u8], out: &mut [u32]) -> usize
    ensures { WordsRead b.now (length out.old) result out.new }
{
    let n = (b.len() / 4).min(out.len());
    word32::words_of(&b[..n * 4], out)
}

// What is lent in bytes: its words, as many as there are or as fit, go to the front of a buffer, and are lent from there.
pub fn read<'a>(b: &[u8], out: &'a mut [u32]) -> Lent<'a>
    ensures { lends result ≡ clip (length out.old) (of_bytes b.now) }
{
    let n = read_words(b, out);
    Lent {
        words: &out[..n],
        extra: b.len() % 4,
    }
}

// The one number for a refusal.
fn refusal(rule: Rule, position: usize) -> u64
    requires { position < 4294967296 }
    ensures { result ≡ host_answer (Err (refused rule position)) }
{
    u32::from(rule) as u64 * 4294967296 + position as u64
}

// The answer of a call that has ended, and the words that it wrote as bytes in the lent buffer.
pub fn answer(end: Ending, out: &[u32], buffer: &mut [u8]) -> u64
    requires { Stands end.reply × (end.words ≤ length out.now) × (end.words * 4 ≤ length buffer.old) }
    ensures { (result ≡ host_answer end.reply) × (buffer.new ≡ as_bytes (take end.words out.now) buffer.old) }
{
    word32::bytes_of(&out[..end.words], buffer);
    match end.reply {
        Ok(number) => number as u64,
        Err(Refusal(rule, position)) => refusal(rule, position),
    }
}

// The same with two buffers.
pub fn answer_both(
    end: Ending,
    out: &[u32],
    more: &[u32],
    buffer: &mut [u8],
    second: &mut [u8],
) -> u64
    requires { Stands end.reply × (end.words ≤ length out.now) × (end.words * 4 ≤ length buffer.old)
        × (end.more ≤ length more.now) × (end.more * 4 ≤ length second.old) }
    ensures { (result ≡ host_answer end.reply) × (buffer.new ≡ as_bytes (take end.words out.now) buffer.old)
        × (second.new ≡ as_bytes (take end.more more.now) second.old) }
{
    word32::bytes_of(&more[..end.more], second);
    answer(end, out, buffer)
}

// The answer for what a worker ended with, which writes nothing where it is refused.
pub fn answer_of(end: Result<Done, Refusal>, out: &[u32], buffer: &mut [u8]) -> u64
    requires { Stands (reply_of end) × (written end ≤ length out.now) × (written end * 4 ≤ length buffer.old) }
    ensures { (result ≡ host_answer (reply_of end)) × (buffer.new ≡ as_bytes (take (written end) out.now) buffer.old) }
{
    answer(Ending::from(end), out, buffer)
}

// The same with two buffers.
pub fn answer_both_of(
    end: Result<Done, Refusal>,
    out: &[u32],
    more: &[u32],
    buffer: &mut [u8],
    second: &mut [u8],
) -> u64
    requires { Stands (reply_of end) × (written end ≤ length out.now) × (written end * 4 ≤ length buffer.old)
        × (written_more end ≤ length more.now) × (written_more end * 4 ≤ length second.old) }
    ensures { (result ≡ host_answer (reply_of end)) × (buffer.new ≡ as_bytes (take (written end) out.now) buffer.old)
        × (second.new ≡ as_bytes (take (written_more end) more.now) second.old) }
{
    answer_both(Ending::from(end), out, more, buffer, second)
}
