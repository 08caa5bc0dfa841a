// 32-bit words: their fields, by shifts and masks, and the bytes that hold them, highest byte first.
#![tactic(auto)]

ghost use Rattle.std.specs.Prelude.{◌≡◌, ◌+◌, ◌*◌, ◌/◌, ◌<◌, ◌≤◌, eqb, length};
ghost use Rattle.lists.specs.Tables.{over};
ghost use Rattle.word32.specs.Fields.{kind, code_of, input_spare, header_spare, read_spare, exits_spare, node_count, read_graph, read_inverted, with_read, exit_of, bit_of};
ghost use Rattle.word32.specs.Fields.{header_word, exits_word, gate_function, gate_spare};
ghost use Rattle.word32.specs.Bytes.{word_at, set_word, byte_of};

// What a word is, in the order of the numbers in its bits 31..29: the header of an input, of a hidden graph or of an observable one; a node's read, and
// its pair of exits; or a word of a vector.
#[derive(Clone, Copy, PartialEq, Eq, Debug)]
pub enum WordKind {
    Input,
    Hidden,
    Observable,
    Read,
    Exits,
    Vector,
}

// Each field is written out: `(w >> 16) & 0x1FFF` is no longer than a call of one generic function, and shows the bits.

// Bits 31..29: what kind of word it is.
pub fn kind(w: u32) -> u32
    ensures { result ≡ kind w }
{
    w >> 29
}

// Whether a word is of kind k.
pub fn is_kind(w: u32, k: WordKind) -> bool
    ensures { result ≡ eqb (kind w) (code_of k) }
{
    kind(w) == k as u32
}

// Bits 28..0, which must be zero in an input.
pub fn input_spare(w: u32) -> u32
    ensures { result ≡ input_spare w }
{
    w & 0x1FFF_FFFF
}

// Bits 28..16, which must be zero in a header.
pub fn header_spare(w: u32) -> u32
    ensures { result ≡ header_spare w }
{
    (w >> 16) & 0x1FFF
}

// Bits 28..17, which must be zero in a read.
pub fn read_spare(w: u32) -> u32
    ensures { result ≡ read_spare w }
{
    (w >> 17) & 0xFFF
}

// Bit 28, which must be zero in a pair of exits.
pub fn exits_spare(w: u32) -> u32
    ensures { result ≡ exits_spare w }
{
    (w >> 28) & 1
}

// Bits 15..0 of a header: how many nodes follow.
pub fn node_count(w: u32) -> usize
    ensures { result ≡ node_count w }
{
    (w & 0xFFFF) as usize
}

// Bits 15..0 of a read: which graph is read.
pub fn read_graph(w: u32) -> usize
    ensures { result ≡ read_graph w }
{
    (w & 0xFFFF) as usize
}

// Bit 16 of a read: 1 where it is inverted.
pub fn read_inverted(w: u32) -> u32
    ensures { result ≡ read_inverted w }
{
    (w >> 16) & 1
}

// A read with another graph's number; every other bit stays.
pub fn with_read(w: u32, g: usize) -> u32
    requires { with_read w g < 4294967296 }
    ensures { result ≡ with_read w g }
{
    w - read_graph(w) as u32 + g as u32
}

// The exit at decision 0: bits 27..14.
pub fn exit0(w: u32) -> usize
    ensures { result ≡ exit_of w 0 }
{
    ((w >> 14) & 0x3FFF) as usize
}

// The exit at decision 1: bits 13..0.
pub fn exit1(w: u32) -> usize
    ensures { result ≡ exit_of w 1 }
{
    (w & 0x3FFF) as usize
}

// A header of kind k that counts n.
pub fn header_word(k: u32, n: usize) -> u32
    requires { (k < 8) × (n < 65536) }
    ensures { result ≡ header_word k n }
{
    k * 0x2000_0000 + n as u32
}

// A pair of exits: e0 at decision 0, e1 at decision 1.
pub fn exits_word(e0: usize, e1: usize) -> u32
    requires { (e0 < 16384) × (e1 < 16384) }
    ensures { result ≡ exits_word e0 e1 }
{
    0x8000_0000 + e0 as u32 * 0x4000 + e1 as u32
}

// Bits 28..26 of a gate's header: its function.
pub fn gate_function(w: u32) -> u32
    ensures { result ≡ gate_function w }
{
    (w >> 26) & 7
}

// Bits 25..16, which must be zero in a gate's header.
pub fn gate_spare(w: u32) -> u32
    ensures { result ≡ gate_spare w }
{
    (w >> 16) & 0x3FF
}

// Bit i.
pub fn bit(w: u32, i: u32) -> u32
    requires { i < 32 }
    ensures { result ≡ bit_of w i }
{
    (w >> i) & 1
}

// Word i of the bytes b.
pub fn word_at(b: &[u8], i: usize) -> u32
    requires { i * 4 + 4 ≤ length b.now }
    ensures { result ≡ word_at b.now i }
{
    u32::from_be_bytes([b[i * 4], b[i * 4 + 1], b[i * 4 + 2], b[i * 4 + 3]])
}

// Word i of the bytes b becomes w.
pub fn put_word(b: &mut [u8], i: usize, w: u32)
    requires { i * 4 + 4 ≤ length b.old }
    ensures { b.new ≡ set_word b.old i w }
{
    b[i * 4..i * 4 + 4].copy_from_slice(&w.to_be_bytes());
}

// The whole words of the bytes b go to the front of out, whose other words stay; the result is their number.
pub fn words_of(b: &[u8], out: &mut [u32]) -> usize
    requires { length b.now / 4 ≤ length out.old }
    ensures { (result ≡ length b.now / 4) × (out.new ≡ over (length b.now / 4) (word_at b.now) out.old) }
{
    let n = b.len() / 4;
    for i in 0..n {
        out[i] = word_at(b, i);
    }
    n
}

// The words go to the front of out as bytes; its other bytes stay.
pub fn bytes_of(words: &[u32], out: &mut [u8])
    requires { length words.now * 4 ≤ length out.old }
    ensures { out.new ≡ over (length words.now * 4) (byte_of words.now) out.old }
{
    for (i, w) in words.iter().enumerate() {
        put_word(out, i, *w);
    }
}
