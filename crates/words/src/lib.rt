// Words of 64 bits in byte slices, ranges of a pool, and the order of byte strings.
#![tactic(auto)]

ghost use Rattle.std.specs.Prelude.{◌≡◌, ◌+◌, ◌/◌, ◌%◌, ◌^◌, ◌≤◌, ◌<◌, length, get_or, take, drop};
ghost use Rattle.std.proofs.lemmas.List.Edits.{sets};
ghost use Rattle.words.specs.Word.{word_at, word_bytes, words_of, range_of};
ghost use Rattle.words.specs.Pools.{Cut, Inside, operand_of, OperandInside};
ghost use Rattle.words.specs.Bytes.{byte_order};

use std::cmp::Ordering;

// len bytes of a pool, from at on.
#[derive(Clone, Copy)]
pub struct Range {
    pub at: usize,
    pub len: usize,
}

// What a comparison reads: a range of the literal pool or of the cell pool.
#[derive(Clone, Copy)]
pub enum Operand {
    Literal(Range),
    Cell(Range),
}

// What a walk came to, and the place behind what it read.
#[derive(Clone, Copy)]
pub struct Walked<T> {
    pub value: T,
    pub next: usize,
}

// The field of a word that has BITS bits and ends SHIFT bits above the lowest.
pub fn field<const SHIFT: u32, const BITS: u32>(w: u64) -> u64
    requires { (SHIFT < 64) × (BITS < 64) }
    ensures { result ≡ w / 2 ^ SHIFT % 2 ^ BITS }
{
    (w >> SHIFT) % (1 << BITS)
}

// The word whose bytes begin at index at.
#[tactic(auto, unfolding(crate::specs::Word::word_at))]
pub fn word_at(s: &[u8], at: usize) -> u64
    requires { at + 8 ≤ length s.now }
    ensures { result ≡ word_at s.now at }
{
    u64::from_be_bytes([
        s[at],
        s[at + 1],
        s[at + 2],
        s[at + 3],
        s[at + 4],
        s[at + 5],
        s[at + 6],
        s[at + 7],
    ])
}

// The byte at index at, and 0 past the end.
fn byte_or_zero(s: &[u8], at: usize) -> u8
    ensures { result ≡ get_or s.now at 0 }
{
    s.get(at).copied().unwrap_or(0)
}

// The word of fewer than eight bytes, the missing ones 0; byte by byte, as a copy would want memcpy from outside the archive.
#[tactic(auto, unfolding(crate::specs::Word::word_at))]
fn cut_word(s: &[u8]) -> u64
    ensures { result ≡ word_at s.now 0 }
{
    u64::from_be_bytes([
        byte_or_zero(s, 0),
        byte_or_zero(s, 1),
        byte_or_zero(s, 2),
        byte_or_zero(s, 3),
        byte_or_zero(s, 4),
        byte_or_zero(s, 5),
        byte_or_zero(s, 6),
        byte_or_zero(s, 7),
    ])
}

// The word whose bytes begin at index at, wherever that is; a byte past the end counts as 0.
#[tactic(auto, using(crate::proofs::Laws::word_past, crate::proofs::Laws::rest_word))]
pub fn padded_word(s: &[u8], at: usize) -> u64
    ensures { result ≡ word_at s.now at }
{
    if s.len() <= at {
        return 0;
    }
    if 8 <= s.len() - at {
        word_at(s, at)
    } else {
        cut_word(&s[at..])
    }
}

// Word i of a list of words, and 0 past its end.
#[tactic(auto, using(crate::specs::WordLaws::words_at, crate::specs::WordLaws::words_past))]
pub fn word_or_zero(s: &[u8], i: usize) -> u64
    ensures { result ≡ get_or (words_of s.now) i 0 }
{
    if i < s.len() / 8 {
        word_at(s, 8 * i)
    } else {
        0
    }
}

// Stores w's eight bytes from index at on.
pub fn put_word(out: &mut [u8], at: usize, w: u64)
    requires { at + 8 ≤ length out.old }
    ensures { out.new ≡ sets out.old at (word_bytes w) }
{
    out[at..at + 8].copy_from_slice(&w.to_be_bytes());
}

// Stores len bytes of from, which stand at index at, into out from index to on; a copy of slices would want memmove from outside.
pub fn copy_part(from: &[u8], at: usize, len: usize, out: &mut [u8], to: usize)
    requires { (at + len ≤ length from.now) × (to + len ≤ length out.old) }
    ensures { out.new ≡ sets out.old to (take len (drop at from.now)) }
{
    for j in 0..len {
        out[to + j] = from[at + j];
    }
}

// A range cut to what a pool has.
pub fn clip(pool: &[u8], r: Range) -> Range
    ensures { Cut pool.now r result }
{
    if pool.len() <= r.at {
        return Range { at: 0, len: 0 };
    }
    Range {
        at: r.at,
        len: r.len.min(pool.len() - r.at),
    }
}

// The bytes that a range names, lent out of their pool.
pub fn range_bytes(pool: &[u8], r: Range) -> &[u8]
    requires { Inside pool.now r }
    ensures { result.now ≡ range_of pool.now r }
{
    &pool[r.at..r.at + r.len]
}

// The bytes that an operand names, lent out of the pool that it names.
pub fn operand_bytes<'a>(literals: &'a [u8], cells: &'a [u8], o: Operand) -> &'a [u8]
    requires { OperandInside literals.now cells.now o }
    ensures { result.now ≡ operand_of literals.now cells.now o }
{
    match o {
        Operand::Literal(r) => range_bytes(literals, r),
        Operand::Cell(r) => range_bytes(cells, r),
    }
}

// How two byte strings compare: the first difference decides, and a front is below what continues it.
#[tactic(auto, using(crate::proofs::Laws::slice_order))]
pub fn compare_bytes(a: &[u8], b: &[u8]) -> Ordering
    ensures { result ≡ byte_order a.now b.now }
{
    a.cmp(b)
}
