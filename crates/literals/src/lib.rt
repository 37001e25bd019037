// Literals: null, integer, text or truth value; their words, and integers of 64 bits.
#![tactic(auto)]

ghost use Rattle.std.specs.Prelude.{◌≡◌, [], ◌∷◌, ◌^◌, ◌<◌};
ghost use Rattle.literals.specs.Signed.{signed, bits_of, negated, int_order};
ghost use Rattle.words.specs.Layout.{packed};
ghost use Rattle.literals.specs.Literals.{literal_layout, type_of, length_of, zero_of, offset_of, plain, inside, suits, literal_of, literal_word, LiteralFits};

use std::cmp::Ordering;
use words::Range;

#[derive(Clone, Copy)]
pub enum Literal {
    Null,
    Int(i64),
    Text(Range),
    Truth(bool),
}

// Types stay numbers: a schema may hold any byte.
impl Literal {
    pub const NULL: u8 = 0;

    pub const INTEGER: u8 = 1;

    pub const TEXT: u8 = 2;

    pub const TRUTH: u8 = 3;

    // Bytes of an integer.
    pub const INTEGER_BYTES: usize = 8;
}

// The integer that 64 bits stand for in two's complement.
#[tactic(auto, using(crate::proofs::Laws::signed_is))]
pub fn of_word(w: u64) -> i64
    ensures { result ≡ signed w }
{
    w.cast_signed()
}

// The 64 bits of an integer in two's complement.
pub fn to_word(x: i64) -> u64
    ensures { result ≡ bits_of x }
{
    x.cast_unsigned()
}

// Minus an integer, -2^63 caught first: document 01 names this test, so it is no checked_neg.
#[tactic(auto, using(crate::proofs::Laws::minus_least, crate::proofs::Laws::minus_other))]
pub fn negate(x: i64) -> Option<i64>
    ensures { result ≡ negated x }
{
    if x == i64::MIN {
        return None;
    }
    Some(-x)
}

// How two integers compare.
#[tactic(auto, unfolding(crate::specs::Signed::int_order))]
pub fn compare_ints(a: i64, b: i64) -> Ordering
    ensures { result ≡ int_order a b }
{
    a.cmp(&b)
}

// A literal word's type.
pub fn type_of(w: u64) -> u8
    ensures { result ≡ type_of w }
{
    words::field::<62, 2>(w) as u8
}

// A literal word's length.
pub fn length_of(w: u64) -> usize
    ensures { result ≡ length_of w }
{
    words::field::<48, 14>(w) as usize
}

// A literal word's zero field.
pub fn zero_of(w: u64) -> u64
    ensures { result ≡ zero_of w }
{
    words::field::<24, 24>(w)
}

// A literal word's offset.
pub fn offset_of(w: u64) -> usize
    ensures { result ≡ offset_of w }
{
    words::field::<0, 24>(w) as usize
}

// Whether a literal word has no unnamed field set, and a null none at all.
pub fn is_plain(w: u64) -> bool
    ensures { result ≡ plain w }
{
    zero_of(w) == 0 && (type_of(w) != Literal::NULL || (length_of(w) == 0 && offset_of(w) == 0))
}

// Whether the bytes of a literal word lie inside the pool.
fn is_inside(pool: &[u8], w: u64) -> bool
    ensures { result ≡ inside pool.now w }
{
    offset_of(w) + length_of(w) <= pool.len()
}

// Whether a literal word is null, or of the type asked, of that type's length or truth value, and inside the pool.
#[tactic(auto, using(crate::proofs::Laws::suits_null, crate::proofs::Laws::suits_integer, crate::proofs::Laws::suits_text, crate::proofs::Laws::suits_truth))]
pub fn suits(pool: &[u8], kind: u8, w: u64) -> bool
    ensures { result ≡ suits pool.now kind w }
{
    match type_of(w) {
        Literal::NULL => true,
        Literal::INTEGER => kind == Literal::INTEGER
            && length_of(w) == Literal::INTEGER_BYTES
            && is_inside(pool, w),
        Literal::TEXT => kind == Literal::TEXT && is_inside(pool, w),
        _ => kind == Literal::TRUTH && length_of(w) == 0 && offset_of(w) <= 1,
    }
}

// The literal of a word, a total reading: a byte past the pool's end counts as 0.
#[tactic(auto, using(crate::specs::LiteralLaws::literal_null_lem, crate::specs::LiteralLaws::literal_int, crate::specs::LiteralLaws::literal_text, crate::specs::LiteralLaws::literal_truth))]
pub fn literal_of(pool: &[u8], w: u64) -> Literal
    ensures { result ≡ literal_of pool.now w }
{
    let at = offset_of(w);
    match type_of(w) {
        Literal::NULL => Literal::Null,
        Literal::INTEGER => Literal::Int(of_word(words::padded_word(pool, at))),
        Literal::TEXT => Literal::Text(Range {
            at,
            len: length_of(w),
        }),
        _ => Literal::Truth(at == 1),
    }
}

// A literal word of a type, a length and an offset.
fn pack(kind: u8, len: usize, offset: usize) -> u64
    requires { (kind < 4) × (len < 2 ^ 14) × (offset < 2 ^ 24) }
    ensures { result ≡ packed literal_layout (kind ∷ len ∷ 0 ∷ offset ∷ []) }
{
    (u64::from(kind) << 62) + ((len as u64) << 48) + offset as u64
}

// The word of a literal whose bytes stand at an offset.
pub fn literal_word(l: Literal, offset: usize) -> u64
    requires { LiteralFits l × (offset < 2 ^ 24) }
    ensures { result ≡ literal_word offset l }
{
    match l {
        Literal::Null => 0,
        Literal::Int(_) => pack(Literal::INTEGER, Literal::INTEGER_BYTES, offset),
        Literal::Text(r) => pack(Literal::TEXT, r.len, offset),
        Literal::Truth(b) => pack(Literal::TRUTH, 0, usize::from(b)),
    }
}
