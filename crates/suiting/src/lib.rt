// Literal words for a column of a type: in a table, and as cells.
#![tactic(auto)]

ghost use Rattle.std.specs.Prelude.{◌≡◌};
ghost use Rattle.literals.specs.Literals.{integer_type, text_type, truth_type};
ghost use Rattle.suiting.specs.Suiting.{fitting};

use literals::Literal;

// Null, or an integer's word inside the pool: type 1, length 8 and zero field 0 are its upper 40 bits, tested at once for speed.
#[tactic(auto, using(crate::specs::Suiting::integer_test))]
pub fn integer_suits(pool: &[u8], w: u64) -> bool
    ensures { result ≡ fitting pool.now integer_type w }
{
    w == 0
        || (w >> 24 == (1 << 38) + (8 << 24)
            && literals::offset_of(w) + Literal::INTEGER_BYTES <= pool.len())
}

// Null, or a text's word inside the pool.
#[tactic(auto, using(crate::specs::Suiting::text_test))]
fn text_suits(pool: &[u8], w: u64) -> bool
    ensures { result ≡ fitting pool.now text_type w }
{
    w == 0
        || (literals::type_of(w) == Literal::TEXT
            && literals::zero_of(w) == 0
            && literals::offset_of(w) + literals::length_of(w) <= pool.len())
}

// Null, or a truth value's word: false or true.
#[tactic(auto, using(crate::specs::Suiting::truth_test))]
fn truth_suits(pool: &[u8], w: u64) -> bool
    ensures { result ≡ fitting pool.now truth_type w }
{
    w == 0 || w >> 1 == 3 << 61
}

// Null, or a word of the type asked, of that type's length or truth value, inside the pool; no unnamed field set.
#[tactic(auto, using(crate::specs::Suiting::none_is))]
pub fn word_suits(pool: &[u8], kind: u8, w: u64) -> bool
    ensures { result ≡ fitting pool.now kind w }
{
    match kind {
        Literal::INTEGER => integer_suits(pool, w),
        Literal::TEXT => text_suits(pool, w),
        Literal::TRUTH => truth_suits(pool, w),
        _ => w == 0,
    }
}
