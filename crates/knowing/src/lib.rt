// What the rewriting of a node comes to: false, true or open. Nothing is written.
#![tactic(auto)]

ghost use Rattle.std.specs.Prelude.{◌≡◌, ◌+◌, ◌≤◌, ◌<◌, length};
ghost use Rattle.limits.specs.Limits.{max_literal_bytes};
ghost use Rattle.words.specs.Word.{words_of, range_of};
ghost use Rattle.literals.specs.Literals.{value_of};
ghost use Rattle.text.specs.Utf8.{Utf8};
ghost use Rattle.text.specs.Upper.{upper_of};
ghost use Rattle.predicate.specs.Predicates.{values_at};
ghost use Rattle.predicate.specs.Accepted.{Pattern};
ghost use Rattle.walking.specs.Places.{Near};
ghost use Rattle.table.specs.Tables.{known, folds as folds_of, known_fold};
ghost use Rattle.table.specs.Rewriting.{constant_table, list_operator, list_joining, nested_table, list_table};
ghost use Rattle.knowing.specs.Knowns.{join_known, KnownComparison, known_bounded, known_like, member_known};

use kleene::{Joining, Truth};
use literals::Literal;
use operators::Operator;
use predicate::Column;
use table::{Folded, Known};
use walking::Request;
use words::Range;

// A list's node: whether it is NOT IN, its column and flips, the place of its node word, and how many literals stand behind that.
#[derive(Clone, Copy)]
pub struct Members {
    pub negated: bool,
    pub column: Column,
    pub flips: u8,
    pub at: usize,
    pub count: u16,
}

// How two rewritten parts are joined: a constant side decides or vanishes.
pub fn folds(j: Joining, l: Known, r: Known) -> Folded
    ensures { result ≡ folds_of j l r }
{
    match (j, l, r) {
        (Joining::And, Known::False, _) => Folded::Fixed(false),
        (Joining::Or, Known::True, _) => Folded::Fixed(true),
        (_, Known::True | Known::False, _) => Folded::Right,
        (Joining::And, _, Known::False) => Folded::Fixed(false),
        (Joining::Or, _, Known::True) => Folded::Fixed(true),
        (_, _, Known::True | Known::False) => Folded::Left,
        (_, Known::Open, Known::Open) => Folded::Both,
    }
}

// What a join comes to, its sides known.
pub fn known_fold(f: Folded, l: Known, r: Known) -> Known
    ensures { result ≡ known_fold f l r }
{
    match f {
        Folded::Fixed(true) => Known::True,
        Folded::Fixed(false) => Known::False,
        Folded::Left => l,
        Folded::Right => r,
        Folded::Both => Known::Open,
    }
}

// What two parts come to, joined.
pub fn join_known(j: Joining, l: Known, r: Known) -> Known
    ensures { result ≡ join_known j l r }
{
    known_fold(folds(j, l, r), l, r)
}

// What a constant comes to.
pub fn known_constant(t: Truth) -> Known
    ensures { result ≡ known (constant_table t) }
{
    match t {
        Truth::False => Known::False,
        Truth::Unknown | Truth::True => Known::True,
    }
}

// What a comparison comes to.
pub fn known_comparison(
    schema: &[u8],
    o: Operator,
    c: Column,
    flips: u8,
    first: bool,
    l: Literal,
) -> Known
    ensures { KnownComparison schema.now o c flips first l result }
{
    match turning::turn(predicate::type_in(schema, c), o, flips, first, l) {
        Some(_) => Known::Open,
        None => Known::True,
    }
}

// The bytes that a range names, as far as the pool has them.
pub fn clipped(pool: &[u8], r: Range) -> &[u8]
    ensures { result.now ≡ range_of pool.now r }
{
    words::range_bytes(pool, words::clip(pool, r))
}

// What LIKE comes to with a pattern that is a text: open where it has an upper bound.
#[tactic(auto, using(text::specs::Upper::prefix_length))]
fn known_pattern(pattern: &[u8]) -> Known
    requires { Utf8 pattern.now × (length pattern.now ≤ max_literal_bytes) }
    ensures { result ≡ known_bounded (upper_of pattern.now) }
{
    // No heap: room for the longest upper bound, of which only its being there counts.
    let mut upper = [0; limits::MAX_TABLE_TEXT_BYTES];
    match increment::upper_bound(pattern, &mut upper) {
        Some(_) => Known::Open,
        None => Known::True,
    }
}

// What LIKE or NOT LIKE comes to.
pub fn known_like(pool: &[u8], negated: bool, l: Literal) -> Known
    requires { Pattern (value_of pool.now l) }
    ensures { result ≡ known_like negated (value_of pool.now l) }
{
    match l {
        Literal::Text(r) if !negated => known_pattern(clipped(pool, r)),
        _ => Known::True,
    }
}

// The operator of a list's members.
pub fn list_operator(negated: bool) -> Operator
    ensures { result ≡ list_operator negated }
{
    if negated {
        Operator::NotEqual
    } else {
        Operator::Equal
    }
}

// How a list's members are joined.
pub fn list_joining(negated: bool) -> Joining
    ensures { result ≡ list_joining negated }
{
    if negated { Joining::And } else { Joining::Or }
}

// What a list's member comes to whose literal word stands at a place.
pub fn known_member(r: &Request<'_>, m: Members, at: usize) -> Known
    ensures { result ≡ member_known r.now.schema.now r.now.pool.now (words_of r.now.words.now) m.negated m.column m.flips at }
{
    let l = literals::literal_of(r.pool, words::word_or_zero(r.words, at));
    known_comparison(
        r.schema,
        list_operator(m.negated),
        m.column,
        m.flips,
        false,
        l,
    )
}

// What the literals of a list come to, joined from the left.
fn known_members(r: &Request<'_>, m: Members) -> Known
    requires { Near r.now.words.now m.at × (0 < m.count) }
    ensures { result ≡ known (nested_table r.now.schema.now m.negated m.column m.flips (values_at r.now.pool.now (words_of r.now.words.now) m.count (m.at + 1))) }
{
    let first = m.at + 1;
    let mut k = known_member(r, m, first);
    for i in 1..usize::from(m.count) {
        k = join_known(list_joining(m.negated), k, known_member(r, m, first + i));
    }
    k
}

// What a list comes to.
pub fn known_list(r: &Request<'_>, m: Members) -> Known
    requires { Near r.now.words.now m.at }
    ensures { result ≡ known (list_table r.now.limit r.now.schema.now m.negated m.column m.flips (values_at r.now.pool.now (words_of r.now.words.now) m.count (m.at + 1))) }
{
    if m.count == 0 || r.limit < usize::from(m.count) {
        return Known::True;
    }
    known_members(r, m)
}
