// Node checking: which refusal the bytes of a rewriting call get, word by word, 4 before 5 before 6 in a word.
#![tactic(auto)]

ghost use Rattle.std.specs.Prelude.{◌≡◌, ◌<◌, ◌≤◌, ◌&&◌, length, ltb, nat_le, MatchResult};
ghost use Rattle.std.specs.List.{list_all};
ghost use Rattle.limits.specs.Refusals.{fault_of};
ghost use Rattle.limits.specs.declared.Refusal.TheVariants.{Malformed};
ghost use Rattle.words.specs.Word.{words_of};
ghost use Rattle.literals.specs.Literals.{integer_type, truth_type, suits};
ghost use Rattle.predicate.specs.Checked.{outcome_of};
ghost use Rattle.predicate.specs.Checking.{word_here, schema_fine, shape_of, formed, limited, first_fault, flippable, columned, literal_limited, patterned, literal_fault, check_literal, check_literals, check_from, predicate_fault};
ghost use Rattle.predicate.specs.Calls.{roomy, rewrite_fault};
ghost use Rattle.checking.specs.Judging.{judged_of, judge_of};

use limits::Refusal;
use literals::Literal;
use predicate::{Column, Kind, Node, Progress, Rooms, Shape};
use walking::Request;
use words::Range;

// What a kind of node has; an unknown kind has no operator.
fn shape_of(kind: u8) -> Shape
    ensures { result ≡ shape_of kind }
{
    let bare = Shape {
        operators: 1,
        column: false,
        flips: false,
        first: false,
        count: false,
    };
    let columnar = Shape {
        column: true,
        ..bare
    };
    match Kind::of_number(kind) {
        Some(Kind::Constant) => Shape {
            operators: 3,
            ..bare
        },
        Some(Kind::And | Kind::Or | Kind::Not) => bare,
        Some(Kind::TruthColumn | Kind::IsNull | Kind::IsNotNull) => columnar,
        Some(Kind::Comparison) => Shape {
            operators: 8,
            flips: true,
            first: true,
            ..columnar
        },
        Some(Kind::List) => Shape {
            operators: 2,
            flips: true,
            count: true,
            ..columnar
        },
        Some(Kind::Like) => Shape {
            operators: 2,
            ..columnar
        },
        None => Shape {
            operators: 0,
            ..bare
        },
    }
}

// Whether a node word has a known kind and operator, and every unnamed and unused field zero.
#[tactic(auto, unfolding(predicate::specs::Checking::formed))]
pub fn formed(w: u64) -> bool
    ensures { result ≡ formed w }
{
    let s = shape_of(predicate::kind_of(w));
    predicate::operator_of(w) < s.operators
        && (s.column || predicate::column_of(w).0 == 0)
        && (s.flips || predicate::flips_of(w) == 0)
        && (s.first || predicate::first_of(w) == 0)
        && (s.count || predicate::count_of(w) == 0)
        && predicate::zero_of(w) == 0
}

// A word's fault, if it has one: 4 before 5 before 6.
fn first_fault(formed: bool, limited: bool, fitting: bool) -> Result<(), Refusal>
    ensures { fault_of result ≡ first_fault formed limited fitting }
{
    if !formed {
        return Err(Refusal::Malformed);
    }
    if !limited {
        return Err(Refusal::OverLimit);
    }
    if fitting {
        Ok(())
    } else {
        Err(Refusal::Misfit)
    }
}

// Whether a node word keeps the limits of depth, nodes and list literals.
fn limited(depth: usize, s: Progress, w: u64) -> bool
    ensures { result ≡ limited depth s w }
{
    0 < depth
        && s.nodes < limits::MAX_NODES
        && s.listed <= limits::MAX_LIST_LITERALS
        && usize::from(predicate::count_of(w)) <= limits::MAX_LIST_LITERALS - s.listed
}

// Whether a column is in the schema.
fn in_schema(schema: &[u8], c: Column) -> bool
    ensures { result ≡ ltb c.0 (length schema.now) }
{
    usize::from(c.0) < schema.len()
}

// Whether a column is in the schema, and is no text that is flipped.
fn flippable(schema: &[u8], c: Column, flips: u8) -> bool
    ensures { result ≡ flippable schema.now c flips }
{
    in_schema(schema, c) && (flips == 0 || predicate::type_in(schema, c) != Literal::TEXT)
}

// Whether a node's column is in the schema and of the type that the node wants.
pub fn columned(schema: &[u8], n: Node) -> bool
    ensures { result ≡ columned schema.now n }
{
    match n {
        Node::Constant(_) | Node::Join(_) | Node::Not => true,
        Node::TruthColumn(c) => predicate::type_in(schema, c) == Literal::TRUTH,
        Node::IsNull(c) | Node::IsNotNull(c) => in_schema(schema, c),
        Node::Comparison(_, c, flips, _, _) | Node::List(_, c, flips, _) => {
            flippable(schema, c, flips)
        }
        Node::Like(_, c, _) => predicate::type_in(schema, c) == Literal::TEXT,
    }
}

// The word at the next place; 4 where it is missing.
#[tactic(auto, using(words::specs::WordLaws::length_words))]
fn word_here(r: &Request<'_>, s: Progress) -> Result<u64, Refusal>
    ensures { MatchResult result (λ w. (s.place < length (words_of r.now.words.now)) × (w ≡ word_here r.now.schema.now r.now.pool.now (words_of r.now.words.now) s)) (λ e. (length (words_of r.now.words.now) ≤ s.place) × (e ≡ Malformed)) }
{
    if s.place < r.words.len() / 8 {
        Ok(words::word_or_zero(r.words, s.place))
    } else {
        Err(Refusal::Malformed)
    }
}

// Judges the node word at the next place, with a depth left.
#[tactic(auto, unfolding(crate::specs::Judging::judge_of, predicate::specs::Checking::node_fault), using(words::specs::WordLaws::length_words, crate::specs::Judging::judged_number))]
pub fn judge(r: &Request<'_>, depth: usize, s: Progress) -> Result<Node, Refusal>
    ensures { judged_of result ≡ judge_of r.now.schema.now r.now.pool.now (words_of r.now.words.now) depth s }
{
    let w = word_here(r, s)?;
    let n = predicate::node_at(r.pool, r.words, s.place);
    first_fault(formed(w), limited(depth, s, w), columned(r.schema, n))?;
    Ok(n)
}

// Whether a literal word keeps the limits of a literal and of all literals.
fn literal_limited(s: Progress, w: u64) -> bool
    ensures { result ≡ literal_limited s w }
{
    let len = literals::length_of(w);
    len <= limits::MAX_LITERAL_BYTES
        && s.bytes <= limits::MAX_ALL_LITERAL_BYTES
        && len <= limits::MAX_ALL_LITERAL_BYTES - s.bytes
}

// Whether a literal word suits a column's type and, as a pattern, is UTF-8.
fn suitable(pool: &[u8], pattern: bool, kind: u8, w: u64) -> bool
    ensures { result ≡ (suits pool.now kind w && patterned pattern pool.now w) }
{
    if !literals::suits(pool, kind, w) {
        return false;
    }
    if !pattern || literals::type_of(w) != Literal::TEXT {
        return true;
    }
    let r = Range {
        at: literals::offset_of(w),
        len: literals::length_of(w),
    };
    text::is_utf8(words::range_bytes(pool, r))
}

// The fault of a literal word for a column of a type, if it has one.
fn literal_fault(pool: &[u8], pattern: bool, kind: u8, s: Progress, w: u64) -> Result<(), Refusal>
    ensures { fault_of result ≡ literal_fault pool.now pattern kind s w }
{
    first_fault(
        literals::is_plain(w),
        literal_limited(s, w),
        suitable(pool, pattern, kind, w),
    )
}

// Checks the literal word at the next place for a column.
#[tactic(auto, unfolding(predicate::specs::Checking::check_literal), using(words::specs::WordLaws::length_words, predicate::specs::CheckingLaws::passes_number))]
pub fn check_literal(
    r: &Request<'_>,
    pattern: bool,
    c: Column,
    s: Progress,
) -> Result<Progress, Refusal>
    ensures { outcome_of result ≡ check_literal r.now.schema.now r.now.pool.now (words_of r.now.words.now) pattern c s }
{
    let w = word_here(r, s)?;
    literal_fault(r.pool, pattern, predicate::type_in(r.schema, c), s, w)?;
    Ok(s.after_literal(w))
}

// Checks the count literals of a list.
pub fn check_literals(
    r: &Request<'_>,
    count: u16,
    c: Column,
    s: Progress,
) -> Result<Progress, Refusal>
    ensures { outcome_of result ≡ check_literals r.now.schema.now r.now.pool.now (words_of r.now.words.now) count c s }
{
    let mut t = s;
    for _ in 0..count {
        t = check_literal(r, false, c, t)?;
    }
    Ok(t)
}

// Checks the predicate at the next place, with a depth left.
pub fn check(r: &Request<'_>, depth: usize, s: Progress) -> Result<Progress, Refusal>
    ensures { outcome_of result ≡ check_from r.now.schema.now r.now.pool.now (words_of r.now.words.now) depth s }
{
    let n = judge(r, depth, s)?;
    let t = s.after_node(words::word_or_zero(r.words, s.place));
    let left = depth - 1;
    match n {
        Node::Constant(_) | Node::TruthColumn(_) | Node::IsNull(_) | Node::IsNotNull(_) => Ok(t),
        Node::Comparison(_, c, _, _, _) => check_literal(r, false, c, t),
        Node::List(_, c, _, count) => check_literals(r, count, c, t),
        Node::Like(_, c, _) => check_literal(r, true, c, t),
        Node::Not => check(r, left, t),
        Node::Join(_) => {
            let u = check(r, left, t)?;
            check(r, left, u)
        }
    }
}

// The fault of a predicate, if it has one; leftover words come last.
pub fn check_predicate(r: &Request<'_>) -> Result<(), Refusal>
    ensures { fault_of result ≡ predicate_fault r.now.schema.now r.now.pool.now (words_of r.now.words.now) }
{
    let t = check(r, limits::MAX_DEPTH, Progress::default())?;
    if t.place != r.words.len() / 8 {
        return Err(Refusal::Malformed);
    }
    Ok(())
}

// Whether every schema byte is a type.
fn types_fine(schema: &[u8]) -> bool
    ensures { result ≡ list_all (λ b. nat_le integer_type b && nat_le b truth_type) schema.now }
{
    schema
        .iter()
        .all(|b| Literal::INTEGER <= *b && *b <= Literal::TRUTH)
}

// Whether a schema has at most 64 columns, each of a known type.
#[tactic(auto, using(crate::proofs::Laws::types_all))]
pub fn schema_fine(schema: &[u8]) -> bool
    ensures { result ≡ schema_fine schema.now }
{
    schema.len() <= limits::MAX_COLUMNS && types_fine(schema)
}

// Whether the four lent outputs have their rooms.
fn roomy(r: Rooms) -> bool
    ensures { result ≡ roomy r }
{
    limits::TABLE_ROOM <= r.table
        && limits::TABLE_POOL_ROOM <= r.pool
        && limits::STATISTICS_ROOM <= r.statistics
        && limits::GUARANTEES_ROOM <= r.guarantees
}

// The refusal of a rewriting call, if it gets one.
#[tactic(auto, unfolding(predicate::specs::Calls::rewrite_fault))]
pub fn rewrite_fault(r: &Request<'_>, rooms: Rooms) -> Result<(), Refusal>
    ensures { fault_of result ≡ rewrite_fault r.now.schema.now r.now.words.now r.now.pool.now r.now.limit rooms }
{
    if !schema_fine(r.schema) {
        return Err(Refusal::BadSchema);
    }
    if limits::MAX_LIST_LIMIT < r.limit || limits::MAX_POOL_BYTES < r.pool.len() {
        return Err(Refusal::BadLimit);
    }
    if !roomy(rooms) {
        return Err(Refusal::NoRoom);
    }
    if r.words.len() % 8 != 0 {
        return Err(Refusal::Malformed);
    }
    check_predicate(r)
}
