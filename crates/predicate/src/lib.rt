// Predicates: columns, and the nodes that their words stand for.
#![tactic(auto)]

ghost use Rattle.std.specs.Prelude.{◌≡◌, ◌+◌, ◌^◌, ◌<◌};
ghost use Rattle.words.specs.Word.{words_of};
ghost use Rattle.literals.specs.Literals.{length_of};
ghost use Rattle.operators.specs.Operators.{operator_of};
ghost use Rattle.predicate.specs.Nodes.{kind_of, kind_named, operator_field, column_of, flips_of, first_field, count_of, zero_field, constant_of, or_equal, negated_of, node_of};
ghost use Rattle.predicate.specs.Predicates.{node_at};
ghost use Rattle.predicate.specs.Checking.{type_in, after_node, after_literal};

use kleene::{Joining, Truth};
use literals::Literal;
use operators::Operator;

// A column of the schema.
#[derive(Clone, Copy)]
pub struct Column(pub u8);

// A predicate node; a comparison carries its literal.
#[derive(Clone, Copy)]
pub enum Node {
    Constant(Truth),
    Join(Joining),
    Not,
    TruthColumn(Column),
    IsNull(Column),
    IsNotNull(Column),
    // operator, column, flips, literal first, literal
    Comparison(Operator, Column, u8, bool, Literal),
    // NOT IN, column, flips, count
    List(bool, Column, u8, u16),
    // NOT LIKE, column, pattern
    Like(bool, Column, Literal),
}

// What a kind of node has: so many operators, from 0, and which of the fields that only some kinds have.
#[derive(Clone, Copy)]
pub struct Shape {
    pub operators: u8,
    pub column: bool,
    pub flips: bool,
    pub first: bool,
    pub count: bool,
}

// The kinds of node words, in the order of their numbers.
#[derive(Clone, Copy, Debug, PartialEq, Eq)]
pub enum Kind {
    Constant,
    And,
    Or,
    Not,
    TruthColumn,
    IsNull,
    IsNotNull,
    Comparison,
    List,
    Like,
}

impl Kind {
    // The kind of a number, if it is one.
    pub fn of_number(n: u8) -> Option<Kind>
        ensures { result ≡ kind_named n }
    {
        match n {
            0 => Some(Kind::Constant),
            1 => Some(Kind::And),
            2 => Some(Kind::Or),
            3 => Some(Kind::Not),
            4 => Some(Kind::TruthColumn),
            5 => Some(Kind::IsNull),
            6 => Some(Kind::IsNotNull),
            7 => Some(Kind::Comparison),
            8 => Some(Kind::List),
            9 => Some(Kind::Like),
            _ => None,
        }
    }
}

// The lengths of the four outputs that a rewriting call lends.
#[derive(Clone, Copy)]
pub struct Rooms {
    pub table: usize,
    pub pool: usize,
    pub statistics: usize,
    pub guarantees: usize,
}

// How far checking has come: the next word's place, and the nodes, list literals and literal bytes so far.
#[derive(Clone, Copy, Default)]
pub struct Progress {
    pub place: usize,
    pub nodes: usize,
    pub listed: usize,
    pub bytes: usize,
}

impl Progress {
    // Behind a node's word.
    pub fn after_node(self, w: u64) -> Progress
        requires { (self.place + 1 < 2 ^ 64) × ((self.nodes + 1 < 2 ^ 64) × (self.listed + count_of w < 2 ^ 64)) }
        ensures { result ≡ after_node self w }
    {
        Progress {
            place: self.place + 1,
            nodes: self.nodes + 1,
            listed: self.listed + usize::from(count_of(w)),
            ..self
        }
    }

    // Behind a literal's word.
    pub fn after_literal(self, w: u64) -> Progress
        requires { (self.place + 1 < 2 ^ 64) × (self.bytes + length_of w < 2 ^ 64) }
        ensures { result ≡ after_literal self w }
    {
        Progress {
            place: self.place + 1,
            bytes: self.bytes + literals::length_of(w),
            ..self
        }
    }
}

// A node word's kind.
pub fn kind_of(w: u64) -> u8
    ensures { result ≡ kind_of w }
{
    words::field::<60, 4>(w) as u8
}

// A node word's operator code.
pub fn operator_of(w: u64) -> u8
    ensures { result ≡ operator_field w }
{
    words::field::<56, 4>(w) as u8
}

// A node word's column.
pub fn column_of(w: u64) -> Column
    ensures { result ≡ column_of w }
{
    Column(words::field::<48, 8>(w) as u8)
}

// A node word's flips.
pub fn flips_of(w: u64) -> u8
    ensures { result ≡ flips_of w }
{
    words::field::<40, 8>(w) as u8
}

// A node word's literal-first bit.
pub fn first_of(w: u64) -> u8
    ensures { result ≡ first_field w }
{
    words::field::<39, 1>(w) as u8
}

// A node word's count.
pub fn count_of(w: u64) -> u16
    ensures { result ≡ count_of w }
{
    words::field::<24, 15>(w) as u16
}

// A node word's zero field.
pub fn zero_of(w: u64) -> u64
    ensures { result ≡ zero_field w }
{
    words::field::<0, 24>(w)
}

// The truth value of a constant's operator code; an unknown one reads as null.
fn constant_of(n: u8) -> Truth
    ensures { result ≡ constant_of n }
{
    match n {
        0 => Truth::False,
        1 => Truth::True,
        _ => Truth::Unknown,
    }
}

// The operator of a code; an unknown one reads as =.
pub fn operator_or_equal(n: u8) -> Operator
    ensures { result ≡ or_equal (operator_of n) }
{
    Operator::of_code(n).unwrap_or(Operator::Equal)
}

// Whether a list or LIKE word is NOT IN or NOT LIKE.
fn is_negated(w: u64) -> bool
    ensures { result ≡ negated_of w }
{
    operator_of(w) == 1
}

// The node of a word w and the word l behind it, whatever they are.
#[tactic(auto, using(crate::specs::KindLaws::node_kinds))]
pub fn node_of(pool: &[u8], w: u64, l: u64) -> Node
    ensures { result ≡ node_of pool.now w l }
{
    match Kind::of_number(kind_of(w)) {
        Some(Kind::Constant) => Node::Constant(constant_of(operator_of(w))),
        Some(Kind::And) => Node::Join(Joining::And),
        Some(Kind::Or) => Node::Join(Joining::Or),
        Some(Kind::Not) => Node::Not,
        Some(Kind::TruthColumn) => Node::TruthColumn(column_of(w)),
        Some(Kind::IsNull) => Node::IsNull(column_of(w)),
        Some(Kind::IsNotNull) => Node::IsNotNull(column_of(w)),
        Some(Kind::Comparison) => Node::Comparison(
            operator_or_equal(operator_of(w)),
            column_of(w),
            flips_of(w),
            first_of(w) == 1,
            literals::literal_of(pool, l),
        ),
        Some(Kind::List) => Node::List(is_negated(w), column_of(w), flips_of(w), count_of(w)),
        Some(Kind::Like) => Node::Like(is_negated(w), column_of(w), literals::literal_of(pool, l)),
        None => Node::Constant(Truth::Unknown),
    }
}

// The node whose word stands at a place; past the end the words are 0.
pub fn node_at(pool: &[u8], words: &[u8], at: usize) -> Node
    ensures { result ≡ node_at pool.now (words_of words.now) at }
{
    if at < words.len() / 8 {
        let w = words::word_or_zero(words, at);
        node_of(pool, w, words::word_or_zero(words, at + 1))
    } else {
        node_of(pool, 0, 0)
    }
}

// The type of a column; 0 where it is not in the schema.
pub fn type_in(schema: &[u8], c: Column) -> u8
    ensures { result ≡ type_in schema.now c.0 }
{
    schema.get(usize::from(c.0)).copied().unwrap_or(0)
}
