// Nodes of rewritten tables, and the word lists of a checked table.
#![tactic(auto)]

ghost use Rattle.std.specs.Prelude.{◌≡◌, false, drop};
ghost use Rattle.words.specs.Word.{words_of};
ghost use Rattle.table.specs.Encoding.{number_of_kind};
ghost use Rattle.pruning.specs.TableReading.{kind_of, operator_field, first_field, second_field, literal_first_field, table_node_of, table_node_at};
ghost use Rattle.pruning.specs.TableChecking.{statistic_fine, stands_in, statistics_fine, guarantees_fine, naming, table_shape_of, table_formed};
ghost use Rattle.pruning.specs.NodeLaws.{formed_so};
ghost use Rattle.pruning.specs.CheckingLaws.{guarantee_fine};

use kleene::Joining;
use literals::Literal;
use operators::Operator;
pub use predicate::operator_or_equal;
use statistics::Place;
use table::Kind;

// A rewritten node; a comparison carries its literal.
#[derive(Clone, Copy)]
pub enum TableNode {
    Always(bool),
    Join(Joining),
    // operator, statistic, literal first, literal
    Against(Operator, Place, bool, Literal),
    Positive(Place),
    Differ(Place, Place),
    Holds(Place),
    Negation,
}

// What a kind of node has: so many operators, from 0, and which of the fields that only some kinds have.
#[derive(Clone, Copy)]
pub struct TableShape {
    pub operators: u8,
    pub first: bool,
    pub second: bool,
    pub literal_first: bool,
}

// A table word's kind.
pub fn kind_of(w: u64) -> u8
    ensures { result ≡ kind_of w }
{
    words::field::<60, 4>(w) as u8
}

// A table word's operator.
pub fn operator_of(w: u64) -> u8
    ensures { result ≡ operator_field w }
{
    words::field::<56, 4>(w) as u8
}

// A table word's first statistic.
pub fn first_of(w: u64) -> u8
    ensures { result ≡ first_field w }
{
    words::field::<48, 8>(w) as u8
}

// A table word's second statistic.
pub fn second_of(w: u64) -> u8
    ensures { result ≡ second_field w }
{
    words::field::<40, 8>(w) as u8
}

// A table word's literal-first field.
pub fn literal_first_of(w: u64) -> u8
    ensures { result ≡ literal_first_field w }
{
    words::field::<39, 1>(w) as u8
}

// The node of a word w and the word l behind it, a total reading; an unknown kind reads as true.
#[tactic(auto, using(crate::specs::NodeLaws::node_kinds))]
pub fn table_node_of(pool: &[u8], w: u64, l: u64) -> TableNode
    ensures { result ≡ table_node_of pool.now w l }
{
    match Kind::of_number(kind_of(w)) {
        Some(Kind::Always) => TableNode::Always(operator_of(w) == 1),
        Some(Kind::And) => TableNode::Join(Joining::And),
        Some(Kind::Or) => TableNode::Join(Joining::Or),
        Some(Kind::Against) => TableNode::Against(
            operator_or_equal(operator_of(w)),
            Place(first_of(w)),
            literal_first_of(w) == 1,
            literals::literal_of(pool, l),
        ),
        Some(Kind::Positive) => TableNode::Positive(Place(first_of(w))),
        Some(Kind::Differ) => TableNode::Differ(Place(first_of(w)), Place(second_of(w))),
        Some(Kind::Holds) => TableNode::Holds(Place(first_of(w))),
        Some(Kind::Negation) => TableNode::Negation,
        None => TableNode::Always(true),
    }
}

// The node whose word stands at a place; past the end the words are 0.
pub fn table_node_at(pool: &[u8], table: &[u8], at: usize) -> TableNode
    ensures { result ≡ table_node_at pool.now (words_of table.now) at }
{
    if at < table.len() / 8 {
        table_node_of(
            pool,
            words::word_at(table, 8 * at),
            words::word_or_zero(table, at + 1),
        )
    } else {
        TableNode::Always(false)
    }
}

// A kind that has n operators and none of those fields.
fn bare(n: u8) -> TableShape
    ensures { result ≡ naming n false false false }
{
    TableShape {
        operators: n,
        first: false,
        second: false,
        literal_first: false,
    }
}

// What a kind of node has.
fn shape_of(kind: Kind) -> TableShape
    ensures { result ≡ table_shape_of (number_of_kind kind) }
{
    match kind {
        Kind::Always => bare(2),
        Kind::And | Kind::Or | Kind::Negation => bare(1),
        Kind::Against => TableShape {
            first: true,
            literal_first: true,
            ..bare(6)
        },
        Kind::Positive | Kind::Holds => TableShape {
            first: true,
            ..bare(1)
        },
        Kind::Differ => TableShape {
            first: true,
            second: true,
            ..bare(1)
        },
    }
}

// A word has an operator of its kind, and is zero in each field that its kind has not.
fn formed_so(w: u64, s: TableShape) -> bool
    ensures { result ≡ formed_so w s }
{
    operator_of(w) < s.operators
        && (s.first || first_of(w) == 0)
        && (s.second || second_of(w) == 0)
        && (s.literal_first || literal_first_of(w) == 0)
        && words::field::<0, 39>(w) == 0
}

// A known kind and operator, every unnamed and unused field zero.
#[tactic(auto, using(crate::specs::NodeLaws::formed_kinds))]
pub fn table_formed(w: u64) -> bool
    ensures { result ≡ table_formed w }
{
    match Kind::of_number(kind_of(w)) {
        Some(kind) => formed_so(w, shape_of(kind)),
        None => false,
    }
}

// A statistic's word: unnamed fields zero, the column in the schema, the rows entry with column 0.
#[tactic(auto, unfolding(crate::specs::TableChecking::statistic_fine))]
fn statistic_fine(schema: &[u8], w: u64) -> bool
    ensures { result ≡ statistic_fine schema.now w }
{
    let c = words::field::<56, 8>(w) as usize;
    words::field::<0, 54>(w) == 0 && c < schema.len() && (words::field::<54, 2>(w) < 3 || c == 0)
}

// Whether a word stands in a list, from a place on.
fn stands_from(list: &[u8], from: usize, w: u64) -> bool
    ensures { result ≡ stands_in w (drop from (words_of list.now)) }
{
    (from..list.len() / 8).any(|j| words::word_or_zero(list, j) == w)
}

// Every statistic's word is fine, and no statistic stands twice.
pub fn statistics_fine(schema: &[u8], list: &[u8]) -> bool
    ensures { result ≡ statistics_fine schema.now (words_of list.now) }
{
    (0..list.len() / 8).all(|i| {
        let w = words::word_or_zero(list, i);
        statistic_fine(schema, w) && !stands_from(list, i + 1, w)
    })
}

// A guarantee's word: unnamed fields zero, the column in the schema.
fn guarantee_fine(schema: &[u8], w: u64) -> bool
    ensures { result ≡ guarantee_fine schema.now w }
{
    words::field::<0, 39>(w) == 0 && (words::field::<56, 8>(w) as usize) < schema.len()
}

// Every guarantee's word is fine.
pub fn guarantees_fine(schema: &[u8], list: &[u8]) -> bool
    ensures { result ≡ guarantees_fine schema.now (words_of list.now) }
{
    (0..list.len() / 8).all(|i| guarantee_fine(schema, words::word_or_zero(list, i)))
}
