// Evaluates a checked table on a container's row of cells.
#![tactic(auto)]

ghost use Rattle.std.specs.Prelude.{◌≡◌, ◌+◌, ◌/◌, ◌<◌, length, get_or, eqb};
ghost use Rattle.limits.specs.Limits.{max_table_depth};
ghost use Rattle.words.specs.Word.{words_of};
ghost use Rattle.operators.specs.Operators.{operator_of};
ghost use Rattle.operators.specs.declared.Operator.TheVariants.{NotEqual};
ghost use Rattle.literals.specs.Literals.{literal_of, value_at};
ghost use Rattle.orders.specs.Values.{compared, compared_from};
ghost use Rattle.predicate.specs.Nodes.{or_equal};
ghost use Rattle.table.specs.Worth.{worth};
ghost use Rattle.pruning.specs.TableReading.{operator_field, literal_first_field, first_of, second_of, table_node_at, table_at};
ghost use Rattle.pruning.specs.Cells.{count_at};
ghost use Rattle.cells.specs.Counts.{count_value};
ghost use Rattle.cells.specs.Grids.{list_of};
ghost use Rattle.comparing.specs.Comparing.{Asks};
ghost use Rattle.evaluating.specs.Rows.{row_cells};
ghost use Rattle.evaluating.specs.Ready.{Ready};
ghost use Rattle.evaluating.specs.Steps.{bound_in, count_in, step_of, NodeAsks, Evaluable, WorthFor, settled};
ghost use Rattle.evaluating.specs.Ends.{Skippable, EndFor};

use kleene::{Joining, Truth};
use literals::Literal;
use statistics::Place;
use table::Kind;
use words::Walked;

// A table with its literal pool, and the row of a container with its cell pool.
#[derive(Clone, Copy)]
pub struct Container<'a> {
    pub table: &'a [u8],
    pub pool: &'a [u8],
    pub row: &'a [u8],
    pub cells: &'a [u8],
}

// A node without its children: a leaf's worth and how many words it has, or what is done with the children.
#[derive(Clone, Copy)]
pub enum Step {
    Leaf(Truth, usize),
    Both(Joining),
    Turned,
}

// The least or greatest value at a place of the row.
fn bound_at(c: &Container<'_>, p: Place) -> Literal
    ensures { result ≡ literal_of c.now.cells.now (get_or (words_of c.now.row.now) p.0 0) }
{
    literals::literal_of(c.cells, words::word_or_zero(c.row, usize::from(p.0)))
}

// The count at a place of the row.
fn count_in(c: &Container<'_>, p: Place) -> Option<u64>
    ensures { count_value result ≡ count_at c.now.cells.now (get_or (words_of c.now.row.now) p.0 0) }
{
    cells::count_at(c.cells, words::word_or_zero(c.row, usize::from(p.0)))
}

// The word at a place of a table.
#[tactic(auto, using(words::specs::WordLaws::words_at))]
fn node_word(table: &[u8], at: usize) -> u64
    requires { at < length table.now / 8 }
    ensures { result ≡ get_or (words_of table.now) at 0 }
{
    words::word_at(table, 8 * at)
}

// What a comparison's word w at a place says of the cell that it names and the literal behind it.
fn against_at(c: &Container<'_>, at: usize, w: u64) -> Truth
    requires { (at < length c.now.table.now / 8) × Asks (or_equal (operator_of (operator_field w))) }
    ensures { result ≡ compared_from (eqb (literal_first_field w) 1) (or_equal (operator_of (operator_field w))) (bound_in c.now.cells.now (words_of c.now.row.now) (first_of w)) (value_at c.now.pool.now (get_or (words_of c.now.table.now) (at + 1) 0)) }
{
    let o = pruning::operator_or_equal(pruning::operator_of(w));
    let cell = words::word_or_zero(c.row, usize::from(pruning::first_of(w)));
    let first = pruning::literal_first_of(w) == 1;
    let literal = words::word_or_zero(c.table, at + 1);
    comparing::against_words(c.pool, c.cells, o, cell, first, literal)
}

// Whether two counts of the row differ, which the word w names.
fn differ_at(c: &Container<'_>, w: u64) -> Truth
    ensures { result ≡ compared NotEqual (count_in c.now.cells.now (words_of c.now.row.now) (first_of w)) (count_in c.now.cells.now (words_of c.now.row.now) (second_of w)) }
{
    let p = Place(pruning::first_of(w));
    let q = Place(pruning::second_of(w));
    comparing::differ(count_in(c, p), count_in(c, q))
}

// The node at a place, without its children; of its word only what its kind has is read.
#[tactic(auto, using(crate::specs::Steps::step_kinds))]
fn step_at(c: &Container<'_>, at: usize) -> Step
    requires { (at < length c.now.table.now / 8) × NodeAsks (table_node_at c.now.pool.now (words_of c.now.table.now) at) }
    ensures { result ≡ step_of c.now.cells.now (words_of c.now.row.now) c.now.pool.now (table_node_at c.now.pool.now (words_of c.now.table.now) at) }
{
    let w = node_word(c.table, at);
    let first = Place(pruning::first_of(w));
    match Kind::of_number(pruning::kind_of(w)) {
        Some(Kind::Always) => Step::Leaf(comparing::truth_of(pruning::operator_of(w) == 1), 1),
        Some(Kind::And) => Step::Both(Joining::And),
        Some(Kind::Or) => Step::Both(Joining::Or),
        Some(Kind::Against) => Step::Leaf(against_at(c, at, w), 2),
        Some(Kind::Positive) => Step::Leaf(comparing::is_positive(count_in(c, first)), 1),
        Some(Kind::Differ) => Step::Leaf(differ_at(c, w), 1),
        Some(Kind::Holds) => Step::Leaf(comparing::truth_in(c.cells, bound_at(c, first)), 1),
        Some(Kind::Negation) => Step::Turned,
        None => Step::Leaf(Truth::True, 1),
    }
}

// Whether the first of two sides decides, whatever the second is.
fn settles(way: Joining, a: Truth) -> bool
    ensures { result ≡ settled way a }
{
    matches!(
        (way, a),
        (Joining::And, Truth::False) | (Joining::Or, Truth::True)
    )
}

// The place behind the table at a place, with a depth left.
fn end_of(table: &[u8], depth: usize, at: usize) -> usize
    requires { Skippable (words_of table.now) depth at }
    ensures { EndFor (words_of table.now) depth at result }
{
    let left = depth - 1;
    let child = at + 1;
    let kind = Kind::of_number(pruning::kind_of(node_word(table, at)));
    // A constant is told first, by a test of its own: a table that rewriting didn't make may hold little else.
    if kind == Some(Kind::Always) {
        return child;
    }
    match kind {
        Some(Kind::And | Kind::Or) => end_of(table, left, end_of(table, left, child)),
        Some(Kind::Against) => at + 2,
        Some(Kind::Negation) => end_of(table, left, child),
        _ => child,
    }
}

// What the table at a place is worth on the row, with a depth left; a side that decides nothing more is passed over.
pub fn worth_at(c: &Container<'_>, depth: usize, at: usize) -> Walked<Truth>
    requires { Evaluable c.now.pool.now (words_of c.now.table.now) depth at }
    ensures { WorthFor c.now.cells.now (words_of c.now.row.now) c.now.pool.now (words_of c.now.table.now) depth at result }
{
    let left = depth - 1;
    let child = at + 1;
    match step_at(c, at) {
        Step::Leaf(value, n) => Walked {
            value,
            next: at + n,
        },
        Step::Both(way) => {
            let l = worth_at(c, left, child);
            if settles(way, l.value) {
                return Walked {
                    value: l.value,
                    next: end_of(c.table, left, l.next),
                };
            }
            let r = worth_at(c, left, l.next);
            Walked {
                value: kleene::join(way, l.value, r.value),
                next: r.next,
            }
        }
        Step::Turned => {
            let v = worth_at(c, left, child);
            Walked {
                value: v.value.not(),
                next: v.next,
            }
        }
    }
}

// What a checked table is worth on the row.
pub fn evaluate(list: &[u8], c: &Container<'_>) -> Truth
    requires { Ready (list_of list.now) c.now.pool.now (words_of c.now.table.now) max_table_depth 0 }
    ensures { result ≡ worth (row_cells c.now.cells.now (list_of list.now) (words_of c.now.row.now)) (table_at (list_of list.now) c.now.pool.now (words_of c.now.table.now) max_table_depth 0).table }
{
    worth_at(c, limits::MAX_TABLE_DEPTH, 0).value
}
