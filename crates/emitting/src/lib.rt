// The table that a predicate is rewritten to, written in table order into a lent table and a lent literal pool. What a subtree comes
// to is known before any of it is written, so nothing is written that the table does not hold.
#![tactic(auto)]

ghost use Rattle.words.specs.Word.{words_of};
ghost use Rattle.literals.specs.Literals.{value_of, LiteralFits};
ghost use Rattle.predicate.specs.Predicates.{predicate_at};
ghost use Rattle.predicate.specs.Accepted.{Fine};
ghost use Rattle.walking.specs.Places.{Near};
ghost use Rattle.table.specs.Measures.{table_width};
ghost use Rattle.table.specs.Rewriting.{not_table, comparison_table, rewritten};
ghost use Rattle.listing.specs.Listing.{Few};
ghost use Rattle.writing.specs.Writing.{WideFor, RoomFor, WroteBy};
ghost use Rattle.emitting.specs.Joins.{join_table};

use kleene::{Joining, Truth};
use knowing::Members;
use literals::Literal;
use operators::Operator;
use predicate::{Column, Node};
use table::Folded;
use walking::Request;
use writing::Writer;

// Writes the table of NOT of the predicate at a place: unhandled, but over a truth-value column.
fn write_not(r: &Request<'_>, w: &mut Writer<'_>, depth: usize, at: usize)
    requires { Few w.old.list.now × WideFor (table_width (not_table (predicate_at r.now.pool.now (words_of r.now.words.now) depth at).predicate)) w.old }
    ensures { WroteBy (not_table (predicate_at r.now.pool.now (words_of r.now.words.now) depth at).predicate) w.old w.new }
{
    if depth == 0 {
        return w.write_always(true);
    }
    match predicate::node_at(r.pool, r.words, at) {
        Node::TruthColumn(c) => w.write_not_column(c),
        _ => w.write_always(true),
    }
}

// Writes a comparison's table, its flips taken off.
fn write_compared(
    r: &Request<'_>,
    w: &mut Writer<'_>,
    o: Operator,
    c: Column,
    flips: u8,
    first: bool,
    l: Literal,
)
    requires { Few w.old.list.now × LiteralFits l × RoomFor (comparison_table r.now.schema.now o c flips first (value_of r.now.pool.now l)) w.old }
    ensures { WroteBy (comparison_table r.now.schema.now o c flips first (value_of r.now.pool.now l)) w.old w.new }
{
    let t = turning::turn(predicate::type_in(r.schema, c), o, flips, first, l);
    forms::write_turned(w, r.pool, c, t);
}

// Writes the table of a join whose first side stands at a place: a constant, one side, or both.
#[cycle(emit)]
fn emit_join(r: &Request<'_>, w: &mut Writer<'_>, depth: usize, at: usize, j: Joining)
    requires { Near r.now.words.now at × Near r.now.words.now (predicate_at r.now.pool.now (words_of r.now.words.now) depth at).next × Fine r.now.schema.now (predicate_at r.now.pool.now (words_of r.now.words.now) depth at).predicate × Fine r.now.schema.now (predicate_at r.now.pool.now (words_of r.now.words.now) depth (predicate_at r.now.pool.now (words_of r.now.words.now) depth at).next).predicate × Few w.old.list.now × RoomFor (join_table r.now.limit r.now.schema.now (predicate_at r.now.pool.now (words_of r.now.words.now) depth) at j) w.old }
    ensures { WroteBy (join_table r.now.limit r.now.schema.now (predicate_at r.now.pool.now (words_of r.now.words.now) depth) at j) w.old w.new }
{
    let left = folding::fold(r, depth, at);
    let right = folding::fold(r, depth, left.next);
    match knowing::folds(j, left.value, right.value) {
        Folded::Fixed(b) => w.write_always(b),
        Folded::Left => emit(r, w, depth, at),
        Folded::Right => emit(r, w, depth, left.next),
        Folded::Both => {
            w.put_join(j);
            emit(r, w, depth, at);
            emit(r, w, depth, left.next);
        }
    }
}

// Writes the table of the predicate at a place: build_predicate_expression.
#[cycle(emit)]
pub fn emit(r: &Request<'_>, w: &mut Writer<'_>, depth: usize, at: usize)
    requires { Near r.now.words.now at × Fine r.now.schema.now (predicate_at r.now.pool.now (words_of r.now.words.now) depth at).predicate × Few w.old.list.now × RoomFor (rewritten r.now.limit r.now.schema.now (predicate_at r.now.pool.now (words_of r.now.words.now) depth at).predicate) w.old }
    ensures { WroteBy (rewritten r.now.limit r.now.schema.now (predicate_at r.now.pool.now (words_of r.now.words.now) depth at).predicate) w.old w.new }
{
    if depth == 0 {
        return w.write_always(true);
    }
    match predicate::node_at(r.pool, r.words, at) {
        Node::Constant(t) => w.write_always(!matches!(t, Truth::False)),
        Node::Join(j) => emit_join(r, w, depth - 1, at + 1, j),
        Node::Not => write_not(r, w, depth - 1, at + 1),
        Node::TruthColumn(c) => w.write_column(c),
        Node::IsNull(c) => w.column_has_nulls_expr(c),
        Node::IsNotNull(c) => w.column_has_non_nulls_expr(c),
        Node::Comparison(o, c, n, b, l) => write_compared(r, w, o, c, n, b, l),
        Node::List(negated, column, flips, count) => {
            let m = Members {
                negated,
                column,
                flips,
                at,
                count,
            };
            members::write_list(r, w, m);
        }
        Node::Like(negated, c, l) => patterns::write_matching(w, r.pool, negated, c, l),
    }
}
