// The forms of comparisons, written into a lent table and a lent literal pool.
#![tactic(auto)]

ghost use Rattle.literals.specs.Literals.{value_of};
ghost use Rattle.table.specs.Comparisons.{equal_form, unequal_form, wrapped, distinct_form, not_distinct_form, comparison_form, turned_form};
ghost use Rattle.listing.specs.Listing.{Few};
ghost use Rattle.turning.specs.Turns.{turned_of, TurnedFits};
ghost use Rattle.writing.specs.Writing.{RoomFor, WroteBy};
ghost use Rattle.forms.specs.Forms.{FormFits, bounds_form, bare_form};

use kleene::Joining;
use literals::Literal;
use operators::Operator;
use predicate::Column;
use statistics::Statistic;
use turning::Against;
use writing::Writer;

// Writes least against a literal and the literal against greatest, joined.
// (Here and below, pool, column and literal stay three parameters: a struct of them makes every clause longer.)
fn write_bounds(w: &mut Writer<'_>, input: &[u8], j: Joining, o: Operator, c: Column, l: Literal)
    requires { FormFits l (bounds_form j o c (value_of input.now l)) w.old }
    ensures { WroteBy (bounds_form j o c (value_of input.now l)) w.old w.new }
{
    w.put_join(j);
    w.write_against(input, o, Statistic::Least(c), false, l);
    w.write_against(input, o, Statistic::Greatest(c), true, l);
}

// Writes least ≤ literal AND literal ≤ greatest.
pub fn build_eq_statistics_expr(w: &mut Writer<'_>, input: &[u8], c: Column, l: Literal)
    requires { FormFits l (equal_form c (value_of input.now l)) w.old }
    ensures { WroteBy (equal_form c (value_of input.now l)) w.old w.new }
{
    write_bounds(w, input, Joining::And, Operator::AtMost, c, l);
}

// Writes least ≠ literal OR literal ≠ greatest.
pub fn build_ne_statistics_expr(w: &mut Writer<'_>, input: &[u8], c: Column, l: Literal)
    requires { FormFits l (unequal_form c (value_of input.now l)) w.old }
    ensures { WroteBy (unequal_form c (value_of input.now l)) w.old w.new }
{
    write_bounds(w, input, Joining::Or, Operator::NotEqual, c, l);
}

// Writes what an operator asks of least and greatest.
fn write_bare(w: &mut Writer<'_>, input: &[u8], c: Column, o: Operator, l: Literal)
    requires { FormFits l (bare_form c o (value_of input.now l)) w.old }
    ensures { WroteBy (bare_form c o (value_of input.now l)) w.old w.new }
{
    match o {
        Operator::Equal | Operator::NotDistinct => build_eq_statistics_expr(w, input, c, l),
        Operator::NotEqual | Operator::Distinct => build_ne_statistics_expr(w, input, c, l),
        Operator::Below | Operator::AtMost => {
            w.write_against(input, o, Statistic::Least(c), false, l);
        }
        Operator::Above | Operator::AtLeast => {
            w.write_against(input, o, Statistic::Greatest(c), false, l);
        }
    }
}

// Writes the same, wrapped in the blanks test.
fn write_wrapped(w: &mut Writer<'_>, input: &[u8], c: Column, o: Operator, l: Literal)
    requires { FormFits l (wrapped c (bare_form c o (value_of input.now l))) w.old }
    ensures { WroteBy (wrapped c (bare_form c o (value_of input.now l))) w.old w.new }
{
    w.wrap_null_count_check_expr(c);
    write_bare(w, input, c, o, l);
}

// Writes the form of distinct from.
pub fn build_is_distinct_from(w: &mut Writer<'_>, input: &[u8], c: Column, l: Literal)
    requires { FormFits l (distinct_form c (value_of input.now l)) w.old }
    ensures { WroteBy (distinct_form c (value_of input.now l)) w.old w.new }
{
    match l {
        Literal::Null => w.column_has_non_nulls_expr(c),
        _ => {
            w.put_join(Joining::Or);
            w.column_has_nulls_expr(c);
            build_ne_statistics_expr(w, input, c, l);
        }
    }
}

// Writes the form of not distinct from.
pub fn build_is_not_distinct_from(w: &mut Writer<'_>, input: &[u8], c: Column, l: Literal)
    requires { FormFits l (not_distinct_form c (value_of input.now l)) w.old }
    ensures { WroteBy (not_distinct_form c (value_of input.now l)) w.old w.new }
{
    match l {
        Literal::Null => w.column_has_nulls_expr(c),
        _ => write_wrapped(w, input, c, Operator::NotDistinct, l),
    }
}

// Writes a comparison's form: build_statistics_expr.
pub fn write_comparison(w: &mut Writer<'_>, input: &[u8], c: Column, o: Operator, l: Literal)
    requires { FormFits l (comparison_form c o (value_of input.now l)) w.old }
    ensures { WroteBy (comparison_form c o (value_of input.now l)) w.old w.new }
{
    match o {
        Operator::Distinct => build_is_distinct_from(w, input, c, l),
        Operator::NotDistinct => build_is_not_distinct_from(w, input, c, l),
        _ => write_wrapped(w, input, c, o, l),
    }
}

// Writes a turned comparison's form, and true where it is unhandled.
pub fn write_turned(w: &mut Writer<'_>, input: &[u8], c: Column, t: Option<Against>)
    requires { Few w.old.list.now × TurnedFits t × RoomFor (turned_form c (turned_of input.now t)) w.old }
    ensures { WroteBy (turned_form c (turned_of input.now t)) w.old w.new }
{
    match t {
        Some(a) => write_comparison(w, input, c, a.operator, a.literal),
        None => w.write_always(true),
    }
}
