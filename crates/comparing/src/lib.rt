// How a cell compares with a literal or another cell, and what that is worth.
#![tactic(auto)]

ghost use Rattle.std.specs.Prelude.{◌≡◌, ◌/◌, ◌^◌, eqb, pos};
ghost use Rattle.words.specs.Word.{word_at, range_of};
ghost use Rattle.words.specs.Bytes.{byte_order};
ghost use Rattle.operators.specs.declared.Operator.TheVariants.{NotEqual, Above};
ghost use Rattle.kleene.specs.Truths.{truth_of};
ghost use Rattle.literals.specs.Signed.{signed};
ghost use Rattle.literals.specs.Literals.{offset_of, value_of, value_at, int};
ghost use Rattle.orders.specs.Order.{order_by};
ghost use Rattle.orders.specs.Instances.{truths};
ghost use Rattle.orders.specs.Values.{order_of, by_order, compared, compared_from, truth_in};
ghost use Rattle.cells.specs.Counts.{count_value};
ghost use Rattle.comparing.specs.Comparing.{order_in, Asks, integer_top};

use kleene::Truth;
use literals::Literal;
use operators::Operator;
use std::cmp::Ordering;
use words::{Operand, Range};

// A truth value that is known.
pub fn truth_of(b: bool) -> Truth
    ensures { result ≡ truth_of b }
{
    if b { Truth::True } else { Truth::False }
}

// How a text of the cell pool compares with one of the literal pool.
fn compare_texts<'a>(literals: &'a [u8], cells: &'a [u8], cell: Range, literal: Range) -> Ordering
    ensures { result ≡ byte_order (range_of cells.now cell) (range_of literals.now literal) }
{
    let x = words::operand_bytes(literals, cells, Operand::Cell(words::clip(cells, cell)));
    let y = words::operand_bytes(
        literals,
        cells,
        Operand::Literal(words::clip(literals, literal)),
    );
    words::compare_bytes(x, y)
}

// How a cell's value compares with a literal's; none where one is absent or null, or of another type.
pub fn compare_values<'a>(
    literals: &'a [u8],
    cells: &'a [u8],
    cell: Literal,
    literal: Literal,
) -> Option<Ordering>
    ensures { order_in result ≡ order_of (value_of cells.now cell) (value_of literals.now literal) }
{
    match (cell, literal) {
        (Literal::Int(a), Literal::Int(b)) => Some(literals::compare_ints(a, b)),
        (Literal::Text(a), Literal::Text(b)) => Some(compare_texts(literals, cells, a, b)),
        (Literal::Truth(a), Literal::Truth(b)) => Some(a.cmp(&b)),
        _ => None,
    }
}

// What an operator says of two values that compare so; unknown where they do not.
pub fn by_order(o: Operator, c: Option<Ordering>) -> Truth
    ensures { result ≡ by_order o (order_in c) }
{
    c.map_or(Truth::Unknown, |r| truth_of(o.holds(r)))
}

// A cell against a literal, which is written on the left where it is first.
pub fn against<'a>(
    literals: &'a [u8],
    cells: &'a [u8],
    o: Operator,
    cell: Literal,
    first: bool,
    literal: Literal,
) -> Truth
    requires { Asks o }
    ensures { result ≡ compared_from first o (value_of cells.now cell) (value_of literals.now literal) }
{
    let c = compare_values(literals, cells, cell, literal);
    by_order(if first { o.swap() } else { o }, c)
}

// Two integers, the second written on the left where it is first.
fn ints_against(o: Operator, a: i64, first: bool, b: i64) -> Truth
    requires { Asks o }
    ensures { result ≡ compared_from first o (int a) (int b) }
{
    let r = if first {
        literals::compare_ints(b, a)
    } else {
        literals::compare_ints(a, b)
    };
    truth_of(o.holds(r))
}

// Whether a word is an integer's: its type, length and zero field are tested at once.
fn is_integer(w: u64) -> bool
    ensures { result ≡ eqb (w / 2 ^ 24) integer_top }
{
    w / 16777216 == 275012124672
}

// The integer that a literal word names.
fn integer_in(pool: &[u8], w: u64) -> i64
    ensures { result ≡ signed (word_at pool.now (offset_of w)) }
{
    literals::of_word(cells::number_of(pool, w))
}

// The same of the words of a cell and of a literal; of two integers nothing else is read.
pub fn against_words<'a>(
    literals: &'a [u8],
    cells: &'a [u8],
    o: Operator,
    cell: u64,
    first: bool,
    literal: u64,
) -> Truth
    requires { Asks o }
    ensures { result ≡ compared_from first o (value_at cells.now cell) (value_at literals.now literal) }
{
    if is_integer(cell) && is_integer(literal) {
        return ints_against(
            o,
            integer_in(cells, cell),
            first,
            integer_in(literals, literal),
        );
    }
    against(
        literals,
        cells,
        o,
        literals::literal_of(cells, cell),
        first,
        literals::literal_of(literals, literal),
    )
}

// A count above 0.
#[tactic(auto, using(crate::specs::Comparing::positive_is))]
pub fn is_positive(c: Option<u64>) -> Truth
    ensures { result ≡ compared Above (count_value c) (int (pos 0)) }
{
    c.map_or(Truth::Unknown, |n| truth_of(0 < n))
}

// Two counts that differ.
#[tactic(auto, using(crate::specs::Comparing::differ_is))]
pub fn differ(a: Option<u64>, b: Option<u64>) -> Truth
    ensures { result ≡ compared NotEqual (count_value a) (count_value b) }
{
    a.zip(b).map_or(Truth::Unknown, |(x, y)| truth_of(x != y))
}

// A truth value's cell as it stands; unknown where it is absent.
pub fn truth_in(cells: &[u8], cell: Literal) -> Truth
    ensures { result ≡ truth_in (value_of cells.now cell) }
{
    match cell {
        Literal::Truth(b) => truth_of(b),
        _ => Truth::Unknown,
    }
}
