// Comparisons turned: the literal to the right, the flips off the column.
#![tactic(auto)]

ghost use Rattle.std.specs.Prelude.{◌≡◌};
ghost use Rattle.table.specs.Comparisons.{asks, minus, minuses, flip_once, truth_flips, no_flips, flipped, unturned, turned};
ghost use Rattle.turning.specs.Turns.{Turns, Negates};

use literals::Literal;
use operators::Operator;

// An operator against a literal on its right.
#[derive(Clone, Copy)]
pub struct Against {
    pub operator: Operator,
    pub literal: Literal,
}

// One flip of an integer column: it negates the literal and swaps the operator, -2^63 caught first.
fn take_minus(a: Against) -> Option<Against>
    ensures { Turns (minus asks a.operator) a.literal result }
{
    let literal = match a.literal {
        Literal::Null => Literal::Null,
        Literal::Int(x) => Literal::Int(literals::negate(x)?),
        Literal::Text(_) | Literal::Truth(_) => return None,
    };
    Some(Against {
        operator: a.operator.swap(),
        literal,
    })
}

// Flips of an integer column.
fn take_minuses(flips: u8, a: Against) -> Option<Against>
    ensures { Turns (minuses flips a.operator) a.literal result }
{
    let mut turned = a;
    for _ in 0..flips {
        turned = take_minus(turned)?;
    }
    Some(turned)
}

// A literal with its truth value negated.
fn negate_truth(l: Literal) -> Literal
    ensures { Negates l result }
{
    match l {
        Literal::Truth(b) => Literal::Truth(!b),
        _ => l,
    }
}

// One flip of a truth-value column: it negates the literal of = and ≠.
fn take_not(a: Against) -> Option<Against>
    ensures { Turns (flip_once a.operator) a.literal result }
{
    match a.operator {
        Operator::Equal | Operator::NotEqual => Some(Against {
            literal: negate_truth(a.literal),
            ..a
        }),
        _ => None,
    }
}

// Flips of a truth-value column.
fn take_nots(flips: u8, a: Against) -> Option<Against>
    ensures { Turns (truth_flips flips a.operator) a.literal result }
{
    match flips {
        0 => Some(a),
        1 => take_not(a),
        _ => None,
    }
}

// Flips of a column that has none.
fn take_none(flips: u8, a: Against) -> Option<Against>
    ensures { Turns (no_flips flips a.operator) a.literal result }
{
    if flips == 0 { Some(a) } else { None }
}

// Flips by the column's type.
fn take_flips(kind: u8, flips: u8, a: Against) -> Option<Against>
    ensures { Turns (flipped kind flips a.operator) a.literal result }
{
    match kind {
        Literal::INTEGER => take_minuses(flips, a),
        Literal::TRUTH => take_nots(flips, a),
        _ => take_none(flips, a),
    }
}

// An operator that has no swap: handled as it stands only.
fn keep(flips: u8, first: bool, a: Against) -> Option<Against>
    ensures { Turns (unturned flips first a.operator) a.literal result }
{
    if first || flips > 0 { None } else { Some(a) }
}

// A comparison turned: rewrite_expr_to_prunable; a literal on the left is put right by reverse_operator.
#[tactic(auto, using(crate::proofs::Laws::turned_kept))]
pub fn turn(kind: u8, o: Operator, flips: u8, first: bool, l: Literal) -> Option<Against>
    ensures { Turns (turned kind o flips first) l result }
{
    match o {
        Operator::Distinct | Operator::NotDistinct => {
            keep(
                flips,
                first,
                Against {
                    operator: o,
                    literal: l,
                },
            )
        }
        _ => {
            let operator = if first { o.swap() } else { o };
            take_flips(
                kind,
                flips,
                Against {
                    operator,
                    literal: l,
                },
            )
        }
    }
}
