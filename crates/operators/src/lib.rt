// The comparison operators: their codes, each one's swap, and what each asks of an order.
#![tactic(auto)]

ghost use Rattle.std.specs.Prelude.{◌≡◌};
ghost use Rattle.operators.specs.Operators.{operator_of, code_of, swap_of, holds};

use std::cmp::Ordering;

#[derive(Clone, Copy, PartialEq, Eq)]
pub enum Operator {
    Equal,
    NotEqual,
    Below,
    AtMost,
    Above,
    AtLeast,
    Distinct,
    NotDistinct,
}

// A constant for each code and functions from code and back: document 01 names this form.
impl Operator {
    pub const EQUAL: u8 = 0;

    pub const NOT_EQUAL: u8 = 1;

    pub const BELOW: u8 = 2;

    pub const AT_MOST: u8 = 3;

    pub const ABOVE: u8 = 4;

    pub const AT_LEAST: u8 = 5;

    pub const DISTINCT: u8 = 6;

    pub const NOT_DISTINCT: u8 = 7;

    // The operator of a code.
    pub fn of_code(n: u8) -> Option<Operator>
        ensures { result ≡ operator_of n }
    {
        match n {
            Operator::EQUAL => Some(Operator::Equal),
            Operator::NOT_EQUAL => Some(Operator::NotEqual),
            Operator::BELOW => Some(Operator::Below),
            Operator::AT_MOST => Some(Operator::AtMost),
            Operator::ABOVE => Some(Operator::Above),
            Operator::AT_LEAST => Some(Operator::AtLeast),
            Operator::DISTINCT => Some(Operator::Distinct),
            Operator::NOT_DISTINCT => Some(Operator::NotDistinct),
            _ => None,
        }
    }

    // The operator's code.
    pub fn code(self) -> u8
        ensures { result ≡ code_of self }
    {
        match self {
            Operator::Equal => Operator::EQUAL,
            Operator::NotEqual => Operator::NOT_EQUAL,
            Operator::Below => Operator::BELOW,
            Operator::AtMost => Operator::AT_MOST,
            Operator::Above => Operator::ABOVE,
            Operator::AtLeast => Operator::AT_LEAST,
            Operator::Distinct => Operator::DISTINCT,
            Operator::NotDistinct => Operator::NOT_DISTINCT,
        }
    }

    // The operator with its sides exchanged.
    pub fn swap(self) -> Operator
        ensures { result ≡ swap_of self }
    {
        match self {
            Operator::Equal => Operator::Equal,
            Operator::NotEqual => Operator::NotEqual,
            Operator::Below => Operator::Above,
            Operator::AtMost => Operator::AtLeast,
            Operator::Above => Operator::Below,
            Operator::AtLeast => Operator::AtMost,
            Operator::Distinct => Operator::Distinct,
            Operator::NotDistinct => Operator::NotDistinct,
        }
    }

    // Whether the operator holds of two values that compare so.
    pub fn holds(self, r: Ordering) -> bool
        ensures { result ≡ holds self r }
    {
        match self {
            Operator::Equal | Operator::NotDistinct => r.is_eq(),
            Operator::NotEqual | Operator::Distinct => r.is_ne(),
            Operator::Below => r.is_lt(),
            Operator::AtMost => r.is_le(),
            Operator::Above => r.is_gt(),
            Operator::AtLeast => r.is_ge(),
        }
    }
}
