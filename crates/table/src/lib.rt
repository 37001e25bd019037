// Rewritten tables: the kinds of their nodes, the forms of comparisons, and folding.
#![tactic(auto)]

ghost use Rattle.std.specs.Prelude.{◌≡◌};
ghost use Rattle.table.specs.Encoding.{number_of_kind, kind_named};

// What a node of a rewritten table is.
#[derive(Clone, Copy, Debug, PartialEq, Eq, Default)]
pub enum Kind {
    #[default]
    Always,
    And,
    Or,
    Against,
    Positive,
    Differ,
    Holds,
    Negation,
}

impl From<Kind> for u8 {
    ghost from_gives = { λ k n. n ≡ number_of_kind k };

    fn from(k: Kind) -> u8 {
        match k {
            Kind::Always => 0,
            Kind::And => 1,
            Kind::Or => 2,
            Kind::Against => 3,
            Kind::Positive => 4,
            Kind::Differ => 5,
            Kind::Holds => 6,
            Kind::Negation => 7,
        }
    }
}

impl Kind {
    // The kind of a number.
    pub fn of_number(n: u8) -> Option<Kind>
        ensures { result ≡ kind_named n }
    {
        match n {
            0 => Some(Kind::Always),
            1 => Some(Kind::And),
            2 => Some(Kind::Or),
            3 => Some(Kind::Against),
            4 => Some(Kind::Positive),
            5 => Some(Kind::Differ),
            6 => Some(Kind::Holds),
            7 => Some(Kind::Negation),
            _ => None,
        }
    }
}

// Whether a rewritten part is a constant.
#[derive(Clone, Copy)]
pub enum Known {
    False,
    True,
    Open,
}

// What a join of two rewritten parts comes to.
#[derive(Clone, Copy)]
pub enum Folded {
    Fixed(bool),
    Left,
    Right,
    Both,
}
