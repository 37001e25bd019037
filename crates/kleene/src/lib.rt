// Three-valued logic by constant tables, a form that document 01 names.
#![tactic(auto)]

ghost use Rattle.std.specs.Prelude.{◌≡◌, ◌<◌};
ghost use Rattle.kleene.specs.Truths.{place_of, kleene_and, kleene_or, kleene_not, kleene};

#[derive(Clone, Copy, PartialEq, Eq)]
pub enum Truth {
    False,
    Unknown,
    True,
}

// The two ways of joining predicates.
#[derive(Clone, Copy, PartialEq, Eq)]
pub enum Joining {
    And,
    Or,
}

impl Truth {
    const AND: [[Truth; 3]; 3] = [
        [Truth::False, Truth::False, Truth::False],
        [Truth::False, Truth::Unknown, Truth::Unknown],
        [Truth::False, Truth::Unknown, Truth::True],
    ];

    const OR: [[Truth; 3]; 3] = [
        [Truth::False, Truth::Unknown, Truth::True],
        [Truth::Unknown, Truth::Unknown, Truth::True],
        [Truth::True, Truth::True, Truth::True],
    ];

    const NOT: [Truth; 3] = [Truth::True, Truth::Unknown, Truth::False];

    // The place of a truth value in a table.
    fn place(self) -> usize
        ensures { (result ≡ place_of self) × (result < 3) }
    {
        self as usize
    }

    // AND of two truth values.
    pub fn and(self, b: Truth) -> Truth
        ensures { result ≡ kleene_and self b }
    {
        let i = self.place();
        let j = b.place();
        Truth::AND[i][j]
    }

    // OR of two truth values.
    pub fn or(self, b: Truth) -> Truth
        ensures { result ≡ kleene_or self b }
    {
        let i = self.place();
        let j = b.place();
        Truth::OR[i][j]
    }

    // NOT of a truth value.
    pub fn not(self) -> Truth
        ensures { result ≡ kleene_not self }
    {
        let i = self.place();
        Truth::NOT[i]
    }
}

// Two truth values joined.
pub fn join(way: Joining, a: Truth, b: Truth) -> Truth
    ensures { result ≡ kleene way a b }
{
    match way {
        Joining::And => a.and(b),
        Joining::Or => a.or(b),
    }
}
