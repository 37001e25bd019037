// Writers of a table's nodes into a lent table and a lent literal pool.
#![tactic(auto)]

ghost use Rattle.std.specs.Prelude.{◌≡◌, false, [], ◌∷◌, ◌+◌, ◌^◌, ◌≤◌, ◌<◌, length};
ghost use Rattle.std.proofs.lemmas.List.Edits.{sets};
ghost use Rattle.literals.specs.Literals.{LiteralFits, value_of, value_bytes, value_word};
ghost use Rattle.statistics.specs.declared.Statistic.TheVariants.{Least, Greatest};
ghost use Rattle.table.specs.Tables.{always, both, against, holds};
ghost use Rattle.table.specs.Comparisons.{has_blanks, has_values};
ghost use Rattle.table.specs.Rewriting.{column_table, not_column_table};
ghost use Rattle.table.specs.Nests.{join_word};
ghost use Rattle.statistics.specs.Statistics.{place_of};
ghost use Rattle.listing.specs.Listing.{list_of, Few};
ghost use Rattle.writing.specs.Writing.{word_of, Ready, Clipped, WideFor, RoomFor, HeadBy, PutBy, WroteBy};
ghost use Rattle.writing.specs.WritingLaws.{not_word, wrap_words};

use kleene::Joining;
use literals::Literal;
use operators::Operator;
use predicate::Column;
use statistics::{Place, Statistic};
use table::Kind;

// How far writing has come: words of the table, bytes of the pool.
#[derive(Clone, Copy)]
pub struct Spot {
    pub to: usize,
    pub off: usize,
}

// Where a table is written: the statistics that its places name, the lent table and the lent pool, and how far each is written.
#[derive(Drop)]
pub struct Writer<'a> {
    pub list: &'a [u8],
    pub table: &'a mut [u8],
    pub pool: &'a mut [u8],
    pub at: Spot,
}

// What the word of a node holds; a kind that has not a field leaves it 0.
#[derive(Clone, Copy, Default)]
struct TableWord {
    kind: Kind,
    operator: u8,
    first: Place,
    second: Place,
    literal_first: bool,
}

impl TableWord {
    // A node of a kind, each other field 0.
    fn of(kind: Kind) -> TableWord
        ensures { result ≡ record { kind = kind; operator = 0; first = record { 0 = 0 }; second = record { 0 = 0 }; literal_first = false } }
    {
        TableWord {
            kind,
            ..TableWord::default()
        }
    }

    // The node's word.
    fn word(self) -> u64
        requires { self.operator < 16 }
        ensures { result ≡ word_of self }
    {
        (u64::from(u8::from(self.kind)) << 60)
            + (u64::from(self.operator) << 56)
            + (u64::from(self.first.0) << 48)
            + (u64::from(self.second.0) << 40)
            + (u64::from(self.literal_first) << 39)
    }
}

// A literal whose text is cut to what a pool has.
fn clip(input: &[u8], l: Literal) -> Literal
    requires { LiteralFits l }
    ensures { Clipped input.now l result }
{
    match l {
        Literal::Text(r) => Literal::Text(words::clip(input, r)),
        _ => l,
    }
}

// Stores a literal's bytes in the pool, and answers where they end.
fn put_bytes(input: &[u8], l: Literal, pool: &mut [u8], off: usize) -> usize
    requires { Ready input.now l × (off + length (value_bytes (value_of input.now l)) ≤ length pool.old) }
    ensures { (result ≡ off + length (value_bytes (value_of input.now l))) × (pool.new ≡ sets pool.old off (value_bytes (value_of input.now l))) }
{
    match l {
        Literal::Int(x) => {
            words::put_word(pool, off, literals::to_word(x));
            off + Literal::INTEGER_BYTES
        }
        Literal::Text(r) => {
            words::copy_part(input, r.at, r.len, pool, off);
            off + r.len
        }
        Literal::Null | Literal::Truth(_) => off,
    }
}

impl Writer<'_> {
    // Puts a word.
    fn put(&mut self, word: u64)
        requires { WideFor 1 self.old }
        ensures { HeadBy (word ∷ []) self.old self.new }
    {
        words::put_word(self.table, 8 * self.at.to, word);
        self.at.to += 1;
    }

    // Puts a node's word.
    fn put_node(&mut self, node: TableWord)
        requires { (node.operator < 16) × WideFor 1 self.old }
        ensures { HeadBy (word_of node ∷ []) self.old self.new }
    {
        self.put(node.word());
    }

    // The place of a statistic in the list.
    fn place_of(&self, x: Statistic) -> Place
        requires { Few self.now.list.now }
        ensures { result ≡ record { 0 = place_of x (list_of self.now.list.now) } }
    {
        listing::place_of(self.list, x)
    }

    // Puts a join's word, in front of its two sides.
    pub fn put_join(&mut self, j: Joining)
        requires { WideFor 1 self.old }
        ensures { HeadBy (join_word j ∷ []) self.old self.new }
    {
        match j {
            Joining::And => self.put_node(TableWord::of(Kind::And)),
            Joining::Or => self.put_node(TableWord::of(Kind::Or)),
        }
    }

    // Puts a NOT's word, in front of its table.
    pub fn put_not(&mut self)
        requires { WideFor 1 self.old }
        ensures { HeadBy (not_word ∷ []) self.old self.new }
    {
        self.put_node(TableWord::of(Kind::Negation));
    }

    // Writes false or true.
    pub fn write_always(&mut self, b: bool)
        requires { WideFor 1 self.old }
        ensures { WroteBy (always b) self.old self.new }
    {
        self.put_node(TableWord {
            operator: u8::from(b),
            ..TableWord::of(Kind::Always)
        });
    }

    // Writes blanks > 0.
    pub fn column_has_nulls_expr(&mut self, c: Column)
        requires { Few self.old.list.now × WideFor 1 self.old }
        ensures { WroteBy (has_blanks c) self.old self.new }
    {
        let blanks = self.place_of(Statistic::Blanks(c));
        self.put_node(TableWord {
            first: blanks,
            ..TableWord::of(Kind::Positive)
        });
    }

    // Writes blanks ≠ rows.
    pub fn column_has_non_nulls_expr(&mut self, c: Column)
        requires { Few self.old.list.now × WideFor 1 self.old }
        ensures { WroteBy (has_values c) self.old self.new }
    {
        let blanks = self.place_of(Statistic::Blanks(c));
        let rows = self.place_of(Statistic::Rows);
        self.put_node(TableWord {
            first: blanks,
            second: rows,
            ..TableWord::of(Kind::Differ)
        });
    }

    // Writes AND and blanks ≠ rows, in front of what is wrapped.
    pub fn wrap_null_count_check_expr(&mut self, c: Column)
        requires { Few self.old.list.now × WideFor 2 self.old }
        ensures { HeadBy (wrap_words (list_of self.old.list.now) c) self.old self.new }
    {
        self.put_join(Joining::And);
        self.column_has_non_nulls_expr(c);
    }

    // Writes a truth-value statistic.
    fn write_holds(&mut self, x: Statistic)
        requires { Few self.old.list.now × WideFor 1 self.old }
        ensures { WroteBy (holds x) self.old self.new }
    {
        let first = self.place_of(x);
        self.put_node(TableWord {
            first,
            ..TableWord::of(Kind::Holds)
        });
    }

    // Writes least and greatest of a truth-value column, joined.
    fn write_bounds(&mut self, j: Joining, c: Column)
        requires { Few self.old.list.now × WideFor 3 self.old }
        ensures { WroteBy (both j (holds (Least c)) (holds (Greatest c))) self.old self.new }
    {
        self.put_join(j);
        self.write_holds(Statistic::Least(c));
        self.write_holds(Statistic::Greatest(c));
    }

    // Writes a truth-value column's form: build_single_column_expr.
    pub fn write_column(&mut self, c: Column)
        requires { Few self.old.list.now × WideFor 3 self.old }
        ensures { WroteBy (column_table c) self.old self.new }
    {
        self.write_bounds(Joining::Or, c);
    }

    // Writes the form of NOT of a truth-value column: build_single_column_expr.
    pub fn write_not_column(&mut self, c: Column)
        requires { Few self.old.list.now × WideFor 4 self.old }
        ensures { WroteBy (not_column_table c) self.old self.new }
    {
        self.put_not();
        self.write_bounds(Joining::And, c);
    }

    // Puts a literal: its word, and its bytes in the pool, unshared.
    fn put_literal(&mut self, input: &[u8], l: Literal)
        requires { Ready input.now l × WideFor 1 self.old × (self.old.at.off + length (value_bytes (value_of input.now l)) ≤ length self.old.pool.now) × (self.old.at.off < 2 ^ 24) }
        ensures { PutBy (value_word self.old.at.off (value_of input.now l) ∷ []) (value_bytes (value_of input.now l)) self.old self.new }
    {
        let start = self.at.off;
        self.put(literals::literal_word(l, start));
        self.at.off = put_bytes(input, l, self.pool, start);
    }

    // Writes a statistic against a literal of the input pool.
    pub fn write_against(
        &mut self,
        input: &[u8],
        o: Operator,
        x: Statistic,
        first: bool,
        l: Literal,
    )
        requires { Few self.old.list.now × LiteralFits l × RoomFor (against o x first (value_of input.now l)) self.old }
        ensures { WroteBy (against o x first (value_of input.now l)) self.old self.new }
    {
        let k = clip(input, l);
        let place = self.place_of(x);
        self.put_node(TableWord {
            operator: o.code(),
            first: place,
            literal_first: first,
            ..TableWord::of(Kind::Against)
        });
        self.put_literal(input, k);
    }
}
