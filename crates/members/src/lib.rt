// The table of a list, IN or NOT IN, written: the joins first, then the members that stay, in order.
#![tactic(auto)]

ghost use Rattle.std.specs.Prelude.{◌≡◌, [], ◌∷◌, ◌+◌, ◌<◌, length, replicate};
ghost use Rattle.words.specs.Word.{words_of};
ghost use Rattle.literals.specs.Literals.{value_of, LiteralFits};
ghost use Rattle.predicate.specs.Predicates.{values_at};
ghost use Rattle.walking.specs.Places.{Near};
ghost use Rattle.table.specs.Rewriting.{list_joining, list_table};
ghost use Rattle.table.specs.Nests.{join_word, nest_of, opens, member_table};
ghost use Rattle.listing.specs.Listing.{Few};
ghost use Rattle.writing.specs.Writing.{WideFor, RoomFor, HeadBy, WroteBy};
ghost use Rattle.members.specs.Members.{RoomsFor, RanBy, open_at, has_form};

use kleene::Joining;
use knowing::Members;
use literals::Literal;
use table::Known;
use turning::Against;
use walking::Request;
use writing::Writer;

// How many of a list's members stay open.
fn count_open(r: &Request<'_>, m: Members) -> usize
    requires { Near r.now.words.now m.at }
    ensures { result ≡ length (open_at r.now.schema.now r.now.pool.now (words_of r.now.words.now) m.negated m.column m.flips m.count (m.at + 1)) }
{
    (0..usize::from(m.count))
        .filter(|i| matches!(knowing::known_member(r, m, m.at + 1 + *i), Known::Open))
        .count()
}

// Whether a list has a form where so many of its n members stay.
fn has_form(negated: bool, staying: usize, n: usize) -> bool
    ensures { result ≡ has_form negated staying n }
{
    staying != 0 && (negated || staying == n)
}

// Puts the words of k joins.
fn put_joins(w: &mut Writer<'_>, j: Joining, k: usize)
    requires { WideFor k w.old }
    ensures { HeadBy (replicate k (join_word j)) w.old w.new }
{
    for _ in 0..k {
        w.put_join(j);
    }
}

// Writes the form of a member, and nothing where it is unhandled.
fn write_member(r: &Request<'_>, w: &mut Writer<'_>, m: Members, l: Literal)
    requires { Few w.old.list.now × LiteralFits l × RoomsFor (opens (member_table r.now.schema.now m.negated m.column m.flips (value_of r.now.pool.now l) ∷ [])) w.old }
    ensures { RanBy (opens (member_table r.now.schema.now m.negated m.column m.flips (value_of r.now.pool.now l) ∷ [])) w.old w.new }
{
    let kind = predicate::type_in(r.schema, m.column);
    let o = knowing::list_operator(m.negated);
    if let Some(Against { operator, literal }) = turning::turn(kind, o, m.flips, false, l) {
        forms::write_comparison(w, r.pool, m.column, operator, literal);
    }
}

// Writes the forms of a list's members, in order.
fn write_members(r: &Request<'_>, w: &mut Writer<'_>, m: Members)
    requires { Few w.old.list.now × Near r.now.words.now m.at × RoomsFor (open_at r.now.schema.now r.now.pool.now (words_of r.now.words.now) m.negated m.column m.flips m.count (m.at + 1)) w.old }
    ensures { RanBy (open_at r.now.schema.now r.now.pool.now (words_of r.now.words.now) m.negated m.column m.flips m.count (m.at + 1)) w.old w.new }
{
    for i in 0..usize::from(m.count) {
        let l = literals::literal_of(r.pool, words::word_or_zero(r.words, m.at + 1 + i));
        write_member(r, w, m, l);
    }
}

// Writes the members that stay, joined from the left.
fn write_nest(r: &Request<'_>, w: &mut Writer<'_>, m: Members, staying: usize)
    requires { Few w.old.list.now × Near r.now.words.now m.at × (staying ≡ length (open_at r.now.schema.now r.now.pool.now (words_of r.now.words.now) m.negated m.column m.flips m.count (m.at + 1))) × (0 < staying) × RoomFor (nest_of (list_joining m.negated) (open_at r.now.schema.now r.now.pool.now (words_of r.now.words.now) m.negated m.column m.flips m.count (m.at + 1))) w.old }
    ensures { WroteBy (nest_of (list_joining m.negated) (open_at r.now.schema.now r.now.pool.now (words_of r.now.words.now) m.negated m.column m.flips m.count (m.at + 1))) w.old w.new }
{
    put_joins(w, knowing::list_joining(m.negated), staying - 1);
    write_members(r, w, m);
}

// Writes the table of a list.
pub fn write_list(r: &Request<'_>, w: &mut Writer<'_>, m: Members)
    requires { Few w.old.list.now × Near r.now.words.now m.at × RoomFor (list_table r.now.limit r.now.schema.now m.negated m.column m.flips (values_at r.now.pool.now (words_of r.now.words.now) m.count (m.at + 1))) w.old }
    ensures { WroteBy (list_table r.now.limit r.now.schema.now m.negated m.column m.flips (values_at r.now.pool.now (words_of r.now.words.now) m.count (m.at + 1))) w.old w.new }
{
    let n = usize::from(m.count);
    if n == 0 || r.limit < n {
        w.write_always(true);
        return;
    }
    let staying = count_open(r, m);
    if has_form(m.negated, staying, n) {
        write_nest(r, w, m, staying);
    } else {
        w.write_always(true);
    }
}
