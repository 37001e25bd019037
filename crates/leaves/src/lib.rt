// What each kind of node asks for, listed at the front of a lent buffer.
#![tactic(auto)]

ghost use Rattle.std.specs.Prelude.{◌≡◌, ◌+◌};
ghost use Rattle.words.specs.Word.{words_of};
ghost use Rattle.literals.specs.Literals.{value_of};
ghost use Rattle.predicate.specs.Predicates.{values_at, predicate_at};
ghost use Rattle.predicate.specs.Accepted.{Pattern};
ghost use Rattle.walking.specs.Places.{Near};
ghost use Rattle.table.specs.Comparisons.{pattern_upper, like_lists};
ghost use Rattle.table.specs.Rewriting.{not_lists, comparison_statistics, members_lists, list_lists};
ghost use Rattle.listing.specs.Listing.{Room, Grown, is_bounded};

use knowing::Members;
use literals::Literal;
use operators::Operator;
use predicate::{Column, Node};
use table::Known;
use walking::Request;

// Lists what a comparison asks for; nothing where it is unhandled.
#[tactic(auto, using(listing::specs::ListingLaws::grown_none, crate::proofs::Laws::turned_lists))]
pub fn list_turned(
    r: &Request<'_>,
    o: Operator,
    c: Column,
    flips: u8,
    first: bool,
    l: Literal,
    list: &mut [u8],
    n: usize,
) -> usize
    requires { Room (comparison_statistics r.now.schema.now o c flips first (value_of r.now.pool.now l)) n list.old }
    ensures { Grown (comparison_statistics r.now.schema.now o c flips first (value_of r.now.pool.now l)) n list.old list.new result }
{
    match turning::turn(predicate::type_in(r.schema, c), o, flips, first, l) {
        Some(a) => listing::list_comparison(list, n, c, a.operator),
        None => n,
    }
}

// Lists what each member of a list asks for.
fn list_members(r: &Request<'_>, m: Members, list: &mut [u8], n: usize) -> usize
    requires { Near r.now.words.now m.at × Room (members_lists r.now.schema.now m.negated m.column m.flips (values_at r.now.pool.now (words_of r.now.words.now) m.count (m.at + 1))) n list.old }
    ensures { Grown (members_lists r.now.schema.now m.negated m.column m.flips (values_at r.now.pool.now (words_of r.now.words.now) m.count (m.at + 1))) n list.old list.new result }
{
    let o = knowing::list_operator(m.negated);
    let mut end = n;
    for i in 0..usize::from(m.count) {
        let l = literals::literal_of(r.pool, words::word_or_zero(r.words, m.at + 1 + i));
        end = list_turned(r, o, m.column, m.flips, false, l, list, end);
    }
    end
}

// Lists what a list asks for; nothing over the limit.
#[tactic(auto, using(listing::specs::ListingLaws::grown_none, predicate::specs::Predicates::length_values))]
pub fn list_in(r: &Request<'_>, m: Members, list: &mut [u8], n: usize) -> usize
    requires { Near r.now.words.now m.at × Room (list_lists r.now.limit r.now.schema.now m.negated m.column m.flips (values_at r.now.pool.now (words_of r.now.words.now) m.count (m.at + 1))) n list.old }
    ensures { Grown (list_lists r.now.limit r.now.schema.now m.negated m.column m.flips (values_at r.now.pool.now (words_of r.now.words.now) m.count (m.at + 1))) n list.old list.new result }
{
    if usize::from(m.count) <= r.limit {
        list_members(r, m, list, n)
    } else {
        n
    }
}

// Whether a pattern has an upper bound.
#[tactic(auto, using(crate::proofs::Laws::bounded_known))]
fn is_bounded(pool: &[u8], l: Literal) -> bool
    requires { Pattern (value_of pool.now l) }
    ensures { result ≡ is_bounded (pattern_upper (value_of pool.now l)) }
{
    matches!(knowing::known_like(pool, false, l), Known::Open)
}

// Lists what LIKE asks for: as = does where the pattern has an upper bound, else least and greatest; nothing for NOT LIKE.
#[tactic(auto, using(listing::specs::ListingLaws::grown_none, listing::specs::ListingLaws::like_listed_lem))]
pub fn list_like(
    pool: &[u8],
    negated: bool,
    c: Column,
    l: Literal,
    list: &mut [u8],
    n: usize,
) -> usize
    requires { Pattern (value_of pool.now l) × Room (like_lists negated c (value_of pool.now l)) n list.old }
    ensures { Grown (like_lists negated c (value_of pool.now l)) n list.old list.new result }
{
    if negated {
        n
    } else {
        listing::list_like(list, n, c, is_bounded(pool, l))
    }
}

// Lists what NOT of the predicate at a place asks for: a truth-value column's bounds, of anything else nothing.
#[tactic(auto, using(predicate::specs::Predicates::read_zero, predicate::specs::Predicates::read_node, listing::specs::ListingLaws::grown_none))]
pub fn list_not(r: &Request<'_>, depth: usize, at: usize, list: &mut [u8], n: usize) -> usize
    requires { Room (not_lists (predicate_at r.now.pool.now (words_of r.now.words.now) depth at).predicate) n list.old }
    ensures { Grown (not_lists (predicate_at r.now.pool.now (words_of r.now.words.now) depth at).predicate) n list.old list.new result }
{
    if depth == 0 {
        return n;
    }
    match predicate::node_at(r.pool, r.words, at) {
        Node::TruthColumn(c) => listing::list_column(list, n, c),
        _ => n,
    }
}
