// Guarantees: which node gives one, its word, and those of a predicate in prefix order, written into a lent buffer.
#![tactic(auto)]

ghost use Rattle.std.specs.Prelude.{◌≡◌, ◌+◌, ◌^◌, ◌<◌};
ghost use Rattle.words.specs.Word.{words_of};
ghost use Rattle.predicate.specs.Predicates.{node_at, predicate_at};
ghost use Rattle.guarantees.specs.Guarantees.{guarantee_word};
ghost use Rattle.walking.specs.Places.{Near};
ghost use Rattle.promising.specs.Promises.{bare, is_value, any_value, of_set, of_operator, promise_of};
ghost use Rattle.promising.specs.Wrote.{Room, Wrote};

use kleene::Joining;
use literals::Literal;
use operators::Operator;
use predicate::{Column, Node};
use words::Walked;

// What a node gives: no guarantee, one of a column (whether NotIn), or what both its sides give.
#[derive(Clone, Copy)]
enum Promise {
    Nothing,
    Keeps(Column, bool),
    Both,
}

// The word of a guarantee: its column, whether it is NotIn, and its node word's place.
pub fn guarantee_word(c: Column, not_in: bool, place: usize) -> u64
    requires { place < 2 ^ 16 }
    ensures { result ≡ guarantee_word (bare c not_in place) }
{
    (u64::from(c.0) << 56) + (u64::from(not_in) << 55) + ((place as u64) << 39)
}

// Whether a literal is not null.
fn is_value(l: Literal) -> bool
    ensures { result ≡ is_value l }
{
    !matches!(l, Literal::Null)
}

// Whether one of the literals behind a list's node word is not null.
fn any_value(words: &[u8], at: usize, count: u16) -> bool
    requires { Near words.now at }
    ensures { result ≡ any_value (words_of words.now) count (at + 1) }
{
    (0..usize::from(count)).any(|i| {
        let w = words::word_or_zero(words, at + 1 + i);
        literals::type_of(w) != Literal::NULL
    })
}

// What a set gives: one guarantee, if the column is not flipped and the set is not empty.
fn of_set(c: Column, not_in: bool, flips: u8, some: bool) -> Promise
    ensures { result ≡ of_set c not_in flips some }
{
    if flips == 0 && some {
        Promise::Keeps(c, not_in)
    } else {
        Promise::Nothing
    }
}

// What a comparison gives: = and ≠ give the set of their literal.
fn of_comparison(o: Operator, c: Column, flips: u8, l: Literal) -> Promise
    ensures { result ≡ of_operator o c flips (is_value l) }
{
    match o {
        Operator::Equal => of_set(c, false, flips, is_value(l)),
        Operator::NotEqual => of_set(c, true, flips, is_value(l)),
        _ => Promise::Nothing,
    }
}

// What the node at a place gives.
fn promise_at(pool: &[u8], words: &[u8], at: usize) -> Promise
    requires { Near words.now at }
    ensures { result ≡ promise_of (words_of words.now) at (node_at pool.now (words_of words.now) at) }
{
    match predicate::node_at(pool, words, at) {
        Node::Join(Joining::And) => Promise::Both,
        Node::Comparison(o, c, flips, _, l) => of_comparison(o, c, flips, l),
        Node::List(not_in, c, flips, count) => {
            of_set(c, not_in, flips, any_value(words, at, count))
        }
        _ => Promise::Nothing,
    }
}

// Stores the guarantees of the predicate at a place, behind the n that out holds; answers how many out holds then.
pub fn write_guarantees(
    pool: &[u8],
    words: &[u8],
    depth: usize,
    at: usize,
    out: &mut [u8],
    n: usize,
) -> Walked<usize>
    requires { Room (predicate_at pool.now (words_of words.now) depth at).predicate depth at n out.old }
    ensures { Wrote (predicate_at pool.now (words_of words.now) depth at) at n out.old out.new result }
{
    if depth == 0 {
        return Walked { value: n, next: at };
    }
    match promise_at(pool, words, at) {
        Promise::Nothing => Walked {
            value: n,
            next: walking::skip(pool, words, depth, at),
        },
        Promise::Keeps(c, not_in) => {
            words::put_word(out, 8 * n, guarantee_word(c, not_in, at));
            Walked {
                value: n + 1,
                next: walking::skip(pool, words, depth, at),
            }
        }
        Promise::Both => {
            let Walked { value, next } = write_guarantees(pool, words, depth - 1, at + 1, out, n);
            write_guarantees(pool, words, depth - 1, next, out, value)
        }
    }
}
