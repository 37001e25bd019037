// Walking over the words of a predicate.
#![tactic(auto)]

ghost use Rattle.std.specs.Prelude.{◌≡◌};
ghost use Rattle.words.specs.Word.{words_of};
ghost use Rattle.predicate.specs.Predicates.{predicate_at};
ghost use Rattle.walking.specs.Places.{Near};

use predicate::Node;

// A rewriting call's schema, literal pool, predicate words and list limit.
#[derive(Clone, Copy)]
pub struct Request<'a> {
    pub schema: &'a [u8],
    pub pool: &'a [u8],
    pub words: &'a [u8],
    pub limit: usize,
}

// The place behind the predicate at a place.
#[tactic(auto, using(predicate::specs::Predicates::read_zero, predicate::specs::Predicates::read_node, crate::specs::Places::near_first, crate::specs::Places::near_second))]
pub fn skip(pool: &[u8], words: &[u8], depth: usize, at: usize) -> usize
    requires { Near words.now at }
    ensures { result ≡ (predicate_at pool.now (words_of words.now) depth at).next }
{
    if depth == 0 {
        return at;
    }
    match predicate::node_at(pool, words, at) {
        Node::Constant(_) | Node::TruthColumn(_) | Node::IsNull(_) | Node::IsNotNull(_) => at + 1,
        Node::Join(_) => {
            let m = skip(pool, words, depth - 1, at + 1);
            skip(pool, words, depth - 1, m)
        }
        Node::Not => skip(pool, words, depth - 1, at + 1),
        Node::Comparison(..) => at + 2,
        // a pattern has an arm of its own, so that an edit tries it alone
        Node::Like(..) => at + 2,
        Node::List(_, _, _, count) => at + 1 + usize::from(count),
    }
}
