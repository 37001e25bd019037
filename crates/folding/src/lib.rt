// Folding: what rewriting a predicate comes to, false, true or open, with nothing written.
#![tactic(auto)]

ghost use Rattle.std.specs.Prelude.{◌≡◌};
ghost use Rattle.words.specs.Word.{words_of};
ghost use Rattle.predicate.specs.Predicates.{predicate_at};
ghost use Rattle.predicate.specs.Accepted.{Fine};
ghost use Rattle.walking.specs.Places.{Near};
ghost use Rattle.table.specs.Tables.{known};
ghost use Rattle.table.specs.Rewriting.{not_table};
ghost use Rattle.folding.specs.Folds.{part_of};

use knowing::Members;
use predicate::Node;
use table::Known;
use walking::Request;
use words::Walked;

// What NOT of the predicate at a place comes to: open over a truth-value column.
fn known_not(r: &Request<'_>, depth: usize, at: usize) -> Known
    ensures { result ≡ known (not_table (predicate_at r.now.pool.now (words_of r.now.words.now) depth at).predicate) }
{
    if depth == 0 {
        return Known::True;
    }
    match predicate::node_at(r.pool, r.words, at) {
        Node::TruthColumn(_) => Known::Open,
        // IS NULL has an arm of its own, so that an edit tries it alone; so it has in fold
        Node::IsNull(_) => Known::True,
        _ => Known::True,
    }
}

// What the predicate at a place comes to, and the place behind it.
pub fn fold(r: &Request<'_>, depth: usize, at: usize) -> Walked<Known>
    requires { Near r.now.words.now at × Fine r.now.schema.now (predicate_at r.now.pool.now (words_of r.now.words.now) depth at).predicate }
    ensures { result ≡ part_of r.now.limit r.now.schema.now (predicate_at r.now.pool.now (words_of r.now.words.now) depth at) }
{
    if depth == 0 {
        return Walked {
            value: Known::True,
            next: at,
        };
    }
    let value = match predicate::node_at(r.pool, r.words, at) {
        Node::Constant(t) => knowing::known_constant(t),
        Node::Join(j) => {
            let Walked { value: left, next } = fold(r, depth - 1, at + 1);
            let Walked { value: right, next } = fold(r, depth - 1, next);
            let value = knowing::join_known(j, left, right);
            return Walked { value, next };
        }
        Node::Not => known_not(r, depth - 1, at + 1),
        Node::TruthColumn(_) | Node::IsNotNull(_) => Known::Open,
        Node::IsNull(_) => Known::Open,
        Node::Comparison(o, c, n, b, l) => knowing::known_comparison(r.schema, o, c, n, b, l),
        Node::List(negated, column, flips, count) => {
            let m = Members {
                negated,
                column,
                flips,
                at,
                count,
            };
            knowing::known_list(r, m)
        }
        Node::Like(b, _, l) => knowing::known_like(r.pool, b, l),
    };
    Walked {
        value,
        next: walking::skip(r.pool, r.words, depth, at),
    }
}
