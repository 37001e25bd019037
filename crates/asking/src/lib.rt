// The statistics that a predicate asks for, listed at the front of a lent buffer.
#![tactic(auto)]

ghost use Rattle.std.specs.Prelude.{◌≡◌, ◌≤◌, length};
ghost use Rattle.limits.specs.Limits.{max_columns, max_depth, statistics_room};
ghost use Rattle.words.specs.Word.{words_of, bytes_of};
ghost use Rattle.words.specs.Stores.{written};
ghost use Rattle.predicate.specs.Predicates.{predicate_at};
ghost use Rattle.predicate.specs.Accepted.{Fine};
ghost use Rattle.walking.specs.Places.{Near};
ghost use Rattle.statistics.specs.Statistics.{statistic_words};
ghost use Rattle.table.specs.Rewriting.{lists, statistics};
ghost use Rattle.listing.specs.Listing.{Room, Grown};

use knowing::Members;
use predicate::Node;
use walking::Request;
use words::Walked;

// Lists what the predicate at a place asks for, both sides of AND and OR always: build_predicate_expression. It answers how many
// statistics are listed by then, and the place behind the predicate.
pub fn list_at(r: &Request<'_>, depth: usize, at: usize, list: &mut [u8], n: usize) -> Walked<usize>
    requires { Near r.now.words.now at × Fine r.now.schema.now (predicate_at r.now.pool.now (words_of r.now.words.now) depth at).predicate × Room (lists r.now.limit r.now.schema.now (predicate_at r.now.pool.now (words_of r.now.words.now) depth at).predicate) n list.old }
    ensures next { result.next ≡ (predicate_at r.now.pool.now (words_of r.now.words.now) depth at).next }
    ensures list { Grown (lists r.now.limit r.now.schema.now (predicate_at r.now.pool.now (words_of r.now.words.now) depth at).predicate) n list.old list.new result.value }
{
    if depth == 0 {
        return Walked { value: n, next: at };
    }
    let d = depth - 1;
    let (value, next) = match predicate::node_at(r.pool, r.words, at) {
        Node::Constant(_) => (n, at + 1),
        Node::Join(_) => {
            let first = list_at(r, d, at + 1, list, n);
            return list_at(r, d, first.next, list, first.value);
        }
        Node::Not => {
            let m = leaves::list_not(r, d, at + 1, list, n);
            (m, walking::skip(r.pool, r.words, d, at + 1))
        }
        Node::TruthColumn(c) => (listing::list_column(list, n, c), at + 1),
        Node::IsNull(c) => (listing::list_blanks(list, n, c), at + 1),
        Node::IsNotNull(c) => (listing::list_blanks_rows(list, n, c), at + 1),
        Node::Comparison(o, c, flips, first, l) => {
            (
                leaves::list_turned(r, o, c, flips, first, l, list, n),
                at + 2,
            )
        }
        Node::List(negated, column, flips, count) => {
            let m = Members {
                negated,
                column,
                flips,
                at,
                count,
            };
            (leaves::list_in(r, m, list, n), at + 1 + usize::from(count))
        }
        Node::Like(negated, c, l) => { (leaves::list_like(r.pool, negated, c, l, list, n), at + 2) }
    };
    Walked { value, next }
}

// Lists all that a predicate asks for, and answers how many statistics that are.
pub fn list_statistics(r: &Request<'_>, list: &mut [u8]) -> usize
    requires { (length r.now.schema.now ≤ max_columns) × Fine r.now.schema.now (predicate_at r.now.pool.now (words_of r.now.words.now) max_depth 0).predicate × (statistics_room ≤ length list.old) }
    ensures count { result ≡ length (statistics r.now.limit r.now.schema.now (predicate_at r.now.pool.now (words_of r.now.words.now) max_depth 0).predicate) }
    ensures list { list.new ≡ written (bytes_of (statistic_words (statistics r.now.limit r.now.schema.now (predicate_at r.now.pool.now (words_of r.now.words.now) max_depth 0).predicate))) list.old }
{
    list_at(r, limits::MAX_DEPTH, 0, list, 0).value
}
