// Checked tables: all rules for a table, its statistics list and its guarantees.
#![tactic(auto)]

ghost use Rattle.std.specs.Prelude.{◌≡◌, ◌/◌, ◌<◌, length};
ghost use Rattle.words.specs.Word.{words_of};
ghost use Rattle.pruning.specs.TableChecking.{is_bound, bound_type, table_literal, table_named, table_node_fine, check_table_from, table_fine, words_within, checked_table};
ghost use Rattle.tablechecks.specs.Naming.{list_of, statistic_named, against_named};

use literals::Literal;
use predicate::Column;
use pruning::TableNode;
use statistics::{Place, Statistic};

// A table with what its words name: the schema, the statistics list and the literal pool.
#[derive(Clone, Copy)]
pub struct Lent<'a> {
    pub schema: &'a [u8],
    pub list: &'a [u8],
    pub pool: &'a [u8],
    pub table: &'a [u8],
}

// The statistic at a place of the list, if the list has that place.
#[tactic(auto, using(crate::specs::Naming::length_list))]
fn named(list: &[u8], p: Place) -> Option<Statistic>
    ensures { result ≡ statistic_named (list_of list.now) p }
{
    if (p.0 as usize) < list.len() / 8 {
        Some(statistics::statistic_at(list, p))
    } else {
        None
    }
}

// Whether a statistic is a column's least or greatest value.
fn is_bound(s: Statistic) -> bool
    ensures { result ≡ is_bound s }
{
    matches!(s, Statistic::Least(_) | Statistic::Greatest(_))
}

// The type of a statistic's column.
fn bound_type(schema: &[u8], s: Statistic) -> u8
    ensures { result ≡ bound_type schema.now s }
{
    predicate::type_in(schema, Column(statistics::column_in(s)))
}

// A literal word of a statistic's column: null or of its type, inside the pool, text up to 1,025 bytes.
fn table_literal(schema: &[u8], pool: &[u8], s: Statistic, w: u64) -> bool
    ensures { result ≡ table_literal schema.now pool.now s w }
{
    suiting::word_suits(pool, bound_type(schema, s), w)
        && literals::length_of(w) <= limits::MAX_TABLE_TEXT_BYTES
}

// A comparison at a place names a least or greatest value, and the literal word behind it suits that.
#[tactic(auto, using(words::specs::WordLaws::length_words, crate::specs::Naming::named_sorted))]
fn against_named(t: &Lent<'_>, at: usize, p: Place) -> bool
    requires { at < length t.now.table.now / 8 }
    ensures { result ≡ against_named t.now.schema.now (list_of t.now.list.now) t.now.pool.now (words_of t.now.table.now) at p }
{
    match named(t.list, p) {
        Some(s) => {
            is_bound(s)
                && at + 1 < t.table.len() / 8
                && table_literal(t.schema, t.pool, s, words::word_or_zero(t.table, at + 1))
        }
        None => false,
    }
}

// A node whose word stands at a place names what its kind reads.
#[tactic(auto, using(crate::specs::Naming::named_sorted))]
fn table_named(t: &Lent<'_>, at: usize, n: TableNode) -> bool
    requires { at < length t.now.table.now / 8 }
    ensures { result ≡ table_named t.now.schema.now (list_of t.now.list.now) t.now.pool.now (words_of t.now.table.now) at n }
{
    match n {
        TableNode::Always(_) | TableNode::Join(_) | TableNode::Negation => true,
        TableNode::Against(_, p, _, _) => against_named(t, at, p),
        TableNode::Positive(p) => matches!(named(t.list, p), Some(Statistic::Blanks(_))),
        TableNode::Differ(p, q) => {
            matches!(named(t.list, p), Some(Statistic::Blanks(_)))
                && matches!(named(t.list, q), Some(Statistic::Rows))
        }
        TableNode::Holds(p) => match named(t.list, p) {
            Some(s) => is_bound(s) && bound_type(t.schema, s) == Literal::TRUTH,
            None => false,
        },
    }
}

// The word at a place is there, formed as its kind is, and names what its kind reads.
#[tactic(auto, using(words::specs::WordLaws::length_words))]
pub fn table_node_fine(t: &Lent<'_>, at: usize) -> bool
    ensures { result ≡ table_node_fine t.now.schema.now (list_of t.now.list.now) t.now.pool.now (words_of t.now.table.now) at }
{
    at < t.table.len() / 8
        && pruning::table_formed(words::word_or_zero(t.table, at))
        && table_named(t, at, pruning::table_node_at(t.pool, t.table, at))
}

// Checks the table at a place, with a depth left: the place of the word behind it, or none if it breaks a rule.
#[tactic(auto, using(crate::specs::Checks::check_zero, crate::specs::Checks::check_step, crate::specs::Checks::fine_inside))]
pub fn check_table(t: &Lent<'_>, depth: usize, at: usize) -> Option<usize>
    ensures { result ≡ check_table_from t.now.schema.now (list_of t.now.list.now) t.now.pool.now (words_of t.now.table.now) depth at }
{
    if depth == 0 || !table_node_fine(t, at) {
        return None;
    }
    match pruning::table_node_at(t.pool, t.table, at) {
        TableNode::Join(_) => {
            let m = check_table(t, depth - 1, at + 1)?;
            check_table(t, depth - 1, m)
        }
        TableNode::Negation => check_table(t, depth - 1, at + 1),
        TableNode::Against(_, _, _, _) => Some(at + 2),
        TableNode::Always(_)
        | TableNode::Positive(_)
        | TableNode::Differ(_, _)
        | TableNode::Holds(_) => Some(at + 1),
    }
}

// One prefix tree, nothing over, depth up to 289.
#[tactic(auto, using(words::specs::WordLaws::length_words), unfolding(pruning::specs::TableChecking::table_fine))]
pub fn table_fine(t: &Lent<'_>) -> bool
    ensures { result ≡ table_fine t.now.schema.now (list_of t.now.list.now) t.now.pool.now (words_of t.now.table.now) }
{
    check_table(t, limits::MAX_TABLE_DEPTH, 0) == Some(t.table.len() / 8)
}

// Whole words within their room.
fn words_within(bs: &[u8], room: usize) -> bool
    ensures { result ≡ words_within bs.now room }
{
    bs.len() % 8 == 0 && bs.len() <= room
}

// All rules for a checked table.
#[tactic(auto, unfolding(pruning::specs::TableChecking::checked_table))]
pub fn checked_table(
    schema: &[u8],
    table: &[u8],
    pool: &[u8],
    list: &[u8],
    guarantees: &[u8],
) -> bool
    ensures { result ≡ checked_table schema.now table.now pool.now list.now guarantees.now }
{
    let t = Lent {
        schema,
        list,
        pool,
        table,
    };
    words_within(table, limits::TABLE_ROOM)
        && pool.len() <= limits::TABLE_POOL_ROOM
        && words_within(list, limits::STATISTICS_ROOM)
        && words_within(guarantees, limits::GUARANTEES_ROOM)
        && pruning::statistics_fine(schema, list)
        && pruning::guarantees_fine(schema, guarantees)
        && table_fine(&t)
}
