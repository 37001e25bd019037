// The statistics list, kept at the front of a lent buffer.
#![tactic(auto)]

ghost use Rattle.std.specs.Prelude.{◌≡◌, [], ◌∷◌, ◌<◌};
ghost use Rattle.statistics.specs.declared.Statistic.TheVariants.{Blanks, Rows};
ghost use Rattle.statistics.specs.Statistics.{key_of, statistic_of, place_of};
ghost use Rattle.table.specs.Comparisons.{comparison_lists};
ghost use Rattle.table.specs.Rewriting.{column_lists};
ghost use Rattle.listing.specs.Listing.{list_of, Few, Room, Grown, like_listed};

use operators::Operator;
use predicate::Column;
use statistics::{Place, Statistic};

// The column and type of a word's statistic as one number.
fn word_key(w: u64) -> u64
    ensures { result ≡ key_of (statistic_of w) }
{
    statistics::key_of(statistics::statistic_of(w))
}

// The place of a statistic in a list, the list's length where it is not there: find_stat_column.
pub fn find(list: &[u8], s: Statistic) -> usize
    ensures { result ≡ place_of s (list_of list.now) }
{
    let key = statistics::key_of(s);
    let n = list.len() / 8;
    for i in 0..n {
        if word_key(words::word_or_zero(list, i)) == key {
            return i;
        }
    }
    n
}

// The same as a place.
#[tactic(auto, using(crate::specs::ListingLaws::place_few))]
pub fn place_of(list: &[u8], s: Statistic) -> Place
    requires { Few list.now }
    ensures { result ≡ record { 0 = place_of s (list_of list.now) } }
{
    Place(find(list, s) as u8)
}

// Lists a statistic behind the first n, unless it is among them: stat_column_expr.
pub fn add(list: &mut [u8], n: usize, s: Statistic) -> usize
    requires { Room (s ∷ []) n list.old }
    ensures { Grown (s ∷ []) n list.old list.new result }
{
    let end = 8 * n;
    if find(&list[..end], s) < n {
        return n;
    }
    words::put_word(list, end, statistics::statistic_word(s));
    n + 1
}

// Lists statistics, one after the other.
fn list_all(list: &mut [u8], n: usize, all: &[Statistic]) -> usize
    requires { Room all.now n list.old }
    ensures { Grown all.now n list.old list.new result }
{
    let mut m = n;
    for s in all {
        m = add(list, m, *s);
    }
    m
}

// Lists a column's least and greatest.
pub fn list_column(list: &mut [u8], n: usize, c: Column) -> usize
    requires { Room (column_lists c) n list.old }
    ensures { Grown (column_lists c) n list.old list.new result }
{
    list_all(list, n, &[Statistic::Least(c), Statistic::Greatest(c)])
}

// Lists what IS NULL reads: null_count_column_expr.
pub fn list_blanks(list: &mut [u8], n: usize, c: Column) -> usize
    requires { Room (Blanks c ∷ []) n list.old }
    ensures { Grown (Blanks c ∷ []) n list.old list.new result }
{
    add(list, n, Statistic::Blanks(c))
}

// Lists what IS NOT NULL reads.
pub fn list_blanks_rows(list: &mut [u8], n: usize, c: Column) -> usize
    requires { Room (Blanks c ∷ Rows ∷ []) n list.old }
    ensures { Grown (Blanks c ∷ Rows ∷ []) n list.old list.new result }
{
    list_all(list, n, &[Statistic::Blanks(c), Statistic::Rows])
}

// Lists what LIKE reads of a pattern with an upper bound, or without: build_like_match.
pub fn list_like(list: &mut [u8], n: usize, c: Column, bounded: bool) -> usize
    requires { Room (like_listed c bounded) n list.old }
    ensures { Grown (like_listed c bounded) n list.old list.new result }
{
    if bounded {
        let all = [
            Statistic::Least(c),
            Statistic::Greatest(c),
            Statistic::Blanks(c),
            Statistic::Rows,
        ];
        list_all(list, n, &all)
    } else {
        list_column(list, n, c)
    }
}

// Lists what a comparison with an operator reads.
pub fn list_comparison(list: &mut [u8], n: usize, c: Column, o: Operator) -> usize
    requires { Room (comparison_lists c o) n list.old }
    ensures { Grown (comparison_lists c o) n list.old list.new result }
{
    let (least, greatest) = (Statistic::Least(c), Statistic::Greatest(c));
    let (blanks, rows) = (Statistic::Blanks(c), Statistic::Rows);
    match o {
        Operator::Equal | Operator::NotEqual => {
            list_all(list, n, &[least, greatest, blanks, rows])
        }
        Operator::Below | Operator::AtMost => list_all(list, n, &[least, blanks, rows]),
        Operator::Above | Operator::AtLeast => list_all(list, n, &[greatest, blanks, rows]),
        Operator::Distinct | Operator::NotDistinct => {
            list_all(list, n, &[blanks, rows, least, greatest])
        }
    }
}
