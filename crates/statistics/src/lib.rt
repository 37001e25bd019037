// The statistics list, and the words of statistics.
#![tactic(auto)]

ghost use Rattle.std.specs.Prelude.{◌≡◌, ◌<◌, get_or};
ghost use Rattle.words.specs.Word.{words_of};
ghost use Rattle.statistics.specs.declared.Statistic.TheVariants.{Rows};
ghost use Rattle.statistics.specs.Statistics.{statistic_of, statistic_word, statistics_of, column_in, type_of, key_of};

use predicate::Column;

// A place in the statistics list.
#[derive(Clone, Copy, Default)]
pub struct Place(pub u8);

// A statistic of a container: of one of its columns, or how many rows it has.
#[derive(Clone, Copy)]
pub enum Statistic {
    Least(Column),
    Greatest(Column),
    Blanks(Column),
    Rows,
}

// The statistic of a word, a total reading.
#[tactic(auto, unfolding(crate::specs::Statistics::statistic_of))]
pub fn statistic_of(w: u64) -> Statistic
    ensures { result ≡ statistic_of w }
{
    let c = Column(words::field::<56, 8>(w) as u8);
    match words::field::<54, 2>(w) {
        0 => Statistic::Least(c),
        1 => Statistic::Greatest(c),
        2 => Statistic::Blanks(c),
        _ => Statistic::Rows,
    }
}

// A statistic's column; that of rows is 0.
pub fn column_in(s: Statistic) -> u8
    ensures { result ≡ column_in s }
{
    match s {
        Statistic::Least(c) | Statistic::Greatest(c) | Statistic::Blanks(c) => c.0,
        Statistic::Rows => 0,
    }
}

// A statistic's type: 0 least, 1 greatest, 2 blanks, 3 rows.
fn type_of(s: Statistic) -> u8
    ensures { (result ≡ type_of s) × (result < 4) }
{
    match s {
        Statistic::Least(_) => 0,
        Statistic::Greatest(_) => 1,
        Statistic::Blanks(_) => 2,
        Statistic::Rows => 3,
    }
}

// A statistic's column and type as one number.
pub fn key_of(s: Statistic) -> u64
    ensures { (result ≡ key_of s) × (result < 1024) }
{
    u64::from(column_in(s)) * 4 + u64::from(type_of(s))
}

// The word of a statistic: its key in the upper ten bits.
pub fn statistic_word(s: Statistic) -> u64
    ensures { result ≡ statistic_word s }
{
    key_of(s) << 54
}

// The statistic at a place of a list of words; past its end, rows.
#[tactic(auto, using(crate::specs::Reading::read_word, crate::specs::Reading::read_end))]
pub fn statistic_at(list: &[u8], p: Place) -> Statistic
    ensures { result ≡ get_or (statistics_of (words_of list.now)) p.0 Rows }
{
    let i = usize::from(p.0);
    if i < list.len() / 8 {
        statistic_of(words::word_at(list, 8 * i))
    } else {
        Statistic::Rows
    }
}
