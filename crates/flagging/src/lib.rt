// Flags: which containers are dropped, by their tables and by answers.
#![tactic(auto)]

ghost use Rattle.std.specs.Prelude.{◌≡◌, eqb, ◌+◌, ◌/◌, ◌^◌, ◌<◌, length, get_or};
ghost use Rattle.std.proofs.lemmas.List.Edits.{sets};
ghost use Rattle.limits.specs.Limits.{max_table_depth};
ghost use Rattle.words.specs.Word.{words_of};
ghost use Rattle.table.specs.Worth.{worth};
ghost use Rattle.guarantees.specs.Guarantees.{answer_drops, not_in_field};
ghost use Rattle.pruning.specs.TableReading.{table_at};
ghost use Rattle.pruning.specs.Evaluating.{answers_drop, flag_of};
ghost use Rattle.cells.specs.Grids.{list_of};
ghost use Rattle.evaluating.specs.Rows.{row_cells};
ghost use Rattle.evaluating.specs.Ready.{Ready};
ghost use Rattle.flagging.specs.Flags.{Fits, flags_for};

use evaluating::Container;
use kleene::Truth;

// A pruning call's inputs but for its schema: a checked table with its lists, and so many containers' rows, cells and answers.
#[derive(Clone, Copy)]
pub struct Call<'a> {
    pub table: &'a [u8],
    pub pool: &'a [u8],
    pub list: &'a [u8],
    pub guarantees: &'a [u8],
    pub containers: usize,
    pub grid: &'a [u8],
    pub cells: &'a [u8],
    pub answers: &'a [u8],
}

// Whether an answer drops: 2 for In, 1 for NotIn.
fn answer_drops(not_in: bool, a: u8) -> bool
    ensures { result ≡ answer_drops not_in a }
{
    a == if not_in { 1 } else { 2 }
}

// The answer at a place; 0 past the end.
fn answer_at(answers: &[u8], at: usize) -> u8
    ensures { result ≡ get_or answers.now at 0 }
{
    answers.get(at).copied().unwrap_or(0)
}

// Whether the answer at a place drops by the guarantee of a word.
fn drops_at(answers: &[u8], guarantee: u64, at: usize) -> bool
    ensures { result ≡ answer_drops (eqb (not_in_field guarantee) 1) (get_or answers.now at 0) }
{
    answer_drops(
        words::field::<55, 1>(guarantee) == 1,
        answer_at(answers, at),
    )
}

// Whether some guarantee's answer drops; the first one's stands at a place of the answers.
pub fn answers_drop(answers: &[u8], guarantees: &[u8], at: usize) -> bool
    requires { at + length guarantees.now / 8 < 2 ^ 64 }
    ensures { result ≡ answers_drop answers.now (words_of guarantees.now) at }
{
    (0..guarantees.len() / 8).any(|i| drops_at(answers, words::word_or_zero(guarantees, i), at + i))
}

// The flag of a container: 0 drops, 1 keeps.
pub fn flag_of(t: Truth, dropped: bool) -> u8
    ensures { result ≡ flag_of t dropped }
{
    u8::from(!matches!(t, Truth::False) && !dropped)
}

// The flag of a container; its answers begin at a place.
pub fn container_flag(c: &Call<'_>, container: &Container<'_>, at: usize) -> u8
    requires { Ready (list_of c.now.list.now) container.now.pool.now (words_of container.now.table.now) max_table_depth 0 × (at + length c.now.guarantees.now / 8 < 2 ^ 64) }
    ensures { result ≡ flag_of (worth (row_cells container.now.cells.now (list_of c.now.list.now) (words_of container.now.row.now)) (table_at (list_of c.now.list.now) container.now.pool.now (words_of container.now.table.now) max_table_depth 0).table) (answers_drop c.now.answers.now (words_of c.now.guarantees.now) at) }
{
    let t = evaluating::evaluate(c.list, container);
    flag_of(t, answers_drop(c.answers, c.guarantees, at))
}

// Writes the flag of each container; the grid holds a row for each. From one to the next only the row differs.
pub fn prune_flags(c: &Call<'_>, flags: &mut [u8])
    requires { Fits c.now.list.now c.now.pool.now c.now.table.now c.now.guarantees.now c.now.grid.now c.now.containers (length flags.old) }
    ensures { flags.new ≡ sets flags.old 0 (flags_for c.now.list.now c.now.pool.now c.now.table.now c.now.guarantees.now c.now.cells.now c.now.grid.now c.now.answers.now 0 c.now.containers) }
{
    let wide = 8 * (c.list.len() / 8);
    let each = c.guarantees.len() / 8;
    let mut container = Container {
        table: c.table,
        pool: c.pool,
        row: &c.grid[..0],
        cells: c.cells,
    };
    for i in 0..c.containers {
        let from = i * wide;
        container.row = &c.grid[from..from + wide];
        flags[i] = container_flag(c, &container, i * each);
    }
}
