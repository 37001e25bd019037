// Cells, the grid and the answers: what is accepted, and the counts that cells hold.
#![tactic(auto)]

ghost use Rattle.std.specs.Prelude.{◌≡◌, ℕ, Bool, ◌*◌, ◌/◌, ◌≤◌, length};
ghost use Rattle.limits.specs.Limits.{max_containers, max_guarantees, statistics_room};
ghost use Rattle.words.specs.Word.{word_at, words_of};
ghost use Rattle.literals.specs.Literals.{offset_of};
ghost use Rattle.pruning.specs.Cells.{cell_type, count_at, rows_fine, up_to_two, answers_fine};
ghost use Rattle.cells.specs.Counts.{count_value};
ghost use Rattle.cells.specs.Grids.{list_of, grid_holds, answers_hold};
ghost use Rattle.cells.specs.Columns.{Tests, cells_pass, column_fine, ColumnRoom};

use literals::Literal;
use statistics::Statistic;

// The type of a statistic's cells: its column's for a least or greatest value, an integer for a count.
fn cell_type(schema: &[u8], s: Statistic) -> u8
    ensures { result ≡ cell_type schema.now s }
{
    match s {
        Statistic::Least(c) | Statistic::Greatest(c) => predicate::type_in(schema, c),
        Statistic::Blanks(_) | Statistic::Rows => Literal::INTEGER,
    }
}

// A column's cells, from its place in the first row on, each pass a test of their words.
fn cells_pass<F: Fn(u64) -> bool>(
    fine: F,
    grid: &[u8],
    at: usize,
    wide: usize,
    containers: usize,
) -> bool
    requires room { ColumnRoom grid.now at wide containers }
    requires callable { F.IsAlwaysCallable fine }
    ensures { (test : ℕ → Bool) → Tests (F.post fine) test → result ≡ cells_pass test (words_of grid.now) wide containers at }
{
    for row in 0..containers {
        if !fine(words::word_at(grid, 8 * (row * wide + at))) {
            return false;
        }
    }
    true
}

// A column of a type, which is tested once for all its cells: every cell is absent, or of that type and inside the cell pool.
fn column_fine(
    pool: &[u8],
    kind: u8,
    grid: &[u8],
    at: usize,
    wide: usize,
    containers: usize,
) -> bool
    requires { ColumnRoom grid.now at wide containers }
    ensures { result ≡ column_fine pool.now kind (words_of grid.now) wide containers at }
{
    if kind == Literal::INTEGER {
        return cells_pass(
            |w| suiting::integer_suits(pool, w),
            grid,
            at,
            wide,
            containers,
        );
    }
    cells_pass(
        |w| suiting::word_suits(pool, kind, w),
        grid,
        at,
        wide,
        containers,
    )
}

// Every column of a grid that holds a row for each container.
fn columns_fine(schema: &[u8], pool: &[u8], list: &[u8], grid: &[u8], containers: usize) -> bool
    requires { (length list.now ≤ statistics_room) × (containers * (length list.now / 8) ≤ length grid.now / 8) }
    ensures { result ≡ rows_fine schema.now pool.now (list_of list.now) (words_of grid.now) containers 0 }
{
    let wide = list.len() / 8;
    for p in 0..wide {
        let s = statistics::statistic_of(words::word_at(list, 8 * p));
        if !column_fine(pool, cell_type(schema, s), grid, p, wide, containers) {
            return false;
        }
    }
    true
}

// A cell for each container and statistic, each of them fine.
pub fn grid_fine(schema: &[u8], pool: &[u8], list: &[u8], containers: usize, grid: &[u8]) -> bool
    requires { (containers ≤ max_containers) × (length list.now ≤ statistics_room) }
    ensures { result ≡ grid_holds schema.now pool.now (list_of list.now) containers grid.now }
{
    grid.len() == 8 * (containers * (list.len() / 8))
        && columns_fine(schema, pool, list, grid, containers)
}

// Every byte is at most 2.
fn up_to_two(answers: &[u8]) -> bool
    ensures { result ≡ up_to_two answers.now }
{
    answers.iter().all(|&a| a <= 2)
}

// No answer at all, or one for each container and guarantee.
fn answers_hold(len: usize, containers: usize, guarantees: usize) -> bool
    requires { (containers ≤ max_containers) × (guarantees ≤ max_guarantees) }
    ensures { result ≡ answers_hold len containers guarantees }
{
    len == 0 || len == containers * guarantees
}

// Answers: none at all, or a byte up to 2 for each container and guarantee.
pub fn answers_fine(containers: usize, guarantees: usize, answers: &[u8]) -> bool
    requires { (containers ≤ max_containers) × (guarantees ≤ max_guarantees) }
    ensures { result ≡ answers_fine containers guarantees answers.now }
{
    answers_hold(answers.len(), containers, guarantees) && up_to_two(answers)
}

// The eight bytes that a literal word names, as a number; a byte past the pool's end counts as 0.
pub fn number_of(pool: &[u8], w: u64) -> u64
    ensures { result ≡ word_at pool.now (offset_of w) }
{
    let at = literals::offset_of(w);
    if at + 8 <= pool.len() {
        words::word_at(pool, at)
    } else {
        words::padded_word(pool, at)
    }
}

// The count of blanks or rows that a cell holds, read unsigned; none if the cell is absent.
pub fn count_at(pool: &[u8], w: u64) -> Option<u64>
    ensures { count_value result ≡ count_at pool.now w }
{
    if literals::type_of(w) == Literal::NULL {
        None
    } else {
        Some(number_of(pool, w))
    }
}
