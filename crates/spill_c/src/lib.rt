// What C calls: the functions of the library under their own names, with their promises.
#![tactic(auto)]

ghost use Rattle.std.specs.Prelude.{◌≡◌, length};
ghost use Rattle.spill.specs.Rewrite.{rewriting};
ghost use Rattle.spill.specs.Prune.{pruning};
ghost use Rattle.spill.specs.Done.{Rewrote, Flagged};
ghost use Rattle.spill.specs.Rewriting.{buffers_of, rooms_of};
ghost use Rattle.spill.specs.Pruning.{call_of};
ghost use Rattle.spill.specs.Format.{format};

// The number of the packed format.
#[unsafe(no_mangle)]
pub extern "C" fn spill_version() -> u64
    ensures { result ≡ format }
{
    spill::spill_version()
}

// Rewriting.
#[unsafe(no_mangle)]
pub extern "C" fn spill_rewrite(
    schema: &[u8],
    predicate: &[u8],
    pool: &[u8],
    list_limit: u64,
    table: &mut [u8],
    table_pool: &mut [u8],
    statistics: &mut [u8],
    guarantees: &mut [u8],
) -> u64
    ensures { Rewrote (rewriting schema.now predicate.now pool.now list_limit (rooms_of (buffers_of table.old table_pool.old statistics.old guarantees.old))) (buffers_of table.old table_pool.old statistics.old guarantees.old) (buffers_of table.new table_pool.new statistics.new guarantees.new) result }
{
    spill::spill_rewrite(
        schema, predicate, pool, list_limit, table, table_pool, statistics, guarantees,
    )
}

// Pruning.
#[unsafe(no_mangle)]
pub extern "C" fn spill_prune<'a>(
    schema: &[u8],
    table: &[u8],
    table_pool: &'a [u8],
    statistics: &[u8],
    guarantees: &[u8],
    containers: u64,
    grid: &[u8],
    cell_pool: &'a [u8],
    answers: &[u8],
    flags: &mut [u8],
) -> u64
    ensures { Flagged (pruning (call_of schema.now table.now table_pool.now statistics.now guarantees.now containers grid.now cell_pool.now answers.now (length flags.old))) flags.old flags.new result }
{
    spill::spill_prune(
        schema, table, table_pool, statistics, guarantees, containers, grid, cell_pool, answers,
        flags,
    )
}
