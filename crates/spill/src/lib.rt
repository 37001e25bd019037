// Whole rewriting and whole pruning, and the number of the packed format.
#![tactic(auto)]

ghost use Rattle.std.specs.Prelude.{◌≡◌, [], ◌∷◌, ◌^◌, ◌<◌, length};
ghost use Rattle.limits.specs.Refusals.{fault_of};
ghost use Rattle.words.specs.Layout.{packed};
ghost use Rattle.predicate.specs.Calls.{rewrite_fault};
ghost use Rattle.spill.specs.Rewrite.{answer_layout, predicate_of, outputs, rewriting};
ghost use Rattle.spill.specs.Prune.{prune_fault, pruning};
ghost use Rattle.spill.specs.Done.{Rewrote, Flagged};
ghost use Rattle.spill.specs.Rewriting.{buffers_of, rooms_of};
ghost use Rattle.spill.specs.Pruning.{call_of};
ghost use Rattle.spill.specs.Format.{format};

use flagging::Call;
use limits::Refusal;
use predicate::Rooms;
use walking::Request;
use writing::{Spot, Writer};

const FORMAT: u64 = 1;

// The number of the packed format: a host that knows another one must not hand its bytes over.
pub fn spill_version() -> u64
    ensures { result ≡ format }
{
    FORMAT
}

// The answer word of a call that is not refused: the counts of the four outputs.
fn answer_word(words: usize, bytes: usize, statistics: usize, guarantees: usize) -> u64
    requires { (words < 2 ^ 16) × (bytes < 2 ^ 16) × (statistics < 2 ^ 8) × (guarantees < 2 ^ 8) }
    ensures { result ≡ packed answer_layout (0 ∷ words ∷ bytes ∷ statistics ∷ guarantees ∷ 0 ∷ []) }
{
    ((words as u64) << 40)
        + ((bytes as u64) << 24)
        + ((statistics as u64) << 16)
        + ((guarantees as u64) << 8)
}

// Writes the four outputs of a call that is not refused, and answers their counts.
fn write_outputs(
    r: &Request<'_>,
    table: &mut [u8],
    table_pool: &mut [u8],
    statistics: &mut [u8],
    guarantees: &mut [u8],
) -> u64
    requires { rewrite_fault r.now.schema.now r.now.words.now r.now.pool.now r.now.limit (rooms_of (buffers_of table.old table_pool.old statistics.old guarantees.old)) ≡ 0 }
    ensures { Rewrote (outputs r.now.limit r.now.schema.now (predicate_of r.now.words.now r.now.pool.now)) (buffers_of table.old table_pool.old statistics.old guarantees.old) (buffers_of table.new table_pool.new statistics.new guarantees.new) result }
{
    let n = asking::list_statistics(r, statistics);
    let mut w = Writer {
        list: &statistics[..8 * n],
        table,
        pool: table_pool,
        at: Spot { to: 0, off: 0 },
    };
    emitting::emit(r, &mut w, limits::MAX_DEPTH, 0);
    let g = promising::write_guarantees(r.pool, r.words, limits::MAX_DEPTH, 0, guarantees, 0);
    answer_word(w.at.to, w.at.off, n, g.value)
}

// Rewriting: answers the refusal, or the counts of what it writes at the front of the four outputs.
pub fn spill_rewrite(
    schema: &[u8],
    predicate: &[u8],
    pool: &[u8],
    list_limit: u64,
    table: &mut [u8],
    table_pool: &mut [u8],
    statistics: &mut [u8],
    guarantees: &mut [u8],
) -> u64
    ensures { Rewrote (rewriting schema.now predicate.now pool.now list_limit (rooms_of (buffers_of table.old table_pool.old statistics.old guarantees.old))) (buffers_of table.old table_pool.old statistics.old guarantees.old) (buffers_of table.new table_pool.new statistics.new guarantees.new) result }
{
    let r = Request {
        schema,
        pool,
        words: predicate,
        limit: list_limit as usize,
    };
    let rooms = Rooms {
        table: table.len(),
        pool: table_pool.len(),
        statistics: statistics.len(),
        guarantees: guarantees.len(),
    };
    match checking::rewrite_fault(&r, rooms) {
        Ok(()) => write_outputs(&r, table, table_pool, statistics, guarantees),
        Err(refusal) => u64::from(u8::from(refusal)) << 56,
    }
}

// The refusal of a pruning call, if it gets one; the room is that of the flags.
#[tactic(auto, unfolding(crate::specs::Prune::prune_fault))]
fn prune_fault(schema: &[u8], c: &Call<'_>, room: usize) -> Result<(), Refusal>
    ensures { fault_of result ≡ prune_fault (call_of schema.now c.now.table.now c.now.pool.now c.now.list.now c.now.guarantees.now c.now.containers c.now.grid.now c.now.cells.now c.now.answers.now room) }
{
    if !checking::schema_fine(schema) {
        return Err(Refusal::BadSchema);
    }
    if limits::MAX_CONTAINERS < c.containers || room < c.containers {
        return Err(Refusal::BadContainers);
    }
    if !tablechecks::checked_table(schema, c.table, c.pool, c.list, c.guarantees) {
        return Err(Refusal::BadTable);
    }
    if !cells::grid_fine(schema, c.cells, c.list, c.containers, c.grid) {
        return Err(Refusal::BadGrid);
    }
    if !cells::answers_fine(c.containers, c.guarantees.len() / 8, c.answers) {
        return Err(Refusal::BadAnswers);
    }
    Ok(())
}

// Pruning: returns 0 or the refusal; on 0 the first bytes of the flags say which containers are kept.
pub fn spill_prune<'a>(
    schema: &[u8],
    table: &[u8],
    table_pool: &'a [u8],
    statistics: &[u8],
    guarantees: &[u8],
    containers: u64,
    grid: &[u8],
    cell_pool: &'a [u8],
    answers: &[u8],
    flags: &mut [u8],
) -> u64
    ensures { Flagged (pruning (call_of schema.now table.now table_pool.now statistics.now guarantees.now containers grid.now cell_pool.now answers.now (length flags.old))) flags.old flags.new result }
{
    let c = Call {
        table,
        pool: table_pool,
        list: statistics,
        guarantees,
        containers: containers as usize,
        grid,
        cells: cell_pool,
        answers,
    };
    match prune_fault(schema, &c, flags.len()) {
        Ok(()) => {
            flagging::prune_flags(&c, flags);
            0
        }
        Err(refusal) => u64::from(u8::from(refusal)),
    }
}
