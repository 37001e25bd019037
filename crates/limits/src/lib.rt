// Every limit, room and refusal of document 01, for the code; specs/Limits.antt and specs/Refusals.antt have the same for the definitions.
#![tactic(auto)]

ghost use Rattle.std.specs.Prelude.{◌≡◌};
ghost use Rattle.limits.specs.Refusals.{number_of};

// Limits.
pub const MAX_COLUMNS: usize = 64;

pub const MAX_NODES: usize = 255;

// Of a predicate; the root is 1.
pub const MAX_DEPTH: usize = 32;

// Of all lists together.
pub const MAX_LIST_LITERALS: usize = 256;

pub const MAX_LITERAL_BYTES: usize = 1024;

// Of all literals together.
pub const MAX_ALL_LITERAL_BYTES: usize = 8192;

pub const MAX_POOL_BYTES: usize = 65536;

pub const MAX_CONTAINERS: usize = 4096;

pub const MAX_LIST_LIMIT: usize = 256;

// Of a checked table, its literals no level.
pub const MAX_TABLE_DEPTH: usize = 289;

// A text literal of a checked table: an increment may be one byte longer than its prefix.
pub const MAX_TABLE_TEXT_BYTES: usize = 1025;

// Rooms, in bytes.
pub const TABLE_ROOM: usize = 24576;

pub const TABLE_POOL_ROOM: usize = 16512;

pub const STATISTICS_ROOM: usize = 1544;

pub const GUARANTEES_ROOM: usize = 1024;

// Why a call is refused, by number.
#[derive(Clone, Copy, Debug, PartialEq, Eq)]
pub enum Refusal {
    BadSchema = 1,
    BadLimit,
    NoRoom,
    Malformed,
    OverLimit,
    Misfit,
    BadContainers,
    BadTable,
    BadGrid,
    BadAnswers,
}

impl From<Refusal> for u8 {
    ghost from_gives = { λ r n. n ≡ number_of r };

    fn from(r: Refusal) -> u8 {
        r as u8
    }
}
