// A table: document 01, "Table bytes". It stays in the caller's bytes; what is kept of it are its counts, by which its parts are found there.
#![tactic(auto)]

mod accepted;
mod fields;
mod groups;
mod kinds;

ghost use Rattle.std.specs.Prelude.{◌≡◌, []};
ghost use Rattle.table.specs.Reading.{counts_of};

pub use accepted::Accepted;
pub use fields::{RULE_BODY, bits_of, body_at, bound_of};
pub use groups::{has_process, is_within, leaves_control, present};
pub use kinds::Kind;
use model::WRITTEN_PLACES;

// What an accepted table holds, besides one start: the number of items of each kind.
#[repr(C)]
#[derive(Clone, Copy)]
pub struct Table {
    pub processes: usize,
    pub letters: usize,
    pub rules: usize,
    pub transitions: usize,
    pub accepting: usize,
    pub pile: usize,
}

impl Table {
    // The ceilings.
    pub const PROCESSES: usize = 4;

    pub const LETTERS: usize = 32;

    pub const RULES: usize = 200;

    pub const TRANSITIONS: usize = 200;

    pub const ACCEPTING: usize = 64;

    pub const PILE: usize = 64;

    // The bytes of a table with every kind at its ceiling, the longest.
    pub const LONGEST: usize = 3 * Self::PROCESSES
        + 2 * Self::LETTERS
        + (11 + WRITTEN_PLACES) * Self::RULES
        + 10 * Self::TRANSITIONS
        + 5 * Self::ACCEPTING
        + 5
        + 2 * Self::PILE
        + 1;

    // The table without items.
    pub fn empty() -> Self
        ensures { result ≡ counts_of [] }
    {
        Self {
            processes: 0,
            letters: 0,
            rules: 0,
            transitions: 0,
            accepting: 0,
            pile: 0,
        }
    }
}

// A state of the reading: where the next item begins, the kind before it, and the counts so far; `starts` is 1 behind the start.
#[derive(Clone, Copy)]
pub struct Cursor {
    pub at: usize,
    pub last: Option<Kind>,
    pub starts: usize,
    pub table: Table,
}
