// Where everything stands in the scratch, phase by phase. Round 0 uses eight bytes for each of its records; the other rounds the first 9,000 bytes, the rings
// and the keys; the start's path 65 sets, the leaders, the stack and the rings. specs/Regions.antt has the same regions for proofs, and the law that those of one phase do not meet.
#![tactic(auto)]

pub mod stack;

ghost use Rattle.std.specs.Prelude.{◌≡◌, ◌≤◌};
ghost use Rattle.scratch.specs.Regions.{keys_at};

use states::numbering::STATES;

// The bytes of a set of state numbers.
pub const SET_BYTES: usize = STATES / 8;

// ---- what is asked of the scratch (document 01, check 15): so many bytes and more for each record that the log can hold; so many for a walk
pub const NEEDED: usize = 34000;

pub const NEEDED_PER_RECORD: usize = 10;

pub const NEEDED_BY_WALK: usize = 2048;

// ---- round 0
// The codes of the transitions while they are sorted, with room for as many behind them: 8 bytes for each, of which the log can hold a record. Nothing else is
// there yet.
pub const TRANSITION_CODES: usize = 0;

// ---- rounds
// The ends that the search of a head came by: a set.
pub const SEEN: usize = 0;

// The ends of a head's new records, a set too, and for each 64 numbers of it a count of 16 bits.
pub const NEW: usize = SET_BYTES;

pub const COUNTS: usize = 2 * SET_BYTES;

// The rule numbers in the order of their heads, one byte for each of 200.
pub const ORDER: usize = 1168;

// The set of the positions in that order that a round looks at, 32 bytes, and for each of 32 letters the set of the positions whose rules write it.
pub const ACTIVE: usize = 1368;

pub const WRITERS: usize = 1400;

// The states that a search has gone through: for each written letter's depth a set of those come by without a record of the last round, and one of those with.
// Before the first round the codes of the rules are sorted there, 8 bytes for each of 200.
pub const PASSED: usize = 2424;

pub const DEPTH_BYTES: usize = 2 * SET_BYTES;

pub const RULE_CODES: usize = 2424;

// ---- rounds and the start's path
// The rings of the records, 6 bytes for each, and behind those of n records the index of their keys, 4 bytes for each.
pub const RINGS: usize = NEEDED;

pub fn keys_at(n: usize) -> usize
    requires { n ≤ 65535 }
    ensures { result ≡ keys_at n }
{
    RINGS + 6 * n
}

// ---- the start's path and its unfolding
// The first leader of each letter, a link of 16 bits for each byte that a letter may be, behind the 65 sets. A leader's link to the next one stands where
// the index of keys was.
pub const LEADERS: usize = 65 * SET_BYTES;

// The stack of record numbers, 16 bits each: 64 for the start's path, and then over the rings and the keys, which the unfolding does not need.
pub const STACK: usize = RINGS - 128;

// ---- a walk
// The states that the letters read so far lead to, and those that one letter more leads to: two sets.
pub const HERE: usize = 0;

pub const THERE: usize = SET_BYTES;

pub const THERE_END: usize = 2 * SET_BYTES;
