// The records of the log: one writer, which gets the log from its record's offset on, and a reader of each field by the record's number.
#![tactic(auto)]

ghost use Rattle.std.specs.Prelude.{◌≡◌, ◌∷◌, ◌++◌, ◌+◌, ◌*◌, ◌-◌, ◌<◌, ◌≤◌, length, drop, replicate, take};
ghost use Rattle.model.specs.Tables.{written_places};
ghost use Rattle.model.specs.Records.{record_length, group_bytes, path_bytes, letter_at, after_at, round_at, rule_at, place_at, steps_at};
ghost use Rattle.records.specs.Entries.{entry_bytes, HasRecord, with_entry};

use model::{Group, LONGEST_RUN, WRITTEN_PLACES};
use numbers::{group_at, put_three, put_two, three_at, two_at};

// Where the fields of a record stand in it.
pub const BEFORE: usize = 1;

pub const AFTER: usize = 5;

const ROUND: usize = 9;

const RULE: usize = 11;

const PATH: usize = 13;

const STEPS: usize = PATH + 2 * WRITTEN_PLACES;

pub const RECORD_LENGTH: usize = STEPS + 3;

// Stands for no rule, and for a path place past the path's end.
pub const NO_NUMBER: u16 = 65535;

// The steps of a record are counted to this.
pub const STEPS_CAP: u32 = LONGEST_RUN + 1;

// A record of the log. The steps fit three bytes.
#[derive(Clone, Copy)]
pub struct Entry {
    pub letter: u8,
    pub before: Group,
    pub after: Group,
    pub round: u16,
    pub rule: u16,
    pub path: [u16; WRITTEN_PLACES],
    pub steps: u32,
}

fn put_key(out: &mut [u8], letter: u8, b: Group, a: Group)
    requires { length out.old ≡ 9 }
    ensures { out.new ≡ letter ∷ group_bytes b ++ group_bytes a }
{
    out.copy_from_slice(&[letter, b.s0, b.s1, b.s2, b.s3, a.s0, a.s1, a.s2, a.s3]);
}

fn put_places(out: &mut [u8], path: [u16; WRITTEN_PLACES])
    requires { length out.old ≡ 2 * written_places }
    ensures { out.new ≡ path_bytes written_places path }
{
    for j in 0..WRITTEN_PLACES {
        put_two(out, 2 * j, path[j]);
    }
}

// Writes a record at the front of the part of the log that it is lent.
pub fn write_record(out: &mut [u8], e: Entry)
    requires { record_length ≤ length out.old }
    ensures { out.new ≡ entry_bytes e ++ drop record_length out.old }
{
    put_key(&mut out[..ROUND], e.letter, e.before, e.after);
    put_two(out, ROUND, e.round);
    put_two(out, RULE, e.rule);
    put_places(&mut out[PATH..STEPS], e.path);
    put_three(out, STEPS, e.steps);
}

// Writes record n.
pub fn put_record(log: &mut [u8], n: usize, e: Entry)
    requires { HasRecord log.old n }
    ensures { log.new ≡ with_entry log.old n e }
{
    write_record(&mut log[n * RECORD_LENGTH..], e);
}

#[tactic(auto, unfolding(model::specs::Records::letter_at))]
pub fn letter_at(log: &[u8], n: usize) -> u8
    requires { HasRecord log.now n }
    ensures { result ≡ letter_at log.now n }
{
    log[n * RECORD_LENGTH]
}

#[tactic(auto, unfolding(model::specs::Records::after_at, model::specs::Records::group_at))]
pub fn after_at(log: &[u8], n: usize) -> Group
    requires { HasRecord log.now n }
    ensures { result ≡ after_at log.now n }
{
    group_at(log, n * RECORD_LENGTH + AFTER)
}

#[tactic(auto, unfolding(model::specs::Records::round_at))]
pub fn round_at(log: &[u8], n: usize) -> u16
    requires { HasRecord log.now n }
    ensures { result ≡ round_at log.now n }
{
    two_at(log, n * RECORD_LENGTH + ROUND)
}

#[tactic(auto, unfolding(model::specs::Records::rule_at))]
pub fn rule_at(log: &[u8], n: usize) -> u16
    requires { HasRecord log.now n }
    ensures { result ≡ rule_at log.now n }
{
    two_at(log, n * RECORD_LENGTH + RULE)
}

// Path place j.
#[tactic(auto, unfolding(model::specs::Records::place_at))]
pub fn place_at(log: &[u8], n: usize, j: usize) -> u16
    requires { HasRecord log.now n × (j < written_places) }
    ensures { result ≡ place_at log.now n j }
{
    two_at(log, n * RECORD_LENGTH + (PATH + 2 * j))
}

#[tactic(auto, unfolding(model::specs::Records::steps_at))]
pub fn steps_at(log: &[u8], n: usize) -> u32
    requires { HasRecord log.now n }
    ensures { result ≡ steps_at log.now n }
{
    three_at(log, n * RECORD_LENGTH + STEPS)
}

// ---- behind the records
// Zeros behind the first `count` records of the log.
pub fn clear_behind(log: &mut [u8], count: usize)
    requires { count * record_length ≤ length log.old }
    ensures { log.new ≡ take (count * record_length) log.old ++ replicate (length log.old - count * record_length) 0 }
{
    log[count * RECORD_LENGTH..].fill(0);
}
