// The start's path: the first accepting path of the log's records from the start, by record numbers. An attempt without memory comes first and ends most
// starts. Where it gives up, sets of states, from the back of the start word on, tell from which states the rest of the word is accepted; then each letter
// takes the lowest record that leads into the next set.
#![tactic(auto)]

pub mod paths;
pub mod sets;

ghost use Rattle.std.specs.Prelude.{◌≡◌, ℕ, ◌≤◌, length};
ghost use Rattle.table.specs.Reading.{Holds, system_in};
ghost use Rattle.logs.specs.RoundLogs.{SomeRound, EachRound};
ghost use Rattle.scratch.specs.Regions.{leaders_at, links_end};
ghost use Rattle.leaders.specs.Leaders.{Linked};
ghost use Rattle.attempts.specs.Attempts.{Attempted};
ghost use Rattle.restsets.specs.OwnGroups.{last_states};
ghost use Rattle.start.specs.Search.{start_in, whole_word, Begun, PathIf, Sought};

use crate::paths::{path_steps, write_path};
use crate::sets::fill_sets;
use attempts::{Span, Tried, attempt};
use copies::copying_of;
use model::Group;
use rests::{Scope, zeroed};
use restsets::chain_word;
use restsets::groups::last_states;
use restsets::sets::fill_accepting;
use scratch::SET_BYTES;
use states::numbering::number;
use states::sets::contains;
use table::Accepted;

// How many records an attempt may try: a number that any log can spare.
fn tries(count: usize) -> usize {
    if count < 16000 { 192 + count / 4 } else { 4192 }
}

// Whether the start's state is in the first set.
fn is_accepted(table: &Accepted, scratch: &[u8]) -> bool
    requires { leaders_at ≤ length scratch.now }
    ensures { result ≡ start_in table.now.bytes.now table.now.counts scratch.now }
{
    let g = table.start_group();
    contains(&scratch[0..SET_BYTES], number(zeroed(table.counts, g)))
}

// The attempt at the start's path. For the empty word the first set tells.
fn attempt_start(table: &Accepted, log: &[u8], scratch: &mut [u8], c: Scope) -> Tried
    requires { Begun table.now.bytes.now table.now.counts log.now c scratch.old }
    ensures { Attempted table.now.bytes.now table.now.counts log.now c (whole_word table.now.counts) (system_in table.now.bytes.now).start.states scratch.old scratch.new result }
{
    if table.counts.pile == 0 {
        if is_accepted(table, scratch) {
            return Tried::Found;
        }
        return Tried::Nothing;
    }
    let span = Span {
        low: 0,
        high: table.counts.pile,
        goal: SET_BYTES * table.counts.pile,
    };
    let g = table.start_group();
    attempt(table, log, scratch, c, span, g, tries(c.count))
}

// Whether there is a path, by the sets; it is then on the stack.
fn has_path_by_sets(table: &Accepted, log: &[u8], scratch: &mut [u8], c: Scope, last: Group) -> bool
    requires { Begun table.now.bytes.now table.now.counts log.now c scratch.old × (last ≡ last_states table.now.bytes.now table.now.counts) }
    ensures { EachRound table.now.bytes.now table.now.counts log.now c.limit (λ (round : ℕ). PathIf table.now.bytes.now table.now.counts round scratch.new result) }
{
    chain_word(table, log, scratch, c.n, c.count);
    fill_sets(table, log, scratch, c, last);
    if is_accepted(table, scratch) {
        write_path(table, log, scratch, c);
        return true;
    }
    false
}

// Whether there is a path; it is then on the stack.
fn has_path(table: &Accepted, log: &[u8], scratch: &mut [u8], c: Scope, last: Group) -> bool
    requires { Begun table.now.bytes.now table.now.counts log.now c scratch.old × (last ≡ last_states table.now.bytes.now table.now.counts) }
    ensures { EachRound table.now.bytes.now table.now.counts log.now c.limit (λ (round : ℕ). PathIf table.now.bytes.now table.now.counts round scratch.new result) }
{
    match attempt_start(table, log, scratch, c) {
        Tried::Found => true,
        Tried::Nothing => false,
        Tried::GivenUp => has_path_by_sets(table, log, scratch, c, last),
    }
}

// Finds the start's path, leaves it on the stack and gives its steps; what the rest of the scratch holds is not decided. n is the number of records that the scratch has room
// for, count that of the log's records, which are in their rings.
pub fn find(table: &Accepted, log: &[u8], scratch: &mut [u8], n: usize, count: usize) -> Option<u32>
    requires { SomeRound table.now.bytes.now table.now.counts log.now count × Linked log.now count n scratch.old × (links_end n ≤ length scratch.old) }
    ensures { EachRound table.now.bytes.now table.now.counts log.now count (λ (round : ℕ). Sought table.now.bytes.now table.now.counts round result scratch.new) }
{
    let copying = copying_of(table);
    fill_accepting(table, copying, scratch, SET_BYTES * table.counts.pile);
    let c = Scope {
        n,
        count,
        limit: count,
    };
    if has_path(table, log, scratch, c, last_states(copying)) {
        return Some(path_steps(log, scratch, table.counts.pile));
    }
    None
}
