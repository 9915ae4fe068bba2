// The set of states from which a rest of the start word is accepted.
ghost use Rattle.std.specs.Prelude.{◌≡◌, cond, map, ℕ, ◌+◌, ◌<◌, ◌≤◌, length};
ghost use Rattle.model.specs.Groups.{processes_of, within_test};
ghost use Rattle.states.specs.StateNumbers.{state_count};
ghost use Rattle.states.specs.StateSets.{set_length};
ghost use Rattle.table.specs.Reading.{Holds, accepting_in};
ghost use Rattle.copies.specs.CopyingOf.{CopyingOf};
ghost use Rattle.copies.specs.Mixing.{mixture_of, mixtures_in};
ghost use Rattle.rests.specs.Rests.{processes_of_table, own_number, set_at, SetRight};
ghost use Rattle.restsets.specs.Sets.{with_state, with_states, EmptySet, OnlySet};
ghost use Rattle.restsets.specs.Filling.{Fillable, Filled};

use crate::groups::{add_groups, frame_of};
use buffers::clear;
use copies::{Copying, Mixed, mixed_of, mixture, set_count};
use model::Group;
use rests::{Scope, letter_at, zeroed};
use scratch::SET_BYTES;
use states::numbering::number;
use states::sets::insert;
use table::{Accepted, Table, is_within, present};

fn clear_set(scratch: &mut [u8], at: usize)
    requires { at + set_length ≤ length scratch.old }
    ensures { OnlySet at scratch.old scratch.new × EmptySet scratch.new at }
{
    clear(&mut scratch[at..at + SET_BYTES]);
}

pub fn insert_state(scratch: &mut [u8], at: usize, x: usize)
    requires { (x < state_count) × (at + set_length ≤ length scratch.old) }
    ensures { scratch.new ≡ with_state scratch.old at x }
{
    insert(&mut scratch[at..at + SET_BYTES], x);
}

// The set of the rest from letter i on, at `to`, from that of the next rest, at `next`.
pub fn fill_set(
    table: &Accepted,
    log: &[u8],
    scratch: &mut [u8],
    c: Scope,
    i: usize,
    next: usize,
    to: usize,
    last: Group,
)
    requires { Fillable table.now.bytes.now table.now.counts log.now c i next to last scratch.old }
    ensures { Filled table.now.bytes.now table.now.counts log.now c.limit i to scratch.old scratch.new }
{
    let a = letter_at(table, i);
    clear_set(scratch, to);
    let f = frame_of(a.bits, last);
    add_groups(log, scratch, c, next, to, a, f);
}

// Puts the mixture of a group for the set m into the set, if m is within the table's processes.
fn add_mixture(t: Table, scratch: &mut [u8], at: usize, x: Mixed, m: u8)
    requires { at + set_length ≤ length scratch.old }
    ensures { scratch.new ≡ cond (within_test (processes_of m) (processes_of x.bits)) (with_state scratch.old at (own_number (processes_of_table t) (mixture_of x (processes_of m)))) scratch.old }
{
    if is_within(m, x.bits) {
        let g = mixture(x, m);
        insert_state(scratch, at, number(zeroed(t, g)));
    }
}

// Puts accepting group j into the set, in every mixture where the automaton is copied.
fn add_accepting(table: &Accepted, c: Copying, scratch: &mut [u8], at: usize, j: usize)
    requires { CopyingOf table.now.bytes.now table.now.counts c × (j < table.now.counts.accepting) × (at + set_length ≤ length scratch.old) }
    ensures { scratch.new ≡ with_states scratch.old at (map (own_number (processes_of_table table.now.counts)) (mixtures_in table.now.bytes.now (processes_of_table table.now.counts) (accepting_in table.now.bytes.now j))) }
{
    let g = table.accepting_group(j);
    let x = mixed_of(c, present(table.counts), g);
    let sets = set_count(c);
    for m in 0..sets {
        add_mixture(table.counts, scratch, at, x, m);
    }
}

// The set of the empty rest: the accepting groups.
pub fn fill_accepting(table: &Accepted, c: Copying, scratch: &mut [u8], at: usize)
    requires { CopyingOf table.now.bytes.now table.now.counts c × (at + set_length ≤ length scratch.old) }
    ensures { OnlySet at scratch.old scratch.new × ((round : ℕ) → SetRight table.now.bytes.now table.now.counts round (set_at scratch.new at) table.now.counts.pile) }
{
    clear_set(scratch, at);
    for j in (0..table.counts.accepting).rev() {
        add_accepting(table, c, scratch, at, j);
    }
}
