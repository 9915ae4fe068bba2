// The accepted test (document 01: watched). The word is read letter by letter with the set of the states that the letters so far lead
// to; those that one letter more leads to are collected in a second set.
#![tactic(auto)]

ghost use Rattle.std.specs.Prelude.{◌≡◌, ◌&&◌, List, [], ◌∷◌, ℕ, ◌+◌, ◌≤◌, ◌<◌, eqb, length};
ghost use Rattle.model.specs.Automata.{move};
ghost use Rattle.model.specs.Calls.{zeros};
ghost use Rattle.model.specs.Groups.{restrict, same_group};
ghost use Rattle.model.specs.Systems.{is_accepting};
ghost use Rattle.states.specs.StateNumbers.{state_count, state_number, group_numbered, Over};
ghost use Rattle.states.specs.StateSets.{set_length, inserted, next_member};
ghost use Rattle.table.specs.Reading.{Holds, system_in, transition_in};
ghost use Rattle.table.specs.Present.{present_in};
ghost use Rattle.acceptance.specs.Sets.{accepts_from, some_accepts, leads, Extends, here, there};

use buffers::{clear, move_front};
use model::Group;
use scratch::{HERE, SET_BYTES, THERE, THERE_END};
use states::numbering::STATES;
use states::{groups, numbering, sets};
use table::{Accepted, present};

// Transition k reads the letter in g.
fn is_read(table: &Accepted, letter: u8, g: Group, k: usize) -> bool
    requires { k < table.now.counts.transitions }
    ensures { result ≡ (eqb (transition_in table.now.bytes.now k).letter letter && same_group (restrict ((system_in table.now.bytes.now).loc letter) g) (transition_in table.now.bytes.now k).before) }
{
    table.transition_letter(k) == letter
        && groups::reads(
            table.letter_bits(usize::from(letter)),
            g,
            table.transition_before(k),
        )
}

// The number of the state that transition k leads to from g.
fn target(table: &Accepted, g: Group, k: usize) -> usize
    requires { k < table.now.counts.transitions }
    ensures { (result ≡ state_number (move (system_in table.now.bytes.now).loc (transition_in table.now.bytes.now k) g)) × (result < state_count) }
{
    let bits = table.letter_bits(usize::from(table.transition_letter(k)));
    numbering::number(groups::merged(bits, table.transition_after(k), g))
}

// Puts in the state that transition k leads to, if it reads the letter in g.
fn follow(table: &Accepted, letter: u8, g: Group, k: usize, next: &mut [u8])
    requires { (k < table.now.counts.transitions) × Over (present_in table.now.counts) g × (length next.old ≡ set_length) }
    ensures { Extends (system_in table.now.bytes.now) (present_in table.now.counts) next.old next.new (λ w. leads (system_in table.now.bytes.now) letter g w (transition_in table.now.bytes.now k)) }
{
    if is_read(table, letter, g, k) {
        sets::insert(next, target(table, g, k));
    }
}

// Puts in the states that the letter leads to from g.
fn follow_all(table: &Accepted, letter: u8, g: Group, next: &mut [u8])
    requires { Over (present_in table.now.counts) g × (length next.old ≡ set_length) }
    ensures { Extends (system_in table.now.bytes.now) (present_in table.now.counts) next.old next.new (λ w. accepts_from (system_in table.now.bytes.now) (letter ∷ w) g) }
{
    for k in 0..table.counts.transitions {
        follow(table, letter, g, k, next);
    }
}

// State n of the table's processes.
fn state_at(table: &Accepted, n: usize) -> Group
    requires { n < state_count }
    ensures { result ≡ group_numbered (present_in table.now.counts) n }
{
    numbering::numbered(present(table.counts), n)
}

// Puts in the states that the letter leads to from state n, and gives the next state of the set.
fn read_member(table: &Accepted, letter: u8, n: usize, scratch: &mut [u8]) -> usize
    requires { (n < state_count) × (1024 ≤ length scratch.old) }
    ensures { (here scratch.new ≡ here scratch.old) × (result ≡ next_member (here scratch.old) (n + 1)) × Extends (system_in table.now.bytes.now) (present_in table.now.counts) (there scratch.old) (there scratch.new) (λ w. accepts_from (system_in table.now.bytes.now) (letter ∷ w) (group_numbered (present_in table.now.counts) n)) }
{
    follow_all(
        table,
        letter,
        state_at(table, n),
        &mut scratch[THERE..THERE_END],
    );
    sets::next_member(&scratch[HERE..THERE], n + 1)
}

// Puts in the states that the letter leads to from the states of the set, which are gone through by `next_member`, as no range has them.
fn read_members(table: &Accepted, letter: u8, scratch: &mut [u8])
    requires { 1024 ≤ length scratch.old }
    ensures { Extends (system_in table.now.bytes.now) (present_in table.now.counts) (there scratch.old) (there scratch.new) (λ w. some_accepts (system_in table.now.bytes.now) (present_in table.now.counts) (here scratch.old) (letter ∷ w)) }
{
    let mut n = sets::next_member(&scratch[HERE..THERE], 0);
    while n < STATES {
        n = read_member(table, letter, n, scratch);
    }
}

// Reads one letter: the set of the states after it takes the place of the set before it.
fn read_letter(table: &Accepted, letter: u8, scratch: &mut [u8])
    requires { 1024 ≤ length scratch.old }
    ensures { (w : List ℕ) → some_accepts (system_in table.now.bytes.now) (present_in table.now.counts) (here scratch.new) w ≡ some_accepts (system_in table.now.bytes.now) (present_in table.now.counts) (here scratch.old) (letter ∷ w) }
{
    clear(&mut scratch[THERE..THERE_END]);
    read_members(table, letter, scratch);
    move_front(scratch, THERE, SET_BYTES);
}

// Reads the whole word.
fn read_word(table: &Accepted, word: &[u8], scratch: &mut [u8])
    requires { 1024 ≤ length scratch.old }
    ensures { some_accepts (system_in table.now.bytes.now) (present_in table.now.counts) (here scratch.new) [] ≡ some_accepts (system_in table.now.bytes.now) (present_in table.now.counts) (here scratch.old) word.now }
{
    for &letter in word {
        read_letter(table, letter, scratch);
    }
}

// The group is one of the table's accepting groups.
fn is_accepting(table: &Accepted, g: Group) -> bool
    ensures { result ≡ is_accepting g (system_in table.now.bytes.now).accepting }
{
    for k in 0..table.counts.accepting {
        if g == table.accepting_group(k) {
            return true;
        }
    }
    false
}

// Some state of the set is accepting.
fn has_accepting(table: &Accepted, members: &[u8]) -> bool
    requires { set_length ≤ length members.now }
    ensures { result ≡ some_accepts (system_in table.now.bytes.now) (present_in table.now.counts) members.now [] }
{
    let mut n = sets::next_member(members, 0);
    while n < STATES {
        if is_accepting(table, state_at(table, n)) {
            return true;
        }
        n = sets::next_member(members, n + 1);
    }
    false
}

// The set that has the one state g.
fn put_start(g: Group, members: &mut [u8])
    requires { length members.old ≡ set_length }
    ensures { members.new ≡ inserted (zeros members.old) (state_number g) }
{
    clear(members);
    sets::insert(members, numbering::number(g));
}

// The table's automaton accepts the word from these states. The scratch is left zero.
pub fn is_accepted(table: &Accepted, word: &[u8], states: Group, scratch: &mut [u8]) -> bool
    requires { Over (present_in table.now.counts) states × (1024 ≤ length scratch.old) }
    ensures { (result ≡ accepts_from (system_in table.now.bytes.now) word.now states) × (scratch.new ≡ zeros scratch.old) }
{
    put_start(states, &mut scratch[HERE..THERE]);
    read_word(table, word, scratch);
    let accepted = has_accepting(table, &scratch[HERE..THERE]);
    clear(scratch);
    accepted
}
