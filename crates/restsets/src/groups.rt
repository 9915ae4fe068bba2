// The groups of a letter's processes, and what the records with such a group before add to a set.
ghost use Rattle.std.specs.Prelude.{◌≡◌, true, cond, ◌+◌, ◌%◌, ◌<◌, ◌≤◌, length};
ghost use Rattle.model.specs.declared.Group.{Group};
ghost use Rattle.model.specs.Groups.{Process, at, build, processes_of};
ghost use Rattle.states.specs.StateNumbers.{state_count};
ghost use Rattle.states.specs.StateSets.{set_length, member};
ghost use Rattle.packs.specs.Packs.{packed_merge, packed_number};
ghost use Rattle.rests.specs.Rests.{set_at};
ghost use Rattle.restsets.specs.OwnGroups.{last_of, FrameTo, Single, Addable, Leading, LetterChained, Added, GroupAdded};

use crate::Frame;
use crate::sets::insert_state;
use copies::Copying;
use leaders::{first_leader, next_leader};
use model::Group;
use packs::{after_at, before_at, mask_of};
use rests::{Letter, Scope};
use rings::Rings;
use scratch::{RINGS, SET_BYTES};
use states::sets::contains;
use wordsets::{add_record, rest_bits};

// The highest of so many states, copied ones included; 0 where there are none.
fn last_state(copied: bool, states: u8) -> u8
    requires { states ≤ 8 }
    ensures { result ≡ last_of copied states }
{
    if states == 0 {
        0
    } else if copied {
        states + states - 1
    } else {
        states - 1
    }
}

// The highest state of each process, 0 where the table lacks it.
pub fn last_states(c: Copying) -> Group
    requires { (i : Process) → at c.states i ≤ 8 }
    ensures { result ≡ build (λ i. last_of c.made (at c.states i)) }
{
    Group {
        s0: last_state(c.made, c.states.s0),
        s1: last_state(c.made, c.states.s1),
        s2: last_state(c.made, c.states.s2),
        s3: last_state(c.made, c.states.s3),
    }
}

// How many states of a process are gone through beside the letter's own ones.
fn extent(own: bool, last: u8) -> usize
    ensures { result ≡ cond own 1 (last % 8 + 1) }
{
    if own { 1 } else { (last % 8) as usize + 1 }
}

// What is gone through for a letter of the processes in bits, up to the highest states.
pub fn frame_of(bits: u8, last: Group) -> Frame
    ensures { FrameTo (processes_of bits) last result }
{
    Frame {
        mask: mask_of(bits),
        rows: extent(bits % 2 == 1, last.s0),
        words: extent(bits / 2 % 2 == 1, last.s1),
        rest: rest_bits(
            extent(bits / 4 % 2 == 1, last.s2) == 1,
            extent(bits / 8 % 2 == 1, last.s3) == 1,
        ),
    }
}

// The own number of a packed group, for the processes of the mask.
fn own_number(mask: u32, g: u32) -> usize
    ensures { (result ≡ packed_number (packed_merge mask g 0)) × (result < state_count) }
{
    packs::number(packs::merged(mask, g, 0))
}

// Whether no process beside the letter's has more than one state, so that a group is a single state.
fn is_single(f: Frame) -> bool
    ensures { result ≡ true → Single f }
{
    f.rest == 1 && f.rows == 1 && f.words == 1
}

// Whether the state with an own number is in the set at a byte.
fn holds(scratch: &[u8], at: usize, x: usize) -> bool
    requires { (x < state_count) × (at + set_length ≤ length scratch.now) }
    ensures { result ≡ member (set_at scratch.now at) x }
{
    contains(&scratch[at..at + SET_BYTES], x)
}

// Puts the single state with the leader's states before it into the set at `to`, if a record of the letter leads from there into the set at `next`. Apart from
// `add_states`, since one state asks one bit where that goes over words.
fn add_state(
    log: &[u8],
    scratch: &mut [u8],
    c: Scope,
    next: usize,
    to: usize,
    a: Letter,
    f: Frame,
    leader: usize,
)
    requires { Leading log.now c a f next to scratch.old leader × Single f }
    ensures { GroupAdded log.now c a f next to leader scratch.old scratch.new }
{
    let before = before_at(log, leader);
    let rings = Rings::new(log, scratch, RINGS, c.n, c.count);
    let mut r = leader;
    while r < c.limit {
        if holds(scratch, next, own_number(f.mask, after_at(log, r))) {
            insert_state(scratch, to, own_number(f.mask, before));
            return;
        }
        r = rings.next_match(r, a.number, before);
    }
}

// Puts the states with the leader's states before it, from which a record of the letter leads into the set at `next`, into the set at `to`. Once all of them
// are in, the other records are not tried.
fn add_states(
    log: &[u8],
    scratch: &mut [u8],
    c: Scope,
    next: usize,
    to: usize,
    a: Letter,
    f: Frame,
    leader: usize,
)
    requires { Leading log.now c a f next to scratch.old leader }
    ensures { GroupAdded log.now c a f next to leader scratch.old scratch.new }
{
    let before = before_at(log, leader);
    let x = own_number(f.mask, before);
    let mut r = leader;
    while r < c.limit {
        let y = own_number(f.mask, after_at(log, r));
        let common = add_record(scratch, next, to, y, x, f.rest, f.rows, f.words);
        if common == f.rest {
            return;
        }
        r = Rings::new(log, scratch, RINGS, c.n, c.count).next_match(r, a.number, before);
    }
}

// The states with the leader's states before it, from which a record of the letter leads into the set at `next`, become members of the set at `to`.
fn add_group(
    log: &[u8],
    scratch: &mut [u8],
    c: Scope,
    next: usize,
    to: usize,
    a: Letter,
    f: Frame,
    leader: usize,
)
    requires { Leading log.now c a f next to scratch.old leader }
    ensures { GroupAdded log.now c a f next to leader scratch.old scratch.new }
{
    if is_single(f) {
        add_state(log, scratch, c, next, to, a, f, leader);
        return;
    }
    add_states(log, scratch, c, next, to, a, f, leader);
}

// All groups of the letter that have a record, leader by leader.
pub fn add_groups(
    log: &[u8],
    scratch: &mut [u8],
    c: Scope,
    next: usize,
    to: usize,
    a: Letter,
    f: Frame,
)
    requires { Addable log.now c a f next to scratch.old × LetterChained log.now c a.number scratch.old }
    ensures { Added log.now c.limit (set_at scratch.old next) a f (λ (g : Group). Unit {0}) to scratch.old scratch.new }
{
    let mut r = first_leader(scratch, a.number);
    while r < c.limit {
        add_group(log, scratch, c, next, to, a, f, r);
        r = next_leader(scratch, c.n, r);
    }
}
