// An attempt at the first accepting path of a rest of the start word: depth first from a state by rising record numbers, letter by letter, back where no record
// is left. It keeps nothing but the record numbers so far, on the stack. It finds the first path, or that there is none, or gives up and has shown nothing.
#![tactic(auto)]

ghost use Rattle.std.specs.Prelude.{◌≡◌, true, ◌+◌, ◌<◌, ◌≤◌, length};
ghost use Rattle.states.specs.StateSets.{set_length, member};
ghost use Rattle.packs.specs.Packs.{packed_number};
ghost use Rattle.table.specs.Reading.{Holds};
ghost use Rattle.leaders.specs.Leaders.{Linked};
ghost use Rattle.rests.specs.Rests.{set_at};
ghost use Rattle.attempts.specs.Attempts.{Ready, Attempted};
ghost use Rattle.attempts.specs.Turns.{reads_here, entered, followed, Returning, returned, SomeWay, EachWay};

use model::Group;
use packs::{after_at, before_at, mask_of, merged, number, pack, restricted};
use rests::{Scope, letter_at, zeroed};
use rings::Rings;
use scratch::stack::{number_at, put_number};
use scratch::{RINGS, SET_BYTES};
use states::sets::contains;
use std::ops::ControlFlow;
use table::Accepted;

// The letters from `low` on and below `high`, and where the set stands that they shall lead into.
#[derive(Clone, Copy)]
pub struct Span {
    pub low: usize,
    pub high: usize,
    pub goal: usize,
}

// The first path is on the stack; there is none; or nothing is shown.
#[derive(Clone, Copy)]
pub enum Tried {
    Found,
    Nothing,
    GivenUp,
}

// Where an attempt stands: before a letter, whose number and processes it has; in a state, as one number; the record to be tried next there, or none below
// the limit; and how many tries are left.
#[derive(Clone, Copy)]
pub struct Stand {
    pub place: usize,
    pub letter: u8,
    pub mask: u32,
    pub state: u32,
    pub next: usize,
    pub left: usize,
}

// Before letter `place` in a state: the first record that reads the letter there.
fn enter(
    table: &Accepted,
    log: &[u8],
    scratch: &[u8],
    c: Scope,
    place: usize,
    state: u32,
    left: usize,
) -> Stand
    requires { (place < table.now.counts.pile) × Linked log.now c.count c.n scratch.now }
    ensures { result ≡ entered table.now.bytes.now log.now c place state left }
{
    let a = letter_at(table, place);
    let mask = mask_of(a.bits);
    let before = restricted(mask, state);
    let next = Rings::new(log, scratch, RINGS, c.n, c.count).first_match(a.number, before);
    Stand {
        place,
        letter: a.number,
        mask,
        state,
        next,
        left,
    }
}

// The next record behind the one that is tried.
fn follow(log: &[u8], scratch: &[u8], c: Scope, x: Stand, left: usize) -> Stand
    requires { Linked log.now c.count c.n scratch.now × (x.next < c.count) × (reads_here log.now x x.next ≡ true) }
    ensures { result ≡ followed log.now c x left }
{
    let before = restricted(x.mask, x.state);
    let next = Rings::new(log, scratch, RINGS, c.n, c.count).next_match(x.next, x.letter, before);
    Stand {
        place: x.place,
        letter: x.letter,
        mask: x.mask,
        state: x.state,
        next,
        left,
    }
}

// Back before the last record on the stack: where the attempt stood when it was tried.
fn return_back(table: &Accepted, log: &[u8], scratch: &[u8], x: Stand) -> Stand
    requires { Returning table.now.bytes.now table.now.counts log.now scratch.now x }
    ensures { result ≡ returned table.now.bytes.now table.now.counts log.now scratch.now x }
{
    let place = x.place - 1;
    let a = letter_at(table, place);
    let mask = mask_of(a.bits);
    let next = number_at(scratch, table.counts.pile - x.place);
    let before = before_at(log, next);
    Stand {
        place,
        letter: a.number,
        mask,
        state: merged(mask, before, x.state),
        next,
        left: x.left,
    }
}

// Whether a state is in the set at `goal`.
fn is_in(scratch: &[u8], goal: usize, state: u32) -> bool
    requires { goal + set_length ≤ length scratch.now }
    ensures { result ≡ member (set_at scratch.now goal) (packed_number state) }
{
    contains(&scratch[goal..goal + SET_BYTES], number(state))
}

// Tries the next record: on behind it, or at the span's last letter whether it leads into the set.
fn try_record(
    table: &Accepted,
    log: &[u8],
    scratch: &mut [u8],
    c: Scope,
    span: Span,
    x: Stand,
) -> ControlFlow<Tried, Stand>
    requires { (x.next < c.limit) × (0 < x.left) × SomeWay table.now.bytes.now table.now.counts log.now c span scratch.old x }
    ensures { EachWay table.now.bytes.now table.now.counts log.now c span x scratch.old scratch.new result }
{
    let state = merged(x.mask, after_at(log, x.next), x.state);
    if x.place + 1 < span.high {
        put_number(scratch, table.counts.pile - 1 - x.place, x.next as u16);
        return ControlFlow::Continue(enter(table, log, scratch, c, x.place + 1, state, x.left - 1));
    }
    if is_in(scratch, span.goal, state) {
        put_number(scratch, table.counts.pile - 1 - x.place, x.next as u16);
        return ControlFlow::Break(Tried::Found);
    }
    ControlFlow::Continue(follow(log, scratch, c, x, x.left - 1))
}

// One try, or one step back where no record is left.
fn take_turn(
    table: &Accepted,
    log: &[u8],
    scratch: &mut [u8],
    c: Scope,
    span: Span,
    x: Stand,
) -> ControlFlow<Tried, Stand>
    requires { SomeWay table.now.bytes.now table.now.counts log.now c span scratch.old x }
    ensures { EachWay table.now.bytes.now table.now.counts log.now c span x scratch.old scratch.new result }
{
    if x.next < c.limit {
        if x.left == 0 {
            return ControlFlow::Break(Tried::GivenUp);
        }
        return try_record(table, log, scratch, c, span, x);
    }
    if x.place == span.low {
        return ControlFlow::Break(Tried::Nothing);
    }
    let y = return_back(table, log, scratch, x);
    ControlFlow::Continue(follow(log, scratch, c, y, x.left))
}

// Looks for the first accepting path of the rest from letter `low` on, from the state g, by the records below the limit. It tries so many records at most; what
// it leaves on the stack, unless it finds the path, and whether it gives up is not decided.
pub fn attempt(
    table: &Accepted,
    log: &[u8],
    scratch: &mut [u8],
    c: Scope,
    span: Span,
    g: Group,
    tries: usize,
) -> Tried
    requires { Ready table.now.bytes.now table.now.counts log.now c span g scratch.old }
    ensures { Attempted table.now.bytes.now table.now.counts log.now c span g scratch.old scratch.new result }
{
    let state = pack(zeroed(table.counts, g));
    let mut x = enter(table, log, scratch, c, span.low, state, tries);
    loop {
        match take_turn(table, log, scratch, c, span, x) {
            ControlFlow::Continue(y) => x = y,
            ControlFlow::Break(a) => return a,
        }
    }
}
