// The path from the start by the sets: at each letter the lowest record that leads into the next set. And the steps of a path.
ghost use Rattle.std.specs.Prelude.{◌≡◌, true, ℕ, ◌+◌, ◌^◌, ◌<◌, ◌≤◌, min, length};
ghost use Rattle.model.specs.Groups.{processes_of, merge};
ghost use Rattle.model.specs.Lists.{Each, sum_over};
ghost use Rattle.model.specs.Log.{steps_cap};
ghost use Rattle.model.specs.Records.{after_at, steps_at};
ghost use Rattle.states.specs.StateNumbers.{state_number};
ghost use Rattle.states.specs.StateSets.{set_length, member};
ghost use Rattle.records.specs.Entries.{HasRecord};
ghost use Rattle.scratch.specs.StackNumbers.{stack_place, stack_of};
ghost use Rattle.logs.specs.RoundLogs.{EachRound};
ghost use Rattle.leaders.specs.Leaders.{Linked};
ghost use Rattle.rests.specs.Rests.{set_at, first_lead};
ghost use Rattle.start.specs.Search.{SetsReady, start_in, Underway, Advanced, PathOn};

use model::Group;
use packs::pack;
use records::{STEPS_CAP, after_at, steps_at};
use rests::{Letter, Scope, letter_at, zeroed};
use rings::Rings;
use scratch::stack::{number_at, put_number};
use scratch::{RINGS, SET_BYTES};
use states::groups::{merged, restricted};
use states::numbering::number;
use states::sets::contains;
use table::Accepted;

// Whether record r leads from the state g into the set at a byte, where it reads a letter of the processes in bits.
fn enters(log: &[u8], scratch: &[u8], at: usize, bits: u8, g: Group, r: usize) -> bool
    requires { HasRecord log.now r × (at + set_length ≤ length scratch.now) }
    ensures { result ≡ member (set_at scratch.now at) (state_number (merge (processes_of bits) (after_at log.now r) g)) }
{
    let after = after_at(log, r);
    let x = number(merged(bits, after, g));
    contains(&scratch[at..at + SET_BYTES], x)
}

// The lowest record below the limit that reads the letter in the state g and leads into the set at a byte, or the limit.
fn first_lead(log: &[u8], scratch: &[u8], c: Scope, at: usize, a: Letter, g: Group) -> usize
    requires { Linked log.now c.count c.n scratch.now × (c.limit ≤ c.count) × (at + set_length ≤ length scratch.now) }
    ensures { result ≡ first_lead log.now c.limit (set_at scratch.now at) a g }
{
    let before = pack(restricted(a.bits, g));
    let rings = Rings::new(log, scratch, RINGS, c.n, c.count);
    let mut r = rings.first_match(a.number, before);
    while r < c.limit {
        if enters(log, scratch, at, a.bits, g, r) {
            return r;
        }
        r = rings.next_match(r, a.number, before);
    }
    c.limit
}

// The record for letter i, which goes to its place on the stack; gives the state behind it.
fn advance(table: &Accepted, log: &[u8], scratch: &mut [u8], c: Scope, i: usize, g: Group) -> Group
    requires { Underway table.now.bytes.now table.now.counts log.now c scratch.old i g }
    ensures { Advanced table.now.bytes.now table.now.counts log.now c i g scratch.old scratch.new result }
{
    let a = letter_at(table, i);
    let r = first_lead(
        log,
        scratch,
        c,
        SET_BYTES * (i + 1),
        a,
        zeroed(table.counts, g),
    );
    put_number(scratch, table.counts.pile - 1 - i, r as u16);
    let after = after_at(log, r);
    merged(a.bits, after, g)
}

// Writes the record numbers of the start's path to the stack, the first letter's on top.
pub fn write_path(table: &Accepted, log: &[u8], scratch: &mut [u8], c: Scope)
    requires { SetsReady table.now.bytes.now table.now.counts log.now c scratch.old × (start_in table.now.bytes.now table.now.counts scratch.old ≡ true) }
    ensures { EachRound table.now.bytes.now table.now.counts log.now c.limit (λ (round : ℕ). PathOn table.now.bytes.now table.now.counts round scratch.new) }
{
    let mut g = table.start_group();
    for i in 0..table.counts.pile {
        g = advance(table, log, scratch, c, i, g);
    }
}

fn add_steps(a: u32, b: u32) -> u32
    requires { (a ≤ steps_cap) × (b < 2 ^ 24) }
    ensures { result ≡ min (a + b) steps_cap }
{
    (a + b).min(STEPS_CAP)
}

// The steps of the records on the stack, so many of them, up to the cap.
pub fn path_steps(log: &[u8], scratch: &[u8], size: usize) -> u32
    requires { (stack_place size ≤ length scratch.now) × Each (HasRecord log.now) (stack_of scratch.now size) }
    ensures { result ≡ min (sum_over (steps_at log.now) (stack_of scratch.now size)) steps_cap }
{
    let mut steps = 0;
    for k in 0..size {
        steps = add_steps(steps, steps_at(log, number_at(scratch, k)));
    }
    steps
}
