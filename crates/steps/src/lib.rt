// What a walk and a desk have in common: the start's word put at the end of a buffer, one step there, the count of who took part, and the word moved to the
// front.
#![tactic(auto)]

ghost use Rattle.std.specs.Prelude.{◌≡◌, ◌+◌, ◌<◌, ◌≤◌, min, length, drop};
ghost use Rattle.std.proofs.Math.Seq.{paste};
ghost use Rattle.model.specs.Calls.{filled};
ghost use Rattle.model.specs.Groups.{Process, bit, has, number_of, processes_of};
ghost use Rattle.model.specs.Participation.{with_step};
ghost use Rattle.table.specs.Reading.{Holds, system_in};
ghost use Rattle.steps.specs.Stepping.{InShape, StartPlaced, StepTo, counts_by};

use buffers::{clear, move_front};
use firing::{Fired, Stuck, fire};
use model::{FULL_PILE, IDLE_RULE, NO_RULE, Placed};
use table::{Accepted, Table, has_process};

// ---- the start
// Writes the start's word from a place on.
fn write_start(table: &Accepted, pile: &mut [u8], at: usize)
    requires { at + table.now.counts.pile ≤ length pile.old }
    ensures { pile.new ≡ paste pile.old at (system_in table.now.bytes.now).start.word table.now.counts.pile }
{
    // in the table's bytes a mark stands before each letter, so they are no slice
    for j in 0..table.counts.pile {
        pile[at + j] = table.pile_letter(j);
    }
}

// Puts the start's word at the end of the buffer.
pub fn place_start(table: &Accepted, pile: &mut [u8]) -> Placed
    requires { table.now.counts.pile ≤ length pile.old }
    ensures { StartPlaced table.now.bytes.now table.now.counts pile.old pile.new result }
{
    let top = pile.len() - table.counts.pile;
    write_start(table, pile, top);
    Placed {
        states: table.start_group(),
        top,
    }
}

// ---- who took part
// One step more where the process took part in it, up to the ceiling.
fn one_more(count: u64, part: bool, ceiling: u64) -> u64
    ensures { result ≡ min ceiling (count + bit part) }
{
    count.saturating_add(u64::from(part)).min(ceiling)
}

// One step more at each process in bits. A count stops at the ceiling.
fn count_step(counts: &mut [u64; Table::PROCESSES], bits: u8, ceiling: u64)
    ensures { counts.new ≡ with_step ceiling (processes_of bits) counts.old }
{
    for i in 0..Table::PROCESSES {
        counts[i] = one_more(counts[i], has_process(bits, i), ceiling);
    }
}

// ---- a step
// Fires the rule n, and counts the step for each process that takes part; or the number of its refusal. The order of the refusals: 13, 12, 14.
pub fn take_step(
    table: &Accepted,
    n: usize,
    pile: &mut [u8],
    c: Placed,
    counts: &mut [u64; Table::PROCESSES],
    ceiling: u64,
) -> Result<Fired, u8>
    requires { InShape table.now.counts pile.old c }
    ensures { StepTo table.now.bytes.now table.now.counts n c pile.old pile.new result × (counts.new ≡ counts_by result ceiling counts.old) }
{
    if table.counts.rules <= n {
        return Err(NO_RULE);
    }
    match fire(table, n, pile, c) {
        Ok(fired) => {
            count_step(counts, fired.processes, ceiling);
            Ok(fired)
        }
        Err(Stuck::Idle) => Err(IDLE_RULE),
        Err(Stuck::Full) => Err(FULL_PILE),
    }
}

// ---- the end
// Moves the word to the front of the buffer and zeroes the rest.
pub fn bring_front(pile: &mut [u8], top: usize)
    requires { top ≤ length pile.old }
    ensures { pile.new ≡ filled (drop top pile.old) pile.old }
{
    let count = pile.len() - top;
    move_front(pile, top, count);
    clear(&mut pile[count..]);
}
