// The unfolding of a path of the limit into a run, with a stack of record numbers in scratch: the record on top goes; unless it is of round 0,
// its rule is written to the page, and its path takes its place.
#![tactic(auto)]

ghost use Rattle.std.specs.Prelude.{◌≡◌, ◌+◌, ◌-◌, ◌<◌, ◌≤◌, length};
ghost use Rattle.model.specs.Tables.{written_places};
ghost use Rattle.records.specs.Entries.{HasRecord};
ghost use Rattle.table.specs.Reading.{saturated_in};
ghost use Rattle.scratch.specs.StackNumbers.{stack_of};
ghost use Rattle.model.specs.Calls.{scratch_for};
ghost use Rattle.logs.specs.RoundLogs.{LimitLog};
ghost use Rattle.lengths.specs.Projections.{ChangesNoted};
ghost use Rattle.unfold.specs.Runs.{Unfoldable, Unfolded};
ghost use Rattle.unfold.specs.Turns.{path_length, place_below, places, StackRoom, Pushed, Replaceable, Replaced, Workable, Worked};

use lengths::{Changes, Lengths, add_change, highest, note_changes, raise, start_lengths};
use model::WRITTEN_PLACES;
use records::{NO_NUMBER, place_at, round_at, rule_at};
use scratch::stack::{number_at, put_number};
use table::{Accepted, Table};

// The height of the stack; of the run so far its rules, and of each process the length of its projection of the word after it and the greatest so far,
// both counted with the rules, so that neither ever falls.
#[derive(Clone, Copy)]
pub struct Work {
    pub top: usize,
    pub rules: usize,
    pub lengths: Lengths,
    pub highest: Lengths,
}

// How many numbers the path of record x has.
fn path_length(log: &[u8], x: usize) -> usize
    requires { HasRecord log.now x }
    ensures { result ≡ path_length log.now x }
{
    for n in 0..WRITTEN_PLACES {
        if place_at(log, x, n) == NO_NUMBER {
            return n;
        }
    }
    WRITTEN_PLACES
}

// Pushes path place j of record x, if it is one of the first n.
fn push_place(log: &[u8], scratch: &mut [u8], top: usize, x: usize, j: usize, n: usize) -> usize
    requires { HasRecord log.now x × (j < written_places) × StackRoom scratch.old (top + length (place_below log.now x j n)) }
    ensures { Pushed scratch.old top (place_below log.now x j n) scratch.new result }
{
    if n <= j {
        return top;
    }
    let place = place_at(log, x, j);
    put_number(scratch, top, place);
    top + 1
}

// Pushes the path of record x, the last number first, so that the first comes to be on top. The turns are as many for each path, so that the compiler lays
// them out one after the other.
fn push_path(log: &[u8], scratch: &mut [u8], top: usize, x: usize) -> usize
    requires { HasRecord log.now x × StackRoom scratch.old (top + length (places log.now x)) }
    ensures { Pushed scratch.old top (places log.now x) scratch.new result }
{
    let n = path_length(log, x);
    let mut height = top;
    for j in (0..WRITTEN_PLACES).rev() {
        height = push_place(log, scratch, height, x, j, n);
    }
    height
}

// The record x, which is on top, gives way to its path.
fn replace(
    changes: &Changes,
    log: &[u8],
    scratch: &mut [u8],
    page: &mut [u16],
    w: &mut Work,
    x: usize,
)
    requires { HasRecord log.now x × (0 < w.old.top) × Replaceable changes.now log.now scratch.old page.old w.old x }
    ensures { Replaced changes.now log.now scratch.old page.old w.old x scratch.new page.new w.new }
{
    let rule = rule_at(log, x);
    page[w.rules] = rule;
    w.rules += 1;
    w.top = push_path(log, scratch, w.top - 1, x);
    add_change(changes, usize::from(rule), &mut w.lengths);
    raise(&mut w.highest, &w.lengths);
}

// One record is taken off the stack.
fn work_one(changes: &Changes, log: &[u8], scratch: &mut [u8], page: &mut [u16], w: &mut Work)
    requires { Workable changes.now log.now scratch.old page.old w.old }
    ensures { Worked changes.now log.now scratch.old page.old w.old scratch.new page.new w.new }
{
    let x = number_at(scratch, w.top - 1);
    if round_at(log, x) == 0 {
        w.top -= 1;
    } else {
        replace(changes, log, scratch, page, w, x);
    }
}

// Unfolds the stack of `top` record numbers, where the changes of the rules are noted.
fn work_off(
    table: &Accepted,
    changes: &Changes,
    log: &[u8],
    scratch: &mut [u8],
    page: &mut [u16],
    count: usize,
    top: usize,
) -> u32
    requires { LimitLog table.now.bytes.now table.now.counts log.now count × (scratch_for count ≤ length scratch.old) × Unfoldable (saturated_in table.now.bytes.now) (stack_of scratch.old top) page.old × ChangesNoted table.now.bytes.now table.now.counts.rules changes.now }
    ensures { Unfolded (saturated_in table.now.bytes.now) (stack_of scratch.old top) page.old page.new result }
{
    let lengths = start_lengths(table);
    let mut w = Work {
        top,
        rules: 0,
        lengths,
        highest: lengths,
    };
    while 0 < w.top {
        work_one(changes, log, scratch, page, &mut w);
    }
    highest(&w.highest) - (w.rules as u32)
}

// The stack holds `top` record numbers. Writes the rules that they emit to the page, and gives the peak. What it leaves in the scratch is not decided.
pub fn unfold(
    table: &Accepted,
    log: &[u8],
    scratch: &mut [u8],
    page: &mut [u16],
    count: usize,
    top: usize,
) -> u32
    requires { LimitLog table.now.bytes.now table.now.counts log.now count × (scratch_for count ≤ length scratch.old) × Unfoldable (saturated_in table.now.bytes.now) (stack_of scratch.old top) page.old }
    ensures { Unfolded (saturated_in table.now.bytes.now) (stack_of scratch.old top) page.old page.new result }
{
    let mut changes = [[0; Table::PROCESSES]; Table::RULES];
    note_changes(table, &mut changes);
    work_off(table, &changes, log, scratch, page, count, top)
}
