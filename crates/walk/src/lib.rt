// The walk call: rules fired one after the other from the table's start. While it walks, the word stands at the end of the pile buffer.
#![tactic(auto)]

ghost use Rattle.std.specs.Prelude.{◌≡◌, ◌-◌, ◌≤◌, ◌++◌, length, drop, get_or};
ghost use Rattle.model.specs.Calls.{zeros, walk_scratch, walk_from, walk_call, walk_figures, watched_figure};
ghost use Rattle.model.specs.Demands.{Demand2Walk, TookPart};
ghost use Rattle.table.specs.Reading.{system_in};
ghost use Rattle.firing.specs.Piles.{configuration};
ghost use Rattle.steps.specs.Stepping.{InShape};
ghost use Rattle.walk.specs.Walking.{Halts, HaltsOr, Stopped, Walks, answer_at, halted_before, outcome_of, place_in};

use acceptance::is_accepted;
use buffers::clear;
use model::{Ending, FULL_PILE, Placed, Refusal, SHORT_SCRATCH};
use reading::read;
use scratch::NEEDED_BY_WALK;
use steps::{bring_front, place_start, take_step};
use table::{Accepted, Table};

// A walk's figures: eight of its answer, and a count for each process.
pub const FIGURES: usize = 8 + Table::PROCESSES;

// No walk has so many steps.
const UNBOUNDED: u64 = u64::MAX;

// Where the steps stopped: the number of the refusal, if it isn't the list's end; the step; the configuration there; and of the steps before it how many each
// process took part in.
#[derive(Clone, Copy)]
pub struct Stop {
    pub refusal: Option<u8>,
    pub at: usize,
    pub placed: Placed,
    pub counts: [u64; Table::PROCESSES],
}

// What a walk gives, the steps that each process took part in, and where the part of the list begins that it hands back.
#[derive(Clone, Copy)]
pub struct Halted {
    pub answer: Result<Ending, Refusal>,
    pub counts: [u64; Table::PROCESSES],
    pub from: usize,
}

// ---- the steps
// Takes the steps of the list, up to the first that is refused.
fn take_steps(table: &Accepted, list: &[u16], pile: &mut [u8], start: Placed) -> Stop
    requires { InShape table.now.counts pile.old start }
    ensures { Stopped table.now.bytes.now table.now.counts list.now (walk_from (system_in table.now.bytes.now) (length pile.old) 0 list.now (configuration pile.old start)) pile.new result }
{
    let mut placed = start;
    let mut counts = [0; Table::PROCESSES];
    for k in 0..list.len() {
        match take_step(
            table,
            usize::from(list[k]),
            pile,
            placed,
            &mut counts,
            UNBOUNDED,
        ) {
            Ok(fired) => placed = fired.placed,
            Err(number) => {
                return Stop {
                    refusal: Some(number),
                    at: k,
                    placed,
                    counts,
                };
            }
        }
    }
    Stop {
        refusal: None,
        at: list.len(),
        placed,
        counts,
    }
}

// ---- the end
// What the walk gives where its steps stopped. The scratch is left zero.
fn conclude(
    table: &Accepted,
    pile: &[u8],
    stop: Stop,
    scratch: &mut [u8],
) -> Result<Ending, Refusal>
    requires { InShape table.now.counts pile.now stop.placed × (walk_scratch ≤ length scratch.old) }
    ensures { (result ≡ answer_at (system_in table.now.bytes.now) stop (configuration pile.now stop.placed)) × (scratch.new ≡ zeros scratch.old) }
{
    if let Some(number) = stop.refusal {
        clear(scratch);
        return Err(Refusal {
            number,
            place: stop.at,
        });
    }
    let states = stop.placed.states;
    let top = stop.placed.top;
    let watched = is_accepted(table, &pile[top..], states, scratch);
    Ok(Ending {
        states,
        length: pile.len() - top,
        watched,
    })
}

// ---- the call
// A walk whose start pile fits.
fn walk_placed(table: &Accepted, list: &[u16], pile: &mut [u8], scratch: &mut [u8]) -> Halted
    requires { (table.now.counts.pile ≤ length pile.old) × (walk_scratch ≤ length scratch.old) }
    ensures { Halts (outcome_of (system_in table.now.bytes.now) list.now (walk_from (system_in table.now.bytes.now) (length pile.old) 0 list.now (system_in table.now.bytes.now).start) pile.old scratch.old) list.now result pile.new scratch.new }
{
    let start = place_start(table, pile);
    let stop = take_steps(table, list, pile, start);
    let answer = conclude(table, pile, stop, scratch);
    bring_front(pile, stop.placed.top);
    let counts = stop.counts;
    Halted {
        answer,
        counts,
        from: stop.at,
    }
}

// Refused before the first step: the empty part is handed back.
fn halt_before(refusal: Refusal, list: &[u16]) -> Halted
    ensures { result ≡ halted_before refusal (length list.now) }
{
    Halted {
        answer: Err(refusal),
        counts: [0; Table::PROCESSES],
        from: list.len(),
    }
}

// A walk over an accepted table. Refused by 15 for a short scratch, then by 14 for a start pile that is longer than the buffer.
fn walk_accepted(
    table: &Accepted,
    list: &[u16],
    pile: &mut [u8],
    scratch: &mut [u8],
) -> Result<Halted, Refusal>
    ensures { HaltsOr (walk_call table.now.bytes.now list.now pile.old scratch.old) list.now result pile.new scratch.new }
{
    if scratch.len() < NEEDED_BY_WALK {
        return Err(Refusal {
            number: SHORT_SCRATCH,
            place: 0,
        });
    }
    if pile.len() < table.counts.pile {
        clear(scratch);
        return Err(Refusal {
            number: FULL_PILE,
            place: 0,
        });
    }
    Ok(walk_placed(table, list, pile, scratch))
}

fn walk_table(
    table: &[u8],
    list: &[u16],
    pile: &mut [u8],
    scratch: &mut [u8],
) -> Result<Halted, Refusal>
    ensures { HaltsOr (walk_call table.now list.now pile.old scratch.old) list.now result pile.new scratch.new }
{
    let counts = read(table)?;
    let accepted = Accepted {
        bytes: table,
        counts,
    };
    walk_accepted(&accepted, list, pile, scratch)
}

// The walk, where it is not refused before its first step, or that refusal.
fn halt(table: &[u8], list: &[u16], pile: &mut [u8], scratch: &mut [u8]) -> Halted
    ensures { Halts (walk_call table.now list.now pile.old scratch.old) list.now result pile.new scratch.new }
{
    match walk_table(table, list, pile, scratch) {
        Ok(halted) => halted,
        Err(refusal) => halt_before(refusal, list),
    }
}

// 1 watched, 2 not watched; 0 stands where there is no answer.
fn watched_figure(watched: bool) -> u64
    ensures { result ≡ watched_figure watched }
{
    if watched {
        return 1;
    }
    2
}

// Document 01's number and values: the refusal's number, its place, watched or not, pile length, end states; then request 2.5's counts.
fn put_figures(
    figures: &mut [u64; FIGURES],
    answer: Result<Ending, Refusal>,
    counts: [u64; Table::PROCESSES],
)
    requires { length counts ≡ 4 }
    ensures { figures.new ≡ walk_figures answer ++ counts }
{
    match answer {
        Ok(end) => {
            *figures = [
                0,
                0,
                watched_figure(end.watched),
                end.length as u64,
                u64::from(end.states.s0),
                u64::from(end.states.s1),
                u64::from(end.states.s2),
                u64::from(end.states.s3),
                counts[0],
                counts[1],
                counts[2],
                counts[3],
            ];
        }
        Err(refusal) => {
            *figures = [
                u64::from(refusal.number),
                refusal.place as u64,
                0,
                0,
                0,
                0,
                0,
                0,
                counts[0],
                counts[1],
                counts[2],
                counts[3],
            ];
        }
    }
}

// Walks the list of rules over the table. Hands back the part of the list from the refused step on, the empty part in any other case. Two clauses are the
// mission's demands: what the call gives and leaves in every buffer; its steps, taken and refused, in the paper's terms. Between them stands where the part
// lies, and behind them request 2.5: who took part in the steps.
pub fn walk<'a>(
    table: &[u8],
    list: &'a [u16],
    pile: &mut [u8],
    scratch: &mut [u8],
    figures: &mut [u64; FIGURES],
) -> &'a [u16]
    ensures demand_1 { Walks (walk_call table.now list.now pile.old scratch.old) figures.new result.now pile.new scratch.new }
    ensures part_by_place { result.ref_ptr ≡ place_in list.entry.ref_ptr (length list.now - length result.now) }
    ensures demand_2 { Demand2Walk table.now list.now scratch.old figures.new pile.new }
    ensures request_2_5 { TookPart table.now list.now (get_or figures.new 0 0) (get_or figures.new 1 0) (drop 8 figures.new) }
{
    let halted = halt(table, list, pile, scratch);
    put_figures(figures, halted.answer, halted.counts);
    &list[halted.from..]
}
