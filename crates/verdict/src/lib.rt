// What the answer and the run come to where the log holds the limit: the start's path gives the verdict, and unfolds into the run.
#![tactic(auto)]

ghost use Rattle.std.specs.Prelude.{◌≡◌, Ok};
ghost use Rattle.model.specs.Calls.{zeros, verdict, start_path, is_long};
ghost use Rattle.model.specs.Log.{limit};
ghost use Rattle.table.specs.Reading.{saturated_in};
ghost use Rattle.verdict.specs.Verdicts.{stated, AtLimit, PathOnStack, RunLeft};

use buffers::{clear, clear_numbers_from};
use model::{AnswerAndRun, LONG_RUN, LONGEST_RUN, NO_RUN, Refusal, Run, Verdict};
use start::find;
use table::Accepted;
use unfold::unfold;

// What the log holds: the records of the limit, `count` of those that it has `room` for, and the last round that added one.
#[derive(Clone, Copy)]
pub struct Held {
    pub room: usize,
    pub count: usize,
    pub rounds: u32,
}

// The verdict by the steps of the start's path, if there is one.
fn stated_verdict(path: Option<u32>, transitions: u32, rounds: u32) -> Verdict
    ensures { result ≡ stated path transitions rounds }
{
    match path {
        None => Verdict::Unreachable {
            transitions,
            rounds,
        },
        Some(steps) => Verdict::Reachable {
            transitions,
            rounds,
            steps,
        },
    }
}

// The verdict on the start, where the log holds the limit.
pub fn answer_limit(table: &Accepted, log: &[u8], scratch: &mut [u8], held: Held) -> Verdict
    requires { AtLimit table.now.bytes.now table.now.counts log.now held scratch.old }
    ensures { (result ≡ verdict (limit (saturated_in table.now.bytes.now)) (start_path (saturated_in table.now.bytes.now))) × (scratch.new ≡ zeros scratch.old) }
{
    let path = find(table, log, scratch, held.room, held.count);
    clear(scratch);
    stated_verdict(path, held.count as u32, held.rounds)
}

// Whether so many steps are no run for a page of this length.
fn is_long(steps: u32, room: usize) -> bool
    ensures { result ≡ is_long steps room }
{
    room < steps as usize || LONGEST_RUN < steps
}

// The run of a path that is on the stack, unless it is long.
fn write_run(
    table: &Accepted,
    log: &[u8],
    scratch: &mut [u8],
    page: &mut [u16],
    held: Held,
    steps: u32,
) -> Result<Run, Refusal>
    requires { PathOnStack table.now.bytes.now table.now.counts log.now held.count held.rounds steps scratch.old }
    ensures { RunLeft table.now.bytes.now scratch.old page.old result scratch.new page.new }
{
    if is_long(steps, page.len()) {
        clear(scratch);
        return Err(Refusal {
            number: LONG_RUN,
            place: 0,
        });
    }
    let peak = unfold(table, log, scratch, page, held.count, table.counts.pile);
    clear_numbers_from(page, steps as usize);
    clear(scratch);
    Ok(Run {
        transitions: held.count as u32,
        rounds: held.rounds,
        steps,
        peak,
    })
}

// The verdict on the start and the run from it, by one search for the start's path, where the log holds the limit.
pub fn answer_and_run_limit(
    table: &Accepted,
    log: &[u8],
    scratch: &mut [u8],
    page: &mut [u16],
    held: Held,
) -> AnswerAndRun
    requires { AtLimit table.now.bytes.now table.now.counts log.now held scratch.old }
    ensures answer { result.answered ≡ Ok (verdict (limit (saturated_in table.now.bytes.now)) (start_path (saturated_in table.now.bytes.now))) }
    ensures run { RunLeft table.now.bytes.now scratch.old page.old result.ran scratch.new page.new }
{
    let path = find(table, log, scratch, held.room, held.count);
    let answered = Ok(stated_verdict(path, held.count as u32, held.rounds));
    match path {
        None => {
            clear(scratch);
            let ran = Err(Refusal {
                number: NO_RUN,
                place: 0,
            });
            AnswerAndRun { answered, ran }
        }
        Some(steps) => {
            let ran = write_run(table, log, scratch, page, held, steps);
            AnswerAndRun { answered, ran }
        }
    }
}
