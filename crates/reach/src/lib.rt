// The calls answer and run: whether a run joins the start and the watched set, and such a run.
#![tactic(auto)]

ghost use Rattle.std.specs.Prelude.{◌≡◌, ℕ, List, Err};
ghost use Rattle.model.specs.Calls.{capacity, answer_call, refused_by, run_call};
ghost use Rattle.model.specs.Demands.{LogHolds, Demand3};
ghost use Rattle.reach.specs.Outcomes.{LogLeft, Answers, Runs};

use buffers::clear;
use model::{AnswerAndRun, Refusal, Run, SHORT_LOG, SHORT_SCRATCH, Verdict};
use reading::read;
use records::{RECORD_LENGTH, clear_behind};
use saturate::{Full, saturate};
use scratch::{NEEDED, NEEDED_PER_RECORD};
use table::Accepted;
use verdict::{Held, answer_and_run_limit, answer_limit};

const MOST_RECORDS: usize = 65535;

// The number of whole records that a log of this length can hold, at most 65,535.
fn records_in(size: usize) -> usize
    ensures { result ≡ capacity size }
{
    (size / RECORD_LENGTH).min(MOST_RECORDS)
}

// Fills the log with the limit's records, then zeros. Refused by 15 for a short scratch, and by 10 for a log that is too short for them, which is left zero,
// and so is the scratch.
fn fill_log(table: &Accepted, log: &mut [u8], scratch: &mut [u8]) -> Result<Held, Refusal>
    ensures { LogLeft table.now.bytes.now table.now.counts log.old scratch.old result log.new scratch.new }
{
    let room = records_in(log.len());
    if scratch.len() < NEEDED + NEEDED_PER_RECORD * room {
        return Err(Refusal {
            number: SHORT_SCRATCH,
            place: 0,
        });
    }
    // A table of its own, so that the compiler keeps its counts while the scratch is written.
    let own = *table;
    match saturate(&own, log, scratch, room) {
        Ok(limit) => {
            clear_behind(log, limit.count);
            Ok(Held {
                room,
                count: limit.count,
                rounds: limit.rounds as u32,
            })
        }
        Err(Full) => {
            clear(log);
            clear(scratch);
            Err(Refusal {
                number: SHORT_LOG,
                place: 0,
            })
        }
    }
}

// The answer for an accepted table. Not the first half of `answer_and_run_table`, since it has no page to lend.
fn answer_table(table: &Accepted, log: &mut [u8], scratch: &mut [u8]) -> Result<Verdict, Refusal>
    ensures { Answers (answer_call table.now.bytes.now log.old scratch.old) result log.new scratch.new }
{
    let held = fill_log(table, log, scratch)?;
    Ok(answer_limit(table, log, scratch, held))
}

// Both calls refused alike.
fn refused(refusal: Refusal) -> AnswerAndRun
    ensures { (result.answered ≡ Err refusal) × (result.ran ≡ Err refusal) }
{
    AnswerAndRun {
        answered: Err(refusal),
        ran: Err(refusal),
    }
}

// The answer and the run for an accepted table.
fn answer_and_run_table(
    table: &Accepted,
    log: &mut [u8],
    scratch: &mut [u8],
    page: &mut [u16],
) -> AnswerAndRun
    ensures answer { Answers (answer_call table.now.bytes.now log.old scratch.old) result.answered log.new scratch.new }
    ensures run { Runs (run_call table.now.bytes.now log.old scratch.old page.old) result.ran log.new scratch.new page.new }
{
    match fill_log(table, log, scratch) {
        Err(refusal) => refused(refusal),
        Ok(held) => answer_and_run_limit(table, log, scratch, page, held),
    }
}

// Document 01, the answer call: the verdict with transitions, rounds and steps, or a refusal. The three clauses are the mission's demands: what the
// call gives and leaves in every buffer; the log in the paper's terms; the verdict in terms of runs.
pub fn answer(table: &[u8], log: &mut [u8], scratch: &mut [u8]) -> Result<Verdict, Refusal>
    ensures demand_1 { Answers (answer_call table.now log.old scratch.old) result log.new scratch.new }
    ensures demand_2 { LogHolds table.now (refused_by result) log.new }
    ensures demand_3 { (page : List ℕ) → Demand3 table.now log.old scratch.old page result (run_call table.now log.old scratch.old page).answer (run_call table.now log.old scratch.old page).page }
{
    let counts = read(table)?;
    let accepted = Accepted {
        bytes: table,
        counts,
    };
    answer_table(&accepted, log, scratch)
}

// Request 2.3: the answer call and the run call of the same buffers, by one saturation. The first two clauses are the outcomes of the two calls, which leave the
// same log and scratch; the others are as those of `answer` and `run`.
pub fn answer_and_run(
    table: &[u8],
    log: &mut [u8],
    scratch: &mut [u8],
    page: &mut [u16],
) -> AnswerAndRun
    ensures answer { Answers (answer_call table.now log.old scratch.old) result.answered log.new scratch.new }
    ensures run { Runs (run_call table.now log.old scratch.old page.old) result.ran log.new scratch.new page.new }
    ensures demand_2 { LogHolds table.now (refused_by result.ran) log.new }
    ensures demand_3 { Demand3 table.now log.old scratch.old page.old result.answered result.ran page.new }
{
    match read(table) {
        Err(refusal) => refused(refusal),
        Ok(counts) => {
            let accepted = Accepted {
                bytes: table,
                counts,
            };
            answer_and_run_table(&accepted, log, scratch, page)
        }
    }
}

// Document 01, the run call: also a run that joins the start and the watched set, on the page, and its peak. The clauses are as those of `answer`.
pub fn run(
    table: &[u8],
    log: &mut [u8],
    scratch: &mut [u8],
    page: &mut [u16],
) -> Result<Run, Refusal>
    ensures demand_1 { Runs (run_call table.now log.old scratch.old page.old) result log.new scratch.new page.new }
    ensures demand_2 { LogHolds table.now (refused_by result) log.new }
    ensures demand_3 { Demand3 table.now log.old scratch.old page.old (answer_call table.now log.old scratch.old).answer result page.new }
{
    let both = answer_and_run(table, log, scratch, page);
    both.ran
}
