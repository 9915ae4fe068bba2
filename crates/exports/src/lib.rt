// The calls for C and Rust. Here the three of document 01: slices as pointer and length, the answer as 16 numbers. The clauses of each are the mission's
// demands, in figures; `word` is demand 3 without its premises. The desk's calls are in
// desks.rt, the plan in planning.rt.
#![tactic(auto)]

mod desks;
mod planning;

ghost use Rattle.std.specs.Prelude.{◌≡◌, ◌∷◌, [], ◌++◌, length, get_or, take, drop};
ghost use Rattle.model.specs.Calls.{answer_call, run_call, walk_call, answer_figures, run_figures};
ghost use Rattle.model.specs.Demands.{LogHolds, Demand2Walk, TookPart};
ghost use Rattle.exports.specs.Figures.{sixteen, AnswerLeaves, RunLeaves, WalkLeaves, Word, RunWord, AnswerDemand, RunDemand};

use model::{Refusal, Run, Verdict};
use walk::FIGURES;

// The verdict figure: 0 is no verdict, so that figures of no call, or of a refused one, never pass for one.
const NO_VERDICT: u64 = 0;

const REACHABLE: u64 = 1;

const UNREACHABLE: u64 = 2;

// The figures of an answer or a run; a place that a case does not name is 0.
fn put(
    figures: &mut [u64; 16],
    number: u8,
    place: usize,
    verdict: u64,
    transitions: u32,
    rounds: u32,
    steps: u32,
    peak: u32,
)
    ensures { figures.new ≡ sixteen (number ∷ place ∷ verdict ∷ transitions ∷ rounds ∷ steps ∷ peak ∷ []) }
{
    *figures = [
        number as u64,
        place as u64,
        verdict,
        transitions as u64,
        rounds as u64,
        steps as u64,
        peak as u64,
        0,
        0,
        0,
        0,
        0,
        0,
        0,
        0,
        0,
    ];
}

// The figures of a refusal.
fn put_refused(figures: &mut [u64; 16], refusal: Refusal)
    ensures { figures.new ≡ sixteen (refusal.number ∷ refusal.place ∷ []) }
{
    put(
        figures,
        refusal.number,
        refusal.place,
        NO_VERDICT,
        0,
        0,
        0,
        0,
    );
}

fn put_answer(figures: &mut [u64; 16], answered: Result<Verdict, Refusal>)
    ensures { figures.new ≡ sixteen (answer_figures answered) }
{
    match answered {
        Ok(
            Verdict::Reachable {
                transitions,
                rounds,
                steps,
            },
        ) => put(figures, 0, 0, REACHABLE, transitions, rounds, steps, 0),
        Ok(
            Verdict::Unreachable {
                transitions,
                rounds,
            },
        ) => put(figures, 0, 0, UNREACHABLE, transitions, rounds, 0, 0),
        Err(refusal) => put_refused(figures, refusal),
    }
}

fn put_run(figures: &mut [u64; 16], ran: Result<Run, Refusal>)
    ensures { figures.new ≡ sixteen (run_figures ran) }
{
    match ran {
        Ok(run) => put(
            figures,
            0,
            0,
            REACHABLE,
            run.transitions,
            run.rounds,
            run.steps,
            run.peak,
        ),
        Err(refusal) => put_refused(figures, refusal),
    }
}

// The eight figures of the walk's answer, then where the part handed back begins, then the walk's counts.
fn put_walk(figures: &mut [u64; 16], values: &[u64; FIGURES], from: usize)
    requires { length values.now ≡ 12 }
    ensures { figures.new ≡ sixteen (take 8 values.now ++ (from ∷ drop 8 values.now)) }
{
    *figures = [
        values[0],
        values[1],
        values[2],
        values[3],
        values[4],
        values[5],
        values[6],
        values[7],
        from as u64,
        values[8],
        values[9],
        values[10],
        values[11],
        0,
        0,
        0,
    ];
}

// Document 01, the answer call.
#[unsafe(no_mangle)]
pub extern "C" fn roskavel_answer(
    table: &[u8],
    log: &mut [u8],
    scratch: &mut [u8],
    figures: &mut [u64; 16],
)
    ensures demand_1 { AnswerLeaves (answer_call table.now log.old scratch.old) figures.new log.new scratch.new }
    ensures demand_2 { LogHolds table.now (get_or figures.new 0 0) log.new }
    ensures demand_3 { AnswerDemand table.now log.old scratch.old figures.new }
    ensures word { Word table.now figures.new }
{
    let answered = reach::answer(table, log, scratch);
    put_answer(figures, answered);
}

// Document 01, the run call.
#[unsafe(no_mangle)]
pub extern "C" fn roskavel_run(
    table: &[u8],
    log: &mut [u8],
    scratch: &mut [u8],
    page: &mut [u16],
    figures: &mut [u64; 16],
)
    ensures demand_1 { RunLeaves (run_call table.now log.old scratch.old page.old) figures.new log.new scratch.new page.new }
    ensures demand_2 { LogHolds table.now (get_or figures.new 0 0) log.new }
    ensures demand_3 { RunDemand table.now log.old scratch.old page.old figures.new page.new }
    ensures word { RunWord table.now figures.new page.new }
{
    let ran = reach::run(table, log, scratch, page);
    put_run(figures, ran);
}

// Document 01, the walk call; `request_2_5` is who took part, in figures.
#[unsafe(no_mangle)]
pub extern "C" fn roskavel_walk(
    table: &[u8],
    rules: &[u16],
    pile: &mut [u8],
    scratch: &mut [u8],
    figures: &mut [u64; 16],
)
    ensures demand_1 { WalkLeaves (walk_call table.now rules.now pile.old scratch.old) (length rules.now) figures.new pile.new scratch.new }
    ensures demand_2 { Demand2Walk table.now rules.now scratch.old figures.new pile.new }
    ensures request_2_5 { TookPart table.now rules.now (get_or figures.new 0 0) (get_or figures.new 1 0) (take 4 (drop 9 figures.new)) }
{
    let mut values = [0u64; FIGURES];
    let rest = walk::walk(table, rules, pile, scratch, &mut values);
    let from = rules.len() - rest.len();
    put_walk(figures, &values, from);
}
