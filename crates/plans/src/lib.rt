// Request 2.7: the plan of a run on the week.
#![tactic(auto)]

ghost use Rattle.std.specs.Prelude.{true, ◌++◌, ◌≡◌, ◌≤◌, ◌<◌, length, drop};
ghost use Rattle.model.specs.Groups.{processes_of};
ghost use Rattle.model.specs.Calls.{refused_at, refused_by};
ghost use Rattle.plan_model.specs.Hours.{PlanMeans, at_start, begin_of, begins_from, bound_of, ended_at, first_never, hours_fit, length_fits, lengths_fit, never_fits, plan_call, plan_fits, process_fits, run_fits, start_fits, step_of, steps_of, week_of, window_fits};
ghost use Rattle.table.specs.Reading.{system_in};
ghost use Rattle.hours.specs.Searching.{answered, step_by};
ghost use Rattle.plans.specs.Planning.{Judged, Near, Plans, plan_reach};

use hours::{Openings, Step};
use minutes::{after, later_of, start_fits};
use model::Refusal;
use plan_model::{BAD_HOURS, LONGEST_STEP, MOST_STEPS, NEVER_OPEN, WEEK, WINDOW_PLACES, Window};
use reading::read;
use table::{Accepted, Table, has_process};

// The last closing of a window.
const LAST_CLOSING: u16 = WEEK as u16;

// ---- check 19
fn window_fits(w: Window) -> bool
    ensures { result ≡ window_fits w }
{
    w.opens < w.closes && w.closes <= LAST_CLOSING
}

fn process_fits(windows: &[Window; WINDOW_PLACES], count: u8) -> bool
    ensures { result ≡ process_fits windows.now count }
{
    let n = usize::from(count);
    n <= WINDOW_PLACES && windows[..n].iter().all(|w| window_fits(*w))
}

fn hours_fit(
    processes: usize,
    hours: &[[Window; WINDOW_PLACES]; Table::PROCESSES],
    counts: &[u8; Table::PROCESSES],
) -> bool
    requires { processes ≤ 4 }
    ensures { result ≡ hours_fit processes hours.now counts.now }
{
    hours
        .iter()
        .zip(counts)
        .take(processes)
        .all(|(windows, count)| process_fits(windows, *count))
}

fn length_fits(n: u16) -> bool
    ensures { result ≡ length_fits n }
{
    (1..=LONGEST_STEP).contains(&n)
}

#[tactic(auto, unfolding(plan_model::specs::Hours::lengths_fit))]
fn lengths_fit(rules: usize, lengths: &[u16]) -> bool
    ensures { result ≡ lengths_fit rules lengths.now }
{
    rules <= lengths.len() && lengths[..rules].iter().all(|n| length_fits(*n))
}

#[tactic(auto, unfolding(plan_model::specs::Hours::run_fits))]
fn run_fits(rules: usize, run: &[u16]) -> bool
    ensures { result ≡ run_fits rules run.now }
{
    run.len() <= MOST_STEPS && run.iter().all(|n| usize::from(*n) < rules)
}

#[tactic(auto, unfolding(plan_model::specs::Hours::plan_fits))]
fn plan_fits(
    t: Table,
    run: &[u16],
    hours: &[[Window; WINDOW_PLACES]; Table::PROCESSES],
    counts: &[u8; Table::PROCESSES],
    lengths: &[u16],
    start: i64,
    room: usize,
) -> bool
    requires { t.processes ≤ 4 }
    ensures { result ≡ plan_fits t.processes t.rules run.now hours.now counts.now lengths.now start room }
{
    hours_fit(t.processes, hours, counts)
        && lengths_fit(t.rules, lengths)
        && start_fits(start)
        && run_fits(t.rules, run)
        && run.len() <= room
}

// ---- check 20
// A step by rule n.
fn rule_step(table: &Accepted, lengths: &[u16], n: usize) -> Step
    requires { (lengths_fit table.now.counts.rules lengths.now ≡ true) × (n < table.now.counts.rules) }
    ensures { step_by result.bits result.length ≡ step_of (system_in table.now.bytes.now) lengths.now n }
{
    Step {
        bits: table.rule_bits(n),
        length: usize::from(lengths[n]),
    }
}

// A step of rule n fits no minute of any week. A rule that fits some is noted, and not judged again.
fn judge(
    table: &Accepted,
    openings: &Openings,
    lengths: &[u16],
    fitting: &mut [bool; Table::RULES],
    n: usize,
) -> bool
    requires { (lengths_fit table.now.counts.rules lengths.now ≡ true) × (n < table.now.counts.rules) × Judged (week_of openings.now.hours openings.now.counts) (system_in table.now.bytes.now) lengths.now fitting.old }
    ensures { (result ≡ never_fits (week_of openings.now.hours openings.now.counts) (step_of (system_in table.now.bytes.now) lengths.now n)) × Judged (week_of openings.now.hours openings.now.counts) (system_in table.now.bytes.now) lengths.now fitting.new }
{
    if fitting[n] {
        return false;
    }
    let never = openings.fits_never(rule_step(table, lengths, n));
    fitting[n] = !never;
    never
}

// The first step that fits no minute.
fn first_never(table: &Accepted, run: &[u16], openings: &Openings, lengths: &[u16]) -> Option<usize>
    requires { (lengths_fit table.now.counts.rules lengths.now ≡ true) × (run_fits table.now.counts.rules run.now ≡ true) }
    ensures { result ≡ answered (first_never (week_of openings.now.hours openings.now.counts) (steps_of (system_in table.now.bytes.now) lengths.now run.now) 0) }
{
    let mut fitting = [false; Table::RULES];
    // Not position: its closure would have to keep the fact of what is noted.
    for k in 0..run.len() {
        let n = usize::from(run[k]);
        if judge(table, openings, lengths, &mut fitting, n) {
            return Some(k);
        }
    }
    None
}

// ---- the begins
// Not before the plan's start nor before the processes in bits have ended their earlier steps.
fn bound_of(start: i64, ends: &[i64; Table::PROCESSES], bits: u8) -> i64
    ensures { result ≡ bound_of start ends.now (processes_of bits) }
{
    let mut bound = start;
    for i in (0..Table::PROCESSES).rev() {
        if has_process(bits, i) {
            bound = later_of(ends[i], bound);
        }
    }
    bound
}

// The processes of the step have ended at t.
fn end_at(step: Step, t: i64, ends: &mut [i64; Table::PROCESSES])
    ensures { ends.new ≡ ended_at (processes_of step.bits) t ends.old }
{
    for i in 0..Table::PROCESSES {
        if has_process(step.bits, i) {
            ends[i] = t;
        }
    }
}

// The first minute, not before the bound, from which the processes of the step are open for its whole length.
fn begin_of(openings: &Openings, step: Step, start: i64, ends: &[i64; Table::PROCESSES]) -> i64
    requires { Near start ends.now plan_reach }
    ensures { result ≡ begin_of (week_of openings.now.hours openings.now.counts) start ends.now (step_by step.bits step.length) }
{
    let bound = bound_of(start, ends, step.bits);
    after(bound, openings.delay_of(step, bound))
}

// Writes the begins of the run's steps.
fn lay(
    table: &Accepted,
    run: &[u16],
    openings: &Openings,
    lengths: &[u16],
    start: i64,
    begins: &mut [i64],
)
    requires { (lengths_fit table.now.counts.rules lengths.now ≡ true) × (run_fits table.now.counts.rules run.now ≡ true) × (start_fits start ≡ true) × (length run.now ≤ length begins.old) }
    ensures { begins.new ≡ begins_from (week_of openings.now.hours openings.now.counts) start (at_start start) (steps_of (system_in table.now.bytes.now) lengths.now run.now) ++ drop (length run.now) begins.old }
{
    let mut ends = [start; Table::PROCESSES];
    for k in 0..run.len() {
        let step = rule_step(table, lengths, usize::from(run[k]));
        let begin = begin_of(openings, step, start, &ends);
        end_at(step, after(begin, step.length), &mut ends);
        begins[k] = begin;
    }
}

// ---- the call
// Not inlined, so that what it has on the stack is not there while the table is read.
#[inline(never)]
fn plan_accepted(
    table: &Accepted,
    run: &[u16],
    hours: &[[Window; WINDOW_PLACES]; Table::PROCESSES],
    counts: &[u8; Table::PROCESSES],
    lengths: &[u16],
    start: i64,
    begins: &mut [i64],
) -> Result<(), Refusal>
    ensures { Plans (plan_call table.now.bytes.now run.now hours.now counts.now lengths.now start begins.old) result begins.new }
{
    if !plan_fits(
        table.counts,
        run,
        hours,
        counts,
        lengths,
        start,
        begins.len(),
    ) {
        return Err(Refusal {
            number: BAD_HOURS,
            place: 0,
        });
    }
    let openings = Openings::new(hours, counts);
    match first_never(table, run, &openings, lengths) {
        Some(k) => Err(Refusal {
            number: NEVER_OPEN,
            place: k,
        }),
        None => {
            lay(table, run, &openings, lengths, start, begins);
            Ok(())
        }
    }
}

// Lays the run on the week: writes when each step begins.
pub fn plan(
    table: &[u8],
    run: &[u16],
    hours: [[Window; WINDOW_PLACES]; Table::PROCESSES],
    counts: [u8; Table::PROCESSES],
    lengths: &[u16],
    start: i64,
    begins: &mut [i64],
) -> Result<(), Refusal>
    ensures demand_1 { Plans (plan_call table.now run.now hours counts lengths.now start begins.old) result begins.new }
    ensures request_2_7 { PlanMeans table.now run.now hours counts lengths.now start (refused_by result) (refused_at result) begins.new }
{
    let table_counts = read(table)?;
    let accepted = Accepted {
        bytes: table,
        counts: table_counts,
    };
    plan_accepted(&accepted, run, &hours, &counts, lengths, start, begins)
}
