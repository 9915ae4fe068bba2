// The plan for C and Rust: the hours come as one struct, by value, and the answer is the number and the place of the refusal.
ghost use Rattle.std.specs.Prelude.{◌≡◌};
ghost use Rattle.model.specs.Calls.{refused_at, refused_by};
ghost use Rattle.plan_model.specs.Hours.{PlanMeans, plan_call};
ghost use Rattle.exports.specs.PlanCalls.{PlanAnswers, counts_of, hours_of};

use model::Refusal;
use plan_model::{WINDOW_PLACES, Window};
use plans::plan;
use table::Table;

// The windows of one process, and how many of them count.
#[repr(C)]
#[derive(Clone, Copy)]
pub struct Hours {
    pub windows: [Window; WINDOW_PLACES],
    pub count: u8,
}

// The opening hours of each process.
#[repr(C)]
#[derive(Clone, Copy)]
pub struct Week {
    pub processes: [Hours; Table::PROCESSES],
}

// The number of the refusal, 0 if there is none, and its place.
#[repr(C)]
#[derive(Clone, Copy)]
pub struct PlanAnswer {
    pub number: u8,
    pub place: usize,
}

fn windows_of(hours: Hours) -> [Window; WINDOW_PLACES]
    ensures { result ≡ hours.windows }
{
    hours.windows
}

fn answer_of(planned: Result<(), Refusal>) -> PlanAnswer
    ensures { (result.number ≡ refused_by planned) × (result.place ≡ refused_at planned) }
{
    match planned {
        Ok(()) => PlanAnswer {
            number: 0,
            place: 0,
        },
        Err(refusal) => PlanAnswer {
            number: refusal.number,
            place: refusal.place,
        },
    }
}

// Lays a run on the week. Refused by 1 to 9, 19 and 20.
#[unsafe(no_mangle)]
pub extern "C" fn roskavel_plan(
    table: &[u8],
    run: &[u16],
    week: Week,
    lengths: &[u16],
    start: i64,
    begins: &mut [i64],
) -> PlanAnswer
    ensures demand_1 { PlanAnswers (plan_call table.now run.now (hours_of week) (counts_of week) lengths.now start begins.old) result begins.new }
    ensures request_2_7 { PlanMeans table.now run.now (hours_of week) (counts_of week) lengths.now start result.number result.place begins.new }
{
    let processes = week.processes;
    let p0 = processes[0];
    let p1 = processes[1];
    let p2 = processes[2];
    let p3 = processes[3];
    let w0 = windows_of(p0);
    let w1 = windows_of(p1);
    let w2 = windows_of(p2);
    let w3 = windows_of(p3);
    let counts = [p0.count, p1.count, p2.count, p3.count];
    let planned = plan(table, run, [w0, w1, w2, w3], counts, lengths, start, begins);
    answer_of(planned)
}
