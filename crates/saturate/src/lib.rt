// Saturation: the log of the limit, round by round.
#![tactic(auto)]

pub mod rounds;

ghost use Rattle.std.specs.Prelude.{◌≡◌, ◌≤◌, length};
ghost use Rattle.model.specs.Calls.{capacity};
ghost use Rattle.table.specs.Reading.{Holds};
ghost use Rattle.scratch.specs.Regions.{links_end};
ghost use Rattle.saturate.specs.Limits.{SaturatedDone};
ghost use Rattle.saturate.specs.Rounds.{RoundBegins};

use crate::rounds::{add_round, prepare};
use initial::write_initial;
use table::Accepted;

// The number of the limit's records and of the last round that adds one.
#[derive(Clone, Copy)]
pub struct Limit {
    pub count: usize,
    pub rounds: usize,
}

// The log has no room for the records.
#[derive(Clone, Copy, Debug, PartialEq, Eq)]
pub struct Full;

// Adds rounds to the records of round 0, which are `count`, until one adds nothing or the log has no room.
fn add_rounds(
    table: &Accepted,
    log: &mut [u8],
    scratch: &mut [u8],
    n: usize,
    count: usize,
) -> Result<Limit, Full>
    requires { RoundBegins table.now.bytes.now table.now.counts 0 count n 0 log.old scratch.old }
    ensures { SaturatedDone table.now.bytes.now n log.old scratch.old result log.new scratch.new }
{
    let mut lo = 0;
    let mut base = count;
    let mut k = 0;
    while let Some(count) = add_round(table, log, scratch, lo, base, n, k)? {
        lo = base;
        base = count;
        k += 1;
    }
    Ok(Limit {
        count: base,
        rounds: k,
    })
}

// Fills the log with the records of the limit, which are then in rings. n is the number of records that the log can hold. What it leaves in the rest of the
// scratch, and in the log behind them or where it has no room, is not decided.
pub fn saturate(
    table: &Accepted,
    log: &mut [u8],
    scratch: &mut [u8],
    n: usize,
) -> Result<Limit, Full>
    requires { (n ≡ capacity (length log.old)) × (links_end n ≤ length scratch.old) }
    ensures { SaturatedDone table.now.bytes.now n log.old scratch.old result log.new scratch.new }
{
    let count = write_initial(table, log, scratch, n);
    if n < count {
        return Err(Full);
    }
    prepare(table, log, scratch, n);
    add_rounds(table, log, scratch, n, count)
}
