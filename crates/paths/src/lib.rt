// Search of the paths of the log for what a rule adds: depth first, in rising record numbers. From round 2 on only paths with a record of the last round
// are gone through, since no other adds anything. The first path to an end that the head's search has not come by adds a record.
#![tactic(auto)]

ghost use Rattle.std.specs.Prelude.{◌≡◌, true, cond, ◌||◌, ◌+◌, ◌-◌, ◌*◌, ◌<◌, ◌≤◌, min, leb, length, get_or, take};
ghost use Rattle.model.specs.Log.{steps_cap};
ghost use Rattle.model.specs.Records.{record_length};
ghost use Rattle.model.specs.Tables.{written_places};
ghost use Rattle.states.specs.StateNumbers.{state_count};
ghost use Rattle.states.specs.StateSets.{first_from, inserted};
ghost use Rattle.rings.specs.Rings.{record_reads, RingRoom, Ringed, Freshened};
ghost use Rattle.packs.specs.Packs.{unpacked};
ghost use Rattle.scratch.specs.Regions.{passed_at, passed_bit, passed_end, rings_at};
ghost use Rattle.paths.specs.Jobs.{Begins, Lengthens, Lookable, Passable, Searchable, Searched, first_tried, held_by, is_passed, known, longer_trail, glances, offers, stored_end, with_end, arrivals};

use keys::holds;
use model::WRITTEN_PLACES;
use packs::{after_at, merged, number, restricted, unpack};
use records::{Entry, STEPS_CAP, put_record, steps_at};
use rings::Rings;
use scratch::{PASSED, RINGS, SEEN, keys_at};
use states::numbering::STATES;
use states::sets;

// A rule of the table with its written letters and their processes as masks; the place of the last letter that a record of the last round reads; whether a
// record has the rule's letter and states before; the round, the records that it starts from, those from lo on being of the last round, and how many the log
// can hold.
#[derive(Clone, Copy)]
pub struct Job {
    pub letter: u8,
    pub mask: u32,
    pub before: u32,
    pub rule: u16,
    pub round: u16,
    pub count: usize,
    pub letters: [u8; WRITTEN_PLACES],
    pub masks: [u32; WRITTEN_PLACES],
    pub last: usize,
    pub held: bool,
    pub lo: usize,
    pub base: usize,
    pub n: usize,
}

// The record numbers of a path so far, 65535 past its end, and one more than their steps.
#[derive(Clone, Copy)]
pub struct Trail {
    pub places: [u16; WRITTEN_PLACES],
    pub steps: u32,
}

fn capped(x: u32) -> u32
    ensures { result ≡ min x steps_cap }
{
    x.min(STEPS_CAP)
}

// The path with record r behind it.
fn longer(log: &[u8], trail: Trail, level: usize, r: usize) -> Trail
    requires { Lengthens log.now trail level r }
    ensures { result ≡ longer_trail log.now trail level r }
{
    let mut places = trail.places;
    places[level] = r as u16;
    Trail {
        places,
        steps: capped(trail.steps + capped(steps_at(log, r))),
    }
}

// Whether the path has a record of the last round.
fn is_fresh(job: Job, found: bool, r: usize) -> bool
    ensures { result ≡ (found || leb job.lo r) }
{
    found || job.lo <= r
}

// The first record to try at a place: of any round where the path has one of the last round or may get one later, else of the last.
fn first_try(
    log: &[u8],
    scratch: &[u8],
    job: Job,
    level: usize,
    letter: u8,
    g: u32,
    found: bool,
) -> usize
    requires { RingRoom log.now job.base job.n rings_at scratch.now × Ringed log.now job.base job.n rings_at scratch.now × Freshened log.now job.lo job.base job.n rings_at scratch.now × (job.lo ≤ job.base) }
    ensures { result ≡ first_from (record_reads log.now letter g) (first_tried job level found) (job.base - first_tried job level found) }
{
    let rings = Rings::new(log, scratch, RINGS, job.n, job.base);
    if found || level < job.last {
        rings.first_match(letter, g)
    } else {
        rings.first_fresh(job.lo, letter, g)
    }
}

fn slot(level: usize, found: bool) -> usize
    requires { level < written_places }
    ensures { (result ≡ 8 * passed_at + (2 * level + cond found 1 0) * 4096) × (result + 4096 ≤ 8 * passed_end) }
{
    8 * PASSED + (2 * level + usize::from(found)) * STATES
}

// Whether the search has come by the state at this depth, so that it leads to nothing new.
fn is_passed(scratch: &[u8], level: usize, found: bool, x: usize) -> bool
    requires { Passable scratch.now level x }
    ensures { result ≡ is_passed scratch.now level found x }
{
    sets::contains(scratch, slot(level, true) + x)
        || (!found && sets::contains(scratch, slot(level, false) + x))
}

// Notes that the search has come by the state.
fn pass(scratch: &mut [u8], level: usize, found: bool, x: usize)
    requires { Passable scratch.old level x }
    ensures { scratch.new ≡ inserted scratch.old (passed_bit level found x) }
{
    sets::insert(scratch, slot(level, found) + x);
}

// Writes the record of an end as record `count`, if the log has room for it; gives the number of records then, or n + 1. No Option:
// the search counts on at a full log, and tests for room here alone.
fn store(log: &mut [u8], job: Job, after: u32, trail: Trail, count: usize) -> usize
    requires { (job.n * record_length ≤ length log.old) × (job.n ≤ 65535) × (count ≤ job.n + 1) }
    ensures { (result ≡ min (count + 1) (job.n + 1)) × (log.new ≡ stored_end log.old job after trail count) }
{
    if count < job.n {
        let path = trail.places;
        let e = Entry {
            letter: job.letter,
            before: unpack(job.before),
            after: unpack(after),
            round: job.round,
            rule: job.rule,
            path,
            steps: trail.steps,
        };
        put_record(log, count, e);
        count + 1
    } else {
        job.n + 1
    }
}

// Whether a record has the rule's letter and states before and the end x.
fn is_held(log: &[u8], scratch: &[u8], job: Job, x: usize) -> bool
    requires { Lookable job log.now scratch.now × (x < state_count) }
    ensures { result ≡ held_by job log.now x }
{
    job.held
        && holds(
            log,
            scratch,
            keys_at(job.n),
            job.n,
            job.base,
            job.letter,
            job.before,
            x,
        )
}

// Whether the search came by the end x before, or the log holds it. Notes it.
fn is_known(log: &[u8], scratch: &mut [u8], job: Job, x: usize) -> bool
    requires { Searchable job log.now scratch.old × (x < state_count) }
    ensures { (result ≡ known (held_by job log.now) scratch.old x) × (scratch.new ≡ with_end scratch.old x) }
{
    if sets::contains(scratch, 8 * SEEN + x) {
        return true;
    }
    sets::insert(scratch, 8 * SEEN + x);
    is_held(log, scratch, job, x)
}

// The path with record r behind it ends in the state: its record is added if its end is not known. A path without a record of the last round adds nothing.
fn arrive(
    log: &mut [u8],
    scratch: &mut [u8],
    job: Job,
    state: u32,
    found: bool,
    trail: Trail,
    level: usize,
    r: usize,
    count: usize,
) -> usize
    requires { Begins job job.count state (longer_trail log.old trail level r) count log.old scratch.old × Lengthens log.old trail level r }
    ensures { Searched job (held_by job log.old) (arrivals job found state (longer_trail log.old trail level r)) count log.old scratch.old result log.new scratch.new }
{
    if !found {
        return count;
    }
    let after = restricted(job.mask, state);
    if is_known(log, scratch, job, number(after)) {
        return count;
    }
    let on = longer(log, trail, level, r);
    store(log, job, after, on, count)
}

// A rule that writes no letter ends in its states after. This is `arrive` once more: with one call alone, in the loop below, the compiler lays that one out
// in the loop, which saves a call for each end.
pub fn end_at_once(
    log: &mut [u8],
    scratch: &mut [u8],
    job: Job,
    state: u32,
    trail: Trail,
    count: usize,
) -> usize
    requires { Begins job job.count state trail count log.old scratch.old }
    ensures { Searched job (held_by job log.old) (arrivals job true state trail) count log.old scratch.old result log.new scratch.new }
{
    let end = restricted(job.mask, state);
    if is_known(log, scratch, job, number(end)) {
        return count;
    }
    store(log, job, end, trail, count)
}

// Goes through the paths that read the rest of the job's word from a state, first by the records with the lowest numbers. `count` is the number of
// records there are, `found` whether one of the last round is on the path; gives the number of records then, more than n where the log is full. A state that
// was passed is left before the path is extended to it.
pub fn explore(
    log: &mut [u8],
    scratch: &mut [u8],
    job: Job,
    level: usize,
    state: u32,
    found: bool,
    trail: Trail,
    count: usize,
) -> usize
    requires { Begins job level state trail count log.old scratch.old × (level < job.count) }
    ensures { Searched job (held_by job log.old) (offers job (glances log.old job.base) level found (unpacked state) (take level trail.places)) count log.old scratch.old result log.new scratch.new }
{
    let width = job.count;
    let letter = job.letters[level];
    let mask = job.masks[level];
    let g = restricted(mask, state);
    let base = job.base;
    let n = job.n;
    let mut total = count;
    let mut r = first_try(log, scratch, job, level, letter, g, found);
    while r < base {
        let next = merged(mask, after_at(log, r), state);
        let new = is_fresh(job, found, r);
        if level + 1 == width {
            total = arrive(log, scratch, job, next, new, trail, level, r, total);
        } else {
            let x = number(next);
            if !is_passed(scratch, level + 1, new, x) {
                let on = longer(log, trail, level, r);
                total = explore(log, scratch, job, level + 1, next, new, on, total);
                pass(scratch, level + 1, new, x);
            }
        }
        r = Rings::new(log, scratch, RINGS, n, base).next_match(r, letter, g);
    }
    total
}
