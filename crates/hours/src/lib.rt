// Request 2.7: when the processes of a step are open for its whole length. The windows stay as they stand, in any order; before the first step it is noted of
// each for how long the process stays open from its opening on. A step then asks each window once, and passes over all that are too short for it.
#![tactic(auto)]

ghost use Rattle.std.specs.Prelude.{cond, false, ◌&&◌, ◌≡◌, ℕ, ◌+◌, ◌-◌, ◌≤◌, ◌<◌, min, leb, ltb, pos, take, length};
ghost use Rattle.model.specs.Groups.{has, processes_of};
ghost use Rattle.model.specs.Lists.{value_or};
ghost use Rattle.plan_model.specs.Hours.{delay, is_open, longest_step, never_fits, week_minutes, week_of, window_at, window_places, windows_of};
ghost use Rattle.table.specs.Reading.{process_at};
ghost use Rattle.hours.specs.Searching.{OpenUntil, Passes, ProcessPasses, ProcessStays, Skips, Stays, WeekStays, answered, step_by, until_fitting, until_opening};

use minutes::minute_of_week;
use plan_model::{LONGEST_STEP, WEEK, WINDOW_PLACES, Window};
use table::{Table, has_process};

// The last minute, counted from an opening, at which a step ends that begins in the week after it.
const FARTHEST: usize = WEEK + LONGEST_STEP as usize;

// A step of the run: its processes, a bit each, and how many minutes it lasts.
#[derive(Clone, Copy)]
pub struct Step {
    pub bits: u8,
    pub length: usize,
    pub ghost some_minute: { 0 < length },
    pub ghost short: { length ≤ longest_step },
}

// The opening hours of each process, and for how long it stays open from the opening of each window on.
#[derive(Clone, Copy)]
pub struct Openings {
    pub hours: [[Window; WINDOW_PLACES]; Table::PROCESSES],
    pub counts: [u8; Table::PROCESSES],
    pub stays: [[u16; WINDOW_PLACES]; Table::PROCESSES],
    pub ghost noted: { WeekStays hours counts stays },
}

// ---- how long a process stays open
// The latest closing, in this week, of the windows that hold minute m; or m, where none does.
fn open_until(windows: &[Window], m: usize) -> usize
    requires { m < week_minutes }
    ensures { OpenUntil windows.now m result }
{
    let mut latest = m;
    for w in windows {
        if usize::from(w.opens) <= m {
            latest = latest.max(usize::from(w.closes));
        }
    }
    latest.min(WEEK)
}

// How long the process stays open from the opening of window k on, over windows that touch or overlap and over Sunday midnight; not at all where the window
// holds no minute. It is not asked further than a step may last that begins in the week after the opening.
fn stay_from(windows: &[Window], k: usize) -> usize
    requires { k < length windows.now }
    ensures { Stays windows.now (window_at windows.now k) result }
{
    let w = windows[k];
    let opens = usize::from(w.opens);
    let closes = usize::from(w.closes).min(WEEK);
    if closes <= opens {
        return 0;
    }
    let mut run = closes - opens;
    // A while: its steps are of uneven length.
    while run < FARTHEST {
        let at = (opens + run) % WEEK;
        let until = open_until(windows, at);
        if until == at {
            return run;
        }
        run += until - at;
    }
    run
}

// The same of each window of a process.
fn stays_in(windows: &[Window]) -> [u16; WINDOW_PLACES]
    requires { length windows.now ≤ window_places }
    ensures { ProcessStays windows.now result }
{
    let mut stays = [0; WINDOW_PLACES];
    for k in 0..windows.len() {
        stays[k] = stay_from(windows, k) as u16;
    }
    stays
}

// The windows of a process, as many as its count says and as there are places.
fn counted(windows: &[Window; WINDOW_PLACES], count: u8) -> &[Window]
    ensures { result.now ≡ take (min count window_places) windows.now }
{
    &windows[..usize::from(count).min(WINDOW_PLACES)]
}

// The stays of each process.
pub fn stays_of(
    hours: &[[Window; WINDOW_PLACES]; Table::PROCESSES],
    counts: &[u8; Table::PROCESSES],
) -> [[u16; WINDOW_PLACES]; Table::PROCESSES]
    ensures { WeekStays hours.now counts.now result }
{
    let mut stays = [[0; WINDOW_PLACES]; Table::PROCESSES];
    for i in 0..Table::PROCESSES {
        stays[i] = stays_in(counted(&hours[i], counts[i]));
    }
    stays
}

// ---- one process, from minute m of the week on (m is a plain number with a clause: a struct of one number would be no plainer)
// The minutes from minute m to the next opening of a window.
fn until_opening(w: Window, m: usize) -> usize
    requires { m < week_minutes }
    ensures { result ≡ until_opening w m }
{
    let opens = usize::from(w.opens);
    if m < opens {
        opens - m
    } else {
        opens + WEEK - m
    }
}

// The minutes from minute m to the first from which the process stays open for the whole length by this window; a week where it is too short.
fn until_fitting(w: Window, stay: usize, length: usize, m: usize) -> usize
    requires { (stay < 65536) × (length ≤ longest_step) × (m < week_minutes) }
    ensures { result ≡ until_fitting w stay length m }
{
    if stay < length {
        return WEEK;
    }
    let gap = until_opening(w, m);
    if WEEK + length <= stay + gap { 0 } else { gap }
}

// How many minutes are passed over: none where the process stays open for the whole length. Else it is shut in some minute of every step that begins before the
// next opening of a window that is long enough.
fn skip_at(windows: &[Window], stays: &[u16; WINDOW_PLACES], step: Step, m: usize) -> usize
    requires { (length windows.now ≤ window_places) × ProcessStays windows.now stays.now × (m < week_minutes) }
    ensures { Skips windows.now step.length m result }
{
    let mut least = WEEK;
    for (w, stay) in windows.iter().zip(stays) {
        let gap = until_fitting(*w, usize::from(*stay), step.length, m);
        if gap == 0 {
            return 0;
        }
        least = least.min(gap);
    }
    least
}

// ---- the processes of a step
impl Openings {
    // Notes for how long each process stays open.
    pub fn new(
        hours: &[[Window; WINDOW_PLACES]; Table::PROCESSES],
        counts: &[u8; Table::PROCESSES],
    ) -> Openings
        ensures { (result.hours ≡ hours.now) × (result.counts ≡ counts.now) }
    {
        Openings {
            hours: *hours,
            counts: *counts,
            stays: stays_of(hours, counts),
        }
    }

    // The windows of process i that count.
    fn windows(&self, i: usize) -> &[Window]
        requires { i < 4 }
        ensures { result.now ≡ windows_of self.now.hours self.now.counts i }
    {
        counted(&self.hours[i], self.counts[i])
    }

    // How many minutes are passed over for process i: none where it has no part, or stays open for the whole length.
    fn skip_process(&self, i: usize, step: Step, m: usize) -> usize
        requires { (i < 4) × (m < week_minutes) }
        ensures { ProcessPasses (week_of self.now.hours self.now.counts) (process_at i) (step_by step.bits step.length) m result }
    {
        if has_process(step.bits, i) {
            skip_at(self.windows(i), &self.stays[i], step, m)
        } else {
            0
        }
    }

    // How many minutes are passed over for the processes of the step: none where all stay open for the whole length.
    fn skip_for(&self, step: Step, m: usize) -> usize
        requires { m < week_minutes }
        ensures { Passes (week_of self.now.hours self.now.counts) (step_by step.bits step.length) m result }
    {
        for i in 0..Table::PROCESSES {
            let minutes = self.skip_process(i, step, m);
            if minutes != 0 {
                return minutes;
            }
        }
        0
    }

    // How long a step waits from minute m of the week on, if it ever fits.
    fn wait_from(&self, step: Step, m: usize) -> Option<usize>
        requires { m < week_minutes }
        ensures { result ≡ answered (delay (week_of self.now.hours self.now.counts) (step_by step.bits step.length) (pos m)) }
    {
        let mut d = 0;
        // A while: its steps are of uneven length.
        while d < WEEK {
            let minutes = self.skip_for(step, (m + d) % WEEK);
            if minutes == 0 {
                return Some(d);
            }
            d += minutes;
        }
        None
    }

    // How many minutes after `bound` a step begins that fits some minute; 0 if it fits none.
    pub fn delay_of(&self, step: Step, bound: i64) -> usize
        ensures { (result ≡ value_or 0 (λ (d : ℕ). d) (delay (week_of self.now.hours self.now.counts) (step_by step.bits step.length) bound)) × (result < week_minutes) }
    {
        self.wait_from(step, minute_of_week(bound)).unwrap_or(0)
    }

    // The step fits no minute of any week.
    pub fn fits_never(&self, step: Step) -> bool
        ensures { result ≡ never_fits (week_of self.now.hours self.now.counts) (step_by step.bits step.length) }
    {
        self.wait_from(step, 0).is_none()
    }
}
