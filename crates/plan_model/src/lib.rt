// The types that the definitions of the plan and the crates above share, and constants. There is no code here.
#![tactic(auto)]

// The places for the windows of a process.
pub const WINDOW_PLACES: usize = 14;

// The minutes of a week, the longest step, and the most steps of a plan.
pub const WEEK: usize = 10080;

pub const LONGEST_STEP: u16 = 1440;

pub const MOST_STEPS: usize = 1000000;

// The refusals: bad hours; never open.
pub const BAD_HOURS: u8 = 19;

pub const NEVER_OPEN: u8 = 20;

// Request 2.7: a window of minutes in the week. The closing minute is not included.
#[repr(C)]
#[derive(Clone, Copy)]
pub struct Window {
    pub opens: u16,
    pub closes: u16,
}
