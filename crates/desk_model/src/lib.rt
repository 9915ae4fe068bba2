// The constants that the crates of the desk share. There is no code here.
#![tactic(auto)]

// The most letters of a desk's pile, the number of its names, and where a count of steps stops.
pub const PILE: usize = 256;

pub const NAMES: usize = 8;

pub const COUNT_CEILING: u64 = 4294967295;

// The refusals of a name: not held; above the last.
pub const EMPTY_NAME: u8 = 17;

pub const BAD_NAME: u8 = 18;
