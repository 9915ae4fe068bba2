// The types and constants that the definitions of specs/ and the crates above share. There is no code here.
#![tactic(auto)]

// The places of a rule's written letters, and of a record's path.
pub const WRITTEN_PLACES: usize = 6;

// The most steps of a run that is written.
pub const LONGEST_RUN: u32 = 1000000;

// The refusals by number: of a table, then of the calls. Those of the desk and the plan stand in their own crates of definitions. They are numbers and no enum:
// the documents number them, definitions compare them (`changes_nothing`), C and `line` give them, and a request adds its own in the crate of its subject.
pub const CUT: u8 = 1;

pub const STRANGER: u8 = 2;

pub const TURN: u8 = 3;

pub const CROWD: u8 = 4;

pub const VALUE: u8 = 5;

pub const STRAY: u8 = 6;

pub const REENTRY: u8 = 7;

pub const TWIN: u8 = 8;

pub const LEFTOVER: u8 = 9;

pub const SHORT_LOG: u8 = 10;

pub const LONG_RUN: u8 = 11;

pub const IDLE_RULE: u8 = 12;

pub const NO_RULE: u8 = 13;

pub const FULL_PILE: u8 = 14;

pub const SHORT_SCRATCH: u8 = 15;

pub const NO_RUN: u8 = 16;

// Document 01: a state group. One local state for each of the four processes, 255 where a process has no part. Named fields and no array: it is C's struct, and
// the definitions go by process (`at`).
#[repr(C)]
#[derive(Clone, Copy, Debug, PartialEq, Eq)]
pub struct Group {
    pub s0: u8,
    pub s1: u8,
    pub s2: u8,
    pub s3: u8,
}

// A configuration whose word stands at the end of a buffer: its states, and the place of the word's first letter.
#[repr(C)]
#[derive(Clone, Copy)]
pub struct Placed {
    pub states: Group,
    pub top: usize,
}

// Why a call is refused: the number that the documents give the check which does not pass, and the place.
#[derive(Clone, Copy, Debug, PartialEq, Eq)]
pub struct Refusal {
    pub number: u8,
    pub place: usize,
}

// What the answer call gives where it is not refused: the verdict with its figures.
#[derive(Clone, Copy, Debug, PartialEq, Eq)]
pub enum Verdict {
    Reachable {
        transitions: u32,
        rounds: u32,
        steps: u32,
    },
    Unreachable {
        transitions: u32,
        rounds: u32,
    },
}

// What the run call gives where it is not refused: the figures of the reachable verdict, and the peak.
#[derive(Clone, Copy, Debug, PartialEq, Eq)]
pub struct Run {
    pub transitions: u32,
    pub rounds: u32,
    pub steps: u32,
    pub peak: u32,
}

// What the answer call and the run call give where one saturation serves both.
#[derive(Clone, Copy, Debug, PartialEq, Eq)]
pub struct AnswerAndRun {
    pub answered: Result<Verdict, Refusal>,
    pub ran: Result<Run, Refusal>,
}

// What the walk call gives where it is not refused: the end states, the length of the pile, and whether the situation is watched.
#[derive(Clone, Copy, Debug, PartialEq, Eq)]
pub struct Ending {
    pub states: Group,
    pub length: usize,
    pub watched: bool,
}
