// Groups of local states, their numbers, and sets of numbers in lent bytes.
#![tactic(auto)]

pub mod groups;
pub mod numbering;
pub mod sets;
