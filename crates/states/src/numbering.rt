// Numbers of global states: three bits for each process, process 0 highest, so that the order of the numbers is that of the groups.
ghost use Rattle.std.specs.Prelude.{◌≡◌, ◌%◌, ◌<◌};
ghost use Rattle.model.specs.Groups.{processes_of};
ghost use Rattle.states.specs.StateNumbers.{state_count, state_number, group_numbered};

use crate::groups::{ABSENT, merged};
use model::Group;

// How many there are.
pub const STATES: usize = 4096;

#[tactic(auto, unfolding(crate::specs::StateNumbers::state_number))]
pub fn number(g: Group) -> usize
    ensures { (result ≡ state_number g) × (result < state_count) }
{
    usize::from(g.s0 % 8) * 512
        + usize::from(g.s1 % 8) * 64
        + usize::from(g.s2 % 8) * 8
        + usize::from(g.s3 % 8)
}

// The group of the processes in present that a number stands for.
#[tactic(auto, unfolding(crate::specs::StateNumbers::group_numbered, model::specs::Groups::merge))]
pub fn numbered(present: u8, n: usize) -> Group
    ensures { result ≡ group_numbered (processes_of present) n }
{
    let states = Group {
        s0: (n / 512 % 8) as u8,
        s1: (n / 64 % 8) as u8,
        s2: (n / 8 % 8) as u8,
        s3: (n % 8) as u8,
    };
    merged(present, states, ABSENT)
}
