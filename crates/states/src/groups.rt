// Groups of local states, and the processes of a letter as bits, bit 0 for process 0.
ghost use Rattle.std.specs.Prelude.{◌≡◌, cond};
ghost use Rattle.model.specs.Groups.{processes_of, restrict, merge, same_group};

use model::Group;

// a where the process is present, else b
pub fn chosen(present: bool, a: u8, b: u8) -> u8
    ensures { result ≡ cond present a b }
{
    if present { a } else { b }
}

// The states of processes that are absent.
pub const ABSENT: Group = Group {
    s0: 255,
    s1: 255,
    s2: 255,
    s3: 255,
};

// x at the processes in bits, g elsewhere
#[tactic(auto, unfolding(model::specs::Groups::merge))]
pub fn merged(bits: u8, x: Group, g: Group) -> Group
    ensures { result ≡ merge (processes_of bits) x g }
{
    Group {
        s0: chosen(bits % 2 == 1, x.s0, g.s0),
        s1: chosen(bits / 2 % 2 == 1, x.s1, g.s1),
        s2: chosen(bits / 4 % 2 == 1, x.s2, g.s2),
        s3: chosen(bits / 8 % 2 == 1, x.s3, g.s3),
    }
}

// g at the processes in bits, 255 elsewhere
#[tactic(auto, unfolding(model::specs::Groups::restrict, model::specs::Groups::merge))]
pub fn restricted(bits: u8, g: Group) -> Group
    ensures { result ≡ restrict (processes_of bits) g }
{
    merged(bits, g, ABSENT)
}

// A transition with these states before it, on a letter of these processes, can be taken in g.
#[tactic(auto, using(crate::proofs::Equality::same_fields))]
pub fn reads(bits: u8, g: Group, before: Group) -> bool
    ensures { result ≡ same_group (restrict (processes_of bits) g) before }
{
    restricted(bits, g) == before
}
