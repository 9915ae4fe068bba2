// The copy of Lemma 10 (request 2.6), as the code makes it: whether a table's automaton is copied, how many states each process has, and the copies of a
// group's states.
#![tactic(auto)]

mod automaton;

ghost use Rattle.std.specs.Prelude.{◌≡◌, true, cond, ◌+◌, ◌<◌, ◌≤◌, ltb, length};
ghost use Rattle.model.specs.Copies.{copies, leaves_control, reenters, subsets};
ghost use Rattle.model.specs.Groups.{Process, at, has, processes_of, restrict};
ghost use Rattle.table.specs.Reading.{Holds, process_at, system_in, transition_in};
ghost use Rattle.copies.specs.CopyingOf.{CopyingOf};
ghost use Rattle.copies.specs.Mixing.{MixedOf, mixture_of};

pub use automaton::Automaton;
use model::Group;
use states::groups::merged;
use table::{Accepted, leaves_control};

// Whether the automaton is copied, and the number of states of each process, 0 where the table lacks it. No Option: the states are read where nothing is
// copied, too.
#[derive(Clone, Copy)]
pub struct Copying {
    pub made: bool,
    pub states: Group,
}

// Transition k enters no control state.
fn leaves(table: &Accepted, k: usize) -> bool
    requires { k < table.now.counts.transitions }
    ensures { result ≡ leaves_control (system_in table.now.bytes.now).loc (system_in table.now.bytes.now).controls (transition_in table.now.bytes.now k) }
{
    let a = table.transition_letter(k);
    let bits = table.letter_bits(usize::from(a));
    leaves_control(table.bytes, table.counts, bits, table.transition_after(k))
}

// Some transition enters a control state.
fn is_reentered(table: &Accepted) -> bool
    ensures { result ≡ reenters (system_in table.now.bytes.now) }
{
    (0..table.counts.transitions).any(|k| !leaves(table, k))
}

// How many states process i has, 0 where the table lacks it.
fn states_of(table: &Accepted, i: usize) -> u8
    requires { i < 4 }
    ensures { result ≡ cond (ltb i table.now.counts.processes) ((system_in table.now.bytes.now).states (process_at i)) 0 }
{
    if i < table.counts.processes {
        table.local_states(i) as u8
    } else {
        0
    }
}

// The copy of a table's automaton.
pub fn copying_of(table: &Accepted) -> Copying
    ensures { CopyingOf table.now.bytes.now table.now.counts result }
{
    let states = Group {
        s0: states_of(table, 0),
        s1: states_of(table, 1),
        s2: states_of(table, 2),
        s3: states_of(table, 3),
    };
    Copying {
        made: is_reentered(table),
        states,
    }
}

// The number of sets of processes over which groups are mixed: those whose bits are below it. Where nothing is copied, it is the empty one alone.
pub fn set_count(c: Copying) -> u8
    ensures { result ≡ cond c.made 16 1 }
{
    if c.made { 16 } else { 1 }
}

// The number of sets within the processes in bits.
fn subset_count(bits: u8) -> u8
    requires { bits ≤ 15 }
    ensures { (result ≡ length (subsets (processes_of bits))) × (result ≤ 16) }
{
    let counts: [u8; 16] = [1, 2, 2, 4, 2, 4, 4, 8, 2, 4, 4, 8, 4, 8, 8, 16];
    counts[usize::from(bits)]
}

// The number of mixtures of a group over the processes in bits.
pub fn mixture_count(c: Copying, bits: u8) -> usize
    requires { bits ≤ 15 }
    ensures { (result ≡ cond c.made (length (subsets (processes_of bits))) 1) × (result ≤ 16) }
{
    if c.made {
        usize::from(subset_count(bits))
    } else {
        1
    }
}

// The copy of the state x where the process is present, else 255.
fn copied_state(present: bool, states: u8, x: u8) -> u8
    requires { present ≡ true → states + x < 256 }
    ensures { result ≡ cond present (states + x) 255 }
{
    if present { states + x } else { 255 }
}

// The copies of the states of g at the processes in bits, 255 elsewhere.
fn copied(states: Group, bits: u8, g: Group) -> Group
    requires { (i : Process) → has (processes_of bits) i ≡ true → at states i + at g i < 256 }
    ensures { result ≡ restrict (processes_of bits) (copies (at states) g) }
{
    Group {
        s0: copied_state(bits % 2 == 1, states.s0, g.s0),
        s1: copied_state(bits / 2 % 2 == 1, states.s1, g.s1),
        s2: copied_state(bits / 4 % 2 == 1, states.s2, g.s2),
        s3: copied_state(bits / 8 % 2 == 1, states.s3, g.s3),
    }
}

// A group, and the copies of its states at the processes in bits; where nothing is copied, the group again, so that a mixture needs no test.
#[derive(Clone, Copy)]
pub struct Mixed {
    pub bits: u8,
    pub plain: Group,
    pub copied: Group,
}

// The group with the copies of its states, where the automaton is copied.
pub fn mixed_of(c: Copying, bits: u8, g: Group) -> Mixed
    requires { c.made ≡ true → (i : Process) → has (processes_of bits) i ≡ true → at c.states i + at g i < 256 }
    ensures { MixedOf c bits g result }
{
    let copied = if c.made { copied(c.states, bits, g) } else { g };
    Mixed {
        bits,
        plain: g,
        copied,
    }
}

// The mixture for the set m: copied states at its processes, plain ones elsewhere.
pub fn mixture(x: Mixed, m: u8) -> Group
    ensures { result ≡ mixture_of x (processes_of m) }
{
    merged(m, x.copied, x.plain)
}
