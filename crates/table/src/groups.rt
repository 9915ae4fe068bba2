// Tests of processes, given as bits, and of the states of a group.
ghost use Rattle.std.specs.Prelude.{◌≡◌, not, ◌||◌, ◌<◌, ◌≤◌, leb, get_or};
ghost use Rattle.model.specs.Groups.{Process, number_of, every, at, has, process_bits, processes_of, within_test};
ghost use Rattle.model.specs.Tables.{byte_of, absent};
ghost use Rattle.table.specs.Places.{processes_in, bound_in, Heads};
ghost use Rattle.table.specs.Present.{present_in};
ghost use Rattle.table.specs.Reading.{process_at};

use crate::Table;
use crate::fields::bound_of;
use model::Group;

// Process i is in bits.
pub fn has_process(bits: u8, i: usize) -> bool
    requires { i < 4 }
    ensures by_place { result ≡ has (processes_of bits) (process_at i) }
    ensures by_process { (p : Process) → number_of p ≡ i → result ≡ has (processes_of bits) p }
{
    (bits >> i) % 2 == 1
}

// If a, then b.
pub fn implies(a: bool, b: bool) -> bool
    ensures { result ≡ (not a || b) }
{
    !a || b
}

// Each process of the first set is one of the second.
pub fn is_within(inner: u8, outer: u8) -> bool
    ensures { result ≡ within_test (processes_of inner) (processes_of outer) }
{
    implies(inner % 2 == 1, outer % 2 == 1)
        && implies(inner / 2 % 2 == 1, outer / 2 % 2 == 1)
        && implies(inner / 4 % 2 == 1, outer / 4 % 2 == 1)
        && implies(inner / 8 % 2 == 1, outer / 8 % 2 == 1)
}

// The state x of process i is no control state.
pub fn is_outside(bytes: &[u8], t: Table, i: usize, member: bool, x: u8) -> bool
    requires { Heads bytes.now t }
    ensures { result ≡ (not member || leb (byte_of (get_or (processes_in bytes.now t) i absent) 0) x) }
{
    !member || bound_of(bytes, t, 0, i) <= usize::from(x)
}

// No state of the group is a control state, at the processes of the bits.
pub fn leaves_control(bytes: &[u8], t: Table, bits: u8, g: Group) -> bool
    requires { Heads bytes.now t }
    ensures { result ≡ every (λ i. not (has (processes_of bits) i) || leb (bound_in bytes.now t 0 i) (at g i)) }
{
    is_outside(bytes, t, 0, bits % 2 == 1, g.s0)
        && is_outside(bytes, t, 1, bits / 2 % 2 == 1, g.s1)
        && is_outside(bytes, t, 2, bits / 4 % 2 == 1, g.s2)
        && is_outside(bytes, t, 3, bits / 8 % 2 == 1, g.s3)
}

// The processes of the table, as bits.
pub fn present(t: Table) -> u8
    requires { t.processes ≤ 4 }
    ensures { result ≡ process_bits (present_in t) }
{
    let bits: [u8; 1 + Table::PROCESSES] = [0, 1, 3, 7, 15];
    bits[t.processes]
}
