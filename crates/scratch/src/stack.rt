// The stack of record numbers in scratch.
ghost use Rattle.std.specs.Prelude.{◌≡◌, ◌+◌, ◌≤◌, length};
ghost use Rattle.model.specs.Records.{number_at};
ghost use Rattle.numbers.specs.NumberBytes.{with_number};
ghost use Rattle.scratch.specs.StackNumbers.{stack_place};

use crate::STACK;
use numbers::{put_two, two_at};

pub fn number_at(scratch: &[u8], k: usize) -> usize
    requires { stack_place k + 2 ≤ length scratch.now }
    ensures { result ≡ number_at 2 scratch.now (stack_place k) }
{
    usize::from(two_at(scratch, STACK + 2 * k))
}

pub fn put_number(scratch: &mut [u8], k: usize, x: u16)
    requires { stack_place k + 2 ≤ length scratch.old }
    ensures { scratch.new ≡ with_number 2 scratch.old (stack_place k) x }
{
    put_two(scratch, STACK + 2 * k, x);
}
