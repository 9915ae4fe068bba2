// Sets of state numbers in lent bytes, eight numbers to a byte.
ghost use Rattle.std.specs.Prelude.{◌≡◌, true, ℕ, ◌+◌, ◌*◌, ◌<◌, ◌≤◌, get_or, length};
ghost use Rattle.states.specs.StateNumbers.{state_count};
ghost use Rattle.states.specs.StateSets.{set_length, member, set_block, inserted, next_member, NoneFrom};

use crate::numbering::STATES;

// The bytes of a set that are looked at at a time.
const BLOCK: usize = 64;

// The numbers of such a block.
const NUMBERS: usize = 512;

#[tactic(auto, unfolding(crate::specs::StateSets::member))]
pub fn contains(members: &[u8], n: usize) -> bool
    requires { n < 8 * length members.now }
    ensures { result ≡ member members.now n }
{
    (members[n / 8] >> (n % 8)) % 2 == 1
}

#[tactic(auto, using(crate::proofs::StateSets::one_shifted), unfolding(crate::specs::StateSets::inserted))]
pub fn insert(members: &mut [u8], n: usize)
    requires { n < 8 * length members.old }
    ensures { members.new ≡ inserted members.old n }
{
    members[n / 8] |= 1 << (n % 8);
}

// Whether all bytes are zero. It ends at the last one alone, so that the machine looks at many bytes at a time.
fn is_zero(bytes: &[u8]) -> bool
    ensures { (result ≡ true → (i : ℕ) → i < length bytes.now → get_or bytes.now i 0 ≡ 0) × (((i : ℕ) → i < length bytes.now → get_or bytes.now i 0 ≡ 0) → result ≡ true) }
{
    let mut any = 0;
    for byte in bytes {
        any |= *byte;
    }
    any == 0
}

// A zero block begins at n.
fn begins_zero_block(members: &[u8], n: usize) -> bool
    requires { (n < state_count) × (set_length ≤ length members.now) }
    ensures { result ≡ true → NoneFrom members.now n (n + 8 * set_block) }
{
    n % NUMBERS == 0 && is_zero(&members[n / 8..n / 8 + BLOCK])
}

// The least member at or after from, or 4096; no Option, since the loops over a set end there. A zero block and a zero byte cost one step.
pub fn next_member(members: &[u8], from: usize) -> usize
    requires { (from ≤ state_count) × (set_length ≤ length members.now) }
    ensures { result ≡ next_member members.now from }
{
    let mut n = from;
    while n < STATES {
        let byte = members[n / 8] >> (n % 8);
        if byte != 0 {
            return n + byte.trailing_zeros() as usize;
        }
        n = if begins_zero_block(members, n) {
            n + NUMBERS
        } else {
            n - n % 8 + 8
        };
    }
    n
}
