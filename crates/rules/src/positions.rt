// Sets of positions in lent bytes, 32 bytes each, eight positions to a byte.
ghost use Rattle.std.specs.Prelude.{◌≡◌, ◌+◌, ◌<◌, ◌≤◌, length};
ghost use Rattle.rules.specs.Regions.{BytesWritten, SetAdded, has_position, position_ceiling, position_bytes, with_position};

use buffers::clear_part;

// The bytes of a set of positions, and how many it may have.
pub const POSITION_BYTES: usize = 32;

pub const POSITIONS: usize = 8 * POSITION_BYTES;

// Position p is in the set at `at`.
pub fn contains(s: &[u8], at: usize, p: usize) -> bool
    requires { (p < position_ceiling) × (at + position_bytes ≤ length s.now) }
    ensures { result ≡ has_position s.now at p }
{
    (s[at + p / 8] >> (p % 8)) % 2 == 1
}

pub fn insert(s: &mut [u8], at: usize, p: usize)
    requires { (p < position_ceiling) × (at + position_bytes ≤ length s.old) }
    ensures { s.new ≡ with_position s.old at p }
{
    let i = at + p / 8;
    s[i] |= 1 << (p % 8);
}

// Clears n bytes from `at` on.
pub fn clear(s: &mut [u8], at: usize, n: usize)
    requires { at + n ≤ length s.old }
    ensures { BytesWritten at (λ _. 0) n s.old s.new }
{
    clear_part(s, at, at + n);
}

// Adds the positions of the set at `from` to the one at `to`, before it.
pub fn add(s: &mut [u8], from: usize, to: usize)
    requires { (to + position_bytes ≤ from) × (from + position_bytes ≤ length s.old) }
    ensures { SetAdded from to s.old s.new }
{
    for i in 0..POSITION_BYTES {
        s[to + i] |= s[from + i];
    }
}
