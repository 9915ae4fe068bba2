// Lent buffers: bytes cleared, copied and moved, and pages of numbers cleared.
#![tactic(auto)]

ghost use Rattle.std.specs.Prelude.{◌≡◌, ◌++◌, ◌+◌, ◌-◌, ◌≤◌, length, replicate, take};
ghost use Rattle.std.proofs.Math.Seq.{paste};
ghost use Rattle.model.specs.Calls.{zeros};
ghost use Rattle.buffers.specs.Buffers.{Cleared, fronted};

pub fn clear(buffer: &mut [u8])
    ensures { buffer.new ≡ zeros buffer.old }
{
    buffer.fill(0);
}

// Clears the bytes from `from` on and below `to`.
pub fn clear_part(buffer: &mut [u8], from: usize, to: usize)
    requires { (from ≤ to) × (to ≤ length buffer.old) }
    ensures { Cleared from to buffer.old buffer.new }
{
    buffer[from..to].fill(0);
}

// Copies the bytes to the front of a buffer.
pub fn copy(from: &[u8], to: &mut [u8])
    requires { length from.now ≤ length to.old }
    ensures { to.new ≡ paste to.old 0 from.now (length from.now) }
{
    to[..from.len()].copy_from_slice(from);
}

// Copies the bytes from `from` on to the front, as many as `count`.
#[tactic(auto, unfolding(crate::specs::Buffers::fronted))]
pub fn move_front(buffer: &mut [u8], from: usize, count: usize)
    requires { from + count ≤ length buffer.old }
    ensures { buffer.new ≡ fronted buffer.old from count }
{
    // Not copy_within, which the archive would import memmove for: the header promises memcpy and memset alone.
    for i in 0..count {
        buffer[i] = buffer[from + i];
    }
}

// ---- pages of numbers
// Zeros behind the first `used` numbers of the page.
pub fn clear_numbers_from(page: &mut [u16], used: usize)
    requires { used ≤ length page.old }
    ensures { page.new ≡ take used page.old ++ replicate (length page.old - used) 0 }
{
    page[used..].fill(0);
}
