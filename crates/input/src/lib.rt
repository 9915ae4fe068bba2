// What a program reads, in a buffer of a fixed length.
#![tactic(auto)]

ghost use Rattle.std.specs.Prelude.{◌<◌, length, take, IfOk};
ghost use Rattle.std.specs.Io.{ReadsAtMost};
ghost use Rattle.std.specs.Io.KnownBytes.{Consumes, IsAtEnd};

use std::io;
use std::io::Read;

// Reads until the buffer is full or the input is at its end, and gives how many bytes it put at the buffer's start. What stands behind them is not read.
pub fn fill<R: Read>(from: &mut R, buffer: &mut [u8]) -> io::Result<usize>
    ensures in_bounds { ReadsAtMost result buffer.new }
    ensures bytes { IfOk result (λ n. Consumes (R.remaining from.old) (R.remaining from.new) (take n buffer.new)) }
    ensures whole { IfOk result (λ n. n < length buffer.new → IsAtEnd (R.remaining from.new)) }
{
    // A read gives any number of bytes, so the loop counts no turns.
    let mut end = 0;
    while end < buffer.len() {
        let n = from.read(&mut buffer[end..])?;
        if n == 0 {
            return Ok(end);
        }
        end += n;
    }
    Ok(end)
}
