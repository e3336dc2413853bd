#![tactic(auto)]

// Bytes from a reader into a lent buffer.
ghost use Rattle.std.specs.Prelude.{◌≡◌, ◌≤◌, ◌<◌, length, take, IfOk};
ghost use Rattle.std.specs.Io.KnownBytes.{Consumes, IsAtEnd};

use std::io;
use std::io::Read;

// Reads until the buffer is full or the input ends, and answers how many bytes the buffer holds then: these are the next bytes of the input, and
// none is left where they do not fill the buffer. The library reads to the end of an input only into a Vec; here the memory is fixed.
pub fn read_full<R: Read>(input: &mut R, buffer: &mut [u8]) -> io::Result<usize>
    ensures size { length buffer.new ≡ length buffer.old }
    ensures within { IfOk result (λ n. n ≤ length buffer.new) }
    ensures bytes { IfOk result (λ n. Consumes (R.remaining input.old) (R.remaining input.new) (take n buffer.new)) }
    ensures end { IfOk result (λ n. n < length buffer.new → IsAtEnd (R.remaining input.new)) }
{
    let mut held = 0;
    while held < buffer.len() {
        let n = input.read(&mut buffer[held..])?;
        if n == 0 {
            return Ok(held);
        }
        held += n;
    }
    Ok(held)
}
