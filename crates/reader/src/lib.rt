//! What the programs read: standard input, as far as a buffer goes.
#![tactic(auto)]

ghost use Rattle.std.specs.Prelude.{◌≤◌, IfOk, length};

use std::io;
use std::io::Read;

/// Reads until the buffer is full or the input ends, and answers how many bytes were read.
// This loop stays: `read_to_end` takes memory, which can run out, and the clause `fits` does not follow from `io::copy` into the
// buffer, whose contract bounds no count where the input's bytes are not known. Its step is what `read` gives, so it is no `for`.
pub fn read_full(rt: &impl Input, buf: &mut [u8]) -> io::Result<usize>
    ensures fits { IfOk result (λ n. n ≤ length buf.old) }
{
    let mut from = rt.reader();
    let mut n = 0;
    while n < buf.len() {
        let more = from.read(&mut buf[n..])?;
        if more == 0 {
            break;
        }
        n += more;
    }
    Ok(n)
}
