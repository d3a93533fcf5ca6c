// Reads a run list from standard input and writes its answer to standard output.
#![tactic(auto)]

ghost use Rattle.std.specs.Prelude.{◌≤◌, length, IfOk};

use runlist::{Error, answer};
use std::io;
use std::io::Read;

// One byte more than the longest run list has, which is enough to see that a text is longer.
const ENOUGH: usize = 16385;

// Reads until the input ends or the buffer is full; gives how much was read. The text stands in a buffer of its own, since
// `read_to_end` would ask for memory, and a refused text is to be answered without.
fn fill(rt: &HostRuntime, buffer: &mut [u8; ENOUGH]) -> io::Result<usize>
    ensures { IfOk result (λ n. n ≤ 16385) }
{
    let mut input = rt.stdin();
    let mut filled = 0;
    for _ in 0..ENOUGH {
        let count = input.read(&mut buffer[filled..])?;
        if count == 0 {
            break;
        }
        filled += count;
    }
    Ok(filled)
}

fn main(rt: HostRuntime) -> anyhow::Result<()> {
    let mut text = [0; ENOUGH];
    let length = fill(&rt, &mut text)?;
    match answer(rt.alloc(), &text[..length]) {
        Ok(answers) => print!(rt; "{answers}")?,
        Err(Error::OutOfMemory) => return Err(Error::OutOfMemory.into()),
        Err(refused) => print!(rt; "{refused}")?,
    }
    Ok(())
}
