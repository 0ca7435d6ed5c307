// The program. "It reads at most 1,217 bytes from standard input", and prints what the crate verdict answers to them.
#![tactic(auto)]

ghost use Rattle.std.specs.Prelude.{IfOk, ◌≤◌, length};

use std::io::{self, Read};

// Reads until the room or the input ends, and says how many bytes there were. Each read asks for all that there is room for, and one that
// fails, also since a signal interrupts it, is handed on.
fn read_full(from: &mut impl Read, room: &mut [u8]) -> io::Result<usize>
    ensures { IfOk result (λ n. n ≤ length room.new) }
{
    let mut n: usize = 0;
    for _ in 0..room.len() {
        let read = from.read(&mut room[n..])?;
        if read == 0 {
            return Ok(n);
        }
        n += read;
    }
    Ok(n)
}

fn main(rt: HostRuntime) -> io::Result<()> {
    let mut input: [u8; 1217] = [0; 1217];
    let n = read_full(&mut rt.stdin(), &mut input)?;
    let lines = verdict::verdict(&input[..n]);
    rt.write_all(&lines.bytes[..lines.len])
}
