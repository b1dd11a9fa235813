// The program of document 01: standard input has a table, a line `Q` and questions; the answers go to standard output. One byte more than the most that
// the input may have is read, so that an input that is too long shows. A read or a write that fails ends it with the error, and status 1.
#![tactic(auto)]

ghost use Rattle.std.specs.Prelude.{◌≤◌, length, IfOk};

use objects::bounds::MAX_TEXT;
use std::io;
use std::io::Read;

// Reads until the buffer is full or the input ends, and answers how many bytes stand at its front. An error is the reader's. By hand, since `read_to_end` needs the
// heap, and `read_exact` as many bytes as the buffer has.
fn read_full<R: Read>(from: &mut R, buf: &mut [u8]) -> io::Result<usize>
    ensures { IfOk result (λ n. n ≤ length buf.new) }
{
    let mut at: usize = 0;
    while at < buf.len() {
        let n = from.read(&mut buf[at..])?;
        if n == 0 {
            break;
        }
        at += n;
    }
    Ok(at)
}

fn main(rt: HostRuntime) -> io::Result<()> {
    let mut input = [0u8; MAX_TEXT + 1];
    let n = read_full(&mut rt.stdin(), &mut input)?;
    program::run(&mut rt.stdout(), &input[..n])?;
    Ok(())
}
