// Several inputs in one: each stands behind its length, five digits and a newline. So the programs that run on stored inputs have them on standard input.
#![tactic(auto)]

ghost use Rattle.std.specs.Prelude.{◌≡◌, ◌≤◌, length, IfOk};
ghost use Rattle.frames.specs.Frames.{Fits};

use objects::bounds::MAX_TEXT;
use std::io;
use std::io::{ErrorKind, Read, Write};

// A buffer of so many bytes takes inputs that are longer than any that loads.
pub const ROOM: usize = MAX_TEXT + 32;

// The inputs that are read; those behind them are not.
const MAX_INPUTS: u32 = 10_000;

fn digit(b: u8) -> usize
    ensures { result ≤ 9 }
{
    if b.is_ascii_digit() {
        usize::from(b - b'0')
    } else {
        0
    }
}

fn number(head: &[u8; 6]) -> usize
    ensures { result ≤ 99_999 }
{
    let a = digit(head[0]) * 10 + digit(head[1]);
    let b = digit(head[2]) * 100 + digit(head[3]) * 10 + digit(head[4]);
    a * 1_000 + b
}

// Whether the reader had as many bytes left as the buffer has. If so, they stand there.
fn fill<R: Read>(from: &mut R, buf: &mut [u8]) -> io::Result<bool> {
    match from.read_exact(buf) {
        Ok(()) => Ok(true),
        Err(e) if e.kind() == ErrorKind::UnexpectedEof => Ok(false),
        Err(e) => Err(e),
    }
}

// Reads the next input to the front of the buffer, and answers its length. One that is cut short or has no room there ends them, and so does the end of what is
// read. An error is the reader's.
pub fn next<R: Read>(from: &mut R, buf: &mut [u8]) -> io::Result<Option<usize>>
    ensures { IfOk result (λ f. Fits (length buf.old) f) }
{
    let mut head = [0u8; 6];
    if !fill(from, &mut head)? {
        return Ok(None);
    }
    let n = number(&head);
    if buf.len() < n || !fill(from, &mut buf[0..n])? {
        return Ok(None);
    }
    Ok(Some(n))
}

// Reads input after input into the buffer, and hands each to what is done with one, with what it writes to. The first error ends them. No contract says what the calls write: that is for the runs on stored inputs.
pub fn each<R: Read, W: Write, F: FnMut(&mut W, &[u8]) -> io::Result<()>>(
    from: &mut R,
    out: &mut W,
    buf: &mut [u8],
    mut one: F,
) -> io::Result<()>
    requires { F.IsAlwaysCallable one }
    ensures { length buf.new ≡ length buf.old }
{
    for _ in 0..MAX_INPUTS {
        let Some(n) = next(from, buf)? else {
            return Ok(());
        };
        one(out, &buf[0..n])?;
    }
    Ok(())
}
