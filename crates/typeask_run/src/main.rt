// Runs the program typeask on each input of standard input, and prints its number before what it prints. Each input stands behind its length, five
// digits and a newline. The inputs and what is due for them are made by tools/ask_sample.py.
#![tactic(auto)]

use frames::ROOM;
use std::io;
use std::io::Write;

// What is printed for the input of number k.
fn one<W: Write>(out: &mut W, k: u32, input: &[u8]) -> io::Result<()> {
    writeln!(out, "== {k}")?;
    program::run(out, input)?;
    Ok(())
}

fn main(rt: HostRuntime) -> io::Result<()> {
    let mut buf = [0u8; ROOM];
    let mut k: u32 = 0;
    // There are at most 10,000 inputs, so that no number comes twice.
    frames::each(&mut rt.stdin(), &mut rt.stdout(), &mut buf, |out, input| {
        let number = k;
        k = k.wrapping_add(1);
        one(out, number, input)
    })
}
