// Loads each table of standard input and prints it tidy: the text of the tidied table, or `refused`, the number and the line. Each table stands behind its length,
// five digits and a newline. The input and what is due for it are made by tools/tidy_sample.py.
#![tactic(auto)]

use frames::ROOM;
use objects::bounds::{ALL_WORDS, MAX_TEXT};
use objects::refusals::{Reason, Refusal};
use reply::Unsaid;
use std::io;
use std::io::Write;

fn refused<W: Write>(out: &mut W, reason: Reason, line: u32) -> io::Result<()> {
    let n = reason.number();
    writeln!(out, "refused\t{n}\t{line}")
}

// The text of the tidied table, put in front of the output.
fn tidied(text: &[u8], output: &mut [u8]) -> Result<usize, Unsaid> {
    let mut rows = [0u32; ALL_WORDS];
    table::load(text, &mut rows)?;
    tidy::tidy(text, &rows, output)
}

fn one<W: Write>(out: &mut W, text: &[u8]) -> io::Result<()> {
    let mut output = [0u8; MAX_TEXT];
    match tidied(text, &mut output) {
        Ok(n) => out.write_all(output.get(..n).unwrap_or(&[])),
        Err(Unsaid::Refused(Refusal { reason, line })) => refused(out, reason, line),
        Err(Unsaid::Long(_)) => refused(out, Reason::AnswerShort, 0),
    }
}

fn main(rt: HostRuntime) -> io::Result<()> {
    let mut buf = [0u8; ROOM];
    frames::each(&mut rt.stdin(), &mut rt.stdout(), &mut buf, one)
}
