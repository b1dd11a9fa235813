// The program typeask between reading and writing. The input is parted into table and questions by the crate input, the table is loaded once (tables), and
// the questions are answered one after the other by the function that answers them for a call with many (asking, crate replies).
#![tactic(auto)]

ghost use Rattle.std.specs.Prelude.{◌≡◌, length, IfOk, OnOk};
ghost use Rattle.std.specs.Io.KnownBytes.{Appends};
ghost use Rattle.rules.specs.Typeask.{typeask};

pub mod asking;
pub mod tables;
pub mod writing;

use crate::tables::open_input;
use crate::writing::{print_all, refuse};
use objects::bounds::ALL_WORDS;
use std::io;
use std::io::Write;

// Writes all that is due for the input, `typeask input`. WHAT IS PROVED OF THE OUTPUT:
// - `open_input`: `typeask input` is the line of a refusal, or what is due for the questions (Opens);
// - `refuse`: the buffer that it hands to `write_all` is that line (Shows);
// - `next_piece`: what is due for the questions from a place on is the front of the buffer and what is due from the next place on (Prints);
// - `show`, the only other function that writes: what it hands to `write_all` are those bytes of what is due that stand at the place that it is told, and it
//   answers the place behind them (Stands). The first place is 0, and each place answered is the next one told;
// - this function answers the last place: as many bytes as are due (the clause `place`);
// - at a writer whose bytes are known it has written `typeask input`, each byte once and in order, behind what the writer had (the clause `bytes`).
// proofs/Trace.antt puts the first ones together: pieces each of which stands where the one before ends, up to the end, are `typeask input`. No contract can say
// what standard output does with the bytes that it is handed. A write that fails ends this function with the writer's error, and it answers no other; how much of
// what is due was written before is not said.
pub fn run<W: Write>(to: &mut W, input: &[u8]) -> io::Result<usize>
    ensures place { IfOk result (λ n. n ≡ length (typeask input.now)) }
    ensures bytes { OnOk result (Appends (W.contents to.old) (W.contents to.new) (typeask input.now)) }
{
    let mut rows = [0u32; ALL_WORDS];
    let parts = match open_input(input, &mut rows) {
        Ok(parts) => parts,
        Err(refusal) => return refuse(to, input, refusal.reason.number(), refusal.line),
    };
    match parts {
        None => print_all(to, input, &rows, b"V"),
        Some((end, next)) => print_all(to, &input[0..end], &rows, &input[next..]),
    }
}
