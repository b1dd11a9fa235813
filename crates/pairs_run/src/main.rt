// Compares the last two types of each table of standard input, from no pair met, and prints `yes` or `no` and how many pairs of types were met: what was put
// off stays so. A refused table prints `refused`, one of fewer than two types `none`. The tables stand behind their lengths (crate frames). They and what is
// due for them are made by tools/pairs_sample.py.
#![tactic(auto)]

ghost use Rattle.std.specs.Prelude.{◌≤◌, length};
ghost use Rattle.objects.specs.Bounds.{work_words};
ghost use Rattle.rules.specs.Library.{Library};

use frames::ROOM;
use objects::TypeKey;
use objects::bounds::{ALL_WORDS, MAX_TYPES, WORK_WORDS};
use objects::rows::type_count;
use pair_marks::classes::number;
use std::io;
use std::io::Write;
use typ::identical::identical_impl;

// How many pairs of types were met.
fn pairs_met(marks: &[u32]) -> u32
    requires { length marks.now ≤ work_words }
{
    let mut n: u32 = 0;
    for word in marks {
        n += word.count_ones();
    }
    n
}

fn show<W: Write>(out: &mut W, same: bool, pairs: u32) -> io::Result<()> {
    let answer = if same { "yes" } else { "no" };
    writeln!(out, "{answer}\t{pairs}")
}

// Every type begins as a class of its own.
fn compare<W: Write>(out: &mut W, text: &[u8], rows: &[u32]) -> io::Result<()>
    requires { Library text.now rows.now }
{
    let n = type_count(rows);
    if n < 2 {
        return out.write_all(b"none\n");
    }
    let mut marks = [0u32; WORK_WORDS];
    let mut labels = [0u32; MAX_TYPES];
    number(&mut labels);
    let x = TypeKey(n - 2);
    let y = TypeKey(n - 1);
    let same = identical_impl(text, rows, &mut marks, &mut labels, x, y, 0);
    let pairs = pairs_met(&marks);
    show(out, same, pairs)
}

fn one<W: Write>(out: &mut W, text: &[u8]) -> io::Result<()> {
    let mut rows = [0u32; ALL_WORDS];
    match table::load(text, &mut rows) {
        Ok(()) => compare(out, text, &rows),
        Err(_) => out.write_all(b"refused\n"),
    }
}

fn main(rt: HostRuntime) -> io::Result<()> {
    let mut buf = [0u8; ROOM];
    frames::each(&mut rt.stdin(), &mut rt.stdout(), &mut buf, one)
}
