// Loads each table of standard input and prints what loading gives: `ok` and the counts of packages, types and members, or `refused`, the number and the line.
// Each table stands behind its length, five digits and a newline. The input and what is due for it are made by tools/load_sample.py.
#![tactic(auto)]

use frames::ROOM;
use objects::bounds::ALL_WORDS;
use objects::rows::{member_count, package_count, type_count};
use std::io;
use std::io::Write;

fn one<W: Write>(out: &mut W, text: &[u8]) -> io::Result<()> {
    let mut rows = [0u32; ALL_WORDS];
    if let Err(r) = table::load(text, &mut rows) {
        let number = r.reason.number();
        let line = r.line;
        return writeln!(out, "refused\t{number}\t{line}");
    }
    let packages = package_count(&rows);
    let types = type_count(&rows);
    let members = member_count(&rows);
    writeln!(out, "ok\t{packages}\t{types}\t{members}")
}

fn main(rt: HostRuntime) -> io::Result<()> {
    let mut buf = [0u8; ROOM];
    frames::each(&mut rt.stdin(), &mut rt.stdout(), &mut buf, one)
}
