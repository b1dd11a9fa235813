// The text of a table and loading are inverse to each other: what loaded is written back to the byte, and what is written out loads as the table that it was
// (the text is defined in crate edits; the theorems are proofs/TextBack.antt, proofs/LineReads.antt and proofs/SoundLoads.antt). The code writes it from the rows
// of a table: `put_table`, and with other type numbers `put_type` and what stands under it.
#![tactic(auto)]

ghost use Rattle.std.specs.Prelude.{◌+◌, ◌≤◌, ◌<◌, length};
ghost use Rattle.objects.specs.Bounds.{word_values};
ghost use Rattle.objects.specs.Laid.{Laid};
ghost use Rattle.objects.specs.Rows.{table_of};
ghost use Rattle.objects.specs.Types.{first_read, total_read};
ghost use Rattle.print.specs.Written.{Wrote};
ghost use Rattle.edits.specs.TableText.{text_of};
ghost use Rattle.table_text.specs.Rows.{members_text, type_lines_text, packages_text, types_text, Small};

use crate::lines::{put_member_line, put_package_line, put_type_line};
use crate::pieces::put_pieces;
use objects::kinds::STRUCT;
use objects::rows::{first_member, kind_number, member_total, package_count, type_count};
use objects::{ObjKey, PackageKey, TypeKey};
use print::put_word;

pub mod lines; // one line
pub mod parts; // what a line is made of
pub mod pieces; // one after the other

// The lines of count members from a first one on.
fn put_members(
    out: &mut [u8],
    at: usize,
    text: &[u8],
    rows: &[u32],
    numbers: &[u32],
    first: u32,
    count: u32,
) -> usize
    requires { (first + count < word_values) × (at + length (members_text numbers.now text.now rows.now first count) ≤ length out.old) }
    ensures { Wrote out.old at (members_text numbers.now text.now rows.now first count) out.new result }
{
    put_pieces(out, at, first, count, |o, i, j| {
        put_member_line(o, i, text, rows, numbers, ObjKey(j))
    })
}

// THE LINES OF A TYPE: its T line, and its F or M lines. The kinds before struct have no members.
pub fn put_type(
    out: &mut [u8],
    at: usize,
    text: &[u8],
    rows: &[u32],
    numbers: &[u32],
    t: TypeKey,
) -> usize
    requires { (first_read rows.now t + total_read rows.now t < word_values) × (at + length (type_lines_text numbers.now text.now rows.now t) ≤ length out.old) }
    ensures { Wrote out.old at (type_lines_text numbers.now text.now rows.now t) out.new result }
{
    let i = put_type_line(out, at, rows, numbers, t);
    if kind_number(rows, t) < STRUCT {
        return i;
    }
    let first = first_member(rows, t);
    let count = member_total(rows, t);
    put_members(out, i, text, rows, numbers, first, count)
}

// All P lines.
pub fn put_packages(out: &mut [u8], at: usize, text: &[u8], rows: &[u32]) -> usize
    requires { at + length (packages_text text.now rows.now) ≤ length out.old }
    ensures { Wrote out.old at (packages_text text.now rows.now) out.new result }
{
    put_pieces(out, at, 0, package_count(rows), |o, i, j| {
        put_package_line(o, i, text, rows, PackageKey(j))
    })
}

// All types with their members.
fn put_types(out: &mut [u8], at: usize, text: &[u8], rows: &[u32], numbers: &[u32]) -> usize
    requires { Small rows.now × (at + length (types_text numbers.now text.now rows.now) ≤ length out.old) }
    ensures { Wrote out.old at (types_text numbers.now text.now rows.now) out.new result }
{
    put_pieces(out, at, 0, type_count(rows), |o, i, j| {
        put_type(o, i, text, rows, numbers, TypeKey(j))
    })
}

// THE TEXT OF THE TABLE THAT THE ROWS HOLD.
pub fn put_table(out: &mut [u8], at: usize, text: &[u8], rows: &[u32]) -> usize
    requires { Laid rows.now × (at + length (text_of (table_of text.now rows.now)) ≤ length out.old) }
    ensures { Wrote out.old at (text_of (table_of text.now rows.now)) out.new result }
{
    let i = put_word(out, at, b"typetable\t1\n");
    let j = put_packages(out, i, text, rows);
    put_types(out, j, text, rows, &rows[0..0])
}
