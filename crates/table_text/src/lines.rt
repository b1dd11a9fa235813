// One line of a table, written from its rows.
ghost use Rattle.std.specs.Prelude.{◌+◌, ◌≤◌, ◌<◌, length};
ghost use Rattle.objects.specs.Bounds.{word_values};
ghost use Rattle.objects.specs.Types.{first_read, total_read};
ghost use Rattle.print.specs.Written.{Wrote, line_end};
ghost use Rattle.table_text.specs.Rows.{element_numbers, type_text, package_text, member_text};

use crate::parts::{
    carried, first_number, form_flag, number_count, put_end, put_kind, put_letter, put_package,
    put_part, put_tag,
};
use crate::pieces::put_pieces;
use objects::kinds::TUPLE;
use objects::rows::{
    element, first_member, kind_number, member_total, member_word, package_word, type_word,
};
use objects::{ObjKey, PackageKey, TypeKey};
use print::{put_field, put_line, put_word};

// The elements of a tuple, and the newline.
fn put_elements(
    out: &mut [u8],
    at: usize,
    rows: &[u32],
    numbers: &[u32],
    first: u32,
    count: u32,
) -> usize
    requires { (first + count < word_values) × (at + length (line_end (element_numbers numbers.now rows.now first count)) ≤ length out.old) }
    ensures { Wrote out.old at (line_end (element_numbers numbers.now rows.now first count)) out.new result }
{
    let i = put_pieces(out, at, first, count, |o, i, j| {
        put_field(o, i, carried(numbers, element(rows, j).0))
    });
    put_end(out, i)
}

// THE T LINE OF A TYPE. A row's first element and their count are numbers of 32 bits together, as in every table that was loaded.
pub fn put_type_line(out: &mut [u8], at: usize, rows: &[u32], numbers: &[u32], t: TypeKey) -> usize
    requires { (first_read rows.now t + total_read rows.now t < word_values) × (at + length (type_text numbers.now rows.now t) ≤ length out.old) }
    ensures { Wrote out.old at (type_text numbers.now rows.now t) out.new result }
{
    let k = kind_number(rows, t);
    let i = put_kind(out, at, k);
    if k == TUPLE {
        let first = first_member(rows, t);
        let count = member_total(rows, t);
        return put_elements(out, i, rows, numbers, first, count);
    }
    let line = [
        first_number(numbers, k, type_word(rows, t, 1)),
        carried(numbers, type_word(rows, t, 2)),
        carried(numbers, type_word(rows, t, 3)),
    ];
    let n = number_count(k);
    put_line(out, i, b"", &line, n)
}

// THE P LINE OF A PACKAGE.
pub fn put_package_line(
    out: &mut [u8],
    at: usize,
    text: &[u8],
    rows: &[u32],
    p: PackageKey,
) -> usize
    requires { at + length (package_text text.now rows.now p) ≤ length out.old }
    ensures { Wrote out.old at (package_text text.now rows.now p) out.new result }
{
    let from = package_word(rows, p, 0) as usize;
    let count = package_word(rows, p, 1) as usize;
    let i = put_word(out, at, b"P\t");
    let j = put_part(out, i, text, from, count);
    put_end(out, j)
}

// THE F OR M LINE OF A MEMBER.
pub fn put_member_line(
    out: &mut [u8],
    at: usize,
    text: &[u8],
    rows: &[u32],
    numbers: &[u32],
    m: ObjKey,
) -> usize
    requires { at + length (member_text numbers.now text.now rows.now m) ≤ length out.old }
    ensures { Wrote out.old at (member_text numbers.now text.now rows.now m) out.new result }
{
    let name = member_word(rows, m, 0) as usize;
    let len = member_word(rows, m, 1) as usize;
    let pkg = member_word(rows, m, 2);
    let old = member_word(rows, m, 3);
    let new = carried(numbers, old);
    let form = member_word(rows, m, 4);
    let tag = member_word(rows, m, 5) as usize;
    let tag_len = member_word(rows, m, 6) as usize;
    let flag = form_flag(form);
    let a = put_letter(out, at, form);
    let b = put_part(out, a, text, name, len);
    let c = put_package(out, b, pkg);
    let d = put_field(out, c, new);
    let e = put_field(out, d, flag);
    let f = put_tag(out, e, text, form, tag, tag_len);
    put_end(out, f)
}
