// One line becomes a row, or is refused by its form, its place or its room ("4 to 6 are tried in turn on each line").
ghost use Rattle.std.specs.Prelude.{◌≡◌, ◌+◌, ◌≤◌, length};
ghost use Rattle.std.proofs.Math.Option.{some};
ghost use Rattle.objects.specs.Bounds.{max_text, max_elements, row_words, room_for};
ghost use Rattle.objects.specs.Lists.{Bytes};
ghost use Rattle.objects.specs.Table.{kind_number, type_key, Numbered};
ghost use Rattle.objects.specs.Rows.{element_count, bytes_at, package_meant, entity_of, table_of};
ghost use Rattle.objects.specs.Laid.{used, Laid, last_type};
ghost use Rattle.text.specs.Cursors.{fields_left};
ghost use Rattle.rules.specs.Forms.{package_line, type_line, member_line, line_of};
ghost use Rattle.rules.specs.Load.{last_kind};
ghost use Rattle.line_forms.specs.Steps.{bare_kind, all_read, elements_read, tuple_of};
ghost use Rattle.line_forms.specs.Weights.{weight};
ghost use Rattle.lines.specs.Adding.{Grown, TypeSpace, bytes_taken, with_elements, stands_at, member_room};

use line_forms::Form;
use line_forms::fields::small;
use line_forms::forms::parse;
use objects::bounds::{MAX_MEMBERS, MAX_PACKAGES, MAX_PER_TYPE, MAX_REFERENCE, MAX_TYPES};
use objects::kinds::{IFACE, NAMED, STRUCT, TUPLE};
use objects::refusals::Reason;
use objects::rows::{kind_number, member_count, member_total, package_count, type_count};
use objects::writers::{put_element, put_member, put_package, put_type};
use objects::{PackageKey, TypeKey};
use text::Cursor;

// The bounds, as the counts of rows are.
const PACKAGES: u32 = MAX_PACKAGES as u32;

const TYPES: u32 = MAX_TYPES as u32;

const MEMBERS: u32 = MAX_MEMBERS as u32;

const PER_TYPE: u32 = MAX_PER_TYPE as u32;

// ---- the type above

pub fn last(rows: &[u32]) -> TypeKey
    ensures { result ≡ last_type rows.now }
{
    TypeKey(type_count(rows).saturating_sub(1))
}

// The number of its kind, 0 where there is none.
pub fn above(rows: &[u32]) -> u32
    ensures { (text : Bytes) → result ≡ kind_number (last_kind (table_of text rows.now)) }
{
    if type_count(rows) == 0 {
        0
    } else {
        kind_number(rows, last(rows))
    }
}

// 5: "F not under a struct, M not under a named type or interface"
fn stands(form: u32, kind: u32) -> bool
    ensures { result ≡ stands_at form kind }
{
    if form < 2 {
        kind == STRUCT
    } else {
        kind == NAMED || kind == IFACE
    }
}

// 6: a member more than the bound, "or 256th member of one type"
fn member_room(rows: &[u32]) -> bool
    ensures { result ≡ member_room rows.now }
{
    member_count(rows) < MEMBERS && member_total(rows, last(rows)) < PER_TYPE
}

// ---- lines of right form

fn add_package(rows: &mut [u32], at: u32, count: u32, line: u32) -> Result<(), Reason>
    requires { Laid rows.old }
    ensures { (text : Bytes) → Grown text rows.old line (some (package_line (bytes_at text at count))) rows.new result }
{
    if 0 < type_count(rows) {
        return Err(Reason::Place);
    }
    if PACKAGES <= package_count(rows) {
        return Err(Reason::Room);
    }
    put_package(rows, at, count);
    Ok(())
}

fn add_type(rows: &mut [u32], kind: u32, a: u32, b: u32, c: u32, line: u32) -> Result<(), Reason>
    requires { Laid rows.old × TypeSpace rows.old }
    ensures { (text : Bytes) → Grown text rows.old line (some (type_line (bare_kind kind a b c))) rows.new result }
{
    if TYPES <= type_count(rows) {
        return Err(Reason::Room);
    }
    put_type(rows, kind, a, b, c, line);
    Ok(())
}

fn add_member(
    rows: &mut [u32],
    name: u32,
    count: u32,
    pkg: Option<PackageKey>,
    t: u32,
    form: u32,
    tag: u32,
    width: u32,
    line: u32,
) -> Result<(), Reason>
    requires { Laid rows.old × (used rows.old + row_words ≤ length rows.old) × Numbered (package_meant pkg) }
    ensures { (text : Bytes) → Grown text rows.old line (some (member_line (bytes_at text name count) (package_meant pkg) (type_key t) (entity_of form (bytes_at text tag width)))) rows.new result }
{
    if !stands(form, above(rows)) {
        return Err(Reason::Place);
    }
    if !member_room(rows) {
        return Err(Reason::Room);
    }
    put_member(rows, name, count, pkg, TypeKey(t), form, tag, width, line);
    Ok(())
}

// ---- tuples, whose elements are put as they are read: a line that is refused may leave some

// Whether each field that is left is a type's number.
fn listed(s: &[u8], c: Cursor) -> bool
    ensures { result ≡ all_read (fields_left s.now c) }
{
    let mut d = c;
    // a `while`, since where the next field begins is found on the way
    while !d.done() {
        let Some((_, e)) = small(s, d, MAX_REFERENCE) else {
            return false;
        };
        d = e;
    }
    true
}

// Each type's number that is left becomes an element of the last type, until a field is no number. Says whether all were numbers.
fn put_elements(s: &[u8], rows: &mut [u32], c: Cursor) -> bool
    requires { Laid rows.old × (kind_number (last_kind (table_of s.now rows.old)) ≡ 6) × (element_count rows.old + length (elements_read (fields_left s.now c)) ≤ max_elements)
        × (used rows.old + length (elements_read (fields_left s.now c)) ≤ length rows.old) }
    ensures value { result ≡ all_read (fields_left s.now c) }
    ensures laid { Laid rows.new }
    ensures rows_after { table_of s.now rows.new ≡ with_elements (table_of s.now rows.old) (elements_read (fields_left s.now c)) }
    ensures rows_after_2 { element_count rows.new ≡ element_count rows.old + length (elements_read (fields_left s.now c)) }
{
    let mut d = c;
    // a `while`, since where the next field begins is found on the way
    while !d.done() {
        let Some((v, e)) = small(s, d, MAX_REFERENCE) else {
            return false;
        };
        put_element(rows, TypeKey(v));
        d = e;
    }
    true
}

fn add_tuple(s: &[u8], rows: &mut [u32], c: Cursor, line: u32) -> Result<(), Reason>
    requires { Laid rows.old × (element_count rows.old + length (elements_read (fields_left s.now c)) ≤ max_elements)
        × (used rows.old + length (elements_read (fields_left s.now c)) ≤ length rows.old) × TypeSpace rows.old }
    ensures { Grown s.now rows.old line (tuple_of (fields_left s.now c)) rows.new result }
{
    if TYPES <= type_count(rows) {
        return if listed(s, c) {
            Err(Reason::Room)
        } else {
            Err(Reason::Form)
        };
    }
    put_type(rows, TUPLE, 0, 0, 0, line);
    if put_elements(s, rows, c) {
        Ok(())
    } else {
        Err(Reason::Form)
    }
}

// ---- any line

pub fn add_line(s: &[u8], rows: &mut [u32], c: Cursor, line: u32) -> Result<(), Reason>
    requires { (length s.now ≤ max_text) × Laid rows.old × (bytes_taken rows.old + weight (fields_left s.now c) ≤ length s.now) × (room_for (length s.now) ≤ length rows.old) }
    ensures { Grown s.now rows.old line (line_of (fields_left s.now c)) rows.new result }
{
    match parse(s, c) {
        Some(Form::Package(at, count)) => add_package(rows, at, count, line),
        Some(Form::Type(kind, a, b, d)) => add_type(rows, kind, a, b, d, line),
        Some(Form::Tuple(d)) => add_tuple(s, rows, d, line),
        Some(Form::Member(name, count, pkg, t, form, tag, width)) => {
            add_member(rows, name, count, pkg, t, form, tag, width, line)
        }
        None => Err(Reason::Form),
    }
}
