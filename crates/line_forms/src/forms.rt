// The form of a line (4), letter by letter and kind by kind. A tuple's elements are still to be read: `unread` bounds them by the bytes of the line.
ghost use Rattle.std.specs.Prelude.{◌≡◌, ◌+◌, ◌≤◌, length};
ghost use Rattle.objects.specs.Bounds.{max_text};
ghost use Rattle.text.specs.Cursors.{fields_left};
ghost use Rattle.rules.specs.Forms.{line_of};
ghost use Rattle.line_forms.specs.Steps.{none_rest, one_rest, two_rest, func_rest, last_kinds, next_kinds, type_rest, package_rest, field_rest, method_rest};
ghost use Rattle.line_forms.specs.Weights.{weight};
ghost use Rattle.line_forms.specs.Forms.{form_read, form_meant, unread};

use crate::Form;
use crate::fields::{method_name, placed, small, typed};
use objects::bounds::{MAX_ARRAY, MAX_BASIC, MAX_REFERENCE};
use objects::kinds::{CHAN, FUNC, IFACE, NAMED, POINTER, SLICE, STRUCT};
use text::Cursor;

// The kinds that objects::kinds has no names for, in the order of `Type`.
const BASIC: u32 = 0;

const ARRAY: u32 = 1;

const MAP: u32 = 4;

// ---- T lines, by how many numbers stand behind the kind's word

fn none(s: &[u8], c: Cursor, kind: u32) -> Option<Form>
    ensures result_value { form_read s.now result ≡ none_rest kind (fields_left s.now c) }
    ensures result_value_2 { unread s.now result ≡ 0 }
{
    c.done().then_some(Form::Type(kind, 0, 0, 0))
}

fn one(s: &[u8], c: Cursor, kind: u32, max: u32) -> Option<Form>
    ensures result_value { form_read s.now result ≡ one_rest kind max (fields_left s.now c) }
    ensures result_value_2 { unread s.now result ≡ 0 }
{
    let (a, d) = small(s, c, max)?;
    d.done().then_some(Form::Type(kind, a, 0, 0))
}

fn two(s: &[u8], c: Cursor, kind: u32, max: u32) -> Option<Form>
    ensures result_value { form_read s.now result ≡ two_rest kind max (fields_left s.now c) }
    ensures result_value_2 { unread s.now result ≡ 0 }
{
    let (a, d) = small(s, c, max)?;
    let (b, e) = small(s, d, MAX_REFERENCE)?;
    e.done().then_some(Form::Type(kind, a, b, 0))
}

fn func(s: &[u8], c: Cursor) -> Option<Form>
    ensures result_value { form_read s.now result ≡ func_rest (fields_left s.now c) }
    ensures result_value_2 { unread s.now result ≡ 0 }
{
    let (v, d) = small(s, c, 1)?;
    let (p, e) = small(s, d, MAX_REFERENCE)?;
    let (r, f) = small(s, e, MAX_REFERENCE)?;
    f.done().then_some(Form::Type(FUNC, v, p, r))
}

// ---- T lines, by the kind's word

fn last_kinds(s: &[u8], c: Cursor) -> Option<Form>
    ensures result_value { form_read s.now result ≡ last_kinds (fields_left s.now c) }
    ensures result_value_2 { unread s.now result ≡ 0 }
{
    if let Some(d) = c.word(s, b"struct") {
        return none(s, d, STRUCT);
    }
    if let Some(d) = c.word(s, b"iface") {
        return none(s, d, IFACE);
    }
    let d = c.word(s, b"named")?;
    one(s, d, NAMED, MAX_REFERENCE)
}

fn next_kinds(s: &[u8], c: Cursor) -> Option<Form>
    ensures result_value { form_read s.now result ≡ next_kinds (fields_left s.now c) }
    ensures result_bound { unread s.now result ≤ 2 + weight (fields_left s.now c) }
{
    if let Some(d) = c.word(s, b"map") {
        return two(s, d, MAP, MAX_REFERENCE);
    }
    if let Some(d) = c.word(s, b"chan") {
        return two(s, d, CHAN, 2);
    }
    if let Some(d) = c.word(s, b"tuple") {
        return Some(Form::Tuple(d));
    }
    if let Some(d) = c.word(s, b"func") {
        return func(s, d);
    }
    last_kinds(s, c)
}

fn type_line(s: &[u8], c: Cursor) -> Option<Form>
    ensures result_value { form_read s.now result ≡ type_rest (fields_left s.now c) }
    ensures result_bound { unread s.now result ≤ 2 + weight (fields_left s.now c) }
{
    if let Some(d) = c.word(s, b"basic") {
        return one(s, d, BASIC, MAX_BASIC);
    }
    if let Some(d) = c.word(s, b"array") {
        return two(s, d, ARRAY, MAX_ARRAY);
    }
    if let Some(d) = c.word(s, b"slice") {
        return one(s, d, SLICE, MAX_REFERENCE);
    }
    if let Some(d) = c.word(s, b"pointer") {
        return one(s, d, POINTER, MAX_REFERENCE);
    }
    next_kinds(s, c)
}

// ---- P, F and M lines

fn package_line(s: &[u8], c: Cursor) -> Option<Form>
    requires { length s.now ≤ max_text }
    ensures result_value { form_read s.now result ≡ package_rest (fields_left s.now c) }
    ensures result_value_2 { unread s.now result ≡ 0 }
{
    let path = placed(s, c.path(s))?;
    path.rest.done().then_some(Form::Package(path.at, path.len))
}

fn field_line(s: &[u8], c: Cursor) -> Option<Form>
    requires { length s.now ≤ max_text }
    ensures result_value { form_read s.now result ≡ field_rest (fields_left s.now c) }
    ensures result_value_2 { unread s.now result ≡ 0 }
{
    let name = placed(s, c.name(s))?;
    let field = typed(s, name.rest)?;
    if field.rest.done() {
        return Some(Form::Member(name.at, name.len, field.pkg, field.t, field.bit, 0, 0));
    }
    let tag = placed(s, field.rest.tag(s))?;
    tag.rest.done().then_some(Form::Member(
        name.at, name.len, field.pkg, field.t, field.bit, tag.at, tag.len,
    ))
}

fn method_line(s: &[u8], c: Cursor) -> Option<Form>
    requires { length s.now ≤ max_text }
    ensures result_value { form_read s.now result ≡ method_rest (fields_left s.now c) }
    ensures result_value_2 { unread s.now result ≡ 0 }
{
    let name = method_name(s, c)?;
    let sig = typed(s, name.rest)?;
    sig.rest.done().then_some(Form::Member(name.at, name.len, sig.pkg, sig.t, 2 + sig.bit, 0, 0))
}

// ---- any line, by its letter

pub fn parse(s: &[u8], c: Cursor) -> Option<Form>
    requires { length s.now ≤ max_text }
    ensures result_value { form_meant s.now result ≡ line_of (fields_left s.now c) }
    ensures result_bound { unread s.now result ≤ weight (fields_left s.now c) }
{
    if let Some(d) = c.word(s, b"P") {
        return package_line(s, d);
    }
    if let Some(d) = c.word(s, b"T") {
        return type_line(s, d);
    }
    if let Some(d) = c.word(s, b"F") {
        return field_line(s, d);
    }
    let d = c.word(s, b"M")?;
    method_line(s, d)
}
