// N: the first method of an interface that a type does not meet, as goscript's `missing_method`.
ghost use Rattle.std.specs.Prelude.{◌≡◌, true, List, ℕ, ◌+◌, ◌<◌, ◌≤◌, length, replicate};
ghost use Rattle.objects.specs.Bounds.{mark_words, max_elements};
ghost use Rattle.objects.specs.Table.{obj_key};
ghost use Rattle.objects.specs.Rows.{type_count, member_at, members_from, table_of};
ghost use Rattle.objects.specs.Types.{iface_read, member_type_read};
ghost use Rattle.rules.specs.Library.{Library};
ghost use Rattle.rules.specs.Missing.{compared, unmet_by, unmet, first_unmet, missing};
ghost use Rattle.selection.specs.Results.{result_meant, called_right, Typed, missing_meant};
ghost use Rattle.levels.specs.Hits.{Scratch};
ghost use Rattle.lookup.specs.Answers.{name_read, InTable, lack_of};

use crate::lookup_field_or_method;
use multiples::EmbeddedType;
use objects::rows::{
    first_member, iface_under, member_package, member_total, member_type, member_word, under,
};
use objects::{ObjKey, TypeKey};
use selection::{Entity, LookupResult, Missing, Name, own_member};
use typ::identical::identical;

// ---- one method

// "w is 1 where a method is there with another type"
fn compared(
    text: &[u8],
    rows: &[u32],
    marks: &mut [u32],
    m: ObjKey,
    found: ObjKey,
) -> Option<Missing>
    requires library { Library text.now rows.now }
    requires m_bound { ((member_type_read rows.now m).0 < type_count rows.now) × ((member_type_read rows.now found).0 < type_count rows.now) × (mark_words ≤ length marks.old) }
    requires marks_value { marks.old ≡ replicate (length marks.old) 0 }
    ensures result_value { missing_meant text.now rows.now result ≡ lack_of (member_at text.now rows.now m) (compared (table_of text.now rows.now) (member_at text.now rows.now m) (member_at text.now rows.now found)) }
    ensures marks_unchanged { marks.new ≡ marks.old }
{
    let x = member_type(rows, m);
    let y = member_type(rows, found);
    if identical(text, rows, marks, x, y) {
        None
    } else {
        Some(Missing {
            method: m,
            other_type: true,
        })
    }
}

// The name of m, asked for from m's own package.
fn name_of(rows: &[u32], m: ObjKey) -> Name
    ensures { result ≡ name_read rows.now m }
{
    Name {
        at: member_word(rows, m, 0),
        len: member_word(rows, m, 1),
        pkg: member_package(rows, m),
    }
}

// "t with an interface under it: only methods of other type count, and absent ones too if s is 1"
fn unmet_there(
    text: &[u8],
    rows: &[u32],
    marks: &mut [u32],
    t: TypeKey,
    m: ObjKey,
    s: bool,
) -> Option<Missing>
    requires library { Library text.now rows.now }
    requires t_bound { (t.0 < type_count rows.now) × InTable text.now rows.now m }
    requires t_value { (iface_read rows.now t ≡ true) × (mark_words ≤ length marks.old) }
    requires marks_value { marks.old ≡ replicate (length marks.old) 0 }
    ensures result_value { missing_meant text.now rows.now result ≡ lack_of (member_at text.now rows.now m) (unmet (table_of text.now rows.now) t s (member_at text.now rows.now m)) }
    ensures marks_unchanged { marks.new ≡ marks.old }
{
    let u = under(rows, t);
    let q = name_of(rows, m);
    match own_member(text, rows, u, text, q) {
        Some(own) => compared(text, rows, marks, m, own.member),
        None => s.then_some(Missing {
            method: m,
            other_type: false,
        }),
    }
}

// "any answer but an `entry` that is a method counts as unmet with w 0"
fn unmet_by(
    text: &[u8],
    rows: &[u32],
    marks: &mut [u32],
    m: ObjKey,
    res: LookupResult,
) -> Option<Missing>
    requires library { Library text.now rows.now }
    requires m_bound { ((member_type_read rows.now m).0 < type_count rows.now) × Typed rows.now res × (called_right rows.now res ≡ true) × (mark_words ≤ length marks.old) }
    requires marks_value { marks.old ≡ replicate (length marks.old) 0 }
    ensures by_index { (first second : List ℕ) → missing_meant text.now rows.now result ≡ lack_of (member_at text.now rows.now m) (unmet_by (table_of text.now rows.now) (member_at text.now rows.now m) (result_meant text.now rows.now res first second)) }
    ensures marks_unchanged { marks.new ≡ marks.old }
{
    let absent = Some(Missing {
        method: m,
        other_type: false,
    });
    match res {
        LookupResult::Entry(entity, _) => match entity {
            Entity::Method(found) => compared(text, rows, marks, m, found),
            Entity::Field(_) => absent,
        },
        _ => absent,
    }
}

// What t lacks of the one method m.
fn unmet(
    text: &[u8],
    rows: &[u32],
    marks: &mut [u32],
    walk: &mut [EmbeddedType],
    places: &mut [u32],
    t: TypeKey,
    m: ObjKey,
    s: bool,
) -> Option<Missing>
    requires library { Library text.now rows.now }
    requires t_bound { (t.0 < type_count rows.now) × InTable text.now rows.now m }
    requires mark_words_in_bounds { (mark_words ≤ length marks.old) × Scratch rows.now walk.old places.old }
    requires marks_value { marks.old ≡ replicate (length marks.old) 0 }
    ensures result_value { missing_meant text.now rows.now result ≡ lack_of (member_at text.now rows.now m) (unmet (table_of text.now rows.now) t s (member_at text.now rows.now m)) }
    ensures marks_unchanged { marks.new ≡ marks.old }
{
    if iface_under(rows, t) {
        return unmet_there(text, rows, marks, t, m, s);
    }
    let q = name_of(rows, m);
    let found = lookup_field_or_method(text, rows, walk, places, text, q, t, false);
    unmet_by(text, rows, marks, m, found.result)
}

// ---- all methods

// Of n methods from a first one on.
fn first_unmet(
    text: &[u8],
    rows: &[u32],
    marks: &mut [u32],
    walk: &mut [EmbeddedType],
    places: &mut [u32],
    t: TypeKey,
    first: u32,
    n: u32,
    s: bool,
) -> Option<Missing>
    requires library { Library text.now rows.now }
    requires t_bound { (t.0 < type_count rows.now) × ((i : ℕ) → i < n → InTable text.now rows.now (obj_key (first + i))) × (first + n ≤ max_elements) }
    requires mark_words_in_bounds { (mark_words ≤ length marks.old) × Scratch rows.now walk.old places.old }
    requires marks_value { marks.old ≡ replicate (length marks.old) 0 }
    ensures result_value { missing_meant text.now rows.now result ≡ first_unmet (table_of text.now rows.now) t s (members_from text.now rows.now first n) }
    ensures marks_unchanged { marks.new ≡ marks.old }
{
    for i in 0..n {
        let lack = unmet(text, rows, marks, walk, places, t, ObjKey(first + i), s);
        if lack.is_some() {
            return lack;
        }
    }
    None
}

// N
pub fn missing_method(
    text: &[u8],
    rows: &[u32],
    marks: &mut [u32],
    walk: &mut [EmbeddedType],
    places: &mut [u32],
    t: TypeKey,
    i: TypeKey,
    s: bool,
) -> Option<Missing>
    requires library { Library text.now rows.now }
    requires t_bound { (t.0 < type_count rows.now) × (i.0 < type_count rows.now) }
    requires mark_words_in_bounds { (mark_words ≤ length marks.old) × Scratch rows.now walk.old places.old }
    requires marks_value { marks.old ≡ replicate (length marks.old) 0 }
    ensures result_value { missing_meant text.now rows.now result ≡ missing (table_of text.now rows.now) t i s }
    ensures marks_unchanged { marks.new ≡ marks.old }
{
    if iface_under(rows, i) {
        let u = under(rows, i);
        let first = first_member(rows, u);
        let n = member_total(rows, u);
        first_unmet(text, rows, marks, walk, places, t, first, n, s)
    } else {
        None
    }
}
